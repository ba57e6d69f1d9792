// What a step of reading answers, refusals, and sums put on the stack. The stack lies in the arena behind the working places, up to `used`; from v on lies what is held.
ghost use Rattle.std.specs.Prelude.{◌≡◌, Bool, ◌||◌, List, ◌+◌, ◌-◌, ◌≤◌, ℕ, min, leb, length};
ghost use Rattle.limits.specs.Limits.{sum_entries, sum_levels, handled_needed};
ghost use Rattle.sums.specs.Tree.Sums.{Sum};
ghost use Rattle.sums.specs.Tree.Map.{Outcome, sum};
ghost use Rattle.cells.specs.Contract.Book.{seen, shown};
ghost use Rattle.sums.specs.Contract.Lies.{OfOne, Agrees};
ghost use Rattle.stack.specs.Stack.{any_complex};
ghost use Rattle.stack.specs.State.{push, most_pairs};
ghost use Rattle.stack.specs.Steps.{constant_of};
ghost use Rattle.stack.specs.Contract.Arena.{of, slots, places, all_slices};
ghost use Rattle.stack.specs.Contract.Arena as arenas;
ghost use Rattle.stack.specs.Contract.Stacked.{Stacked};
ghost use Rattle.stack.specs.Contract.Agree.{Prepared, Acts};
ghost use Rattle.stack.specs.Contract.Parts.{Filled};

use crate::slots::Arena;
use cells::Cells;
use limits::{HANDLED_NEEDED, Refusal};

// A number of pairs, or of steps, from here on is told as this one.
pub const MOST: u64 = 18446744073709551615;

// The state beside the arena: the cells that the stack takes up to, how many primitives were handled, counted to HANDLED_NEEDED, whether a complex number was met, and how
// many pairs of outermost terms were multiplied, counted to MOST.
#[derive(Clone, Copy)]
pub struct AlgebraEnv {
    pub used: usize,
    pub handled: usize,
    pub pairs: u64,
    pub complex: bool,
}

// What came of running records: the state then, or a refusal, its place, and whether what was read so far counts as handled.
#[derive(Clone, Copy)]
pub enum Ran {
    Went(AlgebraEnv),
    Stopped(Refusal, usize, bool),
}

// What a step answers: the cells that the stack takes then and the pairs that it multiplied, or a refusal with whether what was read so far counts as handled.
#[derive(Clone, Copy)]
pub enum Stepped {
    Went(usize, u64),
    Stopped(Refusal, bool),
}

// Two numbers together, counted to MOST.
pub fn capped_sum(a: u64, b: u64) -> u64
    ensures { result ≡ min most_pairs (a + b) }
{
    if MOST - a < b { MOST } else { a + b }
}

// A refusal. What was read counts as handled where HANDLED_NEEDED primitives were, or where a sum on the stack is complex.
pub fn halt(q: Refusal, book: &Cells, sizes: &[u8], used: usize, handled: usize) -> Stepped
    requires { (used ≤ length sizes.now) × ((ss : List Sum) × Stacked (of (shown book.now) sizes.now) arenas.working used ss) }
    ensures { (ss : List Sum) → Stacked (of (shown book.now) sizes.now) arenas.working used ss → result ≡ Stepped.Stopped q (leb handled_needed handled || any_complex ss) }
{
    let complex = crate::slots::any_complex(book, sizes, used);
    Stepped::Stopped(q, (HANDLED_NEEDED <= handled) | complex)
}

// A pop that finds nothing: the stack is empty then.
pub fn short(handled: usize) -> Stepped
    ensures { result ≡ Stepped.Stopped Refusal.TooManyVariables (leb handled_needed handled) }
{
    Stepped::Stopped(Refusal::TooManyVariables, HANDLED_NEEDED <= handled)
}

// The sum of n cells from i on is put on the stack, if there is room for it below what is held.
pub fn push_cells(arena: &mut Arena, i: usize, n: usize, v: usize, used: usize) -> Stepped
    requires { (1 ≤ n) × (n ≤ sum_entries) × (i + n ≤ used) × ((h : ℕ) × Prepared (slots arena.old) v used h) }
    ensures of_one { OfOne (seen arena.old.book) i (i + n) sum_levels (λ s. (at h : ℕ) → Acts (slots arena.old) (slots arena.new) v
        used h at result (push at (places - v) (sum s))) }
    ensures same_slices { all_slices arena.new ≡ all_slices arena.old }
{
    if v - used < n {
        return Stepped::Stopped(Refusal::NoRoom, false);
    }
    crate::slots::bring(arena, i, n, used);
    Stepped::Went(used + n, 0)
}

// What was formed from w on is put on the stack.
pub fn push_formed(
    arena: &mut Arena,
    f: Result<usize, Refusal>,
    v: usize,
    used: usize,
    handled: usize,
) -> Stepped
    requires { Filled f × Prepared (slots arena.old) v used handled }
    ensures agrees { (o : Outcome) (at : ℕ) → Agrees f (seen arena.old.book) 0 o → Acts (slots arena.old) (slots arena.new) v used
        handled at result (push at (places - v) o) }
    ensures same_slices { all_slices arena.new ≡ all_slices arena.old }
{
    match f {
        Ok(n) => push_cells(arena, 0, n, v, used),
        Err(q) => halt(q, &arena.book.cells(), arena.sizes(), used, handled),
    }
}

// A number, given by its bits, is put on the stack. It is a sum of one cell as it is, so nothing is formed.
pub fn push_number(
    arena: &mut Arena,
    re: u64,
    im: u64,
    v: usize,
    used: usize,
    handled: usize,
) -> Stepped
    requires { Prepared (slots arena.old) v used handled }
    ensures acts { (at : ℕ) → Acts (slots arena.old) (slots arena.new) v used handled at result (push at (places - v) (constant_of re im)) }
    ensures same_slices { all_slices arena.new ≡ all_slices arena.old }
{
    if !(numbers::finite_bits(re) & numbers::finite_bits(im)) {
        return halt(
            Refusal::NotFinite,
            &arena.book.cells(),
            arena.sizes(),
            used,
            handled,
        );
    }
    if v <= used {
        return Stepped::Stopped(Refusal::NoRoom, false);
    }
    arena.book.kinds[used] = sums::tree::X;
    arena.book.insides[used] = 0;
    arena.book.numbers[used] = [0, re, im];
    arena.sizes[used] = 1;
    Stepped::Went(used + 1, 0)
}
