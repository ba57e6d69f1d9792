// A list read on a stack that starts with x: one sum must be left.
ghost use Rattle.std.specs.Prelude.{◌≡◌, ℕ, ◌+◌, ◌-◌, Ok};
ghost use Rattle.formats.specs.Tree.{parse};
ghost use Rattle.formats.specs.Rules.{verdict};
ghost use Rattle.stack.specs.State.{State, went};
ghost use Rattle.modifiers.specs.Reading.{start, ended};
ghost use Rattle.modifiers.specs.Contract.Room.{read_held};
ghost use Rattle.cells.specs.Contract.Book.{seen, shown};
ghost use Rattle.stack.specs.Contract.Arena.{of, slots, Space, working, places, all_slices};
ghost use Rattle.stack.specs.Contract.Agree.{Stands, Ready};
ghost use Rattle.reading.specs.Contract.Data.{Reaches, DataAs};

use cells::{Cells, Entry};
use limits::{HANDLED_NEEDED, Refusal};
use numbers::complex::Complex;
use stack::slots::{Arena, WORKING};
use stack::state::{AlgebraEnv, Ran};

// What reading gives: a sum of so many entries, with the complex flag, whether what was read counts as handled and the pairs multiplied; or a refusal with its place, and
// whether it counts as handled.
#[derive(Clone, Copy)]
pub enum AlgebraData {
    Sum(usize, bool, bool, u64),
    Refused(Refusal, usize, bool),
}

// The stack starts with x.
fn begin_with_x(arena: &mut Arena) -> AlgebraEnv
    requires { Space (slots arena.old) (working + 1) }
    ensures reaches { (top : ℕ) → Reaches (slots arena.old) top → Ready (slots arena.new) top result
        × Stands (slots arena.new) top result start }
    ensures same_slices { all_slices arena.new ≡ all_slices arena.old }
{
    let x = Entry {
        kind: sums::tree::X,
        inside: 0,
        num: 1.0,
        coef: Complex::ONE,
    };
    arena.book.store(WORKING, x);
    arena.sizes[WORKING] = 1;
    AlgebraEnv {
        used: WORKING + 1,
        handled: 0,
        complex: false,
        pairs: 0,
    }
}

// One sum must be left.
fn last_of(book: &Cells, sizes: &[u8], env: AlgebraEnv) -> AlgebraData
    requires { (v : ℕ) × Ready (of (shown book.now) sizes.now) v env }
    ensures { (v : ℕ) (st : State) → Stands (of (shown book.now) sizes.now) v env st → DataAs result (shown book.now) (ended (went st)) }
{
    let many = HANDLED_NEEDED <= env.handled;
    let handled = many | stack::slots::any_complex(book, sizes, env.used);
    if env.used == WORKING {
        return AlgebraData::Refused(Refusal::NoOutput, 0, handled);
    }
    let n = stack::slots::top_size(sizes, WORKING, env.used);
    if WORKING + n != env.used {
        return AlgebraData::Refused(Refusal::TooManyOutputs, 0, handled);
    }
    AlgebraData::Sum(n, env.complex, handled, env.pairs)
}

// Reads a list that keeps the rules, in an arena of `top` places: the sum lies behind the working places. Where there are fewer than there may be, 12 may come sooner.
pub fn nodes_expr(list: &[u8], arena: &mut Arena, top: usize) -> AlgebraData
    requires { (verdict list.now ≡ Ok tt) × Reaches (slots arena.old) top }
    ensures data_as { DataAs result (seen arena.new.book) (read_held (places - top) (parse list.now)) }
    ensures same_slices { all_slices arena.new ≡ all_slices arena.old }
{
    let env = begin_with_x(arena);
    let n = formats::record::count_records(list);
    let ran = crate::walk::walk(list, 0, n, arena, top, env);
    match ran {
        Ran::Stopped(q, at, b) => AlgebraData::Refused(q, at, b),
        Ran::Went(end) => last_of(&arena.book.cells(), arena.sizes(), end),
    }
}
