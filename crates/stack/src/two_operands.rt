// What a primitive leaves of the two sums that it takes from the top of the stack. The stack lies in the arena behind the working places, up to `used`; from v on lies what
// is held.
ghost use Rattle.std.specs.Prelude.{◌≡◌, [], ◌∷◌, ◌-◌, ◌<◌};
ghost use Rattle.formats.specs.Names.{primitive_of};
ghost use Rattle.formats.specs.Table.{row};
ghost use Rattle.stack.specs.Contract.Arena.{slots, working, all_slices};
ghost use Rattle.stack.specs.Contract.Agree.{Prepared};
ghost use Rattle.stack.specs.Contract.Parts.{Tops, more_pairs};
ghost use Rattle.stack.specs.Contract.Acting.{Applies};

use crate::slots::{Arena, WORKING};
use crate::state::Stepped;

// A step with the pairs that it multiplied, which a refusal does not have.
fn more_pairs(s: Stepped, pairs: u64) -> Stepped
    ensures { result ≡ more_pairs s pairs }
{
    match s {
        Stepped::Went(used, _) => Stepped::Went(used, pairs),
        Stepped::Stopped(q, b) => Stepped::Stopped(q, b),
    }
}

// What a primitive forms of the two sums on top, the upper one of n cells, is put in their place.
fn form_pair(
    arena: &mut Arena,
    code: u8,
    n: usize,
    v: usize,
    used: usize,
    handled: usize,
) -> Stepped
    requires { ((row (primitive_of code)).left ≡ 1) × Tops (slots arena.old) used (n ∷ []) × (working < used - n) × Prepared (slots arena.old) v used handled }
    ensures applies { Applies (slots arena.old) (slots arena.new) v used handled result 2 (primitive_of code) }
    ensures same_slices { all_slices arena.new ≡ all_slices arena.old }
{
    let p = formats::record::primitive_of(code);
    let up = used - n;
    let low = crate::slots::top_size(arena.sizes(), WORKING, up);
    let down = up - low;
    let f = primitives::form_two(&mut arena.book, p, down, low, up, n, 0);
    let formed = f.formed;
    let put = crate::state::push_formed(arena, formed, v, down, handled);
    more_pairs(put, f.pairs)
}

// A primitive that takes the two sums on top, the upper one of n cells: it leaves one that it forms, the two turned, or the lower one once more on top.
fn two_leave(
    arena: &mut Arena,
    code: u8,
    n: usize,
    v: usize,
    used: usize,
    handled: usize,
) -> Stepped
    requires { ((row (primitive_of code)).taken ≡ 2) × Tops (slots arena.old) used (n ∷ []) × (working < used - n) × Prepared (slots arena.old) v used handled }
    ensures applies { Applies (slots arena.old) (slots arena.new) v used handled result 2 (primitive_of code) }
    ensures same_slices { all_slices arena.new ≡ all_slices arena.old }
{
    let left = formats::table::left(code);
    if left == 1 {
        return form_pair(arena, code, n, v, used, handled);
    }
    let m = crate::slots::top_size(arena.sizes(), WORKING, used - n);
    if left == 2 {
        crate::one_operand::flip(arena, n, m, used);
        return Stepped::Went(used, 0);
    }
    crate::state::push_cells(arena, used - n - m, m, v, used)
}

// A primitive that takes two sums.
pub fn two_operands(arena: &mut Arena, code: u8, v: usize, used: usize, handled: usize) -> Stepped
    requires { ((row (primitive_of code)).taken ≡ 2) × Prepared (slots arena.old) v used handled }
    ensures applies { Applies (slots arena.old) (slots arena.new) v used handled result 2 (primitive_of code) }
    ensures same_slices { all_slices arena.new ≡ all_slices arena.old }
{
    if used == WORKING {
        return crate::state::short(handled);
    }
    let n = crate::slots::top_size(arena.sizes(), WORKING, used);
    if used - n == WORKING {
        return crate::state::short(handled);
    }
    two_leave(arena, code, n, v, used, handled)
}
