// What a primitive leaves of the sum that it takes from the top of the stack, and the two on top turned. The stack lies in the arena behind the working places, up to `used`;
// from v on lies what is held.
ghost use Rattle.std.specs.Prelude.{◌≡◌, List, [], ◌∷◌};
ghost use Rattle.sums.specs.Tree.Sums.{Sum};
ghost use Rattle.formats.specs.Names.{primitive_of};
ghost use Rattle.formats.specs.Table.{row};
ghost use Rattle.stack.specs.Contract.Arena.{slots, Space, working, all_slices};
ghost use Rattle.stack.specs.Contract.Stacked.{Stacked};
ghost use Rattle.stack.specs.Contract.Agree.{Prepared};
ghost use Rattle.stack.specs.Contract.Parts.{Tops};
ghost use Rattle.stack.specs.Contract.Turning.{Turned};
ghost use Rattle.stack.specs.Contract.Acting.{Applies};

use crate::slots::{Arena, WORKING};
use crate::state::Stepped;

// The sum on top, of n cells, and the one below it, of m cells, change places; the stack ends at u.
pub fn flip(arena: &mut Arena, n: usize, m: usize, u: usize)
    requires space { Space (slots arena.old) u }
    requires tops { Tops (slots arena.old) u (n ∷ m ∷ []) × ((ss : List Sum) × Stacked (slots arena.old) working u ss) }
    ensures turned { Turned (slots arena.old) (slots arena.new) u }
    ensures same_slices { all_slices arena.new ≡ all_slices arena.old }
{
    let i = u - n - m;
    arena.book.copy_within(i, m, 0);
    crate::slots::sink(arena, i + m, i, n);
    crate::slots::bring(arena, 0, m, i + n);
}

// What a primitive forms of the sum on top, of n cells, is put in its place.
fn form_top(arena: &mut Arena, code: u8, n: usize, v: usize, used: usize, handled: usize) -> Stepped
    requires { ((row (primitive_of code)).left ≡ 1) × Tops (slots arena.old) used (n ∷ []) × Prepared (slots arena.old) v used handled }
    ensures applies { Applies (slots arena.old) (slots arena.new) v used handled result 1 (primitive_of code) }
    ensures same_slices { all_slices arena.new ≡ all_slices arena.old }
{
    let p = formats::record::primitive_of(code);
    let i = used - n;
    let f = primitives::form_one(&mut arena.book, p, i, n, 0);
    crate::state::push_formed(arena, f, v, i, handled)
}

// A primitive that takes one sum: it leaves none, one that it forms, or that sum twice.
pub fn one_operand(arena: &mut Arena, code: u8, v: usize, used: usize, handled: usize) -> Stepped
    requires { Prepared (slots arena.old) v used handled }
    ensures applies { Applies (slots arena.old) (slots arena.new) v used handled result 1 (primitive_of code) }
    ensures same_slices { all_slices arena.new ≡ all_slices arena.old }
{
    if used == WORKING {
        return crate::state::short(handled);
    }
    let n = crate::slots::top_size(arena.sizes(), WORKING, used);
    let left = formats::table::left(code);
    if left == 0 {
        return Stepped::Went(used - n, 0);
    }
    if left == 1 {
        return form_top(arena, code, n, v, used, handled);
    }
    crate::state::push_cells(arena, used - n, n, v, used)
}
