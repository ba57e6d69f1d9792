// What a modifier does before its first body runs. The stack lies in the arena behind the working places; from v on lies what is held.
ghost use Rattle.std.specs.Prelude.{◌≡◌, ◌-◌};
ghost use Rattle.formats.specs.Names.{modifier_of};
ghost use Rattle.modifiers.specs.Holding.{holding};
ghost use Rattle.modifiers.specs.Contract.Plans.{held_by, lent_by, begin};
ghost use Rattle.stack.specs.Contract.Arena.{slots, places, all_slices};
ghost use Rattle.stack.specs.Contract.Agree.{Ready};
ghost use Rattle.modifiers.specs.Contract.Begins.{Begins};
ghost use Rattle.modifiers.specs.Contract.Manners.{manner_of};

use crate::hold::Begun;
use formats::record::Modifier;
use stack::slots::Arena;
use stack::state::AlgebraEnv;

// What a modifier does with what it takes off the stack.
#[derive(Clone, Copy)]
enum Manner {
    Drops,
    Copies,
    Holds,
}

fn begins_by(m: Modifier) -> Manner
    ensures { result ≡ manner_of m }
{
    match m {
        Modifier::Gap => Manner::Drops,
        Modifier::By => Manner::Copies,
        Modifier::Dip => Manner::Holds,
        Modifier::On => Manner::Holds,
        Modifier::Both => Manner::Holds,
        Modifier::Bracket => Manner::Holds,
        Modifier::Fork => Manner::Holds,
        Modifier::Unlisted => Manner::Holds,
    }
}

// How many sums a modifier takes off the stack and holds, where its first body takes n arguments.
fn held_by(m: Modifier, n: usize) -> usize
    ensures { result ≡ held_by m n }
{
    match m {
        Modifier::Dip => 1,
        Modifier::On => 1,
        Modifier::Gap => n,
        Modifier::By => n,
        Modifier::Both => n,
        Modifier::Bracket => n,
        Modifier::Fork => n,
        Modifier::Unlisted => n,
    }
}

// How many copies of these it puts on the stack.
fn lent_by(m: Modifier) -> usize
    ensures { result ≡ lent_by m }
{
    match m {
        Modifier::On => 1,
        Modifier::Dip => 0,
        Modifier::Gap => 0,
        Modifier::By => 0,
        Modifier::Both => 0,
        Modifier::Bracket => 0,
        Modifier::Fork => 0,
        Modifier::Unlisted => 0,
    }
}

// Holds what a modifier other than Gap and By holds.
fn hold_for(m: Modifier, n: usize, at: usize, arena: &mut Arena, v: usize, env: AlgebraEnv) -> Begun
    requires { Ready (slots arena.old) v env }
    ensures begins { Begins (slots arena.old) (slots arena.new) v env result (λ st f. holding at (held_by m n) (lent_by m) (places - v) st f) }
    ensures same_slices { all_slices arena.new ≡ all_slices arena.old }
{
    let k = held_by(m, n);
    let c = lent_by(m);
    crate::lend::hold_and_lend(k, c, at, arena, v, env)
}

// What a modifier does before its first body runs, where the first in the list takes n arguments.
pub fn begin(code: u8, n: usize, at: usize, arena: &mut Arena, v: usize, env: AlgebraEnv) -> Begun
    requires { Ready (slots arena.old) v env }
    ensures begins { Begins (slots arena.old) (slots arena.new) v env result (λ st f. begin (modifier_of code) n at (places - v) st f) }
    ensures same_slices { all_slices arena.new ≡ all_slices arena.old }
{
    let m = formats::record::modifier_of(code);
    match begins_by(m) {
        Manner::Drops => crate::hold::drop_top(at, &arena.book.cells(), arena.sizes(), v, env),
        Manner::Copies => crate::hold::copy_under(n, at, arena, v, env),
        Manner::Holds => hold_for(m, n, at, arena, v, env),
    }
}
