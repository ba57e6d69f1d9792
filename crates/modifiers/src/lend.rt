// What is held is lent, as copies on the stack, and put back. The stack lies in the arena behind the working places; from v on lies what is held.
ghost use Rattle.std.specs.Prelude.{◌≡◌, List, ◌+◌, ◌-◌, length};
ghost use Rattle.sums.specs.Tree.Sums.{Sum};
ghost use Rattle.stack.specs.Contract.Arena.{slots, Space, places, all_slices};
ghost use Rattle.stack.specs.Contract.Stacked.{Stacked};
ghost use Rattle.stack.specs.State.{lend};
ghost use Rattle.stack.specs.Contract.Agree.{Ready, Does};
ghost use Rattle.modifiers.specs.Holding.{deepest, holding};
ghost use Rattle.modifiers.specs.Contract.Begins.{Begins, PutsBack};

use crate::hold::Begun;
use limits::Refusal;
use stack::slots::Arena;
use stack::state::{AlgebraEnv, Ran};

// Sums of m cells, k of them, are held from v on: copies of the deepest c are put on the stack.
pub fn lend_deepest(
    c: usize,
    k: usize,
    m: usize,
    at: usize,
    arena: &mut Arena,
    v: usize,
    env: AlgebraEnv,
) -> Ran
    requires { Ready (slots arena.old) v env × Space (slots arena.old) (v + m)
        × ((ss : List Sum) × Stacked (slots arena.old) v (v + m) ss × (length ss ≡ k)) }
    ensures stacked { (ss : List Sum) → Stacked (slots arena.old) v (v + m) ss → length ss ≡ k → Does (slots arena.old)
        (slots arena.new) v env result (λ st. lend at (places - v) (deepest c ss) st) }
    ensures same_slices { all_slices arena.new ≡ all_slices arena.old }
{
    let used = env.used;
    let d = stack::slots::measure(arena.sizes(), v, v + m, crate::hold::less(k, c));
    let Some(w) = d else {
        return Ran::Stopped(Refusal::NoRoom, at, false);
    };
    let n = w - v;
    if v < used + n {
        return Ran::Stopped(Refusal::NoRoom, at, false);
    }
    stack::slots::sink(arena, v, used, n);
    Ran::Went(AlgebraEnv {
        used: used + n,
        ..env
    })
}

// The top k sums are held, and copies of the deepest c of them put on the stack.
pub fn hold_and_lend(
    k: usize,
    c: usize,
    at: usize,
    arena: &mut Arena,
    v: usize,
    env: AlgebraEnv,
) -> Begun
    requires { Ready (slots arena.old) v env }
    ensures begins { Begins (slots arena.old) (slots arena.new) v env result (λ st f. holding at k c (places - v) st f) }
    ensures same_slices { all_slices arena.new ≡ all_slices arena.old }
{
    let h = crate::hold::hold(k, at, arena, v, env);
    let Begun::Held(e, m) = h else {
        return h;
    };
    let low = v - m;
    let l = lend_deepest(c, k, m, at, arena, low, e);
    match l {
        Ran::Went(g) => Begun::Held(g, m),
        Ran::Stopped(q, p, b) => Begun::Halted(q, p, b),
    }
}

// Sums of m cells are held from v on: they are put back on the stack.
pub fn put_back(m: usize, arena: &mut Arena, v: usize, env: AlgebraEnv) -> AlgebraEnv
    requires { Ready (slots arena.old) v env × Space (slots arena.old) (v + m) × ((ss : List Sum) × Stacked (slots arena.old) v (v + m) ss) }
    ensures puts_back { PutsBack (slots arena.old) (slots arena.new) v m env result }
    ensures same_slices { all_slices arena.new ≡ all_slices arena.old }
{
    let used = env.used;
    stack::slots::sink(arena, v, used, m);
    AlgebraEnv {
        used: used + m,
        ..env
    }
}
