// What modifiers take off the stack and hold. The stack lies in the arena behind the working places; from v on lies what is held.
ghost use Rattle.std.specs.Prelude.{◌≡◌, ◌+◌, ◌-◌, ◌≤◌, leb};
ghost use Rattle.limits.specs.Limits.{handled_needed};
ghost use Rattle.limits.specs.declared.Refusal.TheVariants.{TooManyVariables};
ghost use Rattle.cells.specs.Contract.Book.{shown};
ghost use Rattle.stack.specs.Contract.Arena.{of, slots, places, all_slices};
ghost use Rattle.stack.specs.State.{taking};
ghost use Rattle.stack.specs.Contract.Agree.{Ready};
ghost use Rattle.modifiers.specs.Holding.{dropping, copying};
ghost use Rattle.modifiers.specs.Contract.Begins.{Begins, CopiesBelow};
ghost use Rattle.modifiers.specs.declared.hold.Begun.TheVariants.{Halted};

use cells::Cells;
use limits::{HANDLED_NEEDED, Refusal};
use stack::slots::{Arena, WORKING};
use stack::state::AlgebraEnv;

// The state in which a body begins, with how many cells are held for its modifier; or a refusal.
#[derive(Clone, Copy)]
pub enum Begun {
    Held(AlgebraEnv, usize),
    Halted(Refusal, usize, bool),
}

// k - c, or 0 where c is more.
pub fn less(k: usize, c: usize) -> usize
    ensures { result ≡ k - c }
{
    if c <= k {
        return k - c;
    }
    0
}

// The stack has too few: all of it is gone when a pop finds nothing.
fn too_few(at: usize, env: AlgebraEnv) -> Begun
    ensures { result ≡ Halted TooManyVariables at (leb handled_needed env.handled) }
{
    Begun::Halted(Refusal::TooManyVariables, at, HANDLED_NEEDED <= env.handled)
}

// The top k sums are taken off the stack and held, just below v.
pub fn hold(k: usize, at: usize, arena: &mut Arena, v: usize, env: AlgebraEnv) -> Begun
    requires { Ready (slots arena.old) v env }
    ensures begins { Begins (slots arena.old) (slots arena.new) v env result (λ st f. taking at k st f) }
    ensures same_slices { all_slices arena.new ≡ all_slices arena.old }
{
    let used = env.used;
    let d = stack::slots::measure(arena.sizes(), WORKING, used, k);
    let Some(w) = d else {
        return too_few(at, env);
    };
    stack::slots::raise(arena, w, used, v - used);
    Begun::Held(AlgebraEnv { used: w, ..env }, used - w)
}

// The top is taken off, and nothing held.
pub fn drop_top(at: usize, book: &Cells, sizes: &[u8], v: usize, env: AlgebraEnv) -> Begun
    requires { Ready (of (shown book.now) sizes.now) v env }
    ensures { Begins (of (shown book.now) sizes.now) (of (shown book.now) sizes.now) v env result (λ st f. dropping at st f) }
{
    let used = env.used;
    let d = stack::slots::measure(sizes, WORKING, used, 1);
    let Some(w) = d else {
        return too_few(at, env);
    };
    Begun::Held(AlgebraEnv { used: w, ..env }, 0)
}

// The deepest of the top k, d cells from w on, is put below them once more.
fn copy_below(w: usize, d: usize, at: usize, arena: &mut Arena, v: usize, env: AlgebraEnv) -> Begun
    requires { Ready (slots arena.old) v env × (w + d ≤ env.used) }
    ensures copies_below { CopiesBelow (slots arena.old) (slots arena.new) w d at v env result }
    ensures same_slices { all_slices arena.new ≡ all_slices arena.old }
{
    let used = env.used;
    if v < used + d {
        return Begun::Halted(Refusal::NoRoom, at, false);
    }
    stack::slots::raise(arena, w, used, d);
    stack::slots::sink(arena, w + d, w, d);
    Begun::Held(
        AlgebraEnv {
            used: used + d,
            ..env
        },
        0,
    )
}

// A copy of the deepest of the top k is put below them.
pub fn copy_under(k: usize, at: usize, arena: &mut Arena, v: usize, env: AlgebraEnv) -> Begun
    requires { Ready (slots arena.old) v env }
    ensures begins { Begins (slots arena.old) (slots arena.new) v env result (λ st f. copying at k (places - v) st f) }
    ensures same_slices { all_slices arena.new ≡ all_slices arena.old }
{
    let used = env.used;
    let d = stack::slots::measure(arena.sizes(), WORKING, used, k);
    let Some(w) = d else {
        return too_few(at, env);
    };
    let e = stack::slots::measure(arena.sizes(), w, used, less(k, 1));
    let Some(u) = e else {
        return too_few(at, env);
    };
    copy_below(w, u - w, at, arena, v, env)
}
