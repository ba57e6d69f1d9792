// Records run on a stack of sums. A body runs by a call of the function on itself: what lies inside a record has a level less.
ghost use Rattle.std.specs.Prelude.{◌≡◌, Bool, false, ◌+◌, ◌-◌};
ghost use Rattle.formats.specs.Tree.{forest};
ghost use Rattle.formats.specs.Names.{kind_of, modifier_of};
ghost use Rattle.formats.specs.declared.record.Modifier.TheVariants.{Fork};
ghost use Rattle.modifiers.specs.declared.Use.TheVariants.{Bodies};
ghost use Rattle.modifiers.specs.Reading.{runners, inside_of, step_of};
ghost use Rattle.modifiers.specs.Contract.Walks.{walk_of};
ghost use Rattle.modifiers.specs.Contract.Plans.{modified, UsedAs};
ghost use Rattle.stack.specs.Contract.Arena.{slots, places, all_slices};
ghost use Rattle.stack.specs.Contract.Agree.{Ready, Does};
ghost use Rattle.reading.specs.Contract.Quick.{has_nodes};
ghost use Rattle.reading.specs.Contract.Runs.{Keeps, OneBody, Inner, Bodily, Planned, Round, Rounds, Many, Forks};

use formats::record::{Kind, Record};
use modifiers::hold::Begun;
use modifiers::{Plan, Use};
use stack::slots::Arena;
use stack::state::{AlgebraEnv, Ran, Stepped};

fn wide(x: u8) -> usize
    ensures { result ≡ x }
{
    x as usize
}

// Runs the records from `from` up to `to` in turn. What is held lies in the arena from v on. Nodes inside a record stand right behind it, so the walk goes on with them.
#[cycle(around_fork_fork_each_modify_step_walk_with_bodies)]
pub fn walk(
    list: &[u8],
    from: usize,
    to: usize,
    arena: &mut Arena,
    v: usize,
    env: AlgebraEnv,
) -> Ran
    requires { Ready (slots arena.old) v env × ((b : Bool) × Keeps list.now from to b × OneBody list.now from to b) }
    ensures does { Does (slots arena.old) (slots arena.new) v env result (λ st. walk_of list.now from to (places - v) st) }
    ensures same_slices { all_slices arena.new ≡ all_slices arena.old }
{
    let mut at = from;
    let mut used = env.used;
    let mut handled = env.handled;
    let mut complex = env.complex;
    let mut pairs = env.pairs;
    while at < to {
        let r = formats::record::record_at(list, at);
        let next = at + 1 + r.inside as usize;
        if crate::turn::is_quick(r.kind) {
            match stack::leaf::leaf(r, arena, v, used, handled) {
                Stepped::Stopped(q, b) => return Ran::Stopped(q, at, b),
                Stepped::Went(then, more) => {
                    used = then;
                    pairs = stack::state::capped_sum(pairs, more);
                }
            }
            handled = crate::turn::counted(r, handled);
            complex = complex | stack::leaf::flags(r);
            at = next;
            continue;
        }
        if crate::turn::has_nodes(r.kind) {
            at = at + 1;
            continue;
        }
        let cur = crate::turn::env_of(used, handled, complex, pairs);
        match step(list, at, r, arena, v, cur) {
            Ran::Stopped(q, place, b) => return Ran::Stopped(q, place, b),
            Ran::Went(then) => {
                used = then.used;
                handled = then.handled;
                complex = then.complex;
                pairs = then.pairs;
            }
        }
        at = next;
    }
    Ran::Went(crate::turn::env_of(used, handled, complex, pairs))
}

// Runs one record that has no nodes inside.
#[cycle(around_fork_fork_each_modify_step_walk_with_bodies)]
fn step(list: &[u8], at: usize, r: Record, arena: &mut Arena, v: usize, env: AlgebraEnv) -> Ran
    requires { Ready (slots arena.old) v env × Inner list.now at r × (has_nodes (inside_of (kind_of r.kind)) ≡ false) }
    ensures does { Does (slots arena.old) (slots arena.new) v env result
        (λ st. step_of at r (runners (at + 1) (forest list.now (at + 1) (at + 1 + r.inside))) (places - v) st) }
    ensures same_slices { all_slices arena.new ≡ all_slices arena.old }
{
    if formats::record::is_a(r.kind, Kind::Modifier) {
        return modify(list, at, r, arena, v, env);
    }
    crate::turn::read_leaf(r, at, arena, v, env)
}

// Runs a modifier.
#[cycle(around_fork_fork_each_modify_step_walk_with_bodies)]
fn modify(list: &[u8], at: usize, r: Record, arena: &mut Arena, v: usize, env: AlgebraEnv) -> Ran
    requires { Ready (slots arena.old) v env × Bodily list.now (at + 1) (at + 1 + r.inside) }
    ensures does { Does (slots arena.old) (slots arena.new) v env result (λ st. modified list.now at r (places - v) st) }
    ensures same_slices { all_slices arena.new ≡ all_slices arena.old }
{
    match modifiers::use_of(list, at, r) {
        Use::Refused(q) => crate::turn::refuse(q, at, &arena.book.cells(), arena.sizes(), env),
        Use::Bodies => with_bodies(list, at, r, arena, v, env),
        Use::Forks => fork(list, at, r, arena, v, env),
    }
}

// A modifier other than Fork, with as many bodies as it asks for.
#[cycle(around_fork_fork_each_modify_step_walk_with_bodies)]
fn with_bodies(
    list: &[u8],
    at: usize,
    r: Record,
    arena: &mut Arena,
    v: usize,
    env: AlgebraEnv,
) -> Ran
    requires { Ready (slots arena.old) v env × Bodily list.now (at + 1) (at + 1 + r.inside) × UsedAs Bodies list.now at r }
    ensures does { Does (slots arena.old) (slots arena.new) v env result (λ st. modified list.now at r (places - v) st) }
    ensures same_slices { all_slices arena.new ≡ all_slices arena.old }
{
    let p = modifiers::plan_of(list, at, r);
    let begun = modifiers::begin::begin(r.code, p.args, at, arena, v, env);
    match begun {
        Begun::Halted(q, place, b) => Ran::Stopped(q, place, b),
        Begun::Held(cur, held) => around(list, p, held, arena, v, cur),
    }
}

// One stretch is run while sums of `held` cells are held; these are put back, and the other is run.
#[cycle(around_fork_fork_each_modify_step_walk_with_bodies)]
fn around(list: &[u8], p: Plan, held: usize, arena: &mut Arena, v: usize, env: AlgebraEnv) -> Ran
    requires { Round (slots arena.old) v held env × Planned list.now p }
    ensures rounds { Rounds (slots arena.old) (slots arena.new) v held env result list.now p }
    ensures same_slices { all_slices arena.new ≡ all_slices arena.old }
{
    let low = v - held;
    let ran = walk(list, p.from, p.to, arena, low, env);
    match ran {
        Ran::Stopped(q, place, b) => Ran::Stopped(q, place, b),
        Ran::Went(cur) => {
            let back = modifiers::lend::put_back(held, arena, low, cur);
            walk(list, p.again, p.until, arena, v, back)
        }
    }
}

// Fork: as many sums as the body that takes most asks for are held to the end.
#[cycle(around_fork_fork_each_modify_step_walk_with_bodies)]
fn fork(list: &[u8], at: usize, r: Record, arena: &mut Arena, v: usize, env: AlgebraEnv) -> Ran
    requires { Ready (slots arena.old) v env × Bodily list.now (at + 1) (at + 1 + r.inside) × (modifier_of r.code ≡ Fork) }
    ensures does { Does (slots arena.old) (slots arena.new) v env result (λ st. modified list.now at r (places - v) st) }
    ensures same_slices { all_slices arena.new ≡ all_slices arena.old }
{
    let from = at + 1;
    let to = from + r.inside as usize;
    let k = modifiers::most_args(list, from, to);
    let begun = modifiers::hold::hold(k, at, arena, v, env);
    match begun {
        Begun::Halted(q, place, b) => Ran::Stopped(q, place, b),
        Begun::Held(cur, held) => fork_each(list, at, to, k, held, arena, v - held, cur),
    }
}

// Each body of a Fork, the last of them first, gets copies of the deepest of the k sums that are held from v on.
#[cycle(around_fork_fork_each_modify_step_walk_with_bodies)]
fn fork_each(
    list: &[u8],
    at: usize,
    to: usize,
    k: usize,
    m: usize,
    arena: &mut Arena,
    v: usize,
    env: AlgebraEnv,
) -> Ran
    requires { Ready (slots arena.old) v env × Bodily list.now (at + 1) to × Many (slots arena.old) v m k }
    ensures forks { Forks (slots arena.old) (slots arena.new) v m k env result list.now at (at + 1) to }
    ensures same_slices { all_slices arena.new ≡ all_slices arena.old }
{
    let from = at + 1;
    let n = formats::record::count_nodes(list, from, to);
    let mut cur = env;
    for i in (0..n).rev() {
        let b = modifiers::place_of(list, from, to, i);
        let r = formats::record::record_at(list, b);
        let lent = modifiers::lend::lend_deepest(wide(r.args), k, m, at, arena, v, cur);
        let Ran::Went(ready) = lent else {
            return lent;
        };
        let ran = walk(list, b, b + 1 + r.inside as usize, arena, v, ready);
        let Ran::Went(then) = ran else {
            return ran;
        };
        cur = then;
    }
    Ran::Went(cur)
}
