// A record that has no inside, with what is counted of it, and a record that is refused as it is.
ghost use Rattle.std.specs.Prelude.{◌≡◌, ◌||◌, cond, List, suc, ◌-◌, ◌≤◌, min, leb, length, Some, None};
ghost use Rattle.limits.specs.Limits.{handled_needed};
ghost use Rattle.cells.specs.Contract.Book.{shown};
ghost use Rattle.sums.specs.Tree.Sums.{Sum};
ghost use Rattle.formats.specs.Names.{kind_of};
ghost use Rattle.stack.specs.Stack.{any_complex};
ghost use Rattle.modifiers.specs.Reading.{inside_of};
ghost use Rattle.stack.specs.Steps.{leaf_step};
ghost use Rattle.stack.specs.Contract.Arena.{of, slots, working, places, all_slices};
ghost use Rattle.stack.specs.Contract.Stacked.{Stacked};
ghost use Rattle.stack.specs.Contract.Agree.{Ready, Does, env_of};
ghost use Rattle.stack.specs.Contract.Acting.{handled_by};
ghost use Rattle.reading.specs.Contract.After.{after};
ghost use Rattle.reading.specs.Contract.Quick.{is_quick, has_nodes};

use cells::Cells;
use formats::record::{Kind, Record};
use limits::{HANDLED_NEEDED, Refusal};
use modifiers::Inside;
use stack::slots::Arena;
use stack::state::{AlgebraEnv, Ran, Stepped};

// Whether a record is a push of a number or a primitive: most are, and their step needs no state but the stack's end and what was handled.
pub fn is_quick(kind: u8) -> bool
    ensures { result ≡ is_quick (kind_of kind) }
{
    match formats::record::kind_of(kind) {
        Some(k) => quick_kind(k),
        None => false,
    }
}

// Whether what is inside a record is nodes that are run in turn. They stand right behind it, and what comes after it behind them.
pub fn has_nodes(kind: u8) -> bool
    ensures { result ≡ has_nodes (inside_of (kind_of kind)) }
{
    match modifiers::inside_of(kind) {
        Inside::Nodes => true,
        Inside::Nothing => false,
        Inside::Bodies => false,
    }
}

fn quick_kind(k: Kind) -> bool
    ensures { result ≡ is_quick (Some k) }
{
    match k {
        Kind::RealPush => true,
        Kind::ComplexPush => true,
        Kind::Primitive => true,
        Kind::ArrayPush => false,
        Kind::OtherPush => false,
        Kind::Modifier => false,
        Kind::Body => false,
        Kind::Run => false,
        Kind::CustomInverse => false,
        Kind::Obverse => false,
        Kind::NoNormal => false,
        Kind::UnderMarker => false,
        Kind::AnythingElse => false,
    }
}

// How many are handled after a record was run. The table is not asked where no more are counted.
pub fn counted(r: Record, handled: usize) -> usize
    ensures { result ≡ cond (handled_by r (kind_of r.kind)) (min handled_needed (suc handled)) handled }
{
    if handled == HANDLED_NEEDED {
        return handled;
    }
    stack::leaf::count(handled, stack::leaf::counts(r))
}

// A state of its four parts.
pub fn env_of(used: usize, handled: usize, complex: bool, pairs: u64) -> AlgebraEnv
    ensures { result ≡ env_of used handled complex pairs }
{
    AlgebraEnv {
        used,
        handled,
        pairs,
        complex,
    }
}

// A refusal at a place.
pub fn refuse(q: Refusal, at: usize, book: &Cells, sizes: &[u8], env: AlgebraEnv) -> Ran
    requires { (env.used ≤ length sizes.now) × ((ss : List Sum) × Stacked (of (shown book.now) sizes.now) working env.used ss) }
    ensures { (ss : List Sum) → Stacked (of (shown book.now) sizes.now) working env.used ss → result ≡ Ran.Stopped q at (leb handled_needed env.handled || any_complex ss) }
{
    match stack::state::halt(q, book, sizes, env.used, env.handled) {
        Stepped::Went(_, _) => Ran::Went(env),
        Stepped::Stopped(r, b) => Ran::Stopped(r, at, b),
    }
}

// What is counted of a record, once it was run: whether it is handled, whether it tells of a complex number, and the pairs that it multiplied.
pub fn finish(r: Record, at: usize, stepped: Stepped, env: AlgebraEnv) -> Ran
    ensures { result ≡ after r (kind_of r.kind) at stepped env }
{
    match stepped {
        Stepped::Stopped(q, b) => Ran::Stopped(q, at, b),
        Stepped::Went(used, more) => Ran::Went(AlgebraEnv {
            used,
            handled: counted(r, env.handled),
            complex: env.complex | stack::leaf::flags(r),
            pairs: stack::state::capped_sum(env.pairs, more),
        }),
    }
}

// A record that has no inside.
pub fn read_leaf(r: Record, at: usize, arena: &mut Arena, v: usize, env: AlgebraEnv) -> Ran
    requires { Ready (slots arena.old) v env }
    ensures does { Does (slots arena.old) (slots arena.new) v env result (λ st. leaf_step at r (kind_of r.kind) (places - v) st) }
    ensures same_slices { all_slices arena.new ≡ all_slices arena.old }
{
    let used = env.used;
    let handled = env.handled;
    let stepped = stack::leaf::leaf(r, arena, v, used, handled);
    finish(r, at, stepped, env)
}
