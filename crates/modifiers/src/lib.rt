// What modifiers do to the stack around their bodies: definitions, laws, and what is asked of a list alone (how many bodies there are, what they take, and in which
// order they run); in the modules what is taken off the stack and held while a body runs, what is lent of it, and what each does before its first body.
#![tactic(auto)]

pub mod begin;
pub mod hold;
pub mod lend;

ghost use Rattle.std.specs.Prelude.{ℕ, ◌+◌, ◌≤◌, max, eqb, true, cond, ◌≡◌, Some, None};
ghost use Rattle.formats.specs.Contract.Walk.{Stretch, Walkable};
ghost use Rattle.formats.specs.Names.{kind_of};
ghost use Rattle.formats.specs.Tree.{forest, count};
ghost use Rattle.limits.specs.declared.Refusal.TheVariants.{InterpreterBug};
ghost use Rattle.modifiers.specs.Contract.Plans.{way_of, once, plan_by, Follows, UsedAs};
ghost use Rattle.modifiers.specs.Contract.Walks.{place_of};
ghost use Rattle.modifiers.specs.Modifiers.{most};
ghost use Rattle.modifiers.specs.Reading.{runners, inside_of};
ghost use Rattle.modifiers.specs.declared.Use.TheVariants.{Refused, Bodies};

use formats::record::{Kind, Modifier, Record};
use limits::Refusal;

// What a record has inside that is run: nothing, nodes that are run in turn, or a modifier's bodies.
#[derive(Clone, Copy)]
pub enum Inside {
    Nothing,
    Nodes,
    Bodies,
}

fn kind_inside(k: Kind) -> Inside
    ensures { result ≡ inside_of (Some k) }
{
    match k {
        Kind::Modifier => Inside::Bodies,
        Kind::Body => Inside::Nodes,
        Kind::Run => Inside::Nodes,
        Kind::CustomInverse => Inside::Nodes,
        Kind::RealPush => Inside::Nothing,
        Kind::ComplexPush => Inside::Nothing,
        Kind::ArrayPush => Inside::Nothing,
        Kind::OtherPush => Inside::Nothing,
        Kind::Primitive => Inside::Nothing,
        Kind::Obverse => Inside::Nothing,
        Kind::NoNormal => Inside::Nothing,
        Kind::UnderMarker => Inside::Nothing,
        Kind::AnythingElse => Inside::Nothing,
    }
}

pub fn inside_of(kind: u8) -> Inside
    ensures { result ≡ inside_of (kind_of kind) }
{
    match formats::record::kind_of(kind) {
        Some(k) => kind_inside(k),
        None => Inside::Nothing,
    }
}

fn larger(a: usize, b: usize) -> usize
    ensures { result ≡ max a b }
{
    if a < b { b } else { a }
}

fn wide(x: u8) -> usize
    ensures { result ≡ x }
{
    x as usize
}

// The arguments of the body that takes most.
pub fn most_args(list: &[u8], from: usize, to: usize) -> usize
    requires { Walkable list.now from to }
    ensures { result ≡ most (runners from (forest list.now from to)) }
{
    let mut at = from;
    let mut n = 0;
    while at < to {
        let r = formats::record::record_at(list, at);
        n = larger(wide(r.args), n);
        at = at + 1 + r.inside as usize;
    }
    n
}

// Where the i-th of the nodes from `from` on stands.
pub fn place_of(list: &[u8], from: usize, to: usize, i: usize) -> usize
    requires { Walkable list.now from to × (i ≤ count (forest list.now from to)) }
    ensures { result ≡ place_of list.now from i }
{
    let mut at = from;
    for _j in 0..i {
        let r = formats::record::record_at(list, at);
        at = at + 1 + r.inside as usize;
    }
    at
}

// How many bodies a modifier has.
#[derive(Clone, Copy)]
enum Way {
    One,
    Two,
    Any,
    Unlisted,
}

// What is done with a modifier.
#[derive(Clone, Copy)]
pub enum Use {
    Refused(Refusal),
    Bodies,
    Forks,
}

// The stretch that is run while sums are held (from, to), the stretch that is run when they are back (again, until), and the arguments of the first body in
// the list.
#[derive(Clone, Copy)]
pub struct Plan {
    pub from: usize,
    pub to: usize,
    pub again: usize,
    pub until: usize,
    pub args: usize,
}

fn way_of(m: Modifier) -> Way
    ensures { result ≡ way_of m }
{
    match m {
        Modifier::Dip => Way::One,
        Modifier::Gap => Way::One,
        Modifier::On => Way::One,
        Modifier::By => Way::One,
        Modifier::Both => Way::One,
        Modifier::Bracket => Way::Two,
        Modifier::Fork => Way::Any,
        Modifier::Unlisted => Way::Unlisted,
    }
}

// Whether so many bodies are right for so many.
fn counted(n: usize, asked: usize) -> Use
    ensures { result ≡ cond (eqb n asked) Bodies (Refused InterpreterBug) }
{
    if n == asked {
        Use::Bodies
    } else {
        Use::Refused(Refusal::InterpreterBug)
    }
}

// What is done with the modifier at a place.
pub fn use_of(list: &[u8], at: usize, r: Record) -> Use
    requires { Walkable list.now (at + 1) (at + 1 + r.inside) }
    ensures { UsedAs result list.now at r }
{
    let n = formats::record::count_nodes(list, at + 1, at + 1 + r.inside as usize);
    match way_of(formats::record::modifier_of(r.code)) {
        Way::One => counted(n, 1),
        Way::Two => counted(n, 2),
        Way::Any => Use::Forks,
        Way::Unlisted => Use::Refused(Refusal::NotSupported),
    }
}

// The first body alone.
fn once(args: usize, from: usize, mid: usize, to: usize) -> Plan
    ensures { result ≡ once args from mid to }
{
    Plan {
        from,
        to: mid,
        again: to,
        until: to,
        args,
    }
}

// The plan for bodies from `from` on, the first of which ends at `mid` and the last at `to`.
fn plan_by(m: Modifier, args: usize, from: usize, mid: usize, to: usize) -> Plan
    ensures { result ≡ plan_by m args from mid to }
{
    match m {
        Modifier::Bracket => Plan {
            from: mid,
            to,
            again: from,
            until: mid,
            args,
        },
        Modifier::Both => Plan {
            from,
            to: mid,
            again: from,
            until: mid,
            args,
        },
        Modifier::Dip => once(args, from, mid, to),
        Modifier::Gap => once(args, from, mid, to),
        Modifier::On => once(args, from, mid, to),
        Modifier::By => once(args, from, mid, to),
        Modifier::Fork => once(args, from, mid, to),
        Modifier::Unlisted => once(args, from, mid, to),
    }
}

// The order in which the bodies of the modifier at a place run.
pub fn plan_of(list: &[u8], at: usize, r: Record) -> Plan
    requires { Walkable list.now (at + 1) (at + 1 + r.inside) × UsedAs Bodies list.now at r }
    ensures { (left : ℕ) → Stretch list.now (at + 1) (at + 1 + r.inside) true left → Follows list.now at r left result }
{
    let from = at + 1;
    let to = from + r.inside as usize;
    let f = formats::record::record_at(list, from);
    let mid = from + 1 + f.inside as usize;
    plan_by(
        formats::record::modifier_of(r.code),
        wide(f.args),
        from,
        mid,
        to,
    )
}
