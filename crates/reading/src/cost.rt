// What reading a list costs: how many records it runs, known before it is read.
ghost use Rattle.std.specs.Prelude.{◌≡◌, Bool, cond, ◌+◌, ◌*◌, ◌≤◌, suc, min, eqb, Ok, Err};
ghost use Rattle.formats.specs.Tree.{forest, parse, count};
ghost use Rattle.formats.specs.Names.{kind_of};
ghost use Rattle.formats.specs.Rules.{verdict};
ghost use Rattle.formats.specs.Contract.Walk.{Stretch, Walkable};
ghost use Rattle.modifiers.specs.Reading.{inside_of};
ghost use Rattle.reading.specs.Cost.Cost.{most_steps, where_asked, times_of, inside_times, cost_of, cost_list, cost_numbers};

use formats::record::{Modifier, Record};
use limits::{LIST_LEVELS, Refusal};
use modifiers::Inside;

#[derive(Clone, Copy)]
pub struct CostNumbers {
    pub number: u64,
    pub place: u64,
    pub steps: u64,
}

// The numbers of an answer: a refusal has no steps.
pub fn cost_numbers(r: Result<u64, Refusal>) -> CostNumbers
    ensures { result ≡ cost_numbers r }
{
    match r {
        Ok(steps) => CostNumbers {
            number: 0,
            place: 0,
            steps,
        },
        Err(q) => CostNumbers {
            number: limits::refusal_no(q),
            place: 0,
            steps: 0,
        },
    }
}

// So often, where there are as many bodies as asked for.
fn where_asked(asked: usize, times: u64, n: usize) -> u64
    ensures { result ≡ where_asked asked times n }
{
    if n == asked { times } else { 0 }
}

// How often a modifier runs each of its n bodies.
fn times_of(m: Modifier, n: usize) -> u64
    ensures { result ≡ times_of m n }
{
    match m {
        Modifier::Dip => where_asked(1, 1, n),
        Modifier::Gap => where_asked(1, 1, n),
        Modifier::On => where_asked(1, 1, n),
        Modifier::By => where_asked(1, 1, n),
        Modifier::Both => where_asked(1, 2, n),
        Modifier::Bracket => where_asked(2, 1, n),
        Modifier::Fork => 1,
        Modifier::Unlisted => 0,
    }
}

// How often the record at a place runs what is inside it. The bodies of a modifier are counted here and nowhere else.
fn inside_times(list: &[u8], at: usize, r: Record) -> u64
    requires { Walkable list.now (at + 1) (at + 1 + r.inside) }
    ensures { result ≡ inside_times (inside_of (kind_of r.kind)) r (forest list.now (at + 1) (at + 1 + r.inside)) }
{
    match modifiers::inside_of(r.kind) {
        Inside::Nothing => 0,
        Inside::Nodes => 1,
        Inside::Bodies => {
            let n = formats::record::count_nodes(list, at + 1, at + 1 + r.inside as usize);
            times_of(formats::record::modifier_of(r.code), n)
        }
    }
}

// The record itself, and what is inside it so often: never, once or twice.
fn own_steps(times: u64, inner: u64) -> u64
    requires { times ≤ 2 }
    ensures { result ≡ min most_steps (suc (times * inner)) }
{
    if times == 0 {
        return 1;
    }
    if times == 1 {
        return stack::state::capped_sum(1, inner);
    }
    stack::state::capped_sum(1, stack::state::capped_sum(inner, inner))
}

// The steps of the records from `from` up to `to`, of which at most `left` stand one inside the other.
fn stretch_steps(list: &[u8], from: usize, to: usize, left: usize) -> u64
    requires { (b : Bool) × Stretch list.now from to b left }
    ensures { result ≡ min most_steps (cost_of (forest list.now from to)) }
{
    let mut at = from;
    let mut steps = 0u64;
    while at < to {
        let r = formats::record::record_at(list, at);
        let next = at + 1 + r.inside as usize;
        let times = inside_times(list, at, r);
        let inner = stretch_steps(list, at + 1, next, left - 1);
        steps = stack::state::capped_sum(steps, own_steps(times, inner));
        at = next;
    }
    steps
}

// What reading a list costs: 11 and 13 come first, over the whole list.
pub fn cost(list: &[u8]) -> Result<u64, Refusal>
    ensures { result ≡ cost_list list.now }
{
    match formats::rules::check(list) {
        Err(q) => Err(q),
        Ok(()) => {
            let n = formats::record::count_records(list);
            Ok(stretch_steps(list, 0, n, LIST_LEVELS))
        }
    }
}
