// A list of records run at a number x, with what is inside each record: the value, the steps and the peak.
ghost use Rattle.std.specs.Prelude.{◌≡◌, true, false, List, ◌+◌, ◌-◌, ◌≤◌, ◌<◌, min, length, Float, Ok};
ghost use Rattle.limits.specs.Limits.{list_records, run_values};
ghost use Rattle.formats.specs.declared.record.Kind.TheVariants as kinds;
ghost use Rattle.formats.specs.Tree.{forest, records_in, parse};
ghost use Rattle.formats.specs.Rules.{is_a, verdict};
ghost use Rattle.running.specs.Running.{settle, runs, modified, run_one, ended, run_nodes, run_list};
ghost use Rattle.running.specs.Contract.Views.{plain, view_did, view_state, view_ran, Within, Room, Ready, ReadyOne};

use crate::{RunValue, State, Stopped, Way};
use formats::record::{Modifier, Record};
use limits::{LIST_LEVELS, RUN_VALUES, Refusal};

// One step more, at most RUN_VALUES on the stack and held, and the peak.
fn settled(d: Result<usize, Refusal>, at: usize, st: State, held: usize) -> Result<State, Stopped>
    requires { Within held (st.steps + 2) d × (st.steps < list_records) }
    ensures result_value { (xs : List Float) → view_ran xs result ≡ settle held at (view_state xs st) (view_did xs d) }
    ensures room { Room held (st.steps + 1) result }
{
    match d {
        Err(why) => Err(Stopped { why, place: at }),
        Ok(m) => {
            if m + held <= RUN_VALUES {
                let peak = st.peak.max(m + held);
                Ok(State {
                    n: m,
                    steps: st.steps + 1,
                    peak,
                })
            } else {
                Err(Stopped {
                    why: Refusal::NoRoom,
                    place: at,
                })
            }
        }
    }
}

// Runs the records from `from` up to `to` on the first values, with `held` values held. Most are plain, and hold nothing.
#[cycle(modify_step_walk)]
fn walk(
    list: &[u8],
    from: usize,
    to: usize,
    stack: &mut [f64],
    st: State,
    held: usize,
    left: usize,
) -> Result<State, Stopped>
    requires { Ready list.now from to stack.old st held left }
    ensures result_after { view_ran stack.new result ≡ runs (forest list.now from to) from held (view_state stack.old st) }
    ensures room { Room held (st.steps + (to - from)) result }
{
    let mut at = from;
    let mut cur = st;
    // A `while`, since what lies inside a record is passed over.
    while at < to {
        let r = formats::record::record_at(list, at);
        if crate::is_plain(r.kind) {
            let did = crate::act::act(crate::deed_of(r.kind), r, stack, cur.n);
            cur = settled(did, at, cur, held)?;
            at += 1;
            continue;
        }
        cur = step(list, at, r, stack, cur, held, left)?;
        at += 1 + r.inside as usize;
    }
    Ok(cur)
}

// Runs one record that isn't plain, and what is inside it.
#[cycle(modify_step_walk)]
fn step(
    list: &[u8],
    at: usize,
    r: Record,
    stack: &mut [f64],
    st: State,
    held: usize,
    left: usize,
) -> Result<State, Stopped>
    requires { ReadyOne list.now at r stack.old st held left × (plain r.kind ≡ false) }
    ensures result_after { view_ran stack.new result ≡ run_one r (forest list.now (at + 1) (at + 1 + r.inside)) at held (view_state stack.old st) }
    ensures room { Room held (st.steps + 1 + r.inside) result }
{
    match crate::way_of(r.kind) {
        Err(q) => Err(Stopped { why: q, place: at }),
        Ok(Way::Acts(_)) => unreachable!(),
        Ok(Way::Runs) => {
            let counted = State {
                steps: st.steps + 1,
                ..st
            };
            walk(
                list,
                at + 1,
                at + 1 + r.inside as usize,
                stack,
                counted,
                held,
                left - 1,
            )
        }
        Ok(Way::Modifies) => modify(list, at, r, stack, st, held, left),
    }
}

// A modifier: On holds the top value while its one body runs, and then puts it on top. The body is a step, and its records are run right away.
#[cycle(modify_step_walk)]
fn modify(
    list: &[u8],
    at: usize,
    r: Record,
    stack: &mut [f64],
    st: State,
    held: usize,
    left: usize,
) -> Result<State, Stopped>
    requires { ReadyOne list.now at r stack.old st held left × (is_a r kinds.Modifier ≡ true) }
    ensures result_after { view_ran stack.new result ≡ modified r (forest list.now (at + 1) (at + 1 + r.inside)) at held (view_state stack.old st) }
    ensures room { Room held (st.steps + 1 + r.inside) result }
{
    let n = st.n;
    let next = at + 1 + r.inside as usize;
    if r.code != formats::record::modifier_no(Modifier::On) {
        return Err(Stopped {
            why: Refusal::NotSupported,
            place: at,
        });
    }
    if formats::record::count_nodes(list, at + 1, next) != 1 {
        return Err(Stopped {
            why: Refusal::InterpreterBug,
            place: at,
        });
    }
    if n == 0 {
        return Err(Stopped {
            why: Refusal::TooManyVariables,
            place: at,
        });
    }
    let a = stack[n - 1];
    let begun = settled(Ok(n), at, st, held + 1)?;
    let in_body = State {
        steps: begun.steps + 1,
        ..begun
    };
    let then = walk(list, at + 2, next, stack, in_body, held + 1, left - 2)?;
    stack[then.n] = a;
    Ok(State {
        n: then.n + 1,
        ..then
    })
}

// One value must be left.
fn last_of(st: State, stack: &[f64]) -> Result<RunValue, Stopped>
    requires { 0 < length stack.now }
    ensures { result ≡ ended (view_ran stack.now (Ok st)) }
{
    match st.n {
        0 => Err(Stopped {
            why: Refusal::NoOutput,
            place: 0,
        }),
        1 => Ok(RunValue {
            value: stack[0],
            steps: st.steps,
            peak: st.peak,
        }),
        _ => Err(Stopped {
            why: Refusal::TooManyOutputs,
            place: 0,
        }),
    }
}

// Runs the n records of a list that keeps the rules. Each adds one value at most, so there is room for x and n more, up to RUN_VALUES, and for three that a step writes above those.
fn run_in(list: &[u8], n: usize, x: f64, stack: &mut [f64]) -> Result<RunValue, Stopped>
    requires { (verdict list.now ≡ Ok tt) × (n ≡ records_in list.now) × (min run_values (n + 1) + 3 ≤ length stack.old) }
    ensures { result ≡ run_nodes (parse list.now) x }
{
    stack[0] = x;
    let st = State {
        n: 1,
        steps: 0,
        peak: 1,
    };
    let end = walk(list, 0, n, stack, st, 0, LIST_LEVELS)?;
    last_of(end, stack)
}

// A list this short has room for few values, since clearing room for all costs more than many a run.
const FEW_RECORDS: usize = 64;

// Runs a list that keeps the rules.
fn run_nodes(list: &[u8], x: f64) -> Result<RunValue, Stopped>
    requires { verdict list.now ≡ Ok tt }
    ensures { result ≡ run_nodes (parse list.now) x }
{
    let n = formats::record::count_records(list);
    if n <= FEW_RECORDS {
        let mut few = [0.0; FEW_RECORDS + 4];
        return run_in(list, n, x, &mut few);
    }
    let mut stack = [0.0; RUN_VALUES + 3];
    run_in(list, n, x, &mut stack)
}

// Runs a list of records at x.
pub fn run(list: &[u8], x: f64) -> Result<RunValue, Stopped>
    ensures { result ≡ run_list list.now x }
{
    if let Err(why) = formats::rules::check(list) {
        return Err(Stopped { why, place: 0 });
    }
    if !numbers::is_finite(x) {
        return Err(Stopped {
            why: Refusal::NotFinite,
            place: 0,
        });
    }
    run_nodes(list, x)
}
