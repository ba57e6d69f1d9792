// Whether a list of records keeps the rules: the shape of its records, and the verdict on it.
ghost use Rattle.std.specs.Prelude.{◌≡◌, true, false, ◌↔◌, ℕ, ◌*◌, ◌≤◌, ◌<◌, length};
ghost use Rattle.limits.specs.Limits.{list_records, list_levels, record_bytes};
ghost use Rattle.formats.specs.Tree.{forest};
ghost use Rattle.formats.specs.Rules.{ok_nodes, verdict, Judged};
ghost use Rattle.formats.specs.Contract.Measure.{OkInside, Low};

use crate::record::Kind;
use limits::{LIST_RECORDS, NODE_INSIDE, RECORD_BYTES, Refusal};

// The place of the first record from `from` up to `to` that isn't simple; `from` where bodies stand, since none of them is.
fn past_simple(list: &[u8], from: usize, to: usize, bodies: bool) -> usize
    requires { (from ≤ to) × (record_bytes * to ≤ length list.now) × (to ≤ list_records) }
    ensures { (from ≤ result) × (result ≤ to) × ((l : ℕ) → 0 < l → Low list.now result to bodies l ↔ Low list.now from to bodies l) }
{
    if bodies {
        return from;
    }
    for at in from..to {
        if !crate::fields::is_simple(list, at) {
            return at;
        }
    }
    to
}

// Whether the records from `from` up to `n` keep the rules and none lies too deep, in one pass over them. The one at `at` lies inside `depth` others and in a
// stretch that ends at `end`; the arrays have the stretches around that one, the outermost first.
fn all_stand(list: &[u8], from: usize, n: usize) -> bool
    requires { (from ≤ n) × (record_bytes * n ≤ length list.now) × (n ≤ list_records) }
    ensures { (result ≡ true) ↔ Low list.now from n false list_levels }
{
    let mut ends = [0u16; NODE_INSIDE];
    let mut of_bodies = [false; NODE_INSIDE];
    let mut depth = 0;
    let mut at = from;
    let mut end = n;
    let mut bodies = false;
    // A `loop`, since a stretch that ends goes on with the one around it, and a record that holds others goes into them.
    loop {
        at = past_simple(list, at, end, bodies);
        if at == end {
            if depth == 0 {
                return true;
            }
            depth -= 1;
            end = ends[depth] as usize;
            bodies = of_bodies[depth];
            continue;
        }
        let r = crate::record::record_at(list, at);
        if !crate::fields::may_stand(r, at, end, bodies) {
            return false;
        }
        at += 1;
        if r.inside == 0 {
            continue;
        }
        if depth == NODE_INSIDE {
            return false;
        }
        ends[depth] = end as u16;
        of_bodies[depth] = bodies;
        depth += 1;
        end = at + r.inside as usize;
        bodies = crate::record::is_a(r.kind, Kind::Modifier);
    }
}

// Whether the first `n` records keep the rules and none lies too deep.
fn all_good(list: &[u8], n: usize) -> bool
    requires { (record_bytes * n ≤ length list.now) × (n ≤ list_records) }
    ensures { (result ≡ true) ↔ Low list.now 0 n false list_levels }
{
    let from = past_simple(list, 0, n, false);
    if from == n {
        return true;
    }
    all_stand(list, from, n)
}

// Whether the records from `from` up to `to` keep the rules, where what lies inside each is known to.
fn stretch_ok(list: &[u8], from: usize, to: usize, bodies: bool) -> bool
    requires from_le_to { (from ≤ to) × (record_bytes * to ≤ length list.now) × (to ≤ list_records) }
    requires ok_inside { OkInside list.now from to }
    ensures { result ≡ ok_nodes bodies (forest list.now from to) }
{
    let mut at = from;
    // A `while`, since what lies inside a record is passed over.
    while at < to {
        let r = crate::record::record_at(list, at);
        if !crate::fields::may_stand(r, at, to, bodies) {
            return false;
        }
        at += 1 + r.inside as usize;
    }
    true
}

// Whether the first `n` records keep the rules, however deep they lie: asked of lists that are refused. What lies inside a record comes after it, so it is asked of the last record first.
// Once it is known of one no record in that stretch reaches past its end, so each record is met in one stretch only, and is read at most twice.
fn all_nest(list: &[u8], n: usize) -> bool
    requires { (record_bytes * n ≤ length list.now) × (n ≤ list_records) }
    ensures { result ≡ ok_nodes false (forest list.now 0 n) }
{
    for i in (0..n).rev() {
        let r = crate::record::record_at(list, i);
        let next = i + 1 + r.inside as usize;
        if n < next {
            return false;
        }
        if !stretch_ok(
            list,
            i + 1,
            next,
            crate::record::is_a(r.kind, Kind::Modifier),
        ) {
            return false;
        }
    }
    stretch_ok(list, 0, n, false)
}

fn judged(list: &[u8]) -> Result<(), Refusal>
    ensures { result ≡ verdict list.now }
{
    let n = list.len() / RECORD_BYTES;
    if list.len() % RECORD_BYTES != 0 {
        return Err(Refusal::BadRecord);
    }
    if LIST_RECORDS < n {
        return Err(Refusal::BadRecord);
    }
    if all_good(list, n) {
        return Ok(());
    }
    if all_nest(list, n) {
        return Err(Refusal::TooDeep);
    }
    Err(Refusal::BadRecord)
}

// Whether a list of bytes is a list of well-formed records (else 11), none of them too deep (else 13).
pub fn check(list: &[u8]) -> Result<(), Refusal>
    ensures verdict { result ≡ verdict list.now }
    ensures trees { Judged list.now result }
{
    judged(list)
}
