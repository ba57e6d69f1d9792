// The quick way to a value: a sum of nothing but powers of x, straight from its bytes. It is not taken in first, since that takes longer than the value; anything else
// goes the general way.
ghost use Rattle.std.specs.Prelude.{◌≡◌, true, ◌+◌, ◌*◌, ◌≤◌, length};
ghost use Rattle.limits.specs.Limits.{entry_bytes};
ghost use Rattle.values.specs.Contract.Powers.{entry_at, PowerAt, FindsPowers, QuickOf};

use crate::Found;
use cells::Entry;
use limits::{ENTRY_BYTES, Refusal, SUM_ENTRIES};
use numbers::complex::Complex;
use sums::tree::X;

// An entry's first word: the kind of a power of x, with nothing inside.
const POWER: u64 = X as u64;

// Whether the entry at place i is a power of x whose numbers are finite.
fn is_power(list: &[u8], i: usize) -> bool
    requires { entry_bytes * i + entry_bytes ≤ length list.now }
    ensures { result ≡ true → PowerAt list.now i }
{
    let at = ENTRY_BYTES * i;
    let head = formats::record::eight(list, at);
    let num = formats::record::eight(list, at + 8);
    let re = formats::record::eight(list, at + 16);
    let im = formats::record::eight(list, at + 24);
    let plain = numbers::finite_bits(num) & numbers::finite_bits(re) & numbers::finite_bits(im);
    (head == POWER) & plain
}

// The power at place i.
fn power_at(list: &[u8], i: usize) -> Entry
    requires { (entry_bytes * i + entry_bytes ≤ length list.now) × PowerAt list.now i }
    ensures { result ≡ entry_at list.now i }
{
    let at = ENTRY_BYTES * i;
    let num = formats::record::eight(list, at + 8);
    let re = formats::record::eight(list, at + 16);
    let im = formats::record::eight(list, at + 24);
    let c = Complex {
        re: f64::from_bits(re),
        im: f64::from_bits(im),
    };
    Entry {
        kind: X,
        inside: 0,
        num: f64::from_bits(num),
        coef: c,
    }
}

// The n entries in turn, as long as each is a power above the one before it; the first is above -1.
fn find_powers(list: &[u8], n: usize, x: f64) -> Option<Found>
    requires { entry_bytes * n ≤ length list.now }
    ensures { FindsPowers list.now n x result }
{
    let mut f = crate::nothing_found(x);
    let mut last = -1.0;
    let mut i = 0usize;
    while i < n {
        if !is_power(list, i) {
            return None;
        }
        let e = power_at(list, i);
        if !(last < e.num) {
            return None;
        }
        f = crate::take_term(x, f, e);
        last = e.num;
        i = i + 1;
    }
    Some(f)
}

// The value at x of the sum of powers that these bytes are.
pub fn quick_value(list: &[u8], x: f64) -> Option<Result<f64, Refusal>>
    ensures { QuickOf list.now x result }
{
    let n = list.len() / ENTRY_BYTES;
    if list.len() % ENTRY_BYTES != 0 {
        return None;
    }
    if n < 1 {
        return None;
    }
    if n > SUM_ENTRIES {
        return None;
    }
    if !numbers::is_finite(x) {
        return None;
    }
    let met = find_powers(list, n, x);
    match met {
        Some(f) => Some(crate::judge(x, f)),
        None => None,
    }
}
