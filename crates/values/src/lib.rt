// The value of a sum at x, straight from its terms. No list is written: the outermost terms are met once, in rising power, and what is found in them is judged at the end.
#![tactic(auto)]

pub mod powers;

ghost use Rattle.std.specs.Prelude.{◌≡◌, [], ◌+◌, ◌-◌, ◌≤◌, ◌<◌};
ghost use Rattle.limits.specs.Limits.{sum_levels};
ghost use Rattle.cells.specs.Contract.Book.{shown};
ghost use Rattle.running.specs.Primitives.{times};
ghost use Rattle.sums.specs.Contract.Lies.{Held, OfOne};
ghost use Rattle.values.specs.Value.{is_one, times_unless};
ghost use Rattle.values.specs.ValueOf.{value_of, value_numbers};
ghost use Rattle.values.specs.Contract.Findings.{plus, onward, judged, Reached, Adds, Takes, Starts, Finds};

use cells::{Cells, Entry};
use limits::Refusal;
use numbers::complex::Complex;
use sums::tree::X;

#[derive(Clone, Copy)]
pub struct ValueNumbers {
    pub number: u64,
    pub place: usize,
    pub count: usize,
    pub value: f64,
}

// What was found in the terms so far, side by side: whether each is a whole power, and real; whether there was one, and the sum of them; and the last power of x
// that was formed, with its exponent.
#[derive(Clone, Copy)]
struct Found {
    pub whole: bool,
    pub real: bool,
    pub any: bool,
    pub sum: f64,
    pub exponent: u64,
    pub power: f64,
}

// The numbers of an answer.
pub fn value_numbers(a: Result<f64, Refusal>) -> ValueNumbers
    ensures { result ≡ value_numbers a }
{
    match a {
        Ok(v) => ValueNumbers {
            number: 0,
            place: 0,
            count: 0,
            value: v,
        },
        Err(q) => ValueNumbers {
            number: limits::refusal_no(q),
            place: 0,
            count: 0,
            value: 0.0,
        },
    }
}

// ---- one term

// p multiplied by x, from the exponent k on up to n.
fn multiplied_on(x: f64, k: u64, p: f64, n: u64) -> f64
    requires { k ≤ n }
    ensures { result ≡ times (n - k) x p }
{
    let mut left = n - k;
    let mut r = p;
    while 0 < left {
        r = r * x;
        left = left - 1;
    }
    r
}

// x to the power n, the product from the left. Powers rise, so it goes on from the last one formed; where that is above n it begins anew.
fn power_of_x(x: f64, f: Found, n: u64) -> f64
    requires { Reached x f × (0 < n) }
    ensures { result ≡ times (n - 1) x x }
{
    if f.exponent <= n {
        return multiplied_on(x, f.exponent, f.power, n);
    }
    multiplied_on(x, 1, x, n)
}

// Times the real part of the coefficient, unless that is 1.
fn times_coef(v: f64, c: Complex) -> f64
    ensures { result ≡ times_unless (is_one c) v c.re }
{
    if c.is_one() {
        return v;
    }
    v * c.re
}

// A term's value added to those before it; the first is added to nothing.
fn plus(f: Found, v: f64) -> f64
    ensures { result ≡ plus f.any f.sum v }
{
    if f.any {
        return f.sum + v;
    }
    v
}

// A term that isn't zero, x to the power n: its value goes to the sum.
fn add_power(x: f64, f: Found, n: u64, c: Complex) -> Found
    requires { Reached x f }
    ensures { Adds x f n c result }
{
    if n == 0 {
        return Found {
            any: true,
            sum: plus(f, x * 0.0 + c.re),
            ..f
        };
    }
    let p = power_of_x(x, f, n);
    Found {
        any: true,
        sum: plus(f, times_coef(p, c)),
        exponent: n,
        power: p,
        ..f
    }
}

// The next outermost term. A term that is zero is asked nothing.
fn take_term(x: f64, f: Found, e: Entry) -> Found
    requires { Reached x f }
    ensures { Takes x f e result }
{
    let c = e.coef;
    if c.is_zero() {
        return f;
    }
    let real = f.real & c.is_real();
    let Some(n) = numbers::small_whole(e.num) else {
        return Found {
            whole: false,
            real,
            ..f
        };
    };
    let asked = Found {
        whole: f.whole & (e.kind == X),
        real,
        ..f
    };
    add_power(x, asked, n, c)
}

// ---- all terms

// The sum of all terms; of none it is x times 0.
fn total(x: f64, f: Found) -> f64
    ensures { result ≡ onward x f.any f.sum [] }
{
    if f.any {
        return f.sum;
    }
    x * 0.0
}

// What was found, judged: 14 for the whole sum comes before 15. One test at the end is enough, since what isn't finite stays so.
fn judge(x: f64, f: Found) -> Result<f64, Refusal>
    ensures { result ≡ judged f.whole f.real (onward x f.any f.sum []) }
{
    if !f.whole {
        return Err(Refusal::NeedsMath);
    }
    if !f.real {
        return Err(Refusal::NotFinite);
    }
    let v = total(x, f);
    if !numbers::is_finite(v) {
        return Err(Refusal::NotFinite);
    }
    Ok(v)
}

// Before the first term: the last power of x is x itself.
fn nothing_found(x: f64) -> Found
    ensures { Starts x result }
{
    Found {
        whole: true,
        real: true,
        any: false,
        sum: 0.0,
        exponent: 1,
        power: x,
    }
}

// The outermost terms of the sum of the first n cells, in turn.
fn find(book: &Cells, n: usize, x: f64) -> Found
    requires { Held (shown book.now) 0 n sum_levels }
    ensures { OfOne (shown book.now) 0 n sum_levels (λ s. Finds x s result) }
{
    let mut f = nothing_found(x);
    let mut i = 0usize;
    while i < n {
        let e = book.load(i);
        f = take_term(x, f, e);
        i = i + 1 + e.inside as usize;
    }
    f
}

// The value at x of the sum of the first n cells.
pub fn value_of(book: &Cells, n: usize, x: f64) -> Result<f64, Refusal>
    requires { Held (shown book.now) 0 n sum_levels }
    ensures { OfOne (shown book.now) 0 n sum_levels (λ s. result ≡ value_of s x) }
{
    if !numbers::is_finite(x) {
        return Err(Refusal::NotFinite);
    }
    let f = find(book, n, x);
    judge(x, f)
}
