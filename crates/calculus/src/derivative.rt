// The derivative of a sum, one outermost entry a step.
ghost use Rattle.std.specs.Prelude.{◌≡◌, ◌+◌, ◌≤◌};
ghost use Rattle.limits.specs.Limits.{sum_entries, sum_levels};
ghost use Rattle.cells.specs.Contract.Book.{seen, shown, Room, slices};
ghost use Rattle.cells.specs.Contract.Moves.{Kept};
ghost use Rattle.sums.specs.Tree.Kinds.{Log};
ghost use Rattle.sums.specs.Tree.Sums.{none};
ghost use Rattle.sums.specs.Tree.Map.{each_into};
ghost use Rattle.calculus.specs.Derivative.{prime_step, prime, derive_x, derive_div, derive_log, derive_exp, derive_into, derive};
ghost use Rattle.sums.specs.Contract.Lies.{Held, OfOne, Agrees};
ghost use Rattle.arithmetic.specs.Add.Contract.Operands.{Source, Growing, constant_of};
ghost use Rattle.calculus.specs.Contract.Into.{Ready, Into, derive_wave};

use cells::{Book, Cells, Entry};
use limits::{Refusal, SUM_ENTRIES};
use numbers::complex::Complex;
use sums::tree::Merge;

// What a power of x adds to the constant that the derivative of an argument has to be.
fn prime_step(acc: Complex, p: f64, c: Complex) -> Option<Complex>
    ensures { result ≡ constant_of (prime_step acc p c) }
{
    if crate::vanishes(p, c) {
        return Some(acc);
    }
    if p - 1.0 == 0.0 {
        return Some(acc.add(crate::slope(p, c)));
    }
    None
}

// The constant that the derivative of the sum of n cells from i on is, if it is one.
fn prime_of(book: &Cells, i: usize, n: usize) -> Option<Complex>
    requires { Held (shown book.now) i (i + n) sum_levels }
    ensures { OfOne (shown book.now) i (i + n) sum_levels (λ s. result ≡ constant_of (prime s)) }
{
    let end = i + n;
    let mut acc = Complex::ZERO;
    for q in i..end {
        let x = book.load(q);
        if x.kind != sums::tree::X {
            return None;
        }
        let Some(next) = prime_step(acc, x.num, x.coef) else {
            return None;
        };
        acc = next;
    }
    Some(acc)
}

// A power of x is skipped, or put into the sum of len cells from w on.
fn derive_x(book: &mut Book, x: Entry, w: usize, len: usize) -> Result<usize, Refusal>
    requires { Growing (seen book.old) w len }
    ensures kept { Kept (seen book.old) (seen book.new) w (w + sum_entries) }
    ensures of_one { OfOne (seen book.old) w (w + len) sum_levels (λ s. Agrees result (seen book.new) w (derive_x x s)) }
    ensures same_slices { slices book.new ≡ slices book.old }
{
    if crate::vanishes(x.num, x.coef) {
        return Ok(len);
    }
    let c = crate::slope(x.num, x.coef);
    sums::map::put_power(book, Merge::Add, x.num - 1.0, c, w, len)
}

// sin, cos, sinh or cosh, whose derivative is of another kind: that of its argument has to be a constant.
fn derive_wave(book: &mut Book, x: Entry, i: usize, w: usize, len: usize) -> Result<usize, Refusal>
    requires { Ready (seen book.old) x i w len × (1 ≤ x.inside) }
    ensures into { Into (seen book.old) (seen book.new) x i w len sum_entries result derive_wave }
    ensures same_slices { slices book.new ≡ slices book.old }
{
    let Some(d) = prime_of(&book.cells(), i, x.inside as usize) else {
        return Err(Refusal::TooComplex);
    };
    let kind = crate::turned_kind(x.kind);
    let how = crate::turned_how(x.kind);
    let y = Entry {
        kind: kind,
        inside: x.inside,
        num: 0.0,
        coef: x.coef.mul(d),
    };
    sums::map::put_block(book, how, y, i, w, len)
}

// E to a multiple of x.
fn derive_exp(book: &mut Book, x: Entry, i: usize, w: usize, len: usize) -> Result<usize, Refusal>
    requires { Ready (seen book.old) x i w len × (1 ≤ x.inside) }
    ensures into { Into (seen book.old) (seen book.new) x i w len sum_entries result derive_exp }
    ensures same_slices { slices book.new ≡ slices book.old }
{
    if !arithmetic::add::is_x(&book.cells(), i, x.inside as usize) {
        return Err(Refusal::TooComplex);
    }
    let argument = book.load(i);
    let y = Entry {
        kind: sums::tree::EXP,
        inside: x.inside,
        num: 0.0,
        coef: x.coef.mul(argument.coef),
    };
    sums::map::put_block(book, Merge::Add, y, i, w, len)
}

// A logarithm, to a base whose natural logarithm is known.
fn derive_log(book: &mut Book, x: Entry, i: usize, w: usize, len: usize) -> Result<usize, Refusal>
    requires { Ready (seen book.old) x i w len × (1 ≤ x.inside) }
    ensures into { Into (seen book.old) (seen book.new) x i w len sum_entries result derive_log }
    ensures same_slices { slices book.new ≡ slices book.old }
{
    let Some(d) = prime_of(&book.cells(), i, x.inside as usize) else {
        return Err(Refusal::TooComplex);
    };
    let Some(l) = crate::ln_of(x.num) else {
        return Err(Refusal::NeedsMath);
    };
    let y = Entry {
        kind: sums::tree::DIV,
        inside: x.inside,
        num: 0.0,
        coef: x.coef.mul(d).div_real(l),
    };
    sums::map::put_block(book, Merge::Add, y, i, w, len)
}

// 1 over a sum: the sum's square is formed behind the result.
fn derive_div(book: &mut Book, x: Entry, i: usize, w: usize, len: usize) -> Result<usize, Refusal>
    requires { Ready (seen book.old) x i w len × (1 ≤ x.inside) }
    ensures into { Into (seen book.old) (seen book.new) x i w len (sum_entries + sum_entries) result derive_div }
    ensures same_slices { slices book.new ≡ slices book.old }
{
    let n = x.inside as usize;
    let c = x.coef;
    let p = w + SUM_ENTRIES;
    let k = arithmetic::multiply::mul(book, i, n, i, n, p)?;
    let y = Entry {
        kind: sums::tree::DIV,
        inside: k as u8,
        num: 0.0,
        coef: c,
    };
    sums::map::put_block(book, Merge::Add, y, p, w, len)
}

// Any function of a sum but Div.
fn derive_function(
    book: &mut Book,
    x: Entry,
    i: usize,
    w: usize,
    len: usize,
) -> Result<usize, Refusal>
    requires { Ready (seen book.old) x i w len × (Log ≤ x.kind) }
    ensures into { Into (seen book.old) (seen book.new) x i w len sum_entries result derive_into }
    ensures same_slices { slices book.new ≡ slices book.old }
{
    if x.kind == sums::tree::LOG {
        return derive_log(book, x, i, w, len);
    }
    if x.kind == sums::tree::EXP {
        return derive_exp(book, x, i, w, len);
    }
    derive_wave(book, x, i, w, len)
}

// One entry, whose argument lies from i on, derived into the sum of len cells from w on.
fn derive_entry(book: &mut Book, x: Entry, i: usize, w: usize, len: usize) -> Result<usize, Refusal>
    requires { Ready (seen book.old) x i w len }
    ensures into { Into (seen book.old) (seen book.new) x i w len (sum_entries + sum_entries) result derive_into }
    ensures same_slices { slices book.new ≡ slices book.old }
{
    if x.kind == sums::tree::X {
        return derive_x(book, x, w, len);
    }
    if x.kind == sums::tree::DIV {
        return derive_div(book, x, i, w, len);
    }
    derive_function(book, x, i, w, len)
}

// Each entry of the sum of m cells from j on, derived into a sum that starts empty.
fn derive_each(book: &mut Book, j: usize, m: usize, w: usize) -> Result<usize, Refusal>
    requires { Source (seen book.old) j m w × Room (seen book.old) (w + (sum_entries + sum_entries)) }
    ensures kept { Kept (seen book.old) (seen book.new) w (w + (sum_entries + sum_entries)) }
    ensures of_one { OfOne (seen book.old) j (j + m) sum_levels (λ t. Agrees result (seen book.new) w (each_into derive_into none t)) }
    ensures same_slices { slices book.new ≡ slices book.old }
{
    let end = j + m;
    let mut q = j;
    let mut len = 0usize;
    while q < end {
        let x = book.load(q);
        len = derive_entry(book, x, q + 1, w, len)?;
        q = q + 1 + x.inside as usize;
    }
    Ok(len)
}

// The derivative of the sum of m cells from j on: nothing becomes constant 0.
pub fn expr_deriv(book: &mut Book, j: usize, m: usize, w: usize) -> Result<usize, Refusal>
    requires { Source (seen book.old) j m w × Room (seen book.old) (w + (sum_entries + sum_entries)) }
    ensures kept { Kept (seen book.old) (seen book.new) w (w + (sum_entries + sum_entries)) }
    ensures of_one { OfOne (seen book.old) j (j + m) sum_levels (λ t. Agrees result (seen book.new) w (derive t)) }
    ensures same_slices { slices book.new ≡ slices book.old }
{
    let n = derive_each(book, j, m, w)?;
    if n == 0 {
        return arithmetic::add::constant_sum(book, Complex::ZERO, w);
    }
    Ok(n)
}
