// The list that undoes a sum, the Rust's algebraic_inverse: definitions, laws, and the code over a sum that lies in a book of three arrays.
#![tactic(auto)]

ghost use Rattle.std.specs.Prelude.{◌+◌, ◌*◌, ◌≤◌, length, Bool, [], ◌∷◌, ◌≡◌};
ghost use Rattle.cells.specs.Contract.Book.{shown};
ghost use Rattle.formats.specs.Tree.{end};
ghost use Rattle.inverse.specs.Contract.Steps.{inverse_records, next_other, others_of, by_others, ReadyTo, Spelt, Told};
ghost use Rattle.inverse.specs.Inverse.{num, act, spell, coef_of, low, others, less_constant, over_factor, unpower, is_int, of_power, simple_quadratic, root, larger, full_quadratic, linear, of_constant, of_quadratic, inverse};
ghost use Rattle.limits.specs.Limits.{sum_levels, record_bytes};
ghost use Rattle.numbers.specs.Complex.Arith.{real_over};
ghost use Rattle.numbers.specs.Signs.{one64};
ghost use Rattle.sums.specs.Contract.Lies.{Held, OfOne};
ghost use Rattle.writing.specs.Draft.Contract.Lying.{Answered};

use cells::{Cells, Entry};
use formats::record::Primitive;
use limits::{RECORD_BYTES, Refusal};
use numbers::complex::Complex;
use writing::draft::Draft;

// What a sum has besides x to the 0, 1 and 2: nothing, one power of x with its coefficient, or too much to be undone.
#[derive(Clone, Copy)]
pub enum Others {
    Nothing,
    Power(f64, Complex),
    TooMuch,
}

fn wide(x: u8) -> usize
    ensures { result ≡ x }
{
    x as usize
}

// The coefficient of x to the q in the sum of m cells from j on, +0 where there is none.
fn coef_of(book: &Cells, j: usize, m: usize, q: f64) -> Complex
    requires { Held (shown book.now) j (j + m) sum_levels }
    ensures { OfOne (shown book.now) j (j + m) sum_levels (λ s. result ≡ coef_of q s) }
{
    let end = j + m;
    let mut i = j;
    while i < end {
        let x = book.load(i);
        if (x.kind == sums::tree::X) & (x.num == q) {
            let c = x.coef;
            return c;
        }
        i = i + 1 + wide(x.inside);
    }
    Complex::ZERO
}

fn is_low(kind: u8, p: f64) -> bool
    ensures { result ≡ low kind p }
{
    (kind == sums::tree::X) & ((p == 0.0) | (p == 1.0) | (p == 2.0))
}

fn next_other(found: Others, x: Entry) -> Others
    ensures { result ≡ next_other found x }
{
    if is_low(x.kind, x.num) {
        return found;
    }
    match found {
        Others::Nothing => {
            if x.kind == sums::tree::X {
                let c = x.coef;
                Others::Power(x.num, c)
            } else {
                Others::TooMuch
            }
        }
        Others::Power(_, _) => Others::TooMuch,
        Others::TooMuch => Others::TooMuch,
    }
}

// What the sum of m cells from j on has besides x to the 0, 1 and 2.
fn others_of(book: &Cells, j: usize, m: usize) -> Others
    requires { Held (shown book.now) j (j + m) sum_levels }
    ensures { OfOne (shown book.now) j (j + m) sum_levels (λ s. result ≡ others_of (others s)) }
{
    let end = j + m;
    let mut i = j;
    let mut found = Others::Nothing;
    while i < end {
        let x = book.load(i);
        found = next_other(found, x);
        i = i + 1 + wide(x.inside);
    }
    found
}

// ---- words

fn then_number(
    b: &mut [u8],
    s: Result<Draft, Refusal>,
    complex: bool,
    c: Complex,
) -> Result<Draft, Refusal>
    requires { ReadyTo b.old s 1 }
    ensures { Spelt b.old b.new s result 1 complex (num c ∷ []) }
{
    let d = s?;
    writing::draft::say_number(b, d, complex, c)
}

fn then_do(b: &mut [u8], s: Result<Draft, Refusal>, p: Primitive) -> Result<Draft, Refusal>
    requires { ReadyTo b.old s 1 }
    ensures { (flag : Bool) → Spelt b.old b.new s result 1 flag (act p ∷ []) }
{
    let d = s?;
    let e = writing::draft::say_primitive(b, d, p);
    Ok(e)
}

// A number, and what is done with it.
fn then_by(
    b: &mut [u8],
    s: Result<Draft, Refusal>,
    complex: bool,
    c: Complex,
    p: Primitive,
) -> Result<Draft, Refusal>
    requires { ReadyTo b.old s 2 }
    ensures { Spelt b.old b.new s result 2 complex (num c ∷ act p ∷ []) }
{
    let t = then_number(b, s, complex, c);
    then_do(b, t, p)
}

// The list so far is empty.
fn start() -> Result<Draft, Refusal>
    ensures { result ≡ Ok record { from = 0; end = 0 } }
{
    Ok(Draft { from: 0, end: 0 })
}

// ---- kx^p + c

fn less_constant(
    b: &mut [u8],
    s: Result<Draft, Refusal>,
    complex: bool,
    c: Complex,
) -> Result<Draft, Refusal>
    requires { ReadyTo b.old s 2 }
    ensures { Spelt b.old b.new s result 2 complex (less_constant c []) }
{
    if c.is_zero() {
        return s;
    }
    then_by(b, s, complex, c, Primitive::Sub)
}

fn over_factor(
    b: &mut [u8],
    s: Result<Draft, Refusal>,
    complex: bool,
    k: Complex,
) -> Result<Draft, Refusal>
    requires { ReadyTo b.old s 2 }
    ensures { Spelt b.old b.new s result 2 complex (over_factor k []) }
{
    if k.is_one() {
        return s;
    }
    then_by(b, s, complex, k, Primitive::Div)
}

fn unpower(b: &mut [u8], s: Result<Draft, Refusal>, complex: bool, p: f64) -> Result<Draft, Refusal>
    requires { ReadyTo b.old s 2 }
    ensures { Spelt b.old b.new s result 2 complex (unpower p) }
{
    if p == 0.5 {
        let t = then_do(b, s, Primitive::Dup);
        return then_do(b, t, Primitive::Mul);
    }
    if p == -1.0 {
        return then_do(b, s, Primitive::Reciprocal);
    }
    then_by(b, s, complex, Complex::new(p, 0.0), Primitive::Root)
}

// Whole and real.
fn is_int(k: Complex) -> bool
    ensures { result ≡ is_int k }
{
    (k.im == 0.0) & numbers::is_whole(k.re)
}

fn of_power(b: &mut [u8], complex: bool, k: Complex, p: f64, c: Complex) -> Result<Draft, Refusal>
    requires { record_bytes * inverse_records ≤ length b.old }
    ensures { Told b.old b.new result (of_power complex k p c) }
{
    if !is_int(k) {
        return Err(Refusal::NeedsMath);
    }
    let t = less_constant(b, start(), complex, c);
    let u = over_factor(b, t, complex, k);
    unpower(b, u, complex, p)
}

// ---- ax² + bx + c, where the middle coefficient is called q

fn simple_quadratic(b: &mut [u8], complex: bool, a: Complex, c: Complex) -> Result<Draft, Refusal>
    requires { record_bytes * inverse_records ≤ length b.old }
    ensures { Told b.old b.new result (spell complex (simple_quadratic a c) end) }
{
    let t = then_by(b, start(), complex, c, Primitive::Sub);
    let u = then_by(b, t, complex, a, Primitive::Div);
    then_do(b, u, Primitive::Sqrt)
}

fn root(
    b: &mut [u8],
    s: Result<Draft, Refusal>,
    complex: bool,
    a: Complex,
    q: Complex,
    c: Complex,
) -> Result<Draft, Refusal>
    requires { ReadyTo b.old s 8 }
    ensures { Spelt b.old b.new s result 8 complex (root a q c) }
{
    let t = then_by(b, s, complex, c, Primitive::Flip);
    let u = then_do(b, t, Primitive::Sub);
    let v = then_by(b, u, complex, a.mul_real(-4.0), Primitive::Mul);
    let w = then_by(b, v, complex, q.mul(q), Primitive::Add);
    then_do(b, w, Primitive::Sqrt)
}

fn larger(
    b: &mut [u8],
    s: Result<Draft, Refusal>,
    complex: bool,
    q: Complex,
) -> Result<Draft, Refusal>
    requires { ReadyTo b.old s 8 }
    ensures { Spelt b.old b.new s result 8 complex (larger q) }
{
    let t = then_do(b, s, Primitive::Dup);
    let u = then_by(b, t, complex, q, Primitive::Sub);
    let v = then_do(b, u, Primitive::Flip);
    let w = then_do(b, v, Primitive::Neg);
    let x = then_by(b, w, complex, q, Primitive::Sub);
    then_do(b, x, Primitive::Max)
}

fn full_quadratic(
    b: &mut [u8],
    complex: bool,
    a: Complex,
    q: Complex,
    c: Complex,
) -> Result<Draft, Refusal>
    requires { record_bytes * inverse_records ≤ length b.old }
    ensures { Told b.old b.new result (spell complex (full_quadratic a q c) end) }
{
    let t = root(b, start(), complex, a, q, c);
    let u = larger(b, t, complex, q);
    then_by(b, u, complex, a.mul_real(2.0), Primitive::Div)
}

// 1 over a pair, as the Rust divides by one.
fn one_over(q: Complex) -> Complex
    ensures { result ≡ real_over one64 q }
{
    Complex::real_div(1.0, q)
}

fn linear(b: &mut [u8], complex: bool, q: Complex, c: Complex) -> Result<Draft, Refusal>
    requires { record_bytes * inverse_records ≤ length b.old }
    ensures { Told b.old b.new result (spell complex (linear q c) end) }
{
    if !c.is_zero() {
        let t = then_by(b, start(), complex, c, Primitive::Sub);
        return then_by(b, t, complex, q, Primitive::Div);
    }
    if q.is_one() {
        return then_do(b, start(), Primitive::Identity);
    }
    if q.abs_above_one() {
        return then_by(b, start(), complex, q, Primitive::Div);
    }
    then_by(b, start(), complex, one_over(q), Primitive::Mul)
}

fn of_constant(b: &mut [u8], c: Complex) -> Result<Draft, Refusal>
    requires { record_bytes * inverse_records ≤ length b.old }
    ensures { Told b.old b.new result (of_constant c) }
{
    let t = then_do(b, start(), Primitive::Pop);
    then_number(b, t, !(c.im == 0.0), c)
}

fn of_quadratic(
    b: &mut [u8],
    complex: bool,
    a: Complex,
    q: Complex,
    c: Complex,
) -> Result<Draft, Refusal>
    requires { record_bytes * inverse_records ≤ length b.old }
    ensures { Told b.old b.new result (of_quadratic complex a q c) }
{
    if q.is_zero() {
        if a.is_zero() {
            return of_constant(b, c);
        }
        return simple_quadratic(b, complex, a, c);
    }
    if a.is_zero() {
        return linear(b, complex, q, c);
    }
    full_quadratic(b, complex, a, q, c)
}

// ---- the whole sum

fn undo(
    b: &mut [u8],
    complex: bool,
    a: Complex,
    q: Complex,
    c: Complex,
    more: Others,
) -> Result<Draft, Refusal>
    requires { record_bytes * inverse_records ≤ length b.old }
    ensures { Told b.old b.new result (by_others complex a q c more) }
{
    match more {
        Others::Nothing => of_quadratic(b, complex, a, q, c),
        Others::Power(p, k) => {
            if q.is_zero() & a.is_zero() {
                return of_power(b, complex, k, p, c);
            }
            Err(Refusal::TooComplex)
        }
        Others::TooMuch => Err(Refusal::TooComplex),
    }
}

// The longest list that undoes a sum: a root of 8 records, the larger of two in 8 more, and a division in 2.
const INVERSE_RECORDS: usize = 8 + 8 + 2;

// The list that undoes the sum of m cells from j on.
pub fn algebraic_inverse(
    book: &Cells,
    j: usize,
    m: usize,
    complex: bool,
    out: &mut [u8],
) -> Result<usize, Refusal>
    requires { Held (shown book.now) j (j + m) sum_levels }
    ensures { OfOne (shown book.now) j (j + m) sum_levels (λ s. Answered out.old out.new result (inverse complex s)) }
{
    let a = coef_of(book, j, m, 2.0);
    let q = coef_of(book, j, m, 1.0);
    let c = coef_of(book, j, m, 0.0);
    let more = others_of(book, j, m);
    let mut b = [0u8; RECORD_BYTES * INVERSE_RECORDS];
    let s = undo(&mut b, complex, a, q, c, more);
    writing::draft::answer(&b, s, out)
}
