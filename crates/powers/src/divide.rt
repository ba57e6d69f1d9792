// The quotient of two sums that lie in one book. The result is formed in the SUM_ENTRIES places from w on, the SUM_ENTRIES behind them are working
// places, and no other place is written: operands lie apart from all of these and stay as they are.
ghost use Rattle.std.specs.Prelude.{◌≡◌, List, ℕ, ◌+◌, ◌≤◌, Float};
ghost use Rattle.limits.specs.Limits.{sum_entries, sum_levels};
ghost use Rattle.cells.specs.Contract.Book.{book as listed, seen, shown, Room, slices};
ghost use Rattle.cells.specs.Contract.Moves.{Kept};
ghost use Rattle.sums.specs.Tree.Kinds.{X, CosH};
ghost use Rattle.sums.specs.Tree.Sums.{Sum, none};
ghost use Rattle.sums.specs.Tree.Map.{at, each_into};
ghost use Rattle.arithmetic.specs.Singles.{as_constant};
ghost use Rattle.arithmetic.specs.Product.{mulable, product};
ghost use Rattle.arithmetic.specs.Quotient.{x_to, divable, all_divable, div_term, div_by_several, quotient};
ghost use Rattle.arithmetic.specs.Power.{reciprocal};
ghost use Rattle.sums.specs.Contract.Lies.{Held, OfOne, OfTwo, Agrees};
ghost use Rattle.arithmetic.specs.Add.Contract.Operands.{Operand, Source};
ghost use Rattle.powers.specs.Divide.Contract.Dividing.{Operands, Working, Divisor, By, OfDivisor, over_div, over_other, power_of};

use arithmetic::Change;
use cells::{Book, Cells, Entry};
use limits::{Refusal, SUM_ENTRIES, SUM_LEVELS};
use numbers::complex::Complex;
use sums::tree::Merge;

// Whether every outermost term of the sum of m cells from j on is a power of x: then a power of x times it is a sum.
fn all_x(kinds: &[u8], insides: &[u8], j: usize, m: usize) -> bool
    requires { (numbers : List (List ℕ)) × Held (listed kinds.now insides.now numbers) j (j + m) sum_levels }
    ensures { (numbers : List (List ℕ)) (p : Float) → OfOne (listed kinds.now insides.now numbers) j (j + m) sum_levels (λ t. result ≡ mulable (x_to p) t) }
{
    let end = j + m;
    let mut q = j;
    while q < end {
        if kinds[q] != sums::tree::X {
            return false;
        }
        q = q + 1 + insides[q] as usize;
    }
    true
}

// x to the power times the sum of m cells from j on, formed from p on.
fn times_x(book: &mut Book, power: f64, j: usize, m: usize, p: usize) -> Result<usize, Refusal>
    requires { Operand (seen book.old) j m p × Room (seen book.old) (p + sum_entries) }
    ensures kept { Kept (seen book.old) (seen book.new) p (p + sum_entries) }
    ensures of_one { OfOne (seen book.old) j (j + m) sum_levels (λ t. Agrees result (seen book.new) p (product (x_to power) t)) }
    ensures same_slices { slices book.new ≡ slices book.old }
{
    let cells = book.cells();
    if !all_x(cells.kinds, cells.insides, j, m) {
        return Err(Refusal::TooComplex);
    }
    let end = j + m;
    let mut q = j;
    let mut len = 0usize;
    while q < end {
        let y = book.load(q);
        let c = Complex::ONE.mul(y.coef);
        len = sums::map::put_power(book, Merge::Add, power + y.num, c, p, len)?;
        q = q + 1 + y.inside as usize;
    }
    Ok(len)
}

// A power of x by Div is added into the sum of n cells from w on: 1 leaves the inside, the m cells from j on, and any other is multiplied with it. c is the
// quotient of the coefficients.
fn over_div(
    book: &mut Book,
    x: Entry,
    c: Complex,
    j: usize,
    m: usize,
    w: usize,
    n: usize,
) -> Result<usize, Refusal>
    requires { Source (seen book.old) j m w × Working (seen book.old) w n }
    ensures kept { Kept (seen book.old) (seen book.new) w (w + (sum_entries + sum_entries)) }
    ensures of_two { OfTwo (seen book.old) w (w + n) j (j + m) sum_levels (λ s v. Agrees result (seen book.new) w (over_div x c s v)) }
    ensures same_slices { slices book.new ≡ slices book.old }
{
    if arithmetic::add::is_one(x) {
        return arithmetic::add::add_each(book, Change::Times(c), j, m, w, n);
    }
    let p = w + SUM_ENTRIES;
    let k = times_x(book, x.num, j, m, p)?;
    arithmetic::add::add_each(book, Change::Times(c), p, k, w, n)
}

// 1 by another kind is Div of the divisor, whose own coefficient is then 1, and is added into the sum of n cells from w on; c is the coefficient.
fn over_other(
    book: &mut Book,
    c: Complex,
    y: Entry,
    j: usize,
    w: usize,
    n: usize,
) -> Result<usize, Refusal>
    requires { By (seen book.old) y j w × Working (seen book.old) w n }
    ensures kept { Kept (seen book.old) (seen book.new) w (w + (sum_entries + sum_entries)) }
    ensures of_divisor { OfDivisor (seen book.old) w (w + n) y j (λ s v. Agrees result (seen book.new) w (over_other y c s v)) }
    ensures same_slices { slices book.new ≡ slices book.old }
{
    let p = w + SUM_ENTRIES;
    let head = Entry {
        kind: y.kind,
        inside: y.inside,
        num: y.num,
        coef: Complex::ONE,
    };
    book.insert(head, j, p, p);
    let x = Entry {
        kind: sums::tree::DIV,
        inside: y.inside + 1,
        num: 0.0,
        coef: c,
    };
    sums::map::put_block(book, Merge::Add, x, p, w, n)
}

// Whether the term x, whose inside lies from i on, has a quotient by the term y, whose inside lies from j on.
fn can_div_term(book: &Cells, x: Entry, i: usize, y: Entry, j: usize) -> bool
    requires le_kind { (X ≤ x.kind) × (x.kind ≤ CosH) × (X ≤ y.kind) × (y.kind ≤ CosH) }
    requires held { Held (shown book.now) i (i + x.inside) sum_levels × Held (shown book.now) j (j + y.inside) sum_levels }
    ensures { OfTwo (shown book.now) i (i + x.inside) j (j + y.inside) sum_levels (λ t v. result ≡ divable x t y v) }
{
    let code = arithmetic::quotient_code(x.kind, y.kind);
    if code == arithmetic::X_BY_X {
        return true;
    }
    if code == arithmetic::X_BY_DIV {
        return arithmetic::add::is_one(x) | all_x(book.kinds, book.insides, j, y.inside as usize);
    }
    if code == arithmetic::X_BY_OTHER {
        return arithmetic::add::is_one(x);
    }
    if code == arithmetic::ALIKE {
        return sums::order::eq_term(book, x, i, y, j, SUM_LEVELS);
    }
    false
}

// Whether each term of the sum of n cells from i on has a quotient by the term y, whose inside lies from j on.
fn can_div(book: &Cells, i: usize, n: usize, y: Entry, j: usize) -> bool
    requires { Held (shown book.now) i (i + n) sum_levels × ((v : Sum) × Divisor (shown book.now) y j v) }
    ensures { OfDivisor (shown book.now) i (i + n) y j (λ s v. result ≡ all_divable y v s) }
{
    let end = i + n;
    let mut q = i;
    while q < end {
        let x = book.load(q);
        if !can_div_term(book, x, q + 1, y, j) {
            return false;
        }
        q = q + 1 + x.inside as usize;
    }
    true
}

// The power of a quotient that is a power of x: 1 by x to the b is x to the -b, and two terms that are == give x to the 1.
fn power_of(code: u8, x: Entry, y: Entry) -> f64
    ensures { result ≡ power_of code x y }
{
    if code != arithmetic::X_BY_X {
        return 1.0;
    }
    if arithmetic::add::is_one(x) {
        return -y.num;
    }
    x.num - y.num
}

// The term x divided by y, whose inside lies from j on, is added into the sum of n cells from w on.
fn div_term(
    book: &mut Book,
    x: Entry,
    y: Entry,
    j: usize,
    w: usize,
    n: usize,
) -> Result<usize, Refusal>
    requires { (X ≤ x.kind) × (x.kind ≤ CosH) × By (seen book.old) y j w × Working (seen book.old) w n }
    ensures kept { Kept (seen book.old) (seen book.new) w (w + (sum_entries + sum_entries)) }
    ensures of_divisor { OfDivisor (seen book.old) w (w + n) y j (λ s v. Agrees result (seen book.new) w (div_term y v x s)) }
    ensures same_slices { slices book.new ≡ slices book.old }
{
    let code = arithmetic::quotient_code(x.kind, y.kind);
    let c = x.coef.div(y.coef);
    let c1 = c.mul(Complex::ONE);
    if code == arithmetic::X_BY_DIV {
        return over_div(book, x, c, j, y.inside as usize, w, n);
    }
    if code == arithmetic::X_BY_OTHER {
        return over_other(book, c1, y, j, w, n);
    }
    let power = power_of(code, x, y);
    sums::map::put_power(book, Merge::Add, power, c1, w, n)
}

// Each term of the sum of n cells from i on is divided by y, whose inside lies from j on.
fn div_each(
    book: &mut Book,
    i: usize,
    n: usize,
    y: Entry,
    j: usize,
    w: usize,
) -> Result<usize, Refusal>
    requires { Source (seen book.old) i n w × By (seen book.old) y j w × Room (seen book.old) (w + (sum_entries + sum_entries)) }
    ensures kept { Kept (seen book.old) (seen book.new) w (w + (sum_entries + sum_entries)) }
    ensures of_divisor { OfDivisor (seen book.old) i (i + n) y j (λ s v. Agrees result (seen book.new) w (each_into (λ x t u. div_term y v x u) none s)) }
    ensures same_slices { slices book.new ≡ slices book.old }
{
    let end = i + n;
    let mut q = i;
    let mut len = 0usize;
    while q < end {
        let x = book.load(q);
        len = div_term(book, x, y, j, w, len)?;
        q = q + 1 + x.inside as usize;
    }
    Ok(len)
}

// A constant c, the sum of n cells from i on, by a sum of several terms, the m cells from j on: 0 stays, and 1 gives Div of the sum.
fn constant_by(
    book: &mut Book,
    c: Complex,
    i: usize,
    n: usize,
    j: usize,
    m: usize,
    w: usize,
) -> Result<usize, Refusal>
    requires { Operands (seen book.old) i n j m w }
    ensures kept { Kept (seen book.old) (seen book.new) w (w + (sum_entries + sum_entries)) }
    ensures of_two { OfTwo (seen book.old) i (i + n) j (j + m) sum_levels (λ s t. Agrees result (seen book.new) w (div_by_several s t (at c))) }
    ensures same_slices { slices book.new ≡ slices book.old }
{
    let zero = c.is_zero();
    let one = c.is_one();
    if zero {
        book.copy_within(i, n, w);
        return Ok(n);
    }
    if !one {
        return Err(Refusal::TooComplex);
    }
    let e = Entry {
        kind: sums::tree::DIV,
        inside: m as u8,
        num: 0.0,
        coef: Complex::ONE,
    };
    arithmetic::add::alone(book, e, j, w)
}

// By a sum of several terms, the m cells from j on: only the constants 0 and 1 have a quotient.
fn by_several(
    book: &mut Book,
    i: usize,
    n: usize,
    j: usize,
    m: usize,
    w: usize,
) -> Result<usize, Refusal>
    requires { Operands (seen book.old) i n j m w }
    ensures kept { Kept (seen book.old) (seen book.new) w (w + (sum_entries + sum_entries)) }
    ensures of_two { OfTwo (seen book.old) i (i + n) j (j + m) sum_levels (λ s t. Agrees result (seen book.new) w (div_by_several s t (as_constant s))) }
    ensures same_slices { slices book.new ≡ slices book.old }
{
    match arithmetic::add::as_constant(&book.cells(), i, n) {
        Some(c) => constant_by(book, c, i, n, j, m, w),
        None => Err(Refusal::TooComplex),
    }
}

// The quotient of the sum of n cells from i on by that of m cells from j on.
pub fn div(
    book: &mut Book,
    i: usize,
    n: usize,
    j: usize,
    m: usize,
    w: usize,
) -> Result<usize, Refusal>
    requires { Operands (seen book.old) i n j m w }
    ensures kept { Kept (seen book.old) (seen book.new) w (w + (sum_entries + sum_entries)) }
    ensures of_two { OfTwo (seen book.old) i (i + n) j (j + m) sum_levels (λ s t. Agrees result (seen book.new) w (quotient s t)) }
    ensures same_slices { slices book.new ≡ slices book.old }
{
    let y = book.load(j);
    if 1 + y.inside as usize != m {
        return by_several(book, i, n, j, m, w);
    }
    if !can_div(&book.cells(), i, n, y, j + 1) {
        return Err(Refusal::TooComplex);
    }
    div_each(book, i, n, y, j + 1, w)
}

// 1 by the sum of n cells from i on: by several terms it is Div of the sum, and by one term there is always a quotient.
pub fn recip(book: &mut Book, i: usize, n: usize, w: usize) -> Result<usize, Refusal>
    requires { (1 ≤ n) × Source (seen book.old) i n w × Room (seen book.old) (w + (sum_entries + sum_entries)) }
    ensures kept { Kept (seen book.old) (seen book.new) w (w + (sum_entries + sum_entries)) }
    ensures of_one { OfOne (seen book.old) i (i + n) sum_levels (λ s. Agrees result (seen book.new) w (reciprocal s)) }
    ensures same_slices { slices book.new ≡ slices book.old }
{
    let y = book.load(i);
    if 1 + y.inside as usize != n {
        let e = Entry {
            kind: sums::tree::DIV,
            inside: n as u8,
            num: 0.0,
            coef: Complex::ONE,
        };
        return arithmetic::add::alone(book, e, i, w);
    }
    let x = Entry {
        kind: sums::tree::X,
        inside: 0,
        num: 0.0,
        coef: Complex::ONE,
    };
    div_term(book, x, y, i + 1, w, 0)
}
