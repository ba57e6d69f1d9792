// Roots, powers and logarithms of sums in a book of three arrays. What has a root, or any power that isn't whole, is one term whose coefficients are 1, down
// through Div.
ghost use Rattle.std.specs.Prelude.{◌≡◌, true, ℕ, ◌+◌, ◌≤◌, ◌<◌, ◌^◌, length, get_or};
ghost use Rattle.std.specs.Float.Ieee.Scale.{finite};
ghost use Rattle.limits.specs.Limits.{sum_entries, sum_levels, highest_power};
ghost use Rattle.numbers.specs.Numbers.{small_whole};
ghost use Rattle.numbers.specs.Complex.Arith.{real, one};
ghost use Rattle.cells.specs.declared.Entry.{Entry};
ghost use Rattle.cells.specs.Contract.Book.{seen, shown, Room, slices};
ghost use Rattle.cells.specs.Contract.Moves.{Apart, Kept};
ghost use Rattle.sums.specs.Tree.Sums.{Sum, entry, size, len};
ghost use Rattle.sums.specs.Tree.Kinds.{X};
ghost use Rattle.arithmetic.specs.Singles.{single, constant, alone};
ghost use Rattle.arithmetic.specs.Power.{rootable, unit_coefs, root_of_one, rooted, raised, whole_power, power, pow, log};
ghost use Rattle.arithmetic.specs.Pairs.{raised_pairs, whole_pairs, power_pairs, pow_pairs};
ghost use Rattle.sums.specs.Contract.Heads.{GoodHead};
ghost use Rattle.sums.specs.Contract.Lies.{At, Held, OfOne, OfTwo, Agrees};
ghost use Rattle.arithmetic.specs.Add.Contract.Operands.{Operand, Source};
ghost use Rattle.powers.specs.Raise.Contract.Pairs.{Counted, counted_as};
ghost use Rattle.powers.specs.Raise.Contract.Reals.{real_of, euler_is};
ghost use Rattle.powers.specs.Raise.Contract.Roots.{Rooting, root_entry};
ghost use Rattle.powers.specs.Raise.Contract.Turns.{turn_place};

use cells::{Book, Cells, Entry};
use limits::{Refusal, SUM_ENTRIES, SUM_LEVELS};
use numbers::complex::Complex;
use sums::tree::Merge;

// What was formed, and how many pairs of outermost terms were multiplied for it. Where it is refused the number says nothing.
#[derive(Clone, Copy)]
pub struct Raised {
    pub formed: Result<usize, Refusal>,
    pub pairs: u64,
}

fn counted(formed: Result<usize, Refusal>, pairs: u64) -> Raised
    ensures { result ≡ counted_as formed pairs }
{
    Raised { formed, pairs }
}

// Whether the sum of n cells from i on is one term, an X or a Div of such a sum: then each cell's inside is all that follows.
pub fn can_root(book: &Cells, i: usize, n: usize) -> bool
    requires { Held (shown book.now) i (i + n) sum_levels }
    ensures { OfOne (shown book.now) i (i + n) sum_levels (λ s. result ≡ rootable s) }
{
    let end = i + n;
    for k in i..end {
        let x = book.load(k);
        if k + 1 + x.inside as usize != end {
            return false;
        }
        if x.kind == sums::tree::X {
            return true;
        }
        if x.kind != sums::tree::DIV {
            return false;
        }
    }
    false
}

// Whether the first coefficient of the sum of n cells from i on is 1, and that of its inside, all the way down.
pub fn unit_coefs(book: &Cells, i: usize, n: usize) -> bool
    requires { Held (shown book.now) i (i + n) sum_levels }
    ensures { OfOne (shown book.now) i (i + n) sum_levels (λ s. result ≡ unit_coefs s) }
{
    for k in i..i + n {
        let x = book.load(k);
        if !x.coef.is_one() {
            return false;
        }
        if x.inside == 0 {
            return true;
        }
    }
    true
}

// 1 to the power e; im keeps a sign where e isn't whole.
fn root_of_one(c: Complex, e: f64) -> Complex
    ensures { result ≡ root_of_one c e }
{
    if numbers::is_whole(e) {
        return Complex::ONE;
    }
    Complex {
        re: 1.0,
        im: c.im * e,
    }
}

// An X's power times e, and the coefficient's root.
fn root_entry(x: Entry, e: f64) -> Entry
    ensures { result ≡ root_entry e x }
{
    let c = root_of_one(x.coef, e);
    if x.kind == sums::tree::X {
        return Entry {
            kind: x.kind,
            inside: x.inside,
            num: x.num * e,
            coef: c,
        };
    }
    Entry {
        kind: x.kind,
        inside: x.inside,
        num: 0.0,
        coef: c,
    }
}

// Each cell of the sum of n cells from p on becomes its root. Only the X's power can be refused.
fn root_each(book: &mut Book, e: f64, p: usize, n: usize) -> Result<usize, Refusal>
    requires { (finite e ≡ true) × ((s : Sum) × Rooting (seen book.old) p n s) }
    ensures kept { Kept (seen book.old) (seen book.new) p (p + n) }
    ensures agrees { (s : Sum) → Rooting (seen book.old) p n s → Agrees result (seen book.new) p (rooted e s) }
    ensures same_slices { slices book.new ≡ slices book.old }
{
    for k in p..p + n {
        let x = root_entry(book.load(k), e);
        if !numbers::is_finite(x.num) {
            return Err(Refusal::PowerNotFinite);
        }
        book.store(k, x);
    }
    Ok(n)
}

// The sum of n cells from i on to the power e, where it is such a term and its coefficients are 1.
pub fn root(book: &mut Book, e: f64, i: usize, n: usize, p: usize) -> Result<usize, Refusal>
    requires { (finite e ≡ true) × ((s : Sum) × Rooting (seen book.old) i n s) × Apart i n p (p + sum_entries) × Room (seen book.old) (p + sum_entries) }
    ensures kept { Kept (seen book.old) (seen book.new) p (p + sum_entries) }
    ensures agrees { (s : Sum) → Rooting (seen book.old) i n s → Agrees result (seen book.new) p (rooted e s) }
    ensures same_slices { slices book.new ≡ slices book.old }
{
    book.copy_within(i, n, p);
    root_each(book, e, p, n)
}

// Where a product goes when so many are left, itself among them: the two places of a sum from w on by turns, and the last at w.
fn turn_place(w: usize, left: u64) -> usize
    requires { w + sum_entries < 2 ^ 64 }
    ensures { result ≡ turn_place w left }
{
    if left % 2 == 1 {
        return w;
    }
    w + SUM_ENTRIES
}

// How many outermost terms the sum of n cells from i on has: each cell is one where nothing lies inside any.
fn outermost(insides: &[u8], i: usize, n: usize, flat: bool) -> u64
    requires { i + n ≤ length insides.now }
    ensures { (f : ℕ → Entry) (s : Sum) → ((k : ℕ) → (f k).inside ≡ get_or insides.now k 0) → At f i s → n ≡ size s → (flat ≡ true → len s ≡ size s) → result ≡ len s }
{
    if flat {
        return n as u64;
    }
    sums::order::count(insides, i, n) as u64
}

// So many more products of the sum of n cells from i on with itself, one at least.
fn multiply(book: &mut Book, times: u64, i: usize, n: usize, w: usize) -> Raised
    requires { (0 < times) × (times < highest_power) × Source (seen book.old) i n w × Room (seen book.old) (w + (sum_entries + sum_entries)) }
    ensures kept { Kept (seen book.old) (seen book.new) w (w + (sum_entries + sum_entries)) }
    ensures of_one { OfOne (seen book.old) i (i + n) sum_levels (λ s. Agrees result.formed (seen book.new) w (raised times s s)) }
    ensures of_one_2 { OfOne (seen book.old) i (i + n) sum_levels (λ s. Counted result (raised_pairs times s s)) }
    ensures same_slices { slices book.new ≡ slices book.old }
{
    let terms = sums::order::count(book.cells().insides, i, n);
    let flat = terms == n;
    let base = terms as u64;
    let mut from = i;
    let mut len = n;
    let mut pairs = 0u64;
    for turn in 0..times {
        let p = turn_place(w, times - turn);
        let more = base * outermost(book.cells().insides, from, len, flat);
        match arithmetic::multiply::mul(book, from, len, i, n, p) {
            Ok(m) => len = m,
            Err(r) => return counted(Err(r), 0),
        }
        pairs = pairs + more;
        from = p;
    }
    counted(Ok(len), pairs)
}

// So many products of one power of x by itself. Its number and its coefficient are reckoned, and only the last product is written.
fn raise_power(book: &mut Book, times: u64, x: Entry, w: usize) -> Result<usize, Refusal>
    requires { (0 < times) × Room (seen book.old) (w + (sum_entries + sum_entries)) }
    ensures kept { Kept (seen book.old) (seen book.new) w (w + (sum_entries + sum_entries)) }
    ensures agrees { (j : Sum) → Agrees result (seen book.new) w (raised times (single X x.num j x.coef) (single X x.num j x.coef)) }
    ensures same_slices { slices book.new ≡ slices book.old }
{
    let mut num = x.num;
    let mut c = x.coef;
    for _turn in 1..times {
        num = num + x.num;
        c = Complex::ZERO.add(c.mul(x.coef));
        if !numbers::is_finite(num) {
            let why = Refusal::PowerNotFinite;
            return Err(why);
        }
        if !c.is_finite() {
            return Err(Refusal::NotFinite);
        }
    }
    let last = c.mul(x.coef);
    sums::map::put_power(book, Merge::Add, num + x.num, last, w, 0)
}

// So many products of a sum of one cell by itself.
fn raise_one(book: &mut Book, times: u64, i: usize, w: usize) -> Raised
    requires { (0 < times) × (times < highest_power) × Source (seen book.old) i 1 w × Room (seen book.old) (w + (sum_entries + sum_entries)) }
    ensures kept { Kept (seen book.old) (seen book.new) w (w + (sum_entries + sum_entries)) }
    ensures of_one { OfOne (seen book.old) i (i + 1) sum_levels (λ s. Agrees result.formed (seen book.new) w (raised times s s)) }
    ensures of_one_2 { OfOne (seen book.old) i (i + 1) sum_levels (λ s. Counted result (raised_pairs times s s)) }
    ensures same_slices { slices book.new ≡ slices book.old }
{
    let x = book.load(i);
    if x.kind == sums::tree::X {
        return counted(raise_power(book, times, x, w), times);
    }
    multiply(book, times, i, 1, w)
}

// So many more products of the sum of n cells from i on with itself.
fn raise(book: &mut Book, times: u64, i: usize, n: usize, w: usize) -> Raised
    requires { (times < highest_power) × Source (seen book.old) i n w × Room (seen book.old) (w + (sum_entries + sum_entries)) }
    ensures kept { Kept (seen book.old) (seen book.new) w (w + (sum_entries + sum_entries)) }
    ensures of_one { OfOne (seen book.old) i (i + n) sum_levels (λ s. Agrees result.formed (seen book.new) w (raised times s s)) }
    ensures of_one_2 { OfOne (seen book.old) i (i + n) sum_levels (λ s. Counted result (raised_pairs times s s)) }
    ensures same_slices { slices book.new ≡ slices book.old }
{
    if times == 0 {
        book.copy_within(i, n, w);
        return counted(Ok(n), 0);
    }
    if n == 1 {
        return raise_one(book, times, i, w);
    }
    multiply(book, times, i, n, w)
}

// The sum of n cells from i on to the power e, which is whole and not negative: 0 gives the constant 0, and above HIGHEST_POWER none is formed.
pub fn whole_power(book: &mut Book, e: f64, i: usize, n: usize, w: usize) -> Raised
    requires { Source (seen book.old) i n w × Room (seen book.old) (w + (sum_entries + sum_entries)) }
    ensures kept { Kept (seen book.old) (seen book.new) w (w + (sum_entries + sum_entries)) }
    ensures of_one { OfOne (seen book.old) i (i + n) sum_levels (λ s. Agrees result.formed (seen book.new) w (whole_power s (small_whole e))) }
    ensures of_one_2 { OfOne (seen book.old) i (i + n) sum_levels (λ s. Counted result (whole_pairs s (small_whole e))) }
    ensures same_slices { slices book.new ≡ slices book.old }
{
    match numbers::small_whole(e) {
        Some(k) => {
            if k == 0 {
                let zero = Complex::ZERO;
                return counted(arithmetic::add::constant_sum(book, zero, w), 0);
            }
            raise(book, k - 1, i, n, w)
        }
        None => {
            let cells = book.cells();
            if !arithmetic::multiply::can_mul(i, n, i, n, cells.kinds, cells.insides, SUM_LEVELS) {
                return counted(Err(Refusal::TooComplex), 0);
            }
            counted(Err(Refusal::BigPower), 0)
        }
    }
}

// The sum of n cells from i on to the power e.
pub fn power_by(book: &mut Book, e: f64, i: usize, n: usize, w: usize) -> Raised
    requires { (finite e ≡ true) × Source (seen book.old) i n w × Room (seen book.old) (w + (sum_entries + sum_entries)) }
    ensures kept { Kept (seen book.old) (seen book.new) w (w + (sum_entries + sum_entries)) }
    ensures of_one { OfOne (seen book.old) i (i + n) sum_levels (λ s. Agrees result.formed (seen book.new) w (power s e)) }
    ensures of_one_2 { OfOne (seen book.old) i (i + n) sum_levels (λ s. Counted result (power_pairs s e)) }
    ensures same_slices { slices book.new ≡ slices book.old }
{
    if numbers::is_whole(e) & (0.0 <= e) {
        return whole_power(book, e, i, n, w);
    }
    if !can_root(&book.cells(), i, n) {
        return counted(Err(Refusal::TooComplex), 0);
    }
    if !unit_coefs(&book.cells(), i, n) {
        return counted(Err(Refusal::NeedsMath), 0);
    }
    counted(root(book, e, i, n, w), 0)
}

// A constant's real number, where |im| < 2^-52.
fn real_of(c: Option<Complex>) -> Option<f64>
    ensures { result ≡ real_of c }
{
    match c {
        Some(z) => {
            if !z.is_real() {
                return None;
            }
            Some(z.re)
        }
        None => None,
    }
}

// Whether it is the constant E.
fn is_euler(c: Option<Complex>) -> bool
    ensures { result ≡ euler_is c }
{
    match c {
        Some(z) => z
            == Complex {
                re: numbers::e(),
                im: 0.0,
            },
        None => false,
    }
}

// One term, of this kind and number, whose inside is the sum of n cells from i on, with the coefficient 1.
pub fn over(
    book: &mut Book,
    kind: u8,
    num: f64,
    i: usize,
    n: usize,
    p: usize,
) -> Result<usize, Refusal>
    requires { GoodHead (entry kind n num one) × Operand (seen book.old) i n p × Room (seen book.old) (p + sum_entries) }
    ensures kept { Kept (seen book.old) (seen book.new) p (p + sum_entries) }
    ensures of_one { OfOne (seen book.old) i (i + n) sum_levels (λ s. Agrees result (seen book.new) p (alone kind num s one)) }
    ensures same_slices { slices book.new ≡ slices book.old }
{
    let x = Entry {
        kind: kind,
        inside: n as u8,
        num: num,
        coef: Complex::ONE,
    };
    arithmetic::add::alone(book, x, i, p)
}

// The sum of n cells from i on to the power of that of m cells from j on.
pub fn pow(book: &mut Book, i: usize, n: usize, j: usize, m: usize, w: usize) -> Raised
    requires { Source (seen book.old) i n w × Source (seen book.old) j m w × Room (seen book.old) (w + (sum_entries + sum_entries)) }
    ensures kept { Kept (seen book.old) (seen book.new) w (w + (sum_entries + sum_entries)) }
    ensures of_two { OfTwo (seen book.old) i (i + n) j (j + m) sum_levels (λ s t. Agrees result.formed (seen book.new) w (pow s t)) }
    ensures of_two_2 { OfTwo (seen book.old) i (i + n) j (j + m) sum_levels (λ s t. Counted result (pow_pairs s t)) }
    ensures same_slices { slices book.new ≡ slices book.old }
{
    if is_euler(arithmetic::add::as_constant(&book.cells(), i, n))
        & arithmetic::add::is_x(&book.cells(), j, m)
    {
        let exp = sums::tree::EXP;
        return counted(over(book, exp, 0.0, j, m, w), 0);
    }
    match real_of(arithmetic::add::as_constant(&book.cells(), j, m)) {
        Some(e) => power_by(book, e, i, n, w),
        None => counted(Err(Refusal::TooComplex), 0),
    }
}

// A book for the power of a number: the number at 0, its power behind it with working places.
const THREE_SUMS: usize = 3 * SUM_ENTRIES;

// The constant `base` to the power e, formed in a book of this call's own and copied out.
fn number_power(book: &mut Book, base: f64, e: f64, p: usize) -> Result<usize, Refusal>
    requires { (finite base ≡ true) × (finite e ≡ true) × Room (seen book.old) (p + sum_entries) }
    ensures kept { Kept (seen book.old) (seen book.new) p (p + sum_entries) }
    ensures agrees { Agrees result (seen book.new) p (power (constant (real base)) e) }
    ensures same_slices { slices book.new ≡ slices book.old }
{
    let mut other_kinds = [0u8; THREE_SUMS];
    let mut other_insides = [0u8; THREE_SUMS];
    let mut other_numbers = [[0u64; 3]; THREE_SUMS];
    let mut other = Book {
        kinds: &mut other_kinds,
        insides: &mut other_insides,
        numbers: &mut other_numbers,
    };
    let x = Entry {
        kind: sums::tree::X,
        inside: 0,
        num: 0.0,
        coef: Complex { re: base, im: 0.0 },
    };
    other.store(0, x);
    let raised = power_by(&mut other, e, 0, 1, SUM_ENTRIES);
    let formed = raised.formed;
    let m = formed?;
    book.copy_in(&other.cells(), SUM_ENTRIES, m, p);
    Ok(m)
}

// The constant `base` to the power of the sum of n cells from i on.
pub fn pow_of(book: &mut Book, base: f64, i: usize, n: usize, p: usize) -> Result<usize, Refusal>
    requires { (finite base ≡ true) × Operand (seen book.old) i n p × Room (seen book.old) (p + sum_entries) }
    ensures kept { Kept (seen book.old) (seen book.new) p (p + sum_entries) }
    ensures of_one { OfOne (seen book.old) i (i + n) sum_levels (λ s. Agrees result (seen book.new) p (pow (constant (real base)) s)) }
    ensures same_slices { slices book.new ≡ slices book.old }
{
    let c = Complex { re: base, im: 0.0 };
    if is_euler(Some(c)) & arithmetic::add::is_x(&book.cells(), i, n) {
        return over(book, sums::tree::EXP, 0.0, i, n, p);
    }
    match real_of(arithmetic::add::as_constant(&book.cells(), i, n)) {
        Some(e) => number_power(book, base, e, p),
        None => Err(Refusal::TooComplex),
    }
}

// The logarithm of the sum of n cells from i on to the base that the sum of m cells from j on is.
pub fn log(
    book: &mut Book,
    i: usize,
    n: usize,
    j: usize,
    m: usize,
    p: usize,
) -> Result<usize, Refusal>
    requires { (0 < n) × Operand (seen book.old) i n p × Held (seen book.old) j (j + m) sum_levels × Room (seen book.old) (p + sum_entries) }
    ensures kept { Kept (seen book.old) (seen book.new) p (p + sum_entries) }
    ensures of_two { OfTwo (seen book.old) i (i + n) j (j + m) sum_levels (λ s t. Agrees result (seen book.new) p (log s t)) }
    ensures same_slices { slices book.new ≡ slices book.old }
{
    match real_of(arithmetic::add::as_constant(&book.cells(), j, m)) {
        Some(base) => over(book, sums::tree::LOG, base, i, n, p),
        None => Err(Refusal::TooComplex),
    }
}

// The logarithm of the sum of n cells from i on to the base `base`.
pub fn log_of(book: &mut Book, base: f64, i: usize, n: usize, p: usize) -> Result<usize, Refusal>
    requires { (0 < n) × Operand (seen book.old) i n p × Room (seen book.old) (p + sum_entries) }
    ensures kept { Kept (seen book.old) (seen book.new) p (p + sum_entries) }
    ensures of_one { OfOne (seen book.old) i (i + n) sum_levels (λ s. Agrees result (seen book.new) p (log s (constant (real base)))) }
    ensures same_slices { slices book.new ≡ slices book.old }
{
    over(book, sums::tree::LOG, base, i, n, p)
}
