// The product of two sums, in a book of three arrays: whether there is one, and the products of their terms. Two operands and a result are three stretches of one
// book, apart from each other.
ghost use Rattle.std.specs.Prelude.{◌≡◌, ◌+◌, ◌-◌, ◌≤◌, ◌<◌};
ghost use Rattle.limits.specs.Limits.{sum_entries, sum_levels};
ghost use Rattle.cells.specs.Contract.Book.{seen, shown, Room, slices};
ghost use Rattle.cells.specs.Contract.Moves.{Kept};
ghost use Rattle.sums.specs.Tree.Sums.{none, size};
ghost use Rattle.sums.specs.Tree.Map.{and_then_sum, each_into};
ghost use Rattle.arithmetic.specs.Product.{pairable, rowable, mulable, mul_term, mul_into, product};
ghost use Rattle.sums.specs.Contract.Lies.{OfTwo, Agrees};
ghost use Rattle.arithmetic.specs.Add.Contract.Operands.{Operand, Growing};
ghost use Rattle.arithmetic.specs.Multiply.Contract.Rows.{PowerOperand, PowersGrow, FormedPowers, power_into};
ghost use Rattle.arithmetic.specs.Multiply.Contract.Shapes.{Shaped, OfShapes};
ghost use Rattle.arithmetic.specs.Multiply.Contract.Factors.{Pair, Row, Sums, Beside, Fits, Inner, OfThree, OfInner, div_into};

use cells::{Book, Cells, Entry};
use limits::{Refusal, SUM_ENTRIES, SUM_LEVELS};
use numbers::complex::Complex;
use sums::tree::Merge;

// Whether two terms of kinds k and l, whose insides lie from i and from j on, have a product.
#[cycle(can_mul_can_pair_can_row)]
fn can_pair(
    k: u8,
    i: usize,
    n: usize,
    l: u8,
    j: usize,
    m: usize,
    kinds: &[u8],
    insides: &[u8],
    left: usize,
) -> bool
    requires le_k { (1 ≤ k) × (k ≤ 8) × (1 ≤ l) × (l ≤ 8) }
    requires shaped { Shaped kinds.now insides.now i (i + n) left × Shaped kinds.now insides.now j (j + m) left }
    ensures { OfShapes kinds.now insides.now i (i + n) left j (j + m) left (λ t v. result ≡ pairable k (mulable t) l v) }
{
    let c = crate::product_code(k, l);
    if c == crate::ADD_POWERS {
        return true;
    }
    if c == crate::MUL_INSIDES {
        return can_mul(i, n, j, m, kinds, insides, left);
    }
    false
}

// Whether a term of kind k has a product with each of the sum of m cells from j on.
#[cycle(can_mul_can_pair_can_row)]
fn can_row(
    k: u8,
    i: usize,
    n: usize,
    j: usize,
    m: usize,
    kinds: &[u8],
    insides: &[u8],
    left: usize,
) -> bool
    requires le_k { (1 ≤ k) × (k ≤ 8) }
    requires shaped { Shaped kinds.now insides.now i (i + n) (left - 1) × Shaped kinds.now insides.now j (j + m) left }
    ensures { OfShapes kinds.now insides.now i (i + n) (left - 1) j (j + m) left (λ t v. result ≡ rowable k (mulable t) v) }
{
    let end = j + m;
    let mut q = j;
    while q < end {
        let d = insides[q] as usize;
        if !can_pair(k, i, n, kinds[q], q + 1, d, kinds, insides, left - 1) {
            return false;
        }
        q = q + 1 + d;
    }
    true
}

// Whether the sums of n cells from i on and of m from j on have a product.
#[cycle(can_mul_can_pair_can_row)]
pub fn can_mul(
    i: usize,
    n: usize,
    j: usize,
    m: usize,
    kinds: &[u8],
    insides: &[u8],
    left: usize,
) -> bool
    requires { Shaped kinds.now insides.now i (i + n) left × Shaped kinds.now insides.now j (j + m) left }
    ensures { OfShapes kinds.now insides.now i (i + n) left j (j + m) left (λ s t. result ≡ mulable s t) }
{
    let end = i + n;
    let mut q = i;
    while q < end {
        let d = insides[q] as usize;
        if !can_row(kinds[q], q + 1, d, j, m, kinds, insides, left) {
            return false;
        }
        q = q + 1 + d;
    }
    true
}

// A book for the product of two insides: the operands at 0 and at SUM_ENTRIES, their product behind both, and last the sum into which it goes.
const BEHIND_BOTH: usize = 2 * SUM_ENTRIES;

const BEHIND_ALL: usize = 3 * SUM_ENTRIES;

const FOUR_SUMS: usize = 4 * SUM_ENTRIES;

// Copies the a cells from i on to 0 of another book, and the b from j on to SUM_ENTRIES.
fn side_by_side(from: &Cells, i: usize, a: usize, j: usize, b: usize, book: &mut Book)
    requires { Fits (shown from.now) (seen book.old) i a j b }
    ensures beside { Beside (shown from.now) (seen book.new) i a j b }
    ensures same_slices { slices book.new ≡ slices book.old }
{
    book.copy_in(from, i, a, 0);
    book.copy_in(from, j, b, SUM_ENTRIES);
}

// A Div whose inside lies behind both in the other book, k cells of it, goes with its coefficient into the sum of n cells from p on: by way of the other
// book, where both then lie.
fn put_div(
    other: &mut Book,
    k: usize,
    coef: Complex,
    book: &mut Book,
    p: usize,
    n: usize,
) -> Result<usize, Refusal>
    requires inner { Inner (seen other.old) k }
    requires growing { Growing (seen book.old) p n }
    ensures kept { Kept (seen book.old) (seen book.new) p (p + sum_entries) }
    ensures of_inner { OfInner (seen other.old) k (seen book.old) p n
        (λ w s. Agrees result (seen book.new) p (div_into k coef w s)) }
    ensures same_slices_of_other { slices other.new ≡ slices other.old }
    ensures same_slices { slices book.new ≡ slices book.old }
{
    let head = Entry {
        kind: sums::tree::DIV,
        inside: k as u8,
        num: 0.0,
        coef: coef,
    };
    other.copy_in(&book.cells(), p, n, BEHIND_ALL);
    let m = sums::map::put_block(other, Merge::Add, head, BEHIND_BOTH, BEHIND_ALL, n)?;
    book.copy_in(&other.cells(), BEHIND_ALL, m, p);
    Ok(m)
}

// Two Div terms, whose insides are the a cells from i on and the b from j on: the product of the insides is formed in a book of this call's own, and goes in
// with the coefficient.
#[cycle(div_mul_expr_mul_mul_row_term_mul)]
fn div_mul(
    book: &mut Book,
    coef: Complex,
    i: usize,
    a: usize,
    j: usize,
    b: usize,
    p: usize,
    n: usize,
    left: usize,
) -> Result<usize, Refusal>
    requires { (0 < a) × (0 < b) × Sums (seen book.old) i a j b p left × Growing (seen book.old) p n }
    ensures kept { Kept (seen book.old) (seen book.new) p (p + sum_entries) }
    ensures of_three { OfThree (seen book.old) i a left j b left p n (λ t v s. Agrees result (seen book.new) p
        (and_then_sum (mul_into t v none) (λ w. div_into (size w) coef w s))) }
    ensures same_slices { slices book.new ≡ slices book.old }
{
    let mut other_kinds = [0u8; FOUR_SUMS];
    let mut other_insides = [0u8; FOUR_SUMS];
    let mut other_numbers = [[0u64; 3]; FOUR_SUMS];
    let mut other = Book {
        kinds: &mut other_kinds,
        insides: &mut other_insides,
        numbers: &mut other_numbers,
    };
    side_by_side(&book.cells(), i, a, j, b, &mut other);
    let k = expr_mul(&mut other, 0, a, SUM_ENTRIES, b, BEHIND_BOTH, left)?;
    put_div(&mut other, k, coef, book, p, n)
}

// The product of the terms x and y, whose insides lie from i and from j on, goes into the sum of n cells from p on.
#[cycle(div_mul_expr_mul_mul_row_term_mul)]
fn term_mul(
    book: &mut Book,
    x: Entry,
    i: usize,
    y: Entry,
    j: usize,
    p: usize,
    n: usize,
    left: usize,
) -> Result<usize, Refusal>
    requires { Pair (seen book.old) x i y j p left × Growing (seen book.old) p n }
    ensures kept { Kept (seen book.old) (seen book.new) p (p + sum_entries) }
    ensures of_three { OfThree (seen book.old) i x.inside left j y.inside left p n
        (λ t v s. Agrees result (seen book.new) p (mul_term x (λ u. mul_into t u none) y v s)) }
    ensures same_slices { slices book.new ≡ slices book.old }
{
    let code = crate::product_code(x.kind, y.kind);
    let c = x.coef.mul(y.coef);
    if code == crate::ADD_POWERS {
        return sums::map::put_power(book, Merge::Add, x.num + y.num, c, p, n);
    }
    div_mul(
        book,
        c,
        i,
        x.inside as usize,
        j,
        y.inside as usize,
        p,
        n,
        left,
    )
}

// The products of the term x with each of the sum of m cells from j on go into the sum of n cells from p on.
#[cycle(div_mul_expr_mul_mul_row_term_mul)]
fn mul_row(
    book: &mut Book,
    x: Entry,
    i: usize,
    j: usize,
    m: usize,
    p: usize,
    n: usize,
    left: usize,
) -> Result<usize, Refusal>
    requires { Row (seen book.old) x i j m p left × Growing (seen book.old) p n }
    ensures kept { Kept (seen book.old) (seen book.new) p (p + sum_entries) }
    ensures of_three { OfThree (seen book.old) i x.inside (left - 1) j m left p n
        (λ t v s. Agrees result (seen book.new) p (each_into (mul_term x (λ u. mul_into t u none)) s v)) }
    ensures same_slices { slices book.new ≡ slices book.old }
{
    let end = j + m;
    let mut q = j;
    let mut len = n;
    while q < end {
        let y = book.load(q);
        len = term_mul(book, x, i, y, q + 1, p, len, left - 1)?;
        q = q + 1 + y.inside as usize;
    }
    Ok(len)
}

// The products of the terms of the sum of n cells from i on with those of the m from j on, formed from p on, where there is room for SUM_ENTRIES.
#[cycle(div_mul_expr_mul_mul_row_term_mul)]
fn expr_mul(
    book: &mut Book,
    i: usize,
    n: usize,
    j: usize,
    m: usize,
    p: usize,
    left: usize,
) -> Result<usize, Refusal>
    requires { Sums (seen book.old) i n j m p left × Room (seen book.old) (p + sum_entries) }
    ensures kept { Kept (seen book.old) (seen book.new) p (p + sum_entries) }
    ensures of_two { OfTwo (seen book.old) i (i + n) j (j + m) left (λ s t. Agrees result (seen book.new) p (mul_into s t none)) }
    ensures same_slices { slices book.new ≡ slices book.old }
{
    let end = i + n;
    let mut q = i;
    let mut len = 0usize;
    while q < end {
        let x = book.load(q);
        len = mul_row(book, x, q + 1, j, m, p, len, left)?;
        q = q + 1 + x.inside as usize;
    }
    Ok(len)
}

// The products of the power x with each of the m powers from j on go into the sum of the n powers from p on: each is looked for from its last power down.
fn power_row(
    book: &mut Book,
    x: Entry,
    j: usize,
    m: usize,
    p: usize,
    n: usize,
) -> Result<usize, Refusal>
    requires { PowerOperand (seen book.old) j m p × PowersGrow (seen book.old) p n }
    ensures kept { Kept (seen book.old) (seen book.new) p (p + sum_entries) × FormedPowers result (seen book.new) p }
    ensures of_two { OfTwo (seen book.old) p (p + n) j (j + m) sum_levels
        (λ s v. Agrees result (seen book.new) p (each_into (power_into x) s v)) }
    ensures same_slices { slices book.new ≡ slices book.old }
{
    let mut len = n;
    for q in j..j + m {
        let y = book.load(q);
        let a = x.num + y.num;
        let v = x.coef.mul(y.coef);
        len = sums::map::put_below(book, Merge::Add, a, v, p, len, p + len)?;
    }
    Ok(len)
}

// The product of two sums of powers, which always is one: row by row, and only powers come of it.
fn mul_powers(
    book: &mut Book,
    i: usize,
    n: usize,
    j: usize,
    m: usize,
    p: usize,
) -> Result<usize, Refusal>
    requires { PowerOperand (seen book.old) i n p × PowerOperand (seen book.old) j m p × Room (seen book.old) (p + sum_entries) }
    ensures kept { Kept (seen book.old) (seen book.new) p (p + sum_entries) }
    ensures of_two { OfTwo (seen book.old) i (i + n) j (j + m) sum_levels (λ s t. Agrees result (seen book.new) p (product s t)) }
    ensures same_slices { slices book.new ≡ slices book.old }
{
    let mut len = 0usize;
    for q in i..i + n {
        let x = book.load(q);
        len = power_row(book, x, j, m, p, len)?;
    }
    Ok(len)
}

// The product of two sums: of nothing but powers it is formed row by row, and of any others whether there is one is asked first.
fn mul_some(
    book: &mut Book,
    i: usize,
    n: usize,
    j: usize,
    m: usize,
    p: usize,
) -> Result<usize, Refusal>
    requires { Operand (seen book.old) i n p × Operand (seen book.old) j m p × Room (seen book.old) (p + sum_entries) }
    ensures kept { Kept (seen book.old) (seen book.new) p (p + sum_entries) }
    ensures of_two { OfTwo (seen book.old) i (i + n) j (j + m) sum_levels (λ s t. Agrees result (seen book.new) p (product s t)) }
    ensures same_slices { slices book.new ≡ slices book.old }
{
    let cells = book.cells();
    if sums::order::all_powers(cells.kinds, i, n) & sums::order::all_powers(cells.kinds, j, m) {
        return mul_powers(book, i, n, j, m, p);
    }
    if !can_mul(i, n, j, m, cells.kinds, cells.insides, SUM_LEVELS) {
        return Err(Refusal::TooComplex);
    }
    expr_mul(book, i, n, j, m, p, SUM_LEVELS)
}

// The product of two sums of one cell. Of two powers of x it is one power, and no table is asked.
fn mul_one(book: &mut Book, i: usize, j: usize, p: usize) -> Result<usize, Refusal>
    requires { Operand (seen book.old) i 1 p × Operand (seen book.old) j 1 p × Room (seen book.old) (p + sum_entries) }
    ensures kept { Kept (seen book.old) (seen book.new) p (p + sum_entries) }
    ensures of_two { OfTwo (seen book.old) i (i + 1) j (j + 1) sum_levels (λ s t. Agrees result (seen book.new) p (product s t)) }
    ensures same_slices { slices book.new ≡ slices book.old }
{
    let x = book.load(i);
    let y = book.load(j);
    if (x.kind == sums::tree::X) & (y.kind == sums::tree::X) {
        let num = x.num + y.num;
        let coef = x.coef.mul(y.coef);
        return sums::map::put_power(book, Merge::Add, num, coef, p, 0);
    }
    mul_some(book, i, 1, j, 1, p)
}

// The product of the sums of n cells from i on and of m from j on, formed from p on, where there is room for SUM_ENTRIES: TooComplex where two of their terms
// have none.
pub fn mul(
    book: &mut Book,
    i: usize,
    n: usize,
    j: usize,
    m: usize,
    p: usize,
) -> Result<usize, Refusal>
    requires { Operand (seen book.old) i n p × Operand (seen book.old) j m p × Room (seen book.old) (p + sum_entries) }
    ensures kept { Kept (seen book.old) (seen book.new) p (p + sum_entries) }
    ensures of_two { OfTwo (seen book.old) i (i + n) j (j + m) sum_levels (λ s t. Agrees result (seen book.new) p (product s t)) }
    ensures same_slices { slices book.new ≡ slices book.old }
{
    if (n == 1) & (m == 1) {
        return mul_one(book, i, j, p);
    }
    mul_some(book, i, n, j, m, p)
}
