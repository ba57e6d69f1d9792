// What each primitive forms of the one or two sums that it takes, as defined and in code. The sums lie in a book of three arrays; the result is formed in the
// SUM_ENTRIES places from w on, the SUM_ENTRIES behind them are working places, and no other place is written.
#![tactic(auto)]

ghost use Rattle.std.specs.Prelude.{◌≡◌, ◌+◌, ◌≤◌};
ghost use Rattle.arithmetic.specs.Add.Contract.Operands.{Operand, Source};
ghost use Rattle.arithmetic.specs.Adding.{neg_sum, add_sums};
ghost use Rattle.arithmetic.specs.Pairs.{pairs};
ghost use Rattle.arithmetic.specs.Power.{not_sum, complex_sum};
ghost use Rattle.arithmetic.specs.Product.{product};
ghost use Rattle.arithmetic.specs.Singles.{constant};
ghost use Rattle.cells.specs.Contract.Book.{seen, Room, slices};
ghost use Rattle.cells.specs.Contract.Moves.{Kept};
ghost use Rattle.limits.specs.Limits.{sum_entries, sum_levels};
ghost use Rattle.numbers.specs.Complex.Arith.{imaginary};
ghost use Rattle.powers.specs.Raise.Contract.Pairs.{Counted};
ghost use Rattle.primitives.specs.Contract.Counting.{Uncounted};
ghost use Rattle.primitives.specs.Forms.{of_one, of_two, pairs_of};
ghost use Rattle.sums.specs.Contract.Lies.{OfOne, OfTwo, Agrees};
ghost use Rattle.sums.specs.Tree.Map.{sum, and_then_sum};

use arithmetic::Change;
use cells::{Book, Entry};
use formats::record::Primitive;
use limits::{Refusal, SUM_ENTRIES};
use numbers::complex::Complex;
use powers::raise::Raised;

// The sum as it is.
fn copied(book: &mut Book, i: usize, n: usize, p: usize) -> Result<usize, Refusal>
    requires { Operand (seen book.old) i n p × Room (seen book.old) (p + sum_entries) }
    ensures kept { Kept (seen book.old) (seen book.new) p (p + sum_entries) }
    ensures of_one { OfOne (seen book.old) i (i + n) sum_levels (λ s. Agrees result (seen book.new) p (sum s)) }
    ensures same_slices { slices book.new ≡ slices book.old }
{
    book.copy_within(i, n, p);
    Ok(n)
}

// The sum negated.
fn negated(book: &mut Book, i: usize, n: usize, p: usize) -> Result<usize, Refusal>
    requires { Operand (seen book.old) i n p × Room (seen book.old) (p + sum_entries) }
    ensures kept { Kept (seen book.old) (seen book.new) p (p + sum_entries) }
    ensures of_one { OfOne (seen book.old) i (i + n) sum_levels (λ s. Agrees result (seen book.new) p (sum (neg_sum s))) }
    ensures same_slices { slices book.new ≡ slices book.old }
{
    arithmetic::add::expr_neg(book, i, n, p);
    Ok(n)
}

// 1 less the sum: it is taken from a 1 that lies where the result is formed.
fn not(book: &mut Book, i: usize, n: usize, p: usize) -> Result<usize, Refusal>
    requires { Operand (seen book.old) i n p × Room (seen book.old) (p + sum_entries) }
    ensures kept { Kept (seen book.old) (seen book.new) p (p + sum_entries) }
    ensures of_one { OfOne (seen book.old) i (i + n) sum_levels (λ s. Agrees result (seen book.new) p (not_sum s)) }
    ensures same_slices { slices book.new ≡ slices book.old }
{
    let x = Entry {
        kind: sums::tree::X,
        inside: 0,
        num: 0.0,
        coef: Complex::ONE,
    };
    book.store(p, x);
    arithmetic::add::add_each(book, Change::Negate, i, n, p, 1)
}

// The sum of n cells from i on, plus that of m cells from j on times i, by a product and a sum: i lies where the result is then formed, and the product behind it.
fn add_times_i(
    book: &mut Book,
    i: usize,
    n: usize,
    j: usize,
    m: usize,
    w: usize,
) -> Result<usize, Refusal>
    requires { Source (seen book.old) i n w × Source (seen book.old) j m w × Room (seen book.old) (w + (sum_entries + sum_entries)) }
    ensures kept { Kept (seen book.old) (seen book.new) w (w + (sum_entries + sum_entries)) }
    ensures of_two { OfTwo (seen book.old) i (i + n) j (j + m) sum_levels (λ b a. Agrees result (seen book.new) w
        (and_then_sum (product a (constant imaginary)) (add_sums b))) }
    ensures same_slices { slices book.new ≡ slices book.old }
{
    let x = Entry {
        kind: sums::tree::X,
        inside: 0,
        num: 0.0,
        coef: Complex::I,
    };
    book.store(w, x);
    let p = w + SUM_ENTRIES;
    let k = arithmetic::multiply::mul(book, j, m, w, 1, p)?;
    arithmetic::add::expr_add(book, Change::Keep, i, n, p, k, w)
}

// The sum of n cells from i on, plus that of m cells from j on times i: of two constants by one operation each.
fn complex(
    book: &mut Book,
    i: usize,
    n: usize,
    j: usize,
    m: usize,
    w: usize,
) -> Result<usize, Refusal>
    requires { Source (seen book.old) i n w × Source (seen book.old) j m w × Room (seen book.old) (w + (sum_entries + sum_entries)) }
    ensures kept { Kept (seen book.old) (seen book.new) w (w + (sum_entries + sum_entries)) }
    ensures of_two { OfTwo (seen book.old) i (i + n) j (j + m) sum_levels (λ b a. Agrees result (seen book.new) w (complex_sum a b)) }
    ensures same_slices { slices book.new ≡ slices book.old }
{
    let first = arithmetic::add::as_constant(&book.cells(), i, n);
    let second = arithmetic::add::as_constant(&book.cells(), j, m);
    let Some(c) = second else {
        return add_times_i(book, i, n, j, m, w);
    };
    let Some(d) = first else {
        return add_times_i(book, i, n, j, m, w);
    };
    arithmetic::add::constant_sum(book, c.mul_i().add(d), w)
}

// What the primitive forms of the sum of n cells from i on.
pub fn form_one(
    book: &mut Book,
    p: Primitive,
    i: usize,
    n: usize,
    w: usize,
) -> Result<usize, Refusal>
    requires { (1 ≤ n) × Source (seen book.old) i n w × Room (seen book.old) (w + (sum_entries + sum_entries)) }
    ensures kept { Kept (seen book.old) (seen book.new) w (w + (sum_entries + sum_entries)) }
    ensures of_one { OfOne (seen book.old) i (i + n) sum_levels (λ s. Agrees result (seen book.new) w (of_one p s)) }
    ensures same_slices { slices book.new ≡ slices book.old }
{
    let e = numbers::e();
    match p {
        Primitive::Neg => negated(book, i, n, w),
        Primitive::Not => not(book, i, n, w),
        Primitive::Reciprocal => powers::divide::recip(book, i, n, w),
        Primitive::Sqrt => powers::raise::power_by(book, 0.5, i, n, w).formed,
        Primitive::Sin => powers::raise::over(book, sums::tree::SIN, 0.0, i, n, w),
        Primitive::Cos => powers::raise::over(book, sums::tree::COS, 0.0, i, n, w),
        Primitive::Exp => powers::raise::pow_of(book, e, i, n, w),
        Primitive::Exp2 => powers::raise::pow_of(book, 2.0, i, n, w),
        Primitive::Exp10 => powers::raise::pow_of(book, 10.0, i, n, w),
        Primitive::Ln => powers::raise::log_of(book, e, i, n, w),
        Primitive::Log2 => powers::raise::log_of(book, 2.0, i, n, w),
        Primitive::Log10 => powers::raise::log_of(book, 10.0, i, n, w),
        _ => copied(book, i, n, w),
    }
}

// The product of the sum of n cells from i on with that of m cells from j on, and how many pairs of outermost terms it has.
fn multiplied(book: &mut Book, i: usize, n: usize, j: usize, m: usize, w: usize) -> Raised
    requires { Source (seen book.old) i n w × Source (seen book.old) j m w × Room (seen book.old) (w + (sum_entries + sum_entries)) }
    ensures kept { Kept (seen book.old) (seen book.new) w (w + (sum_entries + sum_entries)) }
    ensures of_two { OfTwo (seen book.old) i (i + n) j (j + m) sum_levels (λ b a. Agrees result.formed (seen book.new) w (product b a)) }
    ensures of_two_2 { OfTwo (seen book.old) i (i + n) j (j + m) sum_levels (λ b a. Counted result (pairs b a)) }
    ensures same_slices { slices book.new ≡ slices book.old }
{
    let cells = book.cells();
    let pairs = sums::order::count(cells.insides, i, n) * sums::order::count(cells.insides, j, m);
    let formed = arithmetic::multiply::mul(book, i, n, j, m, w);
    Raised {
        formed,
        pairs: pairs as u64,
    }
}

// What a primitive whose pairs aren't counted forms of two sums.
fn form_uncounted(
    book: &mut Book,
    p: Primitive,
    i: usize,
    n: usize,
    j: usize,
    m: usize,
    w: usize,
) -> Result<usize, Refusal>
    requires { Uncounted p × (1 ≤ n) × (1 ≤ m) × Source (seen book.old) i n w × Source (seen book.old) j m w
        × Room (seen book.old) (w + (sum_entries + sum_entries)) }
    ensures kept { Kept (seen book.old) (seen book.new) w (w + (sum_entries + sum_entries)) }
    ensures of_two { OfTwo (seen book.old) i (i + n) j (j + m) sum_levels (λ b a. Agrees result (seen book.new) w (of_two p b a)) }
    ensures same_slices { slices book.new ≡ slices book.old }
{
    match p {
        Primitive::Add => { arithmetic::add::expr_add(book, Change::Keep, i, n, j, m, w) }
        Primitive::Sub => { arithmetic::add::expr_add(book, Change::Negate, i, n, j, m, w) }
        Primitive::Div => powers::divide::div(book, i, n, j, m, w),
        Primitive::Log => powers::raise::log(book, i, n, j, m, w),
        Primitive::Complex => complex(book, i, n, j, m, w),
        _ => copied(book, i, n, w),
    }
}

// What the primitive forms of the sum of n cells from i on, and of that of m cells from j on, which was on top of it; and the pairs that count.
pub fn form_two(
    book: &mut Book,
    p: Primitive,
    i: usize,
    n: usize,
    j: usize,
    m: usize,
    w: usize,
) -> Raised
    requires { (1 ≤ n) × (1 ≤ m) × Source (seen book.old) i n w × Source (seen book.old) j m w × Room (seen book.old) (w + (sum_entries + sum_entries)) }
    ensures kept { Kept (seen book.old) (seen book.new) w (w + (sum_entries + sum_entries)) }
    ensures of_two { OfTwo (seen book.old) i (i + n) j (j + m) sum_levels (λ b a. Agrees result.formed (seen book.new) w (of_two p b a)) }
    ensures of_two_2 { OfTwo (seen book.old) i (i + n) j (j + m) sum_levels (λ b a. Counted result (pairs_of p b a)) }
    ensures same_slices { slices book.new ≡ slices book.old }
{
    match p {
        Primitive::Mul => multiplied(book, i, n, j, m, w),
        Primitive::Pow => powers::raise::pow(book, i, n, j, m, w),
        _ => Raised {
            formed: form_uncounted(book, p, i, n, j, m, w),
            pairs: 0,
        },
    }
}
