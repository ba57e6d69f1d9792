// Sums in a book of three arrays: sums of one term, what can be read off a sum, and sums negated and added. Operands lie where they lie; the result is
// formed from p on, where there is room for SUM_ENTRIES, and no other place is written.
ghost use Rattle.std.specs.Prelude.{◌≡◌, ◌+◌};
ghost use Rattle.limits.specs.Limits.{sum_entries, sum_levels};
ghost use Rattle.numbers.specs.Signs.{zero64};
ghost use Rattle.cells.specs.Contract.Book.{seen, shown, Room, slices};
ghost use Rattle.cells.specs.Contract.Moves.{Apart, Kept};
ghost use Rattle.sums.specs.Tree.Kinds.{X};
ghost use Rattle.sums.specs.Tree.Sums.{none};
ghost use Rattle.sums.specs.Tree.Map.{formed};
ghost use Rattle.arithmetic.specs.Singles.{alone, is_one, as_constant, is_x, is_complex};
ghost use Rattle.arithmetic.specs.Adding.{neg_sum, add_each};
ghost use Rattle.sums.specs.Contract.Lies.{Lies, Held, OfOne, OfTwo, Agrees};
ghost use Rattle.sums.specs.Contract.Heads.{GoodHead};
ghost use Rattle.arithmetic.specs.Add.Contract.Operands.{Operand, Growing, constant_of};

use crate::Change;
use cells::{Book, Cells, Entry};
use limits::Refusal;
use numbers::complex::Complex;
use sums::tree::Merge;

// Whether the term is x to the 0, which is 1.
pub fn is_one(x: Entry) -> bool
    ensures { result ≡ is_one x.kind x.num }
{
    (x.kind == sums::tree::X) & (x.num == 0.0)
}

// The coefficient of the sum of n cells from i on, if it is a constant: one term, which is 1 and so has no inside.
pub fn as_constant(book: &Cells, i: usize, n: usize) -> Option<Complex>
    requires { Held (shown book.now) i (i + n) sum_levels }
    ensures { OfOne (shown book.now) i (i + n) sum_levels (λ s. result ≡ constant_of (as_constant s)) }
{
    if n != 1 {
        return None;
    }
    let x = book.load(i);
    let c = x.coef;
    if is_one(x) { Some(c) } else { None }
}

// Whether the sum of n cells from i on is one term, and that x, whatever its coefficient.
pub fn is_x(book: &Cells, i: usize, n: usize) -> bool
    requires { Held (shown book.now) i (i + n) sum_levels }
    ensures { OfOne (shown book.now) i (i + n) sum_levels (λ s. result ≡ is_x s) }
{
    if n != 1 {
        return false;
    }
    let x = book.load(i);
    (x.kind == sums::tree::X) & (x.num == 1.0)
}

// Whether any of the n cells from i on, at whatever level, is a power of x other than 0 and 1.
pub fn is_complex(book: &Cells, i: usize, n: usize) -> bool
    requires { Held (shown book.now) i (i + n) sum_levels }
    ensures { OfOne (shown book.now) i (i + n) sum_levels (λ s. result ≡ is_complex s) }
{
    for k in i..i + n {
        let x = book.load(k);
        if (x.kind == sums::tree::X) & (!(x.num == 0.0) & !(x.num == 1.0)) {
            return true;
        }
    }
    false
}

// The term x, whose inside lies from i on, is put into the sum of n cells from p on: a power of x by its kind and number alone.
pub fn put_term(
    book: &mut Book,
    how: Merge,
    x: Entry,
    i: usize,
    p: usize,
    n: usize,
) -> Result<usize, Refusal>
    requires good_head { GoodHead x × Held (seen book.old) i (i + x.inside) sum_levels × Apart i x.inside p (p + sum_entries) }
    requires growing { Growing (seen book.old) p n }
    ensures kept { Kept (seen book.old) (seen book.new) p (p + sum_entries) }
    ensures of_two { OfTwo (seen book.old) p (p + n) i (i + x.inside) sum_levels (λ s t. Agrees result (seen book.new) p (formed how x t s)) }
    ensures same_slices { slices book.new ≡ slices book.old }
{
    if x.kind == sums::tree::X {
        return sums::map::put_power(book, how, x.num, x.coef, p, n);
    }
    sums::map::put_block(book, how, x, i, p, n)
}

// One term, whose inside is the sum of x.inside cells from i on, as a sum of its own.
pub fn alone(book: &mut Book, x: Entry, i: usize, p: usize) -> Result<usize, Refusal>
    requires { GoodHead x × Held (seen book.old) i (i + x.inside) sum_levels × Apart i x.inside p (p + sum_entries) × Room (seen book.old) (p + sum_entries) }
    ensures kept { Kept (seen book.old) (seen book.new) p (p + sum_entries) }
    ensures of_one { OfOne (seen book.old) i (i + x.inside) sum_levels (λ t. Agrees result (seen book.new) p (formed Merge.Store x t none)) }
    ensures same_slices { slices book.new ≡ slices book.old }
{
    sums::map::put_block(book, Merge::Store, x, i, p, 0)
}

// The constant c as a sum of its own.
pub fn constant_sum(book: &mut Book, c: Complex, p: usize) -> Result<usize, Refusal>
    requires { Room (seen book.old) (p + sum_entries) }
    ensures kept { Kept (seen book.old) (seen book.new) p (p + sum_entries) }
    ensures agrees { Agrees result (seen book.new) p (alone X zero64 none c) }
    ensures same_slices { slices book.new ≡ slices book.old }
{
    sums::map::put_power(book, Merge::Store, 0.0, c, p, 0)
}

// Each entry of the sum of m cells from j on, its coefficient changed, is added into the sum of n cells from p on.
pub fn add_each(
    book: &mut Book,
    how: Change,
    j: usize,
    m: usize,
    p: usize,
    n: usize,
) -> Result<usize, Refusal>
    requires { Operand (seen book.old) j m p × Growing (seen book.old) p n }
    ensures kept { Kept (seen book.old) (seen book.new) p (p + sum_entries) }
    ensures of_two { OfTwo (seen book.old) p (p + n) j (j + m) sum_levels (λ s t. Agrees result (seen book.new) p (add_each how s t)) }
    ensures same_slices { slices book.new ≡ slices book.old }
{
    let end = j + m;
    let mut q = j;
    let mut len = n;
    while q < end {
        let y = book.load(q);
        let x = Entry {
            kind: y.kind,
            inside: y.inside,
            num: y.num,
            coef: crate::change_coef(how, y.coef),
        };
        len = put_term(book, Merge::Add, x, q + 1, p, len)?;
        q = q + 1 + y.inside as usize;
    }
    Ok(len)
}

// The sum of n cells from i on, with that of m cells from j on added into it, its coefficients changed.
pub fn expr_add(
    book: &mut Book,
    how: Change,
    i: usize,
    n: usize,
    j: usize,
    m: usize,
    p: usize,
) -> Result<usize, Refusal>
    requires { Operand (seen book.old) i n p × Operand (seen book.old) j m p × Room (seen book.old) (p + sum_entries) }
    ensures kept { Kept (seen book.old) (seen book.new) p (p + sum_entries) }
    ensures of_two { OfTwo (seen book.old) i (i + n) j (j + m) sum_levels (λ s t. Agrees result (seen book.new) p (add_each how s t)) }
    ensures same_slices { slices book.new ≡ slices book.old }
{
    book.copy_within(i, n, p);
    add_each(book, how, j, m, p, n)
}

// The coefficient of every outermost entry of the sum of n cells from p on is negated.
fn neg_each(book: &mut Book, p: usize, n: usize)
    requires { Held (seen book.old) p (p + n) sum_levels }
    ensures kept { Kept (seen book.old) (seen book.new) p (p + n) }
    ensures of_one { OfOne (seen book.old) p (p + n) sum_levels (λ s. Lies (seen book.new) p (p + n) sum_levels (neg_sum s)) }
    ensures same_slices { slices book.new ≡ slices book.old }
{
    let end = p + n;
    let mut k = p;
    while k < end {
        let y = book.load(k);
        let x = Entry {
            kind: y.kind,
            inside: y.inside,
            num: y.num,
            coef: y.coef.neg(),
        };
        book.store(k, x);
        k = k + 1 + y.inside as usize;
    }
}

// The sum of n cells from i on, negated.
pub fn expr_neg(book: &mut Book, i: usize, n: usize, p: usize)
    requires { Operand (seen book.old) i n p × Room (seen book.old) (p + sum_entries) }
    ensures kept { Kept (seen book.old) (seen book.new) p (p + sum_entries) }
    ensures of_one { OfOne (seen book.old) i (i + n) sum_levels (λ s. Lies (seen book.new) p (p + n) sum_levels (neg_sum s)) }
    ensures same_slices { slices book.new ≡ slices book.old }
{
    book.copy_within(i, n, p);
    neg_each(book, p, n);
}
