// The integral of a sum, one outermost entry a step. It stores and does not add: at equal keys the later number stays.
ghost use Rattle.std.specs.Prelude.{◌≡◌, ◌+◌, ◌≤◌};
ghost use Rattle.limits.specs.Limits.{sum_entries, sum_levels};
ghost use Rattle.cells.specs.Contract.Book.{seen, Room, slices};
ghost use Rattle.cells.specs.Contract.Moves.{Kept};
ghost use Rattle.sums.specs.Tree.Kinds.{Sin};
ghost use Rattle.calculus.specs.Integral.{integrate_x, integrate_into, integrate};
ghost use Rattle.sums.specs.Contract.Lies.{OfOne, Agrees};
ghost use Rattle.arithmetic.specs.Add.Contract.Operands.{Source, Growing};
ghost use Rattle.calculus.specs.Contract.Into.{Ready, Into, XBehind, turned_coef};

use cells::{Book, Entry};
use limits::{Refusal, SUM_ENTRIES};
use numbers::complex::Complex;
use sums::tree::Merge;

// A power of x: its power plus 1, or where that is 0 the natural logarithm of x.
fn integrate_x(book: &mut Book, x: Entry, w: usize, len: usize) -> Result<usize, Refusal>
    requires { Growing (seen book.old) w len × XBehind (seen book.old) w }
    ensures kept { Kept (seen book.old) (seen book.new) w (w + sum_entries) }
    ensures of_one { OfOne (seen book.old) w (w + len) sum_levels (λ s. Agrees result (seen book.new) w (integrate_x x s)) }
    ensures same_slices { slices book.new ≡ slices book.old }
{
    let p = x.num + 1.0;
    let c = x.coef;
    if p == 0.0 {
        let y = Entry {
            kind: sums::tree::LOG,
            inside: 1,
            num: numbers::e(),
            coef: c,
        };
        let behind = w + SUM_ENTRIES;
        return sums::map::put_block(book, Merge::Store, y, behind, w, len);
    }
    let divided = c.div_real(p);
    sums::map::put_power(book, Merge::Store, p, divided, w, len)
}

// The integral of sin is negated.
fn turned_coef(kind: u8, c: Complex) -> Complex
    ensures { result ≡ turned_coef kind c }
{
    if kind == sums::tree::SIN {
        return c.neg();
    }
    c
}

// sin, cos, sinh or cosh, whose integral is of another kind: its argument has to be x, whatever its coefficient.
fn integrate_wave(
    book: &mut Book,
    x: Entry,
    i: usize,
    w: usize,
    len: usize,
) -> Result<usize, Refusal>
    requires { Ready (seen book.old) x i w len × XBehind (seen book.old) w × (Sin ≤ x.kind) }
    ensures into { Into (seen book.old) (seen book.new) x i w len sum_entries result integrate_into }
    ensures same_slices { slices book.new ≡ slices book.old }
{
    if !arithmetic::add::is_x(&book.cells(), i, x.inside as usize) {
        return Err(Refusal::TooComplex);
    }
    let kind = crate::turned_kind(x.kind);
    let c = turned_coef(x.kind, x.coef);
    let y = Entry {
        kind: kind,
        inside: 1,
        num: 0.0,
        coef: c,
    };
    let behind = w + SUM_ENTRIES;
    sums::map::put_block(book, Merge::Store, y, behind, w, len)
}

// One entry, whose argument lies from i on, integrated into the sum of len cells from w on.
fn integrate_entry(
    book: &mut Book,
    x: Entry,
    i: usize,
    w: usize,
    len: usize,
) -> Result<usize, Refusal>
    requires { Ready (seen book.old) x i w len × XBehind (seen book.old) w }
    ensures into { Into (seen book.old) (seen book.new) x i w len sum_entries result integrate_into }
    ensures same_slices { slices book.new ≡ slices book.old }
{
    if x.kind == sums::tree::X {
        return integrate_x(book, x, w, len);
    }
    if x.kind < sums::tree::SIN {
        return Err(Refusal::TooComplex);
    }
    integrate_wave(book, x, i, w, len)
}

// Each entry of the sum of m cells from j on, integrated into a sum that starts empty.
fn integrate_each(book: &mut Book, j: usize, m: usize, w: usize) -> Result<usize, Refusal>
    requires { Source (seen book.old) j m w × Room (seen book.old) (w + (sum_entries + sum_entries)) × XBehind (seen book.old) w }
    ensures kept { Kept (seen book.old) (seen book.new) w (w + sum_entries) }
    ensures of_one { OfOne (seen book.old) j (j + m) sum_levels (λ t. Agrees result (seen book.new) w (integrate t)) }
    ensures same_slices { slices book.new ≡ slices book.old }
{
    let end = j + m;
    let mut q = j;
    let mut len = 0usize;
    while q < end {
        let x = book.load(q);
        len = integrate_entry(book, x, q + 1, w, len)?;
        q = q + 1 + x.inside as usize;
    }
    Ok(len)
}

// The integral of the sum of m cells from j on. Behind the result lies the x that logarithms and functions are stored over.
pub fn expr_integral(book: &mut Book, j: usize, m: usize, w: usize) -> Result<usize, Refusal>
    requires { Source (seen book.old) j m w × Room (seen book.old) (w + (sum_entries + sum_entries)) }
    ensures kept { Kept (seen book.old) (seen book.new) w (w + (sum_entries + sum_entries)) }
    ensures of_one { OfOne (seen book.old) j (j + m) sum_levels (λ t. Agrees result (seen book.new) w (integrate t)) }
    ensures same_slices { slices book.new ≡ slices book.old }
{
    let x = Entry {
        kind: sums::tree::X,
        inside: 0,
        num: 1.0,
        coef: Complex::ONE,
    };
    book.store(w + SUM_ENTRIES, x);
    integrate_each(book, j, m, w)
}
