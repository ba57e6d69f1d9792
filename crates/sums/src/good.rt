// Whether what lies in a book is a good sum: every entry one that a sum may hold, and each level strictly rising.
ghost use Rattle.std.specs.Prelude.{◌≡◌, true, ◌↔◌, ◌+◌, ◌^◌, ◌<◌};
ghost use Rattle.cells.specs.Contract.Book.{shown, Room};
ghost use Rattle.sums.specs.Contract.Lies.{Held};
ghost use Rattle.sums.specs.Contract.Fine.{head_ok, is_less, Fine, Term, Follows};

use cells::Cells;
use std::cmp::Ordering;

// A kind from X to CosH; a number only with X and Log; an inside unless it is an X. That the number's bits are below 2^64 is told
// to a caller who took them out of a book.
fn good_head(kind: u8, inside: u8, num: u64) -> bool
    ensures { (result ≡ head_ok kind inside num) × (num < 2 ^ 64) }
{
    let known = (crate::tree::X <= kind) & (kind <= crate::tree::COSH);
    let rules = known & ((kind == crate::tree::X) | (kind == crate::tree::LOG) | (num == 0));
    rules & ((inside == 0) == (kind == crate::tree::X))
}

// The cell at k by itself, with an inside that ends by `end`.
fn good_cell(book: &Cells, k: usize, end: usize) -> bool
    requires { (k < end) × Room (shown book.now) (k + 1) }
    ensures { (result ≡ true) ↔ Fine (shown book.now) k end }
{
    let words = book.numbers[k];
    let inside = book.insides[k];
    let plain = numbers::finite_bits(words[0])
        & numbers::finite_bits(words[1])
        & numbers::finite_bits(words[2]);
    plain & good_head(book.kinds[k], inside, words[0]) & (inside as usize <= end - k - 1)
}

fn is_less(o: Ordering) -> bool
    ensures { result ≡ is_less o }
{
    match o {
        Ordering::Less => true,
        Ordering::Equal => false,
        Ordering::Greater => false,
    }
}

// Whether the term at k comes after the one at `last`; the first follows nothing.
fn follows(book: &Cells, last: usize, k: usize, left: usize) -> bool
    requires term { last < k → Term (shown book.now) last left }
    requires term_2 { Term (shown book.now) k left }
    ensures { Follows (shown book.now) last k left result }
{
    if k <= last {
        return true;
    }
    let x = book.load(last);
    let y = book.load(k);
    is_less(crate::order::cmp_term(book, x, last + 1, y, k + 1, left))
}

// Whether the n cells from i on are a good sum of at most `left` levels. The empty sum is one.
pub fn good_sum(book: &Cells, i: usize, n: usize, left: usize) -> bool
    requires { Room (shown book.now) (i + n) }
    ensures { (result ≡ true) ↔ Held (shown book.now) i (i + n) left }
{
    if left == 0 {
        return n == 0;
    }
    let end = i + n;
    let mut last = i;
    let mut k = i;
    while k < end {
        if !good_cell(book, k, end) {
            return false;
        }
        let d = book.insides[k] as usize;
        if !good_sum(book, k + 1, d, left - 1) {
            return false;
        }
        if !follows(book, last, k, left - 1) {
            return false;
        }
        last = k;
        k = k + 1 + d;
    }
    true
}
