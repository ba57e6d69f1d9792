// A term put into a sum of the same book: at a key that stands there its coefficient is merged, a new key goes in where it belongs;
// 18, 15, 13 and 12.
ghost use Rattle.std.specs.Prelude.{◌≡◌, ◌+◌, ◌≤◌};
ghost use Rattle.limits.specs.Limits.{sum_entries, sum_levels};
ghost use Rattle.cells.specs.Contract.Book.{seen, Room, slices};
ghost use Rattle.cells.specs.Contract.Moves.{Apart, Kept};
ghost use Rattle.sums.specs.Tree.Kinds.{X};
ghost use Rattle.sums.specs.Tree.Sums.{none, entry};
ghost use Rattle.sums.specs.Tree.Map.{merged, formed};
ghost use Rattle.sums.specs.declared.order.Found.TheVariants as Found;
ghost use Rattle.sums.specs.Contract.Lies.{Held, OfOne, OfTwo, Agrees};
ghost use Rattle.sums.specs.Contract.Place.{powers};
ghost use Rattle.sums.specs.Contract.Heads.{GoodHead};
ghost use Rattle.sums.specs.Contract.Putting.{Places, Puts};

use crate::order::Found;
use crate::tree::Merge;
use cells::{Book, Entry};
use limits::{Refusal, SUM_ENTRIES, SUM_LEVELS};
use numbers::complex::Complex;

// How many levels the inside of a term may have.
const INSIDE_LEVELS: usize = SUM_LEVELS - 1;

// What a key's coefficient becomes.
pub fn merge(how: Merge, old: Complex, c: Complex) -> Complex
    ensures { result ≡ merged how old c }
{
    match how {
        Merge::Add => old.add(c),
        Merge::Take => old.sub(c),
        Merge::Store => c,
    }
}

// At the key that stands at k: its coefficient becomes another. The term's inside, from i on, is asked for its levels alone.
fn put_same(
    book: &mut Book,
    how: Merge,
    x: Entry,
    i: usize,
    p: usize,
    n: usize,
    k: usize,
) -> Result<usize, Refusal>
    requires { Places (seen book.old) x i p n (Found.Same k) }
    ensures puts { Puts (seen book.old) (seen book.new) how x i p n (Found.Same k) result }
    ensures same_slices { slices book.new ≡ slices book.old }
{
    let y = book.load(k);
    let v = merge(how, y.coef, x.coef);
    if !v.is_finite() {
        return Err(Refusal::NotFinite);
    }
    if !crate::order::nests_within(book.cells().insides, i, x.inside as usize, INSIDE_LEVELS) {
        return Err(Refusal::TooDeep);
    }
    let e = Entry {
        kind: y.kind,
        inside: y.inside,
        num: y.num,
        coef: v,
    };
    book.store(k, e);
    Ok(n)
}

// A new key goes in before the cell k, with its inside from i on; its coefficient starts from +0.
fn put_new(
    book: &mut Book,
    how: Merge,
    x: Entry,
    i: usize,
    p: usize,
    n: usize,
    k: usize,
) -> Result<usize, Refusal>
    requires { Places (seen book.old) x i p n (Found.Before k) × Apart i x.inside p (p + sum_entries) }
    ensures puts { Puts (seen book.old) (seen book.new) how x i p n (Found.Before k) result }
    ensures same_slices { slices book.new ≡ slices book.old }
{
    let c = merge(how, Complex::ZERO, x.coef);
    if !c.is_finite() {
        return Err(Refusal::NotFinite);
    }
    if !crate::order::nests_within(book.cells().insides, i, x.inside as usize, INSIDE_LEVELS) {
        return Err(Refusal::TooDeep);
    }
    let m = n + (1 + x.inside as usize);
    if SUM_ENTRIES < m {
        return Err(Refusal::NoRoom);
    }
    let e = Entry {
        kind: x.kind,
        inside: x.inside,
        num: x.num,
        coef: c,
    };
    book.insert(e, i, k, p + n);
    Ok(m)
}

// Puts the term x, whose inside lies from i on, with its coefficient into the sum of n entries from p on, which has room for
// SUM_ENTRIES; the inside lies apart from that room.
pub fn put_block(
    book: &mut Book,
    how: Merge,
    x: Entry,
    i: usize,
    p: usize,
    n: usize,
) -> Result<usize, Refusal>
    requires good_head { GoodHead x × Held (seen book.old) i (i + x.inside) sum_levels × Apart i x.inside p (p + sum_entries) }
    requires n_le_sum_entries { (n ≤ sum_entries) × Room (seen book.old) (p + sum_entries) × Held (seen book.old) p (p + n) sum_levels }
    ensures kept { Kept (seen book.old) (seen book.new) p (p + sum_entries) }
    ensures of_two { OfTwo (seen book.old) p (p + n) i (i + x.inside) sum_levels (λ s t. Agrees result (seen book.new) p (formed how x t s)) }
    ensures same_slices { slices book.new ≡ slices book.old }
{
    if !numbers::is_finite(x.num) {
        let why = crate::tree::not_finite(x.kind);
        return Err(why);
    }
    match crate::order::find(&book.cells(), x, i, p, n, SUM_LEVELS) {
        Found::Same(k) => put_same(book, how, x, i, p, n, k),
        Found::Before(k) => put_new(book, how, x, i, p, n, k),
    }
}

// Puts c times the power num of x into the sum of n entries from p on, which has room for SUM_ENTRIES and whose powers end before the cell `end`. A power has no
// inside, so p stands for where it would lie.
pub fn put_below(
    book: &mut Book,
    how: Merge,
    num: f64,
    c: Complex,
    p: usize,
    n: usize,
    end: usize,
) -> Result<usize, Refusal>
    requires n_le_sum_entries { (n ≤ sum_entries) × Room (seen book.old) (p + sum_entries) × Held (seen book.old) p (p + n) sum_levels }
    requires of_one { OfOne (seen book.old) p (p + n) sum_levels (λ s. end ≡ p + powers s) }
    ensures kept { Kept (seen book.old) (seen book.new) p (p + sum_entries) }
    ensures of_one_2 { OfOne (seen book.old) p (p + n) sum_levels (λ s. Agrees result (seen book.new) p (formed how (entry X 0 num c) none s)) }
    ensures same_slices { slices book.new ≡ slices book.old }
{
    if !numbers::is_finite(num) {
        return Err(Refusal::PowerNotFinite);
    }
    let x = Entry {
        kind: crate::tree::X,
        inside: 0,
        num: num,
        coef: c,
    };
    match crate::order::find_power(&book.cells(), num, p, n, end) {
        Found::Same(k) => put_same(book, how, x, p, p, n, k),
        Found::Before(k) => put_new(book, how, x, p, p, n, k),
    }
}

// Puts c times the power num of x into the sum of n entries from p on, which has room for SUM_ENTRIES.
pub fn put_power(
    book: &mut Book,
    how: Merge,
    num: f64,
    c: Complex,
    p: usize,
    n: usize,
) -> Result<usize, Refusal>
    requires { (n ≤ sum_entries) × Room (seen book.old) (p + sum_entries) × Held (seen book.old) p (p + n) sum_levels }
    ensures kept { Kept (seen book.old) (seen book.new) p (p + sum_entries) }
    ensures of_one { OfOne (seen book.old) p (p + n) sum_levels (λ s. Agrees result (seen book.new) p (formed how (entry X 0 num c) none s)) }
    ensures same_slices { slices book.new ≡ slices book.old }
{
    let end = crate::order::powers_end(book.cells().kinds, p, n);
    put_below(book, how, num, c, p, n, end)
}
