// Sums that lie in one book: their order, the Rust's ==, how deep they nest, and where a term stands or belongs. Two sums that are
// compared are two stretches of the same book. `left` is how many levels of sums there may still be, and falls with each call inward.
ghost use Rattle.std.specs.Prelude.{◌≡◌, true, ◌↔◌, ℕ, ◌+◌, ◌≤◌, T, leb, length, get_or};
ghost use Rattle.std.specs.Float.Ieee.Scale.{finite};
ghost use Rattle.limits.specs.Limits.{sum_levels};
ghost use Rattle.cells.specs.declared.Entry.{Entry};
ghost use Rattle.cells.specs.Contract.Book.{shown};
ghost use Rattle.sums.specs.Tree.Sums.{Sum, none, size, len, levels};
ghost use Rattle.sums.specs.Tree.Kinds.{X};
ghost use Rattle.sums.specs.Tree.Good.{Good};
ghost use Rattle.sums.specs.Tree.Order.{cmp_nat, cmp_head, cmp_term, cmp_sum};
ghost use Rattle.sums.specs.Tree.Same.{same_head, same_term, same_sum};
ghost use Rattle.sums.specs.Contract.Lies.{At, Lies, Held, OfOne, OfTwo};
ghost use Rattle.sums.specs.Contract.Nests.{Nests, Nested};
ghost use Rattle.sums.specs.Contract.Place.{place, powers, OnlyPowers};

use cells::{Cells, Entry};
use std::cmp::Ordering;

// Where a term stands in a sum, or before which cell it belongs.
#[derive(Clone, Copy)]
pub enum Found {
    Same(usize),
    Before(usize),
}

pub fn cmp_nat(a: usize, b: usize) -> Ordering
    ensures { result ≡ cmp_nat a b }
{
    if a < b {
        return Ordering::Less;
    }
    if b < a {
        Ordering::Greater
    } else {
        Ordering::Equal
    }
}

pub fn cmp_head(x: Entry, y: Entry) -> Ordering
    ensures { result ≡ cmp_head x y }
{
    let kinds = cmp_nat(x.kind as usize, y.kind as usize);
    let nums = numbers::cmp(x.num, y.num);
    kinds.then(nums)
}

// How many outermost entries the n cells from i on have.
pub fn count(insides: &[u8], i: usize, n: usize) -> usize
    requires { i + n ≤ length insides.now }
    ensures { (f : ℕ → Entry) (s : Sum) → ((k : ℕ) → (f k).inside ≡ get_or insides.now k 0) → At f i s → n ≡ size s → result ≡ len s }
{
    let end = i + n;
    let mut k = i;
    let mut c = 0usize;
    while k < end {
        let d = insides[k] as usize;
        k = k + 1 + d;
        c = c + 1;
    }
    c
}

// Two terms: their heads, and then their insides, which lie from i and from j on.
#[cycle(cmp_sum_cmp_term)]
pub fn cmp_term(book: &Cells, x: Entry, i: usize, y: Entry, j: usize, left: usize) -> Ordering
    requires held { Held (shown book.now) i (i + x.inside) left }
    requires held_2 { Held (shown book.now) j (j + y.inside) left }
    ensures { OfTwo (shown book.now) i (i + x.inside) j (j + y.inside) left (λ s t. result ≡ cmp_term x s y t) }
{
    let n = x.inside as usize;
    let m = y.inside as usize;
    match cmp_head(x, y) {
        Ordering::Less => Ordering::Less,
        Ordering::Equal => cmp_sum(book, i, n, j, m, left),
        Ordering::Greater => Ordering::Greater,
    }
}

// Two sums, the n entries from i on and the m from j on: by length, then each term, then its coefficient.
#[cycle(cmp_sum_cmp_term)]
pub fn cmp_sum(book: &Cells, i: usize, n: usize, j: usize, m: usize, left: usize) -> Ordering
    requires held { Held (shown book.now) i (i + n) left }
    requires held_2 { Held (shown book.now) j (j + m) left }
    ensures { OfTwo (shown book.now) i (i + n) j (j + m) left (λ s t. result ≡ cmp_sum s t) }
{
    match cmp_nat(count(book.insides, i, n), count(book.insides, j, m)) {
        Ordering::Less => return Ordering::Less,
        Ordering::Greater => return Ordering::Greater,
        Ordering::Equal => {}
    }
    let end = i + n;
    let mut p = i;
    let mut q = j;
    while p < end {
        let x = book.load(p);
        let y = book.load(q);
        let o = cmp_term(book, x, p + 1, y, q + 1, left - 1);
        match o.then(x.coef.cmp(y.coef)) {
            Ordering::Less => return Ordering::Less,
            Ordering::Greater => return Ordering::Greater,
            Ordering::Equal => {}
        }
        p = p + 1 + x.inside as usize;
        q = q + 1 + y.inside as usize;
    }
    Ordering::Equal
}

pub fn same_head(x: Entry, y: Entry) -> bool
    ensures { result ≡ same_head x y }
{
    (x.kind == y.kind) & (x.num == y.num)
}

// The Rust's == on two terms, whose insides lie from i and from j on: coefficients don't count.
#[cycle(eq_sum_eq_term)]
pub fn eq_term(book: &Cells, x: Entry, i: usize, y: Entry, j: usize, left: usize) -> bool
    requires held { Held (shown book.now) i (i + x.inside) left }
    requires held_2 { Held (shown book.now) j (j + y.inside) left }
    ensures { OfTwo (shown book.now) i (i + x.inside) j (j + y.inside) left (λ s t. result ≡ same_term x s y t) }
{
    let n = x.inside as usize;
    let m = y.inside as usize;
    if !same_head(x, y) {
        return false;
    }
    eq_sum(book, i, n, j, m, left)
}

// The Rust's == on two sums, the n entries from i on and the m from j on.
#[cycle(eq_sum_eq_term)]
pub fn eq_sum(book: &Cells, i: usize, n: usize, j: usize, m: usize, left: usize) -> bool
    requires held { Held (shown book.now) i (i + n) left }
    requires held_2 { Held (shown book.now) j (j + m) left }
    ensures { OfTwo (shown book.now) i (i + n) j (j + m) left (λ s t. result ≡ same_sum s t) }
{
    let end = i + n;
    let stop = j + m;
    let mut p = i;
    let mut q = j;
    while (p < end) & (q < stop) {
        let x = book.load(p);
        let y = book.load(q);
        if !eq_term(book, x, p + 1, y, q + 1, left - 1) {
            return false;
        }
        p = p + 1 + x.inside as usize;
        q = q + 1 + y.inside as usize;
    }
    (p == end) & (q == stop)
}

// Whether the sum of n cells from i on has at most `left` levels.
fn nests_inside(insides: &[u8], i: usize, n: usize, left: usize) -> bool
    requires { Nested insides.now i (i + n) }
    ensures { (s : Sum) → Nests insides.now i (i + n) s → result ≡ leb (levels s) left }
{
    if left == 0 {
        return n == 0;
    }
    let end = i + n;
    let mut k = i;
    while k < end {
        let d = insides[k] as usize;
        if !nests_inside(insides, k + 1, d, left - 1) {
            return false;
        }
        k = k + 1 + d;
    }
    true
}

// Whether the sum has no more than so many levels. Nothing has none, and most terms have nothing inside: a call of a function on itself isn't begun for them.
pub fn nests_within(insides: &[u8], i: usize, n: usize, left: usize) -> bool
    requires { Nested insides.now i (i + n) }
    ensures { (s : Sum) → Nests insides.now i (i + n) s → result ≡ leb (levels s) left }
{
    if n == 0 {
        return true;
    }
    nests_inside(insides, i, n, left)
}

// Where the term x, whose inside lies from i on, stands or belongs in the sum of n entries from p on.
pub fn find(book: &Cells, x: Entry, i: usize, p: usize, n: usize, left: usize) -> Found
    requires held { Held (shown book.now) i (i + x.inside) left }
    requires held_2 { Held (shown book.now) p (p + n) left }
    ensures { OfTwo (shown book.now) p (p + n) i (i + x.inside) left (λ s t. result ≡ place x t s p) }
{
    let end = p + n;
    let mut k = p;
    while k < end {
        let y = book.load(k);
        match cmp_term(book, x, i, y, k + 1, left) {
            Ordering::Less => return Found::Before(k),
            Ordering::Equal => return Found::Same(k),
            Ordering::Greater => {}
        }
        k = k + 1 + y.inside as usize;
    }
    Found::Before(k)
}

// Whether each of the n cells from p on is a power of x. It looks at all of them whatever it finds: a loop with no way out in its middle is compiled to one that
// takes many cells at once.
pub fn all_powers(kinds: &[u8], p: usize, n: usize) -> bool
    requires { p + n ≤ length kinds.now }
    ensures { (result ≡ true) ↔ OnlyPowers kinds.now p (p + n) }
{
    let mut all = true;
    for k in p..p + n {
        all = all & (kinds[k] == crate::tree::X);
    }
    all
}

// Up to which cell the powers of x go that stand first in the sum of n cells from p on: they have no inside, and come before every
// other term.
pub fn powers_end(kinds: &[u8], p: usize, n: usize) -> usize
    requires { p + n ≤ length kinds.now }
    ensures lower_bound { (p ≤ result) × (result ≤ p + n) }
    ensures by_index { (f : ℕ → Entry) (s : Sum) → ((k : ℕ) → (f k).kind ≡ get_or kinds.now k 0) → At f p s → Good sum_levels s → n ≡ size s → result ≡ p + powers s }
{
    let end = p + n;
    for k in p..end {
        if kinds[k] != crate::tree::X {
            return k;
        }
    }
    end
}

// Where a power of x stands or belongs in the sum of n cells from p on, whose powers end before the cell `end`: numbers tell, from the last power down.
pub fn find_power(book: &Cells, num: f64, p: usize, n: usize, end: usize) -> Found
    requires t { T (finite num) × Held (shown book.now) p (p + n) sum_levels }
    requires of_one { OfOne (shown book.now) p (p + n) sum_levels (λ s. end ≡ p + powers s) }
    ensures { (s : Sum) (x : Entry) → Lies (shown book.now) p (p + n) sum_levels s → x.kind ≡ X → x.num ≡ num → result ≡ place x none s p }
{
    for j in (p..end).rev() {
        let words = book.numbers[j];
        match numbers::cmp(num, f64::from_bits(words[0])) {
            Ordering::Greater => return Found::Before(j + 1),
            Ordering::Equal => return Found::Same(j),
            Ordering::Less => {}
        }
    }
    Found::Before(p)
}
