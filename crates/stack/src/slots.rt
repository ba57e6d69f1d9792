// The arena: a book of three arrays, and beside each cell a size, which at a sum's last cell says how many cells the sum has. The first WORKING places are for working in;
// behind them lies the stack, and at the end what is held.
ghost use Rattle.std.specs.Prelude.{◌≡◌, List, ◌∷◌, ℕ, ◌+◌, ◌≤◌, ◌<◌, length};
ghost use Rattle.limits.specs.Limits.{sum_entries, sum_levels};
ghost use Rattle.cells.specs.Contract.Book.{seen, shown};
ghost use Rattle.stack.specs.Stack.{any_complex};
ghost use Rattle.sums.specs.Contract.Lies.{OfOne};
ghost use Rattle.sums.specs.Tree.Sums.{Sum};
ghost use Rattle.stack.specs.Contract.Arena.{of, slots, Space, working, all_slices};
ghost use Rattle.stack.specs.Contract.Stacked.{Top, Stacked, Sized, deep};
ghost use Rattle.stack.specs.Contract.Blocks.{Outside, Raised, Sunk};

use cells::{Book, Cells};
use limits::{STACK_ENTRIES, SUM_ENTRIES};

// Two sums can be formed there. They count towards no limit.
pub const WORKING: usize = SUM_ENTRIES + SUM_ENTRIES;

pub const ARENA: usize = WORKING + STACK_ENTRIES;

// Enough for most lists, and sooner cleared: a sum as large as there may be, and as many entries beside it.
pub const SMALL_ARENA: usize = WORKING + SUM_ENTRIES + SUM_ENTRIES;

// The book that the stack lies in, with a size beside each cell, both lent. Contracts see them as one arena (`slots`).
#[derive(Drop)]
pub struct Arena<'a> {
    pub book: Book<'a>,
    pub sizes: &'a mut [u8],
}

impl<'a> Arena<'a> {
    // The sizes, for reading.
    pub fn sizes(&self) -> &[u8]
        ensures { result.now ≡ self.now.sizes.now }
    {
        self.sizes
    }
}

fn wide(x: u8) -> usize
    ensures { result ≡ x }
{
    x as usize
}

// The slots from k up to e are moved up by d.
pub fn raise(arena: &mut Arena, k: usize, e: usize, d: usize)
    requires { (k ≤ e) × Space (slots arena.old) (e + d) }
    ensures raised { Raised (slots arena.old) (slots arena.new) k e d }
    ensures same_slices { all_slices arena.new ≡ all_slices arena.old }
{
    arena.book.open_gap(k, e, d);
    arena.sizes.copy_within(k..e, k + d);
}

// n slots are copied down.
pub fn sink(arena: &mut Arena, from: usize, to: usize, n: usize)
    requires { (to ≤ from) × Space (slots arena.old) (from + n) }
    ensures sunk { Sunk (slots arena.old) (slots arena.new) from to n }
    ensures same_slices { all_slices arena.new ≡ all_slices arena.old }
{
    arena.book.copy_within(from, n, to);
    arena.sizes.copy_within(from..from + n, to);
}

// A sum of n cells from i on is copied to u, and its size written at its last cell there.
pub fn bring(arena: &mut Arena, i: usize, n: usize, u: usize)
    requires { (1 ≤ n) × (n ≤ sum_entries) × (i + n ≤ u) × Space (slots arena.old) (u + n) }
    ensures outside { Outside (slots arena.old) (slots arena.new) u (u + n) }
    ensures of_one { OfOne (seen arena.old.book) i (i + n) sum_levels (λ s. Top (slots arena.new) u (u + n) s) }
    ensures same_slices { all_slices arena.new ≡ all_slices arena.old }
{
    arena.book.copy_within(i, n, u);
    arena.sizes[u + n - 1] = n as u8;
}

// How many cells the sum has that ends at u, of those stacked from lo on.
pub fn top_size(sizes: &[u8], lo: usize, u: usize) -> usize
    requires { (0 < u) × (u ≤ length sizes.now) }
    ensures { (n : ℕ) (ns : List ℕ) → Sized sizes.now lo u (n ∷ ns) → result ≡ n }
{
    wide(sizes[u - 1])
}

// Where the top k sums of those from lo up to hi begin.
pub fn measure(sizes: &[u8], lo: usize, hi: usize, k: usize) -> Option<usize>
    requires { (hi ≤ length sizes.now) × ((ns : List ℕ) × Sized sizes.now lo hi ns) }
    ensures { (ns : List ℕ) → Sized sizes.now lo hi ns → result ≡ deep k ns hi }
{
    let mut p = hi;
    let mut left = k;
    while 0 < left {
        if p <= lo {
            return None;
        }
        p = p - top_size(sizes, lo, p);
        left = left - 1;
    }
    Some(p)
}

// Whether any of the sums on the stack, which ends at u, has a power of x other than 0 and 1.
pub fn any_complex(book: &Cells, sizes: &[u8], u: usize) -> bool
    requires { (u ≤ length sizes.now) × ((ss : List Sum) × Stacked (of (shown book.now) sizes.now) working u ss) }
    ensures { (ss : List Sum) → Stacked (of (shown book.now) sizes.now) working u ss → result ≡ any_complex ss }
{
    let mut p = u;
    while WORKING < p {
        let n = top_size(sizes, WORKING, p);
        p = p - n;
        if arithmetic::add::is_complex(book, p, n) {
            return true;
        }
    }
    false
}
