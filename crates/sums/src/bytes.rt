// Sums as bytes, ENTRY_BYTES to an entry, numbers with the lowest byte first: taking a sum in, with the rules that it keeps, and writing one.
ghost use Rattle.std.specs.Prelude.{◌≡◌, ℕ, ◌+◌, ◌*◌, ◌≤◌, length};
ghost use Rattle.std.proofs.lemmas.List.Edits.{sets};
ghost use Rattle.limits.specs.Limits.{sum_entries, sum_levels, entry_bytes};
ghost use Rattle.cells.specs.Contract.Book.{seen, shown, Room, slices};
ghost use Rattle.cells.specs.Contract.Moves.{SameRoom};
ghost use Rattle.sums.specs.Contract.Lies.{Held, OfOne};
ghost use Rattle.sums.specs.Entry.Encoding.{entries_in, encode_sum};
ghost use Rattle.sums.specs.Entry.Taking.{Weighed};
ghost use Rattle.sums.specs.Entry.Contract.Steps.{clean_at};
ghost use Rattle.sums.specs.Contract.Laid.{Laid};
ghost use Rattle.sums.specs.Contract.Steps.{Loaded, Answered, Stored};

use cells::{Book, Cells};
use limits::{ENTRY_BYTES, Refusal, SUM_ENTRIES, SUM_LEVELS};

// What lies inside an entry is fewer than this.
const INSIDE_BELOW: u32 = SUM_ENTRIES as u32;

// Whether the blank bytes of the entry at place `i` are zero, and its count of what lies inside is below SUM_ENTRIES.
fn clean(list: &[u8], i: usize) -> bool
    requires { entry_bytes * i + entry_bytes ≤ length list.now }
    ensures { result ≡ clean_at list.now i }
{
    let at = ENTRY_BYTES * i;
    (formats::record::four(list, at) < 256) & (formats::record::four(list, at + 4) < INSIDE_BELOW)
}

// Reads the first `n` entries into the first `n` cells, as long as they are clean.
fn read_cells(book: &mut Book, list: &[u8], n: usize) -> bool
    requires { (entry_bytes * n ≤ length list.now) × Room (seen book.old) n }
    ensures loaded { Loaded list.now n (seen book.new) result }
    ensures long { SameRoom (seen book.old) (seen book.new) }
    ensures same_slices { slices book.new ≡ slices book.old }
{
    for j in 0..n {
        if !clean(list, j) {
            return false;
        }
        let at = ENTRY_BYTES * j;
        let num = formats::record::eight(list, at + 8);
        let re = formats::record::eight(list, at + 16);
        let im = formats::record::eight(list, at + 24);
        book.kinds[j] = list[at];
        book.insides[j] = list[at + 4];
        book.numbers[j] = [num, re, im];
    }
    true
}

// What the first `n` cells are: a good sum of at most SUM_LEVELS, a good sum of more, or none.
fn answer(book: &Cells, n: usize) -> Result<usize, Refusal>
    requires { Room (shown book.now) n }
    ensures { Answered (shown book.now) n result }
{
    if crate::good::good_sum(book, 0, n, SUM_LEVELS) {
        return Ok(n);
    }
    if crate::good::good_sum(book, 0, n, SUM_ENTRIES) {
        return Err(Refusal::TooDeep);
    }
    Err(Refusal::BadRecord)
}

// Takes a sum in: its entries go into the first cells. Where it is refused the cells are left as they are then.
pub fn take_in(book: &mut Book, list: &[u8]) -> Result<usize, Refusal>
    requires { Room (seen book.old) sum_entries }
    ensures weighed { Weighed list.now result }
    ensures by_index { (n : ℕ) → result ≡ Ok n → Laid list.now (seen book.new) n }
    ensures long { SameRoom (seen book.old) (seen book.new) }
    ensures same_slices { slices book.new ≡ slices book.old }
{
    let n = list.len() / ENTRY_BYTES;
    if list.len() % ENTRY_BYTES != 0 {
        return Err(Refusal::BadRecord);
    }
    if n < 1 {
        return Err(Refusal::BadRecord);
    }
    if n > SUM_ENTRIES {
        return Err(Refusal::BadRecord);
    }
    if !read_cells(book, list, n) {
        return Err(Refusal::BadRecord);
    }
    answer(&book.cells(), n)
}

// Writes a cell's five numbers as the entry at place `j`.
fn put_cell(out: &mut [u8], j: usize, kind: u8, inside: u8, num: u64, re: u64, im: u64)
    requires { entry_bytes * j + entry_bytes ≤ length out.old }
    ensures { Stored out.old out.new j record { kind = kind; inside = inside; num = num; re = re; im = im } }
{
    let at = ENTRY_BYTES * j;
    formats::record::put_four(out, at, kind as u64);
    formats::record::put_four(out, at + 4, inside as u64);
    formats::record::put_eight(out, at + 8, num);
    formats::record::put_eight(out, at + 16, re);
    formats::record::put_eight(out, at + 24, im);
}

// How many whole entries there is room for.
pub fn count_entries(out: &[u8]) -> usize
    ensures { result ≡ entries_in out.now }
{
    out.len() / ENTRY_BYTES
}

// Writes the sum that lies in the `n` cells from `i` on.
pub fn put_sum(book: &Cells, i: usize, n: usize, out: &mut [u8])
    requires { Held (shown book.now) i (i + n) sum_levels × (entry_bytes * n ≤ length out.old) }
    ensures { OfOne (shown book.now) i (i + n) sum_levels (λ s. out.new ≡ sets out.old 0 (encode_sum s)) }
{
    for j in 0..n {
        let k = i + j;
        let words = book.numbers[k];
        put_cell(
            out,
            j,
            book.kinds[k],
            book.insides[k],
            words[0],
            words[1],
            words[2],
        );
    }
}
