// A case is five bytes, the code, the entries of the two operands, the refusal's number or 0, and the entries of the result; and then the
// entries, 32 bytes each.
ghost use Rattle.std.specs.Prelude.{◌≡◌, ◌+◌, ◌≤◌, length, IfSome};
ghost use Rattle.cells.specs.Contract.Book.{seen, shown, Room, slices};
ghost use Rattle.cells.specs.Contract.Moves.{SameRoom};

use cells::{Book, Cells};
use limits::{ENTRY_BYTES, Refusal};

// An entry as it is stored: its kind and how many lie inside it, four bytes each, and its numbers, eight bytes each, least byte first.
pub type Stored = [u8; ENTRY_BYTES];

// A case, with its entries.
#[derive(Clone, Copy)]
pub struct Case<'a> {
    pub code: u8,
    pub first: &'a [Stored],
    pub second: &'a [Stored],
    pub number: u8,
    pub result: &'a [Stored],
}

impl<'a> Case<'a> {
    // The case with this head, whose entries stand in front of these bytes, and what is behind them; none where the entries are cut short.
    pub fn split(head: &[u8; 5], bytes: &'a [u8]) -> Option<(Case<'a>, &'a [u8])>
        ensures { IfSome result (λ p. length p.1.now ≤ length bytes.now) }
    {
        let [code, n, m, number, r] = *head;
        let (n, m, r) = (usize::from(n), usize::from(m), usize::from(r));
        let (entries, rest) = bytes.split_at_checked(ENTRY_BYTES * (n + m + r))?;
        let (entries, _) = entries.as_chunks::<ENTRY_BYTES>();
        let (first, entries) = entries.split_at(n);
        let (second, result) = entries.split_at(m);
        let case = Case {
            code,
            first,
            second,
            number,
            result,
        };
        Some((case, rest))
    }
}

// What a cell holds, or a stored entry.
#[derive(Clone, Copy, PartialEq, Eq)]
struct Cell {
    kind: u32,
    inside: u32,
    words: [u64; 3],
}

fn four(entry: &Stored, at: usize) -> u32
    requires { at + 4 ≤ 32 }
{
    u32::from_le_bytes(entry[at..at + 4].try_into().unwrap())
}

fn eight(entry: &Stored, at: usize) -> u64
    requires { at + 8 ≤ 32 }
{
    u64::from_le_bytes(entry[at..at + 8].try_into().unwrap())
}

fn words(entry: &Stored) -> [u64; 3] {
    [eight(entry, 8), eight(entry, 16), eight(entry, 24)]
}

impl Cell {
    fn stored(entry: &Stored) -> Cell {
        Cell {
            kind: four(entry, 0),
            inside: four(entry, 4),
            words: words(entry),
        }
    }

    // The cell at i.
    fn at(book: &Cells, i: usize) -> Cell
        requires { Room (shown book.now) (i + 1) }
    {
        Cell {
            kind: u32::from(book.kinds[i]),
            inside: u32::from(book.insides[i]),
            words: book.numbers[i],
        }
    }
}

// Lays an operand out, from k on.
pub fn lay(book: &mut Book, k: usize, entries: &[Stored])
    requires { Room (seen book.old) (k + length entries.now) }
    ensures same_room { SameRoom (seen book.old) (seen book.new) }
    ensures same_slices { slices book.new ≡ slices book.old }
{
    for (i, entry) in entries.iter().enumerate() {
        book.kinds[k + i] = entry[0];
        book.insides[k + i] = entry[4];
        book.numbers[k + i] = words(entry);
    }
}

// Whether these entries are the first cells.
fn same_cells(book: &Cells, entries: &[Stored]) -> bool
    requires { Room (shown book.now) (length entries.now) }
{
    for (i, entry) in entries.iter().enumerate() {
        if Cell::at(book, i) != Cell::stored(entry) {
            return false;
        }
    }
    true
}

impl<'a> Case<'a> {
    // Whether an answer is what is stored: the same number, and the same cells.
    pub fn is_given(self, book: &Cells, formed: Result<usize, Refusal>) -> bool
        requires { Room (shown book.now) (length self.result.now) }
    {
        match formed {
            Ok(n) => self.number == 0 && n == self.result.len() && same_cells(book, self.result),
            Err(r) => limits::refusal_no(r) == u64::from(self.number),
        }
    }
}
