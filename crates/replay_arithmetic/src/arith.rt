// One primitive on sums that are laid out: n cells from FIRST on, and m cells from SECOND on where it takes two. The result is formed from 0 on
// in the same book.
ghost use Rattle.std.specs.Prelude.{◌≡◌, true, ◌*◌, ◌≤◌, length};
ghost use Rattle.cells.specs.Contract.Book.{seen, shown, Room};
ghost use Rattle.replay_arithmetic.specs.Contract.Ready.{Ready};
ghost use Rattle.limits.specs.Limits.{sum_entries};

use crate::cases;
use crate::cases::Case;
use cells::{Book, Cells};
use limits::{SUM_ENTRIES, SUM_LEVELS};

// A case is run in a book of four sums: from 0 on its result is formed, with as many working places behind it, and then the operands lie.
const FIRST: usize = 2 * SUM_ENTRIES;

const SECOND: usize = 3 * SUM_ENTRIES;

const FOUR_SUMS: usize = 4 * SUM_ENTRIES;

// Whether the primitive takes one sum, or two where the second has entries, and leaves one.
fn takes(code: u8, m: usize) -> bool {
    let fits = match formats::table::taken(code) {
        1 => m == 0,
        2 => 0 < m,
        _ => false,
    };
    fits && formats::table::left(code) == 1
}

// Whether two good sums lie there, the first with an entry or more.
fn ready(book: &Cells, n: usize, m: usize) -> bool
    requires { Room (shown book.now) (4 * sum_entries) }
    ensures { result ≡ true → Ready (shown book.now) n m }
{
    0 < n
        && n <= SUM_ENTRIES
        && m <= SUM_ENTRIES
        && sums::good::good_sum(book, FIRST, n, SUM_LEVELS)
        && sums::good::good_sum(book, SECOND, m, SUM_LEVELS)
}

// Whether the operands are good, and the primitive gives of them what is stored.
fn is_given(case: Case, book: &mut Book) -> bool
    requires { Room (seen book.old) (4 * sum_entries) × (length case.result.now ≤ sum_entries) }
{
    let n = case.first.len();
    let m = case.second.len();
    if !takes(case.code, m) || !ready(&book.cells(), n, m) {
        return false;
    }
    let p = formats::record::primitive_of(case.code);
    let formed = if m == 0 {
        primitives::form_one(book, p, FIRST, n, 0)
    } else {
        primitives::form_two(book, p, FIRST, n, SECOND, m, 0).formed
    };
    case.is_given(&book.cells(), formed)
}

// Whether a case gives what is stored; none of more entries than a sum has does.
pub fn agrees(case: Case) -> bool {
    if SUM_ENTRIES < case.first.len()
        || SUM_ENTRIES < case.second.len()
        || SUM_ENTRIES < case.result.len()
    {
        return false;
    }
    let mut book = Book {
        kinds: &mut [0u8; FOUR_SUMS],
        insides: &mut [0u8; FOUR_SUMS],
        numbers: &mut [[0u64; 3]; FOUR_SUMS],
    };
    cases::lay(&mut book, FIRST, case.first);
    cases::lay(&mut book, SECOND, case.second);
    is_given(case, &mut book)
}
