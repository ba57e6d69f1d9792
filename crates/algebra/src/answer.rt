// What is made of a sum that lies in a book of three arrays: a sum or a list, written where there is room for the whole of it, or a refusal. A refusal changes no byte.
// Where a derivative or an integral is taken it is formed in the SUM_ENTRIES places from w on, and as many behind them are working places.
ghost use Rattle.std.specs.Prelude.{◌≡◌, ◌+◌, ◌≤◌};
ghost use Rattle.limits.specs.Limits.{sum_entries, sum_levels};
ghost use Rattle.cells.specs.Contract.Book.{seen, shown, Room, slices};
ghost use Rattle.sums.specs.Contract.Lies.{Held, OfOne};
ghost use Rattle.arithmetic.specs.Add.Contract.Operands.{Source};
ghost use Rattle.formats.specs.Tree.{records_in};
ghost use Rattle.sums.specs.Entry.Encoding.{entries_in};
ghost use Rattle.writing.specs.Draft.Contract.Lying.{Answered};
ghost use Rattle.algebra.specs.Answer.Making.{of_sum, answer_of, Gives, answer_numbers, derive, integrate, invert};
ghost use Rattle.algebra.specs.Contract.Writers.{list_by, write_by, derive_and_write_by, integrate_and_write_by};

use cells::{Book, Cells};
use limits::Refusal;

// What an entry answers: so many entries or records written, or a refusal with its place.
#[derive(Clone, Copy)]
pub enum Answer {
    Done(usize),
    Refused(Refusal, usize),
}

// Which of the two writers writes a list: the Rust's, or the one whose lists mean what the sum says.
#[derive(Clone, Copy)]
pub enum Writer {
    AsRust,
    Faithful,
}

// Document 01's number, place, count and complex flag, and the pairs that reading multiplied.
#[derive(Clone, Copy)]
pub struct Numbers {
    pub number: u64,
    pub place: usize,
    pub count: usize,
    pub flag: bool,
    pub pairs: u64,
}

// The numbers of an answer.
pub fn answer_numbers(r: Answer) -> Numbers
    ensures { result ≡ answer_numbers r }
{
    match r {
        Answer::Done(written) => Numbers {
            number: 0,
            place: 0,
            count: written,
            flag: false,
            pairs: 0,
        },
        Answer::Refused(q, at) => Numbers {
            number: limits::refusal_no(q),
            place: at,
            count: 0,
            flag: false,
            pairs: 0,
        },
    }
}

// What follows reading has no place.
fn answer_of(w: Result<usize, Refusal>) -> Answer
    ensures { result ≡ answer_of w }
{
    match w {
        Ok(records) => Answer::Done(records),
        Err(q) => Answer::Refused(q, 0),
    }
}

// The sum itself, where there is room for it.
pub fn put_out(book: &Cells, i: usize, n: usize, out: &mut [u8]) -> Answer
    requires { (n ≤ sum_entries) × Held (shown book.now) i (i + n) sum_levels }
    ensures { OfOne (shown book.now) i (i + n) sum_levels (λ s. Gives entries_in (of_sum s) out.old out.new result) }
{
    let room = sums::bytes::count_entries(out);
    if room < n {
        return Answer::Refused(Refusal::OutputRoom, 0);
    }
    sums::bytes::put_sum(book, i, n, out);
    Answer::Done(n)
}

// Its derivative.
#[tactic(auto, unfolding(crate::specs::Answer::Making::derive))]
pub fn derive(book: &mut Book, i: usize, n: usize, w: usize, out: &mut [u8]) -> Answer
    requires { Source (seen book.old) i n w × Room (seen book.old) (w + (sum_entries + sum_entries)) }
    ensures of_one { OfOne (seen book.old) i (i + n) sum_levels (λ s. Gives entries_in (derive s) out.old out.new result) }
    ensures same_slices { slices book.new ≡ slices book.old }
{
    match calculus::derivative::expr_deriv(book, i, n, w) {
        Err(q) => Answer::Refused(q, 0),
        Ok(m) => put_out(&book.cells(), w, m, out),
    }
}

// Its integral.
#[tactic(auto, unfolding(crate::specs::Answer::Making::integrate))]
pub fn integrate(book: &mut Book, i: usize, n: usize, w: usize, out: &mut [u8]) -> Answer
    requires { Source (seen book.old) i n w × Room (seen book.old) (w + (sum_entries + sum_entries)) }
    ensures of_one { OfOne (seen book.old) i (i + n) sum_levels (λ s. Gives entries_in (integrate s) out.old out.new result) }
    ensures same_slices { slices book.new ≡ slices book.old }
{
    match calculus::integral::expr_integral(book, i, n, w) {
        Err(q) => Answer::Refused(q, 0),
        Ok(m) => put_out(&book.cells(), w, m, out),
    }
}

// The sum as a list, by either writer.
fn list_by(
    writer: Writer,
    book: &Cells,
    i: usize,
    n: usize,
    complex: bool,
    out: &mut [u8],
) -> Result<usize, Refusal>
    requires { (n ≤ sum_entries) × Held (shown book.now) i (i + n) sum_levels }
    ensures { OfOne (shown book.now) i (i + n) sum_levels (λ s. Answered out.old out.new result (list_by writer complex s)) }
{
    match writer {
        Writer::AsRust => writing::expr_to_node(book, i, n, complex, out),
        Writer::Faithful => { writing::faithful::expr_to_node(book, i, n, complex, out) }
    }
}

// The same, answered.
pub fn write_sum(
    writer: Writer,
    book: &Cells,
    i: usize,
    n: usize,
    complex: bool,
    out: &mut [u8],
) -> Answer
    requires { (n ≤ sum_entries) × Held (shown book.now) i (i + n) sum_levels }
    ensures { OfOne (shown book.now) i (i + n) sum_levels (λ s. Gives records_in (write_by writer complex s) out.old out.new result) }
{
    let wrote = list_by(writer, book, i, n, complex, out);
    answer_of(wrote)
}

// Its derivative as a list.
#[tactic(auto, unfolding(crate::specs::Answer::Making::derive_and_write, crate::specs::Answer::Making::derive_and_write_faithful))]
pub fn derive_and_write(
    writer: Writer,
    book: &mut Book,
    i: usize,
    n: usize,
    w: usize,
    complex: bool,
    out: &mut [u8],
) -> Answer
    requires { Source (seen book.old) i n w × Room (seen book.old) (w + (sum_entries + sum_entries)) }
    ensures of_one { OfOne (seen book.old) i (i + n) sum_levels (λ s. Gives records_in (derive_and_write_by writer complex s) out.old out.new result) }
    ensures same_slices { slices book.new ≡ slices book.old }
{
    match calculus::derivative::expr_deriv(book, i, n, w) {
        Err(q) => Answer::Refused(q, 0),
        Ok(m) => write_sum(writer, &book.cells(), w, m, complex, out),
    }
}

// Its integral as a list.
#[tactic(auto, unfolding(crate::specs::Answer::Making::integrate_and_write, crate::specs::Answer::Making::integrate_and_write_faithful))]
pub fn integrate_and_write(
    writer: Writer,
    book: &mut Book,
    i: usize,
    n: usize,
    w: usize,
    complex: bool,
    out: &mut [u8],
) -> Answer
    requires { Source (seen book.old) i n w × Room (seen book.old) (w + (sum_entries + sum_entries)) }
    ensures of_one { OfOne (seen book.old) i (i + n) sum_levels (λ s. Gives records_in (integrate_and_write_by writer complex s) out.old out.new result) }
    ensures same_slices { slices book.new ≡ slices book.old }
{
    match calculus::integral::expr_integral(book, i, n, w) {
        Err(q) => Answer::Refused(q, 0),
        Ok(m) => write_sum(writer, &book.cells(), w, m, complex, out),
    }
}

// The list that undoes it.
#[tactic(auto, unfolding(crate::specs::Answer::Making::invert))]
pub fn invert(book: &Cells, i: usize, n: usize, complex: bool, out: &mut [u8]) -> Answer
    requires { (n ≤ sum_entries) × Held (shown book.now) i (i + n) sum_levels }
    ensures { OfOne (shown book.now) i (i + n) sum_levels (λ s. Gives records_in (invert complex s) out.old out.new result) }
{
    let wrote = inverse::algebraic_inverse(book, i, n, complex, out);
    answer_of(wrote)
}
