// What is made of a list. It is read in a small arena first, since clearing the whole one takes longer than reading a short list; where there is no room in that, it is read
// again in the whole one. The two stand in functions of their own, so that the room that they take on the stack is not added up.
ghost use Rattle.std.specs.Prelude.{ℕ, ◌+◌, ◌-◌, ◌≤◌, ◌≡◌};
ghost use Rattle.algebra.specs.Answer.Making.{answered, Gives};
ghost use Rattle.algebra.specs.Contract.Lists.{list_held, made_by, room_by, Makes, unflagged, is_full_answer, Tries};
ghost use Rattle.algebra.specs.Entries.{inverse_of};
ghost use Rattle.algebra.specs.Reading.{read_list, flagged};
ghost use Rattle.arithmetic.specs.Add.Contract.Operands.{Source};
ghost use Rattle.cells.specs.Contract.Book.{seen, shown, Room, slices};
ghost use Rattle.formats.specs.Tree.{records_in};
ghost use Rattle.limits.specs.Limits.{sum_entries, sum_levels};
ghost use Rattle.modifiers.specs.Reading.{Read, done, refused_at};
ghost use Rattle.reading.specs.Contract.Data.{Reaches, DataAs};
ghost use Rattle.stack.specs.Contract.Arena.{slots, working, places, all_slices};
ghost use Rattle.sums.specs.Contract.Lies.{Held, OfOne};

use crate::ReadAnswer;
use crate::answer::{Answer, Writer};
use cells::{Book, Cells};
use limits::{LAST_REPLACED, Refusal};
use reading::env::AlgebraData;
use stack::slots::{ARENA, Arena, SMALL_ARENA, WORKING};

// What is made of the sum that a list stands for.
#[derive(Clone, Copy)]
pub enum Wanted {
    Sum,
    Derivative(Writer),
    Integral(Writer),
    Inverse,
}

// The sum that a list stands for, read in an arena of `top` places: 11 and 13 come first, over the whole list.
#[tactic(auto, unfolding(crate::specs::Contract::Lists::list_held))]
fn read_sum(list: &[u8], arena: &mut Arena, top: usize) -> AlgebraData
    requires { Reaches (slots arena.old) top }
    ensures data_as { DataAs result (seen arena.new.book) (list_held (places - top) list.now) }
    ensures same_slices { all_slices arena.new ≡ all_slices arena.old }
{
    match formats::rules::check(list) {
        Err(q) => AlgebraData::Refused(q, 0, false),
        Ok(()) => reading::env::nodes_expr(list, arena, top),
    }
}

// ---- of what was read

// A refusal of reading. 10, at place 0, replaces 1 to 9 where what was read doesn't count as handled.
fn refuse_inverse(q: Refusal, at: usize, handled: bool) -> Answer
    ensures { result ≡ answered (inverse_of (refused_at q at handled)) 0 }
{
    if handled {
        return Answer::Refused(q, at);
    }
    if limits::refusal_no(q) <= LAST_REPLACED {
        return Answer::Refused(Refusal::NotHandled, 0);
    }
    Answer::Refused(q, at)
}

// A refusal of reading, handed on.
fn refuse(w: Wanted, q: Refusal, at: usize, handled: bool) -> Answer
    ensures { result ≡ answered (made_by w (refused_at q at handled)) 0 }
{
    match w {
        Wanted::Sum => Answer::Refused(q, at),
        Wanted::Derivative(_) => Answer::Refused(q, at),
        Wanted::Integral(_) => Answer::Refused(q, at),
        Wanted::Inverse => refuse_inverse(q, at, handled),
    }
}

// The list that undoes the sum of the first n cells, where what was read counts as handled.
fn invert_read(book: &Cells, n: usize, complex: bool, handled: bool, out: &mut [u8]) -> Answer
    requires { (n ≤ sum_entries) × Held (shown book.now) working (working + n) sum_levels }
    ensures { OfOne (shown book.now) working (working + n) sum_levels
        (λ s. (pairs : ℕ) → Gives records_in (inverse_of (done s complex handled pairs)) out.old out.new result) }
{
    if !handled {
        return Answer::Refused(Refusal::NotHandled, 0);
    }
    crate::answer::invert(book, WORKING, n, complex, out)
}

// What is made of the sum of the first n cells.
fn make(
    w: Wanted,
    book: &mut Book,
    n: usize,
    complex: bool,
    handled: bool,
    out: &mut [u8],
) -> Answer
    requires { Source (seen book.old) working n 0 × Room (seen book.old) (0 + (sum_entries + sum_entries)) }
    ensures of_one { OfOne (seen book.old) working (working + n) sum_levels
        (λ s. (pairs : ℕ) → Gives (room_by w) (made_by w (done s complex handled pairs)) out.old out.new result) }
    ensures same_slices { slices book.new ≡ slices book.old }
{
    match w {
        Wanted::Sum => crate::answer::put_out(&book.cells(), WORKING, n, out),
        Wanted::Derivative(writer) => crate::answer::derive_and_write(
            writer, book, WORKING, n, 0, complex, out,
        ),
        Wanted::Integral(writer) => crate::answer::integrate_and_write(
            writer, book, WORKING, n, 0, complex, out,
        ),
        Wanted::Inverse => invert_read(&book.cells(), n, complex, handled, out),
    }
}

// An answer with the complex flag and the pairs, which a refusal does not have.
fn flagged(complex: bool, pairs: u64, a: Answer) -> ReadAnswer
    ensures { result ≡ flagged complex pairs a }
{
    match a {
        Answer::Done(n) => ReadAnswer::Sum(n, complex, pairs),
        Answer::Refused(q, at) => ReadAnswer::Refused(q, at),
    }
}

// The answer without them.
fn unflagged(a: ReadAnswer) -> Answer
    ensures { result ≡ unflagged a }
{
    match a {
        ReadAnswer::Sum(n, _, _) => Answer::Done(n),
        ReadAnswer::Refused(q, at) => Answer::Refused(q, at),
    }
}

// What is made of what was read.
fn make_of(w: Wanted, got: AlgebraData, book: &mut Book, out: &mut [u8]) -> ReadAnswer
    requires { (x : Read) × DataAs got (seen book.old) x }
    ensures data_as { (x : Read) → DataAs got (seen book.old) x → Makes w x out.old out.new result }
    ensures same_slices { slices book.new ≡ slices book.old }
{
    match got {
        AlgebraData::Refused(q, at, handled) => flagged(false, 0, refuse(w, q, at, handled)),
        AlgebraData::Sum(n, complex, handled, pairs) => {
            let answer = make(w, book, n, complex, handled, out);
            flagged(complex, pairs, answer)
        }
    }
}

// ---- of a list

// What is made of a list that is read in the small arena.
fn make_in_small(w: Wanted, list: &[u8], out: &mut [u8]) -> ReadAnswer
    ensures { Tries w list.now out.old out.new result }
{
    let mut kinds = [0u8; SMALL_ARENA];
    let mut insides = [0u8; SMALL_ARENA];
    let mut numbers = [[0u64; 3]; SMALL_ARENA];
    let mut sizes = [0u8; SMALL_ARENA];
    let mut arena = Arena {
        book: Book {
            kinds: &mut kinds,
            insides: &mut insides,
            numbers: &mut numbers,
        },
        sizes: &mut sizes,
    };
    let data = read_sum(list, &mut arena, SMALL_ARENA);
    make_of(w, data, &mut arena.book, out)
}

// What is made of a list that is read in the whole arena.
fn make_in_whole(w: Wanted, list: &[u8], out: &mut [u8]) -> ReadAnswer
    ensures { Makes w (read_list list.now) out.old out.new result }
{
    let mut kinds = [0u8; ARENA];
    let mut insides = [0u8; ARENA];
    let mut numbers = [[0u64; 3]; ARENA];
    let mut sizes = [0u8; ARENA];
    let mut arena = Arena {
        book: Book {
            kinds: &mut kinds,
            insides: &mut insides,
            numbers: &mut numbers,
        },
        sizes: &mut sizes,
    };
    let data = read_sum(list, &mut arena, ARENA);
    make_of(w, data, &mut arena.book, out)
}

// Whether a first try was refused with 12. It may be for the small arena alone, or for a sum that is too large in any: so that 12 is never told, and the second try's is.
fn no_room(a: ReadAnswer) -> bool
    ensures { result ≡ is_full_answer a }
{
    match a {
        ReadAnswer::Sum(_, _, _) => false,
        ReadAnswer::Refused(q, _) => limits::refusal_no(q) == limits::refusal_no(Refusal::NoRoom),
    }
}

// What is made of a list: by the first try, or, where that is refused with 12, by the second.
pub fn make_flagged(w: Wanted, list: &[u8], out: &mut [u8]) -> ReadAnswer
    ensures { Makes w (read_list list.now) out.old out.new result }
{
    let tried = make_in_small(w, list, out);
    if no_room(tried) {
        return make_in_whole(w, list, out);
    }
    tried
}

// The same without the flag and the pairs.
pub fn make_list(w: Wanted, list: &[u8], out: &mut [u8]) -> Answer
    ensures { Gives (room_by w) (made_by w (read_list list.now)) out.old out.new result }
{
    let made = make_flagged(w, list, out);
    unflagged(made)
}
