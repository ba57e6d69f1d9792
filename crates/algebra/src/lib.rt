// The entries. None asks anything of its caller: every byte list gets a result or one refusal, and a refusal changes no output byte.
#![tactic(auto)]

pub mod answer;
pub mod lists;

ghost use Rattle.algebra.specs.Answer.Making.{OfBytes};
ghost use Rattle.algebra.specs.Contract.Writers.{write_by};
ghost use Rattle.algebra.specs.Reading.{read_numbers};
ghost use Rattle.formats.specs.Tree.{records_in};
ghost use Rattle.values.specs.ValueOf.{ValueOfBytes};
ghost use Rattle.algebra.specs.Replies.{Promised, of_read, of_answer, of_run, of_cost, of_value};
ghost use Rattle.std.specs.Prelude.{[], ◌≡◌};
ghost use Rattle.algebra.specs.Replies as entry;

use crate::answer::{Answer, Numbers, Writer};
use crate::lists::Wanted;
use cells::Book;
use limits::{Refusal, SUM_ENTRIES};
use running::{RunValue, Stopped};
use stack::slots::WORKING;

// What `read` answers: a sum of so many entries, with the complex flag and the pairs multiplied, or a refusal with its place.
#[derive(Clone, Copy)]
pub enum ReadAnswer {
    Sum(usize, bool, u64),
    Refused(Refusal, usize),
}

// The numbers of an answer.
pub fn read_numbers(r: ReadAnswer) -> Numbers
    ensures { result ≡ read_numbers r }
{
    match r {
        ReadAnswer::Sum(n, complex, pairs) => Numbers {
            number: 0,
            place: 0,
            count: n,
            flag: complex,
            pairs,
        },
        ReadAnswer::Refused(q, at) => Numbers {
            number: limits::refusal_no(q),
            place: at,
            count: 0,
            flag: false,
            pairs: 0,
        },
    }
}

// ---- of a list

// From a list to the sum that it stands for.
pub fn read(list: &[u8], out: &mut [u8]) -> ReadAnswer
    ensures { Promised entry.read list.now out.old out.new (of_read result) }
{
    crate::lists::make_flagged(Wanted::Sum, list, out)
}

// From a list to the list of its derivative.
#[tactic(auto, unfolding(crate::specs::Entries::derivative))]
pub fn derivative(list: &[u8], out: &mut [u8]) -> Answer
    ensures { Promised entry.derivative list.now out.old out.new (of_answer result) }
{
    crate::lists::make_list(Wanted::Derivative(Writer::AsRust), list, out)
}

// From a list to the list of its integral.
#[tactic(auto, unfolding(crate::specs::Entries::integral))]
pub fn integral(list: &[u8], out: &mut [u8]) -> Answer
    ensures { Promised entry.integral list.now out.old out.new (of_answer result) }
{
    crate::lists::make_list(Wanted::Integral(Writer::AsRust), list, out)
}

// From a list to a list that means what its derivative says.
#[tactic(auto, unfolding(crate::specs::Entries::derivative_faithful))]
pub fn derivative_faithful(list: &[u8], out: &mut [u8]) -> Answer
    ensures { Promised entry.derivative_faithful list.now out.old out.new (of_answer result) }
{
    crate::lists::make_list(Wanted::Derivative(Writer::Faithful), list, out)
}

// From a list to a list that means what its integral says.
#[tactic(auto, unfolding(crate::specs::Entries::integral_faithful))]
pub fn integral_faithful(list: &[u8], out: &mut [u8]) -> Answer
    ensures { Promised entry.integral_faithful list.now out.old out.new (of_answer result) }
{
    crate::lists::make_list(Wanted::Integral(Writer::Faithful), list, out)
}

// From a list to the list that undoes it.
#[tactic(auto, unfolding(crate::specs::Entries::inverse))]
pub fn inverse(list: &[u8], out: &mut [u8]) -> Answer
    ensures { Promised entry.inverse list.now out.old out.new (of_answer result) }
{
    crate::lists::make_list(Wanted::Inverse, list, out)
}

// ---- of a sum

// A sum that is handed over, and behind it the places in which its derivative or its integral is formed.
const SUM_PLACES: usize = SUM_ENTRIES + WORKING;

// The derivative of a sum that is handed over.
pub fn derive(sum: &[u8], out: &mut [u8]) -> Answer
    ensures { Promised entry.derive sum.now out.old out.new (of_answer result) }
{
    let mut kinds = [0u8; SUM_PLACES];
    let mut insides = [0u8; SUM_PLACES];
    let mut numbers = [[0u64; 3]; SUM_PLACES];
    let mut book = Book {
        kinds: &mut kinds,
        insides: &mut insides,
        numbers: &mut numbers,
    };
    let taken = sums::bytes::take_in(&mut book, sum);
    match taken {
        Err(q) => Answer::Refused(q, 0),
        Ok(n) => crate::answer::derive(&mut book, 0, n, SUM_ENTRIES, out),
    }
}

// The integral of a sum that is handed over.
pub fn integrate(sum: &[u8], out: &mut [u8]) -> Answer
    ensures { Promised entry.integrate sum.now out.old out.new (of_answer result) }
{
    let mut kinds = [0u8; SUM_PLACES];
    let mut insides = [0u8; SUM_PLACES];
    let mut numbers = [[0u64; 3]; SUM_PLACES];
    let mut book = Book {
        kinds: &mut kinds,
        insides: &mut insides,
        numbers: &mut numbers,
    };
    let taken = sums::bytes::take_in(&mut book, sum);
    match taken {
        Err(q) => Answer::Refused(q, 0),
        Ok(n) => crate::answer::integrate(&mut book, 0, n, SUM_ENTRIES, out),
    }
}

// A sum that is handed over, as a list, by either writer.
fn write_by(writer: Writer, sum: &[u8], complex: bool, out: &mut [u8]) -> Answer
    ensures { OfBytes records_in (write_by writer complex) sum.now out.old out.new result }
{
    let mut kinds = [0u8; SUM_PLACES];
    let mut insides = [0u8; SUM_PLACES];
    let mut numbers = [[0u64; 3]; SUM_PLACES];
    let mut book = Book {
        kinds: &mut kinds,
        insides: &mut insides,
        numbers: &mut numbers,
    };
    let taken = sums::bytes::take_in(&mut book, sum);
    match taken {
        Err(q) => Answer::Refused(q, 0),
        Ok(n) => crate::answer::write_sum(writer, &book.cells(), 0, n, complex, out),
    }
}

// A sum that is handed over, as a list.
pub fn write(sum: &[u8], complex: bool, out: &mut [u8]) -> Answer
    ensures { Promised (entry.write complex) sum.now out.old out.new (of_answer result) }
{
    write_by(Writer::AsRust, sum, complex, out)
}

// A sum that is handed over, as a list that means what the sum says.
pub fn write_faithful(sum: &[u8], complex: bool, out: &mut [u8]) -> Answer
    ensures { Promised (entry.write_faithful complex) sum.now out.old out.new (of_answer result) }
{
    write_by(Writer::Faithful, sum, complex, out)
}

// ---- of a sum and a number

// The value at x of a sum that is taken in. Nothing but the sum's own places is needed.
fn value_taken(sum: &[u8], x: f64) -> Result<f64, Refusal>
    ensures { ValueOfBytes sum.now x result }
{
    let mut kinds = [0u8; SUM_ENTRIES];
    let mut insides = [0u8; SUM_ENTRIES];
    let mut numbers = [[0u64; 3]; SUM_ENTRIES];
    let mut book = Book {
        kinds: &mut kinds,
        insides: &mut insides,
        numbers: &mut numbers,
    };
    let taken = sums::bytes::take_in(&mut book, sum);
    let n = taken?;
    values::value_of(&book.cells(), n, x)
}

// The value at x of a sum that is handed over. No list is written, and a sum of powers of x is not taken in either.
pub fn value(sum: &[u8], x: f64) -> Result<f64, Refusal>
    ensures { Promised (entry.value x) sum.now [] [] (of_value result) }
{
    let quick = values::powers::quick_value(sum, x);
    match quick {
        Some(a) => a,
        None => value_taken(sum, x),
    }
}

// ---- of a list and a number

// The value of a list at x, with the records run and the most values there were at once.
pub fn run(list: &[u8], x: f64) -> Result<RunValue, Stopped>
    ensures { Promised (entry.run x) list.now [] [] (of_run result) }
{
    running::run::run(list, x)
}

// ---- of a list, before it is read

// How many records a reading of the list runs.
pub fn cost(list: &[u8]) -> Result<u64, Refusal>
    ensures { Promised entry.cost list.now [] [] (of_cost result) }
{
    reading::cost::cost(list)
}
