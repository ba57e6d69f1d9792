// The entries under test, each with its answer as a stored line has it.
ghost use Rattle.std.specs.Prelude.{◌≤◌};

use crate::count::Row;
use crate::text::Parts;
use algebra::answer::Numbers;
use limits::{ENTRY_BYTES, LIST_RECORDS, RECORD_BYTES};

// What an entry is handed, or writes.
#[derive(Clone, Copy, PartialEq, Eq)]
pub enum Form {
    List,
    Sum,
}

impl Form {
    // Bytes of a record or of an entry.
    pub fn unit(self) -> usize
        ensures { 1 ≤ result }
    {
        match self {
            Form::List => RECORD_BYTES,
            Form::Sum => ENTRY_BYTES,
        }
    }
}

// A writer with the complex flag that is handed over; `Back` is `read` of what `write` wrote.
#[derive(Clone, Copy)]
pub enum Entry {
    Read,
    Derive,
    Integrate,
    Write(bool),
    Derivative,
    Integral,
    Inverse,
    Back(bool),
    WriteFaithful(bool),
    DerivativeFaithful,
    IntegralFaithful,
}

// What a line is: an input, what is answered at a number of the input that is held, or an answer of an entry.
#[derive(Clone, Copy)]
pub enum Keyword {
    Input(Form),
    At(Form),
    Answer(Entry),
}

const KEYWORDS: [(&str, Keyword); 18] = [
    ("list", Keyword::Input(Form::List)),
    ("sum", Keyword::Input(Form::Sum)),
    ("run", Keyword::At(Form::List)),
    ("value", Keyword::At(Form::Sum)),
    ("read", Keyword::Answer(Entry::Read)),
    ("derive", Keyword::Answer(Entry::Derive)),
    ("integrate", Keyword::Answer(Entry::Integrate)),
    ("write 0", Keyword::Answer(Entry::Write(false))),
    ("write 1", Keyword::Answer(Entry::Write(true))),
    ("derivative", Keyword::Answer(Entry::Derivative)),
    ("integral", Keyword::Answer(Entry::Integral)),
    ("inverse", Keyword::Answer(Entry::Inverse)),
    ("back 0", Keyword::Answer(Entry::Back(false))),
    ("back 1", Keyword::Answer(Entry::Back(true))),
    (
        "write_faithful 0",
        Keyword::Answer(Entry::WriteFaithful(false)),
    ),
    (
        "write_faithful 1",
        Keyword::Answer(Entry::WriteFaithful(true)),
    ),
    (
        "derivative_faithful",
        Keyword::Answer(Entry::DerivativeFaithful),
    ),
    (
        "integral_faithful",
        Keyword::Answer(Entry::IntegralFaithful),
    ),
];

// The line's keyword and what is behind it; none of a line that is something else.
pub fn keyword_of(line: &[u8]) -> Option<(Keyword, Parts<'_>)> {
    KEYWORDS
        .iter()
        .find_map(|(word, k)| Some((*k, Parts::after(line, word)?)))
}

// Number, place, how many records or entries were written, the complex flag, and the pairs that reading multiplied. The flag is 0 or 1, but a line may have any number.
#[derive(Clone, Copy, PartialEq, Eq)]
pub struct Answer {
    pub number: u64,
    pub place: u64,
    pub count: u64,
    pub flag: u64,
    pub pairs: u64,
}

impl Answer {
    pub fn refusal(number: u64, place: u64) -> Answer {
        Answer {
            number,
            place,
            count: 0,
            flag: 0,
            pairs: 0,
        }
    }
}

impl From<Numbers> for Answer {
    fn from(n: Numbers) -> Answer {
        Answer {
            number: n.number,
            place: n.place as u64,
            count: n.count as u64,
            flag: u64::from(n.flag),
            pairs: n.pairs,
        }
    }
}

impl From<algebra::answer::Answer> for Answer {
    fn from(a: algebra::answer::Answer) -> Answer {
        algebra::answer::answer_numbers(a).into()
    }
}

// What `read` answers to the list that `write` writes of a sum; what `write` refuses, where it does.
fn back(sum: &[u8], complex: bool, out: &mut [u8]) -> Answer {
    let mut list = [0u8; LIST_RECORDS * RECORD_BYTES];
    let wrote = algebra::answer::answer_numbers(algebra::write(sum, complex, &mut list));
    if wrote.number != 0 {
        return wrote.into();
    }
    if LIST_RECORDS < wrote.count {
        return Answer::refusal(0, 0);
    }
    let n = wrote.count * RECORD_BYTES;
    algebra::read_numbers(algebra::read(&list[..n], out)).into()
}

impl Entry {
    // The row in which its calls are counted.
    pub fn row(self) -> Row {
        match self {
            Entry::Read => Row::Read,
            Entry::Derive => Row::Derive,
            Entry::Integrate => Row::Integrate,
            Entry::Write(_) => Row::Write,
            Entry::Derivative => Row::Derivative,
            Entry::Integral => Row::Integral,
            Entry::Inverse => Row::Inverse,
            Entry::Back(_) => Row::Back,
            Entry::WriteFaithful(_) => Row::WriteFaithful,
            Entry::DerivativeFaithful => Row::DerivativeFaithful,
            Entry::IntegralFaithful => Row::IntegralFaithful,
        }
    }

    // What it is handed.
    pub fn takes(self) -> Form {
        match self {
            Entry::Derive
            | Entry::Integrate
            | Entry::Write(_)
            | Entry::WriteFaithful(_)
            | Entry::Back(_) => Form::Sum,
            _ => Form::List,
        }
    }

    // What it writes.
    pub fn writes(self) -> Form {
        match self {
            Entry::Read | Entry::Derive | Entry::Integrate | Entry::Back(_) => Form::Sum,
            _ => Form::List,
        }
    }

    // Whether an answer has the complex flag and the pairs behind the place.
    pub fn tells_flag(self) -> bool {
        matches!(self, Entry::Read | Entry::Back(_))
    }

    pub fn call(self, input: &[u8], out: &mut [u8]) -> Answer {
        match self {
            Entry::Read => algebra::read_numbers(algebra::read(input, out)).into(),
            Entry::Derive => algebra::derive(input, out).into(),
            Entry::Integrate => algebra::integrate(input, out).into(),
            Entry::Write(complex) => algebra::write(input, complex, out).into(),
            Entry::Derivative => algebra::derivative(input, out).into(),
            Entry::Integral => algebra::integral(input, out).into(),
            Entry::Inverse => algebra::inverse(input, out).into(),
            Entry::Back(complex) => back(input, complex, out),
            Entry::WriteFaithful(complex) => algebra::write_faithful(input, complex, out).into(),
            Entry::DerivativeFaithful => algebra::derivative_faithful(input, out).into(),
            Entry::IntegralFaithful => algebra::integral_faithful(input, out).into(),
        }
    }
}
