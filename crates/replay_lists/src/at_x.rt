// What is answered at the number that a line gives, of a list that is run or of a sum, and of the list or the sum less a byte.
use crate::calls::BAD_RECORD;
use crate::count::{Row, Tally};
use crate::entries::Form;
use crate::text::Parts;
use running::RunNumbers;
use values::ValueNumbers;

// The value's bits, none where it isn't finite. The value of a sum has no steps and no peak: they are 0.
#[derive(Clone, Copy, PartialEq, Eq)]
struct Answer {
    number: u64,
    place: u64,
    bits: Option<u64>,
    steps: u64,
    peak: u64,
}

impl Answer {
    // Nothing is told of what is refused at place 0.
    fn refusal(number: u64) -> Answer {
        Answer {
            number,
            place: 0,
            bits: Some(0),
            steps: 0,
            peak: 0,
        }
    }
}

impl From<RunNumbers> for Answer {
    fn from(n: RunNumbers) -> Answer {
        Answer {
            number: n.number,
            place: n.place as u64,
            bits: finite_bits(n.value),
            steps: n.steps as u64,
            peak: n.peak as u64,
        }
    }
}

// Its count, always 0, stands where a run has its steps.
impl From<ValueNumbers> for Answer {
    fn from(n: ValueNumbers) -> Answer {
        Answer {
            number: n.number,
            place: n.place as u64,
            bits: finite_bits(n.value),
            steps: n.count as u64,
            peak: 0,
        }
    }
}

// The number with these bits; infinity for every number that isn't finite, since a NaN has many patterns.
fn number_of(bits: u64) -> f64 {
    if numbers::finite_bits(bits) {
        f64::from_bits(bits)
    } else {
        f64::INFINITY
    }
}

// The bits of a finite number.
fn finite_bits(x: f64) -> Option<u64> {
    if numbers::is_finite(x) {
        Some(x.to_bits())
    } else {
        None
    }
}

impl Form {
    fn row(self) -> Row {
        match self {
            Form::List => Row::Run,
            Form::Sum => Row::Value,
        }
    }

    fn what(self) -> &'static str {
        match self {
            Form::List => "run",
            Form::Sum => "value",
        }
    }

    fn at(self, input: &[u8], x: f64) -> Answer {
        match self {
            Form::List => running::run_numbers(algebra::run(input, x)).into(),
            Form::Sum => values::value_numbers(algebra::value(input, x)).into(),
        }
    }
}

// Where an answer is asked for, as bits, and the answer, which ends the line.
fn stored(form: Form, mut parts: Parts) -> Option<(u64, Answer)> {
    let x = parts.bits()?;
    let mut answer = Answer::refusal(parts.number()?);
    if form == Form::List {
        answer.place = parts.number()?;
    }
    answer.bits = Some(parts.bits()?);
    if form == Form::List {
        answer.steps = parts.number()?;
        answer.peak = parts.number()?;
    }
    if parts.is_end() {
        Some((x, answer))
    } else {
        None
    }
}

// The answer that a line asks for.
pub fn replay<R: Print>(
    tally: &mut Tally<R>,
    form: Form,
    input: &[u8],
    parts: Parts,
) -> Option<()> {
    let (bits, want) = stored(form, parts)?;
    let x = number_of(bits);
    tally.answer(form.row(), form.at(input, x) == want, form.what());
    tally.short_input(form.row(), input, |short| {
        form.at(short, x) == Answer::refusal(BAD_RECORD)
    });
    Some(())
}
