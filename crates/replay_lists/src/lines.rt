// The lines of a text: an input is held, and the answers after it are replayed on it.
ghost use Rattle.std.specs.Prelude.{◌≤◌, length};

use crate::calls::Call;
use crate::count::Tally;
use crate::entries::{Answer, Entry, Form, Keyword};
use crate::text::Parts;
use crate::{at_x, entries};

// The input that the answers are about, and the room for one.
#[derive(Drop)]
pub struct Held<'a> {
    what: Option<(Form, usize)>,
    bytes: &'a mut [u8],
}

impl<'a> Held<'a> {
    pub fn new(bytes: &'a mut [u8]) -> Held<'a> {
        Held { what: None, bytes }
    }

    // The input that a line has; none where the line is broken.
    fn set(&mut self, form: Form, parts: Parts) -> Option<()> {
        self.what = None;
        let n = parts.decode(form.unit(), self.bytes)?;
        self.what = Some((form, n));
        Some(())
    }

    // The input, where it is of this form.
    fn get(&self, form: Form) -> Option<&[u8]> {
        match self.what {
            Some((held, n)) if held == form => self.bytes.get(..n),
            _ => None,
        }
    }
}

// The calls that a line stores the answer of; some answers have a flag and the pairs behind the place. What they are to write goes into `want`.
fn replay<R: Print>(
    tally: &mut Tally<R>,
    entry: Entry,
    held: &Held,
    mut parts: Parts,
    want: &mut [u8],
) -> Option<()> {
    let input = held.get(entry.takes())?;
    let mut answer = Answer::refusal(parts.number()?, parts.number()?);
    if entry.tells_flag() {
        answer.flag = parts.number()?;
        answer.pairs = parts.number()?;
    }
    let unit = entry.writes().unit();
    let m = parts.decode(unit, want)?;
    answer.count = (m / unit) as u64;
    let call = Call {
        entry,
        input,
        answer,
        want: &want[..m],
    };
    call.replay(tally)
}

// One line that has a keyword; none where it is broken.
fn run_keyword<R: Print>(
    tally: &mut Tally<R>,
    keyword: Keyword,
    held: &mut Held,
    parts: Parts,
    want: &mut [u8],
) -> Option<()> {
    match keyword {
        Keyword::Input(form) => {
            held.set(form, parts)?;
            tally.held(form);
            Some(())
        }
        Keyword::At(form) => at_x::replay(tally, form, held.get(form)?, parts),
        Keyword::Answer(entry) => replay(tally, entry, held, parts, want),
    }
}

fn run<R: Print>(tally: &mut Tally<R>, line: &[u8], held: &mut Held, want: &mut [u8]) {
    tally.start_line();
    let Some((keyword, parts)) = entries::keyword_of(line) else {
        tally.skipped.note();
        return;
    };
    if run_keyword(tally, keyword, held, parts, want).is_none() {
        tally.broken.note();
    }
}

// Every whole line: how many bytes are left behind them.
pub fn run_all<R: Print>(
    tally: &mut Tally<R>,
    text: &[u8],
    held: &mut Held,
    want: &mut [u8],
) -> usize
    ensures { result ≤ length text.now }
{
    let mut rest = text;
    while let Some(n) = rest.iter().position(|b| *b == b'\n') {
        run(tally, &rest[..n], held, want);
        rest = &rest[n + 1..];
    }
    rest.len()
}
