// Calls of an entry on one input: with just the room that its output needs, with more, with a byte less, and on the input less a byte.
ghost use Rattle.std.specs.Prelude.{◌≤◌};

use crate::count::Tally;
use crate::entries::{Answer, Entry};

// What the output is filled with before a call.
const UNTOUCHED: u8 = 0xA5;

// The most bytes that are lent to a call, no whole number of records or entries.
const AMPLE: usize = 16389;

pub const BAD_RECORD: u64 = 11;

const OUTPUT_ROOM: u64 = 17;

// An entry on an input, with the answer and the output that are wanted.
#[derive(Clone, Copy)]
pub struct Call<'a> {
    pub entry: Entry,
    pub input: &'a [u8],
    pub answer: Answer,
    pub want: &'a [u8],
}

// Whether the output is these bytes, and as it was past them.
fn holds(out: &[u8], want: &[u8]) -> bool {
    out.strip_prefix(want)
        .is_some_and(|rest| rest.iter().all(|b| *b == UNTOUCHED))
}

impl<'a> Call<'a> {
    // Whether the call gives this answer with so many bytes of room, and writes these bytes alone.
    fn is_given(self, room: usize) -> bool
        requires { room ≤ 16389 }
    {
        let mut out = [UNTOUCHED; 16400];
        let given = self.entry.call(self.input, &mut out[..room]);
        given == self.answer && holds(&out, self.want)
    }

    // Whether it is refused with this number at place 0, and writes nothing.
    fn is_refused(self, room: usize, number: u64) -> bool
        requires { room ≤ 16389 }
    {
        let refused = Call {
            answer: Answer::refusal(number, 0),
            want: b"",
            ..self
        };
        refused.is_given(room)
    }

    // Every call on the input; none where the output that is wanted has too many bytes.
    pub fn replay<R: Print>(self, tally: &mut Tally<R>) -> Option<()> {
        let row = self.entry.row();
        let n = self.want.len();
        if AMPLE < n {
            return None;
        }
        let goes = self.is_given(n) && self.is_given(AMPLE);
        tally.answer(row, goes, "answer");
        if 0 < n {
            tally.short_room(row, self.is_refused(n - 1, OUTPUT_ROOM));
        }
        tally.short_input(row, self.input, |short| {
            Call {
                input: short,
                ..self
            }
            .is_refused(AMPLE, BAD_RECORD)
        });
        Some(())
    }
}
