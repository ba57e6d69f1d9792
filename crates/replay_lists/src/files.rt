// A file, piece by piece: what is left of a piece past its last whole line stands before the next.
use crate::count::Tally;
use crate::lines::Held;
use crate::{lines, streams};
use std::fs;
use std::io::Read;
use std::rt::Files;

// Every line of an open file. A loop over input has no measure, so its turns are counted: no run uses them up.
fn run_open<R: Print, F: Read>(
    tally: &mut Tally<R>,
    file: &mut F,
    text: &mut [u8],
    held: &mut Held,
    want: &mut [u8],
) {
    let mut had = 0usize;
    for _ in 0..u64::MAX {
        let got = streams::read_full(file, &mut text[had..]);
        if got == 0 {
            break;
        }
        let n = had + got;
        had = lines::run_all(tally, &text[..n], held, want);
        text.copy_within(n - had..n, 0);
    }
    // At the end of a file nothing is left: else it ends within a line, or a line has no room.
    if 0 < had {
        tally.cut_off.note();
    }
}

// Every line of the file of this name. The text has room for a line of 2,048 records in full.
pub fn run<'a, R: Files + Print>(rt: &R, name: &'a str, tally: &mut Tally<'a, R>) {
    let Ok(mut file) = fs::open(rt, name) else {
        tally.cut_off.note();
        return;
    };
    tally.start_file(name);
    let mut text = [0u8; 131072];
    let mut input = [0u8; 65536];
    let mut want = [0u8; 16384];
    let mut held = Held::new(&mut input);
    run_open(tally, &mut file, &mut text, &mut held, &mut want);
}
