// Replays stored answers of arithmetic on sums: standard input has operands and results in hex, and each operation has to give what is stored.
#![tactic(auto)]

use cases::Case;
use std::io::Read;

mod arith;
mod cases;
mod streams;
mod text;

// Every case of the bytes, in turn; the first few that do not agree are told.
fn replay(rt: &impl Print, bytes: &[u8]) {
    let mut cases = 0u64;
    let mut wrong = 0u64;
    let mut rest = bytes;
    while let Some((head, behind)) = rest.split_first_chunk::<5>() {
        let Some((case, behind)) = Case::split(head, behind) else {
            let _ = println!(rt; "cut short");
            return;
        };
        if !arith::agrees(case) {
            if wrong < 8 {
                let _ = println!(rt; "case {cases}");
            }
            wrong += 1;
        }
        cases += 1;
        rest = behind;
    }
    let agree = cases - wrong;
    let _ = println!(rt; "{cases} cases, {agree} agree");
}

// Reads the text, as much of it as fits, and replays its cases.
fn replay_from<R: Read>(rt: &impl Print, from: &mut R, text: &mut [u8]) {
    let n = streams::read_full(from, text);
    let m = text::decode(&mut text[..n]);
    replay(rt, &text[..m]);
}

// 600,000 bytes of text, in rows so that no proof has to count them one by one.
fn main(rt: HostRuntime) {
    let mut text = [[0u8; 1000]; 600];
    replay_from(&rt, &mut rt.stdin(), text.as_flattened_mut());
}
