// Replays stored answers: lists and sums, each with the answers of the entries, in the form that vectors/README.md describes. `text` reads it, `count` counts what
// agrees.
#![tactic(auto)]

mod at_x;
mod calls;
pub mod count;
mod entries;
mod files;
mod lines;
mod streams;
pub mod text;

use crate::count::Tally;

// The files by name, one by one: a loop over an array of the names gets no proof, since the tally keeps a name for as long as it lives.
fn main(rt: HostRuntime) {
    let mut tally = Tally::new(&rt);
    files::run(&rt, "lists.txt", &mut tally);
    files::run(&rt, "sums.txt", &mut tally);
    files::run(&rt, "limits.txt", &mut tally);
    files::run(&rt, "faithful.txt", &mut tally);
    files::run(&rt, "runs.txt", &mut tally);
    files::run(&rt, "values.txt", &mut tally);
    tally.print();
}
