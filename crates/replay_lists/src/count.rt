// What the replay of stored answers counts, and what it tells of it.
ghost use Rattle.std.specs.Prelude.{◌<◌};

use crate::entries::Form;
use std::fmt;

#[derive(Clone, Copy)]
pub struct Counter(u64);

impl Counter {
    const ZERO: Counter = Counter(0);

    pub fn note(&mut self) {
        self.0 = self.0.saturating_add(1);
    }
}

impl fmt::Display for Counter {
    fn fmt<W: fmt::Write>(&self, f: &mut fmt::Formatter<W>) -> fmt::Result {
        let n = self.0;
        write!(f, "{n}")
    }
}

// How many calls of a sort there were, and how many went as they should.
#[derive(Clone, Copy)]
struct Count {
    calls: Counter,
    good: Counter,
}

impl Count {
    const ZERO: Count = Count {
        calls: Counter::ZERO,
        good: Counter::ZERO,
    };

    fn note(&mut self, goes: bool) {
        self.calls.note();
        if goes {
            self.good.note();
        }
    }
}

// The calls that are counted together.
#[derive(Clone, Copy)]
pub enum Row {
    Read,
    Derive,
    Integrate,
    Write,
    Derivative,
    Integral,
    Inverse,
    Back,
    WriteFaithful,
    DerivativeFaithful,
    IntegralFaithful,
    Run,
    Value,
}

// In the order in which the summary tells of them.
const ROWS: [(Row, &str); 13] = [
    (Row::Read, "read"),
    (Row::Derive, "derive"),
    (Row::Integrate, "integrate"),
    (Row::Write, "write"),
    (Row::Derivative, "derivative"),
    (Row::Integral, "integral"),
    (Row::Inverse, "inverse"),
    (Row::Back, "back"),
    (Row::WriteFaithful, "write_faithful"),
    (Row::DerivativeFaithful, "derivative_faithful"),
    (Row::IntegralFaithful, "integral_faithful"),
    (Row::Run, "run"),
    (Row::Value, "value"),
];

impl Row {
    fn index(self) -> usize
        ensures { result < 13 }
    {
        self as usize
    }

    // A run and a value write no bytes, so there is no room that could be short.
    fn has_rooms(self) -> bool {
        !matches!(self, Row::Run | Row::Value)
    }
}

#[derive(Clone, Copy)]
struct Calls {
    answers: Count,
    short_rooms: Count,
    short_inputs: Count,
}

impl Calls {
    const ZERO: Calls = Calls {
        answers: Count::ZERO,
        short_rooms: Count::ZERO,
        short_inputs: Count::ZERO,
    };
}

// The counts, with what they are printed by, and the line that is at hand.
#[derive(Drop)]
pub struct Tally<'a, R> {
    rt: &'a R,
    name: &'a str,
    line: Counter,
    failed: Counter,
    rows: [Calls; 13],
    lists: Counter,
    sums: Counter,
    pub skipped: Counter,
    pub broken: Counter,
    pub cut_off: Counter,
}

impl<'a, R: Print> Tally<'a, R> {
    pub fn new(rt: &'a R) -> Tally<'a, R> {
        Tally {
            rt,
            name: "",
            line: Counter::ZERO,
            failed: Counter::ZERO,
            rows: [Calls::ZERO; 13],
            lists: Counter::ZERO,
            sums: Counter::ZERO,
            skipped: Counter::ZERO,
            broken: Counter::ZERO,
            cut_off: Counter::ZERO,
        }
    }

    // The lines that follow are this file's.
    pub fn start_file(&mut self, name: &'a str) {
        self.name = name;
        self.line = Counter::ZERO;
    }

    pub fn start_line(&mut self) {
        self.line.note();
    }

    // One more line is an input.
    pub fn held(&mut self, form: Form) {
        match form {
            Form::List => self.lists.note(),
            Form::Sum => self.sums.note(),
        }
    }

    // Reports a call that did not go as it should, if few did not before it.
    fn check(&mut self, goes: bool, what: &str) {
        if goes {
            return;
        }
        self.failed.note();
        if self.failed.0 <= 8 {
            let _ = println!(self.rt; "{}:{}: {what}", self.name, self.line);
        }
    }

    pub fn answer(&mut self, row: Row, goes: bool, what: &str) {
        self.rows[row.index()].answers.note(goes);
        self.check(goes, what);
    }

    pub fn short_room(&mut self, row: Row, goes: bool) {
        self.rows[row.index()].short_rooms.note(goes);
        self.check(goes, "room a byte short");
    }

    // The input less its last byte, which is to be refused.
    pub fn short_input<F: FnOnce(&[u8]) -> bool>(&mut self, row: Row, input: &[u8], is_refused: F)
        requires { F.IsAlwaysCallable is_refused }
    {
        let Some((_, short)) = input.split_last() else {
            return;
        };
        let goes = is_refused(short);
        self.rows[row.index()].short_inputs.note(goes);
        self.check(goes, "input a byte short");
    }

    fn print_row(&self, row: Row, name: &str) {
        let calls = self.rows[row.index()];
        let n = calls.answers;
        let _ = print!(self.rt; "{name}: {} answers, {} agree; ", n.calls, n.good);
        if row.has_rooms() {
            let n = calls.short_rooms;
            let _ = print!(self.rt; "{} rooms a byte short, {} refused; ", n.calls, n.good);
        }
        let n = calls.short_inputs;
        let _ = println!(self.rt; "{} inputs a byte short, {} refused", n.calls, n.good);
    }

    pub fn print(&self) {
        let _ = println!(self.rt; "{} lists, {} sums", self.lists, self.sums);
        for (row, name) in ROWS {
            self.print_row(row, name);
        }
        let _ = print!(self.rt; "{} lines skipped, {} broken, ", self.skipped, self.broken);
        let _ = println!(self.rt; "{} cut off or too long", self.cut_off);
    }
}
