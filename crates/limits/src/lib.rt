// Document 01's limits and refusals by name. Nothing else in the code gives a limit or a refusal its number.
#![tactic(auto)]

ghost use Rattle.limits.specs.Refusals.{refusal_no};
ghost use Rattle.std.specs.Prelude.{◌≡◌};

// A sum, insides counted.
pub const SUM_ENTRIES: usize = 64;

// How many others an entry of a sum may be inside, and so how many may lie one inside the other.
pub const ENTRY_INSIDE: usize = 3;

pub const SUM_LEVELS: usize = ENTRY_INSIDE + 1;

// On the stack and held, while a list is read.
pub const STACK_ENTRIES: usize = 1024;

// A list that is handed over.
pub const LIST_RECORDS: usize = 2048;

// How many others a node of a list may be inside, and so how many may lie one inside the other.
pub const NODE_INSIDE: usize = 128;

pub const LIST_LEVELS: usize = NODE_INSIDE + 1;

// A node record and a sum entry as bytes.
pub const RECORD_BYTES: usize = 24;

pub const ENTRY_BYTES: usize = 32;

// The highest whole power of a sum or a number that is worked out.
pub const HIGHEST_POWER: f64 = 64.0;

// On the runner's stack and held.
pub const RUN_VALUES: usize = 256;

// How many primitives have to be handled for a list to be undone, where no sum on the stack is complex.
pub const HANDLED_NEEDED: usize = 2;

// Where a list to be undone doesn't count as handled, the refusals of reading up to this number become NotHandled.
pub const LAST_REPLACED: u64 = 9;

// What a refusal is called; refusal_no gives its number.
#[derive(Clone, Copy, PartialEq, Eq)]
pub enum Refusal {
    TooManyVariables = 1,
    NotSupported = 2,
    NoOutput = 3,
    TooManyOutputs = 4,
    NonScalar = 5,
    NonReal = 6,
    TooComplex = 7,
    InterpreterBug = 8,
    NoInverse = 9,
    NotHandled = 10,
    BadRecord = 11,
    NoRoom = 12,
    TooDeep = 13,
    NeedsMath = 14,
    NotFinite = 15,
    BigPower = 16,
    OutputRoom = 17,
    PowerNotFinite = 18,
}

// The refusal's number in document 01's table.
pub fn refusal_no(r: Refusal) -> u64
    ensures { result ≡ refusal_no r }
{
    r as u64
}
