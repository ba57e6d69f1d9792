// Lists of node records, RECORD_BYTES each, numbers with the lowest byte first: their names, reading and writing them, and the laws of the rules that a list keeps.
ghost use Rattle.std.specs.Prelude.{◌≡◌, ◌+◌, ◌*◌, ◌%◌, ◌≤◌, ◌<◌, eqb, length};
ghost use Rattle.std.proofs.lemmas.List.Edits.{sets};
ghost use Rattle.limits.specs.Limits.{record_bytes};
ghost use Rattle.formats.specs.Names.{kind_no, kind_of, primitive_no, primitive_of, modifier_no, modifier_of};
ghost use Rattle.formats.specs.Bytes.{number, bytes};
ghost use Rattle.formats.specs.Tree.{rec_at, records_in, count, forest, Written};
ghost use Rattle.formats.specs.Contract.Walk.{Walkable};

use limits::RECORD_BYTES;

// What a record is.
#[derive(Clone, Copy, PartialEq, Eq)]
pub enum Kind {
    RealPush = 1,
    ComplexPush = 2,
    ArrayPush = 3,
    OtherPush = 4,
    Primitive = 5,
    Modifier = 6,
    Body = 7,
    Run = 8,
    CustomInverse = 9,
    Obverse = 10,
    NoNormal = 11,
    UnderMarker = 12,
    AnythingElse = 13,
}

// What the code of a primitive stands for. Max, SinH, CosH and Root are only written.
#[derive(Clone, Copy, PartialEq, Eq)]
pub enum Primitive {
    Identity = 1,
    Pop = 2,
    Dup = 3,
    Flip = 4,
    Neg = 5,
    Not = 6,
    Sqrt = 7,
    Add = 8,
    Sub = 9,
    Mul = 10,
    Div = 11,
    Pow = 12,
    Exp = 13,
    Sin = 14,
    Cos = 15,
    Reciprocal = 16,
    Complex = 17,
    Max = 18,
    SinH = 19,
    CosH = 20,
    Exp2 = 32,
    Exp10 = 33,
    Log = 34,
    Ln = 35,
    Log2 = 36,
    Log10 = 37,
    Over = 38,
    Root = 39,
    Unlisted = 0,
}

// What the code of a modifier stands for.
#[derive(Clone, Copy, PartialEq, Eq)]
pub enum Modifier {
    Dip = 1,
    Gap = 2,
    On = 3,
    By = 4,
    Both = 5,
    Bracket = 6,
    Fork = 7,
    Unlisted = 0,
}

#[derive(Clone, Copy)]
pub struct Record {
    pub kind: u8,
    pub code: u8,
    pub args: u8,
    pub blank: u8,
    pub inside: u32,
    pub re: u64,
    pub im: u64,
}

pub fn kind_no(k: Kind) -> u8
    ensures { result ≡ kind_no k }
{
    k as u8
}

#[tactic(auto, unfolding(crate::specs::Names::kind_of))]
pub fn kind_of(b: u8) -> Option<Kind>
    ensures { result ≡ kind_of b }
{
    match b {
        1 => Some(Kind::RealPush),
        2 => Some(Kind::ComplexPush),
        3 => Some(Kind::ArrayPush),
        4 => Some(Kind::OtherPush),
        5 => Some(Kind::Primitive),
        6 => Some(Kind::Modifier),
        7 => Some(Kind::Body),
        8 => Some(Kind::Run),
        9 => Some(Kind::CustomInverse),
        10 => Some(Kind::Obverse),
        11 => Some(Kind::NoNormal),
        12 => Some(Kind::UnderMarker),
        13 => Some(Kind::AnythingElse),
        _ => None,
    }
}

pub fn primitive_no(p: Primitive) -> u8
    ensures { result ≡ primitive_no p }
{
    p as u8
}

#[tactic(auto, unfolding(crate::specs::Names::primitive_of))]
pub fn primitive_of(code: u8) -> Primitive
    ensures { result ≡ primitive_of code }
{
    match code {
        1 => Primitive::Identity,
        2 => Primitive::Pop,
        3 => Primitive::Dup,
        4 => Primitive::Flip,
        5 => Primitive::Neg,
        6 => Primitive::Not,
        7 => Primitive::Sqrt,
        8 => Primitive::Add,
        9 => Primitive::Sub,
        10 => Primitive::Mul,
        11 => Primitive::Div,
        12 => Primitive::Pow,
        13 => Primitive::Exp,
        14 => Primitive::Sin,
        15 => Primitive::Cos,
        16 => Primitive::Reciprocal,
        17 => Primitive::Complex,
        18 => Primitive::Max,
        19 => Primitive::SinH,
        20 => Primitive::CosH,
        32 => Primitive::Exp2,
        33 => Primitive::Exp10,
        34 => Primitive::Log,
        35 => Primitive::Ln,
        36 => Primitive::Log2,
        37 => Primitive::Log10,
        38 => Primitive::Over,
        39 => Primitive::Root,
        _ => Primitive::Unlisted,
    }
}

pub fn modifier_no(m: Modifier) -> u8
    ensures { result ≡ modifier_no m }
{
    m as u8
}

#[tactic(auto, unfolding(crate::specs::Names::modifier_of))]
pub fn modifier_of(code: u8) -> Modifier
    ensures { result ≡ modifier_of code }
{
    match code {
        1 => Modifier::Dip,
        2 => Modifier::Gap,
        3 => Modifier::On,
        4 => Modifier::By,
        5 => Modifier::Both,
        6 => Modifier::Bracket,
        7 => Modifier::Fork,
        _ => Modifier::Unlisted,
    }
}

// The number in the four bytes at `at`.
pub fn four(s: &[u8], at: usize) -> u32
    requires { at + 4 ≤ length s.now }
    ensures { (result ≡ number 4 s.now at) × (result < 4294967296) }
{
    u32::from_le_bytes([s[at], s[at + 1], s[at + 2], s[at + 3]])
}

// The number in the eight bytes at `at`.
pub fn eight(s: &[u8], at: usize) -> u64
    requires { at + 8 ≤ length s.now }
    ensures { result ≡ number 8 s.now at }
{
    u64::from_le_bytes([
        s[at],
        s[at + 1],
        s[at + 2],
        s[at + 3],
        s[at + 4],
        s[at + 5],
        s[at + 6],
        s[at + 7],
    ])
}

// Writes a number's lowest four bytes at `at`.
pub fn put_four(out: &mut [u8], at: usize, v: u64)
    requires { at + 4 ≤ length out.old }
    ensures { out.new ≡ sets out.old at (bytes 4 v) }
{
    let lowest = (v % 4294967296) as u32;
    out[at..at + 4].copy_from_slice(&lowest.to_le_bytes());
}

// Writes a number's eight bytes at `at`.
pub fn put_eight(out: &mut [u8], at: usize, v: u64)
    requires { at + 8 ≤ length out.old }
    ensures { out.new ≡ sets out.old at (bytes 8 v) }
{
    out[at..at + 8].copy_from_slice(&v.to_le_bytes());
}

// How many whole records there are, or there is room for.
pub fn count_records(list: &[u8]) -> usize
    ensures { result ≡ records_in list.now }
{
    list.len() / RECORD_BYTES
}

// The record at place `i`.
pub fn record_at(list: &[u8], i: usize) -> Record
    requires { record_bytes * i + record_bytes ≤ length list.now }
    ensures { (result ≡ rec_at list.now i) × (result.inside < 4294967296) }
{
    let at = RECORD_BYTES * i;
    let inside = four(list, at + 4);
    let re = eight(list, at + 8);
    let im = eight(list, at + 16);
    Record {
        kind: list[at],
        code: list[at + 1],
        args: list[at + 2],
        blank: list[at + 3],
        inside,
        re,
        im,
    }
}

// Writes the record at place `i`.
pub fn put_record(out: &mut [u8], i: usize, r: Record)
    requires { record_bytes * i + record_bytes ≤ length out.old }
    ensures { Written out.old out.new i r }
{
    let at = RECORD_BYTES * i;
    out[at] = r.kind;
    out[at + 1] = r.code;
    out[at + 2] = r.args;
    out[at + 3] = r.blank;
    put_four(out, at + 4, r.inside as u64);
    put_eight(out, at + 8, r.re);
    put_eight(out, at + 16, r.im);
}

// Whether a kind byte is that of the kind.
pub fn is_a(b: u8, k: Kind) -> bool
    ensures { result ≡ eqb b (kind_no k) }
{
    b == kind_no(k)
}

// How many nodes stand side by side from `from` up to `to`: of what is inside a modifier, its bodies.
pub fn count_nodes(list: &[u8], from: usize, to: usize) -> usize
    requires { Walkable list.now from to }
    ensures { result ≡ count (forest list.now from to) }
{
    let mut at = from;
    let mut n = 0;
    // A `while`, since what lies inside a record is passed over.
    while at < to {
        let r = record_at(list, at);
        at += 1 + r.inside as usize;
        n += 1;
    }
    n
}
