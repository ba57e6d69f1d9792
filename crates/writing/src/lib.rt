// The list that a sum is written as, the Rust's expr_to_node: definitions, laws, and the code, in one pass over a sum that lies in a book of three arrays. The list so
// far is a draft in a buffer: a term is written at its end, and an On goes round all of it where it is needed again. A function's argument is written by the same
// loop, with a level less left.
#![tactic(auto)]

pub mod draft;
pub mod faithful;

ghost use Rattle.std.specs.Prelude.{◌+◌, ◌*◌, ◌≤◌, T, false, ◌≡◌};
ghost use Rattle.cells.specs.Contract.Book.{shown};
ghost use Rattle.limits.specs.Limits.{sum_entries, sum_levels};
ghost use Rattle.numbers.specs.Signs.{zero64};
ghost use Rattle.sums.specs.Contract.Lies.{Held, OfOne};
ghost use Rattle.writing.specs.Contract.Steps.{TermSpoken, TurnSpoken};
ghost use Rattle.writing.specs.Contract.Turns.{meets_x, with_coef, finished};
ghost use Rattle.writing.specs.Contract.Room.{Spacious, few_entries};
ghost use Rattle.writing.specs.Draft.Contract.Growing.{Ready, Drawn, Spoken};
ghost use Rattle.writing.specs.Draft.Contract.Lying.{Answered};
ghost use Rattle.writing.specs.Draft.Writing.{push, does, append, two};
ghost use Rattle.writing.specs.ToNodes.{form, constant, primitive_for, over, function_of, write_power, before, times_coef, plus, close, write, to_nodes};
ghost use Rattle.std.specs.Float.Ieee.Scale.{finite};

use crate::draft::Draft;
use cells::{Cells, Entry};
use formats::record::Primitive;
use limits::{RECORD_BYTES, Refusal, SUM_ENTRIES, SUM_LEVELS};
use numbers::complex::Complex;

// ---- two records at once

fn say_both(b: &mut [u8], d: Draft, p: Primitive, q: Primitive) -> Draft
    requires { Ready b.old d 0 2 }
    ensures { Drawn b.old b.new d result 0 2 (λ ns. append ns (two (does p) (does q))) }
{
    let e = crate::draft::say_primitive(b, d, p);
    crate::draft::say_primitive(b, e, q)
}

// A number, and a primitive that takes it.
fn say_with(b: &mut [u8], d: Draft, x: f64, p: Primitive) -> Draft
    requires { Ready b.old d 0 2 × T (finite x) }
    ensures { Drawn b.old b.new d result 0 2 (λ ns. append ns (two (push x) (does p))) }
{
    let e = crate::draft::say_real(b, d, x);
    crate::draft::say_primitive(b, e, p)
}

// ---- powers of x

// x times 0, plus the coefficient.
fn write_constant(b: &mut [u8], d: Draft, complex: bool, c: Complex) -> Result<Draft, Refusal>
    requires { Ready b.old d 0 4 }
    ensures { Spoken b.old b.new d result 0 4 (λ ns. write_power constant zero64 complex c ns) }
{
    let e = say_with(b, d, 0.0, Primitive::Mul);
    let f = crate::draft::say_number(b, e, complex, c)?;
    Ok(crate::draft::say_primitive(b, f, Primitive::Add))
}

fn write_power(b: &mut [u8], d: Draft, p: f64, complex: bool, c: Complex) -> Result<Draft, Refusal>
    requires { Ready b.old d 0 4 × T (finite p) }
    ensures { Spoken b.old b.new d result 0 4 (λ ns. write_power (form p) p complex c ns) }
{
    if p == 0.0 {
        return write_constant(b, d, complex, c);
    }
    if p == 0.5 {
        return Ok(crate::draft::say_primitive(b, d, Primitive::Sqrt));
    }
    if p == 1.0 {
        return Ok(d);
    }
    if p == 2.0 {
        return Ok(say_both(b, d, Primitive::Dup, Primitive::Mul));
    }
    Ok(say_with(b, d, p, Primitive::Pow))
}

// ---- functions of a sum

fn primitive_for(kind: u8) -> Primitive
    ensures { result ≡ primitive_for kind }
{
    if kind == sums::tree::EXP {
        return Primitive::Exp;
    }
    if kind == sums::tree::SIN {
        return Primitive::Sin;
    }
    if kind == sums::tree::COS {
        return Primitive::Cos;
    }
    if kind == sums::tree::SINH {
        return Primitive::SinH;
    }
    Primitive::CosH
}

// 1 over what was written; a coefficient that isn't 1 is still to come.
fn write_over(b: &mut [u8], d: Draft, unit: bool) -> Draft
    requires { Ready b.old d 0 3 }
    ensures { Drawn b.old b.new d result 0 3 (λ ns. append ns (over unit)) }
{
    if unit {
        return crate::draft::say_primitive(b, d, Primitive::Reciprocal);
    }
    let e = crate::draft::say_real(b, d, 1.0);
    say_both(b, e, Primitive::Flip, Primitive::Div)
}

// The function of what was written.
fn write_function(b: &mut [u8], d: Draft, kind: u8, base: f64, unit: bool) -> Draft
    requires { Ready b.old d 0 3 × T (finite base) }
    ensures { Drawn b.old b.new d result 0 3 (λ ns. append ns (function_of kind base unit)) }
{
    if kind == sums::tree::DIV {
        return write_over(b, d, unit);
    }
    if kind == sums::tree::LOG {
        return say_with(b, d, base, Primitive::Log);
    }
    crate::draft::say_primitive(b, d, primitive_for(kind))
}

// ---- around a term

// What was written is kept, and x is there again.
fn before(b: &mut [u8], d: Draft, first: bool) -> Draft
    requires { Ready b.old d 2 1 }
    ensures { Drawn b.old b.new d result 2 1 (λ ns. before first ns) }
{
    if first {
        return d;
    }
    if d.from == d.end {
        return crate::draft::say_primitive(b, d, Primitive::Dup);
    }
    crate::draft::wrap(b, d)
}

fn times_coef(
    b: &mut [u8],
    d: Draft,
    times: bool,
    complex: bool,
    c: Complex,
) -> Result<Draft, Refusal>
    requires { Ready b.old d 0 2 }
    ensures { Spoken b.old b.new d result 0 2 (λ ns. times_coef times complex c ns) }
{
    if !times {
        return Ok(d);
    }
    let e = crate::draft::say_number(b, d, complex, c)?;
    Ok(crate::draft::say_primitive(b, e, Primitive::Mul))
}

fn plus(b: &mut [u8], d: Draft, first: bool) -> Draft
    requires { Ready b.old d 0 1 }
    ensures { Drawn b.old b.new d result 0 1 (λ ns. plus first ns) }
{
    if first {
        return d;
    }
    crate::draft::say_primitive(b, d, Primitive::Add)
}

// Nothing may stay unwritten.
fn close(b: &mut [u8], d: Draft, identity: bool) -> Draft
    requires { Ready b.old d 0 2 }
    ensures { Drawn b.old b.new d result 0 2 (λ ns. close identity ns) }
{
    if d.from != d.end {
        return d;
    }
    if identity {
        return crate::draft::say_primitive(b, d, Primitive::Identity);
    }
    say_with(b, d, 0.0, Primitive::Mul)
}

// ---- what an entry asks for

fn meets_x(x: Entry) -> bool
    requires { T (finite x.num) }
    ensures { result ≡ meets_x x }
{
    !x.coef.is_zero() & ((x.kind == sums::tree::X) & (x.num == 1.0))
}

fn with_coef(x: Entry) -> bool
    ensures { result ≡ with_coef x }
{
    !x.coef.is_one() & !((x.kind == sums::tree::X) & (x.num == 0.0))
}

// ---- a sum

// Times the coefficient, and plus what was written before.
fn finish(b: &mut [u8], d: Draft, x: Entry, complex: bool, first: bool) -> Result<Draft, Refusal>
    requires { Ready b.old d 0 3 }
    ensures { Spoken b.old b.new d result 0 3 (λ ns. finished complex first x ns) }
{
    let e = times_coef(b, d, with_coef(x), complex, x.coef)?;
    Ok(plus(b, e, first))
}

// The term of the entry x, whose inside lies from i on.
#[cycle(write_sum_write_term_write_turn)]
fn write_term(
    book: &Cells,
    x: Entry,
    i: usize,
    complex: bool,
    left: usize,
    b: &mut [u8],
    d: Draft,
) -> Result<Draft, Refusal>
    requires { Held (shown book.now) i (i + x.inside) left × Ready b.old d (2 * x.inside) (9 * x.inside + 5) × T (finite x.num) }
    ensures { OfOne (shown book.now) i (i + x.inside) left (λ t. TermSpoken complex x t b.old b.new d result) }
{
    if x.kind == sums::tree::X {
        return write_power(b, d, x.num, complex, x.coef);
    }
    let e = write_sum(book, i, x.inside as usize, complex, left, b, d)?;
    Ok(write_function(b, e, x.kind, x.num, x.coef.is_one()))
}

// One turn: the entry x, whose inside lies from i on.
#[cycle(write_sum_write_term_write_turn)]
fn write_turn(
    book: &Cells,
    x: Entry,
    i: usize,
    complex: bool,
    identity: bool,
    left: usize,
    b: &mut [u8],
    d: Draft,
) -> Result<Draft, Refusal>
    requires { Held (shown book.now) i (i + x.inside) left × Ready b.old d (2 * x.inside + 2) (9 * x.inside + 9) × T (finite x.num) }
    ensures { OfOne (shown book.now) i (i + x.inside) left (λ t. TurnSpoken complex identity x t b.old b.new d result) }
{
    if x.coef.is_zero() {
        return Ok(d);
    }
    let first = !identity & (d.from == d.end);
    let e = before(b, d, first);
    let f = write_term(book, x, i, complex, left, b, e)?;
    finish(b, f, x, complex, first)
}

// The sum of m cells from j on, after what was written. `identity` says that x was met and nothing written for it.
#[cycle(write_sum_write_term_write_turn)]
fn write_sum(
    book: &Cells,
    j: usize,
    m: usize,
    complex: bool,
    left: usize,
    b: &mut [u8],
    d: Draft,
) -> Result<Draft, Refusal>
    requires { Held (shown book.now) j (j + m) left × Ready b.old d (2 * m) (9 * m + 2) }
    ensures { OfOne (shown book.now) j (j + m) left (λ s. Spoken b.old b.new d result (2 * m) (9 * m + 2) (λ ns. write complex s false ns)) }
{
    let mut q = j;
    let mut identity = false;
    let mut draft = d;
    while q < j + m {
        let x = book.load(q);
        draft = write_turn(book, x, q + 1, complex, identity, left - 1, b, draft)?;
        identity = identity | meets_x(x);
        q = q + 1 + x.inside as usize;
    }
    Ok(close(b, draft, identity))
}

// ---- the entry

// An entry of a sum takes at most two places in front of what was written and nine behind it; a sum that nothing is written for takes two.
const FRONT: usize = 2 * SUM_ENTRIES;

const DRAFT_RECORDS: usize = FRONT + 9 * SUM_ENTRIES + 2;

// Most sums are short, and clearing room for the longest takes more time than writing them.
const FEW_ENTRIES: usize = 16;

const FEW_FRONT: usize = 2 * FEW_ENTRIES;

const FEW_RECORDS: usize = FEW_FRONT + 9 * FEW_ENTRIES + 2;

// The sum of m cells from j on, written into a draft that begins at the place `front` of b.
fn write_in(
    book: &Cells,
    j: usize,
    m: usize,
    complex: bool,
    b: &mut [u8],
    front: usize,
    out: &mut [u8],
) -> Result<usize, Refusal>
    requires { Held (shown book.now) j (j + m) sum_levels × Spacious b.old front m }
    ensures { OfOne (shown book.now) j (j + m) sum_levels (λ s. Answered out.old out.new result (to_nodes complex s)) }
{
    let d = Draft {
        from: front,
        end: front,
    };
    let s = write_sum(book, j, m, complex, SUM_LEVELS, b, d);
    crate::draft::answer(b, s, out)
}

// A sum of few entries.
fn write_few(
    book: &Cells,
    j: usize,
    m: usize,
    complex: bool,
    out: &mut [u8],
) -> Result<usize, Refusal>
    requires { Held (shown book.now) j (j + m) sum_levels × (m ≤ few_entries) }
    ensures { OfOne (shown book.now) j (j + m) sum_levels (λ s. Answered out.old out.new result (to_nodes complex s)) }
{
    let mut b = [0u8; RECORD_BYTES * FEW_RECORDS];
    write_in(book, j, m, complex, &mut b, FEW_FRONT, out)
}

// A sum of any size. The two drafts stand in functions of their own, so that the room that they take on the stack is not added up.
fn write_many(
    book: &Cells,
    j: usize,
    m: usize,
    complex: bool,
    out: &mut [u8],
) -> Result<usize, Refusal>
    requires { Held (shown book.now) j (j + m) sum_levels × (m ≤ sum_entries) }
    ensures { OfOne (shown book.now) j (j + m) sum_levels (λ s. Answered out.old out.new result (to_nodes complex s)) }
{
    let mut b = [0u8; RECORD_BYTES * DRAFT_RECORDS];
    write_in(book, j, m, complex, &mut b, FRONT, out)
}

// The sum of m cells from j on goes to the front of out as a list of records, or is refused: 15 where a number cannot be written, then 17 where there is no room.
pub fn expr_to_node(
    book: &Cells,
    j: usize,
    m: usize,
    complex: bool,
    out: &mut [u8],
) -> Result<usize, Refusal>
    requires { Held (shown book.now) j (j + m) sum_levels × (m ≤ sum_entries) }
    ensures { OfOne (shown book.now) j (j + m) sum_levels (λ s. Answered out.old out.new result (to_nodes complex s)) }
{
    if m <= FEW_ENTRIES {
        return write_few(book, j, m, complex, out);
    }
    write_many(book, j, m, complex, out)
}
