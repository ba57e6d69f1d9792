// A list of records that is being written. It lies in a buffer, from one place up to another, and grows at both ends: a record is said after the last, and
// an On goes round everything so far. When it is whole it is handed over.
ghost use Rattle.std.specs.Prelude.{◌≡◌, ◌+◌, ◌*◌, ◌≤◌, ◌<◌, T, length};
ghost use Rattle.std.proofs.lemmas.List.Edits.{sets};
ghost use Rattle.std.specs.Float.Ieee.Scale.{finite};
ghost use Rattle.numbers.specs.Complex.Arith.{all_finite};
ghost use Rattle.formats.specs.Bytes.{part};
ghost use Rattle.formats.specs.Tree.{Nodes};
ghost use Rattle.writing.specs.Draft.Writing.{push, push_pair, does, on, body, append, one, wrapped, Written, wrote, number_record, can_write, number};
ghost use Rattle.writing.specs.Draft.Contract.Lying.{Lying, SaidAs, Answered};
ghost use Rattle.writing.specs.Draft.Contract.Growing.{Ready, Drawn, Spoken};

use formats::record::{Kind, Modifier, Primitive, Record};
use limits::{RECORD_BYTES, Refusal};
use numbers::complex::Complex;

// The places of the buffer that the list so far takes: from the first up to the end.
#[derive(Clone, Copy)]
pub struct Draft {
    pub from: usize,
    pub end: usize,
}

// ---- records

fn push(x: f64) -> Record
    requires { T (finite x) }
    ensures { result ≡ push x }
{
    Record {
        kind: formats::record::kind_no(Kind::RealPush),
        code: 0,
        args: 0,
        blank: 0,
        inside: 0,
        re: f64::to_bits(x),
        im: 0,
    }
}

fn push_pair(c: Complex) -> Record
    requires { T (all_finite c) }
    ensures { result ≡ push_pair c }
{
    Record {
        kind: formats::record::kind_no(Kind::ComplexPush),
        code: 0,
        args: 0,
        blank: 0,
        inside: 0,
        re: f64::to_bits(c.re),
        im: f64::to_bits(c.im),
    }
}

fn does(p: Primitive) -> Record
    ensures { result ≡ does p }
{
    Record {
        kind: formats::record::kind_no(Kind::Primitive),
        code: formats::record::primitive_no(p),
        args: 0,
        blank: 0,
        inside: 0,
        re: 0,
        im: 0,
    }
}

fn on(n: u32) -> Record
    ensures { result ≡ on n }
{
    Record {
        kind: formats::record::kind_no(Kind::Modifier),
        code: formats::record::modifier_no(Modifier::On),
        args: 0,
        blank: 0,
        inside: n,
        re: 0,
        im: 0,
    }
}

fn body(n: u32) -> Record
    ensures { result ≡ body n }
{
    Record {
        kind: formats::record::kind_no(Kind::Body),
        code: 0,
        args: 1,
        blank: 0,
        inside: n,
        re: 0,
        im: 0,
    }
}

// ---- saying

// The record after the last.
pub fn say(b: &mut [u8], d: Draft, r: Record) -> Draft
    requires { Ready b.old d 0 1 }
    ensures { Drawn b.old b.new d result 0 1 (λ ns. append ns (one r)) }
{
    let end = d.end;
    formats::record::put_record(b, end, r);
    Draft {
        from: d.from,
        end: end + 1,
    }
}

pub fn say_primitive(b: &mut [u8], d: Draft, p: Primitive) -> Draft
    requires { Ready b.old d 0 1 }
    ensures { Drawn b.old b.new d result 0 1 (λ ns. append ns (one (does p))) }
{
    say(b, d, does(p))
}

pub fn say_real(b: &mut [u8], d: Draft, x: f64) -> Draft
    requires { Ready b.old d 0 1 × T (finite x) }
    ensures { Drawn b.old b.new d result 0 1 (λ ns. append ns (one (push x))) }
{
    say(b, d, push(x))
}

fn can_write(complex: bool, c: Complex) -> bool
    ensures { result ≡ can_write complex c }
{
    if complex {
        return c.is_finite();
    }
    c.is_real() & numbers::is_finite(c.re)
}

fn number_record(complex: bool, c: Complex) -> Record
    requires { T (can_write complex c) }
    ensures { result ≡ number_record complex c }
{
    if complex { push_pair(c) } else { push(c.re) }
}

// A coefficient after the last, if it can be written.
pub fn say_number(b: &mut [u8], d: Draft, complex: bool, c: Complex) -> Result<Draft, Refusal>
    requires { Ready b.old d 0 1 }
    ensures { Spoken b.old b.new d result 0 1 (λ ns. number complex c ns) }
{
    if !can_write(complex, c) {
        return Err(Refusal::NotFinite);
    }
    let q = say(b, d, number_record(complex, c));
    Ok(q)
}

// Everything so far in the body of an On.
pub fn wrap(b: &mut [u8], d: Draft) -> Draft
    requires { Ready b.old d 2 0 }
    ensures { Drawn b.old b.new d result 2 0 (λ ns. wrapped ns) }
{
    let first = d.from - 2;
    let n = (d.end - d.from) as u32;
    formats::record::put_record(b, first, on(n + 1));
    formats::record::put_record(b, first + 1, body(n));
    Draft {
        from: first,
        end: d.end,
    }
}

// ---- handing over

// Copies the n bytes of b from `from` on to the front of out.
fn copy_out(b: &[u8], from: usize, n: usize, out: &mut [u8])
    requires { (from + n ≤ length b.now) × (n ≤ length out.old) }
    ensures { out.new ≡ sets out.old 0 (part from n b.now) }
{
    out[..n].copy_from_slice(&b[from..from + n]);
}

// The list goes to the front of out, if there is room for all of it.
pub fn hand_over(b: &[u8], d: Draft, out: &mut [u8]) -> Result<usize, Refusal>
    requires { (ns : Nodes) × Lying b.now d ns }
    ensures { (ns : Nodes) → Lying b.now d ns → Answered out.old out.new result (wrote ns) }
{
    let n = d.end - d.from;
    if formats::record::count_records(out) < n {
        return Err(Refusal::OutputRoom);
    }
    copy_out(b, RECORD_BYTES * d.from, RECORD_BYTES * n, out);
    Ok(n)
}

// A refusal, or the list that lies in b handed over.
pub fn answer(b: &[u8], s: Result<Draft, Refusal>, out: &mut [u8]) -> Result<usize, Refusal>
    requires { (w : Written) × SaidAs s b.now w }
    ensures { (w : Written) → SaidAs s b.now w → Answered out.old out.new result w }
{
    let d = s?;
    hand_over(b, d, out)
}
