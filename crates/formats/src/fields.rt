// Whether one record keeps the rules: what it does not use is zero, and it may stand where it stands.
ghost use Rattle.std.specs.Prelude.{◌≡◌, true, ◌+◌, ◌*◌, ◌≤◌, ◌<◌, length};
ghost use Rattle.limits.specs.Limits.{list_records, record_bytes};
ghost use Rattle.formats.specs.Names.{kind_of};
ghost use Rattle.formats.specs.Rules.{fields_ok, is_known};
ghost use Rattle.formats.specs.Tree.{rec_at};
ghost use Rattle.formats.specs.Contract.Measure.{Simple, may_stand};

use crate::record::{Kind, Record};
use limits::RECORD_BYTES;

// The first word of a record, from its lowest byte up: the kind, the code, then what a push and a primitive don't use.
const BYTE: u64 = 256;

const TWO_BYTES: u64 = BYTE * BYTE;

const REAL_PUSH: u64 = 1;

const PRIMITIVE: u64 = 5;

fn is_known(b: u8) -> bool
    ensures { result ≡ is_known (kind_of b) }
{
    crate::record::kind_of(b).is_some()
}

// Whether the kind is one of the listed, and what it does not use is zero: field by field.
fn each_field_ok(r: Record) -> bool
    ensures { result ≡ fields_ok r }
{
    let known = is_known(r.kind);
    let real = crate::record::is_a(r.kind, Kind::RealPush);
    let complex = crate::record::is_a(r.kind, Kind::ComplexPush);
    let primitive = crate::record::is_a(r.kind, Kind::Primitive);
    let modifier = crate::record::is_a(r.kind, Kind::Modifier);
    let body = crate::record::is_a(r.kind, Kind::Body);
    let run = crate::record::is_a(r.kind, Kind::Run);
    let custom = crate::record::is_a(r.kind, Kind::CustomInverse);
    known
        & (r.blank == 0)
        & (primitive | modifier | (r.code == 0))
        & (body | (r.args == 0))
        & (modifier | body | run | custom | (r.inside == 0))
        & (real | complex | (r.re == 0))
        & (complex | (r.im == 0))
}

// The same, quickly for modifiers and bodies, which hold most of what is inside others.
pub fn fields_ok(r: Record) -> bool
    ensures { result ≡ fields_ok r }
{
    if crate::record::is_a(r.kind, Kind::Modifier) {
        return (r.blank == 0) & (r.args == 0) & (r.re == 0) & (r.im == 0);
    }
    if crate::record::is_a(r.kind, Kind::Body) {
        return (r.blank == 0) & (r.code == 0) & (r.re == 0) & (r.im == 0);
    }
    each_field_ok(r)
}

// Whether the record at place `i` is a push of a real number or a primitive, and nothing else is set, by its three words. Most records are.
pub fn is_simple(list: &[u8], i: usize) -> bool
    requires { record_bytes * i + record_bytes ≤ length list.now }
    ensures { result ≡ true → Simple (rec_at list.now i) }
{
    let at = RECORD_BYTES * i;
    let head = crate::record::eight(list, at);
    let re = crate::record::eight(list, at + 8);
    let im = crate::record::eight(list, at + 16);
    let push = head == REAL_PUSH;
    let primitive = (head % BYTE == PRIMITIVE) & (head < TWO_BYTES) & (re == 0);
    (push | primitive) & (im == 0)
}

// Whether the record at `at` may stand in a stretch that ends at `to`, of bodies or of others.
pub fn may_stand(r: Record, at: usize, to: usize, bodies: bool) -> bool
    requires { (at < to) × (to ≤ list_records) × (r.inside < 4294967296) }
    ensures { result ≡ may_stand r at to bodies }
{
    let next = at + 1 + r.inside as usize;
    let body = crate::record::is_a(r.kind, Kind::Body);
    fields_ok(r) & (body == bodies) & (next <= to)
}
