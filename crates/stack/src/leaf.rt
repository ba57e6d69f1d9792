// Every record that has no inside, as a step of reading, and what is counted of it. The stack lies in the arena behind the working places, up to `used`; from v on lies what
// is held.
ghost use Rattle.std.specs.Prelude.{◌≡◌, cond, ℕ, suc, ◌-◌, min, Some};
ghost use Rattle.limits.specs.Limits.{handled_needed};
ghost use Rattle.formats.specs.Names.{kind_of, primitive_of};
ghost use Rattle.formats.specs.Table.{row};
ghost use Rattle.stack.specs.Contract.Arena.{slots, places, all_slices};
ghost use Rattle.stack.specs.Contract.Agree.{Prepared, Acts};
ghost use Rattle.stack.specs.Contract.Acting.{Applies, why_not, leaf_act, handled_by, complex_by};

use crate::slots::Arena;
use crate::state::Stepped;
use formats::record::{Kind, Primitive, Record};
use limits::{HANDLED_NEEDED, Refusal};

// A primitive. One that is not read takes nothing.
fn apply(arena: &mut Arena, code: u8, v: usize, used: usize, handled: usize) -> Stepped
    requires { Prepared (slots arena.old) v used handled }
    ensures applies { Applies (slots arena.old) (slots arena.new) v used handled result (row (primitive_of code)).taken (primitive_of code) }
    ensures same_slices { all_slices arena.new ≡ all_slices arena.old }
{
    let taken = formats::table::taken(code);
    if taken == 0 {
        return crate::state::halt(
            Refusal::NotSupported,
            &arena.book.cells(),
            arena.sizes(),
            used,
            handled,
        );
    }
    if taken == 1 {
        return crate::one_operand::one_operand(arena, code, v, used, handled);
    }
    crate::two_operands::two_operands(arena, code, v, used, handled)
}

// Why a record of a kind is not run.
fn why_not(k: Kind) -> Refusal
    ensures { result ≡ why_not k }
{
    match k {
        Kind::ArrayPush => Refusal::NonScalar,
        Kind::OtherPush => Refusal::NonReal,
        Kind::NoNormal => Refusal::NoInverse,
        _ => Refusal::NotSupported,
    }
}

// A record of a known kind that has no inside.
fn leaf_of(k: Kind, r: Record, arena: &mut Arena, v: usize, used: usize, handled: usize) -> Stepped
    requires { Prepared (slots arena.old) v used handled }
    ensures acts { (at : ℕ) → Acts (slots arena.old) (slots arena.new) v used handled at result (λ st. leaf_act at r (Some k) (places - v) st) }
    ensures same_slices { all_slices arena.new ≡ all_slices arena.old }
{
    match k {
        Kind::RealPush => crate::state::push_number(arena, r.re, 0, v, used, handled),
        Kind::ComplexPush => crate::state::push_number(arena, r.re, r.im, v, used, handled),
        Kind::Primitive => apply(arena, r.code, v, used, handled),
        Kind::UnderMarker => Stepped::Went(used, 0),
        _ => crate::state::halt(
            why_not(k),
            &arena.book.cells(),
            arena.sizes(),
            used,
            handled,
        ),
    }
}

// A record that has no inside, but for what is counted of it.
pub fn leaf(r: Record, arena: &mut Arena, v: usize, used: usize, handled: usize) -> Stepped
    requires { Prepared (slots arena.old) v used handled }
    ensures acts { (at : ℕ) → Acts (slots arena.old) (slots arena.new) v used handled at result (λ st. leaf_act at r (kind_of r.kind) (places - v) st) }
    ensures same_slices { all_slices arena.new ≡ all_slices arena.old }
{
    match formats::record::kind_of(r.kind) {
        Some(k) => leaf_of(k, r, arena, v, used, handled),
        None => crate::state::halt(
            Refusal::NotSupported,
            &arena.book.cells(),
            arena.sizes(),
            used,
            handled,
        ),
    }
}

// Whether a record of a known kind, once it was run, counts as handled.
fn counts_as(k: Kind, r: Record) -> bool
    ensures { result ≡ handled_by r (Some k) }
{
    match k {
        Kind::Primitive => formats::table::handled(r.code),
        _ => false,
    }
}

// Whether a record, once it was run, counts as handled.
pub fn counts(r: Record) -> bool
    ensures { result ≡ handled_by r (kind_of r.kind) }
{
    match formats::record::kind_of(r.kind) {
        Some(k) => counts_as(k, r),
        None => false,
    }
}

// Whether a record of a known kind, once it was run, tells of a complex number.
fn flags_as(k: Kind, r: Record) -> bool
    ensures { result ≡ complex_by r (Some k) }
{
    match k {
        Kind::ComplexPush => true,
        Kind::Primitive => {
            let p = formats::record::primitive_of(r.code);
            formats::record::primitive_no(p) == formats::record::primitive_no(Primitive::Complex)
        }
        _ => false,
    }
}

// Whether a record, once it was run, tells of a complex number.
pub fn flags(r: Record) -> bool
    ensures { result ≡ complex_by r (kind_of r.kind) }
{
    match formats::record::kind_of(r.kind) {
        Some(k) => flags_as(k, r),
        None => false,
    }
}

// One more, counted to HANDLED_NEEDED.
pub fn count(n: usize, more: bool) -> usize
    ensures { result ≡ cond more (min handled_needed (suc n)) n }
{
    if !more {
        return n;
    }
    if n < HANDLED_NEEDED {
        n + 1
    } else {
        HANDLED_NEEDED
    }
}
