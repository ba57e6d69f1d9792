// What a sum is, and what can be refused. Sums themselves are trees in the definitions and stretches of arrays in the code.
ghost use Rattle.std.specs.Prelude.{◌≡◌};
ghost use Rattle.sums.specs.Tree.Map.{not_finite};

use limits::Refusal;

// The kinds of a term, as document 01 numbers them.
pub const X: u8 = 1;

pub const DIV: u8 = 2;

pub const LOG: u8 = 3;

pub const EXP: u8 = 4;

pub const SIN: u8 = 5;

pub const COS: u8 = 6;

pub const SINH: u8 = 7;

pub const COSH: u8 = 8;

// How a coefficient goes into the map: added to what the key has, taken from it, or stored in its place.
#[derive(Clone, Copy)]
pub enum Merge {
    Add,
    Take,
    Store,
}

// Why a term of this kind whose number isn't finite is refused: the power of an X has a refusal of its own.
pub fn not_finite(kind: u8) -> Refusal
    ensures { result ≡ not_finite kind }
{
    if kind == X {
        return Refusal::PowerNotFinite;
    }
    Refusal::NotFinite
}
