// The derivative and the integral of a sum: definitions, laws, what both ask of one entry, and in the modules the code over a book of three arrays. The sum lies
// apart from twice the places of a sum from w on: the result is formed in the first SUM_ENTRIES of them, the others are to work in, and no other place is written.
#![tactic(auto)]

pub mod derivative;
pub mod integral;

ghost use Rattle.calculus.specs.Contract.Turned.{turned_kind, turned_how};
ghost use Rattle.calculus.specs.Derivative.{slope, vanishes, ln_of};
ghost use Rattle.std.specs.Prelude.{◌≡◌};

use numbers::complex::Complex;
use sums::tree::Merge;

// Bases are compared as numbers.
pub fn ln_of(base: f64) -> Option<f64>
    ensures { result ≡ ln_of base }
{
    if base == numbers::e() {
        return Some(1.0);
    }
    if base == 2.0 {
        return Some(numbers::ln_2());
    }
    if base == 10.0 {
        return Some(numbers::ln_10());
    }
    None
}

pub fn slope(p: f64, c: Complex) -> Complex
    ensures { result ≡ slope p c }
{
    c.mul_real(p)
}

// Whether a power of x is skipped.
pub fn vanishes(p: f64, c: Complex) -> bool
    ensures { result ≡ vanishes p c }
{
    slope(p, c).is_zero()
}

// The kind that the derivative of sin, cos, sinh or cosh is of, and the integral too.
pub fn turned_kind(kind: u8) -> u8
    ensures { result ≡ turned_kind kind }
{
    if kind == sums::tree::SIN {
        return sums::tree::COS;
    }
    if kind == sums::tree::COS {
        return sums::tree::SIN;
    }
    if kind == sums::tree::SINH {
        return sums::tree::COSH;
    }
    sums::tree::SINH
}

// The derivative of cos is taken away.
pub fn turned_how(kind: u8) -> Merge
    ensures { result ≡ turned_how kind }
{
    if kind == sums::tree::COS {
        Merge::Take
    } else {
        Merge::Add
    }
}
