// What the algebra asks of binary64 numbers, and the constants that it uses.
#![tactic(auto)]

pub mod complex;
pub mod radical;

ghost use Rattle.numbers.specs.Constants.{euler, ln2, ln10, epsilon};
ghost use Rattle.numbers.specs.Numbers.{is_whole, small_whole, below_epsilon};
ghost use Rattle.numbers.specs.Order.{cmp_num};
ghost use Rattle.std.specs.Float.Ieee.Scale.{finite};
ghost use Rattle.std.specs.Float.{binary64};
ghost use Rattle.std.specs.Float.Ieee.{of_bits};
ghost use Rattle.std.specs.Prelude.{◌≡◌};

use limits::HIGHEST_POWER;
use std::cmp::Ordering;

// The binary64 number nearest to e.
pub fn e() -> f64
    ensures { result ≡ euler }
{
    2.718281828459045
}

// The binary64 number nearest to the natural logarithm of 2.
pub fn ln_2() -> f64
    ensures { result ≡ ln2 }
{
    0.6931471805599453
}

// The binary64 number nearest to the natural logarithm of 10.
pub fn ln_10() -> f64
    ensures { result ≡ ln10 }
{
    2.302585092994046
}

// 2^-52, Rust's f64::EPSILON.
pub fn eps() -> f64
    ensures { result ≡ epsilon }
{
    2.220446049250313e-16
}

// Neither a NaN nor an infinity: only there is x - x zero.
pub fn is_finite(x: f64) -> bool
    ensures { result ≡ finite x }
{
    x - x == 0.0
}

// No NaN and no infinity: the exponent's bits are not all ones.
pub fn finite_bits(b: u64) -> bool
    ensures { result ≡ finite (of_bits binary64 b) }
{
    b % 9223372036854775808 / 4503599627370496 != 2047
}

// A whole number by value. From 2^52 up every finite number is one. Below that, adding 2^52 rounds to a whole number, and
// taking it away again is exact.
pub fn is_whole(x: f64) -> bool
    ensures { result ≡ is_whole x }
{
    let far = 4503599627370496.0;
    if (x <= -far) | (far <= x) {
        return is_finite(x);
    }
    if x < 0.0 {
        return (x - far) + far == x;
    }
    (x + far) - far == x
}

// The whole number from 0 to HIGHEST_POWER that x is, if it is one; -0 is 0.
pub fn small_whole(x: f64) -> Option<u64>
    ensures { result ≡ small_whole x }
{
    if x == 0.0 {
        return Some(0);
    }
    if is_whole(x) & (0.0 < x) & (x <= HIGHEST_POWER) {
        Some(x as u64)
    } else {
        None
    }
}

// |x| < 2^-52.
pub fn below_epsilon(x: f64) -> bool
    ensures { result ≡ below_epsilon x }
{
    (-eps() < x) & (x < eps())
}

// Two numbers by value, so -0 is equal to 0. A NaN counts as equal to everything; no sum holds one.
pub fn cmp(a: f64, b: f64) -> Ordering
    ensures { result ≡ cmp_num a b }
{
    if a < b {
        Ordering::Less
    } else if b < a {
        Ordering::Greater
    } else {
        Ordering::Equal
    }
}
