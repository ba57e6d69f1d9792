// Complex numbers as the algebra uses them: the Rust's operations in the Rust's order, each rounded once.
ghost use Rattle.std.specs.Prelude.{◌≡◌};
ghost use Rattle.numbers.specs.Complex.Arith.{complex, zero, one, imaginary, plus, minus, negated, times, times_real, over, over_real, real_over, same, cmp_complex, is_real, all_finite, abs_above_one};

use std::cmp::Ordering;

// A coefficient: re + im * i. The Rust's ==: -0 is equal to 0.
#[derive(Clone, Copy, PartialEq)]
pub struct Complex {
    pub re: f64,
    pub im: f64,
}

impl Complex {
    pub const ZERO: Complex = Complex { re: 0.0, im: 0.0 };

    pub const ONE: Complex = Complex { re: 1.0, im: 0.0 };

    pub const I: Complex = Complex { re: 0.0, im: 1.0 };

    pub fn new(re: f64, im: f64) -> Complex
        ensures { result ≡ complex re im }
    {
        Complex { re, im }
    }

    pub fn add(self, rhs: Complex) -> Complex
        ensures { result ≡ plus self rhs }
    {
        Complex {
            re: self.re + rhs.re,
            im: self.im + rhs.im,
        }
    }

    pub fn sub(self, rhs: Complex) -> Complex
        ensures { result ≡ minus self rhs }
    {
        Complex {
            re: self.re - rhs.re,
            im: self.im - rhs.im,
        }
    }

    pub fn neg(self) -> Complex
        ensures { result ≡ negated self }
    {
        Complex {
            re: -self.re,
            im: -self.im,
        }
    }

    pub fn mul(self, rhs: Complex) -> Complex
        ensures { result ≡ times self rhs }
    {
        Complex {
            re: self.re * rhs.re - self.im * rhs.im,
            im: self.re * rhs.im + self.im * rhs.re,
        }
    }

    // By a real number.
    pub fn mul_real(self, rhs: f64) -> Complex
        ensures { result ≡ times_real self rhs }
    {
        Complex {
            re: self.re * rhs,
            im: self.im * rhs,
        }
    }

    pub fn div(self, rhs: Complex) -> Complex
        ensures { result ≡ over self rhs }
    {
        let denom = rhs.re * rhs.re + rhs.im * rhs.im;
        Complex {
            re: (self.re * rhs.re + self.im * rhs.im) / denom,
            im: (self.im * rhs.re - self.re * rhs.im) / denom,
        }
    }

    // By a real number.
    pub fn div_real(self, rhs: f64) -> Complex
        ensures { result ≡ over_real self rhs }
    {
        Complex {
            re: self.re / rhs,
            im: self.im / rhs,
        }
    }

    // A real number by a complex one.
    pub fn real_div(lhs: f64, rhs: Complex) -> Complex
        ensures { result ≡ real_over lhs rhs }
    {
        let denom = rhs.re * rhs.re + rhs.im * rhs.im;
        Complex {
            re: lhs * rhs.re / denom,
            im: -lhs * rhs.im / denom,
        }
    }

    pub fn is_zero(self) -> bool
        ensures { result ≡ same self zero }
    {
        self == Complex::ZERO
    }

    pub fn is_one(self) -> bool
        ensures { result ≡ same self one }
    {
        self == Complex::ONE
    }

    pub fn mul_i(self) -> Complex
        ensures { result ≡ times self imaginary }
    {
        self.mul(Complex::I)
    }

    // By re, then by im.
    pub fn cmp(self, rhs: Complex) -> Ordering
        ensures { result ≡ cmp_complex self rhs }
    {
        crate::cmp(self.re, rhs.re).then(crate::cmp(self.im, rhs.im))
    }

    // |im| < 2^-52, as the Rust's into_real asks.
    pub fn is_real(self) -> bool
        ensures { result ≡ is_real self }
    {
        crate::below_epsilon(self.im)
    }

    pub fn is_finite(self) -> bool
        ensures { result ≡ all_finite self }
    {
        crate::is_finite(self.re) & crate::is_finite(self.im)
    }

    // The Rust's abs() > 1, without the root.
    pub fn abs_above_one(self) -> bool
        ensures { result ≡ abs_above_one self }
    {
        1.0000000000000002 < self.re * self.re + self.im * self.im
    }
}
