// The arithmetic of terms: what becomes of two terms by their kinds, and of a coefficient on its way into another sum.
#![tactic(auto)]

pub mod add;
pub mod multiply;

ghost use Rattle.std.specs.Prelude.{◌≤◌, ◌≡◌};
ghost use Rattle.arithmetic.specs.Adding.{changed};
ghost use Rattle.arithmetic.specs.Outcomes.{product_code, quotient_code};

use numbers::complex::Complex;

// What becomes of a coefficient on its way into another sum.
#[derive(Clone, Copy)]
pub enum Change {
    Keep,
    Negate,
    Times(Complex),
}

pub fn change_coef(how: Change, c: Complex) -> Complex
    ensures { result ≡ changed how c }
{
    match how {
        Change::Keep => c,
        Change::Negate => c.neg(),
        Change::Times(by) => by.mul(c),
    }
}

// What a product of two terms is: none, powers added, or insides multiplied.
pub const NO_PRODUCT: u8 = 0;

pub const ADD_POWERS: u8 = 1;

pub const MUL_INSIDES: u8 = 2;

// What a quotient of two terms is: none, X by X, X by Div, X by another kind, or two of one kind.
pub const NO_QUOTIENT: u8 = 0;

pub const X_BY_X: u8 = 1;

pub const X_BY_DIV: u8 = 2;

pub const X_BY_OTHER: u8 = 3;

pub const ALIKE: u8 = 4;

// The left kind chooses the row, the right kind the place in it.
const PRODUCTS: [[u8; 8]; 8] = [
    [1, 0, 0, 0, 0, 0, 0, 0],
    [0, 2, 0, 0, 0, 0, 0, 0],
    [0, 0, 0, 0, 0, 0, 0, 0],
    [0, 0, 0, 0, 0, 0, 0, 0],
    [0, 0, 0, 0, 0, 0, 0, 0],
    [0, 0, 0, 0, 0, 0, 0, 0],
    [0, 0, 0, 0, 0, 0, 0, 0],
    [0, 0, 0, 0, 0, 0, 0, 0],
];

const QUOTIENTS: [[u8; 8]; 8] = [
    [1, 2, 3, 3, 3, 3, 3, 3],
    [0, 4, 0, 0, 0, 0, 0, 0],
    [0, 0, 4, 0, 0, 0, 0, 0],
    [0, 0, 0, 4, 0, 0, 0, 0],
    [0, 0, 0, 0, 4, 0, 0, 0],
    [0, 0, 0, 0, 0, 4, 0, 0],
    [0, 0, 0, 0, 0, 0, 4, 0],
    [0, 0, 0, 0, 0, 0, 0, 4],
];

pub fn product_code(k: u8, l: u8) -> u8
    requires { (1 ≤ k) × (k ≤ 8) × (1 ≤ l) × (l ≤ 8) }
    ensures { result ≡ product_code k l }
{
    let i = k as usize - 1;
    let j = l as usize - 1;
    PRODUCTS[i][j]
}

pub fn quotient_code(k: u8, l: u8) -> u8
    requires { (1 ≤ k) × (k ≤ 8) × (1 ≤ l) × (l ≤ 8) }
    ensures { result ≡ quotient_code k l }
{
    let i = k as usize - 1;
    let j = l as usize - 1;
    QUOTIENTS[i][j]
}
