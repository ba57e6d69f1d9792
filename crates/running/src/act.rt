// One record on the stack of numbers: a number pushed, or a primitive applied.
ghost use Rattle.std.specs.Prelude.{◌≡◌, List, ◌+◌, ◌-◌, ◌≤◌, ◌<◌, length, Float, Ok};
ghost use Rattle.std.specs.Float.{binary64};
ghost use Rattle.std.specs.Float.Ieee.{of_bits};
ghost use Rattle.running.specs.Primitives.{times, power, square_root, work_of, of_one, of_two, leave, apply, act};
ghost use Rattle.running.specs.declared.Left.TheVariants.{One};
ghost use Rattle.running.specs.declared.Work.TheVariants.{OfOne, OfTwo};
ghost use Rattle.running.specs.Contract.Views.{stack_of, view_did, Under};

use crate::{Deed, Left, Pair, Single, Work};
use formats::record::{Primitive, Record};
use limits::Refusal;

// b multiplied by itself, n factors from the left.
fn multiplied(b: f64, n: u64) -> f64
    requires { 0 < n }
    ensures { result ≡ times (n - 1) b b }
{
    let mut p = b;
    for _ in 1..n {
        p *= b;
    }
    p
}

// b to the power a.
fn raise(b: f64, a: f64) -> Result<Left, Refusal>
    ensures { result ≡ power b a }
{
    let Some(n) = numbers::small_whole(a) else {
        return Err(Refusal::NeedsMath);
    };
    if n == 0 {
        return Ok(Left::One(1.0));
    }
    Ok(Left::One(multiplied(b, n)))
}

// The square root of a. Below zero there is none; what isn't finite stays as it is.
fn square_root(a: f64) -> Result<Left, Refusal>
    ensures { result ≡ square_root a }
{
    if a < 0.0 {
        return Err(Refusal::NeedsMath);
    }
    if !numbers::is_finite(a) {
        return Ok(Left::One(a));
    }
    Ok(Left::One(numbers::radical::sqrt(a)))
}

// What is left of the value a, which was on top.
fn of_one(o: Single, a: f64) -> Result<Left, Refusal>
    ensures { result ≡ of_one o a }
{
    match o {
        Single::Identity => Ok(Left::One(a)),
        Single::Pop => Ok(Left::Nothing),
        Single::Dup => Ok(Left::Two(a, a)),
        Single::Neg => Ok(Left::One(-a)),
        Single::Not => Ok(Left::One(1.0 - a)),
        Single::Sqrt => square_root(a),
        Single::Reciprocal => Ok(Left::One(1.0 / a)),
    }
}

// What is left of a, which was on top, and b below it.
fn of_two(o: Pair, a: f64, b: f64) -> Result<Left, Refusal>
    ensures { result ≡ of_two o a b }
{
    match o {
        Pair::Flip => Ok(Left::Two(b, a)),
        Pair::Add => Ok(Left::One(b + a)),
        Pair::Sub => Ok(Left::One(b - a)),
        Pair::Mul => Ok(Left::One(b * a)),
        Pair::Div => Ok(Left::One(b / a)),
        Pair::Pow => raise(b, a),
        Pair::Over => Ok(Left::Three(b, a, b)),
    }
}

// Puts what is left on the first n values, and says how many there are then. A value formed that is not finite is 15.
fn leave(l: Left, stack: &mut [f64], n: usize) -> Result<usize, Refusal>
    requires { n + 3 ≤ length stack.old }
    ensures result_after { view_did stack.new result ≡ leave (Ok l) (stack_of stack.old n) }
    ensures under { Under (n + 3) result }
{
    match l {
        Left::Nothing => Ok(n),
        Left::One(a) => {
            if !numbers::is_finite(a) {
                return Err(Refusal::NotFinite);
            }
            stack[n] = a;
            Ok(n + 1)
        }
        Left::Two(a, b) => {
            stack[n] = b;
            stack[n + 1] = a;
            Ok(n + 2)
        }
        Left::Three(a, b, c) => {
            stack[n] = c;
            stack[n + 1] = b;
            stack[n + 2] = a;
            Ok(n + 3)
        }
    }
}

// A primitive that takes one value, on the first n.
fn single(o: Single, stack: &mut [f64], n: usize) -> Result<usize, Refusal>
    requires { n + 2 ≤ length stack.old }
    ensures result_after { view_did stack.new result ≡ apply (Ok (OfOne o)) (stack_of stack.old n) }
    ensures under { Under (n + 3) result }
{
    if n < 1 {
        return Err(Refusal::TooManyVariables);
    }
    let l = of_one(o, stack[n - 1])?;
    leave(l, stack, n - 1)
}

// A primitive that takes two values, on the first n.
fn pair(o: Pair, stack: &mut [f64], n: usize) -> Result<usize, Refusal>
    requires { n + 1 ≤ length stack.old }
    ensures result_after { view_did stack.new result ≡ apply (Ok (OfTwo o)) (stack_of stack.old n) }
    ensures under { Under (n + 3) result }
{
    if n < 2 {
        return Err(Refusal::TooManyVariables);
    }
    let l = of_two(o, stack[n - 1], stack[n - 2])?;
    leave(l, stack, n - 2)
}

// A primitive, on the first n values.
fn apply(w: Work, stack: &mut [f64], n: usize) -> Result<usize, Refusal>
    requires { n + 2 ≤ length stack.old }
    ensures result_after { view_did stack.new result ≡ apply (Ok w) (stack_of stack.old n) }
    ensures under { Under (n + 3) result }
{
    match w {
        Work::OfOne(o) => single(o, stack, n),
        Work::OfTwo(o) => pair(o, stack, n),
    }
}

// The same by the primitive's name: the frequent ones are told apart once, the others go the general way.
fn perform(p: Primitive, stack: &mut [f64], n: usize) -> Result<usize, Refusal>
    requires { n + 2 ≤ length stack.old }
    ensures result_after { view_did stack.new result ≡ apply (work_of p) (stack_of stack.old n) }
    ensures under { Under (n + 3) result }
{
    match p {
        Primitive::Dup => single(Single::Dup, stack, n),
        Primitive::Add => pair(Pair::Add, stack, n),
        Primitive::Sub => pair(Pair::Sub, stack, n),
        Primitive::Mul => pair(Pair::Mul, stack, n),
        Primitive::Div => pair(Pair::Div, stack, n),
        Primitive::Pow => pair(Pair::Pow, stack, n),
        Primitive::Over => pair(Pair::Over, stack, n),
        _ => apply(crate::work_of(p)?, stack, n),
    }
}

// The number with these bits, to be pushed.
fn number(re: u64) -> Result<Left, Refusal>
    ensures { (s : List Float) → leave result s ≡ leave (Ok (One (of_bits binary64 re))) s }
{
    if numbers::finite_bits(re) {
        return Ok(Left::One(f64::from_bits(re)));
    }
    Err(Refusal::NotFinite)
}

// A record that acts by itself, on the first n values.
pub fn act(d: Deed, r: Record, stack: &mut [f64], n: usize) -> Result<usize, Refusal>
    requires { n + 3 ≤ length stack.old }
    ensures result_after { view_did stack.new result ≡ act d r (stack_of stack.old n) }
    ensures under { Under (n + 3) result }
{
    match d {
        Deed::Pushes => leave(number(r.re)?, stack, n),
        Deed::Works => perform(formats::record::primitive_of(r.code), stack, n),
    }
}
