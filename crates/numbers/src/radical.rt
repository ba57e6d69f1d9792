// The square root of a number, correctly rounded. The bits are taken apart, and the root of the digits is found in whole numbers:
// by a guess with floats, which is checked exactly, or else digit by digit.
ghost use Rattle.std.specs.Prelude.{◌≡◌, ◌+◌, ◌*◌, ◌/◌, ◌-◌, ◌%◌, ◌^◌, ◌≤◌, ◌<◌, false, T};
ghost use Rattle.std.specs.Float.Ieee.{lt};
ghost use Rattle.std.specs.Float.Ieee.Scale.{finite};
ghost use Rattle.numbers.specs.Signs.{zero64};
ghost use Rattle.numbers.specs.Radical.Root.{root};
ghost use Rattle.numbers.specs.Radical.Contract.Steps.{units_of, Scales, WholeRoot, SquareFound, RootFound, Rounds};

// 2^52: the leading one of 53 binary digits, and one step of the exponent's field.
const LEADING: u64 = 0x10000000000000;

// How many binary digits a root has.
const ROOT_DIGITS: u64 = 53;

// A whole number, and what is left when its square is taken away.
#[derive(Clone, Copy)]
pub struct Rooted {
    pub root: u64,
    pub rem: u64,
}

// One binary digit more, of two more digits of the number.
fn digit(d: Rooted, two: u64) -> Rooted
    requires { (d.rem ≤ 2 * d.root) × (d.root < 2 ^ 53) × (two < 4) }
    ensures { (result.root * result.root + result.rem ≡ (d.root * d.root + d.rem) * 4 + two) × (result.rem ≤ 2 * result.root) × (result.root ≤ 2 * d.root + 1) }
{
    let rem = d.rem * 4 + two;
    let trial = d.root * 4 + 1;
    if trial <= rem {
        Rooted {
            root: d.root * 2 + 1,
            rem: rem - trial,
        }
    } else {
        Rooted {
            root: d.root * 2,
            rem,
        }
    }
}

// The root of m times 2^52 in whole numbers, digit by digit.
pub fn root_by_digits(m: u64) -> Rooted
    requires { m < 2 ^ 54 }
    ensures { WholeRoot m result }
{
    let mut a = m;
    let mut d = Rooted { root: 0, rem: 0 };
    for _ in 0..ROOT_DIGITS {
        d = digit(d, a / LEADING);
        a = a % LEADING * 4;
    }
    d
}

// One and a half times the bits of 1.0, lowered by what makes the largest error of a start from it smallest.
const START: u64 = 0x5fe6eb50c7b537a9;

// h brought nearer to 1/√y by Newton's rule.
fn nearer(half_y: f64, h: f64) -> f64 {
    h * (1.5 - half_y * h * h)
}

// About the root of y, which has these bits and is from 1 up and below 4: y times h, for an h near 1/√y, and a last correction. Bits are
// nearly a logarithm, on a straight line from each power of two to the next, so START less half of y's bits are the bits of a first h.
// Nothing is proved of the error, since the answer is checked before it counts.
fn near_root(bits: u64) -> f64
    requires { bits < 1025 * 2 ^ 52 }
{
    let y = f64::from_bits(bits);
    let half_y = 0.5 * y;
    let first = f64::from_bits(START - bits / 2);
    let h = nearer(half_y, nearer(half_y, nearer(half_y, first)));
    let g = y * h;
    g + 0.5 * h * (y - g * g)
}

// The exponent's field of the numbers next below 1; a leading one that is added to it makes it that of 1.
const FIELD_BELOW_1: u64 = 1022;

// A guess at the root of digits times 2^52, or of twice that where odd is 1, in whole numbers.
fn guess(digits: u64, odd: u64) -> u64
    requires { (digits < 2 ^ 53) × (odd < 2) }
    ensures { (2 ^ 52 ≤ result) × (result < 2 ^ 53) }
{
    let g = near_root((FIELD_BELOW_1 + odd) * LEADING + digits);
    if 1.0 <= g {
        f64::to_bits(g) % LEADING + LEADING
    } else {
        LEADING
    }
}

// 2^27 and 2^25, together 2^52: a guess is cut in two halves by the first.
const HALF: u64 = 0x8000000;

const REST: u64 = 0x2000000;

// 2^36: what is less than this fits when it is multiplied by HALF or REST.
const LITTLE: u64 = 0x1000000000;

// What is left of m times 2^52 when the square of q is taken away, if it is little: part by part, from the leading digits down.
fn left_by(m: u64, q: u64) -> Option<Rooted>
    requires { (m < 2 ^ 54) × (q < 2 ^ 54) }
    ensures { SquareFound m q result }
{
    let high = q / HALF;
    let low = q % HALF;
    let first = m.checked_sub(high * high * 4)?;
    if LITTLE <= first {
        return None;
    }
    let second = (first * REST).checked_sub(high * low * 2)?;
    if LITTLE <= second {
        return None;
    }
    let rem = (second * HALF).checked_sub(low * low)?;
    Some(Rooted { root: q, rem })
}

// The next number up, where the square of that is not too large either.
fn up_if_left(d: Rooted) -> Rooted
    requires { (d.root < 2 ^ 60) × (d.rem < 2 ^ 63) }
    ensures { (result.root * result.root + result.rem ≡ d.root * d.root + d.rem) × (result.root ≤ d.root + 1) × (result.rem ≤ d.rem) }
{
    if d.root * 2 < d.rem {
        Rooted {
            root: d.root + 1,
            rem: d.rem - (d.root * 2 + 1),
        }
    } else {
        d
    }
}

// The root of m times 2^52 in whole numbers, if q or one of its two neighbours is it.
fn checked(m: u64, q: u64) -> Option<Rooted>
    requires { (m < 2 ^ 54) × (0 < q) × (q < 2 ^ 53) }
    ensures { RootFound m result }
{
    let r = up_if_left(up_if_left(left_by(m, q - 1)?));
    if r.rem <= r.root * 2 { Some(r) } else { None }
}

// The root of digits times 2^52, or of twice that where odd is 1, in whole numbers.
fn whole_root(digits: u64, odd: u64) -> Rooted
    requires { (digits < 2 ^ 53) × (odd < 2) }
    ensures { WholeRoot (digits * (odd + 1)) result }
{
    let m = digits * (odd + 1);
    checked(m, guess(digits, odd)).unwrap_or_else(|| root_by_digits(m))
}

// A number as 53 digits times a power of two.
#[derive(Clone, Copy)]
pub struct Scaled {
    pub digits: u64,
    pub power: u64,
}

// 1 is 2^1074 of the smallest number.
const ONE_POWER: u64 = 1074;

// Digits moved up until there are 53.
fn moved_up(m: u64) -> Scaled
    requires { (0 < m) × (m < 2 ^ 52) }
    ensures { Scales result (m * 2 ^ 1074) }
{
    let mut digits = m;
    let mut power = ONE_POWER;
    // A `while`, since how many turns it takes depends on the digits.
    while digits < LEADING {
        digits *= 2;
        power -= 1;
    }
    Scaled { digits, power }
}

// The number with these bits, times 2^1074, in units of the smallest one.
fn scale(bits: u64) -> Scaled
    requires { (0 < bits) × (bits < 2047 * 2 ^ 52) }
    ensures { Scales result (units_of bits * 2 ^ 1074) }
{
    let field = bits / LEADING;
    let t = bits % LEADING;
    if field == 0 {
        return moved_up(t);
    }
    Scaled {
        digits: LEADING + t,
        power: ONE_POWER - 1 + field,
    }
}

// Half of the 52 powers of two that go to the digits, so that the root has 53.
const HALF_TAKEN: u64 = 26;

// The bits of the root of digits times 2^power, rounded to the nearest number. An odd power is made even by taking the digits twice.
fn rounded(s: Scaled) -> u64
    requires { (2 ^ 52 ≤ s.digits) × (s.digits < 2 ^ 53) × (52 ≤ s.power) × (s.power ≤ 3120) }
    ensures { Rounds (s.digits * (s.power % 2 + 1)) (s.power / 2 - 26) result }
{
    let d = whole_root(s.digits, s.power % 2);
    let low = (s.power / 2 - HALF_TAKEN) * LEADING + d.root;
    if d.root < d.rem { low + 1 } else { low }
}

// The square root of a number that isn't below zero.
pub fn sqrt(x: f64) -> f64
    requires { T (finite x) × (lt x zero64 ≡ false) }
    ensures { result ≡ root x }
{
    if x == 0.0 {
        return x;
    }
    f64::from_bits(rounded(scale(f64::to_bits(x))))
}
