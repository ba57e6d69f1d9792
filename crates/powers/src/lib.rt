// Sums divided and raised to powers, in code; what they are is defined in arithmetic.
#![tactic(auto)]

pub mod divide;
pub mod raise;
