// The Rust's AlgebraEnv: a list read on a stack of sums that starts with x, to the one sum that is left. The sums lie in an arena that the caller lends, and the sum that was
// read lies behind its working places.
#![tactic(auto)]

pub mod cost;
pub mod env;
pub mod turn;
pub mod walk;
