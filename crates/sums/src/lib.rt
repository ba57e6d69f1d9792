// Sums: what they are (`tree`), their bytes (`entry`), and sums that lie in a book of three arrays: their order and where a term stands or belongs, a term put in,
// whether a good sum lies there, and how it comes in from bytes and goes out.
#![tactic(auto)]

pub mod bytes;
pub mod good;
pub mod map;
pub mod order;
pub mod tree;
