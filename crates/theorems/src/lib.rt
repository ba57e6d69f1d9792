// Theorems over the thirteen entries and the C functions, in proofs/, with what they state in specs/: definitions and laws alone.
#![tactic(auto)]

pub mod readback;
