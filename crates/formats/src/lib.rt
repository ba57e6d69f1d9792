// Node records as bytes: their names, the table of primitives, reading and writing them, and the rules of 11 and 13.
#![tactic(auto)]

pub mod fields;
pub mod record;
pub mod rules;
pub mod table;
