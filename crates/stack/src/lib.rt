// The state of reading and one record as a step of it: definitions and laws, and the code in the modules. `slots` and `state` have the arena in which a list is read,
// its sums one after the other in a book of three arrays with a size beside each cell, behind places to work in, and what puts sums on that stack or refuses to;
// `leaf` and those beside it the records that have no inside. What is counted of them is told apart.
#![tactic(auto)]

pub mod leaf;
pub mod one_operand;
pub mod slots;
pub mod state;
pub mod two_operands;
