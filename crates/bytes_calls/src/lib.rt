// What the C functions share: the number that each returns, and the records of a call.
#![tactic(auto)]

pub mod numbers;
pub mod rows;
