// What the policy is about: the state of the service, the records of the devices, orders, and what a call brings about. The policy itself is in specs/: it knows
// nothing of the machine that follows it.
#![tactic(auto)]

pub mod order;
pub mod outcome;
pub mod state;
