// The records of the power policy interface, by value: capabilities, PSU and charger states with their transitions, and the
// events that devices and service send. Names and layout are those of the Rust crate power-policy-interface.
#![tactic(auto)]

pub mod capability;
pub mod charger;
pub mod limits;
pub mod psu;
pub mod refusal;
pub mod service;
