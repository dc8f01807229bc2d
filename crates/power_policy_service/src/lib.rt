// The power policy service, by value (power-policy-service). An event is opened and then answered, one device order at a time.
#![tactic(auto)]

pub mod config;
pub mod consumer;
pub mod provider;
pub mod totals;
