// The event as orders and answers (service/mod.rs, consumer.rs, provider.rs). Where the Rust awaits a device, the event stops at an
// order, and what is left of it is a phase with its data. Each answer brings the present records.
#![tactic(auto)]

pub mod memory;
pub mod phase;
