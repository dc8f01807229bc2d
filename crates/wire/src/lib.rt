// The link's format (PKT-6 to PKT-17): numbers read and written, event packets and full pictures read. `wire_writer`
// writes these.
#![tactic(auto)]

pub mod number;
pub mod packet;
