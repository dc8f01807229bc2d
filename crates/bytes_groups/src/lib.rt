// Groups of bytes that the images of service and follower share (docs/STATE.md). Groups go by value; `place` reads and stores them.
#![tactic(auto)]

pub mod place;
pub mod quad;
pub mod shown;
pub mod tagged;
