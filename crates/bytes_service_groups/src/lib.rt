// Groups of bytes of the service's image (docs/STATE.md): what is registered, what is held, where the event stands, and its notices.
// Groups go by value, and are stored at their places.
#![tactic(auto)]

pub mod notices;
pub mod phase;
pub mod registration;
pub mod state;
