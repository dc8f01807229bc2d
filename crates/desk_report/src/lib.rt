// What programs print of the follower: decimal digits, the lines of packets and what a packet makes of the follower and its line, the page.
#![tactic(auto)]

pub mod buffer;
pub mod desk;
pub mod line;
pub mod page;
pub mod text;
