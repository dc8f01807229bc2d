// What a call brings about.
use crate::order::Order;
use power_policy_interface::psu;

// Of an event or an answer that is accepted.
#[derive(Clone, Copy, PartialEq, Eq)]
pub enum Step {
    // An order, which the next answer is to.
    Order(Order),
    // The event is closed with this answer, after so many orders.
    Closed(Result<(), psu::Error>, u8),
}
