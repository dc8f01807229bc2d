// What the service writes for the desk: the packet of a closed event, and the full picture.
use crate::Display;
use crate::notices::Notices;

// The packet of event `number`, from 1.
#[derive(Clone, Copy, PartialEq, Eq)]
pub struct EventPacket {
    pub number: u32,
    // The answer byte: 0 done, else the error's, 1 to 10. No Result: one could carry the states of an InvalidState, which no packet has.
    pub answer: u8,
    // How many orders the event gave, 0 to 35.
    pub orders: u8,
    pub notices: Notices,
}

// What is held at event `number`; 0 is the start.
#[derive(Clone, Copy, PartialEq, Eq)]
pub struct Picture {
    pub number: u32,
    pub display: Display,
}

#[derive(Clone, Copy, PartialEq, Eq)]
pub enum Packet {
    Event(EventPacket),
    Picture(Picture),
}
