// The event packets that wait for their turn. Event m has place m % 8, so the eight events after the one shown have a place each.
ghost use Rattle.std.specs.Prelude.{◌≡◌, cond, eqb, None, Some, ◌+◌, ◌%◌};
ghost use Rattle.power_policy_interface.specs.Limits.{window};
ghost use Rattle.desk_follower.specs.Held.{none, nothing, held_for, holds, placed, dropped, none_held, greatest, above};

use interface_display::notices::Notices;
use interface_display::packet::EventPacket;
use power_policy_interface::limits::WINDOW;

// One for each event of the window.
const PLACES: usize = WINDOW as usize;

// Eight places; number 0 says that none is held there (events are numbered from 1). So `packet.number == n` says at once that a packet is
// held and that it is event n's, and none is no greater than any; an Option would be asked for before its number in each.
#[derive(Clone, Copy, PartialEq, Eq)]
pub struct Held {
    pub packets: [EventPacket; PLACES],
}

// No packet.
pub fn no_packet() -> EventPacket
    ensures { result ≡ none }
{
    EventPacket {
        number: 0,
        answer: 0,
        orders: 0,
        notices: Notices::new(),
    }
}

// The place of an event.
fn place(number: u32) -> usize
    ensures { result ≡ number % window }
{
    (number % WINDOW) as usize
}

// Whether an event is the one after another.
fn follows(next: u32, number: u32) -> bool
    ensures { result ≡ eqb next (number + 1) }
{
    number.checked_add(1) == Some(next)
}

impl Held {
    // Nothing held.
    pub fn new() -> Self
        ensures { result ≡ nothing }
    {
        Held {
            packets: [no_packet(); PLACES],
        }
    }

    // Whether nothing is held.
    pub fn is_empty(&self) -> bool
        ensures { result ≡ none_held window self.now }
    {
        self.packets.iter().all(|p| p.number == 0)
    }

    // Whether the packet of an event is held.
    pub fn holds(&self, number: u32) -> bool
        ensures { result ≡ holds self.now number }
    {
        self.packets[place(number)].number == number
    }

    // Holds a packet, at its event's place.
    pub fn insert(&mut self, e: EventPacket)
        ensures { self.new ≡ placed self.old e }
    {
        self.packets[place(e.number)] = e;
    }

    // The packet of the event after this one, no longer held. There is none after the last.
    pub fn remove_next(&mut self, number: u32) -> Option<EventPacket>
        ensures found { result ≡ cond (holds self.old (number + 1)) (Some (held_for self.old (number + 1))) None }
        ensures after { self.new ≡ cond (holds self.old (number + 1)) (dropped self.old (number + 1)) self.old }
    {
        let place = place(number.wrapping_add(1));
        let packet = self.packets[place];
        if !follows(packet.number, number) {
            return None;
        }
        self.packets[place] = no_packet();
        Some(packet)
    }

    // The greatest of a number and the numbers of the packets held.
    pub fn greatest(&self, number: u32) -> u32
        ensures { result ≡ greatest number window self.now }
    {
        let mut most = number;
        for p in &self.packets {
            most = most.max(p.number);
        }
        most
    }

    // Drops the packets numbered so or less.
    pub fn keep_above(&mut self, number: u32)
        ensures { self.new ≡ above number window self.old }
    {
        for p in &mut self.packets {
            if p.number <= number {
                *p = no_packet();
            }
        }
    }
}
