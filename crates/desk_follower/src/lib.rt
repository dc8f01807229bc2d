// The desk's follower: what it shows, and what a packet makes of it.
#![tactic(auto)]

pub mod held;

ghost use Rattle.std.specs.Prelude.{◌≡◌};
ghost use Rattle.power_policy_interface.specs.Limits.{window};
ghost use Rattle.interface_display.specs.declared.packet.Packet.{Packet};
ghost use Rattle.desk_follower.specs.Follower.{lost, fresh, in_turn, settled, taken_at, taken, state_of, picture_of, number_of, shown_display, consumer_of, port_of, mw_of};

use crate::held::Held;
use interface_display::packet::{EventPacket, Packet, Picture};
use interface_display::{AvailableConsumer, Display, State};
use power_policy_interface::limits::WINDOW;

// Lost with a floor, or showing what is held at an event.
#[derive(Clone, Copy, PartialEq, Eq)]
pub enum Shown {
    Lost(u32),
    Picture(Picture),
}

// Lost, it holds nothing; showing n, it holds event packets numbered n + 2 to n + 8.
#[derive(Clone, Copy, PartialEq, Eq)]
pub struct Follower {
    pub shown: Shown,
    pub held: Held,
}

impl Follower {
    // Lost with floor 0.
    pub fn new() -> Self
        ensures { result ≡ fresh }
    {
        Follower {
            shown: Shown::Lost(0),
            held: Held::new(),
        }
    }

    // Lost: nothing is held.
    fn lose(&mut self, floor: u32)
        ensures { self.new ≡ lost floor }
    {
        *self = Follower {
            shown: Shown::Lost(floor),
            held: Held::new(),
        };
    }

    // The held packets applied in turn as long as the next number is held; one with an error makes it lost, with the floor. The answer is its byte, as
    // EventPacket has it.
    fn show_in_turn(&mut self, floor: u32, mut shown: Picture)
        ensures { self.new ≡ in_turn window floor shown.number shown.display self.old.held }
    {
        for _ in 0..WINDOW {
            let Some(p) = self.held.remove_next(shown.number) else {
                break;
            };
            if p.answer != 0 {
                return self.lose(floor);
            }
            shown.display = p.notices.apply(shown.display);
            shown.number = p.number;
        }
        self.shown = Shown::Picture(shown);
    }

    // What is shown, after the packets that follow it; on an error the floor is the greatest of its number and those held.
    fn settle(&mut self, shown: Picture)
        ensures { self.new ≡ settled shown self.old.held }
    {
        let floor = self.held.greatest(shown.number);
        self.show_in_turn(floor, shown);
    }

    // Lost, an event number raises the floor. Showing n, an event packet numbered n or less, or held already, is dropped; beyond
    // n + 8 it makes the follower lost; else it is held, and applied if its turn has come.
    fn take_event(&mut self, e: EventPacket)
        ensures { self.new ≡ taken_at self.old.shown self.old.held (Packet.Event e) }
    {
        match self.shown {
            Shown::Lost(floor) => self.lose(floor.max(e.number)),
            Shown::Picture(shown) if e.number <= shown.number => {}
            Shown::Picture(shown) if WINDOW < e.number - shown.number => {
                let floor = self.held.greatest(e.number);
                self.lose(floor);
            }
            Shown::Picture(_) if self.held.holds(e.number) => {}
            Shown::Picture(shown) => {
                self.held.insert(e);
                self.settle(shown);
            }
        }
    }

    // Lost, a picture numbered at least the floor is shown. Showing n, one numbered above n is shown, and the packets above it
    // follow in turn. Another is dropped.
    fn take_picture(&mut self, p: Picture)
        ensures { self.new ≡ taken_at self.old.shown self.old.held (Packet.Picture p) }
    {
        match self.shown {
            Shown::Lost(floor) if p.number < floor => {}
            Shown::Lost(_) => {
                *self = Follower {
                    shown: Shown::Picture(p),
                    held: Held::new(),
                };
            }
            Shown::Picture(shown) if p.number <= shown.number => {}
            Shown::Picture(_) => {
                self.held.keep_above(p.number);
                self.settle(p);
            }
        }
    }

    // Takes a packet or a picture.
    pub fn take(&mut self, p: Packet)
        ensures { self.new ≡ taken self.old p }
    {
        match p {
            Packet::Event(e) => self.take_event(e),
            Packet::Picture(p) => self.take_picture(p),
        }
    }

    // Lost, or else level or waiting.
    pub fn state(&self) -> State
        ensures { result ≡ state_of self.now }
    {
        match self.shown {
            Shown::Lost(_) => State::Lost,
            Shown::Picture(_) if self.held.is_empty() => State::Level,
            Shown::Picture(_) => State::Waiting,
        }
    }
}

impl Shown {
    // The picture, unless it is lost.
    fn picture(self) -> Option<Picture>
        ensures { result ≡ picture_of self }
    {
        match self {
            Shown::Lost(_) => None,
            Shown::Picture(p) => Some(p),
        }
    }

    // The number of the event shown.
    pub fn number(self) -> Option<u32>
        ensures { result ≡ number_of self }
    {
        self.picture().map(|p| p.number)
    }

    // Consumer, unconstrained figures and tracked providers.
    pub fn display(self) -> Option<Display>
        ensures { result ≡ shown_display self }
    {
        self.picture().map(|p| p.display)
    }

    // The consumer, with its port and capability.
    pub fn consumer(self) -> Option<AvailableConsumer>
        ensures { result ≡ consumer_of self }
    {
        self.display()?.consumer
    }

    // The consumer's port.
    pub fn port(self) -> Option<u32>
        ensures { result ≡ port_of self }
    {
        self.consumer().map(|c| c.psu as u32)
    }

    // The consumer's maximum power in mW.
    pub fn mw(self) -> Option<u32>
        ensures { result ≡ mw_of self }
    {
        self.consumer()
            .map(|c| c.consumer_power_capability.capability.max_power_mw())
    }
}
