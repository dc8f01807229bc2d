// The notices of one event, none to four, in their order.
ghost use Rattle.std.specs.Prelude.{◌≡◌};
ghost use Rattle.interface_display.specs.Notices.{empty, pushed, length_of, all_applied};

use crate::Display;
use power_policy_interface::capability::DisconnectFlags;
use power_policy_interface::limits::MAX_NOTICES;
use power_policy_interface::service::event::Event;

// One for each notice that an event can have.
pub const PLACES: usize = MAX_NOTICES as usize;

// The first `count` of the four places are meant; those past them hold a consumer disconnected at port 0 with no reason. Memory is
// fixed, so it is no Vec; and a packet is Copy, which the library's arrayvec is not.
#[derive(Clone, Copy, PartialEq, Eq)]
pub struct Notices {
    pub count: u8,
    pub events: [Event; PLACES],
}

impl Notices {
    // None.
    pub fn new() -> Self
        ensures { result ≡ empty }
    {
        let filler = Event::ConsumerDisconnected(0, DisconnectFlags { reason: None });
        Notices {
            count: 0,
            events: [filler; PLACES],
        }
    }

    // One notice more; a fifth is dropped (no event gives five).
    #[tactic(auto, using(crate::proofs::Four::set_next))]
    pub fn push(&mut self, e: Event)
        ensures { self.new ≡ pushed self.old e }
    {
        if self.count < MAX_NOTICES {
            self.events[self.count as usize] = e;
            self.count += 1;
        }
    }

    // How many there are.
    pub fn len(self) -> u8
        ensures { result ≡ length_of self }
    {
        self.count.min(MAX_NOTICES)
    }

    // A display after all of them in order.
    #[tactic(auto, using(crate::proofs::Four::applied_next))]
    pub fn apply(self, mut d: Display) -> Display
        ensures { result ≡ all_applied self d }
    {
        for e in &self.events[..self.len() as usize] {
            d.apply(*e);
        }
        d
    }
}
