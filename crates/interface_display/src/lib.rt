// What the service holds between events and the follower shows: the consumer, the unconstrained figures and the tracked providers;
// and the notices that lead from one event to the next. Service and follower share these types and their meaning.
#![tactic(auto)]

pub mod notices;
pub mod packet;
pub mod providers;

ghost use Rattle.std.specs.Prelude.{◌≡◌};
ghost use Rattle.interface_display.specs.Display.{fresh, state_number, applied_to};

use crate::providers::Providers;
use power_policy_interface::capability::ConsumerPowerCapability;
use power_policy_interface::service::UnconstrainedState;
use power_policy_interface::service::event::Event;

// A consumer: its port and the capability it was connected with (consumer.rs).
#[derive(Clone, Copy, PartialEq, Eq)]
pub struct AvailableConsumer {
    pub psu: u8,
    pub consumer_power_capability: ConsumerPowerCapability,
}

// Consumer, unconstrained figures and tracked providers.
#[derive(Clone, Copy, PartialEq, Eq)]
pub struct Display {
    pub consumer: Option<AvailableConsumer>,
    pub unconstrained: UnconstrainedState,
    pub providers: Providers,
}

// What a follower says of itself.
#[derive(Clone, Copy, PartialEq, Eq)]
pub enum State {
    Lost = 0,
    // Showing n with nothing held.
    Level = 1,
    // Showing n with something held.
    Waiting = 2,
}

impl From<State> for u8 {
    ghost from_gives = { λ s n. n ≡ state_number s };

    // The number of a state.
    fn from(s: State) -> u8 {
        s as u8
    }
}

impl Display {
    // That of a fresh service: no consumer, nothing unconstrained, no provider.
    pub fn new() -> Self
        ensures { result ≡ fresh }
    {
        Display {
            consumer: None,
            unconstrained: UnconstrainedState {
                unconstrained: false,
                available: 0,
            },
            providers: Providers::new(),
        }
    }

    // The display after a notice: a consumer disconnected leaves none, one connected sets it; a provider disconnected is
    // untracked, one connected is tracked if there or fewer than four are; the unconstrained figures are set.
    pub fn apply(&mut self, notice: Event)
        ensures { self.new ≡ applied_to self.old notice }
    {
        match notice {
            Event::ConsumerDisconnected(_, _) => self.consumer = None,
            Event::ConsumerConnected(psu, consumer_power_capability) => {
                self.consumer = Some(AvailableConsumer {
                    psu,
                    consumer_power_capability,
                });
            }
            Event::ProviderDisconnected(port) => {
                let _ = self.providers.remove(port);
            }
            Event::ProviderConnected(port, _) => {
                let _ = self.providers.insert(port);
            }
            Event::Unconstrained(figures) => self.unconstrained = figures,
        }
    }
}
