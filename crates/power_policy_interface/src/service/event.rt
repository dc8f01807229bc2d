// Events broadcast from the service (service/event.rs). In packets one is a notice (PKT-10 to PKT-14).
ghost use Rattle.std.specs.Prelude.{◌≡◌};
ghost use Rattle.power_policy_interface.specs.Service.{data_of};

use crate::capability::{ConsumerPowerCapability, DisconnectFlags, ProviderPowerCapability};
use crate::service::UnconstrainedState;

// An event with the number of its port.
#[derive(Clone, Copy, PartialEq, Eq)]
pub enum Event {
    // Consumer disconnected.
    ConsumerDisconnected(u8, DisconnectFlags),
    // Consumer connected.
    ConsumerConnected(u8, ConsumerPowerCapability),
    // Provider disconnected.
    ProviderDisconnected(u8),
    // Provider connected.
    ProviderConnected(u8, ProviderPowerCapability),
    // Unconstrained state changed.
    Unconstrained(UnconstrainedState),
}

// An event without its port, for receivers that do not need to know it.
#[derive(Clone, Copy, PartialEq, Eq)]
pub enum EventData {
    ConsumerDisconnected(DisconnectFlags),
    ConsumerConnected(ConsumerPowerCapability),
    ProviderDisconnected,
    ProviderConnected(ProviderPowerCapability),
    Unconstrained(UnconstrainedState),
}

impl From<Event> for EventData {
    ghost from_gives = { λ event bare. bare ≡ data_of event };

    // The event without its port.
    fn from(event: Event) -> EventData {
        match event {
            Event::ConsumerDisconnected(_, disconnect) => EventData::ConsumerDisconnected(
                disconnect,
            ),
            Event::ConsumerConnected(_, capability) => EventData::ConsumerConnected(capability),
            Event::ProviderDisconnected(_) => EventData::ProviderDisconnected,
            Event::ProviderConnected(_, capability) => EventData::ProviderConnected(capability),
            Event::Unconstrained(unconstrained) => EventData::Unconstrained(unconstrained),
        }
    }
}
