// Messages originating from a PSU (psu/event.rs). The two capability payloads, which the service only logs, are left out.
use crate::capability::DisconnectFlags;

// Data for an event broadcast from a PSU.
#[derive(Clone, Copy, PartialEq, Eq)]
pub enum EventData {
    // A device has attached.
    Attached,
    // Available power for consumption has changed.
    UpdatedConsumerCapability,
    // Power is requested from the provider.
    RequestedProviderCapability,
    // A device cannot consume or provide power anymore.
    Disconnected(DisconnectFlags),
    // A device has detached.
    Detached,
}

// Event broadcast from a PSU.
#[derive(Clone, Copy, PartialEq, Eq)]
pub struct Event {
    // Number of the port that sent it.
    pub port: u8,
    // Event data.
    pub event: EventData,
}
