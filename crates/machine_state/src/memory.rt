// What an event has come to so far, the state and its notices; and which charger is next.
ghost use Rattle.std.specs.Prelude.{◌≡◌, ◌-◌};
ghost use Rattle.machine_state.specs.Memory.{no_notices, next_powered, if_below};

use abstract_policy::state::{InternalState, Records};
use interface_display::AvailableConsumer;
use power_policy_interface::capability::{DisconnectFlags, ProviderPowerCapability};
use power_policy_interface::service::UnconstrainedState;

// What an event tells of a provider.
#[derive(Clone, Copy)]
pub enum ProviderNotice {
    Disconnected(u8),
    Connected(u8, ProviderPowerCapability),
}

// What an event tells of the consumer that it disconnects: its port, and why.
#[derive(Clone, Copy, PartialEq, Eq)]
pub struct Disconnected {
    pub port: u8,
    pub flags: DisconnectFlags,
}

// The notices of an event: at most one of each kind, and always in this order.
#[derive(Clone, Copy)]
pub struct Notices {
    pub provider: Option<ProviderNotice>,
    pub disconnected: Option<Disconnected>,
    pub connected: Option<AvailableConsumer>,
    pub unconstrained: Option<UnconstrainedState>,
}

// The state, and the notices of the open or last closed event.
#[derive(Clone, Copy)]
pub struct Memory {
    pub state: InternalState,
    pub notices: Notices,
}

impl Notices {
    // No notice.
    pub fn new() -> Self
        ensures { result ≡ no_notices }
    {
        Notices {
            provider: None,
            disconnected: None,
            connected: None,
            unconstrained: None,
        }
    }
}

// The first powered charger from a place on, below the count.
pub fn next_powered(records: Records, count: u8, from: u8) -> Option<u8>
    ensures { result ≡ if_below count (next_powered records (count - from) from) }
{
    (from..count).find(|&i| !records.unpowered(i))
}
