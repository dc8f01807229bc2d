// What an event reads (the registration and the present records), and the state that it changes.
ghost use Rattle.std.specs.Prelude.{◌≡◌};
ghost use Rattle.abstract_policy.specs.State.{fresh_state, display_of, psu_of, charger_unpowered};

use interface_display::providers::Providers;
use interface_display::{AvailableConsumer, Display};
use power_policy_interface::limits::{MAX_CHARGERS, MAX_PORTS};
use power_policy_interface::service::UnconstrainedState;
use power_policy_interface::{charger, psu};
use power_policy_service::config::Config;
use power_policy_service::provider::PowerState;

// What is registered at the start: the configuration, and how many ports and chargers there are.
#[derive(Clone, Copy)]
pub struct Registration {
    pub config: Config,
    pub ports: u8,
    pub chargers: u8,
}

// The present records of all ports and chargers.
#[derive(Clone, Copy)]
pub struct Records {
    pub psus: [psu::State; MAX_PORTS as usize],
    pub chargers: [charger::State; MAX_CHARGERS as usize],
}

// The state of the service; by default no consumer, unlimited, nothing unconstrained, no provider.
#[derive(Clone, Copy, Default)]
pub struct InternalState {
    // Current consumer state, if any.
    pub current_consumer_state: Option<AvailableConsumer>,
    // Current provider power state.
    pub current_provider_state: PowerState,
    // System unconstrained power.
    pub unconstrained: UnconstrainedState,
    // Connected providers.
    pub connected_providers: Providers,
}

impl InternalState {
    // What the desk follows: consumer, unconstrained figures and tracked providers.
    pub fn display(self) -> Display
        ensures { result ≡ display_of self }
    {
        Display {
            consumer: self.current_consumer_state,
            unconstrained: self.unconstrained,
            providers: self.connected_providers,
        }
    }
}

impl Records {
    // The record of a port; a record with nothing in it for a port past the sixteen.
    pub fn psu(self, port: u8) -> psu::State
        ensures { result ≡ psu_of self port }
    {
        if port < MAX_PORTS {
            self.psus[port as usize]
        } else {
            psu::State {
                psu_state: psu::PsuState::Idle,
                consumer_capability: None,
                requested_provider_capability: None,
            }
        }
    }

    // Whether a charger is unpowered; one past the eight counts as unpowered.
    pub fn unpowered(self, charger: u8) -> bool
        ensures { result ≡ charger_unpowered self charger }
    {
        MAX_CHARGERS <= charger || self.chargers[charger as usize].is_unpowered()
    }
}
