// How much power to provide to each connected device (provider.rs). At or below the threshold the system is unlimited; above it,
// every provider is given the limited capability.
ghost use Rattle.std.specs.Prelude.{◌≡◌, min, ok_or};
ghost use Rattle.power_policy_interface.specs.Limits.{max_ports};
ghost use Rattle.power_policy_service.specs.Provider.{power_byte, power_state_from, total_of, total_with, power_state_of, grant_of};

use crate::config::Config;
use crate::totals;
use power_policy_interface::capability::{ProviderPowerCapability, UnknownByte};
use power_policy_interface::limits::MAX_PORTS;
use power_policy_interface::psu;

// Current system provider power state.
#[derive(Clone, Copy, PartialEq, Eq, Default)]
pub enum PowerState {
    // System is capable of providing high power.
    #[default]
    Unlimited = 0,
    // System can only provide limited power.
    Limited = 1,
}

impl From<PowerState> for u8 {
    ghost from_gives = { λ p n. n ≡ power_byte p };

    // The byte of a power state in an image.
    fn from(p: PowerState) -> u8 {
        p as u8
    }
}

impl TryFrom<u8> for PowerState {
    type Error = UnknownByte;

    ghost try_from_gives = { λ b r. r ≡ ok_or (power_state_from b) (record { 0 = b }) };

    // The power state of a byte; refused for a byte above 1.
    fn try_from(b: u8) -> Result<Self, UnknownByte> {
        match b {
            0 => Ok(PowerState::Unlimited),
            1 => Ok(PowerState::Limited),
            _ => Err(UnknownByte(b)),
        }
    }
}

// The total amount of power that is being supplied to external devices (the Rust's function of this name, in mod.rs), over the first ports of a row by value, as
// `Records` has it. The row is cut here and not by the callers, so that the lemma that the part has the total of the row (proofs/Same.antt) is cited here alone.
#[tactic(auto, using(crate::proofs::Same::total_is))]
pub fn compute_total_provider_power_mw(psus: [psu::State; MAX_PORTS as usize], ports: u8) -> u64
    ensures { result ≡ total_of psus (min max_ports ports) }
{
    totals::total(totals::first(&psus, ports))
}

// The same with the requester's request in the place of its contract; the row by value, as above.
#[tactic(auto, using(crate::proofs::Same::total_with_is))]
pub fn total_with_request(
    psus: [psu::State; MAX_PORTS as usize],
    ports: u8,
    requester: u8,
    request: ProviderPowerCapability,
) -> u64
    ensures { result ≡ total_with requester request psus (min max_ports ports) }
{
    totals::total_with_request(totals::first(&psus, ports), requester, request)
}

// Limited above the threshold, unlimited at or below it.
pub fn power_state(config: Config, total_power_mw: u64) -> PowerState
    ensures { result ≡ power_state_of config total_power_mw }
{
    if (config.limited_power_threshold_mw as u64) < total_power_mw {
        PowerState::Limited
    } else {
        PowerState::Unlimited
    }
}

// What a request is granted. Unlimited, a request is not raised to a higher contract.
pub fn target_power(
    config: Config,
    state: PowerState,
    request: ProviderPowerCapability,
) -> ProviderPowerCapability
    ensures { result ≡ grant_of config state request }
{
    let capability = match state {
        PowerState::Limited => config.provider_limited,
        PowerState::Unlimited => {
            if request.capability.max_power_mw() < config.provider_unlimited.max_power_mw() {
                return request;
            }
            config.provider_unlimited
        }
    };
    ProviderPowerCapability {
        capability,
        flags: request.flags,
    }
}
