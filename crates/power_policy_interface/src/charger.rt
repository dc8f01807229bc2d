// Charger events and state machine (charger/mod.rs).
pub mod event;

ghost use Rattle.power_policy_interface.specs.declared.psu.Error.{Error};
ghost use Rattle.std.specs.Prelude.{◌≡◌, ok_or};
ghost use Rattle.power_policy_interface.specs.Charger.{internal_number, internal_from, initialized_of, psu_state_change_of, timeout_of, ready_success_of, ready_failure_of, policy_attach_of, policy_detach_of, is_unpowered, substate_of};

use crate::capability::{ConsumerPowerCapability, UnknownByte};
use crate::charger::event::PsuState;
use crate::psu::Error;

// Charger device ID.
#[derive(Clone, Copy, PartialEq, Eq)]
pub struct ChargerId(pub u8);

// Charger state errors.
#[derive(Clone, Copy, PartialEq, Eq)]
pub enum ChargerError {
    // Charger received command in an invalid state.
    InvalidState(InternalState),
    // Charger hardware timed out responding.
    Timeout,
    // Charger underlying bus error.
    BusError,
    // Charger received an unknown event.
    UnknownEvent,
}

impl From<ChargerError> for Error {
    ghost from_gives = { λ e error. error ≡ Error.Charger };

    // The error as the service returns it. What it carries is dropped.
    fn from(_e: ChargerError) -> Error {
        Error::Charger
    }
}

// Powered state substates.
#[derive(Clone, Copy, PartialEq, Eq)]
pub enum PoweredSubstate {
    // Device is initializing.
    Init,
    // PSU is attached and device can charge if desired.
    PsuAttached,
    // PSU is detached.
    PsuDetached,
}

// Current state of the charger.
#[derive(Clone, Copy, PartialEq, Eq, Default)]
pub enum InternalState {
    // Device is unpowered.
    #[default]
    Unpowered,
    // Device is powered.
    Powered(PoweredSubstate),
}

impl From<InternalState> for u8 {
    ghost from_gives = { λ s n. n ≡ internal_number s };

    // The state byte of a record.
    fn from(s: InternalState) -> u8 {
        match s {
            InternalState::Unpowered => 0,
            InternalState::Powered(PoweredSubstate::Init) => 1,
            InternalState::Powered(PoweredSubstate::PsuAttached) => 2,
            InternalState::Powered(PoweredSubstate::PsuDetached) => 3,
        }
    }
}

impl TryFrom<u8> for InternalState {
    type Error = UnknownByte;

    ghost try_from_gives = { λ b r. r ≡ ok_or (internal_from b) (record { 0 = b }) };

    // The state of a record's state byte; refused for a byte above 3.
    fn try_from(b: u8) -> Result<Self, UnknownByte> {
        match b {
            0 => Ok(InternalState::Unpowered),
            1 => Ok(InternalState::Powered(PoweredSubstate::Init)),
            2 => Ok(InternalState::Powered(PoweredSubstate::PsuAttached)),
            3 => Ok(InternalState::Powered(PoweredSubstate::PsuDetached)),
            _ => Err(UnknownByte(b)),
        }
    }
}

// State and cached capability of a charger.
#[derive(Clone, Copy, PartialEq, Eq, Default)]
pub struct State {
    // Charger device state.
    pub state: InternalState,
    // Current charger capability.
    pub capability: Option<ConsumerPowerCapability>,
}

// The Rust's methods, by their names.
impl State {
    // Initialization completed: from Init to PsuAttached or PsuDetached; an error in any other state.
    pub fn on_initialized(&mut self, psu_state: PsuState) -> Result<(), ChargerError>
        ensures result { result ≡ (initialized_of self.old psu_state).result }
        ensures state { self.new ≡ (initialized_of self.old psu_state).state }
    {
        match self.state {
            InternalState::Powered(PoweredSubstate::Init) => {
                self.state = powered(psu_state);
                Ok(())
            }
            other => Err(ChargerError::InvalidState(other)),
        }
    }

    // The PSU state changed: between PsuAttached and PsuDetached; an error in any other state.
    pub fn on_psu_state_change(&mut self, psu_state: PsuState) -> Result<(), ChargerError>
        ensures result { result ≡ (psu_state_change_of self.old psu_state).result }
        ensures state { self.new ≡ (psu_state_change_of self.old psu_state).state }
    {
        match self.state {
            InternalState::Powered(PoweredSubstate::PsuAttached | PoweredSubstate::PsuDetached) => {
                self.state = powered(psu_state);
                Ok(())
            }
            other => Err(ChargerError::InvalidState(other)),
        }
    }

    // Communication timed out: unpowered, and the cached capability cleared.
    pub fn on_timeout(&mut self)
        ensures { self.new ≡ timeout_of self.old }
    {
        *self = State::default();
    }

    // The check-ready succeeded: from unpowered to Init with the capability cleared; already powered, nothing changes.
    pub fn on_ready_success(&mut self)
        ensures { self.new ≡ ready_success_of self.old }
    {
        if self.is_unpowered() {
            self.state = InternalState::Powered(PoweredSubstate::Init);
            self.capability = None;
        }
    }

    // The check-ready failed: unpowered, and the capability is kept for diagnostics.
    pub fn on_ready_failure(&mut self)
        ensures { self.new ≡ ready_failure_of self.old }
    {
        self.state = InternalState::Unpowered;
    }

    // Cache a new capability from a policy attach. The state stays.
    pub fn on_policy_attach(&mut self, capability: ConsumerPowerCapability)
        ensures { self.new ≡ policy_attach_of self.old capability }
    {
        self.capability = Some(capability);
    }

    // Clear the cached capability after a policy detach. The state stays.
    pub fn on_policy_detach(&mut self)
        ensures { self.new ≡ policy_detach_of self.old }
    {
        self.capability = None;
    }

    // Whether the charger is unpowered.
    pub fn is_unpowered(&self) -> bool
        ensures { result ≡ is_unpowered self.now.state }
    {
        self.state == InternalState::Unpowered
    }
}

// Powered, with the PSU in the given state.
fn powered(psu_state: PsuState) -> InternalState
    ensures { result ≡ InternalState.Powered (substate_of psu_state) }
{
    InternalState::Powered(match psu_state {
        PsuState::Attached => PoweredSubstate::PsuAttached,
        PsuState::Detached => PoweredSubstate::PsuDetached,
    })
}
