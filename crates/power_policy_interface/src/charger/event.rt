// Events originating from a charger device (charger/event.rs).
ghost use Rattle.std.specs.Prelude.{◌≡◌, ok_or};
ghost use Rattle.power_policy_interface.specs.Charger.{psu_state_of, psu_state_from};

use crate::capability::UnknownByte;

// PSU state as determined by a charger device.
#[derive(Clone, Copy, PartialEq, Eq)]
pub enum PsuState {
    // Charger detected PSU attached.
    Attached,
    // Charger detected PSU detached.
    Detached,
}

impl From<bool> for PsuState {
    ghost from_gives = { λ value s. s ≡ psu_state_of value };

    fn from(value: bool) -> Self {
        if value {
            PsuState::Attached
        } else {
            PsuState::Detached
        }
    }
}

impl TryFrom<u8> for PsuState {
    type Error = UnknownByte;

    ghost try_from_gives = { λ b r. r ≡ ok_or (psu_state_from b) (record { 0 = b }) };

    // The PSU state of a number in the order as written; refused for a number above 1.
    fn try_from(b: u8) -> Result<Self, UnknownByte> {
        match b {
            0 => Ok(PsuState::Attached),
            1 => Ok(PsuState::Detached),
            _ => Err(UnknownByte(b)),
        }
    }
}

// Data for a charger event.
#[derive(Clone, Copy, PartialEq, Eq)]
pub enum EventData {
    // PSU state changed.
    PsuStateChange(PsuState),
}

// Event broadcast from a charger.
#[derive(Clone, Copy, PartialEq, Eq)]
pub struct Event {
    // Number of the charger that sent it.
    pub charger: u8,
    // Event data.
    pub event: EventData,
}
