// The PSU record, 18 bytes: the state's number and its contract, the consumer capability and the provider request, each a group.
ghost use Rattle.std.specs.Prelude.{◌≡◌};
ghost use Rattle.power_policy_interface.specs.Limits.{psu_length};
ghost use Rattle.interface_records.specs.Psu.{psu_some, psu_state_group, psu_state_from, psu_bytes, psu_from, psu_row};

use crate::group::Group;
use crate::row;
use crate::row::Record;
use power_policy_interface::limits::{MAX_PORTS, PSU_RECORD};
use power_policy_interface::psu::{PsuState, State};

// A row has a place for each port.
const ROW: usize = MAX_PORTS as usize;

// The state and its contract as a group: 0 Detached, 1 Idle, 2 ConnectedProvider, 3 ConnectedConsumer.
impl From<PsuState> for Group {
    ghost from_gives = { λ s g. g ≡ psu_state_group s };

    fn from(s: PsuState) -> Group {
        match s {
            PsuState::Detached => Group::empty(0),
            PsuState::Idle => Group::empty(1),
            PsuState::ConnectedProvider(c) => Group::of(2, c),
            PsuState::ConnectedConsumer(c) => Group::of(3, c),
        }
    }
}

// The state and its contract out of a group. The number is a byte of the layout, matched here alone: an enum of it would be matched once more.
pub fn read_state(g: Group) -> Option<PsuState>
    ensures { result ≡ psu_state_from g }
{
    match g.number {
        0 if g.is_zero() => Some(PsuState::Detached),
        1 if g.is_zero() => Some(PsuState::Idle),
        2 => Some(PsuState::ConnectedProvider(g.flagged()?)),
        3 => Some(PsuState::ConnectedConsumer(g.flagged()?)),
        _ => None,
    }
}

// The 18 bytes of a record.
pub fn write(s: State) -> [u8; PSU_RECORD]
    ensures { result ≡ psu_bytes s }
{
    let mut bytes = [0; PSU_RECORD];
    bytes[..6].copy_from_slice(&Group::from(s.psu_state).bytes());
    bytes[6..12].copy_from_slice(&Group::of_option(s.consumer_capability).bytes());
    bytes[12..].copy_from_slice(&Group::of_option(s.requested_provider_capability).bytes());
    bytes
}

// The record of 18 bytes; refused for bytes that no record is written as.
pub fn read(s: &[u8]) -> Option<State>
    ensures { result ≡ psu_from s.now }
{
    if s.len() != PSU_RECORD {
        return None;
    }
    let psu_state = read_state(Group::at(s, 0))?;
    let consumer_capability = Group::at(s, 6).option_flagged()?;
    let requested_provider_capability = Group::at(s, 12).option_flagged()?;
    Some(State {
        psu_state,
        consumer_capability,
        requested_provider_capability,
    })
}

// The records of so many ports, one after the other, in the first places; the other places are default records.
// None on more than 16, a wrong length or any refused record. A name for this row: each call of the generic one names the filling record too.
pub fn read_row(s: &[u8], ports: usize) -> Option<[State; ROW]>
    ensures { result ≡ psu_row ports s.now }
{
    row::read_row(s, ports, State::default())
}

impl Record for State {
    ghost LENGTH = { psu_length };

    ghost reads = { psu_from };

    ghost some = { psu_some };

    const LENGTH: usize = PSU_RECORD;

    fn read(s: &[u8]) -> Option<Self> {
        read(s)
    }
}
