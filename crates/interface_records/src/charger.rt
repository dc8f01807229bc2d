// The charger record, 7 bytes: the state's number, and the capability as a group.
ghost use Rattle.std.specs.Prelude.{◌≡◌};
ghost use Rattle.power_policy_interface.specs.Limits.{charger_length};
ghost use Rattle.interface_records.specs.Charger.{charger_some, charger_bytes, charger_from, charger_row};

use crate::group::Group;
use crate::row;
use crate::row::Record;
use power_policy_interface::charger::{InternalState, State};
use power_policy_interface::limits::{CHARGER_RECORD, MAX_CHARGERS};

// A row has a place for each charger.
const ROW: usize = MAX_CHARGERS as usize;

// The 7 bytes of a record.
pub fn write(s: State) -> [u8; CHARGER_RECORD]
    ensures { result ≡ charger_bytes s }
{
    let mut bytes = [u8::from(s.state); CHARGER_RECORD];
    bytes[1..].copy_from_slice(&Group::of_option(s.capability).bytes());
    bytes
}

// The record of 7 bytes; refused for bytes that no record is written as.
pub fn read(s: &[u8]) -> Option<State>
    ensures { result ≡ charger_from s.now }
{
    if s.len() != CHARGER_RECORD {
        return None;
    }
    let state = InternalState::try_from(s[0]).ok()?;
    let capability = Group::at(s, 1).option_flagged()?;
    Some(State { state, capability })
}

// The records of so many chargers, one after the other, in the first places; the other places are default records.
// None on more than 8, a wrong length or any refused record. A name for this row: each call of the generic one names the filling record too.
pub fn read_row(s: &[u8], count: usize) -> Option<[State; ROW]>
    ensures { result ≡ charger_row count s.now }
{
    row::read_row(s, count, State::default())
}

impl Record for State {
    ghost LENGTH = { charger_length };

    ghost reads = { charger_from };

    ghost some = { charger_some };

    const LENGTH: usize = CHARGER_RECORD;

    fn read(s: &[u8]) -> Option<Self> {
        read(s)
    }
}
