// The records of a call, read from their bytes.
ghost use Rattle.std.specs.Prelude.{◌≡◌};
ghost use Rattle.abstract_calls.specs.Lent.{rows_in};

use abstract_policy::state::{Records, Registration};

// The records of the ports and chargers registered; none where their bytes are not those of records.
pub fn read_rows(registration: Registration, psus: &[u8], chargers: &[u8]) -> Option<Records>
    ensures { result ≡ rows_in registration psus.now chargers.now }
{
    let p = interface_records::psu::read_row(psus, registration.ports as usize)?;
    let c = interface_records::charger::read_row(chargers, registration.chargers as usize)?;
    Some(Records {
        psus: p,
        chargers: c,
    })
}
