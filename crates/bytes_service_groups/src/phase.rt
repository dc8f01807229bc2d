// Where an event stands, as ten bytes: a kind, three bytes that depend on it, and a contract. Each is a byte of the layout, matched once,
// where it is read: an enum of it would be matched once more.
ghost use Rattle.std.specs.Prelude.{◌≡◌};
ghost use Rattle.std.proofs.lemmas.List.Edits.{sets};
ghost use Rattle.bytes_service_groups.specs.Phase.{phase_bytes, standing_at, standing_bytes, mismatch_in, leaver_byte, stage_byte, stage_charger, closed_standing, contract_of, standing, invalid_from, result_from, closed_from, leaving_from, leaver_from, switching_from, stage_from, connecting_from, providing_from, phase_from};

use bytes_groups::place;
use bytes_groups::tagged::{available_from, is_empty};
use interface_display::AvailableConsumer;
use interface_records::group::Group;
use machine_state::phase::{Leaver, Phase, Stage};
use power_policy_interface::capability::DisconnectFlags;
use power_policy_interface::psu;
use power_policy_interface::psu::StateKind;

// Ten bytes by value.
#[derive(Clone, Copy)]
pub struct Standing {
    pub kind: u8,
    pub a: u8,
    pub b: u8,
    pub c: u8,
    pub contract: Group,
}

// No From, here and below: the machine's types know no image, and the check refuses an impl whose trait and types are of other crates (orphan-impl).
fn mismatch_in(r: Result<(), psu::Error>) -> Option<psu::Mismatch>
    ensures { result ≡ mismatch_in r }
{
    r.err().and_then(psu::Error::mismatch)
}

// 0 the PSU, i + 1 charger i.
fn leaver_byte(l: Leaver) -> u8
    ensures { result ≡ leaver_byte l }
{
    match l {
        Leaver::Psu => 0,
        Leaver::Charger(i) => i.saturating_add(1),
    }
}

fn stage_byte(s: Stage) -> u8
    ensures { result ≡ stage_byte s }
{
    match s {
        Stage::Psu => 0,
        Stage::Settling => 1,
        Stage::Readying(_) => 2,
        Stage::Initializing(_) => 3,
        Stage::Attaching(_) => 4,
    }
}

// The charger of a stage, 0 for none.
fn stage_charger(s: Stage) -> u8
    ensures { result ≡ stage_charger s }
{
    match s {
        Stage::Psu | Stage::Settling => 0,
        Stage::Readying(i) | Stage::Initializing(i) | Stage::Attaching(i) => i,
    }
}

// A closed event's answer.
fn closed_standing(r: Result<(), psu::Error>) -> Standing
    ensures { result ≡ closed_standing r }
{
    let m = mismatch_in(r);
    Standing {
        kind: 0,
        a: psu::answer_byte(r),
        b: psu::expected(m),
        c: psu::actual(m),
        contract: Group::empty(0),
    }
}

// A consumer as a contract.
fn contract_of(new: AvailableConsumer) -> Group
    ensures { result ≡ contract_of new }
{
    Group::of(new.psu, new.consumer_power_capability)
}

impl From<Phase> for Standing {
    ghost from_gives = { λ p g. g ≡ standing p };

    fn from(p: Phase) -> Standing {
        match p {
            Phase::Closed(r) => closed_standing(r),
            Phase::Leaving(i, port, f) => Standing {
                kind: 1,
                a: i,
                b: port,
                c: u8::from(f),
                contract: Group::empty(0),
            },
            Phase::Switching(l, old, f, new) => Standing {
                kind: 2,
                a: leaver_byte(l),
                b: old,
                c: u8::from(f),
                contract: contract_of(new),
            },
            Phase::Connecting(s, new) => Standing {
                kind: 3,
                a: stage_byte(s),
                b: stage_charger(s),
                c: 0,
                contract: contract_of(new),
            },
            Phase::Providing(port, k) => Standing {
                kind: 4,
                a: 0,
                b: 0,
                c: 0,
                contract: Group::of(port, k),
            },
        }
    }
}

// An InvalidState: with no expected states it carries nothing.
fn read_invalid(b: u8, c: u8) -> Option<Result<(), psu::Error>>
    ensures { result ≡ invalid_from b c }
{
    let m = match b {
        0 if c == 0 => None,
        0 => return None,
        _ => Some(psu::Mismatch {
            expected: b,
            actual: StateKind::try_from(c).ok()?,
        }),
    };
    Some(Err(psu::Error::InvalidState(m)))
}

// An answer; expected and actual states stand only with 4.
fn read_result(a: u8, b: u8, c: u8) -> Option<Result<(), psu::Error>>
    ensures { result ≡ result_from a b c }
{
    match (a, b, c) {
        (4, _, _) => read_invalid(b, c),
        (_, 0, 0) => psu::answer_from(a),
        _ => None,
    }
}

fn read_leaver(a: u8) -> Leaver
    ensures { result ≡ leaver_from a }
{
    match a {
        0 => Leaver::Psu,
        _ => Leaver::Charger(a - 1),
    }
}

// The stage of an image's bytes. Its number is looked at here alone, and with it the charger's.
fn read_stage(a: u8, b: u8) -> Option<Stage>
    ensures { result ≡ stage_from a b }
{
    match a {
        0 if b == 0 => Some(Stage::Psu),
        1 if b == 0 => Some(Stage::Settling),
        2 => Some(Stage::Readying(b)),
        3 => Some(Stage::Initializing(b)),
        4 => Some(Stage::Attaching(b)),
        _ => None,
    }
}

impl Standing {
    // Bytes 37 to 46, each by its name, as the groups of bytes_groups.
    pub fn at(s: &[u8]) -> Standing
        ensures { result ≡ standing_at s.now 37 }
    {
        Standing {
            kind: place::byte(s, 37, 0),
            a: place::byte(s, 37, 1),
            b: place::byte(s, 37, 2),
            c: place::byte(s, 37, 3),
            contract: Group::at(s, 41),
        }
    }

    // A method, as the library's to_le_bytes: with a From each call would name the array's length.
    pub fn bytes(self) -> [u8; 10]
        ensures { result ≡ standing_bytes self }
    {
        let mut bytes = [0; 10];
        bytes[..4].copy_from_slice(&[self.kind, self.a, self.b, self.c]);
        bytes[4..].copy_from_slice(&self.contract.bytes());
        bytes
    }

    fn closed(self) -> Option<Phase>
        ensures { result ≡ closed_from self }
    {
        if !is_empty(self.contract) {
            return None;
        }
        Some(Phase::Closed(read_result(self.a, self.b, self.c)?))
    }

    fn leaving(self) -> Option<Phase>
        ensures { result ≡ leaving_from self }
    {
        if !is_empty(self.contract) {
            return None;
        }
        let f = DisconnectFlags::try_from(self.c).ok()?;
        Some(Phase::Leaving(self.a, self.b, f))
    }

    fn switching(self) -> Option<Phase>
        ensures { result ≡ switching_from self }
    {
        let l = read_leaver(self.a);
        let f = DisconnectFlags::try_from(self.c).ok()?;
        let new = available_from(self.contract)?;
        Some(Phase::Switching(l, self.b, f, new))
    }

    fn connecting(self) -> Option<Phase>
        ensures { result ≡ connecting_from self }
    {
        if self.c != 0 {
            return None;
        }
        let s = read_stage(self.a, self.b)?;
        let new = available_from(self.contract)?;
        Some(Phase::Connecting(s, new))
    }

    fn providing(self) -> Option<Phase>
        ensures { result ≡ providing_from self }
    {
        if (self.a, self.b, self.c) != (0, 0, 0) {
            return None;
        }
        let contract = self.contract;
        Some(Phase::Providing(contract.number, contract.flagged()?))
    }

    // The phase; refused for bytes that none is written as. The kind is a byte of the image, matched once, here.
    pub fn read(self) -> Option<Phase>
        ensures { result ≡ phase_from self }
    {
        match self.kind {
            0 => self.closed(),
            1 => self.leaving(),
            2 => self.switching(),
            3 => self.connecting(),
            4 => self.providing(),
            _ => None,
        }
    }
}

// Stores bytes 37 to 46.
pub fn put_phase(image: &mut [u8], phase: Phase)
    ensures { image.new ≡ sets image.old 37 (phase_bytes phase) }
{
    place::put(image, 37, &Standing::from(phase).bytes());
}
