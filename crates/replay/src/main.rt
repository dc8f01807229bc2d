// Replays answers of the original Rust, and of REF-22 for bad input, which stand on standard input as vectors of 49 bytes:
// an operation, the record before (18), an argument (6), the result (6) and the record after (18). rust/README.md says what
// each operation is. It writes how many vectors there were and how many differ, and the first that does.
#![tactic(auto)]

ghost use Rattle.std.specs.Prelude.{◌<◌};

use interface_records::group::{Group, byte};
use power_policy_interface::capability::{
    ConsumerFlags, DisconnectFlags, ProviderFlags, number_of,
};
use power_policy_interface::charger::event::PsuState;
use power_policy_interface::{charger, psu};
use std::cmp::Ordering;
use std::io::{self, ErrorKind, Read};

// What came of the vectors: how many there were, how many differ, and the number of the first that does.
#[derive(Clone, Copy)]
struct Count {
    vectors: u64,
    differ: u64,
    first: Option<u64>,
}

// The result and the record after it.
#[derive(Clone, Copy, PartialEq, Eq)]
struct Answer {
    result: [u8; 6],
    record: [u8; 18],
}

// A vector: what is asked, and the answer to it.
#[derive(Clone, Copy)]
struct Vector {
    // Which call is made, by its number in the vectors: it stands once, at the arm that makes the call. An enum would list each of the 33 twice more, where
    // it is declared and where the number is read.
    operation: u8,
    before: [u8; 18],
    argument: [u8; 6],
    answer: Answer,
}

// Each of the functions below matches the operation for itself, as `Vector` says.
impl Vector {
    // The parts of a vector's bytes, each by its place. Called at one place: no From.
    fn of(bytes: [u8; 49]) -> Vector {
        let mut v = Vector {
            operation: bytes[0],
            before: [0; 18],
            argument: [0; 6],
            answer: told(0, 0, 0),
        };
        v.before.copy_from_slice(&bytes[1..19]);
        v.argument.copy_from_slice(&bytes[19..25]);
        v.answer.result.copy_from_slice(&bytes[25..31]);
        v.answer.record.copy_from_slice(&bytes[31..]);
        v
    }

    // Whether the answer is the one that the port gives: six bytes 255, which no call gives, for what the port does not take.
    fn agrees(self) -> bool {
        let untaken = Answer {
            result: [255; 6],
            record: [0; 18],
        };
        self.ask().unwrap_or(untaken) == self.answer
    }
}

// Whether the next vector agrees, if there is one: a last one that is cut short does not. It is read at once: standard input has no buffer
// here, and each read is a call of the system.
fn next<R: Read>(input: &mut R) -> io::Result<Option<bool>> {
    let mut bytes = [0u8; 49];
    let got = input.read(&mut bytes)?;
    if got == 0 {
        return Ok(None);
    }
    match input.read_exact(&mut bytes[got..]) {
        Ok(()) => Ok(Some(Vector::of(bytes).agrees())),
        Err(e) if e.kind() == ErrorKind::UnexpectedEof => Ok(Some(false)),
        Err(e) => Err(e),
    }
}

fn count_all<R: Read>(input: &mut R) -> io::Result<Count> {
    let mut count = Count {
        vectors: 0,
        differ: 0,
        first: None,
    };
    for n in 1..0x1_0000_0000 {
        let Some(agrees) = next(input)? else {
            break;
        };
        count.vectors = n;
        if !agrees {
            count.differ += 1;
            count.first = count.first.or(Some(n));
        }
    }
    Ok(count)
}

// The answers of the port.

// A result of three bytes, and no record.
fn told(a: u8, b: u8, c: u8) -> Answer {
    Answer {
        result: [a, b, c, 0, 0, 0],
        record: [0; 18],
    }
}

impl Vector {
    // None for a vector that the port does not take.
    fn ask(self) -> Option<Answer> {
        match self.operation {
            0..=10 => self.ask_psu(interface_records::psu::read(&self.before)?),
            11..=18 => self.ask_charger(interface_records::charger::read(self.front())?),
            19..=23 => self.ask_capability(),
            _ => self.ask_bytes(),
        }
    }

    // PSU

    fn ask_psu(self, before: psu::State) -> Option<Answer> {
        let mut s = before;
        let result = match self.operation {
            1 => s.attach(),
            2 => {
                s.detach();
                Ok(())
            }
            3 => s.disconnect(self.argument[0] == 1),
            4 => {
                let capability = Group::at(&self.argument, 0).option_flagged()?;
                s.update_consumer_power_capability(capability)
            }
            5 => {
                let capability = Group::at(&self.argument, 0).option_flagged()?;
                s.update_requested_provider_power_capability(capability)
            }
            6 => s.can_connect_consumer(),
            7 => s.connect_consumer(group(&self.argument).flagged()?),
            8 => s.can_connect_provider(),
            9 => s.connect_provider(group(&self.argument).flagged()?),
            10 => return Some(connected_provider(s)),
            _ => return None,
        };
        Some(after_psu(result, s))
    }

    // Charger

    fn ask_charger(self, before: charger::State) -> Option<Answer> {
        let mut s = before;
        let result = match self.operation {
            11 => s.on_initialized(PsuState::try_from(self.argument[0]).ok()?),
            12 => s.on_psu_state_change(PsuState::try_from(self.argument[0]).ok()?),
            13 => Ok(s.on_timeout()),
            14 => Ok(s.on_ready_success()),
            15 => Ok(s.on_ready_failure()),
            16 => Ok(s.on_policy_attach(group(&self.argument).flagged()?)),
            17 => Ok(s.on_policy_detach()),
            18 => return Some(after_charger(told(u8::from(s.is_unpowered()), 0, 0), s)),
            _ => return None,
        };
        Some(after_charger(charger_result(result), s))
    }

    // Capabilities and defaults

    fn ask_capability(self) -> Option<Answer> {
        let a = group(&self.before).capability();
        match self.operation {
            19 => Some(milliwatts(a.max_power_mw())),
            20 => Some(told(order(a.cmp(group(&self.argument).capability())), 0, 0)),
            21 => {
                let reason = DisconnectFlags::try_from(self.before[0]).ok()?.reason?;
                Some(told(u8::from(reason.is_renegotiation()), 0, 0))
            }
            22 => Some(after_psu(Ok(()), psu::State::default())),
            23 => Some(after_charger(told(0, 0, 0), charger::State::default())),
            _ => None,
        }
    }

    // Bytes that may be refused: a result of zeros then.

    fn ask_bytes(self) -> Option<Answer> {
        let first = self.before[0];
        let taken = match self.operation {
            24 => interface_records::psu::read(&self.before).map(|s| Answer {
                record: interface_records::psu::write(s),
                ..told(1, 0, 0)
            }),
            25 => interface_records::charger::read(self.front()).map(|s| after_charger(
                told(1, 0, 0),
                s,
            )),
            26 => ConsumerFlags::try_from(first).ok().map(|f| told(
                1,
                u8::from(f.unconstrained_power),
                number_of(f.psu_type),
            )),
            27 => ProviderFlags::try_from(first)
                .ok()
                .map(|f| told(1, 0, number_of(f.psu_type))),
            28 => {
                let mut bytes = [0; 400];
                let row = self.changed(&mut bytes)?;
                interface_records::psu::read_row(row, first as usize).map(|_| told(1, 0, 0))
            }
            29 => {
                let mut bytes = [0; 400];
                let row = self.changed(&mut bytes)?;
                interface_records::charger::read_row(row, first as usize).map(|_| told(1, 0, 0))
            }
            30 => DisconnectFlags::try_from(first).ok().map(|_| told(1, 0, 0)),
            31 => psu::answer_from(first).map(|_| told(1, 0, 0)),
            32 => PsuState::try_from(first)
                .ok()
                .map(|p| told(1, u8::from(p == PsuState::Detached), 0)),
            _ => return None,
        };
        Some(taken.unwrap_or(told(0, 0, 0)))
    }

    // The front of a row of zeros with one byte changed: count, length, place, value.
    fn changed<'a>(self, bytes: &'a mut [u8; 400]) -> Option<&'a [u8]> {
        let [_, length_low, length_high, place_low, place_high, value, ..] = self.before;
        let length = u16::from_le_bytes([length_low, length_high]);
        let place = u16::from_le_bytes([place_low, place_high]);
        if let Some(byte) = bytes.get_mut(usize::from(place)) {
            *byte = value;
        }
        bytes.get(..usize::from(length))
    }

    // The seven bytes of a charger record.
    fn front(&self) -> &[u8] {
        &self.before[..7]
    }
}

// A capability of five bytes, as the group with a number before it.
fn group(s: &[u8]) -> Group {
    Group {
        number: 1,
        v0: byte(s, 0, 0),
        v1: byte(s, 0, 1),
        c0: byte(s, 0, 2),
        c1: byte(s, 0, 3),
        flags: byte(s, 0, 4),
    }
}

fn after_psu(answer: Result<(), psu::Error>, s: psu::State) -> Answer {
    let mismatch = answer.err().and_then(|e| e.mismatch());
    Answer {
        record: interface_records::psu::write(s),
        ..told(
            psu::answer_byte(answer),
            psu::expected(mismatch),
            psu::actual(mismatch),
        )
    }
}

fn connected_provider(s: psu::State) -> Answer {
    Answer {
        result: Group::of_option(s.connected_provider_capability()).bytes(),
        record: interface_records::psu::write(s),
    }
}

fn after_charger(answer: Answer, s: charger::State) -> Answer {
    let mut record = [0; 18];
    record[..7].copy_from_slice(&interface_records::charger::write(s));
    Answer { record, ..answer }
}

fn charger_result(answer: Result<(), charger::ChargerError>) -> Answer {
    match answer {
        Ok(()) => told(0, 0, 0),
        Err(charger::ChargerError::InvalidState(s)) => told(1, u8::from(s), 0),
        Err(charger::ChargerError::Timeout) => told(2, 0, 0),
        Err(charger::ChargerError::BusError) => told(3, 0, 0),
        Err(charger::ChargerError::UnknownEvent) => told(4, 0, 0),
    }
}

fn milliwatts(n: u32) -> Answer {
    let [a, b, c, d] = n.to_le_bytes();
    Answer {
        result: [a, b, c, d, 0, 0],
        record: [0; 18],
    }
}

fn order(o: Ordering) -> u8 {
    match o {
        Ordering::Less => 0,
        Ordering::Equal => 1,
        Ordering::Greater => 2,
    }
}

fn main(rt: HostRuntime) -> io::Result<()> {
    let Count {
        vectors,
        differ,
        first,
    } = count_all(&mut rt.reader())?;
    println!(rt; "{vectors} vectors, {differ} differ")?;
    if let Some(first) = first {
        println!(rt; "first: {first}")?;
    }
    Ok(())
}
