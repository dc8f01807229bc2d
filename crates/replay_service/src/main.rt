// Replays runs of the original Rust through the service. They stand on standard input as rust/oracle/src/stream.rs lays them out: each
// start, event and answer, with what the Rust did. It writes how many events there were, how many outcomes were compared and
// how many differ, and the first that does.
#![tactic(auto)]

ghost use Rattle.std.specs.Prelude.{◌*◌, ◌≤◌, ◌<◌, ◌^◌};

use abstract_policy::order::Order;
use abstract_policy::outcome::Step;
use abstract_policy::state::{InternalState, Records, Registration};
use bytes_groups::tagged::Tagged;
use interface_display::providers::Providers;
use interface_records::group::Group;
use interface_records::row::{self, Record};
use machine_service::send::notices_of;
use machine_service::{Service, Stepped, start};
use machine_state::memory::Notices;
use power_policy_interface::limits::MAX_PORTS;
use power_policy_interface::service::event::Event;
use power_policy_interface::{charger, psu};
use power_policy_service::config::Config;
use std::io::{self, ErrorKind, Read};

// A call of the stream, with the byte after its letter.
#[derive(Clone, Copy)]
enum Call {
    // The first byte of the threshold.
    Start(u8),
    // The kind of event.
    Event(u8),
    // What the order came to.
    Answer(u8),
    // A letter of no call.
    Unknown,
}

impl Call {
    // Whether the stream says what the call leads to: of a start it does not.
    fn has_outcome(self) -> bool {
        !matches!(self, Call::Start(_))
    }
}

// What was compared.
#[derive(Clone, Copy, Default)]
struct Count {
    events: u64,
    vectors: u64,
    differ: u64,
    first: Option<u64>,
}

impl Count {
    // One call more, and whether what it led to agrees.
    fn add(&mut self, call: Call, agrees: bool) {
        let event = matches!(call, Call::Event(_));
        self.events = self.events.saturating_add(u64::from(event));
        self.vectors = self.vectors.saturating_add(u64::from(call.has_outcome()));
        if !agrees {
            self.differ = self.differ.saturating_add(1);
            self.first = self.first.or(Some(self.vectors));
        }
    }
}

// As many bytes as the array has.
fn read_array<R: Read, const N: usize>(input: &mut R) -> io::Result<[u8; N]> {
    let mut bytes = [0u8; N];
    input.read_exact(&mut bytes)?;
    Ok(bytes)
}

// What was read, none where the input ended before.
fn unless_cut<T>(read: io::Result<T>) -> io::Result<Option<T>> {
    match read {
        Ok(value) => Ok(Some(value)),
        Err(e) if e.kind() == ErrorKind::UnexpectedEof => Ok(None),
        Err(e) => Err(e),
    }
}

// The next call, none at the end. Where the input ends after the letter the byte counts as 0: what a call leads to is missing then too, so that it differs.
fn read_call<R: Read>(input: &mut R) -> io::Result<Option<Call>> {
    let mut bytes = [0u8; 2];
    // (Both at once: standard input has no buffer here, and each read is a call of the system.)
    let got = input.read(&mut bytes)?;
    if got == 0 {
        return Ok(None);
    }
    if got == 1 && unless_cut(input.read_exact(&mut bytes[1..]))?.is_none() {
        bytes[1] = 0;
    }
    let [letter, byte] = bytes;
    Ok(Some(match letter {
        b'S' => Call::Start(byte),
        b'O' => Call::Event(byte),
        b'A' => Call::Answer(byte),
        _ => Call::Unknown,
    }))
}

// What a call leads to; none where it is turned back, which none of the stream is. The input and the service go on as two: only an event and an answer
// ask both, and what reads an array, a row or an outcome asks the input alone.
fn step<R: Read>(input: &mut R, service: Service, call: Call) -> io::Result<Option<Stepped>> {
    match call {
        Call::Start(byte) => start_step(input, byte),
        Call::Event(kind) => open_step(input, service, kind),
        Call::Answer(answer) => answer_step(input, service, answer),
        Call::Unknown => Ok(None),
    }
}

// A start: 20 bytes more.
fn start_step<R: Read>(input: &mut R, a: u8) -> io::Result<Option<Stepped>> {
    let b = read_array::<R, 20>(input)?;
    let started = start(config(a, b), u32::from(b[16]), u32::from(b[17]));
    Ok(
        started.ok().map(|service| Stepped {
            step: Step::Closed(Ok(()), 0),
            service,
        }),
    )
}

fn config(a: u8, b: [u8; 20]) -> Option<Config> {
    Config::from_numbers(
        u64::from(u32::from_le_bytes([a, b[0], b[1], b[2]])),
        u64::from(u16::from_le_bytes([b[3], b[4]])),
        u64::from(u16::from_le_bytes([b[5], b[6]])),
        u64::from(u16::from_le_bytes([b[7], b[8]])),
        u64::from(u16::from_le_bytes([b[9], b[10]])),
        u64::from(b[11]),
        u64::from(u32::from_le_bytes([b[12], b[13], b[14], b[15]])),
    )
}

// An event: 2 bytes more, and the records.
fn open_step<R: Read>(input: &mut R, service: Service, kind: u8) -> io::Result<Option<Stepped>> {
    let [device, detail] = read_array::<R, 2>(input)?;
    let records = read_records(input, service.registration)?;
    Ok(records.and_then(|r| service
        .open(u32::from(kind), u32::from(device), u32::from(detail), r)
        .ok()))
}

// An answer: the records.
fn answer_step<R: Read>(
    input: &mut R,
    service: Service,
    answer: u8,
) -> io::Result<Option<Stepped>> {
    let records = read_records(input, service.registration)?;
    Ok(records.and_then(|r| service.answer(u32::from(answer), r).ok()))
}

// The records of all ports and chargers, none where one is refused.
fn read_records<R: Read>(input: &mut R, registration: Registration) -> io::Result<Option<Records>> {
    let psus = read_row::<R, psu::State, 16, 288>(input, registration.ports)?;
    let chargers = read_row::<R, charger::State, 8, 56>(input, registration.chargers)?;
    match (psus, chargers) {
        (Some(psus), Some(chargers)) => Ok(Some(Records { psus, chargers })),
        _ => Ok(None),
    }
}

// So many records, in the first places of a row. BYTES is what N of them have: the length of an array may not be computed of constants.
fn read_row<R: Read, S: Record + Default, const N: usize, const BYTES: usize>(
    input: &mut R,
    count: u8,
) -> io::Result<Option<[S; N]>>
    requires fits { N * S.LENGTH ≤ BYTES }
    requires size { BYTES < 2 ^ 63 }
{
    let mut bytes = [0u8; BYTES];
    let n = N.min(usize::from(count));
    let row = &mut bytes[..n * S::LENGTH];
    input.read_exact(row)?;
    Ok(row::read_row(row, n, S::default()))
}

// Whether what a call led to is what the stream has after it.
fn outcome<R: Read>(input: &mut R, call: Call, stepped: Option<Stepped>) -> io::Result<bool> {
    if !call.has_outcome() {
        return Ok(stepped.is_some());
    }
    let v = read_array::<R, 64>(input)?;
    Ok(stepped.is_some_and(|s| agrees(&v, s.step, of_its_own(call, s.service))))
}

// The service with the orders and notices of the call's own event: a charger's leaves those of the event before, and has none.
fn of_its_own(call: Call, mut service: Service) -> Service {
    if matches!(call, Call::Event(5)) {
        service.orders = 0;
        service.memory.notices = Notices::new();
    }
    service
}

fn agrees(v: &[u8], step: Step, service: Service) -> bool {
    match step {
        Step::Order(order) => rest_of_order(v, order).is_some_and(zeros),
        Step::Closed(answer, given) => {
            given == service.orders && close_agrees(v, answer, service)
        }
    }
}

// What is left after an order: 1, its number, then the device and the capability as a group.
fn rest_of_order(v: &[u8], order: Order) -> Option<&[u8]> {
    let (tag, group) = match order {
        Order::Disconnect(port) => (1, Group::empty(port)),
        Order::ConnectConsumer(port, c) => (2, Group::of(port, c)),
        Order::ConnectProvider(port, c) => (3, Group::of(port, c)),
        Order::IsReady(charger) => (4, Group::empty(charger)),
        Order::InitCharger(charger) => (5, Group::empty(charger)),
        Order::Attach(charger, c) => (6, Group::of(charger, c)),
        Order::Detach(charger) => (7, Group::empty(charger)),
        Order::Wait => (8, Group::empty(0)),
    };
    v.strip_prefix(&[1])?
        .strip_prefix(&Tagged { tag, group }.bytes())
}

// A close: 2, the answer, the expected states and the actual one, the orders, the notices in 33 bytes, and what is held.
fn close_agrees(v: &[u8], answer: Result<(), psu::Error>, service: Service) -> bool {
    let mismatch = answer.err().and_then(|e| e.mismatch());
    let head = [
        2,
        psu::answer_byte(answer),
        psu::expected(mismatch),
        psu::actual(mismatch),
        service.orders,
    ];
    let Some(rest) = v.strip_prefix(&head) else {
        return false;
    };
    let Some((notices, held)) = rest.split_at_checked(33) else {
        return false;
    };
    rest_of_notices(notices, service.memory.notices).is_some_and(zeros)
        && rest_of_held(held, service.memory.state).is_some_and(zeros)
}

// What is left after the notices: their number, then eight bytes each, the last of them 0.
fn rest_of_notices(v: &[u8], notices: Notices) -> Option<&[u8]> {
    let list = notices_of(notices);
    let mut rest = v.strip_prefix(&[list.len()])?;
    for e in &list.events[..usize::from(list.len())] {
        rest = rest.strip_prefix(&notice(*e).bytes())?.strip_prefix(&[0])?;
    }
    Some(rest)
}

// A notice: its number and a group. The follower's image has the table of its slots (tagged_of), but the vectors have a layout of their own, the oracle's,
// and what judges the service stands over no follower.
fn notice(e: Event) -> Tagged {
    let (tag, group) = match e {
        Event::ConsumerDisconnected(port, flags) => (1, Group::pair(port, u8::from(flags))),
        Event::ConsumerConnected(port, c) => (2, Group::of(port, c)),
        Event::ProviderDisconnected(port) => (3, Group::empty(port)),
        Event::ProviderConnected(port, c) => (4, Group::of(port, c)),
        Event::Unconstrained(u) => (5, Group::pair(u8::from(u.unconstrained), u.available)),
    };
    Tagged { tag, group }
}

// What is left after what is held: the consumer, both unconstrained figures, the power state, the tracked ports.
fn rest_of_held(v: &[u8], state: InternalState) -> Option<&[u8]> {
    let figures = [
        u8::from(state.unconstrained.unconstrained),
        state.unconstrained.available,
        u8::from(state.current_provider_state),
    ];
    let rest = v
        .strip_prefix(&Tagged::from(state.current_consumer_state).bytes())?
        .strip_prefix(&figures)?;
    rest_of_tracked(rest, state.connected_providers)
}

// What is left after the tracked ports: how many there are, then each.
fn rest_of_tracked(v: &[u8], providers: Providers) -> Option<&[u8]> {
    let (count, mut rest) = v.split_first()?;
    if u16::from(*count) != providers.len() {
        return None;
    }
    // By the ports' numbers: an iterator of the set would have this loop in it.
    for port in 0..MAX_PORTS {
        if providers.contains(port) {
            rest = rest.strip_prefix(&[port])?;
        }
    }
    Some(rest)
}

// Whether nothing is left but zeros. The follower's image has its own (slot::is_zero): for these three calls the follower would come under this program.
fn zeros(v: &[u8]) -> bool {
    v.iter().all(|b| *b == 0)
}

// Makes a call, and says whether it led to what the stream has after it.
fn follow<R: Read>(input: &mut R, service: &mut Service, call: Call) -> io::Result<bool> {
    let stepped = step(input, *service, call)?;
    if let Some(s) = stepped {
        *service = s.service;
    }
    outcome(input, call, stepped)
}

// A call that the input cuts short differs.
fn count_all<R: Read>(input: &mut R, mut service: Service) -> io::Result<Count> {
    let mut count = Count::default();
    for _ in 0..u32::MAX {
        let Some(call) = read_call(input)? else {
            break;
        };
        let agrees = unless_cut(follow(input, &mut service, call))?;
        count.add(call, agrees.unwrap_or(false));
    }
    Ok(count)
}

fn say(rt: &impl Print, c: Count) -> io::Result<()> {
    println!(rt; "{} events", c.events)?;
    println!(rt; "{} vectors, {} differ", c.vectors, c.differ)?;
    if let Some(first) = c.first {
        println!(rt; "first: {first}")?;
    }
    Ok(())
}

// A service with no ports: the stream begins with a start.
fn main(rt: HostRuntime) -> io::Result<()> {
    let Ok(service) = start(Some(Config::default()), 0, 0) else {
        return Ok(());
    };
    let count = count_all(&mut rt.reader(), service)?;
    say(&rt, count)
}
