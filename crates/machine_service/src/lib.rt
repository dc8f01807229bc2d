// The service between calls: a start, and then one call for each event and for each answer to an order.
#![tactic(auto)]

pub mod refusals;
pub mod send;

ghost use Rattle.std.specs.Prelude.{◌≡◌, ◌<◌};
ghost use Rattle.power_policy_interface.specs.Limits.{largest};
ghost use Rattle.power_policy_interface.specs.Refusal.{numbered};
ghost use Rattle.machine_update.specs.Update.{closed};
ghost use Rattle.machine_service.specs.Refusals.{is_open};
ghost use Rattle.machine_service.specs.Service.{fresh_service, start_of, increment, accepted, closed_by, ordered_by, moved, cleared_of, opened_of, open_of, answered_by, answer_of, stepped_by};

use crate::refusals::{Opening, answer_refusal};
use abstract_policy::order::Order;
use abstract_policy::outcome::Step;
use abstract_policy::state::{InternalState, Records, Registration};
use machine_process::{answered, process_psu_event};
use machine_state::memory::{Memory, Notices};
use machine_state::phase::{Phase, Stand, Turn};
use machine_update::Present;
use power_policy_interface::limits::{MAX_CHARGERS, MAX_PORTS};
use power_policy_interface::psu;
use power_policy_interface::psu::event::Event;
use power_policy_interface::refusal::Refusal;
use power_policy_service::config::Config;

// Ports, as wide as the number that a start is given.
const PORTS: u32 = MAX_PORTS as u32;

// Chargers likewise.
const CHARGERS: u32 = MAX_CHARGERS as u32;

// The service between calls: what is registered, the number of the event closed last, what is held with the notices of the open
// or last closed event, how many orders that event has given, and where it stands.
#[derive(Clone, Copy)]
pub struct Service {
    pub registration: Registration,
    pub number: u32,
    pub memory: Memory,
    pub orders: u8,
    pub phase: Phase,
}

// What an accepted call brings about, and the service after it.
#[derive(Clone, Copy)]
pub struct Stepped {
    pub step: Step,
    pub service: Service,
}

// No event yet, with what is registered.
fn fresh(config: Config, ports: u8, chargers: u8) -> Service
    ensures { result ≡ fresh_service config ports chargers }
{
    Service {
        registration: Registration {
            config,
            ports,
            chargers,
        },
        number: 0,
        memory: Memory {
            state: InternalState::default(),
            notices: Notices::new(),
        },
        orders: 0,
        phase: Phase::Closed(Ok(())),
    }
}

// A start with the configuration that was read, and how many ports and chargers there are.
pub fn start(config: Option<Config>, ports: u32, chargers: u32) -> Result<Service, Refusal>
    ensures { numbered result ≡ start_of config ports chargers }
{
    if PORTS < ports || CHARGERS < chargers {
        return Err(Refusal::Registration);
    }
    let config = config.ok_or(Refusal::Registration)?;
    Ok(fresh(config, ports as u8, chargers as u8))
}

// One order more; no event gives 255.
fn one_more(orders: u8) -> u8
    ensures { result ≡ increment 255 orders }
{
    orders.saturating_add(1)
}

// The next event number; the last is never passed, since 28 turns the event back.
fn next_number(number: u32) -> u32
    ensures { result ≡ increment largest number }
{
    number.saturating_add(1)
}

impl Service {
    // Whether an event is open: it waits for the answer to an order.
    pub fn is_open(self) -> bool
        ensures { result ≡ is_open self.phase }
    {
        self.phase.order().is_some()
    }

    // What an event reads.
    fn present(self, records: Records) -> Present
        ensures { result ≡ record { registration = self.registration; records = records } }
    {
        Present {
            registration: self.registration,
            records,
        }
    }

    // The memory of a new event: no notices.
    fn cleared(self) -> Memory
        ensures { result ≡ cleared_of self }
    {
        Memory {
            notices: Notices::new(),
            ..self.memory
        }
    }

    // The event is closed with this answer after so many orders, which gives it its number.
    fn closed(self, orders: u8, memory: Memory, answer: Result<(), psu::Error>) -> Stepped
        ensures { accepted result ≡ closed_by self.registration self.number orders (closed answer memory) }
    {
        Stepped {
            step: Step::Closed(answer, orders),
            service: Service {
                number: next_number(self.number),
                orders,
                memory,
                phase: Phase::Closed(answer),
                ..self
            },
        }
    }

    // The event is at an order, which counts.
    fn ordered(self, orders: u8, turn: Turn, order: Order) -> Stepped
        ensures { accepted result ≡ ordered_by self.registration self.number orders turn order }
    {
        Stepped {
            step: Step::Order(order),
            service: Service {
                orders: one_more(orders),
                memory: turn.memory,
                phase: turn.phase,
                ..self
            },
        }
    }

    // Where a turn leaves the service, after so many orders.
    fn moved(self, orders: u8, turn: Turn) -> Stepped
        ensures { accepted result ≡ moved self.registration self.number orders turn }
    {
        match turn.phase.stand() {
            Stand::Closed(answer) => self.closed(orders, turn.memory, answer),
            Stand::Order(order) => self.ordered(orders, turn, order),
        }
    }

    // An event from a port, with no notices and no orders so far.
    fn opened(self, event: Event, records: Records) -> Stepped
        ensures { accepted result ≡ opened_of self event.port event.event records }
    {
        let turn = process_psu_event(&self.present(records), self.cleared(), event);
        self.moved(0, turn)
    }

    // An event of a kind from a port or a charger. A charger's event is accepted and changes nothing. Numbers, here and in `answer`, as C gives them.
    pub fn open(
        self,
        kind: u32,
        device: u32,
        detail: u32,
        records: Records,
    ) -> Result<Stepped, Refusal>
        ensures { stepped_by self result ≡ open_of self kind device detail records }
    {
        match self.open_refusal(kind, device, detail)? {
            Opening::Psu(event) => Ok(self.opened(event, records)),
            Opening::Charger => Ok(Stepped {
                step: Step::Closed(Ok(()), 0),
                service: self,
            }),
        }
    }

    // An answer to an order.
    fn answered(self, order: Order, answer: Result<(), psu::Error>, records: Records) -> Stepped
        ensures { accepted result ≡ answered_by self order answer records }
    {
        let present = self.present(records);
        let turn = answered(&present, self.phase, order, self.memory, answer);
        self.moved(self.orders, turn)
    }

    // The answer to the open order.
    pub fn answer(self, answer: u32, records: Records) -> Result<Stepped, Refusal>
        ensures { stepped_by self result ≡ answer_of self answer records }
    {
        let (order, result) = answer_refusal(self.phase.order(), answer)?;
        Ok(self.answered(order, result, records))
    }
}
