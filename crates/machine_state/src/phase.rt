// Where an event stands: closed with its answer, or at an order with what is left of it as data.
ghost use Rattle.std.specs.Prelude.{◌≡◌};
ghost use Rattle.machine_state.specs.Phase.{stand_of, order_of, switch_order, connect_order, outcome_of};

use crate::memory::Memory;
use abstract_policy::order::Order;
use interface_display::AvailableConsumer;
use power_policy_interface::capability::{DisconnectFlags, ProviderPowerCapability};
use power_policy_interface::psu;

// What is being disconnected from the old consumer: its PSU, or a charger.
#[derive(Clone, Copy)]
pub enum Leaver {
    Psu,
    Charger(u8),
}

// How far the new consumer is connected.
#[derive(Clone, Copy)]
pub enum Stage {
    // Its PSU is being connected.
    Psu,
    // The supply settles.
    Settling,
    // This charger is asked whether it is ready.
    Readying(u8),
    // This charger is being initialized.
    Initializing(u8),
    // This charger is being attached.
    Attaching(u8),
}

// What is left of an event after its open order, or how it closed. Data and no closure: the image holds it between C calls.
#[derive(Clone, Copy)]
pub enum Phase {
    // Closed with this answer.
    Closed(Result<(), psu::Error>),
    // No consumer is left: this charger is being detached from that port.
    Leaving(u8, u8, DisconnectFlags),
    // The consumer of this port gives way to a new one.
    Switching(Leaver, u8, DisconnectFlags, AvailableConsumer),
    // The new consumer is being connected.
    Connecting(Stage, AvailableConsumer),
    // This port is being connected as provider.
    Providing(u8, ProviderPowerCapability),
}

// Where an event stands: at its open order, or closed with this answer.
#[derive(Clone, Copy)]
pub enum Stand {
    Order(Order),
    Closed(Result<(), psu::Error>),
}

// What an answer to the order comes to: a charger's error is Charger, and a wait does not fail.
pub fn outcome(order: Order, answer: Result<(), psu::Error>) -> Result<(), psu::Error>
    ensures { result ≡ outcome_of order answer }
{
    match answer {
        Ok(()) => Ok(()),
        Err(e) => match order {
            Order::Disconnect(_) | Order::ConnectConsumer(_, _) | Order::ConnectProvider(_, _) => {
                Err(e)
            }
            Order::Wait => Ok(()),
            _ => Err(psu::Error::Charger),
        },
    }
}

impl Leaver {
    pub fn order(self, port: u8) -> Order
        ensures { result ≡ switch_order self port }
    {
        match self {
            Leaver::Psu => Order::Disconnect(port),
            Leaver::Charger(i) => Order::Detach(i),
        }
    }
}

impl Stage {
    pub fn order(self, new: AvailableConsumer) -> Order
        ensures { result ≡ connect_order self new }
    {
        match self {
            Stage::Psu => Order::ConnectConsumer(new.psu, new.consumer_power_capability),
            Stage::Settling => Order::Wait,
            Stage::Readying(i) => Order::IsReady(i),
            Stage::Initializing(i) => Order::InitCharger(i),
            Stage::Attaching(i) => Order::Attach(i, new.consumer_power_capability),
        }
    }
}

impl Phase {
    // The open order, or how the event closed.
    pub fn stand(self) -> Stand
        ensures { result ≡ stand_of self }
    {
        match self {
            Phase::Closed(answer) => Stand::Closed(answer),
            Phase::Leaving(i, _, _) => Stand::Order(Order::Detach(i)),
            Phase::Switching(leaver, port, _, _) => Stand::Order(leaver.order(port)),
            Phase::Connecting(stage, new) => Stand::Order(stage.order(new)),
            Phase::Providing(port, c) => Stand::Order(Order::ConnectProvider(port, c)),
        }
    }

    // The open order.
    pub fn order(self) -> Option<Order>
        ensures { result ≡ order_of self }
    {
        match self.stand() {
            Stand::Order(order) => Some(order),
            Stand::Closed(_) => None,
        }
    }
}

// Where a call leaves the event: its phase, which is what is left of it, as data, and what it has come to so far.
#[derive(Clone, Copy)]
pub struct Turn {
    pub phase: Phase,
    pub memory: Memory,
}
