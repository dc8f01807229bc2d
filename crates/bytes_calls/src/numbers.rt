// The 64-bit number that a C function returns: its low byte says what happened, the other bytes what belongs to it (docs/STATE.md).
ghost use Rattle.std.specs.Prelude.{◌≡◌};
ghost use Rattle.power_policy_interface.specs.Refusal.{numbered};
ghost use Rattle.abstract_calls.specs.Lent.{written_as};
ghost use Rattle.abstract_calls.specs.Numbers.{packed, refused_number, bare_order, capability_order, order_number, closed_number, step_number, written_number, done_number, lost_number, shown_number, consumer_number, tracked_number};
ghost use Rattle.bytes_calls.specs.Calls.{number_of};

use abstract_policy::order::Order;
use abstract_policy::outcome::Step;
use interface_display::packet::Picture;
use interface_display::providers::Providers;
use interface_display::{AvailableConsumer, State};
use power_policy_interface::capability::PowerCapability;
use power_policy_interface::psu;
use power_policy_interface::refusal::Refusal;

// The milliseconds of a wait.
const WAIT_MS: u16 = 800;

// Four bytes and two numbers of two bytes, lowest first.
fn pack(what: u8, a: u8, b: u8, c: u8, d: u16, e: u16) -> u64
    ensures { result ≡ packed what a b c d e }
{
    (what as u64)
        + 256 * (a as u64)
        + 65536 * (b as u64)
        + 16777216 * (c as u64)
        + 4294967296 * (d as u64)
        + 281474976710656 * (e as u64)
}

pub fn refused(number: u8) -> u64
    ensures { result ≡ refused_number number }
{
    pack(0, number, 0, 0, 0, 0)
}

// What a call returns: a number of its own, or that of what turns it back.
pub fn number_of(answer: Result<u64, Refusal>) -> u64
    ensures { result ≡ number_of answer }
{
    answer.unwrap_or_else(|r| refused(u8::from(r)))
}

// An order without a capability. The kind is the byte that C reads (docs/STATE.md): an enum of the kinds would be `Order` without its fields, which `order`
// matches once, giving each its byte.
fn bare(kind: u8, device: u8) -> u64
    ensures { result ≡ bare_order kind device }
{
    pack(1, kind, device, 0, 0, 0)
}

// An order with a capability, and its kind as in `bare`.
fn with_capability(kind: u8, device: u8, flags: u8, c: PowerCapability) -> u64
    ensures { result ≡ capability_order kind device flags c }
{
    pack(1, kind, device, flags, c.voltage_mv, c.current_ma)
}

pub fn order(order: Order) -> u64
    ensures { result ≡ order_number order }
{
    match order {
        Order::Disconnect(port) => bare(0, port),
        Order::ConnectConsumer(port, c) => with_capability(
            1,
            port,
            u8::from(c.flags),
            c.capability,
        ),
        Order::ConnectProvider(port, c) => with_capability(
            2,
            port,
            u8::from(c.flags),
            c.capability,
        ),
        Order::IsReady(i) => bare(3, i),
        Order::InitCharger(i) => bare(4, i),
        Order::Attach(i, c) => with_capability(5, i, u8::from(c.flags), c.capability),
        Order::Detach(i) => bare(6, i),
        Order::Wait => pack(1, 7, 0, 0, WAIT_MS, 0),
    }
}

// An event is closed with this answer, after so many orders.
pub fn closed(answer: Result<(), psu::Error>, orders: u8) -> u64
    ensures { result ≡ closed_number answer orders }
{
    match answer {
        Ok(()) => pack(2, 0, 0, 0, orders as u16, 0),
        Err(e) => {
            let m = e.mismatch();
            pack(
                2,
                u8::from(e),
                psu::expected(m),
                psu::actual(m),
                orders as u16,
                0,
            )
        }
    }
}

// What a step comes to. What turned it back is any byte, as in `refused`: a `Refusal` would ask more of callers.
pub fn step(step: Result<Step, u8>) -> u64
    ensures { result ≡ step_number step }
{
    match step {
        Ok(Step::Order(o)) => order(o),
        Ok(Step::Closed(answer, orders)) => closed(answer, orders),
        Err(turned_back) => refused(turned_back),
    }
}

// So many bytes were written, at most 255.
pub fn written(length: usize) -> u64
    ensures { result ≡ written_number length }
{
    pack(3, (length % 256) as u8, 0, 0, 0, 0)
}

// What writing into a buffer gave: a length, or what turned the write back, any byte as in `step`.
pub fn stored(w: Result<usize, u8>) -> u64
    ensures { result ≡ written_as w }
{
    match w {
        Ok(length) => written(length),
        Err(number) => refused(number),
    }
}

// What a write gave, with the number of what turned it back. No From: both types are the library's (orphan-impl).
pub fn by_number(w: Result<usize, Refusal>) -> Result<usize, u8>
    ensures { result ≡ numbered w }
{
    match w {
        Ok(length) => Ok(length),
        Err(refusal) => Err(u8::from(refusal)),
    }
}

pub fn done() -> u64
    ensures { result ≡ done_number }
{
    pack(4, 0, 0, 0, 0, 0)
}

pub fn lost() -> u64
    ensures { result ≡ lost_number }
{
    pack(5, 0, 0, 0, 0, 0)
}

// Showing a picture: its number with the unconstrained figures.
pub fn shown(s: State, p: Picture) -> u64
    ensures { result ≡ shown_number s p.number p.display }
{
    let u = p.display.unconstrained;
    pack(
        5,
        u8::from(s),
        u.unconstrained as u8,
        u.available,
        (p.number % 65536) as u16,
        (p.number / 65536) as u16,
    )
}

pub fn consumer(consumer: Option<AvailableConsumer>) -> u64
    ensures { result ≡ consumer_number consumer }
{
    match consumer {
        None => pack(6, 0, 0, 0, 0, 0),
        Some(a) => {
            let c = a.consumer_power_capability;
            pack(
                6,
                1,
                a.psu,
                u8::from(c.flags),
                c.capability.voltage_mv,
                c.capability.current_ma,
            )
        }
    }
}

pub fn tracked(t: Providers) -> u64
    ensures { result ≡ tracked_number t }
{
    pack(
        7,
        t.len() as u8,
        (t.mask % 256) as u8,
        (t.mask / 256) as u8,
        0,
        0,
    )
}
