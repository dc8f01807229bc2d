// What a call names by its numbers (as C gives them: an enum would ask more of callers), read once, and what turns it back: each numbered
// condition (REF-23 to REF-28) on what it looks at, and the first that applies.
ghost use Rattle.std.specs.Prelude.{◌≡◌, ◌<◌, ◌&&◌, eqb, ltb, cond, IfOk, None, Some};
ghost use Rattle.abstract_policy.specs.Given.{flags_of, event_of, result_of};
ghost use Rattle.abstract_policy.specs.Refusals.{first_refused, not_registered, unknown_event, other_error, unknown_answer, answer_conditions};
ghost use Rattle.power_policy_interface.specs.Limits.{largest};
ghost use Rattle.power_policy_interface.specs.Psu.{error_byte};
ghost use Rattle.power_policy_interface.specs.Refusal.{turned_back_by};
ghost use Rattle.machine_service.specs.Refusals.{opening_of, is_psu, open_refusals};

use crate::Service;
use abstract_policy::order::Order;
use abstract_policy::state::Registration;
use power_policy_interface::capability::DisconnectFlags;
use power_policy_interface::psu;
use power_policy_interface::psu::event::{Event, EventData};
use power_policy_interface::refusal::Refusal;

// What is opened: an event from a port, or a charger's.
#[derive(Clone, Copy)]
pub enum Opening {
    Psu(Event),
    Charger,
}

// The port or charger of a number, unless it is none that is registered (23). It is looked at before the kind is known: kind 5 names a charger, every other
// number a port.
fn registered(registration: Registration, kind: u32, device: u32) -> Option<u8>
    ensures { result ≡ cond (not_registered registration.ports registration.chargers kind device) None (Some device) }
{
    let count = if kind == 5 {
        registration.chargers
    } else {
        registration.ports
    };
    u8::try_from(device).ok().filter(|&d| d < count)
}

// The reason of a Disconnected event; none for a number above 6.
fn flags_from(detail: u32) -> Option<DisconnectFlags>
    ensures { result ≡ cond (ltb 6 detail) None (Some (flags_of detail)) }
{
    u8::try_from(detail)
        .ok()
        .and_then(|b| DisconnectFlags::try_from(b).ok())
}

// What a kind opens at a port or a charger, with its detail; none that is known has another kind, reason or charger's state (24).
fn opening_from(kind: u32, device: u8, detail: u32) -> Option<Opening>
    ensures { result ≡ cond (unknown_event kind detail) None (Some (opening_of kind device detail)) }
{
    let event = match kind {
        0 => EventData::Attached,
        1 => EventData::UpdatedConsumerCapability,
        2 => EventData::RequestedProviderCapability,
        3 => EventData::Disconnected(flags_from(detail)?),
        4 => EventData::Detached,
        5 if detail <= 1 => return Some(Opening::Charger),
        _ => return None,
    };
    Some(Opening::Psu(Event {
        port: device,
        event,
    }))
}

// 28
fn numbers_used(opening: Opening, number: u32) -> bool
    ensures { result ≡ (is_psu opening && eqb number largest) }
{
    matches!(opening, Opening::Psu(_)) && number == u32::MAX
}

impl Service {
    // What an event opens, or what turns it back. A port that is not turned back is a byte.
    pub fn open_refusal(self, kind: u32, device: u32, detail: u32) -> Result<Opening, Refusal>
        ensures first { turned_back_by result ≡ first_refused (open_refusals self kind device detail) }
        ensures port { IfOk result (λ _. (kind ≡ 5 → ⊥) → device < 256) }
        ensures opens { IfOk result (λ o. o ≡ opening_of kind device detail) }
    {
        let device = registered(self.registration, kind, device).ok_or(Refusal::NotRegistered)?;
        let opening = opening_from(kind, device, detail).ok_or(Refusal::Unknown)?;
        if self.is_open() {
            return Err(Refusal::EventOpen);
        }
        if numbers_used(opening, self.number) {
            return Err(Refusal::NumbersUsed);
        }
        Ok(opening)
    }
}

// Whether an error is none that the order fails with: a wait does not fail, and a charger's order fails with Charger alone.
fn other_error(order: Order, e: psu::Error) -> bool
    ensures { result ≡ other_error order (error_byte e) }
{
    match order {
        Order::Disconnect(_) | Order::ConnectConsumer(_, _) | Order::ConnectProvider(_, _) => false,
        Order::Wait => true,
        _ => !matches!(e, psu::Error::Charger),
    }
}

// The answer of a number; none above 10, and none that the open order does not give (24).
fn answer_from(order: Option<Order>, answer: u32) -> Option<Result<(), psu::Error>>
    ensures { result ≡ cond (unknown_answer order answer) None (Some (result_of answer)) }
{
    let result = u8::try_from(answer).ok().and_then(psu::answer_from)?;
    match (order, result) {
        (Some(o), Err(e)) if other_error(o, e) => None,
        _ => Some(result),
    }
}

// The open order with its answer, or what turns the answer back.
pub fn answer_refusal(
    order: Option<Order>,
    answer: u32,
) -> Result<(Order, Result<(), psu::Error>), Refusal>
    ensures first { turned_back_by result ≡ first_refused (answer_conditions order answer) }
    ensures open { IfOk result (λ a. order ≡ Some a.0) }
    ensures given { IfOk result (λ a. a.1 ≡ result_of answer) }
{
    let result = answer_from(order, answer).ok_or(Refusal::Unknown)?;
    let order = order.ok_or(Refusal::NoOrder)?;
    Ok((order, result))
}
