// An event from its port to its close: the provider's steps (provider.rs), what an event does (service/mod.rs), and what an answer
// to its open order leads to. What is present goes beside the memory, as in machine_update: it is handed on as it is, and each step has another memory.
#![tactic(auto)]

ghost use Rattle.std.specs.Prelude.{◌≡◌};
ghost use Rattle.machine_process.specs.Process.{request_of, connect_provider_of, post_provider_of, remove_provider_of, depart_of, process_of, following, next_from, settle_of, after_stage, after_order, answered_of};

use abstract_policy::order::Order;
use interface_display::AvailableConsumer;
use machine_state::memory::{Disconnected, Memory, ProviderNotice};
use machine_state::phase::{Leaver, Phase, Stage, Turn, outcome};
use machine_update::{Present, Switch, close, connecting};
use power_policy_interface::capability::{
    DisconnectFlags, DisconnectReason, ProviderPowerCapability,
};
use power_policy_interface::psu;
use power_policy_interface::psu::event::{Event, EventData};
use power_policy_service::provider::{
    compute_total_provider_power_mw, power_state, target_power, total_with_request,
};

// What a request is granted, or the error of a port that cannot provide. The power state is set even then.
fn grant(present: &Present, memory: Memory, requester: u8, request: ProviderPowerCapability) -> Turn
    ensures { result ≡ request_of present.now.registration memory requester request present.now.records }
{
    let registration = present.registration;
    let total = total_with_request(present.records.psus, registration.ports, requester, request);
    let power = power_state(registration.config, total);
    let mut set = memory;
    set.state.current_provider_state = power;
    match present.records.psu(requester).can_connect_provider() {
        Ok(()) => Turn {
            phase: Phase::Providing(requester, target_power(registration.config, power, request)),
            memory: set,
        },
        Err(e) => close(Err(e), set),
    }
}

// Attempts to connect the requester as a provider.
fn connect_provider(present: &Present, memory: Memory, requester: u8) -> Turn
    ensures { result ≡ connect_provider_of present.now.registration memory requester present.now.records }
{
    match present.records.psu(requester).requested_provider_capability {
        None => close(Ok(()), memory),
        Some(request) => grant(present, memory, requester, request),
    }
}

// After a provider is connected: tracked if there is room, and the notice anyway.
fn post_provider_connected(mut memory: Memory, port: u8, target: ProviderPowerCapability) -> Memory
    ensures { result ≡ post_provider_of memory port target }
{
    let _ = memory.state.connected_providers.insert(port);
    memory.notices.provider = Some(ProviderNotice::Connected(port, target));
    memory
}

// When a provider is removed: untracked, the power state computed anew, and a notice. An untracked port changes nothing.
fn post_provider_removed(present: &Present, mut memory: Memory, port: u8) -> Memory
    ensures { result ≡ remove_provider_of present.now.registration memory port present.now.records }
{
    if !memory.state.connected_providers.remove(port) {
        return memory;
    }
    let registration = present.registration;
    let total = compute_total_provider_power_mw(present.records.psus, registration.ports);
    memory.state.current_provider_state = power_state(registration.config, total);
    memory.notices.provider = Some(ProviderNotice::Disconnected(port));
    memory
}

// A port no longer provides or consumes. It need not be the consumer's, and so port and reason are no Disconnected.
fn depart(present: &Present, memory: Memory, port: u8, flags: DisconnectFlags) -> Turn
    ensures { result ≡ depart_of present.now.registration memory port flags present.now.records }
{
    let removed = post_provider_removed(present, memory, port);
    present.update_current_consumer(removed, flags)
}

// An event from a port.
pub fn process_psu_event(present: &Present, memory: Memory, event: Event) -> Turn
    ensures { result ≡ process_of present.now.registration memory event.port event.event present.now.records }
{
    match event.event {
        EventData::Attached => close(Ok(()), memory),
        EventData::UpdatedConsumerCapability => {
            present.update_current_consumer(memory, DisconnectFlags::default())
        }
        EventData::RequestedProviderCapability => connect_provider(present, memory, event.port),
        EventData::Disconnected(flags) => depart(present, memory, event.port, flags),
        EventData::Detached => {
            let flags = DisconnectFlags {
                reason: Some(DisconnectReason::Detached),
            };
            depart(present, memory, event.port, flags)
        }
    }
}

// The charger after this one.
fn next_charger(i: u8) -> u8
    ensures { result ≡ following i }
{
    i.saturating_add(1)
}

// The charger to look at after the old consumer's PSU or a charger is disconnected.
fn next_from(leaver: Leaver) -> u8
    ensures { result ≡ next_from leaver }
{
    match leaver {
        Leaver::Psu => 0,
        Leaver::Charger(i) => next_charger(i),
    }
}

// The new consumer's PSU is connected: it is the consumer, and the supply settles.
fn settle(memory: Memory, new: AvailableConsumer) -> Turn
    ensures { result ≡ settle_of memory new }
{
    let mut connected = memory;
    connected.state.current_consumer_state = Some(new);
    connecting(Stage::Settling, new, connected)
}

// A stage of the new consumer is done: the next one.
fn after_stage(present: &Present, memory: Memory, stage: Stage, new: AvailableConsumer) -> Turn
    ensures { result ≡ after_stage present.now.registration memory stage new present.now.records }
{
    match stage {
        Stage::Psu => settle(memory, new),
        Stage::Settling => present.charge_from(memory, 0, new),
        Stage::Readying(i) => connecting(Stage::Initializing(i), new, memory),
        Stage::Initializing(i) => connecting(Stage::Attaching(i), new, memory),
        Stage::Attaching(i) => present.charge_from(memory, next_charger(i), new),
    }
}

// The open order is done: the next one, or the close.
fn after_order(present: &Present, phase: Phase, memory: Memory) -> Turn
    ensures { result ≡ after_order present.now.registration phase memory present.now.records }
{
    match phase {
        Phase::Closed(answer) => close(answer, memory),
        Phase::Leaving(i, port, flags) => {
            present.leave_from(memory, next_charger(i), Disconnected { port, flags })
        }
        Phase::Switching(leaver, old, flags, new) => {
            present.switch_from(
                memory,
                next_from(leaver),
                Switch {
                    old,
                    flags,
                    to: new,
                },
            )
        }
        Phase::Connecting(stage, new) => after_stage(present, memory, stage, new),
        Phase::Providing(port, target) => close(
            Ok(()),
            post_provider_connected(memory, port, target),
        ),
    }
}

// The answer to an order. An error ends the event.
pub fn answered(
    present: &Present,
    phase: Phase,
    order: Order,
    memory: Memory,
    answer: Result<(), psu::Error>,
) -> Turn
    ensures { result ≡ answered_of present.now.registration phase order memory answer present.now.records }
{
    match outcome(order, answer) {
        Ok(()) => after_order(present, phase, memory),
        Err(e) => close(Err(e), memory),
    }
}
