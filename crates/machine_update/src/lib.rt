// The update of the consumer from one order to the next (consumer.rs). Where the Rust awaits a device, a step ends at a phase.
// Memory is a parameter of each step and no field beside what is present: that stays for the whole call, and each step has another memory.
#![tactic(auto)]

ghost use Rattle.std.specs.Prelude.{◌≡◌};
ghost use Rattle.abstract_policy.specs.Interaction.{available_of, offers_unconstrained, consumer_flag, reason_of, find_best_consumer, is_connected_consumer};
ghost use Rattle.machine_update.specs.Update.{closed, at, updated_to, finish_update_of, connect_psu_of, switch_of, disconnect_of, connect_new_of, left_of, leave_of, switching, connecting_phase, charge_of, charge_stage, update_of};

use abstract_policy::state::{Records, Registration};
use interface_display::AvailableConsumer;
use machine_state::memory::{Disconnected, Memory, next_powered};
use machine_state::phase::{Leaver, Phase, Stage, Turn};
use power_policy_interface::capability::{DisconnectFlags, DisconnectReason};
use power_policy_interface::psu;
use power_policy_interface::service::UnconstrainedState;
use power_policy_service::consumer::find_best_consumer_default;

// What a step of an event reads: what is registered, and the present records. Each step borrows it: by value the records of all ports were
// copied for each, and `open` took 1,072 bytes more stack.
#[derive(Clone, Copy)]
pub struct Present {
    pub registration: Registration,
    pub records: Records,
}

// The consumer of a port gives way to a new one, with the event's reason.
#[derive(Clone, Copy)]
pub struct Switch {
    pub old: u8,
    pub flags: DisconnectFlags,
    pub to: AvailableConsumer,
}

impl Switch {
    // Why the old consumer is disconnected.
    fn reason(self) -> DisconnectFlags
        ensures { result ≡ reason_of self.old self.to self.flags }
    {
        let reason = if self.old == self.to.psu {
            DisconnectReason::AutoRenegotiation
        } else {
            self.flags.reason.unwrap_or(DisconnectReason::Switching)
        };
        DisconnectFlags {
            reason: Some(reason),
        }
    }

    // What is left of the event while this one is disconnected.
    fn phase(self, leaver: Leaver) -> Phase
        ensures { result ≡ switching leaver self.old self.flags self.to }
    {
        Phase::Switching(leaver, self.old, self.flags, self.to)
    }
}

pub fn close(res: Result<(), psu::Error>, memory: Memory) -> Turn
    ensures { result ≡ closed res memory }
{
    Turn {
        phase: Phase::Closed(res),
        memory,
    }
}

// Whether a port offers an unconstrained capability.
fn offers_unconstrained(s: psu::State) -> bool
    ensures { result ≡ offers_unconstrained s }
{
    s.consumer_capability
        .is_some_and(|c| c.flags.unconstrained_power)
}

// How many ports do, under the minimum or not.
fn available(records: Records, ports: u8) -> u8
    ensures { result ≡ available_of records ports }
{
    (0..ports)
        .filter(|&i| offers_unconstrained(records.psu(i)))
        .count() as u8
}

// Whether the consumer draws unconstrained power.
fn consumer_flag(consumer: Option<AvailableConsumer>) -> bool
    ensures { result ≡ consumer_flag consumer }
{
    consumer.is_some_and(|c| c.consumer_power_capability.flags.unconstrained_power)
}

// Sets the unconstrained figures, with a notice, if either differs.
fn set_unconstrained(new: UnconstrainedState, mut memory: Memory) -> Memory
    ensures { result ≡ updated_to new memory }
{
    if new != memory.state.unconstrained {
        memory.state.unconstrained = new;
        memory.notices.unconstrained = Some(new);
    }
    memory
}

fn is_connected_consumer(s: psu::PsuState) -> bool
    ensures { result ≡ is_connected_consumer s }
{
    matches!(s, psu::PsuState::ConnectedConsumer(_))
}

// The consumer is left, and there is none.
fn left(mut memory: Memory, consumer: Disconnected) -> Memory
    ensures { result ≡ left_of memory consumer.port consumer.flags }
{
    memory.state.current_consumer_state = None;
    memory.notices.disconnected = Some(consumer);
    memory
}

pub fn connecting(stage: Stage, new: AvailableConsumer, memory: Memory) -> Turn
    ensures { result ≡ at (connecting_phase stage new) memory }
{
    Turn {
        phase: Phase::Connecting(stage, new),
        memory,
    }
}

// An unpowered charger is first asked whether it is ready.
fn charger_stage(unpowered: bool, i: u8) -> Stage
    ensures { result ≡ charge_stage unpowered i }
{
    if unpowered {
        Stage::Readying(i)
    } else {
        Stage::Attaching(i)
    }
}

// Memory is a parameter of each step and no field: what is present stays as it is for the whole call, and each step has another memory, so that one value of
// both would be made anew for every step.
impl Present {
    // The last step of an update, which closes the event without error (update_unconstrained_state).
    pub fn finish_update(&self, memory: Memory) -> Turn
        ensures { result ≡ finish_update_of self.now.registration memory self.now.records }
    {
        let new = UnconstrainedState {
            unconstrained: consumer_flag(memory.state.current_consumer_state),
            available: available(self.records, self.registration.ports),
        };
        close(Ok(()), set_unconstrained(new, memory))
    }

    // Checks that the new consumer can be connected, and orders it.
    fn connect_psu(&self, memory: Memory, new: AvailableConsumer) -> Turn
        ensures { result ≡ connect_psu_of memory new self.now.records }
    {
        match self.records.psu(new.psu).can_connect_consumer() {
            Ok(()) => connecting(Stage::Psu, new, memory),
            Err(e) => close(Err(e), memory),
        }
    }

    // Detaches the powered chargers from one on, then connects the new consumer.
    pub fn switch_from(&self, mut memory: Memory, from: u8, switch: Switch) -> Turn
        ensures { result ≡ switch_of self.now.registration memory from switch.old switch.flags switch.to self.now.records }
    {
        match next_powered(self.records, self.registration.chargers, from) {
            Some(next) => Turn {
                phase: switch.phase(Leaver::Charger(next)),
                memory,
            },
            None => {
                memory.notices.disconnected = Some(Disconnected {
                    port: switch.old,
                    flags: switch.reason(),
                });
                self.connect_psu(memory, switch.to)
            }
        }
    }

    // Disconnects the old consumer's PSU if it is connected as consumer, and its chargers. From here on there is no consumer.
    fn disconnect_current(&self, memory: Memory, switch: Switch) -> Turn
        ensures { result ≡ disconnect_of self.now.registration memory switch.old switch.flags switch.to self.now.records }
    {
        let mut cleared = memory;
        cleared.state.current_consumer_state = None;
        if is_connected_consumer(self.records.psu(switch.old).psu_state) {
            return Turn {
                phase: switch.phase(Leaver::Psu),
                memory: cleared,
            };
        }
        self.switch_from(cleared, 0, switch)
    }

    // Connects a new consumer. The same port with the same capability needs nothing.
    fn connect_new_consumer(
        &self,
        memory: Memory,
        new: AvailableConsumer,
        flags: DisconnectFlags,
    ) -> Turn
        ensures { result ≡ connect_new_of self.now.registration memory new flags self.now.records }
    {
        match memory.state.current_consumer_state {
            None => self.connect_psu(memory, new),
            Some(current) => {
                if current == new {
                    self.finish_update(memory)
                } else {
                    let old = current.psu;
                    self.disconnect_current(
                        memory,
                        Switch {
                            old,
                            flags,
                            to: new,
                        },
                    )
                }
            }
        }
    }

    // Detaches the powered chargers from one on, then no consumer is left.
    pub fn leave_from(&self, memory: Memory, from: u8, consumer: Disconnected) -> Turn
        ensures { result ≡ leave_of self.now.registration memory from consumer.port consumer.flags self.now.records }
    {
        match next_powered(self.records, self.registration.chargers, from) {
            Some(next) => Turn {
                phase: Phase::Leaving(next, consumer.port, consumer.flags),
                memory,
            },
            None => self.finish_update(left(memory, consumer)),
        }
    }

    // The consumer is connected: readies, initializes and attaches the chargers from one on.
    pub fn charge_from(&self, memory: Memory, i: u8, new: AvailableConsumer) -> Turn
        ensures { result ≡ charge_of self.now.registration memory i new self.now.records }
    {
        if i < self.registration.chargers {
            return connecting(charger_stage(self.records.unpowered(i), i), new, memory);
        }
        let mut told = memory;
        told.notices.connected = Some(new);
        self.finish_update(told)
    }

    // The best consumer among the ports.
    fn choose(&self, memory: Memory) -> Option<AvailableConsumer>
        ensures { result ≡ find_best_consumer self.now.registration memory.state self.now.records }
    {
        find_best_consumer_default(
            self.registration.config.min_consumer_threshold_mw,
            memory.state.current_consumer_state,
            self.records.psus,
            self.registration.ports,
        )
    }

    // Determines and connects the best external power.
    pub fn update_current_consumer(&self, memory: Memory, flags: DisconnectFlags) -> Turn
        ensures { result ≡ update_of self.now.registration memory flags self.now.records }
    {
        match (self.choose(memory), memory.state.current_consumer_state) {
            (Some(new), _) => self.connect_new_consumer(memory, new, flags),
            (None, None) => self.finish_update(memory),
            (None, Some(c)) => self.leave_from(memory, 0, Disconnected { port: c.psu, flags }),
        }
    }
}
