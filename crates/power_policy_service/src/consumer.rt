// The choice of the consumer (consumer.rs).
ghost use Rattle.std.specs.Prelude.{◌≡◌, min};
ghost use Rattle.power_policy_interface.specs.Limits.{max_ports};
ghost use Rattle.power_policy_service.specs.Consumer.{cmp_consumer, meets, eligible, is_current, better_of, best_of};

use interface_display::AvailableConsumer;
use power_policy_interface::capability::ConsumerPowerCapability;
use power_policy_interface::limits::MAX_PORTS;
use power_policy_interface::psu;
use std::cmp::Ordering;

// Compares two consumer capabilities: more power first, then being the current consumer, so as to avoid switching between
// otherwise equivalent consumers. The Rust's function; whether each is current is no part of a capability, so it is no Ord.
pub fn cmp_consumer_capability_default(
    a: ConsumerPowerCapability,
    a_is_current: bool,
    b: ConsumerPowerCapability,
    b_is_current: bool,
) -> Ordering
    ensures { result ≡ cmp_consumer a a_is_current b b_is_current }
{
    a.capability
        .cmp(b.capability)
        .then(a_is_current.cmp(&b_is_current))
}

// Whether a capability is at or above the minimum, if one is set.
pub fn meets_minimum(minimum: Option<u32>, capability: ConsumerPowerCapability) -> bool
    ensures { result ≡ meets minimum capability }
{
    minimum.is_none_or(|m| m <= capability.capability.max_power_mw())
}

// The capability that a port can be chosen with. Its state is not looked at.
pub fn eligible_capability(minimum: Option<u32>, psu: psu::State) -> Option<ConsumerPowerCapability>
    ensures { result ≡ eligible minimum psu }
{
    psu.consumer_capability
        .filter(|&c| meets_minimum(minimum, c))
}

// Whether a port is that of the current consumer.
pub fn is_current(current: Option<AvailableConsumer>, port: u8) -> bool
    ensures { result ≡ is_current current port }
{
    current.is_some_and(|c| c.psu == port)
}

// The better of the best so far and what a port offers. Of equals the earlier stays.
pub fn better(
    current: Option<AvailableConsumer>,
    best: Option<AvailableConsumer>,
    port: u8,
    offer: Option<ConsumerPowerCapability>,
) -> Option<AvailableConsumer>
    ensures { result ≡ better_of current best port offer }
{
    let Some(available) = offer else {
        return best;
    };
    let found = Some(AvailableConsumer {
        psu: port,
        consumer_power_capability: available,
    });
    let Some(b) = best else {
        return found;
    };
    let order = cmp_consumer_capability_default(
        available,
        is_current(current, port),
        b.consumer_power_capability,
        is_current(current, b.psu),
    );
    if order.is_gt() { found } else { best }
}

// The best consumer among the first ports of a row by value, as `Records` has it, with the count beside it, as `Registration` has it. Over a slice the caller
// would cut the row, and owe a lemma that the best of the part is the best of the row, as the totals have one (proofs/Same.antt).
pub fn find_best_consumer_default(
    minimum: Option<u32>,
    current: Option<AvailableConsumer>,
    psus: [psu::State; MAX_PORTS as usize],
    ports: u8,
) -> Option<AvailableConsumer>
    ensures { result ≡ best_of minimum current psus (min max_ports ports) }
{
    let mut best = None;
    // Over the ports' numbers, which are handed on as they are: `psus.iter().enumerate()` would count in usize, be cut at `ports` and be cast back.
    for i in 0..ports.min(MAX_PORTS) {
        best = better(
            current,
            best,
            i,
            eligible_capability(minimum, psus[i as usize]),
        );
    }
    best
}
