// Provider totals over a row of PSU records (provider.rs). Only the first 16 records count, as no more ports are registered; in
// 64 bits no sum of 16 figures can overflow.
ghost use Rattle.std.specs.Prelude.{◌≡◌, min, length, take};
ghost use Rattle.power_policy_interface.specs.Limits.{max_ports};
ghost use Rattle.power_policy_service.specs.Provider.{connected_mw, counted_mw, sum_to, total_of, total_with};
ghost use Rattle.power_policy_service.specs.Rows.{psu_at};

use power_policy_interface::capability::ProviderPowerCapability;
use power_policy_interface::limits::MAX_PORTS;
use power_policy_interface::psu::State;

// What a port asks for: it counts with that in the place of its contract.
#[derive(Clone, Copy)]
struct Request {
    port: u8,
    asked: ProviderPowerCapability,
}

// What a port provides by its contract.
fn connected_mw(psu: State) -> u32
    ensures { result ≡ connected_mw psu }
{
    psu.connected_provider_capability()
        .map_or(0, |c| c.capability.max_power_mw())
}

// What a port counts for: the requester with its request, any other port with its contract.
fn counted_mw(psu: State, port: usize, request: Option<Request>) -> u32
    ensures { result ≡ counted_mw request port psu }
{
    match request {
        Some(r) if port == r.port as usize => r.asked.capability.max_power_mw(),
        _ => connected_mw(psu),
    }
}

// The records of the first ports: the one place that cuts a row, which its callers have by value with its count.
pub(crate) fn first(psus: &[State], ports: u8) -> &[State]
    ensures { result.now ≡ take ports psus.now }
{
    &psus[..psus.len().min(ports as usize)]
}

// What the ports count for together.
fn sum_mw(psus: &[State], request: Option<Request>) -> u64
    ensures { result ≡ sum_to (λ p. counted_mw request p (psu_at psus.now p)) (min max_ports (length psus.now)) }
{
    let mut total = 0;
    for (port, &psu) in first(psus, MAX_PORTS).iter().enumerate() {
        total += counted_mw(psu, port, request) as u64;
    }
    total
}

// The total amount of power that is being supplied to external devices.
pub fn total(psus: &[State]) -> u64
    ensures { result ≡ total_of psus.now (min max_ports (length psus.now)) }
{
    sum_mw(psus, None)
}

// The same with the requester's request in the place of its contract.
pub fn total_with_request(psus: &[State], requester: u8, request: ProviderPowerCapability) -> u64
    ensures { result ≡ total_with requester request psus.now (min max_ports (length psus.now)) }
{
    sum_mw(
        psus,
        Some(Request {
            port: requester,
            asked: request,
        }),
    )
}
