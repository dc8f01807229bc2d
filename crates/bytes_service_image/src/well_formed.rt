// Whether a service is well formed (docs/STATE.md): a test for each part.
ghost use Rattle.std.specs.Prelude.{◌≡◌};
ghost use Rattle.bytes_service_image.specs.WellFormed.{registration_fits, mismatch_fits, error_fits, result_fits, leaver_fits, stage_fits, phase_fits, stage_least, orders_least, leaver_most, stage_most, orders_most, orders_fit, provider_fits, notices_fit, none_connected, no_provider, not_connected, not_updated, nothing_told, tells, number_fits, event_fits, well_formed};

use abstract_policy::state::Registration;
use bytes_groups::shown;
use machine_service::Service;
use machine_state::memory::{Notices, ProviderNotice};
use machine_state::phase::{Leaver, Phase, Stage};
use power_policy_interface::limits::{LARGEST, MAX_CHARGERS, MAX_PORTS};
use power_policy_interface::psu;

fn registration_fits(g: Registration) -> bool
    ensures { result ≡ registration_fits g }
{
    g.ports <= MAX_PORTS && g.chargers <= MAX_CHARGERS
}

// Expected states are 1 to 15.
fn mismatch_fits(m: Option<psu::Mismatch>) -> bool
    ensures { result ≡ mismatch_fits m }
{
    m.is_none_or(|m| 0 < m.expected && m.expected <= 15)
}

fn error_fits(e: psu::Error) -> bool
    ensures { result ≡ error_fits e }
{
    match e {
        psu::Error::InvalidState(m) => mismatch_fits(m),
        _ => true,
    }
}

fn result_fits(a: Result<(), psu::Error>) -> bool
    ensures { result ≡ result_fits a }
{
    match a {
        Ok(()) => true,
        Err(e) => error_fits(e),
    }
}

fn leaver_fits(chargers: u8, l: Leaver) -> bool
    ensures { result ≡ leaver_fits chargers l }
{
    match l {
        Leaver::Psu => true,
        Leaver::Charger(i) => i < chargers,
    }
}

fn stage_fits(chargers: u8, s: Stage) -> bool
    ensures { result ≡ stage_fits chargers s }
{
    match s {
        Stage::Psu | Stage::Settling => true,
        Stage::Readying(i) | Stage::Initializing(i) | Stage::Attaching(i) => i < chargers,
    }
}

// Every port and charger of the phase is registered, and expected states are 1 to 15.
fn phase_fits(ports: u8, chargers: u8, p: Phase) -> bool
    ensures { result ≡ phase_fits ports chargers p }
{
    match p {
        Phase::Closed(a) => result_fits(a),
        Phase::Leaving(i, port, _) => i < chargers && port < ports,
        Phase::Switching(l, old, _, new) => {
            leaver_fits(chargers, l) && old < ports && new.psu < ports
        }
        Phase::Connecting(s, new) => stage_fits(chargers, s) && new.psu < ports,
        Phase::Providing(port, _) => port < ports,
    }
}

// How many orders an event has given at least and at most when it stands there.

fn stage_least(s: Stage) -> u16
    ensures { result ≡ stage_least s }
{
    match s {
        Stage::Psu => 1,
        Stage::Settling => 2,
        Stage::Readying(i) | Stage::Attaching(i) => 3 + (i as u16),
        Stage::Initializing(i) => 4 + (i as u16),
    }
}

fn orders_least(p: Phase) -> u16
    ensures { result ≡ orders_least p }
{
    match p {
        Phase::Closed(_) => 0,
        Phase::Connecting(s, _) => stage_least(s),
        Phase::Leaving(_, _, _) | Phase::Switching(_, _, _, _) | Phase::Providing(_, _) => 1,
    }
}

fn leaver_most(l: Leaver) -> u16
    ensures { result ≡ leaver_most l }
{
    match l {
        Leaver::Psu => 1,
        Leaver::Charger(i) => 2 + (i as u16),
    }
}

fn stage_most(chargers: u8, s: Stage) -> u16
    ensures { result ≡ stage_most chargers s }
{
    let c = chargers as u16;
    match s {
        Stage::Psu => 2 + c,
        Stage::Settling => 3 + c,
        Stage::Readying(i) => 4 + c + 3 * (i as u16),
        Stage::Initializing(i) => 5 + c + 3 * (i as u16),
        Stage::Attaching(i) => 6 + c + 3 * (i as u16),
    }
}

fn orders_most(chargers: u8, p: Phase) -> u16
    ensures { result ≡ orders_most chargers p }
{
    match p {
        Phase::Closed(_) => 3 + 4 * (chargers as u16),
        Phase::Leaving(i, _, _) => 1 + (i as u16),
        Phase::Switching(l, _, _, _) => leaver_most(l),
        Phase::Connecting(s, _) => stage_most(chargers, s),
        Phase::Providing(_, _) => 1,
    }
}

fn orders_fit(chargers: u8, p: Phase, orders: u8) -> bool
    ensures { result ≡ orders_fit chargers p orders }
{
    let k = orders as u16;
    orders_least(p) <= k && k <= orders_most(chargers, p)
}

// The notices: every port is registered.

fn provider_fits(ports: u8, n: Option<ProviderNotice>) -> bool
    ensures { result ≡ provider_fits ports n }
{
    n.is_none_or(|n| match n {
        ProviderNotice::Disconnected(p) | ProviderNotice::Connected(p, _) => p < ports,
    })
}

fn notices_fit(ports: u8, n: Notices) -> bool
    ensures { result ≡ notices_fit ports n }
{
    provider_fits(ports, n.provider)
        && n.disconnected.is_none_or(|d| d.port < ports)
        && n.connected.is_none_or(|c| c.psu < ports)
        && n.unconstrained.is_none_or(|u| u.available <= ports)
}

// What an event may have told of when it stands there.

fn none_connected(n: Option<ProviderNotice>) -> bool
    ensures { result ≡ none_connected n }
{
    !matches!(n, Some(ProviderNotice::Connected(_, _)))
}

fn no_provider(n: Option<ProviderNotice>) -> bool
    ensures { result ≡ no_provider n }
{
    n.is_none()
}

fn not_connected(n: Notices) -> bool
    ensures { result ≡ not_connected n }
{
    none_connected(n.provider) && n.connected.is_none() && n.unconstrained.is_none()
}

fn not_updated(n: Notices) -> bool
    ensures { result ≡ not_updated n }
{
    n.disconnected.is_none() && not_connected(n)
}

fn nothing_told(n: Notices) -> bool
    ensures { result ≡ nothing_told n }
{
    no_provider(n.provider) && not_updated(n)
}

fn tells(p: Phase, n: Notices) -> bool
    ensures { result ≡ tells p n }
{
    match p {
        Phase::Closed(_) => true,
        Phase::Leaving(_, _, _) | Phase::Switching(_, _, _, _) => not_updated(n),
        Phase::Connecting(_, _) => not_connected(n),
        Phase::Providing(_, _) => nothing_told(n),
    }
}

// An open event can still have a number.
fn number_fits(p: Phase, number: u32) -> bool
    ensures { result ≡ number_fits p number }
{
    p.order().is_none() || number < LARGEST
}

fn event_fits(s: Service) -> bool
    ensures { result ≡ event_fits s.registration.ports s.registration.chargers s.phase s.number s.orders s.memory.notices }
{
    let g = s.registration;
    phase_fits(g.ports, g.chargers, s.phase)
        && number_fits(s.phase, s.number)
        && orders_fit(g.chargers, s.phase, s.orders)
        && notices_fit(g.ports, s.memory.notices)
        && tells(s.phase, s.memory.notices)
}

#[tactic(auto, unfolding(crate::specs::WellFormed::well_formed))]
pub fn well_formed(s: Service) -> bool
    ensures { result ≡ well_formed s }
{
    registration_fits(s.registration)
        && shown::fits(s.registration.ports, s.memory.state.display())
        && event_fits(s)
}
