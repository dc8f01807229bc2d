// A notice as seven bytes: its kind, and a group of six.
ghost use Rattle.std.specs.Prelude.{◌≡◌, ◌+◌, ◌≤◌, length};
ghost use Rattle.bytes_groups.specs.Tagged.{tagged_at};
ghost use Rattle.bytes_follower_image.specs.Notice.{notice_tagged, zero_tagged, place_tagged, rest_zero, consumer_disconnected, provider_disconnected, unconstrained_changed, notice_from, is_zero, place_from, four_bytes, pair_fits, provider_flags_fit, figures_tested, tested_at, bytes_fit, bytes_zero, is_notice};

use bytes_groups::tagged::Tagged;
use interface_records::group::Group;
use power_policy_interface::capability::DisconnectFlags;
use power_policy_interface::limits::MAX_PORTS;
use power_policy_interface::service::UnconstrainedState;
use power_policy_interface::service::event::Event;

// The bytes of a notice. A function: Event and Tagged are of crates below, so it can have no From here (orphan-impl).
fn tagged_of(e: Event) -> Tagged
    ensures { result ≡ notice_tagged e }
{
    match e {
        Event::ConsumerDisconnected(port, flags) => Tagged {
            tag: 1,
            group: Group::pair(port, u8::from(flags)),
        },
        Event::ConsumerConnected(port, c) => Tagged {
            tag: 2,
            group: Group::of(port, c),
        },
        Event::ProviderDisconnected(port) => Tagged {
            tag: 3,
            group: Group::empty(port),
        },
        Event::ProviderConnected(port, c) => Tagged {
            tag: 4,
            group: Group::of(port, c),
        },
        Event::Unconstrained(figures) => Tagged {
            tag: 5,
            group: Group::pair(figures.unconstrained as u8, figures.available),
        },
    }
}

// Seven zeros.
fn zeros() -> Tagged
    ensures { result ≡ zero_tagged }
{
    Tagged {
        tag: 0,
        group: Group::empty(0),
    }
}

// The bytes of place k of a count: zeros past the count. Count and place, which their callers have: a flag in their place would be worked out at each of six calls.
pub(crate) fn place(count: u8, k: u8, e: Event) -> Tagged
    ensures { result ≡ place_tagged count k e }
{
    if count <= k {
        return zeros();
    }
    tagged_of(e)
}

// Whether the four bytes after a pair are zeros.
fn rest_is_zero(g: Group) -> bool
    ensures { result ≡ rest_zero g }
{
    [g.v1, g.c0, g.c1, g.flags] == [0; 4]
}

// Notice 1: port, reason, zeros.
fn consumer_disconnected(g: Group) -> Option<Event>
    ensures { result ≡ consumer_disconnected g }
{
    if !rest_is_zero(g) {
        return None;
    }
    let flags = DisconnectFlags::try_from(g.v0).ok()?;
    Some(Event::ConsumerDisconnected(g.number, flags))
}

// Notice 3: port, zeros.
fn provider_disconnected(g: Group) -> Option<Event>
    ensures { result ≡ provider_disconnected g }
{
    g.is_zero().then_some(Event::ProviderDisconnected(g.number))
}

// Notice 5: both figures, zeros.
fn unconstrained_changed(g: Group) -> Option<Event>
    ensures { result ≡ unconstrained_changed g }
{
    let fits = g.number <= 1 && g.v0 <= MAX_PORTS && rest_is_zero(g);
    fits.then_some(Event::Unconstrained(UnconstrainedState {
        unconstrained: g.number == 1,
        available: g.v0,
    }))
}

// The notice of seven bytes. The layout's byte decides: an enum of the kinds would be matched once more.
fn read(n: Tagged) -> Option<Event>
    ensures { result ≡ notice_from n }
{
    if 15 < n.group.number {
        return None;
    }
    match n.tag {
        1 => consumer_disconnected(n.group),
        2 => Some(Event::ConsumerConnected(n.group.number, n.group.flagged()?)),
        3 => provider_disconnected(n.group),
        4 => Some(Event::ProviderConnected(n.group.number, n.group.flagged()?)),
        5 => unconstrained_changed(n.group),
        _ => None,
    }
}

// Whether all seven bytes are zeros.
fn is_zero(n: Tagged) -> bool
    ensures { result ≡ is_zero n }
{
    n == zeros()
}

// The notice at place k of a count; zeros past the count.
fn read_place(count: u8, k: u8, n: Tagged) -> Option<Event>
    ensures { result ≡ place_from count k n }
{
    if k < count {
        return read(n);
    }
    is_zero(n).then_some(Event::ConsumerDisconnected(0, DisconnectFlags::default()))
}

// The same from a place of a slot on. With the bytes read at each of the four calls in `read_notices` the check no longer finds that function's proof.
pub(crate) fn place_at(s: &[u8], at: usize, count: u8, k: u8) -> Option<Event>
    ensures { result ≡ place_from count k (tagged_at s.now at) }
{
    read_place(count, k, Tagged::at(s, at))
}

// Four bytes as one number: 0 where all are.
fn four(a: u8, b: u8, c: u8, d: u8) -> u32
    ensures { result ≡ four_bytes a b c d }
{
    u32::from_le_bytes([a, b, c, d])
}

// Whether a byte is at most so much and zeros follow it.
fn pair_fits(v: u8, most: u8, rest: u32) -> bool
    ensures { result ≡ pair_fits v most rest }
{
    v <= most && rest == 0
}

// Whether a flag byte is that of a provider.
fn provider_flags_fit(flags: u8) -> bool
    ensures { result ≡ provider_flags_fit flags }
{
    flags % 2 != 1 && flags / 2 <= 6
}

// Whether both figures are within theirs and zeros follow.
fn figures_fit(unconstrained: u8, available: u8, rest: u32) -> bool
    ensures { result ≡ figures_tested unconstrained available rest }
{
    unconstrained <= 1 && pair_fits(available, MAX_PORTS, rest)
}

// Seven bytes of a slot as they are tested: the kind, the port's byte, the one after it, the four that follow as a number, and the last of these.
#[derive(Clone, Copy)]
pub struct Tested {
    kind: u8,
    port: u8,
    v: u8,
    rest: u32,
    flags: u8,
}

impl Tested {
    // The seven bytes from a place of a slot on. A place and no part: what tests a slot has the place's number, with which its parts would be zipped.
    fn at(s: &[u8], at: usize) -> Tested
        requires { at + 7 ≤ length s.now }
        ensures { result ≡ tested_at s.now at }
    {
        Tested {
            kind: s[at],
            port: s[at + 1],
            v: s[at + 2],
            rest: four(s[at + 3], s[at + 4], s[at + 5], s[at + 6]),
            flags: s[at + 6],
        }
    }

    // Whether they are a notice. The layout's byte decides, as in `read`.
    fn fits(self) -> bool
        ensures { result ≡ bytes_fit self }
    {
        if 15 < self.port {
            return false;
        }
        match self.kind {
            1 => pair_fits(self.v, 6, self.rest),
            2 => self.flags / 2 <= 6,
            3 => pair_fits(self.v, 0, self.rest),
            4 => provider_flags_fit(self.flags),
            5 => figures_fit(self.port, self.v, self.rest),
            _ => false,
        }
    }

    // Whether all are zeros.
    fn all_zero(self) -> bool
        ensures { result ≡ bytes_zero self }
    {
        self.kind == 0 && self.port == 0 && self.v == 0 && self.rest == 0
    }
}

// Whether the seven bytes from a place of a slot on are those of place k of a count. They are tested where they stand, as `slot::fits` says; a place and
// no part, as `Tested::at`.
pub(crate) fn place_fits(s: &[u8], at: usize, count: u8, k: u8) -> bool
    requires { at + 7 ≤ length s.now }
    ensures { result ≡ is_notice (place_from count k (tagged_at s.now at)) }
{
    let tested = Tested::at(s, at);
    let meant = k < count;
    if meant {
        return tested.fits();
    }
    tested.all_zero()
}
