// The notices of an event as four groups: provider, consumer disconnected, consumer connected, unconstrained figures. A kind is a byte of the
// layout, matched once, where its group is read: an enum of kinds would be matched once more.
ghost use Rattle.std.specs.Prelude.{◌≡◌, ◌+◌, eqb};
ghost use Rattle.std.proofs.lemmas.List.Edits.{sets};
ghost use Rattle.bytes_service_groups.specs.Notices.{notices_bytes, notices_from, triple_at, triple_bytes, provider_tagged, disconnected_triple, unconstrained_triple, provider_read, disconnected_read, unconstrained_read};

use bytes_groups::place;
use bytes_groups::tagged::{Tagged, is_empty};
use interface_records::group::Group;
use machine_state::memory::{Disconnected, Notices, ProviderNotice};
use power_policy_interface::capability::DisconnectFlags;
use power_policy_interface::service::UnconstrainedState;

// Three bytes by value: a presence and what it is of.
#[derive(Clone, Copy)]
pub struct Triple {
    pub tag: u8,
    pub a: u8,
    pub b: u8,
}

fn provider_tagged(n: Option<ProviderNotice>) -> Tagged
    ensures { result ≡ provider_tagged n }
{
    match n {
        None => Tagged {
            tag: 0,
            group: Group::empty(0),
        },
        Some(ProviderNotice::Disconnected(port)) => Tagged {
            tag: 1,
            group: Group::empty(port),
        },
        Some(ProviderNotice::Connected(port, c)) => Tagged {
            tag: 2,
            group: Group::of(port, c),
        },
    }
}

// Here and below: two notices with bytes of their own. What they share is that none is three zeros.
impl From<Option<Disconnected>> for Triple {
    ghost from_gives = { λ n t. t ≡ disconnected_triple n };

    fn from(n: Option<Disconnected>) -> Triple {
        match n {
            None => Triple { tag: 0, a: 0, b: 0 },
            Some(d) => Triple {
                tag: 1,
                a: d.port,
                b: u8::from(d.flags),
            },
        }
    }
}

impl From<Option<UnconstrainedState>> for Triple {
    ghost from_gives = { λ n t. t ≡ unconstrained_triple n };

    fn from(n: Option<UnconstrainedState>) -> Triple {
        match n {
            None => Triple { tag: 0, a: 0, b: 0 },
            Some(u) => Triple {
                tag: 1,
                a: u8::from(u.unconstrained),
                b: u.available,
            },
        }
    }
}

fn read_provider(t: Tagged) -> Option<Option<ProviderNotice>>
    ensures { result ≡ provider_read t }
{
    let group = t.group;
    match t.tag {
        0 if is_empty(group) => Some(None),
        1 if group.is_zero() => Some(Some(ProviderNotice::Disconnected(group.number))),
        2 => Some(Some(ProviderNotice::Connected(group.number, group.flagged()?))),
        _ => None,
    }
}

impl Triple {
    // The three bytes from a place on, zeros past the end. A place and no array: it cannot fail (`place::byte`).
    fn at(s: &[u8], at: usize) -> Triple
        ensures { result ≡ triple_at s.now at }
    {
        Triple {
            tag: place::byte(s, at, 0),
            a: place::byte(s, at, 1),
            b: place::byte(s, at, 2),
        }
    }

    // A method, as the library's to_le_bytes: with a From each call would name the array's length.
    fn bytes(self) -> [u8; 3]
        ensures { result ≡ triple_bytes self }
    {
        [self.tag, self.a, self.b]
    }

    // Whether two zeros follow the presence.
    fn is_zero(self) -> bool
        ensures { result ≡ eqb (self.a + self.b) 0 }
    {
        (self.a, self.b) == (0, 0)
    }

    // Here and below: the tag is matched first, as in `Group::option_flagged`.
    fn disconnected(self) -> Option<Option<Disconnected>>
        ensures { result ≡ disconnected_read self }
    {
        match self.tag {
            0 if self.is_zero() => Some(None),
            1 => Some(Some(Disconnected {
                port: self.a,
                flags: DisconnectFlags::try_from(self.b).ok()?,
            })),
            _ => None,
        }
    }

    fn unconstrained(self) -> Option<Option<UnconstrainedState>>
        ensures { result ≡ unconstrained_read self }
    {
        match self.tag {
            0 if self.is_zero() => Some(None),
            1 if self.a <= 1 => Some(Some(UnconstrainedState {
                unconstrained: self.a == 1,
                available: self.b,
            })),
            _ => None,
        }
    }
}

// Bytes 47 to 66; refused for bytes that no notices are written as.
pub fn read_notices(s: &[u8]) -> Option<Notices>
    ensures { result ≡ notices_from s.now }
{
    let provider = read_provider(Tagged::at(s, 47))?;
    let disconnected = Triple::at(s, 54).disconnected()?;
    let connected = Tagged::at(s, 57).consumer()?;
    let unconstrained = Triple::at(s, 64).unconstrained()?;
    Some(Notices {
        provider,
        disconnected,
        connected,
        unconstrained,
    })
}

// Stores bytes 47 to 66.
pub fn put_notices(image: &mut [u8], n: Notices)
    ensures { image.new ≡ sets image.old 47 (notices_bytes n) }
{
    place::put(image, 47, &provider_tagged(n.provider).bytes());
    place::put(image, 54, &Triple::from(n.disconnected).bytes());
    place::put(image, 57, &Tagged::from(n.connected).bytes());
    place::put(image, 64, &Triple::from(n.unconstrained).bytes());
}
