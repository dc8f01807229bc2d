// A byte and a group of six, and the optional consumer as such.
ghost use Rattle.std.specs.Prelude.{◌≡◌};
ghost use Rattle.bytes_groups.specs.Tagged.{tagged_at, tagged_bytes, no_group, consumer_tagged, available_from, optional_from};

use crate::place::byte;
use interface_display::AvailableConsumer;
use interface_records::group::Group;

// Seven bytes by value: a kind or a presence, and a contract.
#[derive(Clone, Copy, PartialEq, Eq)]
pub struct Tagged {
    pub tag: u8,
    pub group: Group,
}

// Whether a group is six zeros.
pub fn is_empty(g: Group) -> bool
    ensures { result ≡ no_group g }
{
    g == Group::empty(0)
}

// The consumer of a contract, none where the flag byte is refused.
pub fn available_from(g: Group) -> Option<AvailableConsumer>
    ensures { result ≡ available_from g }
{
    Some(AvailableConsumer {
        psu: g.number,
        consumer_power_capability: g.flagged()?,
    })
}

impl Tagged {
    // The seven bytes from a place on, zeros past the end. A place and no array: it cannot fail (`place::byte`).
    pub fn at(s: &[u8], at: usize) -> Tagged
        ensures { result ≡ tagged_at s.now at }
    {
        Tagged {
            tag: byte(s, at, 0),
            group: Group::at(s, at.saturating_add(1)),
        }
    }

    // A method, as the library's to_le_bytes: with a From each call would name the array's length.
    pub fn bytes(self) -> [u8; 7]
        ensures { result ≡ tagged_bytes self }
    {
        let mut bytes = [self.tag; 7];
        bytes[1..].copy_from_slice(&self.group.bytes());
        bytes
    }

    // The optional consumer; refused for bytes that none is written as. The tag is matched first, as in `Group::option_flagged`.
    pub fn consumer(self) -> Option<Option<AvailableConsumer>>
        ensures { result ≡ optional_from self }
    {
        match self.tag {
            0 if is_empty(self.group) => Some(None),
            1 => available_from(self.group).map(Some),
            _ => None,
        }
    }
}

impl From<Option<AvailableConsumer>> for Tagged {
    ghost from_gives = { λ c t. t ≡ consumer_tagged c };

    fn from(c: Option<AvailableConsumer>) -> Tagged {
        match c {
            None => Tagged {
                tag: 0,
                group: Group::empty(0),
            },
            Some(a) => Tagged {
                tag: 1,
                group: Group::of(a.psu, a.consumer_power_capability),
            },
        }
    }
}
