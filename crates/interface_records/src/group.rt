// The group of six bytes: a number and a capability.
ghost use Rattle.std.specs.Prelude.{◌≡◌, ℕ, ◌+◌, Option, get_or};
ghost use Rattle.power_policy_interface.specs.Capability.{consumer_flags_byte, consumer_flags_from, provider_flags_byte, provider_flags_from};
ghost use Rattle.power_policy_interface.specs.declared.capability.PowerCapability.{PowerCapability};
ghost use Rattle.interface_records.specs.Group.{OneEncoding, group_at, group_bytes, capability_group, capability_from, consumer_with, provider_with, all_zero, option_from, empty_group, pair_group, option_group, presence_from, power_bytes, power_of};
ghost use Rattle.interface_records.specs.Encodings.{consumer_encoding, provider_encoding};

use power_policy_interface::capability::{
    ConsumerFlags, ConsumerPowerCapability, PowerCapability, ProviderFlags, ProviderPowerCapability,
};

// A capability with the flags of its side, as a group carries it.
pub trait FlaggedCapability: Copy {
    ghost capability_of: { Self → PowerCapability };

    ghost flags_of: { Self → ℕ };

    ghost parts_from: { PowerCapability → ℕ → Option Self };

    // mV and mA.
    fn capability(self) -> PowerCapability
        ensures { result ≡ capability_of self };

    // The flag byte.
    fn flags(self) -> u8
        ensures { result ≡ flags_of self };

    // mV and mA with the flags of a byte, none where the byte is refused.
    fn from_parts(capability: PowerCapability, flags: u8) -> Option<Self>
        ensures { result ≡ parts_from capability flags };

    // A capability has one encoding.
    ghost one_encoding: { OneEncoding capability_of flags_of parts_from };
}

impl FlaggedCapability for ConsumerPowerCapability {
    ghost capability_of = { λ c. c.capability };

    ghost flags_of = { λ c. consumer_flags_byte c.flags };

    ghost parts_from = { λ p b. consumer_with p (consumer_flags_from b) };

    ghost one_encoding = { consumer_encoding };

    fn capability(self) -> PowerCapability {
        self.capability
    }

    fn flags(self) -> u8 {
        u8::from(self.flags)
    }

    fn from_parts(capability: PowerCapability, flags: u8) -> Option<Self> {
        let flags = ConsumerFlags::try_from(flags).ok()?;
        Some(ConsumerPowerCapability { capability, flags })
    }
}

impl FlaggedCapability for ProviderPowerCapability {
    ghost capability_of = { λ c. c.capability };

    ghost flags_of = { λ c. provider_flags_byte c.flags };

    ghost parts_from = { λ p b. provider_with p (provider_flags_from b) };

    ghost one_encoding = { provider_encoding };

    fn capability(self) -> PowerCapability {
        self.capability
    }

    fn flags(self) -> u8 {
        u8::from(self.flags)
    }

    fn from_parts(capability: PowerCapability, flags: u8) -> Option<Self> {
        let flags = ProviderFlags::try_from(flags).ok()?;
        Some(ProviderPowerCapability { capability, flags })
    }
}

// Six bytes by value, each with its name in the layout. A struct and no array, as bytes_groups has Quad.
#[derive(Clone, Copy, PartialEq, Eq)]
pub struct Group {
    pub number: u8,
    pub v0: u8,
    pub v1: u8,
    pub c0: u8,
    pub c1: u8,
    pub flags: u8,
}

impl Group {
    // The six bytes from a position on, zeros past the end. A position and no array: it cannot fail, and with an array each caller would cut and
    // convert, and answer for a slice that is short.
    pub fn at(s: &[u8], at: usize) -> Group
        ensures { result ≡ group_at s.now at }
    {
        Group {
            number: byte(s, at, 0),
            v0: byte(s, at, 1),
            v1: byte(s, at, 2),
            c0: byte(s, at, 3),
            c1: byte(s, at, 4),
            flags: byte(s, at, 5),
        }
    }

    // A method, as the library's to_le_bytes: with a From each call would name the array's length.
    pub fn bytes(self) -> [u8; 6]
        ensures { result ≡ group_bytes self }
    {
        [self.number, self.v0, self.v1, self.c0, self.c1, self.flags]
    }

    // mV and mA of the group.
    pub fn capability(self) -> PowerCapability
        ensures { result ≡ capability_from self }
    {
        power_of([self.v0, self.v1, self.c0, self.c1])
    }

    // Whether the capability's bytes are zeros.
    pub fn is_zero(self) -> bool
        ensures { result ≡ all_zero self }
    {
        self == Group::empty(self.number)
    }

    // The group's capability with flags, none where the flag byte is refused.
    pub fn flagged<C: FlaggedCapability>(self) -> Option<C>
        ensures { result ≡ C.parts_from (capability_from self) self.flags }
    {
        C::from_parts(self.capability(), self.flags)
    }

    // A presence byte and a capability with flags. The byte is matched first: `optional` is handed both cases worked out, which made the reading of
    // the service's image half as long again.
    pub fn option_flagged<C: FlaggedCapability>(self) -> Option<Option<C>>
        ensures { result ≡ option_from (λ g. C.parts_from (capability_from g) g.flags) self }
    {
        match self.number {
            0 if self.is_zero() => Some(None),
            1 => self.flagged().map(Some),
            _ => None,
        }
    }

    // A number with no capability.
    pub fn empty(number: u8) -> Group
        ensures { result ≡ empty_group number }
    {
        Group {
            number,
            v0: 0,
            v1: 0,
            c0: 0,
            c1: 0,
            flags: 0,
        }
    }

    // A number, a byte and four zeros.
    pub fn pair(number: u8, v0: u8) -> Group
        ensures { result ≡ pair_group number v0 }
    {
        Group {
            v0,
            ..Group::empty(number)
        }
    }

    // A number and a capability with flags.
    pub fn of<C: FlaggedCapability>(number: u8, c: C) -> Group
        ensures { result ≡ capability_group number (C.capability_of c) (C.flags_of c) }
    {
        let [v0, v1, c0, c1] = power_bytes(c.capability());
        Group {
            number,
            v0,
            v1,
            c0,
            c1,
            flags: c.flags(),
        }
    }

    // A presence byte and a capability with flags, zeros if absent.
    pub fn of_option<C: FlaggedCapability>(c: Option<C>) -> Group
        ensures { result ≡ option_group (λ n d. capability_group n (C.capability_of d) (C.flags_of d)) c }
    {
        match c {
            None => Group::empty(0),
            Some(c) => Group::of(1, c),
        }
    }
}

// mV and mA as four bytes, the low bytes first.
pub fn power_bytes(c: PowerCapability) -> [u8; 4]
    ensures { result ≡ power_bytes c }
{
    let [v0, v1] = c.voltage_mv.to_le_bytes();
    let [c0, c1] = c.current_ma.to_le_bytes();
    [v0, v1, c0, c1]
}

// mV and mA of four bytes. A function: neither is a type of this crate, so it can have no From here.
pub fn power_of(b: [u8; 4]) -> PowerCapability
    ensures { result ≡ power_of b }
{
    PowerCapability {
        voltage_mv: u16::from_le_bytes([b[0], b[1]]),
        current_ma: u16::from_le_bytes([b[2], b[3]]),
    }
}

// What a presence byte stands before: 0 before zeros alone, or 1 before a value. The byte is matched here alone: an enum of it would be
// matched once more.
pub fn optional<T: Copy>(presence: u8, empty: bool, value: Option<T>) -> Option<Option<T>>
    ensures { result ≡ presence_from presence empty value }
{
    match presence {
        0 if empty => Some(None),
        1 => value.map(Some),
        _ => None,
    }
}

// Byte k after a position, 0 past the end: zeros stand for what bytes cut short do not have. Each group reads its bytes by it into
// their names, and cannot fail: a generic over the size would hand over bytes without names.
pub fn byte(s: &[u8], at: usize, k: usize) -> u8
    ensures { result ≡ get_or s.now (at + k) 0 }
{
    match s.get(at..) {
        None => 0,
        Some(s) => s.get(k).copied().unwrap_or(0),
    }
}
