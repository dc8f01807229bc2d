// Four bytes: a number of 32 bits, or mV and mA.
ghost use Rattle.std.specs.Prelude.{◌≡◌};
ghost use Rattle.bytes_groups.specs.Quad.{quad_at, quad_bytes, number_quad, number_from, power_quad, power_from};

use crate::place::byte;
use interface_records::group::{power_bytes, power_of};
use power_policy_interface::capability::PowerCapability;

// Four bytes by value. A struct and no array: what is proved of its four bytes would ask in each law that an array of them has four.
#[derive(Clone, Copy)]
pub struct Quad {
    pub b0: u8,
    pub b1: u8,
    pub b2: u8,
    pub b3: u8,
}

impl Quad {
    // The four bytes from a place on, zeros past the end. A place and no array: it cannot fail (`place::byte`).
    pub fn at(s: &[u8], at: usize) -> Quad
        ensures { result ≡ quad_at s.now at }
    {
        Quad {
            b0: byte(s, at, 0),
            b1: byte(s, at, 1),
            b2: byte(s, at, 2),
            b3: byte(s, at, 3),
        }
    }

    // A method, as the library's to_le_bytes: with a From each call would name the array's length.
    pub fn bytes(self) -> [u8; 4]
        ensures { result ≡ quad_bytes self }
    {
        [self.b0, self.b1, self.b2, self.b3]
    }
}

impl From<u32> for Quad {
    ghost from_gives = { λ n q. q ≡ number_quad n };

    fn from(n: u32) -> Quad {
        let [b0, b1, b2, b3] = n.to_le_bytes();
        Quad { b0, b1, b2, b3 }
    }
}

impl From<Quad> for u32 {
    ghost from_gives = { λ q n. n ≡ number_from q };

    fn from(q: Quad) -> u32 {
        u32::from_le_bytes(q.bytes())
    }
}

impl From<PowerCapability> for Quad {
    ghost from_gives = { λ c q. q ≡ power_quad c };

    fn from(c: PowerCapability) -> Quad {
        let [b0, b1, b2, b3] = power_bytes(c);
        Quad { b0, b1, b2, b3 }
    }
}

impl From<Quad> for PowerCapability {
    ghost from_gives = { λ q c. c ≡ power_from q };

    fn from(q: Quad) -> PowerCapability {
        power_of(q.bytes())
    }
}
