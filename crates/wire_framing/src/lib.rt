// Packets in a stream: length# (1 to 64), packet, repeated (PRG-1).
#![tactic(auto)]

ghost use Rattle.std.specs.Prelude.{◌≡◌};
ghost use Rattle.power_policy_interface.specs.Refusal.{numbered};
ghost use Rattle.wire_framing.specs.Framing.{framed};

use power_policy_interface::limits::{BUFFER, LARGEST};
use power_policy_interface::refusal::Refusal;
use wire::number;

// What stands at the front of the bytes.
#[derive(Clone, Copy, PartialEq, Eq)]
pub enum Framed {
    // No bytes.
    Empty,
    // Cut short, within the length or the packet: 30 if no more bytes come.
    Cut,
    // A length of `used` bytes, and after it a packet of `length` bytes.
    Frame { used: usize, length: usize },
}

// The frame at the front of the bytes; or 31 a length not shortest or over 4,294,967,295, 32 a length of 0 or over 64.
#[tactic(auto, unfolding(crate::specs::Framing::framed))]
pub fn frame(s: &[u8]) -> Result<Framed, Refusal>
    ensures { numbered result ≡ framed s.now }
{
    if s.is_empty() {
        return Ok(Framed::Empty);
    }
    let (n, used) = match number::read(s, LARGEST) {
        Err(Refusal::CutShort) => return Ok(Framed::Cut),
        read => read?,
    };
    let length = n as usize;
    if length == 0 || BUFFER < length {
        return Err(Refusal::Layout);
    }
    if s.len() - used < length {
        return Ok(Framed::Cut);
    }
    Ok(Framed::Frame { used, length })
}
