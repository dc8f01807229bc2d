// A slot of 32 bytes: the packet held of one event, or zeros.
ghost use Rattle.std.specs.Prelude.{◌≡◌};
ghost use Rattle.bytes_follower_image.specs.Slot.{packet_bytes, slot_bytes, notices_from, are_notices, head_fits, packet_from, zeros, slot_from, is_read};

use crate::notice;
use bytes_groups::place;
use desk_follower::held::no_packet;
use interface_display::notices::Notices;
use interface_display::packet::EventPacket;
use power_policy_interface::limits::{MAX_NOTICES, MAX_ORDERS};

// The 32 bytes of a packet that is held.
fn packet_bytes(p: EventPacket) -> [u8; 32]
    ensures { result ≡ packet_bytes p }
{
    let n = p.notices;
    let mut out = [0; 32];
    place::put(&mut out, 0, &[1, p.answer, p.orders, n.count]);
    // A place's number says whether a notice is meant there: over pairs of a notice and seven bytes it would be counted beside them.
    for k in 0..MAX_NOTICES {
        let notice = notice::place(n.count, k, n.events[k as usize]);
        place::put(&mut out, 4 + 7 * k as usize, &notice.bytes());
    }
    out
}

// The 32 bytes of a slot: zeros for none, which is number 0 as in the `Held` that the slots are of: with an Option each would be turned into the
// other at both ends. A function: From of a packet may stand in interface_display alone (elsewhere the check says orphan-impl), which knows no image.
pub fn bytes(p: EventPacket) -> [u8; 32]
    ensures { result ≡ slot_bytes p }
{
    if p.number == 0 {
        return [0; 32];
    }
    packet_bytes(p)
}

// Whether every byte is 0. All are looked at, so that several can be at once: with `all`, which stops at the first, a take that is held took 1.27 times
// plain Rust, over the bar of 1.25.
pub fn is_zero(s: &[u8]) -> bool
    ensures { result ≡ zeros s.now }
{
    let mut zero = true;
    for b in s {
        zero &= *b == 0;
    }
    zero
}

// The notices of a slot, one place after the other. Four `?` in an array: without a heap an iterator's items go into one by a loop over places filled before.
fn read_notices(s: &[u8], count: u8) -> Option<Notices>
    ensures { result ≡ notices_from count s.now }
{
    Some(Notices {
        count,
        events: [
            notice::place_at(s, 4, count, 0)?,
            notice::place_at(s, 11, count, 1)?,
            notice::place_at(s, 18, count, 2)?,
            notice::place_at(s, 25, count, 3)?,
        ],
    })
}

// Whether an event can have the number, and answer, orders and count are within what a packet has. The answer is its byte, as EventPacket has it.
fn head_fits(number: u64, answer: u8, orders: u8, count: u8) -> bool
    ensures { result ≡ head_fits number answer orders count }
{
    number <= 4294967295 && answer <= 10 && orders <= MAX_ORDERS && count <= MAX_NOTICES
}

// The packet of an event, out of a slot that holds one.
fn read_packet(s: &[u8], number: u64) -> Option<EventPacket>
    ensures { result ≡ packet_from number s.now }
{
    let answer = place::byte(s, 0, 1);
    let orders = place::byte(s, 0, 2);
    let count = place::byte(s, 0, 3);
    if !head_fits(number, answer, orders, count) {
        return None;
    }
    let notices = read_notices(s, count)?;
    Some(EventPacket {
        number: number as u32,
        answer,
        orders,
        notices,
    })
}

// The slot of an event. The layout's byte decides: an enum of the two kinds would be matched once more.
pub fn read(s: &[u8], number: u64) -> Option<EventPacket>
    ensures { result ≡ slot_from number s.now }
{
    match place::byte(s, 0, 0) {
        0 => is_zero(s).then_some(no_packet()),
        1 => read_packet(s, number),
        _ => None,
    }
}

// Whether the four places of a slot are those of a count of notices.
fn notices_fit(s: &[u8; 32], count: u8) -> bool
    ensures { result ≡ are_notices (notices_from count s.now) }
{
    (0..MAX_NOTICES).all(|k| notice::place_fits(s, 4 + 7 * k as usize, count, k))
}

// Whether the bytes are those of the packet of this event, in a slot that holds one.
fn packet_fits(s: &[u8; 32], number: u64) -> bool
    ensures { result ≡ is_read (packet_from number s.now) }
{
    head_fits(number, s[1], s[2], s[3]) && notices_fit(s, s[3])
}

// Whether the bytes are those of a slot of this event. They are tested where they stand: with `read` and the packets that it makes, readers with
// seven held took 3.1 times plain Rust, and less than 1 as here. The layout's byte decides, as in `read`.
pub(crate) fn fits(s: &[u8; 32], number: u64) -> bool
    ensures { result ≡ is_read (slot_from number s.now) }
{
    match s[0] {
        0 => is_zero(s),
        1 => packet_fits(s, number),
        _ => false,
    }
}
