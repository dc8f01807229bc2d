// The packets in the slots that follow in turn. Slot k is that of the event two and k above the number shown.
ghost use Rattle.std.specs.Prelude.{◌≡◌, ◌++◌, ◌+◌, ◌*◌, ◌-◌, ◌≤◌, ◌<◌, min, length, take, drop, replicate};
ghost use Rattle.power_policy_interface.specs.Limits.{window, follower_length};
ghost use Rattle.desk_follower.specs.declared.held.Held.{Held};
ghost use Rattle.desk_follower.specs.Held.{held_for, greatest};
ghost use Rattle.bytes_follower_image.specs.Image.{ImageOf};
ghost use Rattle.bytes_take.specs.Turned.{turned};

use bytes_follower_image::slot;
use bytes_groups::place;
use desk_follower::held::no_packet;
use interface_display::packet::{EventPacket, Picture};
use power_policy_interface::limits::{FOLLOWER_IMAGE, WINDOW};

// The packet in slot k, that of an event; number 0 if none is held there, as in `Held`. k and no slot: of the slot alone no contract would tell what
// the follower holds.
fn held_at(image: &[u8; FOLLOWER_IMAGE], k: usize, event: u64) -> EventPacket
    requires { k < 7 }
    ensures value { (s : Picture) (h : Held) → ImageOf image.now s h → event ≡ s.number + 2 + k → result ≡ held_for h event }
    ensures number_value { (result.number ≡ 0 → ⊥) → result.number ≡ event }
{
    let at = 17 + k * 32;
    slot::read(&image[at..at + 32], event).unwrap_or(no_packet())
}

// A picture after the packets that follow it in turn, in an image that shows n; none where one has an error.
pub(crate) fn in_turn(image: &[u8; FOLLOWER_IMAGE], n: u32, p: Picture) -> Option<Picture>
    requires { n < p.number }
    ensures value { (s : Picture) (h : Held) → ImageOf image.now s h → s.number ≡ n → result ≡ turned window p.number p.display h }
    ensures n_lt_number { (q : Picture) → result ≡ Some q → n < q.number }
{
    let mut number = p.number;
    let mut display = p.display;
    // Over the slots that are left: an end and an error leave it, which a chain would have to carry beside the picture.
    for k in p.number - n - 1..WINDOW - 1 {
        let q = held_at(image, k as usize, number as u64 + 1);
        if q.number == 0 {
            break;
        }
        if q.answer != 0 {
            return None;
        }
        display = q.notices.apply(display);
        number = q.number;
    }
    Some(Picture { number, display })
}

// The number of the packet in slot k, that of an event; 0 if none is held there, as in `Held`. The slot's first byte tells.
fn number_at(image: &[u8; FOLLOWER_IMAGE], k: usize, event: u64) -> u32
    requires { k < 7 }
    ensures { (s : Picture) (h : Held) → ImageOf image.now s h → event ≡ s.number + 2 + k → result ≡ (held_for h event).number }
{
    if image[17 + k * 32] == 0 {
        return 0;
    }
    if 4294967295 < event {
        return 0;
    }
    event as u32
}

// The greatest of a number and those held, in an image that shows n. A loop: its range says that k is below seven, which a closure of a chain would ask for again.
pub(crate) fn greatest(image: &[u8; FOLLOWER_IMAGE], n: u32, number: u32) -> u32
    ensures { (s : Picture) (h : Held) → ImageOf image.now s h → s.number ≡ n → result ≡ greatest number window h }
{
    let mut most = number;
    for k in 0..7usize {
        most = most.max(number_at(image, k, n as u64 + 2 + k as u64));
    }
    most
}

// Moves the slots to the front by so many bytes; zeros come in at the end. In the image, here and below: of a part no contract would say that the
// other bytes stay.
fn move_slots(image: &mut [u8; FOLLOWER_IMAGE], by: usize)
    requires { by ≤ 224 }
    ensures { image.new ≡ take 17 image.old ++ (drop (17 + by) image.old ++ replicate by 0) }
{
    image.copy_within(17 + by.., 17);
    image[FOLLOWER_IMAGE - by..].fill(0);
}

// Drops so many slots from the front; at least seven are all.
pub(crate) fn drop_slots(image: &mut [u8; FOLLOWER_IMAGE], count: u32)
    ensures { image.new ≡ take 17 image.old ++ (drop (17 + count * 32) image.old ++ replicate (min 224 (count * 32)) 0) }
{
    if 7 <= count {
        place::put(image, 17, &[0; 224]);
    } else {
        move_slots(image, count as usize * 32);
    }
}
