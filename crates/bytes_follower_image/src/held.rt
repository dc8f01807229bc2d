// The row of seven slots: what is held of the events two to eight above the number shown.
ghost use Rattle.std.specs.Prelude.{◌≡◌, drop};
ghost use Rattle.bytes_follower_image.specs.Held.{held_from, is_held};

use crate::slot;
use power_policy_interface::limits::FOLLOWER_IMAGE;

// Whether an image's bytes from 17 on are the slots of a follower that shows a number.
pub(crate) fn fits(image: &[u8; FOLLOWER_IMAGE], number: u32) -> bool
    ensures { result ≡ is_held (held_from number (drop 17 image.now)) }
{
    let (slots, _) = image[17..].as_chunks::<32>();
    slots
        .iter()
        .enumerate()
        .all(|(i, slot)| slot::fits(slot, number as u64 + 2 + i as u64))
}
