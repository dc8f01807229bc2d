// The follower's image: 241 bytes (docs/STATE.md). What it shows is read and written here; what is held stays in its slots.
#![tactic(auto)]

pub mod held;
pub mod notice;
pub mod slot;

ghost use Rattle.std.specs.Prelude.{◌≡◌, ◌∷◌};
ghost use Rattle.std.proofs.lemmas.List.Edits.{sets};
ghost use Rattle.bytes_groups.specs.Quad.{quad_bytes, number_quad};
ghost use Rattle.bytes_follower_image.specs.Image.{lost_bytes, lost_in, showing_in, follower_from, shown_read, ShownBy, shown_head};

use bytes_groups::quad::Quad;
use bytes_groups::{place, shown};
use desk_follower::Shown;
use interface_display::packet::Picture;
use power_policy_interface::limits::{FOLLOWER_IMAGE, MAX_PORTS};

// Lost: zeros stand after the floor.
fn shown_lost(image: &[u8; FOLLOWER_IMAGE]) -> Option<Shown>
    ensures { result ≡ shown_read (lost_in image.now) }
{
    slot::is_zero(&image[6..]).then_some(Shown::Lost(u32::from(Quad::at(image, 2))))
}

// Showing: the number and the display, where the slots are slots.
fn shown_picture(image: &[u8; FOLLOWER_IMAGE]) -> Option<Shown>
    ensures { result ≡ shown_read (showing_in image.now) }
{
    let number = u32::from(Quad::at(image, 2));
    let display = shown::Shown::at(image, 6).display()?;
    let fits = shown::fits(MAX_PORTS, display) && held::fits(image, number);
    fits.then_some(Shown::Picture(Picture { number, display }))
}

// What an image shows; what is held is looked at and stays in the image. None for bytes that no well-formed follower is written as.
pub fn read_shown(image: &[u8]) -> Option<Shown>
    ensures value { result ≡ shown_read (follower_from image.now) }
    ensures shown_by { ShownBy image.now result }
{
    let image: &[u8; FOLLOWER_IMAGE] = image.as_array()?;
    if image[0] != 2 {
        return None;
    }
    // The layout's byte decides: an enum of the two kinds would be matched once more.
    match image[1] {
        0 => shown_lost(image),
        1 => shown_picture(image),
        _ => None,
    }
}

// Writes the first six bytes: a follower's image, lost or showing, the number. The kind is the layout's byte, 0 or 1: an enum would be made at each
// call and turned into that byte here.
pub fn put_head(image: &mut [u8], kind: u8, number: u32)
    ensures { image.new ≡ sets image.old 0 (2 ∷ kind ∷ quad_bytes (number_quad number)) }
{
    let q = Quad::from(number);
    let b = [2, kind, q.b0, q.b1, q.b2, q.b3];
    place::put(image, 0, &b);
}

// Writes a lost follower.
pub fn write_lost(image: &mut [u8], floor: u32)
    ensures { image.new ≡ sets image.old 0 (lost_bytes floor) }
{
    put_head(image, 0, floor);
    place::put(image, 6, &[0; 235]);
}

// Writes number and display of a follower that shows a picture; what is held stays.
pub fn put_shown(image: &mut [u8], p: Picture)
    ensures { image.new ≡ sets image.old 0 (shown_head p.number p.display) }
{
    put_head(image, 1, p.number);
    let display = shown::Shown::from(p.display).bytes();
    place::put(image, 6, &display);
}
