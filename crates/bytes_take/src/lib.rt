// A take on the follower's image: what is held stays in its slots, and only what the packet changes is written.
#![tactic(auto)]

pub mod turn;

ghost use Rattle.std.specs.Prelude.{◌≡◌, cond, ◌++◌, ◌+◌, ◌*◌, ◌-◌, ◌<◌, min, eqb, length, get_or, take, drop, replicate};
ghost use Rattle.std.proofs.lemmas.List.Edits.{sets};
ghost use Rattle.power_policy_interface.specs.Limits.{window, follower_length};
ghost use Rattle.interface_display.specs.declared.packet.Packet.{Packet};
ghost use Rattle.interface_display.specs.declared.State.{State};
ghost use Rattle.desk_follower.specs.Held.{greatest, above};
ghost use Rattle.desk_follower.specs.Follower.{lost, taken, taken_at};
ghost use Rattle.desk_follower.specs.declared.Shown.{Shown};
ghost use Rattle.desk_follower.specs.declared.held.Held.{Held};
ghost use Rattle.bytes_follower_image.specs.Slot.{slot_bytes};
ghost use Rattle.bytes_follower_image.specs.Image.{lost_bytes, follower_bytes, follower_from, ImageOf, shown_head};
ghost use Rattle.bytes_take.specs.Taken.{none_in, taken_answer, taken_image};
ghost use Rattle.bytes_take.specs.Turned.{turned, outcome};

use crate::turn::{drop_slots, greatest, in_turn};
use bytes_follower_image::{put_head, put_shown, read_shown, slot, write_lost};
use bytes_groups::place;
use desk_follower::Shown;
use interface_display::State;
use interface_display::packet::{EventPacket, Packet, Picture};
use power_policy_interface::limits::{FOLLOWER_IMAGE, WINDOW};
use power_policy_interface::refusal::Refusal;

// Whether no slot holds a packet.
fn none_held(image: &[u8]) -> bool
    ensures { result ≡ none_in image.now }
{
    (0..7).all(|k| place::byte(image, 17 + 32 * k, 0) == 0)
}

// Lost: an event number raises the floor; a picture numbered at least the floor is shown, another is dropped.
fn take_lost(image: &mut [u8], floor: u32, p: Packet)
    ensures { image.old ≡ lost_bytes floor → image.new ≡ follower_bytes (taken (lost floor) p) }
{
    match p {
        Packet::Event(e) => put_head(image, 0, floor.max(e.number)),
        Packet::Picture(v) => {
            if floor <= v.number {
                put_shown(image, v);
            }
        }
    }
}

// Holds a packet in the slot at a place, unless one is held there. A place and no part of the image: of a part no contract would say that the other bytes stay.
fn hold(image: &mut [u8], at: usize, e: EventPacket)
    ensures { image.new ≡ cond (eqb (get_or image.old at 0) 0) (sets image.old at (slot_bytes e)) image.old }
{
    if place::byte(image, at, 0) == 0 {
        place::put(image, at, &slot::bytes(e));
    }
}

// Shows a picture in an image that shows n: the slots up to its number are dropped.
fn show_after(image: &mut [u8; FOLLOWER_IMAGE], n: u32, q: Picture)
    requires { n < q.number }
    ensures { image.new ≡ sets (take 17 image.old ++ (drop (17 + (q.number - n) * 32) image.old ++ replicate (min 224 ((q.number - n) * 32)) 0)) 0 (shown_head q.number q.display) }
{
    drop_slots(image, q.number - n);
    put_shown(image, q);
}

// A picture above the one shown, and the packets that follow it in turn. With nothing held none does. Here and below each contract tells of h, what
// the follower holds, which no field has: a struct with a model over the lent bytes would have to make it.
fn advance(image: &mut [u8; FOLLOWER_IMAGE], s: Picture, p: Picture)
    requires { s.number < p.number }
    ensures { (h : Held) → ImageOf image.old s h → image.new ≡ follower_bytes (outcome (greatest p.number window h) (turned window p.number p.display h) p.number (above p.number window h)) }
{
    if none_held(image) {
        put_shown(image, p);
        return;
    }
    match in_turn(image, s.number, p) {
        None => {
            let floor = greatest(image, s.number, p.number);
            write_lost(image, floor);
        }
        Some(q) => show_after(image, s.number, q),
    }
}

// The next event: its notices act, or its error makes the follower lost. The answer is its byte, as EventPacket has it.
fn take_next(image: &mut [u8; FOLLOWER_IMAGE], s: Picture, e: EventPacket)
    requires { e.number ≡ s.number + 1 }
    ensures { (h : Held) → ImageOf image.old s h → image.new ≡ follower_bytes (taken_at (Shown.Picture s) h (Packet.Event e)) }
{
    if e.answer != 0 {
        let floor = greatest(image, s.number, e.number);
        write_lost(image, floor);
        return;
    }
    let display = e.notices.apply(s.display);
    let p = Picture {
        number: e.number,
        display,
    };
    advance(image, s, p);
}

// Showing: an event packet numbered n or less is dropped; beyond n + 8 it makes the follower lost; n + 1 is the next; the others are held.
fn take_event(image: &mut [u8; FOLLOWER_IMAGE], s: Picture, e: EventPacket)
    ensures { (h : Held) → ImageOf image.old s h → image.new ≡ follower_bytes (taken_at (Shown.Picture s) h (Packet.Event e)) }
{
    if e.number <= s.number {
        return;
    }
    let ahead = e.number - s.number;
    if WINDOW < ahead {
        write_lost(image, e.number);
        return;
    }
    if ahead == 1 {
        take_next(image, s, e);
        return;
    }
    hold(image, 17 + 32 * (ahead - 2) as usize, e);
}

// Showing: a picture numbered above n is shown, another is dropped.
fn take_picture(image: &mut [u8; FOLLOWER_IMAGE], s: Picture, p: Picture)
    ensures { (h : Held) → ImageOf image.old s h → image.new ≡ follower_bytes (taken_at (Shown.Picture s) h (Packet.Picture p)) }
{
    if s.number < p.number {
        advance(image, s, p);
    }
}

// Showing: an event packet or a picture.
fn take_shown(image: &mut [u8; FOLLOWER_IMAGE], s: Picture, p: Packet)
    ensures { (h : Held) → ImageOf image.old s h → image.new ≡ follower_bytes (taken_at (Shown.Picture s) h p) }
{
    match p {
        Packet::Event(e) => take_event(image, s, e),
        Packet::Picture(v) => take_picture(image, s, v),
    }
}

// Takes a packet or picture; bytes that are no follower's image are refused, and stay.
pub fn take(image: &mut [u8], p: Packet) -> Result<(), Refusal>
    ensures value { result ≡ taken_answer (follower_from image.old) }
    ensures image_after { image.new ≡ taken_image image.old p }
{
    let image: &mut [u8; FOLLOWER_IMAGE] = image.as_mut_array().ok_or(Refusal::Image)?;
    match read_shown(image).ok_or(Refusal::Image)? {
        Shown::Lost(floor) => take_lost(image, floor, p),
        Shown::Picture(s) => take_shown(image, s, p),
    }
    Ok(())
}

// Showing: level, or waiting with something held.
pub fn state(image: &[u8]) -> State
    ensures { result ≡ cond (none_in image.now) State.Level State.Waiting }
{
    if none_held(image) {
        State::Level
    } else {
        State::Waiting
    }
}
