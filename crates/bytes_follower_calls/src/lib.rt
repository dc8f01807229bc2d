// The calls on the follower's image. What is held stays in the image; a call that is turned back leaves every byte as it was.
#![tactic(auto)]

ghost use Rattle.std.specs.Prelude.{◌≡◌, cond, Some, option_map, ok_or, IfOk};
ghost use Rattle.power_policy_interface.specs.Refusal.{refusal_number};
ghost use Rattle.power_policy_interface.specs.declared.refusal.Refusal.{Refusal};
ghost use Rattle.abstract_calls.specs.Numbers.{refused_number, done_number};
ghost use Rattle.interface_display.specs.declared.State.{State};
ghost use Rattle.bytes_follower_image.specs.Image.{follower_from, shown_read, ShownBy};
ghost use Rattle.desk_report.specs.Page.{page_for};
ghost use Rattle.bytes_take.specs.Taken.{none_in, taken_image};
ghost use Rattle.bytes_calls.specs.Calls.{follower_start_call, take_call, reader_call, shown_as, shown_call, consumer_call, tracked_call, write_page_call};

use bytes_calls::numbers;
use bytes_follower_image::read_shown;
use desk_follower::Shown;
use desk_report::page;
use desk_report::page::Page;
use interface_display::packet::Packet;
use interface_display::providers::Providers;
use power_policy_interface::limits::FOLLOWER_IMAGE;
use power_policy_interface::refusal::Refusal;
use wire::packet;

// A fresh follower, lost with floor 0; 21 for bytes of another length than an image's.
pub fn start(image: &mut [u8]) -> u64
    ensures value { result ≡ (follower_start_call image.old).number }
    ensures image_after { image.new ≡ (follower_start_call image.old).bytes }
{
    if image.len() == FOLLOWER_IMAGE {
        bytes_follower_image::write_lost(image, 0);
        return numbers::done();
    }
    numbers::number_of(Err(Refusal::Image))
}

// What an image shows; 21 for bytes that are no image.
fn shown_in(image: &[u8]) -> Result<Shown, Refusal>
    ensures value { result ≡ ok_or (shown_read (follower_from image.now)) Refusal.Image }
    ensures shown_by { IfOk result (λ s. ShownBy image.now (Some s)) }
{
    read_shown(image).ok_or(Refusal::Image)
}

// A packet that was turned back; 21 comes first.
fn turned_back(image: &[u8], refusal: Refusal) -> u64
    ensures { result ≡ reader_call (follower_from image.now) (λ f. refused_number (refusal_number refusal)) }
{
    numbers::number_of(shown_in(image).and(Err(refusal)))
}

// A packet or picture that was read.
fn store_taken(image: &mut [u8], p: Packet) -> u64
    ensures value { result ≡ reader_call (follower_from image.old) (λ f. done_number) }
    ensures image_after { image.new ≡ taken_image image.old p }
{
    numbers::number_of(bytes_take::take(image, p).map(|()| numbers::done()))
}

// Hands a packet or picture to the follower.
pub fn take(image: &mut [u8], bytes: &[u8]) -> u64
    ensures value { result ≡ (take_call image.old bytes.now).number }
    ensures image_after { image.new ≡ (take_call image.old bytes.now).bytes }
{
    match packet::read(bytes) {
        Err(refusal) => turned_back(image, refusal),
        Ok(p) => store_taken(image, p),
    }
}

// Lost, or the number of a picture with whether the image's slots hold something.
fn number_shown(image: &[u8], shown: Shown) -> u64
    ensures { result ≡ shown_as (cond (none_in image.now) State.Level State.Waiting) shown }
{
    match shown {
        Shown::Lost(_) => numbers::lost(),
        Shown::Picture(p) => numbers::shown(bytes_take::state(image), p),
    }
}

// Lost, or the number shown, whether level or waiting, and the unconstrained figures.
pub fn shown(image: &[u8]) -> u64
    ensures { result ≡ shown_call (follower_from image.now) }
{
    numbers::number_of(shown_in(image).map(|shown| number_shown(image, shown)))
}

// The consumer shown; none if lost.
pub fn consumer(image: &[u8]) -> u64
    ensures { result ≡ consumer_call (follower_from image.now) }
{
    numbers::number_of(shown_in(image).map(|shown| numbers::consumer(shown.consumer())))
}

// The ports shown as tracked; none if lost.
pub fn tracked(image: &[u8]) -> u64
    ensures { result ≡ tracked_call (follower_from image.now) }
{
    numbers::number_of(shown_in(image).map(|shown| match shown {
        Shown::Lost(_) => numbers::tracked(Providers::new()),
        Shown::Picture(p) => numbers::tracked(p.display.providers),
    }))
}

// The page of what is shown; 21 for bytes that are no image.
fn page_in(image: &[u8]) -> Result<Page, Refusal>
    ensures { result ≡ ok_or (option_map page_for (follower_from image.now)) Refusal.Image }
{
    match shown_in(image)? {
        Shown::Lost(_) => Ok(Page::lost()),
        Shown::Picture(p) => Ok(Page::showing(bytes_take::state(image), p)),
    }
}

// The page of what is shown, from the front of the buffer on; 21 comes first, then 34 for a buffer under 246 bytes.
// Tried: with `page::write` in a closure of `and_then` the proof does not close, since nothing tells what the buffer that it captures then holds.
pub fn write_page(image: &[u8], buffer: &mut [u8]) -> u64
    ensures value { result ≡ (write_page_call (follower_from image.now) buffer.old).number }
    ensures buffer_after { buffer.new ≡ (write_page_call (follower_from image.now) buffer.old).bytes }
{
    match page_in(image) {
        Err(refusal) => numbers::number_of(Err(refusal)),
        Ok(page) => numbers::stored(numbers::by_number(page::write(page, buffer))),
    }
}
