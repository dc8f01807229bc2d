// The C functions (SHP-7), on numbers and byte slices (docs/STATE.md, include/power_policy.h).
// Each returns one 64-bit number; a call that is turned back leaves every byte that it was lent.
#![tactic(auto)]

ghost use Rattle.std.specs.Prelude.{◌≡◌};
ghost use Rattle.abstract_calls.specs.Functions.{arguments};
ghost use Rattle.abi_functions.specs.Ours.{functions};

use power_policy_service::config::Config;

// A fresh service with so many ports and chargers and this configuration, in bytes of any content and of an image's length.
#[unsafe(no_mangle)]
pub extern "C" fn power_policy_start(
    image: &mut [u8],
    ports: u32,
    chargers: u32,
    threshold_mw: u64,
    unlimited_mv: u64,
    unlimited_ma: u64,
    limited_mv: u64,
    limited_ma: u64,
    minimum_present: u64,
    minimum_mw: u64,
) -> u64
    ensures value { result ≡ (functions.start image.old (arguments ports chargers threshold_mw unlimited_mv unlimited_ma limited_mv limited_ma minimum_present minimum_mw)).number }
    ensures image_after { image.new ≡ (functions.start image.old (arguments ports chargers threshold_mw unlimited_mv unlimited_ma limited_mv limited_ma minimum_present minimum_mw)).bytes }
{
    let config = Config::from_numbers(
        threshold_mw,
        unlimited_mv,
        unlimited_ma,
        limited_mv,
        limited_ma,
        minimum_present,
        minimum_mw,
    );
    bytes_service_calls::start(image, config, ports, chargers)
}

// An event of a kind from a port or a charger, with the present records: the first order, or how the event closed.
#[unsafe(no_mangle)]
pub extern "C" fn power_policy_open(
    image: &mut [u8],
    psus: &[u8],
    chargers: &[u8],
    kind: u32,
    device: u32,
    detail: u32,
) -> u64
    ensures value { result ≡ (functions.open_event image.old psus.now chargers.now kind device detail).number }
    ensures image_after { image.new ≡ (functions.open_event image.old psus.now chargers.now kind device detail).bytes }
{
    bytes_service_calls::open_event(image, psus, chargers, kind, device, detail)
}

// The answer to the open order, with the present records: the next order, or how the event closed.
#[unsafe(no_mangle)]
pub extern "C" fn power_policy_answer(
    image: &mut [u8],
    psus: &[u8],
    chargers: &[u8],
    answer: u32,
) -> u64
    ensures value { result ≡ (functions.answer image.old psus.now chargers.now answer).number }
    ensures image_after { image.new ≡ (functions.answer image.old psus.now chargers.now answer).bytes }
{
    bytes_service_calls::give_answer(image, psus, chargers, answer)
}

// The open order, or how the event closed last.
#[unsafe(no_mangle)]
pub extern "C" fn power_policy_order(image: &[u8]) -> u64
    ensures { result ≡ functions.order image.now }
{
    bytes_service_calls::read_order(image)
}

// The packet of the event closed last, from the front of the buffer on.
#[unsafe(no_mangle)]
pub extern "C" fn power_policy_write_packet(image: &[u8], buffer: &mut [u8]) -> u64
    ensures value { result ≡ (functions.write_packet image.now buffer.old).number }
    ensures buffer_after { buffer.new ≡ (functions.write_packet image.now buffer.old).bytes }
{
    bytes_service_calls::write_packet(image, buffer)
}

// The full picture of what is held, from the front of the buffer on.
#[unsafe(no_mangle)]
pub extern "C" fn power_policy_write_picture(image: &[u8], buffer: &mut [u8]) -> u64
    ensures value { result ≡ (functions.write_picture image.now buffer.old).number }
    ensures buffer_after { buffer.new ≡ (functions.write_picture image.now buffer.old).bytes }
{
    bytes_service_calls::write_picture(image, buffer)
}

// A fresh follower, in bytes of any content and of an image's length.
#[unsafe(no_mangle)]
pub extern "C" fn power_policy_follower_start(image: &mut [u8]) -> u64
    ensures value { result ≡ (functions.follower_start image.old).number }
    ensures image_after { image.new ≡ (functions.follower_start image.old).bytes }
{
    bytes_follower_calls::start(image)
}

// Hands a packet or picture to the follower.
#[unsafe(no_mangle)]
pub extern "C" fn power_policy_follower_take(image: &mut [u8], packet: &[u8]) -> u64
    ensures value { result ≡ (functions.take image.old packet.now).number }
    ensures image_after { image.new ≡ (functions.take image.old packet.now).bytes }
{
    bytes_follower_calls::take(image, packet)
}

// Lost, or the number shown, whether level or waiting, and the unconstrained figures.
#[unsafe(no_mangle)]
pub extern "C" fn power_policy_follower_shown(image: &[u8]) -> u64
    ensures { result ≡ functions.shown image.now }
{
    bytes_follower_calls::shown(image)
}

// The consumer shown; none if lost.
#[unsafe(no_mangle)]
pub extern "C" fn power_policy_follower_consumer(image: &[u8]) -> u64
    ensures { result ≡ functions.consumer image.now }
{
    bytes_follower_calls::consumer(image)
}

// The ports shown as tracked; none if lost.
#[unsafe(no_mangle)]
pub extern "C" fn power_policy_follower_tracked(image: &[u8]) -> u64
    ensures { result ≡ functions.tracked image.now }
{
    bytes_follower_calls::tracked(image)
}

// The page of what is shown, in the first 246 bytes of the buffer.
#[unsafe(no_mangle)]
pub extern "C" fn power_policy_follower_write_page(image: &[u8], buffer: &mut [u8]) -> u64
    ensures value { result ≡ (functions.write_page image.now buffer.old).number }
    ensures buffer_after { buffer.new ≡ (functions.write_page image.now buffer.old).bytes }
{
    bytes_follower_calls::write_page(image, buffer)
}
