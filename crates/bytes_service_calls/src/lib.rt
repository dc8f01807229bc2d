// The calls on the service's image: each reads the image, calls the service by value, and writes the image back. A call that is turned back leaves every byte
// as it was. Image, PSU and charger records go side by side, as the C interface lends them: a struct of the three would be taken apart again at the first line
// of `try_call`, the one function that reads them.
#![tactic(auto)]

ghost use Rattle.std.specs.Prelude.{◌≡◌, ok_or};
ghost use Rattle.power_policy_interface.specs.Refusal.{numbered};
ghost use Rattle.power_policy_interface.specs.declared.refusal.Refusal.{Refusal};
ghost use Rattle.machine_service.specs.Service.{accepted};
ghost use Rattle.abstract_calls.specs.Lent.{written_as};
ghost use Rattle.machine_state.specs.Phase.{order_of};
ghost use Rattle.bytes_service_image.specs.Image.{service_from};
ghost use Rattle.bytes_service_calls.specs.Step.{IsStep, IsWrite, asked_call};
ghost use Rattle.bytes_calls.specs.Calls.{number_of, start_call, stepped_call, on_service, open_call, answer_call, stand_number, order_call, write_packet_call, write_picture_call};

use abstract_policy::state::Records;
use bytes_calls::numbers;
use bytes_calls::rows::read_rows;
use machine_service::{Service, Stepped, send};
use machine_state::phase::Stand;
use power_policy_interface::limits::SERVICE_IMAGE;
use power_policy_interface::refusal::Refusal;
use power_policy_service::config::Config;

// The service of an image.
fn service_in(image: &[u8]) -> Result<Service, Refusal>
    ensures { result ≡ ok_or (service_from image.now) Refusal.Image }
{
    bytes_service_image::read(image).ok_or(Refusal::Image)
}

// Writes the image of the service after a call that is accepted.
fn store(image: &mut [u8], stepped: Stepped) -> u64
    ensures value { result ≡ (stepped_call image.old (accepted stepped)).number }
    ensures image_after { image.new ≡ (stepped_call image.old (accepted stepped)).bytes }
{
    bytes_service_image::write(image, stepped.service);
    numbers::step(Ok(stepped.step))
}

// A call with records, or what turns it back: image and records are read, and then the step is taken that the caller hands in.
fn try_call<F: FnOnce(Service, Records) -> Result<Stepped, Refusal>>(
    image: &mut [u8],
    psus: &[u8],
    chargers: &[u8],
    step: F,
) -> Result<u64, Refusal>
    requires { F.IsAlwaysCallable step }
    ensures value { (f : _) → IsStep (F.post step) f → number_of result ≡ (on_service image.old (service_from image.old) psus.now chargers.now f).number }
    ensures image_after { (f : _) → IsStep (F.post step) f → image.new ≡ (on_service image.old (service_from image.old) psus.now chargers.now f).bytes }
{
    let service = service_in(image)?;
    // (By a match, and not by a Result of its own: the records of all ports would be copied once more.)
    match read_rows(service.registration, psus, chargers) {
        None => Err(Refusal::Records),
        Some(records) => {
            let stepped = step(service, records)?;
            Ok(store(image, stepped))
        }
    }
}

// An event of a kind from a port or a charger, with the present records: kind, device and detail by the numbers that C gives.
pub fn open_event(
    image: &mut [u8],
    psus: &[u8],
    chargers: &[u8],
    kind: u32,
    device: u32,
    detail: u32,
) -> u64
    ensures value { result ≡ (open_call image.old psus.now chargers.now kind device detail).number }
    ensures image_after { image.new ≡ (open_call image.old psus.now chargers.now kind device detail).bytes }
{
    let open = |service: Service, records| service.open(kind, device, detail, records);
    numbers::number_of(try_call(image, psus, chargers, open))
}

// The answer to the open order, by the number that C gives, with the present records.
pub fn give_answer(image: &mut [u8], psus: &[u8], chargers: &[u8], answer: u32) -> u64
    ensures value { result ≡ (answer_call image.old psus.now chargers.now answer).number }
    ensures image_after { image.new ≡ (answer_call image.old psus.now chargers.now answer).bytes }
{
    let take_answer = |service: Service, records| service.answer(answer, records);
    numbers::number_of(try_call(image, psus, chargers, take_answer))
}

// Writes the image of a fresh service, unless the start is refused or the bytes are of another length.
fn try_start(
    image: &mut [u8],
    config: Option<Config>,
    ports: u32,
    chargers: u32,
) -> Result<u64, Refusal>
    ensures value { number_of result ≡ (start_call image.old config ports chargers).number }
    ensures image_after { image.new ≡ (start_call image.old config ports chargers).bytes }
{
    let service = machine_service::start(config, ports, chargers)?;
    if image.len() != SERVICE_IMAGE {
        return Err(Refusal::Image);
    }
    bytes_service_image::write(image, service);
    Ok(numbers::done())
}

// A start with the configuration that was read, and how many ports and chargers there are.
pub fn start(image: &mut [u8], config: Option<Config>, ports: u32, chargers: u32) -> u64
    ensures value { result ≡ (start_call image.old config ports chargers).number }
    ensures image_after { image.new ≡ (start_call image.old config ports chargers).bytes }
{
    numbers::number_of(try_start(image, config, ports, chargers))
}

// The open order of a service, or how its last event closed and after how many orders.
fn stand_of(service: Service) -> u64
    ensures { result ≡ stand_number (order_of service.phase) service.phase service.orders }
{
    match service.phase.stand() {
        Stand::Closed(answer) => numbers::closed(answer, service.orders),
        Stand::Order(o) => numbers::order(o),
    }
}

// The open order, or how the event closed last.
pub fn read_order(image: &[u8]) -> u64
    ensures { result ≡ order_call (service_from image.now) }
{
    numbers::number_of(service_in(image).map(stand_of))
}

// Writes what was asked of the service, or says what turned it back. The two public functions that call it have a C function each, which forwards.
fn try_write<T, F: FnOnce(T, &mut [u8]) -> Result<usize, Refusal>>(
    asked: Result<T, Refusal>,
    buffer: &mut [u8],
    write: F,
) -> Result<usize, Refusal>
    requires { F.IsAlwaysCallable write }
    ensures value { (f : _) → IsWrite (F.post write) f → written_as (numbered result) ≡ (asked_call f asked buffer.old).number }
    ensures buffer_after { (f : _) → IsWrite (F.post write) f → buffer.new ≡ (asked_call f asked buffer.old).bytes }
{
    write(asked?, buffer)
}

// The packet of the event closed last, from the front of the buffer on.
pub fn write_packet(image: &[u8], buffer: &mut [u8]) -> u64
    ensures value { result ≡ (write_packet_call (service_from image.now) buffer.old).number }
    ensures buffer_after { buffer.new ≡ (write_packet_call (service_from image.now) buffer.old).bytes }
{
    let packet = service_in(image).and_then(send::packet);
    let written = try_write(packet, buffer, wire_writer::write_event);
    numbers::stored(numbers::by_number(written))
}

// The full picture of what is held, from the front of the buffer on.
pub fn write_picture(image: &[u8], buffer: &mut [u8]) -> u64
    ensures value { result ≡ (write_picture_call (service_from image.now) buffer.old).number }
    ensures buffer_after { buffer.new ≡ (write_picture_call (service_from image.now) buffer.old).bytes }
{
    let picture = service_in(image).and_then(send::picture);
    let written = try_write(picture, buffer, wire_writer::write_picture);
    numbers::stored(numbers::by_number(written))
}
