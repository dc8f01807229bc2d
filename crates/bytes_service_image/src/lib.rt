// The service's image: 67 bytes that the firmware keeps between calls (docs/STATE.md). A service has one image, and bytes are read only
// if they are that of a well-formed service.
#![tactic(auto)]

pub mod well_formed;

ghost use Rattle.std.specs.Prelude.{◌≡◌, cond, eqb, length};
ghost use Rattle.power_policy_interface.specs.Limits.{service_length};
ghost use Rattle.bytes_service_image.specs.Image.{service_bytes, parts_from, service_from};

use crate::well_formed::well_formed;
use bytes_groups::place;
use bytes_groups::quad::Quad;
use bytes_service_groups::notices::{put_notices, read_notices};
use bytes_service_groups::phase::{Standing, put_phase};
use bytes_service_groups::registration::{put_head, registered_at};
use bytes_service_groups::state::{put_held, read_state};
use machine_service::Service;
use machine_state::memory::Memory;
use power_policy_interface::limits::SERVICE_IMAGE;

// The service that the groups make.
fn parts(image: &[u8]) -> Option<Service>
    ensures { result ≡ parts_from image.now }
{
    Some(Service {
        registration: registered_at(image).read()?,
        number: u32::from(Quad::at(image, 20)),
        memory: Memory {
            state: read_state(image)?,
            notices: read_notices(image)?,
        },
        orders: place::byte(image, 36, 0),
        phase: Standing::at(image).read()?,
    })
}

// The service of an image; refused for bytes that no well-formed service is written as.
#[tactic(auto, unfolding(crate::specs::Image::service_from))]
pub fn read(image: &[u8]) -> Option<Service>
    ensures { result ≡ service_from image.now }
{
    if image.len() != SERVICE_IMAGE || image[0] != 1 {
        return None;
    }
    let service = parts(image)?;
    if !well_formed(service) {
        return None;
    }
    Some(service)
}

// Writes the image of a service; bytes of another length than 67 stay.
pub fn write(image: &mut [u8], s: Service)
    ensures { image.new ≡ cond (eqb (length image.old) service_length) (service_bytes s) image.old }
{
    if image.len() != SERVICE_IMAGE {
        return;
    }
    put_head(image, s.registration, s.number);
    put_held(image, s.memory.state, s.orders);
    put_phase(image, s.phase);
    put_notices(image, s.memory.notices);
}
