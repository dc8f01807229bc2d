// What is registered, as 19 bytes.
ghost use Rattle.std.specs.Prelude.{◌≡◌};
ghost use Rattle.std.proofs.lemmas.List.Edits.{sets};
ghost use Rattle.bytes_service_groups.specs.Registration.{head_bytes, registered_at, registered_bytes, presence, figure, registered, minimum_read, registration_from};

use abstract_policy::state::Registration;
use bytes_groups::place;
use bytes_groups::quad::Quad;
use interface_records::group::optional;
use power_policy_interface::capability::PowerCapability;
use power_policy_service::config::Config;

// 19 bytes by value, before they have places: that a registration has one form in bytes is proved of these.
#[derive(Clone, Copy)]
pub struct Registered {
    pub ports: u8,
    pub chargers: u8,
    pub threshold: Quad,
    pub unlimited: Quad,
    pub limited: Quad,
    pub presence: u8,
    pub figure: Quad,
}

// Bytes 1 to 19.
pub fn registered_at(s: &[u8]) -> Registered
    ensures { result ≡ registered_at s.now 1 }
{
    Registered {
        ports: place::byte(s, 1, 0),
        chargers: place::byte(s, 1, 1),
        threshold: Quad::at(s, 3),
        unlimited: Quad::at(s, 7),
        limited: Quad::at(s, 11),
        presence: place::byte(s, 1, 14),
        figure: Quad::at(s, 16),
    }
}

// The presence of a minimum.
fn presence(m: Option<u32>) -> u8
    ensures { result ≡ presence m }
{
    u8::from(m.is_some())
}

// The figure of a minimum, 0 for none.
fn figure(m: Option<u32>) -> u32
    ensures { result ≡ figure m }
{
    m.unwrap_or(0)
}

impl From<Registration> for Registered {
    ghost from_gives = { λ g r. r ≡ registered g };

    fn from(g: Registration) -> Registered {
        let config = g.config;
        let minimum = config.min_consumer_threshold_mw;
        Registered {
            ports: g.ports,
            chargers: g.chargers,
            threshold: Quad::from(config.limited_power_threshold_mw),
            unlimited: Quad::from(config.provider_unlimited),
            limited: Quad::from(config.provider_limited),
            presence: presence(minimum),
            figure: Quad::from(figure(minimum)),
        }
    }
}

// A presence byte and a figure. The byte is matched in `optional` alone.
fn read_minimum(presence: u8, figure: u32) -> Option<Option<u32>>
    ensures { result ≡ minimum_read presence figure }
{
    optional(presence, figure == 0, Some(figure))
}

impl Registered {
    // A method, as the library's to_le_bytes: with a From each call would name the array's length.
    pub fn bytes(self) -> [u8; 19]
        ensures { result ≡ registered_bytes self }
    {
        let mut bytes = [0; 19];
        bytes[..2].copy_from_slice(&[self.ports, self.chargers]);
        bytes[2..6].copy_from_slice(&self.threshold.bytes());
        bytes[6..10].copy_from_slice(&self.unlimited.bytes());
        bytes[10..14].copy_from_slice(&self.limited.bytes());
        bytes[14] = self.presence;
        bytes[15..].copy_from_slice(&self.figure.bytes());
        bytes
    }

    // The registration; refused for bytes that none is written as.
    pub fn read(self) -> Option<Registration>
        ensures { result ≡ registration_from self }
    {
        let config = Config {
            limited_power_threshold_mw: u32::from(self.threshold),
            provider_unlimited: PowerCapability::from(self.unlimited),
            provider_limited: PowerCapability::from(self.limited),
            min_consumer_threshold_mw: read_minimum(self.presence, u32::from(self.figure))?,
        };
        Some(Registration {
            config,
            ports: self.ports,
            chargers: self.chargers,
        })
    }
}

// Stores bytes 0 to 23.
pub fn put_head(image: &mut [u8], g: Registration, number: u32)
    ensures { image.new ≡ sets image.old 0 (head_bytes g number) }
{
    place::put(image, 0, &[1]);
    place::put(image, 1, &Registered::from(g).bytes());
    place::put(image, 20, &Quad::from(number).bytes());
}
