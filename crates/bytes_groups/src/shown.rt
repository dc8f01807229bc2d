// The display as eleven bytes.
ghost use Rattle.std.specs.Prelude.{◌≡◌};
ghost use Rattle.bytes_groups.specs.Shown.{shown_at, shown_bytes, display_shown, display_from, providers_fit, display_fits};

use crate::place::byte;
use crate::tagged::Tagged;
use interface_display::Display;
use interface_display::providers::{MAX_CONNECTED_PROVIDERS, Providers};
use power_policy_interface::limits::MAX_PORTS;
use power_policy_interface::service::UnconstrainedState;

// Eleven bytes by value.
#[derive(Clone, Copy)]
pub struct Shown {
    pub consumer: Tagged,
    pub unconstrained: u8,
    pub available: u8,
    pub low: u8,
    pub high: u8,
}

// No port is tracked past so many, and at most four are.
fn providers_fit(ports: u8, t: Providers) -> bool
    ensures { result ≡ providers_fit ports t }
{
    (MAX_PORTS <= ports || t.mask >> ports == 0) && t.len() <= MAX_CONNECTED_PROVIDERS
}

// Whether a display is one of so many ports: that of the consumer, how many are available, and those tracked.
pub fn fits(ports: u8, d: Display) -> bool
    ensures { result ≡ display_fits ports d }
{
    d.consumer.is_none_or(|a| a.psu < ports)
        && d.unconstrained.available <= ports
        && providers_fit(ports, d.providers)
}

impl Shown {
    // The eleven bytes from a place on, zeros past the end. A place and no array: it cannot fail (`place::byte`).
    pub fn at(s: &[u8], at: usize) -> Shown
        ensures { result ≡ shown_at s.now at }
    {
        Shown {
            consumer: Tagged::at(s, at),
            unconstrained: byte(s, at, 7),
            available: byte(s, at, 8),
            low: byte(s, at, 9),
            high: byte(s, at, 10),
        }
    }

    // A method, as the library's to_le_bytes: with a From each call would name the array's length.
    pub fn bytes(self) -> [u8; 11]
        ensures { result ≡ shown_bytes self }
    {
        let mut bytes = [0; 11];
        bytes[..7].copy_from_slice(&self.consumer.bytes());
        bytes[7..].copy_from_slice(&[self.unconstrained, self.available, self.low, self.high]);
        bytes
    }

    // The display; refused for bytes that none is written as.
    pub fn display(self) -> Option<Display>
        ensures { result ≡ display_from self }
    {
        let consumer = self.consumer.consumer()?;
        if 1 < self.unconstrained {
            return None;
        }
        let unconstrained = UnconstrainedState {
            unconstrained: self.unconstrained == 1,
            available: self.available,
        };
        let providers = Providers {
            mask: u16::from_le_bytes([self.low, self.high]),
        };
        Some(Display {
            consumer,
            unconstrained,
            providers,
        })
    }
}

impl From<Display> for Shown {
    ghost from_gives = { λ d g. g ≡ display_shown d };

    fn from(d: Display) -> Shown {
        let [low, high] = d.providers.mask.to_le_bytes();
        Shown {
            consumer: Tagged::from(d.consumer),
            unconstrained: u8::from(d.unconstrained.unconstrained),
            available: d.unconstrained.available,
            low,
            high,
        }
    }
}
