// Configuration types for the power policy service (config.rs).
ghost use Rattle.std.specs.Prelude.{◌≡◌};
ghost use Rattle.power_policy_service.specs.Config.{rust_default, default_config, config_from, minimum_from};

use power_policy_interface::capability::PowerCapability;

#[derive(Clone, Copy)]
pub struct Config {
    // Above this threshold, the system is in limited power mode.
    pub limited_power_threshold_mw: u32,
    // Power capability of every provider in normal power mode.
    pub provider_unlimited: PowerCapability,
    // Power capability of every provider in limited power mode.
    pub provider_limited: PowerCapability,
    // Minimum power to consume from; with none, any power is consumed.
    pub min_consumer_threshold_mw: Option<u32>,
}

impl Default for Config {
    ghost is_default = { λ c. c ≡ default_config };

    // The configuration out of the box. No derive: it has figures where a derive has zeros.
    fn default() -> Self {
        Config::rust_default()
    }
}

impl Config {
    // The configuration that equals the Rust's `Default`: Type-C 5 V at 3 A and at 1.5 A, no minimum.
    pub fn rust_default() -> Self
        ensures { result ≡ rust_default }
    {
        Config {
            limited_power_threshold_mw: 15000,
            provider_unlimited: PowerCapability {
                voltage_mv: 5000,
                current_ma: 3000,
            },
            provider_limited: PowerCapability {
                voltage_mv: 5000,
                current_ma: 1500,
            },
            min_consumer_threshold_mw: None,
        }
    }

    // A configuration from numbers; none where a figure is over its Rust type. The minimum is a presence, 0 or 1, and a figure
    // that is looked at only if present. By names, which a TryFrom of seven numbers would not have.
    pub fn from_numbers(
        threshold: u64,
        unlimited_mv: u64,
        unlimited_ma: u64,
        limited_mv: u64,
        limited_ma: u64,
        presence: u64,
        minimum: u64,
    ) -> Option<Config>
        ensures { result ≡ config_from threshold unlimited_mv unlimited_ma limited_mv limited_ma presence minimum }
    {
        Some(Config {
            limited_power_threshold_mw: u32::try_from(threshold).ok()?,
            provider_unlimited: PowerCapability {
                voltage_mv: u16::try_from(unlimited_mv).ok()?,
                current_ma: u16::try_from(unlimited_ma).ok()?,
            },
            provider_limited: PowerCapability {
                voltage_mv: u16::try_from(limited_mv).ok()?,
                current_ma: u16::try_from(limited_ma).ok()?,
            },
            min_consumer_threshold_mw: minimum_from(presence, minimum)?,
        })
    }
}

// A minimum of a presence and a figure, which are numbers of the C interface.
fn minimum_from(presence: u64, minimum: u64) -> Option<Option<u32>>
    ensures { result ≡ minimum_from presence minimum }
{
    match presence {
        0 => Some(None),
        1 => Some(Some(u32::try_from(minimum).ok()?)),
        _ => None,
    }
}
