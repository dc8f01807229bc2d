// What the service tells its listeners (service/mod.rs of the interface).
pub mod event;

ghost use Rattle.std.specs.Prelude.{◌≡◌};
ghost use Rattle.power_policy_interface.specs.Service.{same_unconstrained};

// Unconstrained state information.
#[derive(Clone, Copy, PartialEq, Eq, Default)]
pub struct UnconstrainedState {
    // An unconstrained consumer is connected.
    pub unconstrained: bool,
    // Number of available unconstrained devices.
    pub available: u8,
}

impl UnconstrainedState {
    pub fn new(unconstrained: bool, available: u8) -> Self
        ensures { (result.unconstrained ≡ unconstrained) × (result.available ≡ available) }
    {
        UnconstrainedState {
            unconstrained,
            available,
        }
    }
}
