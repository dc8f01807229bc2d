// Device orders (EVT-6).
use power_policy_interface::capability::{ConsumerPowerCapability, ProviderPowerCapability};

// A device order. The number is the port's or the charger's.
#[derive(Clone, Copy, PartialEq, Eq)]
pub enum Order {
    // Disconnect a PSU.
    Disconnect(u8),
    // Connect a PSU as consumer.
    ConnectConsumer(u8, ConsumerPowerCapability),
    // Connect a PSU as provider.
    ConnectProvider(u8, ProviderPowerCapability),
    // Is the charger ready?
    IsReady(u8),
    // Initialize the charger.
    InitCharger(u8),
    // The charger's attach handler.
    Attach(u8, ConsumerPowerCapability),
    // The charger's detach handler.
    Detach(u8),
    // Wait 800 ms.
    Wait,
}
