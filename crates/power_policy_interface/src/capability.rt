// Power capability definitions and related flags (capability.rs).
ghost use Rattle.std.specs.Prelude.{◌≡◌, ◌/◌, cond, false, nat_le, None, Some, ok_or};
ghost use Rattle.power_policy_interface.specs.Capability.{max_power_mw, cmp_capability, psu_type_number, psu_type_from, consumer_flags_byte, provider_flags_byte, consumer_flags_from, provider_flags_from, same_capability, same_consumer, same_provider, same_option_provider, is_renegotiation, disconnect_byte, disconnect_from, reason_byte, reason_from};

use std::cmp::Ordering;

// Amount of power that a device can provide or consume.
#[derive(Clone, Copy, PartialEq, Eq)]
pub struct PowerCapability {
    // Available voltage in mV.
    pub voltage_mv: u16,
    // Max available current in mA.
    pub current_ma: u16,
}

impl PowerCapability {
    // Maximum power: mV × mA / 1000, rounded down.
    pub fn max_power_mw(self) -> u32
        ensures { result ≡ max_power_mw self }
    {
        self.voltage_mv as u32 * self.current_ma as u32 / 1000
    }

    // Capabilities are ordered by maximum power alone. Ord, whose law is that only equal values are of equal order, has no
    // such order.
    pub fn cmp(self, other: PowerCapability) -> Ordering
        ensures { result ≡ cmp_capability self other }
    {
        self.max_power_mw().cmp(&other.max_power_mw())
    }
}

// Power capability with consumer flags. Two structs, here and below, as the Rust has them.
#[derive(Clone, Copy, PartialEq, Eq)]
pub struct ConsumerPowerCapability {
    pub capability: PowerCapability,
    pub flags: ConsumerFlags,
}

// This impl and that of ProviderPowerCapability: `From` is implemented once for each type.
impl From<PowerCapability> for ConsumerPowerCapability {
    ghost from_gives = { λ capability c. c ≡ record { capability = capability; flags = record { unconstrained_power = false; psu_type = None } } };

    // A capability with default flags.
    fn from(capability: PowerCapability) -> Self {
        ConsumerPowerCapability {
            capability,
            flags: ConsumerFlags::default(),
        }
    }
}

// Power capability with provider flags.
#[derive(Clone, Copy, PartialEq, Eq)]
pub struct ProviderPowerCapability {
    pub capability: PowerCapability,
    pub flags: ProviderFlags,
}

impl From<PowerCapability> for ProviderPowerCapability {
    ghost from_gives = { λ capability c. c ≡ record { capability = capability; flags = record { psu_type = None } } };

    // A capability with default flags.
    fn from(capability: PowerCapability) -> Self {
        ProviderPowerCapability {
            capability,
            flags: ProviderFlags::default(),
        }
    }
}

// Combined power capability with flags.
#[derive(Clone, Copy, PartialEq, Eq)]
pub enum PowerCapabilityFlags {
    Consumer(ConsumerPowerCapability),
    Provider(ProviderPowerCapability),
}

// PSU type.
#[derive(Clone, Copy, PartialEq, Eq)]
pub enum PsuType {
    // Type-C port.
    TypeC = 1,
    // DC barrel jack.
    DcJack = 2,
    // Application defined types.
    Custom0 = 3,
    Custom1 = 4,
    Custom2 = 5,
    Custom3 = 6,
}

impl From<PsuType> for u8 {
    ghost from_gives = { λ t n. n ≡ psu_type_number (Some t) };

    // The number in a flag byte, from 1.
    fn from(t: PsuType) -> u8 {
        t as u8
    }
}

// A byte that no value is written as.
#[derive(Clone, Copy, PartialEq, Eq)]
pub struct UnknownByte(pub u8);

// `TryFrom` is implemented once for each type, here and in the other files.
impl TryFrom<u8> for PsuType {
    type Error = UnknownByte;

    ghost try_from_gives = { λ n r. r ≡ ok_or (psu_type_from n) (record { 0 = n }) };

    // The type of a number; 0 is no type's.
    fn try_from(n: u8) -> Result<Self, UnknownByte> {
        match n {
            1 => Ok(PsuType::TypeC),
            2 => Ok(PsuType::DcJack),
            3 => Ok(PsuType::Custom0),
            4 => Ok(PsuType::Custom1),
            5 => Ok(PsuType::Custom2),
            6 => Ok(PsuType::Custom3),
            _ => Err(UnknownByte(n)),
        }
    }
}

// The number in a flag byte, 0 for none. A function: neither Option nor u8 is this crate's, so it can have no From here.
pub fn number_of(t: Option<PsuType>) -> u8
    ensures { result ≡ psu_type_number t }
{
    t.map_or(0, |t| u8::from(t))
}

// The type in a flag byte, bit 0 aside; refused for a number of no type. 0 is none, and the rest is the TryFrom of PsuType.
fn type_in(b: u8) -> Result<Option<PsuType>, UnknownByte>
    ensures { result ≡ cond (nat_le (b / 2) 6) (Ok (psu_type_from (b / 2))) (Err (record { 0 = b })) }
{
    match b >> 1 {
        0 => Ok(None),
        n => PsuType::try_from(n).map(Some).map_err(|_| UnknownByte(b)),
    }
}

// Consumer flags.
#[derive(Clone, Copy, PartialEq, Eq, Default)]
pub struct ConsumerFlags {
    // The supply is something like an outlet and not a limited source like a battery.
    pub unconstrained_power: bool,
    pub psu_type: Option<PsuType>,
}

impl From<ConsumerFlags> for u8 {
    ghost from_gives = { λ f b. b ≡ consumer_flags_byte f };

    // The flag byte: bit 0 unconstrained_power, bits 1 to 3 the PSU type.
    fn from(f: ConsumerFlags) -> u8 {
        u8::from(f.unconstrained_power) | number_of(f.psu_type) << 1
    }
}

impl TryFrom<u8> for ConsumerFlags {
    type Error = UnknownByte;

    ghost try_from_gives = { λ b r. r ≡ ok_or (consumer_flags_from b) (record { 0 = b }) };

    // The flags of a byte; refused for a byte of no flags.
    fn try_from(b: u8) -> Result<Self, UnknownByte> {
        Ok(ConsumerFlags {
            unconstrained_power: b & 1 == 1,
            psu_type: type_in(b)?,
        })
    }
}

// Provider flags.
#[derive(Clone, Copy, PartialEq, Eq, Default)]
pub struct ProviderFlags {
    pub psu_type: Option<PsuType>,
}

impl From<ProviderFlags> for u8 {
    ghost from_gives = { λ f b. b ≡ provider_flags_byte f };

    // The flag byte: bits 1 to 3 the PSU type.
    fn from(f: ProviderFlags) -> u8 {
        number_of(f.psu_type) << 1
    }
}

impl TryFrom<u8> for ProviderFlags {
    type Error = UnknownByte;

    ghost try_from_gives = { λ b r. r ≡ ok_or (provider_flags_from b) (record { 0 = b }) };

    // The flags of a byte; refused for a byte of no flags: bit 0 is clear.
    fn try_from(b: u8) -> Result<Self, UnknownByte> {
        if b & 1 == 1 {
            return Err(UnknownByte(b));
        }
        let psu_type = type_in(b)?;
        Ok(ProviderFlags { psu_type })
    }
}

// Why a consumer is disconnected.
#[derive(Clone, Copy, PartialEq, Eq)]
pub enum DisconnectReason {
    // The device has been physically detached.
    Detached = 1,
    // Switching to a different PSU.
    Switching = 2,
    // Renegotiation triggered by the device.
    AutoRenegotiation = 3,
    // Renegotiation triggered by code.
    ManualRenegotiation = 4,
    // The device has changed its role.
    RoleSwap = 5,
    // The device experienced a reset.
    Reset = 6,
}

impl DisconnectReason {
    // Whether the reason is a renegotiation.
    pub fn is_renegotiation(self) -> bool
        ensures { result ≡ is_renegotiation self }
    {
        matches!(
            self,
            DisconnectReason::AutoRenegotiation | DisconnectReason::ManualRenegotiation
        )
    }
}

impl From<DisconnectReason> for u8 {
    ghost from_gives = { λ r b. b ≡ reason_byte (Some r) };

    // The byte of a reason, from 1 in the order as written.
    fn from(r: DisconnectReason) -> u8 {
        r as u8
    }
}

impl TryFrom<u8> for DisconnectReason {
    type Error = UnknownByte;

    ghost try_from_gives = { λ b r. r ≡ ok_or (reason_from b) (record { 0 = b }) };

    // The reason of a byte; 0 is no reason's.
    fn try_from(b: u8) -> Result<Self, UnknownByte> {
        match b {
            1 => Ok(DisconnectReason::Detached),
            2 => Ok(DisconnectReason::Switching),
            3 => Ok(DisconnectReason::AutoRenegotiation),
            4 => Ok(DisconnectReason::ManualRenegotiation),
            5 => Ok(DisconnectReason::RoleSwap),
            6 => Ok(DisconnectReason::Reset),
            _ => Err(UnknownByte(b)),
        }
    }
}

// Disconnection flags.
#[derive(Clone, Copy, PartialEq, Eq, Default)]
pub struct DisconnectFlags {
    // Reason for the disconnect, if given.
    pub reason: Option<DisconnectReason>,
}

impl From<DisconnectFlags> for u8 {
    ghost from_gives = { λ f b. b ≡ disconnect_byte f };

    // The reason byte: 0 for no reason.
    fn from(f: DisconnectFlags) -> u8 {
        f.reason.map_or(0, |r| u8::from(r))
    }
}

impl TryFrom<u8> for DisconnectFlags {
    type Error = UnknownByte;

    ghost try_from_gives = { λ b r. r ≡ ok_or (disconnect_from b) (record { 0 = b }) };

    // The reason of a byte; refused for a byte above 6.
    fn try_from(b: u8) -> Result<Self, UnknownByte> {
        let reason = match b {
            0 => None,
            _ => Some(DisconnectReason::try_from(b)?),
        };
        Ok(DisconnectFlags { reason })
    }
}
