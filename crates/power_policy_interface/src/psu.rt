// Device struct and methods (psu/mod.rs).
pub mod event;

ghost use Rattle.std.specs.Prelude.{◌≡◌, ok_or};
ghost use Rattle.power_policy_interface.specs.Psu.{kind_number, kind_from, kind_of, with_kind, has_kind, detached_kind, idle_or_consumer, idle_or_provider, attached_kinds, expect_of, answer_byte, error_byte, error_from, mismatch_of, expected_byte, actual_byte, answer_from, attach_of, detach_of, disconnect_of, update_consumer_of, update_requested_of, can_connect_consumer_of, connect_consumer_of, can_connect_provider_of, connect_provider_of, connected_provider_of};

use crate::capability::{ConsumerPowerCapability, ProviderPowerCapability, UnknownByte};

// Most basic device states.
#[derive(Clone, Copy, PartialEq, Eq)]
pub enum StateKind {
    // No device attached.
    Detached = 0,
    // Device is attached.
    Idle = 1,
    // Device is actively providing power, USB PD source mode.
    ConnectedProvider = 2,
    // Device is actively consuming power, USB PD sink mode.
    ConnectedConsumer = 3,
}

impl From<StateKind> for u8 {
    ghost from_gives = { λ k n. n ≡ kind_number k };

    // The bit of a kind in a set of kinds, and the state byte of a record.
    fn from(k: StateKind) -> u8 {
        k as u8
    }
}

impl TryFrom<u8> for StateKind {
    type Error = UnknownByte;

    ghost try_from_gives = { λ b r. r ≡ ok_or (kind_from b) (record { 0 = b }) };

    // The kind of a state byte; refused for a byte above 3.
    fn try_from(b: u8) -> Result<Self, UnknownByte> {
        match b {
            0 => Ok(StateKind::Detached),
            1 => Ok(StateKind::Idle),
            2 => Ok(StateKind::ConnectedProvider),
            3 => Ok(StateKind::ConnectedConsumer),
            _ => Err(UnknownByte(b)),
        }
    }
}

// A set of kinds: a byte with one bit per kind.
#[derive(Clone, Copy, PartialEq, Eq)]
pub struct Kinds(pub u8);

impl Kinds {
    // The set with a kind added.
    pub fn with(self, kind: StateKind) -> Self
        ensures { result.0 ≡ with_kind self.0 kind }
    {
        Kinds(self.0 | 1 << u8::from(kind))
    }

    // Whether the set has a kind.
    pub fn has(self, kind: StateKind) -> bool
        ensures { result ≡ has_kind self.0 kind }
    {
        self.0 >> u8::from(kind) & 1 == 1
    }
}

// What an InvalidState of the transitions carries: the set of expected kinds, as the byte that the image and C have, and the actual one.
#[derive(Clone, Copy, PartialEq, Eq)]
pub struct Mismatch {
    pub expected: u8,
    pub actual: StateKind,
}

// Error type. What a variant carries in the Rust is dropped, but for InvalidState's.
#[derive(Clone, Copy, PartialEq, Eq)]
pub enum Error {
    // The requested device does not exist.
    InvalidDevice,
    // The provide request was denied.
    CannotProvide,
    // The consume request was denied.
    CannotConsume,
    // The device is not in the correct state.
    InvalidState(Option<Mismatch>),
    // Invalid response.
    InvalidResponse,
    // Busy, the device cannot respond to the request at this time.
    Busy,
    // Timeout.
    Timeout,
    // Bus error.
    Bus,
    // Charger specific error.
    Charger,
    // Generic failure.
    Failed,
}

impl From<Error> for u8 {
    ghost from_gives = { λ e b. b ≡ error_byte e };

    // The answer byte of an error, from 1 in the order as written.
    fn from(e: Error) -> u8 {
        match e {
            Error::InvalidDevice => 1,
            Error::CannotProvide => 2,
            Error::CannotConsume => 3,
            Error::InvalidState(_) => 4,
            Error::InvalidResponse => 5,
            Error::Busy => 6,
            Error::Timeout => 7,
            Error::Bus => 8,
            Error::Charger => 9,
            Error::Failed => 10,
        }
    }
}

impl TryFrom<u8> for Error {
    type Error = UnknownByte;

    ghost try_from_gives = { λ b r. r ≡ ok_or (error_from b) (record { 0 = b }) };

    // The error of an answer byte, with no states; 0 is no error's.
    fn try_from(b: u8) -> Result<Self, UnknownByte> {
        match b {
            1 => Ok(Error::InvalidDevice),
            2 => Ok(Error::CannotProvide),
            3 => Ok(Error::CannotConsume),
            4 => Ok(Error::InvalidState(None)),
            5 => Ok(Error::InvalidResponse),
            6 => Ok(Error::Busy),
            7 => Ok(Error::Timeout),
            8 => Ok(Error::Bus),
            9 => Ok(Error::Charger),
            10 => Ok(Error::Failed),
            _ => Err(UnknownByte(b)),
        }
    }
}

impl Error {
    // The states that an InvalidState of a ported transition carries.
    pub fn mismatch(self) -> Option<Mismatch>
        ensures { result ≡ mismatch_of self }
    {
        match self {
            Error::InvalidState(m) => m,
            _ => None,
        }
    }
}

// The expected states as a byte, 0 for none. A function, here and below: Option and Result are no types of this crate, so they can have no From here.
pub fn expected(m: Option<Mismatch>) -> u8
    ensures { result ≡ expected_byte m }
{
    m.map_or(0, |m| m.expected)
}

// The actual state as a byte, 0 for none.
pub fn actual(m: Option<Mismatch>) -> u8
    ensures { result ≡ actual_byte m }
{
    m.map_or(0, |m| u8::from(m.actual))
}

// The answer byte: 0 done, else the error's.
pub fn answer_byte(answer: Result<(), Error>) -> u8
    ensures { result ≡ answer_byte answer }
{
    match answer {
        Ok(()) => 0,
        Err(e) => u8::from(e),
    }
}

// The answer of a byte, none for a byte above 10. 0 is done, and the rest is the TryFrom of Error.
pub fn answer_from(b: u8) -> Option<Result<(), Error>>
    ensures { result ≡ answer_from b }
{
    match b {
        0 => Some(Ok(())),
        _ => Some(Err(Error::try_from(b).ok()?)),
    }
}

// Ok where the actual kind is one of the expected, else the error that says both.
fn expect(expected: Kinds, actual: StateKind) -> Result<(), Error>
    ensures { result ≡ expect_of expected.0 actual }
{
    if expected.has(actual) {
        Ok(())
    } else {
        let mismatch = Mismatch {
            expected: expected.0,
            actual,
        };
        Err(Error::InvalidState(Some(mismatch)))
    }
}

// The sets that the transitions expect. A function for each: which kinds are in it is all that it says.

fn detached() -> Kinds
    ensures { result.0 ≡ detached_kind }
{
    Kinds(0).with(StateKind::Detached)
}

fn idle_or_consumer() -> Kinds
    ensures { result.0 ≡ idle_or_consumer }
{
    Kinds(0)
        .with(StateKind::Idle)
        .with(StateKind::ConnectedConsumer)
}

fn idle_or_provider() -> Kinds
    ensures { result.0 ≡ idle_or_provider }
{
    Kinds(0)
        .with(StateKind::Idle)
        .with(StateKind::ConnectedProvider)
}

fn attached() -> Kinds
    ensures { result.0 ≡ attached_kinds }
{
    idle_or_consumer().with(StateKind::ConnectedProvider)
}

// Current state of the power device.
#[derive(Clone, Copy, PartialEq, Eq, Default)]
pub enum PsuState {
    // Device is attached, but is not currently providing or consuming power.
    Idle,
    // Device is attached and is currently providing power.
    ConnectedProvider(ProviderPowerCapability),
    // Device is attached and is currently consuming power.
    ConnectedConsumer(ConsumerPowerCapability),
    // No device attached.
    #[default]
    Detached,
}

impl PsuState {
    // The corresponding state kind.
    pub fn kind(self) -> StateKind
        ensures { result ≡ kind_of self }
    {
        match self {
            PsuState::Idle => StateKind::Idle,
            PsuState::ConnectedProvider(_) => StateKind::ConnectedProvider,
            PsuState::ConnectedConsumer(_) => StateKind::ConnectedConsumer,
            PsuState::Detached => StateKind::Detached,
        }
    }
}

// Per-device state for the power policy. The transitions always enter the desired state, and some still return an error: the
// device that drives them is the source of truth.
#[derive(Clone, Copy, PartialEq, Eq, Default)]
pub struct State {
    // Current state of the device.
    pub psu_state: PsuState,
    // Current consumer capability.
    pub consumer_capability: Option<ConsumerPowerCapability>,
    // Current requested provider capability.
    pub requested_provider_capability: Option<ProviderPowerCapability>,
}

// The Rust's methods, by their names.
impl State {
    // Attach the device. In a wrong state it returns the error and still enters Idle.
    pub fn attach(&mut self) -> Result<(), Error>
        ensures result { result ≡ (attach_of self.old).result }
        ensures state { self.new ≡ (attach_of self.old).state }
    {
        let result = expect(detached(), self.psu_state.kind());
        self.psu_state = PsuState::Idle;
        result
    }

    // Detach the device, from any state.
    pub fn detach(&mut self)
        ensures { self.new ≡ detach_of self.old }
    {
        *self = State::default();
    }

    // Disconnect the device. In a wrong state it returns the error and still enters Idle.
    pub fn disconnect(&mut self, clear_caps: bool) -> Result<(), Error>
        ensures result { result ≡ (disconnect_of self.old clear_caps).result }
        ensures state { self.new ≡ (disconnect_of self.old clear_caps).state }
    {
        let result = expect(attached(), self.psu_state.kind());
        self.psu_state = PsuState::Idle;
        if clear_caps {
            self.consumer_capability = None;
            self.requested_provider_capability = None;
        }
        result
    }

    // Update the available consumer capability. In a wrong state it returns the error and still stores it.
    pub fn update_consumer_power_capability(
        &mut self,
        capability: Option<ConsumerPowerCapability>,
    ) -> Result<(), Error>
        ensures result { result ≡ (update_consumer_of self.old capability).result }
        ensures state { self.new ≡ (update_consumer_of self.old capability).state }
    {
        self.consumer_capability = capability;
        expect(attached(), self.psu_state.kind())
    }

    // Update the requested provider capability. An equal request is no error in any state.
    pub fn update_requested_provider_power_capability(
        &mut self,
        capability: Option<ProviderPowerCapability>,
    ) -> Result<(), Error>
        ensures result { result ≡ (update_requested_of self.old capability).result }
        ensures state { self.new ≡ (update_requested_of self.old capability).state }
    {
        if self.requested_provider_capability == capability {
            return Ok(());
        }
        self.requested_provider_capability = capability;
        expect(attached(), self.psu_state.kind())
    }

    // Whether a request to connect as a consumer is valid in the current state.
    pub fn can_connect_consumer(&self) -> Result<(), Error>
        ensures { result ≡ can_connect_consumer_of self.now }
    {
        expect(idle_or_consumer(), self.psu_state.kind())
    }

    // Handle a request to connect as a consumer. In a wrong state nothing changes.
    pub fn connect_consumer(&mut self, capability: ConsumerPowerCapability) -> Result<(), Error>
        ensures result { result ≡ (connect_consumer_of self.old capability).result }
        ensures state { self.new ≡ (connect_consumer_of self.old capability).state }
    {
        self.can_connect_consumer()?;
        self.psu_state = PsuState::ConnectedConsumer(capability);
        Ok(())
    }

    // Whether a request to connect as a provider is valid in the current state.
    pub fn can_connect_provider(&self) -> Result<(), Error>
        ensures { result ≡ can_connect_provider_of self.now }
    {
        expect(idle_or_provider(), self.psu_state.kind())
    }

    // Handle a request to connect as a provider. In a wrong state nothing changes.
    pub fn connect_provider(&mut self, capability: ProviderPowerCapability) -> Result<(), Error>
        ensures result { result ≡ (connect_provider_of self.old capability).result }
        ensures state { self.new ≡ (connect_provider_of self.old capability).state }
    {
        self.can_connect_provider()?;
        self.psu_state = PsuState::ConnectedProvider(capability);
        Ok(())
    }

    // The provider contract, if the PSU is connected as a provider.
    pub fn connected_provider_capability(&self) -> Option<ProviderPowerCapability>
        ensures { result ≡ connected_provider_of self.now }
    {
        match self.psu_state {
            PsuState::ConnectedProvider(capability) => Some(capability),
            _ => None,
        }
    }
}
