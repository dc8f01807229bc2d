// Limits and lengths that docs/REQUIREMENTS.md names, each once; the definitions' are in specs/Limits.antt.

// The greatest number of 32 bits: of milliwatts, and of an event.
pub const LARGEST: u32 = 4294967295;

// Ports that can be registered.
pub const MAX_PORTS: u8 = 16;

// Chargers that can be registered.
pub const MAX_CHARGERS: u8 = 8;

// Device orders of an event: 3 + 4 × chargers.
pub const MAX_ORDERS: u8 = 35;

// Notices of an event.
pub const MAX_NOTICES: u8 = 4;

// A follower that shows n takes packets of the events up to n + WINDOW; beyond, it is lost.
pub const WINDOW: u32 = 8;

// The bytes of a port's record.
pub const PSU_RECORD: usize = 18;

// The bytes of a charger's record.
pub const CHARGER_RECORD: usize = 7;

// The bytes of a service's image.
pub const SERVICE_IMAGE: usize = 67;

// The bytes of a follower's image.
pub const FOLLOWER_IMAGE: usize = 241;

// The bytes of a buffer that every packet and picture fits in, and of the longest packet of a stream.
pub const BUFFER: usize = 64;

// The bytes of a page: six lines of 40 columns and a newline.
pub const PAGE: usize = 246;
