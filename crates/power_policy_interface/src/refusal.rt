// What turns a call, a start or a packet back: the conditions REF-20 to REF-34 of docs/REQUIREMENTS.md, each with its number.
ghost use Rattle.std.specs.Prelude.{◌≡◌};
ghost use Rattle.power_policy_interface.specs.Refusal.{refusal_number};

#[derive(Clone, Copy, PartialEq, Eq)]
pub enum Refusal {
    // More ports or chargers than can be registered, or a figure over its type.
    Registration = 20,
    // Bytes that are no image.
    Image = 21,
    // Bytes that are no records.
    Records = 22,
    // A port or charger that is not registered.
    NotRegistered = 23,
    // An event or an answer that is not known.
    Unknown = 24,
    // An event is open.
    EventOpen = 25,
    // No order waits for an answer.
    NoOrder = 26,
    // No event has closed yet.
    NoEvent = 27,
    // The last number is given.
    NumbersUsed = 28,
    // A buffer too short for a packet or a picture.
    Buffer = 29,
    // Bytes end too early.
    CutShort = 30,
    // A number not in its shortest form, or over its limit.
    Number = 31,
    // A kind or a field not as laid out.
    Layout = 32,
    // Bytes are left over.
    LeftOver = 33,
    // A buffer too short for a page.
    Page = 34,
}

impl From<Refusal> for u8 {
    ghost from_gives = { λ r n. n ≡ refusal_number r };

    // The number of the condition.
    fn from(r: Refusal) -> u8 {
        r as u8
    }
}
