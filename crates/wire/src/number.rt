// Unsigned LEB128 in its shortest form: groups of seven bits, lowest first, the top bit set on all but the last byte.
ghost use Rattle.std.specs.Prelude.{◌≡◌, ◌≤◌, length, IfOk};
ghost use Rattle.power_policy_interface.specs.Refusal.{numbered};
ghost use Rattle.wire.specs.Number.{leb128, read_number, written, next};

use power_policy_interface::refusal::Refusal;

// How many bytes a number takes, 1 to 5.
#[tactic(auto, unfolding(crate::specs::Number::leb128))]
pub fn length(n: u32) -> usize
    ensures { result ≡ length (leb128 n) }
{
    if n < 128 {
        return 1;
    }
    if n < 16384 {
        return 2;
    }
    if n < 2097152 {
        return 3;
    }
    if n < 268435456 {
        return 4;
    }
    5
}

// The number at the front of the bytes and how many bytes it takes; or 30 cut short, 31 not shortest, over its limit or five bytes
// with no end.
pub fn read(s: &[u8], limit: u32) -> Result<(u32, usize), Refusal>
    ensures read { numbered result ≡ read_number limit s.now }
    ensures within { IfOk result (λ r. (r.0 ≤ limit) × (r.1 ≤ length s.now)) }
{
    let mut value: u64 = 0;
    let mut scale: u64 = 1;
    // By an index: over the bytes the loop would end alike after five of them and after the last, which are two refusals.
    for i in 0..5 {
        let Some(b) = s.get(i) else {
            return Err(Refusal::CutShort);
        };
        value += u64::from(*b % 128) * scale;
        if *b < 128 {
            if *b == 0 && 0 < i {
                return Err(Refusal::Number);
            }
            if u64::from(limit) < value {
                return Err(Refusal::Number);
            }
            return Ok((value as u32, i + 1));
        }
        scale *= 128;
    }
    Err(Refusal::Number)
}

// Writes a number from a place on and returns the place after it; where fewer than five places are left, writes nothing and
// returns the same place. A place and no part of the buffer: it is public, and with a part each caller would cut it. Each length has a branch
// that stores the whole of its bytes, as the contract says them.
#[tactic(auto, unfolding(crate::specs::Number::leb128))]
pub fn write(out: &mut [u8], at: usize, n: u32) -> usize
    ensures { (result ≡ next out.old at n) × (out.new ≡ written out.old at n) }
{
    if out.len() < 5 {
        return at;
    }
    if out.len() - 5 < at {
        return at;
    }
    if n < 128 {
        out[at] = n as u8;
        return at + 1;
    }
    out[at] = (128 + n % 128) as u8;
    let n1 = n / 128;
    if n1 < 128 {
        out[at + 1] = n1 as u8;
        return at + 2;
    }
    out[at + 1] = (128 + n1 % 128) as u8;
    let n2 = n1 / 128;
    if n2 < 128 {
        out[at + 2] = n2 as u8;
        return at + 3;
    }
    out[at + 2] = (128 + n2 % 128) as u8;
    let n3 = n2 / 128;
    if n3 < 128 {
        out[at + 3] = n3 as u8;
        return at + 4;
    }
    out[at + 3] = (128 + n3 % 128) as u8;
    out[at + 4] = (n3 / 128) as u8;
    at + 5
}
