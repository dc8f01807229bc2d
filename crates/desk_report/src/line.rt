// The lines of `follow`, written by bytes as text.rt says. A line takes at most 92 bytes: each part asks for its own room and says how much
// it may have taken, so that the next one has its room; no invariant of the line says both, since the room differs from part to part.
ghost use Rattle.std.specs.Prelude.{◌≡◌, ◌++◌, ◌+◌, ◌≤◌, ◌∷◌, length};
ghost use Rattle.abstract_page.specs.Text.{decimal, word};
ghost use Rattle.desk_report.specs.Text.{header, number};
ghost use Rattle.desk_report.specs.Line.{line_of, line_bytes, refused_bytes, spaced};

use crate::buffer::Bytes;
use crate::text::{decimal, word};
use desk_follower::Follower;
use interface_display::State;

// What a line says of a follower.
#[derive(Clone, Copy)]
pub struct Line {
    // The number of the event shown.
    pub shown: Option<u32>,
    pub state: State,
    // The consumer's port and its mW.
    pub port: Option<u32>,
    pub mw: Option<u32>,
}

// The decimal digits of a number.
fn push_decimal(out: &mut Bytes<128>, n: u64)
    requires { length out.old + 20 ≤ 128 }
    ensures { (out.new ≡ out.old ++ decimal n) × (length out.new ≤ length out.old + 20) }
{
    out.push(decimal(n).as_slice());
}

// A number, or a hyphen for none, after a space.
fn push_number(out: &mut Bytes<128>, n: Option<u32>)
    requires { length out.old + 21 ≤ 128 }
    ensures { (out.new ≡ out.old ++ spaced (number n)) × (length out.new ≤ length out.old + 21) }
{
    match n {
        None => out.push(b" -"),
        Some(v) => {
            out.push(b" ");
            push_decimal(out, v as u64);
        }
    }
}

// The word of a state, after a space.
fn push_word(out: &mut Bytes<128>, state: State)
    requires { length out.old + 8 ≤ 128 }
    ensures { (out.new ≡ out.old ++ spaced (word state)) × (length out.new ≤ length out.old + 8) }
{
    out.push(b" ");
    out.push(word(state));
}

impl Line {
    #[tactic(auto, unfolding(crate::specs::Line::line_of))]
    pub fn of(f: Follower) -> Line
        ensures { result ≡ line_of f }
    {
        Line {
            shown: f.shown.number(),
            state: f.state(),
            port: f.shown.port(),
            mw: f.shown.mw(),
        }
    }

    // Ordinal, n, state, port, mW.
    #[tactic(auto, unfolding(crate::specs::Line::line_bytes))]
    pub fn write(self, k: u64) -> Bytes<128>
        ensures { result ≡ line_bytes k self }
    {
        let mut out = Bytes::new();
        push_decimal(&mut out, k);
        push_number(&mut out, self.shown);
        push_word(&mut out, self.state);
        push_number(&mut out, self.port);
        push_number(&mut out, self.mw);
        out.push(b"\n");
        out
    }
}

// `K refused N`.
#[tactic(auto, unfolding(crate::specs::Line::refused_bytes))]
pub fn write_refused(k: u64, n: u8) -> Bytes<128>
    ensures { result ≡ refused_bytes k n }
{
    let mut out = Bytes::new();
    push_decimal(&mut out, k);
    out.push(b" refused ");
    push_decimal(&mut out, n as u64);
    out.push(b"\n");
    out
}

// The header line, a fixed byte string.
pub fn header() -> &'static [u8]
    ensures { result.now ≡ header }
{
    b"take shown state port mw\n"
}
