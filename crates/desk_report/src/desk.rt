// The follower with the number of packets that it was given, and a packet from the stream.
ghost use Rattle.std.specs.Prelude.{◌≡◌};
ghost use Rattle.desk_report.specs.Desk.{fresh, counted, line_taken, taken_by, line_for, stepped_desk, stepped_bytes, stepped_next, end_bytes};

use crate::buffer::Bytes;
use crate::line::{Line, write_refused};
use desk_follower::Follower;
use power_policy_interface::refusal::Refusal;
use wire::packet;
use wire_framing::Framed;

#[derive(Clone, Copy)]
pub struct Desk {
    // How many packets there were, refused ones too.
    pub packets: u64,
    pub follower: Follower,
    // Whether a packet that is taken has a line; one that is refused always has. Asked in `write_taken` alone.
    pub lines: bool,
}

// What to do after a step; no closure, since each case ends the caller's loop or goes on with it.
#[derive(Clone, Copy)]
pub enum Next {
    // Go on after so many bytes.
    Used(usize),
    // There is no whole packet: read more, or end.
    More,
    // The length was refused: stop.
    Stop,
}

// One more; the greatest stays, which no stream reaches.
fn count(k: u64) -> u64
    ensures { result ≡ counted k }
{
    k.saturating_add(1)
}

// The line of a packet that was taken, if it has one.
fn write_taken(lines: bool, k: u64, line: Line) -> Bytes<128>
    ensures { result ≡ line_taken lines k line }
{
    if lines { line.write(k) } else { Bytes::new() }
}

impl Desk {
    // A follower that starts lost with floor 0, before any packet.
    pub fn new(lines: bool) -> Desk
        ensures { result ≡ fresh lines }
    {
        Desk {
            packets: 0,
            follower: Follower::new(),
            lines,
        }
    }

    // One packet; its line, if it has one.
    #[tactic(auto, unfolding(crate::specs::Desk::taken_by, crate::specs::Desk::line_for))]
    pub fn take(&mut self, bytes: &[u8]) -> Bytes<128>
        ensures desk { self.new ≡ taken_by self.old bytes.now }
        ensures line { result ≡ line_for self.old bytes.now }
    {
        self.packets = count(self.packets);
        match packet::read(bytes) {
            Err(refusal) => write_refused(self.packets, u8::from(refusal)),
            Ok(p) => {
                self.follower.take(p);
                write_taken(self.lines, self.packets, Line::of(self.follower))
            }
        }
    }

    // The packet at the front of the input: its line, if it has one, or the line of a length that is refused.
    pub fn step(&mut self, input: &[u8]) -> (Next, Bytes<128>)
        ensures desk { self.new ≡ stepped_desk self.old input.now }
        ensures next { result.0 ≡ stepped_next input.now }
        ensures line { result.1 ≡ stepped_bytes self.old input.now }
    {
        match wire_framing::frame(input) {
            Ok(Framed::Empty | Framed::Cut) => (Next::More, Bytes::new()),
            Ok(Framed::Frame { used, length }) => {
                let end = used + length;
                let line = self.take(&input[used..end]);
                (Next::Used(end), line)
            }
            Err(refusal) => {
                self.packets = count(self.packets);
                (Next::Stop, write_refused(self.packets, u8::from(refusal)))
            }
        }
    }

    // The input has ended with these bytes left: none, or a packet cut short.
    pub fn end(&self, rest: &[u8]) -> Bytes<128>
        ensures { result ≡ end_bytes self.now rest.now }
    {
        if rest.is_empty() {
            return Bytes::new();
        }
        write_refused(count(self.packets), u8::from(Refusal::CutShort))
    }
}
