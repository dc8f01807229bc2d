// Event packets and full pictures written as bytes (PKT-6 to PKT-16), which `wire` reads.
#![tactic(auto)]

ghost use Rattle.std.specs.Prelude.{◌≡◌, [], ◌∷◌};
ghost use Rattle.power_policy_interface.specs.Refusal.{numbered};
ghost use Rattle.interface_display.specs.Notices.{listed};
ghost use Rattle.wire.specs.Number.{leb128};
ghost use Rattle.wire.specs.Bytes.{capability_bytes, contract_bytes, unconstrained_bytes, notice_bytes, all_bytes, consumer_bytes, ports_bytes, event_bytes, picture_bytes};
ghost use Rattle.wire_writer.specs.Stored.{stored, written_of};
ghost use Rattle.wire_writer.specs.Writing.{HasRoom, Wrote};

use interface_display::AvailableConsumer;
use interface_display::notices::Notices;
use interface_display::packet::{EventPacket, Picture};
use power_policy_interface::capability::PowerCapability;
use power_policy_interface::limits::{BUFFER, MAX_PORTS};
use power_policy_interface::refusal::Refusal;
use power_policy_interface::service::UnconstrainedState;
use power_policy_interface::service::event::Event;
use wire::number;

// A buffer, and the place in it that is written next. Each method writes from there on. `number::write` takes the two, and the place is at
// last how many bytes there are: the rest of the buffer alone would need the whole one's length beside it for that. Each method asks for
// the room of what it writes: that differs from one to the next, so no invariant says it.
#[derive(Drop)]
struct Writer<'a> {
    out: &'a mut [u8],
    at: usize,
}

impl<'a> Writer<'a> {
    // A byte.
    fn byte(&mut self, b: u8)
        requires { HasRoom 1 self.old }
        ensures { Wrote (b ∷ []) 1 self.old self.new }
    {
        self.out[self.at] = b;
        self.at += 1;
    }

    // A number.
    fn number(&mut self, n: u32)
        requires { HasRoom 5 self.old }
        ensures { Wrote (leb128 n) 5 self.old self.new }
    {
        self.at = number::write(self.out, self.at, n);
    }

    // mV and mA.
    fn capability(&mut self, c: PowerCapability)
        requires { HasRoom 8 self.old }
        ensures { Wrote (capability_bytes c) 6 self.old self.new }
    {
        self.number(u32::from(c.voltage_mv));
        self.number(u32::from(c.current_ma));
    }

    // Port, mV, mA, flags.
    fn contract(&mut self, port: u8, c: PowerCapability, flags: u8)
        requires { HasRoom 9 self.old }
        ensures { Wrote (contract_bytes port c flags) 8 self.old self.new }
    {
        self.byte(port);
        self.capability(c);
        self.byte(flags);
    }

    // Both unconstrained figures.
    fn unconstrained(&mut self, figures: UnconstrainedState)
        requires { HasRoom 2 self.old }
        ensures { Wrote (unconstrained_bytes figures) 2 self.old self.new }
    {
        self.byte(u8::from(figures.unconstrained));
        self.byte(figures.available);
    }

    // A notice.
    fn notice(&mut self, notice: Event)
        requires { HasRoom 10 self.old }
        ensures { Wrote (notice_bytes notice) 9 self.old self.new }
    {
        match notice {
            Event::ConsumerDisconnected(port, flags) => {
                self.byte(1);
                self.byte(port);
                self.byte(u8::from(flags));
            }
            Event::ConsumerConnected(port, c) => {
                self.byte(2);
                self.contract(port, c.capability, u8::from(c.flags));
            }
            Event::ProviderDisconnected(port) => {
                self.byte(3);
                self.byte(port);
            }
            Event::ProviderConnected(port, c) => {
                self.byte(4);
                self.contract(port, c.capability, u8::from(c.flags));
            }
            Event::Unconstrained(figures) => {
                self.byte(5);
                self.unconstrained(figures);
            }
        }
    }

    // The notices of an event, one after the other.
    fn notices(&mut self, l: Notices)
        requires { HasRoom 37 self.old }
        ensures { Wrote (all_bytes (listed l)) 36 self.old self.new }
    {
        let events = l.events;
        for notice in &events[..l.len() as usize] {
            self.notice(*notice);
        }
    }

    // The consumer of a picture: a presence byte, and what follows it.
    fn consumer(&mut self, c: Option<AvailableConsumer>)
        requires { HasRoom 10 self.old }
        ensures { Wrote (consumer_bytes c) 9 self.old self.new }
    {
        match c {
            None => self.byte(0),
            Some(a) => {
                self.byte(1);
                let p = a.consumer_power_capability;
                self.contract(a.psu, p.capability, u8::from(p.flags));
            }
        }
    }

    // The tracked ports, rising.
    fn ports(&mut self, mask: u16)
        requires { HasRoom 16 self.old }
        ensures { Wrote (ports_bytes mask) 16 self.old self.new }
    {
        let mut left = mask;
        // By the ports' numbers: an iterator of the set would have this loop in it, and another for desk_report's, which goes downwards.
        for port in 0..MAX_PORTS {
            if left % 2 == 1 {
                self.byte(port);
            }
            left /= 2;
        }
    }
}

// Writes the packet of an event at the front of a buffer; the bytes past it stay.
pub fn write_event(p: EventPacket, out: &mut [u8]) -> Result<usize, Refusal>
    ensures { (numbered result ≡ written_of (event_bytes p) out.old) × (out.new ≡ stored (event_bytes p) out.old) }
{
    if out.len() < BUFFER {
        return Err(Refusal::Buffer);
    }
    let mut w = Writer { out, at: 0 };
    w.byte(1);
    w.number(p.number);
    w.byte(p.answer);
    w.number(u32::from(p.orders));
    w.byte(p.notices.len());
    w.notices(p.notices);
    Ok(w.at)
}

// Writes a full picture at the front of a buffer; the bytes past it stay.
pub fn write_picture(p: Picture, out: &mut [u8]) -> Result<usize, Refusal>
    ensures { (numbered result ≡ written_of (picture_bytes p) out.old) × (out.new ≡ stored (picture_bytes p) out.old) }
{
    if out.len() < BUFFER {
        return Err(Refusal::Buffer);
    }
    let mut w = Writer { out, at: 0 };
    w.byte(2);
    w.number(p.number);
    w.consumer(p.display.consumer);
    w.unconstrained(p.display.unconstrained);
    w.byte(p.display.providers.len() as u8);
    w.ports(p.display.providers.mask);
    Ok(w.at)
}
