// The packet of an event and the full picture, read from bytes. A reading goes from the left: what is met first is what is given, 30 cut
// short, 31 a number not shortest or over its limit, 32 a field not as laid out, 33 bytes left over.
ghost use Rattle.std.specs.Prelude.{◌≡◌, ◌≤◌, IfOk};
ghost use Rattle.power_policy_interface.specs.Refusal.{numbered};
ghost use Rattle.interface_display.specs.Notices.{empty};
ghost use Rattle.wire.specs.Parser.{byte, end, field, number};
ghost use Rattle.wire.specs.Packet.{capability, contract, consumer, consumer_given, unconstrained, notice_of, notice, notices, ports, event, picture, packet, consumer_disconnected, consumer_connected, provider_disconnected, provider_connected, unconstrained_changed};
ghost use Rattle.wire.specs.Read.{went, read_packet};

use crate::number;
use interface_display::notices::Notices;
use interface_display::packet::{EventPacket, Packet, Picture};
use interface_display::providers::{MAX_CONNECTED_PROVIDERS, Providers};
use interface_display::{AvailableConsumer, Display};
use power_policy_interface::capability::{
    ConsumerFlags, ConsumerPowerCapability, DisconnectFlags, PowerCapability, ProviderFlags,
    ProviderPowerCapability,
};
use power_policy_interface::limits::{LARGEST, MAX_NOTICES, MAX_ORDERS, MAX_PORTS};
use power_policy_interface::refusal::Refusal;
use power_policy_interface::service::UnconstrainedState;
use power_policy_interface::service::event::Event;

// Port, mV, mA, and the byte of the flags.
#[derive(Clone, Copy)]
struct Contract {
    port: u8,
    power: PowerCapability,
    flags: u8,
}

// The bytes that are not read yet. Each method reads from their front and leaves what comes after.
#[derive(Drop)]
struct Reader<'a> {
    rest: &'a [u8],
}

impl<'a> Reader<'a> {
    // A byte.
    fn byte(&mut self) -> Result<u8, Refusal>
        ensures { went result self.new.rest.now ≡ byte self.old.rest.now }
    {
        let Some((b, rest)) = self.rest.split_first() else {
            return Err(Refusal::CutShort);
        };
        self.rest = rest;
        Ok(*b)
    }

    // A byte of at most so much.
    #[tactic(auto, unfolding(crate::specs::Parser::field))]
    fn field(&mut self, most: u8) -> Result<u8, Refusal>
        ensures { went result self.new.rest.now ≡ field most self.old.rest.now }
    {
        let b = self.byte()?;
        if most < b {
            return Err(Refusal::Layout);
        }
        Ok(b)
    }

    // A number of at most so much.
    #[tactic(auto, unfolding(crate::specs::Parser::number))]
    fn number(&mut self, limit: u32) -> Result<u32, Refusal>
        ensures read { went result self.new.rest.now ≡ number limit self.old.rest.now }
        ensures within { IfOk result (λ n. n ≤ limit) }
    {
        let (value, used) = number::read(self.rest, limit)?;
        self.rest = &self.rest[used..];
        Ok(value)
    }

    // Nothing is left over.
    fn end(&mut self, packet: Packet) -> Result<Packet, Refusal>
        ensures { went result self.new.rest.now ≡ end packet self.old.rest.now }
    {
        if self.rest.is_empty() {
            return Ok(packet);
        }
        Err(Refusal::LeftOver)
    }

    // mV and mA.
    #[tactic(auto, unfolding(crate::specs::Packet::capability))]
    fn capability(&mut self) -> Result<PowerCapability, Refusal>
        ensures { went result self.new.rest.now ≡ capability self.old.rest.now }
    {
        let voltage_mv = self.number(65535)? as u16;
        let current_ma = self.number(65535)? as u16;
        Ok(PowerCapability {
            voltage_mv,
            current_ma,
        })
    }

    // A contract.
    #[tactic(auto, unfolding(crate::specs::Packet::contract))]
    fn contract(&mut self) -> Result<Contract, Refusal>
        ensures { went result self.new.rest.now ≡ contract self.old.rest.now }
    {
        let port = self.field(15)?;
        let power = self.capability()?;
        let flags = self.byte()?;
        Ok(Contract { port, power, flags })
    }

    // A consumer: a contract with a consumer's flags.
    #[tactic(auto, unfolding(crate::specs::Packet::consumer))]
    fn consumer(&mut self) -> Result<AvailableConsumer, Refusal>
        ensures { went result self.new.rest.now ≡ consumer self.old.rest.now }
    {
        let c = self.contract()?;
        let flags = ConsumerFlags::try_from(c.flags).map_err(|_| Refusal::Layout)?;
        Ok(AvailableConsumer {
            psu: c.port,
            consumer_power_capability: ConsumerPowerCapability {
                capability: c.power,
                flags,
            },
        })
    }

    // Both unconstrained figures.
    #[tactic(auto, unfolding(crate::specs::Packet::unconstrained))]
    fn unconstrained(&mut self) -> Result<UnconstrainedState, Refusal>
        ensures { went result self.new.rest.now ≡ unconstrained self.old.rest.now }
    {
        let u = self.field(1)?;
        let available = self.field(MAX_PORTS)?;
        Ok(UnconstrainedState {
            unconstrained: u == 1,
            available,
        })
    }

    // Notice 1 after its kind: port, reason.
    #[tactic(auto, unfolding(crate::specs::Packet::consumer_disconnected))]
    fn consumer_disconnected(&mut self) -> Result<Event, Refusal>
        ensures { went result self.new.rest.now ≡ consumer_disconnected self.old.rest.now }
    {
        let port = self.field(15)?;
        let b = self.byte()?;
        let reason = DisconnectFlags::try_from(b).map_err(|_| Refusal::Layout)?;
        Ok(Event::ConsumerDisconnected(port, reason))
    }

    // Notice 2 after its kind: a consumer.
    #[tactic(auto, unfolding(crate::specs::Packet::consumer_connected))]
    fn consumer_connected(&mut self) -> Result<Event, Refusal>
        ensures { went result self.new.rest.now ≡ consumer_connected self.old.rest.now }
    {
        let c = self.consumer()?;
        Ok(Event::ConsumerConnected(c.psu, c.consumer_power_capability))
    }

    // Notice 3 after its kind: port.
    #[tactic(auto, unfolding(crate::specs::Packet::provider_disconnected))]
    fn provider_disconnected(&mut self) -> Result<Event, Refusal>
        ensures { went result self.new.rest.now ≡ provider_disconnected self.old.rest.now }
    {
        let port = self.field(15)?;
        Ok(Event::ProviderDisconnected(port))
    }

    // Notice 4 after its kind: a contract with a provider's flags. As `consumer` reads it: a trait over both flags and both capabilities
    // would take more lines than these.
    #[tactic(auto, unfolding(crate::specs::Packet::provider_connected))]
    fn provider_connected(&mut self) -> Result<Event, Refusal>
        ensures { went result self.new.rest.now ≡ provider_connected self.old.rest.now }
    {
        let c = self.contract()?;
        let flags = ProviderFlags::try_from(c.flags).map_err(|_| Refusal::Layout)?;
        let provided = ProviderPowerCapability {
            capability: c.power,
            flags,
        };
        Ok(Event::ProviderConnected(c.port, provided))
    }

    // Notice 5 after its kind: both figures.
    #[tactic(auto, unfolding(crate::specs::Packet::unconstrained_changed))]
    fn unconstrained_changed(&mut self) -> Result<Event, Refusal>
        ensures { went result self.new.rest.now ≡ unconstrained_changed self.old.rest.now }
    {
        let u = self.unconstrained()?;
        Ok(Event::Unconstrained(u))
    }

    // A notice of a kind, after the kind's byte. The byte is matched where it is read: an enum of kinds would be matched once more.
    #[tactic(auto, unfolding(crate::specs::Packet::notice_of))]
    fn notice_of(&mut self, kind: u8) -> Result<Event, Refusal>
        ensures { went result self.new.rest.now ≡ notice_of kind self.old.rest.now }
    {
        match kind {
            1 => self.consumer_disconnected(),
            2 => self.consumer_connected(),
            3 => self.provider_disconnected(),
            4 => self.provider_connected(),
            5 => self.unconstrained_changed(),
            _ => Err(Refusal::Layout),
        }
    }

    // A notice.
    #[tactic(auto, unfolding(crate::specs::Packet::notice))]
    fn notice(&mut self) -> Result<Event, Refusal>
        ensures { went result self.new.rest.now ≡ notice self.old.rest.now }
    {
        let kind = self.byte()?;
        self.notice_of(kind)
    }

    // So many notices.
    fn notices(&mut self, count: u8) -> Result<Notices, Refusal>
        ensures { went result self.new.rest.now ≡ notices count empty self.old.rest.now }
    {
        let mut found = Notices::new();
        for _ in 0..count {
            let notice = self.notice()?;
            found.push(notice);
        }
        Ok(found)
    }

    // So many tracked ports: each is above the one before it.
    fn ports(&mut self, count: u8) -> Result<Providers, Refusal>
        ensures { went result self.new.rest.now ≡ ports count 0 0 self.old.rest.now }
    {
        let mut mask: u16 = 0;
        let mut low: u8 = 0;
        for _ in 0..count {
            let port = self.byte()?;
            if port < low || 15 < port {
                return Err(Refusal::Layout);
            }
            mask |= 1 << port;
            low = port + 1;
        }
        Ok(Providers { mask })
    }

    // The consumer of a picture after its presence byte, 0 or 1: the byte as it was read, which the definition asks too.
    fn option_consumer(&mut self, present: u8) -> Result<Option<AvailableConsumer>, Refusal>
        ensures { went result self.new.rest.now ≡ consumer_given present self.old.rest.now }
    {
        if present == 0 {
            return Ok(None);
        }
        let c = self.consumer()?;
        Ok(Some(c))
    }

    // An event packet after its kind.
    #[tactic(auto, unfolding(crate::specs::Packet::event, crate::specs::Packet::event_after, crate::specs::Packet::event_notices))]
    fn event(&mut self) -> Result<Packet, Refusal>
        ensures { went result self.new.rest.now ≡ event self.old.rest.now }
    {
        let number = self.number(LARGEST)?;
        if number == 0 {
            return Err(Refusal::Layout);
        }
        let answer = self.field(10)?;
        let orders = self.number(LARGEST)?;
        if u32::from(MAX_ORDERS) < orders {
            return Err(Refusal::Layout);
        }
        let count = self.field(MAX_NOTICES)?;
        let notices = self.notices(count)?;
        self.end(Packet::Event(EventPacket {
            number,
            answer,
            orders: orders as u8,
            notices,
        }))
    }

    // A full picture after its kind: its consumer, both figures and the tracked ports.
    #[tactic(auto, unfolding(crate::specs::Packet::picture, crate::specs::Packet::picture_after))]
    fn picture(&mut self) -> Result<Packet, Refusal>
        ensures { went result self.new.rest.now ≡ picture self.old.rest.now }
    {
        let number = self.number(LARGEST)?;
        let present = self.field(1)?;
        let consumer = self.option_consumer(present)?;
        let unconstrained = self.unconstrained()?;
        let count = self.field(MAX_CONNECTED_PROVIDERS as u8)?;
        let providers = self.ports(count)?;
        self.end(Packet::Picture(Picture {
            number,
            display: Display {
                consumer,
                unconstrained,
                providers,
            },
        }))
    }

    // A packet: 1 an event packet, 2 a full picture; matched where it is read, as a notice's kind.
    #[tactic(auto, unfolding(crate::specs::Packet::packet, crate::specs::Packet::packet_of))]
    fn packet(&mut self) -> Result<Packet, Refusal>
        ensures { went result self.new.rest.now ≡ packet self.old.rest.now }
    {
        let kind = self.byte()?;
        match kind {
            1 => self.event(),
            2 => self.picture(),
            _ => Err(Refusal::Layout),
        }
    }
}

// The packet of all the bytes.
pub fn read(s: &[u8]) -> Result<Packet, Refusal>
    ensures { numbered result ≡ read_packet s.now }
{
    let mut reader = Reader { rest: s };
    reader.packet()
}
