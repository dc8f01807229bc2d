// What the service has for the desk: the packet of the event closed last, and the full picture.
ghost use Rattle.std.specs.Prelude.{◌≡◌};
ghost use Rattle.power_policy_interface.specs.Refusal.{numbered};
ghost use Rattle.power_policy_interface.specs.declared.service.event.Event.{Event};
ghost use Rattle.power_policy_interface.specs.Psu.{answer_byte};
ghost use Rattle.machine_service.specs.Send.{push_told, provider_event, notices_of, packet_with, picture_of, send_packet, send_picture};

use crate::Service;
use interface_display::AvailableConsumer;
use interface_display::notices::Notices;
use interface_display::packet::{EventPacket, Picture};
use machine_state::memory::{Disconnected, ProviderNotice};
use machine_state::phase::Stand;
use power_policy_interface::psu;
use power_policy_interface::refusal::Refusal;
use power_policy_interface::service::event::Event;

// What is told of a provider.
fn provider_event(notice: ProviderNotice) -> Event
    ensures { result ≡ provider_event notice }
{
    match notice {
        ProviderNotice::Disconnected(port) => Event::ProviderDisconnected(port),
        ProviderNotice::Connected(port, c) => Event::ProviderConnected(port, c),
    }
}

// What is told of the consumer that is disconnected. Here and below a line each, of two types: a trait over them would take more.
fn disconnected_event(d: Disconnected) -> Event
    ensures { result ≡ Event.ConsumerDisconnected d.port d.flags }
{
    Event::ConsumerDisconnected(d.port, d.flags)
}

// What is told of the consumer that is connected.
fn connected_event(c: AvailableConsumer) -> Event
    ensures { result ≡ Event.ConsumerConnected c.psu c.consumer_power_capability }
{
    Event::ConsumerConnected(c.psu, c.consumer_power_capability)
}

// A notice that is told comes last in the list.
fn push_told(list: &mut Notices, notice: Option<Event>)
    ensures { list.new ≡ push_told list.old notice }
{
    if let Some(event) = notice {
        list.push(event);
    }
}

// The notices in their order.
pub fn notices_of(notices: machine_state::memory::Notices) -> Notices
    ensures { result ≡ notices_of notices }
{
    let mut list = Notices::new();
    push_told(&mut list, notices.provider.map(provider_event));
    push_told(&mut list, notices.disconnected.map(disconnected_event));
    push_told(&mut list, notices.connected.map(connected_event));
    push_told(&mut list, notices.unconstrained.map(Event::Unconstrained));
    list
}

// The packet with this answer.
fn packet_of(service: Service, answer: Result<(), psu::Error>) -> EventPacket
    ensures { result ≡ packet_with service (answer_byte answer) }
{
    EventPacket {
        number: service.number,
        answer: psu::answer_byte(answer),
        orders: service.orders,
        notices: notices_of(service.memory.notices),
    }
}

// The packet of the event closed last: none while an event is open, and none before event 1.
pub fn packet(service: Service) -> Result<EventPacket, Refusal>
    ensures { numbered result ≡ send_packet service }
{
    match service.phase.stand() {
        Stand::Order(_) => Err(Refusal::EventOpen),
        Stand::Closed(_) if service.number == 0 => Err(Refusal::NoEvent),
        Stand::Closed(answer) => Ok(packet_of(service, answer)),
    }
}

fn picture_of(service: Service) -> Picture
    ensures { result ≡ picture_of service }
{
    Picture {
        number: service.number,
        display: service.memory.state.display(),
    }
}

// What is held at the number closed last: none while an event is open.
pub fn picture(service: Service) -> Result<Picture, Refusal>
    ensures { numbered result ≡ send_picture service }
{
    if service.is_open() {
        return Err(Refusal::EventOpen);
    }
    Ok(picture_of(service))
}
