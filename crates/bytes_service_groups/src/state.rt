// What is held between events, as 12 bytes: the display and the power state.
ghost use Rattle.std.specs.Prelude.{◌≡◌, get_or};
ghost use Rattle.std.proofs.lemmas.List.Edits.{sets};
ghost use Rattle.bytes_groups.specs.Shown.{shown_at};
ghost use Rattle.bytes_service_groups.specs.State.{held_bytes, state_from};

use abstract_policy::state::InternalState;
use bytes_groups::place;
use bytes_groups::shown::Shown;
use power_policy_service::provider::PowerState;

// Bytes 24 to 35; refused for bytes that no state is written as.
pub fn read_state(s: &[u8]) -> Option<InternalState>
    ensures { result ≡ state_from (shown_at s.now 24) (get_or s.now 35 0) }
{
    let d = Shown::at(s, 24).display()?;
    Some(InternalState {
        current_consumer_state: d.consumer,
        current_provider_state: PowerState::try_from(place::byte(s, 35, 0)).ok()?,
        unconstrained: d.unconstrained,
        connected_providers: d.providers,
    })
}

// Stores bytes 24 to 36.
pub fn put_held(image: &mut [u8], s: InternalState, orders: u8)
    ensures { image.new ≡ sets image.old 24 (held_bytes s orders) }
{
    place::put(image, 24, &Shown::from(s.display()).bytes());
    place::put(image, 35, &[u8::from(s.current_provider_state), orders]);
}
