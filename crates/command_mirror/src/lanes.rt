//! The lanes of a mirror: all that are wanted, or none.

ghost use Rattle.std.specs.Prelude.{◌≡◌, ◌≤◌, [], IfNone, IfSome, vec_capacity, vec_len};
ghost use Rattle.ipam_listen.specs.Connections.{binding};
ghost use Rattle.machine_serving.specs.Views.{listener_view};
ghost use Rattle.command_mirror.specs.Lanes.{HasNoLanes, HaveCome};

use http_lanes::{Listening, give_back_lanes, take_lanes};
use ipam_listen::Listener;

/// Takes so many lanes of a listener that is bound, for which there is room. `None` if one is not handed out: those that were handed out are given back.
fn take_all<L: Listener>(listener: &mut L, wanted: u32, lanes: Vec<L::Door>) -> Option<Vec<L::Door>>
    requires none_yet { lanes.items ≡ [] }
    requires room { wanted ≤ vec_capacity lanes }
    ensures came { IfSome result (λ came. HaveCome L.Door.told (L.bound listener.old) wanted
        (listener_view L.bound L.lanes L.returned L.faults listener.old) (listener_view L.bound L.lanes L.returned L.faults listener.new) came.items) }
    ensures room { IfSome result (λ came. vec_capacity came ≡ vec_capacity lanes) }
    ensures none { IfNone result (HasNoLanes (L.bound listener.old) wanted
        (listener_view L.bound L.lanes L.returned L.faults listener.old) (listener_view L.bound L.lanes L.returned L.faults listener.new)) }
    ensures later { L.faults listener.old ≤ L.faults listener.new }
{
    let mut lanes = lanes;
    match take_lanes(listener, wanted, &mut lanes) {
        Listening::Whole => Some(lanes),
        Listening::Broken => {
            let _heard = give_back_lanes(listener, lanes);
            None
        }
    }
}

/// Binds a listener, and takes so many lanes, for which there is room. `None` if it can't be bound, or a lane is not handed out: those that
/// were handed out were given back. It takes no memory.
pub(crate) fn open_lanes<L: Listener>(
    listener: &mut L,
    place: Vec<u8>,
    connections: u32,
    wanted: u32,
    lanes: Vec<L::Door>,
) -> Option<Vec<L::Door>>
    requires none_yet { lanes.items ≡ [] }
    requires room { wanted ≤ vec_capacity lanes }
    ensures came { IfSome result (λ came. HaveCome L.Door.told (binding place.items connections) wanted
        (listener_view L.bound L.lanes L.returned L.faults listener.old) (listener_view L.bound L.lanes L.returned L.faults listener.new) came.items) }
    ensures room { IfSome result (λ came. vec_capacity came ≡ vec_capacity lanes) }
    ensures none { IfNone result (HasNoLanes (binding place.items connections) wanted
        (listener_view L.bound L.lanes L.returned L.faults listener.old) (listener_view L.bound L.lanes L.returned L.faults listener.new)) }
    ensures later { L.faults listener.old ≤ L.faults listener.new }
{
    match listener.bind(place, connections) {
        Ok(()) => take_all(listener, wanted, lanes),
        Err(_) => {
            lanes.destroy_empty();
            None
        }
    }
}
