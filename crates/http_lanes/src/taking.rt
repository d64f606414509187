//! Lanes are taken from a listener, and given back.
ghost use Rattle.std.specs.Prelude.{◌≡◌, ◌≤◌, ◌<◌, ◌+◌, ◌++◌, [], All, IfSome, length, map, vec_len, vec_capacity};
ghost use Rattle.ipam_edge.specs.Faults.{Rose};
ghost use Rattle.http_lanes.specs.Listened.{IsListening, returned_as};

use crate::listening::{Listening, heard_of};
use ipam_listen::Listener;

/// Takes so many lanes, for which there is room. Stops early if the listener has no lane.
pub fn take_lanes<L: Listener>(listener: &mut L, wanted: u32, lanes: &mut Vec<L::Door>) -> Listening
    requires none_yet { lanes.old.items ≡ [] }
    requires room { wanted ≤ vec_capacity lanes.old }
    ensures fresh { All (λ lane. IfSome (L.Door.told lane) (λ connections. connections ≡ [])) lanes.new.items }
    ensures lanes { L.lanes listener.new ≡ L.lanes listener.old + vec_len lanes.new }
    ensures all { IsListening ((vec_len lanes.new ≡ wanted) × (L.faults listener.new ≡ L.faults listener.old)) ((vec_len lanes.new < wanted) × Rose (L.faults listener.old) (L.faults listener.new)) result }
    ensures room { vec_capacity lanes.new ≡ vec_capacity lanes.old }
    ensures bound { L.bound listener.new ≡ L.bound listener.old }
    ensures returned { L.returned listener.new ≡ L.returned listener.old }
    ensures later { L.faults listener.old ≤ L.faults listener.new }
{
    for _ in 0..wanted {
        match listener.lane() {
            Ok(lane) => lanes.push_reserved(lane),
            Err(_) => return Listening::Broken,
        }
    }
    Listening::Whole
}

/// Gives lanes back, the first one first. The listening broke if an accept failed. It takes no memory.
pub fn give_back_lanes<L: Listener>(listener: &mut L, lanes: Vec<L::Door>) -> Listening
    requires out { length (L.returned listener.old) + vec_len lanes ≤ L.lanes listener.old }
    ensures returned { L.returned listener.new ≡ L.returned listener.old ++ map (returned_as L.Door.told L.Door.accepts) lanes.items }
    ensures whole { result ≡ Listening.Whole → L.faults listener.new ≡ L.faults listener.old }
    ensures broken { result ≡ Listening.Broken → Rose (L.faults listener.old) (L.faults listener.new) }
    ensures lanes { L.lanes listener.new ≡ L.lanes listener.old }
    ensures bound { L.bound listener.new ≡ L.bound listener.old }
    ensures later { L.faults listener.old ≤ L.faults listener.new }
{
    let mut listening = Listening::Whole;
    let mut left = lanes;
    left.reverse();
    while let Some(lane) = left.pop() {
        listening = listening.and(heard_of(&lane));
        listener.give_back(lane);
    }
    left.destroy_empty();
    listening
}
