//! A shared machine from the first lane to its close.
ghost use Rattle.std.specs.Prelude.{◌≡◌, ◌≤◌, ◌<◌, ◌+◌, [], All, length, vec_len, vec_capacity};
ghost use Rattle.history_lock.specs.Replay.{own_entries, replay};
ghost use Rattle.ipam_edge.specs.Faults.{Rose};
ghost use Rattle.http_lanes.specs.Listened.{IsListening};
ghost use Rattle.machine_session.specs.Protocols.{protocol};
ghost use Rattle.machine_server.specs.Hired.{AreFresh, AreHired};
ghost use Rattle.machine_server.specs.History.{IsServedBy};

use crate::hiring::{dismiss, hire};
use history_lock::{Machine, Seat, Shared};
use http_lanes::{Listening, give_back_lanes, take_lanes};
use ipam_listen::Listener;
use machine_session::Service;
use machine_workers::Worker;

/// Takes so many lanes of a listener, and hires a worker for each. Stops early if the listener has no lane. There is room for both: it
/// takes no memory.
pub fn open_all<M: Machine, V: Service<M>, L: Listener>(
    shared: &Shared<M>,
    seat: Seat<M>,
    workers: u32,
    lanes: &mut Vec<L::Door>,
    hired: &mut Vec<Worker<M, L::Door>>,
    listener: &mut L,
) -> (Seat<M>, Listening)
    requires seat { (seat.lock ≡ shared.now) × (seat.weight ≡ 65536) × (seat.spare ≡ 65536) }
    requires first { (seat.ended ≡ []) × (seat.seen ≡ []) × (seat.faults ≡ 0) }
    requires first_number { seat.number ≡ 0 }
    requires none_yet { (lanes.old.items ≡ []) × (hired.old.items ≡ []) }
    requires few { workers ≤ 1000 }
    requires room { (workers ≤ vec_capacity lanes.old) × (workers ≤ vec_capacity hired.old) }
    ensures seat { (result.0.lock ≡ shared.now) × (result.0.weight + vec_len hired.new ≡ 65536) }
    ensures first { (result.0.opening ≡ seat.opening) × (result.0.base ≡ seat.base) × (result.0.ended ≡ []) × (result.0.seen ≡ []) × (result.0.faults ≡ 0) }
    ensures crew { AreFresh (protocol M.step M.answer M.kind M.fallible V.asks V.tells V.refuses V.misread) L.Door.told result.0.opening result.0.base shared.now (λ w. w.seat) (λ w. w.lane) hired.new.items }
    ensures none_left { lanes.new.items ≡ [] }
    ensures room { vec_len hired.new ≤ vec_capacity lanes.new }
    ensures lanes { L.lanes listener.new ≡ L.lanes listener.old + vec_len hired.new }
    ensures all { IsListening ((vec_len hired.new ≡ workers) × (L.faults listener.new ≡ L.faults listener.old)) ((vec_len hired.new < workers) × Rose (L.faults listener.old) (L.faults listener.new)) result.1 }
    ensures bound { L.bound listener.new ≡ L.bound listener.old }
    ensures returned { L.returned listener.new ≡ L.returned listener.old }
    ensures later { L.faults listener.old ≤ L.faults listener.new }
{
    let came = take_lanes(listener, workers, lanes);
    let seat = hire::<M, V, L::Door>(shared, seat, lanes, hired);
    (seat, came)
}

/// Dismisses the workers, gives their lanes back, and closes the lock. The listening broke if an accept failed. There is room for the
/// lanes: it takes no memory.
pub fn close_all<M: Machine, V: Service<M>, L: Listener>(
    shared: Shared<M>,
    seat: Seat<M>,
    lanes: Vec<L::Door>,
    hired: Vec<Worker<M, L::Door>>,
    listener: &mut L,
) -> (M, Listening)
    requires seat { (seat.lock ≡ shared) × (seat.weight + vec_len hired ≡ 65536) }
    requires first { (seat.ended ≡ []) × (own_entries seat.number seat.seen ≡ []) × (seat.faults ≡ 0) }
    requires crew { AreHired (protocol M.step M.answer M.kind M.fallible V.asks V.tells V.refuses V.misread) L.Door.told seat.opening seat.base shared (λ w. w.seat) (λ w. w.lane) hired.items }
    requires none_yet { lanes.items ≡ [] }
    requires room { vec_len hired ≤ vec_capacity lanes }
    requires out { length (L.returned listener.old) + vec_len hired ≤ L.lanes listener.old }
    ensures history { IsServedBy (protocol M.step M.answer M.kind M.fallible V.asks V.tells V.refuses V.misread) seat.opening seat.base (M.faults result.0) (L.returned listener.old) (L.returned listener.new) (All (λ w. L.Door.accepts w.lane ≡ 0) hired.items) (M.log result.0) }
    ensures opening { M.opening result.0 ≡ seat.opening }
    ensures state { M.state result.0 ≡ replay M.step seat.opening (M.log result.0) }
    ensures whole { result.1 ≡ Listening.Whole → L.faults listener.new ≡ L.faults listener.old }
    ensures broken { result.1 ≡ Listening.Broken → Rose (L.faults listener.old) (L.faults listener.new) }
    ensures came_back { length (L.returned listener.new) ≡ length (L.returned listener.old) + vec_len hired }
    ensures lanes { L.lanes listener.new ≡ L.lanes listener.old }
    ensures bound { L.bound listener.new ≡ L.bound listener.old }
    ensures later { L.faults listener.old ≤ L.faults listener.new }
{
    let mut lanes = lanes;
    let seat = dismiss::<M, V, L::Door>(&shared, seat, hired, &mut lanes);
    let heard = give_back_lanes(listener, lanes);
    (shared.close(seat), heard)
}
