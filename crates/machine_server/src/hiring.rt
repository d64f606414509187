//! Workers are hired, each with a lane and a seat of the lock, and dismissed again.
ghost use Rattle.std.specs.Prelude.{◌≡◌, ◌≤◌, ◌+◌, ◌-◌, [], All, IfSome, vec_len, vec_capacity};
ghost use Rattle.history_lock.specs.Replay.{own_entries};
ghost use Rattle.machine_session.specs.Protocols.{protocol};
ghost use Rattle.machine_server.specs.Hired.{AreNumberedDown, HasDismissed, IsHired, IsFresh, top_number};

use history_lock::{Machine, Seat, Shared};
use ipam_listen::Lane;
use machine_session::Service;
use machine_workers::Worker;

/// Hires a worker for each lane, with a seat that is split off, the last lane first.
pub(crate) fn hire<M: Machine, V: Service<M>, A: Lane>(
    shared: &Shared<M>,
    seat: Seat<M>,
    lanes: &mut Vec<A>,
    hired: &mut Vec<Worker<M, A>>,
) -> Seat<M>
    requires seat { (seat.lock ≡ shared.now) × (seat.weight ≡ 65536) × (seat.spare ≡ 65536) }
    requires first { (seat.ended ≡ []) × (seat.seen ≡ []) × (seat.faults ≡ 0) }
    requires first_number { seat.number ≡ 0 }
    requires fresh { All (λ lane. IfSome (A.told lane) (λ connections. connections ≡ [])) lanes.old.items }
    requires none_yet { hired.old.items ≡ [] }
    requires few { vec_len lanes.old ≤ 1000 }
    requires room { vec_len lanes.old ≤ vec_capacity hired.old }
    ensures seat { (result.lock ≡ shared.now) × (result.weight + vec_len hired.new ≡ 65536) }
    ensures first { (result.opening ≡ seat.opening) × (result.base ≡ seat.base) × (result.ended ≡ []) × (result.seen ≡ []) × (result.faults ≡ 0) }
    ensures hired { All (λ w. IsHired (protocol M.step M.answer M.kind M.fallible V.asks V.tells V.refuses V.misread) A.told seat.opening seat.base shared.now w.seat w.lane) hired.new.items }
    ensures fresh { All (λ w. IsFresh A.told w.seat w.lane) hired.new.items }
    ensures numbers { AreNumberedDown (λ w. w.seat) top_number hired.new.items }
    ensures all { vec_len hired.new ≡ vec_len lanes.old }
    ensures none_left { lanes.new.items ≡ [] }
    ensures room { vec_capacity lanes.new ≡ vec_capacity lanes.old }
{
    let mut seat = seat;
    while let Some(lane) = lanes.pop() {
        let (rest, new) = shared.split(seat, 1);
        seat = rest;
        hired.push_reserved(Worker {
            seat: Some(new),
            lane,
        });
    }
    seat
}

/// Joins the workers' seats to the first one, the last worker's first, and puts their lanes together in that order.
pub(crate) fn dismiss<M: Machine, V: Service<M>, A: Lane>(
    shared: &Shared<M>,
    seat: Seat<M>,
    hired: Vec<Worker<M, A>>,
    lanes: &mut Vec<A>,
) -> Seat<M>
    requires seat { (seat.lock ≡ shared.now) × (seat.weight + vec_len hired ≡ 65536) }
    requires first { (seat.ended ≡ []) × (own_entries seat.number seat.seen ≡ []) × (seat.faults ≡ 0) }
    requires hired { All (λ w. IsHired (protocol M.step M.answer M.kind M.fallible V.asks V.tells V.refuses V.misread) A.told seat.opening seat.base shared.now w.seat w.lane) hired.items }
    requires numbers { AreNumberedDown (λ w. w.seat) top_number hired.items }
    requires none_yet { lanes.old.items ≡ [] }
    requires room { vec_len hired ≤ vec_capacity lanes.old }
    ensures seat { (result.lock ≡ shared.now) × (result.weight ≡ 65536) × (result.opening ≡ seat.opening) × (result.base ≡ seat.base) }
    ensures no_calls { own_entries result.number result.seen ≡ [] }
    ensures dismissed { HasDismissed (protocol M.step M.answer M.kind M.fallible V.asks V.tells V.refuses V.misread) A.told A.accepts (All (λ w. A.accepts w.lane ≡ 0) hired.items) (top_number + 1 - vec_len hired) seat.opening result lanes.new.items }
    ensures all { vec_len lanes.new ≡ vec_len hired }
{
    let mut seat = seat;
    let mut left = hired;
    while let Some(worker) = left.pop() {
        let Worker { seat: other, lane } = worker;
        let Some(other) = other else { unreachable!() };
        seat = shared.join(seat, other);
        lanes.push_reserved(lane);
    }
    left.destroy_empty();
    seat
}
