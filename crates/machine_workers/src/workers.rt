//! One worker, which serves the connections of its lane.
ghost use Rattle.std.specs.Prelude.{◌≡◌, ◌≤◌, [], IfSome};
ghost use Rattle.machine_session.specs.Protocols.{protocol};
ghost use Rattle.machine_workers.specs.Workers.{HasServedSeat, HasWorked, IsReady};

use history_lock::{Machine, Seat, Shared};
use http_lanes::serve_lane;
use ipam_listen::{Gate, Lane};
use machine_session::{Service, SharedMachine, Sitting};
use std::alloc::Global;
use std::sync::Wait;

/// What serves the connections of one lane through one seat.
#[derive(Drop)]
pub struct Worker<M: Machine, A> {
    pub seat: Option<Seat<M>>,
    pub lane: A,
}

/// Serves the connections of a lane through a seat, one after another, until no accept is left.
fn serve_seat<R: Wait, M: Machine, V: Service<M>, A: Lane, G: Gate>(
    rt: &R,
    alloc: Global,
    shared: &Shared<M>,
    seat: Seat<M>,
    lane: &mut A,
    gate: &G,
) -> Seat<M>
    requires lock { seat.lock ≡ shared.now }
    requires fresh { IfSome (A.told lane.old) (λ connections. connections ≡ []) }
    ensures served { HasServedSeat (protocol M.step M.answer M.kind M.fallible V.asks V.tells V.refuses V.misread) seat result (A.told lane.new) }
    ensures none_left { A.accepts lane.new ≡ 0 }
    ensures later { A.faults lane.old ≤ A.faults lane.new }
{
    let who = seat.who();
    let handler: SharedMachine<'_, R, M, V> = SharedMachine::new();
    let sitting: Sitting<'_, R, M, V> = Sitting::new(rt, shared, seat);
    let sitting = serve_lane(alloc, &handler, sitting, lane, gate, who);
    handler.close();
    sitting.into_seat()
}

/// One worker's work, in its own thread: it serves the connections of its lane until no accept is left, and reads their requests by its
/// own table.
///
/// A program starts its workers itself, by a closure over its own machine that calls this: the prover covers no closure over a machine that is
/// a type parameter.
pub fn work<R: Wait, M: Machine, V: Service<M>, A: Lane, G: Gate>(
    rt: &R,
    alloc: Global,
    shared: &Shared<M>,
    worker: &mut Worker<M, A>,
    gate: &G,
)
    requires { IsReady A.told shared.now worker.old.seat worker.old.lane }
    ensures { HasWorked (protocol M.step M.answer M.kind M.fallible V.asks V.tells V.refuses V.misread) A.told A.accepts A.faults worker.old.seat worker.old.lane worker.new.seat worker.new.lane }
{
    let Some(seat) = worker.seat.take() else {
        unreachable!()
    };
    worker.seat = Some(serve_seat::<R, M, V, A, G>(
        rt,
        alloc,
        shared,
        seat,
        &mut worker.lane,
        gate,
    ));
}
