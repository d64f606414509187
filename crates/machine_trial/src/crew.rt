//! Workers over a tally that many connections share.
ghost use Rattle.std.specs.Prelude.{◌≡◌, ◌≤◌, ◌+◌, [], All, IfSome, length, vec_len, vec_capacity};
ghost use Rattle.history_lock.specs.Replay.{replay};
ghost use Rattle.lock_trial.specs.Adds.{add_step};
ghost use Rattle.machine_workers.specs.Workers.{AllHaveWorked, HasWorked, IsReady};
ghost use Rattle.machine_server.specs.Hired.{AreNumberedDown, IsFresh, IsHired};
ghost use Rattle.machine_server.specs.History.{IsServedBy};
ghost use Rattle.machine_trial.specs.Tallies.{tally_protocol};

use crate::service::TallyService;
use history_lock::{Seat, Shared};
use http_lanes::Listening;
use ipam_listen::{Gate, Lane, Listener, OpenGate};
use lock_trial::Tally;
use machine_server::{close_all, open_all};
use machine_workers::{Worker, work};
use std::alloc::Global;
use std::marker::{Send, Sync};
use std::sync::Wait;
use std::thread::{Threads, for_each_mut};

/// Serves the connections of all workers' lanes, each worker in its own thread.
pub fn serve_workers<R: Threads + Wait + Sync, A: Lane + Send, G: Gate + Sync>(
    rt: &R,
    alloc: Global,
    shared: &Shared<Tally>,
    workers: &mut [Worker<Tally, A>],
    gate: &G,
)
    requires ready { All (λ w. IsReady A.told shared.now w.seat w.lane) workers.old }
    ensures worked { AllHaveWorked tally_protocol A.told A.accepts A.faults (λ w. w.seat) (λ w. w.lane) workers.old workers.new }
    ensures all { length workers.new ≡ length workers.old }
{
    let threads = workers.len();
    if threads > 0 {
        for_each_mut(
            rt,
            workers,
            threads,
            &|_, worker: &mut Worker<Tally, A>|
                requires { IsReady A.told shared.now worker.now.seat worker.now.lane }
                ensures { HasWorked tally_protocol A.told A.accepts A.faults worker.entry.now.seat worker.entry.now.lane worker.exit.now.seat worker.exit.now.lane }
            { work::<R, Tally, TallyService, A, G>(rt, alloc, shared, worker, gate) },
        );
    }
}

/// Takes so many lanes of the listener, serves them by a worker each, gives them back, and closes the lock.
pub fn serve_all<R: Threads + Wait + Sync, L: Listener>(
    rt: &R,
    alloc: Global,
    shared: Shared<Tally>,
    seat: Seat<Tally>,
    workers: u32,
    lanes: Vec<L::Door>,
    hired: Vec<Worker<Tally, L::Door>>,
    listener: &mut L,
) -> (Tally, Listening)
    requires seat { (seat.lock ≡ shared) × (seat.weight ≡ 65536) × (seat.spare ≡ 65536) }
    requires first { (seat.ended ≡ []) × (seat.seen ≡ []) × (seat.faults ≡ 0) }
    requires first_number { seat.number ≡ 0 }
    requires none_yet { (lanes.items ≡ []) × (hired.items ≡ []) }
    requires few { workers ≤ 1000 }
    requires room { (workers ≤ vec_capacity lanes) × (workers ≤ vec_capacity hired) }
    requires opening { seat.opening ≡ 0 }
    ensures state { result.0.value ≡ replay add_step 0 result.0.log.items }
    ensures came_back { length (L.returned listener.new) + L.lanes listener.old ≡ length (L.returned listener.old) + L.lanes listener.new }
{
    let mut lanes = lanes;
    let mut hired = hired;
    let (seat, came) = open_all::<Tally, TallyService, L>(
        &shared, seat, workers, &mut lanes, &mut hired, listener,
    );
    serve_workers(rt, alloc, &shared, hired.as_mut_slice(), &OpenGate);
    let (tally, heard) = close_all::<Tally, TallyService, L>(shared, seat, lanes, hired, listener);
    (tally, came.and(heard))
}
