//! Workers over pools, each in its own thread.

ghost use Rattle.std.specs.Prelude.{◌≡◌, ℕ, All, length};
ghost use Rattle.machine_server.specs.Hired.{AreFresh, AreHired};
ghost use Rattle.machine_workers.specs.Workers.{AllHaveWorked, HasWorked, IsReady};
ghost use Rattle.pool_register.specs.Kept.{Seen};
ghost use Rattle.pool_service.specs.Protocol.{pool_protocol};

use history_lock::Shared;
use ipam_listen::{Gate, Lane, OpenGate};
use machine_workers::{Worker, work};
use pool_keeper::keeper::PoolKeeper;
use pool_register::Pools;
use pool_service::PoolService;
use std::alloc::Global;
use std::marker::{Send, Sync};
use std::sync::Wait;
use std::thread::{Threads, for_each_mut};

/// Serves the connections of all workers' lanes, each worker in its own thread; if no thread can be started they run one after another.
/// Each worker has a seat again at the end, of the same number and weight, and its lane has no accept left. Each worker builds its table of
/// routes in its own thread.
pub fn serve_workers<
    R: Threads + Wait + Sync,
    K: PoolKeeper + Send,
    A: Lane + Send,
    G: Gate + Sync,
>(rt: &R, alloc: Global, shared: &Shared<Pools<K>>, workers: &mut [Worker<Pools<K>, A>], gate: &G)
    requires ready { All (λ w. IsReady A.told shared.now w.seat w.lane) workers.old }
    ensures worked { AllHaveWorked pool_protocol A.told A.accepts A.faults (λ w. w.seat) (λ w. w.lane) workers.old workers.new }
    ensures all { length workers.new ≡ length workers.old }
{
    let threads = workers.len();
    if threads > 0 {
        for_each_mut(
            rt,
            workers,
            threads,
            &|_, worker: &mut Worker<Pools<K>, A>|
                requires { IsReady A.told shared.now worker.now.seat worker.now.lane }
                ensures { HasWorked pool_protocol A.told A.accepts A.faults worker.entry.now.seat worker.entry.now.lane worker.exit.now.seat worker.exit.now.lane }
            { work::<R, Pools<K>, PoolService, A, G>(rt, alloc, shared, worker, gate) },
        );
    }
}

/// If as many workers were hired as were wanted, lets them work until no lane has an accept left.
pub(crate) fn work_all<R: Threads + Wait + Sync, K: PoolKeeper + Send, A: Lane + Send>(
    rt: &R,
    alloc: Global,
    shared: &Shared<Pools<K>>,
    workers: &mut [Worker<Pools<K>, A>],
    wanted: u32,
)
    requires ready { (opening : Seen) × (base : ℕ) × AreFresh pool_protocol A.told opening base shared.now (λ w. w.seat) (λ w. w.lane) workers.old }
    ensures hired { (opening : Seen) (base : ℕ) → AreFresh pool_protocol A.told opening base shared.now (λ w. w.seat) (λ w. w.lane) workers.old
        → AreHired pool_protocol A.told opening base shared.now (λ w. w.seat) (λ w. w.lane) workers.new }
    ensures spent { length workers.old ≡ wanted → All (λ w. A.accepts w.lane ≡ 0) workers.new }
    ensures count { length workers.new ≡ length workers.old }
{
    if workers.len() == wanted as usize {
        serve_workers(rt, alloc, shared, workers, &OpenGate);
    }
}
