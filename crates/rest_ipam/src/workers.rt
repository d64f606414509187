//! Many workers at once.

ghost use Rattle.std.specs.Prelude.{◌≡◌, All, length};
ghost use Rattle.machine_workers.specs.Workers.{AllHaveWorked, HasWorked, IsReady};
ghost use Rattle.rest_ipam.specs.Protocol.{seen_protocol};

use crate::service::RegisterService;
use history_lock::Shared;
use ipam_keeper::keeper::Keeper;
use ipam_listen::{Gate, Lane};
use machine_workers::work;
use register_core::Register;
use std::alloc::Global;
use std::marker::{Send, Sync};
use std::sync::Wait;
use std::thread::{Threads, for_each_mut};

/// What serves the connections of one lane through one seat of a shared register.
pub type Worker<K, A> = machine_workers::Worker<Register<K>, A>;

/// Serves the connections of all workers' lanes, each worker in its own thread; if no thread can be started they run one after
/// another. Each worker has a seat again at the end, of the same number and weight, and its lane has no accept left. Each
/// worker builds its table of routes in its own thread.
pub fn serve_workers<R: Threads + Wait + Sync, K: Keeper + Send, A: Lane + Send, G: Gate + Sync>(
    rt: &R,
    alloc: Global,
    shared: &Shared<Register<K>>,
    workers: &mut [Worker<K, A>],
    gate: &G,
)
    requires { All (λ w. IsReady A.told shared.now w.seat w.lane) workers.old }
    ensures worked { AllHaveWorked seen_protocol A.told A.accepts A.faults (λ w. w.seat) (λ w. w.lane) workers.old workers.new }
    ensures all { length workers.new ≡ length workers.old }
{
    let threads = workers.len();
    if threads > 0 {
        for_each_mut(
            rt,
            workers,
            threads,
            &|_, worker: &mut Worker<K, A>|
                requires { IsReady A.told shared.now worker.now.seat worker.now.lane }
                ensures { HasWorked seen_protocol A.told A.accepts A.faults worker.entry.now.seat worker.entry.now.lane worker.exit.now.seat worker.exit.now.lane }
            { work::<R, Register<K>, RegisterService, A, G>(rt, alloc, shared, worker, gate) },
        );
    }
}
