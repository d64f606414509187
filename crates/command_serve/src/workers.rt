//! Workers over a register that is shared.

ghost use Rattle.std.specs.Prelude.{◌≡◌, ℕ, All, length};
ghost use Rattle.machine_server.specs.Hired.{AreFresh, AreHired};
ghost use Rattle.machine_workers.specs.Workers.{IsReady};
ghost use Rattle.register_core.specs.Machines.{Seen};
ghost use Rattle.rest_ipam.specs.Protocol.{seen_protocol};

use history_lock::Shared;
use ipam_keeper::keeper::Keeper;
use ipam_listen::{Lane, OpenGate};
use register_core::Register;
use rest_ipam::{Worker, serve_workers};
use std::alloc::Global;
use std::marker::{Send, Sync};
use std::sync::Wait;
use std::thread::Threads;

/// If as many workers were hired as were wanted, lets them work, each in its own thread, until no lane has an accept left.
pub(crate) fn work_all<R: Threads + Wait + Sync, K: Keeper + Send, A: Lane + Send>(
    rt: &R,
    alloc: Global,
    shared: &Shared<Register<K>>,
    workers: &mut [Worker<K, A>],
    wanted: u32,
)
    requires ready { All (λ w. IsReady A.told shared.now w.seat w.lane) workers.old }
    ensures hired { (opening : Seen) (base : ℕ) → AreFresh seen_protocol A.told opening base shared.now (λ w. w.seat) (λ w. w.lane) workers.old
        → AreHired seen_protocol A.told opening base shared.now (λ w. w.seat) (λ w. w.lane) workers.new }
    ensures spent { length workers.old ≡ wanted → All (λ w. A.accepts w.lane ≡ 0) workers.new }
    ensures count { length workers.new ≡ length workers.old }
{
    if workers.len() == wanted as usize {
        serve_workers(rt, alloc, shared, workers, &OpenGate);
    }
}
