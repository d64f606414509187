//! Workers over a register in memory.
ghost use Rattle.std.specs.Prelude.{◌≡◌, [], IfSome};
ghost use Rattle.ipam_listen.specs.ListLanes.{lane_told};

use history_lock::{Seat, Shared};
use ipam_keeper::memory::MemoryKeeper;
use ipam_listen::{Gate, Lane, ListLane};
use register_core::Register;
use rest_ipam::{Worker, serve_workers};
use std::alloc::{AllocError, Global};
use std::marker::{Send, Sync};
use std::str;
use std::sync::Wait;
use std::thread::Threads;

/// Puts what was written to the connections of a lane at the end of a text.
fn tell(lane: &ListLane, told: &mut String) -> Result<(), AllocError> {
    for handed in lane.handed() {
        if let Some(pair) = handed.finished() {
            told.push_str(str::from_utf8(pair.1.bytes()).unwrap_or(""))?;
        }
    }
    Ok(())
}

/// Serves two lanes by two workers at once, and says what was written.
pub fn serve_at_once<R: Threads + Wait + Sync, G: Gate + Sync>(
    rt: &R,
    alloc: Global,
    shared: &Shared<Register<MemoryKeeper>>,
    seats: (Seat<Register<MemoryKeeper>>, Seat<Register<MemoryKeeper>>),
    lanes: (ListLane, ListLane),
    gate: &G,
    told: &mut String,
) -> Result<(), AllocError>
    requires lock { (seats.0.lock ≡ shared.now) × (seats.1.lock ≡ shared.now) }
    requires none_told { (lane_told lanes.0 ≡ []) × (lane_told lanes.1 ≡ []) }
{
    let mut workers = [
        Worker {
            seat: Some(seats.0),
            lane: lanes.0,
        },
        Worker {
            seat: Some(seats.1),
            lane: lanes.1,
        },
    ];
    serve_workers(rt, alloc, shared, &mut workers, gate);
    for worker in &workers {
        tell(&worker.lane, told)?;
    }
    Ok(())
}

/// Serves a lane by its own worker. The worker is in a `Vec`, since nothing is known of the size of any lane.
pub fn serve_alone<R: Threads + Wait + Sync, A: Lane + Send + Drop, G: Gate + Sync>(
    rt: &R,
    alloc: Global,
    shared: &Shared<Register<MemoryKeeper>>,
    seat: Seat<Register<MemoryKeeper>>,
    lane: A,
    gate: &G,
) -> Result<(), AllocError>
    requires lock { seat.lock ≡ shared.now }
    requires none_told { IfSome (A.told lane) (λ connections. connections ≡ []) }
{
    let mut workers = Vec::new(alloc);
    workers.push(Worker {
        seat: Some(seat),
        lane,
    })?;
    serve_workers(rt, alloc, shared, workers.as_mut_slice(), gate);
    Ok(())
}
