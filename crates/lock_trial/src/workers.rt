//! Threads that call one tally, each by its own seat.
ghost use Rattle.std.specs.Prelude.{◌≡◌, ◌≤◌, ◌<◌, ◌+◌, ℕ, All, length, vec_len, vec_capacity, IfSome, Some, Contains, [], ◌∷◌, ◌++◌, map, take};
ghost use mathlib.Core.List.{IsPrefix};
ghost use Rattle.history_lock.specs.Machines.{Reaches};
ghost use Rattle.history_lock.specs.Replay.{replay, own_entries};
ghost use Rattle.history_lock.specs.Seats.{SeatView};
ghost use Rattle.lock_trial.specs.Notes.{IsAt, IsHired, IsReady, IsServed, accepted_of, all_faults_of, calls_of, ended_of};

use crate::calls::{Call, Note};
use crate::tally::Tally;
use history_lock::{Seat, Shared};
use std::alloc::Global;
use std::sync::Wait;
use std::thread::{Threads, for_each_mut};

/// A caller: its seat, the calls that it is to make, and what it noted of those that it made.
#[derive(Drop)]
pub struct Worker {
    pub seat: Option<Seat<Tally>>,
    pub number: u32,
    pub calls: Vec<Call>,
    pub notes: Vec<Note>,
}

/// Makes one call, and notes it.
fn ask<R: Wait>(
    rt: &R,
    lock: &Shared<Tally>,
    seat: Seat<Tally>,
    call: Call,
    notes: &mut Vec<Note>,
) -> Seat<Tally>
    requires seat { IsAt lock.now seat.number notes.old.items seat }
    requires room { vec_len notes.old < vec_capacity notes.old }
    ensures seat { IsAt lock.now seat.number notes.new.items result }
    ensures noted { calls_of notes.new.items ≡ calls_of notes.old.items ++ call ∷ [] }
{
    let (seat, reply, place) = lock.call(rt, seat, call);
    notes.push_reserved(Note { call, reply, place });
    seat
}

/// Makes these calls in order. Stops early if memory for the notes runs out.
fn talk<R: Wait>(
    rt: &R,
    lock: &Shared<Tally>,
    seat: Seat<Tally>,
    calls: &[Call],
    notes: &mut Vec<Note>,
) -> Seat<Tally>
    requires seat { IsAt lock.now seat.number notes.old.items seat }
    requires none_yet { notes.old.items ≡ [] }
    ensures seat { IsAt lock.now seat.number notes.new.items result }
    ensures noted { IsPrefix (calls_of notes.new.items) calls.now }
{
    let mut seat = seat;
    for &call in calls {
        if notes.reserve(1).is_err() {
            break;
        }
        seat = ask(rt, lock, seat, call, notes);
    }
    seat
}

/// Makes a worker's calls.
fn serve<R: Wait>(rt: &R, lock: &Shared<Tally>, worker: &mut Worker)
    requires { IsHired lock.now worker.old }
    ensures { IsReady lock.now worker.new }
{
    let Some(seat) = worker.seat.take() else {
        unreachable!()
    };
    worker.seat = Some(talk(rt, lock, seat, worker.calls.as_slice(), &mut worker.notes));
}

/// All workers at once, each in its own thread.
fn each_works<R: Threads + Wait + Sync>(rt: &R, lock: &Shared<Tally>, workers: &mut [Worker])
    requires { All (IsHired lock.now) workers.old }
    ensures ready { All (IsReady lock.now) workers.new }
    ensures all { length workers.new ≡ length workers.old }
{
    let threads = workers.len();
    if threads > 0 {
        for_each_mut(
            rt,
            workers,
            threads,
            &|_, worker: &mut Worker|
                requires { IsHired lock.now worker.now }
                ensures { IsReady lock.entry.now worker.exit.now }
            { serve(rt, lock, worker) },
        );
    }
}

/// Joins the workers' seats to the first one, which then has seen the calls of all.
fn gather(
    lock: &Shared<Tally>,
    seat: Seat<Tally>,
    workers: Vec<Worker>,
    done: &mut Vec<Worker>,
) -> Seat<Tally>
    requires seat { (seat.lock ≡ lock.now) × (seat.weight + vec_len workers ≡ 65536) }
    requires first { (seat.opening ≡ 0) × (seat.ended ≡ []) × (own_entries seat.number seat.seen ≡ []) × (seat.faults ≡ 0) }
    requires none_yet { done.old.items ≡ [] }
    requires ready { All (IsReady lock.now) workers.items }
    requires room { vec_len workers ≤ vec_capacity done.old }
    ensures seat { (result.lock ≡ lock.now) × (result.weight ≡ 65536) × (result.opening ≡ 0) × (result.number ≡ seat.number) }
    ensures no_calls { own_entries result.number result.seen ≡ [] }
    ensures faults { (result.faults ≡ all_faults_of done.new.items) × (result.base ≡ seat.base) }
    ensures ended { result.ended ≡ map ended_of done.new.items }
    ensures served { All (IsServed result.seen) done.new.items }
    ensures all { vec_len done.new ≡ vec_len workers }
{
    let mut seat = seat;
    let mut left = workers;
    while let Some(worker) = left.pop() {
        let mut worker = worker;
        let Some(other) = worker.seat.take() else {
            unreachable!()
        };
        seat = lock.join(seat, other);
        done.push_reserved(worker);
    }
    seat
}

/// Splits a seat off for each list of calls, and makes a worker of both.
fn hire(
    lock: &Shared<Tally>,
    alloc: Global,
    seat: Seat<Tally>,
    lists: Vec<Vec<Call>>,
    workers: &mut Vec<Worker>,
) -> Seat<Tally>
    requires seat { (seat.lock ≡ lock.now) × (seat.weight ≡ 65536) × (seat.spare ≡ 65536) }
    requires first { (seat.opening ≡ 0) × (seat.ended ≡ []) × (seat.seen ≡ []) × (seat.faults ≡ 0) }
    requires none_yet { workers.old.items ≡ [] }
    requires few { vec_len lists ≤ 1000 }
    requires room { vec_len lists ≤ vec_capacity workers.old }
    ensures seat { (result.lock ≡ lock.now) × (result.weight + vec_len workers.new ≡ 65536) }
    ensures first { (result.opening ≡ 0) × (result.ended ≡ []) × (result.seen ≡ []) × (result.faults ≡ 0) × (result.base ≡ seat.base) }
    ensures hired { All (IsHired lock.now) workers.new.items }
    ensures all { vec_len workers.new ≡ vec_len lists }
{
    let mut seat = seat;
    let mut left = lists;
    while let Some(calls) = left.pop() {
        let (rest, new) = lock.split(seat, 1);
        seat = rest;
        let number = new.who();
        workers.push_reserved(Worker {
            seat: Some(new),
            number,
            calls,
            notes: Vec::new(alloc),
        });
    }
    seat
}

/// Gives each list of calls to its own thread, and returns with the tally and the workers when all have ended. None for lack of memory.
pub fn run<R: Threads + Wait + Sync>(
    rt: &R,
    alloc: Global,
    tally: Tally,
    lists: Vec<Vec<Call>>,
) -> Option<(Tally, Vec<Worker>)>
    requires empty { tally.log.items ≡ [] }
    requires few { vec_len lists ≤ 1000 }
    // The history has for each worker's number just its accepted calls, in order.
    ensures own { IfSome result (λ r. All (λ w. own_entries w.number r.0.log.items ≡ accepted_of w.number w.notes.items) r.1.items) }
    // Each reply was legal at its place in this one history.
    ensures legal { IfSome result (λ r. All (IsServed r.0.log.items) r.1.items) }
    // Each entry of the history is some worker's.
    ensures nobody_else { IfSome result (λ r. All (λ e. Contains (map (λ w. w.number) r.1.items) e.0) r.0.log.items) }
    // As many faults as the workers met are counted by the tally, until its count is at the last value of a u64.
    ensures faults { IfSome result (λ r. Reaches (tally.faults + all_faults_of r.1.items) r.0.faults) }
    ensures all { IfSome result (λ r. vec_len r.1 ≡ vec_len lists) }
{
    let mut workers = Vec::with_capacity(alloc, lists.len()).ok()?;
    let mut done = Vec::with_capacity(alloc, lists.len()).ok()?;
    let (shared, seat) = Shared::new(alloc, tally).ok()?;
    let seat = hire(&shared, alloc, seat, lists, &mut workers);
    each_works(rt, &shared, workers.as_mut_slice());
    let seat = gather(&shared, seat, workers, &mut done);
    let tally = shared.close(seat);
    Some((tally, done))
}
