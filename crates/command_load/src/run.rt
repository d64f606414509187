//! The command.

ghost use Rattle.std.specs.Prelude.{◌≡◌, ◌≤◌, true, [], IfSome, length, vec_capacity};
ghost use Rattle.command_streams.specs.Streams.{told};
ghost use Rattle.ipam_data.specs.State.{empty_state};
ghost use Rattle.command_load.specs.LoadText.{load_figures};
ghost use Rattle.command_load.specs.AllClaims.{HasAllClaimed, IsLoaded};
ghost use Rattle.command_load.specs.Load.{IsLoad};

use crate::claims::{ask_figure, create};
use crate::figures::{Figures, write_figures};
use crate::load_outcome::{LoadOutcome, figures_of, load_outcome_of};
use crate::workers::{Claimer, dismiss, each_claims, hire};
use command_streams::{DONE, MEMORY, end_with};
use history_lock::{Seat, Shared};
use ipam_edge::Sink;
use ipam_keeper::empty::empty_tables;
use ipam_keeper::keeper::Keeper;
use ipam_keeper::memory::MemoryKeeper;
use register_core::{Register, Settings, begin};
use std::alloc::Global;
use std::marker::{Send, Sync};
use std::sync::Wait;
use std::thread::Threads;

/// A register in memory without rows, over a keeper that never fails. None for lack of memory.
fn empty_register(alloc: Global) -> Option<Register<MemoryKeeper>>
    ensures { IfSome result (λ r. (r.log ≡ []) × (r.opening ≡ empty_state true)) }
{
    match empty_tables(alloc) {
        Ok(tables) => {
            let keeper = MemoryKeeper::new(tables, Vec::new(alloc));
            let settings = Settings {
                global_unique: true,
            };
            Some(begin(alloc, keeper, settings))
        }
        Err(_) => None,
    }
}

/// Lets so many workers make so many claims at once, joins them to the first seat, and asks for the figure.
fn claim_all<R: Threads + Wait + Sync, K: Keeper + Send>(
    rt: &R,
    alloc: Global,
    shared: &Shared<Register<K>>,
    seat: Seat<Register<K>>,
    count: u32,
    workers: u32,
    claimers: Vec<Claimer<K>>,
) -> (Seat<Register<K>>, Option<LoadOutcome>)
    requires seat { (seat.lock ≡ shared.now) × (seat.weight ≡ 65536) × (seat.spare ≡ 65536) }
    requires first { (seat.number ≡ 0) × (seat.ended ≡ []) × (seat.opening.state ≡ empty_state true) }
    requires none_yet { claimers.items ≡ [] }
    requires few { (1 ≤ workers) × (workers ≤ 32) × (count ≤ 100000) }
    requires room { workers ≤ vec_capacity claimers }
    ensures seat { (result.0.lock ≡ shared.now) × (result.0.weight ≡ 65536) }
    ensures came { IfSome result.1 (λ came. HasAllClaimed count workers seat result.0 came) }
{
    let mut claimers = claimers;
    let seat = hire(shared, seat, count, workers, &mut claimers);
    each_claims(rt, alloc, shared, claimers.as_mut_slice());
    let (seat, tally, whole) = dismiss(shared, seat, claimers);
    let (seat, percent) = ask_figure(rt, shared, seat);
    (seat, load_outcome_of(tally, whole, percent))
}

/// Makes the prefix and the claims, and closes the lock.
fn load_shared<R: Threads + Wait + Sync, K: Keeper + Send>(
    rt: &R,
    alloc: Global,
    shared: Shared<Register<K>>,
    seat: Seat<Register<K>>,
    count: u32,
    workers: u32,
    claimers: Vec<Claimer<K>>,
) -> (Register<K>, Option<LoadOutcome>)
    requires seat { (seat.lock ≡ shared) × (seat.weight ≡ 65536) × (seat.spare ≡ 65536) }
    requires first { (seat.number ≡ 0) × (seat.ended ≡ []) × (seat.seen ≡ []) × (seat.opening.state ≡ empty_state true) }
    requires none_yet { claimers.items ≡ [] }
    requires few { (1 ≤ workers) × (workers ≤ 32) × (1 ≤ count) × (count ≤ 100000) }
    requires room { workers ≤ vec_capacity claimers }
    ensures { IfSome result.1 (λ came. IsLoaded count came (length result.0.log)) }
{
    let (seat, made) = create(rt, alloc, &shared, seat, count);
    if made {
        let (seat, came) = claim_all(rt, alloc, &shared, seat, count, workers, claimers);
        (shared.close(seat), came)
    } else {
        claimers.destroy_empty();
        (shared.close(seat), None)
    }
}

/// Makes the prefix and the claims on a register without rows, and says how it went. None for lack of memory.
fn load_register<R: Threads + Wait + Sync, K: Keeper + Send + Drop>(
    rt: &R,
    alloc: Global,
    register: Register<K>,
    count: u32,
    workers: u32,
    claimers: Vec<Claimer<K>>,
) -> Option<Figures>
    requires fresh { (register.log ≡ []) × (register.opening ≡ empty_state true) }
    requires none_yet { claimers.items ≡ [] }
    requires few { (1 ≤ workers) × (workers ≤ 32) × (1 ≤ count) × (count ≤ 100000) }
    requires room { workers ≤ vec_capacity claimers }
    ensures { IfSome result (λ f. f ≡ load_figures count) }
{
    match Shared::new(alloc, register) {
        Ok((shared, seat)) => {
            let (register, came) = load_shared(rt, alloc, shared, seat, count, workers, claimers);
            let entries = register.log().len() as u64;
            drop(register.into_keeper());
            figures_of(came?, entries)
        }
        Err(register) => {
            claimers.destroy_empty();
            drop(register.into_keeper());
            None
        }
    }
}

/// What so many claims by so many workers lead to. None for lack of memory.
fn load<R: Threads + Wait + Sync>(
    rt: &R,
    alloc: Global,
    count: u32,
    workers: u32,
) -> Option<Figures>
    requires { (1 ≤ count) × (count ≤ 100000) × (1 ≤ workers) × (workers ≤ 32) }
    ensures { IfSome result (λ f. f ≡ load_figures count) }
{
    match Vec::with_capacity(alloc, workers as usize) {
        Ok(claimers) => match empty_register(alloc) {
            Some(register) => load_register(rt, alloc, register, count, workers, claimers),
            None => {
                claimers.destroy_empty();
                None
            }
        },
        Err(_) => None,
    }
}

/// Runs `load`: opens a register in memory, makes one prefix, lets so many workers claim so many addresses of it, one by one, and prints
/// five lines on the outcome. Nothing is printed if memory runs out.
pub fn run_load<R: Threads + Wait + Sync, Si: Sink>(
    rt: &R,
    alloc: Global,
    count: u32,
    workers: u32,
    output: &mut Si,
) -> u8
    requires few { (1 ≤ count) × (count ≤ 100000) × (1 ≤ workers) × (workers ≤ 32) }
    ensures { IsLoad count workers (told Si.written Si.faults output.old) (told Si.written Si.faults output.new) result }
{
    let Some(figures) = load(rt, alloc, count, workers) else {
        return MEMORY;
    };
    let mut text = Vec::new(alloc);
    match write_figures(&figures, &mut text) {
        Ok(()) => end_with(output, text.as_slice(), DONE),
        Err(_) => MEMORY,
    }
}
