//! Workers that claim at once, each by its own seat.

ghost use mathlib.Core.List.{IsPrefix};
ghost use Rattle.std.specs.Prelude.{◌≡◌, ◌≤◌, ◌+◌, ◌-◌, All, length, vec_capacity, [], true, sum_by};
ghost use Rattle.history_lock.specs.Replay.{own_entries};
ghost use Rattle.ipam_data.specs.State.{empty_state};
ghost use Rattle.command_load.specs.Dismissed.{HasDismissed};
ghost use Rattle.command_load.specs.Hired.{AllHaveClaimed, AreNumberedDown, HasClaimed, IsDone, IsHired, top_number};

use crate::claims::claim_share;
use crate::tally::Tally;
use history_lock::{Seat, Shared};
use ipam_keeper::keeper::Keeper;
use register_core::Register;
use std::alloc::Global;
use std::marker::{Send, Sync};
use std::sync::Wait;
use std::thread::{Threads, for_each_mut};

/// What claims its share of the addresses through one seat.
#[derive(Drop)]
pub struct Claimer<K: Keeper> {
    pub seat: Option<Seat<Register<K>>>,
    pub share: u32,
    pub tally: Tally,
}

/// One worker's claims.
fn work<R: Wait, K: Keeper>(
    rt: &R,
    alloc: Global,
    shared: &Shared<Register<K>>,
    claimer: &mut Claimer<K>,
)
    requires { IsHired shared.now claimer.old }
    ensures { HasClaimed claimer.old claimer.new }
{
    let Some(seat) = claimer.seat.take() else {
        unreachable!()
    };
    let (seat, tally) = claim_share(rt, alloc, shared, seat, claimer.share);
    claimer.tally = tally;
    claimer.seat = Some(seat);
}

/// All workers at once, each in its own thread; if no thread can be started they run one after another.
pub fn each_claims<R: Threads + Wait + Sync, K: Keeper + Send>(
    rt: &R,
    alloc: Global,
    shared: &Shared<Register<K>>,
    claimers: &mut [Claimer<K>],
)
    requires hired { All (IsHired shared.now) claimers.old }
    ensures claimed { AllHaveClaimed claimers.old claimers.new }
    ensures all { length claimers.new ≡ length claimers.old }
{
    let threads = claimers.len();
    if threads > 0 {
        for_each_mut(
            rt,
            claimers,
            threads,
            &|_, claimer: &mut Claimer<K>|
                requires { IsHired shared.now claimer.now }
                ensures { HasClaimed claimer.entry.now claimer.exit.now }
            { work(rt, alloc, shared, claimer) },
        );
    }
}

/// The first of so many shares of what is left: they are as equal as can be, the greater ones first.
fn share_of(left: u32, workers: u32) -> u32
    requires { 1 ≤ workers }
    ensures low { result ≤ left }
    ensures last { workers ≡ 1 → result ≡ left }
{
    left.div_ceil(workers)
}

/// Splits a seat off for each worker, and makes a worker of it with its share of so many claims.
pub fn hire<K: Keeper>(
    shared: &Shared<Register<K>>,
    seat: Seat<Register<K>>,
    count: u32,
    workers: u32,
    claimers: &mut Vec<Claimer<K>>,
) -> Seat<Register<K>>
    requires seat { (seat.lock ≡ shared.now) × (seat.weight ≡ 65536) × (seat.spare ≡ 65536) }
    requires first { (seat.number ≡ 0) × (seat.ended ≡ []) × (seat.opening.state ≡ empty_state true) }
    requires none_yet { claimers.old.items ≡ [] }
    requires few { (1 ≤ workers) × (workers ≤ 32) }
    requires room { workers ≤ vec_capacity claimers.old }
    ensures seat { (result.lock ≡ shared.now) × (result.weight + length claimers.new.items ≡ 65536) }
    ensures first { (result.number ≡ 0) × (result.ended ≡ []) × (result.opening.state ≡ empty_state true) × (result.seen ≡ seat.seen) }
    ensures hired { All (IsHired shared.now) claimers.new.items }
    ensures numbers { AreNumberedDown top_number claimers.new.items }
    ensures shares { sum_by (λ w. w.share) claimers.new.items ≡ count }
    ensures all { length claimers.new.items ≡ workers }
{
    let mut seat = seat;
    let mut left = count;
    for nth in 0..workers {
        let (rest, new) = shared.split(seat, 1);
        seat = rest;
        let share = share_of(left, workers - nth);
        left -= share;
        claimers.push_reserved(Claimer {
            seat: Some(new),
            share,
            tally: Tally::none(),
        });
    }
    seat
}

/// Whether a worker got its share, as all before it did.
fn is_whole(whole: bool, claimed: u32, share: u32) -> bool
    ensures { result ≡ true → (whole ≡ true) × (claimed ≡ share) }
{
    whole && claimed == share
}

/// Joins the workers' seats to the first one, and sums up what they claimed. Says whether each of them got its share.
pub fn dismiss<K: Keeper>(
    shared: &Shared<Register<K>>,
    seat: Seat<Register<K>>,
    claimers: Vec<Claimer<K>>,
) -> (Seat<Register<K>>, Tally, bool)
    requires seat { (seat.lock ≡ shared.now) × (seat.weight + length claimers.items ≡ 65536) }
    requires first { seat.ended ≡ [] }
    requires done { All (IsDone shared.now) claimers.items }
    requires numbers { AreNumberedDown top_number claimers.items }
    requires few { sum_by (λ w. w.share) claimers.items ≤ 100000 }
    ensures seat { (result.0.lock ≡ shared.now) × (result.0.weight ≡ 65536) × (result.0.number ≡ seat.number) × (result.0.opening ≡ seat.opening) }
    ensures own { own_entries seat.number result.0.seen ≡ own_entries seat.number seat.seen }
    ensures seen { IsPrefix seat.seen result.0.seen }
    ensures dismissed { HasDismissed result.2 (top_number + 1 - length claimers.items) (length claimers.items) result.0 result.1 }
    ensures whole { result.2 ≡ true → result.1.claimed ≡ sum_by (λ w. w.share) claimers.items }
{
    let mut seat = seat;
    let mut all = Tally::none();
    let mut whole = true;
    let mut left = claimers;
    while let Some(claimer) = left.pop() {
        let Claimer {
            seat: other,
            share,
            tally,
        } = claimer;
        let Some(other) = other else { unreachable!() };
        seat = shared.join(seat, other);
        all = all.and(tally);
        whole = is_whole(whole, tally.claimed, share);
    }
    left.destroy_empty();
    (seat, all, whole)
}
