//! Calls of one seat.

ghost use Rattle.std.specs.Prelude.{◌≡◌, ◌+◌, ◌≤◌, ℕ, true, [], ◌∷◌, Some, IfSome, min, max};
ghost use Rattle.history_lock.specs.Seats.{IsSameSeat};
ghost use Rattle.command_load.specs.LoadText.{load_len as len_of};
ghost use Rattle.history_lock.specs.Replay.{replay};
ghost use Rattle.ipam_data.specs.declared.replies.Reply.TheVariants.{Percent};
ghost use Rattle.register_core.specs.Machines.{seen_step};
ghost use Rattle.command_load.specs.Claims.{creation_of, figure_call};
ghost use Rattle.command_load.specs.Hired.{Notes, last_of_v4};

use crate::calls::{claim, claimed, creation, figure, is_made, percentage};
use crate::tally::{LAST, Tally};
use history_lock::{Seat, Shared};
use ipam_keeper::keeper::Keeper;
use register_core::Register;
use std::alloc::Global;
use std::sync::Wait;

/// Makes the prefix for so many claims. It was not made if memory ran out.
pub fn create<R: Wait, K: Keeper>(
    rt: &R,
    alloc: Global,
    shared: &Shared<Register<K>>,
    seat: Seat<Register<K>>,
    count: u32,
) -> (Seat<Register<K>>, bool)
    requires lock { seat.lock ≡ shared.now }
    requires first { (seat.weight ≡ 65536) × (seat.seen ≡ []) }
    ensures same { IsSameSeat seat result.0 }
    ensures made { result.1 ≡ true → result.0.seen ≡ (seat.number, creation_of (len_of count)) ∷ [] }
{
    let Some(call) = creation(alloc, count) else {
        return (seat, false);
    };
    let (seat, reply, _) = shared.call(rt, seat, call);
    let made = is_made(&reply);
    drop(reply);
    (seat, made)
}

/// The number if it is one of an address of IPv4.
fn of_v4(number: Option<u128>) -> Option<u128>
    ensures { IfSome result (λ value. (number ≡ Some value) × (value ≤ last_of_v4)) }
{
    match number {
        Some(value) => { if value <= LAST { Some(value) } else { None } }
        None => None,
    }
}

/// Claims one address. It got none if memory ran out.
fn claim_one<R: Wait, K: Keeper>(
    rt: &R,
    alloc: Global,
    shared: &Shared<Register<K>>,
    seat: Seat<Register<K>>,
) -> (Seat<Register<K>>, Option<u128>)
    requires { seat.lock ≡ shared.now }
    ensures same { IsSameSeat seat result.0 }
    ensures noted { (claimed least greatest : ℕ) → Notes seat claimed least greatest
        → IfSome result.1 (λ value. Notes result.0 (claimed + 1) (min least value) (max greatest value)) }
{
    let Some(call) = claim(alloc) else {
        return (seat, None);
    };
    let (seat, reply, _) = shared.call(rt, seat, call);
    let got = of_v4(claimed(&reply));
    drop(reply);
    (seat, got)
}

/// Claims so many addresses, one by one, or fewer if memory runs out.
pub fn claim_share<R: Wait, K: Keeper>(
    rt: &R,
    alloc: Global,
    shared: &Shared<Register<K>>,
    seat: Seat<Register<K>>,
    share: u32,
) -> (Seat<Register<K>>, Tally)
    requires { seat.lock ≡ shared.now }
    ensures same { IsSameSeat seat result.0 }
    ensures noted { Notes seat 0 last_of_v4 0 → result.1.claimed ≡ share → Notes result.0 result.1.claimed result.1.least result.1.greatest }
    ensures few { result.1.claimed ≤ share }
{
    let mut seat = seat;
    let mut tally = Tally::none();
    for _ in 0..share {
        let (rest, got) = claim_one(rt, alloc, shared, seat);
        seat = rest;
        let Some(value) = got else {
            return (seat, tally);
        };
        tally = tally.with(value);
    }
    (seat, tally)
}

/// How much of the prefix is used. None if memory ran out.
pub fn ask_figure<R: Wait, K: Keeper>(
    rt: &R,
    shared: &Shared<Register<K>>,
    seat: Seat<Register<K>>,
) -> (Seat<Register<K>>, Option<u8>)
    requires lock { seat.lock ≡ shared.now }
    requires alone { seat.weight ≡ 65536 }
    ensures same { IsSameSeat seat result.0 }
    ensures asked { IfSome result.1 (λ p. (result.0.seen ≡ seat.seen) × ((seen_step (replay seen_step seat.opening seat.seen) figure_call).1 ≡ Percent p)) }
{
    let (seat, reply, _) = shared.call(rt, seat, figure());
    let percent = percentage(&reply);
    drop(reply);
    (seat, percent)
}
