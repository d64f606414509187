//! Threads that mark under one lock, for any keeper.
ghost use Rattle.std.specs.Prelude.{◌≡◌, ◌≤◌, All, IsSome, Some};
ghost use Rattle.lock_trial.specs.Hands.{IsSeated};

use crate::marker::{Keeper, Marker};
use history_lock::{Seat, Shared};
use std::sync::Wait;
use std::sync::atomic::{AtomicU64, Ordering};
use std::thread::{Threads, for_each_mut};

/// A caller of a marker, with the mark that it is to make.
struct Hand<K: Keeper> {
    seat: Option<Seat<Marker<K>>>,
    mark: u64,
}

/// Says that it has called, and marks.
fn mark<R: Wait, K: Keeper>(rt: &R, lock: &Shared<Marker<K>>, came: &AtomicU64, hand: &mut Hand<K>)
    requires { IsSeated lock.now hand.old.seat }
    ensures { IsSeated lock.now hand.new.seat }
{
    let Some(seat) = hand.seat.take() else {
        unreachable!()
    };
    came.fetch_add(1, Ordering::SeqCst);
    let (seat, _, _) = lock.call(rt, seat, hand.mark);
    hand.seat = Some(seat);
}

fn seat_of<K: Keeper>(hand: Hand<K>) -> Seat<Marker<K>>
    requires { IsSome hand.seat }
    ensures { hand.seat ≡ Some result }
{
    let Hand { seat, mark: _ } = hand;
    match seat {
        Some(seat) => seat,
        None => unreachable!(),
    }
}

/// Each hand marks, in its own thread.
fn each_marks<R: Threads + Wait + Sync, K: Keeper + Send>(
    rt: &R,
    lock: &Shared<Marker<K>>,
    came: &AtomicU64,
    hands: &mut [Hand<K>],
)
    requires { All (λ h. IsSeated lock.now h.seat) hands.old }
    ensures { All (λ h. IsSeated lock.now h.seat) hands.new }
{
    let threads = hands.len();
    if threads > 0 {
        for_each_mut(
            rt,
            hands,
            threads,
            &|_, hand: &mut Hand<K>|
                requires { IsSeated lock.now hand.now.seat }
                ensures { IsSeated lock.entry.now hand.exit.now.seat }
            { mark(rt, lock, came, hand) },
        );
    }
}

/// Two threads mark under one lock, each by a seat with half of the weight. The marker's keeper may be any. Each thread adds 1
/// to `came` before it calls.
pub fn mark_at_once<R: Threads + Wait + Sync, K: Keeper + Send>(
    rt: &R,
    lock: &Shared<Marker<K>>,
    seat: Seat<Marker<K>>,
    marks: [u64; 2],
    came: &AtomicU64,
) -> Seat<Marker<K>>
    requires { (seat.lock ≡ lock.now) × (seat.weight ≡ 65536) × (seat.spare ≡ 65536) }
    ensures { (result.lock ≡ lock.now) × (result.weight ≡ 65536) × (32768 ≤ result.spare) }
{
    let [first, second] = marks;
    let (left, right) = lock.split(seat, 32_768);
    let mut hands = [
        Hand {
            seat: Some(left),
            mark: first,
        },
        Hand {
            seat: Some(right),
            mark: second,
        },
    ];
    each_marks(rt, lock, came, &mut hands);
    let [left, right] = hands;
    lock.join(seat_of(left), seat_of(right))
}
