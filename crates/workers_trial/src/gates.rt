//! Sessions of two workers at once, and one after another, as a gate sees them.
ghost use Rattle.std.specs.Prelude.{◌≡◌, [], IfOk};
ghost use Rattle.ipam_listen.specs.ListLanes.{lane_told};

use crate::registers::locked;
use crate::serving::{serve_alone, serve_at_once};
use history_lock::{Seat, Shared};
use ipam_edge::{BytesSink, BytesSource};
use ipam_keeper::memory::MemoryKeeper;
use ipam_listen::{Gate, ListLane};
use register_core::Register;
use std::alloc::{AllocError, Global};
use std::marker::Sync;
use std::sync::Wait;
use std::sync::atomic::{AtomicU32, Ordering};
use std::test::Fail;
use std::thread::{Threads, yield_now};

/// How often a worker looks at most whether the other one's session has ended, if the two run at once.
const TURNS: u32 = 1_000_000;

/// The same if they run in turn, and so the other one's session can't end meanwhile.
const FEW_TURNS: u32 = 10;

/// What the first client asks: a prefix, and an address of the prefix 1, whichever that is.
const FIRST: &str = "\
POST /api/ipam/prefixes/ HTTP/1.1\r\nHost: ipam\r\nContent-Length: 24\r\n\r\n{\"prefix\":\"10.1.0.0/24\"}\
POST /api/ipam/prefixes/1/available-ips/ HTTP/1.1\r\nHost: ipam\r\nContent-Length: 2\r\n\r\n{}";

/// What the second one asks: another prefix, and an address of the same one.
const SECOND: &str = "\
POST /api/ipam/prefixes/ HTTP/1.1\r\nHost: ipam\r\nContent-Length: 24\r\n\r\n{\"prefix\":\"10.2.0.0/24\"}\
POST /api/ipam/prefixes/1/available-ips/ HTTP/1.1\r\nHost: ipam\r\nContent-Length: 2\r\n\r\n{}";

/// A gate that holds each of two workers until the other's session has ended: the one that comes first before its session, and the other
/// one after its own. It counts how often one gave up.
#[derive(Drop)]
struct Meets {
    came: AtomicU32,
    ended: AtomicU32,
    gave_up: AtomicU32,
    turns: u32,
}

impl Meets {
    fn new(turns: u32) -> Meets {
        Meets {
            came: AtomicU32::new(0),
            ended: AtomicU32::new(0),
            gave_up: AtomicU32::new(0),
            turns,
        }
    }

    /// Holds a worker until so many sessions have ended, or for as many turns as it may.
    fn hold(&self, wanted: u32) {
        for _ in 0..self.turns {
            if self.ended.load(Ordering::SeqCst) >= wanted {
                return;
            }
            yield_now();
        }
        self.gave_up.fetch_add(1, Ordering::SeqCst);
    }

    /// How often a worker gave up.
    fn given_up(&self) -> u32 {
        self.gave_up.load(Ordering::SeqCst)
    }
}

impl Gate for Meets {
    fn before(&self, who: u32, nth: u32) {
        let _ = (who, nth);
        if self.came.fetch_add(1, Ordering::SeqCst) == 0 {
            self.hold(1);
        }
    }

    fn after(&self, who: u32, nth: u32) {
        let _ = (who, nth);
        self.ended.fetch_add(1, Ordering::SeqCst);
        self.hold(2);
    }
}

/// A lane with one connection, which asks for this.
fn lane_of(alloc: Global, asked: &str) -> Result<ListLane, AllocError>
    ensures { IfOk result (λ l. lane_told l ≡ []) }
{
    let bytes = Vec::from_slice(alloc, asked.as_bytes())?;
    let source = BytesSource::new(bytes, Vec::new(alloc), 1000);
    let sink = BytesSink::new(alloc, Vec::new(alloc), 1000, 4096)?;
    let mut pairs = Vec::new(alloc);
    pairs.push((source, sink))?;
    ListLane::new(alloc, pairs, Vec::new(alloc))
}

/// Which of two sessions comes first, or both at once.
#[derive(Clone, Copy)]
enum Order {
    AtOnce,
    LeftFirst,
    RightFirst,
}

/// Serves a lane, and then another one.
fn serve_in_turn<R: Threads + Wait + Sync>(
    rt: &R,
    alloc: Global,
    shared: &Shared<Register<MemoryKeeper>>,
    first: (Seat<Register<MemoryKeeper>>, ListLane),
    second: (Seat<Register<MemoryKeeper>>, ListLane),
    gate: &Meets,
) -> Result<(), AllocError>
    requires lock { (first.0.lock ≡ shared.now) × (second.0.lock ≡ shared.now) }
    requires none_told { (lane_told first.1 ≡ []) × (lane_told second.1 ≡ []) }
{
    serve_alone(rt, alloc, shared, first.0, first.1, gate)?;
    serve_alone(rt, alloc, shared, second.0, second.1, gate)
}

/// Serves two lanes in an order. Says what was written if they are served at once.
fn serve_in_order<R: Threads + Wait + Sync>(
    rt: &R,
    alloc: Global,
    shared: &Shared<Register<MemoryKeeper>>,
    seats: (Seat<Register<MemoryKeeper>>, Seat<Register<MemoryKeeper>>),
    lanes: (ListLane, ListLane),
    gate: &Meets,
    order: Order,
    told: &mut String,
) -> Result<(), AllocError>
    requires lock { (seats.0.lock ≡ shared.now) × (seats.1.lock ≡ shared.now) }
    requires none_told { (lane_told lanes.0 ≡ []) × (lane_told lanes.1 ≡ []) }
{
    let left = (seats.0, lanes.0);
    let right = (seats.1, lanes.1);
    match order {
        Order::AtOnce => {
            serve_at_once(
                rt,
                alloc,
                shared,
                (left.0, right.0),
                (left.1, right.1),
                gate,
                told,
            )
        }
        Order::LeftFirst => serve_in_turn(rt, alloc, shared, left, right, gate),
        Order::RightFirst => serve_in_turn(rt, alloc, shared, right, left, gate),
    }
}

/// Serves two lanes in an order, over its own register.
fn serve_new<R: Threads + Wait + Sync>(
    rt: &R,
    alloc: Global,
    lanes: (ListLane, ListLane),
    gate: &Meets,
    order: Order,
    told: &mut String,
) -> Result<(), AllocError>
    requires { (lane_told lanes.0 ≡ []) × (lane_told lanes.1 ≡ []) }
{
    let (shared, seat) = locked(alloc)?;
    let seats = shared.split(seat, 1);
    let served = serve_in_order(rt, alloc, &shared, seats, lanes, gate, order, told);
    drop(shared);
    served
}

/// How often a worker looks at most in an order.
fn turns_in(order: Order) -> u32 {
    match order {
        Order::AtOnce => TURNS,
        _ => FEW_TURNS,
    }
}

/// How often a worker gave up if two sessions run in an order.
fn given_up<R: Threads + Wait + Sync>(
    rt: &R,
    alloc: Global,
    order: Order,
    told: &mut String,
) -> Result<u32, AllocError> {
    let gate = Meets::new(turns_in(order));
    let lanes = (lane_of(alloc, FIRST)?, lane_of(alloc, SECOND)?);
    serve_new(rt, alloc, lanes, &gate, order, told)?;
    Ok(gate.given_up())
}

/// How often a part occurs in a text.
fn times<'a>(text: &'a str, part: &'a str) -> usize {
    text.split(part).count().saturating_sub(1)
}

#[test]
fn two_sessions_run_at_once(rt: HostRuntime) -> Result<(), Fail> {
    let mut told = String::new(rt.alloc());
    let at_once = given_up(&rt, rt.alloc(), Order::AtOnce, &mut told)?;
    assert_eq!(rt; at_once, 0);
    assert_eq!(rt;
        times(told.as_str(), "HTTP/1.1 201 Created\r\n"),
        4,
        "{told}"
    );
    Ok(())
}

#[test]
fn two_sessions_run_one_after_another(rt: HostRuntime) -> Result<(), Fail> {
    let mut told = String::new(rt.alloc());
    let left_first = given_up(&rt, rt.alloc(), Order::LeftFirst, &mut told)?;
    let right_first = given_up(&rt, rt.alloc(), Order::RightFirst, &mut told)?;
    assert!(rt; left_first > 0);
    assert!(rt; right_first > 0);
    Ok(())
}
