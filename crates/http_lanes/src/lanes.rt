//! One worker over the connections of its lane.
ghost use Rattle.std.specs.Prelude.{option_map, ◌≡◌, ◌≤◌, ◌<◌, [], IfSome};
ghost use Rattle.ipam_listen.specs.Connections.{Ends, IsLastOut, ends_of, last_finished};
ghost use Rattle.http_lanes.specs.Served.{HasServed, IsServed};

use http_session::{Desk, serve};
use ipam_edge::Failed;
use ipam_listen::{Gate, Lane};
use std::alloc::Global;

/// Serves one connection, between the two calls of the gate, and gives it back to its lane.
fn serve_connection<D: Desk, A: Lane, G: Gate>(
    alloc: Global,
    handler: &D,
    seat: D::Seat,
    lane: &mut A,
    pair: (A::In, A::Out),
    gate: &G,
    who: u32,
    nth: u32,
) -> D::Seat
    requires out { IfSome (A.told lane.old) IsLastOut }
    ensures served { (after : Ends)
        × IsServed D.may (ends_of (A.In.left pair.0) (A.Out.written pair.1) (A.In.faults pair.0) (A.Out.faults pair.1)) after (D.view seat) (D.view result)
        × (A.told lane.new ≡ option_map (λ connections. last_finished connections after) (A.told lane.old)) }
    ensures accepts { A.accepts lane.new ≡ A.accepts lane.old }
    ensures faults { A.faults lane.new ≡ A.faults lane.old }
{
    let (mut source, mut sink) = pair;
    gate.before(who, nth);
    let (seat, _) = serve(alloc, handler, seat, &mut source, &mut sink);
    gate.after(who, nth);
    lane.finish(source, sink);
    seat
}

/// Serves the connections of a lane, one after another, until no accept is left. An accept that failed is spent, and the next one is made.
/// The gate is given the worker's number and how many connections it served before.
pub fn serve_lane<D: Desk, A: Lane, G: Gate>(
    alloc: Global,
    handler: &D,
    seat: D::Seat,
    lane: &mut A,
    gate: &G,
    who: u32,
) -> D::Seat
    requires fresh { IfSome (A.told lane.old) (λ connections. connections ≡ []) }
    ensures served { HasServed D.may (D.view seat) (D.view result) (A.told lane.new) }
    ensures none_left { A.accepts lane.new ≡ 0 }
    ensures later { A.faults lane.old ≤ A.faults lane.new }
{
    let mut seat = seat;
    let mut nth: u32 = 0;
    loop {
        match lane.accept() {
            Ok(None) => return seat,
            Ok(Some(pair)) => {
                seat = serve_connection(alloc, handler, seat, lane, pair, gate, who, nth);
                nth = nth.saturating_add(1);
            }
            Err(Failed) => {}
        }
    }
}
