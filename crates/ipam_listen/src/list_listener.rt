//! A listener in memory, over a list of lanes: for tests of what is built on it.
ghost use Rattle.std.specs.Prelude.{◌≡◌, true, false, ◌<◌, ◌≤◌, ◌+◌, ◌++◌, ◌∷◌, ◌↔◌, min, nat_lt, All, IfOk, IfSome, IsErr, MatchResult, OnErr, [], is_err, if◌then◌else◌, length, map, vec_len, vec_capacity};
ghost use Rattle.ipam_listen.specs.Connections.{RisesExactly, binding};
ghost use Rattle.ipam_listen.specs.ListLanes.{lane_told};

use crate::list_lane::ListLane;
use crate::listener::Listener;
use ipam_edge::Failed;
use std::alloc::{AllocError, Global};

/// A listener over a list of lanes in memory. All of it is known.
#[derive(Drop)]
pub struct ListListener {
    waiting: Vec<ListLane>,
    back: Vec<ListLane>,
    place: Vec<u8>,
    bound: u32,
    lanes: u64,
    faults: u64,
    has_no_place: bool,
    ghost room: { vec_len waiting + lanes ≤ vec_capacity back },
    ghost fewer: { vec_len back ≤ lanes },
    ghost fresh: { All (λ l. lane_told l ≡ []) waiting.items },
}

impl ListListener {
    ghost use Rattle.ipam_listen.specs.ListListeners.{listener_waiting, listener_returned, listener_binding, listener_lanes, listener_faults};

    /// A listener that hands out these lanes in order; a `lane` past the last of them fails. None of them has handed out a connection
    /// before. It takes the memory for all that `give_back` takes in here, and none later.
    pub fn new(alloc: Global, lanes: Vec<ListLane>) -> Result<ListListener, AllocError>
        requires { All (λ l. lane_told l ≡ []) lanes.items }
        ensures waiting { IfOk result (λ l. listener_waiting l ≡ lanes.items) }
        ensures returned { IfOk result (λ l. listener_returned l ≡ []) }
        ensures bound { IfOk result (λ l. listener_binding l ≡ binding [] 0) }
        ensures lanes { IfOk result (λ l. listener_lanes l ≡ 0) }
        ensures faults { IfOk result (λ l. listener_faults l ≡ 0) }
        ensures place { IfOk result (λ l. l.has_no_place ≡ false) }
    {
        let back = Vec::with_capacity(alloc, lanes.len())?;
        let mut waiting = lanes;
        waiting.reverse();
        Ok(ListListener {
            waiting,
            back,
            place: Vec::new(alloc),
            bound: 0,
            lanes: 0,
            faults: 0,
            has_no_place: false,
        })
    }

    /// A listener that can be bound to no place, and has no lanes. It takes no memory.
    pub fn nowhere(alloc: Global) -> ListListener
        ensures waiting { listener_waiting result ≡ [] }
        ensures returned { listener_returned result ≡ [] }
        ensures bound { listener_binding result ≡ binding [] 0 }
        ensures lanes { listener_lanes result ≡ 0 }
        ensures faults { listener_faults result ≡ 0 }
        ensures place { result.has_no_place ≡ true }
    {
        ListListener {
            waiting: Vec::new(alloc),
            back: Vec::new(alloc),
            place: Vec::new(alloc),
            bound: 0,
            lanes: 0,
            faults: 0,
            has_no_place: true,
        }
    }

    /// The lanes that were given back, in that order.
    pub fn returned(&self) -> &[ListLane]
        ensures { result.now ≡ listener_returned self.now }
    {
        self.back.as_slice()
    }
}

impl Listener for ListListener {
    ghost use Rattle.std.specs.Prelude.{Some};
    ghost use Rattle.std.proofs.Common.{rules};
    ghost use Rattle.ipam_listen.specs.Back.{read_within};
    ghost use Rattle.ipam_listen.specs.ListLanes.{lane_accepts, lane_faults};
    ghost use Rattle.ipam_listen.specs.ListListeners.{IsHandedLane, listener_waiting, listener_returned, listener_binding, listener_lanes, listener_faults, returned_lane};

    type Door = ListLane;

    ghost bound = { λ l. listener_binding l };

    ghost lanes = { λ l. listener_lanes l };

    ghost returned = { λ l. map returned_lane (listener_returned l) };

    ghost faults = { λ l. listener_faults l };

    fn bind(&mut self, at: Vec<u8>, connections: u32) -> Result<(), Failed>
        ensures bound { MatchResult result (λ _. listener_binding self.new ≡ binding at.items connections) (λ _. listener_binding self.new ≡ listener_binding self.old) }
        ensures lanes { listener_lanes self.new ≡ listener_lanes self.old }
        ensures returned { map returned_lane (listener_returned self.new) ≡ map returned_lane (listener_returned self.old) }
        ensures cause { RisesExactly (IsErr result) (listener_faults self.old) (listener_faults self.new) }

        // It fails exactly if it is one that has no place.
        ensures fails { IsErr result ↔ (self.old.has_no_place ≡ true) }
        ensures waiting { listener_waiting self.new ≡ listener_waiting self.old }
        ensures kept { listener_returned self.new ≡ listener_returned self.old }
        ensures counted { listener_faults self.new ≡ (if is_err result then min (listener_faults self.old + 1) u64.MAX else listener_faults self.old) }
    {
        if self.has_no_place {
            self.faults = self.faults.saturating_add(1);
            return Err(Failed);
        }
        self.place = at;
        self.bound = connections;
        Ok(())
    }

    fn lane(&mut self) -> Result<ListLane, Failed>
        ensures fresh { IfOk result (λ lane. (lane_accepts lane ≡ (listener_binding self.old).connections) × IfSome (Some (lane_told lane)) (λ connections. connections ≡ [])) }
        ensures lanes { MatchResult result (λ _. listener_lanes self.new ≡ listener_lanes self.old + 1) (λ _. listener_lanes self.new ≡ listener_lanes self.old) }
        ensures bound { listener_binding self.new ≡ listener_binding self.old }
        ensures returned { map returned_lane (listener_returned self.new) ≡ map returned_lane (listener_returned self.old) }
        ensures cause { RisesExactly (IsErr result) (listener_faults self.old) (listener_faults self.new) }

        // It fails exactly if no lane waits, and else hands out the first of those that wait.
        ensures fails { IsErr result ↔ (listener_waiting self.old ≡ []) }
        ensures handed { IfOk result (λ lane. IsHandedLane self.old self.new lane) }
        ensures waiting { OnErr result (listener_waiting self.new ≡ listener_waiting self.old) }
        ensures kept { listener_returned self.new ≡ listener_returned self.old }
        ensures counted { listener_faults self.new ≡ (if is_err result then min (listener_faults self.old + 1) u64.MAX else listener_faults self.old) }
    {
        match self.waiting.pop() {
            Some(lane) => {
                self.lanes += 1;
                Ok(lane.with_accepts(self.bound))
            }
            None => {
                self.faults = self.faults.saturating_add(1);
                Err(Failed)
            }
        }
    }

    fn give_back(&mut self, lane: ListLane)
        requires out { length (map returned_lane (listener_returned self.old)) < listener_lanes self.old }
        ensures returned { map returned_lane (listener_returned self.new) ≡ map returned_lane (listener_returned self.old) ++ returned_lane lane ∷ [] }
        ensures lanes { listener_lanes self.new ≡ listener_lanes self.old }
        ensures bound { listener_binding self.new ≡ listener_binding self.old }
        ensures cause { RisesExactly (0 < lane_faults lane) (listener_faults self.old) (listener_faults self.new) }

        // The lane itself comes last among those that were given back.
        ensures back { listener_returned self.new ≡ listener_returned self.old ++ lane ∷ [] }
        ensures waiting { listener_waiting self.new ≡ listener_waiting self.old }
        ensures counted { listener_faults self.new ≡ (if nat_lt 0 (lane_faults lane) then min (listener_faults self.old + 1) u64.MAX else listener_faults self.old) }
    {
        if lane.faults() > 0 {
            self.faults = self.faults.saturating_add(1);
        }
        self.back.push_reserved(lane);
    }

    ghost no_more_back = { λ l. read_within returned_lane l.back.items l.lanes (let fewer = l.fewer in Prim.search (rules, fewer)) };
}
