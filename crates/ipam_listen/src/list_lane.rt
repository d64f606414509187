//! A lane in memory, over a list of connections: for tests of what is built on it.
ghost use Rattle.std.specs.Prelude.{◌≡◌, ◌<◌, ◌≤◌, ◌+◌, ◌-◌, ◌^◌, ◌++◌, ◌↔◌, ◌⊎◌, min, Contains, IsTrue, IsErr, IfOk, IfSome, Some, [], map, is_err, if◌then◌else◌, option_copied, option_map, vec_len, vec_capacity};
ghost use Rattle.ipam_listen.specs.Connections.{IsLastOut, IsNoneExactly, RisesExactly, last_finished, told_after_accept};

use crate::lane::Lane;
use ipam_edge::{BytesSink, BytesSource, Failed};
use std::alloc::{AllocError, Global};
use std::snapshot::Snapshot;

/// Whether the call's number is among the numbers.
fn is_among(numbers: &[u32], call: u64) -> bool
    ensures { IsTrue result ↔ Contains numbers.now call }
{
    numbers.iter().any(|number| u64::from(*number) == call)
}

/// A connection that was handed out: as it was then, and itself once it is finished.
#[derive(Drop)]
pub struct Handed {
    was: Snapshot<(BytesSource, BytesSink)>,
    is: Option<(BytesSource, BytesSink)>,
}

/// A lane over a list of connections in memory. All of it is known.
#[derive(Drop)]
pub struct ListLane {
    waiting: Vec<(BytesSource, BytesSink)>,
    handed: Vec<Handed>,
    fails: Vec<u32>,
    accepts: u32,
    calls: u64,
    faults: u64,
    ghost room: { vec_len waiting + vec_len handed ≤ vec_capacity handed },
}

impl ListLane {
    ghost use Rattle.ipam_listen.specs.ListLanes.{connection_of, lane_waiting, lane_told, lane_fails, lane_accepts, lane_calls, lane_faults};

    /// A lane that hands out these connections in order, and accepts as many; an accept past the last of them fails. `fails` has the
    /// numbers of the accepts that fail, counted from 0. It takes the memory for all of them here, and none later.
    pub fn new(
        alloc: Global,
        pairs: Vec<(BytesSource, BytesSink)>,
        fails: Vec<u32>,
    ) -> Result<ListLane, AllocError>
        requires few { vec_len pairs < 2 ^ 32 }
        ensures waiting { IfOk result (λ l. lane_waiting l ≡ pairs.items) }
        ensures told { IfOk result (λ l. lane_told l ≡ []) }
        ensures fails { IfOk result (λ l. lane_fails l ≡ fails.items) }
        ensures accepts { IfOk result (λ l. lane_accepts l ≡ vec_len pairs) }
        ensures calls { IfOk result (λ l. lane_calls l ≡ 0) }
        ensures faults { IfOk result (λ l. lane_faults l ≡ 0) }
    {
        let handed = Vec::with_capacity(alloc, pairs.len())?;
        let accepts = pairs.len() as u32;
        let mut waiting = pairs;
        waiting.reverse();
        Ok(ListLane {
            waiting,
            handed,
            fails,
            accepts,
            calls: 0,
            faults: 0,
        })
    }

    /// The lane with so many accepts left, and else as it was.
    pub(crate) fn with_accepts(self, accepts: u32) -> ListLane
        ensures { result ≡ record self { accepts = accepts } }
    {
        let mut lane = self;
        lane.accepts = accepts;
        lane
    }

    /// How many accepts failed.
    pub fn faults(&self) -> u64
        ensures { result ≡ lane_faults self.now }
    {
        self.faults
    }

    /// How many accepts are left.
    pub fn accepts(&self) -> u32
        ensures { result ≡ lane_accepts self.now }
    {
        self.accepts
    }

    /// The connections that were handed out, in order.
    pub fn handed(&self) -> &[Handed]
        ensures { map connection_of result.now ≡ lane_told self.now }
    {
        self.handed.as_slice()
    }

    /// Counts a failed accept.
    fn fail<T>(&mut self) -> Result<T, Failed>
        ensures counted { self.new ≡ record self.old { faults = min (self.old.faults + 1) u64.MAX } }
        ensures cause { RisesExactly (IsErr result) self.old.faults self.new.faults }
        ensures fails { IsErr result }
    {
        self.faults = self.faults.saturating_add(1);
        Err(Failed)
    }
}

impl Handed {
    ghost use Rattle.ipam_listen.specs.ListLanes.{connection_of, ends_of_pair};

    /// The connection as it was taken back, if it was.
    pub fn finished(&self) -> Option<&(BytesSource, BytesSink)>
        ensures { option_map ends_of_pair (option_copied result) ≡ (connection_of self.now).after }
    {
        self.is.as_ref()
    }
}

impl Lane for ListLane {
    ghost use Rattle.ipam_listen.specs.ListLanes.{KeepsLane, ends_of_pair, handed_by, lane_waiting, lane_told, lane_fails, lane_accepts, lane_calls, lane_faults};

    type In = BytesSource;

    type Out = BytesSink;

    ghost told = { λ l. Some (lane_told l) };

    ghost accepts = { λ l. lane_accepts l };

    ghost faults = { λ l. lane_faults l };

    fn accept(&mut self) -> Result<Option<(BytesSource, BytesSink)>, Failed>
        ensures none { IsNoneExactly (lane_accepts self.old) result }
        ensures spends { lane_accepts self.new ≡ lane_accepts self.old - 1 }
        ensures told { Some (lane_told self.new) ≡ told_after_accept (λ source sink. ends_of_pair (source, sink)) (Some (lane_told self.old)) result }
        ensures cause { RisesExactly (IsErr result) (lane_faults self.old) (lane_faults self.new) }

        // The first of the pairs that wait is handed out; an accept that fails keeps it for the next one.
        ensures waiting { lane_waiting self.old ≡ handed_by result ++ lane_waiting self.new }

        // If an accept is left, it fails exactly if its number is one of those given, or no pair waits.
        ensures fails { IsErr result ↔ ((0 < lane_accepts self.old) × (Contains (lane_fails self.old) (lane_calls self.old) ⊎ (lane_waiting self.old ≡ []))) }
        ensures counted { lane_faults self.new ≡ (if is_err result then min (lane_faults self.old + 1) u64.MAX else lane_faults self.old) }
        ensures numbered { lane_calls self.new ≡ min (lane_calls self.old + 1) u64.MAX }
        ensures kept { lane_fails self.new ≡ lane_fails self.old }
    {
        let call = self.calls;
        self.calls = self.calls.saturating_add(1);
        if self.accepts == 0 {
            return Ok(None);
        }
        self.accepts -= 1;
        if is_among(&self.fails, call) {
            return self.fail();
        }
        match self.waiting.pop() {
            Some(pair) => {
                self.handed.push_reserved(Handed {
                    was: Snapshot::of(&pair),
                    is: None,
                });
                Ok(Some(pair))
            }
            None => self.fail(),
        }
    }

    fn has_failed(&self) -> bool {
        self.faults > 0
    }

    fn finish(&mut self, source: BytesSource, sink: BytesSink)
        requires out { IfSome (Some (lane_told self.old)) IsLastOut }
        ensures told { Some (lane_told self.new) ≡ option_map (λ connections. last_finished connections (ends_of_pair (source, sink))) (Some (lane_told self.old)) }
        ensures accepts { lane_accepts self.new ≡ lane_accepts self.old }
        ensures faults { lane_faults self.new ≡ lane_faults self.old }

        // What waits and what was chosen stays.
        ensures kept { KeepsLane self.old self.new }
    {
        let Some(last) = self.handed.pop() else {
            unreachable!()
        };
        let Handed { was, is: _ } = last;
        self.handed.push_reserved(Handed {
            was,
            is: Some((source, sink)),
        });
    }
}
