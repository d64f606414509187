//! A machine over a keeper of one's choice, which cannot be dropped, and which contracts see as one value.
ghost use Rattle.std.specs.Prelude.{◌≡◌, ◌⊎◌, ◌^◌, ◌<◌, ◌≤◌, [], length, ℕ, List, true, false};
ghost use Rattle.history_lock.specs.Machines.{last_count};
ghost use Rattle.history_lock.specs.Replay.{replay};
ghost use Rattle.lock_trial.specs.Marks.{MarkerView, IsMarked, mark_step, marking_kind_of, is_marked};

use history_lock::Machine;
use std::alloc::Global;
use std::marker::Model;

/// What a marker hands each mark to first. It may fail.
pub trait Keeper {
    /// How many of its calls failed.
    ghost faults: { Self → ℕ };

    /// Whether the mark was kept.
    fn keep(&mut self, mark: u64) -> bool
        ensures never_falls { faults self.old ≤ faults self.new }
        ensures counted { result ≡ false → (faults self.old < faults self.new) ⊎ (last_count ≤ faults self.new) }
        ensures stays { (result ≡ false) ⊎ (faults self.new ≡ faults self.old) };
}

/// A keeper that fails in one call of one's choice.
#[derive(Drop)]
pub struct FailsOnce {
    left: u64,
    faults: u64,
}

impl FailsOnce {
    /// A keeper that keeps `before` marks and then fails once.
    pub fn new(before: u64) -> FailsOnce
        ensures { result.faults ≡ 0 }
    {
        FailsOnce {
            left: before,
            faults: 0,
        }
    }

    /// How many calls failed. It stays at the last value of a u64.
    pub fn faults(&self) -> u64
        ensures { result ≡ self.now.faults }
    {
        self.faults
    }
}

impl Keeper for FailsOnce {
    ghost faults = { λ k. k.faults };

    fn keep(&mut self, mark: u64) -> bool {
        let _ = mark;
        if self.left == 0 {
            self.left = u64::MAX;
            self.faults = self.faults.saturating_add(1);
            return false;
        }
        self.left -= 1;
        true
    }
}

/// A marker's reply.
#[derive(Clone, Copy)]
pub enum Marking {
    /// The mark was made.
    Marked,
    /// The keeper failed. No mark was made.
    Failed,
    /// There was no memory for one more mark. None was made.
    NoMemory,
}

/// The last mark that was made, with the list of all. It has no `Drop`: whoever has one ends it by `into_marks`.
pub struct Marker<K: Keeper> {
    keeper: K,
    last: u64,
    marks: Vec<(u32, u64)>,
}

impl<K: Keeper> Model for Marker<K> {
    ghost use Rattle.lock_trial.specs.Marks.{MarkerView, IsMarked};

    ghost Value = { MarkerView };

    ghost view = { λ m. record { last = m.last; marks = m.marks.items; faults = K.faults m.keeper } };

    ghost invariant = { λ m. IsMarked m.last m.marks.items };
}

impl<K: Keeper> Marker<K> {
    /// A marker without marks.
    pub fn new(alloc: Global, keeper: K) -> Marker<K>
        ensures { result ≡ record { last = 0; marks = []; faults = K.faults keeper } }
    {
        Marker {
            keeper,
            last: 0,
            marks: Vec::new(alloc),
        }
    }

    /// The keeper, and all marks, each with its caller's number, from the first.
    pub fn into_marks(self) -> (K, Vec<(u32, u64)>)
        ensures { (result.1.items ≡ self.marks) × (K.faults result.0 ≡ self.faults) }
    {
        let Marker {
            keeper,
            last: _,
            marks,
        } = self;
        (keeper, marks)
    }
}

impl<K: Keeper> Machine for Marker<K> {
    type Call = u64;

    type Reply = Marking;

    type Said = u64;

    type Answer = Marking;

    type State = u64;

    ghost said = { λ c. c };

    ghost answer = { λ r. r };

    ghost kind = { marking_kind_of };

    ghost fallible = { is_marked };

    ghost takes = { λ c. Unit {0} };

    ghost blank = { 0 };

    ghost opening = { λ m. 0 };

    ghost state = { λ m. m.last };

    ghost log = { λ m. m.marks };

    ghost faults = { λ m. m.faults };

    ghost step = { mark_step };

    fn act(&mut self, who: u32, mark: u64) -> Marking {
        if self.marks.len() >= 1 << 62 || self.marks.reserve(1).is_err() {
            return Marking::NoMemory;
        }
        if !self.keeper.keep(mark) {
            return Marking::Failed;
        }
        self.marks.push_reserved((who, mark));
        self.last = mark;
        Marking::Marked
    }

    fn entries(&self) -> u64 {
        self.marks.len() as u64
    }
}
