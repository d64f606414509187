//! A machine that adds, and fails at a number of one's choice.
ghost use Rattle.std.specs.Prelude.{◌≡◌, ◌^◌, ◌<◌, [], length, ℕ, List};
ghost use Rattle.history_lock.specs.Replay.{replay};
ghost use Rattle.lock_trial.specs.Adds.{add_step, kind_of, is_accepted};

use crate::calls::{Call, Reply};
use history_lock::Machine;
use std::alloc::Global;

/// A sum that begins at 0, with the list of what was added, and a count of the calls that failed.
#[derive(Drop)]
pub struct Tally {
    value: u64,
    log: Vec<(u32, Call)>,
    faults: u64,
    unlucky: u64,
    ghost kept: { value ≡ replay add_step 0 log.items },
    ghost few: { length log.items < 2 ^ 63 },
}

impl Tally {
    /// A tally at 0 that fails wherever it is to add `unlucky`.
    pub fn new(alloc: Global, unlucky: u64) -> Tally
        ensures { (result.log.items ≡ []) × (result.faults ≡ 0) }
    {
        Tally {
            value: 0,
            log: Vec::new(alloc),
            faults: 0,
            unlucky,
        }
    }

    /// The sum.
    pub fn value(&self) -> u64
        ensures { result ≡ replay add_step 0 self.now.log.items }
    {
        self.value
    }

    /// How many calls failed. It stays at the last value of a u64.
    pub fn faults(&self) -> u64
        ensures { result ≡ self.now.faults }
    {
        self.faults
    }

    /// The calls that were accepted, each with its caller's number, from the first.
    pub fn log(&self) -> &[(u32, Call)]
        ensures { result.now ≡ self.now.log.items }
    {
        self.log.as_slice()
    }
}

impl Machine for Tally {
    type Call = Call;

    type Reply = Reply;

    type Said = Call;

    type Answer = Reply;

    type State = u64;

    ghost said = { λ c. c };

    ghost answer = { λ r. r };

    ghost kind = { kind_of };

    ghost fallible = { is_accepted };

    ghost takes = { λ c. Unit {0} };

    ghost blank = { 0 };

    ghost opening = { λ m. 0 };

    ghost state = { λ m. m.value };

    ghost log = { λ m. m.log.items };

    ghost faults = { λ m. m.faults };

    ghost step = { add_step };

    fn act(&mut self, who: u32, call: Call) -> Reply {
        let more = match call {
            Call::Add(more) => more,
            Call::Read => return Reply::Value(self.value),
        };
        if more == self.unlucky {
            self.faults = self.faults.saturating_add(1);
            return Reply::Fault;
        }
        if self.log.len() >= 1 << 62 || self.log.reserve(1).is_err() {
            return Reply::NoMemory;
        }
        let Tally { value, log, .. } = self;
        log.push_reserved((who, call));
        *value = value.wrapping_add(more);
        Reply::Added(*value)
    }

    fn entries(&self) -> u64 {
        self.log.len() as u64
    }
}
