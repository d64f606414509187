//! A keeper of pools in memory, whose calls fail if its maker says so.

ghost use Rattle.std.specs.Prelude.{◌≡◌, ◌↔◌, ℕ, ◌+◌, ◌<◌, ◌≤◌, ◌==◌, ◌⊎◌, Some, option_map, IfOk, OnOk, OnErr, IsTrue, IsErrOf, MatchResult, vec_len, vec_capacity};
ghost use Rattle.std.specs.List.{list_any};
ghost use Rattle.ipam_keeper.specs.Keeping.{Rose};
ghost use Rattle.pool_keeper.specs.Stored.{changed, without_first};
ghost use Rattle.pool_keeper.specs.Keeping.{IsTold};
ghost use Rattle.pool_keeper.specs.Memory.{is_failing, counted, holding};

use crate::keeper::PoolKeeper;
use crate::rows::{change_member, change_range, cut_member, cut_range, push_all};
use crate::tables::{
    PoolChange, PoolTables, copy_members, copy_one_member, copy_one_range, copy_ranges,
};
use ipam_keeper::keeper::KeepFault;
use number_pools::{Listed, Member, NumberRange};
use std::alloc::AllocError;
use std::marker::Model;

/// A keeper of pools in memory. Its tables are known. Its calls are counted from 0, and those whose numbers it was given fail.
///
/// A contract sees the tables, the numbers of the calls that fail, how many calls there were, and how many of them failed.
#[derive(Drop)]
pub struct MemoryPools {
    next_range: u32,
    next_member: u32,
    ranges: Vec<NumberRange>,
    members: Vec<Member>,
    fails: Vec<u32>,
    calls: u64,
    faults: u64,
}

impl Model for MemoryPools {
    ghost use Rattle.std.specs.Prelude.{◌≤◌};
    ghost use Rattle.pool_keeper.specs.Memory.{Held};

    ghost Value = { Held };

    ghost view = { λ k. record { tables = record { next_range = k.next_range; next_member = k.next_member; ranges = k.ranges.items; members = k.members.items }; fails = k.fails.items; calls = k.calls; faults = k.faults } };

    ghost invariant = { λ k. k.faults ≤ k.calls };
}

/// Whether a call of this number is among those that fail.
fn is_listed(fails: &[u32], call: u64) -> bool
    ensures listed { result ≡ list_any (λ n. n == call) fails.now }
    ensures low { IsTrue result → call < 4294967296 }
{
    fails.iter().any(|n| *n as u64 == call)
}

impl MemoryPools {
    /// A keeper of these tables, of whose calls those of these numbers fail. It takes no memory.
    pub fn new(tables: PoolTables, fails: Vec<u32>) -> MemoryPools
        ensures { result ≡ record { tables = tables; fails = fails.items; calls = 0; faults = 0 } }
    {
        MemoryPools {
            next_range: tables.next_range,
            next_member: tables.next_member,
            ranges: tables.ranges.into_vec(),
            members: tables.members.into_vec(),
            fails,
            calls: 0,
            faults: 0,
        }
    }

    /// How many of its calls failed.
    pub fn faults(&self) -> u64
        ensures { result ≡ self.now.faults }
    {
        self.faults
    }

    /// The tables that it keeps. It takes no memory.
    pub fn into_tables(self) -> PoolTables
        ensures { result ≡ self.tables }
    {
        PoolTables {
            next_range: self.next_range,
            next_member: self.next_member,
            ranges: Listed::of(self.ranges),
            members: Listed::of(self.members),
        }
    }

    /// Counts a call, and says whether it fails.
    fn begin(&mut self) -> bool
        ensures fails { result ≡ is_failing self.old }
        ensures counted { self.new ≡ counted self.old }
    {
        let fails = is_listed(self.fails.as_slice(), self.calls);
        if fails {
            self.faults += 1;
        }
        self.calls = self.calls.saturating_add(1);
        fails
    }

    /// Makes a change. `Err` means out of memory, and leaves the tables.
    fn change(&mut self, change: &PoolChange) -> Result<(), AllocError>
        ensures ok { OnOk result (self.new ≡ holding self.old (changed change.now self.old.tables)) }
        ensures err { OnErr result (self.new ≡ self.old) }
    {
        let alloc = *self.fails.allocator();
        let ranges = copy_ranges(alloc, change.new_ranges.as_slice())?;
        let members = copy_members(alloc, change.new_members.as_slice())?;
        let range = copy_one_range(&change.changed_range)?;
        let member = copy_one_member(&change.changed_member)?;
        self.ranges.reserve(ranges.len())?;
        self.members.reserve(members.len())?;
        cut_range(&mut self.ranges, change.cut_range);
        cut_member(&mut self.members, change.cut_member);
        change_range(&mut self.ranges, range);
        change_member(&mut self.members, member);
        push_all(&mut self.ranges, ranges);
        push_all(&mut self.members, members);
        self.next_range = change.next_range;
        self.next_member = change.next_member;
        Ok(())
    }
}

impl PoolKeeper for MemoryPools {
    ghost told = { λ k. Some k.tables };

    ghost faults = { λ k. k.faults };

    /// The tables that it keeps. `Failed` is returned exactly if the call's number was given, and the count rises in those calls
    /// alone, by one.
    fn load(&mut self) -> Result<PoolTables, KeepFault>
        ensures told { IfOk result (λ tables. self.old.tables ≡ tables) }
        ensures stays { Some self.new.tables ≡ Some self.old.tables }
        ensures later { self.old.faults ≤ self.new.faults }
        ensures failed { IsErrOf result KeepFault.Failed → Rose self.old.faults self.new.faults }
        ensures still { IsErrOf result KeepFault.Failed ⊎ (self.new.faults ≡ self.old.faults) }
        ensures fails { IsErrOf result KeepFault.Failed ↔ IsTrue (is_failing self.old) }
        ensures counted { self.new ≡ counted self.old }
    {
        if self.begin() {
            return Err(KeepFault::Failed);
        }
        let alloc = *self.fails.allocator();
        Ok(PoolTables {
            next_range: self.next_range,
            next_member: self.next_member,
            ranges: Listed::of(copy_ranges(alloc, self.ranges.as_slice())?),
            members: Listed::of(copy_members(alloc, self.members.as_slice())?),
        })
    }

    /// Makes a change, whole or not at all. `Failed` is returned exactly if the call's number was given, and the count rises in those
    /// calls alone, by one.
    fn apply(&mut self, change: &PoolChange) -> Result<(), KeepFault>
        ensures ok { OnOk result (Some self.new.tables ≡ Some (changed change.now self.old.tables)) }
        ensures err { OnErr result (Some self.new.tables ≡ Some self.old.tables) }
        ensures later { self.old.faults ≤ self.new.faults }
        ensures failed { IsErrOf result KeepFault.Failed → Rose self.old.faults self.new.faults }
        ensures still { IsErrOf result KeepFault.Failed ⊎ (self.new.faults ≡ self.old.faults) }
        ensures fails { IsErrOf result KeepFault.Failed ↔ IsTrue (is_failing self.old) }
        ensures held { MatchResult result (λ done. self.new ≡ holding (counted self.old) (changed change.now self.old.tables)) (λ fault. self.new ≡ counted self.old) }
    {
        if self.begin() {
            return Err(KeepFault::Failed);
        }
        self.change(change)?;
        Ok(())
    }
}
