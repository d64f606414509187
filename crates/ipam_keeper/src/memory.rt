//! A keeper in memory, whose calls fail if its maker says so.

ghost use Rattle.std.specs.Prelude.{◌≡◌, ◌↔◌, ℕ, ◌+◌, ◌<◌, ◌≤◌, ◌==◌, ◌⊎◌, Some, option_map, IfOk, OnOk, OnErr, IsTrue, IsErrOf, MatchResult, fold, vec_len, vec_capacity};
ghost use Rattle.std.specs.List.{list_any};
ghost use Rattle.ipam_data.specs.RowList.{Rises, placed};
ghost use Rattle.stored_tables.specs.Stored.{row_place, next_place, without_stored, changed, stored_version};
ghost use Rattle.stored_tables.specs.Order.{AreTables};
ghost use Rattle.ipam_keeper.specs.Keeping.{Rose, IsTold};
ghost use Rattle.ipam_keeper.specs.Memory.{is_failing, counted, holding};

use crate::keeper::{KeepFault, Keeper};
use crate::places::{cut_all, put_all};
use ipam_data::kinds::Kind;
use ipam_data::update::Ids;
use std::alloc::{AllocError, Global};
use std::marker::Model;
use stored_tables::tables::{Change, Row, Rows, Tables};

/// A keeper in memory. Its tables are known. Its calls are counted from 0, and those whose numbers it was given fail.
///
/// A contract sees the tables, the numbers of the calls that fail, how many calls there were, and how many of them failed.
#[derive(Drop)]
pub struct MemoryKeeper {
    version: u32,
    next: Vec<(Kind, u32)>,
    rows: Vec<Row>,
    fails: Vec<u32>,
    calls: u64,
    faults: u64,
}

impl Model for MemoryKeeper {
    ghost use Rattle.std.specs.Prelude.{◌≤◌};
    ghost use Rattle.ipam_data.specs.RowList.{Rises};
    ghost use Rattle.stored_tables.specs.Stored.{row_place, next_place};
    ghost use Rattle.ipam_keeper.specs.Memory.{Held};

    ghost Value = { Held };

    ghost view = { λ k. record { tables = record { version = k.version; next = k.next.items; rows = k.rows.items }; fails = k.fails.items; calls = k.calls; faults = k.faults } };

    ghost invariant = { λ k. Rises next_place 0 k.next.items × Rises row_place 0 k.rows.items × (k.faults ≤ k.calls) };
}

/// Whether a call of this number is among those that fail.
fn is_listed(fails: &[u32], call: u64) -> bool
    ensures listed { result ≡ list_any (λ n. n == call) fails.now }
    ensures low { IsTrue result → call < 4294967296 }
{
    fails.iter().any(|n| *n as u64 == call)
}

/// The same ids again.
fn copy_next(next: &Vec<(Kind, u32)>) -> Result<Ids, AllocError>
    ensures { IfOk result (λ i. i ≡ next.now.items) }
{
    let mut items = Vec::new(*next.allocator());
    items.extend_from_slice(next.as_slice())?;
    Ok(Ids::of(items))
}

/// The same rows again.
fn copy_rows(rows: &Vec<Row>) -> Result<Rows, AllocError>
    ensures { IfOk result (λ r. r ≡ rows.now.items) }
{
    let mut items = Vec::with_capacity(*rows.allocator(), rows.len())?;
    for row in rows {
        items.push(row.copy()?)?;
    }
    Ok(Rows::of(items))
}

impl MemoryKeeper {
    /// A keeper of these tables, of whose calls those of these numbers fail. It takes no memory.
    pub fn new(tables: Tables, fails: Vec<u32>) -> MemoryKeeper
        requires { AreTables tables }
        ensures { result ≡ record { tables = tables; fails = fails.items; calls = 0; faults = 0 } }
    {
        MemoryKeeper {
            version: tables.version,
            next: tables.next.into_vec(),
            rows: tables.rows.into_vec(),
            fails,
            calls: 0,
            faults: 0,
        }
    }

    /// How many of its calls failed.
    pub fn faults(&self) -> u64
        ensures { result ≡ self.now.faults }
    {
        self.faults
    }

    /// The tables that it keeps, in order. It takes no memory.
    pub fn into_tables(self) -> Tables
        ensures tables { result ≡ self.tables }
        ensures order { AreTables result }
    {
        Tables {
            version: self.version,
            next: Ids::of(self.next),
            rows: Rows::of(self.rows),
        }
    }

    /// Counts a call, and says whether it fails.
    fn begin(&mut self) -> bool
        ensures fails { result ≡ is_failing self.old }
        ensures counted { self.new ≡ counted self.old }
    {
        let fails = is_listed(self.fails.as_slice(), self.calls);
        if fails {
            self.faults += 1;
        }
        self.calls = self.calls.saturating_add(1);
        fails
    }

    /// Keeps these tables in place of its own. `Err` means out of memory, and leaves its own.
    fn keep(&mut self, tables: &Tables) -> Result<(), AllocError>
        requires { AreTables tables.now }
        ensures ok { OnOk result (self.new ≡ holding self.old tables.now) }
        ensures err { OnErr result (self.new ≡ self.old) }
    {
        let copy = tables.copy(*self.next.allocator())?;
        self.version = copy.version;
        self.next = copy.next.into_vec();
        self.rows = copy.rows.into_vec();
        Ok(())
    }

    /// Makes a change. `Err` means out of memory, and leaves the tables.
    fn change(&mut self, change: &Change) -> Result<(), AllocError>
        ensures ok { OnOk result (self.new ≡ holding self.old (changed change.now self.old.tables)) }
        ensures err { OnErr result (self.new ≡ self.old) }
    {
        let puts = change.puts.copy()?.into_vec();
        let next = change.next.copy(*self.next.allocator())?.into_vec();
        self.rows.reserve(puts.len())?;
        self.next.reserve(next.len())?;
        put_all(&mut self.rows, puts);
        cut_all(&mut self.rows, change.cuts.as_slice());
        put_all(&mut self.next, next);
        Ok(())
    }
}

impl Keeper for MemoryKeeper {
    ghost told = { λ k. Some k.tables };

    ghost faults = { λ k. k.faults };

    /// The tables that it keeps. `Failed` is returned exactly if the call's number was given, and the count rises in those calls
    /// alone, by one.
    fn load(&mut self) -> Result<Tables, KeepFault>
        ensures told { IfOk result (λ tables. self.old.tables ≡ tables) }
        ensures order { IfOk result (λ tables. AreTables tables) }
        ensures stays { Some self.new.tables ≡ Some self.old.tables }
        ensures later { self.old.faults ≤ self.new.faults }
        ensures failed { IsErrOf result KeepFault.Failed → Rose self.old.faults self.new.faults }
        ensures still { IsErrOf result KeepFault.Failed ⊎ (self.new.faults ≡ self.old.faults) }
        ensures fails { IsErrOf result KeepFault.Failed ↔ IsTrue (is_failing self.old) }
        ensures counted { self.new ≡ counted self.old }
    {
        if self.begin() {
            return Err(KeepFault::Failed);
        }
        Ok(Tables {
            version: self.version,
            next: copy_next(&self.next)?,
            rows: copy_rows(&self.rows)?,
        })
    }

    /// Makes a change, whole or not at all. `Failed` is returned exactly if the call's number was given, and the count rises in those
    /// calls alone, by one.
    fn apply(&mut self, change: &Change) -> Result<(), KeepFault>
        ensures ok { OnOk result (Some self.new.tables ≡ Some (changed change.now self.old.tables)) }
        ensures err { OnErr result (Some self.new.tables ≡ Some self.old.tables) }
        ensures later { self.old.faults ≤ self.new.faults }
        ensures failed { IsErrOf result KeepFault.Failed → Rose self.old.faults self.new.faults }
        ensures still { IsErrOf result KeepFault.Failed ⊎ (self.new.faults ≡ self.old.faults) }
        ensures fails { IsErrOf result KeepFault.Failed ↔ IsTrue (is_failing self.old) }
        ensures held { MatchResult result (λ done. self.new ≡ holding (counted self.old) (changed change.now self.old.tables)) (λ fault. self.new ≡ counted self.old) }
    {
        if self.begin() {
            return Err(KeepFault::Failed);
        }
        self.change(change)?;
        Ok(())
    }

    /// Keeps these tables in place of its own, whole or not at all. `Failed` is returned exactly if the call's number was given, and
    /// the count rises in those calls alone, by one.
    fn upgrade(&mut self, tables: &Tables) -> Result<(), KeepFault>
        requires version { tables.now.version ≡ stored_version }
        requires order { AreTables tables.now }
        ensures ok { OnOk result (Some self.new.tables ≡ Some tables.now) }
        ensures err { OnErr result (Some self.new.tables ≡ Some self.old.tables) }
        ensures later { self.old.faults ≤ self.new.faults }
        ensures failed { IsErrOf result KeepFault.Failed → Rose self.old.faults self.new.faults }
        ensures still { IsErrOf result KeepFault.Failed ⊎ (self.new.faults ≡ self.old.faults) }
        ensures fails { IsErrOf result KeepFault.Failed ↔ IsTrue (is_failing self.old) }
        ensures held { MatchResult result (λ done. self.new ≡ holding (counted self.old) tables.now) (λ fault. self.new ≡ counted self.old) }
    {
        if self.begin() {
            return Err(KeepFault::Failed);
        }
        self.keep(tables)?;
        Ok(())
    }
}
