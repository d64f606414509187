//! An opener of keepers in memory.

ghost use Rattle.std.specs.Prelude.{◌≡◌, ℕ, ◌+◌, ◌<◌, ◌≤◌, ◌⊎◌, min, List, Some, None, option_copied, IfOk, OnOk, OnErr, IsErrOf, vec_len, vec_capacity};
ghost use Rattle.std.specs.List.{position};
ghost use Rattle.stored_tables.specs.Order.{AreTables, empty_tables as no_rows};
ghost use Rattle.ipam_keeper.specs.Keeping.{Rose, IsRaised, started, is_under, tables_at, IsReturned};
ghost use Rattle.ipam_keeper.specs.Opener.{AllTables, kept_at, returned, lending};

use crate::empty::empty_tables;
use crate::keeper::{KeepFault, KeeperOpener};
use crate::memory::MemoryKeeper;
use std::alloc::{AllocError, Global};
use std::marker::Model;
use stored_tables::tables::{Tables, Text};

/// An opener of keepers in memory. The tables under each path are known. Of two entries with one path the first counts.
///
/// A contract sees the tables, the numbers of the calls of each keeper that fail, the path of the keeper that is out, and how many
/// calls of the keepers that were given back had failed.
#[derive(Drop)]
pub struct MemoryOpener {
    stored: Vec<(Text, Tables)>,
    fails: Vec<u32>,
    lent: Option<Option<Text>>,
    faults: u64,
}

impl Model for MemoryOpener {
    ghost use Rattle.std.specs.Prelude.{vec_len, vec_capacity};
    ghost use Rattle.ipam_keeper.specs.Opener.{Opened, AllTables, HasRoomFor};

    ghost Value = { Opened };

    ghost view = { λ o. record { stored = o.stored.items; fails = o.fails.items; lent = o.lent; faults = o.faults } };

    ghost invariant = { λ o. AllTables o.stored.items × HasRoomFor o.lent (vec_len o.stored) (vec_capacity o.stored) };
}

/// The index of the first entry of a path.
fn found(stored: &[(Text, Tables)], path: &Text) -> Option<usize>
    ensures { result ≡ position (is_under path.now) stored.now }
{
    stored
        .iter()
        .position(|entry| entry.0.as_str() == path.as_str())
}

/// The tables under a path, again.
fn copy_under(alloc: Global, stored: &[(Text, Tables)], path: &Text) -> Result<Tables, AllocError>
    requires { AllTables stored.now }
    ensures tables { IfOk result (λ t. t ≡ tables_at stored.now path.now) }
    ensures order { IfOk result (λ t. AreTables t) }
{
    match found(stored, path) {
        Some(at) => stored[at].1.copy(alloc),
        None => empty_tables(alloc),
    }
}

/// Puts tables under a path, in the place of its first entry or else after all. It takes no memory.
fn keep_at(stored: &mut Vec<(Text, Tables)>, path: Text, tables: Tables)
    requires ordered { AllTables stored.old.items }
    requires tables { AreTables tables }
    requires room { vec_len stored.old < vec_capacity stored.old }
    ensures stored { stored.new.items ≡ kept_at stored.old.items path tables }
    ensures ordered { AllTables stored.new.items }
{
    match found(stored.as_slice(), &path) {
        Some(at) => {
            stored[at] = (path, tables);
        }
        None => stored.push_reserved((path, tables)),
    }
}

impl MemoryOpener {
    /// An opener over these tables under these paths, of each of whose keepers the calls of these numbers fail. It takes no memory.
    pub fn new(stored: Vec<(Text, Tables)>, fails: Vec<u32>) -> MemoryOpener
        requires { AllTables stored.items }
        ensures { result ≡ record { stored = stored.items; fails = fails.items; lent = None; faults = 0 } }
    {
        MemoryOpener {
            stored,
            fails,
            lent: None,
            faults: 0,
        }
    }

    /// How many calls of the keepers that were given back had failed, as far as the count goes.
    pub fn faults(&self) -> u64
        ensures { result ≡ self.now.faults }
    {
        self.faults
    }

    /// The numbers of the calls that fail, again.
    fn copy_fails(&self) -> Result<Vec<u32>, AllocError>
        ensures { IfOk result (λ v. v.items ≡ self.now.fails) }
    {
        let mut fails = Vec::new(*self.fails.allocator());
        fails.extend_from_slice(self.fails.as_slice())?;
        Ok(fails)
    }

    /// A keeper of empty tables.
    fn start_empty(&mut self) -> Result<MemoryKeeper, AllocError>
        ensures kept { IfOk result (λ k. k ≡ record { tables = no_rows; fails = self.old.fails; calls = 0; faults = 0 }) }
        ensures ok { OnOk result (self.new ≡ lending self.old None) }
        ensures err { OnErr result (self.new ≡ self.old) }
    {
        let tables = empty_tables(*self.fails.allocator())?;
        let fails = self.copy_fails()?;
        self.lent = Some(None);
        Ok(MemoryKeeper::new(tables, fails))
    }

    /// A keeper of the tables under a path.
    fn start_at(&mut self, path: &Text) -> Result<MemoryKeeper, AllocError>
        ensures kept { IfOk result (λ k. k ≡ record { tables = tables_at self.old.stored path.now; fails = self.old.fails; calls = 0; faults = 0 }) }
        ensures ok { OnOk result (self.new ≡ lending self.old (Some path.now)) }
        ensures err { OnErr result (self.new ≡ self.old) }
    {
        let tables = copy_under(*self.fails.allocator(), self.stored.as_slice(), path)?;
        let fails = self.copy_fails()?;
        let path = path.copy()?;
        self.stored.reserve(1)?;
        self.lent = Some(Some(path));
        Ok(MemoryKeeper::new(tables, fails))
    }
}

impl KeeperOpener for MemoryOpener {
    type Kept = MemoryKeeper;

    ghost stored = { λ o. Some o.stored };

    ghost lent = { λ o. o.lent };

    ghost faults = { λ o. o.faults };

    /// A keeper over the tables of this path, or over empty ones, of whose calls those of the numbers fail that the opener was
    /// given. It is refused for lack of memory alone.
    fn start(&mut self, path: Option<&Text>) -> Result<MemoryKeeper, KeepFault>
        ensures told { IfOk result (λ kept. Some kept.tables ≡ started (Some self.old.stored) (option_copied path.entry)) }
        ensures fresh { IfOk result (λ kept. kept.faults ≡ 0) }
        ensures stays { Some self.new.stored ≡ Some self.old.stored }
        ensures ok { OnOk result (self.new.lent ≡ Some (option_copied path.entry)) }
        ensures err { OnErr result (self.new.lent ≡ self.old.lent) }
        ensures later { self.old.faults ≤ self.new.faults }
        ensures failed { IsErrOf result KeepFault.Failed → Rose self.old.faults self.new.faults }
        ensures still { IsErrOf result KeepFault.Failed ⊎ (self.new.faults ≡ self.old.faults) }
        ensures never { ¬ IsErrOf result KeepFault.Failed }
        ensures fails { IfOk result (λ kept. (kept.fails ≡ self.old.fails) × (kept.calls ≡ 0)) }
        ensures same { self.new ≡ record { stored = self.old.stored; fails = self.old.fails; lent = self.new.lent; faults = self.old.faults } }
    {
        let kept = match path {
            None => self.start_empty(),
            Some(path) => self.start_at(path),
        };
        Ok(kept?)
    }

    /// Takes back the keeper that was started last: its tables are then those of its path, and all other paths are as before. It
    /// takes no memory. The count rises by the keeper's, or up to its last value.
    fn done(&mut self, kept: MemoryKeeper)
        ensures returned { IsReturned self.old.lent (Some kept.tables) (Some self.old.stored) (Some self.new.stored) }
        ensures lent { self.new.lent ≡ None }
        ensures raised { IsRaised self.old.faults kept.faults self.new.faults }
        ensures stored { self.new.stored ≡ returned self.old.stored self.old.lent kept.tables }
        ensures fails { self.new.fails ≡ self.old.fails }
    {
        self.faults = self.faults.saturating_add(kept.faults());
        match self.lent.take() {
            Some(Some(path)) => keep_at(&mut self.stored, path, kept.into_tables()),
            _ => {}
        }
    }
}
