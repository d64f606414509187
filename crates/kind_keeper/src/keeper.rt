//! The keeper.

ghost use Rattle.std.specs.Prelude.{◌≡◌, ℕ, Some, IfOk, OnOk, OnErr};
ghost use Rattle.stored_tables.specs.Stored.{changed};
ghost use Rattle.stored_tables.specs.Order.{AreTables, empty_tables as no_rows};

use crate::shelves::{copy_rows, cut_rows, empty_shelves, put_rows, reserve};
use ipam_data::kinds::Kind;
use ipam_data::update::Ids;
use ipam_keeper::empty::empty_tables;
use ipam_keeper::keeper::{KeepFault, Keeper};
use ipam_keeper::places::put_all;
use std::alloc::{AllocError, Global};
use std::marker::Model;
use stored_tables::tables::{Change, Row, Tables};

/// A keeper in memory whose tables are known, and which never fails. A row that is put moves those of its own kind after it.
///
/// A contract sees the tables.
#[derive(Drop)]
pub struct KindKeeper {
    version: u32,
    next: Vec<(Kind, u32)>,
    shelves: Vec<Vec<Row>>,
}

impl Model for KindKeeper {
    ghost use Rattle.ipam_data.specs.RowList.{Rises};
    ghost use Rattle.stored_tables.specs.declared.tables.Tables.{Tables as StoredTables};
    ghost use Rattle.stored_tables.specs.Stored.{next_place};
    ghost use Rattle.kind_keeper.specs.Shelves.{all_rows, AreShelves};

    ghost Value = { StoredTables };

    ghost view = { λ k. record { version = k.version; next = k.next.items; rows = all_rows k.shelves.items } };

    ghost invariant = { λ k. Rises next_place 0 k.next.items × AreShelves k.shelves.items };
}

impl KindKeeper {
    /// A keeper of empty tables. `Err` means out of memory.
    pub fn new(alloc: Global) -> Result<KindKeeper, AllocError>
        ensures { IfOk result (λ k. k ≡ no_rows) }
    {
        let tables = empty_tables(alloc)?;
        Ok(KindKeeper {
            version: tables.version,
            next: tables.next.into_vec(),
            shelves: empty_shelves(alloc)?,
        })
    }

    /// Keeps these tables in place of its own. `Err` means out of memory, and leaves its own.
    fn keep(&mut self, tables: &Tables) -> Result<(), AllocError>
        requires { AreTables tables.now }
        ensures ok { OnOk result (self.new ≡ tables.now) }
        ensures err { OnErr result (self.new ≡ self.old) }
    {
        let alloc = *self.next.allocator();
        let copy = tables.copy(alloc)?;
        let rows = copy.rows.into_vec();
        let mut shelves = empty_shelves(alloc)?;
        reserve(&mut shelves, rows.as_slice())?;
        put_rows(&mut shelves, rows);
        self.version = copy.version;
        self.next = copy.next.into_vec();
        self.shelves = shelves;
        Ok(())
    }

    /// Makes a change. `Err` means out of memory, and leaves the tables.
    fn change(&mut self, change: &Change) -> Result<(), AllocError>
        ensures ok { OnOk result (self.new ≡ changed change.now self.old) }
        ensures err { OnErr result (self.new ≡ self.old) }
    {
        let puts = change.puts.copy()?.into_vec();
        let next = change.next.copy(*self.next.allocator())?.into_vec();
        self.next.reserve(next.len())?;
        reserve(&mut self.shelves, puts.as_slice())?;
        put_rows(&mut self.shelves, puts);
        cut_rows(&mut self.shelves, change.cuts.as_slice());
        put_all(&mut self.next, next);
        Ok(())
    }
}

impl Keeper for KindKeeper {
    ghost told = { λ k. Some k };

    ghost faults = { λ k. 0 };

    /// The tables that it keeps. `Err` means out of memory alone.
    fn load(&mut self) -> Result<Tables, KeepFault> {
        let mut next = Vec::new(*self.next.allocator());
        next.extend_from_slice(self.next.as_slice())?;
        Ok(Tables {
            version: self.version,
            next: Ids::of(next),
            rows: copy_rows(&self.shelves)?,
        })
    }

    /// Makes a change, whole or not at all. `Err` means out of memory alone, and leaves the tables.
    fn apply(&mut self, change: &Change) -> Result<(), KeepFault> {
        self.change(change)?;
        Ok(())
    }

    /// Keeps these tables in place of its own, whole or not at all. `Err` means out of memory alone, and leaves its own.
    fn upgrade(&mut self, tables: &Tables) -> Result<(), KeepFault> {
        self.keep(tables)?;
        Ok(())
    }
}
