//! A keeper of tables in a SQLite file.

ghost use Rattle.std.specs.Prelude.{◌≡◌, ℕ, ◌≤◌, ◌⊎◌, None, option_map, IfOk, OnOk, OnErr, IsErrOf};
ghost use Rattle.stored_tables.specs.Stored.{changed};
ghost use Rattle.stored_tables.specs.Order.{AreTables};
ghost use Rattle.ipam_keeper.specs.Keeping.{Rose, IsTold};
ghost use Rattle.sqlite_calls.specs.Counting.{IsCounted};

use crate::loading::load_tables;
use crate::storing::{Statements, prepare, store};
use crate::upgrading::upgrade;
use ipam_keeper::keeper::{KeepFault, Keeper};
use sqlite::{Alter, Connection};
use sqlite_calls::{StoreFault, refused};
use std::alloc::Global;
use std::marker::Model;
use stored_tables::tables::{Change, Tables};

/// A keeper of tables in a SQLite file, each change one transaction, which is stored before it is answered. Nothing is known of what
/// the file holds. A contract sees how often it failed, as far as the count goes.
#[derive(Drop)]
pub struct SqliteKeeper<S: Alter> {
    alloc: Global,
    conn: Connection<S>,
    statements: Option<Statements>,
    faults: u64,
}

impl<S: Alter> Model for SqliteKeeper<S> {
    ghost use Rattle.std.specs.Prelude.{ℕ};

    ghost Value = { ℕ };

    ghost view = { λ k. k.faults };
}

impl<S: Alter> SqliteKeeper<S> {
    /// A keeper over a connection that is open. It takes no memory, and reads and writes nothing.
    pub fn adopt(alloc: Global, conn: Connection<S>) -> SqliteKeeper<S>
        ensures { result ≡ 0 }
    {
        SqliteKeeper {
            alloc,
            conn,
            statements: None,
            faults: 0,
        }
    }

    /// How often it failed, as far as the count goes.
    pub fn faults(&self) -> u64
        ensures { result ≡ self.now }
    {
        self.faults
    }

    /// The connection again.
    pub fn into_connection(self) -> Connection<S> {
        self.conn
    }

    /// Stores a change; before the first one the statements are prepared.
    fn change(&mut self, change: &Change) -> Result<(), StoreFault>
        ensures { self.new ≡ self.old }
    {
        let statements = match self.statements.take() {
            Some(statements) => statements,
            None => prepare(self.alloc, &mut self.conn)?,
        };
        let stored = store(self.alloc, &mut self.conn, &statements, change);
        self.statements = Some(statements);
        stored
    }

    /// Puts tables in the place of those of an older version. The statements that were prepared are of those.
    fn put_anew(&mut self, tables: &Tables) -> Result<(), StoreFault>
        ensures { self.new ≡ self.old }
    {
        let _older = self.statements.take();
        upgrade(self.alloc, &mut self.conn, tables)
    }
}

impl<S: Alter> Keeper for SqliteKeeper<S> {
    ghost told = { λ k. None };

    ghost faults = { λ k. k };

    /// The tables of the file, which are made if it has none. `Failed` is returned if the file can't be read or written, has tables
    /// and no version, has an id or a next id that is not from 0 to 4,294,967,295, or rows out of order; each time it is returned
    /// the count rises by one.
    fn load(&mut self) -> Result<Tables, KeepFault>
        ensures order { IfOk result (λ tables. AreTables tables) }
        ensures later { self.old ≤ self.new }
        ensures failed { IsErrOf result KeepFault.Failed → Rose self.old self.new }
        ensures still { IsErrOf result KeepFault.Failed ⊎ (self.new ≡ self.old) }
        ensures counted { IsCounted result self.old self.new }
    {
        match load_tables(self.alloc, &mut self.conn) {
            Ok(tables) => Ok(tables),
            Err(fault) => Err(refused(&mut self.faults, fault)),
        }
    }

    /// Stores a change in one transaction. `Failed` is returned if the file can't be written; each time it is returned the count rises by
    /// one.
    fn apply(&mut self, change: &Change) -> Result<(), KeepFault>
        ensures later { self.old ≤ self.new }
        ensures failed { IsErrOf result KeepFault.Failed → Rose self.old self.new }
        ensures still { IsErrOf result KeepFault.Failed ⊎ (self.new ≡ self.old) }
        ensures counted { IsCounted result self.old self.new }
    {
        match self.change(change) {
            Ok(()) => Ok(()),
            Err(fault) => Err(refused(&mut self.faults, fault)),
        }
    }

    /// Drops the table of ranges, makes it anew, fills it and sets the version, in one transaction. `Failed` is returned if the file can't
    /// be written; each time it is returned the count rises by one.
    fn upgrade(&mut self, tables: &Tables) -> Result<(), KeepFault>
        ensures later { self.old ≤ self.new }
        ensures failed { IsErrOf result KeepFault.Failed → Rose self.old self.new }
        ensures still { IsErrOf result KeepFault.Failed ⊎ (self.new ≡ self.old) }
        ensures counted { IsCounted result self.old self.new }
    {
        match self.put_anew(tables) {
            Ok(()) => Ok(()),
            Err(fault) => Err(refused(&mut self.faults, fault)),
        }
    }
}
