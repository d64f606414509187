//! A keeper of pools in a SQLite file.

ghost use Rattle.std.specs.Prelude.{◌≡◌, ℕ, ◌≤◌, ◌⊎◌, None, option_map, IfOk, OnOk, OnErr, IsErrOf};
ghost use Rattle.ipam_keeper.specs.Keeping.{Rose};
ghost use Rattle.pool_keeper.specs.Stored.{changed};
ghost use Rattle.pool_keeper.specs.Keeping.{IsTold};
ghost use Rattle.sqlite_calls.specs.Counting.{IsCounted};

use crate::loading::load_tables;
use crate::storing::{Statements, prepare, store};
use ipam_keeper::keeper::KeepFault;
use pool_keeper::keeper::PoolKeeper;
use pool_keeper::tables::{PoolChange, PoolTables};
use sqlite::{Alter, Connection};
use sqlite_calls::{StoreFault, refused};
use std::alloc::Global;
use std::marker::Model;

/// A keeper of pools in a SQLite file, each change one transaction, which is durable before it is answered. Nothing is known of what
/// the file holds. A contract sees how often it failed, as far as the count goes.
#[derive(Drop)]
pub struct SqlitePools<S: Alter> {
    alloc: Global,
    conn: Connection<S>,
    statements: Option<Statements>,
    faults: u64,
}

impl<S: Alter> Model for SqlitePools<S> {
    ghost use Rattle.std.specs.Prelude.{ℕ};

    ghost Value = { ℕ };

    ghost view = { λ k. k.faults };
}

impl<S: Alter> SqlitePools<S> {
    /// A keeper over a connection that is open. It takes no memory, and reads and writes nothing.
    pub fn adopt(alloc: Global, conn: Connection<S>) -> SqlitePools<S>
        ensures { result ≡ 0 }
    {
        SqlitePools {
            alloc,
            conn,
            statements: None,
            faults: 0,
        }
    }

    /// How often it failed, as far as the count goes.
    pub fn faults(&self) -> u64
        ensures { result ≡ self.now }
    {
        self.faults
    }

    /// The connection again.
    pub fn into_connection(self) -> Connection<S> {
        self.conn
    }

    /// Stores a change; before the first one the statements are prepared.
    fn change(&mut self, change: &PoolChange) -> Result<(), StoreFault>
        ensures { self.new ≡ self.old }
    {
        let statements = match self.statements.take() {
            Some(statements) => statements,
            None => prepare(&mut self.conn)?,
        };
        let stored = store(&mut self.conn, &statements, change);
        self.statements = Some(statements);
        stored
    }
}

impl<S: Alter> PoolKeeper for SqlitePools<S> {
    ghost told = { λ k. None };

    ghost faults = { λ k. k };

    /// The tables of the file, which are made if it has none. `Failed` is returned if the file can't be read or written, has
    /// tables that are not those of pools, an id or another number that is not from 0 to 4,294,967,295, or a kind that is neither
    /// `asn` nor `vlan`; each time it is returned the count rises by one.
    fn load(&mut self) -> Result<PoolTables, KeepFault>
        ensures later { self.old ≤ self.new }
        ensures failed { IsErrOf result KeepFault.Failed → Rose self.old self.new }
        ensures still { IsErrOf result KeepFault.Failed ⊎ (self.new ≡ self.old) }
        ensures counted { IsCounted result self.old self.new }
    {
        match load_tables(self.alloc, &mut self.conn) {
            Ok(tables) => Ok(tables),
            Err(fault) => Err(refused(&mut self.faults, fault)),
        }
    }

    /// Stores a change in one transaction. `Failed` is returned if the file can't be written, or has a new row's id already; each time
    /// it is returned the count rises by one.
    fn apply(&mut self, change: &PoolChange) -> Result<(), KeepFault>
        ensures later { self.old ≤ self.new }
        ensures failed { IsErrOf result KeepFault.Failed → Rose self.old self.new }
        ensures still { IsErrOf result KeepFault.Failed ⊎ (self.new ≡ self.old) }
        ensures counted { IsCounted result self.old self.new }
    {
        match self.change(change) {
            Ok(()) => Ok(()),
            Err(fault) => Err(refused(&mut self.faults, fault)),
        }
    }
}
