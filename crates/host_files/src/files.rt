//! The files of the host.

ghost use Rattle.std.specs.Prelude.{None};

use ipam_keeper::keeper::{KeepFault, Keeper};
use sqlite::{Connection, Error};
use sqlite_keeper::{Connects, CountedKeeper, SqliteKeeper};
use sqlite_std_file::File;
use sqlite_store::FileStore;
use stored_tables::tables::{Change, Tables, Text};

/// A keeper over a file of the host. It is here alone that the store of a real file is named: its own type, so that what is over
/// keepers has no part of that name.
#[derive(Drop)]
pub struct HostKeeper {
    inner: SqliteKeeper<FileStore<File>>,
}

impl Keeper for HostKeeper {
    ghost told = { λ k. None };

    ghost faults = { λ k. k.inner };

    fn load(&mut self) -> Result<Tables, KeepFault> {
        self.inner.load()
    }

    fn apply(&mut self, change: &Change) -> Result<(), KeepFault> {
        self.inner.apply(change)
    }

    fn upgrade(&mut self, tables: &Tables) -> Result<(), KeepFault> {
        self.inner.upgrade(tables)
    }
}

impl CountedKeeper for HostKeeper {
    fn failures(&self) -> u64 {
        self.inner.faults()
    }
}

/// What opens the files of the host.
#[derive(Drop)]
pub struct HostFiles<'a> {
    rt: &'a HostRuntime,
}

impl<'a> HostFiles<'a> {
    /// The files of the host that `rt` runs on: `Connects` opens one by its path.
    pub fn of(rt: &'a HostRuntime) -> HostFiles<'a> {
        HostFiles { rt }
    }
}

impl<'a> Connects for HostFiles<'a> {
    type Kept = HostKeeper;

    fn connect(&mut self, path: &Text) -> Result<HostKeeper, Error> {
        let conn = Connection::open(self.rt, path.as_str())?;
        Ok(HostKeeper {
            inner: SqliteKeeper::adopt(self.rt.alloc(), conn),
        })
    }

    fn close(&mut self, kept: HostKeeper) {
        let HostKeeper { inner } = kept;
        // If the log can't be put into the file, what was committed is in the log.
        let _ = inner.into_connection().close();
    }
}
