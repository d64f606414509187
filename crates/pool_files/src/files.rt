//! The files of the host.

ghost use Rattle.std.specs.Prelude.{None};

use ipam_keeper::keeper::KeepFault;
use pool_keeper::keeper::PoolKeeper;
use pool_keeper::tables::{PoolChange, PoolTables};
use sqlite::{Connection, Error};
use sqlite_pools::{ConnectsPools, CountedPools, SqlitePools};
use sqlite_std_file::File;
use sqlite_store::FileStore;
use stored_tables::tables::Text;

/// A keeper of pools over a file of the host. It is here alone that the store of a real file is named: its own type, so that what is over
/// keepers has no part of that name.
#[derive(Drop)]
pub struct HostPools {
    inner: SqlitePools<FileStore<File>>,
}

impl PoolKeeper for HostPools {
    ghost told = { λ k. None };

    ghost faults = { λ k. k.inner };

    fn load(&mut self) -> Result<PoolTables, KeepFault> {
        self.inner.load()
    }

    fn apply(&mut self, change: &PoolChange) -> Result<(), KeepFault> {
        self.inner.apply(change)
    }
}

impl CountedPools for HostPools {
    fn failures(&self) -> u64 {
        self.inner.faults()
    }
}

/// What opens the files of the host.
#[derive(Drop)]
pub struct HostPoolFiles<'a> {
    rt: &'a HostRuntime,
}

impl<'a> HostPoolFiles<'a> {
    /// The files of the host that `rt` runs on: `ConnectsPools` opens one by its path.
    pub fn of(rt: &'a HostRuntime) -> HostPoolFiles<'a> {
        HostPoolFiles { rt }
    }
}

impl<'a> ConnectsPools for HostPoolFiles<'a> {
    type Kept = HostPools;

    fn connect(&mut self, path: &Text) -> Result<HostPools, Error> {
        let conn = Connection::open(self.rt, path.as_str())?;
        Ok(HostPools {
            inner: SqlitePools::adopt(self.rt.alloc(), conn),
        })
    }

    fn close(&mut self, kept: HostPools) {
        let HostPools { inner } = kept;
        // If the log can't be put into the file, what was committed is in the log.
        let _ = inner.into_connection().close();
    }
}
