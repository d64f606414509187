//! What stores over a connection: a register or pools.

ghost use Rattle.std.specs.Prelude.{IfOk, IsTrue};

use crate::database::Trial;
use crate::files::{Stop, stopping_files};
use crate::stored::{CHANGES, IMPORT, store, store_pools};
use crate::told::{loaded, pools_loaded};
use ipam_keeper::empty::empty_tables;
use ipam_keeper::memory::MemoryKeeper;
use pool_keeper::memory::MemoryPools;
use pool_keeper::tables::empty_tables as no_pools;
use sqlite::{Alter, Connection, Files};
use sqlite_disk::{Disk, Fuse, Memory};
use sqlite_keeper::SqliteKeeper;
use sqlite_pools::SqlitePools;
use std::alloc::{AllocError, Global};

/// What stores over a connection. Tried over one, it lists the existing tables.
pub(crate) trait Stores {
    /// Stores the first changes over a connection, and gives its store back, with how many were stored. `Err` means out of memory.
    fn store<S: Alter + Drop>(
        alloc: Global,
        conn: Connection<S>,
        changes: u32,
    ) -> (Result<u32, AllocError>, S);
}

/// A kind of store, whose changes are numbered from 1. Tried over a connection it lists the existing tables.
pub(crate) trait StoreKind: Stores + Trial {
    /// The files over which it begins, one of which stops. `Err` means out of memory.
    fn files(alloc: Global, stop: Stop) -> Result<Files<Fuse<Memory>>, AllocError>
        ensures log { IfOk result (λ files. IsTrue (⟦<Fuse<Memory> as Disk>⟧.is_usable files.log)) }
        ensures db { IfOk result (λ files. IsTrue (⟦<Fuse<Memory> as Disk>⟧.is_usable files.db)) };

    /// The tables after so many changes, in words, as when nothing stops. `Err` means out of memory.
    fn tables_after(alloc: Global, changes: u32) -> Result<String, AllocError>;
}

/// A register.
pub(crate) struct Register;

impl Stores for Register {
    fn store<S: Alter + Drop>(
        alloc: Global,
        conn: Connection<S>,
        changes: u32,
    ) -> (Result<u32, AllocError>, S) {
        let mut keeper = SqliteKeeper::adopt(alloc, conn);
        let stored = store(alloc, &mut keeper, CHANGES, changes);
        (stored, keeper.into_connection().into_store())
    }
}

impl Trial for Register {
    fn over<S: Alter + Drop>(
        alloc: Global,
        conn: Connection<S>,
        words: &str,
    ) -> Result<String, AllocError> {
        let _ = words;
        let mut keeper = SqliteKeeper::adopt(alloc, conn);
        loaded(alloc, &mut keeper)
    }
}

impl StoreKind for Register {
    fn files(alloc: Global, stop: Stop) -> Result<Files<Fuse<Memory>>, AllocError> {
        Ok(stopping_files(alloc, stop))
    }

    fn tables_after(alloc: Global, changes: u32) -> Result<String, AllocError> {
        let mut keeper = MemoryKeeper::new(empty_tables(alloc)?, Vec::new(alloc));
        store(alloc, &mut keeper, CHANGES, changes)?;
        loaded(alloc, &mut keeper)
    }
}

/// A register into which many rows are imported at once.
pub(crate) struct Import;

impl Stores for Import {
    fn store<S: Alter + Drop>(
        alloc: Global,
        conn: Connection<S>,
        changes: u32,
    ) -> (Result<u32, AllocError>, S) {
        let mut keeper = SqliteKeeper::adopt(alloc, conn);
        let stored = store(alloc, &mut keeper, IMPORT, changes);
        (stored, keeper.into_connection().into_store())
    }
}

impl Trial for Import {
    fn over<S: Alter + Drop>(
        alloc: Global,
        conn: Connection<S>,
        words: &str,
    ) -> Result<String, AllocError> {
        Register::over(alloc, conn, words)
    }
}

impl StoreKind for Import {
    fn files(alloc: Global, stop: Stop) -> Result<Files<Fuse<Memory>>, AllocError> {
        Ok(stopping_files(alloc, stop))
    }

    fn tables_after(alloc: Global, changes: u32) -> Result<String, AllocError> {
        let mut keeper = MemoryKeeper::new(empty_tables(alloc)?, Vec::new(alloc));
        store(alloc, &mut keeper, IMPORT, changes)?;
        loaded(alloc, &mut keeper)
    }
}

/// Pools.
pub(crate) struct Pools;

impl Stores for Pools {
    fn store<S: Alter + Drop>(
        alloc: Global,
        conn: Connection<S>,
        changes: u32,
    ) -> (Result<u32, AllocError>, S) {
        let mut keeper = SqlitePools::adopt(alloc, conn);
        let stored = store_pools(alloc, &mut keeper, changes);
        (stored, keeper.into_connection().into_store())
    }
}

impl Trial for Pools {
    fn over<S: Alter + Drop>(
        alloc: Global,
        conn: Connection<S>,
        words: &str,
    ) -> Result<String, AllocError> {
        let _ = words;
        let mut keeper = SqlitePools::adopt(alloc, conn);
        pools_loaded(alloc, &mut keeper)
    }
}

impl StoreKind for Pools {
    fn files(alloc: Global, stop: Stop) -> Result<Files<Fuse<Memory>>, AllocError> {
        Ok(stopping_files(alloc, stop))
    }

    fn tables_after(alloc: Global, changes: u32) -> Result<String, AllocError> {
        let mut keeper = MemoryPools::new(no_pools(alloc), Vec::new(alloc));
        store_pools(alloc, &mut keeper, changes)?;
        pools_loaded(alloc, &mut keeper)
    }
}
