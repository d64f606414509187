//! A file of version 1 that is migrated while its files stop, and what is found when they are opened again.

ghost use Rattle.std.specs.Prelude.{IfOk, IsTrue};
ghost use Rattle.sqlite_disk.specs.Memory.{memory_is_usable};

use crate::database::{Trial, is_run, over_files};
use crate::files::{Found, Side, Stop, found_files, stopping_files, stopping_over};
use crate::stops::stopped;
use crate::store_kinds::{Register, StoreKind, Stores};
use ipam_keeper::keeper::Keeper;
use sqlite::{Alter, Connection, Files};
use sqlite_disk::{Disk, Fuse, Memory};
use sqlite_keeper::SqliteKeeper;
use std::alloc::{AllocError, Global};
use stored_tables::migration::migrate;

/// Makes the tables of version 1, with three ranges.
pub(crate) const FIRST: &str = "BEGIN; \
CREATE TABLE meta (name TEXT PRIMARY KEY, value INTEGER NOT NULL) STRICT; \
CREATE TABLE vrfs (id INTEGER PRIMARY KEY, name TEXT NOT NULL, rd TEXT NOT NULL, enforce_unique TEXT NOT NULL, description TEXT NOT NULL) STRICT; \
CREATE TABLE rirs (id INTEGER PRIMARY KEY, name TEXT NOT NULL, slug TEXT NOT NULL, is_private TEXT NOT NULL, description TEXT NOT NULL) STRICT; \
CREATE TABLE roles (id INTEGER PRIMARY KEY, name TEXT NOT NULL, slug TEXT NOT NULL, weight TEXT NOT NULL, description TEXT NOT NULL) STRICT; \
CREATE TABLE aggregates (id INTEGER PRIMARY KEY, prefix TEXT NOT NULL, rir TEXT NOT NULL, description TEXT NOT NULL) STRICT; \
CREATE TABLE prefixes (id INTEGER PRIMARY KEY, prefix TEXT NOT NULL, vrf TEXT NOT NULL, status TEXT NOT NULL, role TEXT NOT NULL, \
is_pool TEXT NOT NULL, mark_utilized TEXT NOT NULL, description TEXT NOT NULL) STRICT; \
CREATE TABLE ip_ranges (id INTEGER PRIMARY KEY, start_address TEXT NOT NULL, end_address TEXT NOT NULL, vrf TEXT NOT NULL, status TEXT NOT NULL, \
role TEXT NOT NULL, mark_utilized TEXT NOT NULL, description TEXT NOT NULL) STRICT; \
CREATE TABLE ip_addresses (id INTEGER PRIMARY KEY, address TEXT NOT NULL, vrf TEXT NOT NULL, status TEXT NOT NULL, role TEXT NOT NULL, \
dns_name TEXT NOT NULL, description TEXT NOT NULL) STRICT; \
INSERT INTO meta (name, value) VALUES ('version', 1), ('next_vrfs', 1), ('next_rirs', 1), ('next_roles', 1), ('next_aggregates', 1), \
('next_prefixes', 2), ('next_ip_ranges', 4), ('next_ip_addresses', 1); \
INSERT INTO prefixes (id, prefix, vrf, status, role, is_pool, mark_utilized, description) VALUES (1, '10.0.0.0/24', '', 'active', '', 'false', 'false', ''); \
INSERT INTO ip_ranges (id, start_address, end_address, vrf, status, role, mark_utilized, description) VALUES \
(1, '10.0.0.1/24', '10.0.0.9/24', '', 'active', '', 'false', 'pool'), (2, '10.0.0.11/24', '10.0.0.19/24', '', 'reserved', '', 'true', ''), \
(3, '10.0.0.21/24', '10.0.0.29/24', '', 'active', '', 'false', 'phones'); \
COMMIT";

/// A crash that does not happen.
pub(crate) const NEVER: Stop = Stop {
    side: Side::Log,
    calls: u64::MAX,
    found: Found::Written,
};

/// What makes the tables of version 1.
struct First;

impl Stores for First {
    fn store<S: Alter + Drop>(
        alloc: Global,
        mut conn: Connection<S>,
        changes: u32,
    ) -> (Result<u32, AllocError>, S) {
        let _ = (alloc, changes);
        let made = if is_run(&mut conn, FIRST) {
            Ok(1)
        } else {
            Err(AllocError)
        };
        (made, conn.into_store())
    }
}

/// The files that something stores into if nothing stops. `Err` means out of memory.
pub(crate) fn whole_files<K: Stores>(
    alloc: Global,
    files: Files<Fuse<Memory>>,
) -> Result<Files<Memory>, AllocError>
    requires log { IsTrue (⟦<Fuse<Memory> as Disk>⟧.is_usable files.log) }
    requires db { IsTrue (⟦<Fuse<Memory> as Disk>⟧.is_usable files.db) }
    ensures found_log { IfOk result (λ files. IsTrue (memory_is_usable files.log)) }
    ensures found_db { IfOk result (λ files. IsTrue (memory_is_usable files.db)) }
{
    let (stored, files) = stopped::<Fuse<Memory>, K>(alloc, 1, files);
    match stored {
        Ok(1) => found_files(alloc, files, Found::Written),
        _ => Err(AllocError),
    }
}

/// The files of a database with the tables of version 1. `Err` means out of memory.
fn first_files(alloc: Global) -> Result<Files<Memory>, AllocError>
    ensures log { IfOk result (λ files. IsTrue (memory_is_usable files.log)) }
    ensures db { IfOk result (λ files. IsTrue (memory_is_usable files.db)) }
{
    whole_files::<First>(alloc, stopping_files(alloc, NEVER))
}

/// Migrates what a keeper has, and says whether it did.
pub(crate) fn is_migrated<K: Keeper>(keeper: &mut K, populated: bool) -> bool {
    match keeper.load() {
        Ok(tables) => match migrate(&tables, populated) {
            Ok(anew) => keeper.upgrade(&anew).is_ok(),
            Err(_) => false,
        },
        Err(_) => false,
    }
}

/// The migration of a file of version 1, which is the one change.
pub(crate) struct Migration;

impl Stores for Migration {
    fn store<S: Alter + Drop>(
        alloc: Global,
        conn: Connection<S>,
        changes: u32,
    ) -> (Result<u32, AllocError>, S) {
        let _ = changes;
        let mut keeper = SqliteKeeper::adopt(alloc, conn);
        let stored = if is_migrated(&mut keeper, true) { 1 } else { 0 };
        (Ok(stored), keeper.into_connection().into_store())
    }
}

impl Trial for Migration {
    fn over<S: Alter + Drop>(
        alloc: Global,
        conn: Connection<S>,
        words: &str,
    ) -> Result<String, AllocError> {
        Register::over(alloc, conn, words)
    }
}

/// The files after the migration. `Err` means out of memory.
fn migrated_files(alloc: Global) -> Result<Files<Memory>, AllocError>
    ensures log { IfOk result (λ files. IsTrue (memory_is_usable files.log)) }
    ensures db { IfOk result (λ files. IsTrue (memory_is_usable files.db)) }
{
    let files = first_files(alloc)?;
    whole_files::<Migration>(alloc, stopping_over(files, NEVER))
}

impl StoreKind for Migration {
    fn files(alloc: Global, stop: Stop) -> Result<Files<Fuse<Memory>>, AllocError> {
        let files = first_files(alloc)?;
        Ok(stopping_over(files, stop))
    }

    fn tables_after(alloc: Global, changes: u32) -> Result<String, AllocError> {
        let files = if changes == 0 {
            first_files(alloc)?
        } else {
            migrated_files(alloc)?
        };
        over_files::<Memory, Register>(alloc, files, 2, "")
    }
}
