//! A keeper over files that stop, and what is found when they are opened again.

ghost use Rattle.std.specs.Prelude.{IsTrue};

use crate::database::over_files;
use crate::files::{Stop, found_files};
use crate::store_kinds::{StoreKind, Stores};
use sqlite::{Connection, Files, Options};
use sqlite_disk::{Disk, Fuse, Memory};
use std::alloc::{AllocError, Global};

/// The outcome of a crash.
#[derive(Clone, Copy)]
pub(crate) enum Ending {
    /// The tables are those before the change that was being made, or after it.
    Whole,
    /// The tables are others, or can't be loaded.
    Broken,
    /// All changes were stored before the file stopped, and the tables are those after them.
    Beyond,
}

/// How many changes were stored over these files before one stopped, and both files then.
pub(crate) fn stopped<D: Disk + Drop, K: Stores>(
    alloc: Global,
    changes: u32,
    files: Files<D>,
) -> (Result<u32, AllocError>, Files<D>)
    requires log { IsTrue (D.Disk.is_usable files.log) }
    requires db { IsTrue (D.Disk.is_usable files.db) }
{
    match Connection::open_files(alloc, files, Options::new(1)) {
        Ok(conn) => {
            let (stored, files) = K::store(alloc, conn, changes);
            (stored, files.close())
        }
        Err((_, left)) => (Ok(0), left.into_files()),
    }
}

/// How many changes were stored before a file stopped, and the tables that are found then, in words. `Err` means out of memory.
fn found_after<K: StoreKind>(
    alloc: Global,
    changes: u32,
    stop: Stop,
) -> Result<(u32, String), AllocError> {
    let files = K::files(alloc, stop)?;
    let (stored, files) = stopped::<Fuse<Memory>, K>(alloc, changes, files);
    let found = found_files(alloc, files, stop.found)?;
    let tables = over_files::<Memory, K>(alloc, found, 2, "")?;
    Ok((stored?, tables))
}

/// Whether these are the tables after so many changes.
fn are_after<K: StoreKind>(alloc: Global, tables: &str, changes: u32) -> Result<bool, AllocError> {
    let after = K::tables_after(alloc, changes)?;
    Ok(after.as_str() == tables)
}

/// The outcome of a crash while so many changes are stored. `Err` means out of memory.
pub(crate) fn ending_of<K: StoreKind>(
    alloc: Global,
    changes: u32,
    stop: Stop,
) -> Result<Ending, AllocError> {
    let (stored, tables) = found_after::<K>(alloc, changes, stop)?;
    let is_before = are_after::<K>(alloc, tables.as_str(), stored)?;
    if stored == changes {
        return Ok(if is_before {
            Ending::Beyond
        } else {
            Ending::Broken
        });
    }
    let is_whole = is_before || are_after::<K>(alloc, tables.as_str(), stored.saturating_add(1))?;
    Ok(if is_whole {
        Ending::Whole
    } else {
        Ending::Broken
    })
}
