//! Files in memory that stop at a call, and how they are found then.

ghost use Rattle.std.specs.Prelude.{IfOk, IsTrue};
ghost use Rattle.sqlite_disk.specs.Memory.{memory_is_usable};

use sqlite::Files;
use sqlite_disk::{Crash, Disk, Fuse, Memory};
use std::alloc::{AllocError, Global};

/// The bytes of a sector.
const SECTOR: usize = 512;

/// Which of the two files of a database stops.
#[derive(Clone, Copy, Debug)]
pub(crate) enum Side {
    Log,
    Database,
}

/// How files are found after a crash: with all that was written; with what the last fsync wrote alone, so that the rest is lost; or torn, with
/// every second sector as it was written and the others as they were at the last fsync.
#[derive(Clone, Copy, Debug)]
pub(crate) enum Found {
    Written,
    Lost,
    Torn,
}

/// A crash: this file fails at the call after so many, and at each one after it.
#[derive(Clone, Copy)]
pub(crate) struct Stop {
    pub(crate) side: Side,
    pub(crate) calls: u64,
    pub(crate) found: Found,
}

/// A file without bytes that fails after so many calls.
fn fuse(alloc: Global, calls: u64) -> Fuse<Memory>
    ensures { IsTrue (⟦<Fuse<Memory> as Disk>⟧.is_usable result) }
{
    Fuse::new(Memory::new(alloc), calls)
}

/// Files without bytes, one of which stops.
pub(crate) fn stopping_files(alloc: Global, stop: Stop) -> Files<Fuse<Memory>>
    ensures log { IsTrue (⟦<Fuse<Memory> as Disk>⟧.is_usable result.log) }
    ensures db { IsTrue (⟦<Fuse<Memory> as Disk>⟧.is_usable result.db) }
{
    match stop.side {
        Side::Log => Files {
            log: fuse(alloc, stop.calls),
            db: fuse(alloc, u64::MAX),
        },
        Side::Database => Files {
            log: fuse(alloc, u64::MAX),
            db: fuse(alloc, stop.calls),
        },
    }
}

/// These files, one of which stops.
pub(crate) fn stopping_over(files: Files<Memory>, stop: Stop) -> Files<Fuse<Memory>>
    requires found_log { IsTrue (memory_is_usable files.log) }
    requires found_db { IsTrue (memory_is_usable files.db) }
    ensures log { IsTrue (⟦<Fuse<Memory> as Disk>⟧.is_usable result.log) }
    ensures db { IsTrue (⟦<Fuse<Memory> as Disk>⟧.is_usable result.db) }
{
    match stop.side {
        Side::Log => Files {
            log: Fuse::new(files.log, stop.calls),
            db: Fuse::new(files.db, u64::MAX),
        },
        Side::Database => Files {
            log: Fuse::new(files.log, u64::MAX),
            db: Fuse::new(files.db, stop.calls),
        },
    }
}

/// A file of these bytes. `Err` means out of memory.
pub(crate) fn file_of(alloc: Global, bytes: &[u8]) -> Result<Memory, AllocError>
    ensures { IfOk result (λ file. IsTrue (memory_is_usable file)) }
{
    let mut file = Memory::new(alloc);
    if file.write_at(0, bytes).is_err() {
        return Err(AllocError);
    }
    if file.sync().is_err() {
        return Err(AllocError);
    }
    Ok(file)
}

/// Puts so many bytes at the end, as they are at this place of what the last fsync wrote; after that they are 0.
fn push_synced(bytes: &mut Vec<u8>, synced: &[u8], count: usize) -> Result<(), AllocError> {
    let from = bytes.len();
    let end = from.saturating_add(count);
    if let Some(old) = synced.get(from..end.min(synced.len())) {
        bytes.extend_from_slice(old)?;
    }
    bytes.resize(end, 0)
}

/// Every second sector as it was written, and the others as they were at the last fsync.
fn torn(alloc: Global, written: &[u8], synced: &[u8]) -> Result<Vec<u8>, AllocError> {
    let mut bytes = Vec::new(alloc);
    let mut is_new = false;
    for sector in written.chunks(SECTOR) {
        if is_new {
            bytes.extend_from_slice(sector)?;
        } else {
            push_synced(&mut bytes, synced, sector.len())?;
        }
        is_new = !is_new;
    }
    Ok(bytes)
}

/// A file as it is found after its last call. `Err` means out of memory.
fn found_file(alloc: Global, mut file: Fuse<Memory>, found: Found) -> Result<Memory, AllocError>
    ensures { IfOk result (λ file. IsTrue (memory_is_usable file)) }
{
    let written = Vec::from_slice(alloc, file.inner().bytes())?;
    file.crash();
    let synced = file.inner().bytes();
    match found {
        Found::Written => file_of(alloc, written.as_slice()),
        Found::Lost => file_of(alloc, synced),
        Found::Torn => file_of(alloc, torn(alloc, written.as_slice(), synced)?.as_slice()),
    }
}

/// Both files as they are found. `Err` means out of memory.
pub(crate) fn found_files(
    alloc: Global,
    files: Files<Fuse<Memory>>,
    found: Found,
) -> Result<Files<Memory>, AllocError>
    ensures log { IfOk result (λ files. IsTrue (memory_is_usable files.log)) }
    ensures db { IfOk result (λ files. IsTrue (memory_is_usable files.db)) }
{
    let Files { log, db } = files;
    let log = found_file(alloc, log, found)?;
    let db = found_file(alloc, db, found)?;
    Ok(Files { log, db })
}
