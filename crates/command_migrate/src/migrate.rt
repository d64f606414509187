//! A file of version 1 becomes one of this program's version, in one transaction.

ghost use Rattle.std.specs.Prelude.{◌≡◌, ◌≤◌, ◌⊎◌, IfOk, IfErr};
ghost use Rattle.command_streams.specs.Streams.{Told, streams, told, EndsWith};
ghost use Rattle.command_store.specs.Outside.{outside, stores, AreSame};
ghost use Rattle.command_migrate.specs.Migrate.{count_text as count_text_of, fault_of, tables_of_file, AreMigrated, IsMigrated, IsStop, IsStopSaid, IsFailure, IsMigrate};

use arrayvec::ArrayVec;
use command_store::{file_path, say_fault};
use command_streams::{DONE, LINE, MEMORY, STORE, end_with, push_bytes};
use command_words::WordText;
use ipam_edge::Sink;
use ipam_keeper::keeper::{KeepFault, Keeper, KeeperOpener};
use itoa::Buffer;
use std::alloc::Global;
use stored_tables::migration::{MigrateFault, count_ranges, migrate};
use stored_tables::opening::OpenFault;

/// What is said if the file could not be written. It takes no memory, so that it is not lost.
const UNWRITTEN: &[u8] = b"store: the store could not be written\n";

/// Why a file was not migrated.
#[derive(Drop)]
pub enum MigrateStop {
    /// The file could not be read.
    Unread,
    /// Its tables can't be migrated.
    Refused(MigrateFault),
    /// The file could not be written.
    Unwritten,
    /// Out of memory.
    Lacking,
}

/// How many ranges were marked or not, in words. It takes no memory: the file is migrated by then.
fn count_text(count: usize) -> ArrayVec<u8, LINE>
    ensures { result.items ≡ count_text_of count }
{
    let mut number = Buffer::new();
    let mut line = ArrayVec::<u8, LINE>::new();
    push_bytes(&mut line, b"migrated ");
    push_bytes(&mut line, number.format(count).as_bytes());
    push_bytes(&mut line, b"\n");
    line
}

/// Migrates the tables of a keeper, and gives the number of their ranges. `Err` leaves them.
fn migrate_kept<K: Keeper>(kept: &mut K, populated: bool) -> Result<usize, MigrateStop>
    ensures ok { IfOk result (AreMigrated populated (K.told kept.old) (K.told kept.new)) }
    ensures err { IfErr result (λ stop. K.told kept.new ≡ K.told kept.old) }
    ensures stop { IfErr result (IsStop (K.told kept.old) (K.faults kept.old) (K.faults kept.new)) }
    ensures later { K.faults kept.old ≤ K.faults kept.new }
    ensures still { IfErr result (λ stop. IsFailure stop ⊎ (K.faults kept.new ≡ K.faults kept.old)) }
    ensures ok_still { IfOk result (λ n. K.faults kept.new ≡ K.faults kept.old) }
{
    let tables = match kept.load() {
        Ok(tables) => tables,
        Err(KeepFault::Failed) => return Err(MigrateStop::Unread),
        Err(KeepFault::Memory) => return Err(MigrateStop::Lacking),
    };
    let anew = match migrate(&tables, populated) {
        Ok(anew) => anew,
        Err(MigrateFault::Memory) => return Err(MigrateStop::Lacking),
        Err(fault) => return Err(MigrateStop::Refused(fault)),
    };
    match kept.upgrade(&anew) {
        Ok(()) => Ok(count_ranges(&tables)),
        Err(KeepFault::Failed) => Err(MigrateStop::Unwritten),
        Err(KeepFault::Memory) => Err(MigrateStop::Lacking),
    }
}

/// Migrates the file of a path, and gives the number of its ranges. `Err` leaves what is known of the opener.
fn migrate_file<O: KeeperOpener>(
    alloc: Global,
    db: &WordText,
    populated: bool,
    opener: &mut O,
) -> Result<usize, MigrateStop>
    ensures ok { IfOk result (IsMigrated db.now populated (stores O.stored O.faults opener.old) (stores O.stored O.faults opener.new)) }
    ensures same { IfErr result (λ stop. AreSame (O.stored opener.old) (O.stored opener.new)) }
    ensures stop { IfErr result (IsStop (tables_of_file db.now (stores O.stored O.faults opener.old)) (O.faults opener.old) (O.faults opener.new)) }
    ensures later { O.faults opener.old ≤ O.faults opener.new }
    ensures still { IfErr result (λ stop. IsFailure stop ⊎ (O.faults opener.new ≡ O.faults opener.old)) }
{
    let path = match file_path(alloc, db) {
        Ok(path) => path,
        Err(_) => return Err(MigrateStop::Lacking),
    };
    let mut kept = match opener.start(Some(&path)) {
        Ok(kept) => kept,
        Err(KeepFault::Failed) => return Err(MigrateStop::Unread),
        Err(KeepFault::Memory) => return Err(MigrateStop::Lacking),
    };
    let migrated = migrate_kept(&mut kept, populated);
    opener.done(kept);
    migrated
}

/// The fault of a migration, as that of an opening.
fn opening_fault(fault: &MigrateFault) -> OpenFault
    ensures { result ≡ fault_of fault.now }
{
    match fault {
        MigrateFault::Version(version) => OpenFault::Version(*version),
        MigrateFault::BadRow(kind, id) => OpenFault::BadRow(*kind, *id),
        MigrateFault::Memory => OpenFault::Memory,
    }
}

/// Says why a file was not migrated, and gives the status of that: 1 for its tables, 4 if it could not be read or written, and 5 for lack
/// of memory, of which nothing is said.
fn say_stop<Se: Sink>(alloc: Global, stop: &MigrateStop, errors: &mut Se) -> u8
    ensures said { IsStopSaid stop.now (told Se.written Se.faults errors.old) (told Se.written Se.faults errors.new) result }
    ensures later { Se.faults errors.old ≤ Se.faults errors.new }
{
    match stop {
        MigrateStop::Unread => say_fault(alloc, &OpenFault::Keeper, errors),
        MigrateStop::Refused(fault) => say_fault(alloc, &opening_fault(fault), errors),
        MigrateStop::Unwritten => end_with(errors, UNWRITTEN, STORE),
        MigrateStop::Lacking => MEMORY,
    }
}

/// Runs `migrate`: the tables of the file become those of this program's version, with every range marked as populated or none, and the number
/// of ranges is printed.
pub fn run_migrate<Si: Sink, Se: Sink, O: KeeperOpener>(
    alloc: Global,
    db: &WordText,
    populated: bool,
    output: &mut Si,
    errors: &mut Se,
    opener: &mut O,
) -> u8
    ensures { (input : Told) → IsMigrate db.now populated
        (outside (streams input (told Si.written Si.faults output.old) (told Se.written Se.faults errors.old)) (stores O.stored O.faults opener.old))
        (outside (streams input (told Si.written Si.faults output.new) (told Se.written Se.faults errors.new)) (stores O.stored O.faults opener.new)) result }
{
    match migrate_file(alloc, db, populated, opener) {
        Ok(count) => end_with(output, count_text(count).as_slice(), DONE),
        Err(stop) => say_stop(alloc, &stop, errors),
    }
}
