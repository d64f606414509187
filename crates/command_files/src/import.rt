//! The command `import`.

ghost use Rattle.std.specs.Prelude.{◌≡◌, ◌≤◌, ◌⊎◌, IfOk, IfErr};
ghost use Rattle.command_streams.specs.Streams.{Told, streams, told};
ghost use Rattle.command_store.specs.Outside.{outside, stores};
ghost use Rattle.command_files.specs.Files.{GivesRows};
ghost use Rattle.command_files.specs.Making.{HasImported, IsImportStop, IsMakingSaid, IsStopSaid, IsStoreStop};
ghost use Rattle.command_files.specs.Import.{IsImport, counts_text as counts_of};

use crate::calls::{Counts, MakeStop, import_rows};
use crate::files::{read_file, say_file_stop, say_refusal};
use arrayvec::ArrayVec;
use command_store::{open_store, say_fault};
use command_streams::{DONE, LINE, MEMORY, REFUSED, STORE, end_with, push_bytes};
use command_words::Store;
use ipam_data::imports::ImportRows;
use ipam_data::kinds::Kind;
use ipam_edge::{Sink, Source};
use ipam_keeper::keeper::KeeperOpener;
use itoa::Buffer;
use std::alloc::Global;
use stored_tables::opening::OpenFault;

/// How many records were made and how many rows represent others, in words. It takes no memory: the import is stored by then.
fn counts_text(counts: Counts) -> ArrayVec<u8, LINE>
    ensures { result.items ≡ counts_of counts.created counts.present }
{
    let mut created = Buffer::new();
    let mut present = Buffer::new();
    let mut line = ArrayVec::<u8, LINE>::new();
    push_bytes(&mut line, b"created ");
    push_bytes(&mut line, created.format(counts.created).as_bytes());
    push_bytes(&mut line, b" present ");
    push_bytes(&mut line, present.format(counts.present).as_bytes());
    push_bytes(&mut line, b"\n");
    line
}

/// Why rows were not put into a store.
#[derive(Drop)]
pub enum ImportStop {
    /// The opening of the store is refused.
    Opening(OpenFault),
    /// The rows were not made.
    Making(MakeStop),
}

/// Imports rows into the register of a store, and gives the counts. `Err` leaves what is known of the store.
fn import_into<O: KeeperOpener>(
    alloc: Global,
    kind: Kind,
    rows: ImportRows,
    store: &Store,
    opener: &mut O,
) -> Result<Counts, ImportStop>
    ensures ok { IfOk result (HasImported kind store.now rows (stores O.stored O.faults opener.old) (stores O.stored O.faults opener.new)) }
    ensures err { IfErr result (IsImportStop kind store.now rows (stores O.stored O.faults opener.old) (stores O.stored O.faults opener.new)) }
    ensures later { O.faults opener.old ≤ O.faults opener.new }
    ensures still { IfErr result (λ stop. IsStoreStop stop ⊎ (O.faults opener.new ≡ O.faults opener.old)) }
{
    match open_store(alloc, store, opener) {
        Ok(register) => {
            let mut register = register;
            let made = import_rows(&mut register, kind, rows);
            opener.done(register.into_keeper());
            match made {
                Ok(counts) => Ok(counts),
                Err(stop) => Err(ImportStop::Making(stop)),
            }
        }
        Err(fault) => {
            drop(rows);
            Err(ImportStop::Opening(fault))
        }
    }
}

/// What is said if the store could not be written. It takes no memory, so that it is not lost.
const UNWRITTEN: &[u8] = b"keeper: the store could not be written\n";

/// Says why rows were not made, and gives the status of that: 1 for a refusal, 4 if the keeper failed, and 5 for lack of memory, of which
/// nothing is said.
fn say_making<Se: Sink>(alloc: Global, stop: &MakeStop, errors: &mut Se) -> u8
    ensures said { IsMakingSaid stop.now (told Se.written Se.faults errors.old) (told Se.written Se.faults errors.new) result }
    ensures later { Se.faults errors.old ≤ Se.faults errors.new }
{
    match stop {
        MakeStop::Refused(refusal) => say_refusal(alloc, refusal, REFUSED, errors),
        MakeStop::Keeper => end_with(errors, UNWRITTEN, STORE),
        MakeStop::Memory => MEMORY,
    }
}

/// Says why rows were not put into a store, and gives the status of that.
fn say_stop<Se: Sink>(alloc: Global, stop: &ImportStop, errors: &mut Se) -> u8
    ensures said { IsStopSaid stop.now (told Se.written Se.faults errors.old) (told Se.written Se.faults errors.new) result }
    ensures later { Se.faults errors.old ≤ Se.faults errors.new }
{
    match stop {
        ImportStop::Opening(fault) => say_fault(alloc, fault, errors),
        ImportStop::Making(stop) => say_making(alloc, stop, errors),
    }
}

/// Imports the rows that the input gave.
fn run_rows<Si: Sink, Se: Sink, O: KeeperOpener>(
    alloc: Global,
    kind: Kind,
    rows: ImportRows,
    store: &Store,
    output: &mut Si,
    errors: &mut Se,
    opener: &mut O,
) -> u8
    ensures { (before after : Told) → GivesRows kind before after rows → after.faults ≡ before.faults → IsImport kind store.now
        (outside (streams before (told Si.written Si.faults output.old) (told Se.written Se.faults errors.old)) (stores O.stored O.faults opener.old))
        (outside (streams after (told Si.written Si.faults output.new) (told Se.written Se.faults errors.new)) (stores O.stored O.faults opener.new)) result }
{
    match import_into(alloc, kind, rows, store, opener) {
        Ok(counts) => end_with(output, counts_text(counts).as_slice(), DONE),
        Err(stop) => say_stop(alloc, &stop, errors),
    }
}

/// Runs `import`: the rows of the file on the input become records of the register of the store, all in one change, or none. The input is
/// read to its end before the store is opened.
pub fn run_import<So: Source, Si: Sink, Se: Sink, O: KeeperOpener>(
    alloc: Global,
    kind: Kind,
    store: &Store,
    input: &mut So,
    output: &mut Si,
    errors: &mut Se,
    opener: &mut O,
) -> u8
    ensures { IsImport kind store.now
        (outside (streams (told So.left So.faults input.old) (told Si.written Si.faults output.old) (told Se.written Se.faults errors.old)) (stores O.stored O.faults opener.old))
        (outside (streams (told So.left So.faults input.new) (told Si.written Si.faults output.new) (told Se.written Se.faults errors.new)) (stores O.stored O.faults opener.new)) result }
{
    match read_file(alloc, kind, input) {
        Ok(rows) => run_rows(alloc, kind, rows, store, output, errors, opener),
        Err(stop) => say_file_stop(alloc, &stop, errors),
    }
}
