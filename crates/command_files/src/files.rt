//! A file of rows on the input, and what is said if it is refused.

ghost use Rattle.std.specs.Prelude.{◌≡◌, ◌≤◌, ◌⊎◌, IfOk, IfErr, IsErrOf, string_bytes};
ghost use Rattle.command_streams.specs.Streams.{told};
ghost use Rattle.command_files.specs.Files.{GivesRows, IsStopOf, IsFileStop, IsFileStopSaid, NamesIt, kind_named as kind_of_name, refusal_text};

use command_streams::{FAULT, MEMORY, REFUSED, end_with};
use command_words::KindName;
use csv_import::files::MOST_BYTES;
use csv_import::read_rows;
use ipam_data::imports::ImportRows;
use ipam_data::kinds::Kind;
use ipam_data::replies::{Part, Refusal};
use ipam_edge::{Sink, Source, Unread, read_whole};
use ipam_words::refusal_line;
use std::alloc::{AllocError, Global};

/// The kind of this name.
pub fn kind_named(name: KindName) -> Kind
    ensures { result ≡ kind_of_name name }
{
    match name {
        KindName::Vrfs => Kind::Vrfs,
        KindName::Rirs => Kind::Rirs,
        KindName::Roles => Kind::Roles,
        KindName::Aggregates => Kind::Aggregates,
        KindName::Prefixes => Kind::Prefixes,
        KindName::Ranges => Kind::Ranges,
        KindName::Addresses => Kind::Addresses,
    }
}

/// Why the input gives no rows.
#[derive(Drop)]
pub enum FileStop {
    /// It failed, and counted it.
    Unread,
    /// The file, or a row of it, is refused.
    Refused(Refusal),
    /// Out of memory.
    Memory,
}

/// A file's refusal as what stops its reading.
fn stop_of(refusal: Refusal) -> FileStop
    ensures { IsStopOf refusal result }
{
    match refusal {
        Refusal::Memory => FileStop::Memory,
        _ => FileStop::Refused(refusal),
    }
}

/// Reads the whole input as a file of rows of a kind.
pub(crate) fn read_file<So: Source>(
    alloc: Global,
    kind: Kind,
    input: &mut So,
) -> Result<ImportRows, FileStop>
    ensures rows { IfOk result (λ v. GivesRows kind (told So.left So.faults input.old) (told So.left So.faults input.new) v) }
    ensures stop { IfErr result (IsFileStop kind (told So.left So.faults input.old) (told So.left So.faults input.new)) }
    ensures later { So.faults input.old ≤ So.faults input.new }
    ensures kept { IsErrOf result FileStop.Unread ⊎ (So.faults input.new ≡ So.faults input.old) }
{
    let bytes = match read_whole(alloc, input, MOST_BYTES) {
        Ok(bytes) => bytes,
        Err(Unread::Failed) => return Err(FileStop::Unread),
        Err(Unread::TooLong) => return Err(FileStop::Refused(Refusal::TooLarge(Part::Body))),
        Err(Unread::Memory) => return Err(FileStop::Memory),
    };
    match read_rows(alloc, kind, bytes.as_slice()) {
        Ok(rows) => Ok(ImportRows::of(rows)),
        Err(refusal) => Err(stop_of(refusal)),
    }
}

/// The line that names a refusal. `Err` means out of memory.
fn refusal_words(alloc: Global, refusal: &Refusal) -> Result<String, AllocError>
    ensures { IfOk result (λ s. string_bytes s ≡ refusal_text refusal.now) }
{
    let mut line = refusal_line(alloc, refusal)?;
    line.push('\n')?;
    Ok(line)
}

/// Says a refusal, and gives this status; or that of a fault if it can't be said, or of out of memory.
pub(crate) fn say_refusal<Se: Sink>(
    alloc: Global,
    refusal: &Refusal,
    wanted: u8,
    errors: &mut Se,
) -> u8
    ensures said { NamesIt refusal.now wanted (told Se.written Se.faults errors.old) (told Se.written Se.faults errors.new) result }
    ensures later { Se.faults errors.old ≤ Se.faults errors.new }
{
    match refusal_words(alloc, refusal) {
        Ok(line) => end_with(errors, line.as_bytes(), wanted),
        Err(_) => MEMORY,
    }
}

/// Says why the input gives no rows, and gives the status of that: 1 for a refusal, 3 if the input failed and 5 for lack of memory, of
/// which nothing is said.
pub(crate) fn say_file_stop<Se: Sink>(alloc: Global, stop: &FileStop, errors: &mut Se) -> u8
    ensures said { IsFileStopSaid stop.now (told Se.written Se.faults errors.old) (told Se.written Se.faults errors.new) result }
    ensures later { Se.faults errors.old ≤ Se.faults errors.new }
{
    match stop {
        FileStop::Unread => FAULT,
        FileStop::Refused(refusal) => say_refusal(alloc, refusal, REFUSED, errors),
        FileStop::Memory => MEMORY,
    }
}
