//! The command `export`.

ghost use Rattle.std.specs.Prelude.{◌≡◌, IfOk};
ghost use Rattle.csv_import.specs.Exports.{rows_text};
ghost use Rattle.ipam_data.specs.Exported.{exported};
ghost use Rattle.command_streams.specs.Streams.{Told, streams, told};
ghost use Rattle.command_store.specs.Outside.{outside, stores};
ghost use Rattle.command_files.specs.Export.{IsExport};

use crate::calls::export_rows;
use command_store::{open_store, say_fault};
use command_streams::{DONE, MEMORY, end_with};
use command_words::Store;
use csv_import::write_rows;
use ipam_data::imports::ImportRow;
use ipam_data::kinds::Kind;
use ipam_edge::Sink;
use ipam_keeper::keeper::{Keeper, KeeperOpener};
use register_core::Register;
use std::alloc::{AllocError, Global};

/// The text of a file of these rows. `Err` means out of memory.
fn text_of(alloc: Global, kind: Kind, rows: &[ImportRow]) -> Result<Vec<u8>, AllocError>
    ensures { IfOk result (λ v. v.items ≡ rows_text kind rows.now) }
{
    let mut text = Vec::new(alloc);
    write_rows(alloc, kind, rows, &mut text)?;
    Ok(text)
}

/// The text of an export of the records of a kind. `Err` means out of memory.
fn export_text<K: Keeper>(
    alloc: Global,
    kind: Kind,
    register: &mut Register<K>,
) -> Result<Vec<u8>, AllocError>
    ensures text { IfOk result (λ v. v.items ≡ rows_text kind (exported register.old.state kind)) }
    ensures told { K.told register.new.keeper ≡ K.told register.old.keeper }
    ensures still { K.faults register.new.keeper ≡ K.faults register.old.keeper }
{
    let rows = export_rows(register, kind)?;
    text_of(alloc, kind, rows.as_slice())
}

/// Runs `export`: the records of a kind, as a file that `import` takes, from the register of the store, which stays as it is.
pub fn run_export<Si: Sink, Se: Sink, O: KeeperOpener>(
    alloc: Global,
    kind: Kind,
    store: &Store,
    output: &mut Si,
    errors: &mut Se,
    opener: &mut O,
) -> u8
    ensures { (input : Told) → IsExport kind store.now
        (outside (streams input (told Si.written Si.faults output.old) (told Se.written Se.faults errors.old)) (stores O.stored O.faults opener.old))
        (outside (streams input (told Si.written Si.faults output.new) (told Se.written Se.faults errors.new)) (stores O.stored O.faults opener.new)) result }
{
    match open_store(alloc, store, opener) {
        Ok(register) => {
            let mut register = register;
            let text = export_text(alloc, kind, &mut register);
            opener.done(register.into_keeper());
            match text {
                Ok(text) => end_with(output, text.as_slice(), DONE),
                Err(_) => MEMORY,
            }
        }
        Err(fault) => say_fault(alloc, &fault, errors),
    }
}
