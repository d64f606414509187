//! The opening of a register over the store of a command.

ghost use Rattle.std.specs.Prelude.{◌≡◌, ◌≤◌, ◌⊎◌, [], Some, IfOk, IfErr};
ghost use Rattle.stored_tables.specs.Opening.{IsOfTables};
ghost use Rattle.ipam_keeper.specs.Keeping.{Rose, started};
ghost use Rattle.register_core.specs.Opened.{IsOpened, IsUnopened};
ghost use Rattle.command_streams.specs.Streams.{told};
ghost use Rattle.command_store.specs.Outside.{AreSame};
ghost use Rattle.command_store.specs.FaultWords.{IsSaid};

use crate::fault_words::fault_line;
use command_streams::{MEMORY, REFUSED, STORE, end_with};
use command_words::{Store, WordText};
use ipam_edge::Sink;
use ipam_keeper::keeper::{KeepFault, KeeperOpener};
use register_core::{Register, Settings, open};
use std::alloc::{AllocError, Global};
use stored_tables::opening::OpenFault;
use stored_tables::tables::Text;

/// What is said if the store fails: a fixed text, so that it takes no memory.
const UNREAD: &[u8] = b"store: the store could not be read\n";

/// The path of a file. `Err` means out of memory.
pub fn file_path(alloc: Global, word: &WordText) -> Result<Text, AllocError>
    ensures { IfOk result (λ path. path ≡ word.now) }
{
    Ok(Text::of(String::from_str(alloc, word.as_str())?))
}

/// The path that was given, if any. `Err` means out of memory.
pub fn path_of(alloc: Global, word: &Option<WordText>) -> Result<Option<Text>, AllocError>
    ensures { IfOk result (λ path. path ≡ word.now) }
{
    match word {
        Some(word) => Ok(Some(file_path(alloc, word)?)),
        None => Ok(None),
    }
}

/// Starts a keeper for a store, which has not failed. `Err` is `Keeper` only if the opener's count rose, which it does in no other case.
pub fn start_keeper<O: KeeperOpener>(
    alloc: Global,
    store: &Store,
    opener: &mut O,
) -> Result<O::Kept, OpenFault>
    ensures told { IfOk result (λ kept. O.Kept.told kept ≡ started (O.stored opener.old) store.now.db) }
    ensures ok { IfOk result (λ kept. O.lent opener.new ≡ Some store.now.db) }
    ensures stays { O.stored opener.new ≡ O.stored opener.old }
    ensures later { O.faults opener.old ≤ O.faults opener.new }
    ensures still { IfOk result (λ _. O.faults opener.new ≡ O.faults opener.old) }
    ensures fresh { IfOk result (λ kept. O.Kept.faults kept ≡ 0) }
    ensures err { IfErr result (λ fault. ¬ IsOfTables fault) }
    ensures cause { IfErr result (λ fault. fault ≡ OpenFault.Keeper → Rose (O.faults opener.old) (O.faults opener.new)) }
    ensures err_still { IfErr result (λ fault. (fault ≡ OpenFault.Keeper) ⊎ (O.faults opener.new ≡ O.faults opener.old)) }
{
    let path = match path_of(alloc, &store.db) {
        Ok(path) => path,
        Err(_) => return Err(OpenFault::Memory),
    };
    match opener.start(path.as_ref()) {
        Ok(kept) => Ok(kept),
        Err(KeepFault::Failed) => Err(OpenFault::Keeper),
        Err(KeepFault::Memory) => Err(OpenFault::Memory),
    }
}

/// Opens a register over a store, whose keeper has not failed. If that is refused the keeper went back, and known tables are
/// unchanged. `Err` is `Keeper` only if the opener's count rose, which it does in no other case.
pub fn open_store<O: KeeperOpener>(
    alloc: Global,
    store: &Store,
    opener: &mut O,
) -> Result<Register<O::Kept>, OpenFault>
    ensures state { IfOk result (λ r. IsOpened (started (O.stored opener.old) store.now.db) store.now.global_unique r.state) }
    ensures log { IfOk result (λ r. r.log ≡ []) }
    ensures told { IfOk result (λ r. O.Kept.told r.keeper ≡ started (O.stored opener.old) store.now.db) }
    ensures lent { IfOk result (λ r. O.lent opener.new ≡ Some store.now.db) }
    ensures stays { IfOk result (λ r. O.stored opener.new ≡ O.stored opener.old) }
    ensures still { IfOk result (λ r. O.faults opener.new ≡ O.faults opener.old) }
    ensures fresh { IfOk result (λ r. O.Kept.faults r.keeper ≡ 0) }
    ensures later { O.faults opener.old ≤ O.faults opener.new }
    ensures fault { IfErr result (λ fault. IsOfTables fault → IsUnopened (started (O.stored opener.old) store.now.db) store.now.global_unique fault) }
    ensures same { IfErr result (λ fault. AreSame (O.stored opener.old) (O.stored opener.new)) }
    ensures cause { IfErr result (λ fault. fault ≡ OpenFault.Keeper → Rose (O.faults opener.old) (O.faults opener.new)) }
    ensures err_still { IfErr result (λ fault. (fault ≡ OpenFault.Keeper) ⊎ (O.faults opener.new ≡ O.faults opener.old)) }
{
    let kept = match start_keeper(alloc, store, opener) {
        Ok(kept) => kept,
        Err(fault) => return Err(fault),
    };
    let settings = Settings {
        global_unique: store.global_unique,
    };
    match open(alloc, kept, settings) {
        Ok(register) => Ok(register),
        Err((kept, fault)) => {
            opener.done(kept);
            Err(fault)
        }
    }
}

/// Says why an opening was refused, and gives the status of that: 1 for a fault of the tables, 4 if the store failed, 5 for lack of
/// memory, of which nothing is said; and 3 if the line could not be written.
pub fn say_fault<Se: Sink>(alloc: Global, fault: &OpenFault, errors: &mut Se) -> u8
    ensures said { IsSaid fault.now (told Se.written Se.faults errors.old) (told Se.written Se.faults errors.new) result }
    ensures later { Se.faults errors.old ≤ Se.faults errors.new }
{
    match fault {
        OpenFault::Memory => MEMORY,
        OpenFault::Keeper => end_with(errors, UNREAD, STORE),
        _ => match fault_line(alloc, fault) {
            Ok(line) => end_with(errors, line.as_bytes(), REFUSED),
            Err(_) => MEMORY,
        },
    }
}
