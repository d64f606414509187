//! A register of stored tables.

ghost use Rattle.std.specs.Prelude.{◌≡◌, ℕ, ◌≤◌, ◌⊎◌, [], None, IfOk, IfErr};
ghost use Rattle.ipam_data.specs.Lawful.{IsLawful};
ghost use Rattle.stored_tables.specs.Order.{AreTables};
ghost use Rattle.stored_tables.specs.Stored.{Tells};
ghost use Rattle.stored_tables.specs.Opening.{IsOfTables};
ghost use Rattle.ipam_keeper.specs.Keeping.{Rose};
ghost use Rattle.register_tables.specs.Held.{state_of};
ghost use Rattle.register_core.specs.Opened.{IsChecked, IsOpened, IsUnopened};

use crate::books::Books;
use crate::passes::{bare, fill, first_bad_next, first_overfull, most_of, read_all};
use crate::register::{Register, Settings};
use ipam_data::replies::Which;
use ipam_keeper::keeper::{KeepFault, Keeper};
use register_tables::RowTables;
use std::alloc::{AllocError, Global};
use stored_tables::opening::OpenFault;
use stored_tables::tables::{Tables, VERSION};

/// The tables in memory of the rows of stored tables, or what is first found wrong with the tables. The texts of the rows, which take more
/// memory than what is read of them, are gone before the first row is put. `Err` means out of memory.
fn check(
    alloc: Global,
    tables: Tables,
    global_unique: bool,
) -> Result<Result<RowTables, OpenFault>, AllocError>
    requires { AreTables tables }
    ensures { IfOk result (λ checked. IsChecked tables global_unique checked) }
{
    if tables.version != VERSION {
        return Ok(Err(OpenFault::Version(tables.version)));
    }
    let rows = tables.rows.as_slice();
    let nexts = tables.next.as_slice();
    let mut views = Vec::new(alloc);
    if let Some((kind, id)) = read_all(alloc, rows, &mut views)? {
        return Ok(Err(OpenFault::BadRow(kind, id)));
    }
    if let Some(kind) = first_overfull(rows) {
        return Ok(Err(OpenFault::Limit(Which::Kind(kind), most_of(kind) as u64)));
    }
    let bad_next = first_bad_next(nexts, rows);
    // The tables in memory are given away on every way out: none has to take them apart.
    let mut row_tables = bare(alloc, nexts, global_unique);
    drop(tables);
    match fill(&mut row_tables, views) {
        Ok(None) => {}
        Ok(Some(breach)) => {
            drop(row_tables);
            return Ok(Err(OpenFault::BadTables(breach.kind, breach.id, breach.rule)));
        }
        Err(AllocError) => {
            drop(row_tables);
            return Err(AllocError);
        }
    }
    match bad_next {
        Some(kind) => {
            drop(row_tables);
            Ok(Err(OpenFault::BadNext(kind)))
        }
        None => Ok(Ok(row_tables)),
    }
}

/// The tables in memory of the state that the tables of a keeper represent, and the keeper again. The tables are loaded once and checked in
/// passes, each over all rows by kind and id before the next begins. What is known of the keeper stays, as of the keeper that a refusal
/// hands back.
fn load_row_tables<K: Keeper + Drop>(
    alloc: Global,
    keeper: K,
    settings: Settings,
) -> Result<(RowTables, K), (K, OpenFault)>
    ensures state { IfOk result (λ r. IsOpened (K.told keeper) settings.global_unique (state_of r.0)) }
    ensures lawful { IfOk result (λ r. IsLawful (state_of r.0)) }
    ensures told { IfOk result (λ r. K.told r.1 ≡ K.told keeper) }
    ensures tells { IfOk result (λ r. Tells (K.told r.1) (state_of r.0)) }
    ensures later { IfOk result (λ r. K.faults keeper ≤ K.faults r.1) }
    ensures still { IfOk result (λ r. K.faults r.1 ≡ K.faults keeper) }
    ensures fault { IfErr result (λ e. IsOfTables e.1 → IsUnopened (K.told keeper) settings.global_unique e.1) }
    ensures cause { IfErr result (λ e. e.1 ≡ OpenFault.Keeper → Rose (K.faults keeper) (K.faults e.0)) }
    ensures err_told { IfErr result (λ e. K.told e.0 ≡ K.told keeper) }
    ensures err_later { IfErr result (λ e. K.faults keeper ≤ K.faults e.0) }
    ensures err_still { IfErr result (λ e. (e.1 ≡ OpenFault.Keeper) ⊎ (K.faults e.0 ≡ K.faults keeper)) }
{
    let mut keeper = keeper;
    let tables = match keeper.load() {
        Ok(tables) => tables,
        Err(KeepFault::Failed) => return Err((keeper, OpenFault::Keeper)),
        Err(KeepFault::Memory) => return Err((keeper, OpenFault::Memory)),
    };
    let checked = match check(alloc, tables, settings.global_unique) {
        Ok(checked) => checked,
        Err(AllocError) => return Err((keeper, OpenFault::Memory)),
    };
    match checked {
        Ok(row_tables) => Ok((row_tables, keeper)),
        Err(fault) => Err((keeper, fault)),
    }
}

/// A register over a keeper, of the state that its tables represent. The register has an empty log and no last change, and what is
/// known of the keeper stays, as of the keeper that a refusal hands back.
///
/// `Err` is `Version` exactly if the version is not that of the register's tables; `BadRow` exactly if a row has id 0 or can't be read, the first such;
/// `Limit` exactly if a kind has more rows than it may, the first such; `BadTables` exactly if a row breaks a rule given the
/// rows before it, the first such with its first rule, references first; `BadNext` exactly if a next id is absent, 0 or not above
/// all ids of its kind, the first such kind; `Keeper` only if the keeper failed in this call, whose count rises in no other case; `Memory`
/// for lack of memory.
pub fn open<K: Keeper + Drop>(
    alloc: Global,
    keeper: K,
    settings: Settings,
) -> Result<Register<K>, (K, OpenFault)>
    ensures state { IfOk result (λ r. IsOpened (K.told keeper) settings.global_unique r.state) }
    ensures fresh { IfOk result (λ r. r ≡ record { opening = r.state; state = r.state; log = []; last = None; keeper = r.keeper }) }
    ensures told { IfOk result (λ r. K.told r.keeper ≡ K.told keeper) }
    ensures later { IfOk result (λ r. K.faults keeper ≤ K.faults r.keeper) }
    ensures still { IfOk result (λ r. K.faults r.keeper ≡ K.faults keeper) }
    ensures fault { IfErr result (λ e. IsOfTables e.1 → IsUnopened (K.told keeper) settings.global_unique e.1) }
    ensures cause { IfErr result (λ e. e.1 ≡ OpenFault.Keeper → Rose (K.faults keeper) (K.faults e.0)) }
    ensures err_told { IfErr result (λ e. K.told e.0 ≡ K.told keeper) }
    ensures err_later { IfErr result (λ e. K.faults keeper ≤ K.faults e.0) }
    ensures err_still { IfErr result (λ e. (e.1 ≡ OpenFault.Keeper) ⊎ (K.faults e.0 ≡ K.faults keeper)) }
{
    match load_row_tables(alloc, keeper, settings) {
        Ok((row_tables, keeper)) => Ok(Register::over(alloc, Books::of(row_tables), keeper)),
        Err(refused) => Err(refused),
    }
}
