//! Imports over the register's tables: the rows of a kind become records one after another, each checked given those before it, and
//! are taken back; what they lead to is handed out as any planned change.

ghost use Rattle.std.specs.Prelude.{◌≡◌, ◌∷◌, ◌≤◌, [], IfOk, length};
ghost use Rattle.ipam_data.specs.Checks.{no_log};
ghost use Rattle.ipam_data.specs.Lawful.{IsLawful};
ghost use Rattle.ipam_data.specs.Imports.{import_plan};
ghost use Rattle.ipam_data.specs.State.{Plan, verdict_of};
ghost use Rattle.register_tables.specs.Held.{state_of};
ghost use Rattle.register_tables.specs.Planned.{IsPlanned};
ghost use Rattle.register_plans.specs.ImportHalts.{IsHaltBy};
ghost use Rattle.register_plans.specs.ImportPlan.{AreTried, items_for};

mod checks;
mod drafts;
mod halt;
mod keys;
pub mod laws;
mod leftovers;
mod lookup;
mod made;
mod names;
mod one;
mod ready;
mod tried;
mod undo;

use crate::imports::halt::Halt;
use crate::imports::tried::{Made, try_rows};
use ipam_data::imports::{ImportRow, MOST_ROWS};
use ipam_data::kinds::{Kind, MOST_SPENT};
use ipam_data::replies::{Refusal, Reply, View, Views, Which};
use ipam_data::update::{Ids, Update};
use register_tables::{Planned, RowTables};
use std::alloc::{AllocError, Global};

/// The log items of an import of so many rows: one for each, but at least one.
fn items_of(count: u32) -> u32
    ensures { result ≡ items_for count }
{
    if count == 0 { 1 } else { count }
}

/// Why so many log items may not be spent, if so.
fn no_log_for(spent: u32, items: u32) -> Option<Refusal>
    ensures { result ≡ no_log spent items }
{
    if u64::from(spent) + u64::from(items) > u64::from(MOST_SPENT) {
        return Some(Refusal::Limit(Which::Log, u64::from(MOST_SPENT)));
    }
    None
}

/// The update that puts records, sets the next id of their kind, and spends log items.
fn update_of(
    alloc: Global,
    records: Vec<View>,
    kind: Kind,
    next: u32,
    items: u32,
) -> Result<Update, AllocError>
    ensures { IfOk result (λ u. u ≡ record { puts = records.items; cuts = []; next = (kind, next) ∷ []; spent = items }) }
{
    let mut nexts = Vec::new(alloc);
    nexts.push((kind, next))?;
    Ok(Update {
        puts: Views::of(records),
        cuts: Ids::of(Vec::new(alloc)),
        next: Ids::of(nexts),
        spent: items,
    })
}

/// What an import leads to whose rows were made into these records: it is refused if the log has no room for it.
fn finish(
    row_tables: &RowTables,
    kind: Kind,
    rows: &[ImportRow],
    made: Made,
) -> Result<Planned, AllocError>
    requires few { length rows.now ≤ 10000 }
    requires made { AreTried (state_of row_tables.now) kind rows.now made }
    ensures { IfOk result (λ p. IsPlanned (import_plan (state_of row_tables.now) kind rows.now) p) }
{
    let count = rows.len() as u32;
    let items = items_of(count);
    match no_log_for(row_tables.spent(), items) {
        Some(refusal) => {
            drop(made);
            return Ok(Planned::Refused(refusal));
        }
        None => {}
    }
    let records = made.records.as_slice();
    let created = records.len() as u32;
    let update = update_of(row_tables.allocator(), made.records, kind, made.next, items)?;
    Ok(Planned::Change(
        update,
        Reply::Imported {
            created,
            present: count - created,
        },
    ))
}

/// What an import leads to that stops so.
fn stopped(halt: Halt) -> Result<Planned, AllocError>
    ensures { (plan : Plan) → IsHaltBy (verdict_of plan) halt → IfOk result (λ p. IsPlanned plan p) }
{
    match halt {
        Halt::Refused(refusal) => Ok(Planned::Refused(refusal)),
        Halt::Memory => Err(AllocError),
    }
}

/// Plans an import of rows of a kind: a record more for each row for which none is left. The state stays: the records are made
/// and taken back. `Err` means out of memory.
pub fn plan_import(
    row_tables: &mut RowTables,
    kind: Kind,
    rows: &[ImportRow],
) -> Result<Planned, AllocError>
    requires { IsLawful (state_of row_tables.old) }
    ensures state { state_of row_tables.new ≡ state_of row_tables.old }
    ensures plan { IfOk result (λ p. IsPlanned (import_plan (state_of row_tables.old) kind rows.now) p) }
{
    if rows.len() > MOST_ROWS as usize {
        return Ok(Planned::Refused(Refusal::Limit(Which::Rows, u64::from(MOST_ROWS))));
    }
    match try_rows(row_tables, kind, rows) {
        Ok(made) => finish(row_tables, kind, rows, made),
        Err(halt) => stopped(halt),
    }
}
