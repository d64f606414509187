//! How many of the rows of an update have their place in each table.

ghost use Rattle.std.specs.Prelude.{◌≡◌, ℕ, ◌+◌, ◌≤◌, ◌<◌, ◌^◌, ◌==◌, true, false, if◌then◌else◌, IfOk, OnOk, length};
ghost use Rattle.ipam_data.specs.declared.kinds.Table.{Table as SeenTable};
ghost use Rattle.ipam_data.specs.Tables.{same_table};
ghost use Rattle.register_tables.specs.Held.{table_in, is_in};
ghost use Rattle.register_tables.specs.Counts.{counted, AreCounted};

use crate::room::table_of_view;
use ipam_data::kinds::{Kind, Table};
use ipam_data::replies::View;
use placed_book::table_number;
use std::alloc::{AllocError, Global};
use std::collections::HashMap;

/// How many rows have their place in a table, by the number of the table.
pub(crate) type Counts = HashMap<u64, u32>;

/// How many rows are counted for a table.
pub(crate) fn counted(counts: &Counts, table: Table) -> u32
    ensures { result ≡ counted counts.now table }
{
    match counts.get(&table_number(table)) {
        Some(count) => *count,
        None => 0,
    }
}

/// Counts one row more for a table. `Err` means out of memory.
fn count_one(counts: &mut Counts, table: Table) -> Result<(), AllocError>
    requires { counted counts.old table < 2 ^ 31 }
    ensures { OnOk result ((t : SeenTable) → counted counts.new t ≡ (if same_table t table then counted counts.old t + 1 else counted counts.old t)) }
{
    let count = counted(counts, table);
    counts.insert(table_number(table), count + 1)?;
    Ok(())
}

/// Counts the rows of a kind by their tables, in one pass. `Err` means out of memory.
pub(crate) fn counts_of(alloc: Global, views: &[View], kind: Kind) -> Result<Counts, AllocError>
    requires { length views.now < 2 ^ 31 }
    ensures { IfOk result (λ m. AreCounted kind views.now m) }
{
    let mut counts = HashMap::new(alloc);
    for view in views {
        if let Some(table) = table_of_view(view, kind) {
            count_one(&mut counts, table)?;
        }
    }
    Ok(counts)
}
