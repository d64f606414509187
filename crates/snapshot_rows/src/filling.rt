//! Rows that hold the same as two books.
ghost use Rattle.std.specs.Prelude.{◌≡◌, ◌≤◌, ◌++◌, ◌∷◌, [], IfOk, OnOk};
ghost use Rattle.ipam_data.specs.RowList.{AllBelow, Rises};
ghost use Rattle.ipam_data.specs.Rows.{prefix_id, vrf_id};
ghost use Rattle.register_tables.specs.Held.{state_of};
ghost use Rattle.snapshot_rows.specs.Lists.{lists_of};

use crate::rows::SnapshotRows;
use block_space::Space;
use ipam_data::prefix::Prefix;
use ipam_data::replies::View;
use ipam_data::vrf::Vrf;
use prefix_rules::PrefixBook;
use register_tables::RowTables;
use std::alloc::{AllocError, Global};
use vrf_table::VrfBook;

/// Puts a copy of a VRF after all others. `Err` means out of memory.
fn admit_vrf(tables: &mut RowTables, row: &Vrf) -> Result<(), AllocError>
    requires low { 1 ≤ row.now.id }
    requires above { AllBelow vrf_id row.now.id (state_of tables.old).vrfs.rows }
    ensures { OnOk result (lists_of (state_of tables.new) ≡ record { vrfs = (state_of tables.old).vrfs.rows ++ row.now ∷ []; prefixes = (state_of tables.old).prefixes.rows }) }
{
    let _id = row.id;
    let row = row.copy()?;
    tables.admit(View::Vrf(row))
}

/// Puts a copy of a prefix after all others. `Err` means out of memory.
fn admit_prefix(tables: &mut RowTables, row: &Prefix) -> Result<(), AllocError>
    requires low { 1 ≤ row.now.id }
    requires above { AllBelow prefix_id row.now.id (state_of tables.old).prefixes.rows }
    ensures { OnOk result (lists_of (state_of tables.new) ≡ record { vrfs = (state_of tables.old).vrfs.rows; prefixes = (state_of tables.old).prefixes.rows ++ row.now ∷ [] }) }
{
    let _id = row.id;
    let row = row.copy()?;
    tables.admit(View::Prefix {
        row,
        depth: 0,
        children: 0,
    })
}

/// Puts copies of VRFs, of which there are none yet. `Err` means out of memory.
fn admit_vrfs(tables: &mut RowTables, rows: &[Vrf]) -> Result<(), AllocError>
    requires ordered { Rises vrf_id 0 rows.now }
    requires none_yet { (state_of tables.old).vrfs.rows ≡ [] }
    ensures { OnOk result (lists_of (state_of tables.new) ≡ record { vrfs = rows.now; prefixes = (state_of tables.old).prefixes.rows }) }
{
    for row in rows {
        admit_vrf(tables, row)?;
    }
    Ok(())
}

/// Puts copies of the prefixes of a book, of which there are none yet. `Err` means out of memory.
fn admit_prefixes<S: Space + Drop>(
    tables: &mut RowTables,
    book: &PrefixBook<S>,
) -> Result<(), AllocError>
    requires none_yet { (state_of tables.old).prefixes.rows ≡ [] }
    ensures { OnOk result (lists_of (state_of tables.new) ≡ record { vrfs = (state_of tables.old).vrfs.rows; prefixes = book.now.rows }) }
{
    for index in 0..book.len() {
        let Some(row) = book.at(index) else {
            unreachable!()
        };
        admit_prefix(tables, row)?;
    }
    Ok(())
}

/// Puts copies of the rows of two books, if there are none yet. `Err` means out of memory.
fn admit_all<S: Space + Drop>(
    tables: &mut RowTables,
    vrfs: &VrfBook,
    prefixes: &PrefixBook<S>,
) -> Result<(), AllocError>
    requires none_yet { lists_of (state_of tables.old) ≡ record { vrfs = []; prefixes = [] } }
    ensures { OnOk result (lists_of (state_of tables.new) ≡ record { vrfs = vrfs.now.rows; prefixes = prefixes.now.rows }) }
{
    admit_vrfs(tables, vrfs.rows())?;
    admit_prefixes(tables, prefixes)
}

impl SnapshotRows {
    /// Copies of the rows of two books. `Err` means out of memory.
    pub fn of<S: Space + Drop>(
        alloc: Global,
        vrfs: &VrfBook,
        prefixes: &PrefixBook<S>,
    ) -> Result<SnapshotRows, AllocError>
        ensures { IfOk result (λ rows. rows ≡ record { vrfs = vrfs.now.rows; prefixes = prefixes.now.rows }) }
    {
        let mut rows = SnapshotRows::new(alloc);
        // The rows are given away on every way out: none has to take them apart.
        match admit_all(&mut rows.tables, vrfs, prefixes) {
            Ok(()) => Ok(rows),
            Err(AllocError) => {
                drop(rows);
                Err(AllocError)
            }
        }
    }
}
