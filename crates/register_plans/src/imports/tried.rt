//! The rows of an import are made into records and taken back.

ghost use Rattle.std.specs.Prelude.{◌≡◌, ◌≤◌, IfErr, IfOk, length};
ghost use Rattle.ipam_data.specs.Checks.{first};
ghost use Rattle.ipam_data.specs.Lawful.{IsLawful};
ghost use Rattle.ipam_data.specs.Imports.{begun, row_verdicts};
ghost use Rattle.register_tables.specs.Held.{state_of};
ghost use Rattle.register_plans.specs.ImportHalts.{IsHaltBy};
ghost use Rattle.register_plans.specs.ImportPlan.{AreTried};

use crate::imports::halt::Halt;
use crate::imports::made::make_all;
use crate::imports::undo::take_back;
use ipam_data::imports::ImportRow;
use ipam_data::kinds::Kind;
use ipam_data::replies::View;
use register_tables::RowTables;

/// Copies of the records that the rows of an import make, and the next id of their kind after them.
#[derive(Drop)]
pub(crate) struct Made {
    pub(crate) records: Vec<View>,
    pub(crate) next: u32,
}

/// Makes the records of all rows, one after another, so that each is checked given those before it, and takes them back, also if a
/// row is refused or memory runs out: that takes no memory. The state stays.
pub(crate) fn try_rows(
    row_tables: &mut RowTables,
    kind: Kind,
    rows: &[ImportRow],
) -> Result<Made, Halt>
    requires lawful { IsLawful (state_of row_tables.old) }
    requires few { length rows.now ≤ 10000 }
    ensures state { state_of row_tables.new ≡ state_of row_tables.old }
    ensures made { IfOk result (λ made. AreTried (state_of row_tables.old) kind rows.now made) }
    ensures halted { IfErr result (λ halt. IsHaltBy (first (row_verdicts (state_of row_tables.old) kind (begun (state_of row_tables.old)) 1 rows.now)) halt) }
{
    let start = row_tables.next(kind);
    let made = make_all(row_tables, kind, rows);
    let next = row_tables.next(kind);
    take_back(row_tables, kind, start);
    match made {
        Ok(records) => Ok(Made { records, next }),
        Err(halt) => Err(halt),
    }
}
