//! Records that were made are taken back.

ghost use Rattle.std.specs.Prelude.{◌≡◌};
ghost use Rattle.register_tables.specs.Held.{state_of};
ghost use Rattle.register_plans.specs.UndoneRecords.{taken_back};

use ipam_data::kinds::Kind;
use register_tables::RowTables;

/// Takes the rows of a kind from an id on out, the last one first, and makes that id the next one again. It takes no memory.
pub(crate) fn take_back(row_tables: &mut RowTables, kind: Kind, first: u32)
    ensures { state_of row_tables.new ≡ taken_back (state_of row_tables.old) kind first }
{
    let next = row_tables.next(kind);
    let made = next.saturating_sub(first);
    'ids: for k in 0..made {
        row_tables.cut(kind, next - 1 - k);
    }
    row_tables.set_next(kind, first);
}
