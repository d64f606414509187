//! Whether tables are in order.

ghost use Rattle.std.specs.Prelude.{◌≡◌, IsTrue, ◌≤◌};
ghost use Rattle.ipam_data.specs.RowList.{Rises};
ghost use Rattle.stored_tables.specs.Stored.{kind_number, row_place, next_place};
ghost use Rattle.stored_tables.specs.Order.{AreTables};

use ipam_data::kinds::Kind;
use stored_tables::tables::{Row, Tables};

/// Where a row is among all rows.
fn place_of(row: &Row) -> u64
    ensures { result ≡ row_place row.now }
{
    row.kind.number() as u64 * 4_294_967_296 + row.id as u64
}

/// Whether rows are in the order of their kinds and ids, none twice.
fn rows_rise(rows: &[Row]) -> bool
    ensures { IsTrue result → Rises row_place 0 rows.now }
{
    let mut last = 0u64;
    for row in rows {
        let place = place_of(row);
        if place <= last {
            return false;
        }
        last = place;
    }
    true
}

/// Whether next ids are in the order of their kinds, none twice.
fn nexts_rise(nexts: &[(Kind, u32)]) -> bool
    ensures { IsTrue result → Rises next_place 0 nexts.now }
{
    let mut last = 0u64;
    for next in nexts {
        let place = next.0.number() as u64;
        if place <= last {
            return false;
        }
        last = place;
    }
    true
}

/// Whether tables are in order.
pub(crate) fn are_in_order(tables: &Tables) -> bool
    ensures { IsTrue result → AreTables tables.now }
{
    rows_rise(tables.rows.as_slice()) && nexts_rise(tables.next.as_slice())
}
