//! Why a record can't be made, but for the log.

ghost use Rattle.std.specs.Prelude.{◌≡◌, []};
ghost use Rattle.ipam_data.specs.ByKind.{by_view};
ghost use Rattle.ipam_data.specs.Checks.{first};
ghost use Rattle.ipam_data.specs.Plans.{creation};
ghost use Rattle.register_tables.specs.Held.{state_of};

use crate::calls::{broken, no_room_for_one};
use crate::registered::Registered;
use ipam_data::replies::{Refusal, View};
use register_tables::RowTables;

/// Why a row can't be made, if so, while nothing is said of its draft; the log has no say.
fn check_row<T: Registered>(row_tables: &RowTables, row: &T) -> Option<Refusal>
    ensures { result ≡ first (creation T.rules (state_of row_tables.now) [] row.now) }
{
    if let Some(rule) = broken(row_tables, row) {
        return Some(Refusal::Rule(rule));
    }
    no_room_for_one(
        T::kind(),
        T::most(),
        T::count(row_tables),
        T::next(row_tables),
    )
}

/// The same of a row of any kind.
pub(crate) fn check_view(row_tables: &RowTables, view: &View) -> Option<Refusal>
    ensures { result ≡ by_view view.now (λ T rules row. first (creation rules (state_of row_tables.now) [] row)) }
{
    match view {
        View::Vrf(row) => check_row(row_tables, row),
        View::Rir(row) => check_row(row_tables, row),
        View::Role(row) => check_row(row_tables, row),
        View::Aggregate(row) => check_row(row_tables, row),
        View::Prefix {
            row,
            depth: _,
            children: _,
        } => check_row(row_tables, row),
        View::IpRange(row) => check_row(row_tables, row),
        View::IpAddress(row) => check_row(row_tables, row),
    }
}
