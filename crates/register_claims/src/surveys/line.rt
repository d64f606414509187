//! The line of a prefix.

ghost use Rattle.std.specs.Prelude.{◌≡◌, ℕ, Contains};
ghost use Rattle.ipam_data.specs.declared.replies.Reply.TheVariants.{Percent};
ghost use Rattle.ipam_data.specs.Claims.{prefix_figure};
ghost use Rattle.ipam_data.specs.Lawful.{IsLawful};
ghost use Rattle.register_tables.specs.declared.planned.Planned.TheVariants.{Read};
ghost use Rattle.register_tables.specs.Held.{state_of};
ghost use Rattle.ipam_data.specs.Survey.{line_of};
ghost use Rattle.register_claims.specs.PlaceDigits.{placed_row};

use crate::figures::plan_utilization;
use crate::surveys::place::{Place, place_of};
use ipam_data::kinds::{Kind, Table};
use ipam_data::prefix::Prefix;
use ipam_data::replies::Reply;
use ipam_data::survey::PrefixLine;
use prefix_rules::PrefixRules;
use register_tables::{Planned, RowTables};

/// A line with the place of its prefix.
#[derive(Clone, Copy, Debug)]
pub(crate) struct Placed {
    pub(crate) place: Place,
    pub(crate) line: PrefixLine,
}

/// The figure that a reply is.
fn percent_in(reply: &Reply) -> u8
    requires { (n : ℕ) × (reply.now ≡ Percent n) }
    ensures { reply.now ≡ Percent result }
{
    match reply {
        Reply::Percent(figure) => *figure,
        _ => unreachable!(),
    }
}

/// The figure that is read.
fn figure_in(planned: &Planned) -> u8
    requires { (n : ℕ) × (planned.now ≡ Read (Percent n)) }
    ensures { planned.now ≡ Read (Percent result) }
{
    match planned {
        Planned::Read(reply) => percent_in(reply),
        _ => unreachable!(),
    }
}

/// How much of an existing prefix is used.
fn figure_of(row_tables: &RowTables, row: &Prefix) -> u8
    requires lawful { IsLawful (state_of row_tables.now) }
    requires there { Contains row_tables.now.prefixes.rows row.now }
    ensures { result ≡ prefix_figure (state_of row_tables.now) row.now }
{
    let planned = plan_utilization(row_tables, Kind::Prefixes, row.id);
    let figure = figure_in(&planned);
    drop(planned);
    figure
}

/// What is said of an existing prefix.
fn line_of(row_tables: &RowTables, row: &Prefix) -> PrefixLine
    requires lawful { IsLawful (state_of row_tables.now) }
    requires there { Contains row_tables.now.prefixes.rows row.now }
    ensures { result ≡ line_of (state_of row_tables.now) row.now }
{
    PrefixLine {
        table: Table::of(row.vrf),
        depth: row_tables.prefixes().depth_of(row),
        block: row.block,
        status: row.status,
        percent: figure_of(row_tables, row),
    }
}

/// The line of an existing prefix, with its place.
pub(crate) fn placed_line(row_tables: &RowTables, row: &Prefix) -> Placed
    requires lawful { IsLawful (state_of row_tables.now) }
    requires there { Contains row_tables.now.prefixes.rows row.now }
    ensures { result ≡ placed_row (state_of row_tables.now) row.now }
{
    Placed {
        place: place_of(row),
        line: line_of(row_tables, row),
    }
}
