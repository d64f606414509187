//! Rows as they are answered.

ghost use Rattle.ipam_json.specs.Replies.{view_data};
ghost use Rattle.ipam_json.specs.Written.{Puts, pieces_of, rows_pieces};

use crate::address::put_address;
use crate::aggregate::put_aggregate;
use crate::prefix::put_prefix;
use crate::range::put_range;
use crate::rir::put_rir;
use crate::role::put_role;
use crate::vrf::put_vrf;
use ipam_data::replies::View;
use json::Writer;
use std::alloc::AllocError;

/// Writes a row.
pub(crate) fn put_view(writer: &mut Writer, view: &View) -> Result<(), AllocError>
    ensures { Puts result writer.old writer.new (pieces_of (view_data view.now)) }
{
    match view {
        View::Vrf(row) => put_vrf(writer, row),
        View::Rir(row) => put_rir(writer, row),
        View::Role(row) => put_role(writer, row),
        View::Aggregate(row) => put_aggregate(writer, row),
        View::Prefix {
            row,
            depth,
            children,
        } => put_prefix(writer, row, *depth, *children),
        View::IpRange(row) => put_range(writer, row),
        View::IpAddress(row) => put_address(writer, row),
    }
}

/// Writes rows one after another.
pub(crate) fn put_rows(writer: &mut Writer, views: &[View]) -> Result<(), AllocError>
    ensures { Puts result writer.old writer.new (rows_pieces view_data views.now) }
{
    for view in views {
        put_view(writer, view)?;
    }
    Ok(())
}
