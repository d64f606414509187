//! Rows out of stored rows, each read only if its texts are just those that are written.

ghost use Rattle.std.specs.Prelude.{IfOk};
ghost use Rattle.stored_tables.specs.Stored.{stored_row};
ghost use Rattle.stored_tables.specs.Reading.{IsRead, IsBare};

use crate::address::read_address;
use crate::aggregate::read_aggregate;
use crate::prefix::read_prefix;
use crate::range::read_range;
use crate::rir::read_rir;
use crate::role::read_role;
use crate::tables::Row;
use crate::vrf::read_vrf;
use ipam_data::kinds::Kind;
use ipam_data::replies::View;
use std::alloc::{AllocError, Global};

/// The row, with figures of 0, of a stored row; `None` exactly if its id is 0, or its texts are those of no row of its kind.
/// `Err` means out of memory.
pub fn read_row(alloc: Global, row: &Row) -> Result<Option<View>, AllocError>
    ensures { IfOk result (λ view. IsRead IsBare stored_row row.now view) }
{
    if row.id == 0 {
        return Ok(None);
    }
    let fields = row.fields.as_slice();
    match row.kind {
        Kind::Vrfs => match read_vrf(alloc, row.id, fields)? {
            Some(row) => Ok(Some(View::Vrf(row))),
            None => Ok(None),
        },
        Kind::Rirs => match read_rir(alloc, row.id, fields)? {
            Some(row) => Ok(Some(View::Rir(row))),
            None => Ok(None),
        },
        Kind::Roles => match read_role(alloc, row.id, fields)? {
            Some(row) => Ok(Some(View::Role(row))),
            None => Ok(None),
        },
        Kind::Aggregates => match read_aggregate(alloc, row.id, fields)? {
            Some(row) => Ok(Some(View::Aggregate(row))),
            None => Ok(None),
        },
        Kind::Prefixes => match read_prefix(alloc, row.id, fields)? {
            Some(row) => Ok(Some(View::Prefix {
                row,
                depth: 0,
                children: 0,
            })),
            None => Ok(None),
        },
        Kind::Ranges => match read_range(alloc, row.id, fields)? {
            Some(row) => Ok(Some(View::IpRange(row))),
            None => Ok(None),
        },
        Kind::Addresses => match read_address(alloc, row.id, fields)? {
            Some(row) => Ok(Some(View::IpAddress(row))),
            None => Ok(None),
        },
    }
}
