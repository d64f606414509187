//! Exports over the register's tables: the records of a kind are read as the rows of an import, in the order of their ids.

ghost use Rattle.std.specs.Prelude.{◌≡◌, IfOk, map};
ghost use Rattle.ipam_data.specs.declared.replies.Reply.TheVariants.{Rows as RowsReply};
ghost use Rattle.ipam_data.specs.Exported.{exported};
ghost use Rattle.ipam_data.specs.Lawful.{IsLawful};
ghost use Rattle.ipam_data.specs.State.{reading};
ghost use Rattle.register_tables.specs.Held.{state_of};
ghost use Rattle.register_tables.specs.Planned.{IsPlanned};

mod line;
mod names;

use crate::calls::row_at_index;
use crate::exports::line::Exported;
use ipam_data::address::IpAddress;
use ipam_data::aggregate::Aggregate;
use ipam_data::imports::{ImportRow, ImportRows};
use ipam_data::kinds::Kind;
use ipam_data::prefix::Prefix;
use ipam_data::range::IpRange;
use ipam_data::replies::Reply;
use ipam_data::rir::Rir;
use ipam_data::role::Role;
use ipam_data::vrf::Vrf;
use register_tables::{Planned, RowTables};
use std::alloc::AllocError;

/// The rows of all records of a kind.
fn all_rows<T: Exported>(row_tables: &RowTables) -> Result<Vec<ImportRow>, AllocError>
    requires { IsLawful (state_of row_tables.now) }
    ensures { IfOk result (λ v. v.items ≡ map (T.as_line (state_of row_tables.now)) (T.rules.row_list (state_of row_tables.now)).rows) }
{
    let mut rows = Vec::new(row_tables.allocator());
    let count = T::count(row_tables);
    'records: for index in 0..count {
        let row: &T = row_at_index(row_tables, index);
        rows.push(row.line(row_tables)?)?;
    }
    Ok(rows)
}

/// The rows of all records of a kind, by its name.
fn rows_of(row_tables: &RowTables, kind: Kind) -> Result<Vec<ImportRow>, AllocError>
    requires { IsLawful (state_of row_tables.now) }
    ensures { IfOk result (λ v. v.items ≡ exported (state_of row_tables.now) kind) }
{
    match kind {
        Kind::Vrfs => all_rows::<Vrf>(row_tables),
        Kind::Rirs => all_rows::<Rir>(row_tables),
        Kind::Roles => all_rows::<Role>(row_tables),
        Kind::Aggregates => all_rows::<Aggregate>(row_tables),
        Kind::Prefixes => all_rows::<Prefix>(row_tables),
        Kind::Ranges => all_rows::<IpRange>(row_tables),
        Kind::Addresses => all_rows::<IpAddress>(row_tables),
    }
}

/// Reads the records of a kind as the rows of an import of them. `Err` means out of memory.
pub fn plan_rows(row_tables: &RowTables, kind: Kind) -> Result<Planned, AllocError>
    requires { IsLawful (state_of row_tables.now) }
    ensures { IfOk result (λ p. IsPlanned (reading (RowsReply (exported (state_of row_tables.now) kind))) p) }
{
    let rows = rows_of(row_tables, kind)?;
    Ok(Planned::Read(Reply::Rows(ImportRows::of(rows))))
}
