//! What each call leads to: a line a call.

ghost use Rattle.std.specs.Prelude.{◌≡◌, IfOk};
ghost use Rattle.ipam_data.specs.Lawful.{IsLawful};
ghost use Rattle.ipam_data.specs.Steps.{plan_of};
ghost use Rattle.register_tables.specs.Held.{state_of};
ghost use Rattle.register_tables.specs.Planned.{IsPlanned};

use ipam_data::calls::Call;
use register_claims::{
    plan_available_blocks, plan_claim_blocks, plan_claim_prefix_addrs, plan_claim_range_addrs,
    plan_prefix_addrs, plan_range_addrs, plan_survey, plan_utilization,
};
use register_plans::{
    plan_draft, plan_edit, plan_gone, plan_import, plan_one, plan_page, plan_rows,
};
use register_tables::{Planned, RowTables};
use std::alloc::AllocError;

/// What a call leads to. The state stays: a claim of blocks takes a space out of its book and puts it back, an import makes its rows
/// and cuts them again, and all others change nothing. `Err` means out of memory.
pub(crate) fn plan(row_tables: &mut RowTables, call: &Call) -> Result<Planned, AllocError>
    requires { IsLawful (state_of row_tables.old) }
    ensures state { state_of row_tables.new ≡ state_of row_tables.old }
    ensures plan { IfOk result (λ p. IsPlanned (plan_of (state_of row_tables.old) call.now) p) }
{
    match call {
        Call::List {
            kind: _,
            filter,
            limit,
            offset,
        } => plan_page(row_tables, filter, *limit, *offset),
        Call::Get { kind, id } => plan_one(row_tables, *kind, *id),
        Call::Create { draft } => plan_draft(row_tables, draft),
        Call::Change { id, edit } => plan_edit(row_tables, *id, edit),
        Call::Delete { kind, id } => plan_gone(row_tables, *kind, *id),
        Call::Blocks { id, limit } => plan_available_blocks(row_tables, *id, *limit),
        Call::PrefixAddrs { id, limit } => plan_prefix_addrs(row_tables, *id, *limit),
        Call::RangeAddrs { id, limit } => plan_range_addrs(row_tables, *id, *limit),
        Call::ClaimBlocks {
            id,
            answered,
            items,
        } => plan_claim_blocks(row_tables, *id, *answered, items.as_slice()),
        Call::ClaimPrefixAddrs {
            id,
            answered,
            items,
        } => plan_claim_prefix_addrs(row_tables, *id, *answered, items.as_slice()),
        Call::ClaimRangeAddrs {
            id,
            answered,
            items,
        } => plan_claim_range_addrs(row_tables, *id, *answered, items.as_slice()),
        Call::Utilization { kind, id } => Ok(plan_utilization(row_tables, *kind, *id)),
        Call::Import { kind, rows } => plan_import(row_tables, *kind, rows.as_slice()),
        Call::Export { kind } => plan_rows(row_tables, *kind),
        Call::Survey => plan_survey(row_tables),
    }
}
