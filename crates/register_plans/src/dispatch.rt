//! What each call leads to, by its kind: a line a kind in each dispatch.

ghost use Rattle.std.specs.Prelude.{◌≡◌, IfOk};
ghost use Rattle.ipam_data.specs.Lawful.{IsLawful};
ghost use Rattle.ipam_data.specs.Steps.{create_plan, change_plan, delete_plan, get_plan, list_plan};
ghost use Rattle.register_tables.specs.Held.{state_of};
ghost use Rattle.register_tables.specs.Planned.{IsPlanned};
ghost use Rattle.register_plans.specs.Broken.{broken_new};

use crate::calls::{broken, plan_create, plan_delete, plan_get, plan_list};
use crate::{addresses, aggregate, prefixes, ranges, rirs, roles, vrfs};
use ipam_data::address::IpAddress;
use ipam_data::aggregate::Aggregate;
use ipam_data::calls::{Draft, Edit, Filter};
use ipam_data::kinds::Kind;
use ipam_data::prefix::Prefix;
use ipam_data::range::IpRange;
use ipam_data::replies::{Rule, View};
use ipam_data::rir::Rir;
use ipam_data::role::Role;
use ipam_data::vrf::Vrf;
use register_tables::{Planned, RowTables};
use std::alloc::AllocError;

/// The first rule that a row breaks that no call makes, given the existing rows, the rows that it names first: an address that was
/// in a range before somebody else filled it stays.
pub fn broken_by_view(row_tables: &RowTables, view: &View) -> Option<Rule>
    ensures { result ≡ broken_new (state_of row_tables.now) view.now }
{
    match view {
        View::Vrf(row) => broken(row_tables, row),
        View::Rir(row) => broken(row_tables, row),
        View::Role(row) => broken(row_tables, row),
        View::Aggregate(row) => broken(row_tables, row),
        View::Prefix {
            row,
            depth: _,
            children: _,
        } => broken(row_tables, row),
        View::IpRange(row) => broken(row_tables, row),
        View::IpAddress(row) => addresses::standing_fault(row_tables, row),
    }
}

/// Plans the row of a draft. `Err` means out of memory.
pub fn plan_draft(row_tables: &RowTables, draft: &Draft) -> Result<Planned, AllocError>
    ensures { IfOk result (λ p. IsPlanned (create_plan (state_of row_tables.now) draft.now) p) }
{
    match draft {
        Draft::Vrf { .. } => plan_create(
            row_tables,
            Vrf::drafted(row_tables.next(Kind::Vrfs), draft)?,
        ),
        Draft::Rir { .. } => plan_create(
            row_tables,
            Rir::drafted(row_tables.next(Kind::Rirs), draft)?,
        ),
        Draft::Role { .. } => plan_create(
            row_tables,
            Role::drafted(row_tables.next(Kind::Roles), draft)?,
        ),
        Draft::Aggregate { .. } => plan_create(
            row_tables,
            Aggregate::drafted(row_tables.next(Kind::Aggregates), draft)?,
        ),
        Draft::Prefix { .. } => plan_create(
            row_tables,
            Prefix::drafted(row_tables.next(Kind::Prefixes), draft)?,
        ),
        Draft::IpRange { .. } => ranges::plan_draft(row_tables, draft),
        Draft::IpAddress { .. } => plan_create(
            row_tables,
            IpAddress::drafted(row_tables.next(Kind::Addresses), draft)?,
        ),
    }
}

/// Plans the row of an id with the fields of an edit changed. `Err` means out of memory.
pub fn plan_edit(row_tables: &RowTables, id: u32, edit: &Edit) -> Result<Planned, AllocError>
    ensures { IfOk result (λ p. IsPlanned (change_plan (state_of row_tables.now) id edit.now) p) }
{
    match edit {
        Edit::Vrf { .. } => vrfs::plan_edit(row_tables, id, edit),
        Edit::Rir { .. } => rirs::plan_edit(row_tables, id, edit),
        Edit::Role { .. } => roles::plan_edit(row_tables, id, edit),
        Edit::Aggregate { .. } => aggregate::plan_edit(row_tables, id, edit),
        Edit::Prefix { .. } => prefixes::plan_edit(row_tables, id, edit),
        Edit::IpRange { .. } => ranges::plan_edit(row_tables, id, edit),
        Edit::IpAddress { .. } => addresses::plan_edit(row_tables, id, edit),
    }
}

/// Plans that the row of an id is taken out. `Err` means out of memory.
pub fn plan_gone(row_tables: &RowTables, kind: Kind, id: u32) -> Result<Planned, AllocError>
    ensures { IfOk result (λ p. IsPlanned (delete_plan (state_of row_tables.now) kind id) p) }
{
    match kind {
        Kind::Vrfs => plan_delete::<Vrf>(row_tables, id),
        Kind::Rirs => plan_delete::<Rir>(row_tables, id),
        Kind::Roles => plan_delete::<Role>(row_tables, id),
        Kind::Aggregates => plan_delete::<Aggregate>(row_tables, id),
        Kind::Prefixes => plan_delete::<Prefix>(row_tables, id),
        Kind::Ranges => plan_delete::<IpRange>(row_tables, id),
        Kind::Addresses => plan_delete::<IpAddress>(row_tables, id),
    }
}

/// Reads the row of an id. `Err` means out of memory.
pub fn plan_one(row_tables: &RowTables, kind: Kind, id: u32) -> Result<Planned, AllocError>
    ensures { IfOk result (λ p. IsPlanned (get_plan (state_of row_tables.now) kind id) p) }
{
    match kind {
        Kind::Vrfs => plan_get::<Vrf>(row_tables, id),
        Kind::Rirs => plan_get::<Rir>(row_tables, id),
        Kind::Roles => plan_get::<Role>(row_tables, id),
        Kind::Aggregates => plan_get::<Aggregate>(row_tables, id),
        Kind::Prefixes => plan_get::<Prefix>(row_tables, id),
        Kind::Ranges => plan_get::<IpRange>(row_tables, id),
        Kind::Addresses => plan_get::<IpAddress>(row_tables, id),
    }
}

/// Reads the rows of a page, and how many meet the filter. `Err` means out of memory.
pub fn plan_page(
    row_tables: &RowTables,
    filter: &Filter,
    limit: u32,
    offset: u32,
) -> Result<Planned, AllocError>
    requires { IsLawful (state_of row_tables.now) }
    ensures { IfOk result (λ p. IsPlanned (list_plan (state_of row_tables.now) filter.now limit offset) p) }
{
    match filter {
        Filter::Vrfs { name: _, rd: _ } => plan_list::<Vrf>(row_tables, filter, limit, offset),
        Filter::Rirs { name: _, slug: _ } => plan_list::<Rir>(row_tables, filter, limit, offset),
        Filter::Roles { name: _, slug: _ } => plan_list::<Role>(row_tables, filter, limit, offset),
        Filter::Aggregates {
            family: _,
            rir_id: _,
        } => plan_list::<Aggregate>(row_tables, filter, limit, offset),
        Filter::Prefixes {
            family: _,
            vrf_id: _,
            status: _,
            role_id: _,
            prefix: _,
            within: _,
            within_include: _,
            contains: _,
        } => plan_list::<Prefix>(row_tables, filter, limit, offset),
        Filter::Ranges {
            family: _,
            vrf_id: _,
            status: _,
            role_id: _,
            contains: _,
        } => plan_list::<IpRange>(row_tables, filter, limit, offset),
        Filter::Addresses {
            family: _,
            vrf_id: _,
            status: _,
            role: _,
            parent: _,
            dns_name: _,
        } => plan_list::<IpAddress>(row_tables, filter, limit, offset),
    }
}
