//! How much is used: of a prefix, a range or an aggregate.

ghost use Rattle.std.specs.Prelude.{◌≡◌, ℕ, false, MatchOption};
ghost use Rattle.inet_num.specs.Net.{size_of};
ghost use Rattle.inet_num.specs.Count.{percent_of};
ghost use Rattle.block_space.specs.Listed.{covered_of};
ghost use Rattle.ipam_data.specs.Lawful.{IsLawful};
ghost use Rattle.ipam_data.specs.RowList.{row_at};
ghost use Rattle.ipam_data.specs.Rows.{aggregate_id};
ghost use Rattle.ipam_data.specs.Aggregates.{aggregate_rules};
ghost use Rattle.ipam_data.specs.Prefixes.{prefix_rules};
ghost use Rattle.ipam_data.specs.Claims.{is_container, own_blocks, prefix_figure, aggregate_figure, figure_plan, utilization_plan};
ghost use Rattle.register_tables.specs.Held.{state_of};
ghost use Rattle.register_tables.specs.Planned.{IsPlanned};
ghost use Rattle.register_claims.specs.Children.{IsThere};

use crate::children::{is_container, own_space};
use crate::hosts::{hosts_figure, plan_range_figure};
use ipam_data::aggregate::Aggregate;
use ipam_data::kinds::Kind;
use ipam_data::prefix::Prefix;
use ipam_data::replies::{Refusal, Reply};
use placed_book::Book;
use register_tables::{Planned, RowTables};
use utilisation::{of_aggregate, of_container};

/// How much of an existing prefix the prefixes of its table inside it cover.
fn container_figure(row_tables: &RowTables, row: &Prefix) -> u8
    requires lawful { IsLawful (state_of row_tables.now) }
    requires there { IsThere row_tables.now.prefixes.rows row.now }
    ensures { result ≡ percent_of (covered_of (own_blocks row_tables.now.prefixes.rows row.now) row.now.block) (size_of row.now.block) }
{
    of_container(own_space(row_tables.prefixes(), row), row.block)
}

/// How much of an existing prefix is used, if that does not rest on its addresses: it counts as full, or is a container.
fn settled_figure(row_tables: &RowTables, row: &Prefix) -> Option<u8>
    requires lawful { IsLawful (state_of row_tables.now) }
    requires there { IsThere row_tables.now.prefixes.rows row.now }
    ensures { MatchOption result ((row.now.mark_utilized ≡ false) × (is_container row.now.status ≡ false)) (λ n. n ≡ prefix_figure (state_of row_tables.now) row.now) }
{
    if row.mark_utilized {
        return Some(100);
    }
    if is_container(row.status) {
        return Some(container_figure(row_tables, row));
    }
    None
}

/// How much of an aggregate the prefixes of every table cover.
fn figure_of_aggregate(row_tables: &RowTables, row: &Aggregate) -> u8
    requires lawful { IsLawful (state_of row_tables.now) }
    requires there { row_at aggregate_id row_tables.now.aggregates.rows row.now.id ≡ Some row.now }
    ensures { result ≡ aggregate_figure (state_of row_tables.now) row.now }
{
    of_aggregate(row_tables.prefixes().all(row.block.family()), row.block)
}

/// Reads how much of the aggregate of an id is used.
fn plan_aggregate_figure(row_tables: &RowTables, id: u32) -> Planned
    requires { IsLawful (state_of row_tables.now) }
    ensures { IsPlanned (figure_plan aggregate_rules aggregate_figure (state_of row_tables.now) id) result }
{
    match row_tables.aggregates().get(id) {
        Some(row) => Planned::Read(Reply::Percent(figure_of_aggregate(row_tables, row))),
        None => Planned::Refused(Refusal::NotFound(Kind::Aggregates, id)),
    }
}

/// How much of an existing prefix is used, in whole percent. It takes no memory.
fn figure_of_prefix(row_tables: &RowTables, row: &Prefix) -> u8
    requires lawful { IsLawful (state_of row_tables.now) }
    requires there { IsThere row_tables.now.prefixes.rows row.now }
    ensures { result ≡ prefix_figure (state_of row_tables.now) row.now }
{
    match settled_figure(row_tables, row) {
        Some(figure) => figure,
        None => hosts_figure(row_tables, row),
    }
}

/// Reads how much of the prefix of an id is used.
fn plan_prefix_figure(row_tables: &RowTables, id: u32) -> Planned
    requires { IsLawful (state_of row_tables.now) }
    ensures { IsPlanned (figure_plan prefix_rules prefix_figure (state_of row_tables.now) id) result }
{
    match row_tables.prefixes().get(id) {
        Some(row) => Planned::Read(Reply::Percent(figure_of_prefix(row_tables, row))),
        None => Planned::Refused(Refusal::NotFound(Kind::Prefixes, id)),
    }
}

/// Reads how much of the row of an id is used, in whole percent; a row of a kind that has no figure is not there. It takes no memory.
pub fn plan_utilization(row_tables: &RowTables, kind: Kind, id: u32) -> Planned
    requires { IsLawful (state_of row_tables.now) }
    ensures { IsPlanned (utilization_plan (state_of row_tables.now) kind id) result }
{
    match kind {
        Kind::Aggregates => plan_aggregate_figure(row_tables, id),
        Kind::Prefixes => plan_prefix_figure(row_tables, id),
        Kind::Ranges => plan_range_figure(row_tables, id),
        Kind::Vrfs => Planned::Refused(Refusal::NotFound(Kind::Vrfs, id)),
        Kind::Rirs => Planned::Refused(Refusal::NotFound(Kind::Rirs, id)),
        Kind::Roles => Planned::Refused(Refusal::NotFound(Kind::Roles, id)),
        Kind::Addresses => Planned::Refused(Refusal::NotFound(Kind::Addresses, id)),
    }
}
