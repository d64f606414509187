//! Ranges: runs of addresses of a table. Two of one table never share an address.

ghost use Rattle.std.specs.Prelude.{◌≡◌, ◌==◌, ◌∷◌, [], Some, IfOk};
ghost use Rattle.inet_num.specs.Net.{first_of, last_of};
ghost use Rattle.ipam_data.specs.declared.kinds.Kind.TheVariants.{Vrfs, Roles, Ranges};
ghost use Rattle.ipam_data.specs.RowList.{row_at};
ghost use Rattle.ipam_data.specs.Rows.{vrf_id, role_id, range_id, range_status_number};
ghost use Rattle.ipam_data.specs.Checks.{first, asks, no_such};
ghost use Rattle.inet_num.specs.Blocks.{is_run_inside};
ghost use Rattle.ipam_data.specs.Plans.{change, replace};
ghost use Rattle.ipam_data.specs.ByKind.{by_view};
ghost use Rattle.ipam_data.specs.Fields.{drafted, told_of_draft, kind_of_draft, edited_range, told_of_change};
ghost use Rattle.ipam_data.specs.Steps.{next_for, create_plan};
ghost use Rattle.ipam_data.specs.Ranges.{range_rules, range_told, range_family};
ghost use Rattle.register_tables.specs.Held.{state_of};
ghost use Rattle.register_tables.specs.Planned.{IsPlanned};
ghost use Rattle.register_plans.specs.Meets.{range_meets};

use crate::calls::{plan_create, plan_replace};
use crate::filters::{asks_family, asks_name};
use crate::listed::Listed;
use crate::registered::Registered;
use inet_num::{Addr, Block, is_in_run, is_one_family};
use ipam_data::calls::{Draft, Edit, Filter};
use ipam_data::edits::edited_value;
use ipam_data::host::Host;
use ipam_data::kinds::Kind;
use ipam_data::range::{IpRange, MOST_RANGES, RangeStatus};
use ipam_data::replies::{Refusal, Rule, View};
use placed_book::Book;
use register_tables::{Planned, RowTables, missing_role, missing_vrf};
use std::alloc::AllocError;

/// Why start and end make no range, by their families.
fn family_fault(start: Addr, end: Addr) -> Option<Rule>
    ensures { result ≡ range_family start end }
{
    if is_one_family(start.family(), end.family()) {
        return None;
    }
    Some(Rule::RangeFamily)
}

/// What is said of the ends of a draft, besides its row: their families, then their masks.
fn told(start: Host, end: Host) -> Option<Rule>
    ensures { result ≡ first (range_told start end) }
{
    if let Some(rule) = family_fault(start.addr(), end.addr()) {
        return Some(rule);
    }
    if start.len() == end.len() {
        return None;
    }
    Some(Rule::RangeMask)
}

/// The first row that a range names and that is not there.
fn missing(row_tables: &RowTables, vrf: Option<u32>, role: Option<u32>) -> Option<Rule>
    ensures { result ≡ first (no_such Vrfs (row_at vrf_id row_tables.now.vrfs.rows) vrf ∷ no_such Roles (row_at role_id row_tables.now.roles.rows) role ∷ []) }
{
    if let Some(rule) = missing_vrf(row_tables, vrf) {
        return Some(rule);
    }
    missing_role(row_tables, role)
}

/// Whether the status is the one that is asked for.
fn asks_status(wanted: &Option<RangeStatus>, status: RangeStatus) -> bool
    ensures { result ≡ asks wanted.now (λ t. range_status_number status == range_status_number t) }
{
    match wanted {
        None => true,
        Some(wanted) => status.number() == wanted.number(),
    }
}

/// Whether the range has all addresses of the block that is asked for.
fn asks_contained(wanted: &Option<Block>, start: Addr, end: Addr) -> bool
    ensures { result ≡ asks wanted.now (λ b. is_run_inside (first_of b) (last_of b) start end) }
{
    match wanted {
        None => true,
        Some(wanted) => is_in_run(wanted.first(), wanted.last(), start, end),
    }
}

impl Listed for IpRange {
    ghost rules = { range_rules };

    ghost meets = { range_meets };

    fn kind() -> Kind {
        Kind::Ranges
    }

    fn copied(&self) -> Result<IpRange, AllocError> {
        self.copy()
    }

    fn into_view(self) -> View {
        View::IpRange(self)
    }

    fn is_met(&self, filter: &Filter) -> bool {
        match filter {
            Filter::Ranges {
                family,
                vrf_id,
                status,
                role_id,
                contains,
            } => {
                asks_family(family, self.ends.start().family())
                    && asks_name(vrf_id, self.vrf)
                    && asks_status(status, self.status)
                    && asks_name(role_id, self.role)
                    && asks_contained(contains, self.ends.start(), self.ends.end())
            }
            _ => false,
        }
    }
}

impl Registered for IpRange {
    fn most() -> u32 {
        MOST_RANGES
    }

    fn found<'a>(row_tables: &'a RowTables, id: u32) -> Option<&'a IpRange> {
        row_tables.ranges().get(id)
    }

    fn count(row_tables: &RowTables) -> u32 {
        row_tables.ranges().len()
    }

    fn nth<'a>(row_tables: &'a RowTables, index: u32) -> Option<&'a IpRange> {
        row_tables.ranges().at(index)
    }

    fn next(row_tables: &RowTables) -> u32 {
        row_tables.next(Kind::Ranges)
    }

    fn missing(&self, row_tables: &RowTables) -> Option<Rule> {
        missing(row_tables, self.vrf, self.role)
    }

    fn fault_new(&self, row_tables: &RowTables) -> Option<Rule> {
        row_tables.ranges().fault(self)
    }

    fn fault_changed(&self, row_tables: &RowTables) -> Option<Rule> {
        row_tables.ranges().fault(self)
    }

    fn user(_row_tables: &RowTables, _id: u32) -> Option<Refusal> {
        None
    }

    fn forgetting(row_tables: &RowTables, _id: u32) -> Result<Vec<View>, AllocError> {
        Ok(Vec::new(row_tables.allocator()))
    }
}

/// The first row that the range of a draft names and that is not there.
fn missing_drafted(row_tables: &RowTables, draft: &Draft) -> Option<Rule>
    requires { kind_of_draft draft.now ≡ Ranges }
    ensures { result ≡ by_view (drafted (next_for (state_of row_tables.now) draft.now) draft.now) (λ T rules row. first (rules.references (state_of row_tables.now) row)) }
{
    match draft {
        Draft::IpRange { vrf, role, .. } => missing(row_tables, *vrf, *role),
        _ => unreachable!(),
    }
}

/// What is said of a draft, besides its row.
fn told_drafted(draft: &Draft) -> Option<Rule>
    ensures { result ≡ first (told_of_draft draft.now) }
{
    match draft {
        Draft::IpRange { start, end, .. } => told(*start, *end),
        _ => None,
    }
}

/// Plans a range more. `Err` means out of memory.
pub fn plan_draft(row_tables: &RowTables, draft: &Draft) -> Result<Planned, AllocError>
    requires { kind_of_draft draft.now ≡ Ranges }
    ensures { IfOk result (λ p. IsPlanned (create_plan (state_of row_tables.now) draft.now) p) }
{
    if let Some(rule) = missing_drafted(row_tables, draft) {
        return Ok(Planned::Refused(Refusal::Rule(rule)));
    }
    if let Some(rule) = told_drafted(draft) {
        return Ok(Planned::Refused(Refusal::Rule(rule)));
    }
    let row = IpRange::drafted(row_tables.next(Kind::Ranges), draft)?;
    plan_create(row_tables, row)
}

/// The first row that the range which an edit leaves names and that is not there.
fn missing_edited(row_tables: &RowTables, old: &IpRange, edit: &Edit) -> Option<Rule>
    ensures { result ≡ first (range_rules.references (state_of row_tables.now) (edited_range edit.now old.now)) }
{
    match edit {
        Edit::IpRange { vrf, role, .. } => missing(
            row_tables,
            edited_value(*vrf, old.vrf),
            edited_value(*role, old.role),
        ),
        _ => missing(row_tables, old.vrf, old.role),
    }
}

/// What is said of the ends that an edit leaves.
fn told_edited(old: &IpRange, edit: &Edit) -> Option<Rule>
    ensures { result ≡ first (told_of_change edit.now old.now) }
{
    match edit {
        Edit::IpRange { start, end, .. } => told(
            edited_value(*start, old.start()),
            edited_value(*end, old.end()),
        ),
        _ => None,
    }
}

/// Plans the range that an edit leaves in the place of the old one. `Err` means out of memory.
fn plan_edited(row_tables: &RowTables, old: &IpRange, edit: &Edit) -> Result<Planned, AllocError>
    requires { row_at range_id row_tables.now.ranges.rows old.now.id ≡ Some old.now }
    ensures { IfOk result (λ p. IsPlanned (replace range_rules (state_of row_tables.now) old.now (told_of_change edit.now old.now) (edited_range edit.now old.now)) p) }
{
    if let Some(rule) = missing_edited(row_tables, old, edit) {
        return Ok(Planned::Refused(Refusal::Rule(rule)));
    }
    if let Some(rule) = told_edited(old, edit) {
        return Ok(Planned::Refused(Refusal::Rule(rule)));
    }
    let row = old.edited(edit)?;
    plan_replace(row_tables, row)
}

/// Plans the range of an id with the fields of an edit changed; an end that is not given keeps the row's mask. `Err` means out
/// of memory.
pub fn plan_edit(row_tables: &RowTables, id: u32, edit: &Edit) -> Result<Planned, AllocError>
    ensures { IfOk result (λ p. IsPlanned (change range_rules (state_of row_tables.now) id (told_of_change edit.now) (edited_range edit.now)) p) }
{
    match IpRange::found(row_tables, id) {
        None => Ok(Planned::Refused(Refusal::NotFound(Kind::Ranges, id))),
        Some(old) => plan_edited(row_tables, old, edit),
    }
}
