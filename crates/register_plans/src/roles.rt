//! Roles: their names and slugs are unique, and prefixes and ranges forget one that goes.

ghost use Rattle.std.specs.Prelude.{◌≡◌, ◌<◌, ◌++◌, ◌∷◌, [], Some, IfOk, OnOk, length, slice_get, map};
ghost use Rattle.ipam_data.specs.declared.prefix.Prefix.{Prefix};
ghost use Rattle.ipam_data.specs.declared.range.IpRange.{IpRange};
ghost use Rattle.ipam_data.specs.Plans.{change, nothing_told};
ghost use Rattle.ipam_data.specs.Fields.{edited_role};
ghost use Rattle.ipam_data.specs.Roles.{role_rules};
ghost use Rattle.ipam_data.specs.Prefixes.{prefix_rules, prefixes_without_role};
ghost use Rattle.ipam_data.specs.Ranges.{range_rules, ranges_without_role};
ghost use Rattle.register_tables.specs.Held.{state_of};
ghost use Rattle.register_tables.specs.Planned.{IsPlanned};
ghost use Rattle.register_plans.specs.Meets.{role_meets};

use crate::calls::plan_replace;
use crate::filters::asks_text;
use crate::listed::Listed;
use crate::registered::Registered;
use crate::same::names;
use aggregates::RoleRules;
use ipam_data::calls::{Edit, Filter};
use ipam_data::kinds::Kind;
use ipam_data::prefix::Prefix;
use ipam_data::range::IpRange;
use ipam_data::replies::{Refusal, Rule, View};
use ipam_data::role::{MOST_ROLES, Role};
use placed_book::Book;
use register_tables::{Planned, Prefixes, RowTables};
use std::alloc::AllocError;

/// Adds a prefix without the role, if it has it. `Err` means out of memory.
fn forget_in_prefix(row: &Prefix, id: u32, views: &mut Vec<View>) -> Result<(), AllocError>
    ensures { OnOk result (views.new.items ≡ views.old.items ++ map prefix_rules.view (prefixes_without_role id (row.now ∷ []))) }
{
    if !names(id, row.role) {
        return Ok(());
    }
    let mut copy = row.copy()?;
    copy.role = None;
    views.push(copy.into_view())?;
    Ok(())
}

/// Adds a range without the role, if it has it. `Err` means out of memory.
fn forget_in_range(row: &IpRange, id: u32, views: &mut Vec<View>) -> Result<(), AllocError>
    ensures { OnOk result (views.new.items ≡ views.old.items ++ map range_rules.view (ranges_without_role id (row.now ∷ []))) }
{
    if !names(id, row.role) {
        return Ok(());
    }
    let mut copy = row.copy()?;
    copy.role = None;
    views.push(copy.into_view())?;
    Ok(())
}

/// The prefix at an index that exists.
fn prefix_at(book: &Prefixes, index: u32) -> &Prefix
    requires { index < length book.now.rows }
    ensures { slice_get book.now.rows index ≡ Some result.now }
{
    match book.at(index) {
        Some(row) => row,
        None => unreachable!(),
    }
}

/// Adds the prefixes that have the role, without it. `Err` means out of memory.
fn forget_in_prefixes(book: &Prefixes, id: u32, views: &mut Vec<View>) -> Result<(), AllocError>
    ensures { OnOk result (views.new.items ≡ views.old.items ++ map prefix_rules.view (prefixes_without_role id book.now.rows)) }
{
    let count = book.len();
    'rows: for index in 0..count {
        let row: &Prefix = prefix_at(book, index);
        forget_in_prefix(row, id, views)?;
    }
    Ok(())
}

/// Adds the ranges that have the role, without it. `Err` means out of memory.
fn forget_in_ranges(rows: &[IpRange], id: u32, views: &mut Vec<View>) -> Result<(), AllocError>
    ensures { OnOk result (views.new.items ≡ views.old.items ++ map range_rules.view (ranges_without_role id rows.now)) }
{
    'rows: for row in rows {
        forget_in_range(row, id, views)?;
    }
    Ok(())
}

impl Listed for Role {
    ghost rules = { role_rules };

    ghost meets = { role_meets };

    fn kind() -> Kind {
        Kind::Roles
    }

    fn copied(&self) -> Result<Role, AllocError> {
        self.copy()
    }

    fn into_view(self) -> View {
        View::Role(self)
    }

    fn is_met(&self, filter: &Filter) -> bool {
        match filter {
            Filter::Roles { name, slug } => {
                asks_text(name, self.name.as_str()) && asks_text(slug, self.slug.as_str())
            }
            _ => false,
        }
    }
}

impl Registered for Role {
    fn most() -> u32 {
        MOST_ROLES
    }

    fn found<'a>(row_tables: &'a RowTables, id: u32) -> Option<&'a Role> {
        row_tables.roles().get(id)
    }

    fn count(row_tables: &RowTables) -> u32 {
        row_tables.roles().len()
    }

    fn nth<'a>(row_tables: &'a RowTables, index: u32) -> Option<&'a Role> {
        row_tables.roles().at(index)
    }

    fn next(row_tables: &RowTables) -> u32 {
        row_tables.next(Kind::Roles)
    }

    fn missing(&self, _row_tables: &RowTables) -> Option<Rule> {
        None
    }

    fn fault_new(&self, row_tables: &RowTables) -> Option<Rule> {
        row_tables.roles().fault(self)
    }

    fn fault_changed(&self, row_tables: &RowTables) -> Option<Rule> {
        row_tables.roles().fault(self)
    }

    fn user(_row_tables: &RowTables, _id: u32) -> Option<Refusal> {
        None
    }

    fn forgetting(row_tables: &RowTables, id: u32) -> Result<Vec<View>, AllocError> {
        let mut views = Vec::new(row_tables.allocator());
        forget_in_prefixes(row_tables.prefixes(), id, &mut views)?;
        forget_in_ranges(row_tables.ranges().rows(), id, &mut views)?;
        Ok(views)
    }
}

/// Plans the role of an id with the fields of an edit changed. `Err` means out of memory.
pub fn plan_edit(row_tables: &RowTables, id: u32, edit: &Edit) -> Result<Planned, AllocError>
    ensures { IfOk result (λ p. IsPlanned (change role_rules (state_of row_tables.now) id nothing_told (edited_role edit.now)) p) }
{
    let row = match Role::found(row_tables, id) {
        Some(old) => old.edited(edit)?,
        None => return Ok(Planned::Refused(Refusal::NotFound(Kind::Roles, id))),
    };
    plan_replace(row_tables, row)
}
