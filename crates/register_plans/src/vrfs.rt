//! VRFs: no two have one route distinguisher, one that has rows stays, and a table may enforce only if no two of its rows coincide.

ghost use Rattle.std.specs.Prelude.{◌≡◌, ℕ, ◌<◌, ◌≤◌, ◌&&◌, Some, None, IfOk, find, drop, length, option_map, option_copied, slice_get};
ghost use Rattle.ipam_data.specs.declared.prefix.Prefix.{Prefix};
ghost use Rattle.ipam_data.specs.declared.range.IpRange.{IpRange};
ghost use Rattle.ipam_data.specs.RowList.{least, row_at};
ghost use Rattle.ipam_data.specs.Rows.{vrf_id, prefix_id};
ghost use Rattle.ipam_data.specs.Tables.{is_named};
ghost use Rattle.ipam_data.specs.Plans.{change, nothing_told};
ghost use Rattle.ipam_data.specs.Fields.{edited_vrf};
ghost use Rattle.ipam_data.specs.Checks.{asks};
ghost use Rattle.ipam_data.specs.Vrfs.{vrf_rules, turns_on, coincidence, has_rd};
ghost use Rattle.register_tables.specs.Held.{state_of};
ghost use Rattle.register_tables.specs.Planned.{IsPlanned};
ghost use Rattle.register_plans.specs.Meets.{vrf_meets};

use crate::calls::plan_replace;
use crate::filters::asks_text;
use crate::listed::Listed;
use crate::registered::Registered;
use crate::same::names;
use ip_addresses::AddressRules;
use ipam_data::calls::{Edit, Filter};
use ipam_data::kinds::{Kind, Table};
use ipam_data::range::IpRange;
use ipam_data::replies::{Refusal, Rule, View};
use ipam_data::text::{Distinguisher, Text};
use ipam_data::vrf::{MOST_VRFS, Vrf};
use placed_book::{Book, Located, PlacedBook};
use prefix_rules::PrefixRules;
use radix_tree::Tree;
use register_tables::{Planned, RowTables};
use std::alloc::AllocError;
use vrf_table::VrfRules;

/// The least id of a row that names the VRF.
fn user_in<T: Located + Drop>(book: &PlacedBook<T, Tree>, id: u32) -> Option<u32>
    ensures { result ≡ least T.id_of (λ (row : T). is_named id (T.placed row).vrf) book.now.rows }
{
    let count = book.len();
    'rows: for index in 0..count {
        if let Some(row) = book.at(index) {
            if names(id, row.vrf()) {
                return Some(row.id());
            }
        }
    }
    None
}

/// The first range of a VRF.
fn range_of(rows: &[IpRange], id: u32) -> Option<&IpRange>
    ensures { option_copied result ≡ find (λ (row : IpRange). is_named id row.vrf) rows.now }
{
    rows.iter().find(|row| names(id, row.vrf))
}

/// Whether the change to this row turns enforcing on.
fn is_turned_on(row_tables: &RowTables, row: &Vrf) -> bool
    ensures { result ≡ turns_on (row_at vrf_id row_tables.now.vrfs.rows row.now.id) row.now }
{
    match row_tables.vrfs().get(row.id) {
        Some(old) => !old.enforce_unique && row.enforce_unique,
        None => false,
    }
}

/// Two rows of the VRF's table that may not be in it once it enforces, if it is to: prefixes before addresses.
fn coinciding(row_tables: &RowTables, row: &Vrf) -> Option<Rule>
    ensures { result ≡ coincidence (state_of row_tables.now) (row_at vrf_id row_tables.now.vrfs.rows row.now.id) row.now }
{
    if !is_turned_on(row_tables, row) {
        return None;
    }
    if let Some((a, b)) = row_tables.prefixes().coincide(Table::Of(row.id)) {
        return Some(Rule::Coincide(Kind::Prefixes, a, b));
    }
    match row_tables.addresses().coincide(Table::Of(row.id)) {
        Some((a, b)) => Some(Rule::Coincide(Kind::Addresses, a, b)),
        None => None,
    }
}

/// Whether the route distinguisher is the one that is asked for.
fn asks_distinguisher(wanted: &Option<Text>, rd: &Option<Distinguisher>) -> bool
    ensures { result ≡ asks wanted.now (λ w. has_rd w rd.now) }
{
    match (wanted, rd) {
        (None, _) => true,
        (Some(wanted), Some(rd)) => rd.as_str() == wanted.as_str(),
        (Some(_), None) => false,
    }
}

impl Listed for Vrf {
    ghost rules = { vrf_rules };

    ghost meets = { vrf_meets };

    fn kind() -> Kind {
        Kind::Vrfs
    }

    fn copied(&self) -> Result<Vrf, AllocError> {
        self.copy()
    }

    fn into_view(self) -> View {
        View::Vrf(self)
    }

    fn is_met(&self, filter: &Filter) -> bool {
        match filter {
            Filter::Vrfs { name, rd } => {
                asks_text(name, self.name.as_str()) && asks_distinguisher(rd, &self.rd)
            }
            _ => false,
        }
    }
}

impl Registered for Vrf {
    fn most() -> u32 {
        MOST_VRFS
    }

    fn found<'a>(row_tables: &'a RowTables, id: u32) -> Option<&'a Vrf> {
        row_tables.vrfs().get(id)
    }

    fn count(row_tables: &RowTables) -> u32 {
        row_tables.vrfs().len()
    }

    fn nth<'a>(row_tables: &'a RowTables, index: u32) -> Option<&'a Vrf> {
        row_tables.vrfs().rows().get(index as usize)
    }

    fn next(row_tables: &RowTables) -> u32 {
        row_tables.next(Kind::Vrfs)
    }

    fn missing(&self, _row_tables: &RowTables) -> Option<Rule> {
        None
    }

    fn fault_new(&self, row_tables: &RowTables) -> Option<Rule> {
        row_tables.vrfs().fault(self)
    }

    fn fault_changed(&self, row_tables: &RowTables) -> Option<Rule> {
        if let Some(rule) = row_tables.vrfs().fault(self) {
            return Some(rule);
        }
        coinciding(row_tables, self)
    }

    fn user(row_tables: &RowTables, id: u32) -> Option<Refusal> {
        if let Some(prefix) = user_in(row_tables.prefixes(), id) {
            return Some(Refusal::InUse(Kind::Prefixes, prefix));
        }
        if let Some(range) = range_of(row_tables.ranges().rows(), id) {
            return Some(Refusal::InUse(Kind::Ranges, range.id));
        }
        match user_in(row_tables.addresses(), id) {
            Some(address) => Some(Refusal::InUse(Kind::Addresses, address)),
            None => None,
        }
    }

    fn forgetting(row_tables: &RowTables, _id: u32) -> Result<Vec<View>, AllocError> {
        Ok(Vec::new(row_tables.allocator()))
    }
}

/// Plans the VRF of an id with the fields of an edit changed. `Err` means out of memory.
pub fn plan_edit(row_tables: &RowTables, id: u32, edit: &Edit) -> Result<Planned, AllocError>
    ensures { IfOk result (λ p. IsPlanned (change vrf_rules (state_of row_tables.now) id nothing_told (edited_vrf edit.now)) p) }
{
    let row = match Vrf::found(row_tables, id) {
        Some(old) => old.edited(edit)?,
        None => return Ok(Planned::Refused(Refusal::NotFound(Kind::Vrfs, id))),
    };
    plan_replace(row_tables, row)
}
