//! Prefixes: a table that enforces has each block once.

ghost use Rattle.std.specs.Prelude.{◌≡◌, ℕ, ◌&&◌, ◌==◌, IfOk};
ghost use Rattle.ipam_data.specs.Tables.{table_of, is_enforcing};
ghost use Rattle.ipam_data.specs.Plans.{change, nothing_told};
ghost use Rattle.ipam_data.specs.Fields.{edited_prefix};
ghost use Rattle.ipam_data.specs.Prefixes.{prefix_rules, prefix_fault};
ghost use Rattle.ipam_data.specs.Rows.{prefix_status_number};
ghost use Rattle.ipam_data.specs.Checks.{asks};
ghost use Rattle.register_tables.specs.Held.{state_of};
ghost use Rattle.register_tables.specs.Planned.{IsPlanned};
ghost use Rattle.register_plans.specs.Meets.{prefix_meets};

use crate::calls::plan_replace;
use crate::candidates::{area_asked, ids_asked};
use crate::filters::{asks_block, asks_contains, asks_family, asks_inside, asks_name, asks_within};
use crate::listed::Listed;
use crate::registered::Registered;
use ipam_data::calls::{Edit, Filter};
use ipam_data::kinds::{Kind, Table};
use ipam_data::prefix::{MOST_PREFIXES, Prefix, PrefixStatus};
use ipam_data::replies::{Refusal, Rule, View};
use prefix_rules::PrefixRules;
use register_tables::{Planned, RowTables, missing_role, missing_vrf};
use std::alloc::AllocError;
use vrf_table::VrfRules;

/// Whether the status is the one that is asked for.
fn asks_status(wanted: &Option<PrefixStatus>, status: PrefixStatus) -> bool
    ensures { result ≡ asks wanted.now (λ t. prefix_status_number status == prefix_status_number t) }
{
    match wanted {
        None => true,
        Some(wanted) => status.number() == wanted.number(),
    }
}

/// The first rule past the rows that it names that a prefix breaks given the rows of other ids.
fn fault(row_tables: &RowTables, row: &Prefix) -> Option<Rule>
    ensures { result ≡ prefix_fault row_tables.now.prefixes.rows row.now (is_enforcing row_tables.now.global_unique row_tables.now.vrfs.rows (table_of row.now.vrf)) }
{
    let enforcing = row_tables
        .vrfs()
        .enforcing(Table::of(row.vrf), row_tables.global_unique());
    row_tables.prefixes().fault(row, enforcing)
}

impl Listed for Prefix {
    ghost rules = { prefix_rules };

    ghost meets = { prefix_meets };

    fn kind() -> Kind {
        Kind::Prefixes
    }

    fn copied(&self) -> Result<Prefix, AllocError> {
        self.copy()
    }

    fn into_view(self) -> View {
        View::Prefix {
            row: self,
            depth: 0,
            children: 0,
        }
    }

    fn is_met(&self, filter: &Filter) -> bool {
        match filter {
            Filter::Prefixes {
                family,
                vrf_id,
                status,
                role_id,
                prefix,
                within,
                within_include,
                contains,
            } => {
                asks_family(family, self.block.family())
                    && asks_name(vrf_id, self.vrf)
                    && asks_status(status, self.status)
                    && asks_name(role_id, self.role)
                    && asks_block(prefix, &self.block)
                    && asks_within(within, &self.block)
                    && asks_inside(within_include, &self.block)
                    && asks_contains(contains, &self.block)
            }
            _ => false,
        }
    }
}

impl Registered for Prefix {
    fn most() -> u32 {
        MOST_PREFIXES
    }

    fn found<'a>(row_tables: &'a RowTables, id: u32) -> Option<&'a Prefix> {
        row_tables.prefixes().get(id)
    }

    fn count(row_tables: &RowTables) -> u32 {
        row_tables.prefixes().len()
    }

    fn nth<'a>(row_tables: &'a RowTables, index: u32) -> Option<&'a Prefix> {
        row_tables.prefixes().at(index)
    }

    fn candidates(row_tables: &RowTables, filter: &Filter) -> Result<Option<Vec<u32>>, AllocError> {
        let Filter::Prefixes {
            family: _,
            vrf_id,
            status: _,
            role_id: _,
            prefix,
            within,
            within_include,
            contains,
        } = filter
        else {
            return Ok(None);
        };
        let area = area_asked(prefix, within, within_include, contains);
        ids_asked(row_tables, row_tables.prefixes(), vrf_id, &area)
    }

    fn next(row_tables: &RowTables) -> u32 {
        row_tables.next(Kind::Prefixes)
    }

    fn missing(&self, row_tables: &RowTables) -> Option<Rule> {
        if let Some(rule) = missing_vrf(row_tables, self.vrf) {
            return Some(rule);
        }
        missing_role(row_tables, self.role)
    }

    fn fault_new(&self, row_tables: &RowTables) -> Option<Rule> {
        fault(row_tables, self)
    }

    fn fault_changed(&self, row_tables: &RowTables) -> Option<Rule> {
        fault(row_tables, self)
    }

    fn user(_row_tables: &RowTables, _id: u32) -> Option<Refusal> {
        None
    }

    fn forgetting(row_tables: &RowTables, _id: u32) -> Result<Vec<View>, AllocError> {
        Ok(Vec::new(row_tables.allocator()))
    }
}

/// Plans the prefix of an id with the fields of an edit changed. `Err` means out of memory.
pub fn plan_edit(row_tables: &RowTables, id: u32, edit: &Edit) -> Result<Planned, AllocError>
    ensures { IfOk result (λ p. IsPlanned (change prefix_rules (state_of row_tables.now) id nothing_told (edited_prefix edit.now)) p) }
{
    let row = match Prefix::found(row_tables, id) {
        Some(old) => old.edited(edit)?,
        None => return Ok(Planned::Refused(Refusal::NotFound(Kind::Prefixes, id))),
    };
    plan_replace(row_tables, row)
}
