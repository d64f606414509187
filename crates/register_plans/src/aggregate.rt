//! Aggregates: blocks that an operator has from registries. None shares an address with another.

ghost use Rattle.std.specs.Prelude.{IfOk};
ghost use Rattle.ipam_data.specs.Plans.{change, nothing_told};
ghost use Rattle.ipam_data.specs.Fields.{edited_aggregate};
ghost use Rattle.ipam_data.specs.Aggregates.{aggregate_rules};
ghost use Rattle.register_tables.specs.Held.{state_of};
ghost use Rattle.register_tables.specs.Planned.{IsPlanned};
ghost use Rattle.register_plans.specs.Meets.{aggregate_meets};

use crate::calls::plan_replace;
use crate::filters::asks_family;
use crate::listed::Listed;
use crate::registered::Registered;
use aggregates::AggregateRules;
use ipam_data::aggregate::{Aggregate, MOST_AGGREGATES};
use ipam_data::calls::{Edit, Filter};
use ipam_data::kinds::Kind;
use ipam_data::listing::asks_number;
use ipam_data::replies::{Refusal, Rule, View};
use placed_book::Book;
use register_tables::{Planned, RowTables, missing_rir};
use std::alloc::AllocError;

impl Listed for Aggregate {
    ghost rules = { aggregate_rules };

    ghost meets = { aggregate_meets };

    fn kind() -> Kind {
        Kind::Aggregates
    }

    fn copied(&self) -> Result<Aggregate, AllocError> {
        self.copy()
    }

    fn into_view(self) -> View {
        View::Aggregate(self)
    }

    fn is_met(&self, filter: &Filter) -> bool {
        match filter {
            Filter::Aggregates { family, rir_id } => {
                asks_family(family, self.block.family()) && asks_number(rir_id, self.rir)
            }
            _ => false,
        }
    }
}

impl Registered for Aggregate {
    fn most() -> u32 {
        MOST_AGGREGATES
    }

    fn found<'a>(row_tables: &'a RowTables, id: u32) -> Option<&'a Aggregate> {
        row_tables.aggregates().get(id)
    }

    fn count(row_tables: &RowTables) -> u32 {
        row_tables.aggregates().len()
    }

    fn nth<'a>(row_tables: &'a RowTables, index: u32) -> Option<&'a Aggregate> {
        row_tables.aggregates().at(index)
    }

    fn next(row_tables: &RowTables) -> u32 {
        row_tables.next(Kind::Aggregates)
    }

    fn missing(&self, row_tables: &RowTables) -> Option<Rule> {
        missing_rir(row_tables, self.rir)
    }

    fn fault_new(&self, row_tables: &RowTables) -> Option<Rule> {
        row_tables.aggregates().fault(self)
    }

    fn fault_changed(&self, row_tables: &RowTables) -> Option<Rule> {
        row_tables.aggregates().fault(self)
    }

    fn user(_row_tables: &RowTables, _id: u32) -> Option<Refusal> {
        None
    }

    fn forgetting(row_tables: &RowTables, _id: u32) -> Result<Vec<View>, AllocError> {
        Ok(Vec::new(row_tables.allocator()))
    }
}

/// Plans the aggregate of an id with the fields of an edit changed. `Err` means out of memory.
pub fn plan_edit(row_tables: &RowTables, id: u32, edit: &Edit) -> Result<Planned, AllocError>
    ensures { IfOk result (λ p. IsPlanned (change aggregate_rules (state_of row_tables.now) id nothing_told (edited_aggregate edit.now)) p) }
{
    let row = match Aggregate::found(row_tables, id) {
        Some(old) => old.edited(edit)?,
        None => return Ok(Planned::Refused(Refusal::NotFound(Kind::Aggregates, id))),
    };
    plan_replace(row_tables, row)
}
