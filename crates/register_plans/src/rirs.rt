//! RIRs: their names and slugs are unique, and one that has aggregates stays.

ghost use Rattle.std.specs.Prelude.{IfOk};
ghost use Rattle.ipam_data.specs.Plans.{change, nothing_told};
ghost use Rattle.ipam_data.specs.Fields.{edited_rir};
ghost use Rattle.ipam_data.specs.Rirs.{rir_rules};
ghost use Rattle.register_tables.specs.Held.{state_of};
ghost use Rattle.register_tables.specs.Planned.{IsPlanned};
ghost use Rattle.register_plans.specs.Meets.{rir_meets};

use crate::calls::plan_replace;
use crate::filters::asks_text;
use crate::listed::Listed;
use crate::registered::Registered;
use aggregates::{AggregateRules, RirRules};
use ipam_data::calls::{Edit, Filter};
use ipam_data::kinds::Kind;
use ipam_data::replies::{Refusal, Rule, View};
use ipam_data::rir::{MOST_RIRS, Rir};
use placed_book::Book;
use register_tables::{Planned, RowTables};
use std::alloc::AllocError;

impl Listed for Rir {
    ghost rules = { rir_rules };

    ghost meets = { rir_meets };

    fn kind() -> Kind {
        Kind::Rirs
    }

    fn copied(&self) -> Result<Rir, AllocError> {
        self.copy()
    }

    fn into_view(self) -> View {
        View::Rir(self)
    }

    fn is_met(&self, filter: &Filter) -> bool {
        match filter {
            Filter::Rirs { name, slug } => {
                asks_text(name, self.name.as_str()) && asks_text(slug, self.slug.as_str())
            }
            _ => false,
        }
    }
}

impl Registered for Rir {
    fn most() -> u32 {
        MOST_RIRS
    }

    fn found<'a>(row_tables: &'a RowTables, id: u32) -> Option<&'a Rir> {
        row_tables.rirs().get(id)
    }

    fn count(row_tables: &RowTables) -> u32 {
        row_tables.rirs().len()
    }

    fn nth<'a>(row_tables: &'a RowTables, index: u32) -> Option<&'a Rir> {
        row_tables.rirs().at(index)
    }

    fn next(row_tables: &RowTables) -> u32 {
        row_tables.next(Kind::Rirs)
    }

    fn missing(&self, _row_tables: &RowTables) -> Option<Rule> {
        None
    }

    fn fault_new(&self, row_tables: &RowTables) -> Option<Rule> {
        row_tables.rirs().fault(self)
    }

    fn fault_changed(&self, row_tables: &RowTables) -> Option<Rule> {
        row_tables.rirs().fault(self)
    }

    fn user(row_tables: &RowTables, id: u32) -> Option<Refusal> {
        match row_tables.aggregates().of_rir(id) {
            Some(aggregate) => Some(Refusal::InUse(Kind::Aggregates, aggregate)),
            None => None,
        }
    }

    fn forgetting(row_tables: &RowTables, _id: u32) -> Result<Vec<View>, AllocError> {
        Ok(Vec::new(row_tables.allocator()))
    }
}

/// Plans the RIR of an id with the fields of an edit changed. `Err` means out of memory.
pub fn plan_edit(row_tables: &RowTables, id: u32, edit: &Edit) -> Result<Planned, AllocError>
    ensures { IfOk result (λ p. IsPlanned (change rir_rules (state_of row_tables.now) id nothing_told (edited_rir edit.now)) p) }
{
    let row = match Rir::found(row_tables, id) {
        Some(old) => old.edited(edit)?,
        None => return Ok(Planned::Refused(Refusal::NotFound(Kind::Rirs, id))),
    };
    plan_replace(row_tables, row)
}
