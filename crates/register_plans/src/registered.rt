//! What the calls need of a kind of row besides what List and Get need.

ghost use Rattle.std.specs.Prelude.{◌≡◌, ℕ, ◌<◌, ◌^◌, None, IfOk, IfSome, option_copied, length, slice_get};
ghost use Rattle.ipam_data.specs.Checks.{first};
ghost use Rattle.ipam_data.specs.RowList.{row_at, Rises};
ghost use Rattle.ipam_data.specs.Plans.{call_faults};
ghost use Rattle.ipam_data.specs.Lawful.{IsLawful};
ghost use Rattle.register_tables.specs.Held.{state_of};
ghost use Rattle.register_plans.specs.Broken.{own_row};
ghost use Rattle.register_plans.specs.Candidates.{AreCandidates};

use crate::listed::{Listed, RowsOf};
use ipam_data::calls::Filter;
use ipam_data::replies::{Refusal, Rule, View};
use register_tables::RowTables;
use std::alloc::AllocError;

/// A kind of row of a register: what its calls need of the tables in memory.
pub trait Registered: Listed {
    /// How many rows of it there may be.
    fn most() -> u32
        ensures { result ≡ Self.rules.most };

    /// The row of an id.
    fn found<'a>(row_tables: &'a RowTables, id: u32) -> Option<&'a Self>
        ensures { option_copied result ≡ row_at Self.rules.id (Self.rules.row_list (state_of row_tables.now)).rows id };

    /// How many rows there are.
    fn count(row_tables: &RowTables) -> u32
        ensures count { result ≡ length (Self.rules.row_list (state_of row_tables.now)).rows }
        ensures few { length (Self.rules.row_list (state_of row_tables.now)).rows < 2 ^ 30 }
        ensures ordered { Rises Self.rules.id 0 (Self.rules.row_list (state_of row_tables.now)).rows };

    /// The row at an index, in the order of the ids.
    fn nth<'a>(row_tables: &'a RowTables, index: u32) -> Option<&'a Self>
        ensures { option_copied result ≡ slice_get (Self.rules.row_list (state_of row_tables.now)).rows index };

    /// The ids of some rows, rising, among which each is that meets a filter; `None` if all rows are to be looked at. `Err`
    /// means out of memory.
    fn candidates(_row_tables: &RowTables, _filter: &Filter) -> Result<Option<Vec<u32>>, AllocError>
        requires { IsLawful (state_of _row_tables.now) }
        ensures { IfOk result (λ found. IfSome found (λ v. AreCandidates Self.rules.id (Self.meets _filter.now) (Self.rules.row_list (state_of _row_tables.now)).rows v.items)) }
    {
        Ok(None)
    }

    /// The next id.
    fn next(row_tables: &RowTables) -> u32
        ensures { result ≡ (Self.rules.row_list (state_of row_tables.now)).next };

    /// The first row that it names and that is not there.
    fn missing(&self, row_tables: &RowTables) -> Option<Rule>
        ensures { result ≡ first (Self.rules.references (state_of row_tables.now) self.now) };

    /// The first rule that it breaks as a new row that a call makes.
    fn fault_new(&self, row_tables: &RowTables) -> Option<Rule>
        ensures { result ≡ first (call_faults Self.rules (state_of row_tables.now) None self.now) };

    /// The first rule that it breaks if a call puts it in the place of the row of its id.
    fn fault_changed(&self, row_tables: &RowTables) -> Option<Rule>
        ensures { result ≡ first (call_faults Self.rules (state_of row_tables.now) (own_row Self.rules (state_of row_tables.now) self.now) self.now) };

    /// Why the row of an id can't be taken out, if so: the first row that names it.
    fn user(row_tables: &RowTables, id: u32) -> Option<Refusal>
        ensures { result ≡ first (Self.rules.users (state_of row_tables.now) id) };

    /// The rows that are put again if the row of an id goes. `Err` means out of memory.
    fn forgetting(row_tables: &RowTables, id: u32) -> Result<Vec<View>, AllocError>
        ensures { IfOk result (λ v. v.items ≡ Self.rules.forgetting (state_of row_tables.now) id) };
}

impl<T: Registered> RowsOf<T> for RowTables {
    ghost rows = { λ t. (T.rules.row_list (state_of t)).rows };

    fn found(&self, id: u32) -> Option<&T> {
        T::found(self, id)
    }

    fn count(&self) -> u32 {
        T::count(self)
    }

    fn nth(&self, index: u32) -> Option<&T> {
        T::nth(self, index)
    }
}
