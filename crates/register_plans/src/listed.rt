//! What List and Get need of a kind of row, and of what holds the rows.

ghost use Rattle.std.specs.Prelude.{◌≡◌, ℕ, ◌<◌, ◌^◌, Bool, List, IfOk, length, option_copied, slice_get};
ghost use Rattle.ipam_data.specs.declared.calls.Filter.{Filter};
ghost use Rattle.ipam_data.specs.RowList.{row_at, Rises};
ghost use Rattle.ipam_data.specs.Plans.{KindRules};

use block_space::Space;
use ipam_data::calls::Filter;
use ipam_data::kinds::{HasId, Kind};
use ipam_data::prefix::Prefix;
use ipam_data::replies::View;
use ipam_data::vrf::Vrf;
use placed_book::Book;
use prefix_rules::PrefixBook;
use std::alloc::AllocError;
use vrf_table::VrfBook;

/// A kind of row: its rules, and the few functions that look at one row alone.
pub trait Listed: HasId {
    ghost rules: { KindRules Self };

    ghost meets: { Filter → Self → Bool };

    /// The name of the kind.
    fn kind() -> Kind
        ensures { result ≡ rules.kind };

    /// The same row again. `Err` means out of memory.
    fn copied(&self) -> Result<Self, AllocError>
        ensures { IfOk result (λ row. row ≡ self.now) };

    /// The row as it is answered, without its figures.
    fn into_view(self) -> View
        ensures { result ≡ rules.view self };

    /// Whether the row meets a filter.
    fn is_met(&self, filter: &Filter) -> bool
        ensures { result ≡ meets filter.now self.now };
}

/// What holds the rows of a kind: a book of them, or the register's tables.
pub trait RowsOf<T: Listed> {
    /// The rows in the order of their ids.
    ghost rows: { Self → List T };

    /// The row of an id.
    fn found(&self, id: u32) -> Option<&T>
        ensures { option_copied result ≡ row_at T.rules.id (rows self.now) id };

    /// How many rows there are.
    fn count(&self) -> u32
        ensures count { result ≡ length (rows self.now) }
        ensures few { length (rows self.now) < 2 ^ 30 }
        ensures ordered { Rises T.rules.id 0 (rows self.now) };

    /// The row at an index, in the order of the ids.
    fn nth(&self, index: u32) -> Option<&T>
        ensures { option_copied result ≡ slice_get (rows self.now) index };
}

impl RowsOf<Vrf> for VrfBook {
    ghost rows = { λ b. b.rows };

    fn found(&self, id: u32) -> Option<&Vrf> {
        self.get(id)
    }

    fn count(&self) -> u32 {
        self.len()
    }

    fn nth(&self, index: u32) -> Option<&Vrf> {
        self.at(index)
    }
}

impl<S: Space + Drop> RowsOf<Prefix> for PrefixBook<S> {
    ghost rows = { λ b. b.rows };

    fn found(&self, id: u32) -> Option<&Prefix> {
        self.get(id)
    }

    fn count(&self) -> u32 {
        self.len()
    }

    fn nth(&self, index: u32) -> Option<&Prefix> {
        self.at(index)
    }
}
