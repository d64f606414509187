//! Surveys over the register's tables: the lines of a report of all prefixes, in the order of their places.

ghost use Rattle.std.specs.Prelude.{◌≡◌, ◌<◌, Some, IfOk, IsPermutation, length, map, slice_get};
ghost use Rattle.std.specs.List.Sorted.{IsSortedByKey};
ghost use Rattle.ipam_data.specs.declared.replies.Reply.TheVariants.{Lines};
ghost use Rattle.ipam_data.specs.Lawful.{IsLawful};
ghost use Rattle.ipam_data.specs.State.{reading};
ghost use Rattle.ipam_data.specs.Survey.{survey_of};
ghost use Rattle.register_tables.specs.Held.{state_of};
ghost use Rattle.register_tables.specs.Planned.{IsPlanned};
ghost use Rattle.register_claims.specs.declared.surveys.line.Placed.{Placed as SeenPlaced};
ghost use Rattle.register_claims.specs.PlaceDigits.{digits_cmp, placed_row};

mod line;
mod place;

use crate::surveys::line::{Placed, placed_line};
use ipam_data::prefix::Prefix;
use ipam_data::replies::Reply;
use ipam_data::survey::{PrefixLine, PrefixLines};
use placed_book::Book;
use register_tables::{Planned, RowTables};
use std::alloc::{AllocError, Global};

/// The prefix at an index that exists.
fn prefix_at(row_tables: &RowTables, index: u32) -> &Prefix
    requires { index < length row_tables.now.prefixes.rows }
    ensures { Some result.now ≡ slice_get row_tables.now.prefixes.rows index }
{
    match row_tables.prefixes().at(index) {
        Some(row) => row,
        None => unreachable!(),
    }
}

/// The lines of all prefixes with their places, in the order of the ids.
fn placed_lines(row_tables: &RowTables) -> Result<Vec<Placed>, AllocError>
    requires { IsLawful (state_of row_tables.now) }
    ensures { IfOk result (λ v. v.items ≡ map (placed_row (state_of row_tables.now)) row_tables.now.prefixes.rows) }
{
    let mut placed = Vec::new(row_tables.allocator());
    let count = row_tables.prefixes().len();
    'prefixes: for index in 0..count {
        let row = prefix_at(row_tables, index);
        placed.push(placed_line(row_tables, row))?;
    }
    Ok(placed)
}

/// Puts lines in the order of their places.
fn sort(placed: &mut Vec<Placed>)
    ensures same { IsPermutation placed.old.items placed.new.items }
    ensures sorted { IsSortedByKey (λ (p : SeenPlaced). p.place) digits_cmp placed.new.items }
{
    placed.sort_unstable_by_key(|line| line.place);
}

/// The lines without their places.
fn lines_of(alloc: Global, placed: &[Placed]) -> Result<Vec<PrefixLine>, AllocError>
    ensures { IfOk result (λ v. v.items ≡ map (λ (p : SeenPlaced). p.line) placed.now) }
{
    let mut lines = Vec::new(alloc);
    'lines: for row in placed {
        lines.push(row.line)?;
    }
    Ok(lines)
}

/// The lines of all prefixes, in the order of their places.
fn survey(row_tables: &RowTables) -> Result<Vec<PrefixLine>, AllocError>
    requires { IsLawful (state_of row_tables.now) }
    ensures { IfOk result (λ v. v.items ≡ survey_of (state_of row_tables.now)) }
{
    let mut placed = placed_lines(row_tables)?;
    sort(&mut placed);
    let lines = lines_of(row_tables.allocator(), placed.as_slice())?;
    Ok(lines)
}

/// Reads the lines of all prefixes, in the order of their places. `Err` means out of memory.
pub fn plan_survey(row_tables: &RowTables) -> Result<Planned, AllocError>
    requires { IsLawful (state_of row_tables.now) }
    ensures { IfOk result (λ p. IsPlanned (reading (Lines (survey_of (state_of row_tables.now)))) p) }
{
    let lines = survey(row_tables)?;
    Ok(Planned::Read(Reply::Lines(PrefixLines::of(lines))))
}
