//! The rows of an import made ready, before any record is made.

ghost use Rattle.std.specs.Prelude.{◌≡◌, None, IfOk, string_bytes};
ghost use Rattle.std.specs.List.{AllByRecursion};
ghost use Rattle.ipam_data.specs.Checks.{first};
ghost use Rattle.ipam_data.specs.Fields.{told_of_draft};
ghost use Rattle.ipam_data.specs.Imports.{HasRowBounds};
ghost use Rattle.register_tables.specs.Held.{state_of};
ghost use Rattle.register_plans.specs.ReadyRows.{key_of_draft, key_where, ready_of, ready_rows};

use crate::imports::drafts::{draft, fault, view_under};
use crate::imports::keys::key_of_view;
use ipam_data::calls::Draft;
use ipam_data::imports::ImportRow;
use ipam_data::kinds::Kind;
use ipam_data::replies::Refusal;
use ipam_data::text::Text;
use register_tables::RowTables;
use std::alloc::{AllocError, Global};

/// A row made ready: its draft, why it is refused by itself, if so, and, if it is not, the key of its texts.
#[derive(Drop)]
pub struct Ready {
    pub(crate) draft: Draft,
    pub(crate) fault: Option<Refusal>,
    pub(crate) key: Text,
}

/// The key of a draft's texts, which say nothing of its id.
fn key_of_draft(alloc: Global, draft: &Draft) -> Result<String, AllocError>
    requires { first (told_of_draft draft.now) ≡ None }
    ensures { IfOk result (λ k. string_bytes k ≡ key_of_draft draft.now) }
{
    let view = view_under(0, draft)?;
    key_of_view(alloc, &view)
}

/// The key of a draft, if its row is not refused by itself.
fn key_if(alloc: Global, fault: &Option<Refusal>, draft: &Draft) -> Result<String, AllocError>
    requires { fault.now ≡ None → first (told_of_draft draft.now) ≡ None }
    ensures { IfOk result (λ k. string_bytes k ≡ key_where fault.now draft.now) }
{
    match fault {
        Some(_) => Ok(String::new(alloc)),
        None => key_of_draft(alloc, draft),
    }
}

/// Makes a row ready.
fn make_ready(row_tables: &RowTables, kind: Kind, row: &ImportRow) -> Result<Ready, AllocError>
    ensures { IfOk result (λ r. r ≡ ready_of (state_of row_tables.now) kind row.now) }
{
    let draft = draft(row_tables, row)?;
    let fault = fault(row_tables, kind, row);
    let key = key_if(row_tables.allocator(), &fault, &draft)?;
    Ok(Ready {
        draft,
        fault,
        key: Text::of(key),
    })
}

/// Makes all rows ready.
pub(crate) fn ready_all(
    row_tables: &RowTables,
    kind: Kind,
    rows: &[ImportRow],
) -> Result<Vec<Ready>, AllocError>
    ensures { IfOk result (λ v. v.items ≡ ready_rows (state_of row_tables.now) kind rows.now) }
{
    let mut all = Vec::new(row_tables.allocator());
    for row in rows {
        all.push(make_ready(row_tables, kind, row)?)?;
    }
    Ok(all)
}

/// Each row is in its bounds, by its type: a law.
pub(crate) fn bounds_of(rows: &[ImportRow])
    ensures { AllByRecursion HasRowBounds rows.now }
{
    for row in rows {
        row.bounds();
    }
}
