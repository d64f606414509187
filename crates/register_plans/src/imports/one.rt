//! One record, made of a draft.

ghost use Rattle.std.specs.Prelude.{◌≡◌, ◌+◌, None, true, IfOk, IfErr, OnOk, OnErr};
ghost use Rattle.ipam_data.specs.Checks.{first};
ghost use Rattle.ipam_data.specs.Fields.{kind_of_draft, told_of_draft};
ghost use Rattle.ipam_data.specs.Lawful.{IsLawful};
ghost use Rattle.ipam_data.specs.Steps.{next_for};
ghost use Rattle.ipam_data.specs.Updates.{IsFit, with_next, with_view};
ghost use Rattle.ipam_data.specs.Imports.{create_checks, record_of, with_record};
ghost use Rattle.register_tables.specs.Held.{state_of};
ghost use Rattle.register_plans.specs.ImportHalts.{IsHaltBy};

use crate::imports::checks::check_view;
use crate::imports::drafts::view_under;
use crate::imports::halt::Halt;
use ipam_data::calls::Draft;
use ipam_data::kinds::Kind;
use ipam_data::replies::{Refusal, View};
use register_tables::RowTables;
use std::alloc::AllocError;

/// The kind of the record that a draft makes.
fn kind_of(draft: &Draft) -> Kind
    ensures { result ≡ kind_of_draft draft.now }
{
    match draft {
        Draft::Vrf { .. } => Kind::Vrfs,
        Draft::Rir { .. } => Kind::Rirs,
        Draft::Role { .. } => Kind::Roles,
        Draft::Aggregate { .. } => Kind::Aggregates,
        Draft::Prefix { .. } => Kind::Prefixes,
        Draft::IpRange { .. } => Kind::Ranges,
        Draft::IpAddress { .. } => Kind::Addresses,
    }
}

/// The next id of the kind of a draft.
fn next_id(row_tables: &RowTables, draft: &Draft) -> u32
    ensures { result ≡ next_for (state_of row_tables.now) draft.now }
{
    match draft {
        Draft::Vrf { .. } => row_tables.next(Kind::Vrfs),
        Draft::Rir { .. } => row_tables.next(Kind::Rirs),
        Draft::Role { .. } => row_tables.next(Kind::Roles),
        Draft::Aggregate { .. } => row_tables.next(Kind::Aggregates),
        Draft::Prefix { .. } => row_tables.next(Kind::Prefixes),
        Draft::IpRange { .. } => row_tables.next(Kind::Ranges),
        Draft::IpAddress { .. } => row_tables.next(Kind::Addresses),
    }
}

/// Puts a record, and sets the next id of its kind. `Err` leaves the tables.
fn put_record(
    row_tables: &mut RowTables,
    view: View,
    kind: Kind,
    next: u32,
) -> Result<(), AllocError>
    requires { IsFit (state_of row_tables.old) view }
    ensures ok { OnOk result (state_of row_tables.new ≡ with_next (with_view (state_of row_tables.old) view) (kind, next)) }
    ensures err { OnErr result (state_of row_tables.new ≡ state_of row_tables.old) }
{
    row_tables.admit(view)?;
    row_tables.set_next(kind, next);
    Ok(())
}

/// Why the record of a draft can't be made given those that exist, if so; the log has no say.
fn refused(row_tables: &RowTables, draft: &Draft, view: &View) -> Option<Refusal>
    requires told { first (told_of_draft draft.now) ≡ None }
    requires made { view.now ≡ record_of (state_of row_tables.now) draft.now }
    ensures { result ≡ first (create_checks true (state_of row_tables.now) draft.now) }
{
    check_view(row_tables, view)
}

/// Makes the record of a draft, if no check refuses it, and hands out a copy. `Err` leaves the tables.
pub(crate) fn make(row_tables: &mut RowTables, draft: &Draft) -> Result<View, Halt>
    requires lawful { IsLawful (state_of row_tables.old) }
    requires told { first (told_of_draft draft.now) ≡ None }
    ensures made { IfOk result (λ v. v ≡ record_of (state_of row_tables.old) draft.now) }
    ensures state { OnOk result (state_of row_tables.new ≡ with_record (state_of row_tables.old) draft.now) }
    ensures free { OnOk result (first (create_checks true (state_of row_tables.old) draft.now) ≡ None) }
    ensures lawful { OnOk result (IsLawful (state_of row_tables.new)) }
    ensures err { IfErr result (λ halt. IsHaltBy (first (create_checks true (state_of row_tables.old) draft.now)) halt) }
    ensures stays { OnErr result (state_of row_tables.new ≡ state_of row_tables.old) }
{
    draft.bounds();
    let id = next_id(row_tables, draft);
    let view = view_under(id, draft)?;
    match refused(row_tables, draft, &view) {
        Some(refusal) => {
            drop(view);
            return Err(Halt::Refused(refusal));
        }
        None => {}
    }
    let copy = view_under(id, draft)?;
    put_record(row_tables, view, kind_of(draft), id + 1)?;
    Ok(copy)
}
