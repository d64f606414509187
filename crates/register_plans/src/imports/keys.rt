//! The keys of rows and records, and how many records are left that a row may represent.

ghost use Rattle.std.specs.Prelude.{◌≡◌, ℕ, ◌++◌, [], List, IfOk, OnOk, map, string_bytes};
ghost use Rattle.std.specs.List.{AllByRecursion};
ghost use Rattle.ipam_data.specs.Lawful.{IsLawful};
ghost use Rattle.stored_tables.specs.Stored.{stored_row};
ghost use Rattle.register_plans.specs.KeptDrafts.{IsReadied};
ghost use Rattle.register_plans.specs.TextKeys.{key_of};
ghost use Rattle.register_plans.specs.RecordsLeft.{IsLeft};
ghost use Rattle.register_tables.specs.Held.{state_of};
ghost use Rattle.register_plans.specs.ReadyRows.{keys_of, key_of_row, record_keys};

use crate::calls::row_at_index;
use crate::imports::leftovers::{Leftovers, put_text};
use crate::imports::lookup::look_up;
use crate::imports::ready::Ready;
use crate::registered::Registered;
use ipam_data::address::IpAddress;
use ipam_data::aggregate::Aggregate;
use ipam_data::kinds::Kind;
use ipam_data::prefix::Prefix;
use ipam_data::range::IpRange;
use ipam_data::replies::View;
use ipam_data::rir::Rir;
use ipam_data::role::Role;
use ipam_data::vrf::Vrf;
use register_tables::RowTables;
use std::alloc::{AllocError, Global};
use stored_tables::tables::Text;
use stored_tables::writing::write_row;

/// The key of texts.
fn key_of_texts(alloc: Global, texts: &[Text]) -> Result<String, AllocError>
    ensures { IfOk result (λ k. string_bytes k ≡ key_of texts.now) }
{
    let mut key = String::new(alloc);
    for text in texts {
        put_text(&mut key, text.as_str().as_bytes())?;
    }
    Ok(key)
}

/// The key of a row's texts.
pub(crate) fn key_of_view(alloc: Global, view: &View) -> Result<String, AllocError>
    ensures { IfOk result (λ k. string_bytes k ≡ key_of (stored_row view.now).fields) }
{
    let row = write_row(alloc, view)?;
    key_of_texts(alloc, row.fields.as_slice())
}

/// The key of a record.
pub(crate) fn key_of_record<T: Registered>(alloc: Global, row: &T) -> Result<String, AllocError>
    ensures { IfOk result (λ k. string_bytes k ≡ key_of_row T.rules row.now) }
{
    let view = row.copied()?.into_view();
    key_of_view(alloc, &view)
}

/// Notes the keys of all rows of an import.
fn expect_all(alloc: Global, rows: &[Ready]) -> Result<Leftovers, AllocError>
    ensures { IfOk result (λ left. IsLeft left (keys_of rows.now) [] []) }
{
    let mut left = Leftovers::new(alloc);
    for row in rows {
        let key = String::from_str(alloc, row.key.as_str())?;
        left.expect(key, 0)?;
    }
    Ok(left)
}

/// Counts the records of a kind under their keys.
fn count_kind<T: Registered>(row_tables: &RowTables, left: &mut Leftovers) -> Result<(), AllocError>
    requires { (keys : List (List ℕ)) × IsLeft left.old keys [] [] }
    ensures { (keys : List (List ℕ)) → IsLeft left.old keys [] [] → OnOk result (IsLeft left.new keys (map (key_of_row T.rules) (T.rules.row_list (state_of row_tables.now)).rows) []) }
{
    let count = T::count(row_tables);
    'records: for index in 0..count {
        let row: &T = row_at_index(row_tables, index);
        let key = key_of_record(row_tables.allocator(), row)?;
        left.count(&key);
    }
    Ok(())
}

/// Counts the records of a kind, by its name.
fn count_all(row_tables: &RowTables, kind: Kind, left: &mut Leftovers) -> Result<(), AllocError>
    requires { (keys : List (List ℕ)) × IsLeft left.old keys [] [] }
    ensures { (keys : List (List ℕ)) → IsLeft left.old keys [] [] → OnOk result (IsLeft left.new keys (record_keys (state_of row_tables.now) kind) []) }
{
    match kind {
        Kind::Vrfs => count_kind::<Vrf>(row_tables, left),
        Kind::Rirs => count_kind::<Rir>(row_tables, left),
        Kind::Roles => count_kind::<Role>(row_tables, left),
        Kind::Aggregates => count_kind::<Aggregate>(row_tables, left),
        Kind::Prefixes => count_kind::<Prefix>(row_tables, left),
        Kind::Ranges => count_kind::<IpRange>(row_tables, left),
        Kind::Addresses => count_kind::<IpAddress>(row_tables, left),
    }
}

/// How many records are left that each row may represent, of a kind whose records are all counted: one look for each row and each record.
fn count_records(
    row_tables: &RowTables,
    kind: Kind,
    rows: &[Ready],
) -> Result<Leftovers, AllocError>
    ensures { IfOk result (λ left. IsLeft left (keys_of rows.now) (record_keys (state_of row_tables.now) kind) []) }
{
    let mut left = expect_all(row_tables.allocator(), rows)?;
    count_all(row_tables, kind, &mut left)?;
    Ok(left)
}

/// How many records of the kind are left that each row may represent. Prefixes and addresses, of which there may be hundreds of
/// thousands, are looked up row by row.
pub(crate) fn leftovers(
    row_tables: &RowTables,
    kind: Kind,
    rows: &[Ready],
) -> Result<Leftovers, AllocError>
    requires lawful { IsLawful (state_of row_tables.now) }
    requires ready { AllByRecursion (IsReadied kind) rows.now }
    ensures { IfOk result (λ left. IsLeft left (keys_of rows.now) (record_keys (state_of row_tables.now) kind) []) }
{
    match kind {
        Kind::Prefixes => look_up::<Prefix>(row_tables, rows),
        Kind::Addresses => look_up::<IpAddress>(row_tables, rows),
        _ => count_records(row_tables, kind, rows),
    }
}
