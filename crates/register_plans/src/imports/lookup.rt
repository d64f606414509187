//! Records with the key of a row, looked up by their table and their block or host.

ghost use Rattle.std.specs.Prelude.{◌≡◌, ◌<◌, ◌^◌, false, ℕ, List, [], IfOk, IfSome, bytes_eq, count_by, length, map, string_bytes};
ghost use Rattle.std.specs.List.{AllByRecursion};
ghost use Rattle.ipam_data.specs.Fields.{stored_draft};
ghost use Rattle.ipam_data.specs.Lawful.{IsLawful};
ghost use Rattle.ipam_data.specs.Rows.{prefix_id, address_id};
ghost use Rattle.register_plans.specs.Candidates.{AreCandidates};
ghost use Rattle.register_plans.specs.Meets.{prefix_meets, address_meets};
ghost use Rattle.register_tables.specs.Held.{state_of};
ghost use Rattle.register_plans.specs.RecordsLeft.{IsLeft};
ghost use Rattle.register_plans.specs.KeptDrafts.{IsKept, IsReadied, has_key, prefix_filter as prefix_filter_of, address_filter as address_filter_of};
ghost use Rattle.register_plans.specs.ReadyRows.{key_of_draft, key_of_row, keys_of};

use crate::calls::row_at_index;
use crate::imports::keys::key_of_record;
use crate::imports::leftovers::Leftovers;
use crate::imports::ready::Ready;
use crate::registered::Registered;
use ipam_data::address::IpAddress;
use ipam_data::calls::{Draft, Filter};
use ipam_data::prefix::Prefix;
use placed_book::host_block;
use register_tables::RowTables;
use std::alloc::AllocError;

/// A kind of record that is found by its place.
pub(crate) trait LookedUp: Registered {
    /// How many records have the key of a draft of the kind. `Err` means out of memory.
    fn count_key(row_tables: &RowTables, draft: &Draft, key: &str) -> Result<u32, AllocError>
        requires lawful { IsLawful (state_of row_tables.now) }
        requires kept { IsKept Self.rules.kind (stored_draft draft.now) }
        requires key { key.now ≡ key_of_draft (stored_draft draft.now) }
        ensures { IfOk result (λ n. n ≡ count_by (bytes_eq key.now) (map (key_of_row Self.rules) (Self.rules.row_list (state_of row_tables.now)).rows)) };
}

/// Whether the record of an id exists and has the key.
fn has_key<T: Registered>(row_tables: &RowTables, id: u32, key: &str) -> Result<bool, AllocError>
    ensures { IfOk result (λ b. b ≡ has_key T.rules (T.rules.row_list (state_of row_tables.now)).rows key.now id) }
{
    match T::found(row_tables, id) {
        Some(row) => {
            let own = key_of_record(row_tables.allocator(), row)?;
            Ok(key == own.as_str())
        }
        None => Ok(false),
    }
}

/// How many of the records of these ids have the key.
fn count_found<T: Registered>(
    row_tables: &RowTables,
    ids: &[u32],
    key: &str,
) -> Result<u32, AllocError>
    requires { length ids.now < 2 ^ 30 }
    ensures { IfOk result (λ n. n ≡ count_by (has_key T.rules (T.rules.row_list (state_of row_tables.now)).rows key.now) ids.now) }
{
    let mut count = 0;
    'ids: for id in ids {
        if has_key::<T>(row_tables, *id, key)? {
            count += 1;
        }
    }
    Ok(count)
}

/// How many of all records have the key.
fn count_everywhere<T: Registered>(row_tables: &RowTables, key: &str) -> Result<u32, AllocError>
    ensures { IfOk result (λ n. n ≡ count_by (bytes_eq key.now) (map (key_of_row T.rules) (T.rules.row_list (state_of row_tables.now)).rows)) }
{
    let mut count = 0;
    let all = T::count(row_tables);
    'records: for index in 0..all {
        let row: &T = row_at_index(row_tables, index);
        let own = key_of_record(row_tables.allocator(), row)?;
        if key == own.as_str() {
            count += 1;
        }
    }
    Ok(count)
}

/// A filter for the prefixes with the table and the block of a draft.
fn prefix_filter(draft: &Draft) -> Filter
    ensures { result ≡ prefix_filter_of draft.now }
{
    match draft {
        Draft::Prefix { block, vrf, .. } => Filter::Prefixes {
            family: None,
            vrf_id: Some(*vrf),
            status: None,
            role_id: None,
            prefix: Some(*block),
            within: None,
            within_include: None,
            contains: None,
        },
        _ => Filter::Vrfs {
            name: None,
            rd: None,
        },
    }
}

/// A filter for the addresses with the table and the host of a draft.
fn address_filter(draft: &Draft) -> Filter
    ensures { result ≡ address_filter_of draft.now }
{
    match draft {
        Draft::IpAddress { host, vrf, .. } => Filter::Addresses {
            family: None,
            vrf_id: Some(*vrf),
            status: None,
            role: None,
            parent: Some(host_block(host.addr())),
            dns_name: None,
        },
        _ => Filter::Vrfs {
            name: None,
            rd: None,
        },
    }
}

/// The ids of the prefixes with the table and the block of a draft; `None` if all are to be looked at. `Err` means out of memory.
fn prefix_ids(row_tables: &RowTables, draft: &Draft) -> Result<Option<Vec<u32>>, AllocError>
    requires { IsLawful (state_of row_tables.now) }
    ensures { IfOk result (λ found. IfSome found (λ v. AreCandidates prefix_id (prefix_meets (prefix_filter_of draft.now)) row_tables.now.prefixes.rows v.items)) }
{
    let filter = prefix_filter(draft);
    let found = Prefix::candidates(row_tables, &filter);
    drop(filter);
    found
}

/// The ids of the addresses with the table and the host of a draft; `None` if all are to be looked at. `Err` means out of memory.
fn address_ids(row_tables: &RowTables, draft: &Draft) -> Result<Option<Vec<u32>>, AllocError>
    requires { IsLawful (state_of row_tables.now) }
    ensures { IfOk result (λ found. IfSome found (λ v. AreCandidates address_id (address_meets (address_filter_of draft.now)) row_tables.now.addresses.rows v.items)) }
{
    let filter = address_filter(draft);
    let found = IpAddress::candidates(row_tables, &filter);
    drop(filter);
    found
}

impl LookedUp for Prefix {
    fn count_key(row_tables: &RowTables, draft: &Draft, key: &str) -> Result<u32, AllocError> {
        match prefix_ids(row_tables, draft)? {
            Some(ids) => count_found::<Prefix>(row_tables, &ids, key),
            None => count_everywhere::<Prefix>(row_tables, key),
        }
    }
}

impl LookedUp for IpAddress {
    fn count_key(row_tables: &RowTables, draft: &Draft, key: &str) -> Result<u32, AllocError> {
        match address_ids(row_tables, draft)? {
            Some(ids) => count_found::<IpAddress>(row_tables, &ids, key),
            None => count_everywhere::<IpAddress>(row_tables, key),
        }
    }
}

/// How many records have the key of a row that was made ready; of one that is refused by itself, none.
fn count_of<T: LookedUp>(row_tables: &RowTables, row: &Ready) -> Result<u32, AllocError>
    requires lawful { IsLawful (state_of row_tables.now) }
    requires ready { IsReadied T.rules.kind row.now }
    requires spelled { (other : T) → bytes_eq [] (key_of_row T.rules other) ≡ false }
    ensures { IfOk result (λ n. n ≡ count_by (bytes_eq row.now.key) (map (key_of_row T.rules) (T.rules.row_list (state_of row_tables.now)).rows)) }
{
    match row.fault {
        Some(_) => Ok(0),
        None => T::count_key(row_tables, &row.draft, row.key.as_str()),
    }
}

/// How many records are left that each row may represent, looked up row by row.
pub(crate) fn look_up<T: LookedUp>(
    row_tables: &RowTables,
    rows: &[Ready],
) -> Result<Leftovers, AllocError>
    requires lawful { IsLawful (state_of row_tables.now) }
    requires ready { AllByRecursion (IsReadied T.rules.kind) rows.now }
    requires spelled { (other : T) → bytes_eq [] (key_of_row T.rules other) ≡ false }
    ensures { IfOk result (λ left. IsLeft left (keys_of rows.now) (map (key_of_row T.rules) (T.rules.row_list (state_of row_tables.now)).rows) []) }
{
    let mut left = Leftovers::new(row_tables.allocator());
    for row in rows {
        let count = count_of::<T>(row_tables, row)?;
        let key = String::from_str(row_tables.allocator(), row.key.as_str())?;
        left.expect(key, count)?;
    }
    Ok(left)
}
