//! What a keeper loads, in words.

use ipam_keeper::keeper::{KeepFault, Keeper};
use number_pools::{Member, NumberRange};
use pool_keeper::keeper::PoolKeeper;
use pool_keeper::tables::PoolTables;
use std::alloc::{AllocError, Global};
use stored_tables::tables::{Row, Tables};

fn push_row(alloc: Global, text: &mut String, row: &Row) -> Result<(), AllocError> {
    text.push_str(format!(in alloc; "{:?} {}", row.kind, row.id)?.as_str())?;
    for field in row.fields.as_slice() {
        text.push(' ')?;
        text.push_str(field.as_str())?;
    }
    text.push(';')
}

/// The version, the next ids and the rows of tables.
fn written(alloc: Global, tables: &Tables) -> Result<String, AllocError> {
    let mut text = format!(in alloc; "{}:", tables.version)?;
    for next in tables.next.as_slice() {
        text.push_str(format!(in alloc; "{},", next.1)?.as_str())?;
    }
    text.push(':')?;
    for row in tables.rows.as_slice() {
        push_row(alloc, &mut text, row)?;
    }
    Ok(text)
}

/// Why nothing is loaded. `Err` means out of memory.
fn told_fault(alloc: Global, fault: KeepFault) -> Result<String, AllocError> {
    match fault {
        KeepFault::Failed => String::from_str(alloc, "Failed"),
        KeepFault::Memory => Err(AllocError),
    }
}

/// The tables of a register that a keeper loads, or that it failed. `Err` means out of memory.
pub(crate) fn loaded<K: Keeper>(alloc: Global, keeper: &mut K) -> Result<String, AllocError> {
    match keeper.load() {
        Ok(tables) => written(alloc, &tables),
        Err(fault) => told_fault(alloc, fault),
    }
}

fn push_range(alloc: Global, text: &mut String, range: &NumberRange) -> Result<(), AllocError> {
    let head = format!(in alloc; "{} {:?} {}", range.id, range.kind, range.name.as_str())?;
    text.push_str(head.as_str())?;
    text.push_str(format!(in alloc; " {} {};", range.first, range.last)?.as_str())
}

fn push_member(alloc: Global, text: &mut String, member: &Member) -> Result<(), AllocError> {
    let head = format!(in alloc; "{} {} {}", member.id, member.range, member.number)?;
    text.push_str(head.as_str())?;
    text.push_str(format!(in alloc; " {};", member.name.as_str())?.as_str())
}

/// The next ids and the rows of tables of pools.
fn pools_written(alloc: Global, tables: &PoolTables) -> Result<String, AllocError> {
    let mut text = format!(in alloc; "{},{}:", tables.next_range, tables.next_member)?;
    for range in tables.ranges.as_slice() {
        push_range(alloc, &mut text, range)?;
    }
    for member in tables.members.as_slice() {
        push_member(alloc, &mut text, member)?;
    }
    Ok(text)
}

/// The tables of pools that a keeper loads, or that it failed. `Err` means out of memory.
pub(crate) fn pools_loaded<K: PoolKeeper>(
    alloc: Global,
    keeper: &mut K,
) -> Result<String, AllocError> {
    match keeper.load() {
        Ok(tables) => pools_written(alloc, &tables),
        Err(fault) => told_fault(alloc, fault),
    }
}
