//! The tables of a file, read whole.

use crate::making::make_tables;
use crate::tables::{NEXT_MEMBER, NEXT_RANGE, SELECT_MEMBERS, SELECT_RANGES, kind_of};
use number_pools::{Listed, Member, NumberRange, PoolKind};
use pool_keeper::tables::PoolTables;
use sqlite::{Alter, Connection, Row};
use sqlite_calls::{Number, StoreFault, number_under, read_numbers};
use std::alloc::Global;
use stored_tables::tables::Text;

/// The kind in this column. Another text is a fault.
fn kind_at(found: &Row, at: usize) -> Result<PoolKind, StoreFault> {
    let text: String = found.get(at)?;
    kind_of(text.as_str()).ok_or(StoreFault::Failed)
}

/// The text in this column.
fn text_at(found: &Row, at: usize) -> Result<Text, StoreFault> {
    let text: String = found.get(at)?;
    Ok(Text::of(text))
}

/// The number in this column. One that is not from 0 to 4,294,967,295 is a fault.
fn number_at(found: &Row, at: usize) -> Result<u32, StoreFault> {
    Ok(found.get(at)?)
}

fn range_of(found: &Row) -> Result<NumberRange, StoreFault> {
    Ok(NumberRange {
        id: number_at(found, 0)?,
        kind: kind_at(found, 1)?,
        name: text_at(found, 2)?,
        first: number_at(found, 3)?,
        last: number_at(found, 4)?,
    })
}

fn member_of(found: &Row) -> Result<Member, StoreFault> {
    Ok(Member {
        id: number_at(found, 0)?,
        range: number_at(found, 1)?,
        number: number_at(found, 2)?,
        name: text_at(found, 3)?,
    })
}

/// All ranges by id.
fn read_ranges<S: Alter>(
    alloc: Global,
    conn: &mut Connection<S>,
) -> Result<Vec<NumberRange>, StoreFault> {
    let mut ranges = Vec::new(alloc);
    let mut found = conn.query(SELECT_RANGES, &[])?;
    for _ in 0..u64::MAX {
        let Some(row) = found.next()? else {
            return Ok(ranges);
        };
        ranges.push(range_of(row)?)?;
    }
    Ok(ranges)
}

/// All members by id.
fn read_members<S: Alter>(
    alloc: Global,
    conn: &mut Connection<S>,
) -> Result<Vec<Member>, StoreFault> {
    let mut members = Vec::new(alloc);
    let mut found = conn.query(SELECT_MEMBERS, &[])?;
    for _ in 0..u64::MAX {
        let Some(row) = found.next()? else {
            return Ok(members);
        };
        members.push(member_of(row)?)?;
    }
    Ok(members)
}

/// The number of this name. A file without it is none of pools.
fn number_named(numbers: &[Number], name: &str) -> Result<u32, StoreFault> {
    number_under(numbers, name).ok_or(StoreFault::Failed)
}

/// The tables of a file, which are made if it has none. A file with other tables is left as it is.
pub(crate) fn load_tables<S: Alter>(
    alloc: Global,
    conn: &mut Connection<S>,
) -> Result<PoolTables, StoreFault> {
    make_tables(conn)?;
    let numbers = read_numbers(alloc, conn)?;
    Ok(PoolTables {
        next_range: number_named(numbers.as_slice(), NEXT_RANGE)?,
        next_member: number_named(numbers.as_slice(), NEXT_MEMBER)?,
        ranges: Listed::of(read_ranges(alloc, conn)?),
        members: Listed::of(read_members(alloc, conn)?),
    })
}
