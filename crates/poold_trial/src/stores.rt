//! A store from a line: the next ids and, after semicolons, rows and the numbers of the calls of each keeper that fail.

use number_pools::{Listed, Member, NumberRange, PoolKind};
use pool_keeper::opener::MemoryPoolOpener;
use pool_keeper::tables::PoolTables;
use std::alloc::{AllocError, Global};
use stored_tables::tables::Text;

/// A word of a part. If there is none, the line is wrong, and the test fails as for lack of memory.
fn word(part: &str, index: usize) -> Result<&str, AllocError> {
    part.split(' ').nth(index).ok_or(AllocError)
}

/// The number that a word is, likewise.
fn number(part: &str, index: usize) -> Result<u32, AllocError> {
    word(part, index)?.parse::<u32>().map_err(|_| AllocError)
}

/// The kind that a word names, likewise.
fn kind_of(part: &str, index: usize) -> Result<PoolKind, AllocError> {
    match word(part, index)? {
        "asn" => Ok(PoolKind::Asn),
        "vlan" => Ok(PoolKind::Vlan),
        _ => Err(AllocError),
    }
}

fn text_of(alloc: Global, text: &str) -> Result<Text, AllocError> {
    Ok(Text::of(String::from_str(alloc, text)?))
}

/// `range ID KIND NAME FIRST LAST`.
fn range_of(alloc: Global, part: &str) -> Result<NumberRange, AllocError> {
    Ok(NumberRange {
        id: number(part, 1)?,
        kind: kind_of(part, 2)?,
        name: text_of(alloc, word(part, 3)?)?,
        first: number(part, 4)?,
        last: number(part, 5)?,
    })
}

/// `member ID RANGE NUMBER NAME`, or without a name.
fn member_of(alloc: Global, part: &str) -> Result<Member, AllocError> {
    Ok(Member {
        id: number(part, 1)?,
        range: number(part, 2)?,
        number: number(part, 3)?,
        name: text_of(alloc, part.split(' ').nth(4).unwrap_or(""))?,
    })
}

/// The tables of a line.
fn tables_of(alloc: Global, line: &str) -> Result<PoolTables, AllocError> {
    let mut ranges = Vec::new(alloc);
    let mut members = Vec::new(alloc);
    for part in line.split(';') {
        if part.starts_with("range ") {
            ranges.push(range_of(alloc, part)?)?;
        }
        if part.starts_with("member ") {
            members.push(member_of(alloc, part)?)?;
        }
    }
    Ok(PoolTables {
        next_range: number(line, 0)?,
        next_member: number(line.split(';').next().unwrap_or(""), 1)?,
        ranges: Listed::of(ranges),
        members: Listed::of(members),
    })
}

/// `fails N ..`.
fn fails_of(alloc: Global, line: &str) -> Result<Vec<u32>, AllocError> {
    let mut fails = Vec::new(alloc);
    for part in line.split(';') {
        if part.starts_with("fails ") {
            fails.push(number(part, 1)?)?;
        }
    }
    Ok(fails)
}

/// An opener with the tables of a line under the path `a`.
pub fn opener_of(alloc: Global, line: &str) -> Result<MemoryPoolOpener, AllocError> {
    let mut stored = Vec::new(alloc);
    stored.push((text_of(alloc, "a")?, tables_of(alloc, line)?))?;
    Ok(MemoryPoolOpener::new(stored, fails_of(alloc, line)?))
}
