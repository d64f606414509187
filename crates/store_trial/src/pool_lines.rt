//! Changes of pools, each a line of text.

use crate::words::{number_of, part, text_of};
use number_pools::{Listed, Member, NumberRange, PoolKind};
use pool_keeper::tables::PoolChange;
use std::alloc::{AllocError, Global};

/// How many ranges, or members, are many: as many as there may be of ranges, and as one claim may ask for.
const MANY: u32 = 1_000;

/// The kind of this name. Another name fails as for lack of memory.
fn kind_named(name: Option<&str>) -> Result<PoolKind, AllocError> {
    match name.unwrap_or("") {
        "asn" => Ok(PoolKind::Asn),
        "vlan" => Ok(PoolKind::Vlan),
        _ => Err(AllocError),
    }
}

/// A range of these words.
fn range_of(alloc: Global, words: &str) -> Result<NumberRange, AllocError> {
    Ok(NumberRange {
        id: number_of(words.split(',').next())?,
        kind: kind_named(words.split(',').nth(1))?,
        name: text_of(alloc, words.split(',').nth(2).unwrap_or(""))?,
        first: number_of(words.split(',').nth(3))?,
        last: number_of(words.split(',').nth(4))?,
    })
}

/// A member of these words.
fn member_of(alloc: Global, words: &str) -> Result<Member, AllocError> {
    Ok(Member {
        id: number_of(words.split(',').next())?,
        range: number_of(words.split(',').nth(1))?,
        number: number_of(words.split(',').nth(2))?,
        name: text_of(alloc, words.split(',').nth(3).unwrap_or(""))?,
    })
}

/// Many ranges of AS numbers of four bytes, whose ids lie far from one another.
fn many_ranges(alloc: Global) -> Result<Listed<NumberRange>, AllocError> {
    let mut ranges = Vec::new(alloc);
    for number in 0..MANY {
        let first = 4_294_867_296u32.saturating_add(number.saturating_mul(100));
        ranges.push(NumberRange {
            id: 70_000u32.saturating_add(number.saturating_mul(4_000_000)),
            kind: PoolKind::Asn,
            name: text_of(alloc, format!(in alloc; " range '{number}' ")?.as_str())?,
            first,
            last: first.saturating_add(99),
        })?;
    }
    Ok(Listed::of(ranges))
}

/// Puts the range of these words, if there are any.
fn put_range(alloc: Global, ranges: &mut Vec<NumberRange>, words: &str) -> Result<(), AllocError> {
    if words.is_empty() {
        return Ok(());
    }
    ranges.push(range_of(alloc, words)?)?;
    Ok(())
}

/// The ranges of these texts, or many.
fn ranges_of(alloc: Global, text: &str) -> Result<Listed<NumberRange>, AllocError> {
    if text == "many" {
        return many_ranges(alloc);
    }
    let mut ranges = Vec::new(alloc);
    for words in text.split(';') {
        put_range(alloc, &mut ranges, words)?;
    }
    Ok(Listed::of(ranges))
}

/// Many members.
fn many_members(alloc: Global) -> Result<Listed<Member>, AllocError> {
    let mut members = Vec::new(alloc);
    for id in 100..100 + MANY {
        members.push(Member {
            id,
            range: 3,
            number: id + 2_000,
            name: text_of(alloc, format!(in alloc; "name {id}")?.as_str())?,
        })?;
    }
    Ok(Listed::of(members))
}

/// A claim of the last AS numbers of a range, under the greatest ids.
fn claimed(alloc: Global) -> Result<Listed<Member>, AllocError> {
    let mut members = Vec::new(alloc);
    for number in 0..MANY {
        members.push(Member {
            id: 4_294_966_295u32.saturating_add(number),
            range: 3_996_070_000,
            number: 4_294_966_296u32.saturating_add(number),
            name: text_of(alloc, format!(in alloc; "Zürich\0 {number}  ")?.as_str())?,
        })?;
    }
    Ok(Listed::of(members))
}

/// Puts the member of these words, if there are any.
fn put_member(alloc: Global, members: &mut Vec<Member>, words: &str) -> Result<(), AllocError> {
    if words.is_empty() {
        return Ok(());
    }
    members.push(member_of(alloc, words)?)?;
    Ok(())
}

/// The members of these texts, or many, or those of a claim.
fn members_of(alloc: Global, text: &str) -> Result<Listed<Member>, AllocError> {
    if text == "many" {
        return many_members(alloc);
    }
    if text == "claim" {
        return claimed(alloc);
    }
    let mut members = Vec::new(alloc);
    for words in text.split(';') {
        put_member(alloc, &mut members, words)?;
    }
    Ok(Listed::of(members))
}

/// The number of a word, if there is one.
fn cut_of(word: &str) -> Result<Option<u32>, AllocError> {
    if word.is_empty() {
        return Ok(None);
    }
    Ok(Some(number_of(Some(word))?))
}

/// The part of a line after so many bars, which is empty if there are fewer.
fn last_part(line: &str, index: usize) -> &str {
    line.split('|').nth(index).unwrap_or("")
}

/// The first of these, if there is one.
fn first_of<T: Drop>(items: Listed<T>) -> Option<T> {
    items.into_vec().into_iter().next()
}

/// The change of a line: after its first bar the ranges that are put, then the members that are put, the range and the member that are removed, the
/// next ids, and the range and the member that are put in the place of others.
pub(crate) fn change_of(alloc: Global, line: &str) -> Result<PoolChange, AllocError> {
    let next = part(line, 5)?;
    Ok(PoolChange {
        next_range: number_of(next.split(',').next())?,
        next_member: number_of(next.split(',').nth(1))?,
        new_ranges: ranges_of(alloc, part(line, 1)?)?,
        new_members: members_of(alloc, part(line, 2)?)?,
        cut_range: cut_of(part(line, 3)?)?,
        cut_member: cut_of(part(line, 4)?)?,
        changed_range: first_of(ranges_of(alloc, last_part(line, 6))?),
        changed_member: first_of(members_of(alloc, last_part(line, 7))?),
    })
}
