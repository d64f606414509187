//! Sets compared with values by hand and with the plain search.

ghost use Rattle.std.specs.Prelude.{◌≡◌, ◌≤◌, IfOk, IfSome};

use inet_num::{Addr, Block, Family, Span, available_blocks, read_addr, read_block, write_block};
use span_set::{SpanSet, span_of};
use std::alloc::{AllocError, Global};
use std::test::Fail;

/// A column of a case, without the spaces around it.
fn column(case: &str, index: usize) -> &str {
    case.split('|').nth(index).unwrap_or("").trim()
}

/// The block of a text, if it is one of the family.
fn block_of(family: Family, text: &str) -> Option<Block>
    ensures { IfSome result (λ b. b.family ≡ family) }
{
    let block = read_block(text.as_bytes()).ok()?;
    if !block.family().is(family) {
        return None;
    }
    Some(block)
}

/// The address of a text, if it is one of the family.
fn addr_of(family: Family, text: &str) -> Option<Addr>
    ensures { IfSome result (λ a. a.family ≡ family) }
{
    let addr = read_addr(text.as_bytes()).ok()?;
    if !addr.family().is(family) {
        return None;
    }
    Some(addr)
}

/// The span of a text as `10.0.0.0-10.0.0.255`, if it is one of the family.
fn span_told(family: Family, text: &str) -> Option<Span>
    ensures first { IfSome result (λ s. s.first.family ≡ family) }
    ensures last { IfSome result (λ s. s.last.family ≡ family) }
    ensures order { IfSome result (λ s. s.first.value ≤ s.last.value) }
{
    let (first, last) = text.split_once('-')?;
    let first = addr_of(family, first)?;
    let last = addr_of(family, last)?;
    if last.value() < first.value() {
        return None;
    }
    Some(Span { first, last })
}

/// Adds the span of a word as `+10.0.0.0-10.0.0.255`, or takes away that of one as `-10.0.0.0-10.0.0.255`. Another word, or a span of
/// the other family, fails as for lack of memory.
fn apply(set: &mut SpanSet, change: &str) -> Result<(), AllocError>
    ensures { set.new.family ≡ set.old.family }
{
    let (is_added, text) = match change.strip_prefix("+") {
        Some(text) => (true, text),
        None => (false, change.strip_prefix("-").unwrap_or("")),
    };
    let Some(span) = span_told(set.family(), text) else {
        return Err(AllocError);
    };
    if is_added {
        set.add(span)
    } else {
        set.subtract(span)
    }
}

/// The empty set after the changes of these words.
fn changed(alloc: Global, family: Family, changes: &str) -> Result<SpanSet, AllocError>
    ensures { IfOk result (λ set. set.family ≡ family) }
{
    let mut set = SpanSet::new(alloc, family);
    'changes: for change in changes.split_whitespace() {
        apply(&mut set, change)?;
    }
    Ok(set)
}

/// The texts of blocks, with a space between them.
fn written(alloc: Global, blocks: &[Block]) -> Result<Vec<u8>, AllocError> {
    let mut out = Vec::new(alloc);
    for block in blocks {
        if !out.is_empty() {
            out.push(b' ')?;
        }
        write_block(*block, &mut out)?;
    }
    Ok(out)
}

/// A family, changes of its empty set, and the blocks that are then in the set.
const CHANGES: [&str; 12] = [
    "4||",
    // 10.0.0.0 to 10.0.0.255 without the first: from 10.0.0.1/32 to 10.0.0.128/25
    "4
    |+10.0.0.0-10.0.0.255 -10.0.0.0-10.0.0.0
    |10.0.0.1/32 10.0.0.2/31 10.0.0.4/30 10.0.0.8/29 10.0.0.16/28 10.0.0.32/27 10.0.0.64/26 10.0.0.128/25",
    // spans that touch are one, and so are those that a third one joins
    "4|+0.0.0.0-0.0.0.3 +0.0.0.4-0.0.0.7|0.0.0.0/29",
    "4|+0.0.0.4-0.0.0.7 +0.0.0.0-0.0.0.3|0.0.0.0/29",
    "4|+0.0.0.0-0.0.0.2 +0.0.0.5-0.0.0.7 +0.0.0.12-0.0.0.15 +0.0.0.3-0.0.0.4|0.0.0.0/29 0.0.0.12/30",
    "4|+0.0.0.0-0.0.0.2 +0.0.0.5-0.0.0.7 +0.0.0.12-0.0.0.15 +0.0.0.1-0.0.0.13|0.0.0.0/28",
    // a gap of one stays
    "4|+0.0.0.0-0.0.0.2 +0.0.0.4-0.0.0.7|0.0.0.0/31 0.0.0.2/32 0.0.0.4/30",
    // from the middle of one span to the middle of another, and all between
    "4|+0.0.0.0-0.0.0.3 +0.0.0.8-0.0.0.11 +0.0.0.16-0.0.0.19 -0.0.0.2-0.0.0.17|0.0.0.0/31 0.0.0.18/31",
    "4|+0.0.0.0-0.0.0.3 -0.0.0.4-0.0.0.9|0.0.0.0/30",
    // all of a family, and its last address
    "6|+::-ffff:ffff:ffff:ffff:ffff:ffff:ffff:ffff|::/0",
    "6
    |+::-ffff:ffff:ffff:ffff:ffff:ffff:ffff:ffff -::-ffff:ffff:ffff:ffff:ffff:ffff:ffff:fffe
    |ffff:ffff:ffff:ffff:ffff:ffff:ffff:ffff/128",
    "6
    |+ffff:ffff:ffff:ffff:ffff:ffff:ffff:ffff-ffff:ffff:ffff:ffff:ffff:ffff:ffff:ffff
    +::-ffff:ffff:ffff:ffff:ffff:ffff:ffff:fffe -::-7fff:ffff:ffff:ffff:ffff:ffff:ffff:ffff
    |8000::/1",
];

/// The texts of the blocks of a set after the changes of a case.
fn blocks_after(alloc: Global, case: &str) -> Result<Vec<u8>, AllocError> {
    let family = if column(case, 0) == "6" {
        Family::V6
    } else {
        Family::V4
    };
    let set = changed(alloc, family, column(case, 1))?;
    written(alloc, &set.blocks()?)
}

#[test]
fn a_set_has_what_was_added_and_not_taken_away(rt: HostRuntime) -> Result<(), Fail> {
    for case in CHANGES {
        let got = blocks_after(rt.alloc(), case)?;
        assert!(rt; got.as_slice() == column(case, 2).as_bytes(), "{case}");
    }
    Ok(())
}

/// Changes of the empty set, a block, and how many of its addresses are then in the set.
const COUNTS: [&str; 6] = [
    "|::/1|0",
    "+::-ffff:ffff:ffff:ffff:ffff:ffff:ffff:ffff|::/1|170141183460469231731687303715884105728",
    "+::1-7fff:ffff:ffff:ffff:ffff:ffff:ffff:ffff|::/1|170141183460469231731687303715884105727",
    "+7fff:ffff:ffff:ffff:ffff:ffff:ffff:ffff-8000::|::/1|1",
    "+::-::9 +::c-::e +::10-::28|::8/125|5",
    "+::-::9 +::c-::e +::10-::28|::c/128|1",
];

/// How many addresses of the block of a case are in a set after its changes; none if all addresses of a family are asked for.
fn counted(alloc: Global, case: &str) -> Result<Option<u128>, AllocError> {
    let Ok(within) = read_block(column(case, 1).as_bytes()) else {
        return Ok(None);
    };
    if within.len() == 0 {
        return Ok(None);
    }
    let set = changed(alloc, within.family(), column(case, 0))?;
    Ok(Some(set.count(within)))
}

#[test]
fn addresses_are_counted(rt: HostRuntime) -> Result<(), Fail> {
    for case in COUNTS {
        let want: u128 = column(case, 2).parse()?;
        assert!(rt; counted(rt.alloc(), case)? == Some(want), "{case}");
    }
    Ok(())
}

/// A block, and those that are taken of it.
const TAKEN: [&str; 10] = [
    "192.0.2.0/28|",
    "192.0.2.0/28|192.0.2.0/32",
    "192.0.2.0/28|192.0.2.15/32",
    // at both ends
    "192.0.2.0/28|192.0.2.0/30 192.0.2.12/30",
    // equal, containing one another
    "192.0.2.0/28|192.0.2.4/31 192.0.2.4/31",
    "192.0.2.0/28|192.0.2.4/30 192.0.2.5/32",
    "192.0.2.0/28|192.0.2.5/32 192.0.2.4/30",
    // filled whole
    "192.0.2.0/28|192.0.2.8/29 192.0.2.0/29",
    "192.0.2.0/27|192.0.2.3/32 192.0.2.16/31 192.0.2.30/32",
    "192.0.2.0/32|",
];

/// Whether the blocks that are left of the block of a case, without those that are taken, are those of the plain search.
fn agrees(alloc: Global, case: &str) -> Result<bool, AllocError> {
    let Ok(within) = read_block(column(case, 0).as_bytes()) else {
        return Ok(false);
    };
    let mut taken = Vec::new(alloc);
    let mut set = SpanSet::new(alloc, within.family());
    set.add(span_of(&within))?;
    'words: for word in column(case, 1).split_whitespace() {
        let Some(block) = block_of(within.family(), word) else {
            return Ok(false);
        };
        set.subtract(span_of(&block))?;
        taken.push(block)?;
    }
    let got = written(alloc, &set.blocks()?)?;
    let want = written(alloc, &available_blocks(alloc, &within, &taken)?)?;
    Ok(got.as_slice() == want.as_slice())
}

#[test]
fn blocks_are_those_of_the_plain_search(rt: HostRuntime) -> Result<(), Fail> {
    for case in TAKEN {
        assert!(rt; agrees(rt.alloc(), case)?, "{case}");
    }
    Ok(())
}
