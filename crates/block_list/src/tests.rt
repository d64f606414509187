//! The list compared with the definitions, followed address by address, over small blocks of both families.

ghost use Rattle.std.specs.Prelude.{◌≡◌, ℕ, ◌<◌, ◌≤◌, IfSome, IfOk};
ghost use Rattle.inet_num.specs.Net.{HasAddress};
ghost use Rattle.block_list.specs.Listing.{Listing};

use super::*;
use inet_num::available_blocks;
use std::marker::Brand;
use std::sync::ledger::Blank;
use std::test::Fail;

/// The block of this length at the address of this number.
fn block(family: Family, first: u128, len: u8) -> Option<Block>
    ensures { IfSome result (λ b. b.family ≡ family) }
{
    Block::of(Addr::of(family, first)?, len)
}

/// Puts a block in, if there is room.
fn put(space: &mut BlockList, block: Block)
    ensures { space.new.family ≡ space.old.family }
{
    if space.blocks.len() < 1000 && space.spare >= 1 && block.family().is(space.family) {
        space.insert(block);
    }
}

/// A space with these blocks, each a first address and a length. What is no block fails, as for lack of memory.
fn space_of(alloc: Global, family: Family, blocks: &[(u128, u8)]) -> Result<BlockList, AllocError>
    ensures { IfOk result (λ s. s.family ≡ family) }
{
    let mut space = BlockList::new(alloc, family);
    'each: for (first, len) in blocks {
        if space.blocks.len() < 1000 {
            space.reserve(1)?;
            let Some(block) = block(family, *first, *len) else {
                return Err(AllocError);
            };
            put(&mut space, block);
        }
    }
    Ok(space)
}

/// Those of the blocks that count for a block.
fn counted(
    alloc: Global,
    within: &Block,
    blocks: &[(u128, u8)],
    strict: bool,
) -> Result<Vec<Block>, AllocError> {
    let mut out = Vec::new(alloc);
    'each: for (first, len) in blocks {
        let Some(block) = block(within.family(), *first, *len) else {
            return Err(AllocError);
        };
        if within.contains(&block) && !(strict && block.is(within)) {
            out.push(block)?;
        }
    }
    Ok(out)
}

/// Whether a block counts an address of another one as its own.
fn touches(child: &Block, place: &Block) -> bool {
    child.contains(place) || place.contains(child)
}

/// The block of this length at the address, if it is free inside.
fn place_at(within: &Block, children: &[Block], len: u8, at: u128) -> Option<Block> {
    let place = block(within.family(), at, len)?;
    if !within.contains(&place) || children.iter().any(|child| touches(child, &place)) {
        return None;
    }
    Some(place)
}

/// The first fit, found at each address in turn.
fn plain_fit(within: &Block, children: &[Block], len: u8, from: u128) -> Option<Block> {
    let last = within.last().value();
    'places: for at in from..last {
        if let Some(place) = place_at(within, children, len, at) {
            return Some(place);
        }
    }
    place_at(within, children, len, last)
}

/// Whether the list answers from an address on as the definitions do.
fn agrees_at<L: Ledger>(
    space: &BlockList,
    within: Block,
    children: &[Block],
    available: &[Block],
    at: u128,
    strict: bool,
    steps: &mut Steps<L>,
) -> bool
    requires family { within.family ≡ space.now.family }
    requires inside { HasAddress within at }
{
    let Some(from) = Addr::of(within.family(), at) else {
        return false;
    };
    let mut want = None;
    'available: for block in available.iter().rev() {
        if block.first().value() >= at {
            want = Some(*block);
        }
    }
    if space.next_free_block(within, from, strict, steps) != want {
        return false;
    }
    'lengths: for len in within.len()..within.family().width() + 1 {
        let found = space.first_free(within, len, from, strict, steps);
        if found != plain_fit(&within, children, len, at) {
            return false;
        }
    }
    true
}

/// How many of the block's addresses some child has.
fn plain_count(within: &Block, children: &[Block]) -> u128 {
    let mut total = 0u128;
    let last = within.last().value();
    'addresses: for at in within.first().value()..last {
        if place_at(within, children, within.family().width(), at).is_none() {
            total = total.wrapping_add(1);
        }
    }
    if place_at(within, children, within.family().width(), last).is_none() {
        total = total.wrapping_add(1);
    }
    total
}

/// Whether the list answers of a block as the definitions do, from each of its addresses on.
fn agrees<L: Ledger>(
    alloc: Global,
    space: &BlockList,
    within: Block,
    blocks: &[(u128, u8)],
    strict: bool,
    blank: Blank,
) -> Result<bool, AllocError>
    requires family { within.family ≡ space.now.family }
    requires long { 1 ≤ within.len }
    requires name { blank.name ≡ L.name }
    requires parts { blank.parts ≡ L.parts }
    requires some { 0 < blank.parts }
{
    let mut steps = Steps::<L>::new(blank);
    let children = counted(alloc, &within, blocks, strict)?;
    let available = available_blocks(alloc, &within, &children)?;
    if space.covered(within, strict) != plain_count(&within, &children) {
        return Ok(false);
    }
    if space.counting(within, strict) as usize != children.len() {
        return Ok(false);
    }
    let last = within.last().value();
    'addresses: for at in within.first().value()..last {
        if !agrees_at(space, within, &children, &available, at, strict, &mut steps) {
            return Ok(false);
        }
    }
    Ok(agrees_at(
        space, within, &children, &available, last, strict, &mut steps,
    ))
}

/// The last /28 of IPv6.
const HIGH: u128 = 340282366920938463463374607431768211440;

#[test]
fn lists_answer_as_the_definitions(rt: HostRuntime) -> Result<(), Fail> {
    let cases: [(Family, u128, u8, &[(u128, u8)]); 7] = [
        (Family::V4, 16, 28, &[]),
        (Family::V4, 16, 28, &[(16, 28), (16, 28)]),
        (
            Family::V4,
            16,
            28,
            &[(20, 30), (16, 32), (20, 31), (20, 30), (48, 28)],
        ),
        (Family::V4, 16, 28, &[(24, 29), (0, 27), (16, 32), (31, 32)]),
        (
            Family::V4,
            4294967280,
            28,
            &[(4294967295, 32), (4294967280, 30)],
        ),
        (
            Family::V6,
            HIGH,
            124,
            &[(HIGH + 8, 125), (HIGH + 8, 128), (HIGH, 124)],
        ),
        (
            Family::V6,
            HIGH,
            124,
            &[(HIGH + 1, 128), (HIGH + 15, 128), (HIGH + 4, 126)],
        ),
    ];
    for (family, first, len, blocks) in cases {
        let space = space_of(rt.alloc(), family, blocks)?;
        let within = block(family, first, len).ok_or("no block")?;
        assert!(rt; within.len() >= 1, "{first}/{len}");
        for strict in [false, true] {
            let same = agrees::<Brand>(rt.alloc(), &space, within, blocks, strict, Blank::new(1))?;
            assert!(rt; same, "{first}/{len} {strict}");
        }
    }
    Ok(())
}

#[test]
fn a_block_put_in_twice(rt: HostRuntime) -> Result<(), Fail> {
    let mut space = BlockList::new(rt.alloc(), Family::V4);
    let net = block(Family::V4, 167772160, 24).ok_or("no block")?;
    let all = block(Family::V4, 167772160, 16).ok_or("no block")?;
    space.reserve(2)?;
    assert!(rt; space.spare() >= 2);
    put(&mut space, net);
    put(&mut space, net);
    assert_eq!(rt; space.times(net), 2);
    assert!(rt; all.len() >= 1);
    assert_eq!(rt; space.covered(all, false), 256);
    assert!(rt; space.remove(net));
    assert_eq!(rt; space.times(net), 1);
    assert!(rt; space.remove(net));
    assert!(rt; !space.remove(net));
    assert_eq!(rt; space.times(net), 0);
    Ok(())
}
