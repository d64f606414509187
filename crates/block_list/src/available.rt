//! The available blocks of a block given those that count for it.

ghost use Rattle.std.specs.Prelude.{◌≡◌, ℕ};
ghost use Rattle.inet_num.specs.Net.{Cidr, IsBlock, HasAddress, IsInside};
ghost use Rattle.inet_num.specs.Free.{IsFree};
ghost use Rattle.block_space.specs.Listed.{counting_of};
ghost use Rattle.block_space.specs.Fit.{IsFirstAvailable};
ghost use Rattle.block_list.specs.Listing.{Rises};
ghost use Rattle.block_list.specs.Places.{IsAround};

use crate::fit::lowest_fit;
use crate::search::is_met;
use inet_num::Block;

/// The available block of `within` around a free block: one bit shorter as long as that is free and inside.
fn widened(blocks: &[Block], within: &Block, block: Block, strict: bool) -> Block
    requires lawful { IsBlock block }
    requires inside { IsInside block within.now }
    requires free { IsFree (counting_of blocks.now within.now strict) block }
    ensures { IsAround within.now (counting_of blocks.now within.now strict) block result }
{
    let mut wide = block;
    'widen: while let Some(wider) = wide.enclosing() {
        if !within.contains(&wider) {
            return wide;
        }
        if is_met(blocks, within, strict, &wider) {
            return wide;
        }
        wide = wider;
    }
    wide
}

/// The first available block of `within` that does not begin before an address of it. It is the one around the first free
/// address from there on, or, if that one begins before the address, the one around the first free address after it.
pub fn next_available(blocks: &[Block], within: &Block, from: u128, strict: bool) -> Option<Block>
    requires rises { Rises 0 blocks.now }
    requires inside { HasAddress within.now from }
    ensures { IsFirstAvailable within.now (counting_of blocks.now within.now strict) from result }
{
    let width = within.family().width();
    let single = lowest_fit(blocks, within, width, from, strict)?;
    let here = widened(blocks, within, single, strict);
    if here.first().value() >= from {
        return Some(here);
    }
    let end = here.last().value();
    if end >= within.last().value() {
        return None;
    }
    let behind = lowest_fit(blocks, within, width, end + 1, strict)?;
    Some(widened(blocks, within, behind, strict))
}
