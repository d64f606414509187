//! Whether two families, addresses or blocks are one, and which blocks lie in which.

ghost use Rattle.std.specs.Prelude.{◌≡◌, ◌&&◌, ◌==◌, nat_lt, nat_le};
ghost use Rattle.inet_num.specs.Blocks.{same_family, same_block, same_address, is_run_inside, is_block_inside, is_strictly_inside, block_holds, InsideByEnds};

use crate::{Addr, Block, Family};

/// Whether the two families are one.
pub fn is_one_family(a: Family, b: Family) -> bool
    ensures { result ≡ same_family a b }
{
    match (a, b) {
        (Family::V4, Family::V4) => true,
        (Family::V6, Family::V6) => true,
        (Family::V4, Family::V6) => false,
        (Family::V6, Family::V4) => false,
    }
}

/// Whether the two addresses are one.
pub fn is_one_address(a: Addr, b: Addr) -> bool
    ensures { result ≡ same_address a b }
{
    is_one_family(a.family(), b.family()) && a.value() == b.value()
}

/// Whether the two blocks are one.
pub fn is_one_block(a: &Block, b: &Block) -> bool
    ensures { result ≡ same_block a.now b.now }
{
    is_one_family(a.family(), b.family())
        && a.first().value() == b.first().value()
        && a.len() == b.len()
}

/// Whether the addresses from the first to the last of one run all lie in another.
pub fn is_in_run(first: Addr, last: Addr, from: Addr, to: Addr) -> bool
    ensures { result ≡ is_run_inside first last from to }
{
    is_one_family(first.family(), from.family())
        && from.value() <= first.value()
        && last.value() <= to.value()
}

/// Whether the first block lies in the second, or is it.
pub fn is_block_inside(inner: &Block, outer: &Block) -> bool
    ensures { result ≡ is_block_inside inner.now outer.now }
{
    is_in_run(inner.first(), inner.last(), outer.first(), outer.last())
}

/// Whether the first block lies strictly inside the second.
pub fn is_block_within(inner: &Block, outer: &Block) -> bool
    ensures { result ≡ is_strictly_inside inner.now outer.now }
{
    is_one_family(inner.family(), outer.family())
        && outer.len() < inner.len()
        && outer.first().value() <= inner.first().value()
        && inner.last().value() <= outer.last().value()
}

/// Whether the block has the address.
pub fn block_holds(block: &Block, addr: Addr) -> bool
    ensures { result ≡ block_holds block.now addr }
{
    is_in_run(addr, addr, block.first(), block.last())
}

/// The test of blocks by their ends is the relation of sets of addresses.
pub fn inside_by_ends()
    ensures { InsideByEnds }
{}
