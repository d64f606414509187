//! The available blocks as their definition says them, block by block: slow, and plain to see. Tests compare with it.

ghost use Rattle.std.specs.Prelude.{◌≡◌, ℕ, ◌+◌, ◌-◌, ◌*◌, ◌%◌, ◌^◌, ◌<◌, ◌≤◌, ◌↔◌, ◌++◌, not, filter, IfOk, OnOk, IsTrue};
ghost use Rattle.std.specs.List.{list_any};
ghost use Rattle.inet_num.specs.Net.{width_of, Cidr, IsBlock, HasAddress, size_of, block_at};
ghost use Rattle.inet_num.specs.Fewest.{LargestAreFewest};
ghost use Rattle.inet_num.specs.Free.{is_available, meets, picked_of, picked_at, available_blocks_of, AvailableBlocksAreThose};

use crate::{Addr, Block};
use std::alloc::{AllocError, Global};

/// Whether two blocks of one family have an address in common.
fn meet(block: &Block, other: &Block) -> bool
    ensures { result ≡ meets block.now other.now }
{
    block.first <= other.last().value && other.first <= block.last().value
}

/// Whether some child has an address of the block.
fn is_met(children: &[Block], block: &Block) -> bool
    ensures { result ≡ list_any (meets block.now) children.now }
{
    children.iter().any(|child| meet(block, child))
}

/// Whether the block is one of the available blocks.
fn is_one(within: &Block, children: &[Block], block: &Block) -> bool
    requires { block.now.family ≡ within.now.family }
    ensures { result ≡ is_available within.now children.now block.now }
{
    if !within.contains(block) {
        return false;
    }
    if is_met(children, block) {
        return false;
    }
    let Some(enclosing) = block.enclosing() else {
        return true;
    };
    if !within.contains(&enclosing) {
        return true;
    }
    is_met(children, &enclosing)
}

/// Appends the block of this length at an address, if it is an available block.
fn push_one(
    within: &Block,
    children: &[Block],
    addr: Addr,
    len: u8,
    out: &mut Vec<Block>,
) -> Result<(), AllocError>
    requires family { addr.family ≡ within.now.family }
    requires inside { HasAddress within.now addr.value }
    requires short { len ≤ width_of addr.family }
    ensures { OnOk result (out.new.items ≡ out.old.items ++ picked_of within.now children.now (block_at addr len)) }
{
    let Some(block) = Block::of(addr, len) else {
        return Ok(());
    };
    if is_one(within, children, &block) {
        out.push(block)?;
    }
    Ok(())
}

/// Appends the available blocks that begin at an address.
fn push_at(
    within: &Block,
    children: &[Block],
    addr: Addr,
    out: &mut Vec<Block>,
) -> Result<(), AllocError>
    requires family { addr.family ≡ within.now.family }
    requires inside { HasAddress within.now addr.value }
    ensures { OnOk result (out.new.items ≡ out.old.items ++ picked_at within.now children.now addr.value) }
{
    for len in 0..addr.family.width() + 1 {
        push_one(within, children, addr, len, out)?;
    }
    Ok(())
}

/// The available blocks of a block given its children, found by looking at every address and every length.
pub fn available_blocks(
    alloc: Global,
    within: &Block,
    children: &[Block],
) -> Result<Vec<Block>, AllocError>
    ensures { IfOk result (λ v. v.items ≡ available_blocks_of within.now children.now) }
{
    let mut out = Vec::new(alloc);
    let family = within.family();
    let last = within.last().value();
    let mut at = within.first().value();
    'walk: while at < last {
        push_at(within, children, Addr { family, value: at }, &mut out)?;
        at += 1;
    }
    push_at(within, children, Addr { family, value: at }, &mut out)?;
    Ok(out)
}

/// The list of available blocks that the definition gives is that of the largest free blocks, in order, and no other is.
pub fn available_blocks_are_those()
    ensures { AvailableBlocksAreThose }
{}

/// No list of blocks that has just the addresses of a set is shorter than the list of its largest blocks: each of them needs its
/// own block.
pub fn largest_are_fewest()
    ensures { LargestAreFewest }
{}
