//! The fewest aligned blocks of a span.

ghost use Rattle.std.specs.Prelude.{◌≡◌, ℕ, ◌+◌, ◌^◌, ◌<◌, ◌≤◌, ◌++◌, List, OnOk, OnErr, IfOk};
ghost use Rattle.inet_num.specs.Net.{Cidr, width_of, block_at};
ghost use Rattle.span_set.specs.Runs.{IsBetween};
ghost use Rattle.span_set.specs.Blocks.{FitsAt, IsFewest};

use inet_num::{Addr, Block, Family};
use std::alloc::AllocError;

/// The address of this number, which the family has.
fn address(family: Family, value: u128) -> Addr
    requires { value < 2 ^ width_of family }
    ensures { result ≡ record { family = family; value = value } }
{
    match Addr::of(family, value) {
        Some(addr) => addr,
        None => unreachable!(),
    }
}

/// The block of one address.
fn single(addr: Addr) -> Block
    ensures { result ≡ block_at addr (width_of addr.family) }
{
    match Block::of(addr, addr.family().width()) {
        Some(block) => block,
        None => unreachable!(),
    }
}

/// The largest block that begins at the address and ends at the last number or before.
fn widest(addr: Addr, last: u128) -> Block
    requires { addr.value ≤ last }
    ensures at { result ≡ block_at addr result.len }
    ensures fits { FitsAt addr last result.len }
    ensures least { (len : ℕ) → FitsAt addr last len → result.len ≤ len }
{
    let mut block = single(addr);
    'widen: while block.len() > 0 {
        match Block::of(addr, block.len() - 1) {
            Some(wider) => {
                if last < wider.last().value() {
                    return block;
                }
                block = wider;
            }
            None => return block,
        }
    }
    block
}

/// Appends the fewest aligned blocks of the span, in address order. After out of memory the list is as before.
pub fn push_blocks(
    family: Family,
    first: u128,
    last: u128,
    out: &mut Vec<Block>,
) -> Result<(), AllocError>
    requires order { first ≤ last }
    requires range { last < 2 ^ width_of family }
    ensures ok { OnOk result ((bs : List Cidr) × IsFewest family (IsBetween first last) bs × (out.new.items ≡ out.old.items ++ bs)) }
{
    let mut at = first;
    'walk: loop {
        let block = widest(address(family, at), last);
        out.push(block)?;
        let end = block.last().value();
        if last <= end {
            return Ok(());
        }
        at = end + 1;
    }
}
