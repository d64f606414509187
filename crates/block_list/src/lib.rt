//! A space kept as a sorted list of blocks: the plain peer of every other way to keep one.
#![tactic(auto)]

ghost use Rattle.std.specs.Prelude.{◌≡◌, ℕ, ◌+◌, ◌<◌, ◌≤◌, length, Bool};
ghost use Rattle.inet_num.specs.Net.{Cidr};
ghost use Rattle.inet_num.specs.declared.Family.{Family};
ghost use Rattle.block_space.specs.Listed.{counting_of};
ghost use Rattle.block_list.specs.Listing.{Rises};

mod available;
mod cover;
mod fit;
mod search;

use available::next_available;
use block_space::{Space, Steps};
use cover::count_covered;
use fit::lowest_fit;
use inet_num::{Addr, Block, Family};
use search::{beginning_by, beginning_in, count_around, count_inside, index_of, times_in};
use std::alloc::{AllocError, Global};
use std::marker::Model;
use std::sync::ledger::Ledger;

/// Blocks of one family in the order of their first addresses. A search is binary; what is asked of a block looks at those
/// blocks alone that begin in it. It has no nodes, so its reach is 0 and it counts no steps.
#[derive(Drop)]
pub struct BlockList {
    family: Family,
    blocks: Vec<Block>,
    spare: u32,
}

impl Model for BlockList {
    ghost use Rattle.std.specs.Prelude.{◌+◌, ◌≤◌, vec_len, vec_capacity};
    ghost use Rattle.block_list.specs.Listing.{Listing, IsListing};

    ghost Value = { Listing };

    ghost view = { λ l. record { family = l.family; blocks = l.blocks.items; spare = l.spare } };

    ghost invariant = { λ l. IsListing (record { family = l.family; blocks = l.blocks.items; spare = l.spare }) × (vec_len l.blocks + l.spare ≤ vec_capacity l.blocks) };
}

/// The blocks that begin in a block: all that count for it are among them.
fn beginning_inside(blocks: &[Block], within: Block) -> &[Block]
    requires { Rises 0 blocks.now }
    ensures rises { Rises 0 result.now }
    ensures counting { (strict : Bool) → counting_of result.now within strict ≡ counting_of blocks.now within strict }
{
    let (from, to) = beginning_in(blocks, within.first().value(), within.last().value());
    &blocks[from..to]
}

impl Space for BlockList {
    ghost held = { λ l. l.blocks };

    ghost family_of = { λ l. l.family };

    ghost room = { λ l. l.spare };

    ghost reach = { λ l. 0 };

    fn new(alloc: Global, family: Family) -> BlockList {
        BlockList {
            family,
            blocks: Vec::new(alloc),
            spare: 0,
        }
    }

    fn family(&self) -> Family {
        self.family
    }

    fn spare(&self) -> u32 {
        self.spare
    }

    fn reserve(&mut self, n: u32) -> Result<(), AllocError> {
        self.blocks.reserve(n as usize)?;
        if self.spare < n {
            self.spare = n;
        }
        Ok(())
    }

    fn insert(&mut self, block: Block) {
        block.bounds();
        let index = beginning_by(&self.blocks, block.first().value());
        match self.blocks.insert(index, block) {
            Ok(()) => self.spare -= 1,
            Err(_) => unreachable!(),
        }
    }

    fn remove(&mut self, block: Block) -> bool {
        match index_of(&self.blocks, &block) {
            Some(index) => {
                self.blocks.remove(index);
                self.spare += 1;
                true
            }
            None => false,
        }
    }

    fn times(&self, block: Block) -> u32 {
        times_in(&self.blocks, &block) as u32
    }

    fn around(&self, block: Block) -> u32 {
        block.bounds();
        count_around(&self.blocks, block) as u32
    }

    fn counting(&self, within: Block, strict: bool) -> u32 {
        count_inside(&self.blocks, &within, strict) as u32
    }

    fn covered(&self, within: Block, strict: bool) -> u128 {
        count_covered(beginning_inside(&self.blocks, within), &within, strict)
    }

    fn first_free<L: Ledger>(
        &self,
        within: Block,
        len: u8,
        from: Addr,
        strict: bool,
        steps: &mut Steps<L>,
    ) -> Option<Block> {
        let blocks = beginning_inside(&self.blocks, within);
        lowest_fit(blocks, &within, len, from.value(), strict)
    }

    fn next_free_block<L: Ledger>(
        &self,
        within: Block,
        from: Addr,
        strict: bool,
        steps: &mut Steps<L>,
    ) -> Option<Block> {
        let blocks = beginning_inside(&self.blocks, within);
        next_available(blocks, &within, from.value(), strict)
    }
}

#[cfg(test)]
mod tests;
