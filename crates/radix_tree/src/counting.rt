//! How many blocks of the tree count for a block.

ghost use Rattle.std.specs.Prelude.{◌≡◌, ℕ, ◌^◌, ◌<◌, ◌≤◌, length, Some, Option, true, false};
ghost use Rattle.inet_num.specs.Net.{Cidr, IsBlock};
ghost use Rattle.block_space.specs.Listed.{counting_of};
ghost use Rattle.radix_tree.specs.Listed.{blocks_of};
ghost use Rattle.radix_tree.specs.Frees.{HasFrees};
ghost use Rattle.radix_tree.specs.Sound.{IsSound};

use crate::links::{Linked, is_left_out};
use block_space::Steps;
use inet_num::Block;
use std::sync::ledger::{Blank, Ledger};

impl Linked {
    /// How many blocks of the tree count for a block.
    fn count_inside<L: Ledger>(&self, within: &Block, strict: bool, steps: &mut Steps<L>) -> u32
        requires sound { IsSound self.now }
        requires frees { HasFrees self.now.pool }
        requires few { length (blocks_of self.now.pool) ≤ 2 ^ 30 }
        requires lawful { IsBlock within.now }
        requires family { within.now.family ≡ self.now.family }
        ensures { result ≡ length (counting_of (blocks_of self.now.pool) within.now strict) }
    {
        let at = self.link_inside(within, steps);
        let Some(id) = at else {
            return 0;
        };
        let node = self.pool.visit(id, steps);
        if is_left_out(strict, &node.block, within) {
            return node.total - node.count;
        }
        node.total
    }
}

/// How many blocks count for a block, on a counter that is made for it.
pub fn count_counted<L: Ledger>(linked: &Linked, within: &Block, strict: bool, blank: Blank) -> u32
    requires name { blank.name ≡ L.name }
    requires parts { blank.parts ≡ L.parts }
    requires some { 0 < blank.parts }
    requires sound { IsSound linked.now }
    requires frees { HasFrees linked.now.pool }
    requires few { length (blocks_of linked.now.pool) ≤ 2 ^ 30 }
    requires lawful { IsBlock within.now }
    requires family { within.now.family ≡ linked.now.family }
    ensures { result ≡ length (counting_of (blocks_of linked.now.pool) within.now strict) }
{
    let mut steps = Steps::<L>::new(blank);
    linked.count_inside(within, strict, &mut steps)
}
