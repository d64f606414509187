//! How many different blocks of the tree contain a block.

ghost use Rattle.std.specs.Prelude.{◌≡◌, ◌<◌, Some, Option, true, false};
ghost use Rattle.inet_num.specs.Net.{Cidr, IsBlock};
ghost use Rattle.block_space.specs.Listed.{around_of};
ghost use Rattle.radix_tree.specs.Listed.{blocks_of};
ghost use Rattle.radix_tree.specs.Shape.{IsTree};

use crate::halves::{half_of, is_in_high_half, whole_of};
use crate::links::{Found, Linked, Place};
use block_space::Steps;
use inet_num::Block;
use std::sync::ledger::{Blank, Ledger};

impl Linked {
    /// How many different blocks of the tree contain a block and are not it: those with a count of the nodes on the way to it.
    fn count_around<L: Ledger>(&self, block: &Block, steps: &mut Steps<L>) -> u32
        requires tree { IsTree self.now }
        requires lawful { IsBlock block.now }
        requires family { block.now.family ≡ self.now.family }
        ensures { result ≡ around_of (blocks_of self.now.pool) block.now }
    {
        let mut count = 0u32;
        let mut found = Found {
            place: Place::Root,
            at: self.root,
            land: whole_of(self.family),
        };
        while let Some(id) = found.at {
            let node = self.pool.visit(id, steps);
            if !block.strictly_inside(&node.block) {
                return count;
            }
            count += node.count.min(1);
            let right = is_in_high_half(block, &node.block);
            found = Found {
                place: Place::Under(id, right),
                at: node.link(right),
                land: half_of(&node.block, right),
            };
        }
        count
    }
}

/// How many different blocks contain a block, on a counter that is made for it.
pub fn around_counted<L: Ledger>(linked: &Linked, block: &Block, blank: Blank) -> u32
    requires name { blank.name ≡ L.name }
    requires parts { blank.parts ≡ L.parts }
    requires some { 0 < blank.parts }
    requires tree { IsTree linked.now }
    requires lawful { IsBlock block.now }
    requires family { block.now.family ≡ linked.now.family }
    ensures { result ≡ around_of (blocks_of linked.now.pool) block.now }
{
    let mut steps = Steps::<L>::new(blank);
    linked.count_around(block, &mut steps)
}
