//! The first available block: one that is free and whose enclosing block is not, or leaves the block that is searched.

ghost use Rattle.std.specs.Prelude.{◌≡◌, ℕ, ◌<◌, ◌≤◌, Some, Option, true, false};
ghost use Rattle.inet_num.specs.Net.{Cidr, width_of, IsBlock, IsInside};
ghost use Rattle.block_space.specs.Listed.{counting_of};
ghost use Rattle.block_space.specs.Fit.{IsFirstAvailable};
ghost use Rattle.node_pool.specs.Pooled.{node_at};
ghost use Rattle.radix_tree.specs.Shape.{IsLink};
ghost use Rattle.radix_tree.specs.Listed.{blocks_of};
ghost use Rattle.radix_tree.specs.Frees.{HasFrees};
ghost use Rattle.radix_tree.specs.Sound.{IsSound};

use crate::fits::ends_before;
use crate::halves::half_of;
use crate::links::{Linked, is_left_out};
use block_space::Steps;
use inet_num::Block;
use node_pool::NodeId;
use std::sync::ledger::Ledger;

/// The block, unless it begins before a number.
fn unless_before(block: Block, from: u128) -> Option<Block>
    ensures some { from ≤ block.first → result ≡ Some block }
    ensures none { block.first < from → result ≡ None }
{
    if block.first().value() < from {
        return None;
    }
    Some(block)
}

impl Linked {
    /// The first available block of a land that does not begin before a number, by the link for the land.
    fn available_below<L: Ledger>(
        &self,
        at: Option<NodeId>,
        land: Block,
        from: u128,
        steps: &mut Steps<L>,
    ) -> Option<Block>
        requires sound { IsSound self.now }
        requires frees { HasFrees self.now.pool }
        requires lawful { IsBlock land }
        requires family { land.family ≡ self.now.family }
        requires link { IsLink self.now.pool at land }
        ensures { IsFirstAvailable land (counting_of (blocks_of self.now.pool) land false) from result }
    {
        if ends_before(&land, from) {
            return None;
        }
        let Some(id) = at else {
            return unless_before(land, from);
        };
        // a node's block has a block of the tree in it
        let width = self.family.width();
        if land.len() == width {
            return None;
        }
        let Some(sides) = self.fitting_sides(id, &land, width, steps) else {
            return None;
        };
        if let Some(block) = self.available_below(sides.low, half_of(&land, false), from, steps) {
            return Some(block);
        }
        self.available_below(sides.high, half_of(&land, true), from, steps)
    }

    /// The same of a block whose own node does not count, by the links for its halves.
    fn available_under<L: Ledger>(
        &self,
        id: NodeId,
        within: Block,
        from: u128,
        steps: &mut Steps<L>,
    ) -> Option<Block>
        requires sound { IsSound self.now }
        requires frees { HasFrees self.now.pool }
        requires family { within.family ≡ self.now.family }
        requires lawful { IsBlock within }
        requires own { (n : _) × (node_at self.now.pool id ≡ Some n) × (n.block ≡ within) }
        ensures { IsFirstAvailable within (counting_of (blocks_of self.now.pool) within true) from result }
    {
        let node = self.pool.visit(id, steps);
        if node.is_leaf() {
            return unless_before(within, from);
        }
        let sides = node.sides();
        if let Some(block) = self.available_below(sides.low, half_of(&within, false), from, steps) {
            return Some(block);
        }
        self.available_below(sides.high, half_of(&within, true), from, steps)
    }

    /// The first available block of a block that does not begin before a number, given the blocks that count.
    pub fn next_available<L: Ledger>(
        &self,
        within: &Block,
        from: u128,
        strict: bool,
        steps: &mut Steps<L>,
    ) -> Option<Block>
        requires sound { IsSound self.now }
        requires frees { HasFrees self.now.pool }
        requires lawful { IsBlock within.now }
        requires family { within.now.family ≡ self.now.family }
        ensures { IsFirstAvailable within.now (counting_of (blocks_of self.now.pool) within.now strict) from result }
    {
        let at = self.link_inside(within, steps);
        let Some(id) = at else {
            return unless_before(*within, from);
        };
        let node = self.pool.visit(id, steps);
        if is_left_out(strict, &node.block, within) {
            return self.available_under(id, *within, from, steps);
        }
        self.available_below(at, *within, from, steps)
    }
}
