//! The lowest free block of a length. A search goes down by halves of a land, and into a node's block only if the node says
//! that a block of the length is free there.

ghost use Rattle.std.specs.Prelude.{◌≡◌, ℕ, ◌+◌, ◌*◌, ◌<◌, ◌≤◌, ◌↔◌, IsTrue, Some, None, [], IfSome, Option, true, false};
ghost use Rattle.inet_num.specs.Net.{Cidr, width_of, size_of, IsBlock, IsInside};
ghost use Rattle.inet_num.specs.Free.{IsFree};
ghost use Rattle.block_space.specs.Listed.{counting_of};
ghost use Rattle.block_space.specs.Fit.{IsFirstFit};
ghost use Rattle.node_pool.specs.Pooled.{node_at};
ghost use Rattle.radix_tree.specs.Shape.{HasRoom, IsLink};
ghost use Rattle.radix_tree.specs.Listed.{blocks_of};
ghost use Rattle.radix_tree.specs.Frees.{HasFrees};
ghost use Rattle.radix_tree.specs.Fits.{Reaches, AreFitting, depth, IsQuick};
ghost use Rattle.radix_tree.specs.Sound.{IsSound};

use crate::Node;
use crate::halves::half_of;
use crate::links::{Linked, is_left_out};
use block_space::Steps;
use inet_num::Block;
use node_pool::NodeId;
use std::sync::ledger::Ledger;

/// The links for the two halves of a land.
#[derive(Clone, Copy)]
pub struct Sides {
    pub low: Option<NodeId>,
    pub high: Option<NodeId>,
}

impl Node {
    /// Whether there is no node below it.
    pub fn is_leaf(&self) -> bool
        ensures { IsTrue result ↔ (self.now.low ≡ None) × (self.now.high ≡ None) }
    {
        self.low.is_none() && self.high.is_none()
    }

    /// The links for the halves of the node's block.
    pub fn sides(&self) -> Sides
        ensures low { result.low ≡ self.now.low }
        ensures high { result.high ≡ self.now.high }
    {
        Sides {
            low: self.low,
            high: self.high,
        }
    }
}

/// Whether a block of this length is free, by the least length of a free block.
fn reaches(free: Option<u8>, len: u8) -> bool
    ensures { IsTrue result ↔ Reaches free len }
{
    match free {
        Some(least) => least <= len,
        None => false,
    }
}

/// Whether all addresses of a block are below a number.
pub fn ends_before(land: &Block, from: u128) -> bool
    ensures before { result ≡ true → land.now.first + size_of land.now ≤ from }
    ensures reaches { result ≡ false → from < land.now.first + size_of land.now }
{
    land.first().value() < from && land.last().value() < from
}

/// The lowest block of this length in a block, that does not begin before a number.
fn place_in(land: Block, len: u8, from: u128) -> Option<Block>
    requires lawful { IsBlock land }
    requires long { land.len ≤ len }
    requires short { len ≤ width_of land.family }
    ensures { IsFirstFit land [] len from result }
{
    if ends_before(&land, from) {
        return None;
    }
    if from <= land.first().value() {
        return Block::of(land.first(), len);
    }
    if land.len() == len {
        return None;
    }
    if let Some(block) = place_in(half_of(&land, false), len, from) {
        return Some(block);
    }
    place_in(half_of(&land, true), len, from)
}

impl Linked {
    /// The link to the topmost node inside a block. It costs at most two steps more than the block's length.
    pub fn link_inside<L: Ledger>(&self, within: &Block, steps: &mut Steps<L>) -> Option<NodeId>
        requires sound { IsSound self.now }
        requires lawful { IsBlock within.now }
        requires family { within.now.family ≡ self.now.family }
        ensures link { IsLink self.now.pool result within.now }
        ensures cost { steps.new ≤ steps.old + (within.now.len + 2) }
    {
        let found = self.find(within, steps);
        let Some(id) = found.at else {
            return None;
        };
        let node = self.pool.visit(id, steps);
        if within.contains(&node.block) {
            Some(id)
        } else {
            None
        }
    }

    /// The links for the halves of a land with this topmost node, or nothing if no block of this length is free in the land.
    pub fn fitting_sides<L: Ledger>(
        &self,
        id: NodeId,
        land: &Block,
        len: u8,
        steps: &mut Steps<L>,
    ) -> Option<Sides>
        requires sound { IsSound self.now }
        requires frees { HasFrees self.now.pool }
        requires lawful { IsBlock land.now }
        requires family { land.now.family ≡ self.now.family }
        requires link { IsLink self.now.pool (Some id) land.now }
        requires long { land.now.len < len }
        requires short { len ≤ width_of land.now.family }
        ensures some { IfSome result (λ s. AreFitting self.now land.now len s) }
        ensures none { result ≡ None → (b : Cidr) → IsBlock b → IsInside b land.now → b.len ≤ len → ¬ IsFree (counting_of (blocks_of self.now.pool) land.now false) b }
        ensures cost { steps.new ≡ steps.old + 1 }
    {
        let node = self.pool.visit(id, steps);
        if node.block.is(land) {
            if !reaches(node.free, len) {
                return None;
            }
            return Some(node.sides());
        }
        if half_of(land, false).contains(&node.block) {
            return Some(Sides {
                low: Some(id),
                high: None,
            });
        }
        Some(Sides {
            low: None,
            high: Some(id),
        })
    }

    /// The lowest free block of this length in a land that does not begin before a number, by the link for the land.
    fn fit_below<L: Ledger>(
        &self,
        at: Option<NodeId>,
        land: Block,
        len: u8,
        from: u128,
        steps: &mut Steps<L>,
    ) -> Option<Block>
        requires sound { IsSound self.now }
        requires frees { HasFrees self.now.pool }
        requires lawful { IsBlock land }
        requires family { land.family ≡ self.now.family }
        requires link { IsLink self.now.pool at land }
        requires long { land.len ≤ len }
        requires short { len ≤ width_of land.family }
        ensures first { IsFirstFit land (counting_of (blocks_of self.now.pool) land false) len from result }
        ensures quick { IsQuick land from result steps.old steps.new }
    {
        let mut at = at;
        let mut land = land;
        'lands: loop {
            if ends_before(&land, from) {
                return None;
            }
            let Some(id) = at else {
                return place_in(land, len, from);
            };
            // a node's block has a block of the tree in it
            if land.len() == len {
                return None;
            }
            let Some(sides) = self.fitting_sides(id, &land, len, steps) else {
                return None;
            };
            let low = half_of(&land, false);
            if let Some(block) = self.fit_below(sides.low, low, len, from, steps) {
                return Some(block);
            }
            at = sides.high;
            land = half_of(&land, true);
        }
    }

    /// The same of a block whose own node does not count, by the links for its halves.
    fn fit_under<L: Ledger>(
        &self,
        id: NodeId,
        within: Block,
        len: u8,
        from: u128,
        steps: &mut Steps<L>,
    ) -> Option<Block>
        requires sound { IsSound self.now }
        requires frees { HasFrees self.now.pool }
        requires family { within.family ≡ self.now.family }
        requires lawful { IsBlock within }
        requires own { (n : _) × (node_at self.now.pool id ≡ Some n) × (n.block ≡ within) }
        requires long { within.len ≤ len }
        requires short { len ≤ width_of within.family }
        ensures first { IsFirstFit within (counting_of (blocks_of self.now.pool) within true) len from result }
        ensures cost { steps.new ≤ steps.old + (4 * depth within + 1) }
    {
        let node = self.pool.visit(id, steps);
        if node.is_leaf() {
            return place_in(within, len, from);
        }
        if within.len() == len {
            return None;
        }
        let sides = node.sides();
        if let Some(block) = self.fit_below(sides.low, half_of(&within, false), len, from, steps) {
            return Some(block);
        }
        self.fit_below(sides.high, half_of(&within, true), len, from, steps)
    }

    /// The lowest free block of this length in a block that does not begin before a number, given the blocks that count.
    pub fn first_fit<L: Ledger>(
        &self,
        within: &Block,
        len: u8,
        from: u128,
        strict: bool,
        steps: &mut Steps<L>,
    ) -> Option<Block>
        requires sound { IsSound self.now }
        requires frees { HasFrees self.now.pool }
        requires lawful { IsBlock within.now }
        requires family { within.now.family ≡ self.now.family }
        requires long { within.now.len ≤ len }
        requires short { len ≤ width_of within.now.family }
        ensures first { IsFirstFit within.now (counting_of (blocks_of self.now.pool) within.now strict) len from result }
        ensures visits { steps.new ≤ steps.old + (4 * width_of within.now.family + 8) }
    {
        let at = self.link_inside(within, steps);
        let Some(id) = at else {
            return place_in(*within, len, from);
        };
        let node = self.pool.visit(id, steps);
        if is_left_out(strict, &node.block, within) {
            return self.fit_under(id, *within, len, from, steps);
        }
        self.fit_below(at, *within, len, from, steps)
    }
}
