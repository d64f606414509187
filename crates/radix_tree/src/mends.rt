//! What nodes say of the blocks inside them: it is computed from a node's children, and mended on the way to a block that was put in
//! or taken out, the deepest node first.

ghost use Rattle.std.specs.Prelude.{◌≡◌, ◌+◌, ◌≤◌, ℕ, Some, Option};
ghost use Rattle.inet_num.specs.Net.{Cidr, IsBlock, IsInside};
ghost use Rattle.node_pool.specs.Pooled.{node_at, IsLive};
ghost use Rattle.radix_tree.specs.Shape.{HasLink};
ghost use Rattle.radix_tree.specs.Sound.{IsSound};
ghost use Rattle.radix_tree.specs.Frees.{lesser, side_free, free_of, side_total, total_of, side_covered, own_size, covered_in, figures_of, HasFreesBut, HasFreesIn, Refrees, RefreesOne};
ghost use Rattle.radix_tree.specs.declared.links.Place.{Place};

use crate::halves::is_in_high_half;
use crate::links::Linked;
use block_space::Steps;
use inet_num::Block;
use node_pool::NodeId;
use std::sync::ledger::Ledger;

/// What a node says of the blocks inside its own: the least length of a free block, how many blocks there are, and how many addresses they
/// have.
#[derive(Clone, Copy)]
pub struct Says {
    pub free: Option<u8>,
    pub total: u32,
    pub covered: u128,
}

/// The lesser of two lengths, if there are any.
fn lesser_of(a: Option<u8>, b: Option<u8>) -> Option<u8>
    ensures { result ≡ lesser a b }
{
    let Some(a) = a else {
        return b;
    };
    match b {
        Some(b) => Some(a.min(b)),
        None => Some(a),
    }
}

/// How many addresses a block has; none if its length is 0.
fn own_size(block: &Block) -> u128
    ensures { result ≡ own_size block.now.len block.now }
{
    if block.len() == 0 {
        return 0;
    }
    block.size()
}

impl Linked {
    /// What is said of a half of this length, by the topmost node in it.
    fn side_says<L: Ledger>(&self, len: u8, at: Option<NodeId>, steps: &mut Steps<L>) -> Says
        requires live { (id : ℕ) → at ≡ Some id → IsLive self.now.pool id }
        requires short { len ≤ 129 }
        ensures free { result.free ≡ side_free self.now.pool len at }
        ensures total { result.total ≡ side_total self.now.pool at }
        ensures covered { result.covered ≡ side_covered self.now.pool at }
    {
        let Some(id) = at else {
            return Says {
                free: Some(len),
                total: 0,
                covered: 0,
            };
        };
        let node = self.pool.visit(id, steps);
        let free = if node.block.len() > len {
            Some(len + 1)
        } else {
            node.free
        };
        Says {
            free,
            total: node.total,
            covered: node.covered,
        }
    }

    /// What follows for a node from its count and its children.
    fn node_says<L: Ledger>(&self, id: NodeId, steps: &mut Steps<L>) -> Says
        requires sound { IsSound self.now }
        requires live { IsLive self.now.pool id }
        ensures free { (n : _) → node_at self.now.pool id ≡ Some n → result.free ≡ free_of self.now.pool n }
        ensures total { (n : _) → node_at self.now.pool id ≡ Some n → result.total ≡ total_of self.now.pool n }
        ensures covered { (n : _) → node_at self.now.pool id ≡ Some n → result.covered ≡ covered_in self.now.pool n }
    {
        let node = self.pool.visit(id, steps);
        let len = node.block.len() + 1;
        let low = self.side_says(len, node.low, steps);
        let high = self.side_says(len, node.high, steps);
        let total = node.count.wrapping_add(low.total).wrapping_add(high.total);
        if node.count > 0 {
            return Says {
                free: None,
                total,
                covered: own_size(&node.block),
            };
        }
        Says {
            free: lesser_of(low.free, high.free),
            total,
            covered: low.covered.wrapping_add(high.covered),
        }
    }

    /// Sets what a node says to what follows from its children, and nothing else.
    fn refree<L: Ledger>(&mut self, id: NodeId, steps: &mut Steps<L>)
        requires sound { IsSound self.old }
        requires live { IsLive self.old.pool id }
        ensures { (n : _) → node_at self.old.pool id ≡ Some n → RefreesOne self.old self.new id (figures_of self.old.pool n) }
    {
        let says = self.node_says(id, steps);
        let node = self.pool.change(id);
        node.free = says.free;
        node.total = says.total;
        node.covered = says.covered;
    }

    /// Mends what the nodes around a block say, from a link on down: the deepest first.
    pub fn mend<L: Ledger>(&mut self, at: Option<NodeId>, block: &Block, steps: &mut Steps<L>)
        requires sound { IsSound self.old }
        requires lawful { IsBlock block.now }
        requires place { (place : Place) × (land : Cidr) × HasLink self.old place at land }
        ensures refrees { Refrees self.old self.new }
        ensures frees { (place : Place) (land : Cidr) → HasLink self.old place at land → HasFreesBut self.old.pool block.now → HasFreesIn self.new.pool block.now land }
    {
        let Some(id) = at else {
            return;
        };
        let node = self.pool.visit(id, steps);
        if !node.block.contains(block) {
            return;
        }
        if node.block.is(block) {
            self.refree(id, steps);
            return;
        }
        let high = is_in_high_half(block, &node.block);
        let below = node.link(high);
        self.mend(below, block, steps);
        self.refree(id, steps);
    }
}
