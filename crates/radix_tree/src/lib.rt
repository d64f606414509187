//! Blocks of one family in a path-compressed binary tree of their bits, over a pool of nodes. The way to a block follows its
//! bits, however many blocks there are, and a first fit is one descent: it visits at most four nodes for each bit, and eight.
#![tactic(auto)]

ghost use Rattle.std.specs.Prelude.{◌≡◌, ℕ, ◌+◌, ◌*◌, ◌^◌, ◌<◌, ◌≤◌, max, length, IfOk, OnOk, OnErr};
ghost use Rattle.inet_num.specs.Net.{width_of};
ghost use Rattle.radix_tree.specs.Shape.{child, HasOneEach};
ghost use Rattle.radix_tree.specs.Listed.{blocks_of};
ghost use Rattle.radix_tree.specs.Lent.{HasLiveChildren, HasTwoChildren, IsShaped};
ghost use Rattle.radix_tree.specs.Frees.{HasLeastFrees};
ghost use Rattle.radix_tree.specs.Covering.{ListsCovering};
ghost use Rattle.radix_tree.specs.Inside.{ListsInside};

mod around;
mod available;
mod counting;
mod fits;
mod halves;
mod links;
mod mends;
mod walk;

use around::around_counted;
use block_space::{Space, Steps};
use counting::count_counted;
use inet_num::{Addr, Block, Family};
use links::{
    Linked, covered_counted, covering_counted, insert_counted, remove_counted, times_counted,
};
use node_pool::{NodeId, Pool};
use std::alloc::{AllocError, Global};
use std::marker::{Brand, Model};
use std::sync::ledger::{Blank, Ledger};
pub use walk::Inside;
use walk::inside_counted;

/// A node of a tree: a block, how often the tree has it, and the nodes below it.
#[derive(Drop)]
pub struct Node {
    /// The block. All nodes below this one have blocks strictly inside it.
    pub block: Block,
    /// How often the tree has the block; 0 for a node that is only there because the tree parts at its block.
    pub count: u32,
    /// The topmost node with a block inside the low half of this one's, if there is any.
    pub low: Option<NodeId>,
    /// The topmost node with a block inside the high half of this one's, if there is any.
    pub high: Option<NodeId>,
    /// The least length of a block inside this node's that no block of the tree inside it touches, this node's own included; so
    /// a node with a count has none.
    pub free: Option<u8>,
    // How many blocks of the tree lie inside this one, each as often as the tree has it; it wraps, though no tree has so many.
    pub(crate) total: u32,
    // How many addresses of this node's block the blocks of the tree inside it have, each once. One of length 0 with a count says none,
    // since no integer counts all addresses of IPv6, and one without wraps.
    pub(crate) covered: u128,
}

impl Node {
    /// The link for the high half or for the low one.
    pub fn link(&self, high: bool) -> Option<NodeId>
        ensures { result ≡ child high self.now }
    {
        if high { self.high } else { self.low }
    }
}

/// A block of a tree, and how often the tree has it.
#[derive(Clone, Copy)]
pub struct Entry {
    /// A block that the tree has.
    pub block: Block,
    /// How often the tree has it.
    pub times: u32,
}

/// Blocks of one family, a block once for each time that it was put in. No two nodes have one block, and a node without a count has two
/// children, so n blocks take fewer than 2n nodes.
#[derive(Drop)]
pub struct Tree {
    alloc: Global,
    linked: Linked,
}

impl Model for Tree {
    ghost use Rattle.std.specs.Prelude.{◌/◌};
    ghost use Rattle.radix_tree.specs.Held.{Held};
    ghost use Rattle.radix_tree.specs.Listed.{blocks_of};
    ghost use Rattle.radix_tree.specs.Sound.{IsKept};

    ghost Value = { Held };

    ghost view = { λ t. record { family = t.linked.family; blocks = blocks_of t.linked.pool; spare = t.linked.pool.spare / 2 } };

    ghost invariant = { λ t. IsKept t.linked };
}

impl Tree {
    /// The nodes. They have exactly the blocks of the tree, each as often as its node's count; no two have one block, the id of
    /// each child has a node, a node without a count has two children, and each says the least length of a free block inside it.
    /// All hang together under one, and a child's block lies in the half of its parent's block on its side.
    pub fn nodes(&self) -> &Pool<Node>
        ensures blocks { blocks_of result.now ≡ self.now.blocks }
        ensures one_each { HasOneEach result.now }
        ensures live { HasLiveChildren result.now }
        ensures two { HasTwoChildren result.now }
        ensures frees { HasLeastFrees result.now }
        ensures shape { IsShaped result.now }
    {
        &self.linked.pool
    }

    /// The blocks of the tree that contain a block of its family, each once, the largest first: their lengths rise. A block
    /// contains itself. The one error means out of memory.
    pub fn covering(&self, block: Block) -> Result<Vec<Block>, AllocError>
        requires family { block.family ≡ self.now.family }
        ensures { IfOk result (λ v. ListsCovering self.now.blocks block v.items) }
    {
        block.bounds();
        covering_counted::<Brand>(&self.linked, self.alloc, &block, Blank::new(1))
    }

    /// The blocks of the tree that lie inside a block of its family, each once and with how often the tree has it, by first
    /// address and then length. A block lies inside itself. It takes no memory.
    pub fn inside(&self, within: Block) -> Inside<'_>
        requires family { within.family ≡ self.now.family }
        ensures { ListsInside self.now.blocks within result }
    {
        within.bounds();
        inside_counted::<Brand>(&self.linked, &within, Blank::new(1))
    }
}

impl Space for Tree {
    ghost held = { λ t. t.blocks };

    ghost family_of = { λ t. t.family };

    ghost room = { λ t. t.spare };

    ghost reach = { λ t. 4 * width_of t.family + 8 };

    fn new(alloc: Global, family: Family) -> Tree {
        Tree {
            alloc,
            linked: Linked {
                family,
                pool: Pool::new(alloc),
                root: None,
            },
        }
    }

    fn family(&self) -> Family {
        self.linked.family
    }

    fn spare(&self) -> u32 {
        self.linked.pool.spare() / 2
    }

    fn reserve(&mut self, n: u32) -> Result<(), AllocError>
        requires { length self.old.blocks + n < 2 ^ 30 }
        ensures ok { OnOk result (n ≤ self.new.spare) }
        ensures kept { self.old.spare ≤ self.new.spare }
        ensures err { OnErr result (self.new.spare ≡ self.old.spare) }
        ensures same { self.new.blocks ≡ self.old.blocks }
        ensures family { self.new.family ≡ self.old.family }
        ensures reach { 4 * width_of self.new.family + 8 ≡ 4 * width_of self.old.family + 8 }

        // The room is at most the greater of n and what it was.
        ensures most { self.new.spare ≤ max self.old.spare n }
    {
        self.linked.pool.reserve(2 * n)
    }

    fn insert(&mut self, block: Block) {
        block.bounds();
        insert_counted::<Brand>(&mut self.linked, block, Blank::new(1));
    }

    fn remove(&mut self, block: Block) -> bool {
        block.bounds();
        remove_counted::<Brand>(&mut self.linked, &block, Blank::new(1))
    }

    fn times(&self, block: Block) -> u32 {
        block.bounds();
        times_counted::<Brand>(&self.linked, &block, Blank::new(1))
    }

    fn around(&self, block: Block) -> u32 {
        block.bounds();
        around_counted::<Brand>(&self.linked, &block, Blank::new(1))
    }

    fn counting(&self, within: Block, strict: bool) -> u32 {
        within.bounds();
        count_counted::<Brand>(&self.linked, &within, strict, Blank::new(1))
    }

    fn covered(&self, within: Block, strict: bool) -> u128 {
        within.bounds();
        covered_counted::<Brand>(&self.linked, &within, strict, Blank::new(1))
    }

    fn first_free<L: Ledger>(
        &self,
        within: Block,
        len: u8,
        from: Addr,
        strict: bool,
        steps: &mut Steps<L>,
    ) -> Option<Block> {
        within.bounds();
        self.linked
            .first_fit(&within, len, from.value(), strict, steps)
    }

    fn next_free_block<L: Ledger>(
        &self,
        within: Block,
        from: Addr,
        strict: bool,
        steps: &mut Steps<L>,
    ) -> Option<Block> {
        within.bounds();
        self.linked
            .next_available(&within, from.value(), strict, steps)
    }
}
