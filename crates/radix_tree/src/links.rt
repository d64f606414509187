//! The nodes of a tree and the links between them: a block is found by its bits, and nodes are put, cut and recounted in place.
//! Every node that a descent looks at costs a step.

ghost use Rattle.std.specs.Prelude.{◌≡◌, ◌≢◌, ℕ, ◌+◌, ◌-◌, ◌*◌, ◌^◌, ◌<◌, ◌≤◌, ◌++◌, ◌↔◌, IsTrue, Some, None, [], ◌∷◌, Option, Bool, IsPermutation, length, OnOk, OnErr, IfOk, true, false};
ghost use Rattle.inet_num.specs.Net.{Cidr, width_of, IsBlock, IsInside};
ghost use Rattle.node_pool.specs.Pooled.{Pooled, node_at, live_nodes, Changes, IsLive};
ghost use Rattle.radix_tree.specs.Shape.{half, child, owner, whole, HasRoom, HasLink, IsTree, IsPlace, Relinks};
ghost use Rattle.radix_tree.specs.Edits.{IsPut, IsCut};
ghost use Rattle.radix_tree.specs.Listed.{copies, blocks_of, link_count, child_count, links_of, IsTallied, Recounts};
ghost use Rattle.radix_tree.specs.Frees.{HasFrees};
ghost use Rattle.radix_tree.specs.Sound.{IsSound, leaf, IsOver, IsInserted, IsTrimmed, IsRemoved};
ghost use Rattle.block_space.specs.Listed.{times_of, counting_of, covered_of};
ghost use Rattle.radix_tree.specs.Covering.{ListsCovering, if_counted};
ghost use Rattle.radix_tree.specs.Find.{IsFound};
ghost use Rattle.radix_tree.specs.declared.links.Place.TheVariants.{Root, Under};
ghost use Rattle.radix_tree.specs.declared.Node.{Node};

use crate::Node;
use crate::halves::{half_of, is_in_high_half, join, whole_of};
use block_space::Steps;
use inet_num::{Block, Family};
use node_pool::{NodeId, Pool};
use std::alloc::{AllocError, Global};
use std::sync::ledger::{Blank, Ledger};

/// A node with this block and count, over one other node, which is in its high half or in its low one.
fn over(block: Block, count: u32, high: bool, id: NodeId) -> Node
    ensures { IsOver result block count high id }
{
    if high {
        Node {
            block,
            count,
            low: None,
            high: Some(id),
            free: None,
            total: 0,
            covered: 0,
        }
    } else {
        Node {
            block,
            count,
            low: Some(id),
            high: None,
            free: None,
            total: 0,
            covered: 0,
        }
    }
}

/// A node with this block once, and no other node.
fn leaf_of(block: Block) -> Node
    ensures { result ≡ leaf block }
{
    Node {
        block,
        count: 1,
        low: None,
        high: None,
        free: None,
        total: 0,
        covered: 0,
    }
}

/// Where a link is: at the top, or in a node, for the high half of its block (true) or for the low one.
#[derive(Clone, Copy)]
pub enum Place {
    Root,
    Under(NodeId, bool),
}

impl Place {
    /// The node that has the link, if it is not the topmost one.
    fn owner(self) -> Option<NodeId>
        ensures { result ≡ owner self }
    {
        match self {
            Place::Root => None,
            Place::Under(id, _high) => Some(id),
        }
    }
}

/// Where a block is or belongs: the place, the link that is there, and the land, which is the block that the link is for.
#[derive(Clone, Copy)]
pub struct Found {
    pub place: Place,
    pub at: Option<NodeId>,
    pub land: Block,
}

/// Appends the node's block if its count is not 0.
fn push_once(out: &mut Vec<Block>, node: &Node) -> Result<(), AllocError>
    ensures { OnOk result (out.new.items ≡ out.old.items ++ if_counted node.now.count node.now.block) }
{
    if node.count > 0 {
        out.push(node.block)?;
    }
    Ok(())
}

/// Whether a block does not count for itself.
pub fn is_left_out(strict: bool, block: &Block, within: &Block) -> bool
    ensures { IsTrue result ↔ (strict ≡ true) × (block.now ≡ within.now) }
{
    if !strict {
        return false;
    }
    block.is(within)
}

/// Nodes of one family, and the link to the topmost one.
#[derive(Drop)]
pub struct Linked {
    pub family: Family,
    pub pool: Pool<Node>,
    pub root: Option<NodeId>,
}

impl Linked {
    /// Sets the link at a place, and nothing else. Only this function changes links.
    fn set_link(&mut self, place: Place, to: Option<NodeId>)
        requires place { IsPlace self.old place }
        ensures set { Relinks self.old self.new place to }
        ensures total { (at : Option ℕ) (land : Cidr) → HasLink self.old place at land → links_of self.new + link_count at ≡ links_of self.old + link_count to }
        ensures spare { self.new.pool.spare ≡ self.old.pool.spare }
    {
        match place {
            Place::Root => {
                self.root = to;
            }
            Place::Under(id, high) => {
                let node = self.pool.change(id);
                if high {
                    node.high = to;
                } else {
                    node.low = to;
                }
            }
        }
    }

    /// Sets the count of a node, and nothing else.
    fn recount(&mut self, id: NodeId, count: u32)
        requires live { IsLive self.old.pool id }
        ensures recounts { Recounts self.old self.new id count }
        ensures spare { self.new.pool.spare ≡ self.old.pool.spare }
    {
        self.pool.change(id).count = count;
    }

    /// Puts a node at a place, whose land it takes over.
    fn put_at(&mut self, place: Place, node: Node) -> NodeId
        requires room { 1 ≤ self.old.pool.spare }
        requires place { IsPlace self.old place }
        ensures put { IsPut self.old self.new place result node }
        ensures spare { self.new.pool.spare + 1 ≡ self.old.pool.spare }
        ensures listed { IsPermutation (copies node ++ blocks_of self.old.pool) (blocks_of self.new.pool) }
        ensures tally { (at : Option ℕ) (land : Cidr) → HasLink self.old place at land → child_count node ≡ link_count at → IsTallied self.old → IsTallied self.new }
    {
        let id = self.pool.put(node);
        self.set_link(place, Some(id));
        id
    }

    /// Takes the node of a place away, and puts the link of its one child there.
    fn cut_at(&mut self, place: Place, id: NodeId, to: Option<NodeId>)
        requires tree { IsTree self.old }
        requires place { (land : Cidr) × HasLink self.old place (Some id) land }
        ensures cut { (n : Node) (side : Bool) → node_at self.old.pool id ≡ Some n → to ≡ child side n → IsCut self.old self.new place id n side }
        ensures spare { self.new.pool.spare ≡ self.old.pool.spare + 1 }
        ensures listed { (n : Node) → node_at self.old.pool id ≡ Some n → IsPermutation (blocks_of self.old.pool) (copies n ++ blocks_of self.new.pool) }
        ensures tally { (n : Node) → node_at self.old.pool id ≡ Some n → child_count n ≡ link_count to → IsTallied self.old → IsTallied self.new }
    {
        self.set_link(place, to);
        let _node = self.pool.take(id);
    }

    /// The place where a block is or belongs. It costs at most one step more than the block's length.
    pub fn find<L: Ledger>(&self, block: &Block, steps: &mut Steps<L>) -> Found
        requires tree { IsTree self.now }
        requires lawful { IsBlock block.now }
        requires family { block.now.family ≡ self.now.family }
        ensures found { IsFound self.now block.now result }
        ensures cost { steps.new ≤ steps.old + (block.now.len + 1) }
    {
        let mut found = Found {
            place: Place::Root,
            at: self.root,
            land: whole_of(self.family),
        };
        while let Some(id) = found.at {
            let node = self.pool.visit(id, steps);
            if !block.strictly_inside(&node.block) {
                return found;
            }
            let right = is_in_high_half(block, &node.block);
            found = Found {
                place: Place::Under(id, right),
                at: node.link(right),
                land: half_of(&node.block, right),
            };
        }
        found
    }

    /// Puts a block in once. It makes two nodes at most: the block's own, and one without a count where the tree parts.
    fn insert<L: Ledger>(&mut self, block: Block, steps: &mut Steps<L>)
        requires sound { IsSound self.old }
        requires lawful { IsBlock block }
        requires family { block.family ≡ self.old.family }
        requires room { 2 ≤ self.old.pool.spare }
        requires few { length (blocks_of self.old.pool) < 2 ^ 30 }
        ensures { IsInserted self.old self.new block }
    {
        let found = self.find(&block, steps);
        let Some(id) = found.at else {
            self.put_at(found.place, leaf_of(block));
            return;
        };
        let node = self.pool.visit(id, steps);
        let here = node.block;
        if here.is(&block) {
            let count = node.count + 1;
            self.recount(id, count);
            return;
        }
        if block.contains(&here) {
            let high = is_in_high_half(&here, &block);
            self.put_at(found.place, over(block, 1, high, id));
            return;
        }
        let joint = join(found.land, &block, &here);
        let above = self.put_at(found.place, over(joint.block, 0, !joint.high, id));
        self.put_at(Place::Under(above, joint.high), leaf_of(block));
    }

    /// Takes the node of a place away if it has no count and fewer than two children.
    fn trim<L: Ledger>(&mut self, place: Place, id: NodeId, steps: &mut Steps<L>)
        requires tree { IsTree self.old }
        requires tallied { IsTallied self.old }
        requires place { (land : Cidr) × HasLink self.old place (Some id) land }
        ensures { IsTrimmed self.old self.new place id }
    {
        let node = self.pool.visit(id, steps);
        if node.count > 0 {
            return;
        }
        let low = node.low;
        let high = node.high;
        if low.is_none() {
            self.cut_at(place, id, high);
            return;
        }
        if high.is_none() {
            self.cut_at(place, id, low);
        }
    }

    /// Takes one copy of a block away, and answers whether there was one. A node without a count then goes, unless it has two
    /// children, and so does the node above it if that has no count either.
    fn remove<L: Ledger>(&mut self, block: &Block, steps: &mut Steps<L>) -> bool
        requires sound { IsSound self.old }
        requires lawful { IsBlock block.now }
        requires family { block.now.family ≡ self.old.family }
        ensures { IsRemoved self.old self.new block.now result }
    {
        let found = self.find(block, steps);
        let Some(id) = found.at else {
            return false;
        };
        let node = self.pool.visit(id, steps);
        if !node.block.is(block) {
            return false;
        }
        if node.count == 0 {
            return false;
        }
        let count = node.count - 1;
        self.recount(id, count);
        if count > 0 {
            return true;
        }
        self.trim(found.place, id, steps);
        if let Some(above) = found.place.owner() {
            let over = self.pool.visit(above, steps).block;
            let again = self.find(&over, steps);
            self.trim(again.place, above, steps);
        }
        true
    }

    /// The blocks of the tree that contain a block, each once, the largest first.
    fn covering<L: Ledger>(
        &self,
        alloc: Global,
        block: &Block,
        steps: &mut Steps<L>,
    ) -> Result<Vec<Block>, AllocError>
        requires tree { IsTree self.now }
        requires lawful { IsBlock block.now }
        requires family { block.now.family ≡ self.now.family }
        ensures ok { IfOk result (λ v. ListsCovering (blocks_of self.now.pool) block.now v.items) }
    {
        let mut out = Vec::new(alloc);
        let mut found = Found {
            place: Place::Root,
            at: self.root,
            land: whole_of(self.family),
        };
        while let Some(id) = found.at {
            let node = self.pool.visit(id, steps);
            if !node.block.contains(block) {
                return Ok(out);
            }
            push_once(&mut out, node)?;
            if node.block.is(block) {
                return Ok(out);
            }
            let right = is_in_high_half(block, &node.block);
            found = Found {
                place: Place::Under(id, right),
                at: node.link(right),
                land: half_of(&node.block, right),
            };
        }
        Ok(out)
    }

    /// How many addresses the blocks of the nodes below a link have, each once: what the topmost of them says.
    fn covered_below<L: Ledger>(&self, at: Option<NodeId>, steps: &mut Steps<L>) -> u128
        requires sound { IsSound self.now }
        requires frees { HasFrees self.now.pool }
        requires place { (place : Place) × (land : Cidr) × HasLink self.now place at land }
        requires long { (id : ℕ) (node : Node) → at ≡ Some id → node_at self.now.pool id ≡ Some node → 1 ≤ node.block.len }
        ensures { (place : Place) (land within : Cidr) → HasLink self.now place at land → ((id : ℕ) (node : Node) → at ≡ Some id → node_at self.now.pool id ≡ Some node → IsInside node.block within) → result ≡ covered_of (counting_of (blocks_of self.now.pool) land false) within }
    {
        let Some(id) = at else {
            return 0;
        };
        let node = self.pool.visit(id, steps);
        node.covered
    }

    /// How many addresses of a block the blocks that count for it have, each once.
    fn covered<L: Ledger>(&self, within: &Block, strict: bool, steps: &mut Steps<L>) -> u128
        requires sound { IsSound self.now }
        requires frees { HasFrees self.now.pool }
        requires lawful { IsBlock within.now }
        requires family { within.now.family ≡ self.now.family }
        requires long { 1 ≤ within.now.len }
        ensures { result ≡ covered_of (counting_of (blocks_of self.now.pool) within.now strict) within.now }
    {
        let found = self.find(within, steps);
        let Some(id) = found.at else {
            return 0;
        };
        let node = self.pool.visit(id, steps);
        if !within.contains(&node.block) {
            return 0;
        }
        if !is_left_out(strict, &node.block, within) {
            return self.covered_below(found.at, steps);
        }
        if within.len() == self.family.width() {
            return 0;
        }
        let low = self.covered_below(node.low, steps);
        let high = self.covered_below(node.high, steps);
        low + high
    }

    /// How often a block was put in. It costs at most two steps more than the block's length.
    fn times<L: Ledger>(&self, block: &Block, steps: &mut Steps<L>) -> u32
        requires tree { IsTree self.now }
        requires lawful { IsBlock block.now }
        requires family { block.now.family ≡ self.now.family }
        ensures times { result ≡ times_of (blocks_of self.now.pool) block.now }
        ensures cost { steps.new ≤ steps.old + (block.now.len + 2) }
    {
        let found = self.find(block, steps);
        let Some(id) = found.at else {
            return 0;
        };
        let node = self.pool.visit(id, steps);
        if node.block.is(block) {
            return node.count;
        }
        0
    }
}

/// Insertion, on a counter that is made for it, with what the nodes say to be free.
pub fn insert_counted<L: Ledger>(linked: &mut Linked, block: Block, blank: Blank)
    requires name { blank.name ≡ L.name }
    requires parts { blank.parts ≡ L.parts }
    requires some { 0 < blank.parts }
    requires sound { IsSound linked.old }
    requires frees { HasFrees linked.old.pool }
    requires lawful { IsBlock block }
    requires family { block.family ≡ linked.old.family }
    requires room { 2 ≤ linked.old.pool.spare }
    requires few { length (blocks_of linked.old.pool) < 2 ^ 30 }
    ensures inserted { IsInserted linked.old linked.new block }
    ensures frees { HasFrees linked.new.pool }
{
    let mut steps = Steps::<L>::new(blank);
    linked.insert(block, &mut steps);
    let root = linked.root;
    linked.mend(root, &block, &mut steps);
}

/// Removal, on a counter that is made for it, with what the nodes say to be free.
pub fn remove_counted<L: Ledger>(linked: &mut Linked, block: &Block, blank: Blank) -> bool
    requires name { blank.name ≡ L.name }
    requires parts { blank.parts ≡ L.parts }
    requires some { 0 < blank.parts }
    requires sound { IsSound linked.old }
    requires frees { HasFrees linked.old.pool }
    requires lawful { IsBlock block.now }
    requires family { block.now.family ≡ linked.old.family }
    ensures removed { IsRemoved linked.old linked.new block.now result }
    ensures frees { HasFrees linked.new.pool }
{
    let mut steps = Steps::<L>::new(blank);
    let done = linked.remove(block, &mut steps);
    let root = linked.root;
    linked.mend(root, block, &mut steps);
    done
}

/// How often a block was put in, on a counter that is made for it.
pub fn times_counted<L: Ledger>(linked: &Linked, block: &Block, blank: Blank) -> u32
    requires name { blank.name ≡ L.name }
    requires parts { blank.parts ≡ L.parts }
    requires some { 0 < blank.parts }
    requires tree { IsTree linked.now }
    requires lawful { IsBlock block.now }
    requires family { block.now.family ≡ linked.now.family }
    ensures { result ≡ times_of (blocks_of linked.now.pool) block.now }
{
    let mut steps = Steps::<L>::new(blank);
    linked.times(block, &mut steps)
}

/// The blocks that contain a block, on a counter that is made for it.
pub fn covering_counted<L: Ledger>(
    linked: &Linked,
    alloc: Global,
    block: &Block,
    blank: Blank,
) -> Result<Vec<Block>, AllocError>
    requires name { blank.name ≡ L.name }
    requires parts { blank.parts ≡ L.parts }
    requires some { 0 < blank.parts }
    requires tree { IsTree linked.now }
    requires lawful { IsBlock block.now }
    requires family { block.now.family ≡ linked.now.family }
    ensures { IfOk result (λ v. ListsCovering (blocks_of linked.now.pool) block.now v.items) }
{
    let mut steps = Steps::<L>::new(blank);
    linked.covering(alloc, block, &mut steps)
}

/// How many addresses of a block the blocks that count for it have, on a counter that is made for it.
pub fn covered_counted<L: Ledger>(
    linked: &Linked,
    within: &Block,
    strict: bool,
    blank: Blank,
) -> u128
    requires name { blank.name ≡ L.name }
    requires parts { blank.parts ≡ L.parts }
    requires some { 0 < blank.parts }
    requires sound { IsSound linked.now }
    requires frees { HasFrees linked.now.pool }
    requires lawful { IsBlock within.now }
    requires family { within.now.family ≡ linked.now.family }
    requires long { 1 ≤ within.now.len }
    ensures { result ≡ covered_of (counting_of (blocks_of linked.now.pool) within.now strict) within.now }
{
    let mut steps = Steps::<L>::new(blank);
    linked.covered(within, strict, &mut steps)
}
