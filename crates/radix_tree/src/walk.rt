//! The blocks inside a block, one after another: a walk over the nodes by a stack of the links that are still to come.

ghost use Rattle.std.specs.Prelude.{◌≡◌, ◌<◌, ◌≤◌, [], ◌∷◌, ℕ, List, Option};
ghost use Rattle.std.specs.Iterator.{YieldsFirst};
ghost use Rattle.inet_num.specs.Net.{IsBlock};
ghost use Rattle.radix_tree.specs.Listed.{blocks_of};
ghost use Rattle.radix_tree.specs.Inside.{ListsInside};
ghost use Rattle.radix_tree.specs.Preorder.{to_come, entries_below, IsPending};
ghost use Rattle.radix_tree.specs.Sound.{IsSound};

use crate::Entry;
use crate::links::Linked;
use arrayvec::ArrayVec;
use block_space::Steps;
use inet_num::Block;
use node_pool::NodeId;
use std::marker::{Brand, Model};
use std::sync::ledger::{Blank, Ledger};

/// Links that are still to come, the next one last: one for each bit of an address and two, since a link may lead nowhere.
type Links = ArrayVec<Option<NodeId>, 130>;

/// The blocks of a tree that lie inside a block, each once and with how often the tree has it, by first address and then
/// length. It takes no memory; a clause sees it as the list of those that are still to come.
#[derive(Drop)]
pub struct Inside<'a> {
    linked: &'a Linked,
    pending: Links,
}

impl<'a> Model for Inside<'a> {
    ghost use Rattle.std.specs.Prelude.{List};
    ghost use Rattle.radix_tree.specs.declared.Entry.{Entry};
    ghost use Rattle.radix_tree.specs.Preorder.{to_come, IsPending};

    ghost Value = { List Entry };

    ghost view = { λ i. to_come i.linked.now.pool i.pending.items };

    ghost invariant = { λ i. IsPending i.linked.now i.pending.items };
}

impl<'a> Iterator for Inside<'a> {
    ghost use Rattle.std.specs.Iterator.{YieldsFirst, item_count};

    type Item = Entry;

    ghost next_gives = { YieldsFirst (λ i. i) };

    ghost remaining = { item_count (λ i. i) };

    fn next(&mut self) -> Option<Entry> {
        next_counted::<Brand>(self.linked, &mut self.pending, Blank::new(1))
    }
}

impl Linked {
    /// The next block of a walk.
    fn next_entry<L: Ledger>(&self, pending: &mut Links, steps: &mut Steps<L>) -> Option<Entry>
        requires pending { IsPending self.now pending.old.items }
        ensures kept { IsPending self.now pending.new.items }
        ensures first { YieldsFirst (to_come self.now.pool) pending.old.items result pending.new.items }
    {
        'walk: while let Some(link) = pending.pop() {
            let Some(id) = link else {
                continue;
            };
            let node = self.pool.visit(id, steps);
            pending.push(node.high);
            pending.push(node.low);
            if node.count > 0 {
                return Some(Entry {
                    block: node.block,
                    times: node.count,
                });
            }
        }
        None
    }
}

/// The next block of a walk, on a counter that is made for it.
fn next_counted<L: Ledger>(linked: &Linked, pending: &mut Links, blank: Blank) -> Option<Entry>
    requires name { blank.name ≡ L.name }
    requires parts { blank.parts ≡ L.parts }
    requires some { 0 < blank.parts }
    requires pending { IsPending linked.now pending.old.items }
    ensures kept { IsPending linked.now pending.new.items }
    ensures first { YieldsFirst (to_come linked.now.pool) pending.old.items result pending.new.items }
{
    let mut steps = Steps::<L>::new(blank);
    linked.next_entry(pending, &mut steps)
}

/// The walk over the blocks inside a block, on a counter that is made for its begin.
pub fn inside_counted<'a, L: Ledger>(linked: &'a Linked, within: &Block, blank: Blank) -> Inside<'a>
    requires name { blank.name ≡ L.name }
    requires parts { blank.parts ≡ L.parts }
    requires some { 0 < blank.parts }
    requires sound { IsSound linked.now }
    requires lawful { IsBlock within.now }
    requires family { within.now.family ≡ linked.now.family }
    ensures { ListsInside (blocks_of linked.now.pool) within.now result }
{
    let mut steps = Steps::<L>::new(blank);
    let at = linked.link_inside(within, &mut steps);
    let mut pending = ArrayVec::new();
    pending.push(at);
    Inside { linked, pending }
}
