//! The fewest blocks of a set of addresses.

ghost use Rattle.std.specs.Prelude.{◌≡◌, ℕ, ◌+◌, ◌^◌, ◌<◌, ◌≤◌, ◌↔◌, ◌⊎◌, false, IfOk, OnOk, IsTrue};
ghost use Rattle.std.specs.List.{AllByRecursion};
ghost use Rattle.inet_num.specs.Net.{width_of, size_of, HasAddress, IsBlock};
ghost use Rattle.inet_num.specs.Free.{InOrder, is_taken};
ghost use Rattle.span_set.specs.Spans.{IsIn};
ghost use Rattle.prefix_list.specs.Steps.{GainsUpTo, HasRest, IsSameFrom, IsBeyond};
ghost use Rattle.prefix_list.specs.Lists.{addresses_of_list, addresses_beyond, HasJust, NoneIsShorter, AreOf, HaveOneFamily, ShareFamily};

use inet_num::{Addr, Block, Family, Span};
use span_set::{SpanSet, span_of};
use std::alloc::{AllocError, Global};

/// The addresses of the blocks.
fn set_of(alloc: Global, family: Family, blocks: &[Block]) -> Result<SpanSet, AllocError>
    requires { AreOf family blocks.now }
    ensures family { IfOk result (λ set. set.family ≡ family) }
    ensures members { IfOk result (λ set. (n : ℕ) → IsIn set n ↔ IsTrue (is_taken blocks.now n)) }
{
    let mut set = SpanSet::new(alloc, family);
    for block in blocks {
        set.add(span_of(block))?;
    }
    Ok(set)
}

/// The addresses of the blocks, in any order.
fn sorted_set(alloc: Global, family: Family, blocks: &[Block]) -> Result<SpanSet, AllocError>
    requires { AreOf family blocks.now }
    ensures family { IfOk result (λ set. set.family ≡ family) }
    ensures members { IfOk result (λ set. (n : ℕ) → IsIn set n ↔ IsTrue (is_taken blocks.now n)) }
{
    // In the order of their addresses each one meets the last span only.
    let mut sorted = Vec::from_slice(alloc, blocks)?;
    sorted.sort_unstable_by_key(|block| block.first().value());
    set_of(alloc, family, &sorted)
}

/// The fewest blocks that have exactly the addresses of these blocks, in address order. The blocks have one family, are in any order, and
/// may overlap. The one error means out of memory.
pub fn fewest(alloc: Global, blocks: &[Block]) -> Result<Vec<Block>, AllocError>
    requires { HaveOneFamily blocks.now }
    // In address order, and no address twice.
    ensures ordered { IfOk result (λ v. InOrder 0 v.items) }
    ensures lawful { IfOk result (λ v. AllByRecursion IsBlock v.items) }
    ensures addresses { IfOk result (λ v. HasJust (addresses_of_list blocks.now) v.items) }
    ensures shortest { IfOk result (λ v. NoneIsShorter (addresses_of_list blocks.now) v.items) }
{
    let [first, ..] = blocks else {
        return Ok(Vec::new(alloc));
    };
    let set = sorted_set(alloc, first.family(), blocks)?;
    set.blocks()
}

/// The fewest blocks of the addresses of the blocks, in any order.
fn in_order(alloc: Global, family: Family, blocks: &[Block]) -> Result<Vec<Block>, AllocError>
    requires { AreOf family blocks.now }
    ensures family { IfOk result (λ v. AreOf family v.items) }
    ensures ordered { IfOk result (λ v. InOrder 0 v.items) }
    ensures same { IfOk result (λ v. IsSameFrom v.items blocks.now 0) }
{
    let set = sorted_set(alloc, family, blocks)?;
    set.blocks()
}

/// The span from the first number to the last, both among them.
fn span(family: Family, first: u128, last: u128) -> Span
    requires order { first ≤ last }
    requires range { last < 2 ^ width_of family }
    ensures first { result.first ≡ record { family = family; value = first } }
    ensures last { result.last ≡ record { family = family; value = last } }
{
    match (Addr::of(family, first), Addr::of(family, last)) {
        (Some(first), Some(last)) => Span { first, last },
        _ => unreachable!(),
    }
}

/// Adds the addresses from one number up to another one, which is not among them.
fn add_up_to(set: &mut SpanSet, from: u128, to: u128) -> Result<(), AllocError>
    requires { to < 2 ^ width_of set.old.family }
    ensures family { set.new.family ≡ set.old.family }
    ensures added { OnOk result (GainsUpTo set.old set.new from to) }
{
    if from < to {
        set.add(span(set.family(), from, to - 1))?;
    }
    Ok(())
}

/// Adds the addresses of the block from a number on, which is one of it.
fn add_from(set: &mut SpanSet, block: &Block, from: u128) -> Result<(), AllocError>
    requires family { block.now.family ≡ set.old.family }
    requires inside { HasAddress block.now from }
    ensures family { set.new.family ≡ set.old.family }
    ensures added { OnOk result (GainsUpTo set.old set.new from (block.now.first + size_of block.now)) }
{
    set.add(span(block.family(), from, block.last().value()))
}

/// Adds the addresses of the block that none of the others has, which are in address order.
fn add_rest(set: &mut SpanSet, block: &Block, by: &[Block]) -> Result<(), AllocError>
    requires family { block.now.family ≡ set.old.family }
    requires ordered { InOrder 0 by.now }
    ensures family { set.new.family ≡ set.old.family }
    ensures added { OnOk result (HasRest set.old set.new block.now by.now) }
{
    let last = block.last().value();
    let mut at = block.first().value();
    'walk: for taken in by {
        let first = taken.first().value();
        if last < first {
            return add_from(set, block, at);
        }
        add_up_to(set, at, first)?;
        let end = taken.last().value();
        if last <= end {
            return Ok(());
        }
        at = at.max(end + 1);
    }
    add_from(set, block, at)
}

/// The blocks that do not end before the number. They are in address order.
fn reaching(by: &[Block], number: u128) -> &[Block]
    requires { InOrder 0 by.now }
    ensures ordered { InOrder 0 result.now }
    ensures same { IsSameFrom result.now by.now number }
{
    let mut rest = by;
    'skip: while let [first, others @ ..] = rest {
        if number <= first.last().value() {
            return rest;
        }
        rest = others;
    }
    rest
}

/// The addresses of the blocks that none of the others has. Both lists are in address order, and no address twice in one list.
fn rest_of(
    alloc: Global,
    family: Family,
    have: &[Block],
    by: &[Block],
) -> Result<SpanSet, AllocError>
    requires family { AreOf family have.now }
    requires have_ordered { InOrder 0 have.now }
    requires by_ordered { InOrder 0 by.now }
    ensures family { IfOk result (λ set. set.family ≡ family) }
    ensures members { IfOk result (λ set. IsBeyond set have.now by.now) }
{
    let mut set = SpanSet::new(alloc, family);
    let mut left = by;
    'each: for block in have {
        left = reaching(left, block.first().value());
        add_rest(&mut set, block, left)?;
    }
    Ok(set)
}

/// The fewest blocks that have exactly the addresses of `have` that are not in `by`, in address order. The blocks of both lists have one family,
/// are in any order, and may overlap. The one error means out of memory.
pub fn uncovered(alloc: Global, have: &[Block], by: &[Block]) -> Result<Vec<Block>, AllocError>
    requires { ShareFamily have.now by.now }
    // In address order, and no address twice.
    ensures ordered { IfOk result (λ v. InOrder 0 v.items) }
    ensures lawful { IfOk result (λ v. AllByRecursion IsBlock v.items) }
    ensures addresses { IfOk result (λ v. HasJust (addresses_beyond have.now by.now) v.items) }
    ensures shortest { IfOk result (λ v. NoneIsShorter (addresses_beyond have.now by.now) v.items) }
{
    let [first, ..] = have else {
        return Ok(Vec::new(alloc));
    };
    let family = first.family();
    let own = in_order(alloc, family, have)?;
    let others = in_order(alloc, family, by)?;
    let set = rest_of(alloc, family, &own, &others)?;
    set.blocks()
}
