//! A tree of blocks and a list of blocks, after the same changes.

ghost use Rattle.std.specs.Prelude.{◌≡◌, ◌+◌, ◌≤◌, ◌<◌, IfOk, length};
ghost use Rattle.inet_num.specs.Net.{HasAddress};
ghost use Rattle.radix_tree.specs.Held.{Held};
ghost use Rattle.block_list.specs.Listing.{Listing};

use crate::changes::{block_of, changed, column};
use block_list::BlockList;
use block_space::{Space, Steps};
use inet_num::{Addr, Block, Family, read_addr, read_block, write_block};
use radix_tree::Tree;
use std::alloc::{AllocError, Global};
use std::marker::Brand;
use std::sync::ledger::{Blank, Ledger};
use std::test::Fail;

/// Whether the two answer alike of what is free in a block from an address on.
fn free_alike<L: Ledger>(
    tree: &Tree,
    list: &BlockList,
    within: Block,
    at: u128,
    strict: bool,
    steps: &mut Steps<L>,
) -> bool
    requires tree_family { within.family ≡ tree.now.family }
    requires list_family { within.family ≡ list.now.family }
    requires inside { HasAddress within at }
{
    let Some(from) = Addr::of(within.family(), at) else {
        return false;
    };
    let next = tree.next_free_block(within, from, strict, steps);
    if next != list.next_free_block(within, from, strict, steps) {
        return false;
    }
    'lengths: for len in within.len()..within.family().width() + 1 {
        let fit = tree.first_free(within, len, from, strict, steps);
        if fit != list.first_free(within, len, from, strict, steps) {
            return false;
        }
    }
    true
}

/// Whether the two answer alike of a block, from its ends and from an address between them on.
fn alike<L: Ledger>(
    tree: &Tree,
    list: &BlockList,
    within: Block,
    between: u128,
    blank: Blank,
) -> bool
    requires tree_family { within.family ≡ tree.now.family }
    requires list_family { within.family ≡ list.now.family }
    requires name { blank.name ≡ L.name }
    requires parts { blank.parts ≡ L.parts }
    requires some { 0 < blank.parts }
{
    let mut steps = Steps::<L>::new(blank);
    let first = within.first().value();
    let last = within.last().value();
    if tree.times(within) != list.times(within) {
        return false;
    }
    for strict in [false, true] {
        if tree.counting(within, strict) != list.counting(within, strict) {
            return false;
        }
        if within.len() >= 1 && tree.covered(within, strict) != list.covered(within, strict) {
            return false;
        }
        for at in [first, between.max(first).min(last), last] {
            if !free_alike(tree, list, within, at, strict, &mut steps) {
                return false;
            }
        }
    }
    true
}

/// Whether the two answer alike of the blocks of these words, each with an address to begin from, as `10.0.0.0/24@10.0.0.7`.
fn all_alike(tree: &Tree, list: &BlockList, family: Family, asked: &str) -> bool
    requires tree_family { tree.now.family ≡ family }
    requires list_family { list.now.family ≡ family }
{
    'asked: for word in asked.split_whitespace() {
        let (text, between) = word.split_once('@').unwrap_or(("", ""));
        let Some(within) = block_of(family, text) else {
            return false;
        };
        let Ok(between) = read_addr(between.as_bytes()) else {
            return false;
        };
        if !alike::<Brand>(tree, list, within, between.value(), Blank::new(1)) {
            return false;
        }
    }
    true
}

/// Changes, and the blocks that are asked for after them, each with an address to begin from.
const ALIKE: [&str; 11] = [
    "|10.0.0.0/24@10.0.0.7 0.0.0.0/0@0.0.0.1",
    "+::/1 +::/128 +8000::/2 +::/128 -::/1|::/0@::1 ::/1@4000:: ::/128@:: 8000::/1@8000::1 8000::/2@8000::",
    // nested, repeated, larger than what is asked for, and taken out again
    "+10.0.0.0/24 +10.0.0.4/30 +10.0.0.4/30 +10.0.0.5/32 +10.0.0.0/8 +10.0.0.255/32 -10.0.0.4/30 -10.0.0.0/24 -10.0.0.9/32
    |10.0.0.0/8@10.0.0.6 10.0.0.0/24@10.0.0.6 10.0.0.0/29@10.0.0.5 10.0.0.4/30@10.0.0.5 10.0.0.5/32@10.0.0.5
    10.0.0.8/29@10.0.0.9 0.0.0.0/0@10.0.0.6",
    // all of a block is taken
    "+10.0.0.0/32 +10.0.0.1/32 +10.0.0.2/31 +10.0.0.4/30 +10.0.0.6/31
    |10.0.0.0/29@10.0.0.1 10.0.0.0/28@10.0.0.3 10.0.0.4/30@10.0.0.5",
    // one free address at the end, and one in the middle
    "+10.0.0.0/30 +10.0.0.4/32 +10.0.0.6/31 +10.0.0.8/30 +10.0.0.12/31 +10.0.0.14/32
    |10.0.0.0/28@10.0.0.6 10.0.0.0/29@10.0.0.5 10.0.0.12/30@10.0.0.13 10.0.0.5/32@0.0.0.0",
    // the last addresses of a family
    "+ffff:ffff:ffff:ffff:ffff:ffff:ffff:ffff/128 +ffff:ffff:ffff:ffff:ffff:ffff:ffff:fff8/125
    +ffff:ffff:ffff:ffff:ffff:ffff:ffff:fff0/126 -ffff:ffff:ffff:ffff:ffff:ffff:ffff:fff8/125
    +ffff:ffff:ffff:ffff:ffff:ffff:ffff:fffc/127
    |ffff:ffff:ffff:ffff:ffff:ffff:ffff:fff0/124@ffff:ffff:ffff:ffff:ffff:ffff:ffff:fffb
    ffff:ffff:ffff:ffff:ffff:ffff:ffff:fff8/125@ffff:ffff:ffff:ffff:ffff:ffff:ffff:ffff
    ::/0@ffff:ffff:ffff:ffff:ffff:ffff:ffff:ffff",
    "+0.0.0.0/0 +0.0.0.0/0 +255.255.255.255/32|0.0.0.0/0@0.0.0.5 255.255.255.240/28@255.255.255.243",
    // drawn at random
    "+10.0.0.0/27 +10.0.0.8/29 -10.0.0.0/27 +10.0.0.4/30 +10.0.0.2/31 +10.0.0.8/29 -10.0.0.8/29 -10.0.0.8/29 +10.0.0.17/32
    -10.0.0.17/32 -10.0.0.2/31 +10.0.0.16/29 +10.0.0.8/32 +10.0.0.16/29 +10.0.0.6/32 +10.0.0.17/32 -10.0.0.16/29
    +10.0.0.16/28 -10.0.0.4/30 -10.0.0.16/28 +10.0.0.12/30 -10.0.0.17/32
    |10.0.0.0/27@10.0.0.9 10.0.0.0/27@10.0.0.22 10.0.0.0/28@10.0.0.5 10.0.0.16/28@10.0.0.27 10.0.0.8/29@10.0.0.13
    10.0.0.20/30@10.0.0.21 10.0.0.0/24@10.0.0.17",
    "+8000::10/128 -8000::10/128 +8000::14/128 -8000::14/128 +8000::1e/128 +8000::8/126 +8000::4/126 -8000::1e/128
    +8000::12/128 -8000::8/126 -8000::4/126 +8000::/125 -8000::/125 +8000::2/127 -8000::2/127 +8000::18/125 +8000::10/124
    +8000::2/128 +8000::10/125 -8000::10/125 +8000::8/126 +8000::1e/127 +8000::1c/128 +8000::8/127
    |8000::/123@8000::9 8000::/123@8000::16 8000::/124@8000::5 8000::10/124@8000::1b 8000::8/125@8000::d
    8000::14/126@8000::15 8000::/120@8000::11",
    "+10.0.0.0/27 -10.0.0.0/27 +10.0.0.8/29 +10.0.0.4/31 -10.0.0.8/29 +10.0.0.16/29 +10.0.0.0/28 +10.0.0.23/32
    +10.0.0.19/32 +10.0.0.27/32 -10.0.0.19/32 +10.0.0.8/29 -10.0.0.16/29 -10.0.0.4/31 +10.0.0.16/28 +10.0.0.16/29
    +10.0.0.20/30 +10.0.0.16/29 -10.0.0.20/30 +10.0.0.0/31 +10.0.0.24/29 +10.0.0.16/30
    |10.0.0.0/27@10.0.0.9 10.0.0.0/27@10.0.0.22 10.0.0.0/28@10.0.0.5 10.0.0.16/28@10.0.0.27 10.0.0.8/29@10.0.0.13
    10.0.0.20/30@10.0.0.21 10.0.0.0/24@10.0.0.17",
    "+8000::1c/127 +8000::8/125 -8000::1c/127 +8000::18/125 -8000::18/125 +8000::/124 -8000::/124 +8000::b/128 +8000::/125
    +8000::10/125 -8000::b/128 +8000::/124 +8000::18/127 -8000::18/127 -8000::8/125 +8000::18/125 +8000::a/127
    +8000::4/126 +8000::19/128 +8000::1/128 +8000::f/128
    |8000::/123@8000::9 8000::/123@8000::16 8000::/124@8000::5 8000::10/124@8000::1b 8000::8/125@8000::d
    8000::14/126@8000::15 8000::/120@8000::11",
];

/// Whether the two answer alike of what a case asks, of one block at least.
fn is_alike(alloc: Global, case: &str) -> Result<bool, AllocError> {
    let changes = column(case, 0);
    let asked = column(case, 1);
    let first = asked.split('@').next().unwrap_or("");
    let Ok(block) = read_block(first.as_bytes()) else {
        return Ok(false);
    };
    let family = block.family();
    let tree: Tree = changed(alloc, family, changes)?;
    let list: BlockList = changed(alloc, family, changes)?;
    Ok(all_alike(&tree, &list, family, asked))
}

#[test]
fn a_tree_answers_as_a_list(rt: HostRuntime) -> Result<(), Fail> {
    for case in ALIKE {
        assert!(rt; is_alike(rt.alloc(), case)?, "{case}");
    }
    Ok(())
}

/// The first free block of this length in a block, from its first address on.
fn fit_of<S: Space, L: Ledger>(
    space: &S,
    within: Block,
    len: u8,
    strict: bool,
    blank: Blank,
) -> Option<Block>
    requires family { within.family ≡ S.family_of space.now }
    requires name { blank.name ≡ L.name }
    requires parts { blank.parts ≡ L.parts }
    requires some { 0 < blank.parts }
{
    let mut steps = Steps::<L>::new(blank);
    if len < within.len() || within.family().width() < len {
        return None;
    }
    space.first_free(within, len, within.first(), strict, &mut steps)
}

/// The text of a block, or `none`.
fn text_of(alloc: Global, block: Option<Block>) -> Result<Vec<u8>, AllocError> {
    let mut out = Vec::new(alloc);
    match block {
        Some(block) => write_block(block, &mut out)?,
        None => out.extend_from_slice(b"none")?,
    }
    Ok(out)
}

/// What a space says of a block: how often it occurs (`times`), how many of its addresses are covered (`covered`), or its
/// first free block of a length (`fit 24`), also given those strictly inside it alone (`strict 24`). Of another question it says
/// nothing.
fn said<S: Space>(
    alloc: Global,
    space: &S,
    within: Block,
    question: &str,
) -> Result<Vec<u8>, AllocError>
    requires { within.family ≡ S.family_of space.now }
{
    if question == "times" {
        return Ok(format!(in alloc; "{}", space.times(within))?.into_bytes());
    }
    if question == "covered" && within.len() >= 1 {
        return Ok(format!(in alloc; "{}", space.covered(within, false))?.into_bytes());
    }
    let Some((kind, len)) = question.split_once(' ') else {
        return Ok(Vec::new(alloc));
    };
    if kind != "fit" && kind != "strict" {
        return Ok(Vec::new(alloc));
    }
    let Ok(len) = len.parse::<u8>() else {
        return Ok(Vec::new(alloc));
    };
    let fit = fit_of::<S, Brand>(space, within, len, kind == "strict", Blank::new(1));
    text_of(alloc, fit)
}

/// Changes, a block, what is asked of it after them, and what is said: one case to a line.
const SAID: &str = "\
+::/1 +::/128 +8000::/2 +::/128 -::/1|::/128|times|2
+::/1 +::/128 +8000::/2 +::/128 -::/1|::/0|fit 1|none
+::/1 +::/128 +8000::/2 +::/128 -::/1|::/0|fit 2|4000::/2
+::/1 +::/128|::/1|fit 2|none
+::/1 +::/128|::/1|strict 2|4000::/2
+10.0.0.0/24 +10.0.0.0/24|10.0.0.0/24|times|2
+10.0.0.0/24 +10.0.0.0/24|10.0.0.0/16|covered|256
";

/// Whether a space of this kind says what the case's line says.
fn is_met<S: Space + Drop>(alloc: Global, line: &str) -> Result<bool, AllocError> {
    let Ok(within) = read_block(column(line, 1).as_bytes()) else {
        return Ok(false);
    };
    let space: S = changed(alloc, within.family(), column(line, 0))?;
    let text = said(alloc, &space, within, column(line, 2))?;
    Ok(!text.is_empty() && column(line, 3).as_bytes() == text.as_slice())
}

#[test]
fn a_tree_and_a_list_say_what_stands_here(rt: HostRuntime) -> Result<(), Fail> {
    for line in SAID.lines() {
        assert!(rt; is_met::<Tree>(rt.alloc(), line)?, "a tree: {line}");
        assert!(rt; is_met::<BlockList>(rt.alloc(), line)?, "a list: {line}");
    }
    Ok(())
}

/// A space with a block twice, after room was made for two.
fn with_two<S: Space + Drop>(alloc: Global, block: Block) -> Result<S, AllocError>
    ensures { IfOk result (λ space. S.family_of space ≡ block.family) }
{
    let mut space = S::new(alloc, block.family());
    space.reserve(2)?;
    space.insert(block);
    space.insert(block);
    Ok(space)
}

#[test]
fn room_for_two_holds_a_block_twice(rt: HostRuntime) -> Result<(), Fail> {
    let net = block_of(Family::V4, "10.0.0.0/24").ok_or("no block")?;
    let host = block_of(Family::V4, "10.0.0.1/32").ok_or("no block")?;
    let tree: Tree = with_two(rt.alloc(), net)?;
    let list: BlockList = with_two(rt.alloc(), net)?;
    assert!(rt; tree.times(net) == 2 && list.times(net) == 2);
    assert!(rt; tree.covering(host)?.as_slice() == [net].as_slice());
    Ok(())
}
