//! Trees compared with values by hand.

ghost use Rattle.std.specs.Prelude.{◌≡◌};

use crate::changes::{changed, column};
use block_space::Space;
use inet_num::{Block, read_block, write_block};
use radix_tree::Tree;
use std::alloc::{AllocError, Global};
use std::test::Fail;

/// What a tree is asked of a block.
#[derive(Clone, Copy, Debug)]
enum Question {
    Kept,
    Covered,
    Inside,
}

/// How often a block occurs, and the blocks that contain it.
fn kept(alloc: Global, tree: &Tree, block: Block) -> Result<Vec<u8>, AllocError>
    requires { block.family ≡ tree.now.family }
{
    let mut out = format!(in alloc; "{}", tree.times(block))?.into_bytes();
    let around = tree.covering(block)?;
    for each in around.as_slice() {
        out.push(b' ')?;
        write_block(*each, &mut out)?;
    }
    Ok(out)
}

/// How many addresses of a block are covered, with the block itself and without it. All addresses of a family are not counted.
fn covered(alloc: Global, tree: &Tree, block: Block) -> Result<Vec<u8>, AllocError>
    requires { block.family ≡ tree.now.family }
{
    if block.len() == 0 {
        return Err(AllocError);
    }
    let all = tree.covered(block, false);
    let strict = tree.covered(block, true);
    Ok(format!(in alloc; "{all} {strict}")?.into_bytes())
}

/// The blocks inside a block, each with how often it occurs.
fn inside(alloc: Global, tree: &Tree, block: Block) -> Result<Vec<u8>, AllocError>
    requires { block.family ≡ tree.now.family }
{
    let mut out = Vec::new(alloc);
    for entry in tree.inside(block) {
        if !out.is_empty() {
            out.push(b' ')?;
        }
        let times = format!(in alloc; "{}*", entry.times)?;
        out.extend_from_slice(times.as_bytes())?;
        write_block(entry.block, &mut out)?;
    }
    Ok(out)
}

/// Whether a tree answers a question as a case says: after its changes, of its block.
fn is_answered(alloc: Global, question: Question, case: &str) -> Result<bool, AllocError> {
    let Ok(block) = read_block(column(case, 1).as_bytes()) else {
        return Ok(false);
    };
    let tree: Tree = changed(alloc, block.family(), column(case, 0))?;
    let answer = match question {
        Question::Kept => kept(alloc, &tree, block)?,
        Question::Covered => covered(alloc, &tree, block)?,
        Question::Inside => inside(alloc, &tree, block)?,
    };
    Ok(answer.as_slice() == column(case, 2).as_bytes())
}

/// Changes, a block, how often it occurs after them, and the blocks that contain it.
const KEPT: [&str; 9] = [
    "|10.0.0.0/32|0",
    "+::/1 +::/128 +8000::/2 +::/128 -::/1|::/128|2 ::/128",
    // the same block twice is listed once
    "+10.0.0.0/24 +10.0.0.0/24|10.0.0.1/32|0 10.0.0.0/24",
    "+10.0.0.0/24 +10.0.0.0/24 -10.0.0.0/24|10.0.0.0/24|1 10.0.0.0/24",
    // a node that was only there because the tree parted at its block goes with one of its children, and lists no block
    "+10.0.0.0/32 +10.0.0.1/32|10.0.0.0/31|0",
    "+10.0.0.0/32 +10.0.0.1/32 -10.0.0.0/32|10.0.0.1/32|1 10.0.0.1/32",
    // the largest comes first, in any order
    "+::/128 +::/8 +::/64 +::/0 +::1/128|::1/128|1 ::/0 ::/8 ::/64 ::1/128",
    // nothing to take out
    "+10.0.0.0/8 -10.0.0.0/9 -10.0.0.0/8 -10.0.0.0/8|10.0.0.0/8|0",
    "+0.0.0.0/0 +10.0.0.0/8 +10.0.0.0/9|10.0.0.0/8|1 0.0.0.0/0 10.0.0.0/8",
];

#[test]
fn a_tree_has_what_was_put_in_and_not_taken_out(rt: HostRuntime) -> Result<(), Fail> {
    for case in KEPT {
        assert!(rt; is_answered(rt.alloc(), Question::Kept, case)?, "{case}");
    }
    Ok(())
}

/// Changes, a block, and how many of its addresses are covered, with the block itself and without it.
const COVERED: [&str; 6] = [
    "|10.0.0.0/24|0 0",
    "+10.0.0.0/24 +10.0.0.0/26 +10.0.0.255/32|10.0.0.0/24|256 65",
    "+10.0.0.0/25 +10.0.0.0/8 +10.0.0.0/26|10.0.0.0/24|128 128",
    "+10.0.0.0/8|10.0.0.0/24|0 0",
    "+10.0.0.0/32|10.0.0.0/32|1 0",
    "+8000::/2 +8000::/1 +ffff:ffff:ffff:ffff:ffff:ffff:ffff:ffff/128
    |8000::/1
    |170141183460469231731687303715884105728 85070591730234615865843651857942052865",
];

#[test]
fn covered_addresses_are_counted_once(rt: HostRuntime) -> Result<(), Fail> {
    for case in COVERED {
        assert!(rt; is_answered(rt.alloc(), Question::Covered, case)?, "{case}");
    }
    Ok(())
}

/// Changes, a block, and the blocks inside it, each with how often it occurs.
const INSIDE: [&str; 4] = [
    "|0.0.0.0/0|",
    // by first address and then length, in any order
    "+10.0.0.128/25 +10.0.0.0/32 +10.0.0.0/24 +10.0.0.0/25 +10.0.0.0/24 +0.0.0.0/0 +10.0.1.0/24
    |10.0.0.0/24
    |2*10.0.0.0/24 1*10.0.0.0/25 1*10.0.0.0/32 1*10.0.0.128/25",
    // only a larger block exists
    "+10.0.0.0/8|10.0.0.0/24|",
    "+ffff:ffff:ffff:ffff:ffff:ffff:ffff:ffff/128 +::/128
    |::/0
    |1*::/128 1*ffff:ffff:ffff:ffff:ffff:ffff:ffff:ffff/128",
];

#[test]
fn blocks_inside_a_block_are_listed_in_order(rt: HostRuntime) -> Result<(), Fail> {
    for case in INSIDE {
        assert!(rt; is_answered(rt.alloc(), Question::Inside, case)?, "{case}");
    }
    Ok(())
}
