//! The first available blocks of a block.

ghost use Rattle.std.specs.Prelude.{◌≡◌, true, take, IfOk};
ghost use Rattle.inet_num.specs.Net.{IsInside};
ghost use Rattle.inet_num.specs.Free.{available_blocks_of};
ghost use Rattle.block_space.specs.Listed.{counting_of};
ghost use Rattle.free_space.specs.Behind.{IsBehind};

use crate::searches::next_available;
use block_space::Space;
use inet_num::{Addr, Block};
use std::alloc::{AllocError, Global};

/// The address after a block inside another one, or `None` if the other one ends with it.
fn behind(within: &Block, block: &Block) -> Option<Addr>
    requires { IsInside block.now within.now }
    ensures { IsBehind within.now block.now result }
{
    let end = block.last().value();
    if end >= within.last().value() {
        return None;
    }
    match Addr::of(within.family(), end + 1) {
        Some(addr) => Some(addr),
        None => unreachable!(),
    }
}

/// The first `limit` available blocks of a block, or all of them if there are fewer: the largest free blocks inside it, in
/// address order (blocks as in RFC 4632 and RFC 4291, each aligned at its own size). The blocks of the space that lie strictly
/// inside it are in the way; one that equals it is the block itself and is not. The block has the space's family. The one
/// error means out of memory.
pub fn available_blocks<S: Space>(
    alloc: Global,
    kids: &S,
    within: Block,
    limit: u32,
) -> Result<Vec<Block>, AllocError>
    requires { within.family ≡ S.family_of kids.now }
    ensures { IfOk result (λ v. v.items ≡ take limit (available_blocks_of within (counting_of (S.held kids.now) within true))) }
{
    within.bounds();
    let mut out = Vec::new(alloc);
    let mut from = within.first();
    'walk: while out.len() < limit as usize {
        let Some(block) = next_available(kids, within, from) else {
            return Ok(out);
        };
        out.push(block)?;
        match behind(&within, &block) {
            Some(next) => from = next,
            None => return Ok(out),
        }
    }
    Ok(out)
}
