//! How many addresses some blocks have.

ghost use Rattle.std.specs.Prelude.{◌≡◌, ℕ, ◌≤◌};
ghost use Rattle.inet_num.specs.Net.{Cidr};
ghost use Rattle.block_space.specs.Listed.{counting_of, covered_of};
ghost use Rattle.block_list.specs.Listing.{Rises};

use crate::search::{counts_for, ends_of};
use inet_num::Block;

/// How many addresses of a block, of a length of at least 1, the sorted blocks that count for it have, each once. What a
/// block has before the end of those in front of it is counted already.
pub fn count_covered(blocks: &[Block], within: &Block, strict: bool) -> u128
    requires rises { Rises 0 blocks.now }
    requires long { 1 ≤ within.now.len }
    ensures { result ≡ covered_of (counting_of blocks.now within.now strict) within.now }
{
    let base = within.first().value();
    let mut end: u128 = 0;
    let mut total: u128 = 0;
    'walk: for block in blocks {
        if counts_for(block, within, strict) {
            let (first, last) = ends_of(block);
            let behind = end.max(last - base + 1);
            total += behind - end.max(first - base);
            end = behind;
        }
    }
    total
}
