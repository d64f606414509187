//! Blocks sorted by their first addresses: which of them begin in a range, and what two blocks have to do with each other.

ghost use Rattle.std.specs.Prelude.{◌≡◌, ℕ, ◌+◌, ◌-◌, ◌<◌, ◌≤◌, ◌&&◌, nat_le, true, length, take, drop, slice_index_or, IfSome, MatchOption};
ghost use Rattle.std.specs.List.{AllByRecursion, list_any, position};
ghost use Rattle.inet_num.specs.Net.{Cidr, size_of};
ghost use Rattle.inet_num.specs.Free.{meets};
ghost use Rattle.block_space.specs.Listed.{AreBlocksOf, around_of, counts, counting_of, is_same, times_of};
ghost use Rattle.block_list.specs.Listing.{Rises};

use inet_num::Block;

/// The numbers of the block's first and last address.
pub fn ends_of(block: &Block) -> (u128, u128)
    ensures first { result.0 ≡ block.now.first }
    ensures last { result.1 + 1 ≡ block.now.first + size_of block.now }
{
    (block.first().value(), block.last().value())
}

/// Whether the block counts for another of its family; strictly, not if the two are one.
pub fn counts_for(block: &Block, within: &Block, strict: bool) -> bool
    ensures { result ≡ counts within.now strict block.now }
{
    let (first, last) = ends_of(block);
    let (low, high) = ends_of(within);
    let same = first == low && block.len() == within.len();
    low <= first && last <= high && !(strict && same)
}

/// How many of the blocks count for a block.
fn count_counting(blocks: &[Block], within: &Block, strict: bool) -> usize
    ensures { result ≡ length (counting_of blocks.now within.now strict) }
{
    blocks
        .iter()
        .filter(|block| counts_for(block, within, strict))
        .count()
}

/// Whether two blocks of one family have an address in common.
fn meet(block: &Block, other: &Block) -> bool
    ensures { result ≡ meets block.now other.now }
{
    let (first, last) = ends_of(block);
    let (low, high) = ends_of(other);
    first <= high && low <= last
}

/// Whether two blocks of one family are one.
fn is_equal(block: &Block, other: &Block) -> bool
    ensures { result ≡ is_same other.now block.now }
{
    other.first().value() == block.first().value() && other.len() == block.len()
}

/// Whether a block counts, and has an address of another one.
pub fn is_in_the_way(other: &Block, within: &Block, strict: bool, block: &Block) -> bool
    ensures { result ≡ (counts within.now strict other.now && meets block.now other.now) }
{
    counts_for(other, within, strict) && meet(block, other)
}

/// Whether a block that counts has an address of this one.
pub fn is_met(blocks: &[Block], within: &Block, strict: bool, block: &Block) -> bool
    ensures { result ≡ list_any (λ other. counts within.now strict other && meets block.now other) blocks.now }
{
    blocks
        .iter()
        .any(|other| is_in_the_way(other, within, strict, block))
}

/// Whether the block begins at the address or before it.
fn begins_by(block: &Block, last: u128) -> bool
    ensures { result ≡ nat_le block.now.first last }
{
    block.first().value() <= last
}

/// How many of the blocks begin at the address or before it: they come first.
pub fn beginning_by(blocks: &[Block], last: u128) -> usize
    requires { Rises 0 blocks.now }
    ensures bound { result ≤ length blocks.now }
    ensures below { AllByRecursion (λ b. b.first ≤ last) (take result blocks.now) }
    ensures others { AllByRecursion (λ b. last < b.first) (drop result blocks.now) }
{
    blocks.partition_point(|block| begins_by(block, last))
}

/// How many of the blocks begin before the address: they come first.
fn beginning_before(blocks: &[Block], first: u128) -> usize
    requires { Rises 0 blocks.now }
    ensures bound { result ≤ length blocks.now }
    ensures below { AllByRecursion (λ b. b.first < first) (take result blocks.now) }
    ensures others { AllByRecursion (λ b. first ≤ b.first) (drop result blocks.now) }
{
    if first == 0 {
        0
    } else {
        beginning_by(blocks, first - 1)
    }
}

/// Which of the blocks begin at one of the addresses from the first to the last: those from the first index up to the second.
pub fn beginning_in(blocks: &[Block], first: u128, last: u128) -> (usize, usize)
    requires { Rises 0 blocks.now }
    ensures order { result.0 ≤ result.1 }
    ensures bound { result.1 ≤ length blocks.now }
    ensures before { AllByRecursion (λ b. b.first < first) (take result.0 blocks.now) }
    ensures from { AllByRecursion (λ b. first ≤ b.first) (drop result.0 blocks.now) }
    ensures by { AllByRecursion (λ b. b.first ≤ last) (take (result.1 - result.0) (drop result.0 blocks.now)) }
    ensures behind { AllByRecursion (λ b. last < b.first) (drop result.1 blocks.now) }
{
    let from = beginning_before(blocks, first);
    let (_, rest) = blocks.split_at(from);
    let count = beginning_by(rest, last);
    (from, from + count)
}

/// How many of the sorted blocks count for one of their family. Of those that begin in it, only the ones that begin at its
/// first address are looked at: after it there is no room for a block that is not inside.
pub fn count_inside(blocks: &[Block], within: &Block, strict: bool) -> usize
    requires rises { Rises 0 blocks.now }
    requires lawful { AreBlocksOf within.now.family blocks.now }
    ensures counting { result ≡ length (counting_of blocks.now within.now strict) }
    ensures bound { result ≤ length blocks.now }
{
    within.bounds();
    let (first, last) = ends_of(within);
    let (from, behind) = beginning_in(blocks, first, first);
    let (_, rest) = blocks.split_at(behind);
    let inside = beginning_by(rest, last);
    count_counting(&blocks[from..behind], within, strict) + inside
}

/// How many of the blocks are this one.
fn count_equal(blocks: &[Block], block: &Block) -> usize
    ensures { result ≡ times_of blocks.now block.now }
{
    blocks.iter().filter(|held| is_equal(held, block)).count()
}

/// The index of the first block that is this one.
fn position_of(blocks: &[Block], block: &Block) -> Option<usize>
    ensures { result ≡ position (is_same block.now) blocks.now }
{
    blocks.iter().position(|held| is_equal(held, block))
}

/// How often a block occurs among sorted ones.
pub fn times_in(blocks: &[Block], block: &Block) -> usize
    requires { Rises 0 blocks.now }
    ensures { result ≡ times_of blocks.now block.now }
{
    let first = block.first().value();
    let (from, to) = beginning_in(blocks, first, first);
    count_equal(&blocks[from..to], block)
}

/// How many different ones of the sorted blocks contain a block and are not it: the one of each shorter length is looked for.
pub fn count_around(blocks: &[Block], block: Block) -> usize
    requires { Rises 0 blocks.now }
    ensures counted { result ≡ around_of blocks.now block }
    ensures bound { result ≤ block.len }
{
    block.bounds();
    let mut count = 0;
    let mut wide = block;
    'widen: while let Some(wider) = wide.enclosing() {
        wide = wider;
        count += times_in(blocks, &wide).min(1);
    }
    count
}

/// Where a block is among sorted ones, or `None` if it is not.
pub fn index_of(blocks: &[Block], block: &Block) -> Option<usize>
    requires { Rises 0 blocks.now }
    ensures found { IfSome result (λ i. (i < length blocks.now) × (is_same block.now (slice_index_or blocks.now i block.now) ≡ true)) }
    ensures cause { MatchOption result (times_of blocks.now block.now ≡ 0) (λ _. 0 < times_of blocks.now block.now) }
{
    let first = block.first().value();
    let (from, to) = beginning_in(blocks, first, first);
    let index = position_of(&blocks[from..to], block)?;
    Some(from + index)
}
