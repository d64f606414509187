//! The lowest free place for a block, and the largest free block around one.

ghost use Rattle.std.specs.Prelude.{◌≡◌, ℕ, ◌+◌, ◌-◌, ◌^◌, ◌<◌, ◌≤◌};
ghost use Rattle.inet_num.specs.declared.Family.{Family};
ghost use Rattle.inet_num.specs.Net.{width_of, Cidr, HasAddress, IsInside};
ghost use Rattle.inet_num.specs.Free.{IsFree, IsAvailable};
ghost use Rattle.block_space.specs.Listed.{counting_of};
ghost use Rattle.block_space.specs.Fit.{IsFirstFit, IsFirstAvailable};
ghost use Rattle.block_list.specs.Listing.{Rises};
ghost use Rattle.block_list.specs.Places.{IsNextPlace};

use crate::search::is_in_the_way;
use inet_num::{Addr, Block, Family};

/// The number of addresses of a block of this length less one.
fn low_ones(family: Family, len: u8) -> u128
    requires { len ≤ width_of family }
    ensures { result + 1 ≡ 2 ^ (width_of family - len) }
{
    let shift = family.width() - len;
    if shift == 128 {
        u128::MAX
    } else {
        (1u128 << shift) - 1
    }
}

/// The lowest place for a block of this length that begins after an address of `within`.
fn next_behind(within: &Block, len: u8, last: u128) -> Option<Block>
    requires inside { HasAddress within.now last }
    requires long { within.now.len ≤ len }
    requires short { len ≤ width_of within.now.family }
    ensures { IsNextPlace within.now len (last + 1) result }
{
    let family = within.family();
    let ones = low_ones(family, len);
    let top = last - (last & ones) + ones;
    if top >= within.last().value() {
        return None;
    }
    Block::of(Addr::of(family, top + 1)?, len)
}

/// The lowest place for a block of this length that does not begin before an address of `within`.
fn next_from(within: &Block, len: u8, from: u128) -> Option<Block>
    requires inside { HasAddress within.now from }
    requires long { within.now.len ≤ len }
    requires short { len ≤ width_of within.now.family }
    ensures { IsNextPlace within.now len from result }
{
    match Block::of(Addr::of(within.family(), from)?, len) {
        Some(place) => Some(place),
        None => next_behind(within, len, from),
    }
}

/// The lowest block of this length that fits from an address of `within` on. Each block that counts and meets the candidate
/// moves it past its end; what lies before it in order then ends before the candidate too.
pub fn lowest_fit(
    blocks: &[Block],
    within: &Block,
    len: u8,
    from: u128,
    strict: bool,
) -> Option<Block>
    requires rises { Rises 0 blocks.now }
    requires inside { HasAddress within.now from }
    requires long { within.now.len ≤ len }
    requires short { len ≤ width_of within.now.family }
    ensures { IsFirstFit within.now (counting_of blocks.now within.now strict) len from result }
{
    let mut place = next_from(within, len, from)?;
    'walk: for block in blocks {
        if is_in_the_way(block, within, strict, &place) {
            place = next_behind(within, len, block.last().value())?;
        }
    }
    Some(place)
}
