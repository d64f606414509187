//! The block of a member's number.

ghost use Rattle.std.specs.Prelude.{◌≡◌};
ghost use Rattle.inet_num.specs.declared.Family.TheVariants.{V6};
ghost use Rattle.number_pools.specs.Keys.{key_of};

use inet_num::{Addr, Block, Family};

/// How many numbers a pool has at most.
const POOL_SIZE: u128 = 4_294_967_296;

/// The block of one address for a number of a pool.
pub fn key_at(pool: u32, number: u32) -> Block
    ensures { result ≡ record { family = V6; first = key_of pool number; len = 128 } }
{
    let Some(addr) = Addr::of(
        Family::V6,
        u128::from(pool) * POOL_SIZE + u128::from(number),
    ) else {
        unreachable!()
    };
    match Block::of(addr, 128) {
        Some(block) => block,
        None => unreachable!(),
    }
}
