//! The tests that a filter asks for: each holds if nothing is asked.

ghost use Rattle.std.specs.Prelude.{◌≡◌, bytes_eq};
ghost use Rattle.ipam_data.specs.Checks.{asks};
ghost use Rattle.ipam_data.specs.Tables.{same_name};
ghost use Rattle.inet_num.specs.Blocks.{same_family, same_block, is_block_inside, is_strictly_inside, block_holds};

use crate::same::is_one_name;
use inet_num::{
    Addr, Block, Family, block_holds, is_block_inside, is_block_within, is_one_block, is_one_family,
};
use ipam_data::text::Text;

/// Whether the text is the one that is asked for.
pub fn asks_text(wanted: &Option<Text>, text: &str) -> bool
    ensures { result ≡ asks wanted.now (λ w. bytes_eq text.now w) }
{
    match wanted {
        None => true,
        Some(wanted) => text == wanted.as_str(),
    }
}

/// Whether the family is the one that is asked for.
pub fn asks_family(wanted: &Option<Family>, family: Family) -> bool
    ensures { result ≡ asks wanted.now (λ f. same_family family f) }
{
    match wanted {
        None => true,
        Some(wanted) => is_one_family(family, *wanted),
    }
}

/// Whether the row that is named is the one that is asked for, or none is if none is asked for.
pub fn asks_name(wanted: &Option<Option<u32>>, named: Option<u32>) -> bool
    ensures { result ≡ asks wanted.now (λ n. same_name named n) }
{
    match wanted {
        None => true,
        Some(wanted) => is_one_name(named, *wanted),
    }
}

/// Whether the block is the one that is asked for.
pub fn asks_block(wanted: &Option<Block>, block: &Block) -> bool
    ensures { result ≡ asks wanted.now (λ b. same_block block.now b) }
{
    match wanted {
        None => true,
        Some(wanted) => is_one_block(block, wanted),
    }
}

/// Whether the block lies strictly inside the one that is asked for.
pub fn asks_within(wanted: &Option<Block>, block: &Block) -> bool
    ensures { result ≡ asks wanted.now (λ b. is_strictly_inside block.now b) }
{
    match wanted {
        None => true,
        Some(wanted) => is_block_within(block, wanted),
    }
}

/// Whether the block lies in the one that is asked for, or is it.
pub fn asks_inside(wanted: &Option<Block>, block: &Block) -> bool
    ensures { result ≡ asks wanted.now (λ b. is_block_inside block.now b) }
{
    match wanted {
        None => true,
        Some(wanted) => is_block_inside(block, wanted),
    }
}

/// Whether the block contains the one that is asked for, or is it.
pub fn asks_contains(wanted: &Option<Block>, block: &Block) -> bool
    ensures { result ≡ asks wanted.now (λ b. is_block_inside b block.now) }
{
    match wanted {
        None => true,
        Some(wanted) => is_block_inside(wanted, block),
    }
}

/// Whether the address lies in the block that is asked for.
pub fn asks_parent(wanted: &Option<Block>, addr: Addr) -> bool
    ensures { result ≡ asks wanted.now (λ b. block_holds b addr) }
{
    match wanted {
        None => true,
        Some(wanted) => block_holds(wanted, addr),
    }
}
