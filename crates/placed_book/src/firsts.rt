//! The least id of the rows at each place: in a table, with a block.

ghost use Rattle.std.specs.Prelude.{◌≡◌, ℕ, ◌+◌, ◌≤◌, Some, IsSome};
ghost use Rattle.std.specs.HashMap.{get, spare};
ghost use Rattle.placed_book.specs.Firsts.{same_spot, spot_of, lesser, IsSetAt};

use crate::tables::number;
use inet_num::Block;
use ipam_data::kinds::Table;
use std::collections::HashMap;

/// A table and a block, as a key.
#[derive(Clone, Copy, PartialEq, Eq, Hash, Drop)]
pub struct Spot {
    pub first: u128,
    pub table: u64,
    pub width: u8,
    pub len: u8,
}

/// For the table and the block of each row the least id of the rows there.
pub type Firsts = HashMap<Spot, u32>;

/// The key of a table and a block.
pub fn spot_at(table: Table, block: &Block) -> Spot
    ensures { result ≡ spot_of table block.now }
{
    Spot {
        first: block.first().value(),
        table: number(table),
        width: block.family().width(),
        len: block.len(),
    }
}

/// Puts another id in the place of that of a key which exists, or takes the key out. It leaves the room.
pub fn settle_first(firsts: &mut Firsts, spot: Spot, id: Option<u32>)
    requires { IsSome (get same_spot firsts.old spot) }
    ensures set { IsSetAt spot id firsts.old firsts.new }
    ensures spare { spare firsts.old ≤ spare firsts.new }
{
    match id {
        Some(id) => {
            if let Some(first) = firsts.get_mut(&spot) {
                *first = id;
            }
        }
        None => {
            let _first = firsts.remove(&spot);
        }
    }
}

/// Notes the id of one more row: it is the first one if it is less than the one that was. It takes no memory.
pub fn note_first(firsts: &mut Firsts, spot: Spot, id: u32)
    requires { 1 ≤ spare firsts.old }
    ensures set { IsSetAt spot (Some (lesser id (get same_spot firsts.old spot))) firsts.old firsts.new }
    ensures spare { spare firsts.old ≤ spare firsts.new + 1 }
{
    if let Some(first) = firsts.get(&spot) {
        if *first < id {
            return;
        }
    }
    match firsts.insert(spot, id) {
        Ok(_) => {}
        Err(_) => unreachable!(),
    }
}
