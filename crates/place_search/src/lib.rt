//! The ids of the rows of some tables whose block lies in a block, or has a block around a given one: a few descents of the tables'
//! trees, and a look-up of an id for each block that is found there. It gives up if many rows are looked for, or if a block
//! occurs more than once in its table: a pass over the rows costs no more then.
#![tactic(auto)]

ghost use Rattle.std.specs.Prelude.{IfOk, IfSome, map};
ghost use Rattle.placed_book.specs.Book.{IsInOrder};
ghost use Rattle.place_search.specs.Areas.{is_looked_for};
ghost use Rattle.place_search.specs.Ids.{ListsIds};

mod search;
mod stop;

use inet_num::Block;
use ipam_data::kinds::Table;
use placed_book::{Located, PlacedBook};
use radix_tree::Tree;
use search::{is_crowded, push_tables, rising};
use std::alloc::{AllocError, Global};
use stop::Stop;

/// How many ids are looked up at most.
pub const MOST_CANDIDATES: u32 = 1_000;

/// Where the block of a row is to be.
#[derive(Clone, Copy)]
pub enum Area {
    /// It is this block.
    At(Block),
    /// It lies in this block, or is it.
    Inside(Block),
    /// It contains this block, or is it.
    Around(Block),
    /// It is any block.
    Anywhere,
}

/// The ids of the rows that are in one of the tables and whose block is in the area, rising, each once. `None` if it gives up:
/// more than `MOST_CANDIDATES` rows exist, or some block there occurs more than once in its table. A table that is not there has
/// no rows. The one error means out of memory.
pub fn ids_in<T: Located + Drop>(
    alloc: Global,
    book: &PlacedBook<T, Tree>,
    tables: &[Table],
    area: &Area,
) -> Result<Option<Vec<u32>>, AllocError>
    requires { IsInOrder T.placed book.now }
    ensures { IfOk result (λ found. IfSome found (λ v. ListsIds (is_looked_for tables.now area.now) (map T.placed book.now.rows) v.items)) }
{
    if is_crowded(book, tables, area) {
        return Ok(None);
    }
    let mut ids = Vec::new(alloc);
    match push_tables(&mut ids, alloc, book, tables, area) {
        Ok(()) => {}
        Err(Stop::Many) => return Ok(None),
        Err(Stop::Memory) => return Err(AllocError),
    }
    Ok(Some(rising(ids)?))
}
