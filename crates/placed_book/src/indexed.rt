//! A book of rows for the kinds that have hundreds of thousands. The rows are in slots in no order, and an index of ids and
//! slots, 8 bytes a row, is what moves when a row is taken out.

ghost use Rattle.std.specs.Prelude.{◌≡◌, ℕ, [], option_copied, slice_get, vec_capacity};
ghost use Rattle.ipam_data.specs.RowList.{Rises};
ghost use Rattle.placed_book.specs.Indexed.{entry_id, resettled, IsOnlyFor};

use crate::contract::Book;
use crate::row_book::{found, seek};
use ipam_data::kinds::HasId;
use std::alloc::{AllocError, Global};
use std::marker::Model;

/// An id, and the slot of its row.
#[derive(Clone, Copy)]
struct Entry {
    id: u32,
    slot: u32,
}

impl HasId for Entry {
    ghost id_of = { λ e. e.id };

    fn id(&self) -> u32 {
        self.id
    }
}

/// The item at an index.
fn item<T>(items: &[T], index: usize) -> Option<&T>
    ensures { option_copied result ≡ slice_get items.now index }
{
    items.get(index)
}

/// The entry of a row that moves from one slot to another names the other one from now on. The id is that of the row; if
/// another slot has it, no entry names the first slot.
fn resettle(index: &mut Vec<Entry>, id: u32, from: u32, to: u32)
    requires ordered { Rises entry_id 0 index.old.items }
    requires only { IsOnlyFor id from index.old.items }
    ensures items { index.new.items ≡ resettled from to index.old.items }
    ensures capacity { vec_capacity index.new ≡ vec_capacity index.old }
{
    if let Some(at) = found(index.as_slice(), id) {
        if index[at].slot == from {
            index[at] = Entry { id, slot: to };
        }
    }
}

/// Rows in the order of their ids, each id once, with room for more.
///
/// A contract sees the rows and the spare: how many more rows can be put without taking memory.
#[derive(Drop)]
pub struct IndexedBook<T: HasId> {
    index: Vec<Entry>,
    slots: Vec<T>,
    spare: u32,
}

impl<T: HasId> Model for IndexedBook<T> {
    ghost use Rattle.std.specs.Prelude.{◌≡◌, ◌+◌, ◌≤◌, ◌<◌, ◌^◌, vec_len, vec_capacity};
    ghost use Rattle.ipam_data.specs.RowList.{Rises};
    ghost use Rattle.placed_book.specs.RowBook.{Book, book_code};

    ghost Value = { Book T };

    ghost coded = { book_code T.code };

    ghost use Rattle.placed_book.specs.Indexed.{rows_of, AreKept, entry_id};

    ghost view = { λ b. record { rows = rows_of b.slots.items b.index.items; spare = b.spare } };

    ghost invariant = { λ b. Rises entry_id 0 b.index.items × AreKept T.id_of b.slots.items b.index.items × (vec_len b.index + b.spare ≤ vec_capacity b.index) × (vec_len b.slots ≡ vec_len b.index) × (vec_len b.slots + b.spare ≤ vec_capacity b.slots) × (vec_len b.index + b.spare < 2 ^ 30) };
}

impl<T: HasId> IndexedBook<T> {
    /// A book without rows and without room. It takes no memory.
    pub fn new(alloc: Global) -> IndexedBook<T>
        ensures { result ≡ record { rows = []; spare = 0 } }
    {
        IndexedBook {
            index: Vec::new(alloc),
            slots: Vec::new(alloc),
            spare: 0,
        }
    }
}

/// Each row is found by halving the index.
impl<T: HasId + Drop> Book for IndexedBook<T> {
    type Item = T;

    ghost rows = { λ b. b.rows };

    ghost spare = { λ b. b.spare };

    fn len(&self) -> u32 {
        self.index.len() as u32
    }

    fn at(&self, index: u32) -> Option<&T> {
        match item(&self.index, index as usize) {
            Some(entry) => item(&self.slots, entry.slot as usize),
            None => None,
        }
    }

    fn get(&self, id: u32) -> Option<&T> {
        match found(self.index.as_slice(), id) {
            Some(at) => item(&self.slots, self.index[at].slot as usize),
            None => None,
        }
    }

    fn after(&self, id: u32) -> Option<&T> {
        let at = seek(self.index.as_slice(), id as u64 + 1);
        if at < self.index.len() {
            return item(&self.slots, self.index[at].slot as usize);
        }
        None
    }

    fn reserve(&mut self, n: u32) -> Result<(), AllocError> {
        self.index.reserve(n as usize)?;
        self.slots.reserve(n as usize)?;
        if self.spare < n {
            self.spare = n;
        }
        Ok(())
    }

    fn put(&mut self, row: T) {
        let id = row.id();
        match found(self.index.as_slice(), id) {
            Some(at) => {
                let slot = self.index[at].slot as usize;
                self.slots[slot] = row;
            }
            None => {
                self.spare -= 1;
                let slot = self.slots.len() as u32;
                self.index.push_reserved(Entry { id, slot });
                self.slots.push_reserved(row);
            }
        }
    }

    fn cut(&mut self, id: u32) -> Option<T> {
        match found(self.index.as_slice(), id) {
            Some(at) => {
                let gone = self.index.remove(at);
                // The row of the last slot takes the place of the one that goes.
                let last = self.slots.len() - 1;
                let moved = self.slots[last].id();
                resettle(&mut self.index, moved, last as u32, gone.slot);
                Some(self.slots.swap_remove(gone.slot as usize))
            }
            None => None,
        }
    }
}
