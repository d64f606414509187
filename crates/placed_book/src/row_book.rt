//! A book of rows side by side, in the order of their ids.

ghost use Rattle.std.specs.Prelude.{◌≡◌, ℕ, [], None, IfSome, IfNone};
ghost use Rattle.ipam_data.specs.RowList.{row_at, Rises};
ghost use Rattle.placed_book.specs.RowBook.{place, IsAt};

use crate::contract::Book;
use ipam_data::kinds::HasId;
use std::alloc::{AllocError, Global};
use std::marker::Model;

/// How many rows at the front have ids below the number, by halving. The number may be one above the greatest `u32`.
pub fn seek<T: HasId>(items: &[T], id: u64) -> usize
    requires { Rises T.id_of 0 items.now }
    ensures { result ≡ place T.id_of id items.now }
{
    let mut low = 0;
    let mut high = items.len();
    while low < high {
        let middle = low + (high - low) / 2;
        if (items[middle].id() as u64) < id {
            low = middle + 1;
        } else {
            high = middle;
        }
    }
    low
}

/// The index of the row of an id.
pub fn found<T: HasId>(items: &[T], id: u32) -> Option<usize>
    requires { Rises T.id_of 0 items.now }
    ensures at { IfSome result (λ k. IsAt T.id_of items.now id k) }
    ensures none { IfNone result (row_at T.id_of items.now id ≡ None) }
{
    let at = seek(items, id as u64);
    if at == items.len() {
        return None;
    }
    if items[at].id() == id {
        return Some(at);
    }
    None
}

/// Rows in the order of their ids, each id once, with room for more.
///
/// A contract sees the rows and the spare: how many more rows can be put without taking memory.
#[derive(Drop)]
pub struct RowBook<T: HasId> {
    items: Vec<T>,
    spare: u32,
}

impl<T: HasId> Model for RowBook<T> {
    ghost use Rattle.std.specs.Prelude.{◌+◌, ◌≤◌, ◌<◌, ◌^◌, vec_len, vec_capacity};
    ghost use Rattle.ipam_data.specs.RowList.{Rises};
    ghost use Rattle.placed_book.specs.RowBook.{Book, book_code};

    ghost Value = { Book T };

    ghost coded = { book_code T.code };

    ghost view = { λ r. record { rows = r.items.items; spare = r.spare } };

    ghost invariant = { λ r. Rises T.id_of 0 r.items.items × (vec_len r.items + r.spare ≤ vec_capacity r.items) × (vec_len r.items + r.spare < 2 ^ 30) };
}

impl<T: HasId> RowBook<T> {
    /// A book without rows and without room. It takes no memory.
    pub fn new(alloc: Global) -> RowBook<T>
        ensures { result ≡ record { rows = []; spare = 0 } }
    {
        RowBook {
            items: Vec::new(alloc),
            spare: 0,
        }
    }

    /// The rows in the order of their ids.
    pub fn rows(&self) -> &[T]
        ensures rows { result.now ≡ self.now.rows }
        ensures ordered { Rises T.id_of 0 self.now.rows }
    {
        self.items.as_slice()
    }
}

/// Each row is found by halving, and is next to the next one.
impl<T: HasId + Drop> Book for RowBook<T> {
    type Item = T;

    ghost rows = { λ b. b.rows };

    ghost spare = { λ b. b.spare };

    fn len(&self) -> u32 {
        self.items.len() as u32
    }

    fn at(&self, index: u32) -> Option<&T> {
        self.items.get(index as usize)
    }

    fn get(&self, id: u32) -> Option<&T> {
        match found(self.items.as_slice(), id) {
            Some(at) => Some(&self.items[at]),
            None => None,
        }
    }

    fn after(&self, id: u32) -> Option<&T> {
        let at = seek(self.items.as_slice(), id as u64 + 1);
        if at < self.items.len() {
            return Some(&self.items[at]);
        }
        None
    }

    fn reserve(&mut self, n: u32) -> Result<(), AllocError> {
        self.items.reserve(n as usize)?;
        if self.spare < n {
            self.spare = n;
        }
        Ok(())
    }

    fn put(&mut self, row: T) {
        match found(self.items.as_slice(), row.id()) {
            Some(at) => {
                self.items[at] = row;
            }
            None => {
                self.spare -= 1;
                self.items.push_reserved(row);
            }
        }
    }

    fn cut(&mut self, id: u32) -> Option<T> {
        match found(self.items.as_slice(), id) {
            Some(at) => Some(self.items.remove(at)),
            None => None,
        }
    }
}
