//! What all books of rows have in common.

ghost use Rattle.std.specs.Prelude.{◌≡◌, ℕ, ◌+◌, ◌^◌, ◌<◌, ◌≤◌, List, OnOk, OnErr, length, option_copied, slice_get};
ghost use Rattle.ipam_data.specs.RowList.{row_at, row_after, with_row, without, Rises};
ghost use Rattle.placed_book.specs.RowBook.{IsFitting};

use ipam_data::kinds::HasId;
use std::alloc::AllocError;

/// Rows in the order of their ids, each id once, with room for more. What changes a book after its room is taken takes no memory
/// and can't fail: `reserve` alone takes memory.
pub trait Book: Sized {
    /// What the rows are.
    type Item: HasId;

    /// The rows in the order of their ids.
    ghost rows: { Self → List Self.Item };

    /// How many more rows can be put without taking memory.
    ghost spare: { Self → ℕ };

    /// How many rows there are: fewer than 2^30. Their ids rise.
    fn len(&self) -> u32
        ensures len { result ≡ length (rows self.now) }
        ensures few { length (rows self.now) < 2 ^ 30 }
        ensures ordered { Rises Self.Item.id_of 0 (rows self.now) };

    /// The row at an index, in the order of their ids.
    fn at(&self, index: u32) -> Option<&Self::Item>
        ensures { option_copied result ≡ slice_get (rows self.now) index };

    /// The row of this id.
    fn get(&self, id: u32) -> Option<&Self::Item>
        ensures { option_copied result ≡ row_at Self.Item.id_of (rows self.now) id };

    /// The row of the least id above this one.
    fn after(&self, id: u32) -> Option<&Self::Item>
        ensures { option_copied result ≡ row_after Self.Item.id_of (rows self.now) id };

    /// Makes room for `n` more rows. `Err` means out of memory, and does not change the book.
    fn reserve(&mut self, n: u32) -> Result<(), AllocError>
        requires { length (rows self.old) + n < 2 ^ 30 }
        ensures rows { rows self.new ≡ rows self.old }
        ensures ok { OnOk result (n ≤ spare self.new) }
        ensures kept { spare self.old ≤ spare self.new }
        ensures err { OnErr result (self.new ≡ self.old) };

    /// Puts the row in the place of the one of its id, or else after all: its id is then above all others. It takes no
    /// memory, and uses up at most one row's room.
    fn put(&mut self, row: Self::Item)
        requires room { 1 ≤ spare self.old }
        requires id { 1 ≤ Self.Item.id_of row }
        requires fits { IsFitting Self.Item.id_of (rows self.old) row }
        ensures rows { rows self.new ≡ with_row Self.Item.id_of (rows self.old) row }
        ensures spare { spare self.old ≤ spare self.new + 1 };

    /// Takes the row of this id out, and hands it out; `None` if there is none. It leaves the room.
    fn cut(&mut self, id: u32) -> Option<Self::Item>
        ensures row { result ≡ row_at Self.Item.id_of (rows self.old) id }
        ensures rows { rows self.new ≡ without Self.Item.id_of (rows self.old) id }
        ensures spare { spare self.old ≤ spare self.new };
}

/// A law: the ids of a book's rows rise, and there are fewer than 2^30 of them.
pub fn in_order<B: Book>(book: &B)
    ensures few { length (B.rows book.now) < 2 ^ 30 }
    ensures ordered { Rises B.Item.id_of 0 (B.rows book.now) }
{
    let _len = book.len();
}
