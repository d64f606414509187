//! Rows of lawful pools, all at once.

ghost use Rattle.std.specs.Prelude.{◌≡◌, ℕ, [], ◌≤◌, ◌<◌, ◌^◌, IfOk, OnOk, length};
ghost use Rattle.ipam_data.specs.RowList.{AllBelow, Rises, with_row};
ghost use Rattle.number_pools.specs.Rows.{range_id};

use number_pools::{MOST_HELD, NumberRange};
use placed_book::{Book, RowBook};
use std::alloc::{AllocError, Global};

/// The book of ranges whose ids rise. `Err` means out of memory, or more rows than can be held.
pub(crate) fn book_of(
    alloc: Global,
    rows: Vec<NumberRange>,
) -> Result<RowBook<NumberRange>, AllocError>
    requires { Rises range_id 0 rows.items }
    ensures rows { IfOk result (λ b. b.rows ≡ rows.items) }
    ensures few { IfOk result (λ b. length rows.items ≤ MOST_HELD) }
{
    let mut book = RowBook::new(alloc);
    if rows.len() > MOST_HELD {
        drop(rows);
        drop(book);
        return Err(AllocError);
    }
    book.reserve(rows.len() as u32)?;
    put_all(&mut book, rows);
    Ok(book)
}

/// Puts ranges whose ids rise into an empty book. It takes no memory.
fn put_all(book: &mut RowBook<NumberRange>, rows: Vec<NumberRange>)
    requires rises { Rises range_id 0 rows.items }
    requires empty { book.old.rows ≡ [] }
    requires room { length rows.items ≤ book.old.spare }
    ensures { book.new.rows ≡ rows.items }
{
    let mut rest = rows.into_iter();
    'row: while let Some(row) = rest.next() {
        book.put(row);
    }
}
