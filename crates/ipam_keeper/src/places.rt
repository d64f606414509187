//! Lists that are in the order of a number that each element has: rows by kind and id, next ids by kind.

ghost use Rattle.std.specs.Prelude.{◌≡◌, ℕ, ◌+◌, ◌*◌, ◌<◌, ◌≤◌, None, IfOk, IfErr, fold, vec_len, vec_capacity};
ghost use Rattle.ipam_data.specs.RowList.{Rises, placed, without, row_at};
ghost use Rattle.stored_tables.specs.Stored.{kind_number, place_of, row_place, next_place, without_stored};
ghost use Rattle.placed_book.specs.RowBook.{place, IsAt};

use ipam_data::kinds::Kind;
use stored_tables::tables::Row;

/// What is in a list by a number from 1: its place, by which the list rises.
pub trait HasPlace {
    ghost number: { Self → ℕ };

    /// Its number.
    fn place(&self) -> u64
        ensures is { result ≡ number self.now }
        ensures low { 1 ≤ number self.now };
}

/// Where a row of this kind and id is among all rows: kinds in their order, ids rising within each.
pub fn place_among(kind: Kind, id: u32) -> u64
    ensures is { result ≡ place_of kind id }
    ensures low { 1 ≤ place_of kind id }
    ensures high { id < 4294967296 }
{
    kind.number() as u64 * 4294967296 + id as u64
}

impl HasPlace for Row {
    ghost number = { row_place };

    fn place(&self) -> u64 {
        place_among(self.kind, self.id)
    }
}

impl HasPlace for (Kind, u32) {
    ghost number = { next_place };

    fn place(&self) -> u64 {
        self.0.number() as u64
    }
}

/// The index of the element of this place, or that at which it would be, by halving.
fn search<T: HasPlace>(items: &[T], here: u64) -> Result<usize, usize>
    requires { Rises T.number 0 items.now }
    ensures found { IfOk result (λ k. IsAt T.number items.now here k) }
    ensures absent { IfErr result (λ k. (k ≡ place T.number here items.now) × (row_at T.number items.now here ≡ None)) }
{
    items.binary_search_by_key(&here, |item| item.place())
}

/// Puts an element in its place, which is given, or in the place of the one that it replaces. It takes no memory.
pub fn put<T: HasPlace + Drop>(items: &mut Vec<T>, here: u64, item: T)
    requires ordered { Rises T.number 0 items.old.items }
    requires room { vec_len items.old < vec_capacity items.old }
    requires here { here ≡ T.number item }
    requires low { 1 ≤ here }
    ensures items { items.new.items ≡ placed T.number items.old.items item }
    ensures ordered { Rises T.number 0 items.new.items }
    ensures len { vec_len items.new ≤ vec_len items.old + 1 }
    ensures capacity { vec_capacity items.new ≡ vec_capacity items.old }
{
    match search(items.as_slice(), here) {
        Ok(at) => {
            items[at] = item;
        }
        Err(at) => match items.insert(at, item) {
            Ok(()) => {}
            Err(_) => unreachable!(),
        },
    }
}

/// Puts elements, for which there is room, one after another. It takes no memory.
pub fn put_all<T: HasPlace + Drop>(items: &mut Vec<T>, news: Vec<T>)
    requires ordered { Rises T.number 0 items.old.items }
    requires room { vec_len items.old + vec_len news ≤ vec_capacity items.old }
    ensures items { items.new.items ≡ fold (placed T.number) items.old.items news.items }
    ensures ordered { Rises T.number 0 items.new.items }
{
    let mut rest = news.into_iter();
    while let Some(item) = rest.next() {
        let here = item.place();
        put(items, here, item);
    }
}

/// Takes the element of this place out, if there is one. It takes no memory.
pub fn cut<T: HasPlace + Drop>(items: &mut Vec<T>, here: u64)
    requires { Rises T.number 0 items.old.items }
    ensures items { items.new.items ≡ without T.number items.old.items here }
    ensures ordered { Rises T.number 0 items.new.items }
{
    match search(items.as_slice(), here) {
        Ok(at) => {
            items.remove(at);
        }
        Err(_) => {}
    }
}

/// Takes the rows of these kinds and ids out. It takes no memory.
pub fn cut_all(rows: &mut Vec<Row>, cuts: &[(Kind, u32)])
    requires { Rises row_place 0 rows.old.items }
    ensures rows { rows.new.items ≡ fold without_stored rows.old.items cuts.now }
    ensures ordered { Rises row_place 0 rows.new.items }
{
    for cut_id in cuts {
        cut(rows, place_among(cut_id.0, cut_id.1));
    }
}
