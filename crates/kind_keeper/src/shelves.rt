//! A list of rows for each kind.

ghost use Rattle.std.specs.Prelude.{◌≡◌, ◌+◌, ◌<◌, [], ◌∷◌, ◌++◌, List, fold, IfOk, OnOk, count_by};
ghost use Rattle.ipam_data.specs.RowList.{placed};
ghost use Rattle.stored_tables.specs.declared.tables.Row.{Row as StoredRow};
ghost use Rattle.stored_tables.specs.Stored.{kind_number, row_place, without_stored};
ghost use Rattle.kind_keeper.specs.Shelves.{all_rows, is_numbered, AreShelves, HaveRoom};

use ipam_data::kinds::Kind;
use ipam_keeper::places::{cut, place_among, put};
use std::alloc::{AllocError, Global};
use stored_tables::tables::{Row, Rows};

/// Seven lists without rows.
pub(crate) fn empty_shelves(alloc: Global) -> Result<Vec<Vec<Row>>, AllocError>
    ensures shelves { IfOk result (λ v. AreShelves v.items) }
    ensures rows { IfOk result (λ v. all_rows v.items ≡ []) }
{
    let mut shelves = Vec::new(alloc);
    shelves.push(Vec::new(alloc))?;
    shelves.push(Vec::new(alloc))?;
    shelves.push(Vec::new(alloc))?;
    shelves.push(Vec::new(alloc))?;
    shelves.push(Vec::new(alloc))?;
    shelves.push(Vec::new(alloc))?;
    shelves.push(Vec::new(alloc))?;
    Ok(shelves)
}

/// Which list is that of a kind.
fn shelf_of(kind: Kind) -> usize
    ensures is { result + 1 ≡ kind_number kind }
    ensures seven { result < 7 }
{
    kind.number() as usize - 1
}

/// How many of the rows are of the kind of this number.
fn count(rows: &[Row], number: usize) -> usize
    ensures { result ≡ count_by (is_numbered number) rows.now }
{
    rows.iter()
        .filter(|row| row.kind.number() as usize == number)
        .count()
}

/// Makes room for these rows in the lists of their kinds. `Err` means out of memory. It leaves the rows.
pub(crate) fn reserve(shelves: &mut Vec<Vec<Row>>, puts: &[Row]) -> Result<(), AllocError>
    requires { AreShelves shelves.old.items }
    ensures room { OnOk result (HaveRoom puts.now shelves.new.items) }
    ensures shelves { AreShelves shelves.new.items }
    ensures rows { all_rows shelves.new.items ≡ all_rows shelves.old.items }
{
    for at in 0..shelves.len() {
        let more = count(puts, at + 1);
        shelves[at].reserve(more)?;
    }
    Ok(())
}

/// Puts a row in its place among those of its kind, if there is room. It takes no memory.
fn put_row(shelves: &mut Vec<Vec<Row>>, row: Row)
    requires shelves { AreShelves shelves.old.items }
    requires room { HaveRoom (row ∷ []) shelves.old.items }
    ensures rows { all_rows shelves.new.items ≡ placed row_place (all_rows shelves.old.items) row }
    ensures shelves { AreShelves shelves.new.items }
    ensures room { (rest : List StoredRow) → HaveRoom (row ∷ rest) shelves.old.items → HaveRoom rest shelves.new.items }
{
    let at = shelf_of(row.kind);
    let here = place_among(row.kind, row.id);
    put(&mut shelves[at], here, row);
}

/// Puts rows, for which there is room, one after another. It takes no memory.
pub(crate) fn put_rows(shelves: &mut Vec<Vec<Row>>, puts: Vec<Row>)
    requires shelves { AreShelves shelves.old.items }
    requires room { HaveRoom puts.items shelves.old.items }
    ensures rows { all_rows shelves.new.items ≡ fold (placed row_place) (all_rows shelves.old.items) puts.items }
    ensures shelves { AreShelves shelves.new.items }
{
    let mut rest = puts.into_iter();
    while let Some(row) = rest.next() {
        put_row(shelves, row);
    }
}

/// Takes the row of this kind and id out, if there is one.
fn cut_row(shelves: &mut Vec<Vec<Row>>, kind: Kind, id: u32)
    requires { AreShelves shelves.old.items }
    ensures rows { all_rows shelves.new.items ≡ without_stored (all_rows shelves.old.items) (kind, id) }
    ensures shelves { AreShelves shelves.new.items }
{
    let at = shelf_of(kind);
    let here = place_among(kind, id);
    cut(&mut shelves[at], here);
}

/// Takes the rows of these kinds and ids out.
pub(crate) fn cut_rows(shelves: &mut Vec<Vec<Row>>, cuts: &[(Kind, u32)])
    requires { AreShelves shelves.old.items }
    ensures rows { all_rows shelves.new.items ≡ fold without_stored (all_rows shelves.old.items) cuts.now }
    ensures shelves { AreShelves shelves.new.items }
{
    for cut_id in cuts {
        cut_row(shelves, cut_id.0, cut_id.1);
    }
}

/// The same rows again, after those of the list.
fn copy_onto(items: &mut Vec<Row>, rows: &[Row]) -> Result<(), AllocError>
    ensures { OnOk result (items.new.items ≡ items.old.items ++ rows.now) }
{
    items.reserve(rows.len())?;
    for row in rows {
        items.push(row.copy()?)?;
    }
    Ok(())
}

/// All rows again, in one list.
pub(crate) fn copy_rows(shelves: &Vec<Vec<Row>>) -> Result<Rows, AllocError>
    ensures { IfOk result (λ r. r ≡ all_rows shelves.now.items) }
{
    let mut items = Vec::new(*shelves.allocator());
    for shelf in shelves {
        copy_onto(&mut items, shelf.as_slice())?;
    }
    Ok(Rows::of(items))
}
