//! Changes of a register, each a line of text.

use crate::many::{imported, many_ranges, many_vrfs, odd_rows, sparse_rows};
use crate::words::{number_of, part, text_of};
use ipam_data::kinds::Kind;
use ipam_data::update::Ids;
use std::alloc::{AllocError, Global};
use stored_tables::tables::{Change, Row, Rows, Texts};

/// The kind of this name. Another name fails as for lack of memory.
fn kind_of(name: Option<&str>) -> Result<Kind, AllocError> {
    match name.unwrap_or("") {
        "vrfs" => Ok(Kind::Vrfs),
        "rirs" => Ok(Kind::Rirs),
        "roles" => Ok(Kind::Roles),
        "aggregates" => Ok(Kind::Aggregates),
        "prefixes" => Ok(Kind::Prefixes),
        "ip-ranges" => Ok(Kind::Ranges),
        "ip-addresses" => Ok(Kind::Addresses),
        _ => Err(AllocError),
    }
}

/// A row of these words: its kind, its id and its fields.
fn row_of(alloc: Global, words: &str) -> Result<Row, AllocError> {
    let mut fields = Vec::new(alloc);
    for word in words.split(',').skip(2) {
        fields.push(text_of(alloc, word)?)?;
    }
    Ok(Row {
        kind: kind_of(words.split(',').next())?,
        id: number_of(words.split(',').nth(1))?,
        fields: Texts::of(fields),
    })
}

/// The rows of these texts: `many` VRFs, many `ranges`, an `import`, rows with `sparse` ids, with `odd` texts, or those that are written out.
fn rows_of(alloc: Global, text: &str) -> Result<Rows, AllocError> {
    let rows = match text {
        "many" => many_vrfs(alloc)?,
        "ranges" => many_ranges(alloc)?,
        "import" => imported(alloc)?,
        "sparse" => sparse_rows(alloc)?,
        "odd" => odd_rows(alloc)?,
        _ => written_rows(alloc, text)?,
    };
    Ok(Rows::of(rows))
}

/// Puts the row of these words, if there are any.
fn put_row(alloc: Global, rows: &mut Vec<Row>, words: &str) -> Result<(), AllocError> {
    if words.is_empty() {
        return Ok(());
    }
    rows.push(row_of(alloc, words)?)?;
    Ok(())
}

/// The rows that are written out, each after a semicolon but the first.
fn written_rows(alloc: Global, text: &str) -> Result<Vec<Row>, AllocError> {
    let mut rows = Vec::new(alloc);
    for words in text.split(';') {
        put_row(alloc, &mut rows, words)?;
    }
    Ok(rows)
}

/// Puts the number of these words with its kind, if there are any.
fn put_id(ids: &mut Vec<(Kind, u32)>, words: &str) -> Result<(), AllocError> {
    if words.is_empty() {
        return Ok(());
    }
    let kind = kind_of(words.split(',').next())?;
    ids.push((kind, number_of(words.split(',').nth(1))?))?;
    Ok(())
}

/// The numbers of these texts, each with its kind.
fn ids_of(alloc: Global, text: &str) -> Result<Ids, AllocError> {
    let mut ids = Vec::new(alloc);
    for words in text.split(';') {
        put_id(&mut ids, words)?;
    }
    Ok(Ids::of(ids))
}

/// The change of a line: after its first bar the rows that are put, after the second one the ids that are removed, and then the next ids.
pub(crate) fn change_of(alloc: Global, line: &str) -> Result<Change, AllocError> {
    Ok(Change {
        puts: rows_of(alloc, part(line, 1)?)?,
        cuts: ids_of(alloc, part(line, 2)?)?,
        next: ids_of(alloc, part(line, 3)?)?,
    })
}
