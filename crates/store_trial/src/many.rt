//! Rows of a register that are many, or have much in them.

use ipam_data::kinds::Kind;
use std::alloc::{AllocError, Global};
use stored_tables::tables::{Row, Text, Texts};
use stored_tables::writing::column_names;

/// How many VRFs are many.
const MANY: u32 = 1_100;

/// How many ranges are many.
pub(crate) const MANY_RANGES: u32 = 5_001;

/// How many prefixes are imported at once.
const IMPORTED: u32 = 4_200;

/// The characters of a long text.
const LONG: u32 = 200;

/// Ids far from one another, up to the greatest one, and those around which a number of fewer bits ends.
const SPARSE: [u32; 14] = [
    127,
    128,
    255,
    256,
    32_767,
    32_768,
    65_535,
    65_536,
    65_537,
    16_777_216,
    2_147_483_647,
    2_147_483_648,
    4_294_967_293,
    4_294_967_294,
];

/// The kinds in order.
const KINDS: [Kind; 7] = [
    Kind::Vrfs,
    Kind::Rirs,
    Kind::Roles,
    Kind::Aggregates,
    Kind::Prefixes,
    Kind::Ranges,
    Kind::Addresses,
];

/// A text of so many characters, one to four bytes each.
fn long_text(alloc: Global) -> Result<String, AllocError> {
    let mut text = String::new(alloc);
    for at in 0..LONG {
        text.push_str(match at % 4 {
            0 => "a",
            1 => "é",
            2 => "東",
            _ => "🦀",
        })?;
    }
    Ok(text)
}

/// A text that is easily stored as another one.
fn odd_text(alloc: Global, number: usize) -> Result<Text, AllocError> {
    let text = match number % 7 {
        0 => String::from_str(alloc, "  two blanks at each end  ")?,
        1 => String::from_str(alloc, "'single' \"double\" `back` ''")?,
        2 => String::from_str(alloc, "before\0behind\0")?,
        3 => long_text(alloc)?,
        4 => String::from_str(alloc, "Zürich, 東京 🦀")?,
        5 => String::new(alloc),
        _ => String::from_str(alloc, "\t?1 -- x'00' %_\\")?,
    };
    Ok(Text::of(text))
}

/// A row whose columns have odd texts, no two side by side the same one.
fn odd_row(alloc: Global, kind: Kind, id: u32) -> Result<Row, AllocError> {
    let mut fields = Vec::new(alloc);
    for column in 0..column_names(kind).len() {
        fields.push(odd_text(alloc, column.saturating_add(id as usize))?)?;
    }
    Ok(Row {
        kind,
        id,
        fields: Texts::of(fields),
    })
}

/// Puts rows of a kind: each column has each of the odd texts in one of them.
fn put_odd(alloc: Global, rows: &mut Vec<Row>, kind: Kind) -> Result<(), AllocError> {
    for id in 1..8u32 {
        rows.push(odd_row(alloc, kind, id)?)?;
    }
    Ok(())
}

/// Such rows of each kind.
pub(crate) fn odd_rows(alloc: Global) -> Result<Vec<Row>, AllocError> {
    let mut rows = Vec::new(alloc);
    for kind in KINDS {
        put_odd(alloc, &mut rows, kind)?;
    }
    Ok(rows)
}

/// A row each of whose columns has its own text.
fn own_row(alloc: Global, kind: Kind, id: u32) -> Result<Row, AllocError> {
    let mut fields = Vec::new(alloc);
    for column in column_names(kind) {
        fields.push(Text::of(format!(in alloc; "{column} of {id}")?))?;
    }
    Ok(Row {
        kind,
        id,
        fields: Texts::of(fields),
    })
}

/// Puts rows of a kind under ids far from one another.
fn put_sparse(alloc: Global, rows: &mut Vec<Row>, kind: Kind) -> Result<(), AllocError> {
    for id in SPARSE {
        rows.push(own_row(alloc, kind, id)?)?;
    }
    Ok(())
}

/// Such rows of each kind.
pub(crate) fn sparse_rows(alloc: Global) -> Result<Vec<Row>, AllocError> {
    let mut rows = Vec::new(alloc);
    for kind in KINDS {
        put_sparse(alloc, &mut rows, kind)?;
    }
    Ok(rows)
}

/// A row whose columns have next to nothing in them.
fn short_row(alloc: Global, kind: Kind, id: u32) -> Result<Row, AllocError> {
    let mut fields = Vec::new(alloc);
    for _ in column_names(kind) {
        fields.push(Text::of(format!(in alloc; "{}", id % 10)?))?;
    }
    Ok(Row {
        kind,
        id,
        fields: Texts::of(fields),
    })
}

/// Many short rows of a kind, their ids from `first` on.
fn rows_from(alloc: Global, kind: Kind, first: u32, count: u32) -> Result<Vec<Row>, AllocError> {
    let mut rows = Vec::new(alloc);
    for number in 0..count {
        rows.push(short_row(alloc, kind, first.saturating_add(number))?)?;
    }
    Ok(rows)
}

/// Many VRFs.
pub(crate) fn many_vrfs(alloc: Global) -> Result<Vec<Row>, AllocError> {
    rows_from(alloc, Kind::Vrfs, 100, MANY)
}

/// Many ranges.
pub(crate) fn many_ranges(alloc: Global) -> Result<Vec<Row>, AllocError> {
    rows_from(alloc, Kind::Ranges, 1, MANY_RANGES)
}

/// An import.
pub(crate) fn imported(alloc: Global) -> Result<Vec<Row>, AllocError> {
    rows_from(alloc, Kind::Prefixes, 1, IMPORTED)
}
