//! Stored tables: rows as texts, the next ids, and changes of them.

ghost use Rattle.std.specs.Prelude.{◌≡◌, IfOk, string_bytes};

use crate::word::Word;
use ipam_data::kinds::Kind;
use ipam_data::update::Ids;
use std::alloc::{AllocError, Global};
use std::marker::Model;

/// What a text is made of. A fixed one has its word and not a `&'static str`: the borrow checker has no rule yet for some uses of a struct that
/// holds a reference.
#[derive(Debug, Drop)]
enum Characters {
    Fixed(Word),
    Owned(String),
}

/// A text. A contract sees its bytes.
#[derive(Debug, Drop)]
pub struct Text {
    characters: Characters,
}

impl Model for Text {
    ghost use Rattle.std.specs.Prelude.{List, ℕ};
    ghost use Rattle.stored_tables.specs.Characters.{text_bytes};

    ghost Value = { List ℕ };

    ghost view = { λ t. text_bytes t.characters };
}

impl Text {
    ghost use Rattle.stored_tables.specs.Characters.{word_text};

    /// The text of these characters. It takes no memory.
    pub fn of(string: String) -> Text
        ensures { result ≡ string_bytes string }
    {
        Text {
            characters: Characters::Owned(string),
        }
    }

    /// The text of a word. It takes no memory, nor does a copy of it.
    pub(crate) fn fixed(word: Word) -> Text
        ensures { result ≡ word_text word }
    {
        Text {
            characters: Characters::Fixed(word),
        }
    }

    /// The text as it is printed.
    pub fn as_str(&self) -> &str
        ensures { result.now ≡ self.now }
    {
        match &self.characters {
            Characters::Fixed(word) => word.as_str(),
            Characters::Owned(string) => string.as_str(),
        }
    }

    /// The characters in their own string. `Err` means out of memory.
    pub fn to_string(&self, alloc: Global) -> Result<String, AllocError>
        ensures { IfOk result (λ s. string_bytes s ≡ self.now) }
    {
        String::from_str(alloc, self.as_str())
    }

    /// The same text again. `Err` means out of memory.
    pub fn copy(&self) -> Result<Text, AllocError>
        ensures { IfOk result (λ t. t ≡ self.now) }
    {
        match &self.characters {
            Characters::Fixed(word) => Ok(Text::fixed(*word)),
            Characters::Owned(string) => Ok(Text::of(string.clone()?)),
        }
    }
}

/// The texts of a row in the order of its columns. A contract sees the list.
#[derive(Debug, Drop)]
pub struct Texts {
    items: Vec<Text>,
}

impl Model for Texts {
    ghost use Rattle.std.specs.Prelude.{List, ℕ};

    ghost Value = { List (List ℕ) };

    ghost view = { λ t. t.items.items };
}

impl Texts {
    /// The list of these. It takes no memory.
    pub fn of(items: Vec<Text>) -> Texts
        ensures { result ≡ items.items }
    {
        Texts { items }
    }

    /// The list as a slice, to be read.
    pub fn as_slice(&self) -> &[Text]
        ensures { result.now ≡ self.now }
    {
        self.items.as_slice()
    }

    /// The same texts again. `Err` means out of memory.
    pub fn copy(&self) -> Result<Texts, AllocError>
        ensures { IfOk result (λ t. t ≡ self.now) }
    {
        let mut items = Vec::with_capacity(*self.items.allocator(), self.items.len())?;
        for text in &self.items {
            items.push(text.copy()?)?;
        }
        Ok(Texts { items })
    }
}

/// A stored row: its kind, its id and the texts of its other columns.
#[derive(Debug, Drop)]
pub struct Row {
    pub kind: Kind,
    pub id: u32,
    pub fields: Texts,
}

impl Row {
    /// The same row again. `Err` means out of memory.
    pub fn copy(&self) -> Result<Row, AllocError>
        ensures { IfOk result (λ r. r ≡ self.now) }
    {
        Ok(Row {
            kind: self.kind,
            id: self.id,
            fields: self.fields.copy()?,
        })
    }
}

/// Stored rows in order. A contract sees the list.
#[derive(Debug, Drop)]
pub struct Rows {
    items: Vec<Row>,
}

impl Model for Rows {
    ghost use Rattle.std.specs.Prelude.{List};
    ghost use Rattle.stored_tables.specs.declared.tables.Row.{Row};

    ghost Value = { List Row };

    ghost view = { λ r. r.items.items };
}

impl Rows {
    /// The list of these. It takes no memory.
    pub fn of(items: Vec<Row>) -> Rows
        ensures { result ≡ items.items }
    {
        Rows { items }
    }

    /// The list as a slice, to be read.
    pub fn as_slice(&self) -> &[Row]
        ensures { result.now ≡ self.now }
    {
        self.items.as_slice()
    }

    /// The allocator of the rows.
    pub(crate) fn allocator(&self) -> Global {
        *self.items.allocator()
    }

    /// The vector again. It takes no memory.
    pub fn into_vec(self) -> Vec<Row>
        ensures { result.items ≡ self }
    {
        self.items
    }

    /// The same rows again. `Err` means out of memory.
    pub fn copy(&self) -> Result<Rows, AllocError>
        ensures { IfOk result (λ r. r ≡ self.now) }
    {
        let mut items = Vec::with_capacity(*self.items.allocator(), self.items.len())?;
        for row in &self.items {
            items.push(row.copy()?)?;
        }
        Ok(Rows { items })
    }
}

/// The version of the tables that a register reads and writes.
pub const VERSION: u32 = 2;

/// What a keeper holds: a version, the next id of each kind in the order of the kinds, and the rows in the order of their kinds
/// and ids.
#[derive(Debug, Drop)]
pub struct Tables {
    pub version: u32,
    pub next: Ids,
    pub rows: Rows,
}

impl Tables {
    /// The same tables again. `Err` means out of memory.
    pub fn copy(&self, alloc: Global) -> Result<Tables, AllocError>
        ensures { IfOk result (λ t. t ≡ self.now) }
    {
        Ok(Tables {
            version: self.version,
            next: self.next.copy(alloc)?,
            rows: self.rows.copy()?,
        })
    }
}

/// An edit of stored tables: the rows that are put or replaced, those that are removed, and next ids.
#[derive(Debug, Drop)]
pub struct Change {
    pub puts: Rows,
    pub cuts: Ids,
    pub next: Ids,
}
