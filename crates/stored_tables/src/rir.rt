//! RIRs as they are stored, and as they are read again.

ghost use Rattle.std.specs.Prelude.{◌≡◌, ◌≤◌, ◌∷◌, [], IfOk, map};
ghost use Rattle.ipam_data.specs.declared.kinds.Kind.TheVariants as Kind;
ghost use Rattle.stored_tables.specs.Stored.{stored_rir, stored_columns};
ghost use Rattle.stored_tables.specs.Reading.{IsRead, IsTypedRir, row_of};

use crate::columns::{read_flag, read_text};
use crate::tables::{Row, Text, Texts};
use crate::writing::{flag_words, words};
use ipam_data::kinds::Kind;
use ipam_data::rir::Rir;
use ipam_data::text::{DescriptionBounds, NameBounds, SlugBounds};
use std::alloc::{AllocError, Global};

/// The columns of RIRs past the id, in the order of their texts.
pub(crate) fn rir_columns() -> &'static [&'static str]
    ensures { map (λ c. c.now) result.now ≡ stored_columns Kind.Rirs }
{
    &["name", "slug", "is_private", "description"]
}

/// An RIR as it is stored.
#[tactic(auto, unfolding(crate::specs::Stored::rir_texts))]
pub(crate) fn write_rir(alloc: Global, row: &Rir) -> Result<Row, AllocError>
    ensures { IfOk result (λ r. r ≡ stored_rir row.now) }
{
    let mut fields = Vec::with_capacity(alloc, 4)?;
    fields.push(words(alloc, row.name.as_str())?)?;
    fields.push(words(alloc, row.slug.as_str())?)?;
    fields.push(flag_words(row.is_private))?;
    fields.push(words(alloc, row.description.as_str())?)?;
    Ok(Row {
        kind: Kind::Rirs,
        id: row.id,
        fields: Texts::of(fields),
    })
}

/// An RIR of an id and its texts. `Err` means out of memory.
pub(crate) fn read_rir(alloc: Global, id: u32, fields: &[Text]) -> Result<Option<Rir>, AllocError>
    requires { 1 ≤ id }
    ensures { IfOk result (λ r. IsRead IsTypedRir stored_rir (row_of Kind.Rirs id fields.now) r) }
{
    if fields.len() != 4 {
        return Ok(None);
    }
    let [name, slug, is_private, description] = fields else {
        return Ok(None);
    };
    let Some(name) = read_text::<NameBounds>(alloc, name)? else {
        return Ok(None);
    };
    let Some(slug) = read_text::<SlugBounds>(alloc, slug)? else {
        return Ok(None);
    };
    let Some(is_private) = read_flag(is_private) else {
        return Ok(None);
    };
    let Some(description) = read_text::<DescriptionBounds>(alloc, description)? else {
        return Ok(None);
    };
    Ok(Some(Rir {
        id,
        name,
        slug,
        is_private,
        description,
    }))
}
