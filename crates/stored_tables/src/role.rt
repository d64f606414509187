//! Roles as they are stored, and as they are read again.

ghost use Rattle.std.specs.Prelude.{◌≡◌, ◌≤◌, ◌∷◌, [], IfOk, map};
ghost use Rattle.ipam_data.specs.declared.kinds.Kind.TheVariants as Kind;
ghost use Rattle.stored_tables.specs.Stored.{stored_role, stored_columns};
ghost use Rattle.stored_tables.specs.Reading.{IsRead, IsTypedRole, row_of};

use crate::columns::{read_text, read_weight};
use crate::tables::{Row, Text, Texts};
use crate::writing::{number_words, words};
use ipam_data::kinds::Kind;
use ipam_data::role::Role;
use ipam_data::text::{DescriptionBounds, NameBounds, SlugBounds};
use std::alloc::{AllocError, Global};

/// The columns of roles past the id, in the order of their texts.
pub(crate) fn role_columns() -> &'static [&'static str]
    ensures { map (λ c. c.now) result.now ≡ stored_columns Kind.Roles }
{
    &["name", "slug", "weight", "description"]
}

/// A role as it is stored.
#[tactic(auto, unfolding(crate::specs::Stored::role_texts))]
pub(crate) fn write_role(alloc: Global, row: &Role) -> Result<Row, AllocError>
    ensures { IfOk result (λ r. r ≡ stored_role row.now) }
{
    let mut fields = Vec::with_capacity(alloc, 4)?;
    fields.push(words(alloc, row.name.as_str())?)?;
    fields.push(words(alloc, row.slug.as_str())?)?;
    fields.push(number_words(alloc, row.weight.get() as u32)?)?;
    fields.push(words(alloc, row.description.as_str())?)?;
    Ok(Row {
        kind: Kind::Roles,
        id: row.id,
        fields: Texts::of(fields),
    })
}

/// A role of an id and its texts. `Err` means out of memory.
pub(crate) fn read_role(alloc: Global, id: u32, fields: &[Text]) -> Result<Option<Role>, AllocError>
    requires { 1 ≤ id }
    ensures { IfOk result (λ r. IsRead IsTypedRole stored_role (row_of Kind.Roles id fields.now) r) }
{
    if fields.len() != 4 {
        return Ok(None);
    }
    let [name, slug, weight, description] = fields else {
        return Ok(None);
    };
    let Some(name) = read_text::<NameBounds>(alloc, name)? else {
        return Ok(None);
    };
    let Some(slug) = read_text::<SlugBounds>(alloc, slug)? else {
        return Ok(None);
    };
    let Some(weight) = read_weight(weight) else {
        return Ok(None);
    };
    let Some(description) = read_text::<DescriptionBounds>(alloc, description)? else {
        return Ok(None);
    };
    Ok(Some(Role {
        id,
        name,
        slug,
        weight,
        description,
    }))
}
