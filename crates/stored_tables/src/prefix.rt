//! Prefixes as they are stored, and as they are read again.

ghost use Rattle.std.specs.Prelude.{◌≡◌, ◌≤◌, ◌∷◌, [], IfOk, map};
ghost use Rattle.ipam_data.specs.declared.kinds.Kind.TheVariants as Kind;
ghost use Rattle.stored_tables.specs.Stored.{stored_prefix, stored_columns};
ghost use Rattle.stored_tables.specs.Reading.{IsRead, IsTypedPrefix, row_of};

use crate::columns::{read_block_text, read_flag, read_prefix_status, read_reference, read_text};
use crate::tables::{Row, Text, Texts};
use crate::writing::{block_words, flag_words, reference_words, status_words, words};
use ipam_data::kinds::Kind;
use ipam_data::prefix::Prefix;
use ipam_data::text::DescriptionBounds;
use std::alloc::{AllocError, Global};

/// The columns of prefixes past the id, in the order of their texts.
pub(crate) fn prefix_columns() -> &'static [&'static str]
    ensures { map (λ c. c.now) result.now ≡ stored_columns Kind.Prefixes }
{
    &[
        "prefix",
        "vrf",
        "status",
        "role",
        "is_pool",
        "mark_utilized",
        "description",
    ]
}

/// A prefix as it is stored.
#[tactic(auto, unfolding(crate::specs::Stored::prefix_texts))]
pub(crate) fn write_prefix(alloc: Global, row: &Prefix) -> Result<Row, AllocError>
    ensures { IfOk result (λ r. r ≡ stored_prefix row.now) }
{
    let mut fields = Vec::with_capacity(alloc, 7)?;
    fields.push(block_words(alloc, row.block)?)?;
    fields.push(reference_words(alloc, row.vrf)?)?;
    fields.push(status_words(row.status))?;
    fields.push(reference_words(alloc, row.role)?)?;
    fields.push(flag_words(row.is_pool))?;
    fields.push(flag_words(row.mark_utilized))?;
    fields.push(words(alloc, row.description.as_str())?)?;
    Ok(Row {
        kind: Kind::Prefixes,
        id: row.id,
        fields: Texts::of(fields),
    })
}

/// A prefix of an id and its texts. `Err` means out of memory.
pub(crate) fn read_prefix(
    alloc: Global,
    id: u32,
    fields: &[Text],
) -> Result<Option<Prefix>, AllocError>
    requires { 1 ≤ id }
    ensures { IfOk result (λ r. IsRead IsTypedPrefix stored_prefix (row_of Kind.Prefixes id fields.now) r) }
{
    if fields.len() != 7 {
        return Ok(None);
    }
    let [
        block,
        vrf,
        status,
        role,
        is_pool,
        mark_utilized,
        description,
    ] = fields
    else {
        return Ok(None);
    };
    let Some(block) = read_block_text(block) else {
        return Ok(None);
    };
    let Some(vrf) = read_reference(vrf) else {
        return Ok(None);
    };
    let Some(status) = read_prefix_status(status) else {
        return Ok(None);
    };
    let Some(role) = read_reference(role) else {
        return Ok(None);
    };
    let Some(is_pool) = read_flag(is_pool) else {
        return Ok(None);
    };
    let Some(mark_utilized) = read_flag(mark_utilized) else {
        return Ok(None);
    };
    let Some(description) = read_text::<DescriptionBounds>(alloc, description)? else {
        return Ok(None);
    };
    Ok(Some(Prefix {
        id,
        block,
        vrf,
        status,
        role,
        is_pool,
        mark_utilized,
        description,
    }))
}
