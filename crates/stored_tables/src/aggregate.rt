//! Aggregates as they are stored, and as they are read again.

ghost use Rattle.std.specs.Prelude.{◌≡◌, ◌≤◌, ◌∷◌, [], IfOk, map};
ghost use Rattle.ipam_data.specs.declared.kinds.Kind.TheVariants as Kind;
ghost use Rattle.stored_tables.specs.Stored.{stored_aggregate, stored_columns};
ghost use Rattle.stored_tables.specs.Reading.{IsRead, IsTypedAggregate, row_of};

use crate::columns::{read_block_text, read_number, read_text};
use crate::tables::{Row, Text, Texts};
use crate::writing::{block_words, number_words, words};
use ipam_data::aggregate::Aggregate;
use ipam_data::kinds::Kind;
use ipam_data::text::DescriptionBounds;
use std::alloc::{AllocError, Global};

/// The columns of aggregates past the id, in the order of their texts.
pub(crate) fn aggregate_columns() -> &'static [&'static str]
    ensures { map (λ c. c.now) result.now ≡ stored_columns Kind.Aggregates }
{
    &["prefix", "rir", "description"]
}

/// An aggregate as it is stored.
#[tactic(auto, unfolding(crate::specs::Stored::aggregate_texts))]
pub(crate) fn write_aggregate(alloc: Global, row: &Aggregate) -> Result<Row, AllocError>
    ensures { IfOk result (λ r. r ≡ stored_aggregate row.now) }
{
    let mut fields = Vec::with_capacity(alloc, 3)?;
    fields.push(block_words(alloc, row.block)?)?;
    fields.push(number_words(alloc, row.rir)?)?;
    fields.push(words(alloc, row.description.as_str())?)?;
    Ok(Row {
        kind: Kind::Aggregates,
        id: row.id,
        fields: Texts::of(fields),
    })
}

/// An aggregate of an id and its texts. `Err` means out of memory.
pub(crate) fn read_aggregate(
    alloc: Global,
    id: u32,
    fields: &[Text],
) -> Result<Option<Aggregate>, AllocError>
    requires { 1 ≤ id }
    ensures { IfOk result (λ r. IsRead IsTypedAggregate stored_aggregate (row_of Kind.Aggregates id fields.now) r) }
{
    if fields.len() != 3 {
        return Ok(None);
    }
    let [block, rir, description] = fields else {
        return Ok(None);
    };
    let Some(block) = read_block_text(block) else {
        return Ok(None);
    };
    let Some(rir) = read_number(rir) else {
        return Ok(None);
    };
    let Some(description) = read_text::<DescriptionBounds>(alloc, description)? else {
        return Ok(None);
    };
    Ok(Some(Aggregate {
        id,
        block,
        rir,
        description,
    }))
}
