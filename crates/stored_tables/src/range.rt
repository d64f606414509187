//! Ranges as they are stored, and as they are read again.

ghost use Rattle.std.specs.Prelude.{◌≡◌, ◌≤◌, ◌∷◌, [], IfOk, map};
ghost use Rattle.ipam_data.specs.declared.kinds.Kind.TheVariants as Kind;
ghost use Rattle.stored_tables.specs.Stored.{stored_range, stored_columns};
ghost use Rattle.stored_tables.specs.Reading.{IsRead, IsTypedRange, row_of};

use crate::columns::{read_ends, read_flag, read_range_status, read_reference, read_text};
use crate::tables::{Row, Text, Texts};
use crate::writing::{flag_words, host_words, range_status_words, reference_words, words};
use ipam_data::kinds::Kind;
use ipam_data::range::IpRange;
use ipam_data::text::DescriptionBounds;
use std::alloc::{AllocError, Global};

/// The columns of ranges past the id, in the order of their texts.
pub(crate) fn range_columns() -> &'static [&'static str]
    ensures { map (λ c. c.now) result.now ≡ stored_columns Kind.Ranges }
{
    &[
        "start_address",
        "end_address",
        "vrf",
        "status",
        "role",
        "mark_utilized",
        "mark_populated",
        "description",
    ]
}

/// A range as it is stored.
#[tactic(auto, unfolding(crate::specs::Stored::range_texts))]
pub(crate) fn write_range(alloc: Global, row: &IpRange) -> Result<Row, AllocError>
    ensures { IfOk result (λ r. r ≡ stored_range row.now) }
{
    let mut fields = Vec::with_capacity(alloc, 8)?;
    fields.push(host_words(alloc, row.ends.start(), row.ends.len())?)?;
    fields.push(host_words(alloc, row.ends.end(), row.ends.len())?)?;
    fields.push(reference_words(alloc, row.vrf)?)?;
    fields.push(range_status_words(row.status))?;
    fields.push(reference_words(alloc, row.role)?)?;
    fields.push(flag_words(row.mark_utilized))?;
    fields.push(flag_words(row.mark_populated))?;
    fields.push(words(alloc, row.description.as_str())?)?;
    Ok(Row {
        kind: Kind::Ranges,
        id: row.id,
        fields: Texts::of(fields),
    })
}

/// A range of an id and its texts. `Err` means out of memory.
pub(crate) fn read_range(
    alloc: Global,
    id: u32,
    fields: &[Text],
) -> Result<Option<IpRange>, AllocError>
    requires { 1 ≤ id }
    ensures { IfOk result (λ r. IsRead IsTypedRange stored_range (row_of Kind.Ranges id fields.now) r) }
{
    if fields.len() != 8 {
        return Ok(None);
    }
    let [
        start,
        end,
        vrf,
        status,
        role,
        mark_utilized,
        mark_populated,
        description,
    ] = fields
    else {
        return Ok(None);
    };
    let Some(ends) = read_ends(start, end) else {
        return Ok(None);
    };
    let Some(vrf) = read_reference(vrf) else {
        return Ok(None);
    };
    let Some(status) = read_range_status(status) else {
        return Ok(None);
    };
    let Some(role) = read_reference(role) else {
        return Ok(None);
    };
    let Some(mark_utilized) = read_flag(mark_utilized) else {
        return Ok(None);
    };
    let Some(mark_populated) = read_flag(mark_populated) else {
        return Ok(None);
    };
    let Some(description) = read_text::<DescriptionBounds>(alloc, description)? else {
        return Ok(None);
    };
    Ok(Some(IpRange {
        id,
        ends,
        vrf,
        status,
        role,
        mark_utilized,
        mark_populated,
        description,
    }))
}
