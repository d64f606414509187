//! VRFs as they are stored, and as they are read again.

ghost use Rattle.std.specs.Prelude.{◌≡◌, ◌≤◌, ◌∷◌, [], IfOk, map};
ghost use Rattle.ipam_data.specs.declared.kinds.Kind.TheVariants as Kind;
ghost use Rattle.stored_tables.specs.Stored.{stored_vrf, stored_columns};
ghost use Rattle.stored_tables.specs.Reading.{IsRead, IsTypedVrf, row_of};

use crate::columns::{read_distinguisher, read_flag, read_text};
use crate::tables::{Row, Text, Texts};
use crate::writing::{distinguisher_words, flag_words, words};
use ipam_data::kinds::Kind;
use ipam_data::text::{DescriptionBounds, NameBounds};
use ipam_data::vrf::Vrf;
use std::alloc::{AllocError, Global};

/// The columns of VRFs past the id, in the order of their texts.
pub(crate) fn vrf_columns() -> &'static [&'static str]
    ensures { map (λ c. c.now) result.now ≡ stored_columns Kind.Vrfs }
{
    &["name", "rd", "enforce_unique", "description"]
}

/// A VRF as it is stored.
#[tactic(auto, unfolding(crate::specs::Stored::vrf_texts))]
pub(crate) fn write_vrf(alloc: Global, row: &Vrf) -> Result<Row, AllocError>
    ensures { IfOk result (λ r. r ≡ stored_vrf row.now) }
{
    let mut fields = Vec::with_capacity(alloc, 4)?;
    fields.push(words(alloc, row.name.as_str())?)?;
    fields.push(distinguisher_words(alloc, &row.rd)?)?;
    fields.push(flag_words(row.enforce_unique))?;
    fields.push(words(alloc, row.description.as_str())?)?;
    Ok(Row {
        kind: Kind::Vrfs,
        id: row.id,
        fields: Texts::of(fields),
    })
}

/// A VRF of an id and its texts. `Err` means out of memory.
pub(crate) fn read_vrf(alloc: Global, id: u32, fields: &[Text]) -> Result<Option<Vrf>, AllocError>
    requires { 1 ≤ id }
    ensures { IfOk result (λ r. IsRead IsTypedVrf stored_vrf (row_of Kind.Vrfs id fields.now) r) }
{
    if fields.len() != 4 {
        return Ok(None);
    }
    let [name, rd, enforce_unique, description] = fields else {
        return Ok(None);
    };
    let Some(name) = read_text::<NameBounds>(alloc, name)? else {
        return Ok(None);
    };
    let Some(rd) = read_distinguisher(alloc, rd)? else {
        return Ok(None);
    };
    let Some(enforce_unique) = read_flag(enforce_unique) else {
        return Ok(None);
    };
    let Some(description) = read_text::<DescriptionBounds>(alloc, description)? else {
        return Ok(None);
    };
    Ok(Some(Vrf {
        id,
        name,
        rd,
        enforce_unique,
        description,
    }))
}
