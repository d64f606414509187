//! VRFs in JSON: the bodies of a Create and of a Change, and the row.

ghost use Rattle.std.specs.Prelude.{◌∷◌, codes};
ghost use Rattle.json.specs.Token.{Token};
ghost use Rattle.ipam_json.specs.Values.{text_data};
ghost use Rattle.ipam_json.specs.Vrfs.{vrf_data};
ghost use Rattle.ipam_json.specs.Written.{Puts, pieces_of};
ghost use Rattle.std.specs.Prelude.{◌≡◌};
ghost use Rattle.serde_json.specs.View.{view};
ghost use Rattle.ipam_json.specs.Outcomes.{OrMemory};
ghost use Rattle.ipam_json.specs.Vrfs as spec;

use crate::members::{
    description, flag, given_description, given_flag, given_name, given_rd, name, rd,
};
use crate::writing::{put_flag, put_id, put_name, put_text};
use ipam_data::calls::{Draft, Edit};
use ipam_data::replies::{FieldName, Refusal};
use ipam_data::text::Distinguisher;
use ipam_data::vrf::Vrf;
use json::Writer;
use serde_json::Value;
use std::alloc::{AllocError, Global};

/// The draft of a VRF that a body asks for.
pub(crate) fn vrf_draft(alloc: Global, body: &Value) -> Result<Draft, Refusal>
    ensures { OrMemory (λ r. spec.vrf_draft (view body.now) ≡ r) result }
{
    let name = name(alloc, body)?;
    let rd = rd(alloc, body)?;
    let enforce_unique = flag(body, FieldName::EnforceUnique, true)?;
    let description = description(alloc, body)?;
    Ok(Draft::Vrf {
        name,
        rd,
        enforce_unique,
        description,
    })
}

/// The edit of a VRF that a body asks for: an absent member leaves its field.
pub(crate) fn vrf_edit(alloc: Global, body: &Value) -> Result<Edit, Refusal>
    ensures { OrMemory (λ r. spec.vrf_edit (view body.now) ≡ r) result }
{
    let name = given_name(alloc, body)?;
    let rd = given_rd(alloc, body)?;
    let enforce_unique = given_flag(body, FieldName::EnforceUnique)?;
    let description = given_description(alloc, body)?;
    Ok(Edit::Vrf {
        name,
        rd,
        enforce_unique,
        description,
    })
}

/// Writes a route distinguisher, or null.
fn put_rd(writer: &mut Writer, rd: &Option<Distinguisher>) -> Result<(), AllocError>
    ensures { Puts result writer.old writer.new (pieces_of (text_data rd.now)) }
{
    match rd {
        Some(rd) => writer.string(rd.as_str()),
        None => writer.null(),
    }
}

/// Writes a VRF.
pub(crate) fn put_vrf(writer: &mut Writer, row: &Vrf) -> Result<(), AllocError>
    ensures { Puts result writer.old writer.new (pieces_of (vrf_data row.now)) }
{
    writer.begin_object()?;
    put_text(writer, FieldName::Description, row.description.as_str())?;
    put_flag(writer, FieldName::EnforceUnique, row.enforce_unique)?;
    put_id(writer, row.id)?;
    put_text(writer, FieldName::Name, row.name.as_str())?;
    put_name(writer, FieldName::Rd)?;
    put_rd(writer, &row.rd)?;
    writer.end_object()
}
