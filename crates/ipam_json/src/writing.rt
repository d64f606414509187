//! Members of an object, written one after another.

ghost use Rattle.std.specs.Prelude.{◌≡◌, ◌∷◌, [], codes, decimal};
ghost use Rattle.json.specs.Token.{Token};
ghost use Rattle.ipam_data.specs.Answers.{field_text};
ghost use Rattle.ipam_json.specs.Values.{id_data, text_data, choice_data, version_of};
ghost use Rattle.ipam_json.specs.Written.{Puts, pieces_of};
ghost use Rattle.ipam_data.specs.declared.replies.FieldName.TheVariants.{Family as FamilyField};

use inet_num::Family;
use ipam_data::replies::FieldName;
use ipam_data::text::Text;
use ipam_words::field_name;
use json::Writer;
use std::alloc::AllocError;

/// Writes the name of a member.
pub(crate) fn put_name(writer: &mut Writer, name: FieldName) -> Result<(), AllocError>
    ensures { Puts result writer.old writer.new (Token.key (field_text name) ∷ []) }
{
    writer.key(field_name(name))
}

/// Writes a member that is a number.
pub(crate) fn put_number(writer: &mut Writer, name: &str, number: u32) -> Result<(), AllocError>
    ensures { Puts result writer.old writer.new (Token.key name.now ∷ Token.number (decimal number) ∷ []) }
{
    writer.key(name)?;
    writer.u64(u64::from(number))
}

/// Writes the id of a row.
pub(crate) fn put_id(writer: &mut Writer, id: u32) -> Result<(), AllocError>
    ensures { Puts result writer.old writer.new (Token.key (codes "id") ∷ Token.number (decimal id) ∷ []) }
{
    put_number(writer, "id", id)
}

/// Writes a member of a row that is a number.
pub(crate) fn put_count(writer: &mut Writer, name: FieldName, number: u32) -> Result<(), AllocError>
    ensures { Puts result writer.old writer.new (Token.key (field_text name) ∷ Token.number (decimal number) ∷ []) }
{
    put_name(writer, name)?;
    writer.u64(u64::from(number))
}

/// Writes a member of a row that is a text.
pub(crate) fn put_text(writer: &mut Writer, name: FieldName, text: &str) -> Result<(), AllocError>
    ensures { Puts result writer.old writer.new (Token.key (field_text name) ∷ Token.string text.now ∷ []) }
{
    put_name(writer, name)?;
    writer.string(text)
}

/// Writes a member of a row that is a truth value.
pub(crate) fn put_flag(writer: &mut Writer, name: FieldName, flag: bool) -> Result<(), AllocError>
    ensures { Puts result writer.old writer.new (Token.key (field_text name) ∷ Token.boolean flag ∷ []) }
{
    put_name(writer, name)?;
    writer.boolean(flag)
}

/// Writes a member of a row that is the id of another, or null.
pub(crate) fn put_reference(
    writer: &mut Writer,
    name: FieldName,
    id: Option<u32>,
) -> Result<(), AllocError>
    ensures { Puts result writer.old writer.new (Token.key (field_text name) ∷ pieces_of (id_data id)) }
{
    put_name(writer, name)?;
    match id {
        Some(id) => writer.u64(u64::from(id)),
        None => writer.null(),
    }
}

/// Writes a member that is a link, or null if there is none. `Err` means out of memory.
pub fn put_link(writer: &mut Writer, name: &str, link: &Option<Text>) -> Result<(), AllocError>
    ensures { Puts result writer.old writer.new (Token.key name.now ∷ pieces_of (text_data link.now)) }
{
    writer.key(name)?;
    match link {
        Some(link) => writer.string(link.as_str()),
        None => writer.null(),
    }
}

/// Writes one of a few words: its label and its value.
pub(crate) fn put_choice(writer: &mut Writer, label: &str, value: &str) -> Result<(), AllocError>
    ensures { Puts result writer.old writer.new (pieces_of (choice_data label.now value.now)) }
{
    writer.begin_object()?;
    writer.key("label")?;
    writer.string(label)?;
    writer.key("value")?;
    writer.string(value)?;
    writer.end_object()
}

/// The number of the family's version.
fn version(family: Family) -> u32
    ensures { result ≡ version_of family }
{
    match family {
        Family::V4 => 4,
        Family::V6 => 6,
    }
}

/// Writes the member of a family.
pub(crate) fn put_family(writer: &mut Writer, family: Family) -> Result<(), AllocError>
    ensures { Puts result writer.old writer.new (Token.key (field_text FamilyField) ∷ Token.number (decimal (version_of family)) ∷ []) }
{
    put_count(writer, FieldName::Family, version(family))
}
