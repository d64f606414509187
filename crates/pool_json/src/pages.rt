//! Pages of the members of a kind.

ghost use Rattle.std.specs.Prelude.{◌≡◌, ◌<◌, ◌^◌, ℕ, IfOk, OnOk, string_bytes};
ghost use Rattle.ipam_json.specs.Written.{Puts, pieces_of};
ghost use Rattle.pool_json.specs.Pages.{link_query, link_text, links_of, members_text, page_data, range_name, with_number, with_query};
ghost use Rattle.rest_query.specs.Query.{with_given};

use crate::records::number_name;
use crate::rows::{put_members, put_number};
use form_urlencoded::Serializer;
use ipam_data::replies::FieldName;
use ipam_data::text::Text;
use ipam_json::{Links, put_link};
use ipam_words::field_name;
use itoa::Buffer;
use json::Writer;
use number_pools::{Member, MemberQuery, PoolKind};
use std::alloc::{AllocError, Global};
use stored_tables::tables::Text as Name;

/// The members of ranges of a kind by their name in a path.
pub fn members_name(kind: PoolKind) -> &'static str
    ensures { result.now ≡ members_text kind }
{
    match kind {
        PoolKind::Asn => "asns",
        PoolKind::Vlan => "vlans",
    }
}

/// The parameter of a query that gives the id of the range of each member.
pub fn range_name(kind: PoolKind) -> &'static str
    ensures { result.now ≡ range_name kind }
{
    match kind {
        PoolKind::Asn => "range_id",
        PoolKind::Vlan => "group_id",
    }
}

/// Adds a parameter that is a number to a form, if it is given.
fn add_number(
    form: &mut Serializer<Global>,
    name: &str,
    number: Option<u32>,
) -> Result<(), AllocError>
    ensures form { OnOk result (form.new.form ≡ with_number form.old.form name.now number) }
    ensures prefix { OnOk result (form.new.prefix ≡ form.old.prefix) }
{
    match number {
        Some(number) => {
            let mut digits = Buffer::new();
            form.append_pair(name, digits.format(number))
        }
        None => Ok(()),
    }
}

/// Adds a parameter that is a text to a form, if it is given.
fn add_name(
    form: &mut Serializer<Global>,
    name: &str,
    value: &Option<Name>,
) -> Result<(), AllocError>
    ensures form { OnOk result (form.new.form ≡ with_given form.old.form name.now value.now) }
    ensures prefix { OnOk result (form.new.prefix ≡ form.old.prefix) }
{
    match value {
        Some(value) => form.append_pair(name, value.as_str()),
        None => Ok(()),
    }
}

/// The query of a link to a page.
fn link_query(
    alloc: Global,
    kind: PoolKind,
    query: &MemberQuery,
    offset: u64,
) -> Result<String, AllocError>
    ensures { IfOk result (λ text. string_bytes text ≡ link_query kind query.now offset) }
{
    let mut form = Serializer::new(String::new(alloc));
    add_number(&mut form, number_name(kind), query.number)?;
    add_number(&mut form, range_name(kind), query.range)?;
    add_name(&mut form, field_name(FieldName::Name), &query.name)?;
    add_number(&mut form, field_name(FieldName::Limit), Some(query.limit))?;
    let mut digits = Buffer::new();
    form.append_pair(field_name(FieldName::Offset), digits.format(offset))?;
    Ok(form.finish())
}

/// The target of a page.
fn link(alloc: Global, kind: PoolKind, query: &MemberQuery, offset: u64) -> Result<Text, AllocError>
    ensures { IfOk result (λ t. t ≡ link_text kind query.now offset) }
{
    let query = link_query(alloc, kind, query, offset)?;
    let query = query.as_str();
    let members = members_name(kind);
    Ok(Text::of(format!(in alloc; "/api/ipam/{members}/?{query}")?))
}

/// The page after one that shows so many members of a list, if there is one.
fn next(
    alloc: Global,
    kind: PoolKind,
    query: &MemberQuery,
    count: u32,
    shown: u64,
) -> Result<Option<Text>, AllocError>
    requires { shown < 2 ^ 63 }
    ensures { IfOk result (λ t. t ≡ (links_of kind query.now count shown).next) }
{
    if u64::from(count) <= u64::from(query.offset) + shown {
        return Ok(None);
    }
    let after = u64::from(query.offset) + u64::from(query.limit);
    Ok(Some(link(alloc, kind, query, after)?))
}

/// The page before one, if it does not begin the list.
fn previous(alloc: Global, kind: PoolKind, query: &MemberQuery) -> Result<Option<Text>, AllocError>
    ensures { (count shown : ℕ) → IfOk result (λ t. t ≡ (links_of kind query.now count shown).previous) }
{
    if query.offset == 0 {
        return Ok(None);
    }
    let before = query.offset.saturating_sub(query.limit);
    Ok(Some(link(alloc, kind, query, u64::from(before))?))
}

/// The links of a page.
fn links(
    alloc: Global,
    kind: PoolKind,
    query: &MemberQuery,
    count: u32,
    shown: u64,
) -> Result<Links, AllocError>
    requires { shown < 2 ^ 63 }
    ensures { IfOk result (λ l. l ≡ links_of kind query.now count shown) }
{
    let next = next(alloc, kind, query, count, shown)?;
    let previous = previous(alloc, kind, query)?;
    Ok(Links { next, previous })
}

/// Writes a page.
pub(crate) fn put_page(
    alloc: Global,
    writer: &mut Writer,
    kind: PoolKind,
    query: &MemberQuery,
    count: u32,
    members: &[Member],
) -> Result<(), AllocError>
    ensures { Puts result writer.old writer.new (pieces_of (page_data kind query.now count members.now)) }
{
    let links = links(alloc, kind, query, count, members.len() as u64)?;
    writer.begin_object()?;
    put_number(writer, "count", count)?;
    put_link(writer, "next", &links.next)?;
    put_link(writer, "previous", &links.previous)?;
    writer.key("results")?;
    put_members(writer, kind, members)?;
    writer.end_object()
}
