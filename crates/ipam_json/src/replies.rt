//! The text of a reply.

ghost use Rattle.std.specs.Prelude.{◌≡◌, ◌++◌, IfOk, OnOk, OnErr};
ghost use Rattle.ipam_json.specs.Replies.{views_data, page_data, imported_data, percent_data, length_data, refusal_data, reply_data, reply_text, refusal_text};
ghost use Rattle.ipam_json.specs.Written.{Puts, pieces_of, value_pieces};
ghost use Rattle.ipam_data.specs.Answers.{detail_of};

use crate::available::{put_addrs, put_blocks};
use crate::rows::{put_rows, put_view};
use crate::writing::{put_link, put_number};
use ipam_data::replies::{Refusal, Reply, View};
use ipam_data::text::Text;
use ipam_words::{code, detail};
use json::Writer;
use std::alloc::{AllocError, Global};
use std::marker::Model;

/// The targets of the pages after and before a page, if there are such pages.
#[derive(Debug, Drop)]
pub struct Links {
    pub next: Option<Text>,
    pub previous: Option<Text>,
}

/// Writes rows as an array.
fn put_views(writer: &mut Writer, views: &[View]) -> Result<(), AllocError>
    ensures { Puts result writer.old writer.new (pieces_of (views_data views.now)) }
{
    writer.begin_array()?;
    put_rows(writer, views)?;
    writer.end_array()
}

/// Writes a page.
fn put_page(
    writer: &mut Writer,
    count: u32,
    views: &[View],
    links: &Links,
) -> Result<(), AllocError>
    ensures { Puts result writer.old writer.new (pieces_of (page_data count views.now links.now)) }
{
    writer.begin_object()?;
    put_number(writer, "count", count)?;
    put_link(writer, "next", &links.next)?;
    put_link(writer, "previous", &links.previous)?;
    writer.key("results")?;
    put_views(writer, views)?;
    writer.end_object()
}

/// Writes what an import did.
fn put_imported(writer: &mut Writer, created: u32, present: u32) -> Result<(), AllocError>
    ensures { Puts result writer.old writer.new (pieces_of (imported_data created present)) }
{
    writer.begin_object()?;
    put_number(writer, "created", created)?;
    put_number(writer, "present", present)?;
    writer.end_object()
}

/// Writes how much is used.
fn put_percent(writer: &mut Writer, figure: u8) -> Result<(), AllocError>
    ensures { Puts result writer.old writer.new (pieces_of (percent_data figure)) }
{
    writer.begin_object()?;
    put_number(writer, "utilization", u32::from(figure))?;
    writer.end_object()
}

/// Writes how many there are.
fn put_length(writer: &mut Writer, name: &str, count: usize) -> Result<(), AllocError>
    ensures { Puts result writer.old writer.new (pieces_of (length_data name.now count)) }
{
    writer.begin_object()?;
    writer.key(name)?;
    writer.u64(count as u64)?;
    writer.end_object()
}

/// Writes a refusal.
fn put_refusal(alloc: Global, writer: &mut Writer, refusal: &Refusal) -> Result<(), AllocError>
    ensures { Puts result writer.old writer.new (pieces_of (refusal_data refusal.now)) }
{
    match detail(alloc, refusal) {
        Ok(detail) => put_refusal_with(writer, refusal, detail.as_str()),
        Err(error) => Err(error),
    }
}

/// Writes a refusal that is this one in words.
fn put_refusal_with(writer: &mut Writer, refusal: &Refusal, detail: &str) -> Result<(), AllocError>
    requires { detail.now ≡ detail_of refusal.now }
    ensures { Puts result writer.old writer.new (pieces_of (refusal_data refusal.now)) }
{
    writer.begin_object()?;
    writer.key("code")?;
    writer.string(code(refusal))?;
    writer.key("detail")?;
    writer.string(detail)?;
    writer.end_object()
}

/// Bytes of room for the text of a record, so that it is not moved while it grows.
pub const RECORD_ROOM: usize = 512;

/// Writes a reply, and nothing if it has no value.
fn put_reply(
    alloc: Global,
    writer: &mut Writer,
    reply: &Reply,
    links: &Links,
) -> Result<(), AllocError>
    ensures { Puts result writer.old writer.new (value_pieces (reply_data reply.now links.now)) }
{
    match reply {
        Reply::Made(view) => put_view(writer, view),
        Reply::MadeMany(views) => put_views(writer, views.as_slice()),
        Reply::Changed(view) => put_view(writer, view),
        Reply::Gone => Ok(()),
        Reply::Imported { created, present } => put_imported(writer, *created, *present),
        Reply::One(view) => put_view(writer, view),
        Reply::Page { count, views } => put_page(writer, *count, views.as_slice(), links),
        Reply::Percent(figure) => put_percent(writer, *figure),
        Reply::Rows(rows) => put_length(writer, "rows", rows.as_slice().len()),
        Reply::Lines(lines) => put_length(writer, "lines", lines.as_slice().len()),
        Reply::Refused(refusal) => put_refusal(alloc, writer, refusal),
        Reply::Blocks { vrf, list } => put_blocks(writer, *vrf, list.as_slice()),
        Reply::Addrs { vrf, len, list } => put_addrs(writer, *vrf, *len, list.as_slice()),
    }
}

/// The JSON text of a reply: compact, with the members of each object in the byte order of their names, and no text if a row
/// is gone. The links are those of a page; no other reply has any. `Err` means out of memory.
pub fn reply_bytes(alloc: Global, reply: &Reply, links: &Links) -> Result<Vec<u8>, AllocError>
    ensures { IfOk result (λ v. v.items ≡ reply_text reply.now links.now) }
{
    let mut writer = Writer::new(Vec::with_capacity(alloc, RECORD_ROOM)?);
    put_reply(alloc, &mut writer, reply, links)?;
    Ok(writer.into_inner())
}

/// The JSON text of a refusal, which is that of a reply that is refused so. `Err` means out of memory.
pub fn refusal_bytes(alloc: Global, refusal: &Refusal) -> Result<Vec<u8>, AllocError>
    ensures { IfOk result (λ v. v.items ≡ refusal_text refusal.now) }
{
    let mut writer = Writer::new(Vec::with_capacity(alloc, RECORD_ROOM)?);
    put_refusal(alloc, &mut writer, refusal)?;
    Ok(writer.into_inner())
}

/// Appends the JSON text of a reply. After out of memory `out` is as before.
pub fn write_reply(
    alloc: Global,
    reply: &Reply,
    links: &Links,
    out: &mut Vec<u8>,
) -> Result<(), AllocError>
    ensures ok { OnOk result (out.new.items ≡ out.old.items ++ reply_text reply.now links.now) }
    ensures err { OnErr result (out.new.items ≡ out.old.items) }
{
    let text = reply_bytes(alloc, reply, links)?;
    out.extend_from_slice(text.as_slice())
}
