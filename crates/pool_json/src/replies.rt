//! The text of a reply, and that of a refusal before the pools are asked.

ghost use Rattle.std.specs.Prelude.{◌≡◌, IfOk};
ghost use Rattle.serde_json.specs.Written.{compact_text};
ghost use Rattle.ipam_json.specs.Written.{Puts, pieces_of, value_pieces};
ghost use Rattle.pool_json.specs.Replies.{claimed_data, number_words, pool_refusal_data, range_words, reply_data, reply_text, request_refusal_text, words_data};
ghost use Rattle.pool_json.specs.Words.{detail_of};

use crate::bodies::RequestRefusal;
use crate::details::{code, detail};
use crate::pages::put_page;
use crate::rows::{put_member, put_members, put_numbers, put_range, put_ranges};
use ipam_json::{RECORD_ROOM, refusal_bytes};
use json::Writer;
use number_pools::{Member, PoolKind, PoolRefusal, PoolReply};
use std::alloc::{AllocError, Global};

/// How the reply to a call is written: for which kind, and whether a claim was given as a list and so is answered by one.
#[derive(Clone, Copy, Debug)]
pub struct Shape {
    pub kind: PoolKind,
    pub list: bool,
}

/// Writes a code and words for it.
fn put_words(writer: &mut Writer, code: &str, detail: &str) -> Result<(), AllocError>
    ensures { Puts result writer.old writer.new (pieces_of (words_data code.now detail.now)) }
{
    writer.begin_object()?;
    writer.key("code")?;
    writer.string(code)?;
    writer.key("detail")?;
    writer.string(detail)?;
    writer.end_object()
}

/// Writes a refusal that is this one in words.
fn put_refusal_with(
    writer: &mut Writer,
    refusal: PoolRefusal,
    detail: &str,
) -> Result<(), AllocError>
    requires { detail.now ≡ detail_of refusal }
    ensures { Puts result writer.old writer.new (pieces_of (pool_refusal_data refusal)) }
{
    put_words(writer, code(refusal), detail)
}

/// Writes a refusal by the pools.
fn put_refusal(alloc: Global, writer: &mut Writer, refusal: PoolRefusal) -> Result<(), AllocError>
    ensures { Puts result writer.old writer.new (pieces_of (pool_refusal_data refusal)) }
{
    match detail(alloc, refusal) {
        Ok(detail) => put_refusal_with(writer, refusal, detail.as_str()),
        Err(error) => Err(error),
    }
}

/// Writes what was claimed: a list of members, or the one member.
fn put_claimed(writer: &mut Writer, shape: Shape, rows: &[Member]) -> Result<(), AllocError>
    ensures { Puts result writer.old writer.new (value_pieces (claimed_data shape.kind shape.list rows.now)) }
{
    if shape.list {
        return put_members(writer, shape.kind, rows);
    }
    match rows {
        [] => Ok(()),
        [first, ..] => put_member(writer, shape.kind, first),
    }
}

/// Writes a reply, and nothing if it has no value.
fn put_reply(
    alloc: Global,
    writer: &mut Writer,
    shape: Shape,
    reply: &PoolReply,
) -> Result<(), AllocError>
    ensures { Puts result writer.old writer.new (value_pieces (reply_data shape reply.now)) }
{
    match reply {
        PoolReply::Made(range) => put_range(writer, range),
        PoolReply::Gone => Ok(()),
        PoolReply::Claimed(members) => put_claimed(writer, shape, members.as_slice()),
        PoolReply::ChangedRange(range) => put_range(writer, range),
        PoolReply::ChangedMember(member) => put_member(writer, shape.kind, member),
        PoolReply::OneRange(range) => put_range(writer, range),
        PoolReply::OneMember(member) => put_member(writer, shape.kind, member),
        PoolReply::Ranges(rows) => put_ranges(writer, rows.as_slice()),
        PoolReply::Members(rows) => put_members(writer, shape.kind, rows.as_slice()),
        PoolReply::Numbers(numbers) => put_numbers(writer, numbers.as_slice()),
        PoolReply::Page {
            query,
            count,
            members,
        } => put_page(alloc, writer, shape.kind, query, *count, members.as_slice()),
        PoolReply::Refused(refusal) => put_refusal(alloc, writer, *refusal),
    }
}

/// The JSON text of a reply to a call of this shape: compact, with the members of each object in the byte order of their names, and
/// no text if a row is gone. `Err` means out of memory.
pub fn reply_bytes(alloc: Global, shape: Shape, reply: &PoolReply) -> Result<Vec<u8>, AllocError>
    ensures { IfOk result (λ v. v.items ≡ reply_text shape reply.now) }
{
    let mut writer = Writer::new(Vec::with_capacity(alloc, RECORD_ROOM)?);
    put_reply(alloc, &mut writer, shape, reply)?;
    Ok(writer.into_inner())
}

/// The JSON text of a code and words for it.
fn words_bytes(alloc: Global, code: &str, detail: &str) -> Result<Vec<u8>, AllocError>
    ensures { IfOk result (λ v. v.items ≡ compact_text (words_data code.now detail.now)) }
{
    let mut writer = Writer::new(Vec::with_capacity(alloc, RECORD_ROOM)?);
    put_words(&mut writer, code, detail)?;
    Ok(writer.into_inner())
}

/// In words that the number of an item of a kind is missing or malformed.
fn number_words(kind: PoolKind) -> &'static str
    ensures { result.now ≡ number_words kind }
{
    match kind {
        PoolKind::Asn => "asn is missing or malformed",
        PoolKind::Vlan => "vid is missing or malformed",
    }
}

/// In words that the range that a list asks for is malformed.
fn range_words(kind: PoolKind) -> &'static str
    ensures { result.now ≡ range_words kind }
{
    match kind {
        PoolKind::Asn => "range_id is missing or malformed",
        PoolKind::Vlan => "group_id is missing or malformed",
    }
}

/// The JSON text of a refusal before the pools are asked. `Err` means out of memory.
pub fn request_refusal_bytes(alloc: Global, refusal: &RequestRefusal) -> Result<Vec<u8>, AllocError>
    ensures { IfOk result (λ v. v.items ≡ request_refusal_text refusal.now) }
{
    match refusal {
        RequestRefusal::Common(refusal) => refusal_bytes(alloc, refusal),
        RequestRefusal::Start => words_bytes(alloc, "field", "start is missing or malformed"),
        RequestRefusal::End => words_bytes(alloc, "field", "end is missing or malformed"),
        RequestRefusal::Number(kind) => words_bytes(alloc, "field", number_words(*kind)),
        RequestRefusal::Range(kind) => words_bytes(alloc, "field", range_words(*kind)),
    }
}
