//! What the fields of a head say of the body and of the connection.
ghost use Rattle.std.specs.Prelude.{◌≡◌, ◌≤◌, ℕ, List, All, length, map, reverse};
ghost use Rattle.std.specs.List.{list_any};
ghost use Rattle.httparse.specs.Grammar.{is_ows, skip_ows, trim_ows};
ghost use Rattle.httparse.specs.Spans.{IsHeaderWithin, header_bytes};
ghost use Rattle.http_session.specs.Fields.{length_by, close_by, is_named, is_close, names_close, length_from, length_among, values_of, content_length, connection, transfer_encoding};

use crate::Fault;
use httparse::spans::HeaderSpan;

/// The most bytes of a body.
const BODY_LIMIT: u64 = 4194304;

/// Whether the field has this name, in any case.
fn named(front: &[u8], field: &HeaderSpan, name: &[u8]) -> bool
    requires { IsHeaderWithin (length front.now) field.now }
    ensures { result ≡ is_named name.now (header_bytes front.now field.now) }
{
    field.name.of(front).eq_ignore_ascii_case(name)
}

/// Whether a field has this name.
fn any_named(front: &[u8], fields: &[HeaderSpan], name: &[u8]) -> bool
    requires { All (IsHeaderWithin (length front.now)) fields.now }
    ensures { result ≡ list_any (is_named name.now) (map (header_bytes front.now) fields.now) }
{
    for field in fields {
        if named(front, field, name) {
            return true;
        }
    }
    false
}

/// The length that a text of 1 to 19 digits says.
fn read_length(text: &[u8]) -> Result<u64, Fault>
    ensures { result ≡ length_from text.now }
{
    if text.is_empty() || text.len() >= 20 {
        return Err(Fault::BadHead);
    }
    let mut n = 0u64;
    for &b in text {
        if !b.is_ascii_digit() {
            return Err(Fault::BadHead);
        }
        n = (n * 10 + u64::from(b - b'0')).min(BODY_LIMIT + 1);
    }
    if n > BODY_LIMIT {
        return Err(Fault::LargeBody);
    }
    Ok(n)
}

/// The length that the `Content-Length` fields say.
fn said_length(front: &[u8], fields: &[HeaderSpan]) -> Result<u64, Fault>
    requires { All (IsHeaderWithin (length front.now)) fields.now }
    ensures { result ≡ length_among (values_of content_length (map (header_bytes front.now) fields.now)) }
{
    let mut seen = false;
    let mut said = Ok(0);
    for field in fields {
        if named(front, field, b"content-length") {
            if seen {
                return Err(Fault::BadHead);
            }
            seen = true;
            said = read_length(field.value.of(front));
        }
    }
    said
}

/// The length of the body, or why it is refused.
#[tactic(auto, unfolding(crate::specs::Fields::length_by))]
pub fn length_by(front: &[u8], fields: &[HeaderSpan]) -> Result<u64, Fault>
    requires { All (IsHeaderWithin (length front.now)) fields.now }
    ensures { result ≡ length_by (map (header_bytes front.now) fields.now) }
{
    if any_named(front, fields, b"transfer-encoding") {
        return Err(Fault::Coding);
    }
    said_length(front, fields)
}

/// A space or a tab.
fn is_white(byte: u8) -> bool
    ensures { result ≡ is_ows byte }
{
    byte == b' ' || byte == b'\t'
}

/// The text from its first byte that is no space or tab.
fn skip_white(text: &[u8]) -> &[u8]
    ensures { result.now ≡ skip_ows text.now }
{
    let mut left = text;
    while let [first, rest @ ..] = left {
        if !is_white(*first) {
            return left;
        }
        left = rest;
    }
    left
}

/// The text up to its last byte that is no space or tab.
fn skip_white_back(text: &[u8]) -> &[u8]
    ensures { result.now ≡ reverse (skip_ows (reverse text.now)) }
{
    let mut left = text;
    while let [rest @ .., last] = left {
        if !is_white(*last) {
            return left;
        }
        left = rest;
    }
    left
}

/// Whether the text is `close` with spaces and tabs around it, in any case.
fn says_close(text: &[u8]) -> bool
    ensures { result ≡ is_close text.now }
{
    skip_white_back(skip_white(text)).eq_ignore_ascii_case(b"close")
}

/// Whether one of the tokens of the value is `close`.
#[tactic(auto, unfolding(crate::specs::Fields::names_close))]
fn has_close(value: &[u8]) -> bool
    ensures { result ≡ names_close value.now }
{
    value
        .split(|byte| *byte == b',')
        .any(|part| says_close(part))
}

/// Whether a `Connection` field has the token `close`.
fn any_close(front: &[u8], fields: &[HeaderSpan]) -> bool
    requires { All (IsHeaderWithin (length front.now)) fields.now }
    ensures { result ≡ list_any names_close (values_of connection (map (header_bytes front.now) fields.now)) }
{
    for field in fields {
        if named(front, field, b"connection") && has_close(field.value.of(front)) {
            return true;
        }
    }
    false
}

/// Whether the head says that no request follows.
#[tactic(auto, unfolding(crate::specs::Fields::close_by))]
pub fn close_by(front: &[u8], minor: u8, fields: &[HeaderSpan]) -> bool
    requires { All (IsHeaderWithin (length front.now)) fields.now }
    ensures { result ≡ close_by minor (map (header_bytes front.now) fields.now) }
{
    minor == 0 || any_close(front, fields)
}
