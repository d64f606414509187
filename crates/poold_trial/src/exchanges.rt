//! Requests and their answers as bytes, from a line each: what is asked, by its method and target; its body; and what has to be answered: the
//! status, the field past the length, the body.

use std::alloc::{AllocError, Global};

/// A part of a line. If there is none, the line is wrong, and the test fails as for lack of memory.
pub fn part(line: &str, index: usize) -> Result<&str, AllocError> {
    line.split('|').nth(index).ok_or(AllocError)
}

/// Puts a text at the end.
fn put(out: &mut Vec<u8>, text: &str) -> Result<(), AllocError> {
    out.extend_from_slice(text.as_bytes())
}

/// Puts a field on its own line, if there is one.
fn put_field(out: &mut Vec<u8>, field: &str) -> Result<(), AllocError> {
    if field.is_empty() {
        return Ok(());
    }
    put(out, field)?;
    put(out, "\r\n")
}

/// The length of a body, if there is one.
fn put_length(alloc: Global, out: &mut Vec<u8>, body: &str) -> Result<(), AllocError> {
    if body.is_empty() {
        return Ok(());
    }
    let length = format!(in alloc; "Content-Length: {}", body.len())?;
    put_field(out, &length)
}

/// The request of an exchange.
pub fn put_request(alloc: Global, out: &mut Vec<u8>, exchange: &str) -> Result<(), AllocError> {
    let body = part(exchange, 1)?;
    put(out, part(exchange, 0)?)?;
    put(out, " HTTP/1.1\r\nHost: pools\r\n")?;
    put_length(alloc, out, body)?;
    put(out, "\r\n")?;
    put(out, body)
}

/// The fields that describe a body, if there is one.
fn put_size(alloc: Global, out: &mut Vec<u8>, body: &str) -> Result<(), AllocError> {
    if body.is_empty() {
        return Ok(());
    }
    put(out, "Content-Type: application/json\r\n")?;
    put_length(alloc, out, body)
}

/// The answer of an exchange, which leaves the connection open. That to HEAD describes a body and sends none.
pub fn put_answer(alloc: Global, out: &mut Vec<u8>, exchange: &str) -> Result<(), AllocError> {
    put(out, "HTTP/1.1 ")?;
    put(out, part(exchange, 2)?)?;
    put(out, "\r\n")?;
    put_size(alloc, out, part(exchange, 4)?)?;
    put_field(out, part(exchange, 3)?)?;
    put(out, "\r\n")?;
    if exchange.starts_with("HEAD ") {
        return Ok(());
    }
    put(out, part(exchange, 4)?)
}
