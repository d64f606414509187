//! The head of a request, if it is whole.
ghost use Rattle.std.specs.Prelude.{◌≡◌, ◌≤◌, ℕ, List, length};
ghost use Rattle.http_session.specs.Steps.{IsHeadAnswer};

use crate::Fault;
use crate::fields::{close_by, length_by};
use httparse::Status;
use httparse::spans::{EMPTY_HEADER_SPAN, parse_request};
use std::alloc::{AllocError, Global};

/// The most bytes that are looked at for a head.
pub const HEAD_LIMIT: usize = 16384;

/// What is kept of a head.
#[derive(Drop)]
pub struct Head {
    pub method: Vec<u8>,
    pub target: Vec<u8>,
    /// Its bytes, up to the end of its empty line.
    pub len: usize,
    /// The bytes of the body that follows.
    pub length: Result<u64, Fault>,
    /// No request follows.
    pub close: bool,
}

/// What the bytes so far are.
#[derive(Drop)]
pub enum HeadAnswer {
    Whole(Head),
    /// No head yet: more bytes have to be read.
    More,
    /// No bytes that go on from these begin with a head.
    Bad,
    NoMemory,
}

/// Looks for a head of at most 64 fields at the start of the bytes, within the first 16,384.
pub fn look(alloc: Global, bytes: &[u8]) -> HeadAnswer
    ensures { IsHeadAnswer bytes.now result }
{
    let front = &bytes[..bytes.len().min(HEAD_LIMIT)];
    let mut room = [EMPTY_HEADER_SPAN; 64];
    match parse_request(front, &mut room) {
        Ok(Status::Complete(spans)) => {
            let fields = &room[..spans.headers];
            let length = length_by(front, fields);
            let close = close_by(front, spans.version, fields);
            let Ok(method) = Vec::from_slice(alloc, spans.method.of(front)) else {
                return HeadAnswer::NoMemory;
            };
            let Ok(target) = Vec::from_slice(alloc, spans.path.of(front)) else {
                return HeadAnswer::NoMemory;
            };
            HeadAnswer::Whole(Head {
                method,
                target,
                len: spans.len,
                length,
                close,
            })
        }
        Ok(Status::Partial) => HeadAnswer::More,
        Err(_) => HeadAnswer::Bad,
    }
}
