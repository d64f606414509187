//! `run_pools` over objects in memory.

use ipam_edge::{BytesSink, BytesSource};
use ipam_listen::Listener;
use pool_command::run_pools;
use pool_keeper::opener::MemoryPoolOpener;
use std::alloc::{AllocError, Global};
use std::marker::Sync;
use std::sync::Wait;
use std::thread::Threads;

/// What a run left: its status, the output, the messages.
#[derive(Drop)]
pub struct Left {
    pub status: u8,
    pub output: Vec<u8>,
    pub errors: Vec<u8>,
}

/// The words of a text, with one space between two of them: none of the empty text; and `''` is the empty word.
fn words_of<'a>(alloc: Global, text: &'a str) -> Result<Vec<&'a str>, AllocError> {
    let mut list = Vec::new(alloc);
    if text.is_empty() {
        return Ok(list);
    }
    for word in text.split(' ') {
        list.push(if word == "''" { "" } else { word })?;
    }
    Ok(list)
}

/// Runs words over an input that is read in pieces of this size.
pub fn run_words<R: Threads + Wait + Sync, L: Listener>(
    rt: &R,
    alloc: Global,
    words: &str,
    input: &[u8],
    piece: usize,
    listener: &mut L,
    opener: &mut MemoryPoolOpener,
) -> Result<Left, AllocError> {
    let piece = piece.max(1);
    let list = words_of(alloc, words)?;
    let bytes = Vec::from_slice(alloc, input)?;
    let mut input = BytesSource::new(bytes, Vec::new(alloc), piece);
    let mut output = BytesSink::new(alloc, Vec::new(alloc), piece, 65_536)?;
    let mut errors = BytesSink::new(alloc, Vec::new(alloc), piece, 4_096)?;
    let status = run_pools(
        rt,
        alloc,
        &list,
        &mut input,
        &mut output,
        &mut errors,
        listener,
        opener,
    );
    Ok(Left {
        status,
        output: output.into_bytes(),
        errors: errors.into_bytes(),
    })
}
