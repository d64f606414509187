//! `run` over objects in memory.

use ipam_command::run;
use ipam_edge::{BytesSink, BytesSource};
use ipam_keeper::opener::MemoryOpener;
use ipam_listen::ListListener;
use std::alloc::{AllocError, Global};
use std::marker::Sync;
use std::sync::Wait;
use std::thread::Threads;

/// What a run left: its status, the output, the messages.
#[derive(Drop)]
pub struct Left {
    pub status: u8,
    pub output: Vec<u8>,
    pub errors: Vec<u8>,
}

/// The words of a text, with one space between two of them: none of the empty text; and `''` is the empty word.
fn words_of<'a>(alloc: Global, text: &'a str) -> Result<Vec<&'a str>, AllocError> {
    let mut list = Vec::new(alloc);
    if text.is_empty() {
        return Ok(list);
    }
    for word in text.split(' ') {
        list.push(if word == "''" { "" } else { word })?;
    }
    Ok(list)
}

/// Runs words over known objects, whose calls with these numbers fail, in pieces of this size.
pub fn run_with<R: Threads + Wait + Sync>(
    rt: &R,
    alloc: Global,
    listener: &mut ListListener,
    opener: &mut MemoryOpener,
    words: &str,
    input: &[u8],
    piece: usize,
    fails: [&[u32]; 3],
) -> Result<Left, AllocError> {
    let piece = piece.max(1);
    let list = words_of(alloc, words)?;
    let bytes = Vec::from_slice(alloc, input)?;
    let [source, sink, messages] = fails;
    let mut input = BytesSource::new(bytes, Vec::from_slice(alloc, source)?, piece);
    let mut output = BytesSink::new(alloc, Vec::from_slice(alloc, sink)?, piece, 262_144)?;
    let mut errors = BytesSink::new(alloc, Vec::from_slice(alloc, messages)?, piece, 4_096)?;
    let status = run(
        rt,
        alloc,
        &list,
        &mut input,
        &mut output,
        &mut errors,
        listener,
        opener,
    );
    Ok(Left {
        status,
        output: output.into_bytes(),
        errors: errors.into_bytes(),
    })
}

/// The same over a listener without lanes.
pub fn run_over<R: Threads + Wait + Sync>(
    rt: &R,
    alloc: Global,
    opener: &mut MemoryOpener,
    words: &str,
    input: &[u8],
    piece: usize,
    fails: [&[u32]; 3],
) -> Result<Left, AllocError> {
    let mut nobody = ListListener::new(alloc, Vec::new(alloc))?;
    run_with(rt, alloc, &mut nobody, opener, words, input, piece, fails)
}

/// The same with its own opener, which has no tables.
pub fn run_on<R: Threads + Wait + Sync>(
    rt: &R,
    alloc: Global,
    words: &str,
    input: &[u8],
    piece: usize,
    fails: [&[u32]; 3],
) -> Result<Left, AllocError> {
    let mut opener = MemoryOpener::new(Vec::new(alloc), Vec::new(alloc));
    run_over(rt, alloc, &mut opener, words, input, piece, fails)
}
