//! Words of the lines that say what is stored.

use ipam_keeper::keeper::KeepFault;
use std::alloc::{AllocError, Global};
use stored_tables::tables::Text;

pub(crate) fn text_of(alloc: Global, text: &str) -> Result<Text, AllocError> {
    Ok(Text::of(String::from_str(alloc, text)?))
}

/// The number of a word. If it is none, the line is wrong, and the test fails as for lack of memory.
pub(crate) fn number_of(word: Option<&str>) -> Result<u32, AllocError> {
    match word.unwrap_or("").parse::<u32>() {
        Ok(number) => Ok(number),
        Err(_) => Err(AllocError),
    }
}

/// A part of a line, likewise.
pub(crate) fn part(line: &str, index: usize) -> Result<&str, AllocError> {
    line.split('|').nth(index).ok_or(AllocError)
}

/// What a change was answered.
pub(crate) fn word_of(answer: Result<(), KeepFault>) -> &'static str {
    match answer {
        Ok(()) => "done",
        Err(KeepFault::Failed) => "Failed",
        Err(KeepFault::Memory) => "Memory",
    }
}

/// Lines of changes, the first so many of which are made.
#[derive(Clone, Copy)]
pub(crate) struct Lines<'a> {
    pub(crate) made: usize,
    pub(crate) text: &'a str,
}

/// The lines after the first one, which says how many of them are made.
pub(crate) fn lines_of(words: &str) -> Result<Lines<'_>, AllocError> {
    let (made, text) = words.split_once('\n').ok_or(AllocError)?;
    Ok(Lines {
        made: number_of(Some(made))? as usize,
        text,
    })
}
