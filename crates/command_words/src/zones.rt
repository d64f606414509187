//! The words of the commands on reverse zones.

ghost use Rattle.std.specs.Prelude.{IfOk, map, codes};
ghost use Rattle.command_words.specs.Asked.{IsReadAs};

use crate::asked::Command;
use crate::values::{MOST_ID, store_value};
use command_grammar::{parse, reverse_command, reverse_read_command, value};
use std::alloc::{AllocError, Global};
use word_values::number_value;

/// Reads the words of `reverse`. `Err` means out of memory.
#[tactic(auto, using(command_grammar::proofs::Plain::reverse_is_plain))]
pub(crate) fn read_reverse<'a>(
    alloc: Global,
    words: &'a [&'a str],
) -> Result<Option<Command>, AllocError>
    ensures { IfOk result (λ found. IsReadAs (codes "reverse") (map (λ w. w.now) words.entry.now) found) }
{
    let command = reverse_command(alloc)?;
    let Some(matches) = parse(command, words)? else {
        return Ok(None);
    };
    let Some(prefix) = number_value(value(&matches, "prefix"), MOST_ID) else {
        return Ok(None);
    };
    let Some(store) = store_value(alloc, &matches)? else {
        return Ok(None);
    };
    Ok(Some(Command::Reverse(prefix, store)))
}

/// Reads the words of `reverse-read`. `Err` means out of memory.
#[tactic(auto, using(command_grammar::proofs::Plain::reverse_read_is_plain))]
pub(crate) fn read_reverse_read<'a>(
    alloc: Global,
    words: &'a [&'a str],
) -> Result<Option<Command>, AllocError>
    ensures { IfOk result (λ found. IsReadAs (codes "reverse-read") (map (λ w. w.now) words.entry.now) found) }
{
    match parse(reverse_read_command(alloc), words)? {
        Some(_) => Ok(Some(Command::ReverseRead)),
        None => Ok(None),
    }
}
