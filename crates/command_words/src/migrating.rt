//! The arguments of the command on files of version 1.

ghost use Rattle.std.specs.Prelude.{IfOk, map, codes};
ghost use Rattle.command_words.specs.Asked.{IsReadAs};

use crate::asked::Command;
use crate::values::answer_value;
use command_grammar::{migrate_command, parse, value};
use std::alloc::{AllocError, Global};
use word_values::text_value;

/// Reads the words of `migrate`. `Err` means out of memory.
#[tactic(auto, using(command_grammar::proofs::Plain::migrate_is_plain))]
pub(crate) fn read_migrate<'a>(
    alloc: Global,
    words: &'a [&'a str],
) -> Result<Option<Command>, AllocError>
    ensures { IfOk result (λ found. IsReadAs (codes "migrate") (map (λ w. w.now) words.entry.now) found) }
{
    let command = migrate_command(alloc)?;
    let Some(matches) = parse(command, words)? else {
        return Ok(None);
    };
    let Some(populated) = answer_value(value(&matches, "populated")) else {
        return Ok(None);
    };
    let Some(db) = text_value(alloc, value(&matches, "db"))? else {
        return Ok(None);
    };
    Ok(Some(Command::Migrate { db, populated }))
}
