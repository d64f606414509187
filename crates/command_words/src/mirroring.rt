//! The arguments of the command on readers next to an operator.

ghost use Rattle.std.specs.Prelude.{IfOk, map, codes, MatchOption};
ghost use Rattle.clap.specs.Words.{found_of, rows_of};
ghost use Rattle.command_words.specs.Asked.{IsReadAs, IsMirroring};

use crate::asked::{Command, Mirroring};
use crate::values::store_value;
use clap::ArgMatches;
use command_grammar::{mirror_command, parse, value};
use std::alloc::{AllocError, Global};
use word_values::{MOST_CONNECTIONS, number_or, number_value, text_value};

/// The most readers.
const MOST_READERS: u32 = 16;

/// The values of `mirror`. `Err` means out of memory.
fn mirroring_value<'a>(
    alloc: Global,
    matches: &ArgMatches<'a>,
) -> Result<Option<Mirroring>, AllocError>
    ensures { IfOk result (λ found. MatchOption found ((m : Mirroring) → ¬ IsMirroring (rows_of (found_of matches.now)) m)
        (λ m. IsMirroring (rows_of (found_of matches.now)) m)) }
{
    let Some(readers) = number_value(value(matches, "readers"), MOST_READERS) else {
        return Ok(None);
    };
    let Some(connections) = number_or(
        value(matches, "connections"),
        MOST_CONNECTIONS,
        MOST_CONNECTIONS,
    ) else {
        return Ok(None);
    };
    let Some(bind) = text_value(alloc, value(matches, "bind"))? else {
        return Ok(None);
    };
    let Some(store) = store_value(alloc, matches)? else {
        return Ok(None);
    };
    Ok(Some(Mirroring {
        bind,
        readers,
        connections,
        store,
    }))
}

/// Reads the words of `mirror`. `Err` means out of memory.
#[tactic(auto, using(command_grammar::proofs::Plain::mirror_is_plain))]
pub(crate) fn read_mirror<'a>(
    alloc: Global,
    words: &'a [&'a str],
) -> Result<Option<Command>, AllocError>
    ensures { IfOk result (λ found. IsReadAs (codes "mirror") (map (λ w. w.now) words.entry.now) found) }
{
    let command = mirror_command(alloc)?;
    let Some(matches) = parse(command, words)? else {
        return Ok(None);
    };
    let Some(mirroring) = mirroring_value(alloc, &matches)? else {
        return Ok(None);
    };
    Ok(Some(Command::Mirror(mirroring)))
}
