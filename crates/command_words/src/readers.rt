//! The arguments of each command, after its name.

ghost use Rattle.std.specs.Prelude.{IfOk, map, codes, MatchOption, Option};
ghost use Rattle.clap.specs.Words.{found_of, rows_of};
ghost use Rattle.command_words.specs.Asked.{IsReadAs, IsServing};

use crate::asked::{Command, Serving};
use crate::values::{block_value, kind_value, report_value, store_value};
use clap::ArgMatches;
use command_grammar::{
    export_command, free_command, import_command, load_command, parse, report_command,
    serve_command, session_command, value,
};
use std::alloc::{AllocError, Global};
use word_values::{MOST_CONNECTIONS, MOST_WORKERS, number_or, number_value, text_value};

/// The most claims of a load.
const MOST_CLAIMS: u32 = 100_000;

/// Reads the words of `free`. `Err` means out of memory.
#[tactic(auto, using(command_grammar::proofs::Plain::free_is_plain))]
pub(crate) fn read_free<'a>(
    alloc: Global,
    words: &'a [&'a str],
) -> Result<Option<Command>, AllocError>
    ensures { IfOk result (λ found. IsReadAs (codes "free") (map (λ w. w.now) words.entry.now) found) }
{
    let command = free_command(alloc)?;
    let Some(matches) = parse(command, words)? else {
        return Ok(None);
    };
    let Some(block) = block_value(value(&matches, "block")) else {
        return Ok(None);
    };
    Ok(Some(Command::Free(block)))
}

/// Reads the words of `session`. `Err` means out of memory.
#[tactic(auto, using(command_grammar::proofs::Plain::session_is_plain))]
pub(crate) fn read_session<'a>(
    alloc: Global,
    words: &'a [&'a str],
) -> Result<Option<Command>, AllocError>
    ensures { IfOk result (λ found. IsReadAs (codes "session") (map (λ w. w.now) words.entry.now) found) }
{
    let command = session_command(alloc)?;
    let Some(matches) = parse(command, words)? else {
        return Ok(None);
    };
    let Some(store) = store_value(alloc, &matches)? else {
        return Ok(None);
    };
    Ok(Some(Command::Session(store)))
}

/// The values of `serve`. `Err` means out of memory.
fn serving_value<'a>(alloc: Global, matches: &ArgMatches<'a>) -> Result<Option<Serving>, AllocError>
    ensures { IfOk result (λ found. MatchOption found ((s : Serving) → ¬ IsServing (rows_of (found_of matches.now)) s) (λ s. IsServing (rows_of (found_of matches.now)) s)) }
{
    let Some(workers) = number_value(value(matches, "workers"), MOST_WORKERS) else {
        return Ok(None);
    };
    let Some(connections) = number_or(
        value(matches, "connections"),
        MOST_CONNECTIONS,
        MOST_CONNECTIONS,
    ) else {
        return Ok(None);
    };
    let Some(bind) = text_value(alloc, value(matches, "bind"))? else {
        return Ok(None);
    };
    let Some(store) = store_value(alloc, matches)? else {
        return Ok(None);
    };
    Ok(Some(Serving {
        bind,
        workers,
        connections,
        store,
    }))
}

/// Reads the words of `serve`. `Err` means out of memory.
#[tactic(auto, using(command_grammar::proofs::Plain::serve_is_plain))]
pub(crate) fn read_serve<'a>(
    alloc: Global,
    words: &'a [&'a str],
) -> Result<Option<Command>, AllocError>
    ensures { IfOk result (λ found. IsReadAs (codes "serve") (map (λ w. w.now) words.entry.now) found) }
{
    let command = serve_command(alloc)?;
    let Some(matches) = parse(command, words)? else {
        return Ok(None);
    };
    let Some(serving) = serving_value(alloc, &matches)? else {
        return Ok(None);
    };
    Ok(Some(Command::Serve(serving)))
}

/// Reads the words of `import`. `Err` means out of memory.
#[tactic(auto, using(command_grammar::proofs::Plain::import_is_plain))]
pub(crate) fn read_import<'a>(
    alloc: Global,
    words: &'a [&'a str],
) -> Result<Option<Command>, AllocError>
    ensures { IfOk result (λ found. IsReadAs (codes "import") (map (λ w. w.now) words.entry.now) found) }
{
    let command = import_command(alloc)?;
    let Some(matches) = parse(command, words)? else {
        return Ok(None);
    };
    let Some(kind) = kind_value(value(&matches, "kind")) else {
        return Ok(None);
    };
    let Some(store) = store_value(alloc, &matches)? else {
        return Ok(None);
    };
    Ok(Some(Command::Import(kind, store)))
}

/// Reads the words of `export`. `Err` means out of memory.
#[tactic(auto, using(command_grammar::proofs::Plain::export_is_plain))]
pub(crate) fn read_export<'a>(
    alloc: Global,
    words: &'a [&'a str],
) -> Result<Option<Command>, AllocError>
    ensures { IfOk result (λ found. IsReadAs (codes "export") (map (λ w. w.now) words.entry.now) found) }
{
    let command = export_command(alloc)?;
    let Some(matches) = parse(command, words)? else {
        return Ok(None);
    };
    let Some(kind) = kind_value(value(&matches, "kind")) else {
        return Ok(None);
    };
    let Some(store) = store_value(alloc, &matches)? else {
        return Ok(None);
    };
    Ok(Some(Command::Export(kind, store)))
}

/// Reads the words of `report`. `Err` means out of memory.
#[tactic(auto, using(command_grammar::proofs::Plain::report_is_plain))]
pub(crate) fn read_report<'a>(
    alloc: Global,
    words: &'a [&'a str],
) -> Result<Option<Command>, AllocError>
    ensures { IfOk result (λ found. IsReadAs (codes "report") (map (λ w. w.now) words.entry.now) found) }
{
    let command = report_command(alloc)?;
    let Some(matches) = parse(command, words)? else {
        return Ok(None);
    };
    let Some(report) = report_value(value(&matches, "name"), value(&matches, "prefix")) else {
        return Ok(None);
    };
    let Some(store) = store_value(alloc, &matches)? else {
        return Ok(None);
    };
    Ok(Some(Command::Report(report, store)))
}

/// Reads the words of `load`. `Err` means out of memory.
#[tactic(auto, using(command_grammar::proofs::Plain::load_is_plain))]
pub(crate) fn read_load<'a>(
    alloc: Global,
    words: &'a [&'a str],
) -> Result<Option<Command>, AllocError>
    ensures { IfOk result (λ found. IsReadAs (codes "load") (map (λ w. w.now) words.entry.now) found) }
{
    let command = load_command(alloc)?;
    let Some(matches) = parse(command, words)? else {
        return Ok(None);
    };
    let Some(count) = number_value(value(&matches, "count"), MOST_CLAIMS) else {
        return Ok(None);
    };
    let Some(workers) = number_or(value(&matches, "workers"), 1, MOST_WORKERS) else {
        return Ok(None);
    };
    Ok(Some(Command::Load { count, workers }))
}
