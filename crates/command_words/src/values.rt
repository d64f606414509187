//! What a text says, if one was given: a block, a number, a kind, a report, a store.

ghost use Rattle.std.specs.Prelude.{◌≡◌, ◌≢◌, Option, List, Some, Bool, option_map, IfOk, MatchOption};
ghost use Rattle.inet_num.specs.Net.{Cidr};
ghost use Rattle.clap.specs.Words.{found_of, rows_of};
ghost use Rattle.command_words.specs.Values.{IsBlockValue, IsYesValue, IsAnswerValue, IsKindValue, IsReportValue, kind_word};
ghost use Rattle.command_words.specs.Asked.{IsStore};

use crate::asked::{KindName, Report, Store};
use clap::ArgMatches;
use command_grammar::value;
use inet_num::{Block, read_block};
use std::alloc::{AllocError, Global};
use word_values::{is_empty_text, is_word, number_value, text_or_none};

/// The greatest id of a record.
pub(crate) const MOST_ID: u32 = 4_294_967_295;

/// The block of a length of at least 1 whose text this is.
fn block_of(text: &str) -> Option<Block>
    ensures { MatchOption result ((b : Cidr) → ¬ IsBlockValue (Some text.now) b) (λ b. IsBlockValue (Some text.now) b) }
{
    match read_block(text.as_bytes()) {
        Ok(block) if block.len() > 0 => Some(block),
        _ => None,
    }
}

/// The block of a length of at least 1 that was given.
pub(crate) fn block_value(text: Option<&str>) -> Option<Block>
    ensures { MatchOption result ((b : Cidr) → ¬ IsBlockValue (option_map (λ t. t.now) text.entry) b) (λ b. IsBlockValue (option_map (λ t. t.now) text.entry) b) }
{
    match text {
        Some(text) => block_of(text),
        None => None,
    }
}

/// Whether `yes` or nothing was given, or `no`.
fn yes_value(text: Option<&str>) -> Option<bool>
    ensures { MatchOption result ((b : Bool) → ¬ IsYesValue (option_map (λ t. t.now) text.entry) b) (λ b. IsYesValue (option_map (λ t. t.now) text.entry) b) }
{
    match text {
        Some(text) => if text == "yes" {
            Some(true)
        } else if text == "no" {
            Some(false)
        } else {
            None
        },
        None => Some(true),
    }
}

/// Whether `yes` was given, or `no`.
pub(crate) fn answer_value(text: Option<&str>) -> Option<bool>
    ensures { MatchOption result ((b : Bool) → ¬ IsAnswerValue (option_map (λ t. t.now) text.entry) b) (λ b. IsAnswerValue (option_map (λ t. t.now) text.entry) b) }
{
    match text {
        Some(text) => yes_value(Some(text)),
        None => None,
    }
}

/// The kind of this name.
fn kind_named(text: &str) -> Option<KindName>
    ensures { MatchOption result ((k : KindName) → text.now ≢ kind_word k) (λ k. text.now ≡ kind_word k) }
{
    if is_word(text, "vrfs") {
        return Some(KindName::Vrfs);
    }
    if is_word(text, "rirs") {
        return Some(KindName::Rirs);
    }
    if is_word(text, "roles") {
        return Some(KindName::Roles);
    }
    if is_word(text, "aggregates") {
        return Some(KindName::Aggregates);
    }
    if is_word(text, "prefixes") {
        return Some(KindName::Prefixes);
    }
    if is_word(text, "ip-ranges") {
        return Some(KindName::Ranges);
    }
    if is_word(text, "ip-addresses") {
        return Some(KindName::Addresses);
    }
    None
}

/// The kind that was given.
pub(crate) fn kind_value(text: Option<&str>) -> Option<KindName>
    ensures { MatchOption result ((k : KindName) → ¬ IsKindValue (option_map (λ t. t.now) text.entry) k) (λ k. IsKindValue (option_map (λ t. t.now) text.entry) k) }
{
    match text {
        Some(text) => kind_named(text),
        None => None,
    }
}

/// The report of this name, with the prefix that was given.
fn report_named(name: &str, prefix: Option<&str>) -> Option<Report>
    ensures { MatchOption result ((r : Report) → ¬ IsReportValue (Some name.now) (option_map (λ t. t.now) prefix.entry) r) (λ r. IsReportValue (Some name.now) (option_map (λ t. t.now) prefix.entry) r) }
{
    if is_word(name, "free") {
        return match number_value(prefix, MOST_ID) {
            Some(id) => Some(Report::Free(id)),
            None => None,
        };
    }
    if prefix.is_some() {
        return None;
    }
    if is_word(name, "tree") {
        return Some(Report::Tree);
    }
    if is_word(name, "utilization") {
        return Some(Report::Utilization);
    }
    None
}

/// The report that was given, with the prefix that was given.
pub(crate) fn report_value(name: Option<&str>, prefix: Option<&str>) -> Option<Report>
    ensures { MatchOption result ((r : Report) → ¬ IsReportValue (option_map (λ t. t.now) name.entry) (option_map (λ t. t.now) prefix.entry) r)
        (λ r. IsReportValue (option_map (λ t. t.now) name.entry) (option_map (λ t. t.now) prefix.entry) r) }
{
    match name {
        Some(name) => report_named(name, prefix),
        None => None,
    }
}

/// The store that was given. `Err` means out of memory.
pub(crate) fn store_value<'a>(
    alloc: Global,
    matches: &ArgMatches<'a>,
) -> Result<Option<Store>, AllocError>
    ensures { IfOk result (λ found. MatchOption found ((s : Store) → ¬ IsStore (rows_of (found_of matches.now)) s) (λ s. IsStore (rows_of (found_of matches.now)) s)) }
{
    let db = value(matches, "db");
    if is_empty_text(db) {
        return Ok(None);
    }
    let Some(global_unique) = yes_value(value(matches, "global-unique")) else {
        return Ok(None);
    };
    let db = text_or_none(alloc, db)?;
    Ok(Some(Store { db, global_unique }))
}
