//! What a text says, if one was given: a number, or a text that is not empty.

ghost use Rattle.std.specs.Prelude.{◌≡◌, ◌<◌, ◌^◌, ◌↔◌, ◌∷◌, ℕ, Option, List, [], Some, decimal, map, option_map, IfOk, IsTrue, MatchOption};
ghost use Rattle.word_values.specs.Values.{main_name, IsNumberOr, IsNumberValue, IsTextValue};

use crate::text::WordText;
use itoa::Buffer;
use std::alloc::{AllocError, Global};

/// The most workers of `serve`.
pub const MOST_WORKERS: u32 = 32;
/// The most connections of a worker.
pub const MOST_CONNECTIONS: u32 = 1_000_000_000;

/// The first word.
pub fn first_word<'a>(words: &'a [&'a str]) -> Option<&'a str>
    ensures { MatchOption result (map (λ w. w.now) words.entry.now ≡ []) (λ name. (rest : List (List ℕ)) × (map (λ w. w.now) words.entry.now ≡ name.now ∷ rest)) }
{
    match words {
        [name, ..] => Some(*name),
        [] => None,
    }
}

/// Whether the word is this one.
pub fn is_word(word: &str, name: &str) -> bool
    ensures { IsTrue result ↔ (word.now ≡ name.now) }
{
    word == name
}

/// The name of a command by its first word: `--version` and `-V` are other names of `version`, `--help` and `-h` of `help`. Any other word is itself.
pub fn main_name<'a>(word: &'a str) -> &'a str
    ensures { result.now ≡ main_name word.now }
{
    if word == "--version" || word == "-V" {
        "version"
    } else if word == "--help" || word == "-h" {
        "help"
    } else {
        word
    }
}

/// The number that the text is read as: at least every decimal text of one is.
fn number_read(text: &str) -> Option<u32>
    ensures { (n : ℕ) → n < 2 ^ 32 → text.now ≡ decimal n → result ≡ Some n }
{
    match text.parse::<u32>() {
        Ok(n) => Some(n),
        Err(_) => None,
    }
}

/// Whether the text is the decimal one of this number, without a sign or a leading zero.
fn is_decimal(text: &str, n: u32) -> bool
    ensures { IsTrue result ↔ (text.now ≡ decimal n) }
{
    let mut room = Buffer::new();
    text.as_bytes() == room.format(n).as_bytes()
}

/// The number from 1 to the most that the text is in decimal.
pub fn number_of(text: &str, most: u32) -> Option<u32>
    ensures { MatchOption result ((n : ℕ) → ¬ IsNumberValue most (Some text.now) n) (λ n. IsNumberValue most (Some text.now) n) }
{
    match number_read(text) {
        Some(n) if n > 0 && n <= most && is_decimal(text, n) => Some(n),
        _ => None,
    }
}

/// The number from 1 to the most that was given.
pub fn number_value(text: Option<&str>, most: u32) -> Option<u32>
    ensures { MatchOption result ((n : ℕ) → ¬ IsNumberValue most (option_map (λ t. t.now) text.entry) n) (λ n. IsNumberValue most (option_map (λ t. t.now) text.entry) n) }
{
    match text {
        Some(text) => number_of(text, most),
        None => None,
    }
}

/// The number that was given, or the usual one.
pub fn number_or(text: Option<&str>, usual: u32, most: u32) -> Option<u32>
    ensures { MatchOption result ((n : ℕ) → ¬ IsNumberOr usual most (option_map (λ t. t.now) text.entry) n) (λ n. IsNumberOr usual most (option_map (λ t. t.now) text.entry) n) }
{
    match text {
        Some(text) => number_of(text, most),
        None => Some(usual),
    }
}

/// The text that was given, if it is not empty. `Err` means out of memory.
pub fn text_value(alloc: Global, text: Option<&str>) -> Result<Option<WordText>, AllocError>
    ensures { IfOk result (λ found. MatchOption found ((t : List ℕ) → ¬ IsTextValue (option_map (λ t. t.now) text.entry) t) (λ t. IsTextValue (option_map (λ t. t.now) text.entry) t)) }
{
    let Some(text) = text else {
        return Ok(None);
    };
    if is_word(text, "") {
        return Ok(None);
    }
    Ok(Some(WordText::of(alloc, text)?))
}

/// Whether an empty text was given.
pub fn is_empty_text(text: Option<&str>) -> bool
    ensures { IsTrue result ↔ (option_map (λ t. t.now) text.entry ≡ Some []) }
{
    match text {
        Some(text) => text.is_empty(),
        None => false,
    }
}

/// The text that was given, if any. `Err` means out of memory.
pub fn text_or_none(alloc: Global, text: Option<&str>) -> Result<Option<WordText>, AllocError>
    ensures { IfOk result (λ found. found ≡ option_map (λ t. t.now) text.entry) }
{
    match text {
        Some(text) => Ok(Some(WordText::of(alloc, text)?)),
        None => Ok(None),
    }
}
