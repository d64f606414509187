//! Lines and words of a zone file.

ghost use Rattle.std.specs.Prelude.{◌≡◌, ◌≢◌, ◌<◌, ◌∷◌, ◌++◌, map, length, IfOk, IfSome, IfNone};
ghost use Rattle.std.specs.List.{AllByRecursion};
ghost use Rattle.std.specs.Str.Lines.{lines, strip_carriage_return};
ghost use Rattle.reverse_zone.specs.Records.{is_blank, words_of};

use std::alloc::{AllocError, Global};

/// What is before the first such byte, and what follows it.
pub(crate) fn cut_at(text: &[u8], byte: u8) -> Option<(&[u8], &[u8])>
    ensures some { IfSome result (λ parts. text.now ≡ parts.0.now ++ byte ∷ parts.1.now) }
    ensures front { IfSome result (λ parts. AllByRecursion (λ c. c ≢ byte) parts.0.now) }
    ensures none { IfNone result (AllByRecursion (λ c. c ≢ byte) text.now) }
{
    let end = text.iter().position(|other| *other == byte)?;
    Some((&text[..end], &text[end + 1..]))
}

/// Whether the byte is a space or a tab.
fn is_blank_byte(byte: u8) -> bool
    ensures { result ≡ is_blank byte }
{
    byte == b' ' || byte == b'\t'
}

/// The words of a line: what is between its spaces and tabs.
pub(crate) fn line_words(alloc: Global, line: &[u8]) -> Result<Vec<&[u8]>, AllocError>
    ensures { IfOk result (λ v. map (λ word. word.now) v.items ≡ words_of line.now) }
{
    line.split(|byte| is_blank_byte(*byte))
        .filter(|word| !word.is_empty())
        .collect(alloc)
}

/// The line without the one carriage return at its end, if it has one.
fn without_return(line: &[u8]) -> &[u8]
    ensures { result.now ≡ strip_carriage_return line.now }
{
    match line {
        [front @ .., b'\r'] => front,
        _ => line,
    }
}

/// The first line of a text that is not empty, and what follows it.
pub(crate) fn first_line(text: &[u8]) -> (&[u8], &[u8])
    requires { 0 < length text.now }
    ensures line { lines text.now ≡ result.0.now ∷ lines result.1.now }
    ensures shorter { length result.1.now < length text.now }
{
    match cut_at(text, b'\n') {
        Some((line, rest)) => (without_return(line), rest),
        None => (text, &text[text.len()..]),
    }
}
