//! The PTR record of a line.

ghost use Rattle.std.specs.Prelude.{◌≡◌, ◌≢◌, ◌++◌, ℕ, List, codes, Some, None, IfOk, IfSome, IfNone, IsTrue, map};
ghost use Rattle.std.specs.Char.{is_ascii_digit};
ghost use Rattle.std.specs.List.{list_all};
ghost use Rattle.reverse_zone.specs.declared.record.Pair.{Pair as PairValue};
ghost use Rattle.reverse_zone.specs.Names.{fits_dns};
ghost use Rattle.reverse_zone.specs.Records.{is_ttl, is_in_ptr, fields_of, IsRecord, IsRecordOf};

use crate::name::fits;
use crate::owner::read_owner;
use crate::words::line_words;
use inet_num::Addr;
use ipam_data::text::Text;
use std::alloc::{AllocError, Global};

/// A host and the name that its PTR record gives it, in lower case and without a final period.
#[derive(Debug, Drop)]
pub struct Pair {
    pub host: Addr,
    pub name: Text,
}

/// The most digits of a time to live.
const MOST_TTL_DIGITS: usize = 10;

/// Whether all bytes are digits.
fn are_digits(word: &[u8]) -> bool
    ensures { result ≡ list_all is_ascii_digit word.now }
{
    word.iter().all(|byte| byte.is_ascii_digit())
}

/// Whether the word is a time to live: one to ten digits.
fn is_ttl_word(word: &[u8]) -> bool
    ensures { result ≡ is_ttl word.now }
{
    !word.is_empty() && word.len() <= MOST_TTL_DIGITS && are_digits(word)
}

/// Whether the two words are the class and the type of a PTR record, in lower case.
fn is_class_and_type(class: &[u8], kind: &[u8]) -> bool
    ensures { result ≡ is_in_ptr class.now kind.now }
{
    class == b"in".as_slice() && kind == b"ptr".as_slice()
}

/// The owner and the name among a record's words, in lower case.
fn record_fields<'a>(words: &[&'a [u8]]) -> Option<(&'a [u8], &'a [u8])>
    ensures some { IfSome result (λ fields. fields_of (map (λ word. word.now) words.now) ≡ Some (fields.0.now, fields.1.now)) }
    ensures none { IfNone result (fields_of (map (λ word. word.now) words.now) ≡ None) }
{
    match words {
        [owner, class, kind, name] => {
            if is_class_and_type(class, kind) {
                Some((owner, name))
            } else {
                None
            }
        }
        [owner, ttl, class, kind, name] => {
            if is_ttl_word(ttl) && is_class_and_type(class, kind) {
                Some((owner, name))
            } else {
                None
            }
        }
        _ => None,
    }
}

/// The name that a record's last word spells, without its final period.
fn read_name(word: &[u8]) -> Option<&str>
    ensures some { IfSome result (λ name. word.now ≡ name.now ++ codes ".") }
    ensures fits { IfSome result (λ name. IsTrue (fits_dns name.now)) }
    ensures none { IfNone result ((name : List ℕ) → IsTrue (fits_dns name) → word.now ≢ name ++ codes ".") }
{
    let [front @ .., b'.'] = word else {
        return None;
    };
    let Ok(name) = str::from_utf8(front) else {
        return None;
    };
    if fits(name) { Some(name) } else { None }
}

/// The host and the name of these words, or `None` if they are no PTR record's.
fn read_words<'a>(words: &[&'a [u8]]) -> Option<(Addr, &'a str)>
    ensures some { IfSome result (λ r. IsRecord (map (λ word. word.now) words.now) (record { host = r.0; name = r.1.now })) }
    ensures none { IfNone result ((pair : PairValue) → ¬ IsRecord (map (λ word. word.now) words.now) pair) }
{
    let (owner, name) = record_fields(words)?;
    let host = read_owner(owner)?;
    let name = read_name(name)?;
    Some((host, name))
}

/// The pair of a line's record, or `None` if the line is no PTR record.
pub(crate) fn read_record(alloc: Global, line: &[u8]) -> Result<Option<Pair>, AllocError>
    ensures some { IfOk result (λ found. IfSome found (IsRecordOf line.now)) }
    ensures none { IfOk result (λ found. IfNone found ((pair : PairValue) → ¬ IsRecordOf line.now pair)) }
{
    let line = line.to_ascii_lowercase(alloc)?;
    let words = line_words(alloc, &line)?;
    let Some((host, name)) = read_words(&words) else {
        return Ok(None);
    };
    let name = Text::of(String::from_str(alloc, name)?);
    Ok(Some(Pair { host, name }))
}
