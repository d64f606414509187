//! What a prefix list lets in, as `--match` and `--le` say it.

ghost use Rattle.std.specs.Prelude.{◌≡◌, ◌≢◌, ◌≤◌, ℕ, Option, Some, None, option_map, codes, MatchOption};
ghost use Rattle.inet_num.specs.declared.Family.{Family as AnyFamily};
ghost use Rattle.inet_num.specs.Net.{width_of};
ghost use Rattle.command_words.specs.declared.asked.Matching.{Matching as AnyMatching};
ghost use Rattle.command_words.specs.Values.{IsNumberOr};
ghost use Rattle.command_words.specs.Matching.{IsLonger, IsMatchValue};

use crate::asked::Matching;
use inet_num::Family;
use word_values::{is_word, number_or};

/// The greatest length of the family.
fn width(family: Family) -> u32
    ensures value { result ≡ width_of family }
    ensures fits { result ≤ 128 }
{
    match family {
        Family::V4 => 32,
        Family::V6 => 128,
    }
}

/// What is inside a prefix, up to the length that was given, or any.
#[tactic(auto, using(crate::proofs::Matches::most_given))]
fn longer_value(family: Family, most: Option<&str>) -> Option<Matching>
    ensures { MatchOption result ((n : ℕ) → ¬ IsNumberOr (width_of family) (width_of family) (option_map (λ t. t.now) most.entry) n)
        (λ m. IsLonger (λ n. IsNumberOr (width_of family) (width_of family) (option_map (λ t. t.now) most.entry) n) m) }
{
    let width = width(family);
    match number_or(most, width, width) {
        Some(most) => Some(Matching::Longer(most as u8)),
        None => None,
    }
}

/// What is let in without a length.
fn plain_value(text: &str) -> Option<Matching>
    ensures { (family : AnyFamily) → MatchOption result ((m : AnyMatching) → text.now ≢ codes "longer" → ¬ IsMatchValue family (Some text.now) None m)
        (λ m. IsMatchValue family (Some text.now) None m) }
{
    if is_word(text, "addresses") {
        return Some(Matching::Addresses);
    }
    if is_word(text, "routes") {
        return Some(Matching::Routes);
    }
    None
}

/// What the list lets in, by the text of `--match`.
fn match_named(family: Family, text: &str, most: Option<&str>) -> Option<Matching>
    ensures { MatchOption result ((m : AnyMatching) → ¬ IsMatchValue family (Some text.now) (option_map (λ t. t.now) most.entry) m)
        (λ m. IsMatchValue family (Some text.now) (option_map (λ t. t.now) most.entry) m) }
{
    if is_word(text, "longer") {
        return longer_value(family, most);
    }
    if most.is_some() {
        return None;
    }
    plain_value(text)
}

/// What the list lets in: `addresses`, as nothing too, or `routes`, or `longer` with a length from 1 to the family's greatest one, which it has if none
/// is given.
pub(crate) fn match_value(
    family: Family,
    text: Option<&str>,
    most: Option<&str>,
) -> Option<Matching>
    ensures { MatchOption result ((m : AnyMatching) → ¬ IsMatchValue family (option_map (λ t. t.now) text.entry) (option_map (λ t. t.now) most.entry) m)
        (λ m. IsMatchValue family (option_map (λ t. t.now) text.entry) (option_map (λ t. t.now) most.entry) m) }
{
    match text {
        Some(text) => match_named(family, text, most),
        None => if most.is_some() {
            None
        } else {
            Some(Matching::Addresses)
        },
    }
}
