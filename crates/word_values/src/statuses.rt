//! Which statuses count, of prefixes and of addresses.

ghost use Rattle.std.specs.Prelude.{◌≡◌, Option, Some, option_map, MatchOption};
ghost use Rattle.word_values.specs.declared.statuses.Statuses.{Statuses as AnyStatuses};
ghost use Rattle.word_values.specs.Statuses.{is_status, are_statuses, has_name, all_statuses, statuses_in, IsStatusesValue};

/// Which statuses count.
#[derive(Clone, Copy, Debug)]
pub struct Statuses {
    pub container: bool,
    pub active: bool,
    pub reserved: bool,
    pub deprecated: bool,
}

/// All of them.
fn all_statuses() -> Statuses
    ensures { result ≡ all_statuses }
{
    Statuses {
        container: true,
        active: true,
        reserved: true,
        deprecated: true,
    }
}

/// Whether it is the name of a status.
fn is_status(word: &[u8]) -> bool
    ensures { result ≡ is_status word.now }
{
    word == b"container".as_slice()
        || word == b"active".as_slice()
        || word == b"reserved".as_slice()
        || word == b"deprecated".as_slice()
}

/// Whether there are names of statuses between the commas.
fn are_statuses(text: &[u8]) -> bool
    ensures { result ≡ are_statuses text.now }
{
    text.split(|byte| *byte == b',').all(|part| is_status(part))
}

/// Whether the name is between the commas.
fn has_name(name: &[u8], text: &[u8]) -> bool
    ensures { result ≡ has_name name.now text.now }
{
    text.split(|byte| *byte == b',').any(|part| name == part)
}

/// The statuses that the text names.
fn statuses_in(text: &[u8]) -> Statuses
    ensures { result ≡ statuses_in text.now }
{
    Statuses {
        container: has_name(b"container", text),
        active: has_name(b"active", text),
        reserved: has_name(b"reserved", text),
        deprecated: has_name(b"deprecated", text),
    }
}

/// The statuses that the text names, or none if a part of it is no status.
fn statuses_of(text: &str) -> Option<Statuses>
    ensures { MatchOption result ((s : AnyStatuses) → ¬ IsStatusesValue (Some text.now) s) (λ s. IsStatusesValue (Some text.now) s) }
{
    let bytes = text.as_bytes();
    if are_statuses(bytes) {
        Some(statuses_in(bytes))
    } else {
        None
    }
}

/// The statuses that were given, with commas between them: `container`, `active`, `reserved`, `deprecated`. All of them if none were given.
pub fn statuses_value(text: Option<&str>) -> Option<Statuses>
    ensures { MatchOption result ((s : AnyStatuses) → ¬ IsStatusesValue (option_map (λ t. t.now) text.entry) s) (λ s. IsStatusesValue (option_map (λ t. t.now) text.entry) s) }
{
    match text {
        Some(text) => statuses_of(text),
        None => Some(all_statuses()),
    }
}
