//! Names of hosts.

ghost use Rattle.std.specs.Prelude.{◌≡◌, ◌==◌, nat_le, length, reverse};
ghost use Rattle.std.specs.List.{list_all, slice_split};
ghost use Rattle.ipam_data.specs.Texts.{is_slug_char};
ghost use Rattle.ipam_data.specs.HostNames.{is_dot, after_dot, bare, after_star, is_label, are_labels, is_dns_name};

/// Whether the byte may be in a label.
fn is_label_byte(byte: u8) -> bool
    ensures { result ≡ is_slug_char byte }
{
    byte.is_ascii_alphanumeric() || byte == b'-' || byte == b'_'
}

/// Whether all bytes may be in a label.
fn are_label_bytes(text: &[u8]) -> bool
    ensures { result ≡ list_all is_slug_char text.now }
{
    text.iter().all(|byte| is_label_byte(*byte))
}

/// Whether the text is a label: one or more letters, digits, hyphens and underscores.
fn is_one_label(text: &[u8]) -> bool
    ensures { result ≡ is_label text.now }
{
    text.len() >= 1 && are_label_bytes(text)
}

/// Whether labels are between the periods of the text.
fn are_all_labels(text: &[u8]) -> bool
    ensures { result ≡ are_labels text.now }
{
    text.split(|byte| *byte == b'.')
        .all(|part| is_one_label(part))
}

/// The text without a last period.
fn without_last_dot(text: &[u8]) -> &[u8]
    ensures { result.now ≡ bare text.now }
{
    match text {
        [rest @ .., last] => {
            if *last == b'.' {
                return rest;
            }
            text
        }
        [] => text,
    }
}

/// What follows a star and a period at the front.
fn past_star(text: &[u8]) -> &[u8]
    ensures { result.now ≡ after_star text.now }
{
    match text {
        [star, dot, rest @ ..] => {
            if *star == b'*' && *dot == b'.' {
                return rest;
            }
            text
        }
        _ => text,
    }
}

/// Whether the text is the name of a host: empty, or labels of ASCII letters, digits, hyphens and underscores joined by periods,
/// the first of which may be a star; one more period may come last (RFC 1035 2.3.1, RFC 4592).
#[tactic(auto, unfolding(crate::specs::HostNames::is_dns_name))]
pub fn is_dns_name(text: &[u8]) -> bool
    ensures { result ≡ is_dns_name text.now }
{
    if text.is_empty() {
        return true;
    }
    let text = without_last_dot(text);
    text == b"*".as_slice() || are_all_labels(past_star(text))
}
