//! Names that the DNS can hold.

ghost use Rattle.std.specs.Prelude.{◌≡◌, Some, None, IfSome, IfNone};
ghost use Rattle.std.specs.Char.{is_ascii_uppercase};
ghost use Rattle.std.specs.List.{list_any};
ghost use Rattle.reverse_zone.specs.Names.{ends_in_dot, has_star, has_short_labels, fits_dns, ptr_name_of};

use ipam_data::host_names::is_dns_name;

/// How many bytes a label may have (RFC 1035 2.3.4).
const MOST_LABEL_BYTES: usize = 63;

/// How many bytes a name may have without its final period: 255 octets on the wire (RFC 1035 2.3.4).
const MOST_NAME_BYTES: usize = 253;

/// Whether a period is last.
fn ends_in_period(text: &[u8]) -> bool
    ensures { result ≡ ends_in_dot text.now }
{
    matches!(text, [.., b'.'])
}

/// Whether the text has an upper-case ASCII letter.
fn has_upper_case(text: &[u8]) -> bool
    ensures { result ≡ list_any is_ascii_uppercase text.now }
{
    text.iter().any(|byte| byte.is_ascii_uppercase())
}

/// Whether the first label is a star (RFC 4592).
fn is_wildcard(text: &[u8]) -> bool
    ensures { result ≡ has_star text.now }
{
    matches!(text, [b'*'] | [b'*', b'.', ..])
}

/// Whether each label has at most 63 bytes.
fn are_labels_short(text: &[u8]) -> bool
    ensures { result ≡ has_short_labels text.now }
{
    text.split(|byte| *byte == b'.')
        .all(|label| label.len() <= MOST_LABEL_BYTES)
}

/// Whether the DNS can hold the name: it is a host's name in lower case without a star and without a final period, of at
/// most 253 bytes, and no label has more than 63 (RFC 1035 2.3.4). It takes no memory.
#[tactic(auto, unfolding(crate::specs::Names::fits_dns))]
pub fn fits(name: &str) -> bool
    ensures { result ≡ fits_dns name.now }
{
    let bytes = name.as_bytes();
    !bytes.is_empty()
        && bytes.len() <= MOST_NAME_BYTES
        && is_dns_name(bytes)
        && !ends_in_period(bytes)
        && !has_upper_case(bytes)
        && !is_wildcard(bytes)
        && are_labels_short(bytes)
}

/// The name that the DNS has for a row with this `dns_name`: that without a final period, or `None` if it is empty or its
/// first label is a star. Whether the name fits is asked of it afterwards. It takes no memory.
pub fn ptr_name(dns_name: &str) -> Option<&str>
    ensures some { IfSome result (λ name. ptr_name_of dns_name.now ≡ Some name.now) }
    ensures none { IfNone result (ptr_name_of dns_name.now ≡ None) }
{
    if dns_name.is_empty() || is_wildcard(dns_name.as_bytes()) {
        return None;
    }
    match dns_name.strip_suffix('.') {
        Some(name) => Some(name),
        None => Some(dns_name),
    }
}
