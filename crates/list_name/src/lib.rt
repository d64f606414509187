//! The name of a prefix list, as commands and routers have it.
#![tactic(auto)]

ghost use Rattle.std.specs.Prelude.{◌≡◌, ◌↔◌, IsTrue};
ghost use Rattle.std.specs.List.{list_all};
ghost use Rattle.list_name.specs.Names.{IsListName, is_name_char};

/// The longest name, in bytes.
const LONGEST: usize = 64;

/// Whether the byte may be in a name.
fn is_name_byte(byte: u8) -> bool
    ensures { result ≡ is_name_char byte }
{
    byte.is_ascii_alphanumeric() || byte == b'-' || byte == b'_'
}

/// Whether all bytes may be in a name.
fn has_name_bytes(name: &[u8]) -> bool
    ensures { result ≡ list_all is_name_char name.now }
{
    name.iter().all(|byte| is_name_byte(*byte))
}

/// Whether the text is the name of a prefix list: 1 to 64 of the ASCII letters, the digits, `-` and `_`.
pub fn is_list_name(name: &str) -> bool
    ensures { IsTrue result ↔ IsListName name.now }
{
    let bytes = name.as_bytes();
    if bytes.is_empty() || bytes.len() > LONGEST {
        return false;
    }
    has_name_bytes(bytes)
}
