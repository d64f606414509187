//! Whether the rows that two rows name are one.

ghost use Rattle.std.specs.Prelude.{◌≡◌};
ghost use Rattle.ipam_data.specs.Tables.{is_named, same_name};

/// Whether the row that names this one, if any, names the row of this id.
pub fn names(id: u32, named: Option<u32>) -> bool
    ensures { result ≡ is_named id named }
{
    match named {
        None => false,
        Some(other) => other == id,
    }
}

/// Whether both name the same row, or none.
pub fn is_one_name(a: Option<u32>, b: Option<u32>) -> bool
    ensures { result ≡ same_name a b }
{
    match (a, b) {
        (None, None) => true,
        (Some(a), Some(b)) => a == b,
        (None, Some(_)) => false,
        (Some(_), None) => false,
    }
}
