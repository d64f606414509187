//! What a list asks for of a row, and which rows a page of it shows.

ghost use Rattle.std.specs.Prelude.{◌≡◌, ◌==◌};
ghost use Rattle.ipam_data.specs.Checks.{asks};
ghost use Rattle.ipam_data.specs.Pages.{is_paged};

/// Whether the number is the one that is asked for. It is if none is asked for.
pub fn asks_number(wanted: &Option<u32>, number: u32) -> bool
    ensures { result ≡ asks wanted.now (λ n. number == n) }
{
    match wanted {
        None => true,
        Some(wanted) => number == *wanted,
    }
}

/// Whether the row before which so many meet the filter is on the page.
pub fn is_on_page(before: u32, limit: u32, offset: u32) -> bool
    ensures { result ≡ is_paged before limit offset }
{
    offset <= before && before - offset < limit
}
