//! How the text of a parameter is read. `None` is one that is malformed.

ghost use Rattle.std.specs.Prelude.{◌≡◌, None, Some, bytes_eq, codes};
ghost use Rattle.rest_query.specs.Readings.{test_of, IsIdTest, IsRowTest, IsBlockTest, IsAreaTest, IsAreaOf, HasBlock, IsLimit, IsOffset, HasId, HasIdOrNull};
ghost use Rattle.rest_query.specs.Readings as spec;

use crate::asked::Available;
use crate::numbers::{is_decimal, number_below, number_of};
use inet_num::{Block, Family, read_addr, read_block};
use ipam_data::text::Text;

/// The family that a text names.
fn family_named(text: &str) -> Option<Family>
    ensures { result ≡ spec.family_named text.now }
{
    match text {
        "4" => Some(Family::V4),
        "6" => Some(Family::V6),
        _ => None,
    }
}

/// The test of a family.
pub(crate) fn family_test(text: &Option<Text>) -> Option<Option<Family>>
    ensures { result ≡ test_of spec.family_named text.now }
{
    match text {
        None => Some(None),
        Some(text) => family_named(text.as_str()).map(Some),
    }
}

/// The id that a text names.
fn id_named(text: &str) -> Option<Option<Option<u32>>>
    ensures { HasId text.now result }
{
    match number_of(text) {
        Some(id) if id > 0 && id < 4294967296 && is_decimal(text, id) => {
            Some(Some(Some(id as u32)))
        }
        _ => None,
    }
}

/// The id that a text is.
fn row_named(text: &str) -> Option<Option<u32>>
    ensures { IsRowTest (Some text.now) result }
{
    match number_of(text) {
        Some(id) if id > 0 && id < 4294967296 && is_decimal(text, id) => Some(Some(id as u32)),
        _ => None,
    }
}

/// The test of an id that each row has: a number from 1 to 4294967295, in decimal. `None` is one that is malformed, and an inner `None` one that
/// is not given.
pub fn row_test(text: &Option<Text>) -> Option<Option<u32>>
    ensures { IsRowTest text.now result }
{
    match text {
        None => Some(None),
        Some(text) => row_named(text.as_str()),
    }
}

/// The id that a text names, or that none is meant.
fn id_or_null(text: &str) -> Option<Option<Option<u32>>>
    ensures { HasIdOrNull (bytes_eq text.now (codes "null")) text.now result }
{
    if text == "null" {
        return Some(Some(None));
    }
    id_named(text)
}

/// The test of an id, which may be that there is none.
pub(crate) fn id_test(text: &Option<Text>) -> Option<Option<Option<u32>>>
    ensures { IsIdTest text.now result }
{
    match text {
        None => Some(None),
        Some(text) => id_or_null(text.as_str()),
    }
}

/// The block that a text is.
fn block_of(text: &str) -> Option<Block>
    ensures { HasBlock text.now result }
{
    match read_block(text.as_bytes()) {
        Ok(block) => Some(block),
        Err(_) => None,
    }
}

/// The block of an address alone.
fn host_block(text: &str) -> Option<Option<Block>>
    ensures { IsAreaOf None text.now result }
{
    let Ok(addr) = read_addr(text.as_bytes()) else {
        return None;
    };
    match Block::of(addr, addr.family().width()) {
        Some(block) => Some(Some(block)),
        None => unreachable!(),
    }
}

/// The block that a text is, or that of an address alone.
fn area_of(text: &str) -> Option<Option<Block>>
    ensures { IsAreaTest (Some text.now) result }
{
    match block_of(text) {
        Some(block) => Some(Some(block)),
        None => host_block(text),
    }
}

/// The test of a block or an address.
pub(crate) fn area_test(text: &Option<Text>) -> Option<Option<Block>>
    ensures { IsAreaTest text.now result }
{
    match text {
        None => Some(None),
        Some(text) => area_of(text.as_str()),
    }
}

/// The test of a block.
pub(crate) fn block_test(text: &Option<Text>) -> Option<Option<Block>>
    ensures { IsBlockTest text.now result }
{
    let Some(text) = text else {
        return Some(None);
    };
    match block_of(text.as_str()) {
        Some(block) => Some(Some(block)),
        None => None,
    }
}

/// At most so many things are listed.
const MOST_LISTED: u32 = 1000;

/// So many rows or addresses are listed if no limit is given.
pub(crate) const DEFAULT_LIMIT: u32 = 50;

/// How many available things are listed if no limit is given.
pub(crate) fn available_limit(available: Available) -> u32
    ensures { result ≡ spec.available_limit available }
{
    match available {
        Available::Blocks => MOST_LISTED,
        Available::Addrs => DEFAULT_LIMIT,
    }
}

/// The number of a limit that counts.
fn limit_of(number: u64) -> u32
    ensures { result ≡ spec.limit_of number }
{
    if number == 0 || number > u64::from(MOST_LISTED) {
        return MOST_LISTED;
    }
    number as u32
}

/// A limit, which is the default if it is absent.
pub(crate) fn limit(text: &Option<Text>, default: u32) -> Option<u32>
    ensures { IsLimit default text.now result }
{
    let Some(text) = text else {
        return Some(default);
    };
    match number_below(text.as_str(), 10000000000) {
        Some(number) => Some(limit_of(number)),
        None => None,
    }
}

/// An offset.
pub(crate) fn offset(text: &Option<Text>) -> Option<u32>
    ensures { IsOffset text.now result }
{
    let Some(text) = text else {
        return Some(0);
    };
    match number_below(text.as_str(), 4294967296) {
        Some(number) => Some(number as u32),
        None => None,
    }
}
