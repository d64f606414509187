//! Rows and updates as they are stored.

ghost use Rattle.std.specs.Prelude.{◌≡◌, ◌≤◌, IfOk, decimal, codes, map};
ghost use Rattle.inet_num.specs.Text.{block_text_of};
ghost use Rattle.stored_tables.specs.Stored.{flag_text, optional_text, reference_text, host_text, prefix_status_text, range_status_text, address_status_text, address_role_text, stored_columns, stored_row, change_of};

use crate::address::{address_columns, write_address};
use crate::aggregate::{aggregate_columns, write_aggregate};
use crate::prefix::{prefix_columns, write_prefix};
use crate::range::{range_columns, write_range};
use crate::rir::{rir_columns, write_rir};
use crate::role::{role_columns, write_role};
use crate::tables::{Change, Row, Rows, Text};
use crate::vrf::{vrf_columns, write_vrf};
use crate::word::Word;
use inet_num::{Addr, Block, block_text, host_text};
use ipam_data::address::{AddressRole, AddressStatus};
use ipam_data::kinds::Kind;
use ipam_data::prefix::PrefixStatus;
use ipam_data::range::RangeStatus;
use ipam_data::replies::View;
use ipam_data::text::Distinguisher;
use ipam_data::update::Update;
use std::alloc::{AllocError, Global};

/// A text of these characters.
pub(crate) fn words(alloc: Global, text: &str) -> Result<Text, AllocError>
    ensures { IfOk result (λ t. t ≡ text.now) }
{
    Ok(Text::of(String::from_str(alloc, text)?))
}

/// A block.
pub(crate) fn block_words(alloc: Global, block: Block) -> Result<Text, AllocError>
    ensures { IfOk result (λ t. t ≡ block_text_of block) }
{
    words(alloc, block_text(block).as_str())
}

/// An address with its mask.
pub(crate) fn host_words(alloc: Global, addr: Addr, len: u8) -> Result<Text, AllocError>
    ensures { IfOk result (λ t. t ≡ host_text addr len) }
{
    words(alloc, host_text(addr, len).as_str())
}

/// A number.
pub(crate) fn number_words(alloc: Global, number: u32) -> Result<Text, AllocError>
    ensures { IfOk result (λ t. t ≡ decimal number) }
{
    Ok(Text::of(format!(in alloc; "{number}")?))
}

/// A truth value.
pub(crate) fn flag_words(flag: bool) -> Text
    ensures { result ≡ flag_text flag }
{
    if flag {
        Text::fixed(Word::True)
    } else {
        Text::fixed(Word::False)
    }
}

/// An id that may be absent.
pub(crate) fn reference_words(alloc: Global, id: Option<u32>) -> Result<Text, AllocError>
    ensures { IfOk result (λ t. t ≡ reference_text id) }
{
    match id {
        None => Ok(Text::fixed(Word::Empty)),
        Some(id) => Ok(Text::of(format!(in alloc; "{id}")?)),
    }
}

/// A route distinguisher that may be absent.
pub(crate) fn distinguisher_words(
    alloc: Global,
    rd: &Option<Distinguisher>,
) -> Result<Text, AllocError>
    ensures { IfOk result (λ t. t ≡ optional_text rd.now) }
{
    match rd {
        None => Ok(Text::fixed(Word::Empty)),
        Some(rd) => words(alloc, rd.as_str()),
    }
}

/// The status of a prefix.
pub(crate) fn status_words(status: PrefixStatus) -> Text
    ensures { result ≡ prefix_status_text status }
{
    match status {
        PrefixStatus::Container => Text::fixed(Word::Container),
        PrefixStatus::Active => Text::fixed(Word::Active),
        PrefixStatus::Reserved => Text::fixed(Word::Reserved),
        PrefixStatus::Deprecated => Text::fixed(Word::Deprecated),
    }
}

/// The status of a range.
pub(crate) fn range_status_words(status: RangeStatus) -> Text
    ensures { result ≡ range_status_text status }
{
    match status {
        RangeStatus::Active => Text::fixed(Word::Active),
        RangeStatus::Reserved => Text::fixed(Word::Reserved),
        RangeStatus::Deprecated => Text::fixed(Word::Deprecated),
    }
}

/// The status of an address.
pub(crate) fn address_status_words(status: AddressStatus) -> Text
    ensures { result ≡ address_status_text status }
{
    match status {
        AddressStatus::Active => Text::fixed(Word::Active),
        AddressStatus::Reserved => Text::fixed(Word::Reserved),
        AddressStatus::Deprecated => Text::fixed(Word::Deprecated),
        AddressStatus::Dhcp => Text::fixed(Word::Dhcp),
        AddressStatus::Slaac => Text::fixed(Word::Slaac),
    }
}

/// The role of an address, that may be absent.
pub(crate) fn address_role_words(role: Option<AddressRole>) -> Text
    ensures { result ≡ address_role_text role }
{
    match role {
        None => Text::fixed(Word::Empty),
        Some(AddressRole::Loopback) => Text::fixed(Word::Loopback),
        Some(AddressRole::Secondary) => Text::fixed(Word::Secondary),
        Some(AddressRole::Anycast) => Text::fixed(Word::Anycast),
        Some(AddressRole::Vip) => Text::fixed(Word::Vip),
        Some(AddressRole::Vrrp) => Text::fixed(Word::Vrrp),
        Some(AddressRole::Hsrp) => Text::fixed(Word::Hsrp),
        Some(AddressRole::Glbp) => Text::fixed(Word::Glbp),
        Some(AddressRole::Carp) => Text::fixed(Word::Carp),
    }
}

/// The columns of the stored rows of a kind past the id, in the order of their texts: the names under which a file keeps them.
pub fn column_names(kind: Kind) -> &'static [&'static str]
    ensures { map (λ c. c.now) result.now ≡ stored_columns kind }
{
    match kind {
        Kind::Vrfs => vrf_columns(),
        Kind::Rirs => rir_columns(),
        Kind::Roles => role_columns(),
        Kind::Aggregates => aggregate_columns(),
        Kind::Prefixes => prefix_columns(),
        Kind::Ranges => range_columns(),
        Kind::Addresses => address_columns(),
    }
}

/// The stored row of a row as it is answered, whose figures are not stored. `Err` means out of memory.
pub fn write_row(alloc: Global, view: &View) -> Result<Row, AllocError>
    ensures { IfOk result (λ r. r ≡ stored_row view.now) }
{
    match view {
        View::Vrf(row) => write_vrf(alloc, row),
        View::Rir(row) => write_rir(alloc, row),
        View::Role(row) => write_role(alloc, row),
        View::Aggregate(row) => write_aggregate(alloc, row),
        View::Prefix {
            row,
            depth: _,
            children: _,
        } => write_prefix(alloc, row),
        View::IpRange(row) => write_range(alloc, row),
        View::IpAddress(row) => write_address(alloc, row),
    }
}

/// The stored rows of rows as they are answered.
fn write_rows(alloc: Global, views: &[View]) -> Result<Rows, AllocError>
    ensures { IfOk result (λ r. r ≡ map stored_row views.now) }
{
    let mut rows = Vec::with_capacity(alloc, views.len())?;
    for view in views {
        rows.push(write_row(alloc, view)?)?;
    }
    Ok(Rows::of(rows))
}

/// The change of stored tables that an update makes. `Err` means out of memory.
pub fn write_change(alloc: Global, update: &Update) -> Result<Change, AllocError>
    ensures { IfOk result (λ c. c ≡ change_of update.now) }
{
    Ok(Change {
        puts: write_rows(alloc, update.puts.as_slice())?,
        cuts: update.cuts.copy(alloc)?,
        next: update.next.copy(alloc)?,
    })
}
