//! The columns of stored rows. A text is read only if it is just the one that is written.

ghost use Rattle.std.specs.Prelude.{◌≡◌, ◌↔◌, ◌∷◌, [], ℕ, ◌<◌, IfOk, IsTrue, Some, decimal};
ghost use Rattle.inet_num.specs.Net.{IsBlock};
ghost use Rattle.inet_num.specs.Text.{block_text_of, IsHostText};
ghost use Rattle.ipam_data.specs.Hosts.{IsMasked, AreEnds};
ghost use Rattle.ipam_data.specs.Texts.{IsDistinguisher, IsWeight, IsLowered};
ghost use Rattle.stored_tables.specs.Stored.{flag_text, optional_text, reference_text, prefix_status_text, range_status_text, address_status_text, address_role_text};
ghost use Rattle.stored_tables.specs.Reading.{IsRead, IsAny, IsWord, IsAbsentOr, masked_text, ends_texts};

use crate::tables::Text;
use inet_num::{Addr, Block, block_text, host_text, read_block, read_host};
use ipam_data::address::{AddressRole, AddressStatus};
use ipam_data::host::{Ends, Host};
use ipam_data::prefix::PrefixStatus;
use ipam_data::range::RangeStatus;
use ipam_data::text::{Bounded, Distinguisher, DnsName, DnsText, Tested, Weight};
use itoa::Buffer;
use std::alloc::{AllocError, Global};

// ---- numbers, flags and references

/// The truth value of a text.
pub(crate) fn read_flag(text: &Text) -> Option<bool>
    ensures { IsRead IsAny flag_text text.now result }
{
    let text = text.as_str();
    if text == "true" {
        return Some(true);
    }
    if text == "false" {
        return Some(false);
    }
    None
}

/// The number that the text is read as: at least every decimal text of one is.
fn number_of(text: &str) -> Option<u32>
    ensures { (n : ℕ) → n < 4294967296 → text.now ≡ decimal n → result ≡ Some n }
{
    match text.parse::<u32>() {
        Ok(n) => Some(n),
        Err(_) => None,
    }
}

/// Whether the text is the decimal one of this number, without a sign or a leading zero.
fn is_decimal(text: &str, n: u32) -> bool
    ensures { IsTrue result ↔ (text.now ≡ decimal n) }
{
    let mut room = Buffer::new();
    text == room.format(n)
}

/// The number of a text.
fn read_decimal(text: &str) -> Option<u32>
    ensures { IsRead IsWord decimal text.now result }
{
    match number_of(text) {
        Some(n) => if is_decimal(text, n) { Some(n) } else { None },
        None => None,
    }
}

/// The number of a text.
pub(crate) fn read_number(text: &Text) -> Option<u32>
    ensures { IsRead IsWord decimal text.now result }
{
    read_decimal(text.as_str())
}

/// The weight of a text.
pub(crate) fn read_weight(text: &Text) -> Option<Weight>
    ensures { IsRead IsWeight decimal text.now result }
{
    match read_number(text) {
        Some(n) => if n > 32767 {
            None
        } else {
            Weight::of(n as u16)
        },
        None => None,
    }
}

/// The id of a text that may be empty.
pub(crate) fn read_reference(text: &Text) -> Option<Option<u32>>
    ensures { IsRead (IsAbsentOr IsWord) reference_text text.now result }
{
    let text = text.as_str();
    if text.is_empty() {
        return Some(None);
    }
    match read_decimal(text) {
        Some(n) => Some(Some(n)),
        None => None,
    }
}

// ---- statuses and roles

/// The status of a prefix.
pub(crate) fn read_prefix_status(text: &Text) -> Option<PrefixStatus>
    ensures { IsRead IsAny prefix_status_text text.now result }
{
    let text = text.as_str();
    if text == "container" {
        return Some(PrefixStatus::Container);
    }
    if text == "active" {
        return Some(PrefixStatus::Active);
    }
    if text == "reserved" {
        return Some(PrefixStatus::Reserved);
    }
    if text == "deprecated" {
        return Some(PrefixStatus::Deprecated);
    }
    None
}

/// The status of a range.
pub(crate) fn read_range_status(text: &Text) -> Option<RangeStatus>
    ensures { IsRead IsAny range_status_text text.now result }
{
    let text = text.as_str();
    if text == "active" {
        return Some(RangeStatus::Active);
    }
    if text == "reserved" {
        return Some(RangeStatus::Reserved);
    }
    if text == "deprecated" {
        return Some(RangeStatus::Deprecated);
    }
    None
}

/// The status of an address.
pub(crate) fn read_address_status(text: &Text) -> Option<AddressStatus>
    ensures { IsRead IsAny address_status_text text.now result }
{
    let text = text.as_str();
    if text == "active" {
        return Some(AddressStatus::Active);
    }
    if text == "reserved" {
        return Some(AddressStatus::Reserved);
    }
    if text == "deprecated" {
        return Some(AddressStatus::Deprecated);
    }
    if text == "dhcp" {
        return Some(AddressStatus::Dhcp);
    }
    if text == "slaac" {
        return Some(AddressStatus::Slaac);
    }
    None
}

/// The role of an address, of a text that may be empty.
pub(crate) fn read_address_role(text: &Text) -> Option<Option<AddressRole>>
    ensures { IsRead IsAny address_role_text text.now result }
{
    let text = text.as_str();
    if text.is_empty() {
        return Some(None);
    }
    if text == "loopback" {
        return Some(Some(AddressRole::Loopback));
    }
    if text == "secondary" {
        return Some(Some(AddressRole::Secondary));
    }
    if text == "anycast" {
        return Some(Some(AddressRole::Anycast));
    }
    if text == "vip" {
        return Some(Some(AddressRole::Vip));
    }
    if text == "vrrp" {
        return Some(Some(AddressRole::Vrrp));
    }
    if text == "hsrp" {
        return Some(Some(AddressRole::Hsrp));
    }
    if text == "glbp" {
        return Some(Some(AddressRole::Glbp));
    }
    if text == "carp" {
        return Some(Some(AddressRole::Carp));
    }
    None
}

// ---- blocks and addresses

/// The block of a text.
pub(crate) fn read_block_text(text: &Text) -> Option<Block>
    ensures { IsRead IsBlock block_text_of text.now result }
{
    match read_block(text.as_str().as_bytes()) {
        Ok(block) => {
            let written = block_text(block);
            if written.as_str() == text.as_str() {
                Some(block)
            } else {
                None
            }
        }
        Err(_) => None,
    }
}

/// This address with its mask, if the text is the one that is written of it.
fn host_if_written(addr: Addr, len: u8, text: &Text) -> Option<Host>
    requires { IsHostText text.now addr len }
    ensures { IsRead IsMasked masked_text text.now result }
{
    let host = match Host::of(addr, len) {
        Some(host) => host,
        None => return None,
    };
    let written = host_text(host.addr(), host.len());
    if written.as_str() == text.as_str() {
        Some(host)
    } else {
        None
    }
}

/// The address and the mask of a text.
pub(crate) fn read_host_text(text: &Text) -> Option<Host>
    ensures { IsRead IsMasked masked_text text.now result }
{
    match read_host(text.as_str().as_bytes()) {
        Ok((addr, len)) => host_if_written(addr, len, text),
        Err(_) => None,
    }
}

/// The ends of two hosts, if they have one mask.
fn ends_of(start: Host, end: Host) -> Option<Ends>
    ensures { IsRead AreEnds ends_texts (masked_text start ∷ masked_text end ∷ []) result }
{
    if start.len() != end.len() {
        return None;
    }
    Ends::of(start.addr(), end.addr(), start.len())
}

/// The ends of a range, of their two texts.
pub(crate) fn read_ends(start: &Text, end: &Text) -> Option<Ends>
    ensures { IsRead AreEnds ends_texts (start.now ∷ end.now ∷ []) result }
{
    let first = match read_host_text(start) {
        Some(host) => host,
        None => return None,
    };
    let last = match read_host_text(end) {
        Some(host) => host,
        None => return None,
    };
    ends_of(first, last)
}

// ---- texts

/// The text within bounds that a text is. `Err` means out of memory.
pub(crate) fn read_text<B: Tested>(
    alloc: Global,
    text: &Text,
) -> Result<Option<Bounded<B>>, AllocError>
    ensures { IfOk result (λ n. IsRead B.admits (λ bytes. bytes) text.now n) }
{
    Ok(Bounded::<B>::of(text.to_string(alloc)?))
}

/// The route distinguisher of a text that may be empty. `Err` means out of memory.
pub(crate) fn read_distinguisher(
    alloc: Global,
    text: &Text,
) -> Result<Option<Option<Distinguisher>>, AllocError>
    ensures { IfOk result (λ n. IsRead (IsAbsentOr IsDistinguisher) optional_text text.now n) }
{
    if text.as_str().is_empty() {
        return Ok(Some(None));
    }
    match Distinguisher::of(text.to_string(alloc)?) {
        Some(rd) => Ok(Some(Some(rd))),
        None => Ok(None),
    }
}

/// The name of a host, of a text that is in lower case already. `Err` means out of memory.
pub(crate) fn read_dns_name(alloc: Global, text: &Text) -> Result<Option<DnsName>, AllocError>
    ensures { IfOk result (λ n. IsRead IsLowered (λ bytes. bytes) text.now n) }
{
    let given = match DnsText::of(text.to_string(alloc)?) {
        Some(given) => given,
        None => return Ok(None),
    };
    let name = given.lowered()?;
    if name.as_str() == text.as_str() {
        Ok(Some(name))
    } else {
        Ok(None)
    }
}
