//! Addresses, hosts and blocks read from text.

ghost use Rattle.std.specs.Prelude.{◌≡◌, ◌≢◌, ℕ, ◌<◌, ◌≤◌, ◌∷◌, ◌++◌, IfOk, IfErr, IfSome, IfNone, decimal, List};
ghost use Rattle.inet_num.specs.Net.{Address, IsAddress, Cidr, IsBlock, width_of};
ghost use Rattle.inet_num.specs.Text.{front_of, HasNoSlash, Spells, IsAddressText, IsHostText, IsBlockText, WritingIsRead, WrittenAddressIsRead, CanonicalTextIsOne};
ghost use Rattle.inet_num.specs.Fault.{IsAddressFault, IsHostFault, IsBlockFault, ReadingIsOne};
ghost use Rattle.inet_num.specs.declared.Family.TheVariants.{V4, V6};

use crate::fault::address_fault;
use crate::{Addr, Block, Family, low_ones};
use std::net::{Ipv4Addr, Ipv6Addr};

/// Why a text is no address, host or block. If several hold, the one is the first of Shape, then Octet or Group from the
/// left, Length, HostBits. An address text with a colon is one of IPv6 (RFC 4291 2.2), every other one of IPv4.
#[derive(Clone, Copy, Debug)]
pub enum TextFault {
    /// A part between periods is not a decimal number from 0 to 255 without a leading zero.
    Octet,
    /// A part between colons is not one to four hexadecimal digits. So is a dotted one that is not the last.
    Group,
    /// The number of parts or groups is wrong, `::` occurs twice, or a single colon comes first or last.
    Shape,
    /// What follows the first slash is not a decimal number without a leading zero from 0 to the family's width, or no slash
    /// is there although a block is read.
    Length,
    /// The address has a bit set past the length. It carries the block with those bits cleared.
    HostBits(Block),
}

/// Reads an IPv4 address.
fn read_quad(text: &[u8]) -> Option<u32>
    ensures some { IfSome result (λ n. Spells text.now V4 n) }
    ensures none { IfNone result ((n : ℕ) → ¬ Spells text.now V4 n) }
{
    match Ipv4Addr::parse_ascii(text) {
        Ok(addr) => Some(addr.to_bits()),
        Err(_) => None,
    }
}

/// Reads an IPv6 address.
fn read_groups(text: &[u8]) -> Option<u128>
    ensures some { IfSome result (λ n. Spells text.now V6 n) }
    ensures none { IfNone result ((n : ℕ) → ¬ Spells text.now V6 n) }
{
    match Ipv6Addr::parse_ascii(text) {
        Ok(addr) => Some(addr.to_bits()),
        Err(_) => None,
    }
}

/// Reads an address that has no length after it, as `10.0.0.1` or `2001:db8::1` (RFC 4291 2.2). It takes no memory. If
/// the text is no address's, the fault says why, and is the first that holds: Shape, or else Octet or Group.
pub fn read_addr(text: &[u8]) -> Result<Addr, TextFault>
    ensures ok { IfOk result (IsAddressText text.now) }
    ensures in_range { IfOk result IsAddress }
    ensures fault { IfErr result (IsAddressFault text.now) }
{
    match read_quad(text) {
        Some(value) => Ok(Addr {
            family: Family::V4,
            value: u128::from(value),
        }),
        None => match read_groups(text) {
            Some(value) => Ok(Addr {
                family: Family::V6,
                value,
            }),
            None => Err(address_fault(text)),
        },
    }
}

/// The number that this text is the decimal text of, up to 255.
fn read_byte(text: &[u8]) -> Option<u8>
    ensures some { IfSome result (λ n. text.now ≡ decimal n) }
    ensures none { IfNone result ((n : ℕ) → n < 256 → text.now ≢ decimal n) }
{
    if text.len() < 1 {
        return None;
    }
    if text.len() > 3 {
        return None;
    }
    if text.len() > 1 {
        if text[0] == b'0' {
            return None;
        }
    }
    let mut value = 0u32;
    'digits: for byte in text {
        let Some(digit) = char::from(*byte).to_digit(10) else {
            return None;
        };
        value = value * 10 + digit;
    }
    if value > 255 {
        return None;
    }
    Some(value as u8)
}

/// The length that this text is the decimal text of, up to the family's width.
fn read_length(text: &[u8], family: Family) -> Option<u8>
    ensures some { IfSome result (λ n. text.now ≡ decimal n) }
    ensures short { IfSome result (λ n. n ≤ width_of family) }
    ensures none { IfNone result ((n : ℕ) → n ≤ width_of family → text.now ≢ decimal n) }
{
    let Some(len) = read_byte(text) else {
        return None;
    };
    if len > family.width() {
        return None;
    }
    Some(len)
}

/// What is before the first slash, and what follows it.
fn cut(text: &[u8]) -> (&[u8], Option<&[u8]>)
    ensures front { result.0.now ≡ front_of text.now }
    ensures some { IfSome result.1 (λ rest. text.now ≡ front_of text.now ++ 47 ∷ rest.now) }
    ensures none { IfNone result.1 ((rest : List ℕ) → text.now ≢ front_of text.now ++ 47 ∷ rest) }
    ensures whole { IfNone result.1 (HasNoSlash text.now) }
{
    'scan: for i in 0..text.len() {
        if text[i] == b'/' {
            return (&text[..i], Some(&text[i + 1..]));
        }
    }
    (text, None)
}

/// Reads an address with a length after it or none, as `10.0.0.1/24` or `2001:db8::1`: the address and the length,
/// which without `/L` is the family's width. Bits past the length may be set. It takes no memory. If the text is no
/// host's, the fault says why, and is the first that holds in the order Shape, Octet or Group, Length.
pub fn read_host(text: &[u8]) -> Result<(Addr, u8), TextFault>
    ensures ok { IfOk result (λ host. IsHostText text.now host.0 host.1) }
    ensures in_range { IfOk result (λ host. IsAddress host.0) }
    ensures fault { IfErr result (IsHostFault text.now) }
{
    let (front, rest) = cut(text);
    let addr = match read_addr(front) {
        Ok(addr) => addr,
        Err(none) => return Err(none),
    };
    let Some(rest) = rest else {
        let width = addr.family.width();
        return Ok((addr, width));
    };
    let Some(len) = read_length(rest, addr.family) else {
        return Err(TextFault::Length);
    };
    Ok((addr, len))
}

/// Reads a block: an address, a slash and a length, as `10.0.0.0/8` (RFC 4632 3.1) or `2001:db8::/32` (RFC 4291 2.3). It
/// takes no memory. If the text is no block's, the fault says why, and is the first that holds in the order Shape, Octet
/// or Group, Length, HostBits.
pub fn read_block(text: &[u8]) -> Result<Block, TextFault>
    ensures ok { IfOk result (IsBlockText text.now) }
    ensures fault { IfErr result (IsBlockFault text.now) }
{
    let (front, rest) = cut(text);
    let addr = match read_addr(front) {
        Ok(addr) => addr,
        Err(fault) => return Err(fault),
    };
    let Some(rest) = rest else {
        return Err(TextFault::Length);
    };
    let Some(len) = read_length(rest, addr.family) else {
        return Err(TextFault::Length);
    };
    let ones = low_ones(addr.family, len);
    let past = addr.value & ones;
    let block = Block {
        family: addr.family,
        first: addr.value - past,
        len,
    };
    if past == 0 {
        Ok(block)
    } else {
        Err(TextFault::HostBits(block))
    }
}

/// What is written of an address is a text of that address.
pub fn written_address_is_read()
    ensures { WrittenAddressIsRead }
{}

/// No two addresses are written alike.
pub fn canonical_text_is_one()
    ensures { CanonicalTextIsOne }
{}

/// What is written of a block is a text of that block.
pub fn writing_is_read()
    ensures { WritingIsRead }
{}

/// A text is one of at most one address, host or block, or has one fault as such, and not both.
pub fn one_reading()
    ensures { ReadingIsOne }
{}
