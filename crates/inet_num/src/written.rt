//! The canonical text of addresses and blocks (RFC 5952 4).

ghost use Rattle.std.specs.Prelude.{◌≡◌, ◌≤◌, ◌<◌, ◌+◌, ◌*◌, [], ◌∷◌, ◌++◌, length, OnOk, OnErr, Some, decimal, IsUtf8};
ghost use Rattle.std.specs.Char.{digit_char};
ghost use Rattle.std.specs.Net.Addr.{ipv4_octets, ipv6_segments};
ghost use Rattle.std.specs.Net.Text as Text;
ghost use Rattle.arrayvec.specs.ArrayString.{array_string_len};
ghost use Rattle.arrayvec.specs.ArrayVec.{array_vec_len};
ghost use Rattle.inet_num.specs.Text.{canonical_text_of, block_text_of};
ghost use Rattle.inet_num.specs.declared.Family.TheVariants.{V4, V6};

use crate::{Addr, Block, Family};
use arrayvec::{ArrayString, ArrayVec};
use itoa::Buffer;
use std::alloc::AllocError;
use std::fmt;
use std::net::{HexGroups, Ipv4Addr, Ipv6Addr};

/// The canonical text of an IPv4 address.
fn quad_text(value: u32) -> ArrayString<19>
    ensures text { result.bytes ≡ canonical_text_of V4 value }
    ensures room { array_string_len result ≤ 15 }
{
    let [a, b, c, d] = value.to_be_bytes();
    let mut digits = Buffer::new();
    let mut text = ArrayString::new();
    text.push_str(digits.format(a));
    text.push('.');
    text.push_str(digits.format(b));
    text.push('.');
    text.push_str(digits.format(c));
    text.push('.');
    text.push_str(digits.format(d));
    text
}

/// The canonical text of an IPv4 block.
fn quad_block_text(value: u32, len: u8) -> ArrayString<19>
    ensures { result.bytes ≡ canonical_text_of V4 value ++ 47 ∷ decimal len }
{
    let mut text = quad_text(value);
    let mut digits = Buffer::new();
    text.push('/');
    text.push_str(digits.format(len));
    text
}

/// Appends a digit below 16 in lower case.
fn push_digit(text: &mut ArrayVec<u8, 48>, digit: u16)
    requires digit { digit < 16 }
    requires room { array_vec_len text.old < 48 }
    ensures items { text.new.items ≡ text.old.items ++ digit_char digit ∷ [] }
    ensures len { array_vec_len text.new ≡ array_vec_len text.old + 1 }
{
    if digit < 10 {
        text.push(b'0' + digit as u8);
    } else {
        text.push(b'a' + (digit - 10) as u8);
    }
}

/// Appends a group without leading zeros.
#[tactic(auto, unfolding(std::specs::Net::Text::hex))]
fn push_group(text: &mut ArrayVec<u8, 48>, group: u16)
    requires { array_vec_len text.old + 4 ≤ 48 }
    ensures items { text.new.items ≡ text.old.items ++ Text.hex group }
    ensures len { array_vec_len text.new ≤ array_vec_len text.old + 4 }
{
    match group {
        0x1000.. => {
            push_digit(text, group / 0x1000);
            push_digit(text, group / 0x100 % 16);
            push_digit(text, group / 0x10 % 16);
            push_digit(text, group % 16);
        }
        0x100.. => {
            push_digit(text, group / 0x100 % 16);
            push_digit(text, group / 0x10 % 16);
            push_digit(text, group % 16);
        }
        0x10.. => {
            push_digit(text, group / 0x10 % 16);
            push_digit(text, group % 16);
        }
        _ => push_digit(text, group % 16),
    }
}

/// Appends groups with colons between them.
fn push_groups(text: &mut ArrayVec<u8, 48>, groups: &[u16])
    requires { array_vec_len text.old + 5 * length groups.now ≤ 48 }
    ensures items { text.new.items ≡ text.old.items ++ Text.groups_text groups.now }
    ensures len { array_vec_len text.new ≤ array_vec_len text.old + 5 * length groups.now }
{
    if let [first, rest @ ..] = groups {
        push_group(text, *first);
        for group in rest {
            text.push(b':');
            push_group(text, *group);
        }
    }
}

/// Where a run of groups of zero starts, and how many there are.
#[derive(Clone, Copy)]
struct ZeroRun {
    start: usize,
    len: usize,
}

/// The longest run of groups of zero, and of two such runs the first.
fn longest_zero_run(groups: &[u16]) -> ZeroRun
    ensures start { result.start ≡ (Text.longest_zero_run groups.now).0 }
    ensures len { result.len ≡ (Text.longest_zero_run groups.now).1 }
    ensures within { result.start + result.len ≤ length groups.now }
{
    let mut start = groups.len();
    let mut len = 0usize;
    let mut run = 0usize;
    'groups: for i in (0..groups.len()).rev() {
        run = if groups[i] == 0 { run + 1 } else { 0 };
        if run >= len {
            start = i;
            len = run;
        }
    }
    ZeroRun { start, len }
}

/// Appends the bytes, for which there is room.
fn push_all(text: &mut ArrayVec<u8, 48>, more: &[u8])
    requires { array_vec_len text.old + length more.now ≤ 48 }
    ensures items { text.new.items ≡ text.old.items ++ more.now }
{
    match text.try_extend_from_slice(more) {
        Ok(()) => {}
        Err(_) => unreachable!(),
    }
}

/// The canonical text of an IPv6 address: always in groups, with `::` for the longest run of at least two groups of zero.
#[tactic(auto, unfolding(std::specs::Net::Addr::IsIpv6OfBits, std::specs::Net::Text::hex_groups_text))]
fn groups_text(value: u128) -> ArrayVec<u8, 48>
    ensures text { result.items ≡ canonical_text_of V6 value }
    ensures len { array_vec_len result ≤ 42 }
{
    let groups = Ipv6Addr::from_bits(value).segments();
    let run = longest_zero_run(&groups);
    let mut text = ArrayVec::new();
    if run.len > 1 {
        push_groups(&mut text, &groups[..run.start]);
        text.push(b':');
        text.push(b':');
        push_groups(&mut text, &groups[run.start + run.len..]);
    } else {
        push_groups(&mut text, &groups);
    }
    text
}

/// The canonical text of an IPv6 block.
fn groups_block_text(value: u128, len: u8) -> ArrayVec<u8, 48>
    ensures { result.items ≡ canonical_text_of V6 value ++ 47 ∷ decimal len }
{
    let mut text = groups_text(value);
    let mut digits = Buffer::new();
    text.push(b'/');
    push_all(&mut text, digits.format(len).as_bytes());
    text
}

/// Appends the canonical text of an address, as `10.0.0.1` or `2001:db8::1` (RFC 5952 4; an IPv6 address is always written
/// in groups). After out of memory `out` is as before.
pub fn write_addr(addr: Addr, out: &mut Vec<u8>) -> Result<(), AllocError>
    ensures ok { OnOk result (out.new.items ≡ out.old.items ++ canonical_text_of addr.family addr.value) }
    ensures err { OnErr result (out.new.items ≡ out.old.items) }
{
    match addr.family {
        Family::V4 => {
            let text = quad_text(addr.value as u32);
            out.extend_from_slice(text.as_str().as_bytes())
        }
        Family::V6 => {
            let groups = groups_text(addr.value);
            out.extend_from_slice(groups.as_slice())
        }
    }
}

/// The characters of bytes that are text.
fn characters(bytes: &[u8]) -> ArrayString<48>
    requires text { IsUtf8 bytes.now }
    requires room { length bytes.now ≤ 48 }
    ensures { result.bytes ≡ bytes.now }
{
    let mut text = ArrayString::new();
    match std::str::from_utf8(bytes) {
        Ok(whole) => text.push_str(whole),
        Err(_) => unreachable!(),
    }
    text
}

/// The canonical text of an address with the length of its mask, as `10.0.0.1/8` or `2001:db8::1/32`. It takes no memory.
pub fn host_text(addr: Addr, len: u8) -> ArrayString<48>
    ensures { result.bytes ≡ canonical_text_of addr.family addr.value ++ 47 ∷ decimal len }
{
    match addr.family {
        Family::V4 => {
            let mut text = ArrayString::new();
            text.push_str(quad_block_text(addr.value as u32, len).as_str());
            text
        }
        Family::V6 => characters(groups_block_text(addr.value, len).as_slice()),
    }
}

/// The canonical text of a block, as `10.0.0.0/8` or `2001:db8::/32`. It takes no memory.
pub fn block_text(block: Block) -> ArrayString<48>
    ensures { result.bytes ≡ block_text_of block }
{
    host_text(block.addr(), block.len)
}

/// Appends the canonical text of a block, as `10.0.0.0/8` or `2001:db8::/32` (RFC 5952 4; an IPv6 block is always written
/// in groups). After out of memory `out` is as before.
pub fn write_block(block: Block, out: &mut Vec<u8>) -> Result<(), AllocError>
    ensures ok { OnOk result (out.new.items ≡ out.old.items ++ block_text_of block) }
    ensures err { OnErr result (out.new.items ≡ out.old.items) }
{
    let text = block_text(block);
    out.extend_from_slice(text.as_str().as_bytes())
}

/// The IPv4 address of this number, as std has it.
#[tactic(auto, unfolding(std::specs::Net::Addr::IsIpv4OfBits))]
fn quad_of(value: u32) -> Ipv4Addr
    ensures { Text.ipv4_text (ipv4_octets result) ≡ canonical_text_of V4 value }
{
    Ipv4Addr::from_bits(value)
}

/// The groups of the IPv6 address of this number, as std has them.
#[tactic(auto, unfolding(std::specs::Net::Addr::IsIpv6OfBits))]
fn groups_of(value: u128) -> HexGroups
    ensures { Text.hex_groups_text (ipv6_segments (Text.hex_groups_addr result)) ≡ canonical_text_of V6 value }
{
    Ipv6Addr::from_bits(value).hex_groups()
}

/// The canonical text (RFC 5952 4): as `10.0.0.1` or `2001:db8::1`; an IPv6 address is always written in groups.
impl fmt::Display for Addr {
    ghost output = { λ a. Some (canonical_text_of a.family a.value) };

    fn fmt<W: fmt::Write>(&self, f: &mut fmt::Formatter<W>) -> fmt::Result {
        match self.family {
            Family::V4 => fmt::Display::fmt(&quad_of(self.value as u32), f),
            Family::V6 => fmt::Display::fmt(&groups_of(self.value), f),
        }
    }
}

/// The canonical text: that of the first address, a slash and the length, as `10.0.0.0/8` or `2001:db8::/32`.
impl fmt::Display for Block {
    ghost output = { λ b. Some (block_text_of b) };

    fn fmt<W: fmt::Write>(&self, f: &mut fmt::Formatter<W>) -> fmt::Result {
        let addr = self.addr();
        let len = self.len;
        write!(f, "{addr}/{len}")
    }
}
