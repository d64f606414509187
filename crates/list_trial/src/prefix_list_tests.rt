//! Prefix lists by a table: the fewest blocks, what one list has beyond another, names, and each style written and read.

ghost use Rattle.std.specs.Prelude.{◌≡◌, IfOk, IfSome};
ghost use Rattle.prefix_list.specs.Lists.{AreOf};

use inet_num::{Block, Family};
use ipam_data::text::Text;
use list_name::is_list_name;
use prefix_list::{ListFault, Style, fewest, read_list, uncovered, write_list};
use std::alloc::{AllocError, Global};
use std::test::Fail;

/// A case to a line: a call, a style, a family, a name, one list, another list, and what is expected. In lists `;` is a line feed and `~` a carriage
/// return. `fewest` and `uncovered` have plain lists, `write` a plain one and its text, `read` a text and its plain list, or the line that is refused.
const CASES: &str =
    "fewest||4||10.0.0.0/24;10.0.1.0/24;10.0.1.128/25;10.0.2.0/24||10.0.0.0/23;10.0.2.0/24;
fewest||4||128.0.0.0/1;0.0.0.0/1||0.0.0.0/0;
fewest||6||::/1;8000::/1||::/0;
fewest||4||0.0.0.0/0;10.0.0.0/8||0.0.0.0/0;
fewest||4|||||
fewest||4||10.0.1.0/24;10.0.2.0/24||10.0.1.0/24;10.0.2.0/24;
fewest||4||10.0.2.0/24;10.0.1.0/24;10.0.3.0/24;10.0.0.0/24;10.0.2.0/24||10.0.0.0/22;
fewest||4||255.255.255.255/32;255.255.255.254/32||255.255.255.254/31;
fewest||6||ffff:ffff:ffff:ffff:ffff:ffff:ffff:ffff/128;8000::/2;c000::/2||8000::/1;
uncovered||4||10.0.0.0/23;10.0.2.0/24|10.0.0.0/24;10.0.2.0/23|10.0.1.0/24;
uncovered||4||10.0.0.0/24;10.0.2.0/23|10.0.0.0/23;10.0.2.0/24|10.0.3.0/24;
uncovered||4||10.0.0.0/24|10.0.0.0/24;10.0.2.0/23|
uncovered||4|||10.0.0.0/24|
uncovered||4||10.0.1.0/24;10.0.0.0/24||10.0.0.0/23;
uncovered||4||10.0.0.0/29|10.0.0.3/32|10.0.0.0/31;10.0.0.2/32;10.0.0.4/30;
uncovered||4||10.0.0.0/24;10.0.2.0/24;10.0.4.0/24|10.0.0.0/22;10.0.4.128/25;10.0.4.0/26|10.0.4.64/26;
uncovered||4||0.0.0.0/0|128.0.0.0/1|0.0.0.0/1;
uncovered||4||0.0.0.0/0|0.0.0.0/1|128.0.0.0/1;
uncovered||6||::/0|::/0|
uncovered||6||8000::/1|::/1;8000::/2|c000::/2;
uncovered||6||ffff:ffff:ffff:ffff:ffff:ffff:ffff:fff8/125|ffff:ffff:ffff:ffff:ffff:ffff:ffff:fff8/126|ffff:ffff:ffff:ffff:ffff:ffff:ffff:fffc/126;
uncovered||6||ffff:ffff:ffff:ffff:ffff:ffff:ffff:fffe/127|ffff:ffff:ffff:ffff:ffff:ffff:ffff:ffff/128|ffff:ffff:ffff:ffff:ffff:ffff:ffff:fffe/128;
name|||OFFICE|||yes
name|||a-Z_09|||yes
name||||||no
name|||a b|||no
name|||a.b|||no
name|||\u{e9}|||no
name|||0123456789012345678901234567890123456789012345678901234567890123|||yes
name|||01234567890123456789012345678901234567890123456789012345678901234|||no
write|plain|4|OFFICE|10.0.0.0/23;10.0.2.0/24||10.0.0.0/23;10.0.2.0/24;
write|plain|6|OFFICE|2001:db8::/32;::/0||2001:db8::/32;::/0;
write|ios|4|OFFICE|10.0.0.0/23;10.0.2.0/24||ip prefix-list OFFICE seq 5 permit 10.0.0.0/23;ip prefix-list OFFICE seq 10 permit 10.0.2.0/24;
write|ios|6|OFFICE|2001:db8::/32;::/0||ipv6 prefix-list OFFICE seq 5 permit 2001:db8::/32;ipv6 prefix-list OFFICE seq 10 permit ::/0;
write|junos|4|OFFICE|10.0.0.0/23;10.0.2.0/24||set policy-options prefix-list OFFICE 10.0.0.0/23;set policy-options prefix-list OFFICE 10.0.2.0/24;
write|junos|6|OFFICE|2001:db8::/32;::/0||set policy-options prefix-list OFFICE 2001:db8::/32;set policy-options prefix-list OFFICE ::/0;
write|ios|4|OFFICE|||
read|plain|4|OFFICE|10.0.2.0/24;;;10.0.0.0/23||10.0.2.0/24;10.0.0.0/23;
read|plain|4|OFFICE|0.0.0.0/0;||0.0.0.0/0;
read|plain|6|OFFICE|2001:DB8:0::/32;::/0;||2001:db8::/32;::/0;
read|plain|4|OFFICE|;;||
read|plain|4|OFFICE|10.0.0.0/24;10.0.1.0/24~;||line 2
read|plain|4|OFFICE|~;||line 1
read|plain|4|OFFICE|;;2001:db8::/32;||line 3
read|plain|4|OFFICE|10.0.0.1/24;||line 1
read|plain|4|OFFICE|10.0.0.0;||line 1
read|plain|4|OFFICE| 10.0.0.0/24;||line 1
read|plain|4|OFFICE|10.0.0.0/24 ;||line 1
read|ios|4|OFFICE|ip prefix-list OFFICE seq 10 permit 10.0.2.0/24;;ip prefix-list OFFICE seq 5 permit 10.0.0.0/23||10.0.2.0/24;10.0.0.0/23;
read|ios|6|OFFICE|ipv6 prefix-list OFFICE seq 0 permit 2001:db8::/32;ipv6 prefix-list OFFICE seq 9999999999 permit ::/0;||2001:db8::/32;::/0;
read|ios|4|OFFICE|ip prefix-list OFFICE seq 7 permit 10.0.0.0/24;ip prefix-list OFFICE seq 7 permit 10.0.1.0/24;||10.0.0.0/24;10.0.1.0/24;
read|ios|4|OFFICE|ip prefix-list OFFICE seq 00 permit 10.0.0.0/24;||line 1
read|ios|4|OFFICE|ip prefix-list OFFICE seq 05 permit 10.0.0.0/24;||line 1
read|ios|4|OFFICE|ip prefix-list OFFICE seq 10000000000 permit 10.0.0.0/24;||line 1
read|ios|4|OFFICE|ip prefix-list OFFICE seq  permit 10.0.0.0/24;||line 1
read|ios|4|OFFICE|ip prefix-list OFFICE seq +5 permit 10.0.0.0/24;||line 1
read|ios|4|OFFICE|ip prefix-list OFFICE permit 10.0.0.0/24;||line 1
read|ios|4|OFFICE|ip prefix-list OFFICE seq 5 deny 10.0.0.0/24;||line 1
read|ios|4|OFFICE|ip prefix-list OFFICE seq 5 permit 10.0.0.0/24 le 32;||line 1
read|ios|4|OFFICE|ip prefix-list OFFICE  seq 5 permit 10.0.0.0/24;||line 1
read|ios|4|OFFICE|ip prefix-list OFFICE seq 5 permit 10.0.0.0/24;ipv6 prefix-list OFFICE seq 10 permit 10.0.1.0/24;||line 2
read|ios|6|OFFICE|ip prefix-list OFFICE seq 5 permit 2001:db8::/32;||line 1
read|ios|6|OFFICE|ipv6 prefix-list OFFICE seq 5 permit 10.0.0.0/24;||line 1
read|ios|4|OFFICE|ip prefix-list office seq 5 permit 10.0.0.0/24;||line 1
read|ios|4|a b|ip prefix-list a b seq 5 permit 10.0.0.0/24;||line 1
read|junos|4|OFFICE|set policy-options prefix-list OFFICE 10.0.2.0/24;;set policy-options prefix-list OFFICE 10.0.0.0/23||10.0.2.0/24;10.0.0.0/23;
read|junos|6|OFFICE|set policy-options prefix-list OFFICE 2001:db8::/32;||2001:db8::/32;
read|junos|4|OFFICE|set policy-options prefix-list OFFICE 10.0.0.0/24;delete policy-options prefix-list OFFICE 10.0.0.0/24;||line 2
read|junos|4|OFFICE|set policy-options prefix-list OTHER 10.0.0.0/24;||line 1
read|junos|4|OFFICE|set policy-options prefix-list OFFICE 10.0.0.0/24~;||line 1
read|junos|4||set policy-options prefix-list  10.0.0.0/24;||line 1";

/// The bytes of a column.
fn bytes_of(alloc: Global, column: &str) -> Result<Vec<u8>, AllocError> {
    let mut bytes = Vec::new(alloc);
    for byte in column.as_bytes() {
        bytes.push(match byte {
            b';' => b'\n',
            b'~' => b'\r',
            other => *other,
        })?;
    }
    Ok(bytes)
}

/// The style of a column.
fn style_of(column: &str) -> Style {
    match column {
        "ios" => Style::Ios,
        "junos" => Style::Junos,
        _ => Style::Plain,
    }
}

/// The family of a column.
fn family_of(column: &str) -> Family {
    match column {
        "6" => Family::V6,
        _ => Family::V4,
    }
}

/// A name.
fn text_of(alloc: Global, column: &str) -> Result<Text, AllocError> {
    Ok(Text::of(String::from_str(alloc, column)?))
}

/// The blocks of a plain list.
pub(crate) fn plain_blocks(alloc: Global, family: Family, column: &str) -> Result<Vec<Block>, Fail>
    ensures { IfOk result (λ v. AreOf family v.items) }
{
    let bytes = bytes_of(alloc, column)?;
    let name = text_of(alloc, "plain")?;
    match read_list(alloc, Style::Plain, &name, family, &bytes) {
        Ok(blocks) => Ok(blocks),
        Err(_) => Err(Fail::from("no plain list")),
    }
}

/// The text of blocks.
fn written(alloc: Global, style: Style, name: &str, blocks: &[Block]) -> Result<Vec<u8>, Fail> {
    let name = text_of(alloc, name)?;
    let mut out = Vec::new(alloc);
    write_list(style, &name, blocks, &mut out)?;
    Ok(out)
}

/// The plain text of the fewest blocks.
fn fewest_text(alloc: Global, family: Family, first: &str) -> Result<Vec<u8>, Fail> {
    let blocks = plain_blocks(alloc, family, first)?;
    let few = fewest(alloc, &blocks)?;
    written(alloc, Style::Plain, "plain", &few)
}

/// The plain text of what the first list has beyond the second.
fn beyond_text(alloc: Global, family: Family, first: &str, second: &str) -> Result<Vec<u8>, Fail> {
    let have = plain_blocks(alloc, family, first)?;
    let by = plain_blocks(alloc, family, second)?;
    let few = uncovered(alloc, &have, &by)?;
    written(alloc, Style::Plain, "plain", &few)
}

/// The plain text of the blocks that a text names, or the line that is refused.
fn read_text(
    alloc: Global,
    style: Style,
    family: Family,
    name: &str,
    first: &str,
) -> Result<Vec<u8>, Fail> {
    let bytes = bytes_of(alloc, first)?;
    let name = text_of(alloc, name)?;
    match read_list(alloc, style, &name, family, &bytes) {
        Ok(blocks) => written(alloc, Style::Plain, "plain", &blocks),
        Err(ListFault::Line(n)) => Ok(format!(in alloc; "line {n}")?.into_bytes()),
        Err(ListFault::Memory) => Err(Fail::from("out of memory")),
    }
}

/// Whether the case's answer is given.
fn is_met(alloc: Global, case: &str) -> Result<bool, Fail> {
    let mut columns = case.split('|');
    let call = columns.next().unwrap_or("");
    let style = style_of(columns.next().unwrap_or(""));
    let family = family_of(columns.next().unwrap_or(""));
    let name = columns.next().unwrap_or("");
    let first = columns.next().unwrap_or("");
    let second = columns.next().unwrap_or("");
    let answer = bytes_of(alloc, columns.next().unwrap_or("?"))?;
    let text = match call {
        "fewest" => fewest_text(alloc, family, first)?,
        "uncovered" => beyond_text(alloc, family, first, second)?,
        "name" => {
            let word = if is_list_name(name) { "yes" } else { "no" };
            bytes_of(alloc, word)?
        }
        "write" => written(alloc, style, name, &plain_blocks(alloc, family, first)?)?,
        _ => read_text(alloc, style, family, name, first)?,
    };
    Ok(text.as_slice() == answer.as_slice())
}

#[test]
fn lists_and_their_answers(rt: HostRuntime) -> Result<(), Fail> {
    for case in CASES.split('\n') {
        assert!(rt; is_met(rt.alloc(), case)?, "{case}");
    }
    Ok(())
}
