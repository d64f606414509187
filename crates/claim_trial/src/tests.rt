//! Worked cases, one to a line. Each expected value is worked out by hand from the rules.

ghost use Rattle.std.specs.Prelude.{◌≡◌, ◌+◌, ◌<◌, ◌≤◌, ◌∷◌, true, length, IfOk, IfSome, OnOk, IsPermutation};
ghost use Rattle.std.specs.List.{AllByRecursion};
ghost use Rattle.inet_num.specs.Net.{width_of};
ghost use Rattle.block_space.specs.Usable.{AreApart, AreSingles};
ghost use Rattle.block_claim.specs.Claims.{FitInside};

use block_claim::{ClaimFault, plan_addrs, plan_blocks, plan_range};
use block_list::BlockList;
use block_space::{Space, Steps};
use free_space::{available_addrs, available_blocks, range_addrs, usable_bounds};
use inet_num::{Addr, Block, Family, Span, read_addr, read_block, write_addr, write_block};
use radix_tree::Tree;
use std::alloc::{AllocError, Global};
use std::marker::Brand;
use std::sync::ledger::{Blank, Ledger};
use std::test::Fail;
use utilisation::{of_aggregate, of_container, of_hosts, of_range};

/// The block of a text, if it is one of the family, and one of a single address if a host is asked for.
fn block_of(family: Family, host: bool, text: &str) -> Option<Block>
    ensures family { IfSome result (λ b. b.family ≡ family) }
    ensures single { IfSome result (λ b. host ≡ true → b.len ≡ width_of b.family) }
{
    let block = read_block(text.as_bytes()).ok()?;
    if !block.family().is(family) {
        return None;
    }
    if host && block.len() < family.width() {
        return None;
    }
    Some(block)
}

/// Puts a block in, after room was made for it.
fn put<S: Space>(space: &mut S, block: Block) -> Result<(), AllocError>
    requires family { block.family ≡ S.family_of space.old }
    requires few { length (S.held space.old) < 1000 }
    ensures family { S.family_of space.new ≡ S.family_of space.old }
    ensures put { OnOk result (IsPermutation (block ∷ S.held space.old) (S.held space.new)) }
{
    space.reserve(1)?;
    space.insert(block);
    Ok(())
}

/// The space of the blocks of these words, of at most 900 of them; of single addresses if it is one of hosts.
fn space_of<S: Space + Drop>(
    alloc: Global,
    family: Family,
    hosts: bool,
    words: &str,
) -> Result<S, AllocError>
    ensures family { IfOk result (λ space. S.family_of space ≡ family) }
    ensures few { IfOk result (λ space. length (S.held space) ≤ 900) }
    ensures singles { IfOk result (λ space. hosts ≡ true → AreSingles (S.held space)) }
{
    let mut space = S::new(alloc, family);
    let mut done = 0u32;
    'words: for word in words.split(' ') {
        let Some(block) = block_of(family, hosts, word) else {
            continue;
        };
        if done == 900 {
            return Ok(space);
        }
        put(&mut space, block)?;
        done += 1;
    }
    Ok(space)
}

/// The span of a text as `10.0.0.1-10.0.0.9`.
fn span_of(text: &str) -> Option<Span> {
    let (first, last) = text.split_once('-')?;
    Some(Span {
        first: read_addr(first.as_bytes()).ok()?,
        last: read_addr(last.as_bytes()).ok()?,
    })
}

/// The spans of words, up to the first that does not lie after those before it.
fn spans_of(alloc: Global, words: &str) -> Result<Vec<Span>, AllocError>
    ensures { IfOk result (λ v. AreApart 0 v.items) }
{
    let mut out = Vec::new(alloc);
    let mut from = 0u128;
    'words: for word in words.split(' ') {
        let Some(span) = span_of(word) else {
            return Ok(out);
        };
        let first = span.first.value();
        let last = span.last.value();
        if first < from || last < first || last == u128::MAX {
            return Ok(out);
        }
        out.push(span)?;
        from = last + 1;
    }
    Ok(out)
}

/// The lengths of words, those that can be claimed of the block, and at most 1000 of them.
fn lengths_of(alloc: Global, within: Block, words: &str) -> Result<Vec<u8>, AllocError>
    ensures lengths { IfOk result (λ v. FitInside within v.items) }
    ensures few { IfOk result (λ v. length v.items ≤ 1000) }
{
    let mut out = Vec::new(alloc);
    'words: for word in words.split(' ') {
        let len: u8 = word.parse().unwrap_or(0);
        if len <= within.len() || within.family().width() < len || out.len() == 1000 {
            return Ok(out);
        }
        out.push(len)?;
    }
    Ok(out)
}

/// The pieces of words, those of the family.
fn pieces_of(alloc: Global, family: Family, words: &str) -> Result<Vec<Block>, AllocError>
    ensures { IfOk result (λ v. AllByRecursion (λ b. b.family ≡ family) v.items) }
{
    let mut out = Vec::new(alloc);
    'words: for word in words.split(' ') {
        let Some(block) = block_of(family, false, word) else {
            return Ok(out);
        };
        out.push(block)?;
    }
    Ok(out)
}

/// The texts of blocks, with a space between them.
fn blocks_text(alloc: Global, blocks: &[Block]) -> Result<Vec<u8>, AllocError> {
    let mut out = Vec::new(alloc);
    for block in blocks {
        if !out.is_empty() {
            out.push(b' ')?;
        }
        write_block(*block, &mut out)?;
    }
    Ok(out)
}

/// The texts of addresses, with a space between them.
fn addrs_text(alloc: Global, addrs: &[Addr]) -> Result<Vec<u8>, AllocError> {
    let mut out = Vec::new(alloc);
    for addr in addrs {
        if !out.is_empty() {
            out.push(b' ')?;
        }
        write_addr(*addr, &mut out)?;
    }
    Ok(out)
}

/// The text of a claim that is not served.
fn fault_text(alloc: Global, fault: ClaimFault) -> Result<Vec<u8>, AllocError> {
    match fault {
        ClaimFault::NoSpace(item) => Ok(format!(in alloc; "no space {item}")?.into_bytes()),
        ClaimFault::Memory => Err(AllocError),
    }
}

/// What is asked in a line: the question, a block, the blocks of the space, further words, and a number.
#[derive(Clone, Copy, Debug)]
struct Case<'a> {
    question: &'a str,
    within: Block,
    blocks: &'a str,
    words: &'a str,
    number: u32,
}

/// What blocks of these lengths a claim returns, on its own counter.
fn claimed<S: Space, L: Ledger>(
    alloc: Global,
    kids: &mut S,
    within: Block,
    wanted: &[u8],
    blank: Blank,
) -> Result<Vec<Block>, ClaimFault>
    requires family { within.family ≡ S.family_of kids.old }
    requires lengths { FitInside within wanted.now }
    requires few { length (S.held kids.old) + length wanted.now < 2000 }
    requires name { blank.name ≡ L.name }
    requires parts { blank.parts ≡ L.parts }
    requires some { 0 < blank.parts }
{
    let mut steps = Steps::<L>::new(blank);
    kids.reserve(wanted.len() as u32)?;
    plan_blocks(alloc, kids, within, wanted, &mut steps)
}

/// What is said of a claim of the lengths of these words.
fn said_of_claim<S: Space>(
    alloc: Global,
    kids: &mut S,
    within: Block,
    words: &str,
) -> Result<Vec<u8>, AllocError>
    requires family { within.family ≡ S.family_of kids.old }
    requires few { length (S.held kids.old) ≤ 900 }
{
    let wanted = lengths_of(alloc, within, words)?;
    match claimed::<S, Brand>(alloc, kids, within, wanted.as_slice(), Blank::new(1)) {
        Ok(found) => blocks_text(alloc, found.as_slice()),
        Err(fault) => fault_text(alloc, fault),
    }
}

/// What is said of a block given the blocks of a space: `blocks`, `claim`, `container` or `aggregate`.
fn said_of_blocks<S: Space + Drop>(alloc: Global, case: &Case<'_>) -> Result<Vec<u8>, AllocError> {
    let within = case.within;
    let mut kids: S = space_of(alloc, within.family(), false, case.blocks)?;
    if case.question == "blocks" {
        let found = available_blocks(alloc, &kids, within, case.number)?;
        return blocks_text(alloc, found.as_slice());
    }
    if case.question == "claim" {
        return said_of_claim(alloc, &mut kids, within, case.words);
    }
    if within.len() == 0 {
        return Err(AllocError);
    }
    let percent = if case.question == "container" {
        of_container(&kids, within)
    } else {
        of_aggregate(&kids, within)
    };
    Ok(format!(in alloc; "{percent}")?.into_bytes())
}

/// What is said of the addresses of a block given hosts and spans, in a pool or not: `addresses`, `give` or `hosts`.
fn said_of_hosts<S: Space + Drop>(
    alloc: Global,
    case: &Case<'_>,
    pool: bool,
) -> Result<Vec<u8>, AllocError> {
    let within = case.within;
    let hosts: S = space_of(alloc, within.family(), true, case.blocks)?;
    let spans = spans_of(alloc, case.words)?;
    if case.question == "addresses" {
        let found = available_addrs(alloc, &hosts, spans.as_slice(), within, pool, case.number)?;
        return addrs_text(alloc, found.as_slice());
    }
    if case.question == "give" {
        return match plan_addrs(alloc, &hosts, spans.as_slice(), within, pool, case.number) {
            Ok(found) => addrs_text(alloc, found.as_slice()),
            Err(fault) => fault_text(alloc, fault),
        };
    }
    if within.len() == 0 {
        return Err(AllocError);
    }
    let percent = of_hosts(&hosts, spans.as_slice(), within, pool);
    Ok(format!(in alloc; "{percent}")?.into_bytes())
}

/// The percentage of a range that hosts use, if its span is one of the family with fewer than 2^32 addresses.
fn percent_of_range<S: Space>(hosts: &S, span: Span) -> Option<u8>
    requires { AreSingles (S.held hosts.now) }
{
    let family = hosts.family();
    if !span.first.family().is(family) {
        return None;
    }
    if !span.last.family().is(family) {
        return None;
    }
    let first = span.first.value();
    let last = span.last.value();
    if last < first {
        return None;
    }
    if last - first >= 0xffffffff {
        return None;
    }
    Some(of_range(hosts, span))
}

/// What is said of the range of these pieces given hosts: `range` or `take`, and of a span `used`.
fn said_of_range<S: Space + Drop>(alloc: Global, case: &Case<'_>) -> Result<Vec<u8>, AllocError> {
    let family = case.within.family();
    let hosts: S = space_of(alloc, family, true, case.blocks)?;
    if case.question == "used" {
        let percent = match span_of(case.words) {
            Some(span) => percent_of_range(&hosts, span),
            None => None,
        };
        return Ok(format!(in alloc; "{}", percent.unwrap_or(255))?.into_bytes());
    }
    let pieces = pieces_of(alloc, family, case.words)?;
    if case.question == "range" {
        let found = range_addrs(alloc, &hosts, pieces.as_slice(), case.number)?;
        return addrs_text(alloc, found.as_slice());
    }
    match plan_range(alloc, &hosts, pieces.as_slice(), case.number) {
        Ok(found) => addrs_text(alloc, found.as_slice()),
        Err(fault) => fault_text(alloc, fault),
    }
}

/// What is said of a block alone, in a pool or not: the first and the last address that is not kept back.
fn said_of_bounds(alloc: Global, case: &Case<'_>, pool: bool) -> Result<Vec<u8>, AllocError> {
    let (low, high) = usable_bounds(case.within, pool);
    let mut out = Vec::new(alloc);
    write_addr(low, &mut out)?;
    out.push(b' ')?;
    write_addr(high, &mut out)?;
    Ok(out)
}

/// Whether a space of this kind says what the line says: a question, a block, the blocks of the space, further words, a number,
/// and what is said.
fn is_met<S: Space + Drop>(alloc: Global, line: &str) -> Result<bool, AllocError> {
    let mut columns = line.split('|');
    let question = columns.next().unwrap_or("");
    let Ok(within) = read_block(columns.next().unwrap_or("").as_bytes()) else {
        return Ok(false);
    };
    let case = Case {
        question: question.strip_prefix("pool ").unwrap_or(question),
        within,
        blocks: columns.next().unwrap_or(""),
        words: columns.next().unwrap_or(""),
        number: columns.next().unwrap_or("").parse().unwrap_or(0),
    };
    let pool = question.starts_with("pool ");
    let said = match case.question {
        "bounds" => said_of_bounds(alloc, &case, pool)?,
        "addresses" | "give" | "hosts" => said_of_hosts::<S>(alloc, &case, pool)?,
        "range" | "take" | "used" => said_of_range::<S>(alloc, &case)?,
        _ => said_of_blocks::<S>(alloc, &case)?,
    };
    Ok(columns.next().unwrap_or("").as_bytes() == said.as_slice())
}

/// Blocks: available ones, and claims of lengths one after another.
const BLOCKS: &str =
    "blocks|10.0.0.0/16|10.0.0.0/24 10.0.4.0/22||1000|10.0.1.0/24 10.0.2.0/23 10.0.8.0/21 10.0.16.0/20 10.0.32.0/19 10.0.64.0/18 10.0.128.0/17
blocks|10.0.0.0/16|10.0.0.0/24 10.0.4.0/22||2|10.0.1.0/24 10.0.2.0/23
blocks|10.0.0.0/16|10.0.0.0/24 10.0.4.0/22||0|
blocks|10.0.0.0/16|10.0.0.0/16||9|10.0.0.0/16
blocks|10.0.0.0/24|10.0.0.0/24 10.0.0.0/25 10.0.0.128/25||9|
claim|10.0.0.0/16|10.0.0.0/24 10.0.4.0/22|23||10.0.2.0/23
claim|10.0.0.0/16|10.0.0.0/24 10.0.4.0/22|17 17||no space 1
claim|10.0.0.0/16|10.0.0.0/24 10.0.4.0/22|17||10.0.128.0/17
claim|10.0.0.0/16|10.0.0.0/24 10.0.4.0/22|23 24 24 32||10.0.2.0/23 10.0.1.0/24 10.0.8.0/24 10.0.9.0/32
claim|10.0.0.0/16||32||10.0.0.0/32
claim|10.0.0.0/16|10.0.0.0/16|17 17||10.0.0.0/17 10.0.128.0/17
claim|2001:db8::/32||64||2001:db8::/64
claim|::/1|::/128|2||4000::/2
container|8000::/1|c000::/2 c000::/2 8000::/1|||50
aggregate|8000::/1|c000::/2 8000::/1|||100
container|10.0.0.0/24|10.0.0.0/25 10.0.0.0/26 10.0.0.192/32|||50
aggregate|10.0.0.0/24|10.0.0.0/8 10.0.1.0/24|||0";

/// Addresses: usable ones, claims of them, figures; of a range by its pieces.
const ADDRESSES: &str = "bounds|192.0.2.0/30||||192.0.2.1 192.0.2.2
pool bounds|192.0.2.0/30||||192.0.2.0 192.0.2.3
bounds|2001:db8::/64||||2001:db8::1 2001:db8::ffff:ffff:ffff:ffff
addresses|192.0.2.0/30|||50|192.0.2.1 192.0.2.2
pool addresses|192.0.2.0/30|||50|192.0.2.0 192.0.2.1 192.0.2.2 192.0.2.3
addresses|192.0.2.0/31|||50|192.0.2.0 192.0.2.1
addresses|192.0.2.7/32|||50|192.0.2.7
addresses|2001:db8::/126|||50|2001:db8::1 2001:db8::2 2001:db8::3
addresses|2001:db8::/127|||50|2001:db8:: 2001:db8::1
addresses|10.0.0.0/28|10.0.0.1/32 10.0.0.2/32 10.0.0.2/32 10.0.0.12/32|9.0.0.0-10.0.0.1 10.0.0.4-10.0.0.9 10.0.0.14-10.0.1.0|50|10.0.0.3 10.0.0.10 10.0.0.11 10.0.0.13
addresses|10.0.0.0/28|10.0.0.1/32 10.0.0.2/32 10.0.0.2/32 10.0.0.12/32|9.0.0.0-10.0.0.1 10.0.0.4-10.0.0.9 10.0.0.14-10.0.1.0|3|10.0.0.3 10.0.0.10 10.0.0.11
addresses|10.0.0.0/28||10.0.0.0-10.0.0.255|3|
give|192.0.2.0/30|||3|no space 2
give|192.0.2.0/30|||2|192.0.2.1 192.0.2.2
give|10.0.0.0/24||10.0.0.1-10.0.0.9|1|10.0.0.10
give|ffff:ffff:ffff:ffff:ffff:ffff:ffff:fffe/127|||1|ffff:ffff:ffff:ffff:ffff:ffff:ffff:fffe
give|ffff:ffff:ffff:ffff:ffff:ffff:ffff:fffe/127|ffff:ffff:ffff:ffff:ffff:ffff:ffff:fffe/128||1|ffff:ffff:ffff:ffff:ffff:ffff:ffff:ffff
give|ffff:ffff:ffff:ffff:ffff:ffff:ffff:fffe/127|||2|ffff:ffff:ffff:ffff:ffff:ffff:ffff:fffe ffff:ffff:ffff:ffff:ffff:ffff:ffff:ffff
give|ffff:ffff:ffff:ffff:ffff:ffff:ffff:fffe/127|ffff:ffff:ffff:ffff:ffff:ffff:ffff:fffe/128 ffff:ffff:ffff:ffff:ffff:ffff:ffff:ffff/128||1|no space 0
give|255.255.255.254/31|||2|255.255.255.254 255.255.255.255
hosts|192.0.2.0/30|192.0.2.0/32 192.0.2.1/32 192.0.2.2/32 192.0.2.3/32|||100
pool hosts|192.0.2.0/30|192.0.2.1/32 192.0.2.1/32|||25
hosts|192.0.2.0/24|192.0.2.10/32 192.0.2.200/32 192.0.2.200/32 192.0.3.1/32|192.0.2.10-192.0.2.19||4
hosts|192.0.2.0/24|192.0.2.10/32|192.0.1.0-192.0.2.127 192.0.2.128-192.0.4.1||100
range|10.0.0.0/24|10.0.0.11/32 10.0.0.16/32|10.0.0.10/31 10.0.0.12/30 10.0.0.16/30|50|10.0.0.10 10.0.0.12 10.0.0.13 10.0.0.14 10.0.0.15 10.0.0.17 10.0.0.18 10.0.0.19
take|10.0.0.0/24||10.0.0.10/31 10.0.0.12/30 10.0.0.16/30|3|10.0.0.10 10.0.0.11 10.0.0.12
take|10.0.0.0/24||10.0.0.10/31 10.0.0.12/30 10.0.0.16/30|11|no space 10
used|10.0.0.0/24|10.0.0.10/32 10.0.0.10/32 10.0.0.19/32 10.0.0.20/32|10.0.0.10-10.0.0.19||20
used|192.0.2.0/24|192.0.2.1/32 192.0.2.2/32 192.0.2.3/32|192.0.2.1-192.0.2.8||37";

#[test]
fn a_tree_and_a_list_say_what_stands_here(rt: HostRuntime) -> Result<(), Fail> {
    for cases in [BLOCKS, ADDRESSES] {
        for line in cases.split('\n') {
            assert!(rt; is_met::<Tree>(rt.alloc(), line)?, "a tree: {line}");
            assert!(rt; is_met::<BlockList>(rt.alloc(), line)?, "a list: {line}");
        }
    }
    Ok(())
}
