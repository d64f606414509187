//! Calls of pools over a keeper in memory.

use number_pools::{
    Chosen, Listed, Member, MemberQuery, NumberRange, PoolCall, PoolKind, PoolReply,
};
use pool_keeper::memory::MemoryPools;
use pool_keeper::tables::empty_tables;
use pool_register::{Pools, begin};
use std::alloc::{AllocError, Global};
use std::test::Fail;
use stored_tables::tables::{Text, Texts};

/// A call a line, and after the equals sign what is answered. The keeper's calls of the numbers 1 and 5 fail.
const CALLS: &str = "\
add asn office 64512 64514=made 1
claim asn 1 2=Keeper
claim asn 1 2=64512 64513
add asn site 64513 64515=made 2
free asn 2 50=64514 64515
free asn 2 1=64514
claim asn 2 3=NoSpace(2)
add vlan office 1 4094=made 3
claim vlan 3 1=Keeper
claim vlan 3 1=1
claim vlan 3 20=2 3 4 5 6 7 8 9 10 11 12 13 14 15 16 17 18 19 20 21
add vlan home 1 4=made 4
claim vlan 4 2=1 2
members vlan 4=1 2
members asn 1=64512 64513
members asn 3=Absent(3)
ranges asn=1 2
ranges vlan=3 4
add asn office 1 2=NameTaken(1)
add asn lab 0 5=Bounds
add asn lab 6 5=Bounds
add vlan lab 1 4095=Bounds
cut asn 1=InUse(1)
cut vlan 1=Absent(1)
cut_member vlan 1=Absent(1)
cut_member asn 1=gone
claim asn 2 3=NoSpace(2)
claim asn 1 1=64512
claim asn 1 1001=Limit(Claims, 1000)
claim asn 9 1001=Absent(9)
free vlan 9 5=Absent(9)
cut_member vlan 25=gone
cut_member vlan 24=gone
cut vlan 4=gone
ranges vlan=3
record asn 2 64514=64514
record asn 2 64512=Outside(64512)
record asn 1 64514=Taken(64514, 27)
record vlan 3 30,29,31=30 29 31
record vlan 3 33,30=Taken(30, 28)
record vlan 3 33,34,33,5000=Repeated(33)
record vlan 3 5000,1=Outside(5000)
record vlan 3 1,5000=Taken(1, 3)
record vlan 2 1=Absent(2)
claim asn 2 1=64515
members asn 2=64514 64515
one asn 1=office 64512-64514
one asn 3=Absent(3)
one_member vlan 28=30 
one_member asn 28=Absent(28)
name_member vlan 28 voice=30 voice
name_member vlan 28=30 voice
name_member asn 28 voice=Absent(28)
one_member vlan 28=30 voice
edit asn 9 lab 1 2=Absent(9)
edit asn 2 office 9 1=NameTaken(1)
edit asn 2 site 9 1=Bounds
edit asn 2 site 0 64515=Bounds
edit vlan 3 office 1 4095=Bounds
edit asn 2 site 64515 64520=InUse(27)
edit asn 2 site 64514 64514=InUse(31)
edit asn 2 lab 64514 64516=lab 64514-64516
edit asn 2 lab=lab 64514-64516
ranges asn=1 2
claim asn 2 1=64516
claim asn 2 1=NoSpace(0)
edit asn 2 site 64514 64517=site 64514-64517
claim asn 2 1=64517
cut asn 2=InUse(27)
page asn 3 0=6: 64513 64512 64514
page vlan 2 1=24: 2 3
page vlan 2 9=24: 10 11
page vlan 9 0 30 3=1: 30
page vlan 9 0 30 3 voice=1: 30
page vlan 9 0 30 3 data=0:
page vlan 9 0 30 2=0:
page asn 9 1 64514=1:
";

/// The number of a word. If it is none, the line is wrong, and the test fails as for lack of memory.
fn number(word: Option<&str>) -> Result<u32, AllocError> {
    word.unwrap_or("").parse::<u32>().map_err(|_| AllocError)
}

/// The kind of a word, likewise.
fn kind_named(word: Option<&str>) -> Result<PoolKind, AllocError> {
    match word.unwrap_or("") {
        "asn" => Ok(PoolKind::Asn),
        "vlan" => Ok(PoolKind::Vlan),
        _ => Err(AllocError),
    }
}

/// So many empty names.
fn names(alloc: Global, n: u32) -> Result<Texts, AllocError> {
    let mut items = Vec::new(alloc);
    for _ in 0..n {
        items.push(Text::of(String::new(alloc)))?;
    }
    Ok(Texts::of(items))
}

/// The numbers of a text, which have no names.
fn chosen(alloc: Global, text: &str) -> Result<Listed<Chosen>, AllocError> {
    let mut items = Vec::new(alloc);
    for word in text.split(',') {
        let number = number(Some(word))?;
        let name = Text::of(String::new(alloc));
        items.push(Chosen { number, name })?;
    }
    Ok(Listed::of(items))
}

/// The name that a word gives, if there is a word.
fn named(alloc: Global, word: Option<&str>) -> Result<Option<Text>, AllocError> {
    match word {
        Some(word) => Ok(Some(Text::of(String::from_str(alloc, word)?))),
        None => Ok(None),
    }
}

/// The number that a word gives, if there is a word.
fn numbered(word: Option<&str>) -> Result<Option<u32>, AllocError> {
    match word {
        Some(word) => Ok(Some(number(Some(word))?)),
        None => Ok(None),
    }
}

/// The call of a line.
fn call_of(alloc: Global, line: &str) -> Result<PoolCall, AllocError> {
    let mut words = line.split(' ');
    let verb = words.next().unwrap_or("");
    let kind = kind_named(words.next())?;
    if verb == "add" {
        let name = Text::of(String::from_str(alloc, words.next().unwrap_or(""))?);
        let first = number(words.next())?;
        let last = number(words.next())?;
        return Ok(PoolCall::AddRange {
            kind,
            name,
            first,
            last,
        });
    }
    if verb == "ranges" {
        return Ok(PoolCall::Ranges { kind });
    }
    if verb == "page" {
        let limit = number(words.next())?;
        let offset = number(words.next())?;
        return Ok(PoolCall::Page {
            kind,
            query: MemberQuery {
                number: numbered(words.next())?,
                range: numbered(words.next())?,
                name: named(alloc, words.next())?,
                limit,
                offset,
            },
        });
    }
    let id = number(words.next())?;
    if verb == "cut" {
        return Ok(PoolCall::CutRange { kind, id });
    }
    if verb == "cut_member" {
        return Ok(PoolCall::CutMember { kind, id });
    }
    if verb == "members" {
        return Ok(PoolCall::Members { kind, id });
    }
    if verb == "record" {
        return Ok(PoolCall::Record {
            kind,
            id,
            list: true,
            items: chosen(alloc, words.next().unwrap_or(""))?,
        });
    }
    if verb == "one" {
        return Ok(PoolCall::OneRange { kind, id });
    }
    if verb == "one_member" {
        return Ok(PoolCall::OneMember { kind, id });
    }
    if verb == "edit" {
        return Ok(PoolCall::EditRange {
            kind,
            id,
            name: named(alloc, words.next())?,
            first: numbered(words.next())?,
            last: numbered(words.next())?,
        });
    }
    if verb == "name_member" {
        let name = named(alloc, words.next())?;
        return Ok(PoolCall::EditMember { kind, id, name });
    }
    let n = number(words.next())?;
    if verb == "free" {
        return Ok(PoolCall::Available { kind, id, limit: n });
    }
    if verb != "claim" {
        return Err(AllocError);
    }
    Ok(PoolCall::Claim {
        kind,
        id,
        list: true,
        names: names(alloc, n)?,
    })
}

fn numbers_of(alloc: Global, members: &[Member]) -> Result<String, AllocError> {
    let mut out = String::new(alloc);
    for member in members {
        if !out.is_empty() {
            out.push(' ')?;
        }
        out.push_str(format!(in alloc; "{}", member.number)?.as_str())?;
    }
    Ok(out)
}

fn ids_of(alloc: Global, ranges: &[NumberRange]) -> Result<String, AllocError> {
    let mut out = String::new(alloc);
    for range in ranges {
        if !out.is_empty() {
            out.push(' ')?;
        }
        out.push_str(format!(in alloc; "{}", range.id)?.as_str())?;
    }
    Ok(out)
}

fn listed(alloc: Global, numbers: &[u32]) -> Result<String, AllocError> {
    let mut out = String::new(alloc);
    for number in numbers {
        if !out.is_empty() {
            out.push(' ')?;
        }
        out.push_str(format!(in alloc; "{}", number)?.as_str())?;
    }
    Ok(out)
}

/// A range in short.
fn range_said(alloc: Global, range: &NumberRange) -> Result<String, AllocError> {
    let name = range.name.as_str();
    let first = range.first;
    let last = range.last;
    Ok(format!(in alloc; "{name} {first}-{last}")?)
}

/// A member in short.
fn member_said(alloc: Global, member: &Member) -> Result<String, AllocError> {
    let number = member.number;
    let name = member.name.as_str();
    Ok(format!(in alloc; "{number} {name}")?)
}

/// A page in short: how many members the list has, and the numbers of those that are shown.
fn page_said(alloc: Global, count: u32, members: &[Member]) -> Result<String, AllocError> {
    let mut out = format!(in alloc; "{count}:")?;
    for member in members {
        out.push_str(format!(in alloc; " {}", member.number)?.as_str())?;
    }
    Ok(out)
}

/// A reply in short.
fn said(alloc: Global, reply: &PoolReply) -> Result<String, AllocError> {
    match reply {
        PoolReply::Made(range) => Ok(format!(in alloc; "made {}", range.id)?),
        PoolReply::Gone => Ok(String::from_str(alloc, "gone")?),
        PoolReply::Claimed(made) => numbers_of(alloc, made.as_slice()),
        PoolReply::ChangedRange(range) => range_said(alloc, range),
        PoolReply::ChangedMember(member) => member_said(alloc, member),
        PoolReply::OneRange(range) => range_said(alloc, range),
        PoolReply::OneMember(member) => member_said(alloc, member),
        PoolReply::Ranges(rows) => ids_of(alloc, rows.as_slice()),
        PoolReply::Members(rows) => numbers_of(alloc, rows.as_slice()),
        PoolReply::Numbers(free) => listed(alloc, free.as_slice()),
        PoolReply::Page { count, members, .. } => page_said(alloc, *count, members.as_slice()),
        PoolReply::Refused(why) => Ok(format!(in alloc; "{why:?}")?),
    }
}

/// A reply in short. The reply is used up.
fn told(alloc: Global, reply: PoolReply) -> Result<String, AllocError> {
    let text = said(alloc, &reply);
    drop(reply);
    text
}

/// What is answered to the call of a line, after the line.
fn answered(
    alloc: Global,
    pools: &mut Pools<MemoryPools>,
    line: &str,
) -> Result<String, AllocError> {
    let call = line.split('=').next().unwrap_or("");
    let asked = call_of(alloc, call)?;
    let text = told(alloc, pools.act(7, asked))?;
    Ok(format!(in alloc; "{call}={text}\n")?)
}

/// What is answered to all calls, a line each.
fn conversation(alloc: Global, pools: &mut Pools<MemoryPools>) -> Result<String, AllocError> {
    let mut out = String::new(alloc);
    for line in CALLS.lines() {
        out.push_str(answered(alloc, pools, line)?.as_str())?;
    }
    Ok(out)
}

#[test]
fn calls_are_answered(rt: HostRuntime) -> Result<(), Fail> {
    let alloc = rt.alloc();
    let mut fails = Vec::new(alloc);
    fails.push(1)?;
    fails.push(5)?;
    let mut pools = begin(alloc, MemoryPools::new(empty_tables(alloc), fails));
    let answers = conversation(alloc, &mut pools);
    drop(pools);
    let out = answers?;
    assert!(rt; out.as_str() == CALLS, "{out}");
    Ok(())
}

/// Adds a range of AS numbers of this name, from this number to the last one of four bytes.
fn added(
    alloc: Global,
    pools: &mut Pools<MemoryPools>,
    number: u32,
    first: u32,
) -> Result<String, AllocError> {
    let name = Text::of(format!(in alloc; "range {number}")?);
    let call = PoolCall::AddRange {
        kind: PoolKind::Asn,
        name,
        first,
        last: 4_294_967_295,
    };
    told(alloc, pools.act(7, call))
}

/// Claims so many numbers of the first range.
fn claimed(
    alloc: Global,
    pools: &mut Pools<MemoryPools>,
    count: u32,
) -> Result<String, AllocError> {
    let call = PoolCall::Claim {
        kind: PoolKind::Asn,
        id: 1,
        list: true,
        names: names(alloc, count)?,
    };
    told(alloc, pools.act(7, call))
}

/// The numbers from one to another, with a blank between two of them.
fn numbers_from(alloc: Global, first: u32, last: u32) -> Result<String, AllocError> {
    let mut text = format!(in alloc; "{first}")?;
    for number in first..last {
        text.push_str(format!(in alloc; " {}", number.saturating_add(1))?.as_str())?;
    }
    Ok(text)
}

/// The outcome of 1,000 ranges, one more, and two claims of 1,000 numbers each: the answers to the last range that is taken, to the one after
/// it, and to both claims.
fn most(alloc: Global, pools: &mut Pools<MemoryPools>) -> Result<[String; 4], AllocError> {
    let mut last = String::new(alloc);
    for number in 1..=1_000u32 {
        last = added(alloc, pools, number, 4_294_960_000)?;
    }
    let more = added(alloc, pools, 1_001, 4_294_960_000)?;
    let first = claimed(alloc, pools, 1_000)?;
    let second = claimed(alloc, pools, 1_000)?;
    Ok([last, more, first, second])
}

#[test]
fn pools_have_as_much_as_they_may(rt: HostRuntime) -> Result<(), Fail> {
    let alloc = rt.alloc();
    let mut pools = begin(
        alloc,
        MemoryPools::new(empty_tables(alloc), Vec::new(alloc)),
    );
    let answers = most(alloc, &mut pools);
    drop(pools);
    let [last, more, first, second] = answers?;
    assert_eq!(rt;
        (last.as_str(), more.as_str()),
        ("made 1000", "Limit(Ranges, 1000)")
    );
    assert_eq!(rt;
        first.as_str(),
        numbers_from(alloc, 4_294_960_000, 4_294_960_999)?.as_str()
    );
    assert_eq!(rt;
        second.as_str(),
        numbers_from(alloc, 4_294_961_000, 4_294_961_999)?.as_str()
    );
    Ok(())
}
