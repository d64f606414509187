//! Bodies and replies of pools, byte for byte, a case to a line.

use ipam_data::calls::Answered;
use number_pools::{
    Listed, Member, MemberQuery, NumberRange, PoolKind, PoolRefusal, PoolReply, Quantity,
};
use pool_json::{
    RequestRefusal, Shape, read_claim, read_range, read_record, reply_bytes, request_refusal_bytes,
};
use std::alloc::{AllocError, Global};
use std::test::Fail;
use stored_tables::tables::Text;

/// What bodies of ranges ask for: a line `= TEXT`, and below it the bodies that give this.
const RANGES: &[u8] = b"= lab 64512 64521
{\"name\":\"lab\",\"start\":64512,\"end\":64521}
 { \"end\" : 64521 , \"x\" : [1.5, {}] , \"start\":64512, \"name\":\"l\\u0061b\" } 
{\"name\":5,\"name\":\"lab\",\"start\":0,\"start\":64512,\"end\":64521}
= x 0 4294967295
{\"name\":\"x\",\"start\":0,\"end\":4294967295}
= {\"code\":\"bad_json\",\"detail\":\"the body is not the JSON that is asked for\"}

null
[{\"name\":\"lab\",\"start\":1,\"end\":2}]
{\"name\":\"lab\",\"start\":1,\"end\":2
{\"name\":\"lab\",\"start\":1,\"end\":2} x
{\"name\":\"\xff\",\"start\":1,\"end\":2}
= {\"code\":\"field\",\"detail\":\"name is missing or malformed\"}
{}
{\"start\":-1,\"end\":-1}
{\"name\":null,\"start\":1,\"end\":2}
{\"name\":\"\",\"start\":1,\"end\":2}
{\"name\":\"a\\u007f\",\"start\":1,\"end\":2}
{\"name\":\"aaaaaaaaaaaaaaaaaaaaaaaaaaaaaaaaaaaaaaaaaaaaaaaaaaaaaaaaaaaaaaaaaaaaaaaaaaaaaaaaaaaaaaaaaaaaaaaaaaaaa\",\"start\":1,\"end\":2}
= {\"code\":\"field\",\"detail\":\"start is missing or malformed\"}
{\"name\":\"lab\"}
{\"name\":\"lab\",\"start\":-1,\"end\":-1}
{\"name\":\"lab\",\"start\":1.0,\"end\":2}
{\"name\":\"lab\",\"start\":\"1\",\"end\":2}
{\"name\":\"lab\",\"start\":null,\"end\":2}
{\"name\":\"lab\",\"start\":4294967296,\"end\":2}
= {\"code\":\"field\",\"detail\":\"end is missing or malformed\"}
{\"name\":\"lab\",\"start\":1}
{\"name\":\"lab\",\"start\":1,\"end\":4294967296}
{\"name\":\"lab\",\"start\":1,\"end\":1e1}
{\"name\":\"lab\",\"start\":1,\"end\":true}";

/// What bodies of claims ask for, each after the letter of its kind: the names with a colon after each, of a list after a `+`.
const CLAIMS: &[u8] = b"= :
a{}
a{\"name\":5}
= +::
a[{},{\"name\":\"x\"}]
= red:
v{\"name\":\"red\"}
= +red:
v[{\"name\":\"red\"}]
= +red:blue:
v[{\"name\":\"red\"},{\"name\":\"blue\",\"vid\":7}]
= {\"code\":\"bad_json\",\"detail\":\"the body is not the JSON that is asked for\"}
a
a5
anull
a[5]
a[{},5]
a[[{}]]
v{\"name\":\"red\"
v[{\"name\":\"red\"},5]
v[{},5]
= {\"code\":\"field\",\"detail\":\"body is missing or malformed\"}
a[]
v[ ]
= {\"code\":\"field\",\"detail\":\"name is missing or malformed\"}
v{}
v{\"name\":5}
v{\"name\":\"\"}
v[{\"name\":\"red\"},{}]";

/// What bodies that record ask for, as those of claims: a number and a name of each item.
const RECORDS: &[u8] = b"= 64520 :
a{\"asn\":64520}
a{\"asn\":64520,\"name\":\"\"}
a{\"asn\":1,\"asn\":64520,\"x\":{}}
= 64520 edge:
a{\"asn\":64520,\"name\":\"edge\"}
= +0 :4294967295 a b:
a[{\"asn\":0},{\"name\":\"a b\",\"asn\":4294967295}]
= 10 voice:
v{\"vid\":10,\"name\":\"voice\"}
= +10 voice:10 data:
v[{\"vid\":10,\"name\":\"voice\"},{\"vid\":10,\"name\":\"data\",\"asn\":1}]
= {\"code\":\"bad_json\",\"detail\":\"the body is not the JSON that is asked for\"}
a
a5
a[{\"asn\":1},5]
v[{},5]
v{\"vid\":10
= {\"code\":\"field\",\"detail\":\"body is missing or malformed\"}
a[]
v[ ]
= {\"code\":\"field\",\"detail\":\"asn is missing or malformed\"}
a{}
a{\"vid\":10,\"name\":5}
a{\"asn\":4294967296}
a[{\"asn\":1},{\"asn\":1.0}]
= {\"code\":\"field\",\"detail\":\"vid is missing or malformed\"}
v{}
v{\"vid\":\"10\",\"name\":5}
v[{\"vid\":-1},{\"vid\":10}]
= {\"code\":\"field\",\"detail\":\"name is missing or malformed\"}
a{\"asn\":1,\"name\":null}
a{\"asn\":1,\"name\":\"a\\u007f\"}
a{\"asn\":1,\"name\":\"aaaaaaaaaaaaaaaaaaaaaaaaaaaaaaaaaaaaaaaaaaaaaaaaaaaaaaaaaaaaaaaaaaaaaaaaaaaaaaaaaaaaaaaaaaaaaaaaaaaaa\"}
v{\"vid\":10}
v{\"vid\":10,\"name\":\"\"}
v[{\"vid\":10},{}]";

/// How a refusal is printed.
fn refused(alloc: Global, refusal: RequestRefusal) -> Result<Vec<u8>, AllocError> {
    request_refusal_bytes(alloc, &refusal)
}

/// How the body of a range is printed.
fn range_told(alloc: Global, body: &[u8]) -> Result<Vec<u8>, AllocError> {
    match read_range(alloc, body) {
        Ok(range) => {
            let name = range.name.as_str();
            let first = range.first;
            let last = range.last;
            let text = format!(in alloc; "{name} {first} {last}")?;
            Vec::from_slice(alloc, text.as_bytes())
        }
        Err(refusal) => refused(alloc, refusal),
    }
}

/// How the body of a claim is printed.
fn claim_told(alloc: Global, kind: PoolKind, body: &[u8]) -> Result<Vec<u8>, AllocError> {
    match read_claim(alloc, kind, body) {
        Ok((answered, names)) => {
            let mut text = Vec::new(alloc);
            match answered {
                Answered::AsOne => {}
                Answered::AsList => text.push(b'+')?,
            }
            for name in names.as_slice() {
                text.extend_from_slice(name.as_str().as_bytes())?;
                text.push(b':')?;
            }
            Ok(text)
        }
        Err(refusal) => refused(alloc, RequestRefusal::Common(refusal)),
    }
}

/// How a line of the test states the body of a call that records.
fn record_told(alloc: Global, kind: PoolKind, body: &[u8]) -> Result<Vec<u8>, AllocError> {
    match read_record(alloc, kind, body) {
        Ok((answered, items)) => {
            let mut text = Vec::new(alloc);
            match answered {
                Answered::AsOne => {}
                Answered::AsList => text.push(b'+')?,
            }
            for item in items.as_slice() {
                let number = item.number;
                let name = item.name.as_str();
                text.extend_from_slice(format!(in alloc; "{number} {name}:")?.as_bytes())?;
            }
            Ok(text)
        }
        Err(refusal) => refused(alloc, refusal),
    }
}

/// How a line states a body that records, after the letter of its kind.
fn record_letter_told(alloc: Global, line: &[u8]) -> Result<Vec<u8>, AllocError> {
    match line {
        [b'a', body @ ..] => record_told(alloc, PoolKind::Asn, body),
        [b'v', body @ ..] => record_told(alloc, PoolKind::Vlan, body),
        _ => Ok(Vec::new(alloc)),
    }
}

/// How a body after the letter of its kind is printed.
fn letter_told(alloc: Global, line: &[u8]) -> Result<Vec<u8>, AllocError> {
    match line {
        [b'a', body @ ..] => claim_told(alloc, PoolKind::Asn, body),
        [b'v', body @ ..] => claim_told(alloc, PoolKind::Vlan, body),
        _ => Ok(Vec::new(alloc)),
    }
}

#[test]
fn bodies_of_ranges(rt: HostRuntime) -> Result<(), Fail> {
    let mut want: &[u8] = b"";
    for line in RANGES.split(|b| *b == b'\n') {
        match line {
            [b'=', b' ', text @ ..] => want = text,
            body => {
                let told = range_told(rt.alloc(), body)?;
                assert_eq!(rt; told.as_slice(), want);
            }
        }
    }
    Ok(())
}

#[test]
fn bodies_of_claims(rt: HostRuntime) -> Result<(), Fail> {
    let mut want: &[u8] = b"";
    for line in CLAIMS.split(|b| *b == b'\n') {
        match line {
            [b'=', b' ', text @ ..] => want = text,
            line => {
                let told = letter_told(rt.alloc(), line)?;
                assert_eq!(rt; told.as_slice(), want);
            }
        }
    }
    Ok(())
}

#[test]
fn bodies_that_record(rt: HostRuntime) -> Result<(), Fail> {
    let mut want: &[u8] = b"";
    for line in RECORDS.split(|b| *b == b'\n') {
        match line {
            [b'=', b' ', text @ ..] => want = text,
            line => {
                let told = record_letter_told(rt.alloc(), line)?;
                assert_eq!(rt; told.as_slice(), want);
            }
        }
    }
    Ok(())
}

/// A text.
fn text(alloc: Global, text: &str) -> Result<Text, AllocError> {
    Ok(Text::of(String::from_str(alloc, text)?))
}

/// A range, or a group.
fn range(alloc: Global) -> Result<NumberRange, AllocError> {
    Ok(NumberRange {
        id: 1,
        kind: PoolKind::Asn,
        name: text(alloc, "lab")?,
        first: 64512,
        last: 64514,
    })
}

/// A member of it.
fn member(alloc: Global, number: u32) -> Result<Member, AllocError> {
    Ok(Member {
        id: 7,
        range: 1,
        number,
        name: text(alloc, "a\"b")?,
    })
}

/// Two members of it.
fn members(alloc: Global) -> Result<Listed<Member>, AllocError> {
    let mut list = Vec::new(alloc);
    list.push(member(alloc, 64512)?)?;
    list.push(member(alloc, 64513)?)?;
    Ok(Listed::of(list))
}

/// A member without a name.
fn nameless(alloc: Global) -> Result<Listed<Member>, AllocError> {
    let mut list = Vec::new(alloc);
    list.push(Member {
        id: 7,
        range: 1,
        number: 64512,
        name: text(alloc, "")?,
    })?;
    Ok(Listed::of(list))
}

/// What is asked of a list.
fn asked(
    number: Option<u32>,
    range: Option<u32>,
    name: Option<Text>,
    limit: u32,
    offset: u32,
) -> MemberQuery {
    MemberQuery {
        number,
        range,
        name,
        limit,
        offset,
    }
}

/// A page with one member.
fn page(alloc: Global, query: MemberQuery, count: u32) -> Result<PoolReply, AllocError> {
    let mut one = Vec::new(alloc);
    one.push(member(alloc, 64512)?)?;
    Ok(PoolReply::Page {
        query,
        count,
        members: Listed::of(one),
    })
}

/// The reply of a line of texts.
fn reply(alloc: Global, number: u32) -> Result<PoolReply, AllocError> {
    let mut ranges = Vec::new(alloc);
    ranges.push(range(alloc)?)?;
    let mut numbers = Vec::new(alloc);
    numbers.push(64513)?;
    numbers.push(64514)?;
    let mut one = Vec::new(alloc);
    one.push(member(alloc, 64512)?)?;
    Ok(match number {
        0 => PoolReply::Made(range(alloc)?),
        1 => PoolReply::Gone,
        2 => PoolReply::Claimed(Listed::of(one)),
        3 => PoolReply::Claimed(members(alloc)?),
        4 => PoolReply::Ranges(Listed::of(ranges)),
        5 => PoolReply::Members(members(alloc)?),
        6 => PoolReply::Numbers(Listed::of(numbers)),
        7 => PoolReply::Numbers(Listed::of(Vec::new(alloc))),
        8 => PoolReply::Refused(PoolRefusal::Absent(3)),
        9 => PoolReply::Refused(PoolRefusal::NameTaken(1)),
        10 => PoolReply::Refused(PoolRefusal::Bounds),
        11 => PoolReply::Refused(PoolRefusal::InUse(2)),
        12 => PoolReply::Refused(PoolRefusal::Limit(Quantity::Claims, 1000)),
        13 => PoolReply::Refused(PoolRefusal::NoSpace(2)),
        14 => PoolReply::Refused(PoolRefusal::Limit(Quantity::Ranges, 1000)),
        15 => PoolReply::Refused(PoolRefusal::Limit(Quantity::Members, 100000)),
        16 => PoolReply::Refused(PoolRefusal::Limit(Quantity::Ids, 4294967294)),
        17 => PoolReply::Refused(PoolRefusal::Limit(Quantity::Log, 1000000)),
        18 => PoolReply::Refused(PoolRefusal::Keeper),
        19 => PoolReply::Claimed(nameless(alloc)?),
        20 => PoolReply::Refused(PoolRefusal::Outside(64511)),
        21 => PoolReply::Refused(PoolRefusal::Taken(64512, 7)),
        22 => PoolReply::Refused(PoolRefusal::Repeated(64513)),
        23 => PoolReply::Refused(PoolRefusal::Limit(Quantity::Items, 1000)),
        24 => PoolReply::ChangedRange(range(alloc)?),
        25 => PoolReply::ChangedMember(member(alloc, 64512)?),
        26 => PoolReply::OneRange(range(alloc)?),
        27 => PoolReply::OneMember(member(alloc, 64512)?),
        28 => page(
            alloc,
            asked(Some(64512), None, Some(text(alloc, "a b&c")?), 1, 1),
            3,
        )?,
        29 => page(alloc, asked(None, Some(1), None, 50, 20), 21)?,
        30 => PoolReply::Page {
            query: asked(None, None, None, 1000, 0),
            count: 0,
            members: Listed::of(Vec::new(alloc)),
        },
        _ => PoolReply::Refused(PoolRefusal::Memory),
    })
}

/// The texts of the replies above, for ASNs and, after a bar if they differ, for VLANs.
const REPLIES: &str = "{\"end\":64514,\"id\":1,\"name\":\"lab\",\"start\":64512}

{\"asn\":64512,\"id\":7,\"name\":\"a\\\"b\",\"range\":1}|{\"group\":1,\"id\":7,\"name\":\"a\\\"b\",\"vid\":64512}
{\"asn\":64512,\"id\":7,\"name\":\"a\\\"b\",\"range\":1}|{\"group\":1,\"id\":7,\"name\":\"a\\\"b\",\"vid\":64512}
[{\"end\":64514,\"id\":1,\"name\":\"lab\",\"start\":64512}]
[{\"asn\":64512,\"id\":7,\"name\":\"a\\\"b\",\"range\":1},{\"asn\":64513,\"id\":7,\"name\":\"a\\\"b\",\"range\":1}]|[{\"group\":1,\"id\":7,\"name\":\"a\\\"b\",\"vid\":64512},{\"group\":1,\"id\":7,\"name\":\"a\\\"b\",\"vid\":64513}]
[64513,64514]
[]
{\"code\":\"not_found\",\"detail\":\"3 is not there\"}
{\"code\":\"name_taken\",\"detail\":\"the name is that of 1\"}
{\"code\":\"bounds\",\"detail\":\"first and last do not fit\"}
{\"code\":\"in_use\",\"detail\":\"named by member 2\"}
{\"code\":\"limit\",\"detail\":\"claims would exceed 1000\"}
{\"code\":\"no_space\",\"detail\":\"no space for claim 2\"}
{\"code\":\"limit\",\"detail\":\"ranges would exceed 1000\"}
{\"code\":\"limit\",\"detail\":\"members would exceed 100000\"}
{\"code\":\"limit\",\"detail\":\"ids would exceed 4294967294\"}
{\"code\":\"limit\",\"detail\":\"log would exceed 1000000\"}
{\"code\":\"keeper\",\"detail\":\"the store could not be written\"}
{\"asn\":64512,\"id\":7,\"range\":1}|{\"group\":1,\"id\":7,\"name\":\"\",\"vid\":64512}
{\"code\":\"bounds\",\"detail\":\"number 64511 is not in the range\"}
{\"code\":\"taken\",\"detail\":\"number 64512 is that of member 7\"}
{\"code\":\"taken\",\"detail\":\"number 64513 is that of an earlier item\"}
{\"code\":\"limit\",\"detail\":\"items would exceed 1000\"}
{\"end\":64514,\"id\":1,\"name\":\"lab\",\"start\":64512}
{\"asn\":64512,\"id\":7,\"name\":\"a\\\"b\",\"range\":1}|{\"group\":1,\"id\":7,\"name\":\"a\\\"b\",\"vid\":64512}
{\"end\":64514,\"id\":1,\"name\":\"lab\",\"start\":64512}
{\"asn\":64512,\"id\":7,\"name\":\"a\\\"b\",\"range\":1}|{\"group\":1,\"id\":7,\"name\":\"a\\\"b\",\"vid\":64512}
{\"count\":3,\"next\":\"/api/ipam/asns/?asn=64512&name=a+b%26c&limit=1&offset=2\",\"previous\":\"/api/ipam/asns/?asn=64512&name=a+b%26c&limit=1&offset=0\",\"results\":[{\"asn\":64512,\"id\":7,\"name\":\"a\\\"b\",\"range\":1}]}|{\"count\":3,\"next\":\"/api/ipam/vlans/?vid=64512&name=a+b%26c&limit=1&offset=2\",\"previous\":\"/api/ipam/vlans/?vid=64512&name=a+b%26c&limit=1&offset=0\",\"results\":[{\"group\":1,\"id\":7,\"name\":\"a\\\"b\",\"vid\":64512}]}
{\"count\":21,\"next\":null,\"previous\":\"/api/ipam/asns/?range_id=1&limit=50&offset=0\",\"results\":[{\"asn\":64512,\"id\":7,\"name\":\"a\\\"b\",\"range\":1}]}|{\"count\":21,\"next\":null,\"previous\":\"/api/ipam/vlans/?group_id=1&limit=50&offset=0\",\"results\":[{\"group\":1,\"id\":7,\"name\":\"a\\\"b\",\"vid\":64512}]}
{\"count\":0,\"next\":null,\"previous\":null,\"results\":[]}
{\"code\":\"memory\",\"detail\":\"no memory\"}";

#[test]
fn replies(rt: HostRuntime) -> Result<(), Fail> {
    let mut number = 0;
    for line in REPLIES.split('\n') {
        let (asn, vlan) = line.split_once('|').unwrap_or((line, line));
        let reply = reply(rt.alloc(), number)?;
        let of_asn = Shape {
            kind: PoolKind::Asn,
            list: false,
        };
        let told = reply_bytes(rt.alloc(), of_asn, &reply)?;
        assert_eq!(rt; told.as_slice(), asn.as_bytes());
        let of_vlan = Shape {
            kind: PoolKind::Vlan,
            list: false,
        };
        let told = reply_bytes(rt.alloc(), of_vlan, &reply)?;
        assert_eq!(rt; told.as_slice(), vlan.as_bytes());
        number = number.saturating_add(1);
    }
    Ok(())
}

#[test]
fn a_claim_by_a_list_is_answered_by_a_list(rt: HostRuntime) -> Result<(), Fail> {
    let mut one = Vec::new(rt.alloc());
    one.push(member(rt.alloc(), 4094)?)?;
    let shape = Shape {
        kind: PoolKind::Vlan,
        list: true,
    };
    let told = reply_bytes(rt.alloc(), shape, &PoolReply::Claimed(Listed::of(one)))?;
    assert_eq!(rt;
        told.as_slice(),
        b"[{\"group\":1,\"id\":7,\"name\":\"a\\\"b\",\"vid\":4094}]".as_slice()
    );
    Ok(())
}
