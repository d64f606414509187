//! Requests of pools and the answers to them, a case to a line.

use http_session::{Fault, Reply as Answer};
use number_pools::{Listed, Member, PoolKind, PoolRefusal, PoolReply, Quantity};
use pool_json::{RequestRefusal, Shape};
use pool_rest::{Routes, answer_of_fault, answer_of_refusal_by, answer_of_reply, read_call_by};
use std::alloc::{AllocError, Global};
use std::process::Abort;
use std::test::Fail;
use stored_tables::tables::Text;

/// Requests: a method, a target, a body, ` = `, and the call with whether its reply is a list for a claim, or the refusal with its status
/// and its `Allow`.
const REQUESTS: &[u8] = b"GET /api/ipam/asn-ranges/ - = Ranges { kind: Asn } Asn false
GET /api/ipam/vlan-groups/?limit=x {} = Ranges { kind: Vlan } Vlan false
POST /api/ipam/asn-ranges/?limit=x {\"name\":\"lab\",\"start\":64512,\"end\":64521} = AddRange { kind: Asn, name: Text { characters: Owned(\"lab\") }, first: 64512, last: 64521 } Asn false
POST /api/ipam/vlan-groups/ {\"name\":\"lab\",\"start\":0,\"end\":4095} = AddRange { kind: Vlan, name: Text { characters: Owned(\"lab\") }, first: 0, last: 4095 } Vlan false
POST /api/ipam/asn-ranges/ - = Common(BadJson) 400 
POST /api/ipam/asn-ranges/ {} = Common(Field(Name)) 400 
POST /api/ipam/asn-ranges/ {\"name\":\"lab\"} = Start 400 
POST /api/ipam/vlan-groups/ {\"name\":\"lab\",\"start\":1} = End 400 
PATCH /api/ipam/asn-ranges/ {} = Common(Method) 405 GET, POST
DELETE /api/ipam/vlan-groups/ - = Common(Method) 405 GET, POST
get /api/ipam/vlan-groups/ - = Common(Method) 405 GET, POST
HEAD /api/ipam/asn-ranges/ - = Common(Method) 405 GET, POST
DELETE /api/ipam/asn-ranges/7/ x = CutRange { kind: Asn, id: 7 } Asn false
DELETE /api/ipam/vlan-groups/4294967295/?x - = CutRange { kind: Vlan, id: 4294967295 } Vlan false
GET /api/ipam/asn-ranges/7/?x - = OneRange { kind: Asn, id: 7 } Asn false
GET /api/ipam/vlan-groups/7/ {} = OneRange { kind: Vlan, id: 7 } Vlan false
POST /api/ipam/vlan-groups/7/ {} = Common(Method) 405 GET, PATCH, DELETE
PATCH /api/ipam/asn-ranges/7/ {} = EditRange { kind: Asn, id: 7, name: None, first: None, last: None } Asn false
PATCH /api/ipam/vlan-groups/7/ {\"name\":\"lab\",\"start\":0,\"end\":4095,\"id\":8} = EditRange { kind: Vlan, id: 7, name: Some(Text { characters: Owned(\"lab\") }), first: Some(0), last: Some(4095) } Vlan false
PATCH /api/ipam/vlan-groups/7/ {\"end\":9} = EditRange { kind: Vlan, id: 7, name: None, first: None, last: Some(9) } Vlan false
PATCH /api/ipam/asn-ranges/7/ {\"name\":\"\",\"start\":-1} = Common(Field(Name)) 400 
PATCH /api/ipam/asn-ranges/7/ {\"end\":\"9\",\"start\":-1} = Start 400 
PATCH /api/ipam/asn-ranges/7/ {\"end\":null} = End 400 
PATCH /api/ipam/asn-ranges/7/ [] = Common(BadJson) 400 
GET /api/ipam/asns/ - = Page { kind: Asn, query: MemberQuery { number: None, range: None, name: None, limit: 50, offset: 0 } } Asn false
GET /api/ipam/asns/?asn=64512&range_id=3&name=a%20b&limit=2&offset=4294967295 {} = Page { kind: Asn, query: MemberQuery { number: Some(64512), range: Some(3), name: Some(Text { characters: Owned(\"a b\") }), limit: 2, offset: 4294967295 } } Asn false
GET /api/ipam/vlans/?vid=1&vid=4294967295&group_id=7&asn=x&range_id=x&limit=0 - = Page { kind: Vlan, query: MemberQuery { number: Some(4294967295), range: Some(7), name: None, limit: 1000, offset: 0 } } Vlan false
GET /api/ipam/vlans/?name - = Page { kind: Vlan, query: MemberQuery { number: None, range: None, name: Some(Text { characters: Owned(\"\") }), limit: 50, offset: 0 } } Vlan false
GET /api/ipam/vlans/?offset=x&limit=x&group_id=0&vid=0 - = Number(Vlan) 400 
GET /api/ipam/vlans/?offset=x&limit=x&group_id=01 - = Range(Vlan) 400 
GET /api/ipam/asns/?offset=x&limit=x&range_id=4294967296 - = Range(Asn) 400 
GET /api/ipam/asns/?offset=x&limit=x - = Common(Field(Limit)) 400 
GET /api/ipam/asns/?offset=4294967296 - = Common(Field(Offset)) 400 
POST /api/ipam/vlans/ {} = Common(Method) 405 GET
DELETE /api/ipam/asns/ - = Common(Method) 405 GET
DELETE /api/ipam/asns/7/ - = CutMember { kind: Asn, id: 7 } Asn false
DELETE /api/ipam/vlans/8/ - = CutMember { kind: Vlan, id: 8 } Vlan false
GET /api/ipam/asns/7/ - = OneMember { kind: Asn, id: 7 } Asn false
GET /api/ipam/vlans/7/ - = OneMember { kind: Vlan, id: 7 } Vlan false
POST /api/ipam/vlans/7/ {} = Common(Method) 405 GET, PATCH, DELETE
PATCH /api/ipam/vlans/7/ {} = EditMember { kind: Vlan, id: 7, name: None } Vlan false
PATCH /api/ipam/vlans/7/ {\"name\":\"red\",\"vid\":5} = EditMember { kind: Vlan, id: 7, name: Some(Text { characters: Owned(\"red\") }) } Vlan false
PATCH /api/ipam/asns/7/ {\"name\":\"\"} = EditMember { kind: Asn, id: 7, name: Some(Text { characters: Owned(\"\") }) } Asn false
PATCH /api/ipam/vlans/7/ {\"name\":\"\"} = Common(Field(Name)) 400 
PATCH /api/ipam/asns/7/ {\"name\":null} = Common(Field(Name)) 400 
PATCH /api/ipam/asns/7/ 5 = Common(BadJson) 400 
GET /api/ipam/asn-ranges/7/asns/?limit=x - = Members { kind: Asn, id: 7 } Asn false
GET /api/ipam/vlan-groups/7/vlans/ - = Members { kind: Vlan, id: 7 } Vlan false
POST /api/ipam/asn-ranges/7/asns/?limit=x {\"asn\":64520} = Record { kind: Asn, id: 7, list: false, items: Listed { items: [Chosen { number: 64520, name: Text { characters: Owned(\"\") } }] } } Asn false
POST /api/ipam/vlan-groups/7/vlans/ [{\"name\":\"red\",\"vid\":0}] = Record { kind: Vlan, id: 7, list: true, items: Listed { items: [Chosen { number: 0, name: Text { characters: Owned(\"red\") } }] } } Vlan true
POST /api/ipam/asn-ranges/7/asns/ {} = Number(Asn) 400 
POST /api/ipam/vlan-groups/7/vlans/ [{}] = Number(Vlan) 400 
POST /api/ipam/vlan-groups/7/vlans/ {\"vid\":7} = Common(Field(Name)) 400 
POST /api/ipam/vlan-groups/7/vlans/ [] = Common(Field(Body)) 400 
POST /api/ipam/vlan-groups/7/vlans/ 5 = Common(BadJson) 400 
PATCH /api/ipam/asn-ranges/7/asns/ {} = Common(Method) 405 GET, POST
DELETE /api/ipam/vlan-groups/7/vlans/ - = Common(Method) 405 GET, POST
GET /api/ipam/asn-ranges/7/available-asns/ - = Available { kind: Asn, id: 7, limit: 50 } Asn false
GET /api/ipam/vlan-groups/7/available-vlans/?limit=2&offset=x - = Available { kind: Vlan, id: 7, limit: 2 } Vlan false
GET /api/ipam/asn-ranges/7/available-asns/?limit=0 - = Available { kind: Asn, id: 7, limit: 1000 } Asn false
GET /api/ipam/asn-ranges/7/available-asns/?limit=x&limit=1001 - = Available { kind: Asn, id: 7, limit: 1000 } Asn false
GET /api/ipam/vlan-groups/7/available-vlans/?limit=01 - = Common(Field(Limit)) 400 
GET /api/ipam/vlan-groups/7/available-vlans/?limit - = Common(Field(Limit)) 400 
POST /api/ipam/asn-ranges/7/available-asns/?limit=x {} = Claim { kind: Asn, id: 7, list: false, names: Texts { items: [Text { characters: Owned(\"\") }] } } Asn false
POST /api/ipam/asn-ranges/7/available-asns/ [{},{\"name\":5}] = Claim { kind: Asn, id: 7, list: true, names: Texts { items: [Text { characters: Owned(\"\") }, Text { characters: Owned(\"\") }] } } Asn true
POST /api/ipam/vlan-groups/7/available-vlans/ {\"name\":\"red\"} = Claim { kind: Vlan, id: 7, list: false, names: Texts { items: [Text { characters: Owned(\"red\") }] } } Vlan false
POST /api/ipam/vlan-groups/7/available-vlans/ [{\"name\":\"red\"}] = Claim { kind: Vlan, id: 7, list: true, names: Texts { items: [Text { characters: Owned(\"red\") }] } } Vlan true
POST /api/ipam/vlan-groups/7/available-vlans/ {} = Common(Field(Name)) 400 
POST /api/ipam/vlan-groups/7/available-vlans/ [] = Common(Field(Body)) 400 
POST /api/ipam/asn-ranges/7/available-asns/ 5 = Common(BadJson) 400 
DELETE /api/ipam/asn-ranges/7/available-asns/ - = Common(Method) 405 GET, POST
GET /api/ipam/asn-ranges/7/available-vlans/ - = Common(NoRoute) 404 
GET /api/ipam/vlan-groups/7/available-asns/ - = Common(NoRoute) 404 
GET /api/ipam/asn-ranges/7/vlans/ - = Common(NoRoute) 404 
GET /api/ipam/vlan-groups/7/asns/ - = Common(NoRoute) 404 
GET /api/ipam/asns - = Common(NoRoute) 404 
GET /api/ipam/vlans// - = Common(NoRoute) 404 
GET /api/ipam/asns/7/asns/ - = Common(NoRoute) 404 
GET /api/ipam/prefixes/ - = Common(NoRoute) 404 
GET /api/ipam/asn-ranges - = Common(NoRoute) 404 
DELETE /api/ipam/asn-ranges/0/ - = Common(NoRoute) 404 
DELETE /api/ipam/asns/01/ - = Common(NoRoute) 404 
DELETE /api/ipam/vlans/4294967296/ - = Common(NoRoute) 404 
DELETE /api/ipam/vlans/+1/ - = Common(NoRoute) 404 
GET /api/ipam/%61sn-ranges/ - = Common(NoRoute) 404 
GET /api/ipam/\xff/ - = Common(NoRoute) 404 
GET / - = Common(NoRoute) 404 ";

/// A refusal with its status and its `Allow` field.
fn refusal_text(
    alloc: Global,
    routes: &Routes,
    target: &[u8],
    refusal: &RequestRefusal,
) -> Result<Vec<u8>, AllocError> {
    let answer = answer_of_refusal_by(alloc, routes, target, refusal)?;
    let allow = String::from_utf8_lossy(alloc, answer.allow)?;
    let number = answer.status.as_u16();
    Ok(format!(in alloc; "{refusal:?} {number} {allow}")?.into_bytes())
}

/// What a request asks for, in words.
fn told(
    alloc: Global,
    routes: &Routes,
    method: &[u8],
    target: &[u8],
    body: &[u8],
) -> Result<Vec<u8>, AllocError> {
    match read_call_by(alloc, routes, method, target, body) {
        Ok((call, shape)) => {
            let kind = shape.kind;
            let list = shape.list;
            Ok(format!(in alloc; "{call:?} {kind:?} {list}")?.into_bytes())
        }
        Err(refusal) => refusal_text(alloc, routes, target, &refusal),
    }
}

/// What is before the first of these bytes in a line, and after it.
fn cut(line: &[u8], byte: u8) -> (&[u8], &[u8]) {
    match line.iter().position(|other| *other == byte) {
        Some(place) => (&line[..place], &line[place + 1..]),
        None => (line, b""),
    }
}

/// Sees that the request of a line asks for what the line says.
fn check(rt: &impl Abort, alloc: Global, routes: &Routes, line: &[u8]) -> Result<(), AllocError> {
    let (method, rest) = cut(line, b' ');
    let (target, rest) = cut(rest, b' ');
    let (body, want) = cut(rest, b' ');
    let text = told(alloc, routes, method, target, body)?;
    assert_eq!(rt; text.as_slice(), want.strip_prefix(b"= ").unwrap_or(want));
    Ok(())
}

#[test]
fn requests(rt: HostRuntime) -> Result<(), Fail> {
    let routes = Routes::new(rt.alloc())?;
    for line in REQUESTS.split(|byte| *byte == b'\n') {
        check(&rt, rt.alloc(), &routes, line)?;
    }
    Ok(())
}

/// An answer in words: its status, whether it has `Allow`, its place if it has one, and its body.
fn words(alloc: Global, answer: &Answer) -> Result<String, AllocError> {
    let body = String::from_utf8_lossy(alloc, answer.body.bytes())?;
    let number = answer.status.as_u16();
    let fields = answer.allow.len();
    match &answer.field {
        Some(field) => {
            let place = field.number;
            format!(in alloc; "{number} {fields} {place} {body}")
        }
        None => format!(in alloc; "{number} {fields} - {body}"),
    }
}

/// Sees how a reply to a call of VLANs is answered.
fn is_answered(
    rt: &impl Abort,
    alloc: Global,
    list: bool,
    reply: &PoolReply,
    want: &str,
) -> Result<(), AllocError> {
    let shape = Shape {
        kind: PoolKind::Vlan,
        list,
    };
    let answer = answer_of_reply(alloc, shape, reply, 3)?;
    let text = words(alloc, &answer)?;
    assert_eq!(rt; text.as_str(), want);
    Ok(())
}

/// One VLAN that is claimed.
fn claimed(alloc: Global) -> Result<PoolReply, AllocError> {
    let mut rows = Vec::new(alloc);
    rows.push(Member {
        id: 1,
        range: 2,
        number: 100,
        name: Text::of(String::from_str(alloc, "red")?),
    })?;
    Ok(PoolReply::Claimed(Listed::of(rows)))
}

#[test]
fn replies(rt: HostRuntime) -> Result<(), Fail> {
    let alloc = rt.alloc();
    let row = "{\"group\":2,\"id\":1,\"name\":\"red\",\"vid\":100}";
    let one = format!(in alloc; "201 0 3 {row}")?;
    is_answered(&rt, alloc, false, &claimed(alloc)?, one.as_str())?;
    let list = format!(in alloc; "201 0 3 [{row}]")?;
    is_answered(&rt, alloc, true, &claimed(alloc)?, list.as_str())?;
    is_answered(&rt, alloc, false, &PoolReply::Gone, "204 0 3 ")?;
    let none = PoolReply::Numbers(Listed::of(Vec::new(alloc)));
    is_answered(&rt, alloc, false, &none, "200 0 3 []")?;
    Ok(())
}

/// Sees how a refusal by the pools is answered.
fn is_refused(
    rt: &impl Abort,
    alloc: Global,
    refusal: PoolRefusal,
    want: &str,
) -> Result<(), AllocError> {
    let shape = Shape {
        kind: PoolKind::Asn,
        list: false,
    };
    let answer = answer_of_reply(alloc, shape, &PoolReply::Refused(refusal), 0)?;
    let text = words(alloc, &answer)?;
    assert_eq!(rt; text.as_str(), want);
    Ok(())
}

#[test]
fn refusals(rt: HostRuntime) -> Result<(), Fail> {
    let alloc = rt.alloc();
    let want = "404 0 0 {\"code\":\"not_found\",\"detail\":\"9 is not there\"}";
    is_refused(&rt, alloc, PoolRefusal::Absent(9), want)?;
    let want = "400 0 0 {\"code\":\"name_taken\",\"detail\":\"the name is that of 1\"}";
    is_refused(&rt, alloc, PoolRefusal::NameTaken(1), want)?;
    let want = "400 0 0 {\"code\":\"bounds\",\"detail\":\"first and last do not fit\"}";
    is_refused(&rt, alloc, PoolRefusal::Bounds, want)?;
    let want = "409 0 0 {\"code\":\"in_use\",\"detail\":\"named by member 2\"}";
    is_refused(&rt, alloc, PoolRefusal::InUse(2), want)?;
    let want = "409 0 0 {\"code\":\"no_space\",\"detail\":\"no space for claim 0\"}";
    is_refused(&rt, alloc, PoolRefusal::NoSpace(0), want)?;
    let want = "400 0 0 {\"code\":\"bounds\",\"detail\":\"number 7 is not in the range\"}";
    is_refused(&rt, alloc, PoolRefusal::Outside(7), want)?;
    let want = "409 0 0 {\"code\":\"taken\",\"detail\":\"number 7 is that of member 2\"}";
    is_refused(&rt, alloc, PoolRefusal::Taken(7, 2), want)?;
    let want = "409 0 0 {\"code\":\"taken\",\"detail\":\"number 7 is that of an earlier item\"}";
    is_refused(&rt, alloc, PoolRefusal::Repeated(7), want)?;
    let want = "507 0 0 {\"code\":\"limit\",\"detail\":\"claims would exceed 1000\"}";
    is_refused(&rt, alloc, PoolRefusal::Limit(Quantity::Claims, 1000), want)?;
    let want = "503 0 0 {\"code\":\"keeper\",\"detail\":\"the store could not be written\"}";
    is_refused(&rt, alloc, PoolRefusal::Keeper, want)?;
    let want = "500 0 0 {\"code\":\"memory\",\"detail\":\"no memory\"}";
    is_refused(&rt, alloc, PoolRefusal::Memory, want)?;
    Ok(())
}

#[test]
fn faults(rt: HostRuntime) -> Result<(), Fail> {
    let alloc = rt.alloc();
    let text = words(alloc, &answer_of_fault(Fault::LargeBody))?;
    let want = "413 0 - {\"code\":\"too_large\",\"detail\":\"the body exceeds 4194304 bytes\"}";
    assert_eq!(rt; text.as_str(), want);
    Ok(())
}
