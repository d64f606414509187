//! Requests and answers, a case to a line.

use http_session::{Fault, Reply as Answer, put_answer};
use ipam_data::calls::Call;
use ipam_data::kinds::Kind;
use ipam_data::replies::{Refusal, Reply, Views};
use ipam_data::text::Text;
use ipam_edge::BytesSink;
use ipam_json::Links;
use rest_routes::{
    Routes, answer_of_fault, answer_of_refusal_by, answer_of_reply, answer_of_want, finish_links,
    page_end, read_call, read_call_by,
};
use std::alloc::{AllocError, Global};
use std::process::Abort;
use std::test::Fail;

/// Requests: a method, a target, ` = `, and the call with its links, or the refusal with its status and its `Allow`. Each has
/// one body, that of a VRF and of a claim.
const REQUESTS: &[u8] =
    b"GET /api/ipam/vrfs/ = List { kind: Vrfs, filter: Vrfs { name: None, rd: None }, limit: 50, offset: 0 } /api/ipam/vrfs/?limit=50&offset=50
GET /api/ipam/prefixes/?limit=2 = List { kind: Prefixes, filter: Prefixes { family: None, vrf_id: None, status: None, role_id: None, prefix: None, within: None, within_include: None, contains: None }, limit: 2, offset: 0 } /api/ipam/prefixes/?limit=2&offset=2
GET /api/ipam/vrfs/?name=x&a=1&limit=x&na%6De=c+%C3%A9&limit=0&offset=3 = List { kind: Vrfs, filter: Vrfs { name: Some(Text { string: \"c \xc3\xa9\" }), rd: None }, limit: 1000, offset: 3 } /api/ipam/vrfs/?name=c+%C3%A9&limit=1000&offset=1003 /api/ipam/vrfs/?name=c+%C3%A9&limit=1000&offset=0
GET /api/ipam/vrfs/?rd=&limit=9999999999&offset=4294967295 = List { kind: Vrfs, filter: Vrfs { name: None, rd: Some(Text { string: \"\" }) }, limit: 1000, offset: 4294967295 } /api/ipam/vrfs/?rd=&limit=1000&offset=4294968295 /api/ipam/vrfs/?rd=&limit=1000&offset=4294966295
GET /api/ipam/prefixes/?contains=10.0.0.1&within_include=::/0&within=10.0.0.0/8&prefix=10.0.0.0/9&role_id=7&status=active&vrf_id=null&family=6&limit=1001 = List { kind: Prefixes, filter: Prefixes { family: Some(V6), vrf_id: Some(None), status: Some(Active), role_id: Some(Some(7)), prefix: Some(Block { first: 167772160, family: V4, len: 9 }), within: Some(Block { first: 167772160, family: V4, len: 8 }), within_include: Some(Block { first: 0, family: V6, len: 0 }), contains: Some(Block { first: 167772161, family: V4, len: 32 }) }, limit: 1000, offset: 0 } /api/ipam/prefixes/?family=6&vrf_id=null&status=active&role_id=7&prefix=10.0.0.0%2F9&within=10.0.0.0%2F8&within_include=%3A%3A%2F0&contains=10.0.0.1&limit=1000&offset=1000
GET /api/ipam/vrfs/?limit=01 = Field(Limit) 400 
GET /api/ipam/vrfs/?limit=10000000000 = Field(Limit) 400 
GET /api/ipam/vrfs/?offset=x&limit=+5 = Field(Limit) 400 
GET /api/ipam/vrfs/?offset=4294967296 = Field(Offset) 400 
GET /api/ipam/vrfs/?limit = Field(Limit) 400 
GET /api/ipam/prefixes/?limit=x&status=x&family=5 = Field(Family) 400 
GET /api/ipam/prefixes/?status=x&vrf_id=0 = Field(VrfId) 400 
GET /api/ipam/prefixes/?role_id=1&status=Active = Field(Status) 400 
GET /api/ipam/prefixes/?role_id=4294967296 = Field(RoleId) 400 
GET /api/ipam/prefixes/?within=10.0.0.1/8 = Field(Within) 400 
GET /api/ipam/prefixes/?contains=10.0.0.1/8 = Field(Contains) 400 
POST /api/ipam/vrfs/?limit=x = Create { draft: Vrf { name: \"red\", rd: None, enforce_unique: true, description: \"\" } }
POST /api/ipam/prefixes/ = Field(Prefix) 400 
GET /api/ipam/vrfs/1/?limit=x = Get { kind: Vrfs, id: 1 }
GET /api/ipam/prefixes/4294967295/ = Get { kind: Prefixes, id: 4294967295 }
PUT /api/ipam/vrfs/?x = Method 405 GET, POST
get /api/ipam/prefixes/ = Method 405 GET, POST
PATCH /api/ipam/vrfs/ = Method 405 GET, POST
HEAD /api/ipam/prefixes/7/ = Method 405 GET, PATCH, DELETE
POST /api/ipam/prefixes/7/ = Method 405 GET, PATCH, DELETE
DELETE /api/ipam/vrfs/7/ = Delete { kind: Vrfs, id: 7 }
PATCH /api/ipam/vrfs/7/?x = Change { id: 7, edit: Vrf { name: Some(\"red\"), rd: None, enforce_unique: None, description: None } }
PATCH /api/ipam/rirs/7/ = Change { id: 7, edit: Rir { name: Some(\"red\"), slug: None, is_private: None, description: None } }
PATCH /api/ipam/ip-addresses/1/ = Change { id: 1, edit: IpAddress { host: None, vrf: None, status: None, role: None, dns_name: None, description: None } }
POST /api/ipam/roles/ = Field(Slug) 400 
DELETE /api/ipam/roles/1/ = Delete { kind: Roles, id: 1 }
GET /api/ipam/ip-ranges/4294967295/ = Get { kind: Ranges, id: 4294967295 }
PUT /api/ipam/aggregates/ = Method 405 GET, POST
PUT /api/ipam/ip-addresses/7/ = Method 405 GET, PATCH, DELETE
GET /api/ipam/rirs/?slug=arin&name=x = List { kind: Rirs, filter: Rirs { name: Some(Text { string: \"x\" }), slug: Some(Text { string: \"arin\" }) }, limit: 50, offset: 0 } /api/ipam/rirs/?name=x&slug=arin&limit=50&offset=50
GET /api/ipam/roles/?name=x = List { kind: Roles, filter: Roles { name: Some(Text { string: \"x\" }), slug: None }, limit: 50, offset: 0 } /api/ipam/roles/?name=x&limit=50&offset=50
GET /api/ipam/aggregates/?rir_id=3&family=4&offset=1 = List { kind: Aggregates, filter: Aggregates { family: Some(V4), rir_id: Some(3) }, limit: 50, offset: 1 } /api/ipam/aggregates/?family=4&rir_id=3&limit=50&offset=51 /api/ipam/aggregates/?family=4&rir_id=3&limit=50&offset=0
GET /api/ipam/aggregates/?rir_id=null = Field(RirId) 400 
GET /api/ipam/ip-ranges/?contains=10.0.0.0/30&status=reserved&vrf_id=2&limit=1 = List { kind: Ranges, filter: Ranges { family: None, vrf_id: Some(Some(2)), status: Some(Reserved), role_id: None, contains: Some(Block { first: 167772160, family: V4, len: 30 }) }, limit: 1, offset: 0 } /api/ipam/ip-ranges/?vrf_id=2&status=reserved&contains=10.0.0.0%2F30&limit=1&offset=1
GET /api/ipam/ip-ranges/?role_id=x&status=container = Field(Status) 400 
GET /api/ipam/ip-addresses/?dns_name=A.b&parent=2001:DB8::/32&role=vip&status=slaac = List { kind: Addresses, filter: Addresses { family: None, vrf_id: None, status: Some(Slaac), role: Some(Vip), parent: Some(Block { first: 42540766411282592856903984951653826560, family: V6, len: 32 }), dns_name: Some(Text { string: \"a.b\" }) }, limit: 50, offset: 0 } /api/ipam/ip-addresses/?status=slaac&role=vip&parent=2001%3ADB8%3A%3A%2F32&dns_name=A.b&limit=50&offset=50
GET /api/ipam/ip-addresses/?parent=x&role= = Field(Role) 400 
GET /api/ipam/ip-addresses/?parent=10.0.0.1 = Field(Parent) 400 
GET /api/ipam/asns/ = NoRoute 404 
GET /api/ipam/prefixes/7/available-prefixes/ = Blocks { id: 7, limit: 1000 }
GET /api/ipam/prefixes/7/available-prefixes/?limit=2&offset=x&family=5 = Blocks { id: 7, limit: 2 }
GET /api/ipam/prefixes/4294967295/available-ips/ = PrefixAddrs { id: 4294967295, limit: 50 }
GET /api/ipam/prefixes/7/available-ips/?limit=0 = PrefixAddrs { id: 7, limit: 1000 }
GET /api/ipam/ip-ranges/7/available-ips/ = RangeAddrs { id: 7, limit: 50 }
GET /api/ipam/ip-ranges/7/available-ips/?limit=x&limit=1001 = RangeAddrs { id: 7, limit: 1000 }
GET /api/ipam/prefixes/7/available-prefixes/?limit=01 = Field(Limit) 400 
GET /api/ipam/ip-ranges/7/available-ips/?limit = Field(Limit) 400 
POST /api/ipam/prefixes/7/available-prefixes/?limit=x = ClaimBlocks { id: 7, answered: AsOne, items: BlockItems { items: [BlockItem { len: 24, status: Active, role: None, is_pool: false, mark_utilized: false, description: \"\" }] } }
POST /api/ipam/prefixes/7/available-ips/ = ClaimPrefixAddrs { id: 7, answered: AsOne, items: AddrItems { items: [AddrItem { status: Active, role: None, dns_name: \"\", description: \"\" }] } }
POST /api/ipam/ip-ranges/7/available-ips/ = ClaimRangeAddrs { id: 7, answered: AsOne, items: AddrItems { items: [AddrItem { status: Active, role: None, dns_name: \"\", description: \"\" }] } }
GET /api/ipam/prefixes/7/utilization/?limit=x = Utilization { kind: Prefixes, id: 7 }
GET /api/ipam/ip-ranges/7/utilization/ = Utilization { kind: Ranges, id: 7 }
GET /api/ipam/aggregates/7/utilization/ = Utilization { kind: Aggregates, id: 7 }
PATCH /api/ipam/prefixes/7/available-prefixes/ = Method 405 GET, POST
DELETE /api/ipam/prefixes/7/available-ips/ = Method 405 GET, POST
PUT /api/ipam/ip-ranges/7/available-ips/ = Method 405 GET, POST
POST /api/ipam/prefixes/7/utilization/ = Method 405 GET
HEAD /api/ipam/ip-ranges/7/utilization/ = Method 405 GET
DELETE /api/ipam/aggregates/7/utilization/ = Method 405 GET
GET /api/ipam/ip-ranges/7/available-prefixes/ = NoRoute 404 
GET /api/ipam/aggregates/7/available-ips/ = NoRoute 404 
GET /api/ipam/vrfs/7/utilization/ = NoRoute 404 
GET /api/ipam/prefixes/0/available-ips/ = NoRoute 404 
POST /api/ipam/prefixes/07/available-prefixes/ = NoRoute 404 
GET /api/ipam/prefixes/7/utilization = NoRoute 404 
GET /api/ipam/prefixes/7/utilization/x/ = NoRoute 404 
GET /api/ipam/prefixes/available-ips/ = NoRoute 404 
GET /api/ipam/vrfs = NoRoute 404 
GET /api/ipam/vrfs/7 = NoRoute 404 
GET /api/ipam/vrfs// = NoRoute 404 
GET /api/ipam/vrfs/0/ = NoRoute 404 
GET /api/ipam/vrfs/01/ = NoRoute 404 
GET /api/ipam/vrfs/+1/ = NoRoute 404 
GET /api/ipam/vrfs/4294967296/ = NoRoute 404 
GET /api/ipam/vrfs/\xff/ = NoRoute 404 
GET /api/ipam/vrfs/1/x/ = NoRoute 404 
GET /api/ipam/%76rfs/ = NoRoute 404 
GET http://x/api/ipam/vrfs/ = NoRoute 404 
OPTIONS * = NoRoute 404 
GET  = NoRoute 404 ";

/// A refusal with its status and its `Allow` field.
fn refusal_text(
    alloc: Global,
    routes: &Routes,
    target: &[u8],
    refusal: &Refusal,
) -> Result<Vec<u8>, AllocError> {
    let answer = answer_of_refusal_by(alloc, routes, target, refusal)?;
    let allow = String::from_utf8_lossy(alloc, answer.allow)?;
    let number = answer.status.as_u16();
    Ok(format!(in alloc; "{refusal:?} {number} {allow}")?.into_bytes())
}

/// A link after a space, if there is one.
fn link_words(alloc: Global, link: &Option<Text>) -> Result<String, AllocError> {
    match link {
        Some(link) => format!(in alloc; " {}", link.as_str()),
        None => Ok(String::new(alloc)),
    }
}

/// A call with its links.
fn call_words(alloc: Global, call: &Call, links: &Links) -> Result<Vec<u8>, AllocError> {
    let next = link_words(alloc, &links.next)?;
    let previous = link_words(alloc, &links.previous)?;
    Ok(format!(in alloc; "{call:?}{next}{previous}")?.into_bytes())
}

/// What a request asks for, in words.
fn told(
    alloc: Global,
    routes: &Routes,
    method: &[u8],
    target: &[u8],
) -> Result<Vec<u8>, AllocError> {
    let body = b"{\"name\":\"red\",\"prefix_length\":24}";
    match read_call_by(alloc, routes, method, target, body) {
        Ok((call, links)) => call_words(alloc, &call, &links),
        Err(refusal) => refusal_text(alloc, routes, target, &refusal),
    }
}

/// What is before the first of these bytes in a line, and after it.
fn cut(line: &[u8], byte: u8) -> (&[u8], &[u8]) {
    match line.iter().position(|other| *other == byte) {
        Some(place) => (&line[..place], &line[place + 1..]),
        None => (line, b""),
    }
}

/// Sees that the request of a line asks for what the line says.
fn check(rt: &impl Abort, alloc: Global, routes: &Routes, line: &[u8]) -> Result<(), AllocError> {
    let (method, rest) = cut(line, b' ');
    let (target, want) = cut(rest, b' ');
    let text = told(alloc, routes, method, target)?;
    assert_eq!(rt; text.as_slice(), want.strip_prefix(b"= ").unwrap_or(want));
    Ok(())
}

#[test]
fn requests(rt: HostRuntime) -> Result<(), Fail> {
    let routes = Routes::new(rt.alloc())?;
    for line in REQUESTS.split(|byte| *byte == b'\n') {
        check(&rt, rt.alloc(), &routes, line)?;
    }
    Ok(())
}

/// An answer in words: its status, whether it has `Allow`, its place, and its body.
fn answered(alloc: Global, reply: &Reply) -> Result<String, AllocError> {
    let links = Links {
        next: None,
        previous: None,
    };
    let answer = answer_of_reply(alloc, reply, &links, 3)?;
    let body = String::from_utf8_lossy(alloc, answer.body.bytes())?;
    let number = answer.status.as_u16();
    let place = match &answer.field {
        Some(field) => field.number,
        None => 0,
    };
    let fields = answer.allow.len();
    format!(in alloc; "{number} {fields} {place} {body}")
}

#[test]
fn replies(rt: HostRuntime) -> Result<(), Fail> {
    let absent = Reply::Refused(Refusal::NotFound(Kind::Prefixes, 9));
    let text = answered(rt.alloc(), &absent)?;
    let want = "404 0 3 {\"code\":\"not_found\",\"detail\":\"prefixes 9 is not there\"}";
    assert_eq!(rt; text.as_str(), want);
    let text = answered(rt.alloc(), &Reply::Gone)?;
    assert_eq!(rt; text.as_str(), "204 0 3 ");
    let used = Reply::Refused(Refusal::InUse(Kind::Addresses, 1));
    let text = answered(rt.alloc(), &used)?;
    let want = "409 0 3 {\"code\":\"in_use\",\"detail\":\"named by ip-addresses 1\"}";
    assert_eq!(rt; text.as_str(), want);
    Ok(())
}

/// The answers to bytes that are refused in the place of a request, one after another.
const FAULTS: &[u8] =
    b"HTTP/1.1 400 Bad Request\r\nContent-Type: application/json\r\nContent-Length: 60\r\nConnection: close\r\n\r\n{\"code\":\"bad_head\",\"detail\":\"the request could not be read\"}HTTP/1.1 413 Payload Too Large\r\nContent-Type: application/json\r\nContent-Length: 60\r\nConnection: close\r\n\r\n{\"code\":\"too_large\",\"detail\":\"the head exceeds 16384 bytes\"}HTTP/1.1 413 Payload Too Large\r\nContent-Type: application/json\r\nContent-Length: 62\r\nConnection: close\r\n\r\n{\"code\":\"too_large\",\"detail\":\"the body exceeds 4194304 bytes\"}HTTP/1.1 501 Not Implemented\r\nContent-Type: application/json\r\nContent-Length: 60\r\nConnection: close\r\n\r\n{\"code\":\"coding\",\"detail\":\"transfer codings are not served\"}HTTP/1.1 500 Internal Server Error\r\nContent-Type: application/json\r\nContent-Length: 38\r\nIpam-Place: 7\r\nConnection: close\r\n\r\n{\"code\":\"memory\",\"detail\":\"no memory\"}";

/// Appends the bytes of an answer that closes its connection.
fn put(alloc: Global, answer: &Answer, text: &mut Vec<u8>) -> Result<(), AllocError> {
    let mut sink = BytesSink::new(alloc, Vec::new(alloc), 4096, 4096)?;
    let _whole = put_answer(&mut sink, answer, true, false);
    text.extend_from_slice(sink.bytes())
}

#[test]
fn answers_without_memory(rt: HostRuntime) -> Result<(), Fail> {
    let alloc = rt.alloc();
    let mut text = Vec::new(alloc);
    put(alloc, &answer_of_fault(Fault::BadHead), &mut text)?;
    put(alloc, &answer_of_fault(Fault::LargeHead), &mut text)?;
    put(alloc, &answer_of_fault(Fault::LargeBody), &mut text)?;
    put(alloc, &answer_of_fault(Fault::Coding), &mut text)?;
    put(alloc, &answer_of_want(7), &mut text)?;
    assert_eq!(rt; text.as_slice(), FAULTS);
    Ok(())
}

/// Whether a page of so many rows has one after it, if the request has this query.
fn has_next(alloc: Global, target: &[u8], count: u32) -> Result<bool, AllocError> {
    let Ok((call, links)) = read_call(alloc, b"GET", target, b"") else {
        return Ok(false);
    };
    let page = Reply::Page {
        count,
        views: Views::of(Vec::new(alloc)),
    };
    Ok(finish_links(&page, page_end(&call), links).next.is_some())
}

#[test]
fn last_pages(rt: HostRuntime) -> Result<(), Fail> {
    let target = b"/api/ipam/prefixes/?limit=2&offset=1";
    assert!(rt; has_next(rt.alloc(), target, 4)?);
    assert!(rt; !has_next(rt.alloc(), target, 3)?);
    assert!(rt; !has_next(rt.alloc(), target, 0)?);
    Ok(())
}
