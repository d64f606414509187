//! Bodies and replies byte for byte, a case to a line.

use inet_num::{read_addr, read_block};
use ipam_data::address::{AddressRole, AddressStatus, IpAddress};
use ipam_data::aggregate::Aggregate;
use ipam_data::host::{Ends, Host};
use ipam_data::imports::ImportRows;
use ipam_data::kinds::Kind;
use ipam_data::prefix::{Prefix, PrefixStatus};
use ipam_data::range::{IpRange, RangeStatus};
use ipam_data::replies::{FieldName, Part, Refusal, Reply, RowFault, Rule, View, Views, Which};
use ipam_data::rir::Rir;
use ipam_data::role::Role;
use ipam_data::survey::PrefixLines;
use ipam_data::text::{Description, Distinguisher, DnsText, Name, Slug, Text, Weight};
use ipam_data::vrf::Vrf;
use ipam_json::{Links, read_body, read_edit, refusal_bytes, reply_bytes, write_reply};
use std::alloc::{AllocError, Global};
use std::process::Abort;
use std::test::Fail;

/// What bodies ask for, each with its draft or refusal: a line `= TEXT`, and below it the bodies that give this, each
/// after the letter of its kind.
const BODIES: &[u8] = b"= Vrf { name: \"red\", rd: None, enforce_unique: true, description: \"\" }
v{\"name\":\"red\"}
v { \"name\" : \"red\" , \"x\" : [1.5, {}] } 
v{\"name\":5,\"name\":\"red\"}
v{\"name\":\"red\",\"rd\":null}
v{\"name\":\"\\u0072ed\",\"rd\":\"\",\"id\":7}
= Vrf { name: \"a/\", rd: Some(\"65000:1\"), enforce_unique: false, description: \"lab\" }
v{\"description\":\"lab\",\"name\":\"a\\/\",\"rd\":\"65000:1\",\"enforce_unique\":false}
= {\"code\":\"bad_json\",\"detail\":\"the body is not the JSON that is asked for\"}
v
vnull
v[{\"name\":\"red\"}]
v{\"name\":\"red\"
v{\"name\":\"red\"} x
v{\"name\":\"red\",\"x\":\"\\ud800\"}
v{\"name\":\"red\",\"x\":\"\xff\"}
v{\"name\":\"red\",\"x\":1e400}
v{\"name\":\"red\",\"x\":\"\x07\"}
= {\"code\":\"field\",\"detail\":\"name is missing or malformed\"}
v{\"slug\":5}
v{\"name\":null}
v{\"name\":\"\"}
v{\"name\":\"a\\u007f\"}
v{\"description\":5,\"rd\":5,\"name\":\"\"}
= {\"code\":\"field\",\"detail\":\"rd is missing or malformed\"}
v{\"enforce_unique\":5,\"rd\":5,\"name\":\"red\"}
v{\"name\":\"red\",\"rd\":\"1234567890123456789012\"}
= {\"code\":\"field\",\"detail\":\"enforce_unique is missing or malformed\"}
v{\"name\":\"red\",\"enforce_unique\":null}
v{\"name\":\"red\",\"enforce_unique\":1}
= {\"code\":\"field\",\"detail\":\"description is missing or malformed\"}
v{\"name\":\"red\",\"description\":null}
p{\"prefix\":\"10.0.0.0/24\",\"description\":\"a\\tb\"}
= Prefix { block: Block { first: 167772160, family: V4, len: 24 }, vrf: None, status: Active, role: None, is_pool: false, mark_utilized: false, description: \"\" }
p{\"vrf\":0,\"prefix\":\"10.0.0.0/24\",\"vrf\":null,\"role\":null}
= Prefix { block: Block { first: 0, family: V6, len: 0 }, vrf: Some(1), status: Container, role: Some(4294967295), is_pool: true, mark_utilized: true, description: \"lab\" }
p{\"prefix\":\"0::/0\",\"vrf\":1,\"status\":\"container\",\"role\":4294967295,\"is_pool\":true,\"mark_utilized\":true,\"description\":\"lab\"}
= {\"code\":\"host_bits\",\"detail\":\"host bits are set, the prefix is 10.0.0.0/24\"}
p{\"prefix\":\"10.0.0.1/24\",\"vrf\":0}
= {\"code\":\"field\",\"detail\":\"prefix is missing or malformed\"}
p{\"vrf\":0}
p{\"prefix\":24}
p{\"prefix\":\"10.0.0.0\"}
p{\"prefix\":\"10.0.0.0/024\"}
= {\"code\":\"field\",\"detail\":\"vrf is missing or malformed\"}
p{\"prefix\":\"10.0.0.0/24\",\"vrf\":0}
p{\"prefix\":\"10.0.0.0/24\",\"vrf\":1.0}
p{\"prefix\":\"10.0.0.0/24\",\"vrf\":-0}
p{\"prefix\":\"10.0.0.0/24\",\"vrf\":4294967296}
p{\"prefix\":\"10.0.0.0/24\",\"vrf\":\"\",\"status\":5}
= {\"code\":\"field\",\"detail\":\"status is missing or malformed\"}
p{\"prefix\":\"10.0.0.0/24\",\"status\":\"Active\"}
p{\"prefix\":\"10.0.0.0/24\",\"status\":\"dhcp\",\"role\":0}
= {\"code\":\"field\",\"detail\":\"role is missing or malformed\"}
p{\"prefix\":\"10.0.0.0/24\",\"role\":\"\",\"is_pool\":0}
= {\"code\":\"field\",\"detail\":\"is_pool is missing or malformed\"}
p{\"prefix\":\"10.0.0.0/24\",\"mark_utilized\":0,\"is_pool\":null}
= Vrf { name: None, rd: None, enforce_unique: None, description: None }
V{\"id\":7}
= Vrf { name: Some(\"red\"), rd: Some(None), enforce_unique: Some(true), description: Some(\"\") }
V{\"name\":\"red\",\"rd\":null,\"enforce_unique\":true,\"description\":\"\"}
V{\"name\":\"red\",\"rd\":\"\",\"enforce_unique\":true,\"description\":\"\"}
= Prefix { block: None, vrf: Some(None), status: None, role: Some(Some(4)), is_pool: None, mark_utilized: Some(true), description: None }
P{\"vrf\":null,\"role\":4,\"mark_utilized\":true}
= Prefix { block: Some(Block { first: 167772160, family: V4, len: 8 }), vrf: Some(Some(1)), status: Some(Deprecated), role: Some(None), is_pool: Some(false), mark_utilized: None, description: None }
P{\"status\":\"deprecated\",\"prefix\":\"10.0.0.0/8\",\"vrf\":1,\"role\":null,\"is_pool\":false}
= {\"code\":\"bad_json\",\"detail\":\"the body is not the JSON that is asked for\"}
Vnull
P[]
= {\"code\":\"field\",\"detail\":\"name is missing or malformed\"}
V{\"rd\":5,\"name\":null}
= {\"code\":\"field\",\"detail\":\"description is missing or malformed\"}
V{\"description\":null}
= {\"code\":\"host_bits\",\"detail\":\"host bits are set, the prefix is 10.0.0.0/24\"}
P{\"prefix\":\"10.0.0.1/24\",\"vrf\":0}
= {\"code\":\"field\",\"detail\":\"prefix is missing or malformed\"}
P{\"prefix\":null}
= {\"code\":\"field\",\"detail\":\"vrf is missing or malformed\"}
P{\"vrf\":\"\"}
= Rir { name: \"ARIN\", slug: \"arin\", is_private: false, description: \"\" }
r{\"name\":\"ARIN\",\"slug\":\"arin\"}
= {\"code\":\"field\",\"detail\":\"slug is missing or malformed\"}
r{\"name\":\"ARIN\"}
r{\"is_private\":5,\"name\":\"ARIN\",\"slug\":\"a b\"}
R{\"slug\":\"\"}
= Rir { name: None, slug: Some(\"A_1-\"), is_private: Some(true), description: None }
R{\"slug\":\"A_1-\",\"is_private\":true}
= Role { name: \"lan\", slug: \"lan\", weight: Weight { value: 1000 }, description: \"\" }
o{\"name\":\"lan\",\"slug\":\"lan\"}
o{\"name\":\"lan\",\"slug\":\"lan\",\"weight\":1000}
= {\"code\":\"field\",\"detail\":\"weight is missing or malformed\"}
o{\"name\":\"lan\",\"slug\":\"lan\",\"weight\":32768,\"description\":5}
o{\"name\":\"lan\",\"slug\":\"lan\",\"weight\":true}
o{\"name\":\"lan\",\"slug\":\"lan\",\"weight\":65537}
O{\"weight\":null}
= Role { name: None, slug: None, weight: Some(Weight { value: 0 }), description: None }
O{\"weight\":0}
= Aggregate { block: Block { first: 167772160, family: V4, len: 8 }, rir: 1, description: \"\" }
a{\"rir\":1,\"prefix\":\"10.0.0.0/8\"}
= {\"code\":\"field\",\"detail\":\"rir is missing or malformed\"}
a{\"prefix\":\"10.0.0.0/8\"}
a{\"prefix\":\"10.0.0.0/8\",\"rir\":null,\"description\":5}
A{\"rir\":null}
A{\"rir\":0}
= {\"code\":\"host_bits\",\"detail\":\"host bits are set, the prefix is 10.0.0.0/8\"}
a{\"prefix\":\"10.0.0.1/8\"}
= Aggregate { block: None, rir: Some(2), description: None }
A{\"rir\":2}
= IpRange { start: Host { addr: Addr { family: V4, value: 167772161 }, len: 24 }, end: Host { addr: Addr { family: V4, value: 167772162 }, len: 32 }, vrf: None, status: Active, role: None, mark_utilized: false, mark_populated: false, description: \"\" }
g{\"start_address\":\"10.0.0.1/24\",\"end_address\":\"10.0.0.2\"}
= {\"code\":\"field\",\"detail\":\"start_address is missing or malformed\"}
g{\"start_address\":5}
g{\"end_address\":\"10.0.0.1/24\"}
g{\"start_address\":\"10.0.0.1/33\",\"end_address\":5}
G{\"end_address\":5,\"start_address\":null}
= {\"code\":\"field\",\"detail\":\"end_address is missing or malformed\"}
g{\"start_address\":\"10.0.0.1/24\",\"vrf\":0}
G{\"end_address\":\"10.0.0\"}
= {\"code\":\"field\",\"detail\":\"status is missing or malformed\"}
g{\"start_address\":\"10.0.0.1/24\",\"end_address\":\"10.0.0.2/24\",\"status\":\"container\",\"role\":\"\"}
= IpRange { start: None, end: Some(Host { addr: Addr { family: V4, value: 167772169 }, len: 32 }), vrf: None, status: Some(Reserved), role: Some(None), mark_utilized: None, mark_populated: None, description: None }
G{\"end_address\":\"10.0.0.9\",\"role\":null,\"status\":\"reserved\"}
= IpAddress { host: Host { addr: Addr { family: V4, value: 167772161 }, len: 24 }, vrf: None, status: Active, role: None, dns_name: \"\", description: \"\" }
d{\"address\":\"10.0.0.1/24\"}
d{\"address\":\"10.0.0.1/24\",\"role\":null}
d{\"address\":\"10.0.0.1/24\",\"role\":\"\",\"dns_name\":\"\"}
= IpAddress { host: Host { addr: Addr { family: V6, value: 1 }, len: 128 }, vrf: Some(3), status: Slaac, role: Some(Carp), dns_name: \"A.\\u{7}\", description: \"lab\" }
d{\"address\":\"::1\",\"vrf\":3,\"status\":\"slaac\",\"role\":\"carp\",\"dns_name\":\"A.\\u0007\",\"description\":\"lab\"}
= {\"code\":\"field\",\"detail\":\"address is missing or malformed\"}
d{\"role\":5}
d{\"address\":\"fe80::1%eth0\"}
D{\"address\":null}
= {\"code\":\"field\",\"detail\":\"role is missing or malformed\"}
d{\"address\":\"10.0.0.1/24\",\"role\":\"VIP\",\"dns_name\":5}
d{\"address\":\"10.0.0.1/24\",\"role\":5}
= {\"code\":\"field\",\"detail\":\"dns_name is missing or malformed\"}
d{\"address\":\"10.0.0.1/24\",\"dns_name\":null}
D{\"dns_name\":null}
= IpAddress { host: None, vrf: Some(None), status: Some(Dhcp), role: Some(None), dns_name: Some(\"\"), description: None }
D{\"vrf\":null,\"status\":\"dhcp\",\"role\":null,\"dns_name\":\"\"}
D{\"vrf\":null,\"status\":\"dhcp\",\"role\":\"\",\"dns_name\":\"\"}";

/// What a body of a kind asks for, in words.
fn told(alloc: Global, kind: Kind, body: &[u8]) -> Result<Vec<u8>, AllocError> {
    match read_body(alloc, kind, body) {
        Ok(draft) => Ok(format!(in alloc; "{draft:?}")?.into_bytes()),
        Err(refusal) => refusal_bytes(alloc, &refusal),
    }
}

/// What the body of an edit asks for, in words.
fn edit_told(alloc: Global, kind: Kind, body: &[u8]) -> Result<Vec<u8>, AllocError> {
    match read_edit(alloc, kind, body) {
        Ok(edit) => Ok(format!(in alloc; "{edit:?}")?.into_bytes()),
        Err(refusal) => refusal_bytes(alloc, &refusal),
    }
}

/// The kind of a small letter.
fn kind_of(letter: u8) -> Kind {
    match letter {
        b'v' => Kind::Vrfs,
        b'r' => Kind::Rirs,
        b'o' => Kind::Roles,
        b'a' => Kind::Aggregates,
        b'p' => Kind::Prefixes,
        b'g' => Kind::Ranges,
        _ => Kind::Addresses,
    }
}

/// What the body of a line asks for: a draft after a small letter, an edit after a capital one.
fn line_told(alloc: Global, line: &[u8]) -> Result<Vec<u8>, AllocError> {
    match line {
        [letter @ b'A'..=b'Z', body @ ..] => {
            edit_told(alloc, kind_of(letter.to_ascii_lowercase()), body)
        }
        [letter, body @ ..] => told(alloc, kind_of(*letter), body),
        [] => Ok(Vec::new(alloc)),
    }
}

/// Checks that the body of a line gives this.
fn check(rt: &impl Abort, alloc: Global, line: &[u8], want: &[u8]) -> Result<(), AllocError> {
    let text = line_told(alloc, line)?;
    assert_eq!(rt; text.as_slice(), want);
    Ok(())
}

#[test]
fn bodies(rt: HostRuntime) -> Result<(), Fail> {
    let mut want: &[u8] = b"";
    for line in BODIES.split(|byte| *byte == b'\n') {
        match line {
            [b'=', b' ', text @ ..] => want = text,
            _ => check(&rt, rt.alloc(), line, want)?,
        }
    }
    Ok(())
}

/// The text of each row, in the order of their kinds.
const ROWS: &str =
    "{\"description\":\"lab\",\"enforce_unique\":false,\"id\":7,\"name\":\"a\\\"b\\\\\",\"rd\":\"\u{e9}\"}
{\"description\":\"lab\",\"id\":1,\"is_private\":true,\"name\":\"a\\\"b\\\\\",\"slug\":\"arin\"}
{\"description\":\"lab\",\"id\":4294967294,\"name\":\"a\\\"b\\\\\",\"slug\":\"edge\",\"weight\":32767}
{\"description\":\"lab\",\"family\":6,\"id\":2,\"prefix\":\"2001:db8::/32\",\"rir\":3}
{\"children\":30,\"depth\":2,\"description\":\"lab\",\"family\":4,\"id\":4,\"is_pool\":false,\"mark_utilized\":true,\"prefix\":\"10.0.0.0/24\",\"role\":null,\"status\":{\"label\":\"Reserved\",\"value\":\"reserved\"},\"vrf\":7}
{\"description\":\"lab\",\"end_address\":\"10.0.0.9/24\",\"family\":4,\"id\":5,\"mark_populated\":true,\"mark_utilized\":false,\"role\":4,\"size\":9,\"start_address\":\"10.0.0.1/24\",\"status\":{\"label\":\"Deprecated\",\"value\":\"deprecated\"},\"vrf\":null}
{\"description\":\"lab\",\"end_address\":\"10.0.0.1/24\",\"family\":4,\"id\":5,\"mark_populated\":true,\"mark_utilized\":false,\"role\":4,\"size\":0,\"start_address\":\"10.0.0.9/24\",\"status\":{\"label\":\"Deprecated\",\"value\":\"deprecated\"},\"vrf\":null}
{\"description\":\"lab\",\"end_address\":\"::1:0:0/24\",\"family\":6,\"id\":5,\"mark_populated\":true,\"mark_utilized\":false,\"role\":4,\"size\":4294967295,\"start_address\":\"::/24\",\"status\":{\"label\":\"Deprecated\",\"value\":\"deprecated\"},\"vrf\":null}
{\"address\":\"2001:db8::1/64\",\"description\":\"lab\",\"dns_name\":\"a.example\",\"family\":6,\"id\":6,\"role\":{\"label\":\"VIP\",\"value\":\"vip\"},\"status\":{\"label\":\"SLAAC\",\"value\":\"slaac\"},\"vrf\":null}";

fn name(rt: &impl Abort, alloc: Global) -> Result<Name, AllocError> {
    Ok(Name::of(String::from_str(alloc, "a\"b\\")?).expect(rt, "a name"))
}

fn slug(rt: &impl Abort, alloc: Global, text: &str) -> Result<Slug, AllocError> {
    Ok(Slug::of(String::from_str(alloc, text)?).expect(rt, "a slug"))
}

fn description(rt: &impl Abort, alloc: Global) -> Result<Description, AllocError> {
    Ok(Description::of(String::from_str(alloc, "lab")?).expect(rt, "a description"))
}

fn vrf(rt: &impl Abort, alloc: Global) -> Result<View, AllocError> {
    let rd = Distinguisher::of(String::from_str(alloc, "\u{e9}")?);
    Ok(View::Vrf(Vrf {
        id: 7,
        name: name(rt, alloc)?,
        rd,
        enforce_unique: false,
        description: description(rt, alloc)?,
    }))
}

fn rir(rt: &impl Abort, alloc: Global) -> Result<View, AllocError> {
    Ok(View::Rir(Rir {
        id: 1,
        name: name(rt, alloc)?,
        slug: slug(rt, alloc, "arin")?,
        is_private: true,
        description: description(rt, alloc)?,
    }))
}

fn role(rt: &impl Abort, alloc: Global) -> Result<View, AllocError> {
    Ok(View::Role(Role {
        id: 4294967294,
        name: name(rt, alloc)?,
        slug: slug(rt, alloc, "edge")?,
        weight: Weight::of(32767).expect(rt, "a weight"),
        description: description(rt, alloc)?,
    }))
}

fn aggregate(rt: &impl Abort, alloc: Global) -> Result<View, AllocError> {
    Ok(View::Aggregate(Aggregate {
        id: 2,
        block: read_block(b"2001:db8::/32").ok().expect(rt, "a block"),
        rir: 3,
        description: description(rt, alloc)?,
    }))
}

fn prefix(rt: &impl Abort, alloc: Global) -> Result<View, AllocError> {
    let row = Prefix {
        id: 4,
        block: read_block(b"10.0.0.0/24").ok().expect(rt, "a block"),
        vrf: Some(7),
        status: PrefixStatus::Reserved,
        role: None,
        is_pool: false,
        mark_utilized: true,
        description: description(rt, alloc)?,
    };
    Ok(View::Prefix {
        row,
        depth: 2,
        children: 30,
    })
}

fn range(rt: &impl Abort, alloc: Global, start: &[u8], end: &[u8]) -> Result<View, AllocError> {
    let start = read_addr(start).ok().expect(rt, "an address");
    let end = read_addr(end).ok().expect(rt, "an address");
    Ok(View::IpRange(IpRange {
        id: 5,
        ends: Ends::of(start, end, 24).expect(rt, "ends"),
        vrf: None,
        status: RangeStatus::Deprecated,
        role: Some(4),
        mark_utilized: false,
        mark_populated: true,
        description: description(rt, alloc)?,
    }))
}

fn address(rt: &impl Abort, alloc: Global) -> Result<View, AllocError> {
    let addr = read_addr(b"2001:db8::1").ok().expect(rt, "an address");
    let dns_name = DnsText::of(String::from_str(alloc, "A.Example")?).expect(rt, "a text");
    Ok(View::IpAddress(IpAddress {
        id: 6,
        host: Host::of(addr, 64).expect(rt, "a host"),
        vrf: None,
        status: AddressStatus::Slaac,
        role: Some(AddressRole::Vip),
        dns_name: dns_name.lowered()?,
        description: description(rt, alloc)?,
    }))
}

/// A row of each kind, and more of ranges.
fn rows(rt: &impl Abort, alloc: Global) -> Result<Views, AllocError> {
    let mut views = Vec::new(alloc);
    views.push(vrf(rt, alloc)?)?;
    views.push(rir(rt, alloc)?)?;
    views.push(role(rt, alloc)?)?;
    views.push(aggregate(rt, alloc)?)?;
    views.push(prefix(rt, alloc)?)?;
    views.push(range(rt, alloc, b"10.0.0.1", b"10.0.0.9")?)?;
    views.push(range(rt, alloc, b"10.0.0.9", b"10.0.0.1")?)?;
    views.push(range(rt, alloc, b"::", b"::1:0:0")?)?;
    views.push(address(rt, alloc)?)?;
    Ok(Views::of(views))
}

/// Sees that the text of a reply is the next line.
fn is_next(rt: &impl Abort, alloc: Global, reply: &Reply, want: &str) -> Result<(), AllocError> {
    let links = Links {
        next: Some(Text::of(String::from_str(alloc, "/x/?limit=2&offset=2")?)),
        previous: None,
    };
    let text = reply_bytes(alloc, reply, &links)?;
    assert_eq!(rt; text.as_slice(), want.as_bytes());
    Ok(())
}

#[test]
fn replies(rt: HostRuntime) -> Result<(), Fail> {
    let mut wants = ROWS.split('\n');
    for view in rows(&rt, rt.alloc())?.into_vec() {
        let want = wants.next().unwrap_or("");
        is_next(&rt, rt.alloc(), &Reply::Changed(view), want)?;
    }
    let reply = Reply::Imported {
        created: 2,
        present: 1,
    };
    is_next(&rt, rt.alloc(), &reply, "{\"created\":2,\"present\":1}")?;
    is_next(
        &rt,
        rt.alloc(),
        &Reply::Percent(100),
        "{\"utilization\":100}",
    )?;
    let rows = Reply::Rows(ImportRows::of(Vec::new(rt.alloc())));
    is_next(&rt, rt.alloc(), &rows, "{\"rows\":0}")?;
    let lines = Reply::Lines(PrefixLines::of(Vec::new(rt.alloc())));
    is_next(&rt, rt.alloc(), &lines, "{\"lines\":0}")?;
    is_next(&rt, rt.alloc(), &Reply::Gone, "")?;
    let none = Reply::MadeMany(Views::of(Vec::new(rt.alloc())));
    is_next(&rt, rt.alloc(), &none, "[]")?;
    let page = Reply::Page {
        count: 3,
        views: Views::of(Vec::new(rt.alloc())),
    };
    let want = "{\"count\":3,\"next\":\"/x/?limit=2&offset=2\",\"previous\":null,\"results\":[]}";
    is_next(&rt, rt.alloc(), &page, want)?;
    let mut out = Vec::from_slice(rt.alloc(), b"HTTP ")?;
    let links = Links {
        next: None,
        previous: None,
    };
    write_reply(rt.alloc(), &Reply::Percent(0), &links, &mut out)?;
    assert_eq!(rt; out.as_slice(), b"HTTP {\"utilization\":0}".as_slice());
    Ok(())
}

/// The code and the detail of each refusal below.
const REFUSALS: &str = "bad_head the request could not be read
too_large the head exceeds 16384 bytes
too_large the body exceeds 4194304 bytes
coding transfer codings are not served
method the path does not have this method
field prefix_length is missing or malformed
not_found ip-ranges 4294967295 is not there
in_use named by ip-addresses 3
no_space no space for claim 12
limit claims would exceed 1000
limit rows would exceed 1
limit log would exceed 1000000
limit ids would exceed 4294967294
keeper the store could not be written
memory no memory
duplicate coincides with 9
zero_mask a mask of length 0 is refused
aggregate_overlap overlaps aggregate 1
range_order the end must be greater than the start
range_family start and end differ in family
range_mask start and end differ in mask
range_size a range has at most 4294967295 addresses
range_overlap overlaps range 2
slaac_family slaac is for IPv6 only
name_taken the name is that of 3
slug_taken the slug is that of 4
rd_taken the rd is that of 5
coincide prefixes 6 and 7 coincide
wanted_length the length does not fit the prefix
dns_name not a DNS name
no_such rirs 8 is not there
no_such_name no roles has this name
ambiguous vrfs 1 and 2 have this name
populated inside populated range 9";

/// The rule of a line past the refusals.
fn rule(number: u32) -> Rule {
    match number {
        0 => Rule::ZeroMask,
        1 => Rule::AggregateOverlap(1),
        2 => Rule::RangeOrder,
        3 => Rule::RangeFamily,
        4 => Rule::RangeMask,
        5 => Rule::RangeSize,
        6 => Rule::RangeOverlap(2),
        7 => Rule::SlaacFamily,
        8 => Rule::NameTaken(3),
        9 => Rule::SlugTaken(4),
        10 => Rule::RdTaken(5),
        11 => Rule::Coincide(Kind::Prefixes, 6, 7),
        12 => Rule::WantedLength,
        13 => Rule::DnsName,
        14 => Rule::NoSuch(Kind::Rirs, 8),
        15 => Rule::NoSuchName(Kind::Roles),
        16 => Rule::Ambiguous(1, 2),
        _ => Rule::Populated(9),
    }
}

/// The refusal of a line.
fn refusal(number: u32) -> Refusal {
    match number {
        0 => Refusal::BadHead,
        1 => Refusal::TooLarge(Part::Head),
        2 => Refusal::TooLarge(Part::Body),
        3 => Refusal::Coding,
        4 => Refusal::Method,
        5 => Refusal::Field(FieldName::PrefixLength),
        6 => Refusal::NotFound(Kind::Ranges, 4294967295),
        7 => Refusal::InUse(Kind::Addresses, 3),
        8 => Refusal::NoSpace(12),
        9 => Refusal::Limit(Which::Claims, 1000),
        10 => Refusal::Limit(Which::Rows, 1),
        11 => Refusal::Limit(Which::Log, 1000000),
        12 => Refusal::Limit(Which::Ids, 4294967294),
        13 => Refusal::Keeper,
        14 => Refusal::Memory,
        15 => Refusal::Row(3, RowFault::Rule(Rule::Duplicate(9))),
        _ => Refusal::Rule(rule(number - 16)),
    }
}

#[test]
fn refusals(rt: HostRuntime) -> Result<(), Fail> {
    let mut number = 0;
    for line in REFUSALS.split('\n') {
        let (code, detail) = line.split_once(' ').unwrap_or((line, ""));
        let text = refusal_bytes(rt.alloc(), &refusal(number))?;
        let want = format!(in rt.alloc(); "{{\"code\":\"{code}\",\"detail\":\"{detail}\"}}")?;
        assert_eq!(rt; text.as_slice(), want.as_bytes());
        number = number.saturating_add(1);
    }
    Ok(())
}
