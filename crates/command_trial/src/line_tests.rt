//! Runs, a line each: the call of a handed-in object that fails, if any; the status, what is written and said, and what the store has afterwards.
ghost use Rattle.std.specs.Prelude.{◌≡◌, [], IfOk};
ghost use Rattle.ipam_listen.specs.ListLanes.{lane_told};

use crate::command_files_tests::bytes_of;
use crate::session_tests::part;
use crate::store_tests::{number, opener_of};
use crate::tests::{Left, run_with};
use ipam_edge::{BytesSink, BytesSource};
use ipam_keeper::keeper::KeeperOpener;
use ipam_keeper::opener::MemoryOpener;
use ipam_listen::{Handed, ListLane, ListListener};
use std::alloc::{AllocError, Global};
use std::marker::Sync;
use std::sync::Wait;
use std::test::Fail;
use std::thread::Threads;
use stored_tables::tables::{Row, Text};

/// A request that makes a prefix.
const POST: &str =
    "POST /api/ipam/prefixes/ HTTP/1.1^;Host: x^;Content-Length: 24^;^;{\"prefix\":\"10.0.0.0/24\"}";

/// A run a line: which calls fail, each as the object and the number of its call, from 0; the words; the input, in which `once` and `twice` are that
/// request; the status; the output; what is said; how many connections were answered; the rows of the store afterwards. If it says `nobody` no lane is
/// handed out, and if it says `nowhere` no place can be bound. `''` is an empty word. A semicolon, a caret and `<N:text>` are what `bytes_of` says.
const RUNS: &str = r#"input 0|session --db a|once|3|||0|
input 1|session|once|3|HTTP/1.1 201 Created^;Content-Type: application/json^;Content-Length: 188^;Ipam-Place: 0^;^;{"children":0,"depth":0,"description":"","family":4,"id":1,"is_pool":false,"mark_utilized":false,"prefix":"10.0.0.0/24","role":null,"status":{"label":"Active","value":"active"},"vrf":null}||0|
output 0|session --db a|once|3|||0|1,10.0.0.0/24,,active,,false,false,;
keeper 0|session --db a|once|4||store: the store could not be read;|0|
keeper 1|session --db a|once|0|HTTP/1.1 503 Service Unavailable^;Content-Type: application/json^;Content-Length: 59^;Ipam-Place: 0^;^;{"code":"keeper","detail":"the store could not be written"}||0|
keeper 1|import prefixes --db a|prefix,vrf,status;10.0.0.0/24,,active;10.0.1.0/24,,active;10.0.2.0/24,,container;|4||keeper: the store could not be written;|0|
lane 0|serve --bind x --workers 1 --connections 2 --db a||3|entries 1;||1|1,10.0.0.0/24,,active,,false,false,;
nobody|serve --bind x --workers 1|x|3|entries 0;||0|
nowhere|serve --bind x --workers 1|x|3|||0|
|mirror --bind x --readers 1 --connections 2 --db a|once|0|HTTP/1.1 201 Created^;Content-Type: application/json^;Content-Length: 188^;Ipam-Place: 0^;^;{"children":0,"depth":0,"description":"","family":4,"id":1,"is_pool":false,"mark_utilized":false,"prefix":"10.0.0.0/24","role":null,"status":{"label":"Active","value":"active"},"vrf":null}||2|1,10.0.0.0/24,,active,,false,false,;
|mirror --bind x --readers 1 --connections 1|once|0|HTTP/1.1 201 Created^;Content-Type: application/json^;Content-Length: 188^;Ipam-Place: 0^;^;{"children":0,"depth":0,"description":"","family":4,"id":1,"is_pool":false,"mark_utilized":false,"prefix":"10.0.0.0/24","role":null,"status":{"label":"Active","value":"active"},"vrf":null}||1|
lane 0|mirror --bind x --readers 1 --connections 2 --db a|once|3|HTTP/1.1 201 Created^;Content-Type: application/json^;Content-Length: 188^;Ipam-Place: 0^;^;{"children":0,"depth":0,"description":"","family":4,"id":1,"is_pool":false,"mark_utilized":false,"prefix":"10.0.0.0/24","role":null,"status":{"label":"Active","value":"active"},"vrf":null}||1|1,10.0.0.0/24,,active,,false,false,;
|mirror --bind x --readers 1 --connections 1 --db a|POST /api/ipam/vrfs/ HTTP/1.1^;Content-Length: 14^;^;{"name":"red"}<600:PATCH /api/ipam/vrfs/1/ HTTP/1.1^;Content-Length: 2^;^;{}>POST /api/ipam/vrfs/ HTTP/1.1^;Content-Length: 14^;^;{"name":"red"}POST /api/ipam/vrfs/ HTTP/1.1^;Content-Length: 14^;^;{"name":"red"}POST /api/ipam/vrfs/ HTTP/1.1^;Content-Length: 14^;^;{"name":"red"}POST /api/ipam/prefixes/ HTTP/1.1^;Content-Length: 24^;^;{"prefix":"10.0.1.0/24"}POST /api/ipam/prefixes/ HTTP/1.1^;Content-Length: 24^;^;{"prefix":"10.0.2.0/24"}POST /api/ipam/prefixes/ HTTP/1.1^;Content-Length: 24^;^;{"prefix":"10.0.3.0/24"}DELETE /api/ipam/vrfs/1/ HTTP/1.1^;^;DELETE /api/ipam/vrfs/2/ HTTP/1.1^;^;DELETE /api/ipam/vrfs/3/ HTTP/1.1^;^;DELETE /api/ipam/vrfs/4/ HTTP/1.1^;^;|0|HTTP/1.1 201 Created^;Content-Type: application/json^;Content-Length: 70^;Ipam-Place: 0^;^;{"description":"","enforce_unique":true,"id":1,"name":"red","rd":null}<600:HTTP/1.1 200 OK^;Content-Type: application/json^;Content-Length: 70^;Ipam-Place: @^;^;{"description":"","enforce_unique":true,"id":1,"name":"red","rd":null}>HTTP/1.1 201 Created^;Content-Type: application/json^;Content-Length: 70^;Ipam-Place: 601^;^;{"description":"","enforce_unique":true,"id":2,"name":"red","rd":null}HTTP/1.1 201 Created^;Content-Type: application/json^;Content-Length: 70^;Ipam-Place: 602^;^;{"description":"","enforce_unique":true,"id":3,"name":"red","rd":null}HTTP/1.1 201 Created^;Content-Type: application/json^;Content-Length: 70^;Ipam-Place: 603^;^;{"description":"","enforce_unique":true,"id":4,"name":"red","rd":null}HTTP/1.1 201 Created^;Content-Type: application/json^;Content-Length: 188^;Ipam-Place: 604^;^;{"children":0,"depth":0,"description":"","family":4,"id":1,"is_pool":false,"mark_utilized":false,"prefix":"10.0.1.0/24","role":null,"status":{"label":"Active","value":"active"},"vrf":null}HTTP/1.1 201 Created^;Content-Type: application/json^;Content-Length: 188^;Ipam-Place: 605^;^;{"children":0,"depth":0,"description":"","family":4,"id":2,"is_pool":false,"mark_utilized":false,"prefix":"10.0.2.0/24","role":null,"status":{"label":"Active","value":"active"},"vrf":null}HTTP/1.1 201 Created^;Content-Type: application/json^;Content-Length: 188^;Ipam-Place: 606^;^;{"children":0,"depth":0,"description":"","family":4,"id":3,"is_pool":false,"mark_utilized":false,"prefix":"10.0.3.0/24","role":null,"status":{"label":"Active","value":"active"},"vrf":null}HTTP/1.1 204 No Content^;Ipam-Place: 607^;^;HTTP/1.1 204 No Content^;Ipam-Place: 608^;^;HTTP/1.1 204 No Content^;Ipam-Place: 609^;^;HTTP/1.1 204 No Content^;Ipam-Place: 610^;^;||1|1,10.0.1.0/24,,active,,false,false,;2,10.0.2.0/24,,active,,false,false,;3,10.0.3.0/24,,active,,false,false,;
nobody|mirror --bind x --readers 1 --db a|once|3|||0|
nowhere|mirror --bind x --readers 1 --db a|once|3|||0|
|mirror --bind x --readers 2 --db a|once|3|||0|
input 0|mirror --bind x --readers 1 --connections 1 --db a|once|3|||1|
output 0|mirror --bind x --readers 1 --connections 1 --db a|once|3|||1|1,10.0.0.0/24,,active,,false,false,;
keeper 0|mirror --bind x --readers 1 --db a|once|4||store: the store could not be read;|0|
errors 0|free||3|||0|
errors 0|load||3|||0|
|session||0|||0|
|session --global-unique=yes|twice|0|HTTP/1.1 201 Created^;Content-Type: application/json^;Content-Length: 188^;Ipam-Place: 0^;^;{"children":0,"depth":0,"description":"","family":4,"id":1,"is_pool":false,"mark_utilized":false,"prefix":"10.0.0.0/24","role":null,"status":{"label":"Active","value":"active"},"vrf":null}HTTP/1.1 400 Bad Request^;Content-Type: application/json^;Content-Length: 48^;Ipam-Place: 1^;^;{"code":"duplicate","detail":"coincides with 1"}||0|
|session --global-unique no|twice|0|HTTP/1.1 201 Created^;Content-Type: application/json^;Content-Length: 188^;Ipam-Place: 0^;^;{"children":0,"depth":0,"description":"","family":4,"id":1,"is_pool":false,"mark_utilized":false,"prefix":"10.0.0.0/24","role":null,"status":{"label":"Active","value":"active"},"vrf":null}HTTP/1.1 201 Created^;Content-Type: application/json^;Content-Length: 188^;Ipam-Place: 1^;^;{"children":0,"depth":0,"description":"","family":4,"id":2,"is_pool":false,"mark_utilized":false,"prefix":"10.0.0.0/24","role":null,"status":{"label":"Active","value":"active"},"vrf":null}||0|
|free 10.0.0.0/30|10.0.0.0/31;|0|10.0.0.2/31;||0|
|free 10.0.0.0/30|10.0.0.0/31;x;|1||line 2: not a prefix;|0|
|load 1||0|claimed 1;first 10.0.0.1;last 10.0.0.1;percent 50;entries 2;||0|
|load 1000 --workers 4||0|claimed 1000;first 10.0.0.1;last 10.0.3.232;percent 24;entries 1001;||0|
input 0 output 0||x;|2||usage: ipamd COMMAND;|0|
input 0 output 0|''|x;|2||usage: ipamd COMMAND;|0|
input 0 output 0|free|x;|2||usage: ipamd COMMAND;|0|
input 0 output 0|free 10.0.0.1/24|x;|2||usage: ipamd COMMAND;|0|
output 0|version||3|||0|
input 0|help version|x;|0|usage: ipamd version;Prints the version of the program. Also --version, -V.;||0|
input 0 output 0|version x|x;|2||usage: ipamd COMMAND;|0|
input 0 output 0|help ipamd|x;|2||usage: ipamd COMMAND;|0|
input 0 output 0|help free x|x;|2||usage: ipamd COMMAND;|0|
input 0 output 0|session --help|x;|2||usage: ipamd COMMAND;|0|
input 0 output 0|--Version|x;|2||usage: ipamd COMMAND;|0|
input 0 output 0|Session|x;|2||usage: ipamd COMMAND;|0|
input 0 output 0|session x|x;|2||usage: ipamd COMMAND;|0|
input 0 output 0|session --db|x;|2||usage: ipamd COMMAND;|0|
input 0 output 0|serve --bind 127.0.0.1:0 --workers 33|x;|2||usage: ipamd COMMAND;|0|
input 0 output 0|mirror --bind 127.0.0.1:0 --readers 17|x;|2||usage: ipamd COMMAND;|0|
input 0 output 0|import vlans|x;|2||usage: ipamd COMMAND;|0|
input 0 output 0|export|x;|2||usage: ipamd COMMAND;|0|
input 0 output 0|report tree --prefix 1|x;|2||usage: ipamd COMMAND;|0|
input 0 output 0|load 0|x;|2||usage: ipamd COMMAND;|0|
|free 10.0.0.0/16|10.0.0.0/24;10.0.4.0/22;|0|10.0.1.0/24;10.0.2.0/23;10.0.8.0/21;10.0.16.0/20;10.0.32.0/19;10.0.64.0/18;10.0.128.0/17;||0|
|free 10.0.0.0/16||0|10.0.0.0/16;||0|
|free 10.0.0.0/16|10.0.0.0/24;10.1.0.0/24;|1||line 2: not strictly inside 10.0.0.0/16;|0|
|free 10.0.0.0/16|10.0.0.0/16;|1||line 1: not strictly inside 10.0.0.0/16;|0|
input 0|free 10.0.0.0/16|10.0.0.0/16;|3|||0|
|free 10.0.0.0/16|10.0.0.1/24;|1||line 1: host bits set, the prefix is 10.0.0.0/24;|0|
|free 10.0.0.0/16|2001:db8::/32;|1||line 1: not strictly inside 10.0.0.0/16;|0|
|free 2001:db8::/126|2001:DB8::/128;|0|2001:db8::1/128;2001:db8::2/127;||0|
|free 10.0.0.0/8|<200000:;>|0|10.0.0.0/8;||0|
|free 10.0.0.0/8|<200001:;>|1||line 200001: too many lines;|0|
|load 2||0|claimed 2;first 10.0.0.1;last 10.0.0.2;percent 33;entries 3;||0|
|load 254||0|claimed 254;first 10.0.0.1;last 10.0.0.254;percent 24;entries 255;||0|
|load 255||0|claimed 255;first 10.0.0.1;last 10.0.0.255;percent 24;entries 256;||0|
|load 256||0|claimed 256;first 10.0.0.1;last 10.0.1.0;percent 25;entries 257;||0|
|load 5 --workers 32||0|claimed 5;first 10.0.0.1;last 10.0.0.5;percent 16;entries 6;||0|
|load 100000 --workers 4||0|claimed 100000;first 10.0.0.1;last 10.1.134.160;percent 19;entries 100001;||0|
input 0 output 0|free 0.0.0.0/0|x;|2||usage: ipamd COMMAND;|0|
input 0 output 0|load 5 --workers 33|x;|2||usage: ipamd COMMAND;|0|
input 0 output 0|load 100001|x;|2||usage: ipamd COMMAND;|0|
input 0 output 0|session --db a --db b|x;|2||usage: ipamd COMMAND;|0|
|session|GET / HTTP/1.1^;A: <16365:a>|0|HTTP/1.1 413 Payload Too Large^;Content-Type: application/json^;Content-Length: 60^;Connection: close^;^;{"code":"too_large","detail":"the head exceeds 16384 bytes"}||0|
|session|GET / HTTP/1.1^;Host|0|HTTP/1.1 400 Bad Request^;Content-Type: application/json^;Content-Length: 60^;Connection: close^;^;{"code":"bad_head","detail":"the request could not be read"}||0|
|session|GET /api/ipam/vrfs/ HTTP/1.1^;Content-Length: 0^;Content-Length: 0^;^;|0|HTTP/1.1 400 Bad Request^;Content-Type: application/json^;Content-Length: 60^;Connection: close^;^;{"code":"bad_head","detail":"the request could not be read"}||0|
|session|POST /api/ipam/vrfs/ HTTP/1.1^;Content-Length: 4194305^;^;|0|HTTP/1.1 413 Payload Too Large^;Content-Type: application/json^;Content-Length: 62^;Connection: close^;^;{"code":"too_large","detail":"the body exceeds 4194304 bytes"}||0|
|session|GET /api/ipam/vrfs/ HTTP/1.1^;Transfer-Encoding: chunked^;Content-Length: x^;^;|0|HTTP/1.1 501 Not Implemented^;Content-Type: application/json^;Content-Length: 60^;Connection: close^;^;{"code":"coding","detail":"transfer codings are not served"}||0|
|session|POST /api/ipam/prefixes/ HTTP/1.1^;Content-Length: 281^;^;{"prefix":"10.0.0.0/24","x":<126:[><126:]>}|0|HTTP/1.1 201 Created^;Content-Type: application/json^;Content-Length: 188^;Ipam-Place: 0^;^;{"children":0,"depth":0,"description":"","family":4,"id":1,"is_pool":false,"mark_utilized":false,"prefix":"10.0.0.0/24","role":null,"status":{"label":"Active","value":"active"},"vrf":null}||0|
|session|POST /api/ipam/prefixes/ HTTP/1.1^;Content-Length: 283^;^;{"prefix":"10.0.0.0/24","x":<127:[><127:]>}|0|HTTP/1.1 400 Bad Request^;Content-Type: application/json^;Content-Length: 73^;^;{"code":"bad_json","detail":"the body is not the JSON that is asked for"}||0|
|session|GET /api/ipam/vrfs/ HTTP/1.1^;A: <16347:a>^;^;|0|HTTP/1.1 200 OK^;Content-Type: application/json^;Content-Length: 52^;Ipam-Place: 0^;^;{"count":0,"next":null,"previous":null,"results":[]}||0|
|session|GET /api/ipam/vrfs/ HTTP/1.1^;A: <16348:a>^;^;|0|HTTP/1.1 413 Payload Too Large^;Content-Type: application/json^;Content-Length: 60^;Connection: close^;^;{"code":"too_large","detail":"the head exceeds 16384 bytes"}||0|
|session|GET /api/ipam/vrfs/ HTTP/1.1^;<64:A: b^;>^;|0|HTTP/1.1 200 OK^;Content-Type: application/json^;Content-Length: 52^;Ipam-Place: 0^;^;{"count":0,"next":null,"previous":null,"results":[]}||0|
|session|GET /api/ipam/vrfs/ HTTP/1.1^;<65:A: b^;>^;|0|HTTP/1.1 400 Bad Request^;Content-Type: application/json^;Content-Length: 60^;Connection: close^;^;{"code":"bad_head","detail":"the request could not be read"}||0|
|session|POST /api/ipam/vrfs/ HTTP/1.1^;Content-Length: 4194304^;^;{"name":"red","x":"aaa<1048570:aaaa>"}|0|HTTP/1.1 201 Created^;Content-Type: application/json^;Content-Length: 70^;Ipam-Place: 0^;^;{"description":"","enforce_unique":true,"id":1,"name":"red","rd":null}||0|
|session|<1001:GET /api/ipam/vrfs/ HTTP/1.1^;^;>|0|<999:HTTP/1.1 200 OK^;Content-Type: application/json^;Content-Length: 52^;Ipam-Place: 0^;^;{"count":0,"next":null,"previous":null,"results":[]}>HTTP/1.1 200 OK^;Content-Type: application/json^;Content-Length: 52^;Ipam-Place: 0^;Connection: close^;^;{"count":0,"next":null,"previous":null,"results":[]}||0|
|session|POST /api/ipam/prefixes/ HTTP/1.1^;Content-Length: 25^;^;{"prefix":"192.0.2.0/30"}POST /api/ipam/prefixes/1/available-ips/ HTTP/1.1^;Content-Length: 3001^;^;[<999:{},>{}]POST /api/ipam/prefixes/1/available-ips/ HTTP/1.1^;Content-Length: 3004^;^;[<1000:{},>{}]|0|HTTP/1.1 201 Created^;Content-Type: application/json^;Content-Length: 189^;Ipam-Place: 0^;^;{"children":0,"depth":0,"description":"","family":4,"id":1,"is_pool":false,"mark_utilized":false,"prefix":"192.0.2.0/30","role":null,"status":{"label":"Active","value":"active"},"vrf":null}HTTP/1.1 409 Conflict^;Content-Type: application/json^;Content-Length: 51^;Ipam-Place: 1^;^;{"code":"no_space","detail":"no space for claim 2"}HTTP/1.1 507 Insufficient Storage^;Content-Type: application/json^;Content-Length: 52^;Ipam-Place: 1^;^;{"code":"limit","detail":"claims would exceed 1000"}||0|
|import vrfs|name;<1000:red;>|0|created 1000 present 0;||0|
|import vrfs|name;<10000:red;>|1||row 1001: limit: vrfs would exceed 1000;|0|
|import vrfs|name;<10001:red;>|1||limit: rows would exceed 10000;|0|
|import rirs|name,slug;<1000:n@,s@;>|0|created 1000 present 0;||0|
|import rirs|name,slug;<1001:n@,s@;>|1||row 1001: limit: rirs would exceed 1000;|0|
|import roles|name,slug;<1000:n@,s@;>|0|created 1000 present 0;||0|
|import roles|name,slug;<1001:n@,s@;>|1||row 1001: limit: roles would exceed 1000;|0|
|import prefixes|prefix;<4194297:;>|0|created 0 present 0;||0|
|import prefixes|prefix;<4194298:;>|1||too_large: the body exceeds 4194304 bytes;|0|
|import prefixes|prefix,status;<999:2001:db8:@::/48,;>2001:db8:1::/48,reserved;|1||row 1000: duplicate: coincides with 1;|0|
input 1|import prefixes|prefix;<1000:2001:db8:@::/48;>|3|||0|
output 0|import prefixes --db a|prefix;10.0.0.0/24;|3|||0|1,10.0.0.0/24,,active,,false,false,;
errors 0|import prefixes --db a|prefix;10.0.0.0/24;10.0.0.0/24;|3|||0|"#;

/// The number of the call of an object that fails in a line, or one that is never made.
fn failing<'a>(line: &'a str, object: &'a str) -> Result<u32, AllocError> {
    let mut words = part(line, 0)?.split(' ');
    if words.any(|word| word == object) {
        number(words.next().unwrap_or(""))
    } else {
        Ok(u32::MAX)
    }
}

/// A connection on which the request comes.
fn pair_of(alloc: Global) -> Result<(BytesSource, BytesSink), AllocError> {
    let source = BytesSource::new(bytes_of(alloc, POST)?, Vec::new(alloc), 1000);
    let sink = BytesSink::new(alloc, Vec::new(alloc), 1000, 4096)?;
    Ok((source, sink))
}

/// A lane of two connections, of whose accepts that of a line fails.
fn lane_of(alloc: Global, line: &str) -> Result<ListLane, AllocError>
    ensures { IfOk result (λ l. lane_told l ≡ []) }
{
    let fails = Vec::from_slice(alloc, &[failing(line, "lane")?])?;
    let mut pairs = Vec::new(alloc);
    pairs.push(pair_of(alloc)?)?;
    pairs.push(pair_of(alloc)?)?;
    ListLane::new(alloc, pairs, fails)
}

/// A listener with such a lane, if one is handed out.
fn listener_of(alloc: Global, line: &str) -> Result<ListListener, AllocError> {
    if line.starts_with("nowhere") {
        return Ok(ListListener::nowhere(alloc));
    }
    let mut lanes = Vec::new(alloc);
    if !line.starts_with("nobody") {
        lanes.push(lane_of(alloc, line)?)?;
    }
    ListListener::new(alloc, lanes)
}

/// Whether something was written to a connection.
fn is_answered(handed: &Handed) -> bool {
    match handed.finished() {
        Some(pair) => !pair.1.bytes().is_empty(),
        None => false,
    }
}

/// How many connections of a lane were answered.
fn answered(lane: &ListLane) -> usize {
    lane.handed()
        .iter()
        .filter(|handed| is_answered(handed))
        .count()
}

/// The same of the first lane that was given back.
fn served(listener: &ListListener) -> usize {
    match listener.returned().first() {
        Some(lane) => answered(lane),
        None => 0,
    }
}

/// Puts a row at the end of a text: its id and its fields, with a comma before each.
fn tell_row(alloc: Global, row: &Row, told: &mut String) -> Result<(), AllocError> {
    let id = format!(in alloc; "{}", row.id)?;
    told.push_str(&id)?;
    for field in row.fields.as_slice() {
        told.push_str(",")?;
        told.push_str(field.as_str())?;
    }
    told.push_str("\n")
}

/// The rows under the path `a`.
fn rows_told(alloc: Global, opener: &mut MemoryOpener) -> Result<String, AllocError> {
    let path = Text::of(String::from_str(alloc, "a")?);
    let kept = opener.start(Some(&path)).map_err(|_| AllocError)?;
    let mut told = String::new(alloc);
    for row in kept.into_tables().rows.as_slice() {
        tell_row(alloc, row, &mut told)?;
    }
    Ok(told)
}

/// The bytes of an input.
fn input_of(alloc: Global, input: &str) -> Result<Vec<u8>, AllocError> {
    match input {
        "once" => bytes_of(alloc, POST),
        "twice" => {
            let mut bytes = bytes_of(alloc, POST)?;
            bytes.extend_from_slice(&bytes_of(alloc, POST)?)?;
            Ok(bytes)
        }
        text => bytes_of(alloc, text),
    }
}

/// Runs a line.
fn ran<R: Threads + Wait + Sync>(
    rt: &R,
    alloc: Global,
    listener: &mut ListListener,
    opener: &mut MemoryOpener,
    line: &str,
) -> Result<Left, AllocError> {
    let words = part(line, 1)?;
    let input = input_of(alloc, part(line, 2)?)?;
    let source = [failing(line, "input")?];
    let sink = [failing(line, "output")?];
    let messages = [failing(line, "errors")?];
    let fails: [&[u32]; 3] = [&source, &sink, &messages];
    run_with(rt, alloc, listener, opener, words, &input, 4_096, fails)
}

/// What a line leaves: its parts from the status on.
fn left_by<R: Threads + Wait + Sync>(
    rt: &R,
    alloc: Global,
    line: &str,
) -> Result<Vec<u8>, AllocError> {
    let tables = format!(in alloc; "2;fails {}", failing(line, "keeper")?)?;
    let mut opener = opener_of(alloc, &tables)?;
    let mut listener = listener_of(alloc, line)?;
    let left = ran(rt, alloc, &mut listener, &mut opener, line)?;
    let rows = rows_told(alloc, &mut opener)?;
    let mut bytes = format!(in alloc; "{}|", left.status)?.into_bytes();
    bytes.extend_from_slice(left.output.as_slice())?;
    bytes.push(b'|')?;
    bytes.extend_from_slice(left.errors.as_slice())?;
    let rest = format!(in alloc; "|{}|{rows}", served(&listener))?;
    bytes.extend_from_slice(rest.as_bytes())?;
    Ok(bytes)
}

/// What a line says that is left.
fn wanted_of(alloc: Global, line: &str) -> Result<Vec<u8>, AllocError> {
    bytes_of(alloc, line.splitn(4, '|').nth(3).ok_or(AllocError)?)
}

#[test]
fn runs_and_what_they_leave(rt: HostRuntime) -> Result<(), Fail> {
    for line in RUNS.lines() {
        let left = left_by(&rt, rt.alloc(), line)?;
        let wanted = wanted_of(rt.alloc(), line)?;
        let text = str::from_utf8(left.as_slice()).unwrap_or("");
        assert!(rt; left.as_slice() == wanted.as_slice(), "{line}: {text}");
    }
    Ok(())
}
