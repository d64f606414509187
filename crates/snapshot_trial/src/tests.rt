ghost use Rattle.snapshot_reads.specs.Seen.{IsLookOf};

use http_session::SessionEnd;
use inet_num::read_block;
use ipam_data::calls::{Call, Filter};
use ipam_data::kinds::Kind;
use ipam_data::prefix::{Prefix, PrefixStatus};
use ipam_data::replies::{Reply, View, Views};
use ipam_data::text::Description;
use ipam_data::update::{Ids, Update};
use ipam_edge::{BytesSink, BytesSource};
use snapshot_reads::{Feed, Look, Looked};
use snapshot_rows::SnapshotRows;
use snapshot_session::serve_reader;
use std::alloc::{AllocError, Global};
use std::test::Fail;

/// The requests of a reader, and the answers to them.
const CASES: &[(&str, &str)] = &[
    (
        "POST /api/ipam/prefixes/",
        "405 Method Not Allowed\r\nContent-Type: application/json\r\nContent-Length: 63\r\nAllow: GET\r\n\r\n\
         {\"code\":\"method\",\"detail\":\"the path does not have this method\"}",
    ),
    (
        "PATCH /api/ipam/vrfs/1/",
        "405 Method Not Allowed\r\nContent-Type: application/json\r\nContent-Length: 63\r\nAllow: GET\r\n\r\n\
         {\"code\":\"method\",\"detail\":\"the path does not have this method\"}",
    ),
    (
        "GET /api/ipam/roles/",
        "404 Not Found\r\nContent-Type: application/json\r\nContent-Length: 43\r\n\r\n\
         {\"code\":\"no_route\",\"detail\":\"no such path\"}",
    ),
    (
        "POST /api/ipam/prefixes/1/utilization/?least=x",
        "404 Not Found\r\nContent-Type: application/json\r\nContent-Length: 43\r\n\r\n\
         {\"code\":\"no_route\",\"detail\":\"no such path\"}",
    ),
    (
        "GET /api/ipam/prefixes/1/?least=x",
        "400 Bad Request\r\nContent-Type: application/json\r\nContent-Length: 57\r\n\r\n\
         {\"code\":\"field\",\"detail\":\"least is missing or malformed\"}",
    ),
    (
        "GET /api/ipam/prefixes/?least=00&limit=x",
        "400 Bad Request\r\nContent-Type: application/json\r\nContent-Length: 57\r\n\r\n\
         {\"code\":\"field\",\"detail\":\"least is missing or malformed\"}",
    ),
    (
        "GET /api/ipam/prefixes/?least=5&limit=x",
        "400 Bad Request\r\nContent-Type: application/json\r\nContent-Length: 57\r\n\r\n\
         {\"code\":\"field\",\"detail\":\"limit is missing or malformed\"}",
    ),
    (
        "GET /api/ipam/prefixes/1/?least=9999999999999999999",
        "503 Service Unavailable\r\nContent-Type: application/json\r\nContent-Length: 46\r\nIpam-Place: 1\r\n\r\n\
         {\"code\":\"behind\",\"detail\":\"published up to 1\"}",
    ),
    (
        "GET /api/ipam/prefixes/9/?least=5",
        "503 Service Unavailable\r\nContent-Type: application/json\r\nContent-Length: 46\r\nIpam-Place: 1\r\n\r\n\
         {\"code\":\"behind\",\"detail\":\"published up to 1\"}",
    ),
    (
        "GET /api/ipam/prefixes/9/?limit=x",
        "404 Not Found\r\nContent-Type: application/json\r\nContent-Length: 55\r\nIpam-Place: 1\r\n\r\n\
         {\"code\":\"not_found\",\"detail\":\"prefixes 9 is not there\"}",
    ),
    (
        "GET /api/ipam/prefixes/1/?least=x&le%61st=1",
        "200 OK\r\nContent-Type: application/json\r\nContent-Length: 188\r\nIpam-Place: 1\r\n\r\n\
         {\"children\":0,\"depth\":0,\"description\":\"\",\"family\":4,\"id\":1,\"is_pool\":false,\"mark_utilized\":false,\
         \"prefix\":\"10.0.0.0/24\",\"role\":null,\"status\":{\"label\":\"Active\",\"value\":\"active\"},\"vrf\":null}",
    ),
    (
        "GET /api/ipam/prefixes/?least=1",
        "200 OK\r\nContent-Type: application/json\r\nContent-Length: 240\r\nIpam-Place: 1\r\n\r\n\
         {\"count\":1,\"next\":null,\"previous\":null,\"results\":[\
         {\"children\":0,\"depth\":0,\"description\":\"\",\"family\":4,\"id\":1,\"is_pool\":false,\"mark_utilized\":false,\
         \"prefix\":\"10.0.0.0/24\",\"role\":null,\"status\":{\"label\":\"Active\",\"value\":\"active\"},\"vrf\":null}]}",
    ),
    (
        "GET /api/ipam/vrfs/",
        "200 OK\r\nContent-Type: application/json\r\nContent-Length: 52\r\nIpam-Place: 1\r\n\r\n\
         {\"count\":0,\"next\":null,\"previous\":null,\"results\":[]}",
    ),
    (
        "GET /api/ipam/prefixes/?least=1&limit=1&offset=1",
        "200 OK\r\nContent-Type: application/json\r\nContent-Length: 86\r\nIpam-Place: 1\r\n\r\n\
         {\"count\":1,\"next\":null,\"previous\":\"/api/ipam/prefixes/?limit=1&offset=0\",\"results\":[]}",
    ),
    (
        "GET /api/ipam/prefixes/?least=5",
        "503 Service Unavailable\r\nContent-Type: application/json\r\nContent-Length: 46\r\nIpam-Place: 1\r\n\r\n\
         {\"code\":\"behind\",\"detail\":\"published up to 1\"}",
    ),
];

/// The update that adds the prefix 10.0.0.0/24.
fn one_prefix(alloc: Global) -> Result<Option<Update>, AllocError> {
    let Ok(block) = read_block(b"10.0.0.0/24") else {
        return Ok(None);
    };
    let Some(description) = Description::of(String::new(alloc)) else {
        return Ok(None);
    };
    let row = Prefix {
        id: 1,
        block,
        vrf: None,
        status: PrefixStatus::Active,
        role: None,
        is_pool: false,
        mark_utilized: false,
        description,
    };
    let mut puts = Vec::new(alloc);
    puts.push(View::Prefix {
        row,
        depth: 0,
        children: 0,
    })?;
    let mut next = Vec::new(alloc);
    next.push((Kind::Prefixes, 2))?;
    Ok(Some(Update {
        puts: Views::of(puts),
        cuts: Ids::of(Vec::new(alloc)),
        next: Ids::of(next),
        spent: 1,
    }))
}

/// What a reader whose connection has one request after another is answered.
fn answered(
    alloc: Global,
    look: Look,
    cases: &[(&str, &str)],
) -> Result<(BytesSink, SessionEnd), AllocError> {
    let mut bytes = Vec::new(alloc);
    for (request, _) in cases {
        bytes.extend_from_slice(request.as_bytes())?;
        bytes.extend_from_slice(b" HTTP/1.1\r\n\r\n")?;
    }
    let mut source = BytesSource::new(bytes, Vec::new(alloc), 7);
    let mut sink = BytesSink::new(alloc, Vec::new(alloc), 4096, 100_000)?;
    let (look, end) = serve_reader(alloc, look, &mut source, &mut sink);
    drop(look);
    Ok((sink, end))
}

/// The text of the answers.
fn texts(alloc: Global, cases: &[(&str, &str)]) -> Result<String, AllocError> {
    let mut text = String::new(alloc);
    for (_, answer) in cases {
        text.push_str("HTTP/1.1 ")?;
        text.push_str(answer)?;
    }
    Ok(text)
}

#[test]
fn a_reader_is_answered_from_one_published_change(rt: HostRuntime) -> Result<(), Fail> {
    let alloc = rt.alloc();
    let update = one_prefix(alloc)?.expect(&rt, "an update");
    let mut feed = Feed::new(
        &rt,
        alloc,
        SnapshotRows::new(alloc),
        SnapshotRows::new(alloc),
        2,
    )?;
    let looked = feed.look();
    let published = feed.publish(&rt, update);
    let answers = match looked {
        Ok(look) => answered(alloc, look, CASES),
        Err(error) => Err(error),
    };
    feed.close(&rt);
    assert_eq!(rt; published?, 1);
    let (sink, end) = answers?;
    assert_eq!(rt; end, SessionEnd::Closed(15));
    let wanted = texts(alloc, CASES)?;
    assert_eq!(rt;
        std::str::from_utf8(sink.into_bytes().as_slice()),
        Ok(wanted.as_str())
    );
    Ok(())
}

/// How many rows there are by the page of a list.
fn rows_listed(reply: Reply) -> Option<u32> {
    match reply {
        Reply::Page { count, views } => {
            drop(views);
            Some(count)
        }
        other => {
            drop(other);
            None
        }
    }
}

/// The number that a look answers with once it knows all that the feed published, and how many rows are listed then. None if it does not.
fn number_learnt(feed: &mut Feed, look: &mut Look, call: &Call) -> Option<(u64, u32)>
    requires { IsLookOf feed.old look.old }
{
    if look.learn(feed).is_err() {
        return None;
    }
    match look.read(call, 0) {
        Looked::Given(reply, number) => match rows_listed(reply) {
            Some(count) => Some((number, count)),
            None => None,
        },
        Looked::Behind(_) => None,
        Looked::Memory => None,
    }
}

/// A list of all prefixes.
fn all_prefixes() -> Call {
    Call::List {
        kind: Kind::Prefixes,
        filter: Filter::Prefixes {
            family: None,
            vrf_id: None,
            status: None,
            role_id: None,
            prefix: None,
            within: None,
            within_include: None,
            contains: None,
        },
        limit: 50,
        offset: 0,
    }
}

#[test]
fn a_look_that_is_told_answers_what_was_published(rt: HostRuntime) -> Result<(), Fail> {
    let alloc = rt.alloc();
    let update = one_prefix(alloc)?.expect(&rt, "an update");
    let mut feed = Feed::new(
        &rt,
        alloc,
        SnapshotRows::new(alloc),
        SnapshotRows::new(alloc),
        2,
    )?;
    let looked = feed.look();
    let published = feed.publish(&rt, update);
    let learnt = match looked {
        Ok(look) => {
            let mut look = look;
            number_learnt(&mut feed, &mut look, &all_prefixes())
        }
        Err(AllocError) => None,
    };
    feed.close(&rt);
    assert_eq!(rt; published?, 1);
    assert_eq!(rt; learnt, Some((1, 1)));
    Ok(())
}
