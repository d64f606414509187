//! Sessions over stores: what persists after a session, what is refused, and what a store that fails leaves.

use crate::session_tests::{part, put_answer, put_request};
use crate::tests::{Left, run_over};
use ipam_data::kinds::Kind;
use ipam_data::update::Ids;
use ipam_keeper::empty::empty_tables;
use ipam_keeper::keeper::Keeper;
use ipam_keeper::memory::MemoryKeeper;
use ipam_keeper::opener::MemoryOpener;
use std::alloc::{AllocError, Global};
use std::marker::Sync;
use std::sync::Wait;
use std::test::Fail;
use std::thread::Threads;
use stored_tables::tables::{Change, Row, Rows, Tables, Text, Texts};

/// A store a case. Its first line is the version of the tables under the path `a` and, after semicolons, what is put into the empty
/// ones: prefixes and ranges, in which a hyphen is the empty text, their next ids, and which calls of each keeper fail. Each line after it is a session over
/// the store: its status, its words and what it says, and after each `~` an exchange.
const CASES: [&str; 8] = [
    r#"2
0|session --db a|~POST /api/ipam/prefixes/|{"prefix":"10.0.0.0/24"}|201 Created|Ipam-Place: 0|{"children":0,"depth":0,"description":"","family":4,"id":1,"is_pool":false,"mark_utilized":false,"prefix":"10.0.0.0/24","role":null,"status":{"label":"Active","value":"active"},"vrf":null}
0|session --db a|~GET /api/ipam/prefixes/1/||200 OK|Ipam-Place: 0|{"children":0,"depth":0,"description":"","family":4,"id":1,"is_pool":false,"mark_utilized":false,"prefix":"10.0.0.0/24","role":null,"status":{"label":"Active","value":"active"},"vrf":null}
0|session --db b|~GET /api/ipam/prefixes/1/||404 Not Found|Ipam-Place: 0|{"code":"not_found","detail":"prefixes 1 is not there"}
0|session|~GET /api/ipam/prefixes/1/||404 Not Found|Ipam-Place: 0|{"code":"not_found","detail":"prefixes 1 is not there"}"#,
    r#"2
0|session --db a --global-unique no|~POST /api/ipam/prefixes/|{"prefix":"10.0.0.0/24"}|201 Created|Ipam-Place: 0|{"children":0,"depth":0,"description":"","family":4,"id":1,"is_pool":false,"mark_utilized":false,"prefix":"10.0.0.0/24","role":null,"status":{"label":"Active","value":"active"},"vrf":null}~POST /api/ipam/prefixes/|{"prefix":"10.0.0.0/24"}|201 Created|Ipam-Place: 1|{"children":0,"depth":0,"description":"","family":4,"id":2,"is_pool":false,"mark_utilized":false,"prefix":"10.0.0.0/24","role":null,"status":{"label":"Active","value":"active"},"vrf":null}
1|session --db a --global-unique yes|store: prefixes 2: duplicate: coincides with 1
0|session --db a --global-unique=no|~GET /api/ipam/prefixes/2/||200 OK|Ipam-Place: 0|{"children":0,"depth":0,"description":"","family":4,"id":2,"is_pool":false,"mark_utilized":false,"prefix":"10.0.0.0/24","role":null,"status":{"label":"Active","value":"active"},"vrf":null}"#,
    r#"9
1|session --db a|store: version 9"#,
    r#"1
1|session --db a|store: version 1"#,
    r#"2;3 10.0.0.1/24 - active - false false -
1|session --db a|store: prefixes 3: unreadable"#,
    r#"2;fails 0
4|session --db a|store: the store could not be read"#,
    r#"2;fails 1
0|session --db a|~POST /api/ipam/prefixes/|{"prefix":"10.0.0.0/24"}|503 Service Unavailable|Ipam-Place: 0|{"code":"keeper","detail":"the store could not be written"}~POST /api/ipam/prefixes/|{"prefix":"10.0.0.0/24"}|201 Created|Ipam-Place: 0|{"children":0,"depth":0,"description":"","family":4,"id":1,"is_pool":false,"mark_utilized":false,"prefix":"10.0.0.0/24","role":null,"status":{"label":"Active","value":"active"},"vrf":null}"#,
    r#"2;fails 2
0|session --db a|~POST /api/ipam/prefixes/|{"prefix":"10.0.0.0/24"}|201 Created|Ipam-Place: 0|{"children":0,"depth":0,"description":"","family":4,"id":1,"is_pool":false,"mark_utilized":false,"prefix":"10.0.0.0/24","role":null,"status":{"label":"Active","value":"active"},"vrf":null}~POST /api/ipam/prefixes/1/available-ips/|{}|503 Service Unavailable|Ipam-Place: 1|{"code":"keeper","detail":"the store could not be written"}~GET /api/ipam/ip-addresses/||200 OK|Ipam-Place: 1|{"count":0,"next":null,"previous":null,"results":[]}~POST /api/ipam/prefixes/1/available-ips/|{}|201 Created|Ipam-Place: 1|{"address":"10.0.0.1/24","description":"","dns_name":"","family":4,"id":1,"role":null,"status":{"label":"Active","value":"active"},"vrf":null}~GET /api/ipam/ip-addresses/1/||200 OK|Ipam-Place: 2|{"address":"10.0.0.1/24","description":"","dns_name":"","family":4,"id":1,"role":null,"status":{"label":"Active","value":"active"},"vrf":null}
0|session --db a|~GET /api/ipam/ip-addresses/1/||200 OK|Ipam-Place: 0|{"address":"10.0.0.1/24","description":"","dns_name":"","family":4,"id":1,"role":null,"status":{"label":"Active","value":"active"},"vrf":null}"#,
];

/// The number that a word is. If it is none, the line is wrong, and the test fails as for lack of memory.
pub fn number(word: &str) -> Result<u32, AllocError> {
    word.parse::<u32>().map_err(|_| AllocError)
}

/// The arguments after the first one.
fn texts_of(alloc: Global, part: &str) -> Result<Texts, AllocError> {
    let mut texts = Vec::new(alloc);
    for word in part.split(' ').skip(1) {
        let text = if word == "-" { "" } else { word };
        texts.push(Text::of(String::from_str(alloc, text)?))?;
    }
    Ok(Texts::of(texts))
}

/// The row of these words: a prefix, or after the word `range` a range.
fn row_of(alloc: Global, words: &str) -> Result<Row, AllocError> {
    let (kind, words) = match words.strip_prefix("range ") {
        Some(rest) => (Kind::Ranges, rest),
        None => (Kind::Prefixes, words),
    };
    Ok(Row {
        kind,
        id: number(words.split(' ').next().unwrap_or(""))?,
        fields: texts_of(alloc, words)?,
    })
}

/// The rows of a first line.
fn rows_of(alloc: Global, line: &str) -> Result<Rows, AllocError> {
    let mut rows = Vec::new(alloc);
    for words in line.split(';').skip(1) {
        if !words.starts_with("fails ") && !words.starts_with("next ") {
            rows.push(row_of(alloc, words)?)?;
        }
    }
    Ok(Rows::of(rows))
}

/// The calls that fail.
fn fails_of(alloc: Global, line: &str) -> Result<Vec<u32>, AllocError> {
    let mut fails = Vec::new(alloc);
    for words in line.split(';').skip(1) {
        if words.starts_with("fails ") {
            fails.push(number(words.split(' ').nth(1).unwrap_or(""))?)?;
        }
    }
    Ok(fails)
}

/// The next ids of prefixes and ranges, if they are given.
fn nexts_of(alloc: Global, line: &str) -> Result<Ids, AllocError> {
    let mut next = Vec::new(alloc);
    for words in line.split(';').skip(1) {
        if words.starts_with("next ") {
            let id = number(words.split(' ').nth(1).unwrap_or(""))?;
            next.push((Kind::Prefixes, id))?;
            next.push((Kind::Ranges, id))?;
        }
    }
    Ok(Ids::of(next))
}

/// A keeper of the tables of a first line.
fn keeper_of(alloc: Global, line: &str) -> Result<MemoryKeeper, AllocError> {
    let mut keeper = MemoryKeeper::new(empty_tables(alloc)?, Vec::new(alloc));
    let change = Change {
        puts: rows_of(alloc, line)?,
        cuts: Ids::of(Vec::new(alloc)),
        next: nexts_of(alloc, line)?,
    };
    if keeper.apply(&change).is_err() {
        return Err(AllocError);
    }
    Ok(keeper)
}

/// An opener that has the tables of a first line under the path `a`.
pub fn opener_of(alloc: Global, line: &str) -> Result<MemoryOpener, AllocError> {
    let tables = keeper_of(alloc, line)?.into_tables();
    let tables = Tables {
        version: number(line.split(';').next().unwrap_or(""))?,
        next: tables.next,
        rows: tables.rows,
    };
    let mut stored = Vec::new(alloc);
    stored.push((Text::of(String::from_str(alloc, "a")?), tables))?;
    Ok(MemoryOpener::new(stored, fails_of(alloc, line)?))
}

/// Runs a line.
fn ran<R: Threads + Wait + Sync>(
    rt: &R,
    alloc: Global,
    opener: &mut MemoryOpener,
    line: &str,
) -> Result<Left, AllocError> {
    let mut input = Vec::new(alloc);
    for exchange in line.split('~').skip(1) {
        put_request(alloc, &mut input, exchange)?;
    }
    let words = part(line, 1)?;
    run_over(
        rt,
        alloc,
        opener,
        words,
        input.as_slice(),
        4_096,
        [&[], &[], &[]],
    )
}

/// The answers of a line.
fn answers_of(alloc: Global, line: &str) -> Result<Vec<u8>, AllocError> {
    let mut output = Vec::new(alloc);
    for exchange in line.split('~').skip(1) {
        put_answer(alloc, &mut output, exchange)?;
    }
    Ok(output)
}

/// What a line says on the messages.
fn message_of(alloc: Global, line: &str) -> Result<String, AllocError> {
    let said = line.split('~').next().unwrap_or("");
    let said = part(said, 2)?;
    if said.is_empty() {
        return Ok(String::new(alloc));
    }
    format!(in alloc; "{said}\n")
}

/// Whether a line leaves what it says.
fn is_as_said<R: Threads + Wait + Sync>(
    rt: &R,
    alloc: Global,
    opener: &mut MemoryOpener,
    line: &str,
) -> Result<bool, AllocError> {
    let left = ran(rt, alloc, opener, line)?;
    let answers = answers_of(alloc, line)?;
    let message = message_of(alloc, line)?;
    let status = number(part(line, 0)?)?;
    Ok(
        u32::from(left.status) == status
            && left.output.as_slice() == answers.as_slice()
            && left.errors.as_slice() == message.as_bytes(),
    )
}

/// The number of the first line of a case that does not leave what it says, or 0.
fn wrong_line<R: Threads + Wait + Sync>(
    rt: &R,
    alloc: Global,
    case: &str,
) -> Result<usize, AllocError> {
    let mut opener = opener_of(alloc, case.lines().next().unwrap_or(""))?;
    let mut wrong = 0usize;
    for (number, line) in case.lines().enumerate().skip(1) {
        if wrong == 0 && !is_as_said(rt, alloc, &mut opener, line)? {
            wrong = number;
        }
    }
    Ok(wrong)
}

#[test]
fn sessions_over_stores(rt: HostRuntime) -> Result<(), Fail> {
    for case in CASES {
        let wrong = wrong_line(&rt, rt.alloc(), case)?;
        assert!(rt; wrong == 0, "line {wrong} of {case}");
    }
    Ok(())
}
