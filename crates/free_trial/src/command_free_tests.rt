//! `run_free` over objects in memory: the same answer however the bytes are cut, each status, and each failing object.

use command_free::run_free;
use inet_num::read_block;
use ipam_edge::{BytesSink, BytesSource};
use std::alloc::{AllocError, Global};
use std::test::Fail;

/// A case to a line: a block; lines that come in, with `;` for a line feed and `~` for a carriage return; the call that fails, as
/// `r1` for the second read, `w0` for the first write and `e0` for the first message; and what is expected: the status, the output,
/// the messages.
const CASES: &str =
    "10.0.0.0/16|10.0.0.0/24;10.0.4.0/22;||0|10.0.1.0/24;10.0.2.0/23;10.0.8.0/21;10.0.16.0/20;10.0.32.0/19;10.0.64.0/18;10.0.128.0/17;|
10.0.0.0/16|10.0.4.0/22~;;10.0.0.0/24||0|10.0.1.0/24;10.0.2.0/23;10.0.8.0/21;10.0.16.0/20;10.0.32.0/19;10.0.64.0/18;10.0.128.0/17;|
10.0.0.0/16|10.0.4.0/22;10.0.0.0/24;10.0.0.0/24;10.0.5.0/24;10.0.0.0/25;~;||0|10.0.1.0/24;10.0.2.0/23;10.0.8.0/21;10.0.16.0/20;10.0.32.0/19;10.0.64.0/18;10.0.128.0/17;|
10.0.0.0/16|||0|10.0.0.0/16;|
10.0.0.0/16|;;||0|10.0.0.0/16;|
10.0.0.0/31|10.0.0.1/32;10.0.0.0/32;||0||
0.0.0.0/1|0.0.0.0/2;||0|64.0.0.0/2;|
255.255.255.254/31|255.255.255.255/32;||0|255.255.255.254/32;|
2001:db8::/126|2001:DB8::/128;||0|2001:db8::1/128;2001:db8::2/127;|
8000::/1|c000::/2;||0|8000::/2;|
ffff:ffff:ffff:ffff:ffff:ffff:ffff:fffe/127|ffff:ffff:ffff:ffff:ffff:ffff:ffff:ffff/128||0|ffff:ffff:ffff:ffff:ffff:ffff:ffff:fffe/128;|
10.0.0.0/16|10.0.0.0/24;10.1.0.0/24;||1||line 2: not strictly inside 10.0.0.0/16;
10.0.0.0/16|10.0.0.0/16;||1||line 1: not strictly inside 10.0.0.0/16;
10.0.0.0/16|;0.0.0.0/0;x;||1||line 2: not strictly inside 10.0.0.0/16;
10.0.0.0/16|2001:db8::/32;||1||line 1: not strictly inside 10.0.0.0/16;
2001:DB8::/32|10.0.0.0/24;||1||line 1: not strictly inside 2001:db8::/32;
10.0.0.0/16|10.0.0.1/24;||1||line 1: host bits set, the prefix is 10.0.0.0/24;
10.0.0.0/16|10.0.0.0/24;11.0.0.1/24||1||line 2: host bits set, the prefix is 11.0.0.0/24;
10.0.0.0/16|2001:DB8::1/32;||1||line 1: host bits set, the prefix is 2001:db8::/32;
10.0.0.0/16|10.0.0.0/24;x;10.1.0.0/24;||1||line 2: not a prefix;
10.0.0.0/16|10.0.0.0;||1||line 1: not a prefix;
10.0.0.0/16|10.0.0.0/24~||1||line 1: not a prefix;
10.0.0.0/16|10.0.0.0/24~~;||1||line 1: not a prefix;
10.0.0.0/16|0000000000000000000000000000000000000000000000000000000000000000;||1||line 1: not a prefix;
10.0.0.0/16|00000000000000000000000000000000000000000000000000000000000000000000;||1||line 1: not a prefix;
10.0.0.0/16|10.0.0.0/17;|r0|3||
10.0.0.0/16|10.0.0.0/17;|r1|3||
10.0.0.0/16|10.0.0.0/17;|w0|3||
10.0.0.0/16|10.0.0.0/17;|w1|3|10.0.|
10.0.0.0/16|x;|w0|1||line 1: not a prefix;
10.0.0.0/16|x;|e0|3||
10.0.0.0/16|x;|e1|3||line ";

/// The bytes of a column.
fn bytes_of(alloc: Global, column: &str) -> Result<Vec<u8>, AllocError> {
    let mut bytes = Vec::new(alloc);
    for byte in column.as_bytes() {
        bytes.push(match byte {
            b';' => b'\n',
            b'~' => b'\r',
            other => *other,
        })?;
    }
    Ok(bytes)
}

/// The number of the call that fails, if it is one of this object.
fn failing(alloc: Global, column: &str, object: &str) -> Result<Vec<u32>, AllocError> {
    let mut numbers = Vec::new(alloc);
    if let Some(number) = column.strip_prefix(object) {
        numbers.push(number.parse::<u32>().unwrap_or(0))?;
    }
    Ok(numbers)
}

/// What a run left: its status, the output, the messages.
#[derive(Drop)]
struct Left {
    status: u8,
    output: Vec<u8>,
    errors: Vec<u8>,
}

/// Runs over known objects that read and write at most so many bytes at once.
fn run_on(
    alloc: Global,
    within: &str,
    input: Vec<u8>,
    fault: &str,
    piece: usize,
) -> Result<Left, Fail> {
    let piece = piece.max(1);
    let Ok(within) = read_block(within.as_bytes()) else {
        return Err(Fail::from("no block"));
    };
    let mut input = BytesSource::new(input, failing(alloc, fault, "r")?, piece);
    let mut output = BytesSink::new(alloc, failing(alloc, fault, "w")?, piece, 65_536)?;
    let mut errors = BytesSink::new(alloc, failing(alloc, fault, "e")?, piece, 4_096)?;
    let status = run_free(alloc, &within, &mut input, &mut output, &mut errors);
    Ok(Left {
        status,
        output: output.into_bytes(),
        errors: errors.into_bytes(),
    })
}

/// Whether the case's line is given, with pieces of this size.
fn is_met(alloc: Global, case: &str, piece: usize) -> Result<bool, Fail> {
    let mut columns = case.split('|');
    let within = columns.next().unwrap_or("");
    let input = bytes_of(alloc, columns.next().unwrap_or(""))?;
    let fault = columns.next().unwrap_or("");
    let status: u8 = columns.next().unwrap_or("").parse().unwrap_or(9);
    let output = bytes_of(alloc, columns.next().unwrap_or(""))?;
    let errors = bytes_of(alloc, columns.next().unwrap_or(""))?;
    // Which call fails depends on the size of the pieces.
    let piece = if fault.is_empty() { piece } else { 5 };
    let left = run_on(alloc, within, input, fault, piece)?;
    Ok(
        left.status == status
            && left.output.as_slice() == output.as_slice()
            && left.errors.as_slice() == errors.as_slice(),
    )
}

#[test]
fn lines_and_their_answers(rt: HostRuntime) -> Result<(), Fail> {
    for case in CASES.split('\n') {
        for piece in [1, 7, 4_096] {
            assert!(rt; is_met(rt.alloc(), case, piece)?, "{case} by {piece}");
        }
    }
    Ok(())
}

#[test]
fn the_most_lines(rt: HostRuntime) -> Result<(), Fail> {
    let mut input = Vec::new(rt.alloc());
    for _ in 0..200_000 {
        input.extend_from_slice(b"10.0.0.0/17\n")?;
    }
    let mut more = Vec::from_slice(rt.alloc(), &input)?;
    more.push(b'\r')?;
    let most = run_on(rt.alloc(), "10.0.0.0/16", input, "", 65_536)?;
    assert!(rt; most.status == 0 && most.output.as_slice() == b"10.0.128.0/17\n".as_slice());
    let left = run_on(rt.alloc(), "10.0.0.0/16", more, "", 65_536)?;
    assert!(rt; left.status == 1 && left.output.is_empty());
    assert!(rt; left.errors.as_slice() == b"line 200001: too many lines\n".as_slice());
    Ok(())
}

/// How many lines a text has, each ended by a line feed.
fn count_lines(text: &[u8]) -> usize {
    text.iter().filter(|byte| **byte == b'\n').count()
}

#[test]
fn more_than_one_piece_of_output(rt: HostRuntime) -> Result<(), Fail> {
    let mut input = Vec::new(rt.alloc());
    for third in 0..32u32 {
        for last in 0..128u32 {
            let line = format!(in rt.alloc(); "10.0.{third}.{}/32\n", 2 * last)?;
            input.extend_from_slice(line.as_bytes())?;
        }
    }
    let left = run_on(rt.alloc(), "10.0.0.0/19", input, "", 65_536)?;
    assert!(rt;
        left.status == 0 && count_lines(&left.output) == 4_096 && left.output.len() > 40_000
    );
    assert!(rt;
        left.output.starts_with(b"10.0.0.1/32\n10.0.0.3/32\n")
            && left.output.ends_with(b"\n10.0.31.253/32\n10.0.31.255/32\n")
    );
    Ok(())
}
