//! The two halves of a session, each alone.

use ipam_edge::{BytesSink, BytesSource};
use rest_ipam::{Asked, Inbox, PutEnd, next_request, put_answer};
use std::alloc::AllocError;
use std::test::Fail;

/// Appends what comes next.
fn put_next(asked: &Asked, text: &mut Vec<u8>) -> Result<(), AllocError> {
    match asked {
        Asked::Request(request) => {
            text.extend_from_slice(request.method.as_slice())?;
            text.extend_from_slice(b" ")?;
            text.extend_from_slice(request.target.as_slice())?;
            text.extend_from_slice(b" ")?;
            text.extend_from_slice(request.body.as_slice())?;
            text.extend_from_slice(b"\n")
        }
        Asked::Bad(_) => text.extend_from_slice(b"bad\n"),
        Asked::End => text.extend_from_slice(b"end\n"),
        Asked::SourceFault => text.extend_from_slice(b"fault\n"),
        Asked::Memory => text.extend_from_slice(b"memory\n"),
    }
}

#[test]
fn requests_come_one_after_another(rt: HostRuntime) -> Result<(), Fail> {
    let alloc = rt.alloc();
    let input = Vec::from_slice(
        alloc,
        b"POST /a HTTP/1.1\r\nContent-Length: 2\r\n\r\nokGET /b HTTP/1.1\r\n\r\n",
    )?;
    let mut source = BytesSource::new(input, Vec::new(alloc), 7);
    let mut inbox = Inbox::new(alloc);
    let mut text = Vec::new(alloc);
    put_next(&next_request(alloc, &mut source, &mut inbox), &mut text)?;
    put_next(&next_request(alloc, &mut source, &mut inbox), &mut text)?;
    put_next(&next_request(alloc, &mut source, &mut inbox), &mut text)?;
    assert_eq!(rt; text.as_slice(), b"POST /a ok\nGET /b \nend\n".as_slice());
    assert_eq!(rt; inbox.number(), 2);
    Ok(())
}

#[test]
fn answers_are_written_of_their_parts(rt: HostRuntime) -> Result<(), Fail> {
    let alloc = rt.alloc();
    let mut sink = BytesSink::new(alloc, Vec::new(alloc), 4096, 4096)?;
    let made = put_answer(&mut sink, 201, b"", Some(3), false, b"{}");
    let gone = put_answer(&mut sink, 405, b"GET", None, true, b"");
    let want =
        b"HTTP/1.1 201 Created\r\nContent-Type: application/json\r\nContent-Length: 2\r\nIpam-Place: 3\r\n\r\n{}HTTP/1.1 405 Method Not Allowed\r\nAllow: GET\r\nConnection: close\r\n\r\n";
    assert_eq!(rt; sink.bytes(), want.as_slice());
    assert_eq!(rt; made, PutEnd::Whole);
    assert_eq!(rt; gone, PutEnd::Whole);
    Ok(())
}
