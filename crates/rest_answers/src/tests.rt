//! Replies, written byte for byte.

use crate::{PutReply, put_reply};
use ipam_data::replies::{Refusal, Reply};
use ipam_edge::BytesSink;
use ipam_json::Links;
use std::alloc::{AllocError, Global};
use std::test::Fail;

const MEMORY: &[u8] =
    b"HTTP/1.1 500 Internal Server Error\r\nContent-Type: application/json\r\nContent-Length: 38\r\nIpam-Place: 4\r\n\r\n\
      {\"code\":\"memory\",\"detail\":\"no memory\"}";

const GONE: &[u8] = b"HTTP/1.1 204 No Content\r\nIpam-Place: 3\r\nConnection: close\r\n\r\n";

const METHOD: &[u8] =
    b"HTTP/1.1 405 Method Not Allowed\r\nContent-Type: application/json\r\nContent-Length: 63\r\nAllow: GET, POST\r\n\r\n\
      {\"code\":\"method\",\"detail\":\"the path does not have this method\"}";

const NO_ROUTE: &[u8] =
    b"HTTP/1.1 404 Not Found\r\nContent-Type: application/json\r\nContent-Length: 43\r\n\r\n\
      {\"code\":\"no_route\",\"detail\":\"no such path\"}";

/// What is written of a reply to a request for the VRFs, over a sink whose writes of these numbers fail.
fn written(
    alloc: Global,
    reply: &Reply,
    place: Option<u64>,
    close: bool,
    fails: &[u32],
) -> Result<(PutReply, Vec<u8>), AllocError> {
    let mut sink = BytesSink::new(alloc, Vec::from_slice(alloc, fails)?, 4096, 1000)?;
    let links = Links {
        next: None,
        previous: None,
    };
    let end = put_reply(
        alloc,
        &mut sink,
        b"/api/ipam/vrfs/",
        reply,
        &links,
        place,
        close,
    );
    Ok((end, sink.into_bytes()))
}

#[test]
fn replies_are_written_with_and_without_a_place(rt: HostRuntime) -> Result<(), Fail> {
    let alloc = rt.alloc();
    let (end, bytes) = written(alloc, &Reply::Gone, Some(3), true, &[])?;
    assert_eq!(rt; (end, bytes.as_slice()), (PutReply::Whole, GONE));
    let want = Reply::Refused(Refusal::Memory);
    let (end, bytes) = written(alloc, &want, Some(4), false, &[])?;
    assert_eq!(rt; (end, bytes.as_slice()), (PutReply::Whole, MEMORY));
    let method = Reply::Refused(Refusal::Method);
    let (end, bytes) = written(alloc, &method, None, false, &[])?;
    assert_eq!(rt; (end, bytes.as_slice()), (PutReply::Whole, METHOD));
    let no_route = Reply::Refused(Refusal::NoRoute);
    let (end, bytes) = written(alloc, &no_route, None, false, &[])?;
    assert_eq!(rt; (end, bytes.as_slice()), (PutReply::Whole, NO_ROUTE));
    let (end, bytes) = written(alloc, &Reply::Gone, Some(3), true, &[0])?;
    assert_eq!(rt; (end, bytes.is_empty()), (PutReply::SinkFault, true));
    Ok(())
}
