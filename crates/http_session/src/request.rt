//! The requests that are in the bytes of a connection, one at a time.
ghost use Rattle.std.specs.Prelude.{◌≡◌, ◌<◌, ◌≤◌, ◌⊎◌, ◌+◌, ◌-◌, ◌^◌, ◌++◌, ℕ, List, [], length, take, drop, min, IfOk, OnErr, ◌||◌, nat_le};
ghost use Rattle.std.specs.Io.KnownBytes.{IsAtEnd};
ghost use Rattle.ipam_edge.specs.Faults.{Rose};
ghost use Rattle.http_session.specs.Requests.{InboxView, IsUnfinished};
ghost use Rattle.http_session.specs.Steps.{Grown, HasCauseOf, IsAsk, IsAsked, IsAskedLast, IsReadUntil, IsReadWhile, IsStopLast};

use crate::head::Head;
use crate::wait::{Short, wait_for_body, wait_for_head};
use ipam_edge::Source;
use std::alloc::{AllocError, Global};
use std::marker::Model;

/// Why the bytes are no request.
#[derive(Clone, Copy, Debug, PartialEq, Eq)]
pub enum Fault {
    /// They never become a head, or say no length, or end too early.
    BadHead,
    /// The head exceeds 16,384 bytes.
    LargeHead,
    /// The body exceeds 4,194,304 bytes.
    LargeBody,
    /// The body has a transfer coding.
    Coding,
}

/// A request before its route: its method and target as they are, its body, and whether no
/// request follows it.
#[derive(Debug, Drop)]
pub struct HttpRequest {
    pub method: Vec<u8>,
    pub target: Vec<u8>,
    pub body: Vec<u8>,
    pub close: bool,
}

/// What was read of a connection and is not given yet, and how many items were given.
#[derive(Drop)]
pub struct Inbox {
    bytes: Vec<u8>,
    number: u32,
}

/// What comes next.
#[derive(Drop)]
pub enum Asked {
    Request(HttpRequest),
    /// The bytes are no request, and nothing after them is read.
    Bad(Fault),
    /// The input has ended between two requests.
    End,
    SourceFault,
    Memory,
}

/// Why there is no request.
#[derive(Clone, Copy, Debug, PartialEq, Eq)]
pub enum Stop {
    Bad(Fault),
    End,
    SourceFault,
    Memory,
}

impl From<AllocError> for Stop {
    ghost use Rattle.http_session.specs.declared.request.Stop.TheVariants.{Memory};

    ghost from_gives = { λ _ s. s ≡ Memory };

    fn from(_error: AllocError) -> Stop {
        Stop::Memory
    }
}

impl Model for Inbox {
    ghost Value = { InboxView };

    ghost view = { λ s. record { bytes = s.bytes.items; number = s.number } };
}

impl Inbox {
    /// The inbox of a new connection.
    pub fn new(alloc: Global) -> Inbox
        ensures bytes { result.bytes ≡ [] }
        ensures number { result.number ≡ 0 }
    {
        Inbox {
            bytes: Vec::new(alloc),
            number: 0,
        }
    }

    /// How many items were given.
    pub fn number(&self) -> u32
        ensures { result ≡ self.now.number }
    {
        self.number
    }
}

/// The number of the last item of a connection, counted from 0: it has 1,000 at most.
const LAST_ITEM: u32 = 999;

/// Whether no request follows: after the last item none does.
fn closes(asked: bool, number: u32) -> bool
    ensures { result ≡ (asked || nat_le 999 number) }
{
    asked || number >= LAST_ITEM
}

/// Drops so many bytes from the front.
fn drop_front(bytes: &mut Vec<u8>, count: usize)
    requires { count ≤ length bytes.old.items }
    ensures { bytes.new.items ≡ drop count bytes.old.items }
{
    let left = bytes.len() - count;
    bytes.copy_within(count.., 0);
    bytes.truncate(left);
}

/// The request with this head at the start of the bytes, which lose it.
fn take_request(
    alloc: Global,
    bytes: &mut Vec<u8>,
    head: Head,
    needed: usize,
    close: bool,
) -> Result<HttpRequest, AllocError>
    requires order { head.len ≤ needed }
    requires whole { needed ≤ length bytes.old.items }
    ensures body { IfOk result (λ r. bytes.old.items ≡ take head.len bytes.old.items ++ (r.body.items ++ bytes.new.items)) }
    ensures long { IfOk result (λ r. head.len + length r.body.items ≡ needed) }
    ensures head { IfOk result (λ r. (r.method.items ≡ head.method.items) × (r.target.items ≡ head.target.items) × (r.close ≡ close)) }
    ensures err { OnErr result (bytes.new.items ≡ bytes.old.items) }
{
    let body = Vec::from_slice(alloc, &bytes[head.len..needed])?;
    drop_front(bytes, needed);
    Ok(HttpRequest {
        method: head.method,
        target: head.target,
        body,
        close,
    })
}

/// The next request at the start of the bytes and of what the source gives.
fn ask<S: Source>(
    alloc: Global,
    source: &mut S,
    bytes: &mut Vec<u8>,
    number: u32,
) -> Result<HttpRequest, Stop>
    ensures item { (all : List ℕ) × Grown (S.left source.old) (S.left source.new) bytes.old.items all × IsAsk number all (S.left source.new) result bytes.new.items × IsReadWhile IsUnfinished bytes.old.items all
        × IsReadUntil S.reads IsUnfinished source.old source.new bytes.old.items all (λ last. IsStopLast result last) }
    ensures cause { HasCauseOf Stop.SourceFault (S.faults source.old) (S.faults source.new) result }
{
    let head = wait_for_head(alloc, source, bytes)?;
    let length = match head.length {
        Ok(length) => length,
        Err(fault) => return Err(Stop::Bad(fault)),
    };
    let needed = head.len + length as usize;
    match wait_for_body(source, bytes, needed) {
        Ok(()) => {}
        Err(Short::End) => return Err(Stop::Bad(Fault::BadHead)),
        Err(Short::SourceFault) => return Err(Stop::SourceFault),
        Err(Short::Memory) => return Err(Stop::Memory),
    }
    let close = closes(head.close, number);
    Ok(take_request(alloc, bytes, head, needed, close)?)
}

/// The next item of the bytes that the inbox has and the source has left, read in pieces of at most
/// 4,096 bytes: a request, a refusal of the bytes that are in its place, or the end of the input
/// between two requests. `SourceFault` is returned if a read failed while more bytes were needed,
/// `Memory` if memory ran out; after both no byte is lost, and the call may be made again.
pub fn next_request<S: Source>(alloc: Global, source: &mut S, inbox: &mut Inbox) -> Asked
    ensures item { (all : List ℕ) × Grown (S.left source.old) (S.left source.new) inbox.old.bytes all × IsAsked inbox.old.number all (S.left source.new) result inbox.new × IsReadWhile IsUnfinished inbox.old.bytes all
        × IsReadUntil S.reads IsUnfinished source.old source.new inbox.old.bytes all (λ last. IsAskedLast result last) }
    ensures later { S.faults source.old ≤ S.faults source.new }
    ensures cause { result ≡ Asked.SourceFault → Rose (S.faults source.old) (S.faults source.new) }
    ensures kept { (result ≡ Asked.SourceFault) ⊎ (S.faults source.new ≡ S.faults source.old) }
{
    match ask(alloc, source, &mut inbox.bytes, inbox.number) {
        Ok(request) => {
            inbox.number = inbox.number.saturating_add(1);
            Asked::Request(request)
        }
        Err(Stop::Bad(fault)) => {
            inbox.number = inbox.number.saturating_add(1);
            Asked::Bad(fault)
        }
        Err(Stop::End) => Asked::End,
        Err(Stop::SourceFault) => Asked::SourceFault,
        Err(Stop::Memory) => Asked::Memory,
    }
}
