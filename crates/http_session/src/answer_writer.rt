//! A text that is written in few large pieces: small ones are gathered first, without memory.
ghost use Rattle.std.specs.Prelude.{◌≡◌, Bool, [], if◌then◌else◌, codes, ℕ, List, Option, option_map, ◌≤◌, ◌++◌};
ghost use Rattle.ipam_edge.specs.Writing.{ByWrites};
ghost use Rattle.http_session.specs.Answers.{HasPutCause, IsGathered, IsPutEnd, body_fields, field_line, line_where};
ghost use Rattle.http_session.specs.Replies.{field_of};
ghost use Rattle.http_session.specs.declared.answer.PutEnd.TheVariants.{Whole};

use crate::{NumberField, PutEnd};
use arrayvec::ArrayVec;
use ipam_edge::{Failed, Sink, write_all};
use itoa::Buffer;

/// What is gathered and not written yet, and whether a write has failed.
#[derive(Drop)]
pub struct AnswerWriter {
    gathered: ArrayVec<u8, 512>,
    end: PutEnd,
}

/// Writes two texts.
fn write_both<S: Sink>(sink: &mut S, first: &[u8], second: &[u8]) -> PutEnd
    ensures told { IsPutEnd (S.written sink.old) (S.written sink.new) result (first.now ++ second.now) }
    ensures cause { HasPutCause (S.faults sink.old) (S.faults sink.new) result }
    ensures writes { ByWrites S.writes sink.old sink.new }
{
    match write_all(sink, first) {
        Ok(()) => {}
        Err(Failed) => return PutEnd::SinkFault,
    }
    match write_all(sink, second) {
        Ok(()) => PutEnd::Whole,
        Err(Failed) => PutEnd::SinkFault,
    }
}

impl AnswerWriter {
    /// Nothing is gathered.
    pub fn new() -> AnswerWriter
        ensures { (result.end ≡ Whole) × (result.gathered.items ≡ []) }
    {
        AnswerWriter {
            gathered: ArrayVec::new(),
            end: PutEnd::Whole,
        }
    }

    /// Goes on with these bytes, if nothing has failed yet.
    pub fn put<S: Sink>(&mut self, sink: &mut S, bytes: &[u8])
        ensures told { (start : Option (List ℕ)) (before : List ℕ) → IsGathered start (S.written sink.old) self.old.end self.old.gathered.items before → IsGathered start (S.written sink.new) self.new.end self.new.gathered.items (before ++ bytes.now) }
        ensures cause { (start : ℕ) → HasPutCause start (S.faults sink.old) self.old.end → HasPutCause start (S.faults sink.new) self.new.end }
        ensures writes { ByWrites S.writes sink.old sink.new }
    {
        match self.end {
            PutEnd::SinkFault => return,
            PutEnd::Whole => {}
        }
        match self.gathered.try_extend_from_slice(bytes) {
            Ok(()) => {}
            Err(_) => {
                self.end = write_both(sink, self.gathered.as_slice(), bytes);
                self.gathered.clear();
            }
        }
    }

    /// Goes on with a line of a name and a text, if there is one.
    pub fn put_line<S: Sink>(&mut self, sink: &mut S, there: bool, name: &[u8], text: &[u8])
        ensures told { (start : Option (List ℕ)) (before : List ℕ) → IsGathered start (S.written sink.old) self.old.end self.old.gathered.items before → IsGathered start (S.written sink.new) self.new.end self.new.gathered.items (before ++ line_where there name.now text.now) }
        ensures cause { (start : ℕ) → HasPutCause start (S.faults sink.old) self.old.end → HasPutCause start (S.faults sink.new) self.new.end }
        ensures writes { ByWrites S.writes sink.old sink.new }
    {
        if there {
            self.put(sink, name);
            self.put(sink, text);
            self.put(sink, b"\r\n");
        }
    }

    /// Goes on with the two fields that describe a body, if there is one: its media type and its length.
    pub fn put_body_fields<S: Sink>(
        &mut self,
        sink: &mut S,
        there: bool,
        media: &[u8],
        length: &[u8],
    )
        ensures told { (start : Option (List ℕ)) (before : List ℕ) → IsGathered start (S.written sink.old) self.old.end self.old.gathered.items before → IsGathered start (S.written sink.new) self.new.end self.new.gathered.items (before ++ body_fields there media.now length.now) }
        ensures cause { (start : ℕ) → HasPutCause start (S.faults sink.old) self.old.end → HasPutCause start (S.faults sink.new) self.new.end }
        ensures writes { ByWrites S.writes sink.old sink.new }
    {
        if there {
            self.put(sink, b"Content-Type: ");
            self.put(sink, media);
            self.put(sink, b"\r\nContent-Length: ");
            self.put(sink, length);
            self.put(sink, b"\r\n");
        }
    }

    /// Goes on with a field that the desk names, if there is one.
    pub fn put_field<S: Sink>(&mut self, sink: &mut S, field: &Option<NumberField>)
        ensures told { (start : Option (List ℕ)) (before : List ℕ) → IsGathered start (S.written sink.old) self.old.end self.old.gathered.items before → IsGathered start (S.written sink.new) self.new.end self.new.gathered.items (before ++ field_line (option_map field_of field.now)) }
        ensures cause { (start : ℕ) → HasPutCause start (S.faults sink.old) self.old.end → HasPutCause start (S.faults sink.new) self.new.end }
        ensures writes { ByWrites S.writes sink.old sink.new }
    {
        match field {
            Some(field) => {
                let mut room = Buffer::new();
                self.put(sink, field.name);
                self.put(sink, b": ");
                self.put(sink, room.format(field.number).as_bytes());
                self.put(sink, b"\r\n");
            }
            None => {}
        }
    }

    /// Writes what is gathered.
    pub fn finish<S: Sink>(self, sink: &mut S) -> PutEnd
        ensures told { (start : Option (List ℕ)) (text : List ℕ) → IsGathered start (S.written sink.old) self.end self.gathered.items text → IsPutEnd start (S.written sink.new) result text }
        ensures cause { (start : ℕ) → HasPutCause start (S.faults sink.old) self.end → HasPutCause start (S.faults sink.new) result }
        ensures writes { ByWrites S.writes sink.old sink.new }
    {
        match self.end {
            PutEnd::SinkFault => PutEnd::SinkFault,
            PutEnd::Whole => write_both(sink, self.gathered.as_slice(), b""),
        }
    }
}
