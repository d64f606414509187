//! A lane with one connection, which meets others.
ghost use Rattle.std.specs.Prelude.{◌≡◌};

use crate::meeting::Meeting;
use ipam_edge::{BytesSink, BytesSource, Failed, Source};
use ipam_listen::Lane;

/// When a connection comes to its meeting.
#[derive(Clone, Copy)]
enum Comes {
    /// Before its first read, which waits for the others.
    First,
    /// When all its bytes were read and it reads again: so what was asked is answered. It waits for nobody.
    Last,
    /// It has come.
    Not,
}

/// Bytes whose reads come to a meeting. A proof knows nothing of them.
#[derive(Drop)]
pub struct MeetingSource<'a> {
    source: BytesSource,
    meeting: &'a Meeting,
    comes: Comes,
}

impl<'a> MeetingSource<'a> {
    /// These bytes, whose first read comes to this meeting, and waits for the others.
    pub(crate) fn first(source: BytesSource, meeting: &'a Meeting) -> MeetingSource<'a> {
        MeetingSource {
            source,
            meeting,
            comes: Comes::First,
        }
    }

    /// These bytes, which come to this meeting when they were all read and what they ask is answered.
    pub fn last(source: BytesSource, meeting: &'a Meeting) -> MeetingSource<'a> {
        MeetingSource {
            source,
            meeting,
            comes: Comes::Last,
        }
    }

    /// Comes, if it is time to, before a read.
    fn come(&mut self)
        ensures { self.new.source ≡ self.old.source }
    {
        match self.comes {
            Comes::First => {
                self.comes = Comes::Not;
                self.meeting.meet();
            }
            Comes::Last => if self.source.left().is_empty() {
                self.comes = Comes::Not;
                self.meeting.come();
            },
            Comes::Not => {}
        }
    }
}

impl<'a> Source for MeetingSource<'a> {
    ghost use Rattle.std.specs.Prelude.{None};
    ghost use Rattle.ipam_edge.specs.Memory.{source_faults};

    ghost left = { λ s. None };

    ghost faults = { λ s. source_faults s.source };

    fn read(&mut self, into: &mut [u8]) -> Result<usize, Failed> {
        self.come();
        self.source.read(into)
    }
}

/// A lane with one connection. A proof knows nothing of it.
#[derive(Drop)]
pub struct MeetingLane<'a> {
    pub(crate) waits: Option<(MeetingSource<'a>, BytesSink)>,
    pub(crate) answers: Option<BytesSink>,
    pub(crate) accepts: u32,
    pub(crate) faults: u64,
}

impl<'a> Lane for MeetingLane<'a> {
    ghost use Rattle.std.specs.Prelude.{None};

    type In = MeetingSource<'a>;

    type Out = BytesSink;

    ghost told = { λ l. None };

    ghost accepts = { λ l. l.accepts };

    ghost faults = { λ l. l.faults };

    fn accept(&mut self) -> Result<Option<(MeetingSource<'a>, BytesSink)>, Failed> {
        if self.accepts == 0 {
            return Ok(None);
        }
        self.accepts -= 1;
        match self.waits.take() {
            Some(pair) => Ok(Some(pair)),
            None => {
                self.faults = self.faults.saturating_add(1);
                Err(Failed)
            }
        }
    }

    fn has_failed(&self) -> bool {
        self.faults > 0
    }

    fn finish(&mut self, source: MeetingSource<'a>, sink: BytesSink) {
        drop(source);
        self.answers = Some(sink);
    }
}
