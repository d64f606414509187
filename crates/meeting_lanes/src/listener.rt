//! A listener of such lanes.
ghost use Rattle.std.specs.Prelude.{◌≡◌, ◌≤◌, map, vec_len, vec_capacity};
ghost use Rattle.ipam_listen.specs.Connections.{binding};

use crate::lane::{MeetingLane, MeetingSource};
use crate::meeting::Meeting;
use ipam_edge::{BytesSink, BytesSource, Failed};
use ipam_listen::Listener;
use std::alloc::{AllocError, Global};

/// How many bytes a read gives at most, and how many an answer may have.
const ROOM: usize = 65_536;

/// A listener of lanes with one connection each, which meet.
#[derive(Drop)]
pub struct MeetingListener<'a> {
    waits: Vec<MeetingLane<'a>>,
    back: Vec<u32>,
    answers: Vec<BytesSink>,
    place: Vec<u8>,
    bound: u32,
    most: u64,
    lanes: u64,
    faults: u64,
    ghost room: { most ≤ vec_capacity back },
    ghost few: { lanes ≤ most },
    ghost fewer: { vec_len back ≤ lanes },
}

/// A lane whose connection asks for this.
fn lane_of<'a>(
    alloc: Global,
    asked: &str,
    meeting: &'a Meeting,
) -> Result<MeetingLane<'a>, AllocError> {
    let bytes = Vec::from_slice(alloc, asked.as_bytes())?;
    let source = BytesSource::new(bytes, Vec::new(alloc), ROOM);
    let sink = BytesSink::new(alloc, Vec::new(alloc), ROOM, ROOM)?;
    Ok(MeetingLane {
        waits: Some((MeetingSource::first(source, meeting), sink)),
        answers: None,
        accepts: 0,
        faults: 0,
    })
}

impl<'a> MeetingListener<'a> {
    /// A listener with as many lanes as there are texts, each with a connection that asks for one of them. `Err` means out of memory.
    pub fn new(
        alloc: Global,
        asked: &[&str],
        meeting: &'a Meeting,
    ) -> Result<MeetingListener<'a>, AllocError> {
        let mut waits = Vec::new(alloc);
        for text in asked {
            waits.push(lane_of(alloc, text, meeting)?)?;
        }
        let most = waits.len();
        Ok(MeetingListener {
            waits,
            back: Vec::with_capacity(alloc, most)?,
            answers: Vec::new(alloc),
            place: Vec::new(alloc),
            bound: 0,
            most: most as u64,
            lanes: 0,
            faults: 0,
        })
    }

    /// What was written to the connections of the lanes that were given back.
    pub fn answers(&self) -> &[BytesSink] {
        self.answers.as_slice()
    }
}

impl<'a> Listener for MeetingListener<'a> {
    ghost use Rattle.std.proofs.Common.{rules};
    ghost use Rattle.ipam_listen.specs.Back.{read_within};
    ghost use Rattle.ipam_listen.specs.Tcp.{returned_door};

    type Door = MeetingLane<'a>;

    ghost bound = { λ l. binding l.place.items l.bound };

    ghost lanes = { λ l. l.lanes };

    ghost returned = { λ l. map returned_door l.back.items };

    ghost faults = { λ l. l.faults };

    fn bind(&mut self, at: Vec<u8>, connections: u32) -> Result<(), Failed> {
        self.place = at;
        self.bound = connections;
        Ok(())
    }

    fn lane(&mut self) -> Result<MeetingLane<'a>, Failed> {
        if self.lanes >= self.most {
            self.faults = self.faults.saturating_add(1);
            return Err(Failed);
        }
        match self.waits.pop() {
            Some(lane) => {
                self.lanes += 1;
                let mut lane = lane;
                lane.accepts = self.bound;
                Ok(lane)
            }
            None => {
                self.faults = self.faults.saturating_add(1);
                Err(Failed)
            }
        }
    }

    fn give_back(&mut self, lane: MeetingLane<'a>) {
        if lane.faults > 0 {
            self.faults = self.faults.saturating_add(1);
        }
        self.back.push_reserved(lane.accepts);
        let MeetingLane {
            waits,
            answers,
            accepts: _,
            faults: _,
        } = lane;
        drop(waits);
        if let Some(sink) = answers {
            // If memory is out the test finds one answer too few.
            let _ = self.answers.push(sink);
        }
    }

    ghost no_more_back = { λ l. read_within returned_door l.back.items l.lanes (let fewer = l.fewer in Prim.search (rules, fewer)) };
}
