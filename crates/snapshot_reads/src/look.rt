//! The readers.
ghost use Rattle.std.specs.Prelude.{◌≡◌, ◌<◌, ◌≤◌, length, true, false, Some, IfOk, OnOk, OnErr, fold};
ghost use mathlib.Core.List.{IsPrefix};
ghost use Rattle.left_right.specs.Sides.{view};
ghost use Rattle.snapshot_reads.specs.Published.{lists};
ghost use Rattle.snapshot_reads.specs.Seen.{opening_of, IsReading, IsLookOf, Grows, IsAsked, IsAnswered};

use crate::copies::{Entry, Known, Twin};
use crate::feed::Feed;
use crate::history::{HistoryRule, begins};
use crate::rule::{Follow, Sees};
use core::mem::replace_with;
use ipam_data::calls::Call;
use ipam_data::replies::Reply;
use ipam_data::update::Update;
use left_right::reader::Reader;
use logbook::Seen;
use snapshot_rows::SnapshotRows;
use std::alloc::AllocError;
use std::marker::Model;
use std::sync::Wait;

/// What a look answers.
#[derive(Drop)]
pub enum Looked {
    /// The reply, from the lists after so many changes.
    Given(Reply, u64),
    /// Fewer changes than asked for were found: so many.
    Behind(u64),
    /// Out of memory; the feed is closed; or a call that no copy answers (`SnapshotRows::answer`).
    Memory,
}

/// What reads without waiting for anybody.
///
/// A contract sees which history it is, the lists before the first change, the changes that it saw, and those that it was told.
#[derive(Drop)]
pub struct Look {
    reader: Reader<Twin<SnapshotRows, Update>, Option<Known<SnapshotRows, Update>>, Follow>,
    seen: Seen<Update, u64, HistoryRule>,
    seen_count: u64,
    told: Seen<Update, u64, HistoryRule>,
    told_count: u64,
}

impl Model for Look {
    ghost use Rattle.std.specs.Prelude.{◌≡◌, length};
    ghost use Rattle.left_right.specs.Sides.{view as known};
    ghost use Rattle.snapshot_reads.specs.Seen.{LookView, opening_of, IsReading};
    ghost use Rattle.snapshot_rows.specs.Lists.{Lists};
    ghost use Rattle.ipam_data.specs.declared.update.Update.{Update};

    ghost Value = { LookView Lists Update };

    ghost view = { λ l. record { book = l.seen.book; opening = opening_of (known l.reader.place); seen = l.seen.log; told = l.told.log } };

    ghost invariant = { λ l. IsReading (known l.reader.place) l.seen.book l.seen.log l.told.book l.told.log × (l.seen_count ≡ length l.seen.log) × (l.told_count ≡ length l.told.log) };
}

/// What a copy answers one who asks for so many changes at least.
fn asked(twin: &Twin<SnapshotRows, Update>, call: &Call, least: u64) -> Looked
    ensures { IsAsked call.now least (lists twin.now.value) twin.now.count result }
{
    if twin.count < least {
        return Looked::Behind(twin.count);
    }
    match twin.value.answer(call) {
        Ok(reply) => Looked::Given(reply, twin.count),
        Err(AllocError) => Looked::Memory,
    }
}

impl Look {
    /// A look that saw and was told all that its reader knows.
    pub(crate) fn over(
        reader: Reader<Twin<SnapshotRows, Update>, Option<Known<SnapshotRows, Update>>, Follow>,
        seen: Seen<Update, u64, HistoryRule>,
        count: u64,
    ) -> Look
        requires reader { IsReading (view reader.place) seen.book seen.log seen.book seen.log }
        requires count { count ≡ length seen.log }
        ensures { result ≡ record { book = seen.book; opening = opening_of (view reader.place); seen = seen.log; told = seen.log } }
    {
        let told = seen.again();
        Look {
            reader,
            seen,
            seen_count: count,
            told,
            told_count: count,
        }
    }

    /// Asks the copy that is shown. The reply is that of each state with the lists after the changes that are then seen; `Behind` is
    /// returned exactly if these are fewer than `least`. `Memory` does not change the look.
    pub fn read(&mut self, call: &Call, least: u64) -> Looked
        ensures grows { Grows self.old self.new }
        ensures answer { IsAnswered call.now least self.old self.new result }
    {
        replace_with(
            self,
            (call, least),
            |look, (call, least)| look.read_one(call, least),
        )
    }

    /// The same by value, so that the reader can be given to its own call.
    fn read_one(self, call: &Call, least: u64) -> (Look, Looked)
        ensures grows { Grows self result.0 }
        ensures answer { IsAnswered call.now least self result.0 result.1 }
    {
        let Look {
            reader,
            seen,
            seen_count,
            told,
            told_count,
        } = self;
        match reader.enter_as::<Sees>() {
            Err(reader) => (
                Look {
                    reader,
                    seen,
                    seen_count,
                    told,
                    told_count,
                },
                Looked::Memory,
            ),
            Ok(reading) => {
                let twin = reading.get();
                let now = twin.seen.again();
                let count = twin.count;
                match asked(twin, call, least) {
                    Looked::Memory => (
                        Look {
                            reader: reading.leave(),
                            seen,
                            seen_count,
                            told,
                            told_count,
                        },
                        Looked::Memory,
                    ),
                    answer => (
                        Look {
                            reader: reading.leave(),
                            seen: now,
                            seen_count: count,
                            told,
                            told_count,
                        },
                        answer,
                    ),
                }
            }
        }
    }

    /// Is told all that the feed published, so that every number found later is at least the feed's. The one error means out of
    /// memory, and does not change the look.
    pub fn learn(&mut self, feed: &mut Feed) -> Result<(), AllocError>
        requires own { IsLookOf feed.old self.old }
        ensures feed { feed.new ≡ feed.old }
        ensures grows { Grows self.old self.new }
        ensures seen { self.new.seen ≡ self.old.seen }
        ensures told { OnOk result (self.new.told ≡ feed.old.published) }
        ensures err { OnErr result (self.new ≡ self.old) }
    {
        let number = feed.number();
        // A look never knows more changes than its feed published. No clause says so.
        if number < self.seen_count || number < self.told_count {
            return Err(AllocError);
        }
        let Look {
            reader,
            seen: now,
            seen_count: _,
            told,
            told_count,
        } = feed.look()?;
        begins(&self.seen, &now);
        begins(&self.told, &now);
        self.reader = reader;
        self.told = told;
        self.told_count = told_count;
        Ok(())
    }

    /// Whether the feed published all that this look saw: else it published fewer changes. A look never sees more, and no clause says so.
    pub fn is_within(&self, feed: &Feed) -> bool
        requires own { IsLookOf feed.now self.now }
        ensures within { result ≡ true → IsPrefix self.now.seen feed.now.published }
        ensures more { result ≡ false → length feed.now.published < length self.now.seen }
    {
        if feed.number() < self.seen_count {
            return false;
        }
        begins(&self.seen, feed.history());
        true
    }

    /// Waits until the feed published all that this look saw. It did so before the look saw it, so that this returns at once.
    pub fn follow<R: Wait>(&self, rt: &R, feed: &Feed)
        requires own { IsLookOf feed.now self.now }
        ensures within { IsPrefix self.now.seen feed.now.published }
    {
        for _ in rt.forever() {
            if self.is_within(feed) {
                return;
            }
        }
        unreachable!()
    }
}
