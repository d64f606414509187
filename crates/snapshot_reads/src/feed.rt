//! The one writer.
ghost use Rattle.std.specs.Prelude.{◌≡◌, ◌^◌, ◌<◌, ◌≤◌, ◌∷◌, ◌++◌, [], length, true, false, Some, IfOk, IfErr, OnOk, OnErr, MatchResult};
ghost use Rattle.left_right.specs.Sides.{view};
ghost use Rattle.snapshot_reads.specs.History.{head_of};
ghost use Rattle.snapshot_reads.specs.Seen.{opening_of, IsWriting, IsNewLook};
ghost use Rattle.snapshot_reads.specs.Published.{lists};

use crate::copies::{Entry, Known, Twin};
use crate::history::{HistoryRule, begin, extend};
use crate::look::Look;
use crate::rule::{All, Begins, Follow, Shows, Takes};
use core::mem::replace_with;
use ipam_data::update::Update;
use left_right::writer::Writer;
use logbook::{Seen, Word};
use snapshot_rows::SnapshotRows;
use std::alloc::{AllocError, Global};
use std::marker::Model;
use std::sync::Wait;

/// What publishes changes. It is not `Drop`: end it by `close`.
///
/// A contract sees which history it is, the lists before the first change, the changes that it published, and whether it is live.
/// Once publishing ran out of memory it is not, and may only be closed.
pub struct Feed {
    writer: Writer<
        Twin<SnapshotRows, Update>,
        Entry<Update>,
        Option<Known<SnapshotRows, Update>>,
        Follow,
    >,
    head: Word<Update, u64, HistoryRule>,
    live: bool,
}

impl Model for Feed {
    ghost use Rattle.std.specs.Prelude.{◌≡◌, drop, true, [], length};
    ghost use Rattle.left_right.specs.Sides.{view as known};
    ghost use Rattle.snapshot_reads.specs.History.{head_of};
    ghost use Rattle.snapshot_reads.specs.Seen.{FeedView, opening_of, IsWriting};
    ghost use Rattle.snapshot_rows.specs.Lists.{Lists};
    ghost use Rattle.ipam_data.specs.declared.update.Update.{Update};

    ghost Value = { FeedView Lists Update };

    ghost view = { λ f. record { book = f.writer.desk.shown.value.seen.book; opening = opening_of (known f.writer.desk.place); published = f.writer.desk.shown.value.seen.log; live = f.live } };

    ghost invariant = { λ f. IsWriting (known f.writer.desk.place) f.writer.desk.shown.value × (f.head ≡ head_of f.writer.desk.shown.value.seen.book) × (f.live ≡ true → drop f.writer.behind f.writer.log.items ≡ []) };
}

impl Feed {
    /// A feed over two copies that are alike, with places for so many looks at once; each `learn` takes one more for as long as it
    /// lasts. The one error means out of memory.
    pub fn new<R: Wait>(
        rt: &R,
        alloc: Global,
        first: SnapshotRows,
        second: SnapshotRows,
        readers: usize,
    ) -> Result<Feed, AllocError>
        requires readers { (0 < readers) × (readers < 2 ^ 32) }
        requires alike { lists first ≡ lists second }
        ensures opening { IfOk result (λ f. f.opening ≡ Some (lists first)) }
        ensures published { IfOk result (λ f. f.published ≡ []) }
        ensures live { IfOk result (λ f. f.live ≡ true) }
    {
        let (head, seen) = begin();
        let other = seen.again();
        let writer = Writer::new(
            alloc,
            Twin {
                value: first,
                count: 0,
                seen,
            },
            Twin {
                value: second,
                count: 0,
                seen: other,
            },
            readers,
        )?;
        let (writer, shown) = writer.publish_as::<Begins, R>(rt);
        match shown {
            Ok(()) => Ok(Feed {
                writer,
                head,
                live: true,
            }),
            Err(AllocError) => {
                drop(writer.take(rt));
                Err(AllocError)
            }
        }
    }

    /// How many changes it published.
    pub fn number(&self) -> u64
        ensures { result ≡ length self.now.published }
    {
        self.writer.published().count
    }

    /// The history of the changes that it published.
    pub(crate) fn history(&self) -> &Seen<Update, u64, HistoryRule>
        ensures { (result.now.book ≡ self.now.book) × (result.now.log ≡ self.now.published) }
    {
        &self.writer.published().seen
    }

    /// Publishes a change, and gives the new number of changes. It may wait for a reader to leave a copy. The one error means out of
    /// memory, or a change that no copy takes in (`SnapshotRows::take_in`): readers then see what they saw, and the feed may only be
    /// closed.
    pub fn publish<R: Wait>(&mut self, rt: &R, change: Update) -> Result<u64, AllocError>
        requires live { self.old.live ≡ true }
        requires few { length self.old.published < 2 ^ 63 }
        ensures same { (self.new.book ≡ self.old.book) × (self.new.opening ≡ self.old.opening) }
        ensures ok { OnOk result (self.new.published ≡ self.old.published ++ change ∷ []) }
        ensures number { IfOk result (λ n. n ≡ length self.new.published) }
        ensures live { OnOk result (self.new.live ≡ true) }
        ensures err { OnErr result (self.new.published ≡ self.old.published) }
        ensures ended { OnErr result (self.new.live ≡ false) }
    {
        replace_with(
            self,
            change,
            |feed: Feed, change: Update|
                requires live { feed.live ≡ true }
                requires few { length feed.published < 2 ^ 63 }
                ensures same { (result.0.book ≡ feed.book) × (result.0.opening ≡ feed.opening) }
                ensures ok { OnOk result.1 (result.0.published ≡ feed.published ++ change ∷ []) }
                ensures number { IfOk result.1 (λ n. n ≡ length result.0.published) }
                ensures live { OnOk result.1 (result.0.live ≡ true) }
                ensures err { OnErr result.1 (result.0.published ≡ feed.published) }
                ensures ended { OnErr result.1 (result.0.live ≡ false) }
            { feed.publish_one(rt, change) },
        )
    }

    /// The same by value, so that the writer can be given to its own call.
    fn publish_one<R: Wait>(self, rt: &R, change: Update) -> (Feed, Result<u64, AllocError>)
        requires live { self.live ≡ true }
        requires few { length self.published < 2 ^ 63 }
        ensures same { (result.0.book ≡ self.book) × (result.0.opening ≡ self.opening) }
        ensures ok { OnOk result.1 (result.0.published ≡ self.published ++ change ∷ []) }
        ensures number { IfOk result.1 (λ n. n ≡ length result.0.published) }
        ensures live { OnOk result.1 (result.0.live ≡ true) }
        ensures err { OnErr result.1 (result.0.published ≡ self.published) }
        ensures ended { OnErr result.1 (result.0.live ≡ false) }
    {
        let Feed {
            mut writer,
            head,
            live: _,
        } = self;
        let count = writer.published().count;
        let mut seen = writer.published().seen.again();
        let added = extend(&head, &mut seen, count, &change);
        if !added {
            drop(change);
            return (Feed::ended(writer, head), Err(AllocError));
        }
        if let Err(entry) = writer.append(Entry { change, seen }) {
            drop(entry);
            return (Feed::ended(writer, head), Err(AllocError));
        }
        let (writer, shown) = writer.publish_as::<Shows, R>(rt);
        match shown {
            Ok(()) => (
                Feed {
                    writer,
                    head,
                    live: true,
                },
                Ok(count + 1),
            ),
            Err(AllocError) => (Feed::ended(writer, head), Err(AllocError)),
        }
    }

    /// A feed that may only be closed.
    fn ended(
        writer: Writer<
            Twin<SnapshotRows, Update>,
            Entry<Update>,
            Option<Known<SnapshotRows, Update>>,
            Follow,
        >,
        head: Word<Update, u64, HistoryRule>,
    ) -> Feed
        requires writing { IsWriting (view writer.desk.place) writer.desk.shown.value }
        requires head { head ≡ head_of writer.desk.shown.value.seen.book }
        ensures { result ≡ record { book = writer.desk.shown.value.seen.book; opening = opening_of (view writer.desk.place); published = writer.desk.shown.value.seen.log; live = false } }
    {
        Feed {
            writer,
            head,
            live: false,
        }
    }

    /// A new look, which saw and was told all that is published. The one error means out of memory, or that each place for a look is
    /// in use.
    pub fn look(&mut self) -> Result<Look, AllocError>
        ensures same { self.new ≡ self.old }
        ensures look { IfOk result (λ l. IsNewLook self.old l) }
    {
        let mut reader = self.writer.factory().reader()?;
        reader.learn::<Takes>(self.writer.tell::<All>());
        let shown = self.writer.published();
        Ok(Look::over(reader, shown.seen.again(), shown.count))
    }

    /// Ends the feed. It may wait for a reader to leave a copy. Looks that remain answer `Looked::Memory` from then on.
    pub fn close<R: Wait>(self, rt: &R) {
        let Feed {
            writer,
            head: _head,
            live: _,
        } = self;
        drop(writer.take(rt));
    }
}
