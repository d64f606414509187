//! The two copies, the changes that they take in, and what those who write and read them know.
ghost use Rattle.std.specs.Prelude.{◌≡◌};

use crate::history::HistoryRule;
use ipam_data::update::Update;
use left_right::Absorb;
use logbook::Seen;
use snapshot_rows::SnapshotRows;
use std::alloc::AllocError;
use std::snapshot::Snapshot;

/// The greatest number of changes.
pub(crate) const MOST_CHANGES: u64 = 1 << 63;

/// A copy, how many changes it took in, and the history of them.
#[derive(Drop)]
pub struct Twin<K, C> {
    pub value: K,
    pub count: u64,
    pub seen: Seen<C, u64, HistoryRule>,
}

/// A change, with the history that ends with it.
#[derive(Drop)]
pub struct Entry<C> {
    pub change: C,
    pub seen: Seen<C, u64, HistoryRule>,
}

/// A copy as contracts see it. No value of it is made.
pub struct TwinState<L, C> {
    pub lists: L,
    pub count: u64,
    pub seen: Seen<C, u64, HistoryRule>,
}

/// What the writer or a reader knows, once it knows anything: the lists before the first change, and a beginning of the history. No
/// value of it is made.
pub struct Known<L, C> {
    pub opening: Snapshot<L>,
    pub seen: Seen<C, u64, HistoryRule>,
}

impl Absorb<Entry<Update>> for Twin<SnapshotRows, Update> {
    ghost use Rattle.std.specs.Prelude.{◌+◌};
    ghost use Rattle.snapshot_reads.specs.Published.{lists, after};

    type State = TwinState<SnapshotRows, Update>;

    ghost state = { λ t. record { lists = lists t.value; count = t.count; seen = t.seen } };

    ghost applied = { λ s e. record { lists = after s.lists e.change; count = s.count + 1; seen = e.seen } };

    fn absorb_first(
        &mut self,
        operation: &Entry<Update>,
        _other: &Twin<SnapshotRows, Update>,
    ) -> Result<(), AllocError> {
        if self.count >= MOST_CHANGES {
            return Err(AllocError);
        }
        self.value.take_in(&operation.change)?;
        self.count += 1;
        self.seen = operation.seen.again();
        Ok(())
    }
}
