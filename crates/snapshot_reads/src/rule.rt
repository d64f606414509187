//! The rule of the two copies, and what each step on them says.
use crate::copies::{Known, Twin};
use atomic_table::{Join, Split};
use crossbeam_utils::rule::{Outcome, Protocol};
use ipam_data::update::Update;
use snapshot_rows::SnapshotRows;

/// The rule, which each step on the copies keeps: `specs/Following` has it.
pub struct Follow;

impl Protocol<Twin<SnapshotRows, Update>, Option<Known<SnapshotRows, Update>>> for Follow {
    ghost use Rattle.std.specs.Prelude.{None};
    ghost use Rattle.snapshot_reads.specs.Following.{Follows};
    ghost use Rattle.snapshot_reads.specs.Published.{lists, after};

    ghost holds = { Follows lists after };

    ghost first = { None };
}

/// The writer's first step: it shows the opening copy.
pub(crate) struct Begins;

impl Outcome<Twin<SnapshotRows, Update>, Option<Known<SnapshotRows, Update>>> for Begins {
    ghost use Rattle.snapshot_reads.specs.Following.{HasBegun};
    ghost use Rattle.snapshot_reads.specs.Published.{lists, after};

    ghost then = { HasBegun lists };
}

/// The writer shows a copy with one more change.
pub(crate) struct Shows;

impl Outcome<Twin<SnapshotRows, Update>, Option<Known<SnapshotRows, Update>>> for Shows {
    ghost use Rattle.snapshot_reads.specs.Following.{HasShown};

    ghost then = { HasShown };
}

/// A reader takes the copy that is shown.
pub(crate) struct Sees;

impl Outcome<Twin<SnapshotRows, Update>, Option<Known<SnapshotRows, Update>>> for Sees {
    ghost use Rattle.snapshot_reads.specs.Following.{HasSeen};
    ghost use Rattle.snapshot_reads.specs.Published.{lists, after};

    ghost then = { HasSeen lists after };
}

/// The writer tells all that it knows.
pub(crate) struct All;

impl<V> Split<V> for All {
    ghost left = { λ v. v };

    ghost right = { λ v. v };
}

/// A new reader takes in what it was told.
pub(crate) struct Takes;

impl<L, C> Join<Option<Known<L, C>>> for Takes {
    ghost use Rattle.std.specs.Prelude.{None};

    ghost both = { λ v w. w };

    ghost spent = { None };
}
