//! What an update does to the lists.
ghost use Rattle.std.specs.Prelude.{IfOk};
ghost use Rattle.snapshot_rows.specs.Lists.{AreAlike};

use crate::rows::listed_of;
use ipam_data::replies::Views;
use ipam_data::update::{Ids, Update};
use std::alloc::{AllocError, Global};

/// An update that does to each lists what this one does: its rows of the two kinds and its cuts, and nothing else of it. `Err` means out of
/// memory.
pub fn listed(alloc: Global, update: &Update) -> Result<Update, AllocError>
    ensures { IfOk result (λ change. AreAlike update.now change) }
{
    let puts = listed_of(alloc, update.puts.as_slice())?;
    let cuts = update.cuts.copy(alloc)?;
    Ok(Update {
        puts: Views::of(puts),
        cuts,
        next: Ids::of(Vec::new(alloc)),
        spent: 0,
    })
}
