//! An update is copied if it is to be lent after its rows went into the books.

ghost use Rattle.std.specs.Prelude.{◌≡◌, IfOk, IfSome};

use ipam_data::replies::{View, Views};
use ipam_data::update::Update;
use std::alloc::{AllocError, Global};

/// What a register lends besides its state.
#[derive(Clone, Copy, Debug, PartialEq, Eq)]
pub(crate) enum Lending {
    Nothing,
    /// The update that its last accepted call made.
    LastUpdate,
}

/// The same row with the same figures again. `Err` means out of memory.
fn copy_view(view: &View) -> Result<View, AllocError>
    ensures { IfOk result (λ v. v ≡ view.now) }
{
    match view {
        View::Vrf(row) => Ok(View::Vrf(row.copy()?)),
        View::Rir(row) => Ok(View::Rir(row.copy()?)),
        View::Role(row) => Ok(View::Role(row.copy()?)),
        View::Aggregate(row) => Ok(View::Aggregate(row.copy()?)),
        View::Prefix {
            row,
            depth,
            children,
        } => Ok(View::Prefix {
            row: row.copy()?,
            depth: *depth,
            children: *children,
        }),
        View::IpRange(row) => Ok(View::IpRange(row.copy()?)),
        View::IpAddress(row) => Ok(View::IpAddress(row.copy()?)),
    }
}

/// The same rows again. `Err` means out of memory.
fn copy_views(alloc: Global, views: &[View]) -> Result<Vec<View>, AllocError>
    ensures { IfOk result (λ v. v.items ≡ views.now) }
{
    let mut copies = Vec::new(alloc);
    for view in views {
        copies.push(copy_view(view)?)?;
    }
    Ok(copies)
}

/// The update again, if it is lent. `Err` means out of memory.
pub(crate) fn copy_lent(
    alloc: Global,
    lending: Lending,
    update: &Update,
) -> Result<Option<Update>, AllocError>
    ensures { IfOk result (λ copy. IfSome copy (λ u. u ≡ update.now)) }
{
    match lending {
        Lending::Nothing => Ok(None),
        Lending::LastUpdate => Ok(Some(copy_update(alloc, update)?)),
    }
}

/// The same update again. `Err` means out of memory.
fn copy_update(alloc: Global, update: &Update) -> Result<Update, AllocError>
    ensures { IfOk result (λ u. u ≡ update.now) }
{
    let puts = copy_views(alloc, update.puts.as_slice())?;
    let cuts = update.cuts.copy(alloc)?;
    let next = update.next.copy(alloc)?;
    Ok(Update {
        puts: Views::of(puts),
        cuts,
        next,
        spent: update.spent,
    })
}
