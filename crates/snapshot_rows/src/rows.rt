//! The rows of a copy.
ghost use Rattle.std.specs.Prelude.{◌≡◌, ◌++◌, [], List, fold, filter, IfOk, OnOk, OnErr};
ghost use Rattle.ipam_data.specs.State.{State};
ghost use Rattle.ipam_data.specs.Updates.{updated};
ghost use Rattle.register_tables.specs.Held.{state_of};
ghost use Rattle.ipam_data.specs.Pages.{only_if};
ghost use Rattle.snapshot_rows.specs.Lists.{lists_of, is_listed, after_update, IsReplyTo};
ghost use Rattle.ipam_data.specs.declared.update.Update.{Update};

use crate::checks::{all_fit, ids_are_kept, is_huge};
use ipam_data::calls::{Call, Filter};
use ipam_data::kinds::Kind;
use ipam_data::replies::{Reply, View, Views};
use ipam_data::update::{Ids, Update};
use register_plans::{prefix_answer, vrf_answer};
use register_tables::RowTables;
use std::alloc::{AllocError, Global};
use std::marker::Model;

/// VRFs and prefixes, on the register's tables without rows of other kinds. A contract sees the two lists.
#[derive(Drop)]
pub struct SnapshotRows {
    pub(crate) tables: RowTables,
}

impl Model for SnapshotRows {
    ghost use Rattle.register_tables.specs.Held.{state_of};
    ghost use Rattle.snapshot_rows.specs.Lists.{Lists, lists_of};

    ghost Value = { Lists };

    ghost view = { λ s. lists_of (state_of s.tables) };
}

/// Adds a copy of a row, if it is of one of the two kinds. `Err` means out of memory.
fn push_listed(view: &View, puts: &mut Vec<View>) -> Result<(), AllocError>
    ensures { OnOk result (puts.new.items ≡ puts.old.items ++ only_if (is_listed view.now) view.now) }
{
    match view {
        View::Vrf(row) => {
            let row = row.copy()?;
            puts.push(View::Vrf(row))?;
            Ok(())
        }
        View::Prefix {
            row,
            depth,
            children,
        } => {
            let row = row.copy()?;
            puts.push(View::Prefix {
                row,
                depth: *depth,
                children: *children,
            })?;
            Ok(())
        }
        _ => Ok(()),
    }
}

/// Copies of the rows of the two kinds. `Err` means out of memory.
pub(crate) fn listed_of(alloc: Global, views: &[View]) -> Result<Vec<View>, AllocError>
    ensures { IfOk result (λ v. v.items ≡ filter is_listed views.now) }
{
    let mut puts = Vec::new(alloc);
    for view in views {
        push_listed(view, &mut puts)?;
    }
    Ok(puts)
}

/// Whether the call lists VRFs, or gets one.
fn is_of_vrfs(call: &Call) -> bool {
    match call {
        Call::List {
            kind: _,
            filter: Filter::Vrfs { name: _, rd: _ },
            limit: _,
            offset: _,
        } => true,
        Call::Get {
            kind: Kind::Vrfs,
            id: _,
        } => true,
        _ => false,
    }
}

impl SnapshotRows {
    /// No rows. It takes no memory.
    pub fn new(alloc: Global) -> SnapshotRows
        ensures { result ≡ record { vrfs = []; prefixes = [] } }
    {
        SnapshotRows {
            tables: RowTables::new(alloc, false),
        }
    }

    /// Takes an update in: its rows and cuts of the two kinds. `Err` leaves the rows. It means out of memory, or an update that no
    /// register makes: a row whose id is 0, or is not there and not above all ids so far; or rows next to more than 500,000,000 of a kind.
    pub fn take_in(&mut self, change: &Update) -> Result<(), AllocError>
        ensures ok { OnOk result (self.new ≡ after_update self.old change.now) }
        ensures err { OnErr result (self.new ≡ self.old) }
    {
        let alloc = self.tables.allocator();
        let puts = listed_of(alloc, change.puts.as_slice())?;
        let cuts = change.cuts.copy(alloc)?;
        if !all_fit(&self.tables, puts.as_slice()) || is_huge(&self.tables) {
            return Err(AllocError);
        }
        self.tables.reserve(puts.as_slice())?;
        ids_are_kept(cuts.as_slice());
        let _spent = self.tables.spent();
        self.tables.update(Update {
            puts: Views::of(puts),
            cuts,
            next: Ids::of(Vec::new(alloc)),
            spent: 0,
        });
        Ok(())
    }

    /// Answers `List` or `Get` of VRFs or prefixes, as each register with these rows does. A list looks at all rows. `Err` means out of
    /// memory, or another call.
    pub fn answer(&self, call: &Call) -> Result<Reply, AllocError>
        ensures { IfOk result (λ r. IsReplyTo self.now call.now r) }
    {
        if is_of_vrfs(call) {
            self.of_vrfs(call)
        } else {
            self.of_prefixes(call)
        }
    }

    /// The answer from the VRFs. `Err` means out of memory, or a call that asks for something else.
    fn of_vrfs(&self, call: &Call) -> Result<Reply, AllocError>
        ensures { IfOk result (λ r. IsReplyTo self.now call.now r) }
    {
        let reply = vrf_answer(self.tables.allocator(), self.tables.vrfs(), call)?;
        Ok(reply)
    }

    /// The answer from the prefixes. `Err` means out of memory, or a call that asks for something else.
    fn of_prefixes(&self, call: &Call) -> Result<Reply, AllocError>
        ensures { IfOk result (λ r. IsReplyTo self.now call.now r) }
    {
        let reply = prefix_answer(self.tables.allocator(), self.tables.prefixes(), call)?;
        Ok(reply)
    }
}

/// The lists of the state after an update are those that the update makes of the lists before it. A law.
pub fn lists_follow()
    ensures { (s : State) (u : Update) → lists_of (updated s u) ≡ after_update (lists_of s) u }
{}

/// The same of updates one after another: the lists follow a whole history. A law.
pub fn lists_follow_history()
    ensures { (s : State) (history : List Update) → lists_of (fold updated s history) ≡ fold after_update (lists_of s) history }
{}
