//! An opener of keepers over files.

ghost use Rattle.std.specs.Prelude.{◌≡◌, ℕ, ◌≤◌, ◌⊎◌, Some, None, option_map, option_copied, IfOk, OnOk, OnErr, IsErrOf};
ghost use Rattle.stored_tables.specs.Stored.{changed, stored_version};
ghost use Rattle.stored_tables.specs.Order.{AreTables};
ghost use Rattle.ipam_keeper.specs.Keeping.{Rose, IsRaised, IsTold, replaced_by, started, IsReturned};
ghost use Rattle.sqlite_keeper.specs.Either.{told_of, faults_of};

use crate::connects::{Connects, CountedKeeper};
use ipam_keeper::keeper::{KeepFault, Keeper, KeeperOpener};
use kind_keeper::KindKeeper;
use sqlite_calls::{StoreFault, refused};
use std::alloc::Global;
use stored_tables::tables::{Change, Tables, Text};

/// A keeper that was started with a path, over its file, or without one, in memory.
#[derive(Drop)]
pub enum StoreKeeper<F> {
    File(F),
    Memory(KindKeeper),
}

impl<F: Keeper> Keeper for StoreKeeper<F> {
    ghost told = { λ k. told_of (F.told) k };

    ghost faults = { λ k. faults_of (F.faults) k };

    fn load(&mut self) -> Result<Tables, KeepFault> {
        match self {
            StoreKeeper::File(keeper) => keeper.load(),
            StoreKeeper::Memory(keeper) => keeper.load(),
        }
    }

    fn apply(&mut self, change: &Change) -> Result<(), KeepFault> {
        match self {
            StoreKeeper::File(keeper) => keeper.apply(change),
            StoreKeeper::Memory(keeper) => keeper.apply(change),
        }
    }

    fn upgrade(&mut self, tables: &Tables) -> Result<(), KeepFault> {
        match self {
            StoreKeeper::File(keeper) => keeper.upgrade(tables),
            StoreKeeper::Memory(keeper) => keeper.upgrade(tables),
        }
    }
}

/// An opener of keepers over the files that paths name. It does not show what they hold.
#[derive(Drop)]
pub struct SqliteOpener<C: Connects> {
    alloc: Global,
    connects: C,
    lent: Option<Option<Text>>,
    faults: u64,
}

impl<C: Connects> SqliteOpener<C> {
    /// An opener that nothing was started with. It takes no memory, and opens nothing.
    pub fn new(alloc: Global, connects: C) -> SqliteOpener<C>
        ensures { (result.faults ≡ 0) × (result.lent ≡ None) }
    {
        SqliteOpener {
            alloc,
            connects,
            lent: None,
            faults: 0,
        }
    }

    /// A keeper over the file of a path, and the path again.
    fn start_at(&mut self, path: &Text) -> Result<(C::Kept, Text), StoreFault>
        ensures path { IfOk result (λ pair. pair.1 ≡ path.now) }
        ensures told { IfOk result (λ pair. C.Kept.Keeper.told pair.0 ≡ None) }
        ensures fresh { IfOk result (λ pair. C.Kept.Keeper.faults pair.0 ≡ 0) }
        ensures lent { self.new.lent ≡ self.old.lent }
        ensures faults { self.new.faults ≡ self.old.faults }
    {
        let copy = path.copy()?;
        let kept = self.connects.connect(path)?;
        Ok((kept, copy))
    }
}

impl<C: Connects> KeeperOpener for SqliteOpener<C>
where
    C::Kept: Send,
{
    type Kept = StoreKeeper<C::Kept>;

    ghost stored = { λ o. None };

    ghost lent = { λ o. o.lent };

    ghost faults = { λ o. o.faults };

    /// A keeper over the file of this path, or without one in memory. `Failed` is returned if the file can't be opened or something
    /// else has it open; each time it is returned the count rises by one.
    fn start(&mut self, path: Option<&Text>) -> Result<StoreKeeper<C::Kept>, KeepFault> {
        let Some(path) = path else {
            let keeper = KindKeeper::new(self.alloc)?;
            self.lent = Some(None);
            return Ok(StoreKeeper::Memory(keeper));
        };
        match self.start_at(path) {
            Ok((keeper, path)) => {
                self.lent = Some(Some(path));
                Ok(StoreKeeper::File(keeper))
            }
            Err(fault) => Err(refused(&mut self.faults, fault)),
        }
    }

    /// Takes back a keeper, and closes its file. It takes no memory. The count rises by the keeper's, or up to its last value.
    fn done(&mut self, kept: StoreKeeper<C::Kept>) {
        self.lent = None;
        match kept {
            StoreKeeper::File(keeper) => {
                self.faults = self.faults.saturating_add(keeper.failures());
                self.connects.close(keeper);
            }
            StoreKeeper::Memory(_) => {}
        }
    }
}
