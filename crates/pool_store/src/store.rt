//! What opens pools for a command, and takes them back.

ghost use Rattle.std.specs.Prelude.{◌≡◌, ◌≤◌, Some, ℕ, List, Option};
ghost use Rattle.command_streams.specs.Streams.{told};

use crate::faults::say_fault;
use ipam_edge::Sink;
use ipam_keeper::keeper::KeepFault;
use machine_command::MachineOpener;
use pool_keeper::keeper::PoolOpener;
use pool_opening::PoolFault;
use pool_register::{Pools, open};
use std::alloc::Global;
use stored_tables::tables::Text;

/// The store that a command names by its path, or else one in memory. The opener of keepers is lent to it. The path is lent as a whole, and not
/// an option of a reference: so a function that lends its opener to a store knows it again after the store.
#[derive(Drop)]
pub struct PoolStore<'a, 'p, O> {
    pub opener: &'a mut O,
    pub path: &'p Option<Text>,
}

impl<'a, 'p, O: PoolOpener> MachineOpener<Pools<O::Kept>> for PoolStore<'a, 'p, O> {
    ghost use Rattle.std.specs.Borrow.{GName};
    ghost use Rattle.pool_keeper.specs.declared.tables.PoolTables.{PoolTables as StoredPools};
    ghost use Rattle.pool_opening.specs.declared.faults.PoolFault.TheVariants.{Keeper as KeeperFailed};
    ghost use Rattle.pool_store.specs.FaultWords.{IsSaid};
    ghost use Rattle.pool_store.specs.Opening.{Holds, IsLoaded, IsRefusedOpening};

    type Fault = PoolFault;

    ghost Tables = { StoredPools };

    ghost Asked = { Option (List ℕ) };

    ghost asked = { λ s. s.path.now };

    ghost Loan = { GName };

    ghost loan = { λ s. s.opener.ghost_name };

    ghost stored = { λ s. O.stored s.opener.now };

    ghost faults = { λ s. O.faults s.opener.now };

    ghost lends = { λ s first. (O.lent s.opener.now ≡ Some s.path.now) × (O.stored s.opener.now ≡ first) };

    ghost loads = { IsLoaded };

    ghost holds = { Holds };

    ghost refuses = { IsRefusedOpening };

    ghost fails = { λ fault. fault ≡ KeeperFailed };

    ghost says = { IsSaid };

    fn open(&mut self, alloc: Global) -> Result<Pools<O::Kept>, PoolFault> {
        let kept = match self.opener.start(self.path.as_ref()) {
            Ok(kept) => kept,
            Err(KeepFault::Failed) => return Err(PoolFault::Keeper),
            Err(KeepFault::Memory) => return Err(PoolFault::Memory),
        };
        match open(alloc, kept) {
            Ok(pools) => Ok(pools),
            Err((kept, fault)) => {
                self.opener.done(kept);
                Err(fault)
            }
        }
    }

    fn done(&mut self, machine: Pools<O::Kept>) {
        self.opener.done(machine.into_keeper());
    }

    fn say<Se: Sink>(alloc: Global, fault: PoolFault, errors: &mut Se) -> u8
        ensures said { IsSaid fault (told Se.written Se.faults errors.old) (told Se.written Se.faults errors.new) result }
        ensures quiet { result ≡ 5 → (¬ (fault ≡ KeeperFailed)) × (Se.faults errors.new ≡ Se.faults errors.old) }
        ensures later { Se.faults errors.old ≤ Se.faults errors.new }
    {
        let _ = alloc;
        say_fault(fault, errors)
    }
}
