//! The rows of the pools of a store that is only read.

ghost use Rattle.std.specs.Prelude.{◌≡◌, ◌≤◌, ◌⊎◌, IfOk, IfErr, IsErrOf, OnOk};
ghost use Rattle.ipam_keeper.specs.Keeping.{Rose};
ghost use Rattle.machine_command.specs.Outside.{stores};
ghost use Rattle.number_pools.specs.Lawful.{IsLawfulPools};
ghost use Rattle.pool_keeper.specs.Keeping.{IsTold, started};
ghost use Rattle.pool_opening.specs.declared.faults.PoolFault.TheVariants.{Keeper as KeeperFault};
ghost use Rattle.pool_register.specs.Opened.{IsOpened};
ghost use Rattle.pool_store.specs.Opening.{AreSame, IsRefusedOpening};

use ipam_keeper::keeper::KeepFault;
use pool_keeper::keeper::{PoolKeeper, PoolOpener};
use pool_keeper::tables::PoolTables;
use pool_opening::{PoolFault, opened};
use pool_rows::PoolRows;
use std::alloc::Global;
use stored_tables::tables::Text;

/// The tables of a keeper that is started over this path, or over none, and goes back.
fn load_tables<O: PoolOpener>(path: &Option<Text>, opener: &mut O) -> Result<PoolTables, KeepFault>
    ensures told { IfOk result (IsTold (started (O.stored opener.old) path.now)) }
    ensures ok_still { OnOk result (O.faults opener.new ≡ O.faults opener.old) }
    ensures failed { IsErrOf result KeepFault.Failed → Rose (O.faults opener.old) (O.faults opener.new) }
    ensures still { IsErrOf result KeepFault.Failed ⊎ (O.faults opener.new ≡ O.faults opener.old) }
    ensures same { AreSame (O.stored opener.old) (O.stored opener.new) }
    ensures later { O.faults opener.old ≤ O.faults opener.new }
{
    let mut kept = match opener.start(path.as_ref()) {
        Ok(kept) => kept,
        Err(fault) => return Err(fault),
    };
    let tables = kept.load();
    opener.done(kept);
    tables
}

/// The rows of the pools of a store, which stays as it is; or why there are none.
pub(crate) fn load_pools<O: PoolOpener>(
    alloc: Global,
    path: &Option<Text>,
    opener: &mut O,
) -> Result<PoolRows, PoolFault>
    ensures loaded { IfOk result (λ r. IsOpened (started (O.stored opener.old) path.now) r.pools) }
    ensures lawful { IfOk result (λ r. IsLawfulPools r.pools) }
    ensures ok_still { OnOk result (O.faults opener.new ≡ O.faults opener.old) }
    ensures refused { IfErr result (IsRefusedOpening path.now (stores O.stored O.faults opener.old) (stores O.stored O.faults opener.new)) }
    ensures still { IfErr result (λ fault. (fault ≡ KeeperFault) ⊎ (O.faults opener.new ≡ O.faults opener.old)) }
    ensures same { AreSame (O.stored opener.old) (O.stored opener.new) }
    ensures later { O.faults opener.old ≤ O.faults opener.new }
{
    match load_tables(path, opener) {
        Ok(tables) => match opened(alloc, tables) {
            Ok(rows) => Ok(rows),
            Err(fault) => Err(fault),
        },
        Err(KeepFault::Failed) => Err(PoolFault::Keeper),
        Err(KeepFault::Memory) => Err(PoolFault::Memory),
    }
}
