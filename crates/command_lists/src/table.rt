//! The prefixes of a table, read from the register of a store.

ghost use Rattle.std.specs.Prelude.{◌≡◌, ◌≤◌, ◌⊎◌, ◌<◌, ◌++◌, ◌∷◌, [], true, length, slice_get, Some, IfOk, IfErr, IsErrOf, OnOk};
ghost use Rattle.prefix_list.specs.Lists.{AreOf};
ghost use Rattle.command_words.specs.declared.asked.TableName.TheVariants.{Vrf};
ghost use Rattle.command_store.specs.Outside.{AreSame, stores};
ghost use Rattle.command_lists.specs.Tables.{table_named as table_of_name, is_there, is_counted, is_listed, blocks_listed, table_blocks};
ghost use Rattle.command_lists.specs.Reading.{IsStopBy, IsAnswer, IsTableStop, IsRead, IsStopped};

use command_store::open_store;
use command_words::{ListAsked, Statuses, TableName};
use inet_num::{Block, Family, is_one_family};
use ipam_data::calls::Call;
use ipam_data::kinds::{Kind, Table, is_one_table};
use ipam_data::prefix::{Prefix, PrefixStatus};
use ipam_data::replies::{Refusal, Reply};
use ipam_keeper::keeper::{Keeper, KeeperOpener};
use register_core::Register;
use std::alloc::{AllocError, Global};
use stored_tables::opening::OpenFault;

/// The number under which the one caller's call is made.
const CALLER: u32 = 0;

/// Why the prefixes of a table were not read.
#[derive(Drop)]
pub enum TableStop {
    /// The opening of the store is refused, or its keeper failed.
    Opening(OpenFault),
    /// The VRF of this id, whose table it is, is not there.
    Absent(u32),
    /// Out of memory.
    Memory,
}

impl From<AllocError> for TableStop {
    ghost use Rattle.std.specs.Prelude.{◌≡◌};
    ghost use Rattle.command_lists.specs.declared.table.TableStop.TheVariants.{Memory};

    ghost from_gives = { λ _ s. s ≡ Memory };

    fn from(_: AllocError) -> TableStop {
        TableStop::Memory
    }
}

/// The table of this name.
fn table_named(table: TableName) -> Table
    ensures { result ≡ table_of_name table }
{
    match table {
        TableName::Global => Table::Global,
        TableName::Vrf(id) => Table::Of(id),
    }
}

/// What the refusal of a call for the VRF of this id says of its table.
fn stop_by(id: u32, refusal: &Refusal) -> TableStop
    ensures stop { IsStopBy id refusal.now result }
    ensures failed { refusal.now ≡ Refusal.Keeper → result ≡ TableStop.Opening OpenFault.Keeper }
{
    match refusal {
        Refusal::NotFound(_, _) => TableStop::Absent(id),
        Refusal::Keeper => TableStop::Opening(OpenFault::Keeper),
        _ => TableStop::Memory,
    }
}

/// What the reply to a call for the VRF of this id says of its table.
fn answer(id: u32, reply: &Reply) -> Result<(), TableStop>
    ensures answer { IsAnswer id reply.now result }
    ensures failed { reply.now ≡ Reply.Refused Refusal.Keeper → IsErrOf result (TableStop.Opening OpenFault.Keeper) }
{
    match reply {
        Reply::One(_) => Ok(()),
        Reply::Refused(refusal) => Err(stop_by(id, refusal)),
        _ => Err(TableStop::Memory),
    }
}

/// Asks a register for the VRF of this id. The state stays, and so does what is known of the keeper.
fn ask_vrf<K: Keeper>(register: &mut Register<K>, id: u32) -> Result<(), TableStop>
    ensures there { OnOk result (is_there register.old.state (Vrf id) ≡ true) }
    ensures stop { IfErr result (IsTableStop register.old.state (Vrf id) (K.faults register.old.keeper) (K.faults register.new.keeper)) }
    ensures state { register.new.state ≡ register.old.state }
    ensures told { K.told register.new.keeper ≡ K.told register.old.keeper }
    ensures later { K.faults register.old.keeper ≤ K.faults register.new.keeper }
    ensures still { IsErrOf result (TableStop.Opening OpenFault.Keeper) ⊎ (K.faults register.new.keeper ≡ K.faults register.old.keeper) }
{
    // Hints to the prover: what holds of every register.
    register.told();
    let reply = register.act(
        CALLER,
        Call::Get {
            kind: Kind::Vrfs,
            id,
        },
    );
    let found = answer(id, &reply);
    drop(reply);
    found
}

/// Asks a register whether a table exists: the global one always does, and that of a VRF if the VRF does.
fn ask_table<K: Keeper>(register: &mut Register<K>, table: TableName) -> Result<(), TableStop>
    ensures there { OnOk result (is_there register.old.state table ≡ true) }
    ensures stop { IfErr result (IsTableStop register.old.state table (K.faults register.old.keeper) (K.faults register.new.keeper)) }
    ensures state { register.new.state ≡ register.old.state }
    ensures told { K.told register.new.keeper ≡ K.told register.old.keeper }
    ensures later { K.faults register.old.keeper ≤ K.faults register.new.keeper }
    ensures still { IsErrOf result (TableStop.Opening OpenFault.Keeper) ⊎ (K.faults register.new.keeper ≡ K.faults register.old.keeper) }
{
    match table {
        TableName::Global => Ok(()),
        TableName::Vrf(id) => ask_vrf(register, id),
    }
}

/// Whether the status is one of those that count.
fn is_counted(counted: Statuses, status: PrefixStatus) -> bool
    ensures { result ≡ is_counted counted status }
{
    match status {
        PrefixStatus::Container => counted.container,
        PrefixStatus::Active => counted.active,
        PrefixStatus::Reserved => counted.reserved,
        PrefixStatus::Deprecated => counted.deprecated,
    }
}

/// Whether a prefix is in the table, its block is of the family, and its status counts.
fn is_listed(table: Table, family: Family, counted: Statuses, row: &Prefix) -> bool
    ensures { result ≡ is_listed table family counted row.now }
{
    is_one_table(Table::of(row.vrf), table)
        && is_one_family(row.block.family(), family)
        && is_counted(counted, row.status)
}

/// Puts the block of a prefix after the others if it is in the table and of the family, and its status counts.
fn keep_listed(
    blocks: &mut Vec<Block>,
    table: Table,
    family: Family,
    counted: Statuses,
    row: &Prefix,
) -> Result<(), AllocError>
    ensures { OnOk result (blocks.new.items ≡ blocks.old.items ++ blocks_listed table family counted (row.now ∷ [])) }
{
    if is_listed(table, family, counted, row) {
        blocks.push(row.block)?;
    }
    Ok(())
}

/// The prefix at an index that exists.
fn prefix_at<K: Keeper>(register: &Register<K>, index: u32) -> &Prefix
    requires { index < length register.now.state.prefixes.rows }
    ensures { Some result.now ≡ slice_get register.now.state.prefixes.rows index }
{
    match register.prefixes().at(index) {
        Some(row) => row,
        None => unreachable!(),
    }
}

/// How many prefixes there are.
fn prefix_count<K: Keeper>(register: &Register<K>) -> u32
    ensures { result ≡ length register.now.state.prefixes.rows }
{
    register.prefixes().len()
}

/// The blocks of the prefixes of a table and a family whose status counts, in one pass over the prefixes.
fn blocks_of<K: Keeper>(
    alloc: Global,
    register: &Register<K>,
    table: Table,
    family: Family,
    counted: Statuses,
) -> Result<Vec<Block>, AllocError>
    ensures { IfOk result (λ v. v.items ≡ blocks_listed table family counted register.now.state.prefixes.rows) }
{
    let mut blocks = Vec::new(alloc);
    let count = prefix_count(register);
    'prefixes: for index in 0..count {
        let row = prefix_at(register, index);
        keep_listed(&mut blocks, table, family, counted, row)?;
    }
    Ok(blocks)
}

/// The blocks of the prefixes of the table and the family that are asked for, from a register.
fn blocks_in<K: Keeper>(
    alloc: Global,
    table: TableName,
    family: Family,
    counted: Statuses,
    register: &mut Register<K>,
) -> Result<Vec<Block>, TableStop>
    ensures there { OnOk result (is_there register.old.state table ≡ true) }
    ensures blocks { IfOk result (λ v. v.items ≡ table_blocks register.old.state table family counted) }
    ensures stop { IfErr result (IsTableStop register.old.state table (K.faults register.old.keeper) (K.faults register.new.keeper)) }
    ensures told { K.told register.new.keeper ≡ K.told register.old.keeper }
    ensures later { K.faults register.old.keeper ≤ K.faults register.new.keeper }
    ensures still { IsErrOf result (TableStop.Opening OpenFault.Keeper) ⊎ (K.faults register.new.keeper ≡ K.faults register.old.keeper) }
{
    ask_table(register, table)?;
    let blocks = blocks_of(alloc, register, table_named(table), family, counted)?;
    Ok(blocks)
}

/// The blocks of the prefixes of the table and the family that are asked for, from the register of the store. The keeper went back, and known
/// tables are unchanged.
pub(crate) fn read_table<O: KeeperOpener>(
    alloc: Global,
    asked: &ListAsked,
    opener: &mut O,
) -> Result<Vec<Block>, TableStop>
    ensures read { IfOk result (λ v. IsRead asked.now (stores O.stored O.faults opener.old) v.items) }
    ensures family { IfOk result (λ v. AreOf asked.now.family v.items) }
    ensures stop { IfErr result (IsStopped asked.now (stores O.stored O.faults opener.old) (stores O.stored O.faults opener.new)) }
    ensures same { AreSame (O.stored opener.old) (O.stored opener.new) }
    ensures later { O.faults opener.old ≤ O.faults opener.new }
    ensures still { IsErrOf result (TableStop.Opening OpenFault.Keeper) ⊎ (O.faults opener.new ≡ O.faults opener.old) }
{
    match open_store(alloc, &asked.store, opener) {
        Ok(register) => {
            let mut register = register;
            let blocks = blocks_in(
                alloc,
                asked.table,
                asked.family,
                asked.counted,
                &mut register,
            );
            opener.done(register.into_keeper());
            blocks
        }
        Err(fault) => Err(TableStop::Opening(fault)),
    }
}
