//! The one call that each command makes of the register that it opened.

ghost use Rattle.std.specs.Prelude.{◌≡◌, ◌≤◌, ◌⊎◌, IfOk, IfErr, OnOk, OnErr, IsErrOf, IsSome};
ghost use Rattle.stored_tables.specs.Stored.{Tells};
ghost use Rattle.ipam_data.specs.Exported.{exported};
ghost use Rattle.ipam_data.specs.Imports.{import_plan};
ghost use Rattle.ipam_data.specs.Survey.{survey_of};
ghost use Rattle.ipam_data.specs.Updates.{updated};
ghost use Rattle.ipam_keeper.specs.Keeping.{Rose};
ghost use Rattle.command_words.specs.declared.asked.Report.TheVariants.{Free};
ghost use Rattle.command_files.specs.Making.{stop_of, IsCounted, IsMakeStop};
ghost use Rattle.command_files.specs.Report.{report_stop_of, IsFirstFree, IsReportStop};
ghost use Rattle.command_files.specs.declared.calls.MakeStop.TheVariants as stop;

use ipam_data::calls::Call;
use ipam_data::imports::ImportRows;
use ipam_data::kinds::Kind;
use ipam_data::replies::{Blocks, Refusal, Reply};
use ipam_data::survey::PrefixLines;
use ipam_keeper::keeper::Keeper;
use register_core::Register;
use std::alloc::AllocError;

/// The number of the one caller.
const CALLER: u32 = 0;

/// Most blocks that a report of what is free has.
const MOST_BLOCKS: u32 = 1_000;

/// How many rows of an import made a record, and how many represent one that existed.
#[derive(Clone, Copy, Debug)]
pub struct Counts {
    pub created: u32,
    pub present: u32,
}

/// Why the rows of an import were not made.
#[derive(Drop)]
pub enum MakeStop {
    /// The import is refused.
    Refused(Refusal),
    /// No check refuses it, but the keeper failed, and counted it.
    Keeper,
    /// Out of memory.
    Memory,
}

/// What stops an import that is refused so.
fn stop_at(refusal: Refusal) -> MakeStop
    ensures { result ≡ stop_of refusal }
{
    match refusal {
        Refusal::Keeper => MakeStop::Keeper,
        Refusal::Memory => MakeStop::Memory,
        _ => MakeStop::Refused(refusal),
    }
}

/// Imports rows into the register: all of them, or none.
pub(crate) fn import_rows<K: Keeper>(
    register: &mut Register<K>,
    kind: Kind,
    rows: ImportRows,
) -> Result<Counts, MakeStop>
    ensures ok { IfOk result (IsCounted (import_plan register.old.state kind rows)) }
    ensures state { OnOk result (register.new.state ≡ updated register.old.state (import_plan register.old.state kind rows).update) }
    ensures tells { Tells (K.told register.new.keeper) register.new.state }
    ensures telling { IsSome (K.told register.old.keeper) → IsSome (K.told register.new.keeper) }
    ensures err { OnErr result (K.told register.new.keeper ≡ K.told register.old.keeper) }
    ensures stop { IfErr result (IsMakeStop (import_plan register.old.state kind rows)) }
    ensures failed { IsErrOf result stop.Keeper → Rose (K.faults register.old.keeper) (K.faults register.new.keeper) }
    ensures later { K.faults register.old.keeper ≤ K.faults register.new.keeper }
    ensures still { IsErrOf result stop.Keeper ⊎ (K.faults register.new.keeper ≡ K.faults register.old.keeper) }
{
    register.told();
    match register.act(CALLER, Call::Import { kind, rows }) {
        Reply::Imported { created, present } => Ok(Counts { created, present }),
        Reply::Refused(refusal) => Err(stop_at(refusal)),
        _ => unreachable!(),
    }
}

/// The records of a kind as rows. `Err` means out of memory.
pub(crate) fn export_rows<K: Keeper>(
    register: &mut Register<K>,
    kind: Kind,
) -> Result<ImportRows, AllocError>
    ensures rows { IfOk result (λ rows. rows ≡ exported register.old.state kind) }
    ensures told { K.told register.new.keeper ≡ K.told register.old.keeper }
    ensures still { K.faults register.new.keeper ≡ K.faults register.old.keeper }
{
    register.told();
    match register.act(CALLER, Call::Export { kind }) {
        Reply::Rows(rows) => Ok(rows),
        Reply::Refused(_) => Err(AllocError),
        _ => unreachable!(),
    }
}

/// The lines of all prefixes, in the order of their places. `Err` means out of memory.
pub(crate) fn survey_lines<K: Keeper>(register: &mut Register<K>) -> Result<PrefixLines, AllocError>
    ensures lines { IfOk result (λ lines. lines ≡ survey_of register.old.state) }
    ensures told { K.told register.new.keeper ≡ K.told register.old.keeper }
    ensures still { K.faults register.new.keeper ≡ K.faults register.old.keeper }
{
    register.told();
    match register.act(CALLER, Call::Survey) {
        Reply::Lines(lines) => Ok(lines),
        Reply::Refused(_) => Err(AllocError),
        _ => unreachable!(),
    }
}

/// Why a report has no text.
#[derive(Drop)]
pub enum ReportStop {
    /// The prefix that it is of is not there: what is to be said.
    Absent(Refusal),
    /// Out of memory.
    Memory,
}

impl From<AllocError> for ReportStop {
    ghost use Rattle.std.specs.Prelude.{◌≡◌};
    ghost use Rattle.command_files.specs.declared.calls.ReportStop.TheVariants.{Memory};

    ghost from_gives = { λ _ s. s ≡ Memory };

    fn from(_: AllocError) -> ReportStop {
        ReportStop::Memory
    }
}

/// Why the free blocks of a prefix are not listed.
fn absent_or_memory(refusal: Refusal) -> ReportStop
    ensures { result ≡ report_stop_of refusal }
{
    match refusal {
        Refusal::NotFound(_, _) => ReportStop::Absent(refusal),
        _ => ReportStop::Memory,
    }
}

/// The first available blocks of the prefix of an id.
pub(crate) fn first_free<K: Keeper>(
    register: &mut Register<K>,
    id: u32,
) -> Result<Blocks, ReportStop>
    ensures ok { IfOk result (IsFirstFree register.old.state id) }
    ensures stop { IfErr result (IsReportStop register.old.state (Free id)) }
    ensures told { K.told register.new.keeper ≡ K.told register.old.keeper }
    ensures still { K.faults register.new.keeper ≡ K.faults register.old.keeper }
{
    register.told();
    let call = Call::Blocks {
        id,
        limit: MOST_BLOCKS,
    };
    match register.act(CALLER, call) {
        Reply::Blocks { vrf: _, list } => Ok(list),
        Reply::Refused(refusal) => Err(absent_or_memory(refusal)),
        _ => unreachable!(),
    }
}
