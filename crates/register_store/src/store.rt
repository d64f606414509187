//! What opens a register for a command, and takes it back.

ghost use Rattle.std.specs.Prelude.{◌≡◌, ◌≤◌, Some, ℕ, List, Option};
ghost use Rattle.command_streams.specs.Streams.{told};

use command_store::{path_of, say_fault};
use command_words::Store;
use ipam_edge::Sink;
use ipam_keeper::keeper::{KeepFault, KeeperOpener};
use machine_command::MachineOpener;
use register_core::{Register, Settings, open};
use std::alloc::Global;
use stored_tables::opening::OpenFault;

/// The store that a command names. The opener of keepers is lent to it, and so are the words.
#[derive(Drop)]
pub struct RegisterStore<'a, 's, O> {
    pub opener: &'a mut O,
    pub store: &'s Store,
}

impl<'a, 's, O: KeeperOpener> MachineOpener<Register<O::Kept>> for RegisterStore<'a, 's, O> {
    ghost use Rattle.std.specs.Borrow.{GName};
    ghost use Rattle.command_words.specs.declared.asked.Store.{Store as AskedStore};
    ghost use Rattle.stored_tables.specs.declared.tables.Tables.{Tables as StoredTables};
    ghost use Rattle.stored_tables.specs.declared.opening.OpenFault.TheVariants.{Keeper as KeeperFailed};
    ghost use Rattle.command_store.specs.FaultWords.{IsSaid};
    ghost use Rattle.register_store.specs.Opening.{Holds, IsLoaded, IsRefusedOpening};

    type Fault = OpenFault;

    ghost Tables = { StoredTables };

    ghost Asked = { AskedStore };

    ghost asked = { λ s. s.store.now };

    ghost Loan = { GName };

    ghost loan = { λ s. s.opener.ghost_name };

    ghost stored = { λ s. O.stored s.opener.now };

    ghost faults = { λ s. O.faults s.opener.now };

    ghost lends = { λ s first. (O.lent s.opener.now ≡ Some s.store.now.db) × (O.stored s.opener.now ≡ first) };

    ghost loads = { IsLoaded };

    ghost holds = { Holds };

    ghost refuses = { IsRefusedOpening };

    ghost fails = { λ fault. fault ≡ KeeperFailed };

    ghost says = { IsSaid };

    fn open(&mut self, alloc: Global) -> Result<Register<O::Kept>, OpenFault> {
        let path = match path_of(alloc, &self.store.db) {
            Ok(path) => path,
            Err(_) => return Err(OpenFault::Memory),
        };
        let kept = match self.opener.start(path.as_ref()) {
            Ok(kept) => kept,
            Err(KeepFault::Failed) => return Err(OpenFault::Keeper),
            Err(KeepFault::Memory) => return Err(OpenFault::Memory),
        };
        let settings = Settings {
            global_unique: self.store.global_unique,
        };
        match open(alloc, kept, settings) {
            Ok(register) => {
                // Its clause says that the state is the replay of the accepted changes, of which there are none.
                register.replayed();
                Ok(register)
            }
            Err((kept, fault)) => {
                self.opener.done(kept);
                Err(fault)
            }
        }
    }

    fn done(&mut self, machine: Register<O::Kept>) {
        machine.told();
        self.opener.done(machine.into_keeper());
    }

    fn say<Se: Sink>(alloc: Global, fault: OpenFault, errors: &mut Se) -> u8
        ensures said { IsSaid fault (told Se.written Se.faults errors.old) (told Se.written Se.faults errors.new) result }
        ensures quiet { result ≡ 5 → (¬ (fault ≡ KeeperFailed)) × (Se.faults errors.new ≡ Se.faults errors.old) }
        ensures later { Se.faults errors.old ≤ Se.faults errors.new }
    {
        say_fault(alloc, &fault, errors)
    }
}
