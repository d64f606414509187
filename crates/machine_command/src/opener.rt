//! What opens a machine for a command, and takes it back.

ghost use Rattle.std.specs.Prelude.{◌≡◌, ◌≤◌, ◌⊎◌, ℕ, [], IfOk, IfErr};
ghost use Rattle.command_streams.specs.Streams.{Told, told};
ghost use Rattle.machine_command.specs.Outside.{IsRaised, Stored, Stores, stores};

use history_lock::Machine;
use ipam_edge::Sink;
use std::alloc::Global;

/// What opens a machine over the stored tables that a command asks for, one machine at a time, and takes it back.
pub trait MachineOpener<M: Machine> {
    /// Why no machine is opened.
    type Fault;

    /// The tables of a store, as contracts see them.
    ghost Tables: { Type 0 };

    /// What the command asks for, such as a path and settings, as contracts see it.
    ghost Asked: { Type 0 };

    ghost asked: { Self → Asked };

    /// The names of what is lent to it, as contracts see them: one value if nothing is.
    ghost Loan: { Type 0 };

    ghost loan: { Self → Loan };

    /// The tables under each path, if they are known.
    ghost stored: { Self → Stored Tables };

    /// How often it, or a machine that was given back, has failed. The count never falls.
    ghost faults: { Self → ℕ };

    /// A machine is out, and when it was opened this was stored.
    ghost lends: { Self → Stored Tables → Type 0 };

    /// The state is one that the tables represent that were asked for.
    ghost loads: { Asked → Stored Tables → M.State → Type 0 };

    /// First the one was stored, and then the other, which holds this state if it was asked for.
    ghost holds: { Asked → Stored Tables → Stored Tables → M.State → Type 0 };

    /// An opening is refused for this, with what is seen of the stores before and after.
    ghost refuses: { Asked → Stores Tables → Stores Tables → Self.Fault → Type 0 };

    /// The fault is that the opener failed.
    ghost fails: { Self.Fault → Type 0 };

    /// What the messages have before and after the fault is said, and the status of the command.
    ghost says: { Self.Fault → Told → Told → ℕ → Type 0 };

    /// Opens a machine that has accepted nothing yet and has not failed, in a state that the tables represent. The count of faults rises
    /// only with a fault that says so.
    fn open(&mut self, alloc: Global) -> Result<M, Self::Fault>
        ensures fresh { IfOk result (λ m. (M.log m ≡ []) × (M.faults m ≡ 0)) }
        ensures loads { IfOk result (λ m. loads (asked self.old) (stored self.old) (M.opening m)) }
        ensures lent { IfOk result (λ m. lends self.new (stored self.old)) }
        ensures err { IfErr result (λ fault. refuses (asked self.old) (stores stored faults self.old) (stores stored faults self.new) fault) }
        ensures kept { IfOk result (λ _. faults self.new ≡ faults self.old) }
        ensures cause { IfErr result (λ fault. fails fault ⊎ (faults self.new ≡ faults self.old)) }
        ensures asked { asked self.new ≡ asked self.old }
        ensures loan { loan self.new ≡ loan self.old }
        ensures later { faults self.old ≤ faults self.new };

    /// Takes the machine back. The count of faults rises by the machine's, or up to its last value.
    fn done(&mut self, machine: M)
        ensures held { (first : Stored Tables) → lends self.old first → holds (asked self.old) first (stored self.new) (M.state machine) }
        ensures raised { IsRaised (faults self.old) (M.faults machine) (faults self.new) }
        ensures asked { asked self.new ≡ asked self.old }
        ensures loan { loan self.new ≡ loan self.old };

    /// Says why an opening was refused, and gives the status of that, which is 5 if memory ran out: then nothing failed.
    fn say<Se: Sink>(alloc: Global, fault: Self::Fault, errors: &mut Se) -> u8
        ensures said { says fault (told Se.written Se.faults errors.old) (told Se.written Se.faults errors.new) result }
        ensures quiet { result ≡ 5 → (¬ fails fault) × (Se.faults errors.new ≡ Se.faults errors.old) }
        ensures later { Se.faults errors.old ≤ Se.faults errors.new };
}
