//! Laws of the rule: each function is empty, and its contract is the law.
ghost use Rattle.history_lock.specs.Machines.{meaning};
ghost use Rattle.history_lock.specs.Bounds.{FaultsAreBounded};

use crate::machine::Machine;

/// In each state that the rule admits the faults of all live seats together are at most what the machine's count of faults has
/// risen since the lock was made.
pub fn faults_are_bounded<M: Machine>()
    ensures { FaultsAreBounded (meaning M.opening M.state M.log M.faults M.step) }
{}
