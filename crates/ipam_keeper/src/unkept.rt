//! A keeper that keeps nothing, for a register that lasts as long as its program.

ghost use Rattle.std.specs.Prelude.{◌≡◌, ℕ, ◌≤◌, ◌⊎◌, None, option_map, IfOk, OnOk, OnErr, IsErrOf};

use crate::empty::empty_tables;
use crate::keeper::{KeepFault, Keeper};
use std::alloc::Global;
use stored_tables::tables::{Change, Tables};

/// A keeper that keeps nothing, and of which nothing is known. It never fails.
#[derive(Drop)]
pub struct Unkept {
    alloc: Global,
}

impl Unkept {
    /// Such a keeper. It takes no memory.
    pub fn new(alloc: Global) -> Unkept {
        Unkept { alloc }
    }
}

impl Keeper for Unkept {
    ghost told = { λ k. None };

    ghost faults = { λ k. 0 };

    /// The empty tables. `Err` means out of memory alone.
    fn load(&mut self) -> Result<Tables, KeepFault> {
        Ok(empty_tables(self.alloc)?)
    }

    /// Every change is made, and none is kept.
    fn apply(&mut self, _change: &Change) -> Result<(), KeepFault> {
        Ok(())
    }

    /// The tables are taken, and not kept.
    fn upgrade(&mut self, _tables: &Tables) -> Result<(), KeepFault> {
        Ok(())
    }
}
