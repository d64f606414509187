//! What an accepted call does to the rows.

ghost use Rattle.std.specs.Prelude.{◌≡◌, IfOk};

use crate::kinds::Kind;
use crate::replies::Views;
use std::alloc::{AllocError, Global};
use std::marker::Model;

/// Ids, each of a kind, in order. A contract sees the list.
#[derive(Debug, Drop)]
pub struct Ids {
    items: Vec<(Kind, u32)>,
}

impl Model for Ids {
    ghost use Rattle.std.specs.Prelude.{List, ℕ};
    ghost use Rattle.ipam_data.specs.declared.kinds.Kind.{Kind};

    ghost Value = { List (Kind × ℕ) };

    ghost view = { λ i. i.items.items };
}

impl Ids {
    /// The list of these. It takes no memory.
    pub fn of(items: Vec<(Kind, u32)>) -> Ids
        ensures { result ≡ items.items }
    {
        Ids { items }
    }

    /// The list as a slice, to be read.
    pub fn as_slice(&self) -> &[(Kind, u32)]
        ensures { result.now ≡ self.now }
    {
        self.items.as_slice()
    }

    /// The same list again. `Err` means out of memory.
    pub fn copy(&self, alloc: Global) -> Result<Ids, AllocError>
        ensures { IfOk result (λ i. i ≡ self.now) }
    {
        let mut items = Vec::new(alloc);
        items.extend_from_slice(self.items.as_slice())?;
        Ok(Ids { items })
    }

    /// The vector again. It takes no memory.
    pub fn into_vec(self) -> Vec<(Kind, u32)>
        ensures { result.items ≡ self }
    {
        self.items
    }
}

/// What an accepted call does to the rows: those that are put or replaced, those that are removed, and next ids; and the log items that
/// it spends. The figures of the views say nothing here.
#[derive(Debug, Drop)]
pub struct Update {
    pub puts: Views,
    pub cuts: Ids,
    pub next: Ids,
    pub spent: u32,
}
