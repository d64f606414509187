//! Aggregates: the blocks that an operator has from registries.

ghost use Rattle.std.specs.Prelude.{◌≡◌, ℕ, IfOk};
ghost use Rattle.ipam_data.specs.declared.kinds.Kind.TheVariants.{Aggregates};
ghost use Rattle.ipam_data.specs.declared.replies.View.TheVariants.{Aggregate as AggregateView};
ghost use Rattle.ipam_data.specs.Rows.{HasAggregateBounds};
ghost use Rattle.ipam_data.specs.Fields.{drafted, kind_of_draft, edited_aggregate};

use crate::calls::{Draft, Edit};
use crate::edits::{edited_description, edited_value};
use crate::kinds::HasId;
use crate::text::Description;
use inet_num::Block;
use std::alloc::AllocError;

/// How many aggregates there may be.
pub const MOST_AGGREGATES: u32 = 1000;

/// An aggregate, from the registry of this id. It is in no table.
#[derive(Debug, Drop)]
pub struct Aggregate {
    pub id: u32,
    pub block: Block,
    pub rir: u32,
    pub description: Description,
}

impl Aggregate {
    /// The block of a row is one and its description in its bounds, by their types: a law, for callers that make states of
    /// rows.
    pub fn bounds(&self)
        ensures { HasAggregateBounds self.now }
    {
        self.block.bounds();
        self.description.bounds();
    }

    /// The aggregate that a draft of one makes under an id. `Err` means out of memory.
    pub fn drafted(id: u32, draft: &Draft) -> Result<Aggregate, AllocError>
        requires { kind_of_draft draft.now ≡ Aggregates }
        ensures { IfOk result (λ row. drafted id draft.now ≡ AggregateView row) }
    {
        match draft {
            Draft::Aggregate {
                block,
                rir,
                description,
            } => Ok(Aggregate {
                id,
                block: *block,
                rir: *rir,
                description: description.copy()?,
            }),
            _ => unreachable!(),
        }
    }

    /// The aggregate that an edit leaves: a field that is not given stays, and an edit of another kind changes nothing. `Err`
    /// means out of memory.
    pub fn edited(&self, edit: &Edit) -> Result<Aggregate, AllocError>
        ensures { IfOk result (λ row. row ≡ edited_aggregate edit.now self.now) }
    {
        match edit {
            Edit::Aggregate {
                block,
                rir,
                description,
            } => Ok(Aggregate {
                id: self.id,
                block: edited_value(*block, self.block),
                rir: edited_value(*rir, self.rir),
                description: edited_description(description, &self.description)?,
            }),
            _ => self.copy(),
        }
    }

    /// The same row again. `Err` means out of memory.
    pub fn copy(&self) -> Result<Aggregate, AllocError>
        ensures { IfOk result (λ row. row ≡ self.now) }
    {
        let description = self.description.copy()?;
        Ok(Aggregate {
            id: self.id,
            block: self.block,
            rir: self.rir,
            description,
        })
    }
}

impl HasId for Aggregate {
    ghost id_of = { λ r. r.id };

    fn id(&self) -> u32 {
        self.id
    }
}
