//! RIRs (regional Internet registries, RFC 7020), and whoever else gives out blocks.

ghost use Rattle.std.specs.Prelude.{◌≡◌, ℕ, IfOk};
ghost use Rattle.ipam_data.specs.declared.kinds.Kind.TheVariants.{Rirs};
ghost use Rattle.ipam_data.specs.declared.replies.View.TheVariants.{Rir as RirView};
ghost use Rattle.ipam_data.specs.Rows.{HasRirBounds};
ghost use Rattle.ipam_data.specs.Fields.{drafted, kind_of_draft, edited_rir};

use crate::calls::{Draft, Edit};
use crate::edits::{edited_description, edited_name, edited_slug, edited_value};
use crate::kinds::HasId;
use crate::text::{Description, Name, Slug};
use std::alloc::AllocError;

/// How many RIRs there may be.
pub const MOST_RIRS: u32 = 1000;

/// A registry. Its name and its slug are unique.
#[derive(Debug, Drop)]
pub struct Rir {
    pub id: u32,
    pub name: Name,
    pub slug: Slug,
    pub is_private: bool,
    pub description: Description,
}

impl Rir {
    /// The texts of a row are in their bounds, by their types: a law, for callers that make states of rows.
    pub fn bounds(&self)
        ensures { HasRirBounds self.now }
    {
        self.name.bounds();
        self.slug.bounds();
        self.description.bounds();
    }

    /// The RIR that a draft of one makes under an id. `Err` means out of memory.
    pub fn drafted(id: u32, draft: &Draft) -> Result<Rir, AllocError>
        requires { kind_of_draft draft.now ≡ Rirs }
        ensures { IfOk result (λ row. drafted id draft.now ≡ RirView row) }
    {
        match draft {
            Draft::Rir {
                name,
                slug,
                is_private,
                description,
            } => Ok(Rir {
                id,
                name: name.copy()?,
                slug: slug.copy()?,
                is_private: *is_private,
                description: description.copy()?,
            }),
            _ => unreachable!(),
        }
    }

    /// The RIR that an edit leaves: a field that is not given stays, and an edit of another kind changes nothing. `Err`
    /// means out of memory.
    pub fn edited(&self, edit: &Edit) -> Result<Rir, AllocError>
        ensures { IfOk result (λ row. row ≡ edited_rir edit.now self.now) }
    {
        match edit {
            Edit::Rir {
                name,
                slug,
                is_private,
                description,
            } => Ok(Rir {
                id: self.id,
                name: edited_name(name, &self.name)?,
                slug: edited_slug(slug, &self.slug)?,
                is_private: edited_value(*is_private, self.is_private),
                description: edited_description(description, &self.description)?,
            }),
            _ => self.copy(),
        }
    }

    /// The same row again. `Err` means out of memory.
    pub fn copy(&self) -> Result<Rir, AllocError>
        ensures { IfOk result (λ row. row ≡ self.now) }
    {
        let name = self.name.copy()?;
        let slug = self.slug.copy()?;
        let description = self.description.copy()?;
        Ok(Rir {
            id: self.id,
            name,
            slug,
            is_private: self.is_private,
            description,
        })
    }
}

impl HasId for Rir {
    ghost id_of = { λ r. r.id };

    fn id(&self) -> u32 {
        self.id
    }
}
