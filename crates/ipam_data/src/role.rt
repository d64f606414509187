//! Roles that prefixes and ranges may have.

ghost use Rattle.std.specs.Prelude.{◌≡◌, ℕ, IfOk};
ghost use Rattle.ipam_data.specs.declared.kinds.Kind.TheVariants.{Roles};
ghost use Rattle.ipam_data.specs.declared.replies.View.TheVariants.{Role as RoleView};
ghost use Rattle.ipam_data.specs.Rows.{HasRoleBounds};
ghost use Rattle.ipam_data.specs.Fields.{drafted, kind_of_draft, edited_role};

use crate::calls::{Draft, Edit};
use crate::edits::{edited_description, edited_name, edited_slug, edited_weight};
use crate::kinds::HasId;
use crate::text::{Description, Name, Slug, Weight};
use std::alloc::AllocError;

/// How many roles there may be.
pub const MOST_ROLES: u32 = 1000;

/// A role. Its name and its slug are unique.
#[derive(Debug, Drop)]
pub struct Role {
    pub id: u32,
    pub name: Name,
    pub slug: Slug,
    pub weight: Weight,
    pub description: Description,
}

impl Role {
    /// The weight and the texts of a row are in their bounds, by their types: a law, for callers that make states of rows.
    pub fn bounds(&self)
        ensures { HasRoleBounds self.now }
    {
        self.name.bounds();
        self.slug.bounds();
        self.weight.bounds();
        self.description.bounds();
    }

    /// The role that a draft of one makes under an id. `Err` means out of memory.
    pub fn drafted(id: u32, draft: &Draft) -> Result<Role, AllocError>
        requires { kind_of_draft draft.now ≡ Roles }
        ensures { IfOk result (λ row. drafted id draft.now ≡ RoleView row) }
    {
        match draft {
            Draft::Role {
                name,
                slug,
                weight,
                description,
            } => Ok(Role {
                id,
                name: name.copy()?,
                slug: slug.copy()?,
                weight: *weight,
                description: description.copy()?,
            }),
            _ => unreachable!(),
        }
    }

    /// The role that an edit leaves: a field that is not given stays, and an edit of another kind changes nothing. `Err`
    /// means out of memory.
    pub fn edited(&self, edit: &Edit) -> Result<Role, AllocError>
        ensures { IfOk result (λ row. row ≡ edited_role edit.now self.now) }
    {
        match edit {
            Edit::Role {
                name,
                slug,
                weight,
                description,
            } => Ok(Role {
                id: self.id,
                name: edited_name(name, &self.name)?,
                slug: edited_slug(slug, &self.slug)?,
                weight: edited_weight(weight, self.weight),
                description: edited_description(description, &self.description)?,
            }),
            _ => self.copy(),
        }
    }

    /// The same row again. `Err` means out of memory.
    pub fn copy(&self) -> Result<Role, AllocError>
        ensures { IfOk result (λ row. row ≡ self.now) }
    {
        let name = self.name.copy()?;
        let slug = self.slug.copy()?;
        let description = self.description.copy()?;
        Ok(Role {
            id: self.id,
            name,
            slug,
            weight: self.weight,
            description,
        })
    }
}

impl HasId for Role {
    ghost id_of = { λ r. r.id };

    fn id(&self) -> u32 {
        self.id
    }
}
