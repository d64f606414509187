//! Ranges: runs of addresses of one table.

ghost use Rattle.std.specs.Prelude.{◌≡◌, ℕ, None, IfOk};
ghost use Rattle.ipam_data.specs.declared.kinds.Kind.TheVariants.{Ranges};
ghost use Rattle.ipam_data.specs.declared.replies.View.TheVariants.{IpRange as RangeView};
ghost use Rattle.ipam_data.specs.Rows.{HasRangeBounds, range_status_number};
ghost use Rattle.ipam_data.specs.Checks.{first};
ghost use Rattle.ipam_data.specs.Ranges.{range_told, ends_of};
ghost use Rattle.ipam_data.specs.Fields.{drafted, kind_of_draft, told_of_draft, edited_range, told_of_change, start_of, end_of};

use crate::calls::{Draft, Edit};
use crate::edits::{edited_description, edited_value};
use crate::host::{Ends, Host};
use crate::kinds::HasId;
use crate::text::Description;
use std::alloc::AllocError;

/// How many ranges there may be.
pub const MOST_RANGES: u32 = 10_000;

/// What a range is used for.
#[derive(Clone, Copy, Debug)]
pub enum RangeStatus {
    Active,
    Reserved,
    Deprecated,
}

impl RangeStatus {
    /// Its place in the list of them.
    pub fn number(self) -> u32
        ensures { result ≡ range_status_number self }
    {
        match self {
            RangeStatus::Active => 0,
            RangeStatus::Reserved => 1,
            RangeStatus::Deprecated => 2,
        }
    }
}

/// A range: all addresses from its start to its end. It is in the table of its VRF, or in the global one. `mark_utilized` says
/// that it counts as full, and `mark_populated` that somebody else fills it: its addresses are not given out.
#[derive(Debug, Drop)]
pub struct IpRange {
    pub id: u32,
    pub ends: Ends,
    pub vrf: Option<u32>,
    pub status: RangeStatus,
    pub role: Option<u32>,
    pub mark_utilized: bool,
    pub mark_populated: bool,
    pub description: Description,
}

/// The ends with the mask of the first, of which nothing is said.
fn ends(start: Host, end: Host) -> Ends
    requires { first (range_told start end) ≡ None }
    ensures { result ≡ ends_of start end }
{
    match Ends::of(start.addr(), end.addr(), start.len()) {
        Some(ends) => ends,
        None => unreachable!(),
    }
}

impl IpRange {
    /// The ends and the description of a row are in their bounds, by their types: a law, for callers that make states of
    /// rows.
    pub fn bounds(&self)
        ensures { HasRangeBounds self.now }
    {
        self.ends.bounds();
        self.description.bounds();
    }

    /// The range that a draft of one makes under an id, if its ends are of one family and have one mask. `Err` means out
    /// of memory.
    pub fn drafted(id: u32, draft: &Draft) -> Result<IpRange, AllocError>
        requires kind { kind_of_draft draft.now ≡ Ranges }
        requires told { first (told_of_draft draft.now) ≡ None }
        ensures { IfOk result (λ row. drafted id draft.now ≡ RangeView row) }
    {
        match draft {
            Draft::IpRange {
                start,
                end,
                vrf,
                status,
                role,
                mark_utilized,
                mark_populated,
                description,
            } => Ok(IpRange {
                id,
                ends: ends(*start, *end),
                vrf: *vrf,
                status: *status,
                role: *role,
                mark_utilized: *mark_utilized,
                mark_populated: *mark_populated,
                description: description.copy()?,
            }),
            _ => unreachable!(),
        }
    }

    /// Its start with its mask.
    pub fn start(&self) -> Host
        ensures { result ≡ start_of self.now }
    {
        match Host::of(self.ends.start(), self.ends.len()) {
            Some(host) => host,
            None => unreachable!(),
        }
    }

    /// Its end with its mask.
    pub fn end(&self) -> Host
        ensures { result ≡ end_of self.now }
    {
        match Host::of(self.ends.end(), self.ends.len()) {
            Some(host) => host,
            None => unreachable!(),
        }
    }

    /// The range that an edit leaves, if its ends are of one family and have one mask: a field that is not given stays, an end
    /// that is not given keeps the row's mask, and an edit of another kind changes nothing. `Err` means out of memory.
    pub fn edited(&self, edit: &Edit) -> Result<IpRange, AllocError>
        requires { first (told_of_change edit.now self.now) ≡ None }
        ensures { IfOk result (λ row. row ≡ edited_range edit.now self.now) }
    {
        match edit {
            Edit::IpRange {
                start,
                end,
                vrf,
                status,
                role,
                mark_utilized,
                mark_populated,
                description,
            } => Ok(IpRange {
                id: self.id,
                ends: ends(
                    edited_value(*start, self.start()),
                    edited_value(*end, self.end()),
                ),
                vrf: edited_value(*vrf, self.vrf),
                status: edited_value(*status, self.status),
                role: edited_value(*role, self.role),
                mark_utilized: edited_value(*mark_utilized, self.mark_utilized),
                mark_populated: edited_value(*mark_populated, self.mark_populated),
                description: edited_description(description, &self.description)?,
            }),
            _ => self.copy(),
        }
    }

    /// The same row again. `Err` means out of memory.
    pub fn copy(&self) -> Result<IpRange, AllocError>
        ensures { IfOk result (λ row. row ≡ self.now) }
    {
        let description = self.description.copy()?;
        Ok(IpRange {
            id: self.id,
            ends: self.ends,
            vrf: self.vrf,
            status: self.status,
            role: self.role,
            mark_utilized: self.mark_utilized,
            mark_populated: self.mark_populated,
            description,
        })
    }
}

impl HasId for IpRange {
    ghost id_of = { λ r. r.id };

    fn id(&self) -> u32 {
        self.id
    }
}
