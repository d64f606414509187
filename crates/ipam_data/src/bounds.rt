//! What drafts, edits and calls keep by their types: laws, for callers that make states of them.

ghost use Rattle.std.specs.Prelude.{◌≡◌};
ghost use Rattle.std.specs.List.{AllByRecursion};
ghost use Rattle.inet_num.specs.Net.{IsBlock};
ghost use Rattle.ipam_data.specs.Texts.{IsWeight};
ghost use Rattle.ipam_data.specs.Hosts.{IsMasked};
ghost use Rattle.ipam_data.specs.Steps.{Given, IsDistinguisherToo, HasDraftBounds, HasEditBounds, HasBlockItemBounds, HasAddrItemBounds, HasCallBounds};

use crate::calls::{AddrItem, AddrItems, BlockItem, BlockItems, Call, Draft, Edit};
use crate::host::Host;
use crate::text::{Bounded, Bounds, Distinguisher, Weight};
use crate::vrf::distinguisher_bounds;
use inet_num::Block;

/// A text that is given is within its bounds.
fn text_bounds<B: Bounds>(field: &Option<Bounded<B>>)
    ensures { Given B.admits field.now }
{
    if let Some(text) = field {
        text.bounds();
    }
}

/// A route distinguisher that is given is one, or none.
fn given_distinguisher_bounds(field: &Option<Option<Distinguisher>>)
    ensures { Given IsDistinguisherToo field.now }
{
    if let Some(rd) = field {
        distinguisher_bounds(rd);
    }
}

/// A weight that is given is one.
fn weight_bounds(field: &Option<Weight>)
    ensures { Given IsWeight field.now }
{
    if let Some(weight) = field {
        weight.bounds();
    }
}

/// A block that is given is one.
fn block_bounds(field: Option<Block>)
    ensures { Given IsBlock field }
{
    if let Some(block) = field {
        block.bounds();
    }
}

/// The mask of a host that is given fits it.
fn host_bounds(field: Option<Host>)
    ensures { Given IsMasked field }
{
    if let Some(host) = field {
        host.bounds();
    }
}

impl Draft {
    /// The blocks, hosts and texts of a draft are in their bounds, by their types.
    pub fn bounds(&self)
        ensures { HasDraftBounds self.now }
    {
        match self {
            Draft::Vrf {
                name,
                rd,
                description,
                ..
            } => {
                name.bounds();
                distinguisher_bounds(rd);
                description.bounds();
            }
            Draft::Rir {
                name,
                slug,
                description,
                ..
            } => {
                name.bounds();
                slug.bounds();
                description.bounds();
            }
            Draft::Role {
                name,
                slug,
                weight,
                description,
            } => {
                name.bounds();
                slug.bounds();
                weight.bounds();
                description.bounds();
            }
            Draft::Aggregate {
                block,
                description,
                ..
            } => {
                block.bounds();
                description.bounds();
            }
            Draft::Prefix {
                block,
                description,
                ..
            } => {
                block.bounds();
                description.bounds();
            }
            Draft::IpRange {
                start,
                end,
                description,
                ..
            } => {
                start.bounds();
                end.bounds();
                description.bounds();
            }
            Draft::IpAddress {
                host,
                dns_name,
                description,
                ..
            } => {
                host.bounds();
                dns_name.bounds();
                description.bounds();
            }
        }
    }
}

impl Edit {
    /// The blocks, hosts and texts of an edit are in their bounds, by their types.
    pub fn bounds(&self)
        ensures { HasEditBounds self.now }
    {
        match self {
            Edit::Vrf {
                name,
                rd,
                description,
                ..
            } => {
                text_bounds(name);
                given_distinguisher_bounds(rd);
                text_bounds(description);
            }
            Edit::Rir {
                name,
                slug,
                description,
                ..
            } => {
                text_bounds(name);
                text_bounds(slug);
                text_bounds(description);
            }
            Edit::Role {
                name,
                slug,
                weight,
                description,
            } => {
                text_bounds(name);
                text_bounds(slug);
                weight_bounds(weight);
                text_bounds(description);
            }
            Edit::Aggregate {
                block,
                description,
                ..
            } => {
                block_bounds(*block);
                text_bounds(description);
            }
            Edit::Prefix {
                block,
                description,
                ..
            } => {
                block_bounds(*block);
                text_bounds(description);
            }
            Edit::IpRange {
                start,
                end,
                description,
                ..
            } => {
                host_bounds(*start);
                host_bounds(*end);
                text_bounds(description);
            }
            Edit::IpAddress {
                host,
                dns_name,
                description,
                ..
            } => {
                host_bounds(*host);
                text_bounds(dns_name);
                text_bounds(description);
            }
        }
    }
}

impl BlockItem {
    /// The description of an item is in its bounds, by its type.
    pub fn bounds(&self)
        ensures { HasBlockItemBounds self.now }
    {
        self.description.bounds();
    }
}

impl AddrItem {
    /// The texts of an item are in their bounds, by their types.
    pub fn bounds(&self)
        ensures { HasAddrItemBounds self.now }
    {
        self.dns_name.bounds();
        self.description.bounds();
    }
}

impl BlockItems {
    /// Each item is in its bounds, by its type.
    pub fn bounds(&self)
        ensures { AllByRecursion HasBlockItemBounds self.now }
    {
        let items = self.as_slice();
        for item in items {
            item.bounds();
        }
    }
}

impl AddrItems {
    /// Each item is in its bounds, by its type.
    pub fn bounds(&self)
        ensures { AllByRecursion HasAddrItemBounds self.now }
    {
        let items = self.as_slice();
        for item in items {
            item.bounds();
        }
    }
}

impl Call {
    /// What a call holds is in its bounds, by its types.
    pub fn bounds(&self)
        ensures { HasCallBounds self.now }
    {
        match self {
            Call::List {
                kind: _,
                filter: _,
                limit: _,
                offset: _,
            } => {}
            Call::Get { kind: _, id: _ } => {}
            Call::Create { draft } => draft.bounds(),
            Call::Change { id: _, edit } => edit.bounds(),
            Call::Delete { kind: _, id: _ } => {}
            Call::Blocks { id: _, limit: _ } => {}
            Call::PrefixAddrs { id: _, limit: _ } => {}
            Call::RangeAddrs { id: _, limit: _ } => {}
            Call::ClaimBlocks {
                id: _,
                answered: _,
                items,
            } => items.bounds(),
            Call::ClaimPrefixAddrs {
                id: _,
                answered: _,
                items,
            } => items.bounds(),
            Call::ClaimRangeAddrs {
                id: _,
                answered: _,
                items,
            } => items.bounds(),
            Call::Utilization { kind: _, id: _ } => {}
            Call::Import { kind: _, rows } => rows.bounds(),
            Call::Export { kind: _ } => {}
            Call::Survey => {}
        }
    }
}
