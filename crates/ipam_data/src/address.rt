//! Addresses: single hosts with a mask.

ghost use Rattle.std.specs.Prelude.{◌≡◌, ℕ, IfOk};
ghost use Rattle.ipam_data.specs.declared.kinds.Kind.TheVariants.{Addresses};
ghost use Rattle.ipam_data.specs.declared.replies.View.TheVariants.{IpAddress as AddressView};
ghost use Rattle.ipam_data.specs.Rows.{HasAddressBounds, address_status_number, address_role_number};
ghost use Rattle.ipam_data.specs.Fields.{drafted, kind_of_draft, edited_address};

use crate::calls::{Draft, Edit};
use crate::edits::{edited_description, edited_dns_name, edited_value};
use crate::host::Host;
use crate::kinds::HasId;
use crate::text::{Description, DnsName};
use std::alloc::AllocError;

/// How many addresses there may be.
pub const MOST_ADDRESSES: u32 = 500_000;

/// What an address is used for. `Slaac` is for IPv6 alone.
#[derive(Clone, Copy, Debug)]
pub enum AddressStatus {
    Active,
    Reserved,
    Deprecated,
    Dhcp,
    Slaac,
}

impl AddressStatus {
    /// Its place in the list of them.
    pub fn number(self) -> u32
        ensures { result ≡ address_status_number self }
    {
        match self {
            AddressStatus::Active => 0,
            AddressStatus::Reserved => 1,
            AddressStatus::Deprecated => 2,
            AddressStatus::Dhcp => 3,
            AddressStatus::Slaac => 4,
        }
    }
}

/// The role of an address. The last six may share a host.
#[derive(Clone, Copy, Debug)]
pub enum AddressRole {
    Loopback,
    Secondary,
    Anycast,
    Vip,
    Vrrp,
    Hsrp,
    Glbp,
    Carp,
}

impl AddressRole {
    /// Its place in the list of them.
    pub fn number(self) -> u32
        ensures { result ≡ address_role_number self }
    {
        match self {
            AddressRole::Loopback => 0,
            AddressRole::Secondary => 1,
            AddressRole::Anycast => 2,
            AddressRole::Vip => 3,
            AddressRole::Vrrp => 4,
            AddressRole::Hsrp => 5,
            AddressRole::Glbp => 6,
            AddressRole::Carp => 7,
        }
    }
}

/// An address. It is in the table of its VRF, or in the global one; its mask counts for nothing there.
#[derive(Debug, Drop)]
pub struct IpAddress {
    pub id: u32,
    pub host: Host,
    pub vrf: Option<u32>,
    pub status: AddressStatus,
    pub role: Option<AddressRole>,
    pub dns_name: DnsName,
    pub description: Description,
}

impl IpAddress {
    /// The mask and the texts of a row are in their bounds, by their types: a law, for callers that make states of rows.
    pub fn bounds(&self)
        ensures { HasAddressBounds self.now }
    {
        self.host.bounds();
        self.dns_name.bounds();
        self.description.bounds();
    }

    /// The address that a draft of one makes under an id. `Err` means out of memory.
    pub fn drafted(id: u32, draft: &Draft) -> Result<IpAddress, AllocError>
        requires { kind_of_draft draft.now ≡ Addresses }
        ensures { IfOk result (λ row. drafted id draft.now ≡ AddressView row) }
    {
        match draft {
            Draft::IpAddress {
                host,
                vrf,
                status,
                role,
                dns_name,
                description,
            } => Ok(IpAddress {
                id,
                host: *host,
                vrf: *vrf,
                status: *status,
                role: *role,
                dns_name: dns_name.lowered()?,
                description: description.copy()?,
            }),
            _ => unreachable!(),
        }
    }

    /// The address that an edit leaves: a field that is not given stays, and an edit of another kind changes nothing. `Err`
    /// means out of memory.
    pub fn edited(&self, edit: &Edit) -> Result<IpAddress, AllocError>
        ensures { IfOk result (λ row. row ≡ edited_address edit.now self.now) }
    {
        match edit {
            Edit::IpAddress {
                host,
                vrf,
                status,
                role,
                dns_name,
                description,
            } => Ok(IpAddress {
                id: self.id,
                host: edited_value(*host, self.host),
                vrf: edited_value(*vrf, self.vrf),
                status: edited_value(*status, self.status),
                role: edited_value(*role, self.role),
                dns_name: edited_dns_name(dns_name, &self.dns_name)?,
                description: edited_description(description, &self.description)?,
            }),
            _ => self.copy(),
        }
    }

    /// The same row again. `Err` means out of memory.
    pub fn copy(&self) -> Result<IpAddress, AllocError>
        ensures { IfOk result (λ row. row ≡ self.now) }
    {
        let dns_name = self.dns_name.copy()?;
        let description = self.description.copy()?;
        Ok(IpAddress {
            id: self.id,
            host: self.host,
            vrf: self.vrf,
            status: self.status,
            role: self.role,
            dns_name,
            description,
        })
    }
}

impl HasId for IpAddress {
    ghost id_of = { λ r. r.id };

    fn id(&self) -> u32 {
        self.id
    }
}
