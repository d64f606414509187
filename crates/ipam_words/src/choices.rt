//! Statuses, and roles of addresses, in words: the value that names each, and the label that is shown.

ghost use Rattle.std.specs.Prelude.{◌≡◌};
ghost use Rattle.ipam_words.specs.Words as spec;

use ipam_data::address::{AddressRole, AddressStatus};
use ipam_data::prefix::PrefixStatus;
use ipam_data::range::RangeStatus;

/// The status of a prefix by the word that names it.
pub fn prefix_status_value(word: PrefixStatus) -> &'static str
    ensures { result.now ≡ spec.prefix_status_value word }
{
    match word {
        PrefixStatus::Container => "container",
        PrefixStatus::Active => "active",
        PrefixStatus::Reserved => "reserved",
        PrefixStatus::Deprecated => "deprecated",
    }
}

/// The status of a prefix by the word that is shown.
pub fn prefix_status_label(word: PrefixStatus) -> &'static str
    ensures { result.now ≡ spec.prefix_status_label word }
{
    match word {
        PrefixStatus::Container => "Container",
        PrefixStatus::Active => "Active",
        PrefixStatus::Reserved => "Reserved",
        PrefixStatus::Deprecated => "Deprecated",
    }
}

/// The status of a range by the word that names it.
pub fn range_status_value(word: RangeStatus) -> &'static str
    ensures { result.now ≡ spec.range_status_value word }
{
    match word {
        RangeStatus::Active => "active",
        RangeStatus::Reserved => "reserved",
        RangeStatus::Deprecated => "deprecated",
    }
}

/// The status of a range by the word that is shown.
pub fn range_status_label(word: RangeStatus) -> &'static str
    ensures { result.now ≡ spec.range_status_label word }
{
    match word {
        RangeStatus::Active => "Active",
        RangeStatus::Reserved => "Reserved",
        RangeStatus::Deprecated => "Deprecated",
    }
}

/// The status of an address by the word that names it.
pub fn address_status_value(word: AddressStatus) -> &'static str
    ensures { result.now ≡ spec.address_status_value word }
{
    match word {
        AddressStatus::Active => "active",
        AddressStatus::Reserved => "reserved",
        AddressStatus::Deprecated => "deprecated",
        AddressStatus::Dhcp => "dhcp",
        AddressStatus::Slaac => "slaac",
    }
}

/// The status of an address by the word that is shown.
pub fn address_status_label(word: AddressStatus) -> &'static str
    ensures { result.now ≡ spec.address_status_label word }
{
    match word {
        AddressStatus::Active => "Active",
        AddressStatus::Reserved => "Reserved",
        AddressStatus::Deprecated => "Deprecated",
        AddressStatus::Dhcp => "DHCP",
        AddressStatus::Slaac => "SLAAC",
    }
}

/// The role of an address by the word that names it.
pub fn address_role_value(word: AddressRole) -> &'static str
    ensures { result.now ≡ spec.address_role_value word }
{
    match word {
        AddressRole::Loopback => "loopback",
        AddressRole::Secondary => "secondary",
        AddressRole::Anycast => "anycast",
        AddressRole::Vip => "vip",
        AddressRole::Vrrp => "vrrp",
        AddressRole::Hsrp => "hsrp",
        AddressRole::Glbp => "glbp",
        AddressRole::Carp => "carp",
    }
}

/// The role of an address by the word that is shown.
pub fn address_role_label(word: AddressRole) -> &'static str
    ensures { result.now ≡ spec.address_role_label word }
{
    match word {
        AddressRole::Loopback => "Loopback",
        AddressRole::Secondary => "Secondary",
        AddressRole::Anycast => "Anycast",
        AddressRole::Vip => "VIP",
        AddressRole::Vrrp => "VRRP",
        AddressRole::Hsrp => "HSRP",
        AddressRole::Glbp => "GLBP",
        AddressRole::Carp => "CARP",
    }
}

/// The status of a prefix that a word names.
pub fn prefix_status_named(word: &str) -> Option<PrefixStatus>
    ensures { result ≡ spec.prefix_status_named word.now }
{
    match word {
        "container" => Some(PrefixStatus::Container),
        "active" => Some(PrefixStatus::Active),
        "reserved" => Some(PrefixStatus::Reserved),
        "deprecated" => Some(PrefixStatus::Deprecated),
        _ => None,
    }
}

/// The status of a range that a word names.
pub fn range_status_named(word: &str) -> Option<RangeStatus>
    ensures { result ≡ spec.range_status_named word.now }
{
    match word {
        "active" => Some(RangeStatus::Active),
        "reserved" => Some(RangeStatus::Reserved),
        "deprecated" => Some(RangeStatus::Deprecated),
        _ => None,
    }
}

/// The status of an address that a word names.
pub fn address_status_named(word: &str) -> Option<AddressStatus>
    ensures { result ≡ spec.address_status_named word.now }
{
    match word {
        "active" => Some(AddressStatus::Active),
        "reserved" => Some(AddressStatus::Reserved),
        "deprecated" => Some(AddressStatus::Deprecated),
        "dhcp" => Some(AddressStatus::Dhcp),
        "slaac" => Some(AddressStatus::Slaac),
        _ => None,
    }
}

/// The role of an address that a word names.
pub fn address_role_named(word: &str) -> Option<AddressRole>
    ensures { result ≡ spec.address_role_named word.now }
{
    match word {
        "loopback" => Some(AddressRole::Loopback),
        "secondary" => Some(AddressRole::Secondary),
        "anycast" => Some(AddressRole::Anycast),
        "vip" => Some(AddressRole::Vip),
        "vrrp" => Some(AddressRole::Vrrp),
        "hsrp" => Some(AddressRole::Hsrp),
        "glbp" => Some(AddressRole::Glbp),
        "carp" => Some(AddressRole::Carp),
        _ => None,
    }
}
