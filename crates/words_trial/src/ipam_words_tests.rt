//! The printed words, a case to a line.

use ipam_data::kinds::Kind;
use ipam_data::replies::{FieldName, Part, Refusal, RowFault, Rule, Which};
use ipam_words::{
    address_role_label, address_role_named, address_role_value, address_status_label,
    address_status_named, breach_words, excess_words, field_name, fixed_detail, kind_name,
    next_id_words, prefix_status_label, prefix_status_named, prefix_status_value,
    range_status_label, range_status_named, range_status_value, refusal_line, status,
    unreadable_words, version_words,
};
use std::alloc::{AllocError, Global};
use std::process::Abort;
use std::test::Fail;

/// What commands print of refusals and of openings.
const LINES: &str = "row 3: duplicate: coincides with 1
row 0: field: column is missing or malformed
not_found: prefixes 9 is not there
too_large: the body exceeds 4194304 bytes
keeper: the store could not be written
prefixes 2: duplicate: coincides with 1
prefixes 3: unreadable
version 9
ip-ranges: bad next id
ip-addresses exceed 500000
";

/// Words that name, and words that are shown.
const NAMES: &str = "ip-addresses
within_include
no memory
container Container
reserved Reserved
DHCP
vrrp VRRP
405
";

/// Adds a line.
fn add(text: &mut String, line: Result<String, AllocError>) -> Result<(), AllocError> {
    let line = line?;
    text.push_str(line.as_str())?;
    text.push_str("\n")
}

/// The lines of refusals and of openings.
fn lines(alloc: Global) -> Result<String, AllocError> {
    let mut text = String::new(alloc);
    let duplicate = Refusal::Row(3, RowFault::Rule(Rule::Duplicate(1)));
    add(&mut text, refusal_line(alloc, &duplicate))?;
    let header = Refusal::Row(0, RowFault::Field(FieldName::Column));
    add(&mut text, refusal_line(alloc, &header))?;
    let absent = Refusal::NotFound(Kind::Prefixes, 9);
    add(&mut text, refusal_line(alloc, &absent))?;
    let large = Refusal::TooLarge(Part::Body);
    add(&mut text, refusal_line(alloc, &large))?;
    add(&mut text, refusal_line(alloc, &Refusal::Keeper))?;
    let rule = Rule::Duplicate(1);
    add(&mut text, breach_words(alloc, Kind::Prefixes, 2, &rule))?;
    add(&mut text, unreadable_words(alloc, Kind::Prefixes, 3))?;
    add(&mut text, version_words(alloc, 9))?;
    add(&mut text, next_id_words(alloc, Kind::Ranges))?;
    let addresses = Which::Kind(Kind::Addresses);
    add(&mut text, excess_words(alloc, addresses, 500000))?;
    Ok(text)
}

/// The words that a status or a role is named and shown by, or none if nothing is named so.
fn names(alloc: Global) -> Result<String, AllocError> {
    let mut text = String::new(alloc);
    add(
        &mut text,
        String::from_str(alloc, kind_name(Kind::Addresses)),
    )?;
    add(
        &mut text,
        String::from_str(alloc, field_name(FieldName::WithinInclude)),
    )?;
    add(
        &mut text,
        String::from_str(alloc, fixed_detail(&Refusal::Memory)),
    )?;
    if let Some(word) = prefix_status_named("container") {
        let (value, label) = (prefix_status_value(word), prefix_status_label(word));
        add(&mut text, format!(in alloc; "{value} {label}"))?;
    }
    if let Some(word) = range_status_named("reserved") {
        let (value, label) = (range_status_value(word), range_status_label(word));
        add(&mut text, format!(in alloc; "{value} {label}"))?;
    }
    if let Some(word) = address_status_named("dhcp") {
        add(
            &mut text,
            String::from_str(alloc, address_status_label(word)),
        )?;
    }
    if let Some(word) = address_role_named("vrrp") {
        let (value, label) = (address_role_value(word), address_role_label(word));
        add(&mut text, format!(in alloc; "{value} {label}"))?;
    }
    let code = status(&Refusal::Method).as_u16();
    add(&mut text, format!(in alloc; "{code}"))?;
    Ok(text)
}

#[test]
fn words_are_printed(rt: HostRuntime) -> Result<(), Fail> {
    let alloc = rt.alloc();
    let lines = lines(alloc)?;
    assert_eq!(rt; lines.as_str(), LINES);
    let names = names(alloc)?;
    assert_eq!(rt; names.as_str(), NAMES);
    Ok(())
}
