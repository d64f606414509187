//! Stored rows that are read and those that are not, by the formats of their columns.

use ipam_data::kinds::Kind;
use std::alloc::{AllocError, Global};
use std::test::Fail;
use stored_tables::reading::read_row;
use stored_tables::tables::{Row, Text, Texts};
use stored_tables::writing::write_row;

/// A case a line: whether the row is read, its kind, its id, and its texts, in which a hyphen is the empty one.
const CASES: &str = "\
yes vrfs 1 red 65000:1 true -
yes vrfs 4294967295 red - false note
no vrfs 0 red - true -
no vrfs 1 red - True -
no vrfs 1 - - true -
no vrfs 1 red - true
no vrfs 1 red - true - -
yes rirs 3 ARIN arin true -
no rirs 3 ARIN a.b false -
yes roles 4 office office 32767 -
yes roles 4 office office 0 -
no roles 4 office office 01000 -
no roles 4 office office 32768 -
yes aggregates 5 10.0.0.0/8 1 -
yes aggregates 5 2001:db8::/32 4294967295 -
no aggregates 5 10.0.0.1/8 1 -
no aggregates 5 10.0.0.0/8 - -
no aggregates 5 2001:DB8::/32 1 -
no aggregates 5 2001:db8:0::/32 1 -
no aggregates 5 10.0.0.0/8 4294967296 -
no aggregates 5 10.0.0.0/8 +1 -
yes prefixes 1 10.0.0.0/24 - active - false false -
yes prefixes 6 10.0.0.0/8 1 container 2 false true -
yes prefixes 6 ::/0 - deprecated - true false note
no prefixes 6 10.0.0.0/8 007 container 2 false true -
no prefixes 6 10.0.0.0/8 1 Container - false true -
no prefixes 6 10.0.0.0/8 1 dhcp - false true -
yes ranges 7 10.0.0.1/24 10.0.0.9/24 - active - false false -
yes ranges 7 10.0.0.1/24 10.0.0.9/24 - active - false true note
yes ranges 7 10.0.0.9/24 2001:db8::1/24 1 reserved 2 true false -
no ranges 7 10.0.0.1/24 10.0.0.9/24 - active - false -
no ranges 7 10.0.0.1/24 10.0.0.9/24 - active - false yes -
no ranges 7 10.0.0.1/24 10.0.0.9/25 - active - false false -
no ranges 7 10.0.0.1 10.0.0.9/24 - active - false false -
no ranges 7 10.0.0.1/24 10.0.0.9/24 - container - false false -
yes addresses 8 192.0.2.1/24 - slaac vip a.example -
yes addresses 8 2001:db8::1/64 3 dhcp - - host
no addresses 8 192.0.2.1/33 - active - - -
no addresses 8 192.0.2.1/024 - active - - -
no addresses 8 192.0.2.1/24 - active - A.example -
no addresses 8 192.0.2.1/24 - active vrp - -
";

fn kind_named(name: &str) -> Kind {
    match name {
        "vrfs" => Kind::Vrfs,
        "rirs" => Kind::Rirs,
        "roles" => Kind::Roles,
        "aggregates" => Kind::Aggregates,
        "prefixes" => Kind::Prefixes,
        "ranges" => Kind::Ranges,
        _ => Kind::Addresses,
    }
}

/// The row of a line, after its first word. An id that is no number fails as for lack of memory.
fn row_of_line(alloc: Global, line: &str) -> Result<Row, AllocError> {
    let mut words = line.split(' ').skip(1);
    let kind = kind_named(words.next().unwrap_or(""));
    let id = words
        .next()
        .unwrap_or("")
        .parse::<u32>()
        .map_err(|_| AllocError)?;
    let mut fields = Vec::new(alloc);
    for word in words {
        let text = if word == "-" { "" } else { word };
        fields.push(Text::of(String::from_str(alloc, text)?))?;
    }
    Ok(Row {
        kind,
        id,
        fields: Texts::of(fields),
    })
}

/// Whether two rows are of one kind and id, with the same texts.
fn are_alike(one: &Row, other: &Row) -> bool {
    let (texts, others) = (one.fields.as_slice(), other.fields.as_slice());
    let mut is_alike = one.kind == other.kind && one.id == other.id && texts.len() == others.len();
    for (text, other) in texts.iter().zip(others) {
        is_alike = is_alike && text.as_str() == other.as_str();
    }
    is_alike
}

/// Whether the row is read, written again as it was, and read again as the same view.
fn is_read(alloc: Global, row: &Row) -> Result<bool, AllocError> {
    let view = match read_row(alloc, row)? {
        Some(view) => view,
        None => return Ok(false),
    };
    let again = write_row(alloc, &view)?;
    let twice = read_row(alloc, &again)?;
    let found = format!(in alloc; "{twice:?}")?;
    let wanted = format!(in alloc; "{:?}", Some(view))?;
    Ok(are_alike(&again, row) && found.as_str() == wanted.as_str())
}

#[test]
fn rows_are_read_as_they_are_written(rt: HostRuntime) -> Result<(), Fail> {
    for line in CASES.lines() {
        let row = row_of_line(rt.alloc(), line)?;
        let read = is_read(rt.alloc(), &row)?;
        assert!(rt; read == line.starts_with("yes"), "{line}");
    }
    Ok(())
}
