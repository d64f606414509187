//! The tables of a file: one of ranges, one of members, and the numbers with the next id of each. There is no version among the numbers, so
//! that a register of addresses, whose files have one, refuses a file of pools.

use number_pools::PoolKind;

/// The name of the number with the next range's id.
pub(crate) const NEXT_RANGE: &str = "next_ranges";

/// The name of the number with the next member's id.
pub(crate) const NEXT_MEMBER: &str = "next_members";

/// Makes the table of ranges.
pub(crate) const CREATE_RANGES: &str =
    "CREATE TABLE ranges (id INTEGER PRIMARY KEY, kind TEXT NOT NULL, name TEXT NOT NULL, first INTEGER NOT NULL, last INTEGER NOT NULL) STRICT";

/// Makes the table of members.
pub(crate) const CREATE_MEMBERS: &str =
    "CREATE TABLE members (id INTEGER PRIMARY KEY, range INTEGER NOT NULL, number INTEGER NOT NULL, name TEXT NOT NULL) STRICT";

/// Reads all ranges by id.
pub(crate) const SELECT_RANGES: &str = "SELECT id, kind, name, first, last FROM ranges ORDER BY id";

/// Reads all members by id.
pub(crate) const SELECT_MEMBERS: &str = "SELECT id, range, number, name FROM members ORDER BY id";

/// Adds a range. An id that a range has is refused.
pub(crate) const ADD_RANGE: &str =
    "INSERT INTO ranges (id, kind, name, first, last) VALUES (?, ?, ?, ?, ?)";

/// Adds a member. An id that a member has is refused.
pub(crate) const ADD_MEMBER: &str =
    "INSERT INTO members (id, range, number, name) VALUES (?, ?, ?, ?)";

/// Deletes a range.
pub(crate) const CUT_RANGE: &str = "DELETE FROM ranges WHERE id = ?";

/// Deletes a member.
pub(crate) const CUT_MEMBER: &str = "DELETE FROM members WHERE id = ?";

/// Gives a range another name and other bounds: its kind stays.
pub(crate) const CHANGE_RANGE: &str =
    "UPDATE ranges SET name = ?, first = ?, last = ? WHERE id = ?";

/// Gives a member another name: its range and its number stay.
pub(crate) const CHANGE_MEMBER: &str = "UPDATE members SET name = ? WHERE id = ?";

/// A kind as it is stored.
pub(crate) fn kind_text(kind: PoolKind) -> &'static str {
    match kind {
        PoolKind::Asn => "asn",
        PoolKind::Vlan => "vlan",
    }
}

/// The kind that is stored as this.
pub(crate) fn kind_of(text: &str) -> Option<PoolKind> {
    match text {
        "asn" => Some(PoolKind::Asn),
        "vlan" => Some(PoolKind::Vlan),
        _ => None,
    }
}
