//! Rules of one range, and the pass over all for those that it crosses.

ghost use Rattle.std.specs.Prelude.{◌≡◌, ◌∷◌, [], find, option_copied};
ghost use Rattle.ipam_data.specs.RowList.{is_rival, least, least_rival};
ghost use Rattle.ipam_data.specs.Rows.{range_id};
ghost use Rattle.ipam_data.specs.Checks.{first};
ghost use Rattle.ipam_data.specs.Ranges.{crosses, is_populated_at};
ghost use Rattle.ip_ranges.specs.Spans.{own_rules};

use inet_num::{Addr, is_one_family};
use ipam_data::kinds::{Table, is_one_table};
use ipam_data::range::IpRange;
use ipam_data::replies::Rule;

/// The first rule that a range breaks by itself.
pub fn own_fault(row: &IpRange) -> Option<Rule>
    ensures { result ≡ first (own_rules row.now) }
{
    if !is_one_family(row.ends.start().family(), row.ends.end().family()) {
        return Some(Rule::RangeFamily);
    }
    if row.ends.len() == 0 {
        return Some(Rule::ZeroMask);
    }
    let first = row.ends.start().value();
    let last = row.ends.end().value();
    if last <= first {
        return Some(Rule::RangeOrder);
    }
    if last - first >= 4_294_967_295 {
        return Some(Rule::RangeSize);
    }
    None
}

/// Whether the two are of one table and family, and neither ends before the other begins.
fn is_crossing(row: &IpRange, other: &IpRange) -> bool
    ensures { result ≡ crosses row.now other.now }
{
    is_one_table(Table::of(other.vrf), Table::of(row.vrf))
        && is_one_family(other.ends.start().family(), row.ends.start().family())
        && other.ends.start().value() <= row.ends.end().value()
        && row.ends.start().value() <= other.ends.end().value()
}

/// Whether it is so, and the other one has another id.
fn is_another(row: &IpRange, other: &IpRange) -> bool
    ensures { result ≡ is_rival range_id crosses row.now other.now }
{
    other.id != row.id && is_crossing(row, other)
}

/// The first such row.
fn first_crossing<'a>(rows: &'a [IpRange], row: &IpRange) -> Option<&'a IpRange>
    ensures { option_copied result ≡ find (is_rival range_id crosses row.now) rows.now }
{
    rows.iter().find(|other| is_another(row, other))
}

/// The least id of another range that crosses this one, by a pass over all.
pub fn least_crossing(rows: &[IpRange], row: &IpRange) -> Option<u32>
    ensures { result ≡ least_rival range_id crosses rows.now row.now }
{
    match first_crossing(rows, row) {
        Some(other) => Some(other.id),
        None => None,
    }
}

/// Whether somebody else fills the range, it is of the table and it has the address.
fn is_filled(row: &IpRange, table: Table, host: Addr) -> bool
    ensures { result ≡ is_populated_at table host row.now }
{
    row.mark_populated
        && is_one_table(Table::of(row.vrf), table)
        && is_one_family(row.ends.start().family(), host.family())
        && row.ends.start().value() <= host.value()
        && host.value() <= row.ends.end().value()
}

/// The first such range.
fn first_populated(rows: &[IpRange], table: Table, host: Addr) -> Option<&IpRange>
    ensures { option_copied result ≡ find (is_populated_at table host) rows.now }
{
    rows.iter().find(|row| is_filled(row, table, host))
}

/// The least id of such a range, by a pass over all.
pub fn least_populated(rows: &[IpRange], table: Table, host: Addr) -> Option<u32>
    ensures { result ≡ least range_id (is_populated_at table host) rows.now }
{
    match first_populated(rows, table, host) {
        Some(row) => Some(row.id),
        None => None,
    }
}
