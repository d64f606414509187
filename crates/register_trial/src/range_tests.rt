//! Ranges in two tables: what the book answers of them, their spans, and their pieces.
//!
//! The addresses are of 10.0.0.0/24 (RFC 1918).

ghost use Rattle.std.specs.Prelude.{◌≡◌, ◌+◌, ◌<◌, ◌≤◌, IfSome, OnOk};
ghost use Rattle.ipam_data.specs.RowList.{AllBelow};
ghost use Rattle.ipam_data.specs.Rows.{range_id};
ghost use Rattle.ipam_data.specs.Lawful.{IsRange};

use inet_num::{Addr, Block, Family, write_block};
use ip_ranges::{RangeBook, SpanKind};
use ipam_data::host::Ends;
use ipam_data::kinds::Table;
use ipam_data::range::{IpRange, RangeStatus};
use ipam_data::replies::Rule;
use ipam_data::text::Description;
use placed_book::Book;
use std::alloc::{AllocError, Global};
use std::process::Abort;
use std::test::Fail;

/// A range of 10.0.0.0/24, in the table of a VRF or the global one.
fn range(
    alloc: Global,
    id: u32,
    first: u8,
    last: u8,
    vrf: Option<u32>,
    mark_utilized: bool,
    mark_populated: bool,
) -> Option<IpRange>
    requires { first < last }
    ensures id { IfSome result (λ row. row.id ≡ id) }
    ensures range { IfSome result (λ row. IsRange row) }
{
    let start = Addr::of(Family::V4, 0x0a000000 + u128::from(first))?;
    let end = Addr::of(Family::V4, 0x0a000000 + u128::from(last))?;
    let ends = Ends::of(start, end, 24)?;
    let description = Description::of(String::new(alloc))?;
    let row = IpRange {
        id,
        ends,
        vrf,
        status: RangeStatus::Active,
        role: None,
        mark_utilized,
        mark_populated,
        description,
    };
    row.bounds();
    Some(row)
}

/// Puts in a row above all.
fn add(book: &mut RangeBook, row: IpRange) -> Result<(), AllocError>
    requires id { 1 ≤ row.id }
    requires above { AllBelow range_id row.id book.old.rows }
    ensures below { OnOk result (AllBelow range_id (row.id + 1) book.new.rows) }
{
    if book.len() > 1000 {
        return Err(AllocError);
    }
    book.reserve(1)?;
    book.put(row);
    Ok(())
}

/// The id that a refusal for an overlap carries, or 0.
fn overlap_of(fault: Option<Rule>) -> u32 {
    match fault {
        Some(Rule::RangeOverlap(id)) => id,
        _ => 0,
    }
}

/// The id of the populated range that has an address of 10.0.0.0/24, or 0.
fn populated_of(book: &RangeBook, table: Table, last: u8) -> u32 {
    match Addr::of(Family::V4, 0x0a000000 + u128::from(last)) {
        Some(host) => book.populated(table, host).unwrap_or(0),
        None => 0,
    }
}

/// Two ranges of the global table and one of another, and what further ones may do next to them.
fn check_book(
    rt: &impl Abort,
    alloc: Global,
    rows: (IpRange, IpRange, IpRange),
    touching: &IpRange,
    beside: &IpRange,
    across: &IpRange,
) -> Result<(), Fail>
    requires first { rows.0.id ≡ 1 }
    requires second { rows.1.id ≡ 2 }
    requires third { rows.2.id ≡ 3 }
{
    let mut book = RangeBook::new(alloc);
    add(&mut book, rows.0)?;
    add(&mut book, rows.1)?;
    add(&mut book, rows.2)?;
    assert!(rt;
        overlap_of(book.fault(touching)) == 3,
        "one address in both"
    );
    assert!(rt; book.fault(beside).is_none(), "none between the two");
    assert!(rt; overlap_of(book.fault(across)) == 1, "the least id");
    assert!(rt;
        populated_of(&book, Table::Of(7), 19) == 2,
        "the last address"
    );
    assert!(rt;
        populated_of(&book, Table::Of(7), 20) == 0,
        "none behind it"
    );
    assert!(rt; populated_of(&book, Table::Global, 19) == 0, "no mark");
    assert!(rt;
        populated_of(&book, Table::Global, 30) == 3,
        "the first address"
    );
    assert!(rt; book.cut(1).is_some(), "it is there");
    assert!(rt; overlap_of(book.fault(across)) == 3, "the other one");
    Ok(())
}

#[test]
fn three_ranges_in_two_tables(rt: HostRuntime) -> Result<(), Fail> {
    let first = range(rt.alloc(), 1, 10, 19, None, false, false).ok_or("no row")?;
    let second = range(rt.alloc(), 2, 10, 19, Some(7), false, true).ok_or("no row")?;
    let third = range(rt.alloc(), 3, 30, 39, None, true, true).ok_or("no row")?;
    let touching = range(rt.alloc(), 4, 39, 40, None, false, false).ok_or("no row")?;
    let beside = range(rt.alloc(), 4, 20, 29, None, false, false).ok_or("no row")?;
    let across = range(rt.alloc(), 4, 0, 255, None, false, false).ok_or("no row")?;
    check_book(
        &rt,
        rt.alloc(),
        (first, second, third),
        &touching,
        &beside,
        &across,
    )
}

/// The pieces of a range, by the book that has it.
fn pieces_in_book(alloc: Global, row: IpRange) -> Result<Vec<Block>, AllocError>
    requires id { row.id ≡ 1 }
    requires range { IsRange row }
{
    let mut book = RangeBook::new(alloc);
    book.reserve(1)?;
    book.put(row);
    book.pieces(1)
}

/// Blocks as their texts, each with a blank after it.
fn told(alloc: Global, blocks: &[Block]) -> Result<String, Fail> {
    let mut text = Vec::new(alloc);
    for block in blocks {
        write_block(*block, &mut text)?;
        text.push(b' ')?;
    }
    Ok(String::from_utf8(text)?)
}

#[test]
fn pieces_of_ten_addresses(rt: HostRuntime) -> Result<(), Fail> {
    let row = range(rt.alloc(), 1, 10, 19, None, false, false).ok_or("no row")?;
    let pieces = pieces_in_book(rt.alloc(), row)?;
    let told = told(rt.alloc(), &pieces)?;
    assert_eq!(rt; told.as_str(), "10.0.0.10/31 10.0.0.12/30 10.0.0.16/30 ");
    Ok(())
}
