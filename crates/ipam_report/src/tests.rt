//! The reports of two prefixes, and of a free block.

use crate::{free, table, tree};
use inet_num::{Block, read_block};
use ipam_data::kinds::Table;
use ipam_data::prefix::PrefixStatus;
use ipam_data::survey::PrefixLine;
use std::alloc::{AllocError, Global};
use std::test::Fail;

/// The three reports, one after another.
const TEXT: &str = "global
  10.0.0.0/16 container
    10.0.0.0/24 active
10.0.0.0/16                                 global         container    0
10.0.0.0/24                                 global         active       0
10.0.1.0/24                                                                     256
";

/// The block of a text, or out of memory.
fn block(text: &str) -> Result<Block, AllocError> {
    match read_block(text.as_bytes()) {
        Ok(block) => Ok(block),
        Err(_) => Err(AllocError),
    }
}

/// The lines of two prefixes of the global table.
fn two(alloc: Global) -> Result<Vec<PrefixLine>, AllocError> {
    let mut lines = Vec::new(alloc);
    lines.push(PrefixLine {
        table: Table::Global,
        depth: 0,
        block: block("10.0.0.0/16")?,
        status: PrefixStatus::Container,
        percent: 0,
    })?;
    lines.push(PrefixLine {
        table: Table::Global,
        depth: 1,
        block: block("10.0.0.0/24")?,
        status: PrefixStatus::Active,
        percent: 0,
    })?;
    Ok(lines)
}

/// The three reports.
fn reports(alloc: Global) -> Result<Vec<u8>, AllocError> {
    let lines = two(alloc)?;
    let mut blocks = Vec::new(alloc);
    blocks.push(block("10.0.1.0/24")?)?;
    let mut text = Vec::new(alloc);
    tree(alloc, &lines, &mut text)?;
    table(alloc, &lines, &mut text)?;
    free(alloc, &blocks, &mut text)?;
    Ok(text)
}

#[test]
fn reports_are_written(rt: HostRuntime) -> Result<(), Fail> {
    let text = reports(rt.alloc())?;
    assert!(rt; text.as_slice() == TEXT.as_bytes());
    Ok(())
}
