//! The texts of reports: the tree of a register's prefixes, the table of their utilisation, and free blocks.
#![tactic(auto)]

ghost use Rattle.std.specs.Prelude.{◌≡◌, ◌+◌, ◌*◌, ◌++◌, ◌∷◌, [], ℕ, List, IfOk, OnOk, OnErr, string_bytes, decimal, map};
ghost use Rattle.inet_num.specs.Net.{size_of};
ghost use Rattle.inet_num.specs.Text.{block_text_of};
ghost use Rattle.ipam_report.specs.Reports.{free_line, free_text, heading, is_headed, left_in, right_in, spaces, table_line, table_name, table_text, tree_line, tree_text};

use inet_num::{Block, Family};
use ipam_data::kinds::{Table, is_one_table};
use ipam_data::survey::PrefixLine;
use ipam_words::prefix_status_value;
use std::alloc::{AllocError, Global};

#[cfg(test)]
mod tests;

/// How many places a block has on a line.
pub const BLOCK_PLACES: usize = 43;

/// The name of a table.
fn name_of_table(alloc: Global, table: Table) -> Result<String, AllocError>
    ensures { IfOk result (λ s. string_bytes s ≡ table_name table) }
{
    match table {
        Table::Global => String::from_str(alloc, "global"),
        Table::Of(id) => format!(in alloc; "vrf {id}"),
    }
}

// ---- places

/// So many spaces.
fn some_spaces(alloc: Global, n: usize) -> Result<Vec<u8>, AllocError>
    ensures { IfOk result (λ v. v.items ≡ spaces n) }
{
    vec![in alloc; b' '; n]
}

/// A text at the left of so many places.
#[tactic(auto, unfolding(crate::specs::Reports::left_in))]
fn left(alloc: Global, text: &[u8], width: usize) -> Result<Vec<u8>, AllocError>
    ensures { IfOk result (λ v. v.items ≡ left_in width text.now) }
{
    let mut line = Vec::new(alloc);
    line.extend_from_slice(text)?;
    let rest = some_spaces(alloc, width.saturating_sub(text.len()))?;
    line.extend_from_slice(&rest)?;
    Ok(line)
}

/// A text at the right of so many places.
#[tactic(auto, unfolding(crate::specs::Reports::right_in))]
fn right(alloc: Global, text: &[u8], width: usize) -> Result<Vec<u8>, AllocError>
    ensures { IfOk result (λ v. v.items ≡ right_in width text.now) }
{
    let mut line = some_spaces(alloc, width.saturating_sub(text.len()))?;
    line.extend_from_slice(text)?;
    Ok(line)
}

// ---- the tree

/// The line of a prefix in a tree.
fn line_of_tree(alloc: Global, line: &PrefixLine) -> Result<Vec<u8>, AllocError>
    ensures { IfOk result (λ v. v.items ≡ tree_line line.now) }
{
    let mut text = some_spaces(alloc, 2 * line.depth as usize + 2)?;
    let block = line.block.to_string(alloc)?;
    text.extend_from_slice(block.as_bytes())?;
    text.push(b' ')?;
    text.extend_from_slice(prefix_status_value(line.status).as_bytes())?;
    text.push(b'\n')?;
    Ok(text)
}

/// Whether the name of a table is before a line: it is not that of the line before.
fn begins_table(before: Option<Table>, table: Table) -> bool
    ensures { result ≡ is_headed before table }
{
    match before {
        None => true,
        Some(before) => !is_one_table(before, table),
    }
}

/// The name of a table on its own line, at its begin.
fn heading_of(alloc: Global, before: Option<Table>, table: Table) -> Result<String, AllocError>
    ensures { IfOk result (λ s. string_bytes s ≡ heading before table) }
{
    if !begins_table(before, table) {
        return Ok(String::new(alloc));
    }
    let name = name_of_table(alloc, table)?;
    format!(in alloc; "{name}\n")
}

/// The whole tree.
fn text_of_tree(alloc: Global, lines: &[PrefixLine]) -> Result<Vec<u8>, AllocError>
    ensures { IfOk result (λ v. v.items ≡ tree_text lines.now) }
{
    let mut text = Vec::new(alloc);
    let mut before = None;
    for line in lines {
        let name = heading_of(alloc, before, line.table)?;
        text.extend_from_slice(name.as_bytes())?;
        let own = line_of_tree(alloc, line)?;
        text.extend_from_slice(&own)?;
        before = Some(line.table);
    }
    Ok(text)
}

/// Puts the tree after what the output has: each table's name, and its prefixes under it.
pub fn tree(alloc: Global, lines: &[PrefixLine], out: &mut Vec<u8>) -> Result<(), AllocError>
    ensures ok { OnOk result (out.new.items ≡ out.old.items ++ tree_text lines.now) }
    ensures err { OnErr result (out.new.items ≡ out.old.items) }
{
    let text = text_of_tree(alloc, lines)?;
    out.extend_from_slice(&text)
}

// ---- the table

/// The line of a prefix in a table.
fn line_of_table(alloc: Global, line: &PrefixLine) -> Result<Vec<u8>, AllocError>
    ensures { IfOk result (λ v. v.items ≡ table_line line.now) }
{
    let block = line.block.to_string(alloc)?;
    let table = name_of_table(alloc, line.table)?;
    let percent = line.percent.to_string(alloc)?;
    let mut text = left(alloc, block.as_bytes(), BLOCK_PLACES)?;
    text.push(b' ')?;
    text.extend_from_slice(&left(alloc, table.as_bytes(), 14)?)?;
    text.push(b' ')?;
    text.extend_from_slice(&left(alloc, prefix_status_value(line.status).as_bytes(), 10)?)?;
    text.push(b' ')?;
    text.extend_from_slice(&right(alloc, percent.as_bytes(), 3)?)?;
    text.push(b'\n')?;
    Ok(text)
}

/// The whole table.
fn text_of_table(alloc: Global, lines: &[PrefixLine]) -> Result<Vec<u8>, AllocError>
    ensures { IfOk result (λ v. v.items ≡ table_text lines.now) }
{
    let mut text = Vec::new(alloc);
    for line in lines {
        let own = line_of_table(alloc, line)?;
        text.extend_from_slice(&own)?;
    }
    Ok(text)
}

/// Puts the table after what the output has: a line for each prefix.
pub fn table(alloc: Global, lines: &[PrefixLine], out: &mut Vec<u8>) -> Result<(), AllocError>
    ensures ok { OnOk result (out.new.items ≡ out.old.items ++ table_text lines.now) }
    ensures err { OnErr result (out.new.items ≡ out.old.items) }
{
    let text = text_of_table(alloc, lines)?;
    out.extend_from_slice(&text)
}

// ---- free blocks

/// The number of a block's addresses, also if no integer of the program holds it.
fn size_text(alloc: Global, block: &Block) -> Result<String, AllocError>
    ensures { IfOk result (λ s. string_bytes s ≡ decimal (size_of block.now)) }
{
    if block.len() > 0 {
        let size = block.size();
        return size.to_string(alloc);
    }
    match block.family() {
        Family::V4 => String::from_str(alloc, "4294967296"),
        Family::V6 => String::from_str(alloc, "340282366920938463463374607431768211456"),
    }
}

/// The line of a free block.
fn line_of_free(alloc: Global, block: &Block) -> Result<Vec<u8>, AllocError>
    ensures { IfOk result (λ v. v.items ≡ free_line block.now) }
{
    let name = block.to_string(alloc)?;
    let size = size_text(alloc, block)?;
    let mut text = left(alloc, name.as_bytes(), BLOCK_PLACES)?;
    text.push(b' ')?;
    text.extend_from_slice(&right(alloc, size.as_bytes(), 39)?)?;
    text.push(b'\n')?;
    Ok(text)
}

/// All lines.
fn text_of_free(alloc: Global, blocks: &[Block]) -> Result<Vec<u8>, AllocError>
    ensures { IfOk result (λ v. v.items ≡ free_text blocks.now) }
{
    let mut text = Vec::new(alloc);
    for block in blocks {
        let own = line_of_free(alloc, block)?;
        text.extend_from_slice(&own)?;
    }
    Ok(text)
}

/// Puts free blocks after what the output has, each with the number of its addresses.
pub fn free(alloc: Global, blocks: &[Block], out: &mut Vec<u8>) -> Result<(), AllocError>
    ensures ok { OnOk result (out.new.items ≡ out.old.items ++ free_text blocks.now) }
    ensures err { OnErr result (out.new.items ≡ out.old.items) }
{
    let text = text_of_free(alloc, blocks)?;
    out.extend_from_slice(&text)
}
