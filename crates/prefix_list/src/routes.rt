//! The entries of a prefix list, by the routes that they let in.

ghost use Rattle.std.specs.Prelude.{◌≡◌, ◌≤◌, ◌&&◌, nat_le, ◌++◌, ◌∷◌, [], map, IfOk, OnOk};
ghost use Rattle.std.specs.List.{AllByRecursion};
ghost use Rattle.std.specs.List.Sorted.{IsPermutation, IsSortedByKey};
ghost use Rattle.inet_num.specs.Net.{IsBlock};
ghost use Rattle.inet_num.specs.Blocks.{is_block_inside};
ghost use Rattle.prefix_list.specs.Lists.{AreOf, HaveOneFamily};
ghost use Rattle.prefix_list.specs.Routes.{AreExact, AreOutermost, exactly};
ghost use Rattle.prefix_list.specs.Choices.{covers, kept_of, place_of, place_cmp, upto_of};

use inet_num::{Block, is_block_inside};
use std::alloc::{AllocError, Global};

/// An entry of a prefix list: it lets in the routes inside the block that are no longer than `most`.
#[derive(Clone, Copy, Debug)]
pub struct Entry {
    pub block: Block,
    pub most: u8,
}

/// The entry that lets in the block alone.
fn exactly(block: Block) -> Entry
    ensures is { result ≡ exactly block }
    ensures lawful { IsBlock block }
{
    let most = block.len();
    Entry { block, most }
}

/// An entry for each block, which lets in that block alone. The one error means out of memory.
pub fn exact_entries(alloc: Global, blocks: &[Block]) -> Result<Vec<Entry>, AllocError>
    ensures entries { IfOk result (λ v. v.items ≡ map exactly blocks.now) }
    ensures lawful { IfOk result (λ v. AllByRecursion IsBlock blocks.now) }
{
    let mut entries = Vec::new(alloc);
    'each: for block in blocks {
        entries.push(exactly(*block))?;
    }
    Ok(entries)
}

/// An entry for each block that is no longer than `most`, up to that length.
fn entries_up_to(alloc: Global, most: u8, blocks: &[Block]) -> Result<Vec<Entry>, AllocError>
    ensures entries { IfOk result (λ v. v.items ≡ upto_of most blocks.now) }
    ensures lawful { IfOk result (λ v. AllByRecursion IsBlock blocks.now) }
{
    let mut entries = Vec::new(alloc);
    'each: for block in blocks {
        if block.len() <= most {
            entries.push(Entry {
                block: *block,
                most,
            })?;
        }
    }
    Ok(entries)
}

/// Puts entries in the order of their blocks: by the first address, and a block before those inside it.
fn sort(entries: &mut Vec<Entry>)
    ensures same { IsPermutation entries.old.items entries.new.items }
    ensures sorted { IsSortedByKey place_of place_cmp entries.new.items }
{
    entries.sort_unstable_by_key(|entry| (entry.block.first().value(), entry.block.len()));
}

/// Whether an entry lets in all that another one does.
fn covers(entry: &Entry, other: &Entry) -> bool
    ensures { result ≡ covers entry.now other.now }
{
    is_block_inside(&other.block, &entry.block) && other.most <= entry.most
}

/// The entries that the last one kept before them does not cover.
fn kept(alloc: Global, entries: &[Entry]) -> Result<Vec<Entry>, AllocError>
    ensures { IfOk result (λ v. v.items ≡ kept_of entries.now) }
{
    let mut kept = Vec::new(alloc);
    let [first, rest @ ..] = entries else {
        return Ok(kept);
    };
    kept.push(*first)?;
    let mut last = *first;
    'each: for entry in rest {
        if !covers(&last, entry) {
            kept.push(*entry)?;
            last = *entry;
        }
    }
    Ok(kept)
}

/// The entries that let in exactly these blocks: one for each block, once, in the order of their addresses, and a block before those inside it. The
/// blocks have one family and are in any order. The one error means out of memory.
pub fn route_entries(alloc: Global, blocks: &[Block]) -> Result<Vec<Entry>, AllocError>
    requires { HaveOneFamily blocks.now }
    ensures exact { IfOk result (λ v. AreExact blocks.now v.items) }
{
    let mut entries = exact_entries(alloc, blocks)?;
    sort(&mut entries);
    kept(alloc, &entries)
}

/// The entries that let in exactly the routes that one of these blocks contains and that are no longer than `most`: the outermost blocks, in the
/// order of their addresses. The blocks have one family and are in any order. The one error means out of memory.
pub fn outermost(alloc: Global, most: u8, blocks: &[Block]) -> Result<Vec<Entry>, AllocError>
    requires { HaveOneFamily blocks.now }
    ensures outermost { IfOk result (λ v. AreOutermost most blocks.now v.items) }
{
    let mut entries = entries_up_to(alloc, most, blocks)?;
    sort(&mut entries);
    kept(alloc, &entries)
}
