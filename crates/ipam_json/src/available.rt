//! Lists of what is available: blocks, and addresses.

ghost use Rattle.std.specs.Prelude.{◌≡◌};
ghost use Rattle.inet_num.specs.Text.{block_text_of};
ghost use Rattle.ipam_json.specs.Replies.{addr_data, block_data, list_data};
ghost use Rattle.ipam_json.specs.Values as spec;
ghost use Rattle.ipam_json.specs.Written.{Puts, pieces_of, rows_pieces};

use crate::writing::{put_family, put_reference, put_text};
use inet_num::{Addr, Block, block_text, host_text};
use ipam_data::replies::FieldName;
use json::Writer;
use std::alloc::AllocError;

/// Writes an available block, which has this text.
fn put_block_with(
    writer: &mut Writer,
    vrf: Option<u32>,
    block: Block,
    text: &str,
) -> Result<(), AllocError>
    requires { text.now ≡ block_text_of block }
    ensures { Puts result writer.old writer.new (pieces_of (block_data vrf block)) }
{
    writer.begin_object()?;
    put_family(writer, block.family())?;
    put_text(writer, FieldName::Prefix, text)?;
    put_reference(writer, FieldName::Vrf, vrf)?;
    writer.end_object()
}

/// Writes an available block of the table of a VRF, or of the global one.
fn put_block(writer: &mut Writer, vrf: Option<u32>, block: Block) -> Result<(), AllocError>
    ensures { Puts result writer.old writer.new (pieces_of (block_data vrf block)) }
{
    put_block_with(writer, vrf, block, block_text(block).as_str())
}

/// Writes available blocks one after another.
fn put_each_block(writer: &mut Writer, vrf: Option<u32>, blocks: &[Block]) -> Result<(), AllocError>
    ensures { Puts result writer.old writer.new (rows_pieces (block_data vrf) blocks.now) }
{
    for block in blocks {
        put_block(writer, vrf, *block)?;
    }
    Ok(())
}

/// Writes available blocks as an array.
pub(crate) fn put_blocks(
    writer: &mut Writer,
    vrf: Option<u32>,
    blocks: &[Block],
) -> Result<(), AllocError>
    ensures { Puts result writer.old writer.new (pieces_of (list_data (block_data vrf) blocks.now)) }
{
    writer.begin_array()?;
    put_each_block(writer, vrf, blocks)?;
    writer.end_array()
}

/// Writes an available address, which has this text with its mask.
fn put_addr_with(
    writer: &mut Writer,
    vrf: Option<u32>,
    len: u8,
    addr: Addr,
    text: &str,
) -> Result<(), AllocError>
    requires { text.now ≡ spec.host_text addr len }
    ensures { Puts result writer.old writer.new (pieces_of (addr_data vrf len addr)) }
{
    writer.begin_object()?;
    put_text(writer, FieldName::Address, text)?;
    put_family(writer, addr.family())?;
    put_reference(writer, FieldName::Vrf, vrf)?;
    writer.end_object()
}

/// Writes an available address of the table of a VRF, or of the global one, with this mask.
fn put_addr(writer: &mut Writer, vrf: Option<u32>, len: u8, addr: Addr) -> Result<(), AllocError>
    ensures { Puts result writer.old writer.new (pieces_of (addr_data vrf len addr)) }
{
    put_addr_with(writer, vrf, len, addr, host_text(addr, len).as_str())
}

/// Writes available addresses one after another.
fn put_each_addr(
    writer: &mut Writer,
    vrf: Option<u32>,
    len: u8,
    addrs: &[Addr],
) -> Result<(), AllocError>
    ensures { Puts result writer.old writer.new (rows_pieces (addr_data vrf len) addrs.now) }
{
    for addr in addrs {
        put_addr(writer, vrf, len, *addr)?;
    }
    Ok(())
}

/// Writes available addresses as an array.
pub(crate) fn put_addrs(
    writer: &mut Writer,
    vrf: Option<u32>,
    len: u8,
    addrs: &[Addr],
) -> Result<(), AllocError>
    ensures { Puts result writer.old writer.new (pieces_of (list_data (addr_data vrf len) addrs.now)) }
{
    writer.begin_array()?;
    put_each_addr(writer, vrf, len, addrs)?;
    writer.end_array()
}
