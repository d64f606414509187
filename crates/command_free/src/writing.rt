//! Blocks as text, one to a line, by pieces of a buffer.

ghost use Rattle.ipam_edge.specs.Faults.{HasCause};
ghost use Rattle.ipam_edge.specs.Writing.{WritesAll};
ghost use Rattle.text_pieces.specs.Pieces.{Puts};
ghost use Rattle.command_free.specs.Free.{line_text_of, lines_text_of};

use arrayvec::ArrayVec;
use inet_num::{Block, block_text};
use ipam_edge::{Failed, Sink, write_all};
use text_pieces::{ROOM, put_both};

/// Puts the line of a block after what the piece has.
fn put_line<Si: Sink>(
    output: &mut Si,
    piece: &mut ArrayVec<u8, ROOM>,
    block: Block,
) -> Result<(), Failed>
    ensures told { Puts (Si.written output.old) (Si.written output.new) piece.old.items piece.new.items (line_text_of block) result }
    ensures cause { HasCause (Si.faults output.old) (Si.faults output.new) result }
{
    let text = block_text(block);
    put_both(output, piece, text.as_str().as_bytes(), b"\n")
}

/// Writes the blocks, one to a line. It takes no memory but its own buffer.
pub(crate) fn write_blocks<Si: Sink>(output: &mut Si, blocks: &[Block]) -> Result<(), Failed>
    ensures told { WritesAll (Si.written output.old) (Si.written output.new) result (lines_text_of blocks.now) }
    ensures cause { HasCause (Si.faults output.old) (Si.faults output.new) result }
{
    let mut piece = ArrayVec::<u8, ROOM>::new();
    for block in blocks {
        put_line(output, &mut piece, *block)?;
    }
    write_all(output, piece.as_slice())
}
