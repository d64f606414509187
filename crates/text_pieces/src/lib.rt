//! Texts on an output, written by pieces of one buffer. It takes no memory.
#![tactic(auto)]

ghost use Rattle.std.specs.Prelude.{◌≡◌, ◌++◌, [], OnOk, OnErr};
ghost use Rattle.ipam_edge.specs.Faults.{HasCause};
ghost use Rattle.ipam_edge.specs.Writing.{AppendsFront};
ghost use Rattle.text_pieces.specs.Pieces.{Passes, Puts};

use arrayvec::ArrayVec;
use ipam_edge::{Failed, Sink, write_all};

/// How many bytes are written at once, if no text is longer.
pub const ROOM: usize = 32_768;

/// Writes the piece, and empties it.
fn pass<Si: Sink>(output: &mut Si, piece: &mut ArrayVec<u8, ROOM>) -> Result<(), Failed>
    ensures told { OnOk result (Passes (Si.written output.old) (Si.written output.new) piece.old.items [] []) }
    ensures empty { OnOk result (piece.new.items ≡ []) }
    ensures front { OnErr result (AppendsFront (Si.written output.old) (Si.written output.new) piece.old.items) }
    ensures cause { HasCause (Si.faults output.old) (Si.faults output.new) result }
{
    write_all(output, piece.as_slice())?;
    piece.clear();
    Ok(())
}

/// Writes the piece, and puts a text into it; one for which no piece has room is written at once.
fn put_behind<Si: Sink>(
    output: &mut Si,
    piece: &mut ArrayVec<u8, ROOM>,
    text: &[u8],
) -> Result<(), Failed>
    ensures told { Puts (Si.written output.old) (Si.written output.new) piece.old.items piece.new.items text.now result }
    ensures cause { HasCause (Si.faults output.old) (Si.faults output.new) result }
{
    pass(output, piece)?;
    match piece.try_extend_from_slice(text) {
        Ok(()) => Ok(()),
        Err(_) => write_all(output, text),
    }
}

/// Puts a text after what the piece has. A piece without room for it is written first. The one error is that a write failed: a prefix of both
/// was written then.
pub fn put<Si: Sink>(
    output: &mut Si,
    piece: &mut ArrayVec<u8, ROOM>,
    text: &[u8],
) -> Result<(), Failed>
    ensures told { Puts (Si.written output.old) (Si.written output.new) piece.old.items piece.new.items text.now result }
    ensures cause { HasCause (Si.faults output.old) (Si.faults output.new) result }
{
    match piece.try_extend_from_slice(text) {
        Ok(()) => Ok(()),
        Err(_) => put_behind(output, piece, text),
    }
}

/// Puts two texts after what the piece has, as `put` does.
pub fn put_both<Si: Sink>(
    output: &mut Si,
    piece: &mut ArrayVec<u8, ROOM>,
    first: &[u8],
    second: &[u8],
) -> Result<(), Failed>
    ensures told { Puts (Si.written output.old) (Si.written output.new) piece.old.items piece.new.items (first.now ++ second.now) result }
    ensures cause { HasCause (Si.faults output.old) (Si.faults output.new) result }
{
    put(output, piece, first)?;
    put(output, piece, second)
}
