//! An input that is read whole: the bytes of a file that is brought in, up to a limit.

ghost use Rattle.std.specs.Prelude.{◌≡◌, ◌≤◌, ◌⊎◌, IfOk, IsErrOf};
ghost use Rattle.ipam_edge.specs.Faults.{Rose};
ghost use Rattle.ipam_edge.specs.Whole.{IsWhole, IsTooLong};
ghost use Rattle.ipam_edge.specs.declared.whole.Unread.TheVariants as unread;

use crate::Source;
use std::alloc::{AllocError, Global};

/// How many bytes are read at once.
const PIECE: usize = 32_768;

/// Why an input was not read whole.
#[derive(Clone, Copy, Debug, PartialEq, Eq)]
pub enum Unread {
    /// It failed, and counted it.
    Failed,
    /// It has more bytes than the limit. It is not read to its end.
    TooLong,
    /// Out of memory.
    Memory,
}

impl From<AllocError> for Unread {
    ghost use Rattle.std.specs.Prelude.{◌≡◌};
    ghost use Rattle.ipam_edge.specs.declared.whole.Unread.TheVariants.{Memory};

    ghost from_gives = { λ _ s. s ≡ Memory };

    fn from(_: AllocError) -> Unread {
        Unread::Memory
    }
}

/// Reads an input to its end, and gives its bytes, of which there may be at most `most`. `Err` is `Failed` only if the input's count
/// of faults rose, which it does in no other case, `TooLong` only if it has more bytes, of which then at most a piece was read beyond
/// the limit, and else `Memory`.
pub fn read_whole<So: Source>(alloc: Global, input: &mut So, most: usize) -> Result<Vec<u8>, Unread>
    ensures whole { IfOk result (λ v. IsWhole most (So.left input.old) (So.left input.new) v.items) }
    ensures long { IsErrOf result unread.TooLong → IsTooLong most (So.left input.old) }
    ensures failed { IsErrOf result unread.Failed → Rose (So.faults input.old) (So.faults input.new) }
    ensures kept { IsErrOf result unread.Failed ⊎ (So.faults input.new ≡ So.faults input.old) }
    ensures later { So.faults input.old ≤ So.faults input.new }
{
    let mut piece = [0u8; PIECE];
    let mut bytes = Vec::new(alloc);
    'pieces: for _ in 0..u64::MAX {
        let Ok(n) = input.read(&mut piece) else {
            return Err(Unread::Failed);
        };
        if n == 0 {
            return Ok(bytes);
        }
        bytes.extend_from_slice(&piece[..n])?;
        if bytes.len() > most {
            return Err(Unread::TooLong);
        }
    }
    Err(Unread::Memory)
}
