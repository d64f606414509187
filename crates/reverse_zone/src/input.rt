//! The PTR records of an input.

ghost use Rattle.std.specs.Prelude.{◌≡◌, ◌⊎◌, ℕ, IfOk, IfErr};
ghost use Rattle.std.specs.Str.Lines.{lines};
ghost use Rattle.reverse_zone.specs.declared.input.PtrFault.TheVariants.{Line, Memory};
ghost use Rattle.reverse_zone.specs.Records.{is_skipped};
ghost use Rattle.reverse_zone.specs.Inputs.{ArePairsOf, IsFirstRefused};

use crate::record::{Pair, read_record};
use crate::words::first_line;
use std::alloc::{AllocError, AllocFailed, Global};

/// Why an input is not read.
#[derive(Clone, Copy, Debug, PartialEq, Eq)]
pub enum PtrFault {
    /// The line with this number, counted from 1, is the first that is neither skipped nor a PTR record.
    Line(u64),
    /// Memory ran out.
    Memory,
}

impl From<AllocError> for PtrFault {
    ghost use Rattle.std.specs.Prelude.{◌≡◌};
    ghost use Rattle.reverse_zone.specs.declared.input.PtrFault.TheVariants.{Memory};

    ghost from_gives = { λ _ fault. fault ≡ Memory };

    fn from(_: AllocError) -> PtrFault {
        PtrFault::Memory
    }
}

impl<T: Drop> From<AllocFailed<T>> for PtrFault {
    ghost use Rattle.std.specs.Prelude.{◌≡◌};
    ghost use Rattle.reverse_zone.specs.declared.input.PtrFault.TheVariants.{Memory};

    ghost from_gives = { λ _ fault. fault ≡ Memory };

    fn from(_: AllocFailed<T>) -> PtrFault {
        PtrFault::Memory
    }
}

/// Whether the line is skipped: it is empty, or a comment.
fn is_skipped_line(line: &[u8]) -> bool
    ensures { result ≡ is_skipped line.now }
{
    matches!(line, [] | [b';', ..])
}

/// The pairs of an input's PTR records, in order. A line is `OWNER [TTL] IN PTR NAME`, its words separated by spaces or tabs
/// and its letters in either case; empty lines and lines that begin with `;` are skipped. `Line(n)` is the answer exactly
/// if line n, counted from 1, is the first that is none of these; `Memory` may be returned in place of any answer.
pub fn read_ptrs(alloc: Global, bytes: &[u8]) -> Result<Vec<Pair>, PtrFault>
    ensures ok { IfOk result (λ pairs. ArePairsOf (lines bytes.now) pairs.items) }
    ensures err { IfErr result (λ fault. (fault ≡ Memory) ⊎ ((n : ℕ) × (fault ≡ Line n) × IsFirstRefused (lines bytes.now) n)) }
{
    let mut pairs = Vec::new(alloc);
    let mut rest = bytes;
    let mut number = 0;
    while !rest.is_empty() {
        let (line, after) = first_line(rest);
        number += 1;
        if !is_skipped_line(line) {
            let Some(pair) = read_record(alloc, line)? else {
                return Err(PtrFault::Line(number));
            };
            pairs.push(pair)?;
        }
        rest = after;
    }
    Ok(pairs)
}
