//! Waiting for bytes.
ghost use Rattle.std.specs.Prelude.{◌≡◌, ◌<◌, ◌≤◌, ◌+◌, ◌++◌, ℕ, List, length};
ghost use Rattle.http_session.specs.Requests.{StopsInHead};
ghost use Rattle.http_session.specs.Steps.{Grown, HasCauseOf, IsPiece, IsPieceRead, IsReadUntil, IsReadWhile, IsShort, IsShortLast, IsStopLast, IsHeadWait, IsBodyWait};

use crate::Fault;
use crate::head::{HEAD_LIMIT, Head, HeadAnswer, look};
use crate::request::Stop;
use ipam_edge::{Failed, Source};
use std::alloc::{AllocError, Global};

/// Why no more bytes were read.
#[derive(Clone, Copy, Debug, PartialEq, Eq)]
pub enum Short {
    End,
    SourceFault,
    Memory,
}

impl From<AllocError> for Short {
    ghost use Rattle.http_session.specs.declared.wait.Short.TheVariants.{Memory};

    ghost from_gives = { λ _ s. s ≡ Memory };

    fn from(_error: AllocError) -> Short {
        Short::Memory
    }
}

/// Adds the next piece of the source. The memory for it is taken first.
fn read_piece<S: Source>(source: &mut S, bytes: &mut Vec<u8>) -> Result<(), Short>
    ensures grown { Grown (S.left source.old) (S.left source.new) bytes.old.items bytes.new.items }
    ensures most { length bytes.new.items ≤ length bytes.old.items + 4096 }
    ensures piece { IsPiece bytes.old.items bytes.new.items (S.left source.new) result }
    ensures read { IsPieceRead S.reads source.old source.new bytes.old.items bytes.new.items result }
    ensures cause { HasCauseOf Short.SourceFault (S.faults source.old) (S.faults source.new) result }
{
    let mut piece = [0u8; 4096];
    bytes.reserve(4096)?;
    let n = match source.read(&mut piece) {
        Ok(n) => n,
        Err(Failed) => return Err(Short::SourceFault),
    };
    if n == 0 {
        return Err(Short::End);
    }
    bytes.extend_from_slice(&piece[..n])?;
    Ok(())
}

/// Reads until a head is at the front, or cannot follow.
pub fn wait_for_head<S: Source>(
    alloc: Global,
    source: &mut S,
    bytes: &mut Vec<u8>,
) -> Result<Head, Stop>
    ensures grown { Grown (S.left source.old) (S.left source.new) bytes.old.items bytes.new.items }
    ensures needed { IsReadWhile StopsInHead bytes.old.items bytes.new.items }
    ensures reads { IsReadUntil S.reads StopsInHead source.old source.new bytes.old.items bytes.new.items (λ last. IsStopLast result last) }
    ensures head { IsHeadWait bytes.new.items (S.left source.new) result }
    ensures cause { HasCauseOf Stop.SourceFault (S.faults source.old) (S.faults source.new) result }
{
    loop {
        match look(alloc, bytes.as_slice()) {
            HeadAnswer::Whole(head) => return Ok(head),
            HeadAnswer::Bad => return Err(Stop::Bad(Fault::BadHead)),
            HeadAnswer::NoMemory => return Err(Stop::Memory),
            HeadAnswer::More => {}
        }
        if bytes.len() >= HEAD_LIMIT {
            return Err(Stop::Bad(Fault::LargeHead));
        }
        match read_piece(source, bytes) {
            Ok(()) => {}
            Err(Short::End) => {
                if bytes.is_empty() {
                    return Err(Stop::End);
                }
                return Err(Stop::Bad(Fault::BadHead));
            }
            Err(Short::SourceFault) => return Err(Stop::SourceFault),
            Err(Short::Memory) => return Err(Stop::Memory),
        }
    }
}

/// Reads until it has so many bytes.
pub fn wait_for_body<S: Source>(
    source: &mut S,
    bytes: &mut Vec<u8>,
    needed: usize,
) -> Result<(), Short>
    ensures grown { Grown (S.left source.old) (S.left source.new) bytes.old.items bytes.new.items }
    ensures needed { IsReadWhile (IsShort needed) bytes.old.items bytes.new.items }
    ensures reads { IsReadUntil S.reads (IsShort needed) source.old source.new bytes.old.items bytes.new.items (λ last. IsShortLast result last) }
    ensures body { IsBodyWait needed bytes.new.items (S.left source.new) result }
    ensures cause { HasCauseOf Short.SourceFault (S.faults source.old) (S.faults source.new) result }
{
    while bytes.len() < needed {
        read_piece(source, bytes)?;
    }
    Ok(())
}
