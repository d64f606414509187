//! The lines of an input as its bytes come.

ghost use Rattle.std.specs.Prelude.{◌≡◌, ◌≢◌, ℕ, ◌+◌, ◌<◌, ◌≤◌, ◌⊎◌, ◌++◌, ◌∷◌, [], List, Ok, Err, length, MatchResult, MatchOption, IfOk, OnOk, IsErrOf};
ghost use Rattle.std.specs.Option.{option_to_list};
ghost use Rattle.std.specs.Str.Lines.{strip_carriage_return};
ghost use Rattle.ipam_edge.specs.Faults.{Rose};
ghost use Rattle.inet_num.specs.Net.{Cidr};
ghost use Rattle.command_free.specs.Free.{most_lines};
ghost use Rattle.command_free.specs.Reading.{line_fault_of, IsEnded, IsVerdict, Names, IsReading, StopsWhatever, StopsAtEnd, HasRead, IsRead};

use crate::free::{LineFault, Stop};
use arrayvec::ArrayVec;
use inet_num::{Block, TextFault, read_block};
use ipam_edge::{Failed, Source};
use std::alloc::{AllocError, Global};

/// How many lines an input may have.
const MOST_LINES: u32 = 200_000;

/// How many bytes a line may have, its carriage return among them.
const LONGEST: usize = 65;

/// How many bytes are read at once.
const PIECE: usize = 32_768;

/// What the lines so far have named, and the line that has not ended yet.
#[derive(Drop)]
pub(crate) struct Lines {
    children: Vec<Block>,
    ended: u32,
    line: ArrayVec<u8, LONGEST>,
    long: bool,
}

/// The line without the one carriage return at its end, if it has one.
fn without_return(line: &[u8]) -> &[u8]
    ensures { result.now ≡ strip_carriage_return line.now }
{
    match line {
        [front @ .., b'\r'] => front,
        _ => line,
    }
}

/// Why a line is refused whose text has this fault.
fn line_fault(fault: TextFault) -> LineFault
    ensures { result ≡ line_fault_of fault }
{
    match fault {
        TextFault::HostBits(block) => LineFault::HostBits(block),
        _ => LineFault::NotAPrefix,
    }
}

/// The block that the line with this number names, or `None` if it is empty.
fn verdict(within: &Block, number: u32, line: &[u8], long: bool) -> Result<Option<Block>, LineFault>
    ensures { (whole : List ℕ) → IsEnded whole line.now long → IsVerdict within.now number whole result }
{
    if number > MOST_LINES {
        return Err(LineFault::TooManyLines);
    }
    if long || line.len() > 64 {
        return Err(LineFault::NotAPrefix);
    }
    if line.is_empty() {
        return Ok(None);
    }
    match read_block(line) {
        Ok(block) => {
            if block.strictly_inside(within) {
                Ok(Some(block))
            } else {
                Err(LineFault::NotInside)
            }
        }
        Err(fault) => Err(line_fault(fault)),
    }
}

/// Keeps the block that a line names, if it names one.
fn keep(children: &mut Vec<Block>, found: Option<Block>) -> Result<(), AllocError>
    ensures { OnOk result (children.new.items ≡ children.old.items ++ option_to_list found) }
{
    if let Some(child) = found {
        children.push(child)?;
    }
    Ok(())
}

impl Lines {
    /// No line yet.
    fn new(alloc: Global) -> Lines
        ensures { (within : Cidr) → IsReading within [] result }
    {
        Lines {
            children: Vec::new(alloc),
            ended: 0,
            line: ArrayVec::new(),
            long: false,
        }
    }

    /// Ends the line that was begun, at a line feed.
    fn feed(&mut self, within: &Block) -> Result<(), Stop>
        ensures { (bytes : List ℕ) → IsReading within.now bytes self.old → MatchResult result (λ _. IsReading within.now (bytes ++ 10 ∷ []) self.new) (StopsWhatever within.now (bytes ++ 10 ∷ [])) }
    {
        let number = self.ended.saturating_add(1);
        let line = without_return(self.line.as_slice());
        let found = match verdict(within, number, line, self.long) {
            Ok(found) => found,
            Err(fault) => return Err(Stop::Line(number, fault)),
        };
        keep(&mut self.children, found)?;
        self.ended = number;
        self.line.clear();
        self.long = false;
        Ok(())
    }

    /// Takes the next byte.
    fn take(&mut self, within: &Block, byte: u8) -> Result<(), Stop>
        ensures { (bytes : List ℕ) → IsReading within.now bytes self.old → MatchResult result (λ _. IsReading within.now (bytes ++ byte ∷ []) self.new) (StopsWhatever within.now (bytes ++ byte ∷ [])) }
    {
        if byte == b'\n' {
            return self.feed(within);
        }
        if self.line.is_full() {
            self.long = true;
        } else {
            self.line.push(byte);
        }
        Ok(())
    }

    /// Ends the last line, which may lack its line feed, and gives the blocks that the lines name.
    fn finish(mut self, within: &Block) -> Result<Vec<Block>, Stop>
        ensures { (bytes : List ℕ) → IsReading within.now bytes self → MatchResult result (λ children. HasRead within.now bytes children.items) (StopsAtEnd within.now bytes) }
    {
        if self.line.is_empty() {
            return Ok(self.children);
        }
        let number = self.ended.saturating_add(1);
        let found = match verdict(within, number, self.line.as_slice(), self.long) {
            Ok(found) => found,
            Err(fault) => return Err(Stop::Line(number, fault)),
        };
        keep(&mut self.children, found)?;
        Ok(self.children)
    }
}

/// Takes the bytes of a piece.
fn take_piece(lines: &mut Lines, within: &Block, piece: &[u8]) -> Result<(), Stop>
    ensures { (bytes : List ℕ) → IsReading within.now bytes lines.old → MatchResult result (λ _. IsReading within.now (bytes ++ piece.now) lines.new) (StopsWhatever within.now (bytes ++ piece.now)) }
{
    for byte in piece {
        if let Err(stop) = lines.take(within, *byte) {
            return Err(stop);
        }
    }
    Ok(())
}

/// The blocks that the lines of the input name, in their order.
pub(crate) fn read_children<So: Source>(
    alloc: Global,
    within: &Block,
    input: &mut So,
) -> Result<Vec<Block>, Stop>
    ensures read { IsRead within.now (So.left input.old) (So.left input.new) (So.faults input.old) (So.faults input.new) result }
    ensures later { So.faults input.old ≤ So.faults input.new }
    ensures kept { IsErrOf result Stop.Unread ⊎ (So.faults input.new ≡ So.faults input.old) }
{
    let mut piece = [0u8; PIECE];
    let mut lines = Lines::new(alloc);
    'pieces: for _ in 0..u64::MAX {
        let Ok(n) = input.read(&mut piece) else {
            return Err(Stop::Unread);
        };
        if n == 0 {
            return lines.finish(within);
        }
        if let Err(stop) = take_piece(&mut lines, within, &piece[..n]) {
            return Err(stop);
        }
    }
    Err(Stop::Memory)
}
