//! The command `free`: blocks come in, one to a line, and the available blocks of a block given them go out.

ghost use Rattle.std.specs.Prelude.{◌≡◌, ◌≤◌, ◌⊎◌, IfOk, IsErrOf};
ghost use Rattle.std.specs.List.{AllByRecursion};
ghost use Rattle.inet_num.specs.Net.{IsBlock, IsStrictlyInside};
ghost use Rattle.inet_num.specs.Free.{available_blocks_of};
ghost use Rattle.span_set.specs.Blocks.{IsRest};
ghost use Rattle.command_streams.specs.Streams.{streams, told};
ghost use Rattle.command_free.specs.Free.{refusal_text_of, FreeHasOneAnswer, AvailableAreFewest};
ghost use Rattle.command_free.specs.Run.{IsFree, IsFreeEnd, IsNamed};

use crate::lines::read_children;
use crate::writing::write_blocks;
use command_streams::{DONE, FAULT, MEMORY, REFUSED, end_with};
use inet_num::{Block, write_block};
use ipam_edge::{Sink, Source};
use itoa::Buffer;
use span_set::{SpanSet, span_of};
use std::alloc::{AllocError, AllocFailed, Global};

/// Why a line is refused.
#[derive(Clone, Copy, Debug, PartialEq, Eq)]
pub enum LineFault {
    /// It is no block's text, or longer than 64 bytes.
    NotAPrefix,
    /// It is an address with bits set past its length. It carries the block with those bits cleared.
    HostBits(Block),
    /// It names a block that is not strictly inside the one asked for.
    NotInside,
    /// It is after the most lines that an input may have.
    TooManyLines,
}

/// Why `free` stops without an answer on its output.
#[derive(Clone, Copy, Debug, PartialEq, Eq)]
pub enum Stop {
    /// The first refused line: its number, counted from 1, and its fault.
    Line(u32, LineFault),
    /// The input failed, and counted it.
    Unread,
    /// The output failed, and counted it.
    Unwritten,
    /// Out of memory.
    Memory,
}

impl From<AllocError> for Stop {
    ghost use Rattle.std.specs.Prelude.{◌≡◌};
    ghost use Rattle.command_free.specs.declared.free.Stop.TheVariants.{Memory};

    ghost from_gives = { λ _ s. s ≡ Memory };

    fn from(_: AllocError) -> Stop {
        Stop::Memory
    }
}

impl<T: Drop> From<AllocFailed<T>> for Stop {
    ghost use Rattle.std.specs.Prelude.{◌≡◌};
    ghost use Rattle.command_free.specs.declared.free.Stop.TheVariants.{Memory};

    ghost from_gives = { λ _ s. s ≡ Memory };

    fn from(_: AllocFailed<T>) -> Stop {
        Stop::Memory
    }
}

/// The addresses of a block that none of the blocks inside it has.
fn left_of(alloc: Global, within: &Block, children: &[Block]) -> Result<SpanSet, AllocError>
    requires { AllByRecursion (λ c. IsStrictlyInside c within.now) children.now }
    ensures family { IfOk result (λ left. left.family ≡ within.now.family) }
    ensures rest { IfOk result (λ left. IsRest left within.now children.now) }
    ensures lawful { IfOk result (λ _. IsBlock within.now) }
{
    let mut left = SpanSet::new(alloc, within.family());
    left.add(span_of(within))?;
    for child in children {
        left.subtract(span_of(child))?;
    }
    Ok(left)
}

/// The available blocks of a block given blocks inside it, in any order.
fn blocks_left(
    alloc: Global,
    within: &Block,
    mut children: Vec<Block>,
) -> Result<Vec<Block>, AllocError>
    requires { AllByRecursion (λ c. IsStrictlyInside c within.now) children.items }
    ensures { IfOk result (λ v. v.items ≡ available_blocks_of within.now children.items) }
{
    // In the order of their addresses each one takes from the last span only.
    children.sort_unstable_by_key(|child| child.first().value());
    let left = left_of(alloc, within, &children)?;
    left.blocks()
}

/// Reads all lines of the input, and then writes the available blocks.
fn free<So: Source, Si: Sink>(
    alloc: Global,
    within: &Block,
    input: &mut So,
    output: &mut Si,
) -> Result<(), Stop>
    ensures end { IsFreeEnd within.now (told So.left So.faults input.old) (told So.left So.faults input.new)
        (told Si.written Si.faults output.old) (told Si.written Si.faults output.new) result }
    ensures input_later { So.faults input.old ≤ So.faults input.new }
    ensures input_kept { IsErrOf result Stop.Unread ⊎ (So.faults input.new ≡ So.faults input.old) }
    ensures output_later { Si.faults output.old ≤ Si.faults output.new }
{
    let children = read_children(alloc, within, input)?;
    let blocks = blocks_left(alloc, within, children)?;
    match write_blocks(output, &blocks) {
        Ok(()) => Ok(()),
        Err(_) => Err(Stop::Unwritten),
    }
}

/// What is printed for a refused line. `Err` means out of memory.
fn refusal_text(
    alloc: Global,
    within: &Block,
    number: u32,
    fault: LineFault,
) -> Result<Vec<u8>, AllocError>
    ensures { IfOk result (λ v. v.items ≡ refusal_text_of within.now number fault) }
{
    let mut digits = Buffer::new();
    let mut text = Vec::from_slice(alloc, b"line ")?;
    text.extend_from_slice(digits.format(number).as_bytes())?;
    text.extend_from_slice(b": ")?;
    match fault {
        LineFault::NotAPrefix => text.extend_from_slice(b"not a prefix")?,
        LineFault::HostBits(block) => {
            text.extend_from_slice(b"host bits set, the prefix is ")?;
            write_block(block, &mut text)?;
        }
        LineFault::NotInside => {
            text.extend_from_slice(b"not strictly inside ")?;
            write_block(*within, &mut text)?;
        }
        LineFault::TooManyLines => text.extend_from_slice(b"too many lines")?,
    }
    text.push(b'\n')?;
    Ok(text)
}

/// Names the refused line on the messages, and gives the status.
fn name_line<Se: Sink>(
    alloc: Global,
    within: &Block,
    number: u32,
    fault: LineFault,
    errors: &mut Se,
) -> u8
    ensures named { IsNamed within.now number fault (told Se.written Se.faults errors.old) (told Se.written Se.faults errors.new) result }
    ensures later { Se.faults errors.old ≤ Se.faults errors.new }
{
    match refusal_text(alloc, within, number, fault) {
        Ok(text) => end_with(errors, &text, REFUSED),
        Err(_) => MEMORY,
    }
}

/// Runs `free`: the blocks that are left of this one given those that the lines name go to the output, or the first refused line
/// is named on the messages. It gives the status: done, refused, a fault, or out of memory.
pub fn run_free<So: Source, Si: Sink, Se: Sink>(
    alloc: Global,
    within: &Block,
    input: &mut So,
    output: &mut Si,
    errors: &mut Se,
) -> u8
    ensures { IsFree within.now
        (streams (told So.left So.faults input.old) (told Si.written Si.faults output.old) (told Se.written Se.faults errors.old))
        (streams (told So.left So.faults input.new) (told Si.written Si.faults output.new) (told Se.written Se.faults errors.new)) result }
{
    match free(alloc, within, input, output) {
        Ok(()) => DONE,
        Err(Stop::Unread) => FAULT,
        Err(Stop::Unwritten) => FAULT,
        Err(Stop::Memory) => MEMORY,
        Err(Stop::Line(number, fault)) => name_line(alloc, within, number, fault, errors),
    }
}

/// An input has one answer: one output, or one first refused line.
pub fn free_has_one_answer()
    ensures { FreeHasOneAnswer }
{}

/// No list of blocks that has just the addresses which are left of a block is shorter than the list of its available blocks.
pub fn available_are_fewest()
    ensures { AvailableAreFewest }
{}
