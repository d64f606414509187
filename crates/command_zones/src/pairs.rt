//! The command `reverse-read`.

ghost use Rattle.std.specs.Prelude.{◌≡◌, ◌≤◌, ◌⊎◌, ◌++◌, IfOk, IfErr, IsErrOf, OnOk, string_bytes};
ghost use Rattle.command_streams.specs.Streams.{streams, told};
ghost use Rattle.command_zones.specs.Pairs.{pair_text_of, pairs_text_of, GivesPairs, IsReadStop, IsStopBy, IsPairsSaid, IsReverseRead};
ghost use Rattle.command_zones.specs.Pairs.{long_text, read_refusal_text, NamesReadRefusal, IsReadStopSaid};

use command_streams::{DONE, FAULT, MEMORY, REFUSED, end_with};
use inet_num::write_addr;
use ipam_data::replies::{Part, Refusal};
use ipam_edge::{Sink, Source, Unread, read_whole};
use ipam_words::refusal_line;
use reverse_zone::{Pair, PtrFault, read_ptrs};
use std::alloc::{AllocError, Global};

/// How many bytes an input may have.
const MOST_BYTES: usize = 4_194_304;

/// The names of the columns.
const HEADER: &[u8] = b"address,dns_name\n";

/// Why an input has no pairs, if a message says it.
#[derive(Clone, Copy, Debug)]
pub enum ReadRefusal {
    /// It has more bytes than the limit.
    TooLong,
    /// The line with this number, counted from 1, is the first that is no PTR line.
    Line(u64),
}

/// Why an input gives no pairs.
#[derive(Clone, Copy, Debug)]
pub enum ReadStop {
    /// It failed, and counted it.
    Unread,
    /// It is refused.
    Refused(ReadRefusal),
    /// Out of memory.
    Memory,
}

/// What stops the reading if lines are not read.
fn stop_by(fault: PtrFault) -> ReadStop
    ensures { IsStopBy fault result }
{
    match fault {
        PtrFault::Line(number) => ReadStop::Refused(ReadRefusal::Line(number)),
        PtrFault::Memory => ReadStop::Memory,
    }
}

/// Reads the whole input as PTR lines.
fn read_pairs<So: Source>(alloc: Global, input: &mut So) -> Result<Vec<Pair>, ReadStop>
    ensures pairs { IfOk result (λ v. GivesPairs (told So.left So.faults input.old) (told So.left So.faults input.new) v.items) }
    ensures stop { IfErr result (IsReadStop (told So.left So.faults input.old) (told So.left So.faults input.new)) }
    ensures later { So.faults input.old ≤ So.faults input.new }
    ensures kept { IsErrOf result ReadStop.Unread ⊎ (So.faults input.new ≡ So.faults input.old) }
{
    let bytes = match read_whole(alloc, input, MOST_BYTES) {
        Ok(bytes) => bytes,
        Err(Unread::Failed) => return Err(ReadStop::Unread),
        Err(Unread::TooLong) => return Err(ReadStop::Refused(ReadRefusal::TooLong)),
        Err(Unread::Memory) => return Err(ReadStop::Memory),
    };
    match read_ptrs(alloc, bytes.as_slice()) {
        Ok(pairs) => Ok(pairs),
        Err(fault) => Err(stop_by(fault)),
    }
}

/// Appends the line of a pair: its address, a comma and its name, neither of which needs quotes.
fn push_pair(pair: &Pair, text: &mut Vec<u8>) -> Result<(), AllocError>
    ensures { OnOk result (text.new.items ≡ text.old.items ++ pair_text_of pair.now) }
{
    write_addr(pair.host, text)?;
    text.push(b',')?;
    text.extend_from_slice(pair.name.as_str().as_bytes())?;
    text.push(b'\n')?;
    Ok(())
}

/// The header, and a line for each pair. `Err` means out of memory.
fn pairs_text(alloc: Global, pairs: &[Pair]) -> Result<Vec<u8>, AllocError>
    ensures { IfOk result (λ v. v.items ≡ pairs_text_of pairs.now) }
{
    let mut text = Vec::from_slice(alloc, HEADER)?;
    for pair in pairs {
        push_pair(pair, &mut text)?;
    }
    Ok(text)
}

/// Prints pairs, and gives the status of that.
fn print_pairs<Si: Sink>(alloc: Global, pairs: &[Pair], output: &mut Si) -> u8
    ensures said { IsPairsSaid pairs.now (told Si.written Si.faults output.old) (told Si.written Si.faults output.new) result }
    ensures later { Si.faults output.old ≤ Si.faults output.new }
{
    match pairs_text(alloc, pairs) {
        Ok(text) => end_with(output, text.as_slice(), DONE),
        Err(_) => MEMORY,
    }
}

/// The line that says that an input is too long. `Err` means out of memory.
fn long_text(alloc: Global) -> Result<String, AllocError>
    ensures { IfOk result (λ s. string_bytes s ≡ long_text) }
{
    let mut line = refusal_line(alloc, &Refusal::TooLarge(Part::Body))?;
    line.push('\n')?;
    Ok(line)
}

/// The line that names a refusal. `Err` means out of memory.
fn refusal_text(alloc: Global, refusal: ReadRefusal) -> Result<String, AllocError>
    ensures { IfOk result (λ s. string_bytes s ≡ read_refusal_text refusal) }
{
    match refusal {
        ReadRefusal::TooLong => long_text(alloc),
        ReadRefusal::Line(number) => format!(in alloc; "line {number}: not a PTR line\n"),
    }
}

/// Says a refusal, and gives the status of that; or that of a fault if it can't be said, or of out of memory.
fn say_refusal<Se: Sink>(alloc: Global, refusal: ReadRefusal, errors: &mut Se) -> u8
    ensures said { NamesReadRefusal refusal (told Se.written Se.faults errors.old) (told Se.written Se.faults errors.new) result }
    ensures later { Se.faults errors.old ≤ Se.faults errors.new }
{
    match refusal_text(alloc, refusal) {
        Ok(line) => end_with(errors, line.as_bytes(), REFUSED),
        Err(_) => MEMORY,
    }
}

/// Says why the input gives no pairs, and gives the status of that; nothing is said of an input that failed.
fn say_stop<Se: Sink>(alloc: Global, stop: ReadStop, errors: &mut Se) -> u8
    ensures said { IsReadStopSaid stop (told Se.written Se.faults errors.old) (told Se.written Se.faults errors.new) result }
    ensures later { Se.faults errors.old ≤ Se.faults errors.new }
{
    match stop {
        ReadStop::Unread => FAULT,
        ReadStop::Refused(refusal) => say_refusal(alloc, refusal, errors),
        ReadStop::Memory => MEMORY,
    }
}

/// Runs `reverse-read`: the pairs of the PTR lines of the input, as a file with the columns `address` and `dns_name`.
pub fn run_reverse_read<So: Source, Si: Sink, Se: Sink>(
    alloc: Global,
    input: &mut So,
    output: &mut Si,
    errors: &mut Se,
) -> u8
    ensures { IsReverseRead
        (streams (told So.left So.faults input.old) (told Si.written Si.faults output.old) (told Se.written Se.faults errors.old))
        (streams (told So.left So.faults input.new) (told Si.written Si.faults output.new) (told Se.written Se.faults errors.new)) result }
{
    match read_pairs(alloc, input) {
        Ok(pairs) => print_pairs(alloc, pairs.as_slice(), output),
        Err(stop) => say_stop(alloc, stop, errors),
    }
}
