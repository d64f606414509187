//! The arguments after the program's name.

ghost use Rattle.std.specs.Prelude.{◌≡◌, IfOk, drop, map, string_bytes};
ghost use Rattle.std.specs.Vec.Iter.{into_iter_items};
ghost use Rattle.command_streams.specs.Arguments.{AreWords, IsWhy};

use std::alloc::{AllocError, Global};
use std::env::Args;
use std::io;
use std::io::ErrorKind;

/// Why there are no arguments.
#[derive(Debug, Drop)]
pub enum NoArguments {
    /// One of them is no UTF-8.
    NoText,
    /// Out of memory.
    Memory,
}

/// All arguments but the first, in order. `Err` means out of memory.
fn behind(alloc: Global, given: Args) -> Result<Vec<String>, AllocError>
    ensures { IfOk result (λ words. words.items ≡ drop 1 (into_iter_items given)) }
{
    let mut given = given;
    let mut words = Vec::new(alloc);
    if let Some(name) = given.next() {
        drop(name);
    }
    for word in given {
        words.push(word)?;
    }
    Ok(words)
}

/// Why a process has no arguments.
fn why(error: &io::Error) -> NoArguments
    ensures { IsWhy error.now result }
{
    match error.kind() {
        ErrorKind::InvalidData => NoArguments::NoText,
        _ => NoArguments::Memory,
    }
}

/// The arguments after the program's name, of those that the system gave, as `std::env::args` answers. `Err` is `NoText` if one of them is
/// no UTF-8, and else `Memory`.
pub fn words_given(alloc: Global, given: io::Result<Args>) -> Result<Vec<String>, NoArguments>
    ensures { AreWords given result }
{
    match given {
        Ok(given) => match behind(alloc, given) {
            Ok(words) => Ok(words),
            Err(_) => Err(NoArguments::Memory),
        },
        Err(error) => Err(why(&error)),
    }
}

/// The arguments as words. `Err` means out of memory.
pub fn words_of(alloc: Global, args: &[String]) -> Result<Vec<&str>, AllocError>
    ensures { IfOk result (λ words. map (λ w. w.now) words.items ≡ map string_bytes args.now) }
{
    let mut words = Vec::new(alloc);
    for arg in args {
        words.push(arg.as_str())?;
    }
    Ok(words)
}
