//! What so many claims lead to, and its text.

ghost use Rattle.std.specs.Prelude.{◌≡◌, ◌++◌, ◌∷◌, [], decimal, OnOk};
ghost use Rattle.inet_num.specs.Text.{canonical_text_of};
ghost use Rattle.command_load.specs.LoadText.{figures_text};

use inet_num::{Addr, write_addr};
use itoa::Buffer;
use std::alloc::AllocError;

/// What a number of claims led to.
#[derive(Clone, Copy)]
pub struct Figures {
    /// How many got an address.
    pub claimed: u32,
    /// The least address that was claimed.
    pub first: Addr,
    /// The greatest address that was claimed.
    pub last: Addr,
    /// How much of the block is used, as a whole percentage.
    pub percent: u8,
    /// How many changes the register accepted.
    pub entries: u64,
}

/// Appends a line of a word and a number.
fn write_number(word: &[u8], number: u64, out: &mut Vec<u8>) -> Result<(), AllocError>
    ensures { OnOk result (out.new.items ≡ out.old.items ++ word.now ++ decimal number ++ 10 ∷ []) }
{
    let mut digits = Buffer::new();
    out.extend_from_slice(word)?;
    out.extend_from_slice(digits.format(number).as_bytes())?;
    out.push(b'\n')?;
    Ok(())
}

/// Appends a line of a word and an address.
fn write_address(word: &[u8], addr: Addr, out: &mut Vec<u8>) -> Result<(), AllocError>
    ensures { OnOk result (out.new.items ≡ out.old.items ++ word.now ++ canonical_text_of addr.family addr.value ++ 10 ∷ []) }
{
    out.extend_from_slice(word)?;
    write_addr(addr, out)?;
    out.push(b'\n')?;
    Ok(())
}

/// Appends the five lines of the figures. `Err` means out of memory.
pub fn write_figures(figures: &Figures, out: &mut Vec<u8>) -> Result<(), AllocError>
    ensures { OnOk result (out.new.items ≡ out.old.items ++ figures_text figures.now) }
{
    write_number(b"claimed ", u64::from(figures.claimed), out)?;
    write_address(b"first ", figures.first, out)?;
    write_address(b"last ", figures.last, out)?;
    write_number(b"percent ", u64::from(figures.percent), out)?;
    write_number(b"entries ", figures.entries, out)
}
