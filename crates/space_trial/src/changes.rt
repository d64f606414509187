//! Spaces after changes, read from the texts of cases: columns with a bar between them, and changes as words.

ghost use Rattle.std.specs.Prelude.{◌≡◌, ◌+◌, ◌≤◌, ◌<◌, IfOk, IfSome, length};

use block_space::Space;
use inet_num::{Block, Family, read_block};
use std::alloc::{AllocError, Global};

/// A column of a case, without the spaces around it.
pub fn column(case: &str, index: usize) -> &str {
    case.split('|').nth(index).unwrap_or("").trim()
}

/// The block of a text, if it is one of the family.
pub fn block_of(family: Family, text: &str) -> Option<Block>
    ensures { IfSome result (λ b. b.family ≡ family) }
{
    let block = read_block(text.as_bytes()).ok()?;
    if !block.family().is(family) {
        return None;
    }
    Some(block)
}

/// Puts in the block of a word as `+10.0.0.0/24`, or takes out that of one as `-10.0.0.0/24`. Another word, or a block of the other
/// family, fails as for lack of memory.
fn apply<S: Space + Drop>(space: &mut S, change: &str) -> Result<(), AllocError>
    requires { length (S.held space.old) < 1000 }
    ensures family { S.family_of space.new ≡ S.family_of space.old }
    ensures few { length (S.held space.new) ≤ length (S.held space.old) + 1 }
{
    let (is_put, text) = match change.strip_prefix("+") {
        Some(text) => (true, text),
        None => (false, change.strip_prefix("-").unwrap_or("")),
    };
    let Some(block) = block_of(space.family(), text) else {
        return Err(AllocError);
    };
    if is_put {
        space.reserve(1)?;
        space.insert(block);
        return Ok(());
    }
    space.remove(block);
    Ok(())
}

/// The empty space after the changes of these words. More than 1000 fail, as for lack of memory.
pub fn changed<S: Space + Drop>(
    alloc: Global,
    family: Family,
    changes: &str,
) -> Result<S, AllocError>
    ensures { IfOk result (λ space. S.family_of space ≡ family) }
{
    let mut space = S::new(alloc, family);
    let mut done = 0u32;
    'changes: for change in changes.split_whitespace() {
        if done == 1000 {
            return Err(AllocError);
        }
        apply(&mut space, change)?;
        done += 1;
    }
    Ok(space)
}
