//! The words of a refusal by the pools.

ghost use Rattle.std.specs.Prelude.{◌≡◌, IfOk, string_bytes};
ghost use Rattle.pool_json.specs.Words.{code_of, detail_of, holder_detail, limit_detail, quantity_text, taken_detail};

use number_pools::{PoolRefusal, Quantity};
use std::alloc::{AllocError, Global};

/// What is counted, by its name.
pub fn quantity_name(which: Quantity) -> &'static str
    ensures { result.now ≡ quantity_text which }
{
    match which {
        Quantity::Claims => "claims",
        Quantity::Items => "items",
        Quantity::Ranges => "ranges",
        Quantity::Members => "members",
        Quantity::Ids => "ids",
        Quantity::Log => "log",
    }
}

/// The code of a refusal.
pub fn code(refusal: PoolRefusal) -> &'static str
    ensures { result.now ≡ code_of refusal }
{
    match refusal {
        PoolRefusal::Absent(_) => "not_found",
        PoolRefusal::NameTaken(_) => "name_taken",
        PoolRefusal::Bounds => "bounds",
        PoolRefusal::InUse(_) => "in_use",
        PoolRefusal::NoSpace(_) => "no_space",
        PoolRefusal::Outside(_) => "bounds",
        PoolRefusal::Taken(_, _) => "taken",
        PoolRefusal::Repeated(_) => "taken",
        PoolRefusal::Limit(_, _) => "limit",
        PoolRefusal::Keeper => "keeper",
        PoolRefusal::Memory => "memory",
    }
}

/// A limit in words.
fn limit_words(alloc: Global, which: Quantity, most: u32) -> Result<String, AllocError>
    ensures { IfOk result (λ s. string_bytes s ≡ limit_detail which most) }
{
    let which = quantity_name(which);
    format!(in alloc; "{which} would exceed {most}")
}

/// In words that a number is that of somebody.
fn taken_words(alloc: Global, number: u32, who: &str) -> Result<String, AllocError>
    ensures { IfOk result (λ s. string_bytes s ≡ taken_detail number who.now) }
{
    let front = format!(in alloc; "number {number} is that of ")?;
    let front = front.as_str();
    format!(in alloc; "{front}{who}")
}

/// In words that a number is that of a member.
fn holder_words(alloc: Global, number: u32, id: u32) -> Result<String, AllocError>
    ensures { IfOk result (λ s. string_bytes s ≡ holder_detail number id) }
{
    let who = format!(in alloc; "member {id}")?;
    taken_words(alloc, number, who.as_str())
}

/// A refusal in words. `Err` means out of memory.
pub fn detail(alloc: Global, refusal: PoolRefusal) -> Result<String, AllocError>
    ensures { IfOk result (λ s. string_bytes s ≡ detail_of refusal) }
{
    match refusal {
        PoolRefusal::Absent(id) => format!(in alloc; "{id} is not there"),
        PoolRefusal::NameTaken(id) => format!(in alloc; "the name is that of {id}"),
        PoolRefusal::Bounds => String::from_str(alloc, "first and last do not fit"),
        PoolRefusal::InUse(id) => format!(in alloc; "named by member {id}"),
        PoolRefusal::NoSpace(count) => format!(in alloc; "no space for claim {count}"),
        PoolRefusal::Outside(number) => format!(in alloc; "number {number} is not in the range"),
        PoolRefusal::Taken(number, id) => holder_words(alloc, number, id),
        PoolRefusal::Repeated(number) => taken_words(alloc, number, "an earlier item"),
        PoolRefusal::Limit(which, most) => limit_words(alloc, which, most),
        PoolRefusal::Keeper => String::from_str(alloc, "the store could not be written"),
        PoolRefusal::Memory => String::from_str(alloc, "no memory"),
    }
}
