//! What is said if an opening is refused.

ghost use Rattle.std.specs.Prelude.{◌≡◌, IfOk, string_bytes};
ghost use Rattle.stored_tables.specs.Opening.{IsOfTables};
ghost use Rattle.command_store.specs.FaultWords.{fault_words, fault_line as line_of};

use ipam_words::{breach_words, excess_words, next_id_words, unreadable_words, version_words};
use std::alloc::{AllocError, Global};
use stored_tables::opening::OpenFault;

/// A fault of the tables in words. The other two have none here: a store that failed has its own line, and of memory nothing is said.
fn words(alloc: Global, fault: &OpenFault) -> Result<String, AllocError>
    ensures { IsOfTables fault.now → IfOk result (λ s. string_bytes s ≡ fault_words fault.now) }
{
    match fault {
        OpenFault::Keeper | OpenFault::Memory => Ok(String::new(alloc)),
        OpenFault::BadTables(kind, id, rule) => breach_words(alloc, *kind, *id, rule),
        OpenFault::BadRow(kind, id) => unreadable_words(alloc, *kind, *id),
        OpenFault::Version(version) => version_words(alloc, *version),
        OpenFault::BadNext(kind) => next_id_words(alloc, *kind),
        OpenFault::Limit(which, most) => excess_words(alloc, *which, *most),
    }
}

/// The line that says which fault of the tables refused an opening.
pub(crate) fn fault_line(alloc: Global, fault: &OpenFault) -> Result<String, AllocError>
    ensures { IsOfTables fault.now → IfOk result (λ s. string_bytes s ≡ line_of fault.now) }
{
    let words = words(alloc, fault)?;
    format!(in alloc; "store: {words}\n")
}
