//! Refusals and openings as the commands print them, each without its line feed. `Err` means out of memory.

ghost use Rattle.std.specs.Prelude.{◌≡◌, IfOk, string_bytes};
ghost use Rattle.ipam_words.specs.Lines as spec;

use crate::codes::{code, rule_code};
use crate::details::{detail, rule_detail};
use crate::names::{kind_name, which_name};
use ipam_data::kinds::Kind;
use ipam_data::replies::{Refusal, Rule, Which};
use std::alloc::{AllocError, Global};

/// The row of a file that a refusal names.
fn row_mark(alloc: Global, refusal: &Refusal) -> Result<String, AllocError>
    ensures { IfOk result (λ s. string_bytes s ≡ spec.row_mark refusal.now) }
{
    match refusal {
        Refusal::Row(row, _) => {
            let row = *row;
            format!(in alloc; "row {row}: ")
        }
        _ => Ok(String::new(alloc)),
    }
}

/// A refusal on a line: the row of the file if it names one, its code and its detail.
pub fn refusal_line(alloc: Global, refusal: &Refusal) -> Result<String, AllocError>
    ensures { IfOk result (λ s. string_bytes s ≡ spec.refusal_line refusal.now) }
{
    let mut line = row_mark(alloc, refusal)?;
    line.push_str(code(refusal))?;
    line.push_str(": ")?;
    let detail = detail(alloc, refusal)?;
    line.push_str(detail.as_str())?;
    Ok(line)
}

/// A stored row that breaks a rule, in words.
pub fn breach_words(alloc: Global, kind: Kind, id: u32, rule: &Rule) -> Result<String, AllocError>
    ensures { IfOk result (λ s. string_bytes s ≡ spec.breach_text kind id rule.now) }
{
    let kind = kind_name(kind);
    let mut words = format!(in alloc; "{kind} {id}: ")?;
    words.push_str(rule_code(rule))?;
    words.push_str(": ")?;
    let detail = rule_detail(alloc, rule)?;
    words.push_str(detail.as_str())?;
    Ok(words)
}

/// A stored row that can't be read, in words.
pub fn unreadable_words(alloc: Global, kind: Kind, id: u32) -> Result<String, AllocError>
    ensures { IfOk result (λ s. string_bytes s ≡ spec.unreadable_text kind id) }
{
    let kind = kind_name(kind);
    format!(in alloc; "{kind} {id}: unreadable")
}

/// Stored tables of a version that is not served, in words.
pub fn version_words(alloc: Global, version: u32) -> Result<String, AllocError>
    ensures { IfOk result (λ s. string_bytes s ≡ spec.version_text version) }
{
    format!(in alloc; "version {version}")
}

/// A stored next id that is none, in words.
pub fn next_id_words(alloc: Global, kind: Kind) -> Result<String, AllocError>
    ensures { IfOk result (λ s. string_bytes s ≡ spec.next_id_text kind) }
{
    let kind = kind_name(kind);
    format!(in alloc; "{kind}: bad next id")
}

/// More stored rows than a limit, in words.
pub fn excess_words(alloc: Global, which: Which, most: u64) -> Result<String, AllocError>
    ensures { IfOk result (λ s. string_bytes s ≡ spec.excess_text which most) }
{
    let which = which_name(which);
    format!(in alloc; "{which} exceed {most}")
}
