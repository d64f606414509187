//! The detail of a refusal. `Err` means out of memory.

ghost use Rattle.std.specs.Prelude.{◌≡◌, ◌++◌, IfOk, decimal, codes, string_bytes};
ghost use Rattle.inet_num.specs.Text.{block_text_of};
ghost use Rattle.ipam_data.specs.Answers as spec;
ghost use Rattle.ipam_words.specs.Lines.{fixed_text};

use crate::names::{field_name, kind_name, which_name};
use inet_num::Block;
use ipam_data::kinds::Kind;
use ipam_data::replies::{FieldName, Part, Refusal, RowFault, Rule, Which};
use std::alloc::{AllocError, Global};

/// A row that is not there, in words.
fn absence(alloc: Global, kind: Kind, id: u32) -> Result<String, AllocError>
    ensures { IfOk result (λ s. string_bytes s ≡ spec.absence_text kind id) }
{
    let kind = kind_name(kind);
    format!(in alloc; "{kind} {id} is not there")
}

/// Host bits are set, in words.
fn host_bits(alloc: Global, block: Block) -> Result<String, AllocError>
    ensures { IfOk result (λ s. string_bytes s ≡ codes "host bits are set, the prefix is " ++ block_text_of block) }
{
    format!(in alloc; "host bits are set, the prefix is {block}")
}

/// Two ids between a front and an end.
fn pair_words(
    alloc: Global,
    front: &str,
    one: u32,
    other: u32,
    end: &str,
) -> Result<String, AllocError>
    ensures { IfOk result (λ s. string_bytes s ≡ front.now ++ decimal one ++ codes " and " ++ decimal other ++ end.now) }
{
    let front = format!(in alloc; "{front}{one} and ")?;
    let front = front.as_str();
    format!(in alloc; "{front}{other}{end}")
}

/// Two rows that coincide, in words.
fn coincidence(alloc: Global, kind: Kind, one: u32, other: u32) -> Result<String, AllocError>
    ensures { IfOk result (λ s. string_bytes s ≡ spec.rule_detail (Rule.Coincide kind one other)) }
{
    let kind = kind_name(kind);
    let front = format!(in alloc; "{kind} ")?;
    pair_words(alloc, front.as_str(), one, other, " coincide")
}

/// A name that no row has, in words.
fn no_name(alloc: Global, kind: Kind) -> Result<String, AllocError>
    ensures { IfOk result (λ s. string_bytes s ≡ spec.rule_detail (Rule.NoSuchName kind)) }
{
    let kind = kind_name(kind);
    format!(in alloc; "no {kind} has this name")
}

/// Two VRFs of one name, in words.
fn ambiguity(alloc: Global, one: u32, other: u32) -> Result<String, AllocError>
    ensures { IfOk result (λ s. string_bytes s ≡ spec.rule_detail (Rule.Ambiguous one other)) }
{
    pair_words(alloc, "vrfs ", one, other, " have this name")
}

/// A broken rule in words.
pub fn rule_detail(alloc: Global, rule: &Rule) -> Result<String, AllocError>
    ensures { IfOk result (λ s. string_bytes s ≡ spec.rule_detail rule.now) }
{
    let words = match rule {
        Rule::ZeroMask => "a mask of length 0 is refused",
        Rule::RangeOrder => "the end must be greater than the start",
        Rule::RangeFamily => "start and end differ in family",
        Rule::RangeMask => "start and end differ in mask",
        Rule::RangeSize => "a range has at most 4294967295 addresses",
        Rule::SlaacFamily => "slaac is for IPv6 only",
        Rule::WantedLength => "the length does not fit the prefix",
        Rule::DnsName => "not a DNS name",
        Rule::HostBits(block) => return host_bits(alloc, *block),
        Rule::Duplicate(id) => return format!(in alloc; "coincides with {id}"),
        Rule::AggregateOverlap(id) => return format!(in alloc; "overlaps aggregate {id}"),
        Rule::RangeOverlap(id) => return format!(in alloc; "overlaps range {id}"),
        Rule::Populated(id) => return format!(in alloc; "inside populated range {id}"),
        Rule::NameTaken(id) => return format!(in alloc; "the name is that of {id}"),
        Rule::SlugTaken(id) => return format!(in alloc; "the slug is that of {id}"),
        Rule::RdTaken(id) => return format!(in alloc; "the rd is that of {id}"),
        Rule::Coincide(kind, one, other) => return coincidence(alloc, *kind, *one, *other),
        Rule::NoSuch(kind, id) => return absence(alloc, *kind, *id),
        Rule::NoSuchName(kind) => return no_name(alloc, *kind),
        Rule::Ambiguous(one, other) => return ambiguity(alloc, *one, *other),
    };
    String::from_str(alloc, words)
}

/// A field that is refused, in words.
fn field_words(alloc: Global, field: FieldName) -> Result<String, AllocError>
    ensures { IfOk result (λ s. string_bytes s ≡ spec.field_detail field) }
{
    let field = field_name(field);
    format!(in alloc; "{field} is missing or malformed")
}

/// A limit in words.
fn limit_words(alloc: Global, which: Which, most: u64) -> Result<String, AllocError>
    ensures { IfOk result (λ s. string_bytes s ≡ spec.limit_detail which most) }
{
    let which = which_name(which);
    format!(in alloc; "{which} would exceed {most}")
}

/// A row that is named by another, in words.
fn use_words(alloc: Global, kind: Kind, id: u32) -> Result<String, AllocError>
    ensures { IfOk result (λ s. string_bytes s ≡ spec.detail_of (Refusal.InUse kind id)) }
{
    let kind = kind_name(kind);
    format!(in alloc; "named by {kind} {id}")
}

/// A fault of a row in words.
pub fn fault_detail(alloc: Global, fault: &RowFault) -> Result<String, AllocError>
    ensures { IfOk result (λ s. string_bytes s ≡ spec.fault_detail fault.now) }
{
    match fault {
        RowFault::Field(field) => field_words(alloc, *field),
        RowFault::Rule(rule) => rule_detail(alloc, rule),
        RowFault::Limit(which, most) => limit_words(alloc, *which, *most),
    }
}

/// A part that is too large, in words.
fn part_words(part: Part) -> &'static str
    ensures { result.now ≡ spec.detail_of (Refusal.TooLarge part) }
{
    match part {
        Part::Head => "the head exceeds 16384 bytes",
        Part::Body => "the body exceeds 4194304 bytes",
    }
}

/// The detail of a refusal that names nothing, which takes no memory; of any other no words.
pub fn fixed_detail(refusal: &Refusal) -> &'static str
    ensures { result.now ≡ fixed_text refusal.now }
{
    match refusal {
        Refusal::BadHead => "the request could not be read",
        Refusal::TooLarge(part) => part_words(*part),
        Refusal::Coding => "transfer codings are not served",
        Refusal::NoRoute => "no such path",
        Refusal::Method => "the path does not have this method",
        Refusal::BadJson => "the body is not the JSON that is asked for",
        Refusal::Keeper => "the store could not be written",
        Refusal::Memory => "no memory",
        _ => "",
    }
}

/// The detail of a refusal.
pub fn detail(alloc: Global, refusal: &Refusal) -> Result<String, AllocError>
    ensures { IfOk result (λ s. string_bytes s ≡ spec.detail_of refusal.now) }
{
    match refusal {
        Refusal::Field(field) => field_words(alloc, *field),
        Refusal::NotFound(kind, id) => absence(alloc, *kind, *id),
        Refusal::Rule(rule) => rule_detail(alloc, rule),
        Refusal::InUse(kind, id) => use_words(alloc, *kind, *id),
        Refusal::NoSpace(item) => format!(in alloc; "no space for claim {item}"),
        Refusal::Limit(which, most) => limit_words(alloc, *which, *most),
        Refusal::Row(_, fault) => fault_detail(alloc, fault),
        _ => String::from_str(alloc, fixed_detail(refusal)),
    }
}
