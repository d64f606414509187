//! Members that are the text of a block or of a host.

ghost use Rattle.std.specs.Prelude.{◌≡◌, Some, None};
ghost use Rattle.serde_json.specs.View.{view};
ghost use Rattle.ipam_json.specs.Blocks.{IsBlockMember, IsBlockEdit, block_refusal};
ghost use Rattle.ipam_json.specs.Hosts.{IsHostReading, IsHostMember, IsHostEdit};
ghost use Rattle.ipam_json.specs.Outcomes.{value_of};
ghost use Rattle.ipam_data.specs.declared.replies.FieldName.TheVariants.{Prefix as PrefixField};

use crate::members::member;
use inet_num::{Block, TextFault, read_block, read_host};
use ipam_data::host::Host;
use ipam_data::replies::{FieldName, Refusal, Rule};
use serde_json::Value;

/// What a faulty text of a block is answered.
fn refusal_of(fault: TextFault) -> Refusal
    ensures { result ≡ block_refusal fault }
{
    match fault {
        TextFault::HostBits(block) => Refusal::Rule(Rule::HostBits(block)),
        TextFault::Shape | TextFault::Octet | TextFault::Group | TextFault::Length => {
            Refusal::Field(FieldName::Prefix)
        }
    }
}

/// The block of a prefix or an aggregate.
pub(crate) fn block(body: &Value) -> Result<Block, Refusal>
    ensures { IsBlockMember (value_of PrefixField (view body.now)) result }
{
    let Some(text) = member(body, FieldName::Prefix).and_then(Value::as_str) else {
        return Err(Refusal::Field(FieldName::Prefix));
    };
    match read_block(text.as_bytes()) {
        Ok(block) => Ok(block),
        Err(fault) => Err(refusal_of(fault)),
    }
}

/// The block of a prefix or an aggregate, if it is given.
pub(crate) fn given_block(body: &Value) -> Result<Option<Block>, Refusal>
    ensures { IsBlockEdit (value_of PrefixField (view body.now)) result }
{
    let Some(value) = member(body, FieldName::Prefix) else {
        return Ok(None);
    };
    let Some(text) = value.as_str() else {
        return Err(Refusal::Field(FieldName::Prefix));
    };
    match read_block(text.as_bytes()) {
        Ok(block) => Ok(Some(block)),
        Err(fault) => Err(refusal_of(fault)),
    }
}

/// The host that a text is: an address, whose mask is its width if the text has none.
fn host_of(text: &str, name: FieldName) -> Result<Host, Refusal>
    ensures { IsHostReading name text.now result }
{
    match read_host(text.as_bytes()) {
        Ok((addr, len)) => match Host::of(addr, len) {
            Some(host) => Ok(host),
            None => unreachable!(),
        },
        Err(_) => Err(Refusal::Field(name)),
    }
}

/// A host, which is required.
pub(crate) fn host(body: &Value, name: FieldName) -> Result<Host, Refusal>
    ensures { IsHostMember name (value_of name (view body.now)) result }
{
    let Some(text) = member(body, name).and_then(Value::as_str) else {
        return Err(Refusal::Field(name));
    };
    host_of(text, name)
}

/// A host, if it is given.
pub(crate) fn given_host(body: &Value, name: FieldName) -> Result<Option<Host>, Refusal>
    ensures { IsHostEdit name (value_of name (view body.now)) result }
{
    let Some(value) = member(body, name) else {
        return Ok(None);
    };
    let Some(text) = value.as_str() else {
        return Err(Refusal::Field(name));
    };
    match host_of(text, name) {
        Ok(host) => Ok(Some(host)),
        Err(refusal) => Err(refusal),
    }
}
