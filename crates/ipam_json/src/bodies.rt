//! The bodies of a Create and of a Change.

ghost use Rattle.std.specs.Prelude.{◌≡◌, ◌⊎◌, IfOk, IfErr};
ghost use Rattle.serde_json.specs.View.{view};
ghost use Rattle.ipam_data.specs.declared.replies.Refusal.TheVariants.{BadJson, Memory};
ghost use Rattle.ipam_json.specs.Outcomes.{OrMemory};
ghost use Rattle.ipam_json.specs.Bodies.{IsObjectText, IsNoObjectText, IsBodyOf, IsEditOf};

use crate::address::{address_draft, address_edit};
use crate::aggregate::{aggregate_draft, aggregate_edit};
use crate::prefix::{prefix_draft, prefix_edit};
use crate::range::{range_draft, range_edit};
use crate::rir::{rir_draft, rir_edit};
use crate::role::{role_draft, role_edit};
use crate::vrf::{vrf_draft, vrf_edit};
use ipam_data::calls::{Draft, Edit};
use ipam_data::kinds::Kind;
use ipam_data::replies::Refusal;
use serde_json::Value;
use std::alloc::Global;

/// The object that a body is.
fn read_object(alloc: Global, body: &[u8]) -> Result<Value, Refusal>
    ensures ok { IfOk result (λ v. IsObjectText body.now (view v)) }
    ensures err { IfErr result (λ e. (e ≡ Memory) ⊎ (IsNoObjectText body.now × (e ≡ BadJson))) }
{
    match Value::from_slice(alloc, body) {
        Ok(value) if value.is_object() => Ok(value),
        Err(error) if error.is_memory() => Err(Refusal::Memory),
        _ => Err(Refusal::BadJson),
    }
}

/// What the body of a Create asks for: a draft of the kind. `BadJson` is returned if the body is no JSON text (RFC 8259) or no
/// object; `Field` if a member is malformed, or required and absent, and names the first such member in the order of the
/// kind; `HostBits` in the same order for a prefix text with host bits set; and `Memory` may be returned in place of any answer.
pub fn read_body(alloc: Global, kind: Kind, body: &[u8]) -> Result<Draft, Refusal>
    ensures { OrMemory (IsBodyOf kind body.now) result }
{
    let object = read_object(alloc, body)?;
    match kind {
        Kind::Vrfs => vrf_draft(alloc, &object),
        Kind::Rirs => rir_draft(alloc, &object),
        Kind::Roles => role_draft(alloc, &object),
        Kind::Aggregates => aggregate_draft(alloc, &object),
        Kind::Prefixes => prefix_draft(alloc, &object),
        Kind::Ranges => range_draft(alloc, &object),
        Kind::Addresses => address_draft(alloc, &object),
    }
}

/// What the body of a Change asks for: an edit of the kind, in which an absent member leaves its field, and null clears it if
/// it may be absent. It is refused as the body of a Create is, but no member is required.
pub fn read_edit(alloc: Global, kind: Kind, body: &[u8]) -> Result<Edit, Refusal>
    ensures { OrMemory (IsEditOf kind body.now) result }
{
    let object = read_object(alloc, body)?;
    match kind {
        Kind::Vrfs => vrf_edit(alloc, &object),
        Kind::Rirs => rir_edit(alloc, &object),
        Kind::Roles => role_edit(alloc, &object),
        Kind::Aggregates => aggregate_edit(alloc, &object),
        Kind::Prefixes => prefix_edit(alloc, &object),
        Kind::Ranges => range_edit(alloc, &object),
        Kind::Addresses => address_edit(alloc, &object),
    }
}
