//! What a register promises to its callers, in one record.
#![tactic(auto)]

ghost use Rattle.ipam_headline.specs.Laws.{HeadlinesHold};

use claim_laws::{claims_are_new, claims_never_meet, refused_only_if_none_fits, steps_keep_listed};
use ipam_data::laws::steps_keep_lawful;
use snapshot_operator::numbers_are_states;

/// A law: the register of a store that was served, to one caller or many, has one history, out of which all are answered, and in it no two
/// claims met.
pub fn headlines_hold()
    ensures { HeadlinesHold }
{
    steps_keep_lawful();
    steps_keep_listed();
    claims_are_new();
    refused_only_if_none_fits();
    claims_never_meet();
    numbers_are_states();
}
