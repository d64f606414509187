//! RIRs: their names and slugs are unique.

ghost use Rattle.std.specs.Prelude.{◌≡◌, List, find, option_copied};
ghost use Rattle.ipam_data.specs.declared.rir.Rir.{Rir as SeenRir};
ghost use Rattle.ipam_data.specs.RowList.{is_rival};
ghost use Rattle.ipam_data.specs.Rows.{rir_id};
ghost use Rattle.ipam_data.specs.Rirs.{rir_fault, same_rir_name, same_rir_slug};

use ipam_data::replies::Rule;
use ipam_data::rir::Rir;
use placed_book::RowBook;

/// RIRs in the order of their ids.
pub type RirBook = RowBook<Rir>;

/// The rules of RIRs, as a book of them answers them. None takes memory.
pub trait RirRules {
    /// The RIRs in the order of their ids.
    ghost rows: { Self → List SeenRir };

    /// The first rule that the row breaks given the RIRs of other ids: `NameTaken`, then `SlugTaken`, each with the least id of one
    /// that has it.
    fn fault(&self, row: &Rir) -> Option<Rule>
        ensures { result ≡ rir_fault (rows self.now) row.now };
}

/// Whether the other row is another RIR with the row's name.
fn takes_name(row: &Rir, other: &Rir) -> bool
    ensures { result ≡ is_rival rir_id same_rir_name row.now other.now }
{
    other.id != row.id && other.name.as_str() == row.name.as_str()
}

/// Whether the other row is another RIR with the row's slug.
fn takes_slug(row: &Rir, other: &Rir) -> bool
    ensures { result ≡ is_rival rir_id same_rir_slug row.now other.now }
{
    other.id != row.id && other.slug.as_str() == row.slug.as_str()
}

/// The first RIR that takes the row's name.
fn name_rival<'a>(rows: &'a [Rir], row: &Rir) -> Option<&'a Rir>
    ensures { option_copied result ≡ find (is_rival rir_id same_rir_name row.now) rows.now }
{
    rows.iter().find(|other| takes_name(row, other))
}

/// The first RIR that takes the row's slug.
fn slug_rival<'a>(rows: &'a [Rir], row: &Rir) -> Option<&'a Rir>
    ensures { option_copied result ≡ find (is_rival rir_id same_rir_slug row.now) rows.now }
{
    rows.iter().find(|other| takes_slug(row, other))
}

impl RirRules for RirBook {
    ghost rows = { λ b. b.rows };

    #[tactic(auto, unfolding(ipam_data::specs::Rirs::rir_fault))]
    fn fault(&self, row: &Rir) -> Option<Rule> {
        if let Some(other) = name_rival(self.rows(), row) {
            return Some(Rule::NameTaken(other.id));
        }
        if let Some(other) = slug_rival(self.rows(), row) {
            return Some(Rule::SlugTaken(other.id));
        }
        None
    }
}
