//! Roles: their names and slugs are unique.

ghost use Rattle.std.specs.Prelude.{◌≡◌, List, find, option_copied};
ghost use Rattle.ipam_data.specs.declared.role.Role.{Role as SeenRole};
ghost use Rattle.ipam_data.specs.RowList.{is_rival};
ghost use Rattle.ipam_data.specs.Rows.{role_id};
ghost use Rattle.ipam_data.specs.Roles.{role_fault, same_role_name, same_role_slug};

use ipam_data::replies::Rule;
use ipam_data::role::Role;
use placed_book::RowBook;

/// Roles in the order of their ids.
pub type RoleBook = RowBook<Role>;

/// The rules of roles, as a book of them answers them. None takes memory.
pub trait RoleRules {
    /// The roles in the order of their ids.
    ghost rows: { Self → List SeenRole };

    /// The first rule that the row breaks given the roles of other ids: `NameTaken`, then `SlugTaken`, each with the least id of one
    /// that has it.
    fn fault(&self, row: &Role) -> Option<Rule>
        ensures { result ≡ role_fault (rows self.now) row.now };
}

/// Whether the other row is another role with the row's name.
fn takes_name(row: &Role, other: &Role) -> bool
    ensures { result ≡ is_rival role_id same_role_name row.now other.now }
{
    other.id != row.id && other.name.as_str() == row.name.as_str()
}

/// Whether the other row is another role with the row's slug.
fn takes_slug(row: &Role, other: &Role) -> bool
    ensures { result ≡ is_rival role_id same_role_slug row.now other.now }
{
    other.id != row.id && other.slug.as_str() == row.slug.as_str()
}

/// The first role that takes the row's name.
fn name_rival<'a>(rows: &'a [Role], row: &Role) -> Option<&'a Role>
    ensures { option_copied result ≡ find (is_rival role_id same_role_name row.now) rows.now }
{
    rows.iter().find(|other| takes_name(row, other))
}

/// The first role that takes the row's slug.
fn slug_rival<'a>(rows: &'a [Role], row: &Role) -> Option<&'a Role>
    ensures { option_copied result ≡ find (is_rival role_id same_role_slug row.now) rows.now }
{
    rows.iter().find(|other| takes_slug(row, other))
}

impl RoleRules for RoleBook {
    ghost rows = { λ b. b.rows };

    #[tactic(auto, unfolding(ipam_data::specs::Roles::role_fault))]
    fn fault(&self, row: &Role) -> Option<Rule> {
        if let Some(other) = name_rival(self.rows(), row) {
            return Some(Rule::NameTaken(other.id));
        }
        if let Some(other) = slug_rival(self.rows(), row) {
            return Some(Rule::SlugTaken(other.id));
        }
        None
    }
}
