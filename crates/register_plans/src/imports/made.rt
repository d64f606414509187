//! The rows of an import made into records, one after another.

ghost use Rattle.std.specs.Prelude.{◌≡◌, ℕ, ◌++◌, ◌∷◌, ◌≤◌, [], List, None, true, not, nat_lt, IfErr, IfOk, OnOk, bytes_eq, count_by, length};
ghost use Rattle.std.specs.List.{list_any};
ghost use Rattle.ipam_data.specs.Checks.{first};
ghost use Rattle.ipam_data.specs.declared.kinds.Kind.{Kind as SeenKind};
ghost use Rattle.ipam_data.specs.Fields.{kind_of_draft, told_of_draft};
ghost use Rattle.ipam_data.specs.Lawful.{IsLawful};
ghost use Rattle.ipam_data.specs.State.{State};
ghost use Rattle.ipam_data.specs.Imports.{at_row, begun, row_verdicts};
ghost use Rattle.register_plans.specs.RecordsLeft.{IsLeft};
ghost use Rattle.register_tables.specs.Held.{state_of};
ghost use Rattle.register_plans.specs.ImportHalts.{IsHaltBy, halt_at};
ghost use Rattle.register_plans.specs.ImportPlan.{AreMade};
ghost use Rattle.register_plans.specs.ReadyRows.{IsTaken};
ghost use Rattle.register_plans.specs.UndoneRecords.{IsAhead};

use crate::imports::halt::Halt;
use crate::imports::keys::leftovers;
use crate::imports::leftovers::Leftovers;
use crate::imports::one::make;
use crate::imports::ready::{Ready, bounds_of, ready_all};
use ipam_data::imports::ImportRow;
use ipam_data::kinds::Kind;
use ipam_data::replies::{Refusal, RowFault, View};
use register_tables::RowTables;
use std::alloc::AllocError;

/// Keeps a record after those that were made before.
fn keep(made: &mut Vec<View>, view: View) -> Result<(), AllocError>
    ensures { OnOk result (made.new.items ≡ made.old.items ++ view ∷ []) }
{
    made.push(view)?;
    Ok(())
}

/// Whether a record is left that the row may represent. It then represents that.
fn stands(left: &mut Leftovers, row: &Ready) -> bool
    ensures left { (keys records spent : List (List ℕ)) → IsLeft left.old keys records spent → IsLeft left.new keys records (spent ++ row.now.key ∷ []) }
    ensures found { (keys records spent : List (List ℕ)) → IsLeft left.old keys records spent → list_any (bytes_eq row.now.key) keys ≡ true
        → result ≡ nat_lt (count_by (bytes_eq row.now.key) spent) (count_by (bytes_eq row.now.key) records) }
{
    left.spend(row.key.as_str())
}

/// What one row does: it is refused, it represents a record that is left, or it makes one.
fn take_row(
    row_tables: &mut RowTables,
    left: &mut Leftovers,
    made: &mut Vec<View>,
    row: &Ready,
) -> Result<(), Halt>
    requires lawful { IsLawful (state_of row_tables.old) }
    requires told { row.now.fault ≡ None → first (told_of_draft row.now.draft) ≡ None }
    ensures step { (keys records spent : List (List ℕ)) → IsLeft left.old keys records spent → list_any (bytes_eq row.now.key) keys ≡ true
        → IsTaken (not (nat_lt (count_by (bytes_eq row.now.key) spent) (count_by (bytes_eq row.now.key) records))) row.now (state_of row_tables.old) made.old.items (state_of row_tables.new) made.new.items result }
    ensures left { (keys records spent : List (List ℕ)) → IsLeft left.old keys records spent → OnOk result (IsLeft left.new keys records (spent ++ row.now.key ∷ [])) }
    ensures lawful { OnOk result (IsLawful (state_of row_tables.new)) }
    ensures ahead { (base : State) (kind : SeenKind) → (row.now.fault ≡ None → kind_of_draft row.now.draft ≡ kind) → IsAhead base kind (state_of row_tables.old) → IsAhead base kind (state_of row_tables.new) }
{
    if let Some(refusal) = row.fault {
        return Err(Halt::Refused(refusal));
    }
    if stands(left, row) {
        return Ok(());
    }
    let view = match make(row_tables, &row.draft) {
        Ok(view) => view,
        Err(halt) => return Err(halt),
    };
    keep(made, view)?;
    Ok(())
}

/// A refusal, as that of the row with this number.
fn refused_at(n: u32, refusal: Refusal) -> Refusal
    ensures { result ≡ at_row n refusal }
{
    match refusal {
        Refusal::Field(name) => Refusal::Row(n, RowFault::Field(name)),
        Refusal::Rule(rule) => Refusal::Row(n, RowFault::Rule(rule)),
        Refusal::Limit(which, most) => Refusal::Row(n, RowFault::Limit(which, most)),
        other => other,
    }
}

/// A halt, as that of the row with this number.
fn stopped_at(n: u32, halt: Halt) -> Halt
    ensures { result ≡ halt_at n halt }
{
    match halt {
        Halt::Refused(refusal) => Halt::Refused(refused_at(n, refusal)),
        Halt::Memory => Halt::Memory,
    }
}

/// Makes the records of all rows, one after another, and hands out copies of them. Whatever stops it, what it did is that it made
/// records of the kind.
pub(crate) fn make_all(
    row_tables: &mut RowTables,
    kind: Kind,
    lines: &[ImportRow],
) -> Result<Vec<View>, Halt>
    requires lawful { IsLawful (state_of row_tables.old) }
    requires few { length lines.now ≤ 10000 }
    ensures made { IfOk result (λ v. AreMade (state_of row_tables.old) kind lines.now (state_of row_tables.new) v.items) }
    ensures halted { IfErr result (λ halt. IsHaltBy (first (row_verdicts (state_of row_tables.old) kind (begun (state_of row_tables.old)) 1 lines.now)) halt) }
    ensures ahead { IsAhead (state_of row_tables.old) kind (state_of row_tables.new) }
{
    // A hint to the prover: the rows are within their bounds.
    bounds_of(lines);
    let rows = ready_all(row_tables, kind, lines)?;
    let mut left = leftovers(row_tables, kind, &rows)?;
    let mut made = Vec::new(row_tables.allocator());
    let mut n = 0;
    for row in &rows {
        n += 1;
        match take_row(row_tables, &mut left, &mut made, row) {
            Ok(()) => {}
            Err(halt) => return Err(stopped_at(n, halt)),
        }
    }
    Ok(made)
}
