//! Addresses: in a table that enforces two have one host only if both have a shared role.

ghost use Rattle.std.specs.Prelude.{◌≡◌, ℕ, ◌==◌, ◌++◌, IfOk, None, option_map, bytes_eq};
ghost use Rattle.ipam_data.specs.declared.replies.Rule.TheVariants.{Populated as PopulatedRule};
ghost use Rattle.ipam_data.specs.Rows.{address_id, address_status_number, address_role_number};
ghost use Rattle.ipam_data.specs.RowList.{row_at};
ghost use Rattle.ipam_data.specs.Tables.{table_of, is_enforcing};
ghost use Rattle.ipam_data.specs.Checks.{asks, first};
ghost use Rattle.ipam_data.specs.Plans.{change, nothing_told};
ghost use Rattle.ipam_data.specs.Fields.{edited_address};
ghost use Rattle.ipam_data.specs.Ranges.{populated_at};
ghost use Rattle.ipam_data.specs.Addresses.{address_rules, address_fault, address_barred, is_moved, has_role};
ghost use Rattle.register_tables.specs.Held.{state_of};
ghost use Rattle.register_tables.specs.Planned.{IsPlanned};
ghost use Rattle.register_plans.specs.Meets.{address_meets};

use crate::calls::plan_replace;
use crate::candidates::{area_of, ids_asked};
use crate::filters::{asks_family, asks_name, asks_parent, asks_text};
use crate::listed::Listed;
use crate::registered::Registered;
use inet_num::is_one_address;
use ip_addresses::AddressRules;
use ipam_data::address::{AddressRole, AddressStatus, IpAddress, MOST_ADDRESSES};
use ipam_data::calls::{Edit, Filter};
use ipam_data::kinds::{Kind, Table, is_one_table};
use ipam_data::replies::{Refusal, Rule, View};
use register_tables::{Planned, RowTables, missing_vrf};
use std::alloc::AllocError;
use vrf_table::VrfRules;

/// The first rule past the VRF that it names that an address breaks given the rows of other ids.
fn fault(row_tables: &RowTables, row: &IpAddress) -> Option<Rule>
    ensures { result ≡ address_fault row_tables.now.addresses.rows row.now (is_enforcing row_tables.now.global_unique row_tables.now.vrfs.rows (table_of row.now.vrf)) }
{
    let enforcing = row_tables
        .vrfs()
        .enforcing(Table::of(row.vrf), row_tables.global_unique());
    row_tables.addresses().fault(row, enforcing)
}

/// Why no address may be put in the place of this one, if so: a range of its table has it that somebody else fills.
fn filled(row_tables: &RowTables, row: &IpAddress) -> Option<Rule>
    ensures { result ≡ option_map PopulatedRule (populated_at row_tables.now.ranges.rows (table_of row.now.vrf) row.now.host.addr) }
{
    match row_tables
        .ranges()
        .populated(Table::of(row.vrf), row.host.addr())
    {
        Some(id) => Some(Rule::Populated(id)),
        None => None,
    }
}

/// Why a call may not make the address, past its other rules.
#[tactic(auto, unfolding(ipam_data::specs::Addresses::address_barred))]
fn barred_new(row_tables: &RowTables, row: &IpAddress) -> Option<Rule>
    ensures { result ≡ address_barred row_tables.now.ranges.rows None row.now }
{
    filled(row_tables, row)
}

/// Whether the address is put in its place: the one of its id has another host or is of another table, or there is none.
fn is_coming(row_tables: &RowTables, row: &IpAddress) -> bool
    ensures { result ≡ is_moved (row_at address_id row_tables.now.addresses.rows row.now.id) row.now }
{
    match IpAddress::found(row_tables, row.id) {
        Some(old) => {
            !(is_one_address(old.host.addr(), row.host.addr())
                && is_one_table(Table::of(old.vrf), Table::of(row.vrf)))
        }
        None => true,
    }
}

/// Why a call may not put the address in the place of the one of its id, past its other rules.
#[tactic(auto, unfolding(ipam_data::specs::Addresses::address_barred))]
fn barred_changed(row_tables: &RowTables, row: &IpAddress) -> Option<Rule>
    ensures { result ≡ address_barred row_tables.now.ranges.rows (row_at address_id row_tables.now.addresses.rows row.now.id) row.now }
{
    if is_coming(row_tables, row) {
        filled(row_tables, row)
    } else {
        None
    }
}

/// The first rule that an address breaks that no call makes: the VRF that it names comes first.
pub(crate) fn standing_fault(row_tables: &RowTables, row: &IpAddress) -> Option<Rule>
    ensures { result ≡ first (address_rules.references (state_of row_tables.now) row.now ++ address_rules.faults (state_of row_tables.now) None row.now) }
{
    match row.missing(row_tables) {
        Some(rule) => Some(rule),
        None => fault(row_tables, row),
    }
}

/// Whether the status is the one that is asked for.
fn asks_status(wanted: &Option<AddressStatus>, status: AddressStatus) -> bool
    ensures { result ≡ asks wanted.now (λ t. address_status_number status == address_status_number t) }
{
    match wanted {
        None => true,
        Some(wanted) => status.number() == wanted.number(),
    }
}

/// Whether the role is the one that is asked for.
fn asks_role(wanted: &Option<AddressRole>, role: Option<AddressRole>) -> bool
    ensures { result ≡ asks wanted.now (λ r. has_role r role) }
{
    match (wanted, role) {
        (None, _) => true,
        (Some(wanted), Some(role)) => role.number() == wanted.number(),
        (Some(_), None) => false,
    }
}

impl Listed for IpAddress {
    ghost rules = { address_rules };

    ghost meets = { address_meets };

    fn kind() -> Kind {
        Kind::Addresses
    }

    fn copied(&self) -> Result<IpAddress, AllocError> {
        self.copy()
    }

    fn into_view(self) -> View {
        View::IpAddress(self)
    }

    fn is_met(&self, filter: &Filter) -> bool {
        match filter {
            Filter::Addresses {
                family,
                vrf_id,
                status,
                role,
                parent,
                dns_name,
            } => {
                asks_family(family, self.host.addr().family())
                    && asks_name(vrf_id, self.vrf)
                    && asks_status(status, self.status)
                    && asks_role(role, self.role)
                    && asks_parent(parent, self.host.addr())
                    && asks_text(dns_name, self.dns_name.as_str())
            }
            _ => false,
        }
    }
}

impl Registered for IpAddress {
    fn most() -> u32 {
        MOST_ADDRESSES
    }

    fn found<'a>(row_tables: &'a RowTables, id: u32) -> Option<&'a IpAddress> {
        row_tables.addresses().get(id)
    }

    fn count(row_tables: &RowTables) -> u32 {
        row_tables.addresses().len()
    }

    fn nth<'a>(row_tables: &'a RowTables, index: u32) -> Option<&'a IpAddress> {
        row_tables.addresses().at(index)
    }

    fn candidates(row_tables: &RowTables, filter: &Filter) -> Result<Option<Vec<u32>>, AllocError> {
        let Filter::Addresses {
            family: _,
            vrf_id,
            status: _,
            role: _,
            parent,
            dns_name: _,
        } = filter
        else {
            return Ok(None);
        };
        ids_asked(row_tables, row_tables.addresses(), vrf_id, &area_of(parent))
    }

    fn next(row_tables: &RowTables) -> u32 {
        row_tables.next(Kind::Addresses)
    }

    fn missing(&self, row_tables: &RowTables) -> Option<Rule> {
        missing_vrf(row_tables, self.vrf)
    }

    fn fault_new(&self, row_tables: &RowTables) -> Option<Rule> {
        match fault(row_tables, self) {
            Some(rule) => Some(rule),
            None => barred_new(row_tables, self),
        }
    }

    fn fault_changed(&self, row_tables: &RowTables) -> Option<Rule> {
        match fault(row_tables, self) {
            Some(rule) => Some(rule),
            None => barred_changed(row_tables, self),
        }
    }

    fn user(_row_tables: &RowTables, _id: u32) -> Option<Refusal> {
        None
    }

    fn forgetting(row_tables: &RowTables, _id: u32) -> Result<Vec<View>, AllocError> {
        Ok(Vec::new(row_tables.allocator()))
    }
}

/// Plans the address of an id with the fields of an edit changed. `Err` means out of memory.
pub fn plan_edit(row_tables: &RowTables, id: u32, edit: &Edit) -> Result<Planned, AllocError>
    ensures { IfOk result (λ p. IsPlanned (change address_rules (state_of row_tables.now) id nothing_told (edited_address edit.now)) p) }
{
    let row = match IpAddress::found(row_tables, id) {
        Some(old) => old.edited(edit)?,
        None => return Ok(Planned::Refused(Refusal::NotFound(Kind::Addresses, id))),
    };
    plan_replace(row_tables, row)
}
