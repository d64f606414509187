//! Aggregates: blocks that an operator has from registries. None shares an address with another.

ghost use Rattle.std.specs.Prelude.{◌≡◌, ◌==◌, true, false, List, Contains, None};
ghost use Rattle.inet_num.specs.Net.{Cidr, IsBlock};
ghost use Rattle.inet_num.specs.Blocks.{is_strictly_inside};
ghost use Rattle.ipam_data.specs.declared.aggregate.Aggregate.{Aggregate as SeenAggregate};
ghost use Rattle.ipam_data.specs.RowList.{is_rival, least, least_rival};
ghost use Rattle.ipam_data.specs.Rows.{aggregate_id};
ghost use Rattle.ipam_data.specs.Aggregates.{aggregate_fault, overlaps};
ghost use Rattle.aggregates.specs.Book.{IsInOrder};

use block_space::{Space, lawful};
use inet_num::{Block, is_block_inside};
use ipam_data::aggregate::Aggregate;
use ipam_data::kinds::Table;
use ipam_data::replies::Rule;
use placed_book::PlacedBook;

/// Aggregates in the order of their ids, and the spaces of their blocks.
pub type AggregateBook<S> = PlacedBook<Aggregate, S>;

/// The rules of aggregates, as a book of them answers them. None takes memory.
pub trait AggregateRules {
    /// The aggregates in the order of their ids.
    ghost rows: { Self → List SeenAggregate };

    /// The book is in order: what it answers by is of just these aggregates.
    ghost ordered: { Self → Type 0 };

    /// The first rule that the row breaks given the rows of other ids, past its registry: `ZeroMask`, or `AggregateOverlap` with the
    /// least id of another one that shares an address with it. Whether there is one is asked of a space; it looks at the rows only
    /// if the space has a block that overlaps the row's and is not the row's own.
    fn fault(&self, row: &Aggregate) -> Option<Rule>
        requires { ordered self.now }
        ensures { result ≡ aggregate_fault (rows self.now) row.now };

    /// The least id of an aggregate of the RIR of an id.
    fn of_rir(&self, rir: u32) -> Option<u32>
        requires { ordered self.now }
        ensures { result ≡ least aggregate_id (λ row. row.rir == rir) (rows self.now) };
}

/// Whether a space has a block around the block, or inside it and smaller.
fn has_other<S: Space>(space: &S, block: Block) -> bool
    requires { block.family ≡ S.family_of space.now }
    ensures { result ≡ false → (b : Cidr) → Contains (S.held space.now) b → IsBlock b × (is_strictly_inside b block ≡ false) × (is_strictly_inside block b ≡ false) }
{
    lawful(space);
    block.bounds();
    space.around(block) != 0 || space.counting(block, true) != 0
}

/// Whether no other row of the book has an address of the row's block, by the space alone. It may answer no if the row's own block
/// in the book is another one that overlaps it.
fn is_apart<S: Space + Drop>(book: &AggregateBook<S>, row: &Aggregate) -> bool
    requires { IsInOrder book.now }
    ensures { result ≡ true → least_rival aggregate_id overlaps book.now.rows row.now ≡ None }
{
    row.block.bounds();
    if !book.is_alone(row) {
        return false;
    }
    match book.space(Table::Global, row.block.family()) {
        Some(space) => !has_other(space, row.block),
        None => false,
    }
}

/// Whether the other row is another aggregate that shares addresses with this one.
fn is_overlapping(row: &Aggregate, other: &Aggregate) -> bool
    ensures { result ≡ is_rival aggregate_id overlaps row.now other.now }
{
    other.id != row.id
        && (is_block_inside(&row.block, &other.block) || is_block_inside(&other.block, &row.block))
}

/// The least id of such a row, looked for row by row.
fn least_overlap<S: Space + Drop>(book: &AggregateBook<S>, row: &Aggregate) -> Option<u32>
    ensures { result ≡ least_rival aggregate_id overlaps book.now.rows row.now }
{
    let count = book.len();
    'rows: for index in 0..count {
        if let Some(other) = book.at(index) {
            if is_overlapping(row, other) {
                return Some(other.id);
            }
        }
    }
    None
}

/// Whether the aggregate is of the RIR of an id.
fn is_of(row: &Aggregate, rir: u32) -> bool
    ensures { result ≡ (row.now.rir == rir) }
{
    row.rir == rir
}

impl<S: Space + Drop> AggregateRules for AggregateBook<S> {
    ghost use Rattle.aggregates.specs.Book.{IsInOrder};

    ghost rows = { λ b. b.rows };

    ghost ordered = { λ b. IsInOrder b };

    #[tactic(auto, unfolding(ipam_data::specs::Aggregates::aggregate_fault))]
    fn fault(&self, row: &Aggregate) -> Option<Rule> {
        if row.block.len() == 0 {
            return Some(Rule::ZeroMask);
        }
        if is_apart(self, row) {
            return None;
        }
        match least_overlap(self, row) {
            Some(id) => Some(Rule::AggregateOverlap(id)),
            None => None,
        }
    }

    fn of_rir(&self, rir: u32) -> Option<u32> {
        let count = self.len();
        'rows: for index in 0..count {
            if let Some(row) = self.at(index) {
                if is_of(row, rir) {
                    return Some(row.id);
                }
            }
        }
        None
    }
}
