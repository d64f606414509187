//! A List or a Get of VRFs or prefixes, answered from a book of them alone.

ghost use Rattle.std.specs.Prelude.{◌≡◌, IfOk, map};
ghost use Rattle.ipam_data.specs.declared.kinds.Kind.TheVariants.{Prefixes as PrefixesKind};
ghost use Rattle.ipam_data.specs.Prefixes.{prefix_id, view_of};
ghost use Rattle.ipam_data.specs.RowList.{row_at};
ghost use Rattle.prefix_rules.specs.Book.{IsInOrder};
ghost use Rattle.register_plans.specs.Answered.{found_reply, page_reply, figured_among, IsVrfReply, IsPrefixReply};
ghost use Rattle.register_plans.specs.Meets.{prefix_meets};

use crate::calls::{page_among, shown, take_all};
use crate::listed::{Listed, RowsOf};
use block_space::Space;
use ipam_data::calls::{Call, Filter};
use ipam_data::kinds::Kind;
use ipam_data::prefix::Prefix;
use ipam_data::replies::{Refusal, Reply, View, Views};
use ipam_data::vrf::Vrf;
use prefix_rules::{PrefixBook, PrefixRules};
use std::alloc::{AllocError, Global};
use vrf_table::VrfBook;

/// The answer to a Get of a kind whose rows have no figures. `Err` means out of memory.
fn one_among<T: Listed, R: RowsOf<T>>(among: &R, id: u32) -> Result<Reply, AllocError>
    ensures { IfOk result (λ r. r ≡ found_reply T.rules.kind T.rules.view id (row_at T.rules.id (R.rows among.now) id)) }
{
    match among.found(id) {
        Some(row) => shown(row),
        None => Ok(Reply::Refused(Refusal::NotFound(T::kind(), id))),
    }
}

/// Answers a List or a Get of VRFs from a book of them alone: the reply is that of the plain step on each state with these VRFs. A
/// List looks at all rows. `Err` means out of memory, or another call.
pub fn vrf_answer(alloc: Global, book: &VrfBook, call: &Call) -> Result<Reply, AllocError>
    ensures { IfOk result (λ r. IsVrfReply book.now.rows call.now r) }
{
    match call {
        Call::List {
            kind: _,
            filter,
            limit,
            offset,
        } => match filter {
            Filter::Vrfs { name: _, rd: _ } => {
                let reply = page_among::<Vrf, VrfBook>(alloc, book, filter, *limit, *offset)?;
                Ok(reply)
            }
            _ => Err(AllocError),
        },
        Call::Get { kind, id } => match kind {
            Kind::Vrfs => {
                let reply = one_among::<Vrf, VrfBook>(book, *id)?;
                Ok(reply)
            }
            _ => Err(AllocError),
        },
        _ => Err(AllocError),
    }
}

/// The answer to a Get of a prefix, with its figures. `Err` means out of memory.
fn prefix_one<S: Space + Drop>(book: &PrefixBook<S>, id: u32) -> Result<Reply, AllocError>
    requires { IsInOrder book.now }
    ensures { IfOk result (λ r. r ≡ found_reply PrefixesKind (view_of book.now.rows) id (row_at prefix_id book.now.rows id)) }
{
    match book.get(id) {
        Some(row) => Ok(Reply::One(View::Prefix {
            row: row.copy()?,
            depth: book.depth_of(row),
            children: book.children_of(row),
        })),
        None => Ok(Reply::Refused(Refusal::NotFound(Kind::Prefixes, id))),
    }
}

/// Sets the figures of a prefix to those that it has in the book.
fn figure<S: Space + Drop>(book: &PrefixBook<S>, view: &mut View)
    requires { IsInOrder book.now }
    ensures { view.new ≡ figured_among book.now.rows view.old }
{
    match view {
        View::Prefix {
            row,
            depth,
            children,
        } => {
            *depth = book.depth_of(row);
            *children = book.children_of(row);
        }
        View::Vrf(_) => {}
        View::Rir(_) => {}
        View::Role(_) => {}
        View::Aggregate(_) => {}
        View::IpRange(_) => {}
        View::IpAddress(_) => {}
    }
}

/// Rows with the figures that they have in the book.
fn all_figured<S: Space + Drop>(book: &PrefixBook<S>, views: Vec<View>) -> Vec<View>
    requires { IsInOrder book.now }
    ensures { result.items ≡ map (figured_among book.now.rows) views.items }
{
    let mut views = views;
    for view in views.iter_mut() {
        figure(book, view);
    }
    views
}

/// The answer to a List of prefixes, with their figures. `Err` means out of memory.
fn prefix_page<S: Space + Drop>(
    alloc: Global,
    book: &PrefixBook<S>,
    filter: &Filter,
    limit: u32,
    offset: u32,
) -> Result<Reply, AllocError>
    requires { IsInOrder book.now }
    ensures { IfOk result (λ r. r ≡ page_reply (view_of book.now.rows) (prefix_meets filter.now) limit offset book.now.rows) }
{
    let mut views = Vec::new(alloc);
    let count = take_all::<Prefix, PrefixBook<S>>(book, filter, limit, offset, &mut views)?;
    let views = all_figured(book, views);
    Ok(Reply::Page {
        count,
        views: Views::of(views),
    })
}

/// Answers a List or a Get of prefixes from a book of them alone, which is in order: the reply is that of the plain step on each
/// state with these prefixes. A List looks at all rows. `Err` means out of memory, or another call.
pub fn prefix_answer<S: Space + Drop>(
    alloc: Global,
    book: &PrefixBook<S>,
    call: &Call,
) -> Result<Reply, AllocError>
    requires { IsInOrder book.now }
    ensures { IfOk result (λ r. IsPrefixReply book.now.rows call.now r) }
{
    match call {
        Call::List {
            kind: _,
            filter,
            limit,
            offset,
        } => match filter {
            Filter::Prefixes {
                family: _,
                vrf_id: _,
                status: _,
                role_id: _,
                prefix: _,
                within: _,
                within_include: _,
                contains: _,
            } => {
                let reply = prefix_page(alloc, book, filter, *limit, *offset)?;
                Ok(reply)
            }
            _ => Err(AllocError),
        },
        Call::Get { kind, id } => match kind {
            Kind::Prefixes => {
                let reply = prefix_one(book, *id)?;
                Ok(reply)
            }
            _ => Err(AllocError),
        },
        _ => Err(AllocError),
    }
}
