//! Rows in a list, as a keeper in memory has them.

ghost use Rattle.std.specs.Prelude.{◌≡◌, ◌+◌, ◌==◌, ◌≤◌, ◌++◌, vec_len, vec_capacity};
ghost use Rattle.std.specs.List.{position};
ghost use Rattle.number_pools.specs.Rows.{member_id, range_id};
ghost use Rattle.pool_keeper.specs.Stored.{with_changed, without_first};

use number_pools::{Member, NumberRange};

/// The index of the first range of the id.
fn range_place(rows: &[NumberRange], id: u32) -> Option<usize>
    ensures { result ≡ position (λ row. range_id row == id) rows.now }
{
    rows.iter().position(|row| row.id == id)
}

/// The index of the first member of the id.
fn member_place(rows: &[Member], id: u32) -> Option<usize>
    ensures { result ≡ position (λ row. member_id row == id) rows.now }
{
    rows.iter().position(|row| row.id == id)
}

/// Takes the first range of the id out, if there is an id and such a range. It takes no memory, and leaves all room.
pub(crate) fn cut_range(rows: &mut Vec<NumberRange>, id: Option<u32>)
    ensures rows { rows.new.items ≡ without_first range_id id rows.old.items }
    ensures len { vec_len rows.new ≤ vec_len rows.old }
    ensures capacity { vec_capacity rows.new ≡ vec_capacity rows.old }
{
    let Some(id) = id else {
        return;
    };
    match range_place(rows.as_slice(), id) {
        Some(at) => {
            rows.remove(at);
        }
        None => {}
    }
}

/// Takes the first member of the id out, if there is an id and such a member. It takes no memory, and leaves all room.
pub(crate) fn cut_member(rows: &mut Vec<Member>, id: Option<u32>)
    ensures rows { rows.new.items ≡ without_first member_id id rows.old.items }
    ensures len { vec_len rows.new ≤ vec_len rows.old }
    ensures capacity { vec_capacity rows.new ≡ vec_capacity rows.old }
{
    let Some(id) = id else {
        return;
    };
    match member_place(rows.as_slice(), id) {
        Some(at) => {
            rows.remove(at);
        }
        None => {}
    }
}

/// Puts a range in the place of the first one of its id, if there is a range to put and such a one. It takes no memory, and leaves all room.
pub(crate) fn change_range(rows: &mut Vec<NumberRange>, row: Option<NumberRange>)
    ensures rows { rows.new.items ≡ with_changed range_id row rows.old.items }
    ensures len { vec_len rows.new ≡ vec_len rows.old }
    ensures capacity { vec_capacity rows.new ≡ vec_capacity rows.old }
{
    let Some(row) = row else {
        return;
    };
    match range_place(rows.as_slice(), row.id) {
        Some(at) => rows[at] = row,
        None => {}
    }
}

/// Puts a member in the place of the first one of its id, if there is a member to put and such a one. It takes no memory, and leaves all room.
pub(crate) fn change_member(rows: &mut Vec<Member>, row: Option<Member>)
    ensures rows { rows.new.items ≡ with_changed member_id row rows.old.items }
    ensures len { vec_len rows.new ≡ vec_len rows.old }
    ensures capacity { vec_capacity rows.new ≡ vec_capacity rows.old }
{
    let Some(row) = row else {
        return;
    };
    match member_place(rows.as_slice(), row.id) {
        Some(at) => rows[at] = row,
        None => {}
    }
}

/// Puts rows, for which there is room, after all others.
pub(crate) fn push_all<T: Drop>(rows: &mut Vec<T>, news: Vec<T>)
    requires { vec_len rows.old + vec_len news ≤ vec_capacity rows.old }
    ensures { rows.new.items ≡ rows.old.items ++ news.items }
{
    let mut rest = news.into_iter();
    while let Some(row) = rest.next() {
        rows.push_reserved(row);
    }
}
