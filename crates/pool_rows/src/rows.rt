//! The rows of pools in memory.

ghost use Rattle.std.specs.Prelude.{◌≡◌, ◌≢◌, ℕ, ◌+◌, ◌<◌, ◌≤◌, ◌^◌, [], length, find, Contains, IfOk, OnOk, OnErr, option_copied};
ghost use Rattle.inet_num.specs.declared.Family.TheVariants.{V6};
ghost use Rattle.block_space.specs.Usable.{AreSingles};
ghost use Rattle.ipam_data.specs.Checks.{most_spent};
ghost use Rattle.ipam_data.specs.RowList.{AllBelow, Rises, last_next, least, row_at, with_row};
ghost use Rattle.number_pools.specs.declared.rows.Member.{Member as OneMember};
ghost use Rattle.number_pools.specs.Rows.{empty_pools, member_id, range_id};
ghost use Rattle.number_pools.specs.Free.{holds, pool_at, pool_of as pool_of_range};
ghost use Rattle.number_pools.specs.Keys.{AreKeys, key_block};
ghost use Rattle.number_pools.specs.Lawful.{AreNumbered, IsLawfulPools};
ghost use Rattle.number_pools.specs.Steps.{with_edited_member, with_edited_range, with_range, without_member, without_range};
ghost use Rattle.number_pools.specs.Limits.{AreFew};
ghost use Rattle.pool_rows.specs.Held.{KeepsItsKind, KeepsItsNumber, with_member};

use crate::keys::key_at;
use crate::opening::book_of;
use block_space::Space;
use inet_num::Family;
use number_pools::{MOST_HELD, Member, NumberRange, pool_of};
use placed_book::{Book, RowBook};
use radix_tree::Tree;
use std::alloc::{AllocError, Global};
use std::marker::Model;

/// Ranges and members with the next ids, how many items of the log are spent, and the numbers of all members in one tree.
///
/// A contract sees the pools, and how many more ranges and members can be put without taking memory. The tree has just the numbers of the
/// members.
#[derive(Drop)]
pub struct PoolRows {
    ranges: RowBook<NumberRange>,
    members: RowBook<Member>,
    taken: Tree,
    next_range: u32,
    next_member: u32,
    spent: u32,
}

impl Model for PoolRows {
    ghost use Rattle.std.specs.Prelude.{◌≡◌};
    ghost use Rattle.inet_num.specs.declared.Family.TheVariants.{V6};
    ghost use Rattle.number_pools.specs.Keys.{AreKeys};
    ghost use Rattle.pool_rows.specs.Held.{Held};

    ghost Value = { Held };

    ghost view = { λ r. record { pools = record { ranges = record { rows = r.ranges.rows; next = r.next_range }; members = record { rows = r.members.rows; next = r.next_member }; spent = r.spent }; range_room = r.ranges.spare; member_room = r.members.spare; key_room = r.taken.spare } };

    ghost invariant = { λ r. AreKeys r.ranges.rows r.members.rows r.taken.blocks × (r.taken.family ≡ V6) };
}

impl PoolRows {
    /// Pools without rows and without room. It takes no memory.
    pub fn new(alloc: Global) -> PoolRows
        ensures { result.pools ≡ empty_pools }
    {
        PoolRows {
            ranges: RowBook::new(alloc),
            members: RowBook::new(alloc),
            taken: Tree::new(alloc, Family::V6),
            next_range: 1,
            next_member: 1,
            spent: 0,
        }
    }

    /// The rows of these ranges and members, whose ids rise, with these next ids, and no item of the log spent. `Err` means out of memory, or
    /// more ranges or members than can be held.
    pub fn of(
        alloc: Global,
        ranges: Vec<NumberRange>,
        members: Vec<Member>,
        next_range: u32,
        next_member: u32,
    ) -> Result<PoolRows, AllocError>
        requires ranges { Rises range_id 0 ranges.items }
        requires members { Rises member_id 0 members.items }
        ensures pools { IfOk result (λ r. r.pools ≡ record { ranges = record { rows = ranges.items; next = next_range }; members = record { rows = members.items; next = next_member }; spent = 0 }) }
        ensures few { IfOk result (λ r. AreFew r.pools) }
    {
        match book_of(alloc, ranges) {
            Ok(ranges) => {
                let rows = PoolRows {
                    ranges,
                    members: RowBook::new(alloc),
                    taken: Tree::new(alloc, Family::V6),
                    next_range,
                    next_member,
                    spent: 0,
                };
                filled(rows, members)
            }
            Err(AllocError) => {
                drop(members);
                Err(AllocError)
            }
        }
    }

    /// Puts a member after all others, whose ids are lower. The next id and the log stay. It takes no memory.
    fn admit(&mut self, member: Member)
        requires below { AllBelow member_id member.id self.old.pools.members.rows }
        requires id { 1 ≤ member.id }
        requires room { 1 ≤ self.old.member_room }
        requires key_room { 1 ≤ self.old.key_room }
        ensures pools { self.new.pools ≡ record { ranges = self.old.pools.ranges; members = record { rows = with_row member_id self.old.pools.members.rows member; next = self.old.pools.members.next }; spent = self.old.pools.spent } }
        ensures room { self.old.member_room ≤ self.new.member_room + 1 }
        ensures key_room { self.old.key_room ≤ self.new.key_room + 1 }
    {
        let _len = self.members.len();
        let key = key_at(self.pool(member.range), member.number);
        self.taken.insert(key);
        self.members.put(member);
    }

    /// Puts members whose ids rise, if there are none. It takes no memory.
    fn admit_all(&mut self, members: Vec<Member>)
        requires rises { Rises member_id 0 members.items }
        requires empty { self.old.pools.members.rows ≡ [] }
        requires room { length members.items ≤ self.old.member_room }
        requires key_room { length members.items ≤ self.old.key_room }
        ensures { self.new.pools ≡ record { ranges = self.old.pools.ranges; members = record { rows = members.items; next = self.old.pools.members.next }; spent = self.old.pools.spent } }
    {
        let mut rest = members.into_iter();
        'row: while let Some(member) = rest.next() {
            self.admit(member);
        }
    }

    /// The ranges, in the order of their ids.
    pub fn ranges(&self) -> &[NumberRange]
        ensures { result.now ≡ self.now.pools.ranges.rows }
    {
        self.ranges.rows()
    }

    /// The members, in the order of their ids.
    pub fn members(&self) -> &[Member]
        ensures { result.now ≡ self.now.pools.members.rows }
    {
        self.members.rows()
    }

    /// How many members there are.
    pub fn member_count(&self) -> u32
        ensures count { result ≡ length self.now.pools.members.rows }
        ensures few { length self.now.pools.members.rows < 2 ^ 30 }
    {
        self.members.len()
    }

    /// The range of an id, of either kind.
    pub fn range(&self, id: u32) -> Option<&NumberRange>
        ensures { option_copied result ≡ row_at range_id self.now.pools.ranges.rows id }
    {
        self.ranges.get(id)
    }

    /// The member of an id, of a range of either kind.
    pub fn member(&self, id: u32) -> Option<&Member>
        ensures { option_copied result ≡ row_at member_id self.now.pools.members.rows id }
    {
        self.members.get(id)
    }

    /// The id of the range that is made next.
    pub fn next_range(&self) -> u32
        ensures { result ≡ self.now.pools.ranges.next }
    {
        self.next_range
    }

    /// The id of the member that is made next.
    pub fn next_member(&self) -> u32
        ensures { result ≡ self.now.pools.members.next }
    {
        self.next_member
    }

    /// How many items of the log are spent.
    pub fn spent(&self) -> u32
        ensures { result ≡ self.now.pools.spent }
    {
        self.spent
    }

    /// The tree of the numbers of all members.
    pub fn taken(&self) -> &Tree
        ensures keys { AreKeys self.now.pools.ranges.rows self.now.pools.members.rows result.now.blocks }
        ensures singles { AreSingles result.now.blocks }
        ensures family { result.now.family ≡ V6 }
    {
        &self.taken
    }

    /// The pool of the range of this id; without one, that id.
    pub fn pool(&self, id: u32) -> u32
        ensures { (m : OneMember) → m.range ≡ id → result ≡ pool_at self.now.pools.ranges.rows m }
    {
        match self.ranges.get(id) {
            Some(range) => pool_of(range),
            None => id,
        }
    }

    /// Whether a member holds this number of this pool.
    fn holds(&self, pool: u32, number: u32, member: &Member) -> bool
        ensures { result ≡ holds self.now.pools.ranges.rows pool number member.now }
    {
        if member.number == number {
            return self.pool(member.range) == pool;
        }
        false
    }

    /// The first member that holds a number of a pool, found by a look at all of them.
    fn held_by(&self, pool: u32, number: u32) -> Option<&Member>
        ensures { option_copied result ≡ find (holds self.now.pools.ranges.rows pool number) self.now.pools.members.rows }
    {
        self.members
            .rows()
            .iter()
            .find(|member| self.holds(pool, number, member))
    }

    /// The id of the member that holds a number of the pool of a range, if one does. The tree has the number if one does, so that the members
    /// are looked at for a number that is taken alone.
    pub fn holder(&self, range: &NumberRange, number: u32) -> Option<u32>
        ensures { result ≡ least member_id (holds self.now.pools.ranges.rows (pool_of_range range.now) number) self.now.pools.members.rows }
    {
        let pool = pool_of(range);
        if self.taken.times(key_at(pool, number)) == 0 {
            return None;
        }
        match self.held_by(pool, number) {
            Some(member) => Some(member.id),
            None => None,
        }
    }

    /// Makes room for one range more. `Err` means out of memory.
    pub fn reserve_range(&mut self) -> Result<(), AllocError>
        requires { length self.old.pools.ranges.rows + 1 < 2 ^ 30 }
        ensures pools { self.new.pools ≡ self.old.pools }
        ensures ok { OnOk result (1 ≤ self.new.range_room) }
    {
        self.ranges.reserve(1)
    }

    /// Makes room for so many members more. `Err` means out of memory.
    pub fn reserve_members(&mut self, n: u32) -> Result<(), AllocError>
        requires { length self.old.pools.members.rows + n < 2 ^ 30 }
        ensures pools { self.new.pools ≡ self.old.pools }
        ensures ok { OnOk result (n ≤ self.new.member_room) }
        ensures key_ok { OnOk result (n ≤ self.new.key_room) }
    {
        self.members.reserve(n)?;
        self.taken.reserve(n)
    }

    /// Puts a range, whose id is the next one, after all others. It takes no memory.
    pub fn put_range(&mut self, range: NumberRange)
        requires lawful { IsLawfulPools self.old.pools }
        requires room { 1 ≤ self.old.range_room }
        requires id { range.id ≡ self.old.pools.ranges.next }
        requires ids { self.old.pools.ranges.next + 1 ≤ last_next }
        requires log { self.old.pools.spent + 1 ≤ most_spent }
        ensures { self.new.pools ≡ with_range self.old.pools range }
    {
        self.ranges.put(range);
        self.next_range += 1;
        self.spent += 1;
    }

    /// Makes room for a range in the place of another. `Err` means out of memory, or as many ranges as can be held.
    pub fn reserve_range_edit(&mut self) -> Result<(), AllocError>
        ensures pools { self.new.pools ≡ self.old.pools }
        ensures ok { OnOk result (1 ≤ self.new.range_room) }
    {
        if self.ranges.len() as usize >= MOST_HELD {
            return Err(AllocError);
        }
        self.ranges.reserve(1)
    }

    /// Makes room for a member in the place of another. `Err` means out of memory, or as many members as can be held.
    pub fn reserve_member_edit(&mut self) -> Result<(), AllocError>
        ensures pools { self.new.pools ≡ self.old.pools }
        ensures ok { OnOk result (1 ≤ self.new.member_room) }
    {
        if self.members.len() as usize >= MOST_HELD {
            return Err(AllocError);
        }
        self.members.reserve(1)
    }

    /// Puts a range in the place of the one of its id, which is of its kind. It takes no memory.
    pub fn edit_range(&mut self, range: NumberRange)
        requires keeps { KeepsItsKind self.old.pools range }
        requires id { 1 ≤ range.id }
        requires room { 1 ≤ self.old.range_room }
        requires log { self.old.pools.spent + 1 ≤ most_spent }
        ensures { self.new.pools ≡ with_edited_range self.old.pools range }
    {
        self.ranges.put(range);
        self.spent += 1;
    }

    /// Puts a member in the place of the one of its id, which is of its range and has its number. It takes no memory.
    pub fn edit_member(&mut self, member: Member)
        requires keeps { KeepsItsNumber self.old.pools member }
        requires id { 1 ≤ member.id }
        requires room { 1 ≤ self.old.member_room }
        requires log { self.old.pools.spent + 1 ≤ most_spent }
        ensures { self.new.pools ≡ with_edited_member self.old.pools member }
    {
        self.members.put(member);
        self.spent += 1;
    }

    /// Takes the range of an id out, of which there are no members. It takes no memory, and leaves all room.
    pub fn cut_range(&mut self, id: u32)
        requires unused { (m : OneMember) → Contains self.old.pools.members.rows m → m.range ≢ id }
        requires log { self.old.pools.spent + 1 ≤ most_spent }
        ensures { self.new.pools ≡ without_range self.old.pools id }
    {
        self.ranges.cut(id);
        self.spent += 1;
    }

    /// Puts a member, whose id is the next one, after all others. It takes no memory.
    pub fn put_member(&mut self, member: Member)
        requires numbered { AreNumbered member_id self.old.pools.members }
        requires room { 1 ≤ self.old.member_room }
        requires key_room { 1 ≤ self.old.key_room }
        requires id { member.id ≡ self.old.pools.members.next }
        requires ids { self.old.pools.members.next + 1 ≤ last_next }
        requires log { self.old.pools.spent + 1 ≤ most_spent }
        ensures pools { self.new.pools ≡ with_member self.old.pools member }
        ensures room { self.old.member_room ≤ self.new.member_room + 1 }
        ensures key_room { self.old.key_room ≤ self.new.key_room + 1 }
    {
        let _len = self.members.len();
        let key = key_at(self.pool(member.range), member.number);
        self.taken.insert(key);
        self.members.put(member);
        self.next_member += 1;
        self.spent += 1;
    }

    /// Takes the member of an id out, if there is one. It takes no memory, and leaves all room.
    pub fn cut_member(&mut self, id: u32)
        requires log { self.old.pools.spent + 1 ≤ most_spent }
        ensures { self.new.pools ≡ without_member self.old.pools id }
    {
        let _rows = self.members.rows();
        let key = match self.members.get(id) {
            Some(member) => key_at(self.pool(member.range), member.number),
            None => {
                self.spent += 1;
                return;
            }
        };
        self.taken.remove(key);
        self.members.cut(id);
        self.spent += 1;
    }
}

/// The rows with these members, whose ids rise, if there are none. `Err` means out of memory, or more members than can be held.
fn filled(rows: PoolRows, members: Vec<Member>) -> Result<PoolRows, AllocError>
    requires rises { Rises member_id 0 members.items }
    requires empty { rows.pools.members.rows ≡ [] }
    ensures pools { IfOk result (λ r. r.pools ≡ record { ranges = rows.pools.ranges; members = record { rows = members.items; next = rows.pools.members.next }; spent = rows.pools.spent }) }
    ensures few { IfOk result (λ r. length members.items ≤ MOST_HELD) }
{
    let mut rows = rows;
    if members.len() > MOST_HELD {
        drop(members);
        drop(rows);
        return Err(AllocError);
    }
    match rows.reserve_members(members.len() as u32) {
        Ok(()) => {
            rows.admit_all(members);
            Ok(rows)
        }
        Err(AllocError) => {
            drop(members);
            drop(rows);
            Err(AllocError)
        }
    }
}
