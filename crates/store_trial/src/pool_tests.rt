//! Keepers of pools over databases: what they load, and that what they hold after changes is what a keeper in memory holds.

use crate::database::{Trial, is_run, told_lines};
use crate::pool_changing::wrong_over;
use crate::pool_file::FILE;
use crate::told::pools_loaded;
use sqlite::{Alter, Connection};
use sqlite_pools::SqlitePools;
use std::alloc::{AllocError, Global};
use std::test::Fail;

/// What makes the tables of pools, without their numbers.
const MADE: &str = "\
CREATE TABLE meta (name TEXT PRIMARY KEY, value INTEGER NOT NULL) STRICT; \
CREATE TABLE ranges (id INTEGER PRIMARY KEY, kind TEXT NOT NULL, name TEXT NOT NULL, first INTEGER NOT NULL, last INTEGER NOT NULL) STRICT; \
CREATE TABLE members (id INTEGER PRIMARY KEY, range INTEGER NOT NULL, number INTEGER NOT NULL, name TEXT NOT NULL) STRICT; ";

/// What makes a database, a bar, and what its keeper then loads; `made` is what makes the tables, and `numbers` sets the next ids.
const LOADS: &str = "\
|1,1:
CREATE TABLE other (id INTEGER PRIMARY KEY)|Failed
made|Failed
made INSERT INTO meta (name, value) VALUES ('next_ranges', 3)|Failed
made INSERT INTO meta (name, value) VALUES ('next_members', 7)|Failed
made numbers|3,7:
made numbers DROP TABLE members|Failed
made numbers UPDATE meta SET value = 0|0,0:
made numbers UPDATE meta SET value = 4294967295|4294967295,4294967295:
made numbers UPDATE meta SET value = 4294967296 WHERE name = 'next_members'|Failed
made numbers UPDATE meta SET value = -1 WHERE name = 'next_ranges'|Failed
made numbers INSERT INTO ranges (id, kind, name, first, last) VALUES (9, 'asn', 'b', 2, 1), (4, 'vlan', 'a', 0, 4294967295)|3,7:4 Vlan a 0 4294967295;9 Asn b 2 1;
made numbers INSERT INTO ranges (id, kind, name, first, last) VALUES (1, 'ASN', 'a', 2, 3)|Failed
made numbers INSERT INTO ranges (id, kind, name, first, last) VALUES (-1, 'asn', 'a', 2, 3)|Failed
made numbers INSERT INTO ranges (id, kind, name, first, last) VALUES (1, 'asn', 'a', 2, 4294967296)|Failed
made numbers INSERT INTO ranges (id, kind, name, first, last) VALUES (1, 'asn', 'a', -2, 3)|Failed
made numbers INSERT INTO members (id, range, number, name) VALUES (9, 8, 7, 'b'), (4, 5, 6, '')|3,7:4 5 6 ;9 8 7 b;
made numbers INSERT INTO members (id, range, number, name) VALUES (1, 2, 4294967296, 'a')|Failed
made numbers INSERT INTO members (id, range, number, name) VALUES (1, -2, 3, 'a')|Failed
";

/// What sets the next ids.
const NUMBERS: &str =
    "INSERT INTO meta (name, value) VALUES ('next_ranges', 3), ('next_members', 7); ";

/// Changes one after another, each with its answer: the ranges and the members that are put, the id of the range and of the member that is removed, the
/// next ids, and the range and the member that are put in the place of others. The first one makes what model/pool_tables.sql makes. If there are `many` they are members of the range 3.
const CHANGES: &str = "\
done|2,asn,office,64512,64600;3,vlan,floor,10,4094;5,asn,lab \"x\",4200000000,4294967295;8,vlan,façade,7,9|11,2,64513,edge;12,3,20,voice;14,5,4294967294,core;20,8,1,d'or|||9,21
Failed|9,vlan,garden,30,40;3,asn,again,1,2|21,9,31,lamp|5|12|30,31
Failed|9,vlan,garden,30,40|21,9,31,lamp;20,9,32,again|5|12|30,31
done|9,vlan,garden,30,40;10,asn,yard,50,60|21,9,31,lamp;22,10,51,gate|5|12|33,34
done|||||33,34
done|||77|78|35,36
done|10,vlan,back,70,80||10||11,37
done||22,10,71,back||22|38,23
done||many|||39,2000
done|||2|11|40,41
done|||||42,43|3,vlan,ground,9,4094|12,3,20,speech
Failed|9,vlan,garden,30,40|||12|44,45|3,vlan,again,1,2|14,5,4294967294,again
done||||14|46,47|99,asn,none,1,2|14,5,4294967294,gone
done|11,asn,new,5,6||||48,49|11,asn,newer,5,7|
";

/// What the arguments say, with what makes the tables and what sets the next ids in place of their names.
fn text_made_of(alloc: Global, words: &str) -> Result<String, AllocError> {
    let text = words.replace(alloc, "made", MADE)?;
    text.as_str().replace(alloc, "numbers", NUMBERS)
}

/// What a keeper loads of a database that the words make.
struct Loading;

impl Trial for Loading {
    fn over<S: Alter + Drop>(
        alloc: Global,
        mut conn: Connection<S>,
        words: &str,
    ) -> Result<String, AllocError> {
        let text = text_made_of(alloc, words)?;
        if !is_run(&mut conn, text.as_str()) {
            return Err(AllocError);
        }
        let mut keeper = SqlitePools::adopt(alloc, conn);
        pools_loaded(alloc, &mut keeper)
    }
}

#[test]
fn databases_of_pools_are_loaded(rt: HostRuntime) -> Result<(), Fail> {
    let told = told_lines::<Loading>(rt.alloc(), LOADS)?;
    assert!(rt; told.as_str() == LOADS, "{told}");
    Ok(())
}

#[test]
fn changes_of_pools_are_stored_whole_or_not_at_all(rt: HostRuntime) -> Result<(), Fail> {
    let wrong = wrong_over(rt.alloc(), "", "0", CHANGES)?;
    assert!(rt; wrong.is_empty(), "{wrong}");
    Ok(())
}

#[test]
fn pools_of_sqlite3_are_loaded_and_changed(rt: HostRuntime) -> Result<(), Fail> {
    let wrong = wrong_over(rt.alloc(), FILE, "1", CHANGES)?;
    assert!(rt; wrong.is_empty(), "{wrong}");
    Ok(())
}
