//! Keepers over databases: what they load, and that what they hold after changes is what a keeper in memory holds.

use crate::changing::wrong_over;
use crate::database::{Trial, is_run, told_lines};
use crate::register_file::FILE;
use crate::told::loaded;
use sqlite::{Alter, Connection};
use sqlite_keeper::SqliteKeeper;
use std::alloc::{AllocError, Global};
use std::test::Fail;

/// What makes a database, a bar, and what its keeper then loads.
const LOADS: &str = "\
|2:1,1,1,1,1,1,1,:
CREATE TABLE other (id INTEGER PRIMARY KEY)|Failed
CREATE TABLE meta (name TEXT PRIMARY KEY, value INTEGER NOT NULL) STRICT|Failed
CREATE TABLE meta (name TEXT PRIMARY KEY, value INTEGER NOT NULL) STRICT; INSERT INTO meta (name, value) VALUES ('version', 9)|9::
CREATE TABLE meta (name TEXT PRIMARY KEY, value INTEGER NOT NULL) STRICT; INSERT INTO meta (name, value) VALUES ('version', 1)|Failed
CREATE TABLE meta (name TEXT PRIMARY KEY, value INTEGER NOT NULL) STRICT; INSERT INTO meta (name, value) VALUES ('version', 2)|Failed
CREATE TABLE meta (name TEXT PRIMARY KEY, value INTEGER NOT NULL) STRICT; INSERT INTO meta (name, value) VALUES ('version', 4294967296)|Failed
CREATE TABLE meta (name TEXT PRIMARY KEY, value INTEGER NOT NULL) STRICT; INSERT INTO meta (name, value) VALUES ('version', -1)|Failed
";

/// Changes one after another, each with its answer: the rows that are put, the ids that are removed, the next ids. The first one makes what model/tables.sql
/// makes; the third one changes every column. If there are `many` they are VRFs.
const CHANGES: &str = "\
done|vrfs,1,red,65000:1,false,office;vrfs,2,blue,65000:2,true,guests;rirs,1,ARIN,arin,true,north;rirs,2,RIPE NCC,ripe,false,east;roles,1,LAN,lan,10,cables;roles,2,WAN,wan,32767,links;aggregates,1,10.0.0.0/8,2,own;aggregates,2,2001:db8::/32,1,six;prefixes,1,10.0.0.0/16,1,container,2,true,false,halls;prefixes,2,2001:db8::/48,2,reserved,1,false,true,rooms;ip-ranges,1,10.0.0.10/24,10.0.0.19/24,1,reserved,2,true,false,printers;ip-ranges,2,2001:db8::a/64,2001:db8::f/64,2,deprecated,1,false,true,phones;ip-addresses,1,10.0.0.1/24,1,dhcp,vip,gw.example.org,gateway;ip-addresses,2,2001:db8::5/64,2,slaac,carp,b.example.org,host||vrfs,3;rirs,4;roles,5;aggregates,6;prefixes,7;ip-ranges,8;ip-addresses,9
Failed|vrfs,3,green,65000:3|vrfs,1|vrfs,9
done|vrfs,1,green,65000:7,true,lab;vrfs,9,black,65000:8,false,far;rirs,1,APNIC,apnic,false,south;rirs,9,LACNIC,lacnic,true,west;roles,1,MAN,man,11,rings;roles,9,VPN,vpn,12,tunnels;aggregates,1,172.16.0.0/12,1,private;aggregates,9,192.168.0.0/16,2,home;prefixes,1,10.1.0.0/16,2,deprecated,1,false,true,floors;prefixes,9,10.2.0.0/16,3,active,4,true,false,roofs;ip-ranges,1,10.0.1.10/25,10.0.1.20/25,2,active,1,false,true,cameras;ip-ranges,9,10.0.2.30/26,10.0.2.40/26,3,reserved,4,true,false,doors;ip-addresses,1,10.0.0.2/25,2,reserved,hsrp,m.example.org,mail;ip-addresses,9,10.0.0.3/26,3,deprecated,glbp,n.example.org,news||vrfs,30;rirs,31;roles,32;aggregates,33;prefixes,34;ip-ranges,35;ip-addresses,36
done|||
done||vrfs,2;rirs,2;roles,2;aggregates,2;prefixes,2;ip-ranges,2;ip-addresses,2|
done|roles,9,MAN,man,13,;prefixes,4,10.3.0.0/16,,active,,false,false,|aggregates,9;ip-ranges,1|prefixes,4294967295;rirs,31
done|many||vrfs,2000
";

/// What a keeper loads of a database that the words make.
struct Loading;

impl Trial for Loading {
    fn over<S: Alter + Drop>(
        alloc: Global,
        mut conn: Connection<S>,
        words: &str,
    ) -> Result<String, AllocError> {
        if !is_run(&mut conn, words) {
            return Err(AllocError);
        }
        let mut keeper = SqliteKeeper::adopt(alloc, conn);
        loaded(alloc, &mut keeper)
    }
}

#[test]
fn databases_are_loaded(rt: HostRuntime) -> Result<(), Fail> {
    let told = told_lines::<Loading>(rt.alloc(), LOADS)?;
    assert!(rt; told.as_str() == LOADS, "{told}");
    Ok(())
}

#[test]
fn changes_are_stored_whole_or_not_at_all(rt: HostRuntime) -> Result<(), Fail> {
    let wrong = wrong_over(rt.alloc(), "", "0", CHANGES)?;
    assert!(rt; wrong.is_empty(), "{wrong}");
    Ok(())
}

#[test]
fn a_database_of_sqlite3_is_loaded_and_changed(rt: HostRuntime) -> Result<(), Fail> {
    let wrong = wrong_over(rt.alloc(), FILE, "1", CHANGES)?;
    assert!(rt; wrong.is_empty(), "{wrong}");
    Ok(())
}
