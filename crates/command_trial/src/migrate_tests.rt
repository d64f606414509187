//! Files of version 1: how they are refused, migrated, and used after that.

use crate::command_files_tests::wrong_line;
use crate::store_tests::opener_of;
use crate::tests::run_over;
use std::test::Fail;

/// A store a case, and a command a line, as those of files are.
const CASES: [&str; 8] = [
    r#"1;1 10.0.0.0/24 - active - false false -;range 1 10.0.0.1/24 10.0.0.9/24 - active - false -;next 2
1|session --db a|||store: version 1;
1|import ip-ranges --db a|end_address;||row 0: field: column is missing or malformed;
0|migrate --db a --populated yes||migrated 1;|
0|export ip-ranges --db a||start_address,end_address,vrf,status,role,mark_utilized,mark_populated,description;10.0.0.1/24,10.0.0.9/24,,active,,false,true,;|
0|session --db a|POST /api/ipam/prefixes/1/available-ips/ HTTP/1.1^;Content-Length: 2^;^;{}|HTTP/1.1 201 Created^;Content-Type: application/json^;Content-Length: 143^;Ipam-Place: 0^;^;{"address":"10.0.0.10/24","description":"","dns_name":"","family":4,"id":1,"role":null,"status":{"label":"Active","value":"active"},"vrf":null}|
1|migrate --db a --populated yes|||store: version 2;
1|migrate --db b --populated yes|||store: version 2;"#,
    r#"1;1 10.0.0.0/24 - active - false false -;range 1 10.0.0.1/24 10.0.0.9/24 - active - false -;next 2
1|session --db a|||store: version 1;
1|import ip-ranges --db a|end_address;||row 0: field: column is missing or malformed;
0|migrate --db a --populated no||migrated 1;|
0|export ip-ranges --db a||start_address,end_address,vrf,status,role,mark_utilized,mark_populated,description;10.0.0.1/24,10.0.0.9/24,,active,,false,false,;|
0|session --db a|POST /api/ipam/prefixes/1/available-ips/ HTTP/1.1^;Content-Length: 2^;^;{}|HTTP/1.1 201 Created^;Content-Type: application/json^;Content-Length: 142^;Ipam-Place: 0^;^;{"address":"10.0.0.1/24","description":"","dns_name":"","family":4,"id":1,"role":null,"status":{"label":"Active","value":"active"},"vrf":null}|
1|migrate --db a --populated no|||store: version 2;
1|migrate --db b --populated no|||store: version 2;"#,
    r#"1;1 10.0.0.0/24 - active - false false -;range 1 10.0.0.1/24 10.0.0.9/24 - active - false -;next 2;fails 0
4|migrate --db a --populated yes|||store: the store could not be read;"#,
    r#"1;1 10.0.0.0/24 - active - false false -;range 1 10.0.0.1/24 10.0.0.9/24 - active - false -;next 2;fails 1
4|migrate --db a --populated yes|||store: the store could not be written;
1|export ip-ranges --db a|||store: version 1;"#,
    r#"1;range 1 10.0.0.1/24 10.0.0.9/24 - active - false;next 2
1|migrate --db a --populated no|||store: ip-ranges 1: unreadable;
1|export ip-ranges --db a|||store: version 1;"#,
    r#"1;3 10.0.0.1/24 - active - false false -
0|migrate --db a --populated no||migrated 0;|
1|session --db a|||store: prefixes 3: unreadable;"#,
    r#"9
1|migrate --db a --populated yes|||store: version 9;
1|export vrfs --db a|||store: version 9;"#,
    r#"0
1|migrate --db a --populated yes|||store: version 0;"#,
];

#[test]
fn files_of_version_1(rt: HostRuntime) -> Result<(), Fail> {
    for case in CASES {
        let wrong = wrong_line(&rt, rt.alloc(), case)?;
        assert!(rt; wrong == 0, "line {wrong} of {case}");
    }
    Ok(())
}

#[test]
fn a_message_that_is_not_written_leaves_the_tables(rt: HostRuntime) -> Result<(), Fail> {
    let mut opener = opener_of(rt.alloc(), "9")?;
    let words = "migrate --db a --populated yes";
    let fails: [&[u32]; 3] = [&[], &[], &[0]];
    let left = run_over(&rt, rt.alloc(), &mut opener, words, b"", 4_096, fails)?;
    assert!(rt; left.status == 3, "the messages failed");
    let fails: [&[u32]; 3] = [&[], &[], &[]];
    let left = run_over(&rt, rt.alloc(), &mut opener, words, b"", 4_096, fails)?;
    assert!(rt;
        left.status == 1 && left.errors.as_slice() == b"store: version 9\n".as_slice(),
        "the file was not migrated"
    );
    Ok(())
}

#[test]
fn a_count_that_is_not_written_leaves_migrated_tables(rt: HostRuntime) -> Result<(), Fail> {
    let mut opener = opener_of(rt.alloc(), "1")?;
    let words = "migrate --db a --populated yes";
    let fails: [&[u32]; 3] = [&[], &[0], &[]];
    let left = run_over(&rt, rt.alloc(), &mut opener, words, b"", 4_096, fails)?;
    assert!(rt; left.status == 3, "the output failed");
    let fails: [&[u32]; 3] = [&[], &[], &[]];
    let left = run_over(&rt, rt.alloc(), &mut opener, words, b"", 4_096, fails)?;
    assert!(rt;
        left.status == 1 && left.errors.as_slice() == b"store: version 2\n".as_slice(),
        "the file was migrated"
    );
    Ok(())
}
