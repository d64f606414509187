//! Exports: the rows of each kind, with the quotes of RFC 4180 (2.5 to 2.7); the report; and a store that stays as it is.

use crate::running::{Left, run_words};
use crate::stores::opener_of;
use ipam_listen::ListListener;
use pool_keeper::opener::MemoryPoolOpener;
use std::alloc::{AllocError, Global};
use std::marker::Sync;
use std::sync::Wait;
use std::test::Fail;
use std::thread::Threads;

/// Two ranges and a group, with members of each.
const STORE: &str =
    "4 5;range 1 asn private 64512 65534;range 2 vlan a,b 1 4094;range 3 asn public 1 10;member 1 1 64513 edge;member 2 2 10 say\"x\";member 3 2 20 voice;member 4 3 7";

/// What is asked for, and what it prints.
const EXPORTS: [(&str, &str); 8] = [
    (
        "export asn-ranges --db a",
        "name,start,end\nprivate,64512,65534\npublic,1,10\n",
    ),
    (
        "export vlan-groups --db=a",
        "name,start,end\n\"a,b\",1,4094\n",
    ),
    (
        "export --db a asns",
        "range,asn,name\nprivate,64513,edge\npublic,7,\n",
    ),
    (
        "export vlans --db a",
        "group,vid,name\n\"a,b\",10,\"say\"\"x\"\"\"\n\"a,b\",20,voice\n",
    ),
    ("export vlan-groups --db b", "name,start,end\n"),
    ("export asns", "range,asn,name\n"),
    (
        "report --db a",
        "asn-range private 64512-65534: 1 taken, 1022 free: 64512 64514-65534
vlan-group a,b 1-4094: 2 taken, 4092 free: 1-9 11-19 21-4094
asn-range public 1-10: 1 taken, 9 free: 1-6 8-10
",
    ),
    ("report", ""),
];

/// Runs the words over the store.
fn exported<R: Threads + Wait + Sync>(
    rt: &R,
    alloc: Global,
    words: &str,
    opener: &mut MemoryPoolOpener,
) -> Result<Left, AllocError> {
    let mut nobody = ListListener::new(alloc, Vec::new(alloc))?;
    run_words(rt, alloc, words, b"no input", 5, &mut nobody, opener)
}

#[test]
fn rows_are_printed_and_the_store_stays(rt: HostRuntime) -> Result<(), Fail> {
    let mut opener = opener_of(rt.alloc(), STORE)?;
    for (words, wanted) in EXPORTS {
        let left = exported(&rt, rt.alloc(), words, &mut opener)?;
        assert_eq!(rt; left.status, 0, "{words}");
        assert_eq!(rt; left.output.as_slice(), wanted.as_bytes(), "{words}");
        assert!(rt; left.errors.is_empty(), "{words}");
    }
    Ok(())
}
