//! A conversation with the pools over a store, whose answers are those of pools that were written from the rules alone.

use crate::conversation::{ANSWERED, ASKED};
use crate::running::run_words;
use crate::stores::opener_of;
use ipam_listen::ListListener;
use std::str;
use std::test::Fail;

/// The store: no rows.
const STORE: &str = "1 1";

#[test]
fn a_conversation_is_answered_as_by_plain_pools(rt: HostRuntime) -> Result<(), Fail> {
    let alloc = rt.alloc();
    let mut opener = opener_of(alloc, STORE)?;
    let mut nobody = ListListener::new(alloc, Vec::new(alloc))?;
    let words = "session --db a";
    let asked = ASKED.as_bytes();
    let left = run_words(&rt, alloc, words, asked, 1_000, &mut nobody, &mut opener)?;
    assert!(rt; left.status == 0 && left.errors.is_empty());
    let told = str::from_utf8(left.output.as_slice()).unwrap_or("");
    assert!(rt; told == ANSWERED, "{told}");
    Ok(())
}
