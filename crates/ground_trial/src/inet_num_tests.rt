//! Worked examples: texts from RFC 4632 and this repository's rules, and the blocks that are left of a block.

use crate::inet_text_tests::name_of;
use inet_num::{Addr, Block, Family, available_blocks, read_block, write_block};
use std::alloc::Global;
use std::test::Fail;

fn text_of(alloc: Global, block: Block) -> Result<Vec<u8>, Fail> {
    let mut out = Vec::new(alloc);
    write_block(block, &mut out)?;
    Ok(out)
}

#[test]
fn texts_of_blocks_are_read_and_written(rt: HostRuntime) -> Result<(), Fail> {
    for text in [
        "0.0.0.0/0",
        "10.0.0.0/8",
        "192.0.2.128/25",
        "255.255.255.255/32",
    ] {
        match read_block(text.as_bytes()) {
            Ok(block) => assert!(rt;
                text_of(rt.alloc(), block)?.as_slice() == text.as_bytes(),
                "{text}"
            ),
            Err(_) => assert!(rt; false, "{text}"),
        }
    }
    Ok(())
}

#[test]
fn first_faults_of_texts(rt: HostRuntime) {
    let cases = [
        ("", "shape"),
        ("10.0.0/99", "shape"),
        ("10.0.0.0.0/8", "shape"),
        ("010.0.0.0/99", "octet"),
        ("10.0.0.256/8", "octet"),
        ("10.0.0.", "octet"),
        ("10.0.0.0", "length"),
        ("10.0.0.0/", "length"),
        ("10.0.0.0/08", "length"),
        ("10.0.0.0/+8", "length"),
        ("10.0.0.0/33", "length"),
        ("10.0.0.0/8/8", "length"),
        ("10.0.0.1/33", "length"),
        ("10.0.0.1/24", "host bits"),
    ];
    for (text, want) in cases {
        match read_block(text.as_bytes()) {
            Ok(_) => assert!(rt; false, "{text}"),
            Err(fault) => assert!(rt; name_of(fault) == want, "{text}"),
        }
    }
}

#[test]
fn blocks_left_of_a_block(rt: HostRuntime) -> Result<(), Fail> {
    let cases = [
        ("10.0.0.0/29", "10.0.0.0/31", "10.0.0.2/31\n10.0.0.4/30\n"),
        (
            "10.0.0.0/29",
            "10.0.0.7/32",
            "10.0.0.0/30\n10.0.0.4/31\n10.0.0.6/32\n",
        ),
        ("10.0.0.0/30", "10.0.0.0/30", ""),
        (
            "255.255.255.252/30",
            "255.255.255.255/32",
            "255.255.255.252/31\n255.255.255.254/32\n",
        ),
    ];
    for (within, child, want) in cases {
        let (Ok(within), Ok(child)) = (read_block(within.as_bytes()), read_block(child.as_bytes()))
        else {
            assert!(rt; false, "{want}");
            return Ok(());
        };
        let mut lines = Vec::new(rt.alloc());
        for block in &available_blocks(rt.alloc(), &within, &[child, child])? {
            write_block(*block, &mut lines)?;
            lines.push(b'\n')?;
        }
        assert!(rt; lines.as_slice() == want.as_bytes(), "{want}");
    }
    Ok(())
}

#[test]
fn tests_of_blocks(rt: HostRuntime) {
    let Some(top) = Addr::of(Family::V6, u128::MAX) else {
        assert!(rt; false);
        return;
    };
    assert!(rt; Addr::of(Family::V4, 4294967296).is_none());
    assert!(rt; Block::of(top, 127).is_none());
    let Some(last) = Block::of(top, 128) else {
        assert!(rt; false);
        return;
    };
    assert!(rt; last.halves().is_none() && last.first() == last.last());
    let Some(around) = last.enclosing() else {
        assert!(rt; false);
        return;
    };
    assert!(rt;
        around.len() == 127 && last.strictly_inside(&around) && !around.strictly_inside(&around)
    );
    assert!(rt; around.contains(&around) && !last.contains(&around));
}
