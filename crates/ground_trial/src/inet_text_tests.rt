//! Worked examples of text: those of RFC 4291 2.2 and RFC 5952 4 and 5, and of this repository's rules.

use inet_num::{
    Addr, Block, TextFault, percent, read_addr, read_block, read_host, write_addr, write_block,
};
use std::alloc::{AllocError, Global};
use std::test::Fail;

/// The name of a fault, without what it says further.
pub fn name_of(fault: TextFault) -> &'static str {
    match fault {
        TextFault::Octet => "octet",
        TextFault::Group => "group",
        TextFault::Shape => "shape",
        TextFault::Length => "length",
        TextFault::HostBits(_) => "host bits",
    }
}

fn length_or_fault(host: Result<(Addr, u8), TextFault>) -> &'static str {
    let len = match host {
        Ok((_, len)) => len,
        Err(fault) => return name_of(fault),
    };
    match len {
        0 => "0",
        24 => "24",
        32 => "32",
        60 => "60",
        128 => "128",
        _ => "another length",
    }
}

fn write_fault(fault: TextFault, out: &mut Vec<u8>) -> Result<(), AllocError> {
    match fault {
        TextFault::HostBits(block) => {
            out.extend_from_slice(b"host bits ")?;
            write_block(block, out)
        }
        _ => out.extend_from_slice(name_of(fault).as_bytes()),
    }
}

fn block_or_fault(alloc: Global, read: Result<Block, TextFault>) -> Result<Vec<u8>, AllocError> {
    let mut out = Vec::new(alloc);
    match read {
        Ok(block) => write_block(block, &mut out)?,
        Err(fault) => write_fault(fault, &mut out)?,
    }
    Ok(out)
}

#[test]
fn canonical_texts_of_addresses(rt: HostRuntime) -> Result<(), Fail> {
    let cases = [
        ("1:0:0:2:0:0:0:3", "1:0:0:2::3"),
        ("2001:db8:0:0:1:0:0:1", "2001:db8::1:0:0:1"),
        ("1:0:2:3:4:5:6:7", "1:0:2:3:4:5:6:7"),
        ("1:2:3:4:5:6:7::", "1:2:3:4:5:6:7:0"),
        ("::FFFF:192.0.2.1", "::ffff:c000:201"),
        ("::ffff:0.0.0.1", "::ffff:0:1"),
        ("0:0:0:0:0:0:13.1.68.3", "::d01:4403"),
        ("::FFFF:129.144.52.38", "::ffff:8190:3426"),
        (
            "ABCD:EF01:2345:6789:ABCD:EF01:2345:6789",
            "abcd:ef01:2345:6789:abcd:ef01:2345:6789",
        ),
        ("2001:DB8:0:0:8:800:200C:417A", "2001:db8::8:800:200c:417a"),
        ("FF01:0:0:0:0:0:0:101", "ff01::101"),
        ("0:0:0:0:0:0:0:1", "::1"),
        ("0000:0:000:0::0:0:0", "::"),
        ("2001:0db8::0001", "2001:db8::1"),
        ("2001:db8:0:1:1:1:1:1", "2001:db8:0:1:1:1:1:1"),
        ("2001:0:0:1:0:0:0:1", "2001:0:0:1::1"),
        ("192.0.2.1", "192.0.2.1"),
        ("0.0.0.0", "0.0.0.0"),
    ];
    for (text, want) in cases {
        let mut out = Vec::new(rt.alloc());
        match read_addr(text.as_bytes()) {
            Ok(addr) => write_addr(addr, &mut out)?,
            Err(_) => assert!(rt; false, "{text}"),
        }
        assert!(rt; out.as_slice() == want.as_bytes(), "{text}");
    }
    Ok(())
}

#[test]
fn texts_of_hosts_and_their_faults(rt: HostRuntime) {
    let cases = [
        ("10.0.0.1", "32"),
        ("10.0.0.1/24", "24"),
        ("2001:db8::1", "128"),
        ("2001:db8::1/0", "0"),
        ("2001:0DB8:0000:CD30:0000:0000:0000:0000/60", "60"),
        ("010.0.0.1", "octet"),
        ("10.0.0", "shape"),
        ("", "shape"),
        ("1::2::3", "shape"),
        (":::", "shape"),
        (":1::", "shape"),
        ("1::2:", "shape"),
        ("g::1.2.3", "shape"),
        ("12345::1::", "shape"),
        ("1:2:3:4:5:6:7", "shape"),
        ("1:2:3:4:5:6:7:8::", "shape"),
        ("1:2:3:4:5:6:7:1.2.3.4", "shape"),
        ("12345::", "group"),
        ("fe80::1%eth0", "group"),
        ("1.2.3.4::", "group"),
        ("::1.2.3.4:5", "group"),
        ("1:2:3:4:5:6:7.7.7.7::", "group"),
        ("1::g:300.1.1.1", "group"),
        ("1::a:300.1.1.1", "octet"),
        ("010.0.0.0/99", "octet"),
        ("1:2:3:4:5:6:7:8/129", "length"),
        ("::/00", "length"),
        ("::/", "length"),
        ("::/+8", "length"),
        ("10.0.0.1/33", "length"),
        ("1.2.3.4/5/6", "length"),
        ("10.0.0.0/::", "length"),
    ];
    for (text, want) in cases {
        let got = length_or_fault(read_host(text.as_bytes()));
        assert!(rt; got == want, "{text}");
    }
}

#[test]
fn texts_of_blocks_and_their_faults(rt: HostRuntime) -> Result<(), Fail> {
    let cases = [
        ("2001:0DB8::/32", "2001:db8::/32"),
        ("::ffff:192.0.2.0/120", "::ffff:c000:200/120"),
        ("::/0", "::/0"),
        ("::1/128", "::1/128"),
        ("2001:db8::1/32", "host bits 2001:db8::/32"),
        ("::1/0", "host bits ::/0"),
        ("10.0.0.1/24", "host bits 10.0.0.0/24"),
        ("10.0.0.0", "length"),
        ("2001:db8::1/129", "length"),
        ("::1/064", "length"),
        ("1:2/129", "shape"),
    ];
    for (text, want) in cases {
        let out = block_or_fault(rt.alloc(), read_block(text.as_bytes()))?;
        assert!(rt; out.as_slice() == want.as_bytes(), "{text}");
    }
    Ok(())
}

#[test]
fn percent_does_not_wrap(rt: HostRuntime) {
    let half = 1u128 << 126;
    let whole = 1u128 << 127;
    let cases = [
        (half, whole, 50),
        (1, whole, 0),
        (u128::MAX, 1, 100),
        (whole - 1, whole, 99),
        (0, 1, 0),
        (1, 3, 33),
        (2, 3, 66),
        (200, 256, 78),
        (256, 256, 100),
    ];
    for (count, size, want) in cases {
        assert!(rt; size > 0);
        assert!(rt; size <= whole);
        assert!(rt; percent(count, size) == want, "{count} {size}");
    }
}
