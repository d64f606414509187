//! Files that are read and written again, and files that are refused.

use csv_import::{read_rows, write_rows};
use ipam_data::kinds::Kind;
use ipam_words::refusal_line;
use std::alloc::{AllocError, Global};
use std::test::Fail;

/// What the files are written as, or why they are refused.
const TEXT: &str = "name,rd,enforce_unique,description
red,,true,
blue,1:2,false,\"two, words\"
name,slug,is_private,description
ARIN,arin,false,
row 1: field: weight is missing or malformed
name,slug,weight,description
lan,lan,1000,
row 1: host_bits: host bits are set, the prefix is 10.0.0.0/24
prefix,vrf,status,role,is_pool,mark_utilized,description
10.0.0.0/24,,active,,false,false,\"a \"\"b\"\", c\"
row 2: field: row is missing or malformed
start_address,end_address,vrf,status,role,mark_utilized,mark_populated,description
10.0.0.2/24,10.0.0.9/24,,active,,true,false,
address,vrf,status,role,dns_name,description
10.0.0.1/24,,active,vip,,
2001:db8::1/128,red,active,,Host.,
row 0: field: column is missing or malformed
";

/// Puts a file after a text as it is written again, or why it is refused.
fn again(alloc: Global, kind: Kind, file: &[u8], text: &mut Vec<u8>) -> Result<(), AllocError> {
    match read_rows(alloc, kind, file) {
        Ok(rows) => write_rows(alloc, kind, &rows, text),
        Err(refusal) => {
            let line = refusal_line(alloc, &refusal)?;
            text.extend_from_slice(line.as_bytes())?;
            text.push(b'\n')?;
            Ok(())
        }
    }
}

#[test]
fn files_are_read(rt: HostRuntime) -> Result<(), Fail> {
    let alloc = rt.alloc();
    let mut text = Vec::new(alloc);
    let vrfs = b"description,name,rd,enforce_unique\n,red,,\n\"two, words\",blue,1:2,false\n";
    again(alloc, Kind::Vrfs, vrfs, &mut text)?;
    again(alloc, Kind::Rirs, b"slug,name\narin,ARIN", &mut text)?;
    again(
        alloc,
        Kind::Roles,
        b"name,slug,weight\nlan,lan,007\n",
        &mut text,
    )?;
    again(alloc, Kind::Roles, b"name,slug\nlan,lan\n", &mut text)?;
    let bits = b"prefix,rir\n10.0.0.1/24,ARIN\n";
    again(alloc, Kind::Aggregates, bits, &mut text)?;
    let marked = b"\xEF\xBB\xBFprefix,description\r\n10.0.0.0/24,\"a \"\"b\"\", c\"\r\n";
    again(alloc, Kind::Prefixes, marked, &mut text)?;
    let cut = b"prefix,status\n10.0.0.0/24,active\n10.0.1.0/24";
    again(alloc, Kind::Prefixes, cut, &mut text)?;
    let range = b"end_address,start_address,mark_utilized\n10.0.0.9/24,10.0.0.2/24,true\n";
    again(alloc, Kind::Ranges, range, &mut text)?;
    let addresses = b"address,role,vrf,dns_name\n10.0.0.1/24,vip,,\n2001:DB8::1,,red,Host.\n";
    again(alloc, Kind::Addresses, addresses, &mut text)?;
    again(alloc, Kind::Addresses, b"address,slug\n", &mut text)?;
    assert!(rt; text.as_slice() == TEXT.as_bytes());
    Ok(())
}
