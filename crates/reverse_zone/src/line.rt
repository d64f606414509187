//! Lines of PTR records.

ghost use Rattle.std.specs.Prelude.{◌≡◌, ◌+◌, ◌≤◌, ◌++◌, IsTrue, IsOk, OnOk, OnErr, vec_len, vec_capacity};
ghost use Rattle.reverse_zone.specs.Names.{fits_dns};
ghost use Rattle.reverse_zone.specs.Records.{line_of};

use crate::owner::{Line, push_all, push_owner};
use arrayvec::ArrayVec;
use inet_num::Addr;
use std::alloc::AllocError;

/// The line of a PTR record: the host's name in `in-addr.arpa` or `ip6.arpa` (RFC 1035 3.5, RFC 3596 2.5), the class, the type, the name with
/// its final period, and a line feed. The name has to fit (`fits`). It takes no memory.
pub fn ptr_line(host: Addr, name: &str) -> Line
    requires { IsTrue (fits_dns name.now) }
    ensures { result.items ≡ line_of host name.now }
{
    let mut line = ArrayVec::new();
    push_owner(&mut line, host);
    push_all(&mut line, b" IN PTR ");
    push_all(&mut line, name.as_bytes());
    push_all(&mut line, b".\n");
    line
}

/// Appends the line of a PTR record (`ptr_line`). The name has to fit (`fits`). If memory runs out, `out` is as before; it does not if `out` has
/// room for `LINE_ROOM` more bytes.
pub fn write_ptr(host: Addr, name: &str, out: &mut Vec<u8>) -> Result<(), AllocError>
    requires { IsTrue (fits_dns name.now) }
    ensures ok { OnOk result (out.new.items ≡ out.old.items ++ line_of host name.now) }
    ensures err { OnErr result (out.new.items ≡ out.old.items) }
    ensures room { vec_len out.old + 404 ≤ vec_capacity out.old → IsOk result }
    ensures capacity { vec_capacity out.old ≤ vec_capacity out.new }
{
    let line = ptr_line(host, name);
    out.extend_from_slice(line.as_slice())
}
