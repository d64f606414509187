//! Lines of PTR records: the worked examples, and names and lines that are none.

use crate::{Pair, PtrFault, fits, ptr_name, read_ptrs, write_ptr};
use inet_num::{read_addr, write_addr};
use itoa::Buffer;
use std::alloc::{AllocError, Global};
use std::test::Fail;

/// What `@` is short for in a case.
const LONGEST_LABEL: &str = "aaaaaaaaaaaaaaaaaaaaaaaaaaaaaaaaaaaaaaaaaaaaaaaaaaaaaaaaaaaaaaa";

/// Inputs and what they give: their pairs, or the first refused line. `|` is a line feed, `^` a carriage return, `>` a tab, and
/// `@` a label of 63 bytes.
const INPUTS: &str = "\
1.2.0.192.in-addr.arpa. IN PTR www.example.com.| => 192.0.2.1,www.example.com;
1.0.0.0.0.0.0.0.0.0.0.0.0.0.0.0.0.0.0.0.0.0.0.0.8.b.d.0.1.0.0.2.ip6.arpa. 3600 in ptr H.Example.| => 2001:db8::1,h.example;
x. IN PTR y.| => line 1
 => 
|^|| => 
; a comment|;| => 
 ; no comment| => line 1
 | => line 1
1.2.0.192.in-addr.arpa. IN PTR a. => 192.0.2.1,a;
1.2.0.192.in-addr.arpa. IN PTR a.^|^|2.2.0.192.in-addr.arpa. IN PTR b. => 192.0.2.1,a;192.0.2.2,b;
1.2.0.192.in-addr.arpa. IN PTR a.^ => line 1
1.2.0.192.in-addr.arpa. IN PTR a.^^| => line 1
> 1.2.0.192.in-addr.arpa.>>IN  PTR > a.> | => 192.0.2.1,a;
|; c|1.2.0.192.in-addr.arpa. IN PTR a.|1.2.0.192.in-addr.arpa. IN PTR a|x| => line 4
1.2.0.192.in-addr.arpa. 0000000000 IN PTR a.| => 192.0.2.1,a;
1.2.0.192.in-addr.arpa. 00000000000 IN PTR a.| => line 1
1.2.0.192.in-addr.arpa. 1h IN PTR a.| => line 1
1.2.0.192.in-addr.arpa. IN 3600 PTR a.| => line 1
1.2.0.192.in-addr.arpa. 1 2 IN PTR a.| => line 1
1.2.0.192.in-addr.arpa. PTR a.| => line 1
1.2.0.192.in-addr.arpa. CH PTR a.| => line 1
1.2.0.192.in-addr.arpa. IN NS a.| => line 1
1.2.0.192.in-addr.arpa. IN PTR| => line 1
1.2.0.192.in-addr.arpa. IN PTR a. ; c| => line 1
0.0.0.0.in-addr.arpa. IN PTR a.|255.255.255.255.IN-ADDR.ARPA. IN PTR b.| => 0.0.0.0,a;255.255.255.255,b;
256.2.0.192.in-addr.arpa. IN PTR a.| => line 1
01.2.0.192.in-addr.arpa. IN PTR a.| => line 1
+1.2.0.192.in-addr.arpa. IN PTR a.| => line 1
.2.0.192.in-addr.arpa. IN PTR a.| => line 1
2.0.192.in-addr.arpa. IN PTR a.| => line 1
0.1.2.0.192.in-addr.arpa. IN PTR a.| => line 1
1.2.0.192.in-addr.arpa IN PTR a.| => line 1
1.2.0.192.ip6.arpa. IN PTR a.| => line 1
0/25.2.0.192.in-addr.arpa. IN PTR a.| => line 1
f.f.f.f.f.f.f.f.f.f.f.f.f.f.f.f.f.f.f.f.f.f.f.f.f.f.f.f.f.f.f.F.IP6.ARPA. IN PTR a.| => ffff:ffff:ffff:ffff:ffff:ffff:ffff:ffff,a;
g.0.0.0.0.0.0.0.0.0.0.0.0.0.0.0.0.0.0.0.0.0.0.0.8.b.d.0.1.0.0.2.ip6.arpa. IN PTR a.| => line 1
10.0.0.0.0.0.0.0.0.0.0.0.0.0.0.0.0.0.0.0.0.0.0.0.8.b.d.0.1.0.0.2.ip6.arpa. IN PTR a.| => line 1
0.0.0.0.0.0.0.0.0.0.0.0.0.0.0.0.0.0.0.0.0.0.0.8.b.d.0.1.0.0.2.ip6.arpa. IN PTR a.| => line 1
0.1.0.0.0.0.0.0.0.0.0.0.0.0.0.0.0.0.0.0.0.0.0.0.0.8.b.d.0.1.0.0.2.ip6.arpa. IN PTR a.| => line 1
1.2.0.192.in-addr.arpa. IN PTR A-_9.Z.| => 192.0.2.1,a-_9.z;
1.2.0.192.in-addr.arpa. IN PTR a..| => line 1
1.2.0.192.in-addr.arpa. IN PTR .| => line 1
1.2.0.192.in-addr.arpa. IN PTR a..b.| => line 1
1.2.0.192.in-addr.arpa. IN PTR *.| => line 1
1.2.0.192.in-addr.arpa. IN PTR *.a.| => line 1
1.2.0.192.in-addr.arpa. IN PTR a/b.| => line 1
1.2.0.192.in-addr.arpa. IN PTR ä.| => line 1
1.2.0.192.in-addr.arpa. IN PTR @.| => 192.0.2.1,@;
1.2.0.192.in-addr.arpa. IN PTR @b.| => line 1
1.2.0.192.in-addr.arpa. IN PTR @.@.@.ccccccccccccccccccccccccccccccccccccccccccccccccccccccccccccc.| => 192.0.2.1,@.@.@.ccccccccccccccccccccccccccccccccccccccccccccccccccccccccccccc;
1.2.0.192.in-addr.arpa. IN PTR @.@.@.cccccccccccccccccccccccccccccccccccccccccccccccccccccccccccccc.| => line 1
";

/// The address and the `dns_name` of a row, and what is printed of it: a line, nothing, or that the name does not fit.
const ROWS: &str = "\
192.0.2.1 www.example.com => 1.2.0.192.in-addr.arpa. IN PTR www.example.com.|
192.0.2.1 www.example.com. => 1.2.0.192.in-addr.arpa. IN PTR www.example.com.|
192.0.2.1 a_b-9 => 1.2.0.192.in-addr.arpa. IN PTR a_b-9.|
192.0.2.1  => 
192.0.2.1 * => 
192.0.2.1 *. => 
192.0.2.1 *.example.com => 
192.0.2.1 . => does not fit
192.0.2.1 a. => 1.2.0.192.in-addr.arpa. IN PTR a.|
192.0.2.1 A => does not fit
192.0.2.1 a.* => does not fit
192.0.2.1 *a => does not fit
192.0.2.1 a..b => does not fit
192.0.2.1 a b => does not fit
192.0.2.1 @ => 1.2.0.192.in-addr.arpa. IN PTR @.|
192.0.2.1 @b => does not fit
192.0.2.1 x.@.y => 1.2.0.192.in-addr.arpa. IN PTR x.@.y.|
192.0.2.1 x.@b => does not fit
192.0.2.1 @.@.@.ccccccccccccccccccccccccccccccccccccccccccccccccccccccccccccc. => 1.2.0.192.in-addr.arpa. IN PTR @.@.@.ccccccccccccccccccccccccccccccccccccccccccccccccccccccccccccc.|
192.0.2.1 @.@.@.cccccccccccccccccccccccccccccccccccccccccccccccccccccccccccccc => does not fit
192.0.2.1 n.example => 1.2.0.192.in-addr.arpa. IN PTR n.example.|
10.2.0.52 n.example => 52.0.2.10.in-addr.arpa. IN PTR n.example.|
2001:db8::1 n.example => 1.0.0.0.0.0.0.0.0.0.0.0.0.0.0.0.0.0.0.0.0.0.0.0.8.b.d.0.1.0.0.2.ip6.arpa. IN PTR n.example.|
4321:0:1:2:3:4:567:89ab n.example => b.a.9.8.7.6.5.0.4.0.0.0.3.0.0.0.2.0.0.0.1.0.0.0.0.0.0.0.1.2.3.4.ip6.arpa. IN PTR n.example.|
";

/// What a character of a case is short for.
fn spelled(c: char) -> char {
    match c {
        '|' => '\n',
        '^' => '\r',
        '>' => '\t',
        _ => c,
    }
}

/// A part of a case, its short forms written out.
fn written_out(alloc: Global, part: &str) -> Result<String, AllocError> {
    let mut text = String::new(alloc);
    for c in part.chars() {
        if c == '@' {
            text.push_str(LONGEST_LABEL)?;
        } else {
            text.push(spelled(c))?;
        }
    }
    Ok(text)
}

/// What is before the mark, and what is after it.
fn halves<'a>(case: &'a str, mark: &'a str) -> (&'a str, &'a str) {
    match case.split_once(mark) {
        Some((front, back)) => (front, back),
        None => (case, ""),
    }
}

/// Appends a pair.
fn write_pair(pair: &Pair, out: &mut Vec<u8>) -> Result<(), AllocError> {
    write_addr(pair.host, out)?;
    out.extend_from_slice(b",")?;
    out.extend_from_slice(pair.name.as_str().as_bytes())?;
    out.extend_from_slice(b";")
}

/// The pairs as a text.
fn pairs_text(alloc: Global, pairs: &[Pair]) -> Result<Vec<u8>, AllocError> {
    let mut text = Vec::new(alloc);
    for pair in pairs {
        write_pair(pair, &mut text)?;
    }
    Ok(text)
}

/// A refused line as a text.
fn fault_text(alloc: Global, fault: PtrFault) -> Result<Vec<u8>, AllocError> {
    match fault {
        PtrFault::Line(n) => {
            let mut digits = Buffer::new();
            let mut text = Vec::from_slice(alloc, b"line ")?;
            text.extend_from_slice(digits.format(n).as_bytes())?;
            Ok(text)
        }
        PtrFault::Memory => Err(AllocError),
    }
}

/// What an input gives, as a text.
fn answer_to(alloc: Global, input: &str) -> Result<Vec<u8>, AllocError> {
    match read_ptrs(alloc, input.as_bytes()) {
        Ok(pairs) => pairs_text(alloc, &pairs),
        Err(fault) => fault_text(alloc, fault),
    }
}

/// The line of a name for the address, or that it does not fit.
fn name_text(alloc: Global, host: &str, name: &str) -> Result<Vec<u8>, AllocError> {
    let Ok(host) = read_addr(host.as_bytes()) else {
        return Err(AllocError);
    };
    if !fits(name) {
        return Vec::from_slice(alloc, b"does not fit");
    }
    let mut line = Vec::new(alloc);
    write_ptr(host, name, &mut line)?;
    Ok(line)
}

/// What is printed of a row.
fn row_text(alloc: Global, row: &str) -> Result<Vec<u8>, AllocError> {
    let (host, dns_name) = halves(row, " ");
    match ptr_name(dns_name) {
        Some(name) => name_text(alloc, host, name),
        None => Ok(Vec::new(alloc)),
    }
}

#[test]
fn rows_are_written(rt: HostRuntime) -> Result<(), Fail> {
    for case in ROWS.lines() {
        let (row, line) = halves(case, " => ");
        let row = written_out(rt.alloc(), row)?;
        let line = written_out(rt.alloc(), line)?;
        let found = row_text(rt.alloc(), &row)?;
        assert!(rt; found.as_slice() == line.as_bytes(), "{case}");
    }
    Ok(())
}

#[test]
fn inputs_are_read(rt: HostRuntime) -> Result<(), Fail> {
    for case in INPUTS.lines() {
        let (input, answer) = halves(case, " => ");
        let input = written_out(rt.alloc(), input)?;
        let answer = written_out(rt.alloc(), answer)?;
        let found = answer_to(rt.alloc(), &input)?;
        assert!(rt; found.as_slice() == answer.as_bytes(), "{case}");
    }
    Ok(())
}
