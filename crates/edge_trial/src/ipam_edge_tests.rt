//! Objects in memory and streams, called one time after another.

use ipam_edge::{
    BytesSink, BytesSource, Failed, Sink, Source, StdSink, StdSource, standard_error,
    standard_input, standard_output, write_all,
};
use std::alloc::{AllocError, Global};
use std::test::Fail;

/// What ten calls with room for `size` bytes read: the bytes, and a letter for each call, `r` if
/// it read some bytes, `e` for the end and `f` if it failed.
fn read_in_ten<S: Source>(
    alloc: Global,
    source: &mut S,
    size: usize,
) -> Result<(Vec<u8>, String), AllocError> {
    let mut room = vec![in alloc; 0u8; size]?;
    let mut bytes = Vec::new(alloc);
    let mut calls = String::new(alloc);
    for _ in 0..10 {
        match source.read(&mut room) {
            Ok(0) => calls.push('e')?,
            Ok(n) => {
                calls.push('r')?;
                bytes.extend_from_slice(&room[..n])?;
            }
            Err(Failed) => calls.push('f')?,
        }
    }
    Ok((bytes, calls))
}

/// The numbers of a word, a comma between each and the next. What is no number fails as for lack of memory.
fn numbers_of(alloc: Global, word: &str) -> Result<Vec<u32>, AllocError> {
    let mut numbers = Vec::new(alloc);
    if word.is_empty() {
        return Ok(numbers);
    }
    for digits in word.split(',') {
        numbers.push(digits.parse::<u32>().map_err(|_| AllocError)?)?;
    }
    Ok(numbers)
}

/// The word of a case at an index, after a bar each. If there is none, the case is wrong, and the test fails as for lack of memory.
fn word(case: &str, index: usize) -> Result<&str, AllocError> {
    case.split('|').nth(index).ok_or(AllocError)
}

/// The number of a case at an index, likewise.
fn number(case: &str, index: usize) -> Result<usize, AllocError> {
    word(case, index)?.parse::<usize>().map_err(|_| AllocError)
}

/// What a source has, which of its reads fail, and how many bytes it gives at once but for one; what ten reads of three bytes do, and how
/// many failed.
const SOURCES: &str = "\
register||0|rrrrrrrree|0
register||2|rrreeeeeee|0
register||4095|rrreeeeeee|0
register|0|2|frrreeeeee|1
register|1,2,5|2|rffrrfeeee|3
register|9,3|2|rrrfeeeeef|2
||0|eeeeeeeeee|0
|1|6|efeeeeeeee|1
";

/// A source of a case, read as its line says.
fn told_source(alloc: Global, case: &str) -> Result<String, AllocError> {
    let bytes = Vec::from_slice(alloc, word(case, 0)?.as_bytes())?;
    let fails = numbers_of(alloc, word(case, 1)?)?;
    let mut source = BytesSource::new(bytes, fails, number(case, 2)? % 4096 + 1);
    let (read, calls) = read_in_ten(alloc, &mut source, 3)?;
    let read = String::from_utf8_lossy(alloc, read.as_slice())?;
    let faults = source.faults();
    let left = source.left().len();
    format!(in alloc; "{read} {calls} {faults} {left}")
}

/// What that should be: all bytes were read, and none is left.
fn wanted_source(alloc: Global, case: &str) -> Result<String, AllocError> {
    let text = word(case, 0)?;
    let calls = word(case, 3)?;
    let faults = word(case, 4)?;
    format!(in alloc; "{text} {calls} {faults} 0")
}

#[test]
fn a_source_gives_its_bytes(rt: HostRuntime) -> Result<(), Fail> {
    for case in SOURCES.lines() {
        let told = told_source(rt.alloc(), case)?;
        let wanted = wanted_source(rt.alloc(), case)?;
        assert_eq!(rt; told.as_str(), wanted.as_str(), "{case}");
    }
    Ok(())
}

/// Which writes of a sink fail, how many bytes it takes at once but for one, and its room; what is there after `register` was written to
/// it, whether that is all, and how many calls failed.
const SINKS: &str = "\
|0|8|register|true|0
|2|9|register|true|0
|4095|8|register|true|0
|4095|7|registe|false|1
|0|0||false|1
0|4095|8||false|1
1|2|8|reg|false|1
2|2|8|regist|false|1
3|2|8|register|true|0
";

/// What is written to a sink of a case, and what is known of that: whether all was, the faults, its bytes, whether nothing can be written
/// then, and the bytes that it gives back.
fn told_sink(alloc: Global, case: &str) -> Result<String, AllocError> {
    let fails = numbers_of(alloc, word(case, 0)?)?;
    let piece = number(case, 1)? % 4096 + 1;
    let mut sink = BytesSink::new(alloc, fails, piece, number(case, 2)?)?;
    let written = write_all(&mut sink, b"register").is_ok();
    let faults = sink.faults();
    let seen = String::from_utf8_lossy(alloc, sink.bytes())?;
    let nothing = write_all(&mut sink, b"").is_ok();
    let bytes = String::from_utf8_lossy(alloc, sink.into_bytes().as_slice())?;
    format!(in alloc; "{written} {faults} {seen} {nothing} {bytes}")
}

/// What that should be.
fn wanted_sink(alloc: Global, case: &str) -> Result<String, AllocError> {
    let bytes = word(case, 3)?;
    let written = word(case, 4)?;
    let faults = word(case, 5)?;
    format!(in alloc; "{written} {faults} {bytes} true {bytes}")
}

#[test]
fn a_sink_takes_its_room(rt: HostRuntime) -> Result<(), Fail> {
    for case in SINKS.lines() {
        let told = told_sink(rt.alloc(), case)?;
        let wanted = wanted_sink(rt.alloc(), case)?;
        assert_eq!(rt; told.as_str(), wanted.as_str(), "{case}");
    }
    Ok(())
}

#[test]
fn a_full_sink_goes_on_failing(rt: HostRuntime) -> Result<(), Fail> {
    let mut sink = BytesSink::new(rt.alloc(), Vec::new(rt.alloc()), 4096, 3)?;
    assert_eq!(rt; sink.write(b"abcd"), Ok(3));
    assert_eq!(rt; sink.write(b"d"), Err(Failed));
    assert_eq!(rt; sink.write(b""), Ok(0));
    assert_eq!(rt; sink.write(b"de"), Err(Failed));
    assert_eq!(rt; sink.faults(), 2);
    assert_eq!(rt; sink.bytes(), b"abc".as_slice());
    Ok(())
}

#[test]
fn streams_count_their_faults(rt: HostRuntime) -> Result<(), Fail> {
    let mut source = StdSource::new(b"register".as_slice());
    let (read, calls) = read_in_ten(rt.alloc(), &mut source, 3)?;
    assert_eq!(rt; read.as_slice(), b"register".as_slice());
    assert_eq!(rt; calls.as_str(), "rrreeeeeee");

    // A slice as a stream takes what fits, and then takes no byte of a piece.
    let mut room = [0u8; 3];
    let mut sink = StdSink::new(room.as_mut_slice());
    assert_eq!(rt; sink.write(b"abcd"), Ok(3));
    assert_eq!(rt; sink.write(b""), Ok(0));
    assert_eq!(rt; sink.write(b"d"), Err(Failed));
    assert_eq!(rt; write_all(&mut sink, b"d"), Err(Failed));

    // The standard streams themselves: nothing is written to them here.
    assert_eq!(rt; standard_output(&rt).write(b""), Ok(0));
    assert_eq!(rt; standard_error(&rt).write(b""), Ok(0));
    assert_eq!(rt; standard_input(&rt).read(&mut []), Ok(0));
    Ok(())
}
