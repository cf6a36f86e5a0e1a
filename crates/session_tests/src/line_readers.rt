//! A reader of lines over a source that gives little or fails, or has a line that is too long; and bytes
//! that are put into a sink.
use crate::rows::{check, with_line_feeds};
use program_edge::{LineReader, MemSink, MemSource, NextLine, ReadStop, SureSink, put_all};
use std::alloc::Global;

/// What a reader answers; the most bytes of a line, the most bytes that one call of its source gives, and
/// the call that fails (0: none); and the input, in which `/` stands for a line feed.
///
/// An answer is a line's length, behind a dot where the line has no line feed; `L` is a line that is too
/// long, `e` the end, `f` a failure. After `L` and `e` the reader isn't asked again.
const READS: &str = "e: 4 9 0:
0e: 4 9 0:/
20.3e: 4 9 0:ab//abc
203e: 4 1 0:ab//abc/
f24.1e: 4 1 2:ab/abcd/x
2L: 4 3 0:ab/abcde
2L: 4 99 0:ab/abcde/x
f2.4e: 4 99 1:ab/abcd
f.4e: 4 2 3:abcd";

/// What a reader answers.
fn answer(alloc: Global, next: Result<NextLine, ReadStop>) -> Option<String> {
    match next {
        Ok(NextLine::Line(line)) => format!(in alloc; "{}", line.as_slice().len()).ok(),
        Ok(NextLine::Last(line)) => format!(in alloc; ".{}", line.as_slice().len()).ok(),
        Ok(NextLine::Long) => String::from_str(alloc, "L").ok(),
        Ok(NextLine::End) => String::from_str(alloc, "e").ok(),
        Err(ReadStop::Failed) => String::from_str(alloc, "f").ok(),
        Err(ReadStop::OutOfMemory) => None,
    }
}

/// What a reader answers, up to a line that is too long or the end.
fn answers(alloc: Global, most: usize, source: &mut MemSource) -> Option<String> {
    let mut reader = LineReader::new(alloc, most).ok()?;
    let mut told = String::new(alloc);
    for _ in 0..20 {
        let next = answer(alloc, reader.next(alloc, source))?;
        told.push_str(next.as_str()).ok()?;
        if next.as_str() == "L" || next.as_str() == "e" {
            break;
        }
    }
    Some(told)
}

/// What a row wants, and what its reader answers.
fn told(alloc: Global, row: &str) -> Option<(&str, String)> {
    let (want, rest) = row.split_once(": ")?;
    let (numbers, text) = rest.split_once(':')?;
    let (most, numbers) = numbers.split_once(' ')?;
    let (piece, failing) = numbers.split_once(' ')?;
    let piece: usize = piece.parse().ok()?;
    if piece == 0 {
        return None;
    }
    let failing = vec![in alloc; failing.parse().ok()?].ok()?;
    let mut source = MemSource::new(with_line_feeds(alloc, text)?, piece, failing);
    let told = answers(alloc, most.parse().ok()?, &mut source)?;
    Some((want, told))
}

#[test]
fn reads_lines(rt: HostRuntime) {
    for row in READS.lines() {
        check(&rt, row, told(rt.alloc(), row));
    }
}

#[test]
fn adds_every_byte_once(rt: HostRuntime) {
    let alloc = rt.alloc();
    let mut sink = MemSink::new(Vec::new(alloc), Vec::new(alloc));
    assert!(rt; put_all(&mut sink, b"one line\n").is_ok());
    assert!(rt; put_all(&mut sink, b"").is_ok());
    assert_eq!(rt; sink.as_slice(), b"one line\n".as_slice());
    assert!(rt; put_all(&mut SureSink, b"more").is_ok());
}
