//! Runs of a session and of packets over sources that give little or fail, and over sinks that fail.
use crate::rows::check;
use mp_replay::run;
use program_edge::{MemSink, MemSource};
use std::alloc::Global;

/// The session of examples/first.session.
const SESSION: &str =
    r#"{"nodes":[{"path":"s","spawner":{"under":"s","scenes":["p"]}}],"scenes":[{"name":"p","props":[["v",0]],"methods":[],"syncs":[{"props":[["v","change",true]]}]}]}
["connect"]
["op",1,["spawn","s","p","p1",[["v",5]]]]
["rel",1,2]
["report",2]
"#;

/// What it writes, as docs/GUIDE.md has it.
const WRITTEN: &str = r#"[2,"done"]
["new",2]
[3,"done"]
["sent",1,2,"reliable","040001000000010000000100000003000000020000007031000205"]
[4,"done"]
[5,"done"]
["peer",2,[1]]
["node",2,1,0,"s"]
["node",2,1,1,"s/p1"]
["value",2,"s/p1","v",5]
"#;

/// Lines of packets, the last without a line feed.
const PACKETS: &str = "0501000000\n050100\n\n800100\n07030200000003FF";

/// What they give.
const SHOWN: &str = r#"["despawn",1]
["bad",1,"Short"]
["bad",0,"Empty"]
["call",1,0,[]]
["relay",2,["raw","ff"]]
"#;

/// The exit status and how many of the lines are written; the command; the most bytes that one call of its
/// source gives; and the call of `take` and the call of `put` that fail (0: none).
///
/// In pieces of 40 bytes the scene line ends in piece 5, the lines behind it in pieces 5, 6, 6 and 6, and
/// piece 7 is the end. In pieces of 10 bytes the packets of lines 1, 2 and 3 end in piece 2, line 4 in
/// piece 3, line 5 with the input. What one piece gives is put in one call.
const RUNS: &str = "0 10: replay 40 0 0
7 0: replay 40 1 0
7 0: replay 40 2 0
7 0: replay 40 5 0
7 2: replay 40 6 0
7 10: replay 40 7 0
8 0: replay 40 0 1
8 2: replay 40 0 2
0 10: replay 40 0 3
0 5: show 10 0 0
7 0: show 10 1 0
7 0: show 10 2 0
7 3: show 10 3 0
7 4: show 10 4 0
7 4: show 10 5 0
7 4: show 10 6 0
8 0: show 10 0 1
8 3: show 10 0 2
8 4: show 10 0 3
0 5: show 10 0 4";

/// How many lines are held, where they are the first of those that a run writes, whole.
fn count_lines(held: &str, written: &str) -> Option<usize> {
    if !written.starts_with(held) {
        return None;
    }
    if !held.is_empty() && !held.ends_with('\n') {
        return None;
    }
    Some(held.lines().count())
}

/// Runs a command over an input of which a call gives so many bytes, and of which a call fails. Answers the
/// exit status. What it writes is added to the sink.
fn ran(
    alloc: Global,
    command: &str,
    input: &str,
    calls: (usize, u64),
    sink: &mut MemSink,
) -> Option<u8> {
    let (piece, take) = calls;
    if piece == 0 {
        return None;
    }
    let word = String::from_str(alloc, command).ok()?;
    let words = vec![in alloc; word].ok()?;
    let input = Vec::from_slice(alloc, input.as_bytes()).ok()?;
    let mut source = MemSource::new(input, piece, vec![in alloc; take].ok()?);
    Some(run(alloc, words.as_slice(), &mut source, sink).exit_code())
}

/// What a row wants, and the exit status of its run and how many lines are held.
fn told(alloc: Global, row: &str) -> Option<(&str, String)> {
    let (want, rest) = row.split_once(": ")?;
    let (command, rest) = rest.split_once(' ')?;
    let (piece, calls) = rest.split_once(' ')?;
    let (take, put) = calls.split_once(' ')?;
    let calls = (piece.parse().ok()?, take.parse().ok()?);
    let (input, written) = match command {
        "replay" => (SESSION, WRITTEN),
        _ => (PACKETS, SHOWN),
    };
    let mut sink = MemSink::new(Vec::new(alloc), vec![in alloc; put.parse().ok()?].ok()?);
    let status = ran(alloc, command, input, calls, &mut sink)?;
    let held = String::from_utf8_lossy(alloc, sink.as_slice()).ok()?;
    let lines = count_lines(held.as_str(), written)?;
    Some((want, format!(in alloc; "{status} {lines}").ok()?))
}

#[test]
fn faults_end_the_run(rt: HostRuntime) {
    for row in RUNS.lines() {
        check(&rt, row, told(rt.alloc(), row));
    }
}
