//! Runs over lines with small limits.
ghost use Rattle.std.specs.Prelude.{◌≡◌, ◌∷◌, [], Ok, Err, if◌then◌else◌, nat_eq};
ghost use Rattle.std.specs.List.{list_any};
ghost use Rattle.program_edge.specs.declared.status.LineWhy.TheVariants.{Hex};
ghost use Rattle.program_edge.specs.declared.status.Status.TheVariants as status;
ghost use Rattle.line_runs.specs.Output.{behind, stops};

use crate::rows::{check, with_line_feeds};
use gd_variant::OutOfMemory;
use line_runs::{Behind, LineTaker, run_lines};
use program_edge::{LineStop, LineWhy, MemSink, MemSource, Status};
use std::alloc::Global;

/// The exit status and how many lines are written; the most bytes of a line and the most bytes of the
/// input that are judged; and the input, in which `/` stands for a line feed.
const LIMITS: &str = "0 3: 4 10:0505/0606/
5 2: 4 10:0505/0606//
5 1: 4 9:0505/0606/
0 3: 4 9:0505/0606
5 1: 4 9:0505/06060
4 1: 4 10:0505/06060
4 0: 4 10:050g5/
3 0: 5 10:050g5/
5 0: 5 5:050g5/
3 0: 5 5:050g5
0 1: 4 0:
5 0: 4 0:/
0 3: 4 7:0505/e/0g/
0 3: 4 6:0505/e
5 1: 4 6:0505/e/
4 1: 4 10:0505/0505e";

/// Whether a line has this byte.
fn has(line: &[u8], byte: u8) -> bool
    ensures { result ≡ list_any (λ b. nat_eq b byte) line.now }
{
    line.iter().any(|b| *b == byte)
}

/// Answers each line by an empty line, but finds one with a `g` wrong. A line with an `e` ends the input,
/// whose end gives one more empty line.
#[derive(Drop)]
struct Blank;

impl LineTaker for Blank {
    ghost command = { record { told = λ ls line. if list_any (λ b. nat_eq b 103) line then Err Hex else Ok (10 ∷ []); is_last = λ ls line. list_any (λ b. nat_eq b 101) line; closing = λ ls. behind ((10 ∷ []) ∷ []) (stops status.Done) } };

    ghost reasons = { λ why. why ≡ Hex };

    ghost fills = { ⊥ };

    ghost took = { λ s ls. Unit {0} };

    ghost known = { λ ls. Unit {0} };

    fn take(
        &mut self,
        _alloc: Global,
        _n: u64,
        line: &[u8],
        text: &mut Vec<u8>,
    ) -> Result<Behind, LineStop> {
        if has(line, b'g') {
            return Err(LineStop::LineBad(LineWhy::Hex));
        }
        text.push(b'\n')?;
        if has(line, b'e') {
            return Ok(Behind::End);
        }
        Ok(Behind::Lines)
    }

    fn close(
        &mut self,
        _alloc: Global,
        _n: u64,
        text: &mut Vec<u8>,
    ) -> Result<Status, OutOfMemory> {
        text.push(b'\n')?;
        Ok(Status::Done)
    }

    ghost knows = { λ s ls taken. tt };
}

/// The exit status of a run with these limits, and how many lines are written.
fn limited(alloc: Global, longest: usize, limit: u32, input: &str) -> Option<String> {
    let input = with_line_feeds(alloc, input)?;
    let mut source = MemSource::new(input, 10, Vec::new(alloc));
    let mut sink = MemSink::new(Vec::new(alloc), Vec::new(alloc));
    let mut taker = Blank;
    let status = run_lines(alloc, longest, limit, &mut taker, &mut source, &mut sink).exit_code();
    let lines = sink.as_slice().len();
    format!(in alloc; "{status} {lines}").ok()
}

/// What a row wants, and what its run comes to.
fn told(alloc: Global, row: &str) -> Option<(&str, String)> {
    let (want, rest) = row.split_once(": ")?;
    let (limits, input) = rest.split_once(':')?;
    let (longest, limit) = limits.split_once(' ')?;
    let told = limited(alloc, longest.parse().ok()?, limit.parse().ok()?, input)?;
    Some((want, told))
}

#[test]
fn limits_are_exact(rt: HostRuntime) {
    for row in LIMITS.lines() {
        check(&rt, row, told(rt.alloc(), row));
    }
}
