//! The run over an input of lines.
ghost use Rattle.std.specs.Prelude.{◌≡◌, ◌≤◌, ◌+◌, ◌^◌, ◌<◌, ◌∷◌, [], List, ℕ, Some, None, IfSome, IfErr, IfOk};
ghost use Rattle.program_edge.specs.Lines.{IsOpen, fresh, unread};
ghost use Rattle.program_edge.specs.Lines.FirstLine.{a_line, last_line, too_long};
ghost use Rattle.program_edge.specs.Lines.{first_line};
ghost use Rattle.line_runs.specs.Ends.{IsLong, IsWriteFault, MayEnd, line_end, read_end};
ghost use Rattle.line_runs.specs.Output.{Command, EndsAs, RunsTo, next_number, read_from, stops};
ghost use Rattle.line_runs.specs.Steps.{IsShorter, MayStep, PutsWaiting, StepEnds, Steps, TakesLine};

use crate::taker::{Behind, LineTaker};
use gd_variant::OutOfMemory;
use program_edge::{
    LineReader, LineStop, NextLine, PIECE, ReadStop, Sink, Source, Status, put_all,
};
use std::alloc::Global;

/// What a line comes to.
enum Step {
    /// It was taken, and so many of the bytes behind it are judged.
    Goes(usize),
    /// The run ends.
    Ends(Status),
}

/// Where a run stands.
#[derive(Drop)]
struct Run {
    reader: LineReader,
    /// The number of the next line.
    n: u64,
    /// The most bytes of a line.
    longest: usize,
    /// So many of the next bytes are judged.
    judged: usize,
    /// What the lines that were taken gave, as far as it isn't written yet.
    text: Vec<u8>,
    ghost most: { reader.most ≡ longest },
    ghost within: { n + judged ≤ 2 ^ 32 },
}

impl Run {
    /// A run before its first line.
    fn new(alloc: Global, longest: usize, limit: u32) -> Result<Run, OutOfMemory>
        ensures reader { IfOk result (λ run. run.reader ≡ fresh longest) }
        ensures text { IfOk result (λ run. run.text.items ≡ []) }
        ensures numbers { IfOk result (λ run. (run.n ≡ 1) × (run.judged ≡ limit) × (run.longest ≡ longest)) }
    {
        Ok(Run {
            reader: LineReader::new(alloc, longest)?,
            n: 1,
            longest,
            judged: limit as usize,
            text: Vec::new(alloc),
        })
    }

    /// One line more was taken, and so many of the bytes behind it are judged.
    fn pass(&mut self, left: usize)
        requires { left < self.old.judged }
        ensures numbers { (self.new.n ≡ self.old.n + 1) × (self.new.judged ≡ left) × (self.new.longest ≡ self.old.longest) }
        ensures reader { self.new.reader ≡ self.old.reader }
        ensures text { self.new.text.items ≡ self.old.text.items }
    {
        self.judged = left;
        self.n += 1;
    }
}

/// How a run ends where a line can't be read.
fn read_status(stop: ReadStop) -> Status
    ensures { result ≡ read_end stop }
{
    match stop {
        ReadStop::Failed => Status::ReadFault,
        ReadStop::OutOfMemory => Status::OutOfMemory,
    }
}

/// Writes a text, and empties it. What is answered ends the run.
fn write_text<K: Sink>(text: &mut Vec<u8>, sink: &mut K) -> Option<Status>
    ensures later { K.faults sink.old ≤ K.faults sink.new }
    ensures ends { IfSome result (λ s. IsWriteFault (K.faults sink.old) (K.faults sink.new) s) }
    ensures puts { PutsWaiting (K.held sink.old) result text.old.items text.new.items (K.held sink.new) }
    ensures empties { result ≡ None → text.new.items ≡ [] }
{
    match put_all(sink, text.as_slice()) {
        Ok(()) => {
            text.clear();
            None
        }
        Err(_) => Some(Status::WriteFault),
    }
}

/// How a run ends at line `n`, which gives nothing.
fn line_status(n: u64, stop: LineStop) -> Status
    ensures { result ≡ line_end n stop }
{
    match stop {
        LineStop::LineBad(why) => Status::BadLine { n, why },
        LineStop::OutOfMemory => Status::OutOfMemory,
    }
}

/// Takes line `n`. Where it gives nothing, the text stays.
fn take_text<T: LineTaker>(
    alloc: Global,
    taker: &mut T,
    n: u64,
    line: &[u8],
    text: &mut Vec<u8>,
) -> Result<Behind, Status>
    ensures ends { IfErr result (MayEnd T.reasons T.fills 0 0 0 0) }
    ensures takes { (ls : List (List ℕ)) → T.took taker.old ls → n ≡ next_number ls → TakesLine n (T.command.told ls line.now) (T.command.is_last ls line.now) text.old.items result text.new.items (T.took taker.new (line.now ∷ ls)) }
{
    let before = text.len();
    match taker.take(alloc, n, line, text) {
        Ok(behind) => Ok(behind),
        Err(stop) => {
            text.truncate(before);
            Err(line_status(n, stop))
        }
    }
}

/// Ends a run in place of line `n`.
fn close<T: LineTaker>(alloc: Global, taker: &mut T, n: u64, text: &mut Vec<u8>) -> Status
    ensures ends { MayEnd T.reasons T.fills 0 0 0 0 result }
    ensures closes { (ls : List (List ℕ)) → T.took taker.old ls → n ≡ next_number ls → EndsAs (T.command.closing ls) text.old.items result (Some text.new.items) }
{
    let before = text.len();
    match taker.close(alloc, n, text) {
        Ok(status) => status,
        Err(OutOfMemory) => {
            text.truncate(before);
            Status::OutOfMemory
        }
    }
}

/// Takes line `n`, which ends with a line feed, where that is one of the next `judged` bytes.
fn take_line<T: LineTaker>(
    alloc: Global,
    taker: &mut T,
    n: u64,
    judged: usize,
    line: &[u8],
    text: &mut Vec<u8>,
) -> Step
    requires { n + judged ≤ 2 ^ 32 }
    ensures ends { MayStep T.reasons T.fills 0 0 result }
    ensures shorter { IsShorter judged result }
    ensures steps { (longest : ℕ) (ls : List (List ℕ)) (bytes rest : List ℕ) → T.took taker.old ls → n ≡ next_number ls → first_line longest bytes ≡ a_line line.now rest → Steps T.command (T.took taker.new) T.known longest judged ls bytes text.old.items result text.new.items (Some rest) }
{
    if line.len() >= judged {
        return Step::Ends(Status::InputLong);
    }
    match take_text(alloc, taker, n, line, text) {
        Ok(Behind::Lines) => Step::Goes(judged - (line.len() + 1)),
        Ok(Behind::End) => Step::Ends(close(alloc, taker, n + 1, text)),
        Err(status) => Step::Ends(status),
    }
}

/// Takes line `n`, the last one, which ends with the input, where it is among the next `judged` bytes.
fn take_last<T: LineTaker>(
    alloc: Global,
    taker: &mut T,
    n: u64,
    judged: usize,
    line: &[u8],
    text: &mut Vec<u8>,
) -> Status
    requires { n + judged ≤ 2 ^ 32 }
    ensures ends { MayEnd T.reasons T.fills 0 0 0 0 result }
    ensures last { (longest : ℕ) (ls : List (List ℕ)) (bytes : List ℕ) → T.took taker.old ls → n ≡ next_number ls → first_line longest bytes ≡ last_line line.now → StepEnds T.known T.command longest judged ls bytes text.old.items result text.new.items }
{
    if line.len() > judged {
        return Status::InputLong;
    }
    match take_text(alloc, taker, n, line, text) {
        Ok(_) => close(alloc, taker, n + 1, text),
        Err(status) => status,
    }
}

/// How a run ends at line `n`, which has more than `longest` bytes: only the next `judged` bytes tell.
fn long_end(n: u64, longest: usize, judged: usize) -> Status
    ensures ends { IsLong result }
    ensures long { (c : Command) (ls : List (List ℕ)) (bytes : List ℕ) → n ≡ next_number ls → first_line longest bytes ≡ too_long → read_from c longest judged ls bytes ≡ stops result }
{
    if longest < judged {
        Status::LineLong { n }
    } else {
        Status::InputLong
    }
}

/// Reads the next line and takes it, where it is among the bytes that are judged. Where that may ask the
/// source, nothing waits.
fn take_next<T: LineTaker, S: Source>(
    alloc: Global,
    taker: &mut T,
    run: &mut Run,
    source: &mut S,
) -> Step
    requires { IsOpen run.old.reader → run.old.text.items ≡ [] }
    ensures reads { S.faults source.old ≤ S.faults source.new }
    ensures ends { MayStep T.reasons T.fills (S.faults source.old) (S.faults source.new) result }
    ensures shorter { IsShorter run.old.judged result }
    ensures stays { (run.new.n ≡ run.old.n) × (run.new.judged ≡ run.old.judged) × (run.new.longest ≡ run.old.longest) }
    ensures steps { (ls : List (List ℕ)) (bytes : List ℕ) → T.took taker.old ls → run.old.n ≡ next_number ls → unread run.old.reader (S.left source.old) ≡ Some bytes → Steps T.command (T.took taker.new) T.known run.old.longest run.old.judged ls bytes run.old.text.items result run.new.text.items (unread run.new.reader (S.left source.new)) }
{
    let n = run.n;
    let judged = run.judged;
    match run.reader.next(alloc, source) {
        Ok(NextLine::Line(line)) => {
            take_line(alloc, taker, n, judged, line.as_slice(), &mut run.text)
        }
        Ok(NextLine::Last(line)) => {
            Step::Ends(take_last(alloc, taker, n, judged, line.as_slice(), &mut run.text))
        }
        Ok(NextLine::Long) => Step::Ends(long_end(n, run.longest, judged)),
        Ok(NextLine::End) => Step::Ends(close(alloc, taker, n, &mut run.text)),
        Err(stop) => Step::Ends(read_status(stop)),
    }
}

/// Writes what waits, where the next line isn't held yet, so that reading may wait for it, and where much
/// waits. What is answered ends the run.
fn write_waiting<K: Sink>(run: &mut Run, sink: &mut K) -> Option<Status>
    ensures later { K.faults sink.old ≤ K.faults sink.new }
    ensures ends { IfSome result (λ s. IsWriteFault (K.faults sink.old) (K.faults sink.new) s) }
    ensures puts { PutsWaiting (K.held sink.old) result run.old.text.items run.new.text.items (K.held sink.new) }
    ensures prompt { result ≡ None → IsOpen run.new.reader → run.new.text.items ≡ [] }
    ensures reader { run.new.reader ≡ run.old.reader }
    ensures stays { (run.new.n ≡ run.old.n) × (run.new.judged ≡ run.old.judged) × (run.new.longest ≡ run.old.longest) }
{
    if run.text.len() < PIECE && run.reader.is_ready() {
        return None;
    }
    write_text(&mut run.text, sink)
}

/// Takes the lines of a source, each of at most `longest` bytes, as far as they are among its first
/// `limit` bytes. A line ends with a line feed, and the last may lack it.
///
/// What the lines give is written before a read that may wait for more input. So an answer never waits for
/// the input behind its line, and what one piece of the input gives is written at once, in one call where
/// it has fewer than 65,536 bytes.
///
/// - `Done`: the input was read to its end, or to a line that ends it, and all that its lines and its end
///   give was written.
/// - `BadLine`: the first line that stops the run, by its number, isn't in the command's grammar.
/// - `PoolFull`: the command ends the input at a line for want of room, by its number.
/// - `LineLong`: the first line that stops the run, by its number, has more than `longest` bytes.
/// - `InputLong`: the input is longer than `limit` bytes, and no line stops the run or ends the input.
/// - `ReadFault`, `WriteFault`: the source or the sink failed in this call.
/// - `OutOfMemory`.
///
/// What was written is always the front of what the whole input gives: up to the line that stopped the
/// run, whole lines at `ReadFault` and `OutOfMemory`, and some of the first bytes at `WriteFault`.
pub fn run_lines<T: LineTaker, S: Source, K: Sink>(
    alloc: Global,
    longest: usize,
    limit: u32,
    taker: &mut T,
    source: &mut S,
    sink: &mut K,
) -> Status
    ensures ends { MayEnd T.reasons T.fills (S.faults source.old) (S.faults source.new) (K.faults sink.old) (K.faults sink.new) result }
    ensures output { T.took taker.old [] → (input held : List ℕ) → S.left source.old ≡ Some input → K.held sink.old ≡ Some held → RunsTo T.known T.command longest limit input held result (K.held sink.new) }
{
    let mut run = match Run::new(alloc, longest, limit) {
        Ok(run) => run,
        Err(OutOfMemory) => return Status::OutOfMemory,
    };
    loop {
        match take_next(alloc, taker, &mut run, source) {
            Step::Goes(left) => run.pass(left),
            Step::Ends(status) => match write_text(&mut run.text, sink) {
                None => return status,
                Some(fault) => return fault,
            },
        }
        match write_waiting(&mut run, sink) {
            None => {}
            Some(fault) => return fault,
        }
    }
}
