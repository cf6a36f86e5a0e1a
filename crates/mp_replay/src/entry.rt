//! The program, over its words and its streams.
ghost use Rattle.std.specs.Prelude.{◌≡◌, drop, IfOk};
ghost use Rattle.std.specs.Process.{exit_status};
ghost use Rattle.std.specs.Vec.Iter.{into_iter_items};
ghost use Rattle.mp_replay.specs.Program.{Ran, Runs, Tells, WordsOf, asked, stream, words_end as words_end_of};

use crate::commands::run;
use program_edge::{Sink, Source, Status, put_status};
use std::alloc::{AllocError, Global};
use std::env::Args;
use std::io;
use std::io::ErrorKind;
use std::process::ExitCode;

/// How the program ends where its words can't be read. A word that isn't UTF-8 is none that it knows.
fn words_end(kind: ErrorKind) -> Status
    ensures { result ≡ words_end_of kind }
{
    match kind {
        ErrorKind::InvalidData => Status::Usage,
        _ => Status::OutOfMemory,
    }
}

/// The words behind the program's name.
fn behind_name(alloc: Global, mut args: Args) -> Result<Vec<String>, AllocError>
    ensures { IfOk result (λ words. words.items ≡ drop 1 (into_iter_items args)) }
{
    let mut words = Vec::new(alloc);
    let _name = args.next();
    while let Some(word) = args.next() {
        words.push(word)?;
    }
    Ok(words)
}

/// The words behind the program's name, or how the program ends without them.
fn words_of(alloc: Global, args: io::Result<Args>) -> Result<Vec<String>, Status>
    ensures { WordsOf (asked args) result }
{
    match args {
        Ok(args) => match behind_name(alloc, args) {
            Ok(words) => Ok(words),
            Err(_) => Err(Status::OutOfMemory),
        },
        Err(e) => Err(words_end(e.kind())),
    }
}

/// Does what the words ask for.
fn run_words<S: Source, K: Sink>(
    alloc: Global,
    args: io::Result<Args>,
    source: &mut S,
    sink: &mut K,
) -> Status
    ensures { Runs (asked args) (stream (S.left source.old) (S.faults source.old)) (stream (S.left source.new) (S.faults source.new)) (stream (K.held sink.old) (K.faults sink.old)) (stream (K.held sink.new) (K.faults sink.new)) result }
{
    match words_of(alloc, args) {
        Ok(words) => run(alloc, words.as_slice(), source, sink),
        Err(status) => status,
    }
}

/// Says on standard error how the program ends, where that isn't the good end.
fn tell<E: Sink>(errors: &mut E, status: Status)
    ensures { Tells status (stream (E.held errors.old) (E.faults errors.old)) (stream (E.held errors.new) (E.faults errors.new)) }
{
    // Where this can't be written, the exit status still tells it.
    let _ = put_status(errors, status);
}

/// Does what the words ask for, says on the third stream how that ended, and answers the number that the
/// process is to end with.
///
/// `args` are the words of the command line as std gives them, with the program's name in front. What
/// each command does is said at `run`. At every end but the good one the third stream gets one line, and
/// no memory is needed for it.
pub fn program<S: Source, K: Sink, E: Sink>(
    alloc: Global,
    args: io::Result<Args>,
    source: &mut S,
    sink: &mut K,
    errors: &mut E,
) -> ExitCode
    ensures { Ran (asked args) (stream (S.left source.old) (S.faults source.old)) (stream (S.left source.new) (S.faults source.new)) (stream (K.held sink.old) (K.faults sink.old)) (stream (K.held sink.new) (K.faults sink.new)) (stream (E.held errors.old) (E.faults errors.old)) (stream (E.held errors.new) (E.faults errors.new)) (exit_status result) }
{
    let status = run_words(alloc, args, source, sink);
    tell(errors, status);
    ExitCode::from(status.exit_code())
}
