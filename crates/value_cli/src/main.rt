//! Values by hand: lines of hexadecimal in, lines of JSON out, and the work on values repeated so that it
//! can be timed.
#![tactic(auto)]

mod answers;
mod repeats;

ghost use Rattle.std.specs.Prelude.{◌≡◌, ◌↔◌, []};

use answers::answers;
use repeats::{Work, repeats, work_of};
use std::io::Write;
use std::process::ExitCode;
use std::{env, io};

/// What the words of the command line ask for.
#[derive(Clone, Copy, Debug, Drop, PartialEq, Eq)]
enum Task {
    /// No words: each line is answered.
    Answer,
    /// `repeat WORK TIMES`: work on each line's bytes, so often.
    Repeat(Work, u64),
    Usage,
}

/// The words of the command line, without the program's name.
fn words_of(rt: &HostRuntime) -> io::Result<Vec<String>> {
    let mut words = Vec::new(rt.alloc());
    for word in env::args(rt)?.skip(1) {
        words.push(word)?;
    }
    Ok(words)
}

fn task_of(words: &[String]) -> Task
    ensures { (result ≡ Task.Answer) ↔ (words.now ≡ []) }
{
    match words {
        [] => Task::Answer,
        [first, work, times] if first.as_str() == "repeat" => {
            match (work_of(work.as_str()), times.parse::<u64>()) {
                (Some(work), Ok(times)) => Task::Repeat(work, times),
                _ => Task::Usage,
            }
        }
        _ => Task::Usage,
    }
}

fn run(rt: &HostRuntime) -> io::Result<ExitCode> {
    let words = words_of(rt)?;
    let task = task_of(words.as_slice());
    if task == Task::Usage {
        eprintln!(rt; "usage: value_cli, or value_cli repeat decode|encode|copy TIMES")?;
        return Ok(ExitCode::from(2));
    }
    let text = io::read_to_string(rt.alloc(), rt.reader())?;
    let out = match task {
        Task::Repeat(work, times) => repeats(rt.alloc(), work, times, text.as_str()),
        _ => answers(rt.alloc(), text.as_str()),
    };
    match out {
        Ok(out) => {
            io::writer(rt).write_all(out.as_slice())?;
            Ok(ExitCode::SUCCESS)
        }
        Err(_) => {
            eprintln!(rt; "out of memory")?;
            Ok(ExitCode::from(9))
        }
    }
}

fn main(rt: HostRuntime) -> ExitCode {
    match run(&rt) {
        Ok(code) => code,
        Err(e) => {
            // Where this can't be written, the exit status still tells it.
            let _ = eprintln!(rt; "{e}");
            ExitCode::from(1)
        }
    }
}
