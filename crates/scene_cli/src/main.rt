//! A scene, judged: JSON of any layout in, and a line out that says whether it is valid, or what is wrong with
//! which of its entries.
#![tactic(auto)]

mod verdict;

ghost use Rattle.std.specs.Prelude.{◌≡◌, ◌↔◌, [], ◌∷◌};

use std::io::{Read, Write};
use std::process::ExitCode;
use std::{env, io};
use verdict::{Verdict, judge};

const USAGE: &str = "usage: scene_cli < SCENE, with a scene line of any layout";

/// How many words the command line has, without the program's name.
fn count_words(rt: &HostRuntime) -> io::Result<usize> {
    let mut count: usize = 0;
    for _ in env::args(rt)?.skip(1) {
        count = count.saturating_add(1);
    }
    Ok(count)
}

/// The whole of standard input.
fn input_of(rt: &HostRuntime) -> io::Result<Vec<u8>> {
    let mut input = Vec::new(rt.alloc());
    rt.reader().read_to_end(&mut input)?;
    Ok(input)
}

/// Writes a verdict. The exit status says whether the scene is valid, or that the verdict can't be written.
fn told(rt: &HostRuntime, verdict: &Verdict) -> ExitCode {
    match io::writer(rt).write_all(verdict.text.as_str().as_bytes()) {
        Ok(()) => ExitCode::from(u8::from(!verdict.is_valid)),
        Err(_) => ExitCode::from(8),
    }
}

/// The exit status of a failed read: 9 where memory ran out, else 7.
fn read_fault(error: &io::Error) -> ExitCode {
    match error.kind() {
        io::ErrorKind::OutOfMemory => ExitCode::from(9),
        _ => ExitCode::from(7),
    }
}

fn main(rt: HostRuntime) -> ExitCode {
    if count_words(&rt).ok() != Some(0) {
        // Where this can't be written, the exit status still tells it.
        let _ = eprintln!(rt; "{USAGE}");
        return ExitCode::from(2);
    }
    match input_of(&rt) {
        Err(e) => read_fault(&e),
        Ok(input) => match judge(rt.alloc(), input.as_slice()) {
            Ok(verdict) => told(&rt, &verdict),
            Err(_) => ExitCode::from(9),
        },
    }
}
