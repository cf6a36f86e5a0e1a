//! The program: it passes its words and its three streams to the library, and ends with the number that is
//! answered.
#![tactic(auto)]

use mp_replay::program;
use program_edge::{StdSink, StdSource};
use std::process::ExitCode;
use std::{env, io};

fn main(rt: HostRuntime) -> ExitCode {
    let mut input = StdSource::new(rt.reader());
    let mut output = StdSink::new(io::writer(&rt));
    let mut errors = StdSink::new(rt.stderr());
    program(
        rt.alloc(),
        env::args(&rt),
        &mut input,
        &mut output,
        &mut errors,
    )
}
