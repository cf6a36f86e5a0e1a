//! Assignments at one peer, by hand or through a hub that threads share, so that they can be timed.
#![tactic(auto)]

mod entering;
mod server;
mod sharing;

ghost use Rattle.std.specs.Prelude.{◌≡◌};

use entering::step_all;
use server::server;
use sharing::{Callers, enter_by};
use std::alloc::Global;
use std::process::ExitCode;
use std::sync::Wait;
use std::thread::Threads;
use std::{env, io};

/// Who makes the assignments, and how many each makes.
#[derive(Clone, Copy, Debug, Drop)]
enum Task {
    Bare(u32),
    Hub(Callers, u32),
}

fn callers_of(word: &str) -> Option<Callers> {
    match word {
        "1" => Some(Callers::One),
        "2" => Some(Callers::Two),
        "4" => Some(Callers::Four),
        "8" => Some(Callers::Eight),
        _ => None,
    }
}

/// `bare COUNT`, or `THREADS COUNT`; two threads and 100 each where there are no words.
fn task_of(words: &[String]) -> Option<Task> {
    match words {
        [] => Some(Task::Hub(Callers::Two, 100)),
        [who, count] => match (who.as_str(), count.parse::<u32>()) {
            ("bare", Ok(count)) => Some(Task::Bare(count)),
            (who, Ok(count)) => callers_of(who).map(|callers| Task::Hub(callers, count)),
            _ => None,
        },
        _ => None,
    }
}

/// The words of the command line, without the program's name.
fn words_of(rt: &HostRuntime) -> io::Result<Vec<String>> {
    let mut words = Vec::new(rt.alloc());
    for word in env::args(rt)?.skip(1) {
        words.push(word)?;
    }
    Ok(words)
}

/// How many entries there are then. None where memory is lacking.
fn entries<R: Threads + Wait + Sync>(rt: &R, alloc: Global, task: Task) -> Option<u64> {
    let peer = server(alloc)?;
    match task {
        Task::Bare(count) => Some(step_all(alloc, peer, count)),
        Task::Hub(callers, count) => enter_by(rt, alloc, peer, callers, count),
    }
}

fn tell_usage(rt: &HostRuntime) -> io::Result<ExitCode> {
    eprintln!(rt; "usage: hub_bench, hub_bench bare COUNT, or hub_bench 1|2|4|8 COUNT")?;
    Ok(ExitCode::from(2))
}

fn tell(rt: &HostRuntime, entries: Option<u64>) -> io::Result<ExitCode> {
    match entries {
        Some(entries) => {
            println!(rt; "{entries} entries")?;
            Ok(ExitCode::SUCCESS)
        }
        None => {
            eprintln!(rt; "out of memory")?;
            Ok(ExitCode::from(9))
        }
    }
}

fn main(rt: HostRuntime) -> ExitCode {
    let Ok(words) = words_of(&rt) else {
        return ExitCode::from(1);
    };
    let told = match task_of(words.as_slice()) {
        Some(task) => tell(&rt, entries(&rt, rt.alloc(), task)),
        None => tell_usage(&rt),
    };
    match told {
        Ok(code) => code,
        // Standard output or standard error can't be written.
        Err(_) => ExitCode::from(1),
    }
}
