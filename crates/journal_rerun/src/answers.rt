//! What the lines of a journal write.
ghost use Rattle.std.specs.Prelude.{◌≡◌, ◌++◌, [], None, IfOk, OnOk, false};
ghost use Rattle.scene_model.specs.declared.world.WorldOutcome.TheVariants as answers;
ghost use Rattle.session_text.specs.Outcomes.{outcome_lines};
ghost use Rattle.session_text.specs.Reports.{report_lines};
ghost use Rattle.line_runs.specs.Steps.{BeginsWith, Takes};
ghost use Rattle.journal_rerun.specs.Journals.{answer_given, answer_of, done_line, is_not_built as is_not_built_of};

use gd_variant::OutOfMemory;
use line_runs::Behind;
use program_edge::{LineStop, LineWhy};
use scene_model::{Fault, Outcome, PeerStep, Report, WorldOutcome};
use session_text::{outcome_text, report_text};
use sqlite_items::Items;
use std::alloc::Global;

/// Whether an answer says that a packet is of a kind that isn't built yet.
fn is_not_built(outcome: &Outcome) -> bool
    ensures { result ≡ is_not_built_of outcome.now }
{
    match outcome {
        Outcome::Fault(fault) => match fault {
            Fault::NotBuilt => true,
            _ => false,
        },
        Outcome::Done(_) => false,
        Outcome::Refused(_) => false,
    }
}

/// The answer of a peer as that of a session.
fn answer(alloc: Global, peer: i32, outcome: Outcome) -> Result<WorldOutcome, OutOfMemory>
    ensures { IfOk result (λ o. o ≡ answer_of peer outcome) }
{
    match outcome {
        Outcome::Done(effects) => {
            let mut steps = Items::new(alloc);
            steps.push(PeerStep { peer, effects })?;
            Ok(WorldOutcome::Done { made: None, steps })
        }
        Outcome::Refused(refusal) => Ok(WorldOutcome::OpRefused(refusal)),
        Outcome::Fault(fault) => Ok(WorldOutcome::Fault { peer, fault }),
    }
}

/// Adds the lines of an answer.
fn add_lines(
    alloc: Global,
    n: u64,
    answer: &WorldOutcome,
    text: &mut Vec<u8>,
) -> Result<(), OutOfMemory>
    ensures added { OnOk result (text.new.items ≡ text.old.items ++ outcome_lines n answer.now) }
    ensures begins { BeginsWith text.old.items text.new.items }
{
    let lines = outcome_text(alloc, n, answer)?;
    text.extend_from_slice(lines.as_slice())?;
    Ok(())
}

/// Adds the line that says that line `n` is done.
pub fn add_done(alloc: Global, n: u64, text: &mut Vec<u8>) -> Result<(), OutOfMemory>
    ensures added { OnOk result (text.new.items ≡ text.old.items ++ done_line n) }
    ensures begins { BeginsWith text.old.items text.new.items }
{
    let done = WorldOutcome::Done {
        made: None,
        steps: Items::new(alloc),
    };
    add_lines(alloc, n, &done, text)
}

/// Adds the lines of a peer's answer to line `n`.
fn add_answer(
    alloc: Global,
    n: u64,
    peer: i32,
    outcome: Outcome,
    text: &mut Vec<u8>,
) -> Result<(), OutOfMemory>
    ensures added { OnOk result (text.new.items ≡ text.old.items ++ outcome_lines n (answer_of peer outcome)) }
    ensures begins { BeginsWith text.old.items text.new.items }
{
    let answer = answer(alloc, peer, outcome)?;
    add_lines(alloc, n, &answer, text)
}

/// Adds what a peer answers to line `n`. A packet of a kind that isn't built yet stops the run.
pub fn add_outcome(
    alloc: Global,
    n: u64,
    peer: i32,
    outcome: Outcome,
    text: &mut Vec<u8>,
) -> Result<Behind, LineStop>
    ensures takes { Takes (answer_given n peer outcome) false text.old.items result text.new.items (Unit {0}) }
    ensures begins { BeginsWith text.old.items text.new.items }
{
    if is_not_built(&outcome) {
        return Err(LineStop::LineBad(LineWhy::NotBuilt));
    }
    add_answer(alloc, n, peer, outcome, text)?;
    Ok(Behind::Lines)
}

/// Adds the report of a peer.
pub fn add_report(
    alloc: Global,
    peer: i32,
    report: &Report,
    text: &mut Vec<u8>,
) -> Result<(), OutOfMemory>
    ensures added { OnOk result (text.new.items ≡ text.old.items ++ report_lines peer report.now) }
    ensures begins { BeginsWith text.old.items text.new.items }
{
    let lines = report_text(alloc, peer, report)?;
    text.extend_from_slice(lines.as_slice())?;
    Ok(())
}
