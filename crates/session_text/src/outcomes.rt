//! The lines that tell the answer to an event.
ghost use Rattle.std.specs.Prelude.{◌≡◌, ◌++◌, flat_map, IfOk, OnOk};
ghost use Rattle.session_text.specs.Outcomes.{done_lines, fault_line, made_lines, number_line, outcome_lines, packet_line, raw_line, refused_line, run_line, skip_line, step_lines, world_no_line};

use crate::line::{begin, end, hexadecimal, int, nat, text};
use crate::reasons::{
    class_name, fault_fields, fault_name, refusal_name, skip_name, world_fields, world_name,
};
use crate::values::values;
use gd_variant::{Bytes, OutOfMemory};
use scene_model::{Fault, Out, PeerStep, RawGot, Refusal, Run, Skip, WorldNo, WorldOutcome};
use std::alloc::Global;

/// A call that ran at a peer.
fn push_run(alloc: Global, out: &mut Vec<u8>, peer: i32, run: &Run) -> Result<(), OutOfMemory>
    ensures { OnOk result (out.new.items ≡ out.old.items ++ run_line peer run.now) }
{
    let mut line = begin(alloc, out)?;
    text("ran", &mut line)?;
    int(peer as i64, &mut line)?;
    int(run.sender as i64, &mut line)?;
    text(run.path.as_str(), &mut line)?;
    text(run.method.as_str(), &mut line)?;
    values(run.args.as_slice(), alloc, &mut line)?;
    end(line, out)
}

/// Raw bytes that came to a peer.
fn push_raw(alloc: Global, out: &mut Vec<u8>, peer: i32, raw: &RawGot) -> Result<(), OutOfMemory>
    ensures { OnOk result (out.new.items ≡ out.old.items ++ raw_line peer raw.now) }
{
    let mut line = begin(alloc, out)?;
    text("raw", &mut line)?;
    int(peer as i64, &mut line)?;
    int(raw.sender as i64, &mut line)?;
    hexadecimal(alloc, raw.bytes.as_slice(), &mut line)?;
    end(line, out)
}

/// An entry that changed nothing at a peer.
fn push_skip(alloc: Global, out: &mut Vec<u8>, peer: i32, skip: &Skip) -> Result<(), OutOfMemory>
    ensures { OnOk result (out.new.items ≡ out.old.items ++ skip_line peer skip.now) }
{
    let mut line = begin(alloc, out)?;
    text("skip", &mut line)?;
    int(peer as i64, &mut line)?;
    int(skip.sender as i64, &mut line)?;
    nat(skip.id as u64, &mut line)?;
    text(skip_name(skip.why), &mut line)?;
    end(line, out)
}

/// A packet that a peer put on a link.
fn push_packet(alloc: Global, out: &mut Vec<u8>, peer: i32, packet: &Out) -> Result<(), OutOfMemory>
    ensures { OnOk result (out.new.items ≡ out.old.items ++ packet_line peer packet.now) }
{
    let mut line = begin(alloc, out)?;
    text("sent", &mut line)?;
    int(peer as i64, &mut line)?;
    int(packet.link as i64, &mut line)?;
    text(class_name(packet.class), &mut line)?;
    hexadecimal(alloc, packet.bytes.as_slice(), &mut line)?;
    end(line, out)
}

/// The calls that ran at a peer.
fn push_runs(alloc: Global, out: &mut Vec<u8>, peer: i32, runs: &[Run]) -> Result<(), OutOfMemory>
    ensures { OnOk result (out.new.items ≡ out.old.items ++ flat_map (run_line peer) runs.now) }
{
    for run in runs {
        push_run(alloc, out, peer, run)?;
    }
    Ok(())
}

/// The raw bytes that came to a peer.
fn push_raws(
    alloc: Global,
    out: &mut Vec<u8>,
    peer: i32,
    raws: &[RawGot],
) -> Result<(), OutOfMemory>
    ensures { OnOk result (out.new.items ≡ out.old.items ++ flat_map (raw_line peer) raws.now) }
{
    for raw in raws {
        push_raw(alloc, out, peer, raw)?;
    }
    Ok(())
}

/// The entries that changed nothing at a peer.
fn push_skips(
    alloc: Global,
    out: &mut Vec<u8>,
    peer: i32,
    skips: &[Skip],
) -> Result<(), OutOfMemory>
    ensures { OnOk result (out.new.items ≡ out.old.items ++ flat_map (skip_line peer) skips.now) }
{
    for skip in skips {
        push_skip(alloc, out, peer, skip)?;
    }
    Ok(())
}

/// The packets that a peer put on its links. Each line is written into a buffer of its own, which stays
/// small, and is then added.
fn push_packets(
    alloc: Global,
    out: &mut Vec<u8>,
    peer: i32,
    packets: &[Out],
) -> Result<(), OutOfMemory>
    ensures { OnOk result (out.new.items ≡ out.old.items ++ flat_map (packet_line peer) packets.now) }
{
    let mut line = Vec::new(alloc);
    for packet in packets {
        line.clear();
        push_packet(alloc, &mut line, peer, packet)?;
        out.extend_from_slice(line.as_slice())?;
    }
    Ok(())
}

/// What one peer did: calls that ran, raw bytes, entries that changed nothing, packets.
fn push_step(alloc: Global, out: &mut Vec<u8>, step: &PeerStep) -> Result<(), OutOfMemory>
    ensures { OnOk result (out.new.items ≡ out.old.items ++ step_lines step.now) }
{
    push_runs(alloc, out, step.peer, step.effects.runs.as_slice())?;
    push_raws(alloc, out, step.peer, step.effects.raws.as_slice())?;
    push_skips(alloc, out, step.peer, step.effects.skips.as_slice())?;
    push_packets(alloc, out, step.peer, step.effects.packets.as_slice())
}

/// What the peers did.
fn push_steps(alloc: Global, out: &mut Vec<u8>, steps: &[PeerStep]) -> Result<(), OutOfMemory>
    ensures { OnOk result (out.new.items ≡ out.old.items ++ flat_map step_lines steps.now) }
{
    for step in steps {
        push_step(alloc, out, step)?;
    }
    Ok(())
}

/// The number of a client that has connected.
fn push_made(alloc: Global, out: &mut Vec<u8>, made: Option<i32>) -> Result<(), OutOfMemory>
    ensures { OnOk result (out.new.items ≡ out.old.items ++ made_lines made) }
{
    match made {
        Some(peer) => {
            let mut line = begin(alloc, out)?;
            text("new", &mut line)?;
            int(peer as i64, &mut line)?;
            end(line, out)
        }
        None => Ok(()),
    }
}

/// The number of an event that was done.
fn push_number(alloc: Global, out: &mut Vec<u8>, n: u64) -> Result<(), OutOfMemory>
    ensures { OnOk result (out.new.items ≡ out.old.items ++ number_line n) }
{
    let mut line = begin(alloc, out)?;
    nat(n, &mut line)?;
    text("done", &mut line)?;
    end(line, out)
}

fn push_done(
    alloc: Global,
    out: &mut Vec<u8>,
    n: u64,
    made: Option<i32>,
    steps: &[PeerStep],
) -> Result<(), OutOfMemory>
    ensures { OnOk result (out.new.items ≡ out.old.items ++ done_lines n made steps.now) }
{
    push_number(alloc, out, n)?;
    push_made(alloc, out, made)?;
    push_steps(alloc, out, steps)
}

/// A refusal of the session.
fn push_world_no(alloc: Global, out: &mut Vec<u8>, n: u64, no: &WorldNo) -> Result<(), OutOfMemory>
    ensures { OnOk result (out.new.items ≡ out.old.items ++ world_no_line n no.now) }
{
    let mut line = begin(alloc, out)?;
    nat(n, &mut line)?;
    text("refused", &mut line)?;
    text(world_name(no), &mut line)?;
    world_fields(no, &mut line)?;
    end(line, out)
}

/// A refusal of a peer.
fn push_refusal(
    alloc: Global,
    out: &mut Vec<u8>,
    n: u64,
    refusal: Refusal,
) -> Result<(), OutOfMemory>
    ensures { OnOk result (out.new.items ≡ out.old.items ++ refused_line n refusal) }
{
    let mut line = begin(alloc, out)?;
    nat(n, &mut line)?;
    text("refused", &mut line)?;
    text(refusal_name(refusal), &mut line)?;
    end(line, out)
}

/// A fault at a peer.
fn push_fault(
    alloc: Global,
    out: &mut Vec<u8>,
    n: u64,
    peer: i32,
    fault: &Fault,
) -> Result<(), OutOfMemory>
    ensures { OnOk result (out.new.items ≡ out.old.items ++ fault_line n peer fault.now) }
{
    let mut line = begin(alloc, out)?;
    nat(n, &mut line)?;
    text("fault", &mut line)?;
    int(peer as i64, &mut line)?;
    text(fault_name(fault), &mut line)?;
    fault_fields(alloc, fault, &mut line)?;
    end(line, out)
}

fn push_outcome(
    alloc: Global,
    out: &mut Vec<u8>,
    n: u64,
    outcome: &WorldOutcome,
) -> Result<(), OutOfMemory>
    ensures { OnOk result (out.new.items ≡ out.old.items ++ outcome_lines n outcome.now) }
{
    match outcome {
        WorldOutcome::Done { made, steps } => push_done(alloc, out, n, *made, steps.as_slice()),
        WorldOutcome::Refused(no) => push_world_no(alloc, out, n, no),
        WorldOutcome::OpRefused(refusal) => push_refusal(alloc, out, n, *refusal),
        WorldOutcome::Fault { peer, fault } => push_fault(alloc, out, n, *peer, fault),
    }
}

/// The lines that tell the answer to the event of line `n`, each with its line feed.
pub fn outcome_text(alloc: Global, n: u64, outcome: &WorldOutcome) -> Result<Bytes, OutOfMemory>
    ensures { IfOk result (λ b. b ≡ outcome_lines n outcome.now) }
{
    let mut out = Vec::with_capacity(alloc, 128)?;
    push_outcome(alloc, &mut out, n, outcome)?;
    Ok(Bytes::from_vec(out))
}
