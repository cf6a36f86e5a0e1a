//! The lines that tell what a packet says, and what is wrong with bytes that are none.
ghost use Rattle.std.specs.Prelude.{◌≡◌, IfOk, OnOk};
ghost use Rattle.session_text.specs.Messages.{arg_of, bad_line, delta_of, deltas_of, entries_of, entry_of, ids_of, message_cells as message_cells_of, message_line, one_of, plain_array, plain_cells as plain_cells_of, target_of};
ghost use Rattle.session_text.specs.Tokens.{Adds, AddsCells, tokens_of};

use crate::cells::{Cell, list};
use crate::line::{begin, begin_list, end, end_list, hexadecimal, int, nat, text, truth};
use crate::reasons::why_name;
use crate::values::{value, values};
use gd_variant::{Bad, Bytes, DeltaEntry, Entry, Message, OutOfMemory, Plain, Target, Variant};
use json::Writer;
use std::alloc::Global;

/// What a Sync packet says of one synchronizer.
impl Cell for Entry {
    ghost cell = { entry_of };

    #[tactic(auto, using(crate::proofs::Told::two_told))]
    fn put(&self, alloc: Global, line: &mut Writer) -> Result<(), OutOfMemory> {
        begin_list(line)?;
        nat(self.id as u64, line)?;
        values(self.values.as_slice(), alloc, line)?;
        end_list(line)
    }
}

/// What a Delta packet says of one synchronizer.
impl Cell for DeltaEntry {
    ghost cell = { delta_of };

    #[tactic(auto, using(crate::proofs::Told::three_told))]
    fn put(&self, alloc: Global, line: &mut Writer) -> Result<(), OutOfMemory> {
        begin_list(line)?;
        nat(self.id as u64, line)?;
        nat(self.mask, line)?;
        values(self.values.as_slice(), alloc, line)?;
        end_list(line)
    }
}

/// The node of a call: its number or its path.
fn node(target: &Target, line: &mut Writer) -> Result<(), OutOfMemory>
    ensures { OnOk result (Adds line.old line.new (tokens_of (target_of target.now))) }
{
    match target {
        Target::Id(id) => nat(*id as u64, line),
        Target::At(path) => text(path.as_str(), line),
    }
}

/// An array of one value.
#[tactic(auto, using(crate::proofs::Told::one_told))]
fn one_value(alone: &Variant, alloc: Global, line: &mut Writer) -> Result<(), OutOfMemory>
    ensures { OnOk result (Adds line.old line.new (tokens_of (one_of alone.now))) }
{
    begin_list(line)?;
    value(alone, alloc, line)?;
    end_list(line)
}

/// An array of the custom argument, empty where there is none.
fn argument(arg: &Option<Variant>, alloc: Global, line: &mut Writer) -> Result<(), OutOfMemory>
    ensures { OnOk result (Adds line.old line.new (tokens_of (arg_of arg.now))) }
{
    match arg {
        Some(alone) => one_value(alone, alloc, line),
        None => values(&[], alloc, line),
    }
}

/// The cells of a packet that one peer means for another.
fn plain_cells(alloc: Global, plain: &Plain, line: &mut Writer) -> Result<(), OutOfMemory>
    ensures { OnOk result (AddsCells line.old line.new (plain_cells_of plain.now)) }
{
    match plain {
        Plain::Call {
            target,
            method,
            args,
        } => {
            text("call", line)?;
            node(target, line)?;
            nat(*method as u64, line)?;
            values(args.as_slice(), alloc, line)
        }
        Plain::Simplify { digest, id, path } => {
            text("simplify", line)?;
            hexadecimal(alloc, digest.as_slice(), line)?;
            nat(*id as u64, line)?;
            text(path.as_str(), line)
        }
        Plain::Confirm { ok, id } => {
            text("confirm", line)?;
            truth(*ok, line)?;
            nat(*id as u64, line)
        }
        Plain::Raw { bytes } => {
            text("raw", line)?;
            hexadecimal(alloc, bytes.as_slice(), line)?;
            Ok(())
        }
        Plain::Spawn {
            scene,
            spawner,
            net,
            syncs,
            name,
            arg,
            values: told,
        } => {
            text("spawn", line)?;
            nat(*scene as u64, line)?;
            nat(*spawner as u64, line)?;
            nat(*net as u64, line)?;
            list(alloc, syncs.as_slice(), line)?;
            text(name.as_str(), line)?;
            argument(arg, alloc, line)?;
            values(told.as_slice(), alloc, line)
        }
        Plain::Despawn { net } => {
            text("despawn", line)?;
            nat(*net as u64, line)
        }
        Plain::Sync { tick, entries } => {
            text("sync", line)?;
            nat(*tick as u64, line)?;
            list(alloc, entries.as_slice(), line)
        }
        Plain::Delta { entries } => {
            text("delta", line)?;
            list(alloc, entries.as_slice(), line)
        }
    }
}

/// The packet in a relay, as one cell.
#[tactic(auto, using(crate::proofs::Told::list_told))]
fn inner_packet(alloc: Global, inner: &Plain, line: &mut Writer) -> Result<(), OutOfMemory>
    ensures { OnOk result (Adds line.old line.new (tokens_of (plain_array inner.now))) }
{
    begin_list(line)?;
    plain_cells(alloc, inner, line)?;
    end_list(line)
}

/// The cells of a packet of a link.
fn message_cells(alloc: Global, m: &Message, line: &mut Writer) -> Result<(), OutOfMemory>
    ensures { OnOk result (AddsCells line.old line.new (message_cells_of m.now)) }
{
    match m {
        Message::Plain(plain) => plain_cells(alloc, plain, line),
        Message::Auth { peer, bytes } => {
            text("auth", line)?;
            int(*peer as i64, line)?;
            hexadecimal(alloc, bytes.as_slice(), line)?;
            Ok(())
        }
        Message::AddPeer { peer } => {
            text("add", line)?;
            int(*peer as i64, line)
        }
        Message::DelPeer { peer } => {
            text("del", line)?;
            int(*peer as i64, line)
        }
        Message::Relay { peer, inner } => {
            text("relay", line)?;
            int(*peer as i64, line)?;
            inner_packet(alloc, inner, line)
        }
    }
}

/// The line that tells what a packet says, with its line feed.
pub fn message_text(alloc: Global, m: &Message) -> Result<Bytes, OutOfMemory>
    ensures { IfOk result (λ b. b ≡ message_line m.now) }
{
    let mut out = Vec::with_capacity(alloc, 128)?;
    let mut line = begin(alloc, &mut out)?;
    message_cells(alloc, m, &mut line)?;
    end(line, &mut out)?;
    Ok(Bytes::from_vec(out))
}

/// The line that tells where and why bytes are no packet, with its line feed.
pub fn bad_text(alloc: Global, bad: &Bad) -> Result<Bytes, OutOfMemory>
    ensures { IfOk result (λ b. b ≡ bad_line bad.now) }
{
    let mut out = Vec::with_capacity(alloc, 128)?;
    let mut line = begin(alloc, &mut out)?;
    text("bad", &mut line)?;
    nat(bad.at as u64, &mut line)?;
    text(why_name(bad.why), &mut line)?;
    end(line, &mut out)?;
    Ok(Bytes::from_vec(out))
}
