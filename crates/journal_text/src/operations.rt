//! An operation is written.
ghost use Rattle.std.specs.Prelude.{flat_map, map, OnOk};
ghost use Rattle.serde_json.specs.Data.{string as string_of};
ghost use Rattle.session_text.specs.Json.{hex_of};
ghost use Rattle.session_text.specs.Reasons.{class_name as class_name_of};
ghost use Rattle.session_text.specs.Tokens.{Adds, AddsCells, tokens_of};
ghost use Rattle.session_text.specs.Values.{value_of};
ghost use Rattle.line_text.specs.Held.{held};
ghost use Rattle.line_text.specs.WrittenLines.{cells, op_cells, op_data, sync_data, setting_data};
ghost use Rattle.scene_model.specs.declared.event.Op.TheVariants as op;

use gd_variant::{Bytes, OutOfMemory, Text, Variant};
use json::Writer;
use scene_model::{CallOp, Class, Op, Prop, SpawnOp};
use session_text::cells::list;
use session_text::class_name;
use session_text::line::{begin_list, end_list, hexadecimal, int, nat, text, truth};
use session_text::values::{value, values};
use std::alloc::Global;

/// A property and its value.
#[tactic(auto, using(session_text::proofs::Told::two_told))]
fn setting(prop: &Prop, alloc: Global, line: &mut Writer) -> Result<(), OutOfMemory>
    ensures { OnOk result (Adds line.old line.new (tokens_of (setting_data prop.now))) }
{
    begin_list(line)?;
    text(prop.name.as_str(), line)?;
    value(&prop.value, alloc, line)?;
    end_list(line)
}

/// The settings of a spawn, one behind the other.
fn each_setting(props: &[Prop], alloc: Global, line: &mut Writer) -> Result<(), OutOfMemory>
    ensures { OnOk result (Adds line.old line.new (flat_map (λ p. tokens_of (setting_data p)) props.now)) }
{
    for prop in props {
        setting(prop, alloc, line)?;
    }
    Ok(())
}

/// An array of settings.
fn settings(props: &[Prop], alloc: Global, line: &mut Writer) -> Result<(), OutOfMemory>
    ensures { OnOk result (Adds line.old line.new (tokens_of (cells (map setting_data props.now)))) }
{
    begin_list(line)?;
    each_setting(props, alloc, line)?;
    end_list(line)
}

/// A synchronizer: its node's path, and its place among the node's synchronizers.
#[tactic(auto, using(session_text::proofs::Told::two_told))]
fn place(path: &Text, k: u32, line: &mut Writer) -> Result<(), OutOfMemory>
    ensures { OnOk result (Adds line.old line.new (tokens_of (sync_data path.now k))) }
{
    begin_list(line)?;
    text(path.as_str(), line)?;
    nat(k as u64, line)?;
    end_list(line)
}

/// How a packet travels.
pub fn transfer(class: Class, line: &mut Writer) -> Result<(), OutOfMemory>
    ensures { OnOk result (Adds line.old line.new (tokens_of (string_of (class_name_of class)))) }
{
    text(class_name(class), line)
}

/// Bytes in hexadecimal.
pub fn digits(bytes: &Bytes, alloc: Global, line: &mut Writer) -> Result<(), OutOfMemory>
    ensures { OnOk result (Adds line.old line.new (tokens_of (hex_of bytes.now))) }
{
    hexadecimal(alloc, bytes.as_slice(), line)?;
    Ok(())
}

/// The scene of a spawn, where it has one.
fn scene(scene: &Option<Text>, line: &mut Writer) -> Result<(), OutOfMemory>
    ensures { OnOk result (AddsCells line.old line.new (map string_of (held scene.now))) }
{
    match scene {
        Some(name) => text(name.as_str(), line),
        None => Ok(()),
    }
}

/// The argument of a custom spawn, where it has one.
fn argument(arg: &Option<Variant>, alloc: Global, line: &mut Writer) -> Result<(), OutOfMemory>
    ensures { OnOk result (AddsCells line.old line.new (map value_of (held arg.now))) }
{
    match arg {
        Some(alone) => value(alone, alloc, line),
        None => Ok(()),
    }
}

fn spawn_cells(spawn: &SpawnOp, alloc: Global, line: &mut Writer) -> Result<(), OutOfMemory>
    ensures { OnOk result (AddsCells line.old line.new (op_cells (op.Spawn spawn.now))) }
{
    text("spawn", line)?;
    text(spawn.spawner.as_str(), line)?;
    scene(&spawn.scene, line)?;
    text(spawn.name.as_str(), line)?;
    settings(spawn.sets.as_slice(), alloc, line)
}

fn custom_cells(spawn: &SpawnOp, alloc: Global, line: &mut Writer) -> Result<(), OutOfMemory>
    ensures { OnOk result (AddsCells line.old line.new (op_cells (op.Custom spawn.now))) }
{
    text("custom", line)?;
    text(spawn.spawner.as_str(), line)?;
    text(spawn.name.as_str(), line)?;
    argument(&spawn.arg, alloc, line)
}

fn call_cells(call: &CallOp, alloc: Global, line: &mut Writer) -> Result<(), OutOfMemory>
    ensures { OnOk result (AddsCells line.old line.new (op_cells (op.Call call.now))) }
{
    text("call", line)?;
    int(call.to as i64, line)?;
    text(call.path.as_str(), line)?;
    text(call.method.as_str(), line)?;
    values(call.args.as_slice(), alloc, line)
}

fn raw_cells(
    to: &i32,
    class: &Class,
    bytes: &Bytes,
    alloc: Global,
    line: &mut Writer,
) -> Result<(), OutOfMemory>
    ensures { OnOk result (AddsCells line.old line.new (op_cells (op.Raw to.now class.now bytes.now))) }
{
    text("raw", line)?;
    int(*to as i64, line)?;
    transfer(*class, line)?;
    digits(bytes, alloc, line)
}

/// The items of an operation, its word first.
fn operation_cells(op: &Op, alloc: Global, line: &mut Writer) -> Result<(), OutOfMemory>
    ensures { OnOk result (AddsCells line.old line.new (op_cells op.now)) }
{
    match op {
        Op::Spawn(spawn) => spawn_cells(spawn, alloc, line),
        Op::Custom(spawn) => custom_cells(spawn, alloc, line),
        Op::Despawn { path } => {
            text("despawn", line)?;
            text(path.as_str(), line)
        }
        Op::Set {
            path,
            prop,
            value: new,
        } => {
            text("set", line)?;
            text(path.as_str(), line)?;
            text(prop.as_str(), line)?;
            value(new, alloc, line)
        }
        Op::Public { path, k, on } => {
            text("public", line)?;
            place(path, *k, line)?;
            truth(*on, line)
        }
        Op::For { path, k, peer, on } => {
            text("for", line)?;
            place(path, *k, line)?;
            int(*peer as i64, line)?;
            truth(*on, line)
        }
        Op::Filter { path, k, peers } => {
            text("filter", line)?;
            place(path, *k, line)?;
            list(alloc, peers.as_slice(), line)
        }
        Op::Call(call) => call_cells(call, alloc, line),
        Op::Raw { to, class, bytes } => raw_cells(to, class, bytes, alloc, line),
        Op::Frame => text("frame", line),
    }
}

/// An operation, as one item.
#[tactic(auto, using(session_text::proofs::Told::list_told))]
pub fn operation(op: &Op, alloc: Global, line: &mut Writer) -> Result<(), OutOfMemory>
    ensures { OnOk result (Adds line.old line.new (tokens_of (op_data op.now))) }
{
    begin_list(line)?;
    operation_cells(op, alloc, line)?;
    end_list(line)
}
