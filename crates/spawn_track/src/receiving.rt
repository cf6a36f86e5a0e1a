//! Received spawns: why one is a fault, and the node that it puts into the tree.
ghost use Rattle.std.specs.Prelude.{◌≡◌, ◌<◌, true, Some, None, Result, IfOk, OnOk, OnErr, MatchResult, length, zip};
ghost use Rattle.std.specs.List.{list_all};
ghost use Rattle.gd_variant.specs.Words.{put_by};
ghost use Rattle.scene_model.specs.Valid.{IsValidScene};
ghost use Rattle.peer_model.specs.Updates.{shown_node, shown_place, shown_path};
ghost use Rattle.peer_model.specs.View.{fits as fits_of};
ghost use Rattle.peer_model.specs.Rows.{syncs_at};
ghost use Rattle.headless_tree.specs.Nodes.{row_before};
ghost use Rattle.peer_laws.specs.Facts.{rows_under};
ghost use Rattle.peer_steps.specs.Track.{shown_spawn, hidden_row};
ghost use Rattle.spawn_track.specs.Judging.{IsJudged};
ghost use Rattle.peer_steps.specs.Spawns.{shown_judged};
ghost use Rattle.peer_steps.specs.Arrivals.{IsMaking, place_judged, assigned_all};

use crate::lookup::syncs_of;
use crate::placing::{NewNode, put_argument, put_node, put_value};
use crate::shown::{judge_ids, judge_place, meaning, plan};
use gd_variant::{OutOfMemory, Text, ValueList};
use headless_tree::Tree;
use peer_steps::Making;
use scene_model::{Fault, SpawnMsg};
use std::alloc::Global;

/// What a spawn from a peer makes, or why it is a fault.
fn judge_shown(
    alloc: Global,
    tree: &Tree,
    from: &i32,
    spawn: &SpawnMsg,
) -> Result<Result<Making, Fault>, OutOfMemory>
    requires valid { IsValidScene tree.now.scene }
    ensures { IfOk result (IsJudged tree.now.scene tree.now.nodes from.now spawn.now) }
{
    match meaning(tree.scene(), from, spawn) {
        Ok((def, name)) => {
            if let Some(fault) = judge_ids(alloc, tree, from, spawn)? {
                return Ok(Err(fault));
            }
            let making = plan(alloc, tree, def, name, spawn)?;
            match judge_making(tree, from, &making, spawn) {
                Some(fault) => Ok(Err(fault)),
                None => Ok(Ok(making)),
            }
        }
        Err(fault) => Ok(Err(fault)),
    }
}

fn judge_making(tree: &Tree, from: &i32, making: &Making, spawn: &SpawnMsg) -> Option<Fault>
    requires { IsMaking tree.now.scene spawn.now making.now }
    ensures { result ≡ place_judged tree.now.nodes (length (rows_under from.now tree.now.nodes)) (shown_path tree.now.scene spawn.now) (syncs_at tree.now.scene (shown_place tree.now.scene spawn.now)) spawn.now }
{
    let defs = syncs_of(tree.scene(), making.place);
    judge_place(tree, from, &making.path, defs, &making.props, spawn)
}

/// Assigns values to properties in order.
fn put_values(tree: &mut Tree, path: &Text, props: &[Text], values: ValueList)
    requires many { length props.now ≡ length values }
    requires short { list_all fits_of values ≡ true }
    ensures { tree.new ≡ record tree.old { nodes = assigned_all path.now (zip props.now values) tree.old.nodes } }
{
    let mut values = values;
    for prop in props {
        let value = values.remove(0);
        put_value(tree, path, prop, value);
    }
}

/// Puts the node of a spawn that is no fault among the rows of its sender.
fn put_shown(
    alloc: Global,
    tree: &mut Tree,
    from: &i32,
    spawn: SpawnMsg,
    making: &Making,
) -> Result<(), OutOfMemory>
    requires valid { IsValidScene tree.old.scene }
    requires making { IsMaking tree.old.scene spawn making.now }
    requires judged { shown_judged tree.old.scene tree.old.nodes from.now spawn ≡ None }
    ensures ok { OnOk result (tree.new ≡ record tree.old { nodes = put_by row_before (shown_node tree.old.scene from.now spawn) tree.old.nodes }) }
    ensures err { OnErr result (tree.new ≡ tree.old) }
{
    put_node(
        alloc,
        tree,
        NewNode {
            under: &making.under,
            name: &spawn.name,
            auth: from,
            num: spawn.net,
            ids: &spawn.syncs,
            place: making.place,
        },
    )?;
    let SpawnMsg {
        scene: _,
        spawner: _,
        net: _,
        syncs: _,
        name: _,
        arg,
        values,
    } = spawn;
    put_argument(tree, &making.path, &making.argument, arg);
    put_values(tree, &making.path, making.props.as_slice(), values);
    Ok(())
}

/// Puts the node of a received spawn into the tree, or says why the spawn is a fault.
pub fn put_spawn(
    alloc: Global,
    tree: &mut Tree,
    from: &i32,
    spawn: SpawnMsg,
) -> Result<Option<Fault>, OutOfMemory>
    requires { IsValidScene tree.old.scene }
    ensures { IfOk result (λ f. (f, tree.new) ≡ shown_spawn from.now spawn tree.old) }
{
    match judge_shown(alloc, tree, from, &spawn)? {
        Ok(making) => {
            put_shown(alloc, tree, from, spawn, &making)?;
            Ok(None)
        }
        Err(fault) => Ok(Some(fault)),
    }
}

/// Takes the node of a row of another peer out of the tree, or says why that is a fault.
pub fn take_row(tree: &mut Tree, from: &i32, net: u32) -> Option<Fault>
    ensures { (result, tree.new) ≡ hidden_row from.now net tree.old }
{
    if tree.remove_row(from, net) {
        None
    } else {
        Some(Fault::NoNet { net })
    }
}
