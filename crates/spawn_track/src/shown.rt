//! What a received spawn means in the scene, and why it is a fault.
ghost use Rattle.std.specs.Prelude.{◌≡◌, ◌<◌, ◌++◌, ◌||◌, [], ◌∷◌, false, Some, None, IfOk, OnOk, MatchResult, find, option_map, option_and_then, is_some, length};
ghost use Rattle.std.specs.List.{list_any, list_all};
ghost use Rattle.std.specs.Option.{option_copied};
ghost use Rattle.gd_variant.specs.Words.{has_nat};
ghost use Rattle.scene_model.specs.declared.scene.CustomDef.{CustomDef as CustomDefOf};
ghost use Rattle.scene_model.specs.declared.scene.SpawnerDef.{SpawnerDef as SpawnerDefOf};
ghost use Rattle.scene_model.specs.Lookup.{fixed_node_at};
ghost use Rattle.scene_model.specs.Valid.{IsValidScene};
ghost use Rattle.scene_model.specs.Syncs.{spawn_props};
ghost use Rattle.peer_model.specs.Updates.{live_at, spawner_with, scene_name_of, all_spawn_props};
ghost use Rattle.peer_model.specs.Faults.{bad_id, known_ids, first_known, all_fit, wrong_spawn};
ghost use Rattle.peer_model.specs.View.{fits as fits_of};
ghost use Rattle.headless_tree.specs.Numbers.{has_number};
ghost use Rattle.peer_laws.specs.Facts.{rows_under};
ghost use Rattle.peer_steps.specs.Arrivals.{meaning_judged, ids_judged, place_judged, IsMaking};

use crate::lookup::{scene_place, spawner_of, syncs_of};
use crate::spawning::{CUSTOM_BYTE, MOST_ROWS};
use crate::values::fits;
use gd_variant::{OutOfMemory, Text, TextRun, Variant};
use headless_tree::Tree;
use indexmap::IndexSet;
use peer_steps::Making;
use scene_model::{Fault, Node, Scene, SpawnMsg, SpawnerDef, SyncDef, bytes_of, is_name, joined};
use sqlite_items::{Items, at as item_at};
use std::alloc::Global;

/// The numbers of rows are below this one, and those of fixed synchronizers aren't.
pub const FIXED_BIT: u32 = 2147483648;

/// The fixed node with a path id, its place from 1.
fn fixed_node(scene: &Scene, id: u32) -> Option<&Node>
    ensures { option_copied result ≡ fixed_node_at scene.now id }
{
    if id == 0 {
        return None;
    }
    item_at(scene.nodes.as_slice(), id as usize - 1)
}

/// The name of the scene that a scene byte means.
fn name_with(def: &SpawnerDef, byte: u8) -> Option<&Text>
    ensures { option_copied result ≡ scene_name_of def.now byte }
{
    if byte != CUSTOM_BYTE {
        return item_at(def.scenes.as_slice(), byte as usize);
    }
    match &def.custom {
        Some(custom) => Some(&custom.scene),
        None => None,
    }
}

/// The sender's spawner of a spawn, and the name of the scene that it means.
pub fn meaning<'a>(
    scene: &'a Scene,
    from: &i32,
    spawn: &SpawnMsg,
) -> Result<(&'a SpawnerDef, &'a Text), Fault>
    ensures { MatchResult result (λ x. (meaning_judged scene.now from.now spawn.now ≡ None) × (spawner_with scene.now spawn.now.spawner ≡ Some x.0.now) × (scene_name_of x.0.now spawn.now.scene ≡ Some x.1.now)) (λ f. meaning_judged scene.now from.now spawn.now ≡ Some f) }
{
    match fixed_node(scene, spawn.spawner) {
        Some(node) => match spawner_of(node) {
            Some(def) => {
                if node.auth != *from {
                    return Err(Fault::NotAuthority);
                }
                match name_with(def, spawn.scene) {
                    Some(name) => Ok((def, name)),
                    None => Err(Fault::NoScene),
                }
            }
            None => Err(Fault::NoSpawner),
        },
        None => Err(Fault::NoName { id: spawn.spawner }),
    }
}

/// Whether a number is one that no row has.
fn is_bad_id(id: u32) -> bool
    ensures { result ≡ bad_id id }
{
    id == 0 || FIXED_BIT <= id
}

fn bad_in(ids: &[u32]) -> Option<&u32>
    ensures { option_copied result ≡ find bad_id ids.now }
{
    ids.iter().find(|id| is_bad_id(**id))
}

fn bad_among(ids: &[u32]) -> Option<u32>
    ensures { result ≡ find bad_id ids.now }
{
    bad_in(ids).copied()
}

fn first_bad(spawn: &SpawnMsg) -> Option<u32>
    ensures { result ≡ find bad_id (spawn.now.net ∷ spawn.now.syncs) }
{
    if is_bad_id(spawn.net) {
        return Some(spawn.net);
    }
    bad_among(spawn.syncs.as_slice())
}

/// Whether a row of the sender has a number.
fn is_known(tree: &Tree, from: &i32, id: u32) -> bool
    ensures { result ≡ list_any (has_number from.now id) tree.now.nodes }
{
    let from = *from;
    tree.row_of(from, id).is_some()
}

/// Whether a row of the sender has a number, or it was seen before.
fn is_seen(tree: &Tree, from: &i32, seen: &IndexSet<u32>, id: u32) -> bool
    ensures { result ≡ (list_any (has_number from.now id) tree.now.nodes || has_nat id seen.now.keys) }
{
    is_known(tree, from, id) || seen.contains(&id)
}

fn note_id(seen: &mut IndexSet<u32>, id: u32) -> Result<(), OutOfMemory>
    requires { has_nat id seen.old.keys ≡ false }
    ensures { OnOk result (seen.new.keys ≡ seen.old.keys ++ id ∷ []) }
{
    seen.insert(id)?;
    Ok(())
}

/// The first number of a spawn that a row of the sender has, or that stands before in the spawn.
fn known_id(
    alloc: Global,
    tree: &Tree,
    from: &i32,
    spawn: &SpawnMsg,
) -> Result<Option<u32>, OutOfMemory>
    ensures { IfOk result (λ id. id ≡ first_known (known_ids (rows_under from.now tree.now.nodes)) (spawn.now.net ∷ spawn.now.syncs)) }
{
    if is_known(tree, from, spawn.net) {
        return Ok(Some(spawn.net));
    }
    let mut seen = IndexSet::new(alloc);
    note_id(&mut seen, spawn.net)?;
    let ids = spawn.syncs.as_slice();
    for id in ids {
        if is_seen(tree, from, &seen, *id) {
            return Ok(Some(*id));
        }
        note_id(&mut seen, *id)?;
    }
    Ok(None)
}

/// Why the numbers of a spawn are a fault.
pub fn judge_ids(
    alloc: Global,
    tree: &Tree,
    from: &i32,
    spawn: &SpawnMsg,
) -> Result<Option<Fault>, OutOfMemory>
    ensures { IfOk result (λ f. f ≡ ids_judged tree.now.nodes from.now spawn.now) }
{
    if let Some(id) = first_bad(spawn) {
        return Ok(Some(Fault::IdRange { id }));
    }
    match known_id(alloc, tree, from, spawn)? {
        Some(id) => Ok(Some(Fault::KnownNet { id })),
        None => Ok(None),
    }
}

fn has_path(tree: &Tree, path: &Text) -> bool
    ensures { result ≡ is_some (live_at tree.now.nodes path.now) }
{
    tree.node_at(path.as_str()).is_some()
}

fn fit(values: &[Variant]) -> bool
    ensures { result ≡ list_all fits_of values.now }
{
    values.iter().all(|value| fits(value))
}

fn all_are_short(spawn: &SpawnMsg) -> bool
    ensures { result ≡ all_fit spawn.now.arg spawn.now.values }
{
    match &spawn.arg {
        Some(value) => fits(value) && fit(spawn.values.as_slice()),
        None => fit(spawn.values.as_slice()),
    }
}

/// Whether a spawn has other numbers of synchronizers or values, or a value that is too long.
fn is_wrong(defs: &[SyncDef], props: &TextRun, spawn: &SpawnMsg) -> bool
    requires { props.now ≡ all_spawn_props defs.now }
    ensures { result ≡ wrong_spawn defs.now spawn.now }
{
    spawn.syncs.len() != defs.len() || spawn.values.len() != props.len() || !all_are_short(spawn)
}

/// How many rows of the sender there are.
fn count_rows(tree: &Tree, from: &i32) -> usize
    ensures { result ≡ length (rows_under from.now tree.now.nodes) }
{
    let from = *from;
    tree.count_under(from)
}

/// Why there is no place for the node of a spawn beside the rows of its sender.
pub fn judge_place(
    tree: &Tree,
    from: &i32,
    path: &Text,
    defs: &[SyncDef],
    props: &TextRun,
    spawn: &SpawnMsg,
) -> Option<Fault>
    requires { props.now ≡ all_spawn_props defs.now }
    ensures { result ≡ place_judged tree.now.nodes (length (rows_under from.now tree.now.nodes)) path.now defs.now spawn.now }
{
    if !is_name(bytes_of(&spawn.name)) {
        return Some(Fault::BadName);
    }
    if has_path(tree, path) {
        return Some(Fault::NameTaken);
    }
    if MOST_ROWS <= count_rows(tree, from) {
        return Some(Fault::NodesFull);
    }
    if is_wrong(defs, props, spawn) {
        return Some(Fault::WrongValues);
    }
    None
}

fn push_names(alloc: Global, names: &mut TextRun, def: &SyncDef) -> Result<(), OutOfMemory>
    ensures { OnOk result (names.new ≡ names.old ++ spawn_props def.now) }
{
    let props = def.props.as_slice();
    for prop in props {
        if prop.spawn {
            names.push(prop.prop.try_clone(alloc)?)?;
        }
    }
    Ok(())
}

/// The spawn properties of all synchronizers in order.
fn spawn_names(alloc: Global, defs: &[SyncDef]) -> Result<TextRun, OutOfMemory>
    ensures { IfOk result (λ names. names ≡ all_spawn_props defs.now) }
{
    let mut names = Items::new(alloc);
    for def in defs {
        push_names(alloc, &mut names, def)?;
    }
    Ok(names)
}

/// The property that takes an argument.
fn argument_of(alloc: Global, def: &SpawnerDef) -> Result<Option<Text>, OutOfMemory>
    ensures { IfOk result (λ name. name ≡ option_map (λ (c : CustomDefOf). c.prop) def.now.custom) }
{
    match &def.custom {
        Some(custom) => {
            let name = custom.prop.try_clone(alloc)?;
            Ok(Some(name))
        }
        None => Ok(None),
    }
}

/// The property that takes an argument of a spawner, where there is a spawner.
pub fn prop_for(alloc: Global, def: Option<&SpawnerDef>) -> Result<Option<Text>, OutOfMemory>
    ensures { IfOk result (λ name. name ≡ option_map (λ (c : CustomDefOf). c.prop) (option_and_then (λ (d : SpawnerDefOf). d.custom) (option_copied def.entry))) }
{
    match def {
        Some(def) => argument_of(alloc, def),
        None => Ok(None),
    }
}

/// What a spawn by a spawner makes of the scene with a name.
pub fn plan(
    alloc: Global,
    tree: &Tree,
    def: &SpawnerDef,
    name: &Text,
    spawn: &SpawnMsg,
) -> Result<Making, OutOfMemory>
    requires valid { IsValidScene tree.now.scene }
    requires spawner { spawner_with tree.now.scene spawn.now.spawner ≡ Some def.now }
    requires named { scene_name_of def.now spawn.now.scene ≡ Some name.now }
    ensures { IfOk result (IsMaking tree.now.scene spawn.now) }
{
    match scene_place(tree, name) {
        Some(place) => Ok(Making {
            under: def.under.try_clone(alloc)?,
            path: joined(alloc, def.under.as_str(), spawn.name.as_str())?,
            place,
            props: spawn_names(alloc, syncs_of(tree.scene(), place))?,
            argument: argument_of(alloc, def)?,
        }),
        None => unreachable!(),
    }
}
