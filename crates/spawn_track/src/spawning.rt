//! Spawns: where they go, and why they are refused.
ghost use Rattle.std.specs.Prelude.{◌≡◌, ◌<◌, ◌≤◌, ◌+◌, Option, Some, None, IfOk, IfSome, length, position, option_and_then, ◌&&◌};
ghost use Rattle.std.specs.List.{list_any};
ghost use Rattle.std.specs.Option.{option_copied};
ghost use Rattle.gd_variant.specs.Words.{text_eq, has_text, some_is, or_else, place_of, first_of};
ghost use Rattle.scene_model.specs.declared.scene.SpawnerDef.{SpawnerDef as SpawnerDefOf};
ghost use Rattle.scene_model.specs.declared.scene.Prop.{Prop as PropOf};
ghost use Rattle.scene_model.specs.Lookup.{has_prop as has_prop_of, spawner_at as spawner_at_of, scene_place as scene_place_of};
ghost use Rattle.scene_model.specs.Valid.{IsValidScene};
ghost use Rattle.peer_model.specs.Rows.{syncs_at};
ghost use Rattle.peer_model.specs.Refusals.{may_make as may_make_of, setting_refusals};
ghost use Rattle.peer_steps.specs.declared.site.Site.{Site as SiteOf};
ghost use Rattle.peer_steps.specs.Spawns.{is_at_limit as is_at_limit_of, rows_of_spawner, spawn_judged};
ghost use Rattle.peer_steps.specs.Sites.{IsSite, byte_in, under_in, scene_in, spawner_judged, name_judged, room_judged, sets_judged, argument_judged, values_judged, rest_judged, named_judged, props_at};

use crate::lookup::{scene_place, spawner_at, syncs_of};
use crate::values::{fits, owns};
use gd_variant::{OutOfMemory, Text, Variant};
use headless_tree::Tree;
use peer_steps::{Site, SpawnedRow};
use scene_model::{
    Prop, Refusal, Scene, SpawnOp, SpawnerDef, SyncDef, bytes_of, is_name, joined, same_text,
};
use sqlite_items::at as item_at;
use std::alloc::Global;

/// The most rows of one authority.
pub const MOST_ROWS: usize = 4096;

/// The greatest number of a row or synchronizer.
const MOST_NET_ID: u64 = 2147483647;

/// The scene byte of a custom spawn.
pub const CUSTOM_BYTE: u8 = 255;

fn text_place(texts: &[Text], text: &Text) -> Option<usize>
    ensures place { result ≡ position (text_eq text.now) texts.now }
    ensures within { IfSome result (λ i. i < length texts.now) }
{
    texts.iter().position(|other| same_text(text, other))
}

fn byte_of(def: &SpawnerDef, name: &Text) -> u8
    requires { length def.now.scenes ≤ 255 }
    ensures { result ≡ or_else (place_of name.now def.now.scenes) 255 }
{
    match text_place(def.scenes.as_slice(), name) {
        Some(place) => place as u8,
        None => CUSTOM_BYTE,
    }
}

fn has_name(texts: &[Text], text: &Text) -> bool
    ensures { result ≡ has_text text.now texts.now }
{
    texts.iter().any(|other| same_text(text, other))
}

fn may_make(op: &SpawnOp, def: &SpawnerDef) -> bool
    ensures { result ≡ may_make_of op.now def.now }
{
    match &op.scene {
        Some(name) => has_name(def.scenes.as_slice(), name),
        None => def.custom.is_some(),
    }
}

fn judge_owned(id: &i32, tree: &Tree, def: Option<&SpawnerDef>, op: &SpawnOp) -> Option<Refusal>
    ensures { result ≡ spawner_judged (record { id = id.now; scene = tree.now.scene }) tree.now.nodes (option_copied def.entry) op.now }
{
    match tree.node_at(op.spawner.as_str()) {
        Some(node) => match def {
            Some(def) => {
                if !owns(id, node) {
                    Some(Refusal::NotAuthority)
                } else if !may_make(op, def) {
                    Some(Refusal::NoScene)
                } else {
                    None
                }
            }
            None => Some(Refusal::NoSpawner),
        },
        None => Some(Refusal::NoNode),
    }
}

/// Why a name is none for a node at a path.
fn judge_name(tree: &Tree, name: &Text, path: &Text) -> Option<Refusal>
    ensures { result ≡ name_judged tree.now.nodes name.now path.now }
{
    if !is_name(bytes_of(name)) {
        return Some(Refusal::BadName);
    }
    match tree.node_at(path.as_str()) {
        Some(_) => Some(Refusal::NameTaken),
        None => None,
    }
}

fn count_from_spawner(rows: &[SpawnedRow], spawner: &Text) -> usize
    ensures { result ≡ length (rows_of_spawner spawner.now rows.now) }
{
    rows.iter()
        .filter(|row| same_text(&row.spawner, spawner))
        .count()
}

fn is_at_limit(rows: &[SpawnedRow], spawner: &Text, def: &SpawnerDef) -> bool
    ensures { result ≡ is_at_limit_of rows.now spawner.now def.now }
{
    0 < def.limit && def.limit as usize <= count_from_spawner(rows, spawner)
}

fn has_no_room(rows: &[SpawnedRow], spawner: &Text, def: Option<&SpawnerDef>) -> bool
    ensures { result ≡ some_is (is_at_limit_of rows.now spawner.now) (option_copied def.entry) }
{
    match def {
        Some(def) => is_at_limit(rows, spawner, def),
        None => false,
    }
}

fn judge_room(
    rows: &[SpawnedRow],
    next: u32,
    spawner: &Text,
    def: Option<&SpawnerDef>,
    count: usize,
) -> Option<Refusal>
    requires { count ≤ 4294967295 }
    ensures { result ≡ room_judged rows.now next spawner.now (option_copied def.entry) count }
{
    if has_no_room(rows, spawner, def) {
        return Some(Refusal::SpawnLimit);
    }
    if MOST_ROWS <= rows.len() {
        return Some(Refusal::NodesFull);
    }
    if MOST_NET_ID < next as u64 + count as u64 {
        return Some(Refusal::NetIdsFull);
    }
    None
}

fn has_prop(props: &[Prop], name: &Text) -> bool
    ensures { result ≡ list_any (λ (p : PropOf). text_eq name.now p.name) props.now }
{
    props.iter().any(|prop| same_text(name, &prop.name))
}

fn is_among(props: &[Prop], name: &Text) -> bool
    ensures { result ≡ has_prop_of name.now props.now }
{
    has_prop(props, name)
}

fn judge_setting(props: &[Prop], set: &Prop) -> Option<Refusal>
    ensures { result ≡ first_of (setting_refusals props.now set.now) }
{
    if !is_among(props, &set.name) {
        return Some(Refusal::NoProp);
    }
    if !fits(&set.value) {
        return Some(Refusal::ValueTooLong);
    }
    None
}

fn judge_sets(props: &[Prop], sets: &[Prop]) -> Option<Refusal>
    ensures { result ≡ sets_judged props.now sets.now }
{
    for set in sets {
        match judge_setting(props, set) {
            Some(refusal) => return Some(refusal),
            None => {}
        }
    }
    None
}

fn judge_argument(arg: &Option<Variant>) -> Option<Refusal>
    ensures { result ≡ argument_judged arg.now }
{
    match arg {
        Some(value) => {
            if fits(value) {
                None
            } else {
                Some(Refusal::ValueTooLong)
            }
        }
        None => None,
    }
}

/// The synchronizers of the scene at a place.
pub fn syncs_at_place(scene: &Scene, place: Option<u32>) -> &[SyncDef]
    ensures { result.now ≡ syncs_at scene.now place }
{
    match place {
        Some(place) => syncs_of(scene, place),
        None => &[],
    }
}

fn props_of(scene: &Scene, place: Option<u32>) -> &[Prop]
    ensures { result.now ≡ props_at scene.now place }
{
    match place {
        Some(place) => match item_at(scene.scenes.as_slice(), place as usize) {
            Some(def) => def.props.as_slice(),
            None => &[],
        },
        None => &[],
    }
}

fn judge_values(scene: &Scene, place: Option<u32>, op: &SpawnOp) -> Option<Refusal>
    ensures { result ≡ values_judged scene.now place op.now }
{
    match judge_sets(props_of(scene, place), op.sets.as_slice()) {
        Some(refusal) => Some(refusal),
        None => judge_argument(&op.arg),
    }
}

fn judge_rest(
    scene: &Scene,
    rows: &[SpawnedRow],
    next: u32,
    def: Option<&SpawnerDef>,
    op: &SpawnOp,
    place: Option<u32>,
) -> Option<Refusal>
    requires { IsValidScene scene.now }
    ensures { result ≡ rest_judged scene.now rows.now next (option_copied def.entry) op.now place }
{
    let count = syncs_at_place(scene, place).len();
    match judge_room(rows, next, &op.spawner, def, count) {
        Some(refusal) => Some(refusal),
        None => judge_values(scene, place, op),
    }
}

fn judge_named(
    tree: &Tree,
    rows: &[SpawnedRow],
    next: u32,
    def: Option<&SpawnerDef>,
    op: &SpawnOp,
    site: &Site,
) -> Option<Refusal>
    requires { IsValidScene tree.now.scene }
    ensures { result ≡ named_judged tree.now rows.now next (option_copied def.entry) op.now site.now }
{
    match judge_name(tree, &op.name, &site.path) {
        Some(refusal) => Some(refusal),
        None => judge_rest(tree.scene(), rows, next, def, op, site.place),
    }
}

/// Why a spawn is refused, by where it would go.
pub fn judge_spawn(
    id: &i32,
    tree: &Tree,
    rows: &[SpawnedRow],
    next: u32,
    op: &SpawnOp,
    site: &Site,
) -> Option<Refusal>
    requires valid { IsValidScene tree.now.scene }
    requires site { IsSite tree.now.scene (spawner_at_of tree.now.scene op.now.spawner) op.now site.now }
    ensures { result ≡ spawn_judged (record { id = id.now; scene = tree.now.scene }) tree.now.nodes rows.now next op.now }
{
    let def = spawner_at(tree, &op.spawner);
    match judge_owned(id, tree, def, op) {
        Some(refusal) => Some(refusal),
        None => judge_named(tree, rows, next, def, op, site),
    }
}

fn under_of(alloc: Global, def: Option<&SpawnerDef>) -> Result<Text, OutOfMemory>
    ensures { IfOk result (λ t. t ≡ under_in (option_copied def.entry)) }
{
    match def {
        Some(def) => def.under.try_clone(alloc),
        None => Text::from_str(alloc, ""),
    }
}

fn byte_for(name: &Option<Text>, def: Option<&SpawnerDef>) -> u8
    requires { IfSome (option_copied def) (λ (d : SpawnerDefOf). length d.scenes ≤ 255) }
    ensures { result ≡ byte_in name.now (option_copied def.entry) }
{
    match name {
        Some(name) => match def {
            Some(def) => byte_of(def, name),
            None => CUSTOM_BYTE,
        },
        None => CUSTOM_BYTE,
    }
}

/// The name of the scene that a spawn by a spawner means.
fn scene_for<'a>(name: &'a Option<Text>, def: Option<&'a SpawnerDef>) -> Option<&'a Text>
    ensures { option_copied result ≡ scene_in name.now (option_copied def.entry) }
{
    match name {
        Some(name) => Some(name),
        None => match def {
            Some(def) => match &def.custom {
                Some(custom) => Some(&custom.scene),
                None => None,
            },
            None => None,
        },
    }
}

fn place_for(tree: &Tree, name: Option<&Text>) -> Option<u32>
    requires { IsValidScene tree.now.scene }
    ensures place { result ≡ option_and_then (scene_place_of tree.now.scene) (option_copied name.entry) }
    ensures within { IfSome result (λ i. i < length tree.now.scene.scenes) }
{
    match name {
        Some(name) => scene_place(tree, name),
        None => None,
    }
}

fn site_with(
    alloc: Global,
    tree: &Tree,
    def: Option<&SpawnerDef>,
    op: &SpawnOp,
) -> Result<Site, OutOfMemory>
    requires valid { IsValidScene tree.now.scene }
    requires few { IfSome (option_copied def) (λ (d : SpawnerDefOf). length d.scenes ≤ 255) }
    ensures site { IfOk result (IsSite tree.now.scene (option_copied def.entry) op.now) }
    ensures within { IfOk result (λ (x : SiteOf). IfSome x.place (λ i. i < length tree.now.scene.scenes)) }
{
    let under = under_of(alloc, def)?;
    let path = joined(alloc, under.as_str(), op.name.as_str())?;
    Ok(Site {
        under,
        path,
        place: place_for(tree, scene_for(&op.scene, def)),
        byte: byte_for(&op.scene, def),
    })
}

/// Where a spawn would put its node.
pub fn site_of(alloc: Global, tree: &Tree, op: &SpawnOp) -> Result<Site, OutOfMemory>
    requires { IsValidScene tree.now.scene }
    ensures site { IfOk result (IsSite tree.now.scene (spawner_at_of tree.now.scene op.now.spawner) op.now) }
    ensures within { IfOk result (λ (x : SiteOf). IfSome x.place (λ i. i < length tree.now.scene.scenes)) }
{
    let def = spawner_at(tree, &op.spawner);
    site_with(alloc, tree, def, op)
}
