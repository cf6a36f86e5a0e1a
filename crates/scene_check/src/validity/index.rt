//! A scene with the places of its texts, by which its entries are found.
ghost use Rattle.std.specs.Prelude.{◌≡◌, ◌≤◌, ◌&&◌, find, take, drop, filter_map, true, false};
ghost use Rattle.std.specs.Option.{option_copied};
ghost use Rattle.std.specs.List.{list_any};
ghost use Rattle.gd_variant.specs.Words.{text_eq, some_is};
ghost use Rattle.scene_model.specs.declared.scene.Node.{Node as NodeOf};
ghost use Rattle.scene_model.specs.declared.scene.SceneDef.{SceneDef as SceneDefOf};
ghost use Rattle.scene_model.specs.declared.scene.SpawnerDef.{SpawnerDef as SpawnerDefOf};
ghost use Rattle.scene_model.specs.declared.scene.SyncDef.{SyncDef as SyncDefOf};
ghost use Rattle.scene_model.specs.Lookup.{fixed_node, scene_named as scene_named_of, spawner_of, sync_of};
ghost use Rattle.scene_model.specs.Valid.{shares_prop, synced_before};
ghost use Rattle.scene_check.specs.Places.{is_below};
ghost use Rattle.scene_check.specs.Index.{IsIndexed};

use crate::places::{MOST_ENTRIES, Place, next_place};
use crate::validity::props::shares_synced;
use scene_model::{Node, Role, Scene, SceneDef, SyncDef, bytes_of, same_bytes};
use sqlite_items::at as item_at;

/// A scene, and the places of the texts of its first nodes and scenes; whether its default values are known
/// to be sound.
#[derive(Clone, Copy)]
pub struct SceneIndex<'s, 'a> {
    pub scene: &'a Scene,
    pub judged: bool,
    pub paths: &'s [Place<'a>],
    pub unders: &'s [Place<'a>],
    pub targets: &'s [Place<'a>],
    pub scenes: &'s [Place<'a>],
}

fn is_before(place: Option<u16>, at: usize) -> bool
    ensures { result ≡ is_below at place }
{
    match place {
        Some(found) => (found as usize) < at,
        None => false,
    }
}

/// Whether one of the first nodes has this path.
pub fn path_is_before<'a>(index: &SceneIndex<'_, 'a>, path: &'a [u8], at: usize) -> bool
    requires indexed { IsIndexed index.now }
    requires front { at ≤ 4096 }
    ensures { result ≡ list_any (λ (n : NodeOf). text_eq n.path path.now) (take at index.now.scene.now.nodes) }
{
    is_before(next_place(index.paths, path, 0), at)
}

/// Whether one of the first scenes has this name.
pub fn scene_is_before<'a>(index: &SceneIndex<'_, 'a>, name: &'a [u8], at: usize) -> bool
    requires indexed { IsIndexed index.now }
    requires front { at ≤ 4096 }
    ensures { result ≡ list_any (λ (d : SceneDefOf). text_eq d.name name.now) (take at index.now.scene.now.scenes) }
{
    is_before(next_place(index.scenes, name, 0), at)
}

/// Whether a spawner among the first nodes spawns below this path.
pub fn under_is_before<'a>(index: &SceneIndex<'_, 'a>, under: &'a [u8], at: usize) -> bool
    requires indexed { IsIndexed index.now }
    requires front { at ≤ 4096 }
    ensures { result ≡ list_any (λ (e : SpawnerDefOf). text_eq e.under under.now) (filter_map spawner_of (take at index.now.scene.now.nodes)) }
{
    is_before(next_place(index.unders, under, 0), at)
}

fn shares_with(node: &Node, def: &SyncDef) -> bool
    ensures { result ≡ some_is (λ (e : SyncDefOf). text_eq e.of def.now.of && shares_prop def.now e) (sync_of node.now) }
{
    match &node.role {
        Role::Sync(other) => {
            same_bytes(bytes_of(&other.of), bytes_of(&def.of)) && shares_synced(def, other)
        }
        _ => false,
    }
}

/// Whether a synchronizer among the first nodes has a property of this one, on the same node.
pub fn prop_is_before<'a>(index: &SceneIndex<'_, 'a>, def: &'a SyncDef, at: usize) -> bool
    requires indexed { IsIndexed index.now }
    requires front { at ≤ 4096 }
    ensures { result ≡ synced_before (take at index.now.scene.now.nodes) def.now }
{
    let nodes = index.scene.nodes.as_slice();
    let of = bytes_of(&def.of);
    let mut from = 0;
    while let Some(found) = next_place(index.targets, of, from) {
        if at <= found as usize {
            return false;
        }
        if shares_with(&nodes[found as usize], def) {
            return true;
        }
        from = found + 1;
    }
    false
}

/// The items past the most that can be right.
fn past_most<T>(items: &[T]) -> &[T]
    ensures { result.now ≡ drop 4096 items.now }
{
    if items.len() <= MOST_ENTRIES {
        &[]
    } else {
        &items[MOST_ENTRIES..]
    }
}

fn find_node<'a>(nodes: &'a [Node], path: &[u8]) -> Option<&'a Node>
    ensures { option_copied result ≡ find (λ (n : NodeOf). text_eq n.path path.now) nodes.now }
{
    nodes
        .iter()
        .find(|node| same_bytes(bytes_of(&node.path), path))
}

fn find_scene<'a>(scenes: &'a [SceneDef], name: &[u8]) -> Option<&'a SceneDef>
    ensures { option_copied result ≡ find (λ (d : SceneDefOf). text_eq d.name name.now) scenes.now }
{
    scenes
        .iter()
        .find(|def| same_bytes(bytes_of(&def.name), name))
}

/// The node at a path.
pub fn node_at<'a>(index: &SceneIndex<'_, 'a>, path: &'a [u8]) -> Option<&'a Node>
    requires { IsIndexed index.now }
    ensures { option_copied result ≡ fixed_node index.now.scene.now path.now }
{
    let nodes = index.scene.nodes.as_slice();
    match next_place(index.paths, path, 0) {
        Some(found) => item_at(nodes, found as usize),
        None => find_node(past_most(nodes), path),
    }
}

/// The scene with a name.
pub fn scene_named<'a>(index: &SceneIndex<'_, 'a>, name: &'a [u8]) -> Option<&'a SceneDef>
    requires { IsIndexed index.now }
    ensures { option_copied result ≡ scene_named_of index.now.scene.now name.now }
{
    let scenes = index.scene.scenes.as_slice();
    match next_place(index.scenes, name, 0) {
        Some(found) => item_at(scenes, found as usize),
        None => find_scene(past_most(scenes), name),
    }
}
