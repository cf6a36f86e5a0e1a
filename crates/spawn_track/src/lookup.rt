//! What stands in a valid scene, and where.
ghost use Rattle.std.specs.Prelude.{◌≡◌, ◌<◌, ◌+◌, Some, IfSome, length};
ghost use Rattle.std.specs.Option.{option_copied};
ghost use Rattle.gd_variant.specs.Words.{or_else};
ghost use Rattle.scene_model.specs.Lookup.{fixed_node as fixed_node_of, fixed_path_id, scene_place as scene_place_of, spawner_at as spawner_at_of, spawner_of as spawner_in};
ghost use Rattle.scene_model.specs.Syncs.{sync_id};
ghost use Rattle.scene_model.specs.Valid.{IsValidScene};
ghost use Rattle.peer_model.specs.Rows.{syncs_at};

use crate::shown::FIXED_BIT;
use gd_variant::Text;
use headless_tree::Tree;
use scene_model::{Node, Role, Scene, SpawnerDef, SyncDef};
use sqlite_items::at as item_at;

/// The path id of a fixed node, its place from 1, or 0 where there is none at the path.
pub fn path_id(tree: &Tree, path: &Text) -> u32
    requires { IsValidScene tree.now.scene }
    ensures { result ≡ or_else (fixed_path_id tree.now.scene path.now) 0 }
{
    match tree.fixed_place(path.as_str()) {
        Some(place) => place as u32 + 1,
        None => 0,
    }
}

/// The number by which packets name the fixed synchronizer at a path: bit 31, and its path id.
pub fn fixed_id(tree: &Tree, path: &Text) -> u32
    requires { IsValidScene tree.now.scene }
    ensures { result ≡ sync_id (or_else (fixed_path_id tree.now.scene path.now) 0) }
{
    match tree.fixed_place(path.as_str()) {
        Some(place) => FIXED_BIT + (place as u32 + 1),
        None => FIXED_BIT,
    }
}

/// The fixed node at a path.
pub fn fixed_node<'a>(tree: &'a Tree, path: &Text) -> Option<&'a Node>
    ensures { option_copied result ≡ fixed_node_of tree.now.scene path.now }
{
    match tree.fixed_place(path.as_str()) {
        Some(place) => item_at(tree.scene().nodes.as_slice(), place),
        None => None,
    }
}

/// A node's spawner, where it is one.
pub fn spawner_of(node: &Node) -> Option<&SpawnerDef>
    ensures { option_copied result ≡ spawner_in node.now }
{
    match &node.role {
        Role::Spawner(def) => Some(def),
        Role::Sync(_) => None,
        Role::Plain => None,
    }
}

/// The spawner at a path.
pub fn spawner_at<'a>(tree: &'a Tree, path: &Text) -> Option<&'a SpawnerDef>
    ensures { option_copied result ≡ spawner_at_of tree.now.scene path.now }
{
    match fixed_node(tree, path) {
        Some(node) => spawner_of(node),
        None => None,
    }
}

/// The place of a scene by its name.
pub fn scene_place(tree: &Tree, name: &Text) -> Option<u32>
    requires { IsValidScene tree.now.scene }
    ensures place { result ≡ scene_place_of tree.now.scene name.now }
    ensures within { IfSome result (λ i. i < length tree.now.scene.scenes) }
{
    match tree.scene_place(name.as_str()) {
        Some(place) => Some(place as u32),
        None => None,
    }
}

/// The synchronizers of the scene at a place.
pub fn syncs_of(scene: &Scene, place: u32) -> &[SyncDef]
    ensures { result.now ≡ syncs_at scene.now (Some place) }
{
    match item_at(scene.scenes.as_slice(), place as usize) {
        Some(def) => def.syncs.as_slice(),
        None => &[],
    }
}
