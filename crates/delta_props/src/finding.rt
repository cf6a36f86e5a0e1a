//! Synchronizers in a scene and in a tree.
ghost use Rattle.std.specs.Prelude.{◌≡◌, ◌<◌, Some, IfSome, length, option_map};
ghost use Rattle.std.specs.Option.{option_copied};
ghost use Rattle.scene_model.specs.Lookup.{fixed_node as fixed_node_of, sync_of};
ghost use Rattle.scene_model.specs.Syncs.{is_on_change as is_on_change_of};
ghost use Rattle.peer_model.specs.Rows.{syncs_at};
ghost use Rattle.headless_tree.specs.Nodes.{live};
ghost use Rattle.delta_props.specs.Telling.{fixed_sync as fixed_sync_of, sync_named};

use gd_variant::Text;
use headless_tree::{NodeNow, Tree};
use scene_model::{Node, ReplMode, Role, Scene, SyncDef, SyncProp};
use sqlite_items::at as item_at;

/// Whether a property is told when it changes.
pub fn is_on_change(prop: &SyncProp) -> bool
    ensures { result ≡ is_on_change_of prop.now.mode }
{
    match prop.mode {
        ReplMode::OnChange => true,
        ReplMode::Never => false,
        ReplMode::Always => false,
    }
}

/// A node's synchronizer, where it is one.
pub fn sync_in(node: &Node) -> Option<&SyncDef>
    ensures { option_copied result ≡ sync_of node.now }
{
    match &node.role {
        Role::Sync(def) => Some(def),
        Role::Spawner(_) => None,
        Role::Plain => None,
    }
}

/// The synchronizers of the scene at a place.
pub fn syncs_of(scene: &Scene, place: u32) -> &[SyncDef]
    ensures { result.now ≡ syncs_at scene.now (Some place) }
{
    match item_at(scene.scenes.as_slice(), place as usize) {
        Some(def) => def.syncs.as_slice(),
        None => &[],
    }
}

fn fixed_node<'a>(tree: &'a Tree, path: &Text) -> Option<&'a Node>
    ensures { option_copied result ≡ fixed_node_of tree.now.scene path.now }
{
    match tree.fixed_place(path.as_str()) {
        Some(place) => item_at(tree.scene().nodes.as_slice(), place),
        None => None,
    }
}

/// A fixed node that is a synchronizer: the node that it serves, and what it replicates.
fn fixed_sync<'a>(tree: &'a Tree, path: &Text) -> Option<(&'a NodeNow, &'a SyncDef)>
    ensures { option_map (λ y. (live y.0.now, y.1.now)) result ≡ fixed_sync_of tree.now.scene tree.now.nodes path.now }
{
    match fixed_node(tree, path) {
        Some(node) => match sync_in(node) {
            Some(def) => match tree.node_at(def.of.as_str()) {
                Some(target) => Some((target, def)),
                None => None,
            },
            None => None,
        },
        None => None,
    }
}

/// The synchronizer that is named by the path of its node and its place there: the node that it
/// serves, and what it replicates. A fixed synchronizer is named by its own path.
pub fn find_named<'a>(tree: &'a Tree, path: &Text, k: u32) -> Option<(&'a NodeNow, &'a SyncDef)>
    ensures { option_map (λ y. (live y.0.now, y.1.now)) result ≡ sync_named tree.now.scene tree.now.nodes path.now k }
{
    match tree.node_at(path.as_str()) {
        Some(node) => match node.scene {
            Some(place) => match item_at(syncs_of(tree.scene(), place), k as usize) {
                Some(def) => Some((node, def)),
                None => None,
            },
            None => fixed_sync(tree, &node.path),
        },
        None => None,
    }
}
