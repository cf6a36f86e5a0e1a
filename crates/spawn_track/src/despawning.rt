//! Despawns: why they are refused, and the number of the row that goes.
ghost use Rattle.std.specs.Prelude.{◌≡◌, Some, None, option_map};
ghost use Rattle.peer_model.specs.Updates.{live_at};
ghost use Rattle.peer_steps.specs.Judged.{despawn_judged};
ghost use Rattle.peer_steps.specs.Sites.{who_at};
ghost use Rattle.peer_steps.specs.Track.{number_at as number_of};
ghost use Rattle.spawn_track.specs.Numbers.{row_number_of};

use crate::values::owns;
use gd_variant::Text;
use headless_tree::Tree;
use scene_model::Refusal;

/// Why a despawn is refused.
pub fn judge_despawn(id: &i32, tree: &Tree, path: &Text) -> Option<Refusal>
    ensures { result ≡ despawn_judged (who_at id.now tree.now.scene) tree.now.nodes path.now }
{
    match tree.node_at(path.as_str()) {
        Some(node) => {
            if node.scene.is_none() {
                Some(Refusal::NotSpawned)
            } else if !owns(id, node) {
                Some(Refusal::NotAuthority)
            } else {
                None
            }
        }
        None => Some(Refusal::NoNode),
    }
}

/// The number of the node at a path, 0 where there is none.
pub fn number_at(tree: &Tree, path: &Text) -> u32
    ensures { result ≡ number_of tree.now.nodes path.now }
{
    match tree.node_at(path.as_str()) {
        Some(node) => node.num,
        None => 0,
    }
}

/// The number of the spawned node at a path.
pub fn row_number(tree: &Tree, path: &Text) -> Option<u32>
    ensures { result ≡ row_number_of (live_at tree.now.nodes path.now) }
{
    match tree.node_at(path.as_str()) {
        Some(node) => {
            if node.scene.is_some() {
                Some(node.num)
            } else {
                None
            }
        }
        None => None,
    }
}
