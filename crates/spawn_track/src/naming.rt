//! Synchronizers by the path of their node and their place there.
ghost use Rattle.std.specs.Prelude.{◌≡◌, ℤ, false, is_some, option_and_then};
ghost use Rattle.scene_model.specs.Lookup.{fixed_node as fixed_node_of, sync_of};
ghost use Rattle.headless_tree.specs.Nodes.{live};
ghost use Rattle.peer_model.specs.Refusals.{named_syncs};
ghost use Rattle.peer_steps.specs.Judged.{sight_judged};
ghost use Rattle.peer_steps.specs.Sites.{who_at};

use crate::lookup::{fixed_node, syncs_of};
use crate::values::owns;
use gd_variant::Text;
use headless_tree::{NodeNow, Tree};
use scene_model::{Refusal, Role};

/// Whether the fixed node at a path is a synchronizer.
fn is_sync(tree: &Tree, path: &Text) -> bool
    ensures { result ≡ is_some (option_and_then sync_of (fixed_node_of tree.now.scene path.now)) }
{
    match fixed_node(tree, path) {
        Some(node) => match &node.role {
            Role::Sync(_) => true,
            Role::Spawner(_) => false,
            Role::Plain => false,
        },
        None => false,
    }
}

/// How many synchronizers an operation can name at a node.
fn count_syncs(tree: &Tree, node: &NodeNow) -> usize
    ensures { (id : ℤ) → result ≡ named_syncs (who_at id tree.now.scene) (live node.now) }
{
    match node.scene {
        Some(place) => syncs_of(tree.scene(), place).len(),
        None => { if is_sync(tree, &node.path) { 1 } else { 0 } }
    }
}

/// Why a setting is refused, whether or not there is room for it.
pub fn judge_named(id: &i32, tree: &Tree, path: &Text, k: u32) -> Option<Refusal>
    ensures { result ≡ sight_judged (who_at id.now tree.now.scene) tree.now.nodes path.now k false }
{
    match tree.node_at(path.as_str()) {
        Some(node) => {
            if count_syncs(tree, node) <= k as usize {
                Some(Refusal::NoSync)
            } else if !owns(id, node) {
                Some(Refusal::NotAuthority)
            } else {
                None
            }
        }
        None => Some(Refusal::NoNode),
    }
}
