//! Assignments to properties.
ghost use Rattle.std.specs.Prelude.{◌≡◌, Some, None};
ghost use Rattle.headless_tree.specs.Nodes.{live};
ghost use Rattle.peer_steps.specs.Judged.{set_judged, set_nodes};
ghost use Rattle.peer_steps.specs.Calls.{set_at_judged};

use gd_variant::{Text, Variant};
use headless_tree::{NodeNow, Tree};
use scene_model::Refusal;
use spawn_track::{fits, has_prop, owns, put_value};

fn judge_at(id: &i32, node: &NodeNow, prop: &Text, value: &Variant) -> Option<Refusal>
    ensures { result ≡ set_at_judged id.now (live node.now) prop.now value.now }
{
    if !owns(id, node) {
        return Some(Refusal::NotAuthority);
    }
    if !has_prop(node, prop) {
        return Some(Refusal::NoProp);
    }
    if !fits(value) {
        return Some(Refusal::ValueTooLong);
    }
    None
}

fn judge_set(id: &i32, tree: &Tree, path: &Text, prop: &Text, value: &Variant) -> Option<Refusal>
    ensures { result ≡ set_judged (record { id = id.now; scene = tree.now.scene }) tree.now.nodes path.now prop.now value.now }
{
    match tree.node_at(path.as_str()) {
        Some(node) => judge_at(id, node, prop, value),
        None => Some(Refusal::NoNode),
    }
}

/// An assignment, or why it is refused.
pub fn set(id: &i32, tree: &mut Tree, path: &Text, prop: &Text, value: Variant) -> Option<Refusal>
    ensures judged { result ≡ set_judged (record { id = id.now; scene = tree.old.scene }) tree.old.nodes path.now prop.now value }
    ensures tree { tree.new ≡ record tree.old { nodes = set_nodes result path.now prop.now value tree.old.nodes } }
{
    match judge_set(id, tree, path, prop, &value) {
        Some(refusal) => Some(refusal),
        None => {
            put_value(tree, path, prop, value);
            None
        }
    }
}
