//! Nodes and values are put into the tree.
ghost use Rattle.std.specs.Prelude.{◌≡◌, ◌<◌, true, None, is_some, OnOk, OnErr, length};
ghost use Rattle.gd_variant.specs.Words.{put_by};
ghost use Rattle.scene_model.specs.Lookup.{fixed_node};
ghost use Rattle.scene_model.specs.Paths.{joined};
ghost use Rattle.peer_model.specs.Refusals.{argument_fits};
ghost use Rattle.peer_model.specs.Updates.{live_at};
ghost use Rattle.peer_model.specs.View.{fits as fits_of};
ghost use Rattle.headless_tree.specs.Nodes.{row_before, spawned_node, assigned};
ghost use Rattle.headless_tree.specs.Numbers.{are_new};
ghost use Rattle.peer_steps.specs.Arrivals.{argument_assigned};
ghost use Rattle.peer_steps.specs.Track.{tree_without};

use gd_variant::{IdList, OutOfMemory, Text, Variant};
use headless_tree::{Tree, TreeNo};
use std::alloc::Global;

/// A node that is to be added: the path of its parent and its name, its authority, its number and its
/// synchronizers' ids, and the place of its scene.
#[derive(Clone, Copy)]
pub struct NewNode<'a> {
    pub under: &'a Text,
    pub name: &'a Text,
    pub auth: &'a i32,
    pub num: u32,
    pub ids: &'a IdList,
    pub place: u32,
}

/// Adds a node below a fixed one with the defaults of its scene.
pub fn put_node(alloc: Global, tree: &mut Tree, node: NewNode<'_>) -> Result<(), OutOfMemory>
    requires scene { node.place < length tree.old.scene.scenes }
    requires numbers { are_new node.auth.now node.num node.ids.now tree.old.nodes ≡ true }
    requires under { is_some (fixed_node tree.old.scene node.under.now) ≡ true }
    requires free { live_at tree.old.nodes (joined node.under.now node.name.now) ≡ None }
    ensures ok { OnOk result (tree.new ≡ record tree.old { nodes = put_by row_before (spawned_node tree.old.scene (joined node.entry.under.now node.entry.name.now) node.entry.auth.now node.entry.num node.entry.ids.now node.entry.place) tree.old.nodes }) }
    ensures err { OnErr result (tree.new ≡ tree.old) }
{
    let auth = *node.auth;
    tree.holds();
    match tree.insert(
        alloc,
        node.under.as_str(),
        node.name.as_str(),
        auth,
        node.num,
        node.ids,
        node.place,
    ) {
        Ok(()) => Ok(()),
        Err(TreeNo::OutOfMemory) => Err(OutOfMemory),
        Err(TreeNo::NoNode) => unreachable!(),
        Err(TreeNo::NameTaken) => unreachable!(),
        Err(TreeNo::NoProp) => unreachable!(),
        Err(TreeNo::ValueTooLong) => unreachable!(),
    }
}

/// Assigns to a property of the node at a path, where there are such.
pub fn put_value(tree: &mut Tree, path: &Text, prop: &Text, value: Variant)
    requires { fits_of value ≡ true }
    ensures { tree.new ≡ record tree.old { nodes = assigned path.now prop.now value tree.old.nodes } }
{
    match tree.assign(path.as_str(), prop.as_str(), value) {
        Ok(()) => {}
        Err(_) => {}
    }
}

/// Assigns an argument to the property that takes it.
pub fn put_argument(tree: &mut Tree, path: &Text, prop: &Option<Text>, arg: Option<Variant>)
    requires { argument_fits arg ≡ true }
    ensures { tree.new ≡ record tree.old { nodes = argument_assigned path.now prop.now arg tree.old.nodes } }
{
    match arg {
        Some(value) => match prop {
            Some(prop) => put_value(tree, path, prop, value),
            None => {}
        },
        None => {}
    }
}

/// Takes the spawned nodes of an authority out of the tree.
pub fn drop_rows(tree: &mut Tree, auth: &i32)
    ensures { tree.new ≡ tree_without auth.now tree.old }
{
    let auth = *auth;
    tree.remove_under(auth);
}
