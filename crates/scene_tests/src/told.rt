//! What frames tell a peer: each call that takes memory, with ample memory.
ghost use Rattle.std.specs.Prelude.{IfSome};
ghost use Rattle.scene_model.specs.Valid.{IsValidScene};

use delta_props::Told;
use gd_variant::{OutOfMemory, ValueList, Variant};
use headless_tree::Tree;
use line_text::read_scene;
use scene_model::{SyncRef, SyncRefs};
use sqlite_items::{Items, at as item_at};
use std::alloc::Global;

/// The node `b` with `hp` 10, and its synchronizer, which tells `hp` when it changes.
const SCENE: &[u8] =
    br#"{"nodes":[{"path":"b","props":[["hp",10]]},{"path":"b/y","sync":{"of":"b","props":[["hp","change",false]]}}],"scenes":[]}"#;

/// The number of the synchronizer, the second fixed node.
const NUMBER: u32 = 2147483650;

fn fresh(alloc: Global) -> Option<Tree>
    ensures { IfSome result (λ t. IsValidScene t.scene) }
{
    match read_scene(alloc, SCENE) {
        Ok(scene) => Tree::new(alloc, &scene).ok(),
        Err(_) => None,
    }
}

/// The synchronizer, by its path and number.
fn refs(alloc: Global, tree: &Tree) -> Result<SyncRefs, OutOfMemory> {
    let mut syncs = Items::new(alloc);
    if let Some(node) = item_at(tree.scene().nodes.as_slice(), 1) {
        let path = node.path.try_clone(alloc)?;
        syncs.push(SyncRef {
            path,
            k: 0,
            id: NUMBER,
        })?;
    }
    Ok(syncs)
}

fn ten(alloc: Global) -> Result<ValueList, OutOfMemory> {
    let mut values = Items::new(alloc);
    values.push(Variant::Int(10))?;
    Ok(values)
}

/// Of how many synchronizers a frame tells a peer.
fn count(told: &mut Told, alloc: Global, tree: &Tree, peer: &i32, syncs: &SyncRefs) -> Option<usize>
    requires { IsValidScene tree.now.scene }
{
    match told.collect(alloc, tree, peer, syncs) {
        Ok(entries) => Some(entries.len()),
        Err(_) => None,
    }
}

/// Whether a peer to which the synchronizer is shown with these values is told nothing of it.
fn is_told(
    told: &mut Told,
    alloc: Global,
    tree: &Tree,
    peer: &i32,
    syncs: &SyncRefs,
    values: &ValueList,
) -> bool
    requires { IsValidScene tree.now.scene }
{
    match item_at(syncs.as_slice(), 0) {
        Some(sync) => {
            told.show(alloc, peer, sync, values).is_ok()
                && count(told, alloc, tree, peer, syncs) == Some(0)
        }
        None => false,
    }
}

/// Whether a peer is told of the synchronizer once, and one that has its values isn't.
fn tells_once(alloc: Global, tree: &Tree, syncs: &SyncRefs, values: &ValueList) -> bool
    requires { IsValidScene tree.now.scene }
{
    let mut told = Told::new(alloc);
    count(&mut told, alloc, tree, &2, syncs) == Some(1)
        && count(&mut told, alloc, tree, &2, syncs) == Some(0)
        && is_told(&mut told, alloc, tree, &3, syncs, values)
}

#[test]
fn frames_tell_what_a_peer_has_not(rt: HostRuntime) {
    let alloc = rt.alloc();
    let (Some(tree), Ok(values)) = (fresh(alloc), ten(alloc)) else {
        assert!(rt; false, "no tree");
        return;
    };
    match refs(alloc, &tree) {
        Ok(syncs) => assert!(rt; tells_once(alloc, &tree, &syncs, &values)),
        Err(_) => assert!(rt; false, "no memory"),
    }
}
