//! The synchronizers of this peer that another may see.
ghost use Rattle.std.specs.Prelude.{◌≡◌, ◌<◌, ◌≤◌, ◌++◌, ◌∷◌, [], true, IfOk, OnOk, length, slice_get};
ghost use Rattle.std.specs.List.{list_all};
ghost use Rattle.std.specs.Option.{option_copied};
ghost use Rattle.scene_model.specs.Valid.{IsValidScene};
ghost use Rattle.peer_steps.specs.Tellings.{fixed_seen, rows_seen};
ghost use Rattle.spawn_track.specs.Seeing.{fixed_refs, has_few_ids, ref_seen, row_refs};

use crate::lookup::fixed_id;
use gd_variant::{OutOfMemory, Text};
use headless_tree::Tree;
use peer_steps::SpawnedRow;
use scene_model::{SyncRef, SyncRefs};
use sqlite_items::{Items, at as item_at};
use std::alloc::Global;
use visibility::Sights;

fn push_ref(
    alloc: Global,
    syncs: &mut SyncRefs,
    path: &Text,
    k: u32,
    id: u32,
) -> Result<(), OutOfMemory>
    ensures { OnOk result (syncs.new ≡ syncs.old ++ record { path = path.now; k = k; id = id } ∷ []) }
{
    let path = path.try_clone(alloc)?;
    syncs.push(SyncRef { path, k, id })?;
    Ok(())
}

/// Adds the fixed synchronizer at a path, where there is a path.
fn push_fixed(
    alloc: Global,
    syncs: &mut SyncRefs,
    tree: &Tree,
    path: Option<&Text>,
) -> Result<(), OutOfMemory>
    requires { IsValidScene tree.now.scene }
    ensures { OnOk result (syncs.new ≡ syncs.old ++ fixed_refs tree.now.scene (option_copied path.entry)) }
{
    match path {
        Some(path) => {
            push_ref(alloc, syncs, path, 0, fixed_id(tree, path))?;
            Ok(())
        }
        None => Ok(()),
    }
}

/// Adds the fixed synchronizers that a peer may see.
fn push_all_fixed(
    alloc: Global,
    syncs: &mut SyncRefs,
    tree: &Tree,
    sights: &Sights,
    peer: &i32,
) -> Result<(), OutOfMemory>
    requires { IsValidScene tree.now.scene }
    ensures { OnOk result (syncs.new ≡ syncs.old ++ fixed_seen peer.now tree.now.scene sights.now.fixed) }
{
    for place in 0..sights.count_fixed() {
        push_fixed(alloc, syncs, tree, sights.fixed_seen(place, peer))?;
    }
    Ok(())
}

/// Adds the synchronizer at a place of a row, where it is seen.
fn push_seen(
    alloc: Global,
    syncs: &mut SyncRefs,
    row: &SpawnedRow,
    k: usize,
    seen: bool,
) -> Result<(), OutOfMemory>
    requires { k < 8 }
    ensures { OnOk result (syncs.new ≡ syncs.old ++ ref_seen row.now.path k (slice_get row.now.ids k) seen) }
{
    if !seen {
        return Ok(());
    }
    match item_at(row.ids.as_slice(), k) {
        Some(id) => {
            push_ref(alloc, syncs, &row.path, k as u32, *id)?;
            Ok(())
        }
        None => Ok(()),
    }
}

/// Adds the synchronizers of the row at a place that a peer may see.
fn push_row(
    alloc: Global,
    syncs: &mut SyncRefs,
    sights: &Sights,
    row: &SpawnedRow,
    place: usize,
    peer: &i32,
) -> Result<(), OutOfMemory>
    requires { length row.now.ids ≤ 8 }
    ensures { OnOk result (syncs.new ≡ syncs.old ++ row_refs peer.now row.now (slice_get sights.now.rows place)) }
{
    for k in 0..row.ids.len() {
        push_seen(alloc, syncs, row, k, sights.sees_sync(place, k, peer))?;
    }
    Ok(())
}

/// Adds the synchronizers of all rows that a peer may see.
fn push_rows(
    alloc: Global,
    syncs: &mut SyncRefs,
    sights: &Sights,
    rows: &[SpawnedRow],
    peer: &i32,
) -> Result<(), OutOfMemory>
    requires { list_all has_few_ids rows.now ≡ true }
    ensures { OnOk result (syncs.new ≡ syncs.old ++ rows_seen peer.now rows.now sights.now.rows) }
{
    for place in 0..rows.len() {
        push_row(alloc, syncs, sights, &rows[place], place, peer)?;
    }
    Ok(())
}

/// The synchronizers of this peer that another may see: the fixed ones in the order of the scene, then
/// those of the rows.
pub fn seen_syncs(
    alloc: Global,
    tree: &Tree,
    sights: &Sights,
    rows: &[SpawnedRow],
    peer: &i32,
) -> Result<SyncRefs, OutOfMemory>
    requires valid { IsValidScene tree.now.scene }
    requires few { list_all has_few_ids rows.now ≡ true }
    ensures { IfOk result (λ syncs. syncs ≡ fixed_seen peer.now tree.now.scene sights.now.fixed ++ rows_seen peer.now rows.now sights.now.rows) }
{
    let mut syncs = Items::new(alloc);
    push_all_fixed(alloc, &mut syncs, tree, sights, peer)?;
    push_rows(alloc, &mut syncs, sights, rows, peer)?;
    Ok(syncs)
}
