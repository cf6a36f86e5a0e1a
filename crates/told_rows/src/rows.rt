//! Rows that are shown to peers and hidden from them.
ghost use Rattle.std.specs.Prelude.{◌≡◌, OnOk, map, slice_get};
ghost use Rattle.gd_variant.specs.Words.{has_int};
ghost use Rattle.scene_model.specs.Syncs.{change_props};
ghost use Rattle.delta_props.specs.Telling.{with_told};
ghost use Rattle.telling_laws.specs.Telling.{told_none, told_shift};
ghost use Rattle.peer_steps.specs.Tellings.{hidden_from_all, row_shown, shown_to_all, shown_told, shown_value, syncers_in, told_shifts};
ghost use Rattle.told_rows.specs.Places.{told_where};

use crate::values::shown_values;
use delta_props::Told;
use gd_variant::OutOfMemory;
use headless_tree::Tree;
use peer_steps::SpawnedRow;
use scene_model::SyncDef;
use spawn_track::syncs_of;
use sqlite_items::at as item_at;
use std::alloc::Global;

/// A synchronizer of a row is shown to a peer.
fn show_sync(
    told: &mut Told,
    alloc: Global,
    tree: &Tree,
    row: &SpawnedRow,
    peer: &i32,
    id: u32,
    def: &SyncDef,
) -> Result<(), OutOfMemory>
    ensures { OnOk result (told.new ≡ with_told peer.now id (map (shown_value tree.now.scene tree.now.nodes row.now) (change_props def.now)) told.old) }
{
    let values = shown_values(alloc, tree, row, def)?;
    told.put(peer, id, values)
}

/// The synchronizer at a place of a row is shown to a peer.
fn show_at(
    told: &mut Told,
    alloc: Global,
    tree: &Tree,
    row: &SpawnedRow,
    peer: &i32,
    k: usize,
) -> Result<(), OutOfMemory>
    ensures { OnOk result (told.new ≡ told_where peer.now (shown_told tree.now.scene tree.now.nodes row.now) (slice_get (syncers_in tree.now.scene row.now) k) told.old) }
{
    match item_at(row.ids.as_slice(), k) {
        Some(id) => match item_at(syncs_of(tree.scene(), row.place), k) {
            Some(def) => {
                show_sync(told, alloc, tree, row, peer, *id, def)?;
                Ok(())
            }
            None => Ok(()),
        },
        None => Ok(()),
    }
}

/// A row is shown to a peer.
pub fn show_to(
    told: &mut Told,
    alloc: Global,
    tree: &Tree,
    row: &SpawnedRow,
    peer: &i32,
) -> Result<(), OutOfMemory>
    ensures { OnOk result (told.new ≡ row_shown tree.now.scene tree.now.nodes row.now peer.now told.old) }
{
    for k in 0..row.ids.len() {
        show_at(told, alloc, tree, row, peer, k)?;
    }
    Ok(())
}

/// A row is shown to each of these peers, which have the values then that its packet tells, the
/// argument and the scene's.
pub fn show_row(
    told: &mut Told,
    alloc: Global,
    tree: &Tree,
    row: &SpawnedRow,
    peers: &[i32],
) -> Result<(), OutOfMemory>
    ensures { OnOk result (told.new ≡ shown_to_all tree.now.scene tree.now.nodes row.now peers.now told.old) }
{
    for peer in peers {
        show_to(told, alloc, tree, row, peer)?;
    }
    Ok(())
}

fn hide_from(told: &mut Told, ids: &[u32], peer: &i32)
    ensures { told.new ≡ told_none peer.now ids.now told.old }
{
    for id in ids {
        told.hide(peer, *id);
    }
}

/// A row whose synchronizers have these ids is hidden from each of these peers.
pub fn hide_row(told: &mut Told, ids: &[u32], peers: &[i32])
    ensures { told.new ≡ hidden_from_all ids.now peers.now told.old }
{
    for peer in peers {
        hide_from(told, ids, peer);
    }
}

/// A peer saw a row before or not, and sees it now or not.
fn shift_to(
    told: &mut Told,
    alloc: Global,
    tree: &Tree,
    row: &SpawnedRow,
    peer: &i32,
    was: bool,
    is: bool,
) -> Result<(), OutOfMemory>
    ensures { OnOk result (told.new ≡ told_shift peer.now (shown_told tree.now.scene tree.now.nodes row.now) (syncers_in tree.now.scene row.now) row.now.ids was is told.old) }
{
    if was {
        if !is {
            hide_from(told, row.ids.as_slice(), peer);
        }
        Ok(())
    } else if is {
        show_to(told, alloc, tree, row, peer)
    } else {
        Ok(())
    }
}

/// Whether a peer is among some peers.
pub fn is_among(peers: &[i32], peer: &i32) -> bool
    ensures { result ≡ has_int peer.now peers.now }
{
    peers.contains(peer)
}

fn shift_for(
    told: &mut Told,
    alloc: Global,
    tree: &Tree,
    row: &SpawnedRow,
    peer: &i32,
    before: &[i32],
    after: &[i32],
) -> Result<(), OutOfMemory>
    ensures { OnOk result (told.new ≡ told_shift peer.now (shown_told tree.now.scene tree.now.nodes row.now) (syncers_in tree.now.scene row.now) row.now.ids (has_int peer.now before.now) (has_int peer.now after.now) told.old) }
{
    let was = is_among(before, peer);
    let is = is_among(after, peer);
    shift_to(told, alloc, tree, row, peer, was, is)
}

/// A row was shown to some peers, and is shown to others now: to each peer that is up it is shown, or
/// hidden from it.
pub fn shift_row(
    told: &mut Told,
    alloc: Global,
    tree: &Tree,
    row: &SpawnedRow,
    before: &[i32],
    after: &[i32],
    up: &[i32],
) -> Result<(), OutOfMemory>
    ensures { OnOk result (told.new ≡ told_shifts tree.now.scene tree.now.nodes row.now before.now after.now up.now told.old) }
{
    for peer in up {
        shift_for(told, alloc, tree, row, peer, before, after)?;
    }
    Ok(())
}
