//! Links that come up.
ghost use Rattle.std.specs.Prelude.{◌≡◌, ◌+◌, ◌<◌, OnOk, slice_get};
ghost use Rattle.gd_variant.specs.Words.{some_is};
ghost use Rattle.scene_model.specs.Syncs.{fixed_syncer, fixed_syncers, sync_id};
ghost use Rattle.scene_model.specs.Valid.{IsValidScene};
ghost use Rattle.sight_laws.specs.Sights.{RowSight as RowSightOf, row_sees};
ghost use Rattle.telling_laws.specs.Telling.{told_all};
ghost use Rattle.peer_steps.specs.Tellings.{first_told, rows_shown, told_up};
ghost use Rattle.peer_steps.specs.Track.{seen_by};
ghost use Rattle.told_rows.specs.Places.{row_here, told_where};

use crate::defaults::first_values;
use crate::rows::show_to;
use delta_props::Told;
use gd_variant::OutOfMemory;
use headless_tree::Tree;
use scene_model::{Node, Role};
use spawn_track::{FIXED_BIT, Track};
use sqlite_items::at as item_at;
use std::alloc::Global;

/// The number by which packets name the fixed synchronizer at a place of the scene.
fn fixed_number(place: usize) -> u32
    requires { place < 4096 }
    ensures { result ≡ sync_id (place + 1) }
{
    FIXED_BIT + (place as u32 + 1)
}

/// A peer has the defaults of the fixed node at a place, where that is a synchronizer of this peer.
fn show_node(
    told: &mut Told,
    alloc: Global,
    tree: &Tree,
    me: &i32,
    peer: &i32,
    place: usize,
    node: &Node,
) -> Result<(), OutOfMemory>
    requires { place < 4096 }
    ensures { OnOk result (told.new ≡ told_where peer.now (first_told (record { id = me.now; scene = tree.now.scene })) (fixed_syncer me.now (place + 1, node.now)) told.old) }
{
    if node.auth != *me {
        return Ok(());
    }
    match &node.role {
        Role::Sync(def) => {
            let values = first_values(alloc, tree, def)?;
            told.put(peer, fixed_number(place), values)
        }
        Role::Spawner(_) => Ok(()),
        Role::Plain => Ok(()),
    }
}

/// A peer has the defaults of all fixed synchronizers of this peer.
fn show_fixed(
    told: &mut Told,
    alloc: Global,
    tree: &Tree,
    me: &i32,
    peer: &i32,
) -> Result<(), OutOfMemory>
    requires { IsValidScene tree.now.scene }
    ensures { OnOk result (told.new ≡ told_all peer.now (first_told (record { id = me.now; scene = tree.now.scene })) (fixed_syncers tree.now.scene me.now) told.old) }
{
    let nodes = tree.scene().nodes.as_slice();
    for place in 0..nodes.len() {
        show_node(told, alloc, tree, me, peer, place, &nodes[place])?;
    }
    Ok(())
}

/// The row at a place among the own rows is shown to a peer, where the peer may see it.
fn show_seen(
    told: &mut Told,
    alloc: Global,
    tree: &Tree,
    track: &Track,
    place: usize,
    peer: &i32,
) -> Result<(), OutOfMemory>
    ensures { OnOk result (told.new ≡ rows_shown tree.now.scene tree.now.nodes peer.now (row_here (slice_get track.now.rows place) (some_is (λ (v : RowSightOf). row_sees v peer.now) (slice_get track.now.sights.rows place))) told.old) }
{
    if !track.sees(place, peer) {
        return Ok(());
    }
    match item_at(track.rows(), place) {
        Some(row) => show_to(told, alloc, tree, row, peer),
        None => Ok(()),
    }
}

fn show_rows(
    told: &mut Told,
    alloc: Global,
    tree: &Tree,
    track: &Track,
    peer: &i32,
) -> Result<(), OutOfMemory>
    ensures { OnOk result (told.new ≡ rows_shown tree.now.scene tree.now.nodes peer.now (seen_by peer.now track.now.rows track.now.sights.rows) told.old) }
{
    for place in 0..track.rows().len() {
        show_seen(told, alloc, tree, track, place, peer)?;
    }
    Ok(())
}

/// A peer came up: it has the defaults of the fixed synchronizers of this peer, and of each own row
/// that it may see what the row's packet tells, the argument and the scene's values.
pub fn come_up(
    told: &mut Told,
    alloc: Global,
    tree: &Tree,
    track: &Track,
    me: &i32,
    peer: &i32,
) -> Result<(), OutOfMemory>
    requires { IsValidScene tree.now.scene }
    ensures { OnOk result (told.new ≡ told_up (record { id = me.now; scene = tree.now.scene }) tree.now.nodes peer.now (seen_by peer.now track.now.rows track.now.sights.rows) told.old) }
{
    show_fixed(told, alloc, tree, me, peer)?;
    show_rows(told, alloc, tree, track, peer)
}
