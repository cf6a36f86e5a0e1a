//! What peers count as told, after spawns, despawns, settings of visibility and frames.
ghost use Rattle.std.specs.Prelude.{◌≡◌, ◌-◌, true, IfOk, OnOk, length, slice_get};
ghost use Rattle.std.specs.List.{list_all};
ghost use Rattle.scene_model.specs.Valid.{IsValidScene};
ghost use Rattle.peer_steps.specs.Rights.{has_right_values, is_right_row};
ghost use Rattle.peer_steps.specs.Tellings.{frame_to, ids_with};
ghost use Rattle.peer_steps.specs.Track.{number_at as number_of};
ghost use Rattle.spawn_track.specs.Numbers.{IsTracked, row_at};
ghost use Rattle.peer_core.specs.Parts.{entries_told, frame_parts, gone_told, newest_told, shift_told};
ghost use Rattle.peer_core.specs.Forms.{packet_form};

use crate::sending::push_entries;
use delta_props::Told;
use gd_variant::{DeltaList, IdList, OutOfMemory, Text};
use headless_tree::Tree;
use scene_model::{OutList, Refusal};
use spawn_track::{Gone, Track, number_at};
use sqlite_items::Items;
use std::alloc::Global;
use told_rows::{hide_row, shift_row, show_row};

/// The newest row is shown to the peers that may see it.
pub fn note_newest(
    told: &mut Told,
    alloc: Global,
    tree: &Tree,
    track: &Track,
) -> Result<(), OutOfMemory>
    requires { IsTracked track.now }
    ensures { OnOk result (told.new ≡ newest_told tree.now track.now (slice_get track.now.rows (length track.now.rows - 1)) told.old) }
{
    match track.rows().last() {
        Some(row) => show_row(told, alloc, tree, row, track.shown(row.num)),
        None => Ok(()),
    }
}

/// The ids of the synchronizers of the own row whose node stands at a path.
pub fn ids_at(alloc: Global, tree: &Tree, track: &Track, path: &Text) -> Result<IdList, OutOfMemory>
    requires { IsTracked track.now }
    ensures { IfOk result (λ ids. ids ≡ ids_with (number_of tree.now.nodes path.now) track.now.rows) }
{
    let ids = Items::from_slice(alloc, track.ids_of(number_at(tree, path)))?;
    Ok(ids)
}

/// After a despawn the row whose synchronizers have these ids is hidden from the peers to which it was
/// shown.
pub fn note_gone(told: &mut Told, ids: &[u32], despawned: &Result<Gone, Refusal>)
    ensures { told.new ≡ gone_told ids.now despawned.now told.old }
{
    match despawned {
        Ok(gone) => hide_row(told, ids, gone.shown.as_slice()),
        Err(_) => {}
    }
}

/// The own row at a path was shown to some peers, and is shown to others now.
pub fn note_shift(
    told: &mut Told,
    alloc: Global,
    tree: &Tree,
    track: &Track,
    path: &Text,
    before: &[i32],
    up: &[i32],
) -> Result<(), OutOfMemory>
    requires { IsTracked track.now }
    ensures { OnOk result (told.new ≡ shift_told tree.now up.now track.now before.now (row_at tree.now.nodes path.now track.now.rows) told.old) }
{
    match track.row_at(tree, path) {
        Some(row) => shift_row(told, alloc, tree, row, before, track.shown(row.num), up),
        None => Ok(()),
    }
}

/// What a frame tells a peer of the synchronizers that it may see.
fn entries_for(
    told: &mut Told,
    alloc: Global,
    tree: &Tree,
    track: &Track,
    peer: &i32,
) -> Result<DeltaList, OutOfMemory>
    requires valid { IsValidScene tree.now.scene }
    requires rows { list_all (is_right_row tree.now.scene) track.now.rows ≡ true }
    ensures { IfOk result (λ entries. (entries, told.new) ≡ frame_to tree.now.scene tree.now.nodes track.now peer.now told.old) }
{
    let syncs = track.syncs_seen(alloc, tree, peer)?;
    told.collect(alloc, tree, peer, &syncs)
}

/// Tells a peer what a frame tells it.
fn tell_peer(
    told: &mut Told,
    out: &mut OutList,
    alloc: Global,
    tree: &Tree,
    track: &Track,
    peer: &i32,
) -> Result<(), OutOfMemory>
    requires valid { IsValidScene tree.now.scene }
    requires values { list_all has_right_values tree.now.nodes ≡ true }
    requires rows { list_all (is_right_row tree.now.scene) track.now.rows ≡ true }
    ensures { OnOk result ((out.new, told.new) ≡ entries_told packet_form peer.now out.old (frame_to tree.now.scene tree.now.nodes track.now peer.now told.old)) }
{
    let entries = entries_for(told, alloc, tree, track, peer)?;
    push_entries(out, alloc, peer, entries)
}

/// What a frame tells the peers that are up, each the on-change properties that it may see and whose
/// values differ from those that it was told.
pub fn tell_frame(
    told: &mut Told,
    alloc: Global,
    tree: &Tree,
    track: &Track,
    up: &[i32],
) -> Result<OutList, OutOfMemory>
    requires valid { IsValidScene tree.now.scene }
    requires values { list_all has_right_values tree.now.nodes ≡ true }
    requires rows { list_all (is_right_row tree.now.scene) track.now.rows ≡ true }
    ensures { IfOk result (λ out. (out, told.new) ≡ frame_parts packet_form tree.now track.now up.now told.old) }
{
    let mut out = Items::new(alloc);
    for peer in up {
        tell_peer(told, &mut out, alloc, tree, track, peer)?;
    }
    Ok(out)
}
