//! The packets that show rows to other peers.
ghost use Rattle.std.specs.Prelude.{◌≡◌, ◌∷◌, [], ◌++◌, true, Some, None, is_some, map, IfOk, IfSome, OnOk};
ghost use Rattle.std.specs.List.{list_all};
ghost use Rattle.std.specs.Option.{option_copied};
ghost use Rattle.gd_variant.specs.Words.{has_int, or_else};
ghost use Rattle.gd_variant.specs.declared.message.Message.TheVariants.{Plain as plain_packet};
ghost use Rattle.packet_form.specs.Written.{written_packet};
ghost use Rattle.scene_model.specs.Valid.{IsValidScene};
ghost use Rattle.scene_model.specs.Syncs.{spawn_props};
ghost use Rattle.peer_model.specs.Rows.{syncs_at};
ghost use Rattle.peer_model.specs.Updates.{all_spawn_props};
ghost use Rattle.peer_laws.specs.Shown.{values_in};
ghost use Rattle.peer_steps.specs.Rights.{has_right_values, is_right_row};
ghost use Rattle.peer_steps.specs.Steps.{entries_to, row_packet, sent_to, shift_to, shifts};
ghost use Rattle.peer_steps.specs.Track.{seen_by};
ghost use Rattle.peer_core.specs.Parts.{as_list, is_right_entry, seen_at};
ghost use Rattle.peer_core.specs.Forms.{packet_form, despawn_packet, entry_packet, shown_bytes};
ghost use Rattle.peer_steps.specs.Calls.{shown_to_each};

use gd_variant::{Bytes, DeltaEntry, DeltaList, Message, OutOfMemory, Plain, Text, ValueList};
use headless_tree::Tree;
use packet_codec::encode_packet;
use peer_steps::SpawnedRow;
use scene_model::{Class, Out, OutList, SyncDef};
use spawn_track::{Track, copy_argument, path_id, syncs_of};
use sqlite_items::{Items, at as item_at};
use std::alloc::Global;
use told_rows::{is_among, value_of};

fn push_values(
    alloc: Global,
    values: &mut ValueList,
    tree: &Tree,
    path: &Text,
    def: &SyncDef,
) -> Result<(), OutOfMemory>
    ensures { OnOk result (values.new ≡ values.old ++ values_in tree.now.nodes path.now (spawn_props def.now)) }
{
    let props = def.props.as_slice();
    for prop in props {
        if prop.spawn {
            values.push(value_of(alloc, tree, path, &prop.prop)?)?;
        }
    }
    Ok(())
}

/// The values of a row's spawn properties, synchronizer by synchronizer.
fn spawn_values(
    alloc: Global,
    tree: &Tree,
    path: &Text,
    place: u32,
) -> Result<ValueList, OutOfMemory>
    ensures { IfOk result (λ vs. vs ≡ values_in tree.now.nodes path.now (all_spawn_props (syncs_at tree.now.scene (Some place)))) }
{
    let mut values = Items::new(alloc);
    let defs = syncs_of(tree.scene(), place);
    for def in defs {
        push_values(alloc, &mut values, tree, path, def)?;
    }
    Ok(values)
}

fn message_of(alloc: Global, tree: &Tree, row: &SpawnedRow) -> Result<Message, OutOfMemory>
    requires { IsValidScene tree.now.scene }
    ensures { IfOk result (λ m. m ≡ plain_packet (row_packet tree.now.scene tree.now.nodes row.now)) }
{
    let spawner = path_id(tree, &row.spawner);
    let syncs = Items::from_slice(alloc, row.ids.as_slice())?;
    let name = row.name.try_clone(alloc)?;
    let arg = copy_argument(alloc, &row.arg)?;
    let values = spawn_values(alloc, tree, &row.path, row.place)?;
    Ok(Message::Plain(Plain::Spawn {
        scene: row.byte,
        spawner,
        net: row.num,
        syncs,
        name,
        arg,
        values,
    }))
}

/// The packet that shows a row.
fn packet_of(alloc: Global, tree: &Tree, row: &SpawnedRow) -> Result<Bytes, OutOfMemory>
    requires valid { IsValidScene tree.now.scene }
    requires values { list_all has_right_values tree.now.nodes ≡ true }
    requires row { is_right_row tree.now.scene row.now ≡ true }
    ensures { IfOk result (λ b. b ≡ written_packet (plain_packet (row_packet tree.now.scene tree.now.nodes row.now))) }
{
    let message = message_of(alloc, tree, row)?;
    encode_packet(alloc, &message)
}

/// A reliable packet to a peer on its own link.
fn parcel(peer: &i32, bytes: Bytes) -> Out
    ensures { result ≡ record { link = peer.now; to = peer.now; class = Class.Reliable; tick = None; bytes = bytes } }
{
    Out {
        link: *peer,
        to: *peer,
        class: Class::Reliable,
        tick: None,
        bytes,
    }
}

fn push_shown(
    out: &mut OutList,
    peer: &i32,
    alloc: Global,
    tree: &Tree,
    row: &SpawnedRow,
) -> Result<(), OutOfMemory>
    requires valid { IsValidScene tree.now.scene }
    requires values { list_all has_right_values tree.now.nodes ≡ true }
    requires row { is_right_row tree.now.scene row.now ≡ true }
    ensures { OnOk result (out.new ≡ out.old ++ sent_to packet_form peer.now (row_packet tree.now.scene tree.now.nodes row.now) ∷ []) }
{
    let bytes = packet_of(alloc, tree, row)?;
    out.push(parcel(peer, bytes))?;
    Ok(())
}

/// The own row at a place among the rows, where a peer may see it.
fn seen_row<'a>(track: &'a Track, place: usize, peer: &i32) -> Option<&'a SpawnedRow>
    ensures { option_copied result ≡ seen_at peer.now place track.now }
{
    if track.sees(place, peer) {
        return item_at(track.rows(), place);
    }
    None
}

/// Shows a peer the own row at a place among the rows, where it may see it.
fn push_seen(
    out: &mut OutList,
    alloc: Global,
    tree: &Tree,
    track: &Track,
    place: usize,
    peer: &i32,
) -> Result<(), OutOfMemory>
    requires valid { IsValidScene tree.now.scene }
    requires values { list_all has_right_values tree.now.nodes ≡ true }
    requires rows { list_all (is_right_row tree.now.scene) track.now.rows ≡ true }
    ensures { OnOk result (out.new ≡ out.old ++ map (λ r. sent_to packet_form peer.now (row_packet tree.now.scene tree.now.nodes r)) (as_list (seen_at peer.now place track.now))) }
{
    match seen_row(track, place, peer) {
        Some(row) => {
            push_shown(out, peer, alloc, tree, row)?;
            Ok(())
        }
        None => Ok(()),
    }
}

/// What is shown to a peer whose link came up: all own rows that it may see.
pub fn show_all(
    alloc: Global,
    tree: &Tree,
    track: &Track,
    peer: &i32,
) -> Result<OutList, OutOfMemory>
    requires valid { IsValidScene tree.now.scene }
    requires values { list_all has_right_values tree.now.nodes ≡ true }
    requires rows { list_all (is_right_row tree.now.scene) track.now.rows ≡ true }
    ensures { IfOk result (λ out. out ≡ map (λ r. sent_to packet_form peer.now (row_packet tree.now.scene tree.now.nodes r)) (seen_by peer.now track.now.rows track.now.sights.rows)) }
{
    let mut out = Items::new(alloc);
    for place in 0..track.rows().len() {
        push_seen(&mut out, alloc, tree, track, place, peer)?;
    }
    Ok(out)
}

/// A packet for each of these peers.
fn copies(alloc: Global, peers: &[i32], packet: &Bytes) -> Result<OutList, OutOfMemory>
    ensures { IfOk result (λ out. out ≡ map (λ b. record { link = b; to = b; class = Class.Reliable; tick = None; bytes = packet.now }) peers.now) }
{
    let mut out = Items::new(alloc);
    for peer in peers {
        let bytes = Bytes::from_slice(alloc, packet.as_slice())?;
        out.push(parcel(peer, bytes))?;
    }
    Ok(out)
}

/// A row's packet for each peer to which the row is shown. It is written once.
pub fn show_to_each(
    alloc: Global,
    tree: &Tree,
    shown: &[i32],
    row: &SpawnedRow,
) -> Result<OutList, OutOfMemory>
    requires valid { IsValidScene tree.now.scene }
    requires values { list_all has_right_values tree.now.nodes ≡ true }
    requires row { is_right_row tree.now.scene row.now ≡ true }
    ensures { IfOk result (λ out. out ≡ shown_to_each packet_form tree.now.scene tree.now.nodes shown.now row.now) }
{
    let packet = packet_of(alloc, tree, row)?;
    copies(alloc, shown, &packet)
}

fn push_hidden(out: &mut OutList, alloc: Global, peer: &i32, num: u32) -> Result<(), OutOfMemory>
    ensures { OnOk result (out.new ≡ out.old ++ sent_to packet_form peer.now (despawn_packet num) ∷ []) }
{
    let bytes = encode_packet(alloc, &Message::Plain(Plain::Despawn { net: num }))?;
    out.push(parcel(peer, bytes))?;
    Ok(())
}

/// The packet that hides a row, for each of these peers.
pub fn hide_from_each(alloc: Global, num: u32, peers: &[i32]) -> Result<OutList, OutOfMemory>
    ensures { IfOk result (λ out. out ≡ map (λ b. sent_to packet_form b (despawn_packet num)) peers.now) }
{
    let mut out = Items::new(alloc);
    for peer in peers {
        push_hidden(&mut out, alloc, peer, num)?;
    }
    Ok(out)
}

/// Writes the packet that shows a row, unless it was written before.
fn write_once(
    show: &mut Option<Bytes>,
    alloc: Global,
    tree: &Tree,
    row: &SpawnedRow,
) -> Result<(), OutOfMemory>
    requires valid { IsValidScene tree.now.scene }
    requires values { list_all has_right_values tree.now.nodes ≡ true }
    requires row { is_right_row tree.now.scene row.now ≡ true }
    requires show { IfSome show.old (λ b. b ≡ shown_bytes tree.now row.now) }
    ensures { OnOk result (show.new ≡ Some (shown_bytes tree.now row.now)) }
{
    if show.is_none() {
        *show = Some(packet_of(alloc, tree, row)?);
    }
    Ok(())
}

fn push_copy(
    out: &mut OutList,
    alloc: Global,
    peer: &i32,
    packet: &Option<Bytes>,
) -> Result<(), OutOfMemory>
    requires { is_some packet.now ≡ true }
    ensures { OnOk result (out.new ≡ out.old ++ record { link = peer.now; to = peer.now; class = Class.Reliable; tick = None; bytes = or_else packet.now [] } ∷ []) }
{
    match packet {
        Some(packet) => {
            let bytes = Bytes::from_slice(alloc, packet.as_slice())?;
            out.push(parcel(peer, bytes))?;
            Ok(())
        }
        None => unreachable!(),
    }
}

/// What a peer is told of a row that it saw before or not, and sees now or not.
fn push_shift(
    out: &mut OutList,
    show: &mut Option<Bytes>,
    alloc: Global,
    tree: &Tree,
    row: &SpawnedRow,
    peer: &i32,
    was: bool,
    is: bool,
) -> Result<(), OutOfMemory>
    requires valid { IsValidScene tree.now.scene }
    requires values { list_all has_right_values tree.now.nodes ≡ true }
    requires row { is_right_row tree.now.scene row.now ≡ true }
    requires show { IfSome show.old (λ b. b ≡ shown_bytes tree.now row.now) }
    ensures out { OnOk result (out.new ≡ out.old ++ shift_to packet_form (row_packet tree.now.scene tree.now.nodes row.now) row.now.num peer.now was is) }
    ensures show { OnOk result (IfSome show.new (λ b. b ≡ shown_bytes tree.now row.now)) }
{
    if was {
        if !is {
            push_hidden(out, alloc, peer, row.num)?;
        }
    } else if is {
        write_once(show, alloc, tree, row)?;
        push_copy(out, alloc, peer, show)?;
    }
    Ok(())
}

/// What a peer is told of a row, by those to which it was shown before and is shown now.
fn tell_shift(
    out: &mut OutList,
    show: &mut Option<Bytes>,
    alloc: Global,
    tree: &Tree,
    row: &SpawnedRow,
    peer: &i32,
    before: &[i32],
    after: &[i32],
) -> Result<(), OutOfMemory>
    requires valid { IsValidScene tree.now.scene }
    requires values { list_all has_right_values tree.now.nodes ≡ true }
    requires row { is_right_row tree.now.scene row.now ≡ true }
    requires show { IfSome show.old (λ b. b ≡ shown_bytes tree.now row.now) }
    ensures out { OnOk result (out.new ≡ out.old ++ shift_to packet_form (row_packet tree.now.scene tree.now.nodes row.now) row.now.num peer.now (has_int peer.now before.now) (has_int peer.now after.now)) }
    ensures show { OnOk result (IfSome show.new (λ b. b ≡ shown_bytes tree.now row.now)) }
{
    let was = is_among(before, peer);
    let is = is_among(after, peer);
    push_shift(out, show, alloc, tree, row, peer, was, is)?;
    Ok(())
}

/// What the peers that are up are told of a row, by those to which it was shown before and is shown
/// now. The packet that shows the row is written at most once.
pub fn shift_row(
    alloc: Global,
    tree: &Tree,
    row: &SpawnedRow,
    before: &[i32],
    after: &[i32],
    up: &[i32],
) -> Result<OutList, OutOfMemory>
    requires valid { IsValidScene tree.now.scene }
    requires values { list_all has_right_values tree.now.nodes ≡ true }
    requires row { is_right_row tree.now.scene row.now ≡ true }
    ensures { IfOk result (λ out. out ≡ shifts packet_form (row_packet tree.now.scene tree.now.nodes row.now) row.now.num before.now after.now up.now) }
{
    let mut out = Items::new(alloc);
    let mut show = None;
    for peer in up {
        tell_shift(&mut out, &mut show, alloc, tree, row, peer, before, after)?;
    }
    Ok(out)
}

/// The packet that tells a peer values of one synchronizer.
fn push_entry(
    out: &mut OutList,
    alloc: Global,
    peer: &i32,
    entry: DeltaEntry,
) -> Result<(), OutOfMemory>
    requires { is_right_entry entry ≡ true }
    ensures { OnOk result (out.new ≡ out.old ++ sent_to packet_form peer.now (entry_packet entry) ∷ []) }
{
    let mut entries = Items::new(alloc);
    entries.push(entry)?;
    let bytes = encode_packet(alloc, &Message::Plain(Plain::Delta { entries }))?;
    out.push(parcel(peer, bytes))?;
    Ok(())
}

/// The packets that tell a peer values of synchronizers in order, one each.
pub fn push_entries(
    out: &mut OutList,
    alloc: Global,
    peer: &i32,
    entries: DeltaList,
) -> Result<(), OutOfMemory>
    requires { list_all is_right_entry entries ≡ true }
    ensures { OnOk result (out.new ≡ out.old ++ entries_to packet_form peer.now entries) }
{
    let mut entries = entries;
    while !entries.is_empty() {
        let entry = entries.remove(0);
        push_entry(out, alloc, peer, entry)?;
    }
    Ok(())
}
