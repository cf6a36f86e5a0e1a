//! Received Delta entries: why one is a fault, and what it assigns.
ghost use Rattle.std.specs.Prelude.{◌≡◌, ◌<◌, ◌≤◌, true, Some, None, IfSome, length, zip, position, nat_eq};
ghost use Rattle.std.specs.List.{list_all};
ghost use Rattle.std.specs.Option.{option_copied};
ghost use Rattle.gd_variant.specs.Words.{some_is};
ghost use Rattle.scene_model.specs.Lookup.{fixed_node_at};
ghost use Rattle.scene_model.specs.Syncs.{change_props, is_on_change as is_on_change_of};
ghost use Rattle.scene_model.specs.declared.scene.SyncProp.{SyncProp as SyncPropOf};
ghost use Rattle.peer_model.specs.Updates.{masked};
ghost use Rattle.peer_model.specs.Faults.{bad_mask, wrong_delta};
ghost use Rattle.peer_model.specs.View.{fits as fits_of};
ghost use Rattle.headless_tree.specs.Nodes.{live};
ghost use Rattle.delta_props.specs.Telling.{changes_in};
ghost use Rattle.delta_props.specs.Taking.{def_at as def_at_of, target_of as target_in, fixed_meant as fixed_meant_of, row_meant as row_meant_of, row_sync as row_sync_of, meant as meant_of, entry_judged, def_judged, delta_judged, delta_taken, put_where, put_props, entry_put, halved, prop_at as prop_at_of, props_at, value_place as value_place_of};

use crate::finding::{is_on_change, sync_in, syncs_of};
use crate::meaning::{Meant, SyncAt};
use gd_variant::{DeltaEntry, IdList, ValueList, Variant};
use headless_tree::{NodeNow, Tree};
use scene_model::{Fault, Node, Scene, SyncDef, SyncProp, is_long};
use sqlite_items::at as item_at;

/// Bit 31 is set in the ids of fixed synchronizers, and in no other.
const FIXED_BIT: u32 = 2147483648;

/// What a synchronizer at a place of the scene replicates.
fn def_at(scene: &Scene, at: SyncAt) -> Option<&SyncDef>
    ensures { option_copied result ≡ def_at_of scene.now at }
{
    match at {
        SyncAt::Fixed(place) => match item_at(scene.nodes.as_slice(), place) {
            Some(node) => sync_in(node),
            None => None,
        },
        SyncAt::Row(place, k) => item_at(syncs_of(scene, place), k),
    }
}

/// The fixed node with a path id, its place from 1.
fn node_with(scene: &Scene, id: u32) -> Option<&Node>
    ensures { option_copied result ≡ fixed_node_at scene.now id }
{
    if id == 0 {
        return None;
    }
    item_at(scene.nodes.as_slice(), id as usize - 1)
}

/// The place in the tree of the node that a fixed synchronizer serves.
fn target_of(tree: &Tree, def: &SyncDef) -> Option<usize>
    ensures { result ≡ target_in tree.now.scene def.now }
{
    tree.fixed_place(def.of.as_str())
}

/// The fixed synchronizer of an authority that an id means.
fn fixed_meant(tree: &Tree, from: &i32, id: u32) -> Result<Meant, Fault>
    requires { 2147483648 ≤ id }
    ensures { result ≡ fixed_meant_of tree.now.scene from.now id }
{
    match node_with(tree.scene(), id - FIXED_BIT) {
        Some(node) => match sync_in(node) {
            Some(def) => {
                if node.auth == *from {
                    Ok(Meant {
                        at: SyncAt::Fixed((id - FIXED_BIT) as usize - 1),
                        place: target_of(tree, def),
                    })
                } else {
                    Err(Fault::NotAuthority)
                }
            }
            None => Err(Fault::NoName { id }),
        },
        None => Err(Fault::NoName { id }),
    }
}

fn has_place(ids: &IdList, id: u32) -> Option<usize>
    ensures { result ≡ position (nat_eq id) ids.now }
{
    ids.as_slice().iter().position(|other| id == *other)
}

/// The synchronizer with an id of the spawned node at a place in the tree.
fn row_sync(tree: &Tree, id: u32, place: usize, node: &NodeNow) -> Result<Meant, Fault>
    ensures { result ≡ row_sync_of tree.now.scene id place (Some (live node.now)) }
{
    match node.scene {
        Some(scene) => match has_place(&node.ids, id) {
            Some(k) => {
                if k < syncs_of(tree.scene(), scene).len() {
                    Ok(Meant {
                        at: SyncAt::Row(scene, k),
                        place: Some(place),
                    })
                } else {
                    Err(Fault::NoSync { id })
                }
            }
            None => Err(Fault::NoSync { id }),
        },
        None => Err(Fault::NoSync { id }),
    }
}

/// The synchronizer of a row of an authority that an id means.
fn row_meant(tree: &Tree, from: &i32, id: u32) -> Result<Meant, Fault>
    ensures { result ≡ row_meant_of tree.now.scene tree.now.nodes from.now id }
{
    let from = *from;
    match tree.row_of(from, id) {
        Some(place) => match tree.row_at(place) {
            Some(node) => row_sync(tree, id, place, node),
            None => Err(Fault::NoSync { id }),
        },
        None => Err(Fault::NoSync { id }),
    }
}

/// The synchronizer of an authority that an id means, or why there is none.
fn meant(tree: &Tree, from: &i32, id: u32) -> Result<Meant, Fault>
    ensures { result ≡ meant_of tree.now.scene tree.now.nodes from.now id }
{
    if FIXED_BIT <= id {
        fixed_meant(tree, from, id)
    } else {
        row_meant(tree, from, id)
    }
}

/// How many on-change properties a mask has, and what is left of it behind the last property.
fn spread(mask: u64, props: &[SyncProp]) -> (usize, u64)
    ensures count { result.0 ≡ length (masked mask (changes_in props.now)) }
    ensures rest { result.1 ≡ halved (changes_in props.now) mask }
{
    let mut count = 0;
    let mut rest = mask;
    for prop in props {
        if is_on_change(prop) {
            if rest % 2 == 1 {
                count += 1;
            }
            rest /= 2;
        }
    }
    (count, rest)
}

fn fits(value: &Variant) -> bool
    ensures { result ≡ fits_of value.now }
{
    !is_long(value)
}

fn all_fit(values: &[Variant]) -> bool
    ensures { result ≡ list_all fits_of values.now }
{
    values.iter().all(|value| fits(value))
}

/// Whether a mask is empty or has a bit without a property, by what is left of it behind the last
/// property.
fn is_bad_mask(mask: u64, rest: u64, def: &SyncDef) -> bool
    requires { rest ≡ halved (change_props def.now) mask }
    ensures { result ≡ bad_mask mask def.now }
{
    mask == 0 || rest != 0
}

/// Whether an entry has another number of values than bits, or a value that is too long.
fn has_wrong_values(entry: &DeltaEntry, count: usize, def: &SyncDef) -> bool
    requires { count ≡ length (masked entry.now.mask (change_props def.now)) }
    ensures { result ≡ wrong_delta entry.now def.now }
{
    entry.values.len() != count || !all_fit(entry.values.as_slice())
}

/// Why an entry of a synchronizer is a fault.
fn judge_entry(entry: &DeltaEntry, def: &SyncDef) -> Option<Fault>
    ensures { result ≡ entry_judged entry.now def.now }
{
    let (count, rest) = spread(entry.mask, def.props.as_slice());
    if is_bad_mask(entry.mask, rest, def) {
        return Some(Fault::BadMask { mask: entry.mask });
    }
    if has_wrong_values(entry, count, def) {
        return Some(Fault::WrongValues);
    }
    None
}

fn judge_meant(tree: &Tree, meant: Meant, entry: &DeltaEntry) -> Option<Fault>
    ensures { result ≡ def_judged entry.now (def_at_of tree.now.scene meant.at) }
{
    match def_at(tree.scene(), meant.at) {
        Some(def) => judge_entry(entry, def),
        None => Some(Fault::NoSync { id: entry.id }),
    }
}

/// Why an entry that was received from a peer is a fault, the first of `NoName`, `NotAuthority`,
/// `NoSync`, `BadMask` and `WrongValues`. Nothing changes.
pub fn judge(tree: &Tree, from: &i32, entry: &DeltaEntry) -> Option<Fault>
    ensures { result ≡ delta_judged tree.now.scene tree.now.nodes from.now entry.now }
{
    match meant(tree, from, entry.id) {
        Ok(meant) => judge_meant(tree, meant, entry),
        Err(fault) => Some(fault),
    }
}

/// The place of a property with a name among the values of the node at a place.
fn value_place(tree: &Tree, place: usize, at: SyncAt, j: usize) -> Option<usize>
    ensures { result ≡ value_place_of tree.now.nodes place (prop_at_of tree.now.scene at j) }
{
    match prop_at(tree.scene(), at, j) {
        Some(prop) => match tree.row_at(place) {
            Some(node) => node.values.place_of(prop.prop.as_str()),
            None => None,
        },
        None => None,
    }
}

/// A synchronizer's property at a place of its list.
fn prop_at(scene: &Scene, at: SyncAt, j: usize) -> Option<&SyncProp>
    ensures { option_copied result ≡ prop_at_of scene.now at j }
{
    match def_at(scene, at) {
        Some(def) => item_at(def.props.as_slice(), j),
        None => None,
    }
}

/// Assigns to a synchronizer's property at a place of its list, of the node at a place, where the node
/// has it.
fn put_value(tree: &mut Tree, place: usize, at: SyncAt, j: usize, value: Variant)
    requires { fits_of value ≡ true }
    ensures { tree.new ≡ record tree.old { nodes = put_where place (prop_at_of tree.old.scene at j) value tree.old.nodes } }
{
    match value_place(tree, place, at, j) {
        Some(to) => match tree.assign_at(place, to, value) {
            Ok(()) => {}
            Err(_) => {}
        },
        None => {}
    }
}

/// Whether a synchronizer's property at a place of its list is told when it changes.
fn changes_at(scene: &Scene, at: SyncAt, j: usize) -> bool
    ensures { result ≡ some_is (λ (p : SyncPropOf). is_on_change_of p.mode) (prop_at_of scene.now at j) }
{
    match prop_at(scene, at, j) {
        Some(prop) => is_on_change(prop),
        None => false,
    }
}

fn count_props(scene: &Scene, at: SyncAt) -> usize
    ensures { result ≡ length (props_at scene.now at) }
{
    match def_at(scene, at) {
        Some(def) => def.props.len(),
        None => 0,
    }
}

/// Assigns values in order to the on-change properties that a mask has, of the node at a place.
fn put_values(tree: &mut Tree, place: usize, at: SyncAt, mask: u64, values: ValueList)
    requires many { length values ≡ length (masked mask (changes_in (props_at tree.old.scene at))) }
    requires short { list_all fits_of values ≡ true }
    ensures { tree.new ≡ record tree.old { nodes = put_props place (zip (masked mask (changes_in (props_at tree.old.scene at))) values) tree.old.nodes } }
{
    let mut values = values;
    let mut rest = mask;
    for j in 0..count_props(tree.scene(), at) {
        if changes_at(tree.scene(), at, j) {
            if rest % 2 == 1 {
                let value = values.remove(0);
                put_value(tree, place, at, j, value);
            }
            rest /= 2;
        }
    }
}

/// Assigns the values of an entry that was received from a peer to the properties in its mask, or says
/// why the entry is a fault, as `judge` does; a fault changes nothing.
pub fn take(tree: &mut Tree, from: &i32, entry: DeltaEntry) -> Option<Fault>
    ensures { (result, tree.new) ≡ delta_taken from.now entry tree.old }
{
    match meant(tree, from, entry.id) {
        Ok(meant) => match judge_meant(tree, meant, &entry) {
            Some(fault) => Some(fault),
            None => {
                put_entry(tree, meant, entry);
                None
            }
        },
        Err(fault) => Some(fault),
    }
}

fn put_entry(tree: &mut Tree, meant: Meant, entry: DeltaEntry)
    requires { def_judged entry (def_at_of tree.old.scene meant.at) ≡ None }
    ensures { tree.new ≡ record tree.old { nodes = entry_put entry (def_at_of tree.old.scene meant.at) meant.place tree.old.nodes } }
{
    let DeltaEntry {
        id: _,
        mask,
        values,
    } = entry;
    match meant.place {
        Some(place) => put_values(tree, place, meant.at, mask, values),
        None => {}
    }
}
