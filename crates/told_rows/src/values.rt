//! The values that a peer has of an own row's properties, right after the row was shown to it.
ghost use Rattle.std.specs.Prelude.{◌≡◌, ◌&&◌, IfOk, map};
ghost use Rattle.std.specs.List.{list_any};
ghost use Rattle.std.specs.Option.{option_copied};
ghost use Rattle.gd_variant.specs.Words.{has_text, or_else, some_is, text_eq};
ghost use Rattle.gd_variant.specs.declared.value.Variant.TheVariants.{Nil as nil_value};
ghost use Rattle.scene_model.specs.declared.scene.SyncDef.{SyncDef as SyncDefOf};
ghost use Rattle.scene_model.specs.Syncs.{change_props};
ghost use Rattle.peer_model.specs.Updates.{all_spawn_props};
ghost use Rattle.headless_tree.specs.Nodes.{value_at};
ghost use Rattle.peer_steps.specs.Tellings.{argument_for as argument_in, argument_of, shown_value as shown_value_of};
ghost use Rattle.told_rows.specs.Values.{goes_out, other_value as other_value_of};

use crate::defaults::{copy_or_nil, scene_value};
use delta_props::is_on_change;
use gd_variant::{OutOfMemory, Text, ValueList, Variant};
use headless_tree::Tree;
use peer_steps::SpawnedRow;
use scene_model::{SyncDef, SyncProp, same_text};
use spawn_track::{spawner_at, syncs_of};
use sqlite_items::Items;
use std::alloc::Global;

/// A copy of the value of a property of the node at a path.
pub fn value_of(
    alloc: Global,
    tree: &Tree,
    path: &Text,
    prop: &Text,
) -> Result<Variant, OutOfMemory>
    ensures { IfOk result (λ v. v ≡ or_else (value_at tree.now.nodes path.now prop.now) nil_value) }
{
    copy_or_nil(alloc, tree.get(path.as_str(), prop.as_str()))
}

fn is_spawn_prop(prop: &SyncProp, name: &Text) -> bool
    ensures { result ≡ (prop.now.spawn && text_eq name.now prop.now.prop) }
{
    prop.spawn && same_text(name, &prop.prop)
}

fn has_spawn_prop(props: &[SyncProp], name: &Text) -> bool
    ensures { result ≡ goes_out name.now props.now }
{
    props.iter().any(|prop| is_spawn_prop(prop, name))
}

fn is_in(def: &SyncDef, name: &Text) -> bool
    ensures { result ≡ goes_out name.now def.now.props }
{
    has_spawn_prop(def.props.as_slice(), name)
}

fn any_has(defs: &[SyncDef], name: &Text) -> bool
    ensures { result ≡ list_any (λ (d : SyncDefOf). goes_out name.now d.props) defs.now }
{
    defs.iter().any(|def| is_in(def, name))
}

/// Whether a property goes out with a spawn.
fn is_spawned_with(defs: &[SyncDef], name: &Text) -> bool
    ensures { result ≡ has_text name.now (all_spawn_props defs.now) }
{
    any_has(defs, name)
}

/// The property that takes the argument of a spawner's custom spawns.
fn argument_name<'a>(tree: &'a Tree, spawner: &Text) -> Option<&'a Text>
    ensures { option_copied result ≡ argument_of tree.now.scene spawner.now }
{
    match spawner_at(tree, spawner) {
        Some(def) => match &def.custom {
            Some(custom) => Some(&custom.prop),
            None => None,
        },
        None => None,
    }
}

fn takes_argument(tree: &Tree, spawner: &Text, prop: &Text) -> bool
    ensures { result ≡ some_is (text_eq prop.now) (argument_of tree.now.scene spawner.now) }
{
    match argument_name(tree, spawner) {
        Some(name) => same_text(prop, name),
        None => false,
    }
}

/// A row's argument, for the property that takes it.
fn argument_for<'a>(tree: &Tree, row: &'a SpawnedRow, prop: &Text) -> Option<&'a Variant>
    ensures { option_copied result ≡ argument_in tree.now.scene row.now prop.now }
{
    if takes_argument(tree, &row.spawner, prop) {
        match &row.arg {
            Some(value) => Some(value),
            None => None,
        }
    } else {
        None
    }
}

/// A copy of the value of a property that doesn't go out with a spawn: the argument, else the scene's.
fn other_value(
    alloc: Global,
    tree: &Tree,
    row: &SpawnedRow,
    prop: &Text,
) -> Result<Variant, OutOfMemory>
    ensures { IfOk result (λ v. v ≡ other_value_of tree.now.scene row.now prop.now) }
{
    match argument_for(tree, row, prop) {
        Some(value) => value.try_clone(alloc),
        None => copy_or_nil(alloc, scene_value(tree.scene(), row.place, prop)),
    }
}

fn shown_value(
    alloc: Global,
    tree: &Tree,
    row: &SpawnedRow,
    prop: &Text,
) -> Result<Variant, OutOfMemory>
    ensures { IfOk result (λ v. v ≡ shown_value_of tree.now.scene tree.now.nodes row.now prop.now) }
{
    if is_spawned_with(syncs_of(tree.scene(), row.place), prop) {
        value_of(alloc, tree, &row.path, prop)
    } else {
        other_value(alloc, tree, row, prop)
    }
}

/// Copies of the values that a peer has of the on-change properties of a row's synchronizer, right
/// after the row was shown to it.
pub fn shown_values(
    alloc: Global,
    tree: &Tree,
    row: &SpawnedRow,
    def: &SyncDef,
) -> Result<ValueList, OutOfMemory>
    ensures { IfOk result (λ vs. vs ≡ map (shown_value_of tree.now.scene tree.now.nodes row.now) (change_props def.now)) }
{
    let mut values = Items::new(alloc);
    let props = def.props.as_slice();
    for prop in props {
        if is_on_change(prop) {
            values.push(shown_value(alloc, tree, row, &prop.prop)?)?;
        }
    }
    Ok(values)
}
