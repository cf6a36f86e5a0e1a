//! The values that the scene gives.
ghost use Rattle.std.specs.Prelude.{◌≡◌, IfOk, find, map, option_and_then};
ghost use Rattle.std.specs.Option.{option_copied};
ghost use Rattle.gd_variant.specs.Words.{or_else, text_eq};
ghost use Rattle.gd_variant.specs.declared.value.Variant.TheVariants.{Nil as nil_value};
ghost use Rattle.scene_model.specs.declared.scene.Node.{Node as NodeOf};
ghost use Rattle.scene_model.specs.declared.scene.Prop.{Prop as PropOf};
ghost use Rattle.scene_model.specs.Lookup.{fixed_node as fixed_node_of, scene_at, value_in};
ghost use Rattle.scene_model.specs.Nodes.{props_in};
ghost use Rattle.scene_model.specs.Syncs.{change_props};
ghost use Rattle.told_rows.specs.Values.{default_in};

use delta_props::is_on_change;
use gd_variant::{OutOfMemory, Text, ValueList, Variant};
use headless_tree::Tree;
use scene_model::{Prop, Scene, SyncDef, same_text};
use spawn_track::fixed_node;
use sqlite_items::{Items, at as item_at};
use std::alloc::Global;

fn has_name(prop: &Prop, name: &Text) -> bool
    ensures { result ≡ text_eq prop.now.name name.now }
{
    same_text(&prop.name, name)
}

fn find_prop<'a>(props: &'a [Prop], name: &Text) -> Option<&'a Prop>
    ensures { option_copied result ≡ find (λ (p : PropOf). text_eq p.name name.now) props.now }
{
    props.iter().find(|prop| has_name(prop, name))
}

/// The value of the first property with a name.
fn value_among<'a>(props: &'a [Prop], name: &Text) -> Option<&'a Variant>
    ensures { option_copied result ≡ value_in props.now name.now }
{
    match find_prop(props, name) {
        Some(prop) => Some(&prop.value),
        None => None,
    }
}

/// The value with which a property of the scene at a place begins.
pub fn scene_value<'a>(scene: &'a Scene, place: u32, prop: &Text) -> Option<&'a Variant>
    ensures { option_copied result ≡ value_in (props_in (scene_at scene.now place)) prop.now }
{
    match item_at(scene.scenes.as_slice(), place as usize) {
        Some(def) => value_among(def.props.as_slice(), prop),
        None => None,
    }
}

/// The value with which a property of the fixed node at a path begins.
fn fixed_value<'a>(tree: &'a Tree, path: &Text, prop: &Text) -> Option<&'a Variant>
    ensures { option_copied result ≡ option_and_then (λ (n : NodeOf). value_in n.props prop.now) (fixed_node_of tree.now.scene path.now) }
{
    match fixed_node(tree, path) {
        Some(node) => value_among(node.props.as_slice(), prop),
        None => None,
    }
}

/// A copy of a value, or `Nil` where there is none.
pub fn copy_or_nil(alloc: Global, value: Option<&Variant>) -> Result<Variant, OutOfMemory>
    ensures { IfOk result (λ v. v ≡ or_else (option_copied value.entry) nil_value) }
{
    match value {
        Some(value) => value.try_clone(alloc),
        None => Ok(Variant::Nil),
    }
}

/// Copies of the values with which the on-change properties of a fixed synchronizer begin.
pub fn first_values(alloc: Global, tree: &Tree, def: &SyncDef) -> Result<ValueList, OutOfMemory>
    ensures { IfOk result (λ vs. vs ≡ map (default_in tree.now.scene def.now.of) (change_props def.now)) }
{
    let mut values = Items::new(alloc);
    let props = def.props.as_slice();
    for prop in props {
        if is_on_change(prop) {
            values.push(copy_or_nil(alloc, fixed_value(tree, &def.of, &prop.prop))?)?;
        }
    }
    Ok(values)
}
