//! What differs of one synchronizer, and copies of its values.
ghost use Rattle.std.specs.Prelude.{◌≡◌, ◌≤◌, ◌++◌, not, IfOk, length, map, slice_get, option_and_then};
ghost use Rattle.std.specs.Option.{option_copied};
ghost use Rattle.gd_variant.specs.Words.{some_is, or_else};
ghost use Rattle.gd_variant.specs.Tree.{same_value};
ghost use Rattle.gd_variant.specs.declared.value.Variant.TheVariants.{Nil};
ghost use Rattle.peer_model.specs.Updates.{masked};
ghost use Rattle.peer_model.specs.Changes.{mask_of};
ghost use Rattle.headless_tree.specs.Nodes.{live};
ghost use Rattle.delta_props.specs.Telling.{bit_of, changes_in, is_untold, untold, value_of as value_of_in};

use crate::finding::is_on_change;
use gd_variant::{OutOfMemory, Text, ValueList, Variant, same};
use headless_tree::NodeNow;
use scene_model::SyncProp;
use sqlite_items::{Items, at as item_at};
use std::alloc::Global;

/// How many of a synchronizer's properties are on-change ones.
pub fn count_changes(props: &[SyncProp]) -> usize
    ensures { result ≡ length (changes_in props.now) }
{
    let mut count = 0;
    for prop in props {
        if is_on_change(prop) {
            count += 1;
        }
    }
    count
}

/// Whether a value isn't the one that was told, or none was told.
fn differs(now: &Variant, told: Option<&Variant>) -> bool
    ensures { result ≡ not (some_is (same_value now.now) (option_copied told.entry)) }
{
    match told {
        Some(told) => !same(now, told),
        None => true,
    }
}

fn told_at(told: Option<&ValueList>, at: usize) -> Option<&Variant>
    ensures { option_copied result ≡ option_and_then (λ vs. slice_get vs at) (option_copied told.entry) }
{
    match told {
        Some(told) => item_at(told.as_slice(), at),
        None => None,
    }
}

/// Whether the value of a property of a node isn't the one that was told at a place.
fn is_untold_now(node: &NodeNow, prop: &Text, told: Option<&ValueList>, at: usize) -> bool
    ensures { result ≡ is_untold (option_copied told.entry) at (value_of_in (live node.now) prop.now) }
{
    match node.values.get(prop.as_str()) {
        Some(now) => differs(now, told_at(told, at)),
        None => differs(&Variant::Nil, told_at(told, at)),
    }
}

fn bit(set: bool) -> u64
    ensures { result ≡ bit_of set }
{
    if set { 1 } else { 0 }
}

/// The mask of those on-change properties of a node, so many among those of a synchronizer, whose
/// values aren't those that were told.
pub fn untold_mask(
    node: &NodeNow,
    props: &[SyncProp],
    count: usize,
    told: Option<&ValueList>,
) -> u64
    requires count { count ≡ length (changes_in props.now) }
    requires few { count ≤ 64 }
    ensures { result ≡ mask_of (untold (value_of_in (live node.now)) (option_copied told.entry) 0 (changes_in props.now)) }
{
    let mut mask: u64 = 0;
    let mut at = count;
    let mut place = props.len();
    while 0 < place {
        place -= 1;
        let prop = &props[place];
        if is_on_change(prop) {
            at -= 1;
            mask = bit(is_untold_now(node, &prop.prop, told, at)) + 2 * mask;
        }
    }
    mask
}

/// A copy of the value of a property of a node.
fn copy_value(alloc: Global, node: &NodeNow, prop: &Text) -> Result<Variant, OutOfMemory>
    ensures { IfOk result (λ v. v ≡ value_of_in (live node.now) prop.now) }
{
    match node.values.get(prop.as_str()) {
        Some(value) => value.try_clone(alloc),
        None => Ok(Variant::Nil),
    }
}

/// Copies of the values of those on-change properties that a mask has.
pub fn copy_masked(
    alloc: Global,
    node: &NodeNow,
    props: &[SyncProp],
    mask: u64,
) -> Result<ValueList, OutOfMemory>
    ensures { IfOk result (λ vs. vs ≡ map (value_of_in (live node.now)) (masked mask (changes_in props.now))) }
{
    let mut values = Items::new(alloc);
    let mut rest = mask;
    for prop in props {
        if is_on_change(prop) {
            if rest % 2 == 1 {
                values.push(copy_value(alloc, node, &prop.prop)?)?;
            }
            rest /= 2;
        }
    }
    Ok(values)
}

/// Copies of the values of all on-change properties.
pub fn copy_changes(
    alloc: Global,
    node: &NodeNow,
    props: &[SyncProp],
) -> Result<ValueList, OutOfMemory>
    ensures { IfOk result (λ vs. vs ≡ map (value_of_in (live node.now)) (changes_in props.now)) }
{
    let mut values = Items::new(alloc);
    for prop in props {
        if is_on_change(prop) {
            values.push(copy_value(alloc, node, &prop.prop)?)?;
        }
    }
    Ok(values)
}
