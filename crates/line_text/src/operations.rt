//! Operations in lines.
ghost use Rattle.std.specs.Prelude.{◌≡◌, IfOk, true};
ghost use Rattle.std.specs.List.{list_all};
ghost use Rattle.serde_json.specs.View.{view, items_view};
ghost use Rattle.gd_variant.specs.Words.{has_text};
ghost use Rattle.gd_variant.specs.Sound.{is_text, is_sound};
ghost use Rattle.line_text.specs.Reading.{Gives, each_read};
ghost use Rattle.line_text.specs.Parts.{list_read};
ghost use Rattle.line_text.specs.Held.{IsGiven, prop_names, prop_values};
ghost use Rattle.line_text.specs.Operations.{custom_spawn_read, despawn_read, first_of, four_of, frame_read, later_ops, op_by, op_read, set_read, setting_read, spawn_read, worded_read};

use crate::parts::{array_of, none_of, one_of, pair_of, three_of, whole_text_of, word_of};
use crate::sights::{filter_of, for_of, public_of};
use crate::values::value_of;
use program_edge::{LineStop, LineWhy};
use scene_model::{Op, Prop, PropList, SpawnOp};
use serde_json::Value;
use sqlite_items::Items;
use std::alloc::Global;

/// A first item, and the items behind it.
#[tactic(auto, unfolding(crate::specs::Operations::first_of))]
fn first_of(items: &[Value]) -> Result<(&Value, &[Value]), LineStop>
    ensures { Gives (λ x. (view x.0.now, items_view x.1.now)) result (first_of (items_view items.now)) }
{
    match items {
        [first, rest @ ..] => Ok((first, rest)),
        [] => Err(LineStop::LineBad(LineWhy::Shape)),
    }
}

/// The word at the front of an array, and what stands behind it.
#[tactic(auto, unfolding(crate::specs::Operations::worded_read))]
pub fn worded_of(value: &Value) -> Result<(&str, &[Value]), LineStop>
    ensures { Gives (λ x. (x.0.now, items_view x.1.now)) result (worded_read (view value.now)) }
{
    let items = array_of(value)?;
    let (first, rest) = first_of(items)?;
    let word = word_of(first)?;
    Ok((word, rest))
}

/// Four items and no more.
#[tactic(auto, unfolding(crate::specs::Operations::four_of))]
fn four_of(items: &[Value]) -> Result<(&Value, &Value, &Value, &Value), LineStop>
    ensures { Gives (λ x. (view x.0.now, view x.1.now, view x.2.now, view x.3.now)) result (four_of (items_view items.now)) }
{
    match items {
        [a, b, c, d] => Ok((a, b, c, d)),
        [] => Err(LineStop::LineBad(LineWhy::Shape)),
        [_] => Err(LineStop::LineBad(LineWhy::Shape)),
        [_, _] => Err(LineStop::LineBad(LineWhy::Shape)),
        [_, _, _] => Err(LineStop::LineBad(LineWhy::Shape)),
        [_, _, _, _, _, ..] => Err(LineStop::LineBad(LineWhy::Shape)),
    }
}

/// A property and its value.
#[tactic(auto, unfolding(crate::specs::Operations::setting_read))]
fn setting_of(alloc: Global, value: &Value) -> Result<Prop, LineStop>
    ensures gives { Gives (λ p. p) result (setting_read (view value.now)) }
    ensures name { IfOk result (λ p. is_text p.name ≡ true) }
    ensures value { IfOk result (λ p. is_sound p.value ≡ true) }
{
    let (name, value) = pair_of(value)?;
    let name = whole_text_of(alloc, name)?;
    let value = value_of(alloc, value)?;
    Ok(Prop { name, value })
}

/// The settings of a spawn, in order.
fn each_setting(alloc: Global, items: &[Value]) -> Result<PropList, LineStop>
    ensures gives { Gives (λ ps. ps) result (each_read setting_read (items_view items.now)) }
    ensures names { IfOk result (λ ps. list_all is_text (prop_names ps) ≡ true) }
    ensures values { IfOk result (λ ps. list_all is_sound (prop_values ps) ≡ true) }
{
    let mut all = Items::new(alloc);
    for item in items {
        let setting = setting_of(alloc, item)?;
        all.push(setting)?;
    }
    Ok(all)
}

#[tactic(auto, unfolding(crate::specs::Parts::list_read))]
fn settings_of(alloc: Global, value: &Value) -> Result<PropList, LineStop>
    ensures gives { Gives (λ ps. ps) result (list_read setting_read (view value.now)) }
    ensures names { IfOk result (λ ps. list_all is_text (prop_names ps) ≡ true) }
    ensures values { IfOk result (λ ps. list_all is_sound (prop_values ps) ≡ true) }
{
    let items = array_of(value)?;
    each_setting(alloc, items)
}

#[tactic(auto, unfolding(crate::specs::Operations::spawn_read))]
fn spawn_of(alloc: Global, items: &[Value]) -> Result<Op, LineStop>
    ensures gives { Gives (λ op. op) result (spawn_read (items_view items.now)) }
    ensures given { IfOk result IsGiven }
{
    let (spawner, scene, name, sets) = four_of(items)?;
    let spawner = whole_text_of(alloc, spawner)?;
    let scene = whole_text_of(alloc, scene)?;
    let name = whole_text_of(alloc, name)?;
    let sets = settings_of(alloc, sets)?;
    Ok(Op::Spawn(SpawnOp {
        spawner,
        scene: Some(scene),
        name,
        sets,
        arg: None,
    }))
}

#[tactic(auto, unfolding(crate::specs::Operations::custom_spawn_read))]
fn custom_of(alloc: Global, items: &[Value]) -> Result<Op, LineStop>
    ensures gives { Gives (λ op. op) result (custom_spawn_read (items_view items.now)) }
    ensures given { IfOk result IsGiven }
{
    let (spawner, name, arg) = three_of(items)?;
    let spawner = whole_text_of(alloc, spawner)?;
    let name = whole_text_of(alloc, name)?;
    let arg = value_of(alloc, arg)?;
    Ok(Op::Custom(SpawnOp {
        spawner,
        scene: None,
        name,
        sets: Items::new(alloc),
        arg: Some(arg),
    }))
}

#[tactic(auto, unfolding(crate::specs::Operations::despawn_read))]
fn despawn_of(alloc: Global, items: &[Value]) -> Result<Op, LineStop>
    ensures gives { Gives (λ op. op) result (despawn_read (items_view items.now)) }
    ensures given { IfOk result IsGiven }
{
    let path = whole_text_of(alloc, one_of(items)?)?;
    Ok(Op::Despawn { path })
}

#[tactic(auto, unfolding(crate::specs::Operations::set_read))]
fn set_of(alloc: Global, items: &[Value]) -> Result<Op, LineStop>
    ensures gives { Gives (λ op. op) result (set_read (items_view items.now)) }
    ensures given { IfOk result IsGiven }
{
    let (path, prop, value) = three_of(items)?;
    let path = whole_text_of(alloc, path)?;
    let prop = whole_text_of(alloc, prop)?;
    let value = value_of(alloc, value)?;
    Ok(Op::Set { path, prop, value })
}

#[tactic(auto, unfolding(crate::specs::Operations::frame_read))]
fn frame_of(items: &[Value]) -> Result<Op, LineStop>
    ensures gives { Gives (λ op. op) result (frame_read (items_view items.now)) }
    ensures given { IfOk result IsGiven }
{
    none_of(items)?;
    Ok(Op::Frame)
}

/// Whether an operation of this word isn't built yet.
fn is_later_op(word: &str) -> bool
    ensures { result ≡ has_text word.now later_ops }
{
    word == "call" || word == "raw"
}

/// An operation by its word, of what stands behind the word.
#[tactic(auto, unfolding(crate::specs::Operations::op_by))]
fn op_by(alloc: Global, word: &str, items: &[Value]) -> Result<Op, LineStop>
    ensures gives { Gives (λ op. op) result (op_by word.now (items_view items.now)) }
    ensures given { IfOk result IsGiven }
{
    match word {
        "spawn" => spawn_of(alloc, items),
        "custom" => custom_of(alloc, items),
        "despawn" => despawn_of(alloc, items),
        "set" => set_of(alloc, items),
        "public" => public_of(alloc, items),
        "for" => for_of(alloc, items),
        "filter" => filter_of(alloc, items),
        "frame" => frame_of(items),
        _ if is_later_op(word) => Err(LineStop::LineBad(LineWhy::NotBuilt)),
        _ => Err(LineStop::LineBad(LineWhy::Name)),
    }
}

/// The operation that stands in a line.
#[tactic(auto, unfolding(crate::specs::Operations::op_read))]
pub fn op_of(alloc: Global, value: &Value) -> Result<Op, LineStop>
    ensures gives { Gives (λ op. op) result (op_read (view value.now)) }
    ensures given { IfOk result IsGiven }
{
    let (word, items) = worded_of(value)?;
    op_by(alloc, word, items)
}
