//! Values in lines.
ghost use Rattle.std.specs.Prelude.{◌≡◌, IfOk, IsTrue, true};
ghost use Rattle.serde_json.specs.View.{view, items_view, members_view};
ghost use Rattle.gd_variant.specs.Sound.{is_sound as is_sound_value};
ghost use Rattle.line_text.specs.Reading.{Gives};
ghost use Rattle.line_text.specs.Written.{ReadsWritten};
ghost use Rattle.line_text.specs.Values.{dict_read, entry_read, flat_read, form_read, forms_read, ints_read, keys_why, pair_read, pairs_read, path_read, raw_read, run_read, tagged_read, value_read};

use crate::lists::list_of;
use crate::parts::{
    are_known, bool_of, bytes_of, i32s_as_i64s_of, i64_of, nat_of, pair_of, text_of, triple_of,
};
use gd_variant::{IntRun, IntsOf, NodePath, Opaque, Pair, Pairs, ValueList, Variant};
use program_edge::{LineStop, LineWhy};
use serde_json::{Map, Value};
use sound_check::judge_sound;
use sqlite_items::Items;
use std::alloc::Global;

/// Whether a path is absolute, its names, and the names of properties.
#[tactic(auto, unfolding(crate::specs::Values::path_read))]
fn path_of(alloc: Global, value: &Value) -> Result<Variant, LineStop>
    ensures { Gives (λ v. v) result (path_read (view value.now)) }
{
    let (absolute, names, subnames) = triple_of(value)?;
    let absolute = bool_of(absolute)?;
    let names = list_of(alloc, names)?;
    let subnames = list_of(alloc, subnames)?;
    Ok(Variant::Path(NodePath {
        absolute,
        names,
        subnames,
    }))
}

/// The code of an integer vector, and its numbers.
#[tactic(auto, unfolding(crate::specs::Values::ints_read))]
fn ints_of(alloc: Global, value: &Value) -> Result<Variant, LineStop>
    ensures { Gives (λ v. v) result (ints_read (view value.now)) }
{
    let (code, items) = pair_of(value)?;
    let code = nat_of(0, 255, code)?;
    let items = list_of(alloc, items)?;
    Ok(Variant::Ints(IntsOf {
        code: code as u8,
        items,
    }))
}

/// The code of a value of floats, whether its components have eight bytes, and the bytes.
#[tactic(auto, unfolding(crate::specs::Values::raw_read))]
fn opaque_of(alloc: Global, value: &Value) -> Result<Variant, LineStop>
    ensures { Gives (λ v. v) result (raw_read (view value.now)) }
{
    let (code, wide, bytes) = triple_of(value)?;
    let code = nat_of(0, 255, code)?;
    let wide = bool_of(wide)?;
    let bytes = bytes_of(alloc, bytes)?;
    Ok(Variant::Opaque(Opaque {
        code: code as u8,
        wide,
        bytes,
    }))
}

/// A packed array of numbers.
#[tactic(auto, unfolding(crate::specs::Values::run_read))]
fn run_of(alloc: Global, wide: bool, value: &Value) -> Result<Variant, LineStop>
    ensures { Gives (λ v. v) result (run_read wide (view value.now)) }
{
    if wide {
        let items = list_of(alloc, value)?;
        Ok(Variant::PackedInts(IntRun { wide: true, items }))
    } else {
        let items = i32s_as_i64s_of(alloc, value)?;
        Ok(Variant::PackedInts(IntRun { wide: false, items }))
    }
}

/// A value that is written as an object with one key and holds no other values.
#[tactic(auto, unfolding(crate::specs::Values::flat_read))]
fn flat_of(alloc: Global, key: &str, value: &Value) -> Result<Variant, LineStop>
    ensures { Gives (λ v. v) result (flat_read key.now (view value.now)) }
{
    match key {
        "name" => Ok(Variant::Name(text_of(alloc, value)?)),
        "path" => path_of(alloc, value),
        "ints" => ints_of(alloc, value),
        "raw" => opaque_of(alloc, value),
        "bytes" => Ok(Variant::PackedBytes(bytes_of(alloc, value)?)),
        "i32" => run_of(alloc, false, value),
        "i64" => run_of(alloc, true, value),
        "texts" => Ok(Variant::PackedTexts(list_of(alloc, value)?)),
        _ => Err(LineStop::LineBad(LineWhy::Name)),
    }
}

/// What is wrong with an object of several keys that stands for a value.
#[tactic(auto, unfolding(crate::specs::Values::keys_why))]
fn why_of_keys(members: &Map<String, Value>) -> LineWhy
    ensures { result ≡ keys_why (members_view members.now.entries) }
{
    let known = [
        "name", "path", "ints", "raw", "dict", "bytes", "i32", "i64", "texts",
    ];
    if are_known(members, &known) {
        LineWhy::Shape
    } else {
        LineWhy::Name
    }
}

/// A key, its value and nothing else.
#[cycle(reading)]
#[tactic(auto, unfolding(crate::specs::Values::entry_read))]
fn entry_from(items: &[Value], alloc: Global) -> Result<Pair, LineStop>
    ensures { Gives (λ p. p) result (entry_read (items_view items.now)) }
{
    match items {
        [key, value] => {
            let key = form_of(key, alloc)?;
            let value = form_of(value, alloc)?;
            Ok(Pair { key, value })
        }
        [] => Err(LineStop::LineBad(LineWhy::Shape)),
        [_] => Err(LineStop::LineBad(LineWhy::Shape)),
        [_, _, _, ..] => Err(LineStop::LineBad(LineWhy::Shape)),
    }
}

/// An array of a key and its value.
#[cycle(reading)]
#[tactic(auto, unfolding(crate::specs::Values::pair_read))]
fn entry_of(value: &Value, alloc: Global) -> Result<Pair, LineStop>
    ensures { Gives (λ p. p) result (pair_read (view value.now)) }
{
    match value {
        Value::Array(items) => entry_from(items.as_slice(), alloc),
        _ => Err(LineStop::LineBad(LineWhy::Shape)),
    }
}

/// The entries of a dictionary.
#[cycle(reading)]
fn entries_of(items: &[Value], alloc: Global) -> Result<Pairs, LineStop>
    ensures { Gives (λ ps. ps) result (pairs_read (items_view items.now)) }
{
    let mut all = Items::new(alloc);
    for item in items {
        let pair = entry_of(item, alloc)?;
        all.push(pair)?;
    }
    Ok(all)
}

#[cycle(reading)]
#[tactic(auto, unfolding(crate::specs::Values::dict_read))]
fn dict_of(value: &Value, alloc: Global) -> Result<Variant, LineStop>
    ensures { Gives (λ v. v) result (dict_read (view value.now)) }
{
    match value {
        Value::Array(items) => {
            let pairs = entries_of(items.as_slice(), alloc)?;
            Ok(Variant::Dict(pairs))
        }
        _ => Err(LineStop::LineBad(LineWhy::Shape)),
    }
}

/// A value that is written as an object with one key.
#[cycle(reading)]
#[tactic(auto, unfolding(crate::specs::Values::tagged_read))]
fn tagged_of(members: &Map<String, Value>, alloc: Global) -> Result<Variant, LineStop>
    ensures { Gives (λ v. v) result (tagged_read (members_view members.now.entries)) }
{
    if members.len() > 1 {
        return Err(LineStop::LineBad(why_of_keys(members)));
    }
    match members.iter().next() {
        Some((key, value)) => {
            if key.as_str() == "dict" {
                dict_of(value, alloc)
            } else {
                flat_of(alloc, key.as_str(), value)
            }
        }
        None => Err(LineStop::LineBad(LineWhy::Shape)),
    }
}

/// Several values.
#[cycle(reading)]
fn forms_of(items: &[Value], alloc: Global) -> Result<ValueList, LineStop>
    ensures { Gives (λ vs. vs) result (forms_read (items_view items.now)) }
{
    let mut all = Items::new(alloc);
    for item in items {
        let value = form_of(item, alloc)?;
        all.push(value)?;
    }
    Ok(all)
}

/// A value, whether or not it is sound.
#[cycle(reading)]
#[tactic(auto, unfolding(crate::specs::Values::form_read))]
fn form_of(value: &Value, alloc: Global) -> Result<Variant, LineStop>
    ensures { Gives (λ v. v) result (form_read (view value.now)) }
{
    match value {
        Value::Null => Ok(Variant::Nil),
        Value::Bool(b) => Ok(Variant::Bool(*b)),
        Value::Number(_) => Ok(Variant::Int(i64_of(value)?)),
        Value::String(_) => Ok(Variant::Text(text_of(alloc, value)?)),
        Value::Array(items) => {
            let values = forms_of(items.as_slice(), alloc)?;
            Ok(Variant::Array(values))
        }
        Value::Object(members) => tagged_of(members, alloc),
    }
}

/// A value, judged once it was read whole: one that isn't sound is out of range.
#[tactic(auto, unfolding(crate::specs::Values::value_read))]
pub fn value_of(alloc: Global, value: &Value) -> Result<Variant, LineStop>
    ensures gives { Gives (λ v. v) result (value_read (view value.now)) }
    ensures sound { IfOk result (λ v. is_sound_value v ≡ true) }
{
    let found = form_of(value, alloc)?;
    if !judge_sound(alloc, &found)? {
        return Err(LineStop::LineBad(LineWhy::Range));
    }
    Ok(found)
}

/// What is written of a sound value is read as that value. (That a byte is below 256, which the law
/// asks for, the value's type says.)
pub fn written_values_are_read()
    ensures { ReadsWritten }
{}
