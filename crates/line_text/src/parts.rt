//! The parts that lines are made of: texts, truth values, numbers, arrays of a length, objects of known keys.
ghost use Rattle.std.specs.Prelude.{◌≡◌, ◌≤◌, IfOk, true, option_map, length, map};
ghost use Rattle.std.specs.Int.{w32, w64};
ghost use Rattle.std.specs.Int.RustNames.{FitsSigned};
ghost use Rattle.serde_json.specs.Find.{get_member};
ghost use Rattle.serde_json.specs.View.{view, items_view, members_view};
ghost use Rattle.gd_variant.specs.Words.{has_text, text_eq};
ghost use Rattle.gd_variant.specs.Sound.{is_text};
ghost use Rattle.line_text.specs.Reading.{Gives, each_read};
ghost use Rattle.line_text.specs.Parts.{all_known, array_read, bool_read, bytes_read, key_read, list_read, i64_read, nat_read, none_of, object_read, one_of, i32_read, text_read, three_of, three_read, two_of, two_read, word_read};

use gd_variant::{Bytes, List64, Text};
use hex::FromHexError;
use program_edge::{LineStop, LineWhy};
use serde_json::{Map, Value};
use sqlite_items::Items;
use std::alloc::Global;
use variant_codec::is_without_zero;

/// Any text.
#[tactic(auto, unfolding(crate::specs::Parts::word_read))]
pub fn word_of(value: &Value) -> Result<&str, LineStop>
    ensures { Gives (λ s. s.now) result (word_read (view value.now)) }
{
    match value {
        Value::String(text) => Ok(text.as_str()),
        _ => Err(LineStop::LineBad(LineWhy::Shape)),
    }
}

/// A text that is kept, so one without U+0000.
#[tactic(auto, unfolding(crate::specs::Parts::text_read))]
pub fn text_of(alloc: Global, value: &Value) -> Result<Text, LineStop>
    ensures { Gives (λ t. t) result (text_read (view value.now)) }
{
    let word = word_of(value)?;
    if !is_without_zero(word.as_bytes()) {
        return Err(LineStop::LineBad(LineWhy::Range));
    }
    Ok(Text::from_str(alloc, word)?)
}

/// A text that is kept. Its type says that it is UTF-8 without a zero byte.
pub fn whole_text_of(alloc: Global, value: &Value) -> Result<Text, LineStop>
    ensures gives { Gives (λ t. t) result (text_read (view value.now)) }
    ensures whole { IfOk result (λ t. is_text t ≡ true) }
{
    let text = text_of(alloc, value)?;
    let _whole = text.as_str();
    Ok(text)
}

#[tactic(auto, unfolding(crate::specs::Parts::bool_read))]
pub fn bool_of(value: &Value) -> Result<bool, LineStop>
    ensures { Gives (λ b. b) result (bool_read (view value.now)) }
{
    match value {
        Value::Bool(b) => Ok(*b),
        _ => Err(LineStop::LineBad(LineWhy::Shape)),
    }
}

/// A whole number from `low` to `high`.
#[tactic(auto, unfolding(crate::specs::Parts::nat_read))]
pub fn nat_of(low: u64, high: u64, value: &Value) -> Result<u64, LineStop>
    ensures gives { Gives (λ n. n) result (nat_read low high (view value.now)) }
    ensures low { IfOk result (λ n. low ≤ n) }
    ensures high { IfOk result (λ n. n ≤ high) }
{
    if let Some(n) = value.as_u64() {
        if low <= n && n <= high {
            return Ok(n);
        }
        return Err(LineStop::LineBad(LineWhy::Range));
    }
    if value.as_i64().is_some() {
        return Err(LineStop::LineBad(LineWhy::Range));
    }
    Err(LineStop::LineBad(LineWhy::Shape))
}

/// A signed number of 64 bits.
#[tactic(auto, unfolding(crate::specs::Parts::i64_read))]
pub fn i64_of(value: &Value) -> Result<i64, LineStop>
    ensures gives { Gives (λ z. z) result (i64_read (view value.now)) }
    ensures fits { IfOk result (λ z. FitsSigned w64 z) }
{
    if let Some(n) = value.as_i64() {
        return Ok(n);
    }
    if value.as_u64().is_some() {
        return Err(LineStop::LineBad(LineWhy::Range));
    }
    Err(LineStop::LineBad(LineWhy::Shape))
}

/// A signed number of 32 bits.
#[tactic(auto, unfolding(crate::specs::Parts::i32_read))]
pub fn i32_of(value: &Value) -> Result<i32, LineStop>
    ensures gives { Gives (λ z. z) result (i32_read (view value.now)) }
    ensures fits { IfOk result (λ z. FitsSigned w32 z) }
{
    let n = i64_of(value)?;
    if -2147483648 <= n && n <= 2147483647 {
        return Ok(n as i32);
    }
    Err(LineStop::LineBad(LineWhy::Range))
}

/// Bytes in hexadecimal, in digits of either case.
#[tactic(auto, unfolding(crate::specs::Parts::bytes_read))]
pub fn bytes_of(alloc: Global, value: &Value) -> Result<Bytes, LineStop>
    ensures { Gives (λ b. b) result (bytes_read (view value.now)) }
{
    let word = word_of(value)?;
    match hex::decode(alloc, word) {
        Ok(bytes) => Ok(Bytes::from_vec(bytes)),
        Err(FromHexError::OutOfMemory) => Err(LineStop::OutOfMemory),
        Err(_) => Err(LineStop::LineBad(LineWhy::Hex)),
    }
}

/// An array of any length.
#[tactic(auto, unfolding(crate::specs::Parts::array_read))]
pub fn array_of(value: &Value) -> Result<&[Value], LineStop>
    ensures { Gives (λ vs. items_view vs.now) result (array_read (view value.now)) }
{
    match value {
        Value::Array(items) => Ok(items.as_slice()),
        _ => Err(LineStop::LineBad(LineWhy::Shape)),
    }
}

/// No items.
#[tactic(auto, unfolding(crate::specs::Parts::none_of))]
pub fn none_of(items: &[Value]) -> Result<(), LineStop>
    ensures { Gives (λ x. x) result (none_of (items_view items.now)) }
{
    match items {
        [] => Ok(()),
        [_, ..] => Err(LineStop::LineBad(LineWhy::Shape)),
    }
}

/// One item and no more.
#[tactic(auto, unfolding(crate::specs::Parts::one_of))]
pub fn one_of(items: &[Value]) -> Result<&Value, LineStop>
    ensures { Gives (λ x. view x.now) result (one_of (items_view items.now)) }
{
    match items {
        [only] => Ok(only),
        [] => Err(LineStop::LineBad(LineWhy::Shape)),
        [_, _, ..] => Err(LineStop::LineBad(LineWhy::Shape)),
    }
}

/// Two items and no more.
#[tactic(auto, unfolding(crate::specs::Parts::two_of))]
pub fn two_of(items: &[Value]) -> Result<(&Value, &Value), LineStop>
    ensures { Gives (λ x. (view x.0.now, view x.1.now)) result (two_of (items_view items.now)) }
{
    match items {
        [a, b] => Ok((a, b)),
        [] => Err(LineStop::LineBad(LineWhy::Shape)),
        [_] => Err(LineStop::LineBad(LineWhy::Shape)),
        [_, _, _, ..] => Err(LineStop::LineBad(LineWhy::Shape)),
    }
}

/// Three items and no more.
#[tactic(auto, unfolding(crate::specs::Parts::three_of))]
pub fn three_of(items: &[Value]) -> Result<(&Value, &Value, &Value), LineStop>
    ensures { Gives (λ x. (view x.0.now, view x.1.now, view x.2.now)) result (three_of (items_view items.now)) }
{
    match items {
        [a, b, c] => Ok((a, b, c)),
        [] => Err(LineStop::LineBad(LineWhy::Shape)),
        [_] => Err(LineStop::LineBad(LineWhy::Shape)),
        [_, _] => Err(LineStop::LineBad(LineWhy::Shape)),
        [_, _, _, _, ..] => Err(LineStop::LineBad(LineWhy::Shape)),
    }
}

/// An array of two values.
#[tactic(auto, unfolding(crate::specs::Parts::two_read))]
pub fn pair_of(value: &Value) -> Result<(&Value, &Value), LineStop>
    ensures { Gives (λ x. (view x.0.now, view x.1.now)) result (two_read (view value.now)) }
{
    let items = array_of(value)?;
    two_of(items)
}

/// An array of three values.
#[tactic(auto, unfolding(crate::specs::Parts::three_read))]
pub fn triple_of(value: &Value) -> Result<(&Value, &Value, &Value), LineStop>
    ensures { Gives (λ x. (view x.0.now, view x.1.now, view x.2.now)) result (three_read (view value.now)) }
{
    let items = array_of(value)?;
    three_of(items)
}

/// Numbers of 32 bits, in 64 bits each.
fn each_i32_as_i64(alloc: Global, items: &[Value]) -> Result<List64, LineStop>
    ensures { Gives (λ zs. zs) result (each_read i32_read (items_view items.now)) }
{
    let mut all = Items::new(alloc);
    for item in items {
        let n = i32_of(item)?;
        all.push(n as i64)?;
    }
    Ok(all)
}

/// An array of numbers of 32 bits, in 64 bits each.
#[tactic(auto, unfolding(crate::specs::Parts::list_read))]
pub fn i32s_as_i64s_of(alloc: Global, value: &Value) -> Result<List64, LineStop>
    ensures { Gives (λ zs. zs) result (list_read i32_read (view value.now)) }
{
    let items = array_of(value)?;
    each_i32_as_i64(alloc, items)
}

fn same(a: &[u8], b: &[u8]) -> bool
    ensures { result ≡ text_eq a.now b.now }
{
    a == b
}

/// Whether a key is one of some.
fn is_known(key: &str, known: &[&str]) -> bool
    ensures { result ≡ has_text key.now (map (λ k. k.now) known.now) }
{
    let key = key.as_bytes();
    for name in known {
        if same(key, name.as_bytes()) {
            return true;
        }
    }
    false
}

/// Whether each key of an object is one of some.
pub fn are_known(members: &Map<String, Value>, known: &[&str]) -> bool
    ensures { result ≡ all_known (map (λ k. k.now) known.now) (members_view members.now.entries) }
{
    for (key, _member) in members.iter() {
        if !is_known(key.as_str(), known) {
            return false;
        }
    }
    true
}

/// An object that has no other keys than these.
#[tactic(auto, unfolding(crate::specs::Parts::object_read))]
pub fn object_of<'a>(value: &'a Value, known: &[&str]) -> Result<&'a Map<String, Value>, LineStop>
    ensures { Gives (λ m. members_view m.now.entries) result (object_read (map (λ k. k.now) known.now) (view value.now)) }
{
    match value {
        Value::Object(members) => {
            if are_known(members, known) {
                Ok(members)
            } else {
                Err(LineStop::LineBad(LineWhy::Name))
            }
        }
        _ => Err(LineStop::LineBad(LineWhy::Shape)),
    }
}

/// The value of a key, if the object has it.
pub fn member<'a>(members: &'a Map<String, Value>, key: &str) -> Option<&'a Value>
    ensures { option_map (λ v. view v.now) result ≡ get_member key.now (members_view members.now.entries) }
{
    members.get(key)
}

/// The value of a key that may not be missing.
#[tactic(auto, unfolding(crate::specs::Parts::key_read))]
pub fn key_of<'a>(members: &'a Map<String, Value>, key: &str) -> Result<&'a Value, LineStop>
    ensures { Gives (λ v. view v.now) result (key_read key.now (members_view members.now.entries)) }
{
    match member(members, key) {
        Some(value) => Ok(value),
        None => Err(LineStop::LineBad(LineWhy::Shape)),
    }
}
