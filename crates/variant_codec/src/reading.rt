//! Reading a value from left to right.
ghost use Rattle.std.specs.Prelude.{◌≡◌, [], ◌∷◌, ◌++◌, map, drop, slice_index_or, IfOk, OnOk};
ghost use Rattle.std.specs.Int.{w8, w16, w32, w64};
ghost use Rattle.byte_fields.specs.Fields.{Gives};
ghost use Rattle.byte_fields.specs.Complement.{half8, half16, half32, half64};
ghost use Rattle.gd_variant.specs.Tree.{Tree, plain, plain_pair};
ghost use Rattle.variant_codec.specs.Known.{IsKnown, AreKnown};
ghost use Rattle.gd_variant.specs.declared.message.Why.TheVariants.{RepeatedKey};
ghost use Rattle.variant_codec.specs.Header.{form_of};
ghost use Rattle.variant_codec.specs.Readers.{checked_by, list_by};
ghost use Rattle.variant_codec.specs.Reading.{bool_at, int_at, names_at, flags_at, shorts_of, path_of, path_at, ints_at, fixed_at, packed_at, bytes_at, packed_shorts_at, packed_longs_at, packed_texts_at, array_by, pair_by, dict_by, body_by, value_at, small_int_at, small_by, small_at};
ghost use Rattle.variant_codec.specs.Tests.{is_new_to};

use crate::form::{Form, form_of};
use crate::parts::{
    bytes_of, elements_of, fault_at, header_of, i32_of, i64_of, longs_of, raw_of, shorts_of,
    text_of, texts_of, vector_of,
};
use crate::writing::put;
use byte_fields::{ReadError, u8_at, u16_at, u32_at, u64_at};
use gd_variant::{
    Bytes, IntRun, IntsOf, NodePath, Opaque, OutOfMemory, Pair, Pairs, ValueList, Variant, Why,
    bytes_of_component, bytes_of_element, components_of_code, ints_of_code, same,
};
use sqlite_items::Items;
use std::alloc::Global;
use std::collections::BTreeSet;

/// A dictionary of at most so many pairs compares each key with each.
const FEW_PAIRS: u32 = 16;

#[tactic(auto, unfolding(crate::specs::Reading::bool_at))]
fn bool_of(bytes: &[u8]) -> Result<(Variant, &[u8]), ReadError>
    ensures { Gives (λ x. (plain x.0, x.1.now)) result (bool_at bytes.now) }
{
    let (bits, rest) = u32_at(bytes)?;
    Ok((Variant::Bool(bits != 0), rest))
}

#[tactic(auto, unfolding(crate::specs::Reading::int_at))]
fn int_of(wide: bool, bytes: &[u8]) -> Result<(Variant, &[u8]), ReadError>
    ensures { Gives (λ x. (plain x.0, x.1.now)) result (int_at wide bytes.now) }
{
    if wide {
        let (n, rest) = i64_of(bytes)?;
        Ok((Variant::Int(n), rest))
    } else {
        let (n, rest) = i32_of(bytes)?;
        Ok((Variant::Int(n as i64), rest))
    }
}

#[tactic(auto, unfolding(crate::specs::Reading::names_at))]
fn names_of(bytes: &[u8]) -> Result<(u32, &[u8]), ReadError>
    ensures { Gives (λ x. (x.0, x.1.now)) result (names_at bytes.now) }
{
    let (count, rest) = u32_at(bytes)?;
    if count < 2147483648 {
        return Err(fault_at(bytes, Why::OldPath));
    }
    Ok((count, rest))
}

#[tactic(auto, unfolding(crate::specs::Reading::flags_at))]
fn flags_of(bytes: &[u8]) -> Result<(u32, &[u8]), ReadError>
    ensures { Gives (λ x. (x.0, x.1.now)) result (flags_at bytes.now) }
{
    let (flags, rest) = u32_at(bytes)?;
    if flags > 1 {
        return Err(fault_at(bytes, Why::PathFlags));
    }
    Ok((flags, rest))
}

#[tactic(auto, unfolding(crate::specs::Reading::path_of))]
fn path_from(
    alloc: Global,
    absolute: bool,
    names: u32,
    subnames: u32,
    bytes: &[u8],
) -> Result<(Variant, &[u8]), ReadError>
    ensures { Gives (λ x. (plain x.0, x.1.now)) result (path_of absolute names subnames bytes.now) }
{
    let (names, rest) = texts_of(alloc, names, bytes)?;
    let (subnames, rest) = texts_of(alloc, subnames, rest)?;
    let path = NodePath {
        absolute,
        names,
        subnames,
    };
    Ok((Variant::Path(path), rest))
}

#[tactic(auto, unfolding(crate::specs::Reading::path_at))]
fn path_of(alloc: Global, bytes: &[u8]) -> Result<(Variant, &[u8]), ReadError>
    ensures { Gives (λ x. (plain x.0, x.1.now)) result (path_at bytes.now) }
{
    let (names, rest) = names_of(bytes)?;
    let (subnames, rest) = u32_at(rest)?;
    let (flags, rest) = flags_of(rest)?;
    path_from(
        alloc,
        flags == 1,
        names.saturating_sub(2147483648),
        subnames,
        rest,
    )
}

#[tactic(auto, unfolding(crate::specs::Reading::ints_at))]
fn ints_of(alloc: Global, code: u8, bytes: &[u8]) -> Result<(Variant, &[u8]), ReadError>
    ensures { Gives (λ x. (plain x.0, x.1.now)) result (ints_at code bytes.now) }
{
    let count = ints_of_code(code);
    if bytes.len() < 4 * count {
        return Err(fault_at(bytes, Why::Short));
    }
    let (items, rest) = vector_of(alloc, count, bytes)?;
    Ok((Variant::Ints(IntsOf { code, items }), rest))
}

#[tactic(auto, unfolding(crate::specs::Reading::fixed_at))]
fn fixed_of(
    alloc: Global,
    code: u8,
    wide: bool,
    bytes: &[u8],
) -> Result<(Variant, &[u8]), ReadError>
    ensures { Gives (λ x. (plain x.0, x.1.now)) result (fixed_at code wide bytes.now) }
{
    let (field, rest) = raw_of(components_of_code(code) * bytes_of_component(wide), bytes)?;
    let bytes = Bytes::from_slice(alloc, field)?;
    Ok((Variant::Opaque(Opaque { code, wide, bytes }), rest))
}

#[tactic(auto, unfolding(crate::specs::Reading::packed_at))]
fn packed_of(
    alloc: Global,
    code: u8,
    wide: bool,
    bytes: &[u8],
) -> Result<(Variant, &[u8]), ReadError>
    ensures { Gives (λ x. (plain x.0, x.1.now)) result (packed_at code wide bytes.now) }
{
    let (count, rest) = u32_at(bytes)?;
    let (field, rest) = raw_of(count as usize * bytes_of_element(code, wide), rest)?;
    let bytes = Bytes::from_slice(alloc, field)?;
    Ok((Variant::Opaque(Opaque { code, wide, bytes }), rest))
}

#[tactic(auto, unfolding(crate::specs::Reading::bytes_at))]
fn packed_bytes_of(alloc: Global, bytes: &[u8]) -> Result<(Variant, &[u8]), ReadError>
    ensures { Gives (λ x. (plain x.0, x.1.now)) result (bytes_at bytes.now) }
{
    let (field, rest) = bytes_of(bytes)?;
    Ok((Variant::PackedBytes(Bytes::from_slice(alloc, field)?), rest))
}

#[tactic(auto, unfolding(crate::specs::Reading::packed_shorts_at))]
fn packed_shorts_of(alloc: Global, bytes: &[u8]) -> Result<(Variant, &[u8]), ReadError>
    ensures { Gives (λ x. (plain x.0, x.1.now)) result (packed_shorts_at bytes.now) }
{
    let (count, rest) = u32_at(bytes)?;
    if rest.len() < 4 * count as usize {
        return Err(fault_at(rest, Why::Short));
    }
    let (items, rest) = shorts_of(alloc, count, rest)?;
    Ok((Variant::PackedInts(IntRun { wide: false, items }), rest))
}

#[tactic(auto, unfolding(crate::specs::Reading::packed_longs_at))]
fn packed_longs_of(alloc: Global, bytes: &[u8]) -> Result<(Variant, &[u8]), ReadError>
    ensures { Gives (λ x. (plain x.0, x.1.now)) result (packed_longs_at bytes.now) }
{
    let (count, rest) = u32_at(bytes)?;
    if rest.len() < 8 * count as usize {
        return Err(fault_at(rest, Why::Short));
    }
    let (items, rest) = longs_of(alloc, count, rest)?;
    Ok((Variant::PackedInts(IntRun { wide: true, items }), rest))
}

#[tactic(auto, unfolding(crate::specs::Reading::packed_texts_at))]
fn packed_texts_of(alloc: Global, bytes: &[u8]) -> Result<(Variant, &[u8]), ReadError>
    ensures { Gives (λ x. (plain x.0, x.1.now)) result (packed_texts_at bytes.now) }
{
    let (count, rest) = u32_at(bytes)?;
    let (items, rest) = elements_of(alloc, count, rest)?;
    Ok((Variant::PackedTexts(items), rest))
}

/// Whether no pair has the key.
fn is_new(pairs: &[Pair], key: &Variant) -> bool
    ensures { result ≡ is_new_to (map plain_pair pairs.now) (plain key.now) }
{
    for pair in pairs {
        if same(key, &pair.key) {
            return false;
        }
    }
    true
}

/// Whether no pair has the key, for pairs whose keys' written forms are in the set; the key's form is
/// added. Equal keys have one written form, so a form that is new is a new key, and the keys are
/// compared one by one only where the form is there, as that of a repeated key is.
fn is_fresh(
    alloc: Global,
    seen: &mut BTreeSet<Vec<u8>>,
    pairs: &[Pair],
    key: &Variant,
) -> Result<bool, OutOfMemory>
    ensures fresh { AreKnown seen.old (map plain_pair pairs.now) → IfOk result (λ fresh. fresh ≡ is_new_to (map plain_pair pairs.now) (plain key.now)) }
    ensures keeps { OnOk result ((k : Tree) → IsKnown seen.old k → IsKnown seen.new k) }
    ensures adds { OnOk result (IsKnown seen.new (plain key.now)) }
{
    let mut form = Vec::new(alloc);
    put(key, &mut form)?;
    if seen.contains(form.as_slice()) {
        return Ok(is_new(pairs, key));
    }
    seen.insert(form)?;
    Ok(true)
}

/// So many values.
#[cycle(reading)]
fn items_of(
    alloc: Global,
    levels: u32,
    count: u32,
    bytes: &[u8],
) -> Result<(ValueList, &[u8]), ReadError>
    ensures { Gives (λ x. (map plain x.0, x.1.now)) result (list_by (λ _. value_at levels) [] count bytes.now) }
{
    let mut items = Items::new(alloc);
    let mut rest = bytes;
    for _ in 0..count {
        let (item, after) = value_of(alloc, levels, rest)?;
        items.push(item)?;
        rest = after;
    }
    Ok((items, rest))
}

#[cycle(reading)]
#[tactic(auto, using(gd_variant::proofs::TreeOf::plain_array), unfolding(crate::specs::Reading::array_by))]
fn array_of(alloc: Global, levels: u32, bytes: &[u8]) -> Result<(Variant, &[u8]), ReadError>
    ensures { Gives (λ x. (plain x.0, x.1.now)) result (array_by (value_at levels) bytes.now) }
{
    let (count, rest) = u32_at(bytes)?;
    let (items, rest) = items_of(alloc, levels, count % 2147483648, rest)?;
    Ok((Variant::Array(items), rest))
}

/// A key that none of the pairs has.
#[cycle(reading)]
fn key_of<'a>(
    alloc: Global,
    levels: u32,
    before: &[Pair],
    bytes: &'a [u8],
) -> Result<(Variant, &'a [u8]), ReadError>
    ensures { Gives (λ x. (plain x.0, x.1.now)) result (checked_by (is_new_to (map plain_pair before.now)) RepeatedKey (value_at levels) bytes.now) }
{
    let (key, rest) = value_of(alloc, levels, bytes)?;
    if !is_new(before, &key) {
        return Err(fault_at(bytes, Why::RepeatedKey));
    }
    Ok((key, rest))
}

#[cycle(reading)]
#[tactic(auto, unfolding(crate::specs::Reading::pair_by))]
fn pair_of<'a>(
    alloc: Global,
    levels: u32,
    before: &[Pair],
    bytes: &'a [u8],
) -> Result<(Pair, &'a [u8]), ReadError>
    ensures { Gives (λ x. (plain_pair x.0, x.1.now)) result (pair_by (value_at levels) (map plain_pair before.now) bytes.now) }
{
    let (key, rest) = key_of(alloc, levels, before, bytes)?;
    let (value, rest) = value_of(alloc, levels, rest)?;
    Ok((Pair { key, value }, rest))
}

/// So few pairs that each key is compared with each.
#[cycle(reading)]
fn few_pairs_of(
    alloc: Global,
    levels: u32,
    count: u32,
    bytes: &[u8],
) -> Result<(Pairs, &[u8]), ReadError>
    ensures { Gives (λ x. (map plain_pair x.0, x.1.now)) result (list_by (pair_by (value_at levels)) [] count bytes.now) }
{
    let mut items = Items::new(alloc);
    let mut rest = bytes;
    for _ in 0..count {
        let (item, after) = pair_of(alloc, levels, items.as_slice(), rest)?;
        items.push(item)?;
        rest = after;
    }
    Ok((items, rest))
}

/// A key that none of the pairs has, for pairs whose keys' written forms are in the set.
#[cycle(reading)]
fn fresh_key_of<'a>(
    alloc: Global,
    levels: u32,
    seen: &mut BTreeSet<Vec<u8>>,
    before: &[Pair],
    bytes: &'a [u8],
) -> Result<(Variant, &'a [u8]), ReadError>
    ensures gives { AreKnown seen.old (map plain_pair before.now) → Gives (λ x. (plain x.0, x.1.now)) result (checked_by (is_new_to (map plain_pair before.now)) RepeatedKey (value_at levels) bytes.now) }
    ensures keeps { IfOk result (λ x. (k : Tree) → IsKnown seen.old k → IsKnown seen.new k) }
    ensures adds { IfOk result (λ x. IsKnown seen.new (plain x.0)) }
{
    let (key, rest) = value_of(alloc, levels, bytes)?;
    if !is_fresh(alloc, seen, before, &key)? {
        return Err(fault_at(bytes, Why::RepeatedKey));
    }
    Ok((key, rest))
}

#[cycle(reading)]
#[tactic(auto, unfolding(crate::specs::Reading::pair_by))]
fn fresh_pair_of<'a>(
    alloc: Global,
    levels: u32,
    seen: &mut BTreeSet<Vec<u8>>,
    before: &[Pair],
    bytes: &'a [u8],
) -> Result<(Pair, &'a [u8]), ReadError>
    ensures gives { AreKnown seen.old (map plain_pair before.now) → Gives (λ x. (plain_pair x.0, x.1.now)) result (pair_by (value_at levels) (map plain_pair before.now) bytes.now) }
    ensures knows { IfOk result (λ x. AreKnown seen.old (map plain_pair before.now) → AreKnown seen.new (map plain_pair before.now ++ plain_pair x.0 ∷ [])) }
{
    let (key, rest) = fresh_key_of(alloc, levels, seen, before, bytes)?;
    let (value, rest) = value_of(alloc, levels, rest)?;
    Ok((Pair { key, value }, rest))
}

/// So many pairs that their keys are told apart by a set of their written forms.
#[cycle(reading)]
fn many_pairs_of(
    alloc: Global,
    levels: u32,
    count: u32,
    bytes: &[u8],
) -> Result<(Pairs, &[u8]), ReadError>
    ensures { Gives (λ x. (map plain_pair x.0, x.1.now)) result (list_by (pair_by (value_at levels)) [] count bytes.now) }
{
    let mut items = Items::new(alloc);
    let mut seen = BTreeSet::new(alloc);
    let mut rest = bytes;
    for _ in 0..count {
        let (item, after) = fresh_pair_of(alloc, levels, &mut seen, items.as_slice(), rest)?;
        items.push(item)?;
        rest = after;
    }
    Ok((items, rest))
}

/// So many pairs.
#[cycle(reading)]
fn pairs_of(
    alloc: Global,
    levels: u32,
    count: u32,
    bytes: &[u8],
) -> Result<(Pairs, &[u8]), ReadError>
    ensures { Gives (λ x. (map plain_pair x.0, x.1.now)) result (list_by (pair_by (value_at levels)) [] count bytes.now) }
{
    if count <= FEW_PAIRS {
        few_pairs_of(alloc, levels, count, bytes)
    } else {
        many_pairs_of(alloc, levels, count, bytes)
    }
}

#[cycle(reading)]
#[tactic(auto, using(gd_variant::proofs::TreeOf::plain_dict), unfolding(crate::specs::Reading::dict_by))]
fn dict_of(alloc: Global, levels: u32, bytes: &[u8]) -> Result<(Variant, &[u8]), ReadError>
    ensures { Gives (λ x. (plain x.0, x.1.now)) result (dict_by (value_at levels) bytes.now) }
{
    let (count, rest) = u32_at(bytes)?;
    let (pairs, rest) = pairs_of(alloc, levels, count % 2147483648, rest)?;
    Ok((Variant::Dict(pairs), rest))
}

/// What stands behind a header; `levels` is for the values inside.
#[cycle(reading)]
#[tactic(auto, unfolding(crate::specs::Reading::body_by))]
fn body_of(
    alloc: Global,
    levels: u32,
    code: u8,
    wide: bool,
    bytes: &[u8],
) -> Result<(Variant, &[u8]), ReadError>
    ensures { Gives (λ x. (plain x.0, x.1.now)) result (body_by (value_at levels) (form_of code) code wide bytes.now) }
{
    match form_of(code) {
        Form::Nil => Ok((Variant::Nil, bytes)),
        Form::Bool => bool_of(bytes),
        Form::Int => int_of(wide, bytes),
        Form::Text => {
            let (text, rest) = text_of(alloc, bytes)?;
            Ok((Variant::Text(text), rest))
        }
        Form::Name => {
            let (text, rest) = text_of(alloc, bytes)?;
            Ok((Variant::Name(text), rest))
        }
        Form::Path => path_of(alloc, bytes),
        Form::Ints => ints_of(alloc, code, bytes),
        Form::Fixed => fixed_of(alloc, code, wide, bytes),
        Form::Dict => dict_of(alloc, levels, bytes),
        Form::Array => array_of(alloc, levels, bytes),
        Form::Bytes => packed_bytes_of(alloc, bytes),
        Form::Shorts => packed_shorts_of(alloc, bytes),
        Form::Longs => packed_longs_of(alloc, bytes),
        Form::Texts => packed_texts_of(alloc, bytes),
        Form::Elements => packed_of(alloc, code, wide, bytes),
    }
}

/// The value whose binary form is at the front, and the bytes after it.
///
/// `levels` is how many levels of values may stand here, so one more than how deep the value may nest.
#[cycle(reading)]
#[tactic(auto, unfolding(crate::specs::Reading::value_at))]
pub fn value_of(alloc: Global, levels: u32, bytes: &[u8]) -> Result<(Variant, &[u8]), ReadError>
    ensures { Gives (λ x. (plain x.0, x.1.now)) result (value_at levels bytes.now) }
{
    if levels == 0 {
        return Err(fault_at(bytes, Why::Depth));
    }
    let (head, rest) = header_of(bytes, levels > 1)?;
    body_of(
        alloc,
        levels - 1,
        (head % 65536) as u8,
        head / 65536 == 1,
        rest,
    )
}

#[tactic(auto, unfolding(crate::specs::Reading::small_int_at))]
fn int8_of(bytes: &[u8]) -> Result<(Variant, &[u8]), ReadError>
    ensures { Gives (λ x. (plain x.0, x.1.now)) result (small_int_at w8 half8 bytes.now) }
{
    let (bits, rest) = u8_at(bytes)?;
    Ok((Variant::Int(bits.cast_signed() as i64), rest))
}

#[tactic(auto, unfolding(crate::specs::Reading::small_int_at))]
fn int16_of(bytes: &[u8]) -> Result<(Variant, &[u8]), ReadError>
    ensures { Gives (λ x. (plain x.0, x.1.now)) result (small_int_at w16 half16 bytes.now) }
{
    let (bits, rest) = u16_at(bytes)?;
    Ok((Variant::Int(bits.cast_signed() as i64), rest))
}

#[tactic(auto, unfolding(crate::specs::Reading::small_int_at))]
fn int32_of(bytes: &[u8]) -> Result<(Variant, &[u8]), ReadError>
    ensures { Gives (λ x. (plain x.0, x.1.now)) result (small_int_at w32 half32 bytes.now) }
{
    let (bits, rest) = u32_at(bytes)?;
    Ok((Variant::Int(bits.cast_signed() as i64), rest))
}

#[tactic(auto, unfolding(crate::specs::Reading::small_int_at))]
fn int64_of(bytes: &[u8]) -> Result<(Variant, &[u8]), ReadError>
    ensures { Gives (λ x. (plain x.0, x.1.now)) result (small_int_at w64 half64 bytes.now) }
{
    let (bits, rest) = u64_at(bytes)?;
    Ok((Variant::Int(bits.cast_signed()), rest))
}

/// The first byte, 0 where there is none, and the bytes after it.
fn first_of(bytes: &[u8]) -> (u8, &[u8])
    ensures first { result.0 ≡ slice_index_or bytes.now 0 0 }
    ensures rest { result.1.now ≡ drop 1 bytes.now }
{
    match bytes.split_first() {
        Some((first, rest)) => (*first, rest),
        None => (0, bytes),
    }
}

/// The value whose compressed form is at the front, and the bytes after it.
#[tactic(auto, unfolding(crate::specs::Reading::small_at, crate::specs::Reading::small_by))]
pub fn small_of(alloc: Global, bytes: &[u8]) -> Result<(Variant, &[u8]), ReadError>
    ensures { Gives (λ x. (plain x.0, x.1.now)) result (small_at bytes.now) }
{
    let (first, rest) = first_of(bytes);
    match first {
        1 => Ok((Variant::Bool(false), rest)),
        129 => Ok((Variant::Bool(true), rest)),
        2 => int8_of(rest),
        66 => int16_of(rest),
        130 => int32_of(rest),
        194 => int64_of(rest),
        _ => value_of(alloc, 33, bytes),
    }
}
