//! The fields that several packets share: values, ids, paths and names.
ghost use Rattle.std.specs.Prelude.{◌≡◌, ◌<◌, ◌≤◌, ◌+◌, ◌-◌, length, IfOk, MatchOption, true, false};
ghost use Rattle.std.specs.List.{prefix_len};
ghost use Rattle.std.specs.Str.{is_utf8};
ghost use Rattle.byte_fields.specs.Fields.{Gives, fault};
ghost use Rattle.byte_fields.specs.declared.fault.ReadError.TheVariants as errors;
ghost use Rattle.gd_variant.specs.Sound.{has_no_zero};
ghost use Rattle.packet_form.specs.Reading.{value_at, values_at, ids_at, path_at, name_length_at, name_at};
ghost use Rattle.packet_form.specs.Tests.{is_some};

use crate::parts::{Readable, parts_from};
use byte_fields::{Fault, ReadError, u32_at};
use gd_variant::{IdList, OutOfMemory, Text, ValueList, Variant, Why};
use sqlite_items::Items;
use std::alloc::Global;
use variant_codec::{fault_at, is_without_zero, raw_of, small_of, utf8_of};

/// A fault inside a region at the front of some bytes, counted from the end of the bytes.
pub fn behind(inside: Fault, region: &[u8], bytes: &[u8]) -> ReadError
    requires within { inside.left ≤ length region.now }
    requires front { length region.now ≤ length bytes.now }
    ensures { result ≡ errors.Fault (fault (inside.left + (length bytes.now - length region.now)) inside.why) }
{
    ReadError::Fault(Fault {
        left: bytes.len() - (region.len() - inside.left),
        why: inside.why,
    })
}

/// A compressed value.
#[tactic(auto, using(gd_variant::proofs::TreeOf::plain_back), unfolding(packet_form::specs::Reading::value_at))]
pub fn value_from(alloc: Global, bytes: &[u8]) -> Result<(Variant, &[u8]), ReadError>
    ensures { Gives (λ x. (x.0, x.1.now)) result (value_at bytes.now) }
{
    let (value, rest) = small_of(alloc, bytes)?;
    Ok((value, rest))
}

impl Readable for Variant {
    ghost reading = { value_at };

    fn from_bytes(alloc: Global, bytes: &[u8]) -> Result<(Variant, &[u8]), ReadError> {
        value_from(alloc, bytes)
    }
}

/// Compressed values up to the end.
#[tactic(auto, unfolding(packet_form::specs::Reading::values_at))]
pub fn values_from(alloc: Global, bytes: &[u8]) -> Result<ValueList, ReadError>
    ensures { Gives (λ x. x) result (values_at bytes.now) }
{
    parts_from(alloc, bytes)
}

/// So many ids, each of four bytes.
#[tactic(auto, unfolding(packet_form::specs::Reading::ids_at))]
pub fn ids_from(alloc: Global, count: u32, bytes: &[u8]) -> Result<(IdList, &[u8]), ReadError>
    ensures { Gives (λ x. (x.0, x.1.now)) result (ids_at count bytes.now) }
{
    let mut ids = Items::new(alloc);
    let mut rest = bytes;
    for _ in 0..count {
        let (id, after) = u32_at(rest)?;
        ids.push(id)?;
        rest = after;
    }
    Ok((ids, rest))
}

/// How many bytes stand before the first zero byte.
fn before_zero(bytes: &[u8]) -> usize
    ensures { result ≡ prefix_len is_some bytes.now }
{
    bytes.iter().take_while(|byte| **byte != 0).count()
}

/// The text of bytes without zero byte, if they are UTF-8.
fn text_from(alloc: Global, bytes: &[u8]) -> Result<Option<Text>, OutOfMemory>
    requires { has_no_zero bytes.now ≡ true }
    ensures { IfOk result (λ o. MatchOption o (is_utf8 bytes.now ≡ false) (λ t. (is_utf8 bytes.now ≡ true) × (t ≡ bytes.now))) }
{
    match utf8_of(bytes) {
        Some(text) => Ok(Some(Text::from_str(alloc, text)?)),
        None => Ok(None),
    }
}

/// A text and a zero byte, up to the end.
#[tactic(auto, unfolding(packet_form::specs::Reading::path_at))]
pub fn path_from(alloc: Global, bytes: &[u8]) -> Result<Text, ReadError>
    ensures { Gives (λ x. x) result (path_at bytes.now) }
{
    let len = before_zero(bytes);
    if len == bytes.len() {
        return Err(fault_at(bytes, Why::PathEnd));
    }
    let (front, _) = bytes.split_at(len);
    let (_, after) = bytes.split_at(len + 1);
    if !after.is_empty() {
        return Err(fault_at(after, Why::Trailing));
    }
    match text_from(alloc, front)? {
        Some(path) => Ok(path),
        None => Err(fault_at(bytes, Why::Utf8)),
    }
}

/// The length of a name with its zero byte.
#[tactic(auto, unfolding(packet_form::specs::Reading::name_length_at))]
pub fn name_length_from(bytes: &[u8]) -> Result<(u32, &[u8]), ReadError>
    ensures gives { Gives (λ x. (x.0, x.1.now)) result (name_length_at bytes.now) }
    ensures some { IfOk result (λ x. 0 < x.0) }
{
    let (len, rest) = u32_at(bytes)?;
    if len == 0 {
        return Err(fault_at(bytes, Why::PathEnd));
    }
    Ok((len, rest))
}

/// A name and its zero byte, in so many bytes.
#[tactic(auto, unfolding(packet_form::specs::Reading::name_at))]
pub fn name_from(alloc: Global, len: u32, bytes: &[u8]) -> Result<(Text, &[u8]), ReadError>
    requires { 0 < len }
    ensures { Gives (λ x. (x.0, x.1.now)) result (name_at len bytes.now) }
{
    let len = len as usize;
    let (field, rest) = raw_of(len, bytes)?;
    let (front, end) = field.split_at(len - 1);
    if end[0] != 0 || !is_without_zero(front) {
        return Err(fault_at(bytes, Why::PathEnd));
    }
    match text_from(alloc, front)? {
        Some(name) => Ok((name, rest)),
        None => Err(fault_at(bytes, Why::Utf8)),
    }
}
