//! Readers of what stands inside a value.
ghost use Rattle.std.specs.Prelude.{◌≡◌, ℕ, ◌≤◌, ◌%◌, length, IfOk, MatchOption, true, false};
ghost use Rattle.byte_fields.specs.Fields.{Gives, fault};
ghost use Rattle.byte_fields.specs.declared.fault.ReadError.TheVariants as errors;
ghost use Rattle.gd_variant.specs.Tree.{plain};
ghost use Rattle.gd_variant.specs.Sound.{has_no_zero, is_text};
ghost use Rattle.std.specs.Str.{is_utf8};
ghost use Rattle.std.specs.Int.{w32, w64};
ghost use Rattle.std.specs.Int.RustNames.{FitsSigned};
ghost use Rattle.variant_codec.specs.Header.{may_be_flagged};
ghost use Rattle.variant_codec.specs.Parts.{padding};
ghost use Rattle.variant_codec.specs.Readers.{raw_at};
ghost use Rattle.variant_codec.specs.Reading.{header_at, padded_of, padded_at, text_at, element_at, short_at, long_at, shorts_of, longs_of, texts_of, elements_of, bool_at, int_at, names_at, flags_at};
ghost use Rattle.variant_codec.specs.Tests.{stripped};

use byte_fields::{Fault, ReadError, u32_at, u64_at};
use gd_variant::{List32, List64, OutOfMemory, Text, TextRun, Variant, Why, code_may_be_wide};
use sqlite_items::Items;
use std::alloc::Global;

/// A fault at the first of these bytes, which go on to the end of the input.
pub fn fault_at(bytes: &[u8], why: Why) -> ReadError
    ensures { result ≡ errors.Fault (fault (length bytes.now) why) }
{
    ReadError::Fault(Fault {
        left: bytes.len(),
        why,
    })
}

/// Whether the 64-bit flag is allowed on the type.
fn code_may_be_flagged(code: u8) -> bool
    ensures { result ≡ may_be_flagged code }
{
    code == 2 || code_may_be_wide(code)
}

/// A header, judged in the order of its reasons; `room` says that values may stand inside.
#[tactic(auto, unfolding(crate::specs::Reading::header_at))]
pub fn header_of(bytes: &[u8], room: bool) -> Result<(u32, &[u8]), ReadError>
    ensures gives { Gives (λ x. (x.0, x.1.now)) result (header_at room bytes.now) }
    ensures kind { IfOk result (λ x. x.0 % 65536 ≤ 38) }
{
    let (head, rest) = u32_at(bytes)?;
    let code = head % 65536;
    if code > 38 {
        return Err(fault_at(bytes, Why::Kind));
    }
    if code > 22 && code < 27 {
        return Err(fault_at(bytes, Why::NotCarried));
    }
    let flags = head / 65536;
    if flags != 0 && !(flags == 1 && code_may_be_flagged(code as u8)) {
        return Err(fault_at(bytes, Why::HeaderBits));
    }
    if !room && (code == 27 || code == 28) {
        return Err(fault_at(bytes, Why::Depth));
    }
    Ok((head, rest))
}

/// So many bytes.
pub fn raw_of(len: usize, bytes: &[u8]) -> Result<(&[u8], &[u8]), ReadError>
    ensures { Gives (λ x. (x.0.now, x.1.now)) result (raw_at len bytes.now) }
{
    if bytes.len() < len {
        return Err(fault_at(bytes, Why::Short));
    }
    Ok(bytes.split_at(len))
}

/// So many bytes and their padding, without the padding.
#[tactic(auto, unfolding(crate::specs::Reading::padded_of))]
pub fn padded_of(len: u32, bytes: &[u8]) -> Result<(&[u8], &[u8]), ReadError>
    ensures { Gives (λ x. (x.0.now, x.1.now)) result (padded_of len bytes.now) }
{
    let len = len as usize;
    let (field, rest) = raw_of(len + (4 - len % 4) % 4, bytes)?;
    let (front, _) = field.split_at(len);
    Ok((front, rest))
}

/// A length, so many bytes and their padding.
#[tactic(auto, unfolding(crate::specs::Reading::padded_at))]
pub fn bytes_of(bytes: &[u8]) -> Result<(&[u8], &[u8]), ReadError>
    ensures { Gives (λ x. (x.0.now, x.1.now)) result (padded_at bytes.now) }
{
    let (len, rest) = u32_at(bytes)?;
    padded_of(len, rest)
}

/// Whether none of the bytes is zero.
pub fn is_without_zero(bytes: &[u8]) -> bool
    ensures { result ≡ has_no_zero bytes.now }
{
    bytes.iter().all(|b| *b != 0)
}

/// The bytes as UTF-8.
pub fn utf8_of(bytes: &[u8]) -> Option<&str>
    ensures { MatchOption result (is_utf8 bytes.now ≡ false) (λ s. (is_utf8 bytes.now ≡ true) × (s.now ≡ bytes.now)) }
{
    match std::str::from_utf8(bytes) {
        Ok(text) => Some(text),
        Err(_) => None,
    }
}

/// The bytes as a text, unless they are none.
fn text_from(alloc: Global, bytes: &[u8]) -> Result<Option<Text>, OutOfMemory>
    ensures { IfOk result (λ o. MatchOption o (is_text bytes.now ≡ false) (λ t. (is_text bytes.now ≡ true) × (t ≡ bytes.now))) }
{
    if !is_without_zero(bytes) {
        return Ok(None);
    }
    match utf8_of(bytes) {
        Some(text) => Ok(Some(Text::from_str(alloc, text)?)),
        None => Ok(None),
    }
}

/// Without one zero byte at the end.
fn without_zero(bytes: &[u8]) -> &[u8]
    ensures { result.now ≡ stripped bytes.now }
{
    match bytes.split_last() {
        Some((0, front)) => front,
        _ => bytes,
    }
}

/// A text behind its length.
#[tactic(auto, unfolding(crate::specs::Reading::text_at))]
pub fn text_of(alloc: Global, bytes: &[u8]) -> Result<(Text, &[u8]), ReadError>
    ensures { Gives (λ x. (x.0, x.1.now)) result (text_at bytes.now) }
{
    let (len, rest) = u32_at(bytes)?;
    let (raw, after) = padded_of(len, rest)?;
    match text_from(alloc, raw)? {
        Some(text) => Ok((text, after)),
        None => Err(fault_at(rest, Why::Utf8)),
    }
}

/// A text of a packed array.
#[tactic(auto, unfolding(crate::specs::Reading::element_at))]
fn element_of(alloc: Global, bytes: &[u8]) -> Result<(Text, &[u8]), ReadError>
    ensures { Gives (λ x. (x.0, x.1.now)) result (element_at bytes.now) }
{
    let (len, rest) = u32_at(bytes)?;
    let (raw, after) = padded_of(len, rest)?;
    match text_from(alloc, without_zero(raw))? {
        Some(text) => Ok((text, after)),
        None => Err(fault_at(rest, Why::Utf8)),
    }
}

#[tactic(auto, unfolding(crate::specs::Reading::short_at))]
pub fn i32_of(bytes: &[u8]) -> Result<(i32, &[u8]), ReadError>
    ensures gives { Gives (λ x. (x.0, x.1.now)) result (short_at bytes.now) }
    ensures fits { IfOk result (λ x. FitsSigned w32 x.0) }
{
    let (bits, rest) = u32_at(bytes)?;
    Ok((bits.cast_signed(), rest))
}

#[tactic(auto, unfolding(crate::specs::Reading::long_at))]
pub fn i64_of(bytes: &[u8]) -> Result<(i64, &[u8]), ReadError>
    ensures gives { Gives (λ x. (x.0, x.1.now)) result (long_at bytes.now) }
    ensures fits { IfOk result (λ x. FitsSigned w64 x.0) }
{
    let (bits, rest) = u64_at(bytes)?;
    Ok((bits.cast_signed(), rest))
}

/// So many texts.
pub fn texts_of(alloc: Global, count: u32, bytes: &[u8]) -> Result<(TextRun, &[u8]), ReadError>
    ensures { Gives (λ x. (x.0, x.1.now)) result (texts_of count bytes.now) }
{
    let mut items = Items::new(alloc);
    let mut rest = bytes;
    for _ in 0..count {
        let (item, after) = text_of(alloc, rest)?;
        items.push(item)?;
        rest = after;
    }
    Ok((items, rest))
}

/// So many texts of a packed array.
pub fn elements_of(alloc: Global, count: u32, bytes: &[u8]) -> Result<(TextRun, &[u8]), ReadError>
    ensures { Gives (λ x. (x.0, x.1.now)) result (elements_of count bytes.now) }
{
    let mut items = Items::new(alloc);
    let mut rest = bytes;
    for _ in 0..count {
        let (item, after) = element_of(alloc, rest)?;
        items.push(item)?;
        rest = after;
    }
    Ok((items, rest))
}

/// So many numbers of an integer vector.
pub fn vector_of(alloc: Global, count: usize, bytes: &[u8]) -> Result<(List32, &[u8]), ReadError>
    ensures { Gives (λ x. (x.0, x.1.now)) result (shorts_of count bytes.now) }
{
    let mut items = Items::new(alloc);
    let mut rest = bytes;
    for _ in 0..count {
        let (item, after) = i32_of(rest)?;
        items.push(item)?;
        rest = after;
    }
    Ok((items, rest))
}

/// So many 32-bit numbers.
pub fn shorts_of(alloc: Global, count: u32, bytes: &[u8]) -> Result<(List64, &[u8]), ReadError>
    ensures { Gives (λ x. (x.0, x.1.now)) result (shorts_of count bytes.now) }
{
    let mut items = Items::new(alloc);
    let mut rest = bytes;
    for _ in 0..count {
        let (item, after) = i32_of(rest)?;
        items.push(item as i64)?;
        rest = after;
    }
    Ok((items, rest))
}

/// So many 64-bit numbers.
pub fn longs_of(alloc: Global, count: u32, bytes: &[u8]) -> Result<(List64, &[u8]), ReadError>
    ensures { Gives (λ x. (x.0, x.1.now)) result (longs_of count bytes.now) }
{
    let mut items = Items::new(alloc);
    let mut rest = bytes;
    for _ in 0..count {
        let (item, after) = i64_of(rest)?;
        items.push(item)?;
        rest = after;
    }
    Ok((items, rest))
}
