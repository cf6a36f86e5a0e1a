//! Reading a call.
ghost use Rattle.std.specs.Prelude.{◌≡◌, [], IfOk};
ghost use Rattle.byte_fields.specs.Fields.{Gives, number_at};
ghost use Rattle.packet_form.specs.Head.{width_of, method_width};
ghost use Rattle.packet_form.specs.Wholes.{region_by};
ghost use Rattle.packet_form.specs.Reading.{count_at, counted_args_at, args_at, id_call_at, path_call_at, target_call_at, call_at, value_at};
ghost use Rattle.packet_form.specs.Tests.{raw_args, is_offset, method_end, offset_fits};
ghost use Rattle.variant_codec.specs.Readers.{list_by};

use crate::fields::{behind, path_from, value_from};
use byte_fields::{ReadError, u8_at, u16_at, u32_at};
use gd_variant::{Bytes, OutOfMemory, Plain, Target, ValueList, Variant, Why};
use packet_form::{CallHead, NodeWidth};
use sqlite_items::Items;
use std::alloc::Global;
use variant_codec::{fault_at, raw_of};

/// A node id of this width.
fn id_from(node: NodeWidth, bytes: &[u8]) -> Result<(u32, &[u8]), ReadError>
    ensures { Gives (λ x. (x.0, x.1.now)) result (number_at (width_of node) bytes.now) }
{
    match node {
        NodeWidth::One => {
            let (id, rest) = u8_at(bytes)?;
            Ok((id as u32, rest))
        }
        NodeWidth::Two => {
            let (id, rest) = u16_at(bytes)?;
            Ok((id as u32, rest))
        }
        NodeWidth::Four => u32_at(bytes),
    }
}

/// A method id of this width.
fn method_from(wide: bool, bytes: &[u8]) -> Result<(u16, &[u8]), ReadError>
    ensures { Gives (λ x. (x.0, x.1.now)) result (number_at (method_width wide) bytes.now) }
{
    if wide {
        u16_at(bytes)
    } else {
        let (method, rest) = u8_at(bytes)?;
        Ok((method as u16, rest))
    }
}

#[tactic(auto, unfolding(packet_form::specs::Reading::count_at))]
fn count_from(bytes: &[u8]) -> Result<(u8, &[u8]), ReadError>
    ensures { Gives (λ x. (x.0, x.1.now)) result (count_at bytes.now) }
{
    let (count, rest) = u8_at(bytes)?;
    if count == 0 {
        return Err(fault_at(bytes, Why::Count));
    }
    Ok((count, rest))
}

/// So many values.
fn some_values_from(alloc: Global, count: u8, bytes: &[u8]) -> Result<(ValueList, &[u8]), ReadError>
    ensures { Gives (λ x. (x.0, x.1.now)) result (list_by (λ _. value_at) [] count bytes.now) }
{
    let mut values = Items::new(alloc);
    let mut rest = bytes;
    for _ in 0..count {
        let (value, after) = value_from(alloc, rest)?;
        values.push(value)?;
        rest = after;
    }
    Ok((values, rest))
}

#[tactic(auto, unfolding(packet_form::specs::Reading::counted_args_at))]
fn counted_args_from(alloc: Global, bytes: &[u8]) -> Result<(ValueList, &[u8]), ReadError>
    ensures { Gives (λ x. (x.0, x.1.now)) result (counted_args_at bytes.now) }
{
    let (count, rest) = count_from(bytes)?;
    some_values_from(alloc, count, rest)
}

/// One PackedBytes of all bytes, or nothing where there are none.
fn raw_args_of(alloc: Global, bytes: &[u8]) -> Result<ValueList, OutOfMemory>
    ensures { IfOk result (λ args. args ≡ raw_args bytes.now) }
{
    let mut args = Items::new(alloc);
    if !bytes.is_empty() {
        args.push(Variant::PackedBytes(Bytes::from_slice(alloc, bytes)?))?;
    }
    Ok(args)
}

/// Arguments up to the end.
#[tactic(auto, unfolding(packet_form::specs::Reading::args_at))]
fn args_from(alloc: Global, raw: bool, bytes: &[u8]) -> Result<ValueList, ReadError>
    ensures { Gives (λ x. x) result (args_at raw bytes.now) }
{
    if raw {
        let args = raw_args_of(alloc, bytes)?;
        return Ok(args);
    }
    let (args, rest) = counted_args_from(alloc, bytes)?;
    if !rest.is_empty() {
        return Err(fault_at(rest, Why::Trailing));
    }
    Ok(args)
}

/// Arguments that fill so many bytes.
fn args_within(
    alloc: Global,
    raw: bool,
    len: usize,
    bytes: &[u8],
) -> Result<(ValueList, &[u8]), ReadError>
    ensures { Gives (λ x. (x.0, x.1.now)) result (region_by len (args_at raw) bytes.now) }
{
    let (front, after) = raw_of(len, bytes)?;
    match args_from(alloc, raw, front) {
        Ok(args) => Ok((args, after)),
        Err(ReadError::Memory) => Err(ReadError::Memory),
        Err(ReadError::Fault(inside)) => Err(behind(inside, front, bytes)),
    }
}

/// Whether a node id tells where the path stands.
fn is_offset(node: NodeWidth, id: u32) -> bool
    ensures { result ≡ is_offset node id }
{
    match node {
        NodeWidth::One => false,
        NodeWidth::Two => false,
        NodeWidth::Four => 2147483648 <= id,
    }
}

/// Where the method id ends that stands behind a node id of four bytes.
fn method_end(head: CallHead) -> usize
    ensures { result ≡ method_end head }
{
    if head.wide_method { 7 } else { 6 }
}

/// Whether an offset is behind the method id and within the packet; so many bytes follow the node id.
fn offset_fits(head: CallHead, id: u32, left: usize) -> bool
    ensures { result ≡ offset_fits head id left }
{
    if !is_offset(head.node, id) {
        return true;
    }
    let offset = id.saturating_sub(2147483648) as usize;
    method_end(head) <= offset && offset - 5 < left
}

#[tactic(auto, unfolding(packet_form::specs::Reading::id_call_at))]
fn id_call_from(alloc: Global, head: CallHead, id: u32, bytes: &[u8]) -> Result<Plain, ReadError>
    ensures { Gives (λ x. x) result (id_call_at head id bytes.now) }
{
    let (method, rest) = method_from(head.wide_method, bytes)?;
    let args = args_from(alloc, head.raw, rest)?;
    Ok(Plain::Call {
        target: Target::Id(id),
        method,
        args,
    })
}

/// A call by path, with so many bytes between the method id and the path.
#[tactic(auto, unfolding(packet_form::specs::Reading::path_call_at))]
fn path_call_from(
    alloc: Global,
    head: CallHead,
    len: usize,
    bytes: &[u8],
) -> Result<Plain, ReadError>
    ensures { Gives (λ x. x) result (path_call_at head len bytes.now) }
{
    let (method, rest) = method_from(head.wide_method, bytes)?;
    let (args, rest) = args_within(alloc, head.raw, len, rest)?;
    let path = path_from(alloc, rest)?;
    Ok(Plain::Call {
        target: Target::At(path),
        method,
        args,
    })
}

#[tactic(auto, unfolding(packet_form::specs::Reading::target_call_at))]
fn target_call_from(
    alloc: Global,
    head: CallHead,
    id: u32,
    bytes: &[u8],
) -> Result<Plain, ReadError>
    ensures { Gives (λ x. x) result (target_call_at head id bytes.now) }
{
    if !is_offset(head.node, id) {
        return id_call_from(alloc, head, id, bytes);
    }
    let offset = id.saturating_sub(2147483648) as usize;
    let between = offset.saturating_sub(method_end(head));
    path_call_from(alloc, head, between, bytes)
}

/// A call, behind its first byte.
#[tactic(auto, unfolding(packet_form::specs::Reading::call_at))]
pub fn call_from(alloc: Global, head: CallHead, bytes: &[u8]) -> Result<Plain, ReadError>
    ensures { Gives (λ x. x) result (call_at head bytes.now) }
{
    let (id, rest) = id_from(head.node, bytes)?;
    if !offset_fits(head, id, rest.len()) {
        return Err(fault_at(bytes, Why::PathEnd));
    }
    target_call_from(alloc, head, id, rest)
}
