//! The Call packet, written.
ghost use Rattle.std.specs.Prelude.{◌≡◌, ◌++◌, ◌+◌, ◌≤◌, ◌<◌, ◌^◌, length, OnOk};
ghost use Rattle.byte_fields.specs.Fields.{word};
ghost use Rattle.packet_form.specs.Head.{method_width, width_of};
ghost use Rattle.packet_form.specs.Packets.{most_bytes};
ghost use Rattle.packet_form.specs.Tests.{method_end};
ghost use Rattle.packet_form.specs.Written.{fewest_node, is_wide_method, args_bytes, target_width, node_number, target_bytes, call_bytes, IsTargetSound, FitsTarget};

use crate::arguments::{call_byte, head_for, is_raw, raw_bytes};
use crate::length::{args_len, method_len};
use crate::put::{put_path, put_values};
use byte_fields::{put_bytes, put_u8, put_u16, put_u32};
use gd_variant::{Target, Variant};
use packet_form::CallHead;
use std::alloc::AllocError;

/// A node's id in the fewest bytes.
fn put_node_id(out: &mut Vec<u8>, id: u32) -> Result<(), AllocError>
    ensures { OnOk result (out.new.items ≡ out.old.items ++ word (width_of (fewest_node id)) id) }
{
    if id < 256 {
        put_u8(out, id as u8)
    } else if id < 65536 {
        put_u16(out, id as u16)
    } else {
        put_u32(out, id)
    }
}

/// A method's id in the fewest bytes.
fn put_method(out: &mut Vec<u8>, method: u16) -> Result<(), AllocError>
    ensures { OnOk result (out.new.items ≡ out.old.items ++ word (method_width (is_wide_method method)) method) }
{
    if method < 256 {
        put_u8(out, method as u8)
    } else {
        put_u16(out, method)
    }
}

/// A node's id, or the offset of its path with bit 31.
fn put_node(out: &mut Vec<u8>, target: &Target, offset: u32) -> Result<(), AllocError>
    requires { offset < 2 ^ 31 }
    ensures { OnOk result (out.new.items ≡ out.old.items ++ word (width_of (target_width target.now)) (node_number target.now offset)) }
{
    match target {
        Target::Id(id) => put_node_id(out, *id),
        Target::At(_) => put_u32(out, 2147483648 + offset),
    }
}

/// Raw bytes, or a count and values.
#[tactic(auto, unfolding(packet_form::specs::Written::args_bytes))]
fn put_args(out: &mut Vec<u8>, args: &[Variant]) -> Result<(), AllocError>
    requires { length args.now ≤ 255 }
    ensures { OnOk result (out.new.items ≡ out.old.items ++ args_bytes args.now) }
{
    if is_raw(args) {
        put_bytes(out, raw_bytes(args))
    } else {
        put_u8(out, args.len() as u8)?;
        put_values(out, args)
    }
}

/// The path, if the target is one.
fn put_target(out: &mut Vec<u8>, target: &Target) -> Result<(), AllocError>
    requires { IsTargetSound target.now }
    ensures fits { OnOk result (FitsTarget target.now) }
    ensures put { OnOk result (out.new.items ≡ out.old.items ++ target_bytes target.now) }
{
    match target {
        Target::Id(_) => Ok(()),
        Target::At(path) => put_path(out, path.as_str()),
    }
}

/// Where the path stands that follows the arguments, counted from the first byte of the call.
fn offset_of(head: CallHead, args: &[Variant]) -> u32
    requires { length (args_bytes args.now) ≤ most_bytes }
    ensures { result ≡ method_end head + length (args_bytes args.now) }
{
    (5 + method_len(head.wide_method) + args_len(args)) as u32
}

/// Puts a call at the end.
#[tactic(auto, using(packet_form::proofs::Lengths::call_size))]
pub fn put_call(
    out: &mut Vec<u8>,
    target: &Target,
    method: u16,
    args: &[Variant],
) -> Result<(), AllocError>
    requires target_sound { IsTargetSound target.now }
    requires few { length args.now ≤ 255 }
    requires short { length (call_bytes target.now method args.now) ≤ most_bytes }
    ensures method_fits { OnOk result (method < 2 ^ 16) }
    ensures target_fits { OnOk result (FitsTarget target.now) }
    ensures put { OnOk result (out.new.items ≡ out.old.items ++ call_bytes target.now method args.now) }
{
    let head = head_for(target, method, args);
    let offset = offset_of(head, args);
    put_u8(out, call_byte(head))?;
    put_node(out, target, offset)?;
    put_method(out, method)?;
    put_args(out, args)?;
    put_target(out, target)
}
