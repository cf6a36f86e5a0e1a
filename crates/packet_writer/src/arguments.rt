//! How a call is written: its widths, and its arguments as raw bytes or counted.
ghost use Rattle.std.specs.Prelude.{◌≡◌};
ghost use Rattle.packet_form.specs.Head.{width_bits, call_byte};
ghost use Rattle.packet_form.specs.Written.{fewest_node, is_wide_method, is_raw, raw_bytes, target_width, head_for};

use gd_variant::{Target, Variant};
use packet_form::{CallHead, NodeWidth};

/// The bytes of one PackedBytes, or none.
pub fn raw_bytes(args: &[Variant]) -> &[u8]
    ensures { result.now ≡ raw_bytes args.now }
{
    match args {
        [Variant::PackedBytes(bytes)] => bytes.as_slice(),
        _ => &[],
    }
}

/// Whether there is no argument, or one PackedBytes that isn't empty.
pub fn is_raw(args: &[Variant]) -> bool
    ensures { result ≡ is_raw args.now }
{
    args.len() == 0 || raw_bytes(args).len() != 0
}

/// The fewest bytes of a node's id.
pub fn fewest_node(id: u32) -> NodeWidth
    ensures { result ≡ fewest_node id }
{
    if id < 256 {
        NodeWidth::One
    } else if id < 65536 {
        NodeWidth::Two
    } else {
        NodeWidth::Four
    }
}

/// The width of a node's id, or that of an offset.
pub fn target_width(target: &Target) -> NodeWidth
    ensures { result ≡ target_width target.now }
{
    match target {
        Target::Id(id) => fewest_node(*id),
        Target::At(_) => NodeWidth::Four,
    }
}

pub fn is_wide_method(method: u16) -> bool
    ensures { result ≡ is_wide_method method }
{
    method >= 256
}

/// The flags of a call.
pub fn head_for(target: &Target, method: u16, args: &[Variant]) -> CallHead
    ensures { result ≡ head_for target.now method args.now }
{
    CallHead {
        node: target_width(target),
        wide_method: is_wide_method(method),
        raw: is_raw(args),
    }
}

fn width_bits(width: NodeWidth) -> u8
    ensures { result ≡ width_bits width }
{
    match width {
        NodeWidth::One => 0,
        NodeWidth::Two => 1,
        NodeWidth::Four => 2,
    }
}

/// The first byte of a call.
pub fn call_byte(head: CallHead) -> u8
    ensures { result ≡ call_byte head }
{
    let wide = if head.wide_method { 64 } else { 0 };
    let raw = if head.raw { 128 } else { 0 };
    16 * width_bits(head.node) + wide + raw
}
