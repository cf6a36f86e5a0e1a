//! How long a packet is.
ghost use Rattle.std.specs.Prelude.{◌≡◌, ◌+◌, ◌*◌, min, length};
ghost use Rattle.std.specs.Int.{byte_len};
ghost use Rattle.packet_form.specs.Head.{method_size, width_of};
ghost use Rattle.packet_form.specs.Written.{written_value, written_values, args_bytes, target_width, target_bytes, call_bytes, simplify_bytes, arg_bytes, entry_bytes, delta_entry_bytes, written_plain, written_packet};

use crate::arguments::{fewest_node, is_raw, is_wide_method, raw_bytes};
use crate::parts::parts_len;
use gd_variant::{DeltaEntry, Entry, Message, Plain, Target, Variant, small_len_of};
use packet_form::NodeWidth;

/// One more than the longest packet has: it stands for every greater length.
const TOO_LONG: u64 = 8388609;

/// A sum, or 8,388,609 where it is greater.
pub fn capped_sum(a: u64, b: u64) -> u64
    ensures { result ≡ min (a + b) 8388609 }
{
    a.saturating_add(b).min(TOO_LONG)
}

/// The length of a written value, or 8,388,609 where it is greater.
#[tactic(auto, using(variant_codec::proofs::Forms::small_written_size))]
pub fn value_len(value: &Variant) -> u64
    ensures { result ≡ min (length (written_value value.now)) 8388609 }
{
    small_len_of(value)
}

/// The length of written values, or 8,388,609 where it is greater.
pub fn values_len(values: &[Variant]) -> u64
    ensures { result ≡ min (length (written_values values.now)) 8388609 }
{
    let mut total = 0;
    for value in values {
        total = capped_sum(total, value_len(value));
    }
    total
}

/// The length of a call's written arguments, or 8,388,609 where it is greater.
#[tactic(auto, using(packet_form::proofs::Lengths::raw_size, packet_form::proofs::Lengths::counted_size))]
pub fn args_len(args: &[Variant]) -> u64
    ensures { result ≡ min (length (args_bytes args.now)) 8388609 }
{
    if is_raw(args) {
        capped_sum(raw_bytes(args).len() as u64, 0)
    } else {
        capped_sum(1, values_len(args))
    }
}

fn node_len(width: NodeWidth) -> u64
    ensures { result ≡ byte_len (width_of width) }
{
    match width {
        NodeWidth::One => 1,
        NodeWidth::Two => 2,
        NodeWidth::Four => 4,
    }
}

/// How many bytes a method id has.
pub fn method_len(wide: bool) -> u64
    ensures { result ≡ method_size wide }
{
    if wide { 2 } else { 1 }
}

/// A node's id, or an offset and the path.
fn target_len(target: &Target) -> u64
    ensures { result ≡ min (byte_len (width_of (target_width target.now)) + length (target_bytes target.now)) 8388609 }
{
    match target {
        Target::Id(id) => node_len(fewest_node(*id)),
        Target::At(path) => capped_sum(5, path.as_str().len() as u64),
    }
}

#[tactic(auto, using(packet_form::proofs::Lengths::call_size))]
fn call_len(target: &Target, method: u16, args: &[Variant]) -> u64
    ensures { result ≡ min (length (call_bytes target.now method args.now)) 8388609 }
{
    let head = 1 + method_len(is_wide_method(method));
    capped_sum(capped_sum(head, target_len(target)), args_len(args))
}

#[tactic(auto, using(packet_form::proofs::Lengths::simplify_size))]
fn simplify_len(digest: &[u8; 16], id: u32, path: &str) -> u64
    ensures { result ≡ min (length (simplify_bytes digest.now id path.now)) 8388609 }
{
    capped_sum(7 + 2 * digest.len() as u64, path.len() as u64)
}

#[tactic(auto, using(packet_form::proofs::Lengths::arg_size))]
fn arg_len(arg: &Option<Variant>) -> u64
    ensures { result ≡ min (length (arg_bytes arg.now)) 8388609 }
{
    match arg {
        None => 0,
        Some(value) => capped_sum(4, value_len(value)),
    }
}

/// A spawn without its custom argument and its values.
fn spawn_head_len(syncs: &[u32], name: &str) -> u64
    ensures { result ≡ min (19 + 4 * length syncs.now + length name.now) 8388609 }
{
    capped_sum(
        19,
        (4 * syncs.len() as u64).saturating_add(name.len() as u64),
    )
}

#[tactic(auto, using(packet_form::proofs::Lengths::entry_size))]
pub fn entry_len(entry: &Entry) -> u64
    ensures { result ≡ min (length (entry_bytes entry.now)) 8388609 }
{
    capped_sum(8, values_len(entry.values.as_slice()))
}

#[tactic(auto, using(packet_form::proofs::Lengths::delta_entry_size))]
pub fn delta_entry_len(entry: &DeltaEntry) -> u64
    ensures { result ≡ min (length (delta_entry_bytes entry.now)) 8388609 }
{
    capped_sum(16, values_len(entry.values.as_slice()))
}

#[tactic(auto, using(packet_form::proofs::Lengths::byte_front, packet_form::proofs::Lengths::half_front, packet_form::proofs::Lengths::word_size, packet_form::proofs::Lengths::filled_spawn_size))]
fn plain_len(plain: &Plain) -> u64
    ensures { result ≡ min (length (written_plain plain.now)) 8388609 }
{
    match plain {
        Plain::Call {
            target,
            method,
            args,
        } => call_len(target, *method, args.as_slice()),
        Plain::Simplify { digest, id, path } => simplify_len(digest, *id, path.as_str()),
        Plain::Confirm { ok: _, id: _ } => 6,
        Plain::Raw { bytes } => capped_sum(1, bytes.as_slice().len() as u64),
        Plain::Spawn {
            scene: _,
            spawner: _,
            net: _,
            syncs,
            name,
            arg,
            values,
        } => {
            let head = spawn_head_len(syncs.as_slice(), name.as_str());
            capped_sum(
                capped_sum(head, arg_len(arg)),
                values_len(values.as_slice()),
            )
        }
        Plain::Despawn { net: _ } => 5,
        Plain::Sync { tick: _, entries } => capped_sum(3, parts_len(entries.as_slice())),
        Plain::Delta { entries } => capped_sum(1, parts_len(entries.as_slice())),
    }
}

/// The length of the written packet, or 8,388,609 where it is longer than a packet may be.
#[tactic(auto, using(packet_form::proofs::Lengths::system_size))]
pub fn packet_len(m: &Message) -> u64
    ensures { result ≡ min (length (written_packet m.now)) 8388609 }
{
    match m {
        Message::Plain(plain) => plain_len(plain),
        Message::Auth { peer: _, bytes } => capped_sum(6, bytes.as_slice().len() as u64),
        Message::AddPeer { peer: _ } => 6,
        Message::DelPeer { peer: _ } => 6,
        Message::Relay { peer: _, inner } => capped_sum(6, plain_len(inner)),
    }
}
