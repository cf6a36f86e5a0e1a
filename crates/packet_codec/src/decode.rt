//! From bytes to a message.
ghost use Rattle.std.specs.Prelude.{◌≡◌, ◌≤◌, Ok, Err, length, IfOk};
ghost use Rattle.byte_fields.specs.Fields.{Gives, Answers};
ghost use Rattle.byte_fields.specs.declared.fault.CodecStop.TheVariants as stops;
ghost use Rattle.gd_variant.specs.declared.message.Bad.{Bad};
ghost use Rattle.gd_variant.specs.declared.message.Message.{Message};
ghost use Rattle.variant_codec.specs.Clauses.{Is};
ghost use Rattle.variant_codec.specs.Reading.{short_at};
ghost use Rattle.packet_form.specs.Held.{held_by_message};
ghost use Rattle.packet_form.specs.Packets.{Frames, IsBadPacket, read_packet};
ghost use Rattle.packet_form.specs.Reading.{plain_of, inner_at, subcommand_at, payload_at, system_at, message_of, message_at};

use crate::call::call_from;
use crate::head::{head_from, is_plain};
use crate::names::{confirm_from, simplify_from};
use crate::samples::{delta_from, sync_from};
use crate::spawn::{despawn_from, spawn_from};
use byte_fields::{CodecStop, ReadError, u8_at, u32_at};
use gd_variant::{Bad, Bytes, Message, Plain, Why};
use packet_form::Head;
use std::alloc::Global;
use variant_codec::fault_at;

const MOST_BYTES: usize = 8388608;

/// What stands behind a first byte, unless that is of a system packet.
#[tactic(auto, unfolding(packet_form::specs::Reading::plain_of))]
fn plain_from(alloc: Global, head: Head, bytes: &[u8]) -> Result<Plain, ReadError>
    ensures { Gives (λ x. x) result (plain_of head bytes.now) }
{
    match head {
        Head::Call(call) => call_from(alloc, call, bytes),
        Head::Simplify => simplify_from(alloc, bytes),
        Head::Confirm => confirm_from(bytes),
        Head::Raw => {
            let bytes = Bytes::from_slice(alloc, bytes)?;
            Ok(Plain::Raw { bytes })
        }
        Head::Spawn => spawn_from(alloc, bytes),
        Head::Despawn => despawn_from(bytes),
        Head::Sync => sync_from(alloc, bytes),
        Head::Delta => delta_from(alloc, bytes),
        Head::System => Err(fault_at(bytes, Why::Nested)),
    }
}

/// A packet inside a relay.
#[tactic(auto, unfolding(packet_form::specs::Reading::inner_at))]
fn inner_from(alloc: Global, bytes: &[u8]) -> Result<Plain, ReadError>
    ensures { Gives (λ x. x) result (inner_at bytes.now) }
{
    let (head, rest) = head_from(bytes)?;
    if !is_plain(head) {
        return Err(fault_at(bytes, Why::Nested));
    }
    plain_from(alloc, head, rest)
}

#[tactic(auto, unfolding(packet_form::specs::Reading::subcommand_at))]
fn subcommand_from(bytes: &[u8]) -> Result<(u8, &[u8]), ReadError>
    ensures { Gives (λ x. (x.0, x.1.now)) result (subcommand_at bytes.now) }
{
    let (sub, rest) = u8_at(bytes)?;
    if sub > 3 {
        return Err(fault_at(bytes, Why::Command));
    }
    Ok((sub, rest))
}

#[tactic(auto, unfolding(variant_codec::specs::Reading::short_at))]
fn peer_from(bytes: &[u8]) -> Result<(i32, &[u8]), ReadError>
    ensures { Gives (λ x. (x.0, x.1.now)) result (short_at bytes.now) }
{
    let (bits, rest) = u32_at(bytes)?;
    Ok((bits.cast_signed(), rest))
}

/// The payload of a system packet.
#[tactic(auto, unfolding(packet_form::specs::Reading::payload_at))]
fn payload_from(alloc: Global, sub: u8, peer: &i32, bytes: &[u8]) -> Result<Message, ReadError>
    ensures { Gives (λ x. x) result (payload_at sub peer.now bytes.now) }
{
    let peer = *peer;
    match sub {
        0 => {
            let bytes = Bytes::from_slice(alloc, bytes)?;
            Ok(Message::Auth { peer, bytes })
        }
        1 => {
            if !bytes.is_empty() {
                return Err(fault_at(bytes, Why::Trailing));
            }
            Ok(Message::AddPeer { peer })
        }
        2 => {
            if !bytes.is_empty() {
                return Err(fault_at(bytes, Why::Trailing));
            }
            Ok(Message::DelPeer { peer })
        }
        _ => {
            let inner = inner_from(alloc, bytes)?;
            Ok(Message::Relay { peer, inner })
        }
    }
}

#[tactic(auto, unfolding(packet_form::specs::Reading::system_at))]
fn system_from(alloc: Global, bytes: &[u8]) -> Result<Message, ReadError>
    ensures { Gives (λ x. x) result (system_at bytes.now) }
{
    let (sub, rest) = subcommand_from(bytes)?;
    let (peer, rest) = peer_from(rest)?;
    payload_from(alloc, sub, &peer, rest)
}

#[tactic(auto, unfolding(packet_form::specs::Reading::message_of))]
fn message_behind(alloc: Global, head: Head, bytes: &[u8]) -> Result<Message, ReadError>
    ensures { Gives (λ x. x) result (message_of head bytes.now) }
{
    if is_plain(head) {
        let plain = plain_from(alloc, head, bytes)?;
        Ok(Message::Plain(plain))
    } else {
        system_from(alloc, bytes)
    }
}

#[tactic(auto, unfolding(packet_form::specs::Reading::message_at))]
fn message_from(alloc: Global, bytes: &[u8]) -> Result<Message, ReadError>
    ensures { Gives (λ x. x) result (message_at bytes.now) }
{
    let (head, rest) = head_from(bytes)?;
    message_behind(alloc, head, rest)
}

#[tactic(auto, unfolding(packet_form::specs::Packets::read_packet))]
fn decoded(alloc: Global, b: &[u8]) -> Result<Message, CodecStop>
    ensures { Answers (λ x. x) result (read_packet b.now) }
{
    if b.len() > MOST_BYTES {
        return Err(CodecStop::Bad(Bad {
            at: 0,
            why: Why::TooLong,
        }));
    }
    match message_from(alloc, b) {
        Ok(message) => Ok(message),
        Err(ReadError::Memory) => Err(CodecStop::OutOfMemory),
        Err(ReadError::Fault(fault)) => Err(CodecStop::Bad(Bad {
            at: b.len().saturating_sub(fault.left) as u32,
            why: fault.why,
        })),
    }
}

/// The message whose packet is the whole of `b`.
///
/// Where `b` is no packet, the answer is the first wrong field: its place counted from the start of
/// `b`, and the first of the reasons that holds of it. More than 8,388,608 bytes are `TooLong` at 0.
pub fn decode_packet(alloc: Global, b: &[u8]) -> Result<Message, CodecStop>
    // what is read has that packet
    ensures found { IfOk result (λ m. Frames m b.now) }
    // what has that packet is read
    ensures only { (m : Message) → Frames m b.now → Is result (Ok m) }
    // a fault is the one that the bytes have
    ensures bad { (bad : Bad) → result ≡ Err (stops.Bad bad) → IsBadPacket b.now bad }
    // where something is wrong with the bytes, that is answered
    ensures faults { (bad : Bad) → IsBadPacket b.now bad → Is result (Err (stops.Bad bad)) }
    // a message holds at most so many values and bytes of texts and byte runs together as the packet has bytes
    ensures bounded { IfOk result (λ m. held_by_message m ≤ length b.now) }
    // the same as reading from left to right
    ensures exact { Answers (λ x. x) result (read_packet b.now) }
{
    decoded(alloc, b)
}
