//! The first byte of a packet is read.
ghost use Rattle.std.specs.Prelude.{◌≡◌};
ghost use Rattle.byte_fields.specs.Fields.{Gives};
ghost use Rattle.packet_form.specs.Head.{is_command, has_width, node_width, call_head, head_of, is_plain};
ghost use Rattle.packet_form.specs.Reading.{first_at, head_at};

use byte_fields::{ReadError, u8_at};
use gd_variant::Why;
use packet_form::{CallHead, Head, NodeWidth};
use variant_codec::fault_at;

/// Whether bit 3 is zero, and no flag is set but one that the command has.
fn is_command(byte: u8) -> bool
    ensures { result ≡ is_command byte }
{
    let command = byte % 8;
    let flags = byte / 16;
    byte / 8 % 2 == 0 && (command == 0 || flags == 0 || (command == 6 && flags == 1))
}

/// Whether the node id of a call has a width.
fn has_width(byte: u8) -> bool
    ensures { result ≡ has_width byte }
{
    !(byte % 8 == 0 && byte / 16 % 4 == 3)
}

fn node_width(bits: u8) -> NodeWidth
    ensures { result ≡ node_width bits }
{
    match bits {
        0 => NodeWidth::One,
        1 => NodeWidth::Two,
        _ => NodeWidth::Four,
    }
}

fn call_head(byte: u8) -> CallHead
    ensures { result ≡ call_head byte }
{
    let flags = byte / 16;
    CallHead {
        node: node_width(flags % 4),
        wide_method: flags / 4 % 2 == 1,
        raw: flags / 8 == 1,
    }
}

/// What a first byte says that is a command.
#[tactic(auto, unfolding(packet_form::specs::Head::head_of))]
pub fn head_of(byte: u8) -> Head
    ensures { result ≡ head_of byte }
{
    match byte % 8 {
        0 => Head::Call(call_head(byte)),
        1 => Head::Simplify,
        2 => Head::Confirm,
        3 => Head::Raw,
        4 => Head::Spawn,
        5 => Head::Despawn,
        6 => {
            if byte / 16 == 1 {
                Head::Delta
            } else {
                Head::Sync
            }
        }
        _ => Head::System,
    }
}

#[tactic(auto, unfolding(packet_form::specs::Reading::first_at))]
fn first_from(bytes: &[u8]) -> Result<(u8, &[u8]), ReadError>
    ensures { Gives (λ x. (x.0, x.1.now)) result (first_at bytes.now) }
{
    if bytes.is_empty() {
        return Err(fault_at(bytes, Why::Empty));
    }
    u8_at(bytes)
}

/// The first byte of a packet.
#[tactic(auto, unfolding(packet_form::specs::Reading::head_at))]
pub fn head_from(bytes: &[u8]) -> Result<(Head, &[u8]), ReadError>
    ensures { Gives (λ x. (x.0, x.1.now)) result (head_at bytes.now) }
{
    let (byte, rest) = first_from(bytes)?;
    if !is_command(byte) {
        return Err(fault_at(bytes, Why::Command));
    }
    if !has_width(byte) {
        return Err(fault_at(bytes, Why::Width));
    }
    Ok((head_of(byte), rest))
}

/// Whether one peer may mean such a packet for another.
pub fn is_plain(head: Head) -> bool
    ensures { result ≡ is_plain head }
{
    match head {
        Head::System => false,
        _ => true,
    }
}
