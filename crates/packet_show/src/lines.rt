//! One line: a packet in hexadecimal, and the text that shows it.
ghost use Rattle.std.specs.Prelude.{◌≡◌, IfOk};
ghost use Rattle.packet_show.specs.Shown.{TextOf, packet_line, stop_of};

use gd_variant::{Bytes, OutOfMemory};
use hex::FromHexError;
use packet_codec::{CodecStop, decode_packet};
use program_edge::{LineStop, LineWhy};
use session_text::{bad_text, message_text};
use std::alloc::Global;

/// The text that shows a packet, or says why the bytes are none.
fn packet_text(alloc: Global, packet: &[u8]) -> Result<Bytes, OutOfMemory>
    ensures { IfOk result (λ text. text ≡ packet_line packet.now) }
{
    match decode_packet(alloc, packet) {
        Ok(message) => message_text(alloc, &message),
        Err(CodecStop::Bad(bad)) => bad_text(alloc, &bad),
        Err(CodecStop::OutOfMemory) => Err(OutOfMemory),
    }
}

/// Why a line gives nothing to write, where it isn't decoded.
fn hex_stop(e: FromHexError) -> LineStop
    ensures { result ≡ stop_of e }
{
    match e {
        FromHexError::OutOfMemory => LineStop::OutOfMemory,
        _ => LineStop::LineBad(LineWhy::Hex),
    }
}

/// The text that a line gives.
pub fn line_text(alloc: Global, line: &[u8]) -> Result<Bytes, LineStop>
    ensures { TextOf line.now result }
{
    let packet = match hex::decode(alloc, line) {
        Ok(packet) => packet,
        Err(e) => return Err(hex_stop(e)),
    };
    match packet_text(alloc, packet.as_slice()) {
        Ok(text) => Ok(text),
        Err(OutOfMemory) => Err(LineStop::OutOfMemory),
    }
}
