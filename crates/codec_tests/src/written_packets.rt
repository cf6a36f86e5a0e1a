//! Packets of each kind, which are written as they stand here. `conformance/show/written-packets.tsv` has
//! what each of them says.
use crate::rows::{bytes_of, is_row};
use crate::sound::is_message_sound;
use gd_variant::Message;
use packet_codec::{decode_packet, encode_packet, packet_len};
use std::alloc::Global;
use std::test::*;

const WRITTEN: &str = "
# calls
20 13000080 00 01 040000000200000068690000 612f7800
00 06 00 01 040000000200000068690000
80 06 01
80 01 00
# an id of two bytes, a method of two bytes, raw bytes
d0 2c01 0001 0102
# an id of four bytes
a0 70110100 00
# an empty PackedBytes is counted
00 ff ff 01 1d00000000000000
# by path, a method of two bytes
e0 07000080 0001 612f7800
# the offset counts from the first byte of the call
07 03 02000000 a0 06000080 01 612f7800
# the other packets
04 00 01000000 01000000 01000000 03000000 02000000 703100 0205
04 00 02000000 01000000 01000000 02000000 02000000 7800 050000000000803f00000040 0264
04 ff 01000000 03000000 00000000 02000000 6100 03000000 428000 81
06 0100 02000000 0c000000 050000000000803f00000040
16 02000000 0200000000000000 0c000000 050000000100803f00000040
01 3930303135303938336364323466623064363936336637643238653137663732 00 06000000 612f7800
02 01 06000000
02 00 06000000
03 ff
05 01000000
# system packets
07 01 03000000
07 02 02000000
07 01 feffffff
07 00 01000000 0900
07 03 03000000 04 00 05000000 01000000 01000000 02000000 02000000 7a00 050000000000803f00000040 0264
07 03 02000000 03 ff
";

/// Whether these bytes are written for the message, and so many are told.
fn writes(alloc: Global, message: &Message, bytes: &[u8]) -> bool {
    if !is_message_sound(message) || packet_len(message) > 8_388_608 {
        return false;
    }
    match encode_packet(alloc, message) {
        Ok(packet) => packet.as_slice() == bytes && packet_len(message) == bytes.len() as u64,
        Err(_) => false,
    }
}

/// Whether a packet is read, and its message is written so.
fn is_written(alloc: Global, words: &str) -> Option<bool> {
    let packet = bytes_of(alloc, words)?;
    let message = decode_packet(alloc, packet.as_slice()).ok()?;
    let right = writes(alloc, &message, packet.as_slice());
    drop(message);
    Some(right)
}

#[test]
fn packets_are_written(rt: HostRuntime) {
    for line in WRITTEN.lines() {
        assert!(rt;
            !is_row(line) || is_written(rt.alloc(), line) == Some(true),
            "{line}"
        );
    }
}
