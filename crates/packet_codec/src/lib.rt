//! The packets of the multiplayer layer: bytes to a message, and a message to bytes.
#![tactic(auto)]

mod call;
mod decode;
mod fields;
mod head;
mod names;
mod parts;
mod samples;
mod spawn;

pub use byte_fields::CodecStop;
pub use decode::decode_packet;
pub use packet_writer::{encode_packet, packet_len};
