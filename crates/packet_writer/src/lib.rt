//! How long a packet is, and its bytes, exactly as they are defined.
#![tactic(auto)]

mod arguments;
mod encode;
mod length;
mod parts;
mod put;
mod write_call;
mod write_names;
mod write_samples;
mod write_spawn;

pub use encode::encode_packet;
pub use length::packet_len;
