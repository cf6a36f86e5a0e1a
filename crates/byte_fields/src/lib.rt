//! The fields that every reader and writer of bytes shares: numbers, texts, and the fault of the first wrong field.
#![tactic(auto)]

mod fault;
mod numbers;
mod signed;
mod text;
mod writing;

pub use fault::{CodecStop, Fault, ReadError};
pub use numbers::{u8_at, u16_at, u32_at, u64_at};
pub use signed::{bits8, bits16, bits32, bits64};
pub use text::is_text;
pub use writing::{put_bytes, put_u8, put_u16, put_u32, put_u64};
