//! Why reading stops.
ghost use Rattle.std.specs.Prelude.{◌≡◌};
ghost use Rattle.byte_fields.specs.declared.fault.ReadError.TheVariants.{Memory};

use gd_variant::{Bad, OutOfMemory, Why};
use std::alloc::{AllocError, AllocFailed};

/// The first wrong field: how many bytes stand from its first byte to the end of the input, and why it is wrong.
///
/// A reader sees only the bytes that are left, so it names a place by their number.
#[derive(Clone, Copy, Drop)]
pub struct Fault {
    pub left: usize,
    pub why: Why,
}

/// Why a reader inside a decoder stops.
#[derive(Drop)]
pub enum ReadError {
    Memory,
    Fault(Fault),
}

/// Why a decoder gives nothing.
#[derive(Drop)]
pub enum CodecStop {
    Bad(Bad),
    OutOfMemory,
}

impl From<AllocError> for ReadError {
    ghost from_gives = { λ _ e. e ≡ Memory };

    fn from(_e: AllocError) -> ReadError {
        ReadError::Memory
    }
}

impl From<OutOfMemory> for ReadError {
    ghost from_gives = { λ _ e. e ≡ Memory };

    fn from(_e: OutOfMemory) -> ReadError {
        ReadError::Memory
    }
}

impl<T: Drop> From<AllocFailed<T>> for ReadError {
    ghost from_gives = { λ _ e. e ≡ Memory };

    fn from(_e: AllocFailed<T>) -> ReadError {
        ReadError::Memory
    }
}
