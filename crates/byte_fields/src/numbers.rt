//! Numbers at the front of some bytes, the lowest byte first.
ghost use Rattle.std.specs.Int.{w16, w32, w64, w8};
ghost use Rattle.byte_fields.specs.Fields.{Gives, number_at};

use crate::fault::{Fault, ReadError};
use gd_variant::Why;

/// A number of one byte, and the bytes after it.
#[tactic(auto, unfolding(crate::specs::Fields::number_at))]
pub fn u8_at(bytes: &[u8]) -> Result<(u8, &[u8]), ReadError>
    ensures { Gives (λ x. (x.0, x.1.now)) result (number_at w8 bytes.now) }
{
    if bytes.len() < 1 {
        return Err(ReadError::Fault(Fault {
            left: bytes.len(),
            why: Why::Short,
        }));
    }
    let (front, rest) = bytes.split_at(1);
    let number = front[0];
    Ok((number, rest))
}

/// A number of two bytes, and the bytes after it.
#[tactic(auto, unfolding(crate::specs::Fields::number_at))]
pub fn u16_at(bytes: &[u8]) -> Result<(u16, &[u8]), ReadError>
    ensures { Gives (λ x. (x.0, x.1.now)) result (number_at w16 bytes.now) }
{
    if bytes.len() < 2 {
        return Err(ReadError::Fault(Fault {
            left: bytes.len(),
            why: Why::Short,
        }));
    }
    let (front, rest) = bytes.split_at(2);
    let number = u16::from_le_bytes([front[0], front[1]]);
    Ok((number, rest))
}

/// A number of four bytes, and the bytes after it.
#[tactic(auto, unfolding(crate::specs::Fields::number_at))]
pub fn u32_at(bytes: &[u8]) -> Result<(u32, &[u8]), ReadError>
    ensures { Gives (λ x. (x.0, x.1.now)) result (number_at w32 bytes.now) }
{
    if bytes.len() < 4 {
        return Err(ReadError::Fault(Fault {
            left: bytes.len(),
            why: Why::Short,
        }));
    }
    let (front, rest) = bytes.split_at(4);
    let number = u32::from_le_bytes([front[0], front[1], front[2], front[3]]);
    Ok((number, rest))
}

/// A number of eight bytes, and the bytes after it.
#[tactic(auto, unfolding(crate::specs::Fields::number_at))]
pub fn u64_at(bytes: &[u8]) -> Result<(u64, &[u8]), ReadError>
    ensures { Gives (λ x. (x.0, x.1.now)) result (number_at w64 bytes.now) }
{
    if bytes.len() < 8 {
        return Err(ReadError::Fault(Fault {
            left: bytes.len(),
            why: Why::Short,
        }));
    }
    let (front, rest) = bytes.split_at(8);
    let number = u64::from_le_bytes([
        front[0], front[1], front[2], front[3], front[4], front[5], front[6], front[7],
    ]);
    Ok((number, rest))
}
