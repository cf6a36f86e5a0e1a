//! Reading the packets that name a path and confirm its name.
ghost use Rattle.std.specs.Prelude.{◌<◌, IfOk};
ghost use Rattle.byte_fields.specs.Fields.{Gives};
ghost use Rattle.packet_form.specs.Reading.{digit_at, digits_at, digest_at, zero_at, simplify_at, flag_at, confirm_at};

use crate::fields::path_from;
use byte_fields::{ReadError, u8_at, u32_at};
use gd_variant::{Plain, Why};
use std::alloc::Global;
use variant_codec::fault_at;

/// A lower-case hexadecimal digit.
#[tactic(auto, unfolding(packet_form::specs::Reading::digit_at))]
fn digit_from(bytes: &[u8]) -> Result<(u8, &[u8]), ReadError>
    ensures small { IfOk result (λ x. x.0 < 16) }
    ensures gives { Gives (λ x. (x.0, x.1.now)) result (digit_at bytes.now) }
{
    let (byte, rest) = u8_at(bytes)?;
    if 48 <= byte && byte <= 57 {
        return Ok((byte - 48, rest));
    }
    if 97 <= byte && byte <= 102 {
        return Ok((byte - 87, rest));
    }
    Err(fault_at(bytes, Why::Digits))
}

/// A byte in two digits, the high one first.
#[tactic(auto, unfolding(packet_form::specs::Reading::digits_at))]
fn digits_from(bytes: &[u8]) -> Result<(u8, &[u8]), ReadError>
    ensures { Gives (λ x. (x.0, x.1.now)) result (digits_at bytes.now) }
{
    let (high, rest) = digit_from(bytes)?;
    let (low, rest) = digit_from(rest)?;
    Ok((16 * high + low, rest))
}

/// 16 bytes in digits.
#[tactic(auto, unfolding(packet_form::specs::Reading::digest_at))]
fn digest_from(bytes: &[u8]) -> Result<([u8; 16], &[u8]), ReadError>
    ensures { Gives (λ x. (x.0, x.1.now)) result (digest_at bytes.now) }
{
    let mut digest = [0; 16];
    let mut rest = bytes;
    for i in 0..16 {
        let (byte, after) = digits_from(rest)?;
        digest[i] = byte;
        rest = after;
    }
    Ok((digest, rest))
}

/// The zero byte behind the digits.
#[tactic(auto, unfolding(packet_form::specs::Reading::zero_at))]
fn zero_from(bytes: &[u8]) -> Result<(u8, &[u8]), ReadError>
    ensures { Gives (λ x. (x.0, x.1.now)) result (zero_at bytes.now) }
{
    let (byte, rest) = u8_at(bytes)?;
    if byte != 0 {
        return Err(fault_at(bytes, Why::Digits));
    }
    Ok((byte, rest))
}

/// A name for a path, behind its first byte.
#[tactic(auto, unfolding(packet_form::specs::Reading::simplify_at))]
pub fn simplify_from(alloc: Global, bytes: &[u8]) -> Result<Plain, ReadError>
    ensures { Gives (λ x. x) result (simplify_at bytes.now) }
{
    let (digest, rest) = digest_from(bytes)?;
    let (_, rest) = zero_from(rest)?;
    let (id, rest) = u32_at(rest)?;
    let path = path_from(alloc, rest)?;
    Ok(Plain::Simplify { digest, id, path })
}

#[tactic(auto, unfolding(packet_form::specs::Reading::flag_at))]
fn flag_from(bytes: &[u8]) -> Result<(bool, &[u8]), ReadError>
    ensures { Gives (λ x. (x.0, x.1.now)) result (flag_at bytes.now) }
{
    let (byte, rest) = u8_at(bytes)?;
    if byte > 1 {
        return Err(fault_at(bytes, Why::Digits));
    }
    Ok((byte != 0, rest))
}

/// A confirmed name, behind its first byte.
#[tactic(auto, unfolding(packet_form::specs::Reading::confirm_at))]
pub fn confirm_from(bytes: &[u8]) -> Result<Plain, ReadError>
    ensures { Gives (λ x. x) result (confirm_at bytes.now) }
{
    let (ok, rest) = flag_from(bytes)?;
    let (id, rest) = u32_at(rest)?;
    if !rest.is_empty() {
        return Err(fault_at(rest, Why::Trailing));
    }
    Ok(Plain::Confirm { ok, id })
}
