//! The packets of names, written: Simplify and Confirm.
ghost use Rattle.std.specs.Prelude.{◌≡◌, ◌++◌, ◌<◌, ◌^◌, length, OnOk, true};
ghost use Rattle.std.specs.Int.{w8, w32};
ghost use Rattle.std.specs.List.{flat_map};
ghost use Rattle.byte_fields.specs.Fields.{word};
ghost use Rattle.gd_variant.specs.Sound.{has_no_zero, is_text};
ghost use Rattle.packet_form.specs.Head.{bit};
ghost use Rattle.packet_form.specs.Written.{digit, digits_of, simplify_bytes, AreBytes};

use crate::put::put_path;
use byte_fields::{put_u8, put_u32};
use std::alloc::AllocError;

/// A lower-case hexadecimal digit.
fn put_digit(out: &mut Vec<u8>, n: u8) -> Result<(), AllocError>
    requires { n < 16 }
    ensures { OnOk result (out.new.items ≡ out.old.items ++ word w8 (digit n)) }
{
    if n < 10 {
        put_u8(out, 48 + n)
    } else {
        put_u8(out, 87 + n)
    }
}

fn put_digits(out: &mut Vec<u8>, byte: u8) -> Result<(), AllocError>
    ensures { OnOk result (out.new.items ≡ out.old.items ++ digits_of byte) }
{
    put_digit(out, byte / 16)?;
    put_digit(out, byte % 16)
}

fn put_digest(out: &mut Vec<u8>, digest: &[u8]) -> Result<(), AllocError>
    ensures fits { OnOk result (AreBytes digest.now) }
    ensures put { OnOk result (out.new.items ≡ out.old.items ++ flat_map digits_of digest.now) }
{
    for byte in digest {
        put_digits(out, *byte)?;
    }
    Ok(())
}

/// Puts a Simplify at the end.
pub fn put_simplify(
    out: &mut Vec<u8>,
    digest: &[u8; 16],
    id: u32,
    path: &str,
) -> Result<(), AllocError>
    requires { has_no_zero path.now ≡ true }
    ensures sixteen { OnOk result (length digest.now ≡ 16) }
    ensures digest_fits { OnOk result (AreBytes digest.now) }
    ensures id_fits { OnOk result (id < 2 ^ 32) }
    ensures text { OnOk result (is_text path.now ≡ true) }
    ensures put { OnOk result (out.new.items ≡ out.old.items ++ simplify_bytes digest.now id path.now) }
{
    put_u8(out, 1)?;
    put_digest(out, digest)?;
    put_u8(out, 0)?;
    put_u32(out, id)?;
    put_path(out, path)
}

/// Puts a Confirm at the end.
pub fn put_confirm(out: &mut Vec<u8>, ok: bool, id: u32) -> Result<(), AllocError>
    ensures fits { OnOk result (id < 2 ^ 32) }
    ensures put { OnOk result (out.new.items ≡ out.old.items ++ (word w8 2 ++ (word w8 (bit ok) ++ word w32 id))) }
{
    put_u8(out, 2)?;
    put_u8(out, if ok { 1 } else { 0 })?;
    put_u32(out, id)
}
