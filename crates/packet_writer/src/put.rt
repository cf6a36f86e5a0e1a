//! The parts that several packets have, put at the end.
ghost use Rattle.std.specs.Prelude.{◌≡◌, ◌++◌, ◌∷◌, [], ◌≤◌, length, OnOk, true};
ghost use Rattle.byte_fields.specs.Complement.{IsWithin, half32};
ghost use Rattle.gd_variant.specs.Sound.{has_no_zero, is_text};
ghost use Rattle.variant_codec.specs.Written.{written_short};
ghost use Rattle.packet_form.specs.Packets.{most_bytes};
ghost use Rattle.packet_form.specs.Written.{written_values, ids_bytes, sized_bytes, AreIds};

use crate::length::values_len;
use byte_fields::{bits32, put_bytes, put_u8, put_u32};
use gd_variant::Variant;
use std::alloc::AllocError;
use variant_codec::put_small;

/// Puts ids at the end, each in four bytes.
pub fn put_ids(out: &mut Vec<u8>, ids: &[u32]) -> Result<(), AllocError>
    ensures fit { OnOk result (AreIds ids.now) }
    ensures put { OnOk result (out.new.items ≡ out.old.items ++ ids_bytes ids.now) }
{
    for id in ids {
        put_u32(out, *id)?;
    }
    Ok(())
}

/// Puts compressed values at the end.
pub fn put_values(out: &mut Vec<u8>, values: &[Variant]) -> Result<(), AllocError>
    ensures { OnOk result (out.new.items ≡ out.old.items ++ written_values values.now) }
{
    for value in values {
        put_small(value, out)?;
    }
    Ok(())
}

/// Puts compressed values behind their size.
#[tactic(auto, unfolding(packet_form::specs::Written::sized_bytes))]
pub fn put_sized(out: &mut Vec<u8>, values: &[Variant]) -> Result<(), AllocError>
    requires { length (written_values values.now) ≤ most_bytes }
    ensures { OnOk result (out.new.items ≡ out.old.items ++ sized_bytes values.now) }
{
    put_u32(out, values_len(values) as u32)?;
    put_values(out, values)
}

/// Puts a text and a zero byte at the end.
pub fn put_path(out: &mut Vec<u8>, path: &str) -> Result<(), AllocError>
    requires { has_no_zero path.now ≡ true }
    ensures text { OnOk result (is_text path.now ≡ true) }
    ensures put { OnOk result (out.new.items ≡ out.old.items ++ (path.now ++ 0 ∷ [])) }
{
    put_bytes(out, path.as_bytes())?;
    put_u8(out, 0)
}

/// Puts a peer's number at the end, in two's complement.
pub fn put_peer(out: &mut Vec<u8>, peer: &i32) -> Result<(), AllocError>
    ensures fits { OnOk result (IsWithin half32 peer.now) }
    ensures put { OnOk result (out.new.items ≡ out.old.items ++ written_short peer.now) }
{
    put_u32(out, bits32(*peer as i64))
}
