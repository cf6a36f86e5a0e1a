//! Numbers and bytes put at the end, the lowest byte of a number first.
ghost use Rattle.std.specs.Prelude.{◌≡◌, ◌++◌, OnOk};
ghost use Rattle.std.specs.Int.{w16, w32, w64, w8};
ghost use Rattle.byte_fields.specs.Fields.{word};

use std::alloc::AllocError;

#[tactic(auto, unfolding(crate::specs::Fields::word))]
pub fn put_u8(out: &mut Vec<u8>, n: u8) -> Result<(), AllocError>
    ensures { OnOk result (out.new.items ≡ out.old.items ++ word w8 n) }
{
    out.extend_from_slice(&n.to_le_bytes())
}

#[tactic(auto, unfolding(crate::specs::Fields::word))]
pub fn put_u16(out: &mut Vec<u8>, n: u16) -> Result<(), AllocError>
    ensures { OnOk result (out.new.items ≡ out.old.items ++ word w16 n) }
{
    out.extend_from_slice(&n.to_le_bytes())
}

#[tactic(auto, unfolding(crate::specs::Fields::word))]
pub fn put_u32(out: &mut Vec<u8>, n: u32) -> Result<(), AllocError>
    ensures { OnOk result (out.new.items ≡ out.old.items ++ word w32 n) }
{
    out.extend_from_slice(&n.to_le_bytes())
}

#[tactic(auto, unfolding(crate::specs::Fields::word))]
pub fn put_u64(out: &mut Vec<u8>, n: u64) -> Result<(), AllocError>
    ensures { OnOk result (out.new.items ≡ out.old.items ++ word w64 n) }
{
    out.extend_from_slice(&n.to_le_bytes())
}

pub fn put_bytes(out: &mut Vec<u8>, bytes: &[u8]) -> Result<(), AllocError>
    ensures { OnOk result (out.new.items ≡ out.old.items ++ bytes.now) }
{
    out.extend_from_slice(bytes)
}
