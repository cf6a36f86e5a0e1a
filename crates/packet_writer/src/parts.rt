//! Parts of one kind that stand in a packet one after the other: measured and put alike.
ghost use Rattle.std.specs.Prelude.{◌≡◌, ◌++◌, ◌≤◌, List, ℕ, OnOk, length, min};
ghost use Rattle.std.specs.List.{flat_map, AllByRecursion};
ghost use Rattle.packet_form.specs.Packets.{most_bytes};

use crate::length::capped_sum;
use std::alloc::AllocError;

/// What is put at the end of some bytes.
pub trait Writable {
    ghost written: { Self → List ℕ };

    ghost fits: { Self → Type 0 };

    /// How many bytes are put, or 8,388,609 where they are more.
    fn written_len(&self) -> u64
        ensures { result ≡ min (length (written self.now)) 8388609 };

    fn put(&self, out: &mut Vec<u8>) -> Result<(), AllocError>
        requires { length (written self.now) ≤ most_bytes }
        ensures fits { OnOk result (fits self.now) }
        ensures put { OnOk result (out.new.items ≡ out.old.items ++ written self.now) };
}

/// How many bytes are put for some parts, or 8,388,609 where they are more.
pub fn parts_len<T: Writable>(parts: &[T]) -> u64
    ensures { result ≡ min (length (flat_map T.written parts.now)) 8388609 }
{
    let mut total = 0;
    for part in parts {
        total = capped_sum(total, part.written_len());
    }
    total
}

/// Puts parts at the end, one after the other.
pub fn put_parts<T: Writable>(out: &mut Vec<u8>, parts: &[T]) -> Result<(), AllocError>
    requires { length (flat_map T.written parts.now) ≤ most_bytes }
    ensures fit { OnOk result (AllByRecursion T.fits parts.now) }
    ensures put { OnOk result (out.new.items ≡ out.old.items ++ flat_map T.written parts.now) }
{
    for part in parts {
        part.put(out)?;
    }
    Ok(())
}
