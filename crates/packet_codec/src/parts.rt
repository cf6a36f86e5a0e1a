//! Parts of one kind that stand in a packet one after the other, up to its end.
ghost use Rattle.std.specs.Prelude.{◌<◌, List, ℕ, Result, IfOk, length};
ghost use Rattle.byte_fields.specs.Fields.{Gives};
ghost use Rattle.byte_fields.specs.declared.fault.Fault.{Fault as FaultOf};
ghost use Rattle.packet_form.specs.Wholes.{filled_by};

use byte_fields::ReadError;
use sqlite_items::Items;
use std::alloc::Global;

/// What is read from the front of some bytes, and takes one of them at least.
pub trait Readable: Sized + Drop {
    ghost reading: { List ℕ → Result (Self × List ℕ) FaultOf };

    fn from_bytes(alloc: Global, bytes: &[u8]) -> Result<(Self, &[u8]), ReadError>
        ensures read { Gives (λ x. (x.0, x.1.now)) result (reading bytes.now) }
        ensures shorter { IfOk result (λ x. length x.1.now < length bytes.now) };
}

/// Parts up to the end.
pub fn parts_from<T: Readable>(alloc: Global, bytes: &[u8]) -> Result<Items<T>, ReadError>
    ensures { Gives (λ x. x) result (filled_by T.reading bytes.now) }
{
    let mut parts = Items::new(alloc);
    let mut rest = bytes;
    while !rest.is_empty() {
        let (part, after) = T::from_bytes(alloc, rest)?;
        parts.push(part)?;
        rest = after;
    }
    Ok(parts)
}
