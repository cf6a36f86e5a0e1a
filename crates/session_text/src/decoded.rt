//! The lines that tell what bytes hold.
ghost use Rattle.std.specs.Prelude.{◌≡◌, IfOk};
ghost use Rattle.session_text.specs.Decoded.{decoded_line};

use crate::line::{begin, end, hexadecimal, nat, text};
use crate::values::value as tell;
use gd_variant::{Bytes, OutOfMemory, Variant};
use std::alloc::Global;

/// The line of a value that stands at the front of some bytes: the length of its form there, the value,
/// and the form that is written for it.
pub fn decoded_text(
    alloc: Global,
    len: usize,
    value: &Variant,
    written: &[u8],
) -> Result<Bytes, OutOfMemory>
    ensures { IfOk result (λ b. b ≡ decoded_line len value.now written.now) }
{
    let mut out = Vec::with_capacity(alloc, 128)?;
    let mut line = begin(alloc, &mut out)?;
    text("value", &mut line)?;
    nat(len as u64, &mut line)?;
    tell(value, alloc, &mut line)?;
    hexadecimal(alloc, written, &mut line)?;
    end(line, &mut out)?;
    Ok(Bytes::from_vec(out))
}
