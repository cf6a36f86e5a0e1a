//! The paths of a tree's nodes and the names of its scenes, in their order.
ghost use Rattle.std.specs.Prelude.{◌≡◌, ◌≤◌, OnOk, OnErr, false, length, map, insert};
ghost use Rattle.std.specs.String.{string_bytes};
ghost use Rattle.gd_variant.specs.Words.{has_text};

use gd_variant::{OutOfMemory, Text};
use indexmap::IndexSet;
use std::alloc::Global;

/// Puts a text that isn't there at a place.
pub fn put_text(
    alloc: Global,
    texts: &mut IndexSet<String>,
    at: usize,
    text: &Text,
) -> Result<(), OutOfMemory>
    requires within { at ≤ length texts.old.keys }
    requires fresh { has_text text.now (map string_bytes texts.old.keys) ≡ false }
    ensures ok { OnOk result (map string_bytes texts.new.keys ≡ insert (map string_bytes texts.old.keys) at text.now) }
    ensures err { OnErr result (texts.new.keys ≡ texts.old.keys) }
{
    let key = String::from_str(alloc, text.as_str())?;
    texts.shift_insert(at, key)?;
    Ok(())
}
