//! Names of nodes, and the paths that they make.
ghost use Rattle.std.specs.Prelude.{◌≡◌, not, IfOk};
ghost use Rattle.std.specs.List.{list_all};
ghost use Rattle.gd_variant.specs.Text.{HasNoZero};
ghost use Rattle.gd_variant.specs.Words.{has_nat};
ghost use Rattle.scene_model.specs.Paths.{forbidden, is_name as is_name_of, joined as joined_of};

use gd_variant::{OutOfMemory, Text};
use std::alloc::Global;

/// The most bytes of a name.
const MOST_BYTES: usize = 64;

fn is_forbidden(byte: u8) -> bool
    ensures { result ≡ has_nat byte forbidden }
{
    matches!(byte, b'.' | b':' | b'@' | b'/' | b'"' | b'%')
}

fn has_allowed(text: &[u8]) -> bool
    ensures { result ≡ list_all (λ byte. not (has_nat byte forbidden)) text.now }
{
    text.iter().all(|byte| !is_forbidden(*byte))
}

/// Whether a text is a name (Godot: `Node.name`): 1 to 64 bytes, and none of the characters `. : @ / " %`.
pub fn is_name(text: &[u8]) -> bool
    ensures { result ≡ is_name_of text.now }
{
    1 <= text.len() && text.len() <= MOST_BYTES && has_allowed(text)
}

/// The path of a node below another.
pub fn joined(alloc: Global, under: &str, name: &str) -> Result<Text, OutOfMemory>
    requires under { HasNoZero under.now }
    requires name { HasNoZero name.now }
    ensures { IfOk result (λ path. path ≡ joined_of under.now name.now) }
{
    let mut path = String::from_str(alloc, under)?;
    path.push('/')?;
    path.push_str(name)?;
    Text::from_str(alloc, path.as_str())
}
