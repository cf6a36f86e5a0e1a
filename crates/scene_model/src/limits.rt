//! Limits and numbers that several layers keep.
ghost use Rattle.std.specs.Prelude.{◌≡◌};
ghost use Rattle.scene_model.specs.Limits.{is_long as is_long_value};

use gd_variant::{Variant, len_of};

/// The number of the server.
pub const SERVER: i32 = 1;

/// The most clients of a server.
pub const MOST_CLIENTS: usize = 64;

/// The most bytes of the binary form of a property's value or of an argument.
pub const MOST_VALUE_BYTES: u64 = 65536;

/// Whether a value is too long for a property or an argument.
pub fn is_long(value: &Variant) -> bool
    ensures { result ≡ is_long_value value.now }
{
    MOST_VALUE_BYTES < len_of(value)
}
