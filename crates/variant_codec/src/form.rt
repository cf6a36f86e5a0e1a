//! The layouts that a header's type number stands for.
ghost use Rattle.std.specs.Prelude.{◌≡◌};
ghost use Rattle.variant_codec.specs.Header.{form_of};

/// The layout of a value behind its header.
#[derive(Clone, Copy, Debug, PartialEq, Eq)]
pub enum Form {
    Nil,
    Bool,
    Int,
    Text,
    Name,
    Path,
    /// An integer vector.
    Ints,
    /// A fixed number of float components.
    Fixed,
    Dict,
    Array,
    /// A packed array of bytes.
    Bytes,
    /// A packed array of 32-bit numbers.
    Shorts,
    /// A packed array of 64-bit numbers.
    Longs,
    /// A packed array of texts.
    Texts,
    /// A packed array of float-bearing elements.
    Elements,
}

/// The layout of a type number that is carried.
#[tactic(auto, unfolding(crate::specs::Header::form_of))]
pub fn form_of(code: u8) -> Form
    ensures { result ≡ form_of code }
{
    match code {
        0 => Form::Nil,
        1 => Form::Bool,
        2 => Form::Int,
        4 => Form::Text,
        21 => Form::Name,
        22 => Form::Path,
        27 => Form::Dict,
        28 => Form::Array,
        29 => Form::Bytes,
        30 => Form::Shorts,
        31 => Form::Longs,
        34 => Form::Texts,
        6 | 8 | 10 | 13 => Form::Ints,
        _ => {
            if code >= 32 {
                Form::Elements
            } else {
                Form::Fixed
            }
        }
    }
}
