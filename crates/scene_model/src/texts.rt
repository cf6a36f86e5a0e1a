//! The equality of texts.
ghost use Rattle.std.specs.Prelude.{◌≡◌};
ghost use Rattle.gd_variant.specs.Words.{text_eq};

use gd_variant::Text;

pub fn bytes_of(text: &Text) -> &[u8]
    ensures { result.now ≡ text.now }
{
    text.as_str().as_bytes()
}

pub fn same_bytes(a: &[u8], b: &[u8]) -> bool
    ensures { result ≡ text_eq a.now b.now }
{
    a == b
}

pub fn same_text(a: &Text, b: &Text) -> bool
    ensures { result ≡ text_eq a.now b.now }
{
    same_bytes(bytes_of(a), bytes_of(b))
}
