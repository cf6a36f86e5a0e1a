//! The binary and the compressed form of a value, exactly by their grammar.
//!
//! The source is Godot's "Binary serialization API", as far as it documents a layout; the rest is this
//! project's profile, which docs/FORMATS.md describes.
#![tactic(auto)]

mod codec;
mod form;
mod parts;
mod reading;
mod writing;

pub use codec::{
    decode, decode_small, encode, encode_small, no_form_begins_another,
    no_small_form_begins_another, small_value_or_fault, value_or_fault, written_form,
    written_small_form,
};
pub use form::Form;
pub use parts::{fault_at, is_without_zero, raw_of, text_of, utf8_of};
pub use reading::{small_of, value_of};
pub use writing::{put, put_small};
