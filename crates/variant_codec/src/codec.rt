//! The codec of whole values.
ghost use Rattle.std.specs.Prelude.{◌≡◌, ◌≤◌, length, IfOk, IsTrue};
ghost use Rattle.gd_variant.specs.Tree.{plain};
ghost use Rattle.gd_variant.specs.Size.{tree_size, small_tree_size};
ghost use Rattle.gd_variant.specs.Sound.{is_sound};
ghost use Rattle.variant_codec.specs.Grammar.{Spells, SpellsSmall};
ghost use Rattle.variant_codec.specs.Written.{written, written_small};
ghost use Rattle.variant_codec.specs.Reading.{value_at, small_at};
ghost use Rattle.variant_codec.specs.Tests.{most_levels};
ghost use Rattle.variant_codec.specs.Breaks.{Breaks, BreaksSmall};
ghost use Rattle.variant_codec.specs.Clauses.{Decodes, IsFound, ReadsForms, ReadsWritten, FaultsRightly, ReadsFaults, NoneBeginsAnother, ValueOrFault, WritesForms};

use crate::reading::{small_of, value_of};
use crate::writing::{put, put_small};
use byte_fields::{CodecStop, ReadError};
use gd_variant::{Bad, Bytes, OutOfMemory, Variant};
use std::alloc::Global;

fn decoded(alloc: Global, b: &[u8]) -> Result<(Variant, usize), CodecStop>
    requires { length b.now ≤ 8388608 }
    ensures { Decodes b.now result (value_at most_levels b.now) }
{
    match value_of(alloc, 33, b) {
        Ok((value, rest)) => Ok((value, b.len().saturating_sub(rest.len()))),
        Err(ReadError::Memory) => Err(CodecStop::OutOfMemory),
        Err(ReadError::Fault(fault)) => Err(CodecStop::Bad(Bad {
            at: b.len().saturating_sub(fault.left) as u32,
            why: fault.why,
        })),
    }
}

fn decoded_small(alloc: Global, b: &[u8]) -> Result<(Variant, usize), CodecStop>
    requires { length b.now ≤ 8388608 }
    ensures { Decodes b.now result (small_at b.now) }
{
    match small_of(alloc, b) {
        Ok((value, rest)) => Ok((value, b.len().saturating_sub(rest.len()))),
        Err(ReadError::Memory) => Err(CodecStop::OutOfMemory),
        Err(ReadError::Fault(fault)) => Err(CodecStop::Bad(Bad {
            at: b.len().saturating_sub(fault.left) as u32,
            why: fault.why,
        })),
    }
}

/// The value whose binary form is at the front, and the length of that form. Bytes may follow it.
///
/// A fault is the first wrong field: its place counted from the start of `b`, and the first of the
/// reasons that holds of it.
pub fn decode(alloc: Global, b: &[u8]) -> Result<(Variant, usize), CodecStop>
    requires { length b.now ≤ 8388608 }
    ensures found { IfOk result (λ x. IsFound Spells b.now x.0 x.1) }
    ensures forms { ReadsForms Spells b.now result }
    ensures written { ReadsWritten written b.now result }
    ensures bad { FaultsRightly (Breaks most_levels) b.now result }
    ensures faults { ReadsFaults (Breaks most_levels) b.now result }
{
    decoded(alloc, b)
}

/// The value whose compressed form is at the front, and the length of that form. Bytes may follow it.
pub fn decode_small(alloc: Global, b: &[u8]) -> Result<(Variant, usize), CodecStop>
    requires { length b.now ≤ 8388608 }
    ensures found { IfOk result (λ x. IsFound SpellsSmall b.now x.0 x.1) }
    ensures forms { ReadsForms SpellsSmall b.now result }
    ensures written { ReadsWritten written_small b.now result }
    ensures bad { FaultsRightly BreaksSmall b.now result }
    ensures faults { ReadsFaults BreaksSmall b.now result }
{
    decoded_small(alloc, b)
}

/// The written binary form.
pub fn encode(alloc: Global, value: &Variant) -> Result<Bytes, OutOfMemory>
    requires { IsTrue (is_sound value.now) }
    ensures written { IfOk result (λ b. b ≡ written (plain value.now)) }
    ensures spells { IfOk result (λ b. Spells (plain value.now) b) }
{
    let mut out = Vec::new(alloc);
    put(value, &mut out)?;
    Ok(Bytes::from_vec(out))
}

/// The written compressed form.
pub fn encode_small(alloc: Global, value: &Variant) -> Result<Bytes, OutOfMemory>
    requires { IsTrue (is_sound value.now) }
    ensures written { IfOk result (λ b. b ≡ written_small (plain value.now)) }
    ensures spells { IfOk result (λ b. SpellsSmall (plain value.now) b) }
{
    let mut out = Vec::new(alloc);
    put_small(value, &mut out)?;
    Ok(Bytes::from_vec(out))
}

/// No binary form begins another.
pub fn no_form_begins_another()
    ensures { NoneBeginsAnother Spells }
{}

/// No compressed form begins another.
pub fn no_small_form_begins_another()
    ensures { NoneBeginsAnother SpellsSmall }
{}

/// What is written is a form, of the length that is told.
pub fn written_form()
    ensures { WritesForms Spells written tree_size }
{}

/// What is written compressed is a compressed form, of the length that is told.
pub fn written_small_form()
    ensures { WritesForms SpellsSmall written_small small_tree_size }
{}

/// Bytes begin with the binary form of a value, or they have exactly one fault, and never both.
pub fn value_or_fault()
    ensures { ValueOrFault Spells (Breaks most_levels) }
{}

/// Bytes begin with the compressed form of a value, or they have exactly one fault, and never both.
pub fn small_value_or_fault()
    ensures { ValueOrFault SpellsSmall BreaksSmall }
{}
