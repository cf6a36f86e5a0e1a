//! Whether a value can be written and read back.
ghost use Rattle.std.specs.Prelude.{◌≡◌, IfOk};
ghost use Rattle.gd_variant.specs.Tree.{dict, plain, plain_pairs, plains};
ghost use Rattle.gd_variant.specs.Sound.{is_sound as is_sound_value};
ghost use Rattle.sound_check.specs.Fits.{all_fit, fits};

use crate::keys::are_distinct;
use gd_variant::{OutOfMemory, Pair, Variant, depth, is_sound, len_of};
use std::alloc::Global;

#[cycle(judging)]
fn pairs_fit(pairs: &[Pair], alloc: Global) -> Result<bool, OutOfMemory>
    ensures { IfOk result (λ b. b ≡ all_fit (plain_pairs pairs.now)) }
{
    for pair in pairs {
        if !value_fits(&pair.key, alloc)? {
            return Ok(false);
        }
        if !value_fits(&pair.value, alloc)? {
            return Ok(false);
        }
    }
    Ok(true)
}

#[cycle(judging)]
fn items_fit(items: &[Variant], alloc: Global) -> Result<bool, OutOfMemory>
    ensures { IfOk result (λ b. b ≡ all_fit (plains items.now)) }
{
    for item in items {
        if !value_fits(item, alloc)? {
            return Ok(false);
        }
    }
    Ok(true)
}

#[cycle(judging)]
fn dictionary_fits(pairs: &[Pair], alloc: Global) -> Result<bool, OutOfMemory>
    ensures { IfOk result (λ b. b ≡ fits (dict (plain_pairs pairs.now))) }
{
    if !are_distinct(alloc, pairs)? {
        return Ok(false);
    }
    let inside = pairs_fit(pairs, alloc)?;
    Ok(inside)
}

/// Whether the value is right, where it is small enough to be sound.
#[cycle(judging)]
fn value_fits(value: &Variant, alloc: Global) -> Result<bool, OutOfMemory>
    ensures { IfOk result (λ b. b ≡ fits (plain value.now)) }
{
    match value {
        Variant::Dict(pairs) => {
            let inside = dictionary_fits(pairs.as_slice(), alloc)?;
            Ok(inside)
        }
        Variant::Array(items) => {
            let inside = items_fit(items.as_slice(), alloc)?;
            Ok(inside)
        }
        Variant::Nil => Ok(true),
        Variant::Bool(_) => Ok(true),
        Variant::Int(_) => Ok(is_sound(value)),
        Variant::Text(_) => Ok(is_sound(value)),
        Variant::Name(_) => Ok(is_sound(value)),
        Variant::Path(_) => Ok(is_sound(value)),
        Variant::Ints(_) => Ok(is_sound(value)),
        Variant::Opaque(_) => Ok(is_sound(value)),
        Variant::PackedBytes(_) => Ok(is_sound(value)),
        Variant::PackedInts(_) => Ok(is_sound(value)),
        Variant::PackedTexts(_) => Ok(is_sound(value)),
    }
}

/// Whether the value can be written and read back, as `gd_variant::is_sound` says, which takes no memory
/// and compares each key of a dictionary with each.
pub fn judge_sound(alloc: Global, value: &Variant) -> Result<bool, OutOfMemory>
    ensures { IfOk result (λ b. b ≡ is_sound_value value.now) }
{
    if depth(value) > 32 {
        return Ok(false);
    }
    if len_of(value) > 8388608 {
        return Ok(false);
    }
    let right = value_fits(value, alloc)?;
    Ok(right)
}
