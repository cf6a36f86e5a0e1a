//! Reading spawns and despawns.
ghost use Rattle.byte_fields.specs.Fields.{Gives};
ghost use Rattle.gd_variant.specs.declared.message.Why.TheVariants.{Size};
ghost use Rattle.packet_form.specs.Wholes.{ending_by, region_by};
ghost use Rattle.packet_form.specs.Reading.{value_at, arg_at, arg_for, spawn_at, despawn_at};

use crate::fields::{behind, ids_from, name_from, name_length_from, value_from, values_from};
use byte_fields::{ReadError, u8_at, u32_at};
use gd_variant::{Plain, Variant, Why};
use std::alloc::Global;
use variant_codec::{fault_at, raw_of};

/// One value up to the end.
fn only_value_from(alloc: Global, bytes: &[u8]) -> Result<Variant, ReadError>
    ensures { Gives (λ x. x) result (ending_by Size value_at bytes.now) }
{
    let (value, rest) = value_from(alloc, bytes)?;
    if !rest.is_empty() {
        return Err(fault_at(rest, Why::Size));
    }
    Ok(value)
}

/// One value that fills so many bytes.
fn value_within(alloc: Global, len: usize, bytes: &[u8]) -> Result<(Variant, &[u8]), ReadError>
    ensures { Gives (λ x. (x.0, x.1.now)) result (region_by len (ending_by Size value_at) bytes.now) }
{
    let (front, after) = raw_of(len, bytes)?;
    match only_value_from(alloc, front) {
        Ok(value) => Ok((value, after)),
        Err(ReadError::Memory) => Err(ReadError::Memory),
        Err(ReadError::Fault(inside)) => Err(behind(inside, front, bytes)),
    }
}

/// A custom argument behind its size.
#[tactic(auto, unfolding(packet_form::specs::Reading::arg_at))]
fn arg_from(alloc: Global, bytes: &[u8]) -> Result<(Variant, &[u8]), ReadError>
    ensures { Gives (λ x. (x.0, x.1.now)) result (arg_at bytes.now) }
{
    let (size, rest) = u32_at(bytes)?;
    value_within(alloc, size as usize, rest)
}

/// The custom argument, which stands there for scene 255 alone.
#[tactic(auto, unfolding(packet_form::specs::Reading::arg_for))]
fn arg_for(alloc: Global, scene: u8, bytes: &[u8]) -> Result<(Option<Variant>, &[u8]), ReadError>
    ensures { Gives (λ x. (x.0, x.1.now)) result (arg_for scene bytes.now) }
{
    if scene == 255 {
        let (arg, rest) = arg_from(alloc, bytes)?;
        Ok((Some(arg), rest))
    } else {
        Ok((None, bytes))
    }
}

/// A spawn, behind its first byte.
#[tactic(auto, unfolding(packet_form::specs::Reading::spawn_at))]
pub fn spawn_from(alloc: Global, bytes: &[u8]) -> Result<Plain, ReadError>
    ensures { Gives (λ x. x) result (spawn_at bytes.now) }
{
    let (scene, rest) = u8_at(bytes)?;
    let (spawner, rest) = u32_at(rest)?;
    let (net, rest) = u32_at(rest)?;
    let (count, rest) = u32_at(rest)?;
    let (len, rest) = name_length_from(rest)?;
    let (syncs, rest) = ids_from(alloc, count, rest)?;
    let (name, rest) = name_from(alloc, len, rest)?;
    let (arg, rest) = arg_for(alloc, scene, rest)?;
    let values = values_from(alloc, rest)?;
    Ok(Plain::Spawn {
        scene,
        spawner,
        net,
        syncs,
        name,
        arg,
        values,
    })
}

/// A despawn, behind its first byte.
#[tactic(auto, unfolding(packet_form::specs::Reading::despawn_at))]
pub fn despawn_from(bytes: &[u8]) -> Result<Plain, ReadError>
    ensures { Gives (λ x. x) result (despawn_at bytes.now) }
{
    let (net, rest) = u32_at(bytes)?;
    if !rest.is_empty() {
        return Err(fault_at(rest, Why::Trailing));
    }
    Ok(Plain::Despawn { net })
}
