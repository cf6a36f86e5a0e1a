//! Reading samples of properties and their changes.
ghost use Rattle.byte_fields.specs.Fields.{Gives};
ghost use Rattle.packet_form.specs.Wholes.{region_by};
ghost use Rattle.packet_form.specs.Reading.{values_at, sized_values_at, entry_at, delta_entry_at, sync_at, delta_at};

use crate::fields::{behind, values_from};
use crate::parts::{Readable, parts_from};
use byte_fields::{ReadError, u16_at, u32_at, u64_at};
use gd_variant::{DeltaEntry, Entry, Plain, ValueList};
use std::alloc::Global;
use variant_codec::raw_of;

/// Values that fill so many bytes.
fn values_within(alloc: Global, len: usize, bytes: &[u8]) -> Result<(ValueList, &[u8]), ReadError>
    ensures { Gives (λ x. (x.0, x.1.now)) result (region_by len values_at bytes.now) }
{
    let (front, after) = raw_of(len, bytes)?;
    match values_from(alloc, front) {
        Ok(values) => Ok((values, after)),
        Err(ReadError::Memory) => Err(ReadError::Memory),
        Err(ReadError::Fault(inside)) => Err(behind(inside, front, bytes)),
    }
}

/// Values behind their size.
#[tactic(auto, unfolding(packet_form::specs::Reading::sized_values_at))]
fn sized_values_from(alloc: Global, bytes: &[u8]) -> Result<(ValueList, &[u8]), ReadError>
    ensures { Gives (λ x. (x.0, x.1.now)) result (sized_values_at bytes.now) }
{
    let (size, rest) = u32_at(bytes)?;
    values_within(alloc, size as usize, rest)
}

#[tactic(auto, unfolding(packet_form::specs::Reading::entry_at))]
fn entry_from(alloc: Global, bytes: &[u8]) -> Result<(Entry, &[u8]), ReadError>
    ensures { Gives (λ x. (x.0, x.1.now)) result (entry_at bytes.now) }
{
    let (id, rest) = u32_at(bytes)?;
    let (values, rest) = sized_values_from(alloc, rest)?;
    Ok((Entry { id, values }, rest))
}

#[tactic(auto, unfolding(packet_form::specs::Reading::delta_entry_at))]
fn delta_entry_from(alloc: Global, bytes: &[u8]) -> Result<(DeltaEntry, &[u8]), ReadError>
    ensures { Gives (λ x. (x.0, x.1.now)) result (delta_entry_at bytes.now) }
{
    let (id, rest) = u32_at(bytes)?;
    let (mask, rest) = u64_at(rest)?;
    let (values, rest) = sized_values_from(alloc, rest)?;
    Ok((DeltaEntry { id, mask, values }, rest))
}

impl Readable for Entry {
    ghost reading = { entry_at };

    fn from_bytes(alloc: Global, bytes: &[u8]) -> Result<(Entry, &[u8]), ReadError> {
        entry_from(alloc, bytes)
    }
}

impl Readable for DeltaEntry {
    ghost reading = { delta_entry_at };

    fn from_bytes(alloc: Global, bytes: &[u8]) -> Result<(DeltaEntry, &[u8]), ReadError> {
        delta_entry_from(alloc, bytes)
    }
}

/// Samples, behind their first byte.
#[tactic(auto, unfolding(packet_form::specs::Reading::sync_at))]
pub fn sync_from(alloc: Global, bytes: &[u8]) -> Result<Plain, ReadError>
    ensures { Gives (λ x. x) result (sync_at bytes.now) }
{
    let (tick, rest) = u16_at(bytes)?;
    let entries = parts_from(alloc, rest)?;
    Ok(Plain::Sync { tick, entries })
}

/// Changes, behind their first byte.
#[tactic(auto, unfolding(packet_form::specs::Reading::delta_at))]
pub fn delta_from(alloc: Global, bytes: &[u8]) -> Result<Plain, ReadError>
    ensures { Gives (λ x. x) result (delta_at bytes.now) }
{
    let entries = parts_from(alloc, bytes)?;
    Ok(Plain::Delta { entries })
}
