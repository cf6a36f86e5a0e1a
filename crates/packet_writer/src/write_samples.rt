//! The packets of samples and changes, written: Sync and Delta.
ghost use Rattle.std.specs.Prelude.{◌≡◌, ◌++◌, ◌≤◌, ◌<◌, ◌^◌, length, OnOk};
ghost use Rattle.std.specs.Int.{w8, w16};
ghost use Rattle.std.specs.List.{flat_map, AllByRecursion};
ghost use Rattle.byte_fields.specs.Fields.{word};
ghost use Rattle.packet_form.specs.Packets.{most_bytes};
ghost use Rattle.packet_form.specs.Written.{entry_bytes, delta_entry_bytes, HasId, HasNumbers, IsEntrySound, IsDeltaEntrySound, FitsEntry, FitsDeltaEntry};

use crate::length::{delta_entry_len, entry_len};
use crate::parts::{Writable, put_parts};
use crate::put::put_sized;
use byte_fields::{put_u8, put_u16, put_u32, put_u64};
use gd_variant::{DeltaEntry, Entry};
use std::alloc::AllocError;

#[tactic(auto, using(packet_form::proofs::Lengths::entry_size), unfolding(packet_form::specs::Written::entry_bytes))]
fn put_entry(out: &mut Vec<u8>, entry: &Entry) -> Result<(), AllocError>
    requires { length (entry_bytes entry.now) ≤ most_bytes }
    ensures fits { OnOk result (HasId entry.now) }
    ensures put { OnOk result (out.new.items ≡ out.old.items ++ entry_bytes entry.now) }
{
    put_u32(out, entry.id)?;
    put_sized(out, entry.values.as_slice())
}

#[tactic(auto, using(packet_form::proofs::Lengths::delta_entry_size), unfolding(packet_form::specs::Written::delta_entry_bytes))]
fn put_delta_entry(out: &mut Vec<u8>, entry: &DeltaEntry) -> Result<(), AllocError>
    requires { length (delta_entry_bytes entry.now) ≤ most_bytes }
    ensures fits { OnOk result (HasNumbers entry.now) }
    ensures put { OnOk result (out.new.items ≡ out.old.items ++ delta_entry_bytes entry.now) }
{
    put_u32(out, entry.id)?;
    put_u64(out, entry.mask)?;
    put_sized(out, entry.values.as_slice())
}

impl Writable for Entry {
    ghost written = { entry_bytes };

    ghost fits = { HasId };

    fn written_len(&self) -> u64 {
        entry_len(self)
    }

    fn put(&self, out: &mut Vec<u8>) -> Result<(), AllocError> {
        put_entry(out, self)
    }
}

impl Writable for DeltaEntry {
    ghost written = { delta_entry_bytes };

    ghost fits = { HasNumbers };

    fn written_len(&self) -> u64 {
        delta_entry_len(self)
    }

    fn put(&self, out: &mut Vec<u8>) -> Result<(), AllocError> {
        put_delta_entry(out, self)
    }
}

/// Puts a sample at the end.
#[tactic(auto, using(packet_form::proofs::Lengths::byte_front, packet_form::proofs::Lengths::half_front))]
pub fn put_sync(out: &mut Vec<u8>, tick: u16, entries: &[Entry]) -> Result<(), AllocError>
    requires sound { AllByRecursion IsEntrySound entries.now }
    requires short { length (word w8 6 ++ (word w16 tick ++ flat_map entry_bytes entries.now)) ≤ most_bytes }
    ensures tick_fits { OnOk result (tick < 2 ^ 16) }
    ensures fit { OnOk result (AllByRecursion FitsEntry entries.now) }
    ensures put { OnOk result (out.new.items ≡ out.old.items ++ (word w8 6 ++ (word w16 tick ++ flat_map entry_bytes entries.now))) }
{
    put_u8(out, 6)?;
    put_u16(out, tick)?;
    put_parts(out, entries)
}

/// Puts changes at the end.
#[tactic(auto, using(packet_form::proofs::Lengths::byte_front))]
pub fn put_delta(out: &mut Vec<u8>, entries: &[DeltaEntry]) -> Result<(), AllocError>
    requires sound { AllByRecursion IsDeltaEntrySound entries.now }
    requires short { length (word w8 22 ++ flat_map delta_entry_bytes entries.now) ≤ most_bytes }
    ensures fit { OnOk result (AllByRecursion FitsDeltaEntry entries.now) }
    ensures put { OnOk result (out.new.items ≡ out.old.items ++ (word w8 22 ++ flat_map delta_entry_bytes entries.now)) }
{
    put_u8(out, 22)?;
    put_parts(out, entries)
}
