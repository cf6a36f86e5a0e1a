//! The Spawn packet, written.
ghost use Rattle.std.specs.Prelude.{◌≡◌, ◌++◌, ◌<◌, ◌≤◌, ◌^◌, length, OnOk, true};
ghost use Rattle.std.specs.Int.{w8, w32};
ghost use Rattle.byte_fields.specs.Fields.{word};
ghost use Rattle.gd_variant.specs.Sound.{has_no_zero};
ghost use Rattle.packet_form.specs.Packets.{most_bytes};
ghost use Rattle.packet_form.specs.Written.{arg_bytes};
ghost use Rattle.packet_writer.specs.Spawns.{spawn_head, spawn_whole, FitsSpawnParts};

use crate::length::value_len;
use crate::put::{put_ids, put_path, put_values};
use byte_fields::{put_u8, put_u32};
use gd_variant::Variant;
use std::alloc::AllocError;
use variant_codec::put_small;

/// The parts of a spawn's packet.
#[derive(Drop)]
pub struct SpawnParts<'a> {
    pub scene: u8,
    pub spawner: u32,
    pub net: u32,
    pub syncs: &'a [u32],
    pub name: &'a str,
    pub arg: &'a Option<Variant>,
    pub values: &'a [Variant],
}

/// A spawn up to the end of its name.
#[tactic(auto, using(packet_form::proofs::Lengths::spawn_size))]
fn put_spawn_head(out: &mut Vec<u8>, spawn: &SpawnParts) -> Result<(), AllocError>
    requires zero { has_no_zero spawn.now.name.now ≡ true }
    requires short { length (spawn_head spawn.now) ≤ most_bytes }
    ensures fits { OnOk result (FitsSpawnParts spawn.now) }
    ensures put { OnOk result (out.new.items ≡ out.old.items ++ spawn_head spawn.now) }
{
    put_u8(out, 4)?;
    put_u8(out, spawn.scene)?;
    put_u32(out, spawn.spawner)?;
    put_u32(out, spawn.net)?;
    put_u32(out, spawn.syncs.len() as u32)?;
    put_u32(out, spawn.name.len() as u32 + 1)?;
    put_ids(out, spawn.syncs)?;
    put_path(out, spawn.name)
}

/// A size and the custom argument, if there is one.
fn put_arg(out: &mut Vec<u8>, arg: &Option<Variant>) -> Result<(), AllocError>
    requires { length (arg_bytes arg.now) ≤ most_bytes }
    ensures { OnOk result (out.new.items ≡ out.old.items ++ arg_bytes arg.now) }
{
    match arg {
        None => Ok(()),
        Some(value) => {
            put_u32(out, value_len(value) as u32)?;
            put_small(value, out)
        }
    }
}

/// Puts a spawn at the end.
#[tactic(auto, using(packet_form::proofs::Lengths::spawn_size, packet_form::proofs::Lengths::filled_spawn_size))]
pub fn put_spawn(out: &mut Vec<u8>, spawn: &SpawnParts) -> Result<(), AllocError>
    requires zero { has_no_zero spawn.now.name.now ≡ true }
    requires short { length (spawn_whole spawn.now) ≤ most_bytes }
    ensures fits { OnOk result (FitsSpawnParts spawn.now) }
    ensures put { OnOk result (out.new.items ≡ out.old.items ++ spawn_whole spawn.now) }
{
    put_spawn_head(out, spawn)?;
    put_arg(out, spawn.arg)?;
    put_values(out, spawn.values)
}

/// Puts a despawn at the end.
pub fn put_despawn(out: &mut Vec<u8>, net: u32) -> Result<(), AllocError>
    ensures fits { OnOk result (net < 2 ^ 32) }
    ensures put { OnOk result (out.new.items ≡ out.old.items ++ (word w8 5 ++ word w32 net)) }
{
    put_u8(out, 5)?;
    put_u32(out, net)
}
