//! From a message to its packet.
ghost use Rattle.std.specs.Prelude.{◌≡◌, ◌≤◌, ◌++◌, ◌<◌, [], length, IfOk, OnOk};
ghost use Rattle.std.specs.Int.{w8};
ghost use Rattle.byte_fields.specs.Fields.{word};
ghost use Rattle.byte_fields.specs.Complement.{IsWithin, half32};
ghost use Rattle.packet_form.specs.Packets.{most_bytes, Frames, IsEncodable, IsWritable};
ghost use Rattle.packet_form.specs.Written.{written_plain, system_bytes, written_packet, IsPlainSound, FitsPlain};

use crate::put::put_peer;
use crate::write_call::put_call;
use crate::write_names::{put_confirm, put_simplify};
use crate::write_samples::{put_delta, put_sync};
use crate::write_spawn::{SpawnParts, put_despawn, put_spawn};
use byte_fields::{put_bytes, put_u8};
use gd_variant::{Bytes, Message, OutOfMemory, Plain};
use std::alloc::{AllocError, Global};

fn put_raw(out: &mut Vec<u8>, bytes: &[u8]) -> Result<(), AllocError>
    ensures { OnOk result (out.new.items ≡ out.old.items ++ (word w8 3 ++ bytes.now)) }
{
    put_u8(out, 3)?;
    put_bytes(out, bytes)
}

fn put_plain(out: &mut Vec<u8>, plain: &Plain) -> Result<(), AllocError>
    requires sound { IsPlainSound plain.now }
    requires short { length (written_plain plain.now) ≤ most_bytes }
    ensures fits { OnOk result (FitsPlain plain.now) }
    ensures put { OnOk result (out.new.items ≡ out.old.items ++ written_plain plain.now) }
{
    match plain {
        Plain::Call {
            target,
            method,
            args,
        } => put_call(out, target, *method, args.as_slice()),
        Plain::Simplify { digest, id, path } => put_simplify(out, digest, *id, path.as_str()),
        Plain::Confirm { ok, id } => put_confirm(out, *ok, *id),
        Plain::Raw { bytes } => put_raw(out, bytes.as_slice()),
        Plain::Spawn {
            scene,
            spawner,
            net,
            syncs,
            name,
            arg,
            values,
        } => put_spawn(
            out,
            &SpawnParts {
                scene: *scene,
                spawner: *spawner,
                net: *net,
                syncs: syncs.as_slice(),
                name: name.as_str(),
                arg,
                values: values.as_slice(),
            },
        ),
        Plain::Despawn { net } => put_despawn(out, *net),
        Plain::Sync { tick, entries } => put_sync(out, *tick, entries.as_slice()),
        Plain::Delta { entries } => put_delta(out, entries.as_slice()),
    }
}

/// A system packet up to its payload.
fn put_system(out: &mut Vec<u8>, sub: u8, peer: &i32) -> Result<(), AllocError>
    ensures fits { OnOk result (IsWithin half32 peer.now) }
    ensures put { OnOk result (out.new.items ≡ out.old.items ++ system_bytes sub peer.now []) }
{
    put_u8(out, 7)?;
    put_u8(out, sub)?;
    put_peer(out, peer)
}

#[tactic(auto, using(packet_form::proofs::Lengths::system_size))]
fn put_message(out: &mut Vec<u8>, m: &Message) -> Result<(), AllocError>
    requires { IsEncodable m.now }
    ensures writable { OnOk result (IsWritable m.now) }
    ensures put { OnOk result (out.new.items ≡ out.old.items ++ written_packet m.now) }
{
    match m {
        Message::Plain(plain) => put_plain(out, plain),
        Message::Auth { peer, bytes } => {
            put_system(out, 0, peer)?;
            put_bytes(out, bytes.as_slice())
        }
        Message::AddPeer { peer } => put_system(out, 1, peer),
        Message::DelPeer { peer } => put_system(out, 2, peer),
        Message::Relay { peer, inner } => {
            put_system(out, 3, peer)?;
            put_plain(out, inner)
        }
    }
}

/// The packet of a message.
pub fn encode_packet(alloc: Global, m: &Message) -> Result<Bytes, OutOfMemory>
    requires { IsEncodable m.now }
    ensures written { IfOk result (λ b. b ≡ written_packet m.now) }
    ensures frames { IfOk result (λ b. Frames m.now b) }
    // so that packet is read again
    ensures writable { OnOk result (IsWritable m.now) }
{
    let mut out = Vec::new(alloc);
    put_message(&mut out, m)?;
    Ok(Bytes::from_vec(out))
}
