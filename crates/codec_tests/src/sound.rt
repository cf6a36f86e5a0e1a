//! Which messages may be encoded.
ghost use Rattle.std.specs.Prelude.{◌≡◌, true};
ghost use Rattle.std.specs.List.{AllByRecursion};
ghost use Rattle.packet_form.specs.Written.{AreSound, IsTargetSound, IsArgSound, IsEntrySound, IsDeltaEntrySound, IsPlainSound, IsMessageSound};

use gd_variant::{DeltaEntry, Entry, Message, Plain, Target, Variant, is_sound};

fn are_sound(values: &[Variant]) -> bool
    ensures { result ≡ true → AreSound values.now }
{
    for value in values {
        if !is_sound(value) {
            return false;
        }
    }
    true
}

fn is_target_sound(target: &Target) -> bool
    ensures { result ≡ true → IsTargetSound target.now }
{
    match target {
        Target::Id(id) => *id < 2147483648,
        Target::At(_) => true,
    }
}

fn is_arg_sound(scene: u8, arg: &Option<Variant>) -> bool
    ensures { result ≡ true → IsArgSound scene arg.now }
{
    match arg {
        None => scene != 255,
        Some(value) => scene == 255 && is_sound(value),
    }
}

fn are_entries_sound(entries: &[Entry]) -> bool
    ensures { result ≡ true → AllByRecursion IsEntrySound entries.now }
{
    for entry in entries {
        if !are_sound(entry.values.as_slice()) {
            return false;
        }
    }
    true
}

fn are_delta_entries_sound(entries: &[DeltaEntry]) -> bool
    ensures { result ≡ true → AllByRecursion IsDeltaEntrySound entries.now }
{
    for entry in entries {
        if !are_sound(entry.values.as_slice()) {
            return false;
        }
    }
    true
}

fn is_plain_sound(plain: &Plain) -> bool
    ensures { result ≡ true → IsPlainSound plain.now }
{
    match plain {
        Plain::Call {
            target,
            method: _,
            args,
        } => is_target_sound(target) && args.len() <= 255 && are_sound(args.as_slice()),
        Plain::Simplify {
            digest: _,
            id: _,
            path: _,
        } => true,
        Plain::Confirm { ok: _, id: _ } => true,
        Plain::Raw { bytes: _ } => true,
        Plain::Spawn {
            scene,
            spawner: _,
            net: _,
            syncs: _,
            name: _,
            arg,
            values,
        } => is_arg_sound(*scene, arg) && are_sound(values.as_slice()),
        Plain::Despawn { net: _ } => true,
        Plain::Sync { tick: _, entries } => are_entries_sound(entries.as_slice()),
        Plain::Delta { entries } => are_delta_entries_sound(entries.as_slice()),
    }
}

/// Whether the message may be encoded, where its packet isn't too long.
pub fn is_message_sound(m: &Message) -> bool
    ensures { result ≡ true → IsMessageSound m.now }
{
    match m {
        Message::Plain(plain) => is_plain_sound(plain),
        Message::Auth { peer: _, bytes: _ } => true,
        Message::AddPeer { peer: _ } => true,
        Message::DelPeer { peer: _ } => true,
        Message::Relay { peer: _, inner } => is_plain_sound(inner),
    }
}
