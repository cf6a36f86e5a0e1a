//! The names of what is refused and of faults.
ghost use Rattle.std.specs.Prelude.{◌≡◌, OnOk};
ghost use Rattle.session_text.specs.Tokens.{AddsCells};
ghost use Rattle.session_text.specs.Reasons.{byte_name, class_name as class_name_of, fault_fields as fault_fields_of, fault_name as fault_name_of, refusal_name as refusal_name_of, skip_name as skip_name_of, world_fields as world_fields_of, world_name as world_name_of};

use crate::line::{hexadecimal, int, nat, text};
use gd_variant::{OutOfMemory, Why};
use json::Writer;
use scene_model::{Class, Fault, Refusal, SkipWhy, WorldNo};
use std::alloc::Global;

/// The name of a packet's transfer mode.
pub fn class_name(class: Class) -> &'static str
    ensures { result.now ≡ class_name_of class }
{
    match class {
        Class::Unreliable => "unreliable",
        Class::Ordered => "ordered",
        Class::Reliable => "reliable",
    }
}

/// Why an entry of a packet changed nothing.
pub fn skip_name(why: SkipWhy) -> &'static str
    ensures { result.now ≡ skip_name_of why }
{
    match why {
        SkipWhy::NoSync => "NoSync",
        SkipWhy::Stale => "Stale",
    }
}

/// The name of a refusal of a peer.
pub fn refusal_name(refusal: Refusal) -> &'static str
    ensures { result.now ≡ refusal_name_of refusal }
{
    match refusal {
        Refusal::NoNode => "NoNode",
        Refusal::NoSpawner => "NoSpawner",
        Refusal::NotAuthority => "NotAuthority",
        Refusal::NoScene => "NoScene",
        Refusal::BadName => "BadName",
        Refusal::NameTaken => "NameTaken",
        Refusal::SpawnLimit => "SpawnLimit",
        Refusal::NodesFull => "NodesFull",
        Refusal::NetIdsFull => "NetIdsFull",
        Refusal::NoProp => "NoProp",
        Refusal::ValueTooLong => "ValueTooLong",
        Refusal::NotSpawned => "NotSpawned",
        Refusal::NoSync => "NoSync",
        Refusal::VisFull => "VisFull",
        Refusal::NoMethod => "NoMethod",
        Refusal::ArgCount => "ArgCount",
        Refusal::ArgLong => "ArgLong",
        Refusal::NotAllowed => "NotAllowed",
        Refusal::SelfCall => "SelfCall",
        Refusal::NoPeer => "NoPeer",
        Refusal::PacketLong => "PacketLong",
        Refusal::TicksFull => "TicksFull",
        Refusal::BadPeer => "BadPeer",
        Refusal::PeersFull => "PeersFull",
        Refusal::NotBuilt => "NotBuilt",
    }
}

/// The name of a refusal of the session.
pub fn world_name(no: &WorldNo) -> &'static str
    ensures { result.now ≡ world_name_of no.now }
{
    match no {
        WorldNo::NoPeer => "NoPeer",
        WorldNo::NothingInFlight => "NothingInFlight",
        WorldNo::NoSuchPacket => "NoSuchPacket",
        WorldNo::OutOfOrder => "OutOfOrder",
        WorldNo::Window { .. } => "Window",
        WorldNo::Server => "Server",
        WorldNo::PeersFull => "PeersFull",
        WorldNo::NotLink => "NotLink",
    }
}

/// What stands behind the name of a refusal of the session.
pub fn world_fields(no: &WorldNo, line: &mut Writer) -> Result<(), OutOfMemory>
    ensures { OnOk result (AddsCells line.old line.new (world_fields_of no.now)) }
{
    match no {
        WorldNo::Window { newest, tick } => {
            nat(*newest, line)?;
            nat(*tick, line)
        }
        _ => Ok(()),
    }
}

/// The name of what is wrong with some bytes.
pub fn why_name(why: Why) -> &'static str
    ensures { result.now ≡ byte_name why }
{
    match why {
        Why::Short => "Short",
        Why::HeaderBits => "HeaderBits",
        Why::Kind => "Kind",
        Why::NotCarried => "NotCarried",
        Why::Utf8 => "Utf8",
        Why::Depth => "Depth",
        Why::OldPath => "OldPath",
        Why::PathFlags => "PathFlags",
        Why::RepeatedKey => "RepeatedKey",
        Why::Empty => "Empty",
        Why::Command => "Command",
        Why::Width => "Width",
        Why::PathEnd => "PathEnd",
        Why::Digits => "Digits",
        Why::Count => "Count",
        Why::Size => "Size",
        Why::Trailing => "Trailing",
        Why::Nested => "Nested",
        Why::TooLong => "TooLong",
    }
}

/// The name of a fault of a received packet.
pub fn fault_name(fault: &Fault) -> &'static str
    ensures { result.now ≡ fault_name_of fault.now }
{
    match fault {
        Fault::Malformed { .. } => "Malformed",
        Fault::UnknownPeer { .. } => "UnknownPeer",
        Fault::AuthOff => "AuthOff",
        Fault::NotServer => "NotServer",
        Fault::BadPeer { .. } => "BadPeer",
        Fault::GonePeer { .. } => "GonePeer",
        Fault::NoName { .. } => "NoName",
        Fault::NoNode => "NoNode",
        Fault::NoMethod => "NoMethod",
        Fault::ArgCount => "ArgCount",
        Fault::ArgLong => "ArgLong",
        Fault::NotAllowed => "NotAllowed",
        Fault::IdRange { .. } => "IdRange",
        Fault::NameDiffers { .. } => "NameDiffers",
        Fault::MethodsDiffer { .. } => "MethodsDiffer",
        Fault::Unconfirmed { .. } => "Unconfirmed",
        Fault::NoSpawner => "NoSpawner",
        Fault::NotAuthority => "NotAuthority",
        Fault::NoScene => "NoScene",
        Fault::KnownNet { .. } => "KnownNet",
        Fault::BadName => "BadName",
        Fault::NameTaken => "NameTaken",
        Fault::NodesFull => "NodesFull",
        Fault::WrongValues => "WrongValues",
        Fault::NoNet { .. } => "NoNet",
        Fault::NoSync { .. } => "NoSync",
        Fault::BadMask { .. } => "BadMask",
        Fault::NotBuilt => "NotBuilt",
    }
}

/// What stands behind the name of a fault.
pub fn fault_fields(alloc: Global, fault: &Fault, line: &mut Writer) -> Result<(), OutOfMemory>
    ensures { OnOk result (AddsCells line.old line.new (fault_fields_of fault.now)) }
{
    match fault {
        Fault::Malformed { at, why } => {
            nat(*at as u64, line)?;
            text(why_name(*why), line)
        }
        Fault::UnknownPeer { peer } => int(*peer as i64, line),
        Fault::BadPeer { peer } => int(*peer as i64, line),
        Fault::GonePeer { peer } => int(*peer as i64, line),
        Fault::NoName { id } => nat(*id as u64, line),
        Fault::IdRange { id } => nat(*id as u64, line),
        Fault::NameDiffers { kept } => text(kept.as_str(), line),
        Fault::MethodsDiffer { kept } => hexadecimal(alloc, kept.as_slice(), line),
        Fault::Unconfirmed { id } => nat(*id as u64, line),
        Fault::KnownNet { id } => nat(*id as u64, line),
        Fault::NoNet { net } => nat(*net as u64, line),
        Fault::NoSync { id } => nat(*id as u64, line),
        Fault::BadMask { mask } => nat(*mask, line),
        _ => Ok(()),
    }
}
