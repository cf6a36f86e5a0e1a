//! What a peer answers.
use crate::event::Class;
use gd_variant::{Bytes, Text, ValueList, Why};
use sqlite_items::Items;

pub type OutList = Items<Out>;

pub type RunList = Items<Run>;

pub type RawList = Items<RawGot>;

pub type SkipList = Items<Skip>;

#[derive(Drop)]
pub enum Outcome {
    Done(Effects),
    Refused(Refusal),
    Fault(Fault),
}

#[derive(Drop)]
pub struct Effects {
    pub packets: OutList,
    pub runs: RunList,
    pub raws: RawList,
    pub skips: SkipList,
}

/// A packet for the peer `to` on the link to the peer `link`. A Sync packet shows its full tick.
#[derive(Drop)]
pub struct Out {
    pub link: i32,
    pub to: i32,
    pub class: Class,
    pub tick: Option<u64>,
    pub bytes: Bytes,
}

/// A remote call that ran here.
#[derive(Drop)]
pub struct Run {
    pub sender: i32,
    pub path: Text,
    pub method: Text,
    pub args: ValueList,
}

#[derive(Drop)]
pub struct RawGot {
    pub sender: i32,
    pub bytes: Bytes,
}

/// An entry of an accepted Sync packet that changed nothing.
#[derive(Drop)]
pub struct Skip {
    pub sender: i32,
    pub id: u32,
    pub why: SkipWhy,
}

#[derive(Clone, Copy, Debug, Drop, PartialEq, Eq)]
pub enum SkipWhy {
    NoSync,
    Stale,
}

/// Why an operation or a link event is refused.
#[derive(Clone, Copy, Debug, Drop, PartialEq, Eq)]
pub enum Refusal {
    NoNode,
    NoSpawner,
    NotAuthority,
    NoScene,
    BadName,
    NameTaken,
    SpawnLimit,
    NodesFull,
    NetIdsFull,
    NoProp,
    ValueTooLong,
    NotSpawned,
    NoSync,
    VisFull,
    NoMethod,
    ArgCount,
    ArgLong,
    NotAllowed,
    SelfCall,
    NoPeer,
    PacketLong,
    TicksFull,
    BadPeer,
    PeersFull,
    /// The operation isn't built yet.
    NotBuilt,
}

/// Why a received packet is a fault.
#[derive(Drop)]
pub enum Fault {
    Malformed { at: u32, why: Why },
    UnknownPeer { peer: i32 },
    AuthOff,
    NotServer,
    BadPeer { peer: i32 },
    GonePeer { peer: i32 },
    NoName { id: u32 },
    NoNode,
    NoMethod,
    ArgCount,
    ArgLong,
    NotAllowed,
    IdRange { id: u32 },
    NameDiffers { kept: Text },
    MethodsDiffer { kept: [u8; 16] },
    Unconfirmed { id: u32 },
    NoSpawner,
    NotAuthority,
    NoScene,
    KnownNet { id: u32 },
    BadName,
    NameTaken,
    NodesFull,
    WrongValues,
    NoNet { net: u32 },
    NoSync { id: u32 },
    BadMask { mask: u64 },
    /// The packet is of a kind that isn't built yet.
    NotBuilt,
}
