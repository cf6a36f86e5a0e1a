//! Packets as plain data, and why bytes are refused.
use crate::text::{Bytes, Text};
use crate::value::{ValueList, Variant};
use sqlite_items::Items;

pub type IdList = Items<u32>;

pub type EntryList = Items<Entry>;

pub type DeltaList = Items<DeltaEntry>;

/// What a Sync packet says of one synchronizer: the values of its always properties.
#[derive(Drop)]
pub struct Entry {
    pub id: u32,
    pub values: ValueList,
}

/// What a Delta packet says of one synchronizer: the values of its on-change properties in the mask.
#[derive(Drop)]
pub struct DeltaEntry {
    pub id: u32,
    pub mask: u64,
    pub values: ValueList,
}

/// The node of a call: by number, or by its path.
#[derive(Drop)]
pub enum Target {
    Id(u32),
    At(Text),
}

/// A packet that one peer means for another.
#[derive(Drop)]
pub enum Plain {
    Call {
        target: Target,
        method: u16,
        args: ValueList,
    },
    Simplify {
        digest: [u8; 16],
        id: u32,
        path: Text,
    },
    Confirm {
        ok: bool,
        id: u32,
    },
    Raw {
        bytes: Bytes,
    },
    Spawn {
        scene: u8,
        spawner: u32,
        net: u32,
        syncs: IdList,
        name: Text,
        arg: Option<Variant>,
        values: ValueList,
    },
    Despawn {
        net: u32,
    },
    Sync {
        tick: u16,
        entries: EntryList,
    },
    Delta {
        entries: DeltaList,
    },
}

/// A packet of a link.
#[derive(Drop)]
pub enum Message {
    Plain(Plain),
    Auth { peer: i32, bytes: Bytes },
    AddPeer { peer: i32 },
    DelPeer { peer: i32 },
    Relay { peer: i32, inner: Plain },
}

/// Why bytes are no value or no packet.
#[derive(Clone, Copy, Debug, Drop, PartialEq, Eq)]
pub enum Why {
    Short,
    HeaderBits,
    Kind,
    NotCarried,
    Utf8,
    Depth,
    OldPath,
    PathFlags,
    RepeatedKey,
    Empty,
    Command,
    Width,
    PathEnd,
    Digits,
    Count,
    Size,
    Trailing,
    Nested,
    TooLong,
}

/// The first wrong field of some bytes: where it begins, counted from the start of the input, and why
/// it is wrong.
#[derive(Clone, Copy, Debug, Drop, PartialEq, Eq)]
pub struct Bad {
    pub at: u32,
    pub why: Why,
}
