//! What happens to a whole session, and what it answers.
use crate::event::{Class, Op};
use crate::outcome::{Effects, Fault, Refusal};
use gd_variant::Bytes;
use sqlite_items::Items;

pub type StepList = Items<PeerStep>;

/// One event of a session. `Rel` delivers the oldest reliable packet of a link, and `Loose` any
/// other packet by its place from 1 among all that were ever sent there.
#[derive(Drop)]
pub enum WorldEvent {
    Connect,
    Down(i32),
    Op {
        peer: i32,
        op: Op,
    },
    Rel {
        from: i32,
        to: i32,
    },
    Loose {
        from: i32,
        to: i32,
        index: u32,
    },
    Forge {
        peer: i32,
        class: Class,
        bytes: Bytes,
    },
}

/// What one peer did in an event.
#[derive(Drop)]
pub struct PeerStep {
    pub peer: i32,
    pub effects: Effects,
}

/// The answer to one event. `made` is the number of a client that has connected.
#[derive(Drop)]
pub enum WorldOutcome {
    Done { made: Option<i32>, steps: StepList },
    Refused(WorldNo),
    OpRefused(Refusal),
    Fault { peer: i32, fault: Fault },
}

/// Why a session refuses an event.
#[derive(Clone, Copy, Debug, Drop, PartialEq, Eq)]
pub enum WorldNo {
    /// A peer that the event names isn't up.
    NoPeer,
    /// No reliable packet waits on that link.
    NothingInFlight,
    /// The index is 0 or above the number of loose packets sent on that link.
    NoSuchPacket,
    /// The packet is ordered, and one as new was delivered there.
    OutOfOrder,
    /// A sync is too far from the newest tick that the receiver has from its origin.
    Window { newest: u64, tick: u64 },
    /// The event names the server, to which it can't happen.
    Server,
    /// As many clients are up as may be.
    PeersFull,
    /// Neither end of the link is the server, or both ends are the same.
    NotLink,
}
