//! What a line of a journal says.
use gd_variant::Bytes;
use scene_model::{Class, Op};

/// What a line of a journal says. Its peer stands in front, and then what happened to that peer, in
/// order.
#[derive(Drop)]
pub enum JournalLine {
    /// The number of the peer whose journal it is.
    Peer(i32),
    /// A peer came up.
    Up(i32),
    /// A peer went down.
    Down(i32),
    /// What a user asked of the peer.
    Op(Op),
    /// A packet came on the link from a peer.
    Got {
        from: i32,
        class: Class,
        bytes: Bytes,
    },
    /// So many of the packets that waited for the link to a peer were taken out. Nothing happened to
    /// the peer itself.
    Took {
        peer: i32,
        count: u64,
    },
    /// The journal ends.
    End,
}
