//! The first byte of a packet: the command in bits 0 to 2, and flags in bits 4 to 7.

/// How many bytes the node id of a call has.
#[derive(Clone, Copy, Drop)]
pub enum NodeWidth {
    One,
    Two,
    Four,
}

/// The flags of a call.
#[derive(Clone, Copy, Drop)]
pub struct CallHead {
    pub node: NodeWidth,
    /// The method id has two bytes and not one.
    pub wide_method: bool,
    /// The arguments are raw bytes.
    pub raw: bool,
}

/// The command of a packet, with its flags.
#[derive(Clone, Copy, Drop)]
pub enum Head {
    Call(CallHead),
    Simplify,
    Confirm,
    Raw,
    Spawn,
    Despawn,
    Sync,
    Delta,
    System,
}
