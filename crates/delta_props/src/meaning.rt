//! Where a synchronizer stands that an entry means.

/// Where a synchronizer stands in the scene: the place of its fixed node, or the place of the scene of
/// a spawned one and its own among the synchronizers there.
#[derive(Clone, Copy)]
pub enum SyncAt {
    Fixed(usize),
    Row(u32, usize),
}

/// A synchronizer that an entry means, and the place in the tree of the node that it serves.
#[derive(Clone, Copy)]
pub struct Meant {
    pub at: SyncAt,
    pub place: Option<usize>,
}
