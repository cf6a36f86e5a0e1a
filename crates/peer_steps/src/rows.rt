//! The rows of a peer: the nodes that it spawned.
use gd_variant::{IdList, Text, Variant};

/// A node that this peer spawned. `place` is its scene's among the scenes, `byte` the first place of
/// that scene in the spawner's list, or 255 where it was spawned with an argument.
#[derive(Drop)]
pub struct SpawnedRow {
    pub num: u32,
    pub ids: IdList,
    pub path: Text,
    pub place: u32,
    pub spawner: Text,
    pub byte: u8,
    pub name: Text,
    pub arg: Option<Variant>,
}
