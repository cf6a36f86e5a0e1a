//! A node as it stands, and why a tree refuses a call.
use crate::values::Values;
use gd_variant::{IdList, Text};

/// A node as it stands. A fixed node has the number 0, no ids and no scene; a spawned one has its
/// synchronizers' ids in order, and the place of its scene.
#[derive(Drop)]
pub struct NodeNow {
    pub path: Text,
    pub auth: i32,
    pub num: u32,
    pub ids: IdList,
    pub scene: Option<u32>,
    pub values: Values,
}

/// Why a tree refuses a call.
#[derive(Clone, Copy, Debug, Drop, PartialEq, Eq)]
pub enum TreeNo {
    NoNode,
    NameTaken,
    NoProp,
    ValueTooLong,
    OutOfMemory,
}
