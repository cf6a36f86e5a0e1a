//! Where a spawn puts its node.
use gd_variant::Text;

/// Where a spawn puts its node: the parent's path, its own path, the place of its scene, and the
/// first place of that scene in the spawner's list.
#[derive(Drop)]
pub struct Site {
    pub under: Text,
    pub path: Text,
    pub place: Option<u32>,
    pub byte: u8,
}
