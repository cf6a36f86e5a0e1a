//! Settings of visibility.
use scene_model::PeerList;

/// What is set at a synchronizer: whether it is public (Godot: `public_visibility`), whether one peer
/// sees it (Godot: `set_visibility_for`), or one filter more, as the list of the peers that it lets
/// through (Godot: `add_visibility_filter`).
#[derive(Drop)]
pub enum VisSetting {
    Public(bool),
    For { peer: i32, on: bool },
    Filter(PeerList),
}
