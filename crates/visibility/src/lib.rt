//! Who sees a synchronizer (Godot: `MultiplayerSynchronizer`): public or not, single peers, filters;
//! and to which peers each own row is shown.
#![tactic(auto)]

mod rows;
mod setting;
mod sights;
mod vis;

pub use setting::VisSetting;
pub use sights::Sights;
pub use vis::{Vis, VisNo};
