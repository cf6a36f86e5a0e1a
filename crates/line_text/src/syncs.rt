//! Synchronizers in a scene line.
ghost use Rattle.std.specs.Prelude.{[], true, codes};
ghost use Rattle.serde_json.specs.View.{view, members_view};
ghost use Rattle.line_text.specs.Reading.{Gives};
ghost use Rattle.line_text.specs.Parts.{bool_read, or_default};
ghost use Rattle.line_text.specs.Scenes.{node_sync_read, scene_sync_read, sync_of, sync_prop_read};

use crate::lists::{FromValue, list_of};
use crate::parts::{bool_of, key_of, member, object_of, text_of, triple_of};
use crate::words::repl_of;
use gd_variant::Text;
use program_edge::LineStop;
use scene_model::{SyncDef, SyncProp};
use serde_json::{Map, Value};
use std::alloc::Global;

/// A property of a synchronizer: its name, when it is told, and whether a spawn tells it.
impl FromValue for SyncProp {
    ghost reading = { sync_prop_read };

    #[tactic(auto, unfolding(crate::specs::Scenes::sync_prop_read))]
    fn from_value(alloc: Global, value: &Value) -> Result<SyncProp, LineStop> {
        let (prop, mode, spawn) = triple_of(value)?;
        let prop = text_of(alloc, prop)?;
        let mode = repl_of(mode)?;
        let spawn = bool_of(spawn)?;
        Ok(SyncProp { prop, mode, spawn })
    }
}

/// Whether a synchronizer is public, which it is where the key is missing.
#[tactic(auto, unfolding(crate::specs::Parts::optional))]
fn public_of(members: &Map<String, Value>) -> Result<bool, LineStop>
    ensures { Gives (λ b. b) result (or_default true bool_read (codes "public") (members_view members.now.entries)) }
{
    match member(members, "public") {
        Some(value) => bool_of(value),
        None => Ok(true),
    }
}

/// A synchronizer of a node or, with an empty text, of a scene.
#[tactic(auto, unfolding(crate::specs::Scenes::sync_of))]
fn sync_from(alloc: Global, of: Text, members: &Map<String, Value>) -> Result<SyncDef, LineStop>
    ensures { Gives (λ s. s) result (sync_of of (members_view members.now.entries)) }
{
    let public = public_of(members)?;
    let props = list_of(alloc, key_of(members, "props")?)?;
    Ok(SyncDef { of, public, props })
}

/// A fixed synchronizer, which names the node that it is of.
#[tactic(auto, unfolding(crate::specs::Scenes::node_sync_read))]
pub fn node_sync_of(alloc: Global, value: &Value) -> Result<SyncDef, LineStop>
    ensures { Gives (λ s. s) result (node_sync_read (view value.now)) }
{
    let members = object_of(value, &["of", "public", "props"])?;
    let target = text_of(alloc, key_of(members, "of")?)?;
    sync_from(alloc, target, members)
}

/// A synchronizer of a spawned node.
impl FromValue for SyncDef {
    ghost reading = { scene_sync_read };

    #[tactic(auto, unfolding(crate::specs::Scenes::scene_sync_read))]
    fn from_value(alloc: Global, value: &Value) -> Result<SyncDef, LineStop> {
        let members = object_of(value, &["public", "props"])?;
        let target = Text::from_str(alloc, "")?;
        sync_from(alloc, target, members)
    }
}
