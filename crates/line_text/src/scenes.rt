//! Scene lines.
ghost use Rattle.std.specs.Prelude.{IfOk};
ghost use Rattle.serde_json.specs.View.{view};
ghost use Rattle.scene_model.specs.Valid.{IsValidScene};
ghost use Rattle.line_text.specs.Reading.{Gives};
ghost use Rattle.line_text.specs.Scenes.{def_read, scene_line_read, scene_read, valid_read};

use crate::line::data_of;
use crate::lists::{FromValue, list_of};
use crate::parts::{key_of, object_of, text_of};
use program_edge::{LineStop, LineWhy};
use scene_check::check_judged;
use scene_model::{Scene, SceneDef};
use serde_json::Value;
use std::alloc::Global;

/// A scene that can be spawned.
impl FromValue for SceneDef {
    ghost reading = { def_read };

    #[tactic(auto, unfolding(crate::specs::Scenes::def_read))]
    fn from_value(alloc: Global, value: &Value) -> Result<SceneDef, LineStop> {
        let members = object_of(value, &["name", "props", "methods", "syncs"])?;
        let name = text_of(alloc, key_of(members, "name")?)?;
        let props = list_of(alloc, key_of(members, "props")?)?;
        let methods = list_of(alloc, key_of(members, "methods")?)?;
        let syncs = list_of(alloc, key_of(members, "syncs")?)?;
        Ok(SceneDef {
            name,
            props,
            methods,
            syncs,
        })
    }
}

/// A scene, whether or not it is valid.
#[tactic(auto, unfolding(crate::specs::Scenes::scene_read))]
fn scene_of(alloc: Global, value: &Value) -> Result<Scene, LineStop>
    ensures { Gives (λ s. s) result (scene_read (view value.now)) }
{
    let members = object_of(value, &["nodes", "scenes"])?;
    let nodes = list_of(alloc, key_of(members, "nodes")?)?;
    let scenes = list_of(alloc, key_of(members, "scenes")?)?;
    Ok(Scene { nodes, scenes })
}

/// A scene that is valid.
#[tactic(auto, unfolding(crate::specs::Scenes::valid_read))]
fn valid_scene_of(alloc: Global, value: &Value) -> Result<Scene, LineStop>
    ensures gives { Gives (λ s. s) result (valid_read (view value.now)) }
    ensures valid { IfOk result IsValidScene }
{
    let scene = scene_of(alloc, value)?;
    match check_judged(&scene) {
        Ok(()) => Ok(scene),
        Err(bad) => Err(LineStop::LineBad(LineWhy::Scene(bad))),
    }
}

/// The scene of a line. It is valid. Else the first thing wrong with the line: `Json` where
/// `serde_json` refuses it for another cause than memory; then, from outside in and from left to
/// right, `Shape`, `Name`, `Hex` or `Range`; `Scene`, with its first wrong entry, where it was read
/// whole and isn't valid.
#[tactic(auto, unfolding(crate::specs::Scenes::scene_line_read))]
pub fn read_scene(alloc: Global, line: &[u8]) -> Result<Scene, LineStop>
    ensures gives { Gives (λ s. s) result (scene_line_read line.now) }
    ensures valid { IfOk result IsValidScene }
{
    let value = data_of(alloc, line)?;
    let scene = valid_scene_of(alloc, &value)?;
    Ok(scene)
}
