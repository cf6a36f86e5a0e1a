//! The scene of a journal.
ghost use Rattle.scene_model.specs.Valid.{IsValidScene};
ghost use Rattle.line_text.specs.Reading.{Gives};
ghost use Rattle.line_text.specs.Scenes.{scene_line_read};

use line_text::{LineStop, read_scene};
use scene_model::Scene;
use std::alloc::Global;

/// A scene that was read.
#[derive(Drop)]
pub struct ReadScene {
    pub scene: Scene,
    ghost valid: { IsValidScene scene },
}

/// The scene of the first line.
pub fn scene_of(alloc: Global, line: &[u8]) -> Result<ReadScene, LineStop>
    ensures { Gives (λ read. read.scene) result (scene_line_read line.now) }
{
    let scene = read_scene(alloc, line)?;
    Ok(ReadScene { scene })
}
