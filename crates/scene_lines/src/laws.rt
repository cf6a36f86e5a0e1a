//! The laws of scene lines.
ghost use Rattle.scene_lines.specs.Laws.{ReadsPrinted, ReadsScenes};

/// Of a line that serde_json reads as what is written of a valid scene, the scene is read. (That its
/// texts are texts, and that numbers and bytes are in their ranges, the scene's types say; that a
/// synchronizer of a scene that can be spawned names no node, the law asks for, as no line names one.)
pub fn written_scenes_are_read()
    ensures { ReadsScenes }
{}

/// The text that is written of a valid scene is read as that scene.
pub fn printed_scenes_are_read()
    ensures { ReadsPrinted }
{}
