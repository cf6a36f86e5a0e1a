//! What its type says of a name.
ghost use Rattle.std.specs.Prelude.{◌≡◌, true};
ghost use Rattle.gd_variant.specs.Sound.{is_text};
ghost use Rattle.world_steps.specs.Sound.{has_text_name};

use gd_variant::Text;
use scene_model::{Op, WorldEvent};

/// A text is UTF-8 without a zero byte, whoever made it.
fn is_whole(text: &Text)
    ensures { is_text text.now ≡ true }
{
    let _text = text.as_str();
}

/// So is the name that an event gives a node.
pub fn names_are_texts(event: &WorldEvent)
    ensures { has_text_name event.now ≡ true }
{
    match event {
        WorldEvent::Op {
            peer: _,
            op: Op::Spawn(op),
        } => is_whole(&op.name),
        WorldEvent::Op {
            peer: _,
            op: Op::Custom(op),
        } => is_whole(&op.name),
        _ => {}
    }
}
