//! Properties in a scene line.
ghost use Rattle.serde_json.specs.View.{view};
ghost use Rattle.line_text.specs.Reading.{Gives};
ghost use Rattle.line_text.specs.Scenes.{prop_read};

use crate::lists::FromValue;
use crate::parts::{pair_of, text_of};
use crate::values::value_of;
use program_edge::LineStop;
use scene_model::Prop;
use serde_json::Value;
use std::alloc::Global;

/// A property: its name and its first value.
impl FromValue for Prop {
    ghost reading = { prop_read };

    #[tactic(auto, unfolding(crate::specs::Scenes::prop_read))]
    fn from_value(alloc: Global, value: &Value) -> Result<Prop, LineStop> {
        let (name, value) = pair_of(value)?;
        let name = text_of(alloc, name)?;
        let value = value_of(alloc, value)?;
        Ok(Prop { name, value })
    }
}
