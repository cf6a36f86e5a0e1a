//! Methods in a scene line.
ghost use Rattle.std.specs.Prelude.{None, codes};
ghost use Rattle.serde_json.specs.View.{view, members_view};
ghost use Rattle.line_text.specs.Reading.{Gives};
ghost use Rattle.line_text.specs.Parts.{or_default};
ghost use Rattle.line_text.specs.Scenes.{method_read, sets_read};

use crate::lists::FromValue;
use crate::parts::{bool_of, key_of, member, nat_of, object_of, pair_of, text_of};
use crate::words::{class_of, rpc_of};
use program_edge::LineStop;
use scene_model::{Method, Sets};
use serde_json::{Map, Value};
use std::alloc::Global;

/// What a method sets: a property, and the number of the argument that it takes.
#[tactic(auto, unfolding(crate::specs::Scenes::sets_read))]
fn sets_of(alloc: Global, value: &Value) -> Result<Option<Sets>, LineStop>
    ensures { Gives (λ s. s) result (sets_read (view value.now)) }
{
    let (prop, arg) = pair_of(value)?;
    let prop = text_of(alloc, prop)?;
    let arg = nat_of(0, 255, arg)?;
    Ok(Some(Sets {
        prop,
        arg: arg as u8,
    }))
}

/// What a method sets, nothing where the key is missing.
#[tactic(auto, unfolding(crate::specs::Parts::optional))]
fn method_sets_of(alloc: Global, members: &Map<String, Value>) -> Result<Option<Sets>, LineStop>
    ensures { Gives (λ s. s) result (or_default None sets_read (codes "sets") (members_view members.now.entries)) }
{
    match member(members, "sets") {
        Some(value) => sets_of(alloc, value),
        None => Ok(None),
    }
}

impl FromValue for Method {
    ghost reading = { method_read };

    #[tactic(auto, unfolding(crate::specs::Scenes::method_read))]
    fn from_value(alloc: Global, value: &Value) -> Result<Method, LineStop> {
        let members = object_of(value, &["name", "mode", "local", "class", "args", "sets"])?;
        let name = text_of(alloc, key_of(members, "name")?)?;
        let mode = rpc_of(key_of(members, "mode")?)?;
        let local = bool_of(key_of(members, "local")?)?;
        let class = class_of(key_of(members, "class")?)?;
        let args = nat_of(0, 255, key_of(members, "args")?)?;
        let sets = method_sets_of(alloc, members)?;
        Ok(Method {
            name,
            mode,
            local,
            class,
            args: args as u8,
            sets,
        })
    }
}
