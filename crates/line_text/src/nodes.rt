//! Fixed nodes in a scene line.
ghost use Rattle.std.specs.Prelude.{None, codes, pos, IfOk, ◌≤◌};
ghost use Rattle.std.specs.Int.{w32};
ghost use Rattle.std.specs.Int.RustNames.{FitsSigned};
ghost use Rattle.serde_json.specs.View.{view, members_view};
ghost use Rattle.line_text.specs.Reading.{Gives};
ghost use Rattle.line_text.specs.Parts.{nat_read, or_default, i32_read};
ghost use Rattle.line_text.specs.Scenes.{custom_read, node_read, role_read, spawner_read};

use crate::lists::{FromValue, list_of, optional_list_of};
use crate::parts::{i32_of, key_of, member, nat_of, object_of, pair_of, text_of};
use crate::syncs::node_sync_of;
use program_edge::{LineStop, LineWhy};
use scene_model::{CustomDef, Node, Role, SpawnerDef};
use serde_json::{Map, Value};
use std::alloc::Global;

/// What a custom spawn makes: a node of a scene, whose property takes the argument.
#[tactic(auto, unfolding(crate::specs::Scenes::custom_read))]
fn custom_of(alloc: Global, value: &Value) -> Result<Option<CustomDef>, LineStop>
    ensures { Gives (λ c. c) result (custom_read (view value.now)) }
{
    let (scene, prop) = pair_of(value)?;
    let scene = text_of(alloc, scene)?;
    let prop = text_of(alloc, prop)?;
    Ok(Some(CustomDef { scene, prop }))
}

/// What a custom spawn makes, nothing where the key is missing.
#[tactic(auto, unfolding(crate::specs::Parts::optional))]
fn spawner_custom_of(
    alloc: Global,
    members: &Map<String, Value>,
) -> Result<Option<CustomDef>, LineStop>
    ensures { Gives (λ c. c) result (or_default None custom_read (codes "custom") (members_view members.now.entries)) }
{
    match member(members, "custom") {
        Some(value) => custom_of(alloc, value),
        None => Ok(None),
    }
}

/// How many nodes of a spawner may live at once; 0, the default, is no limit.
#[tactic(auto, unfolding(crate::specs::Parts::optional))]
fn limit_of(members: &Map<String, Value>) -> Result<u32, LineStop>
    ensures { Gives (λ n. n) result (or_default 0 (nat_read 0 4294967295) (codes "limit") (members_view members.now.entries)) }
{
    match member(members, "limit") {
        Some(value) => {
            let limit = nat_of(0, 4294967295, value)?;
            Ok(limit as u32)
        }
        None => Ok(0),
    }
}

#[tactic(auto, unfolding(crate::specs::Scenes::spawner_read))]
fn spawner_of(alloc: Global, value: &Value) -> Result<SpawnerDef, LineStop>
    ensures { Gives (λ s. s) result (spawner_read (view value.now)) }
{
    let members = object_of(value, &["under", "scenes", "limit", "custom"])?;
    let under = text_of(alloc, key_of(members, "under")?)?;
    let scenes = list_of(alloc, key_of(members, "scenes")?)?;
    let limit = limit_of(members)?;
    let custom = spawner_custom_of(alloc, members)?;
    Ok(SpawnerDef {
        under,
        scenes,
        limit,
        custom,
    })
}

/// What a node is: it has `spawner` or `sync`, or neither.
#[tactic(auto, unfolding(crate::specs::Scenes::role_read, crate::specs::Scenes::role_by))]
fn role_of(alloc: Global, members: &Map<String, Value>) -> Result<Role, LineStop>
    ensures { Gives (λ r. r) result (role_read (members_view members.now.entries)) }
{
    let spawner = member(members, "spawner");
    let sync = member(members, "sync");
    match (spawner, sync) {
        (None, None) => Ok(Role::Plain),
        (Some(value), None) => Ok(Role::Spawner(spawner_of(alloc, value)?)),
        (None, Some(value)) => Ok(Role::Sync(node_sync_of(alloc, value)?)),
        (Some(_), Some(_)) => Err(LineStop::LineBad(LineWhy::Shape)),
    }
}

/// The authority of a node, the server where the key is missing.
#[tactic(auto, unfolding(crate::specs::Parts::optional))]
fn auth_of(members: &Map<String, Value>) -> Result<i32, LineStop>
    ensures gives { Gives (λ z. z) result (or_default (pos 1) i32_read (codes "auth") (members_view members.now.entries)) }
    ensures fits { IfOk result (λ z. FitsSigned w32 z) }
{
    match member(members, "auth") {
        Some(value) => i32_of(value),
        None => Ok(1),
    }
}

impl FromValue for Node {
    ghost reading = { node_read };

    #[tactic(auto, unfolding(crate::specs::Scenes::node_read))]
    fn from_value(alloc: Global, value: &Value) -> Result<Node, LineStop> {
        let members = object_of(
            value,
            &["path", "auth", "props", "methods", "spawner", "sync"],
        )?;
        let path = text_of(alloc, key_of(members, "path")?)?;
        let auth = auth_of(members)?;
        let props = optional_list_of(alloc, members, "props")?;
        let methods = optional_list_of(alloc, members, "methods")?;
        let role = role_of(alloc, members)?;
        Ok(Node {
            path,
            auth,
            props,
            methods,
            role,
        })
    }
}
