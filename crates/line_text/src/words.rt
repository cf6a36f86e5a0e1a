//! Known words in lines.
ghost use Rattle.serde_json.specs.View.{view};
ghost use Rattle.line_text.specs.Reading.{Gives};
ghost use Rattle.line_text.specs.Words.{class_read, repl_read, rpc_read};

use crate::parts::word_of;
use program_edge::{LineStop, LineWhy};
use scene_model::{Class, ReplMode, RpcMode};
use serde_json::Value;

/// How a message travels.
#[tactic(auto, unfolding(crate::specs::Words::class_read))]
pub fn class_of(value: &Value) -> Result<Class, LineStop>
    ensures { Gives (λ c. c) result (class_read (view value.now)) }
{
    match word_of(value)? {
        "unreliable" => Ok(Class::Unreliable),
        "ordered" => Ok(Class::Ordered),
        "reliable" => Ok(Class::Reliable),
        _ => Err(LineStop::LineBad(LineWhy::Name)),
    }
}

/// When a synchronizer tells a property.
#[tactic(auto, unfolding(crate::specs::Words::repl_read))]
pub fn repl_of(value: &Value) -> Result<ReplMode, LineStop>
    ensures { Gives (λ m. m) result (repl_read (view value.now)) }
{
    match word_of(value)? {
        "never" => Ok(ReplMode::Never),
        "always" => Ok(ReplMode::Always),
        "change" => Ok(ReplMode::OnChange),
        _ => Err(LineStop::LineBad(LineWhy::Name)),
    }
}

/// Who may call a method.
#[tactic(auto, unfolding(crate::specs::Words::rpc_read))]
pub fn rpc_of(value: &Value) -> Result<RpcMode, LineStop>
    ensures { Gives (λ m. m) result (rpc_read (view value.now)) }
{
    match word_of(value)? {
        "disabled" => Ok(RpcMode::Disabled),
        "any" => Ok(RpcMode::AnyPeer),
        "authority" => Ok(RpcMode::Authority),
        _ => Err(LineStop::LineBad(LineWhy::Name)),
    }
}
