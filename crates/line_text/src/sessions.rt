//! The lines of a session.
ghost use Rattle.std.specs.Prelude.{◌≡◌, IfOk};
ghost use Rattle.serde_json.specs.View.{view, items_view};
ghost use Rattle.gd_variant.specs.Words.{has_text};
ghost use Rattle.line_text.specs.Reading.{Gives};
ghost use Rattle.line_text.specs.Held.{IsGivenLine};
ghost use Rattle.line_text.specs.WrittenLines.{ReadsSessions};
ghost use Rattle.line_text.specs.Sessions.{at_peer_read, connect_read, down_read, later_lines, line_by, line_read, rel_read, report_read, session_line_read};

use crate::line::data_of;
use crate::operations::{op_of, worded_of};
use crate::parts::{none_of, one_of, two_of};
use crate::peers::peer_of;
use program_edge::{LineStop, LineWhy};
use scene_model::WorldEvent;
use serde_json::Value;
use std::alloc::Global;

/// What a line of a session asks for.
#[derive(Drop)]
pub enum SessionLine {
    /// An event of the session.
    Event(WorldEvent),
    /// The report of a peer.
    Report(i32),
}

#[tactic(auto, unfolding(crate::specs::Sessions::connect_read))]
fn connect_of(items: &[Value]) -> Result<SessionLine, LineStop>
    ensures gives { Gives (λ x. x) result (connect_read (items_view items.now)) }
    ensures given { IfOk result IsGivenLine }
{
    none_of(items)?;
    Ok(SessionLine::Event(WorldEvent::Connect))
}

#[tactic(auto, unfolding(crate::specs::Sessions::down_read))]
fn down_of(items: &[Value]) -> Result<SessionLine, LineStop>
    ensures gives { Gives (λ x. x) result (down_read (items_view items.now)) }
    ensures given { IfOk result IsGivenLine }
{
    let peer = peer_of(one_of(items)?)?;
    Ok(SessionLine::Event(WorldEvent::Down(peer)))
}

#[tactic(auto, unfolding(crate::specs::Sessions::at_peer_read))]
fn at_peer_of(alloc: Global, items: &[Value]) -> Result<SessionLine, LineStop>
    ensures gives { Gives (λ x. x) result (at_peer_read (items_view items.now)) }
    ensures given { IfOk result IsGivenLine }
{
    let (peer, op) = two_of(items)?;
    let peer = peer_of(peer)?;
    let op = op_of(alloc, op)?;
    Ok(SessionLine::Event(WorldEvent::Op { peer, op }))
}

#[tactic(auto, unfolding(crate::specs::Sessions::rel_read))]
fn rel_of(items: &[Value]) -> Result<SessionLine, LineStop>
    ensures gives { Gives (λ x. x) result (rel_read (items_view items.now)) }
    ensures given { IfOk result IsGivenLine }
{
    let (from, to) = two_of(items)?;
    let from = peer_of(from)?;
    let to = peer_of(to)?;
    Ok(SessionLine::Event(WorldEvent::Rel { from, to }))
}

#[tactic(auto, unfolding(crate::specs::Sessions::report_read))]
fn report_of(items: &[Value]) -> Result<SessionLine, LineStop>
    ensures gives { Gives (λ x. x) result (report_read (items_view items.now)) }
    ensures given { IfOk result IsGivenLine }
{
    let peer = peer_of(one_of(items)?)?;
    Ok(SessionLine::Report(peer))
}

/// Whether a line of this word isn't built yet.
fn is_later_line(word: &str) -> bool
    ensures { result ≡ has_text word.now later_lines }
{
    word == "loose" || word == "forge"
}

/// A line by its word, of what stands behind the word.
#[tactic(auto, unfolding(crate::specs::Sessions::line_by))]
fn line_by(alloc: Global, word: &str, items: &[Value]) -> Result<SessionLine, LineStop>
    ensures gives { Gives (λ x. x) result (line_by word.now (items_view items.now)) }
    ensures given { IfOk result IsGivenLine }
{
    match word {
        "connect" => connect_of(items),
        "down" => down_of(items),
        "op" => at_peer_of(alloc, items),
        "rel" => rel_of(items),
        "report" => report_of(items),
        _ if is_later_line(word) => Err(LineStop::LineBad(LineWhy::NotBuilt)),
        _ => Err(LineStop::LineBad(LineWhy::Name)),
    }
}

#[tactic(auto, unfolding(crate::specs::Sessions::line_read))]
fn line_of(alloc: Global, value: &Value) -> Result<SessionLine, LineStop>
    ensures gives { Gives (λ x. x) result (line_read (view value.now)) }
    ensures given { IfOk result IsGivenLine }
{
    let (word, items) = worded_of(value)?;
    line_by(alloc, word, items)
}

/// What a line of a session asks for: `["connect"]`, `["down",p]`, `["op",p,OP]`, `["rel",a,b]` or
/// `["report",p]`, where each of p, a and b is the number of a peer, and OP is one of
/// `["spawn",spawner,scene,name,[[property,value]]]`, `["custom",spawner,name,value]`, `["despawn",path]`,
/// `["set",path,property,value]`, `["public",[path,k],on]`, `["for",[path,k],p,on]`,
/// `["filter",[path,k],[p]]` and `["frame"]`; `[path,k]` is the synchronizer at place k of the node at the path, from 0.
///
/// `LineBad` has the first thing wrong. The word of a line or of an operation is judged before the length,
/// so `NotBuilt` comes at a word that isn't read yet, whatever stands behind it.
#[tactic(auto, unfolding(crate::specs::Sessions::session_line_read))]
pub fn read_event(alloc: Global, line: &[u8]) -> Result<SessionLine, LineStop>
    ensures exact { Gives (λ x. x) result (session_line_read line.now) }
    ensures given { IfOk result IsGivenLine }
{
    let value = data_of(alloc, line)?;
    line_of(alloc, &value)
}

/// What is written of a line of a session is read as that line. (That a byte is below 256, which the law
/// asks for, the value's type says.)
pub fn written_lines_are_read()
    ensures { ReadsSessions }
{}
