//! A line of a journal is read.
ghost use Rattle.std.specs.Prelude.{◌≡◌, IfOk, true};
ghost use Rattle.serde_json.specs.View.{view, items_view};
ghost use Rattle.line_text.specs.Held.{is_peer};
ghost use Rattle.line_text.specs.Reading.{Gives};
ghost use Rattle.journal_text.specs.Held.{IsGivenEntry};
ghost use Rattle.journal_text.specs.Reading.{down_read, end_read, entry_by as entry_by_of, entry_read, got_read, journal_line_read, named_read, only_peer_read, operation_read, took_read, up_read};

use crate::lines::JournalLine;
use line_text::{
    LineStop, bytes_of, class_of, data_of, nat_of, none_of, one_of, op_of, peer_of, three_of,
    two_of, worded_of,
};
use program_edge::LineWhy;
use serde_json::Value;
use std::alloc::Global;

/// The number of a peer, and nothing else.
#[tactic(auto, unfolding(crate::specs::Reading::only_peer_read))]
fn only_peer_of(items: &[Value]) -> Result<i32, LineStop>
    ensures gives { Gives (λ p. p) result (only_peer_read (items_view items.now)) }
    ensures peer { IfOk result (λ p. is_peer p ≡ true) }
{
    let peer = peer_of(one_of(items)?)?;
    Ok(peer)
}

#[tactic(auto, unfolding(crate::specs::Reading::named_read))]
fn named_of(items: &[Value]) -> Result<JournalLine, LineStop>
    ensures gives { Gives (λ x. x) result (named_read (items_view items.now)) }
    ensures given { IfOk result IsGivenEntry }
{
    let peer = only_peer_of(items)?;
    Ok(JournalLine::Peer(peer))
}

#[tactic(auto, unfolding(crate::specs::Reading::up_read))]
fn up_of(items: &[Value]) -> Result<JournalLine, LineStop>
    ensures gives { Gives (λ x. x) result (up_read (items_view items.now)) }
    ensures given { IfOk result IsGivenEntry }
{
    let peer = only_peer_of(items)?;
    Ok(JournalLine::Up(peer))
}

#[tactic(auto, unfolding(crate::specs::Reading::down_read))]
fn down_of(items: &[Value]) -> Result<JournalLine, LineStop>
    ensures gives { Gives (λ x. x) result (down_read (items_view items.now)) }
    ensures given { IfOk result IsGivenEntry }
{
    let peer = only_peer_of(items)?;
    Ok(JournalLine::Down(peer))
}

#[tactic(auto, unfolding(crate::specs::Reading::operation_read))]
fn operation_of(alloc: Global, items: &[Value]) -> Result<JournalLine, LineStop>
    ensures gives { Gives (λ x. x) result (operation_read (items_view items.now)) }
    ensures given { IfOk result IsGivenEntry }
{
    let op = op_of(alloc, one_of(items)?)?;
    Ok(JournalLine::Op(op))
}

#[tactic(auto, unfolding(crate::specs::Reading::got_read))]
fn got_of(alloc: Global, items: &[Value]) -> Result<JournalLine, LineStop>
    ensures gives { Gives (λ x. x) result (got_read (items_view items.now)) }
    ensures given { IfOk result IsGivenEntry }
{
    let (from, class, bytes) = three_of(items)?;
    let from = peer_of(from)?;
    let class = class_of(class)?;
    let bytes = bytes_of(alloc, bytes)?;
    Ok(JournalLine::Got { from, class, bytes })
}

#[tactic(auto, unfolding(crate::specs::Reading::took_read))]
fn took_of(items: &[Value]) -> Result<JournalLine, LineStop>
    ensures gives { Gives (λ x. x) result (took_read (items_view items.now)) }
    ensures given { IfOk result IsGivenEntry }
{
    let (peer, count) = two_of(items)?;
    let peer = peer_of(peer)?;
    let count = nat_of(0, 18446744073709551615, count)?;
    Ok(JournalLine::Took { peer, count })
}

#[tactic(auto, unfolding(crate::specs::Reading::end_read))]
fn end_of(items: &[Value]) -> Result<JournalLine, LineStop>
    ensures gives { Gives (λ x. x) result (end_read (items_view items.now)) }
    ensures given { IfOk result IsGivenEntry }
{
    none_of(items)?;
    Ok(JournalLine::End)
}

/// A line by its word, of what stands behind the word.
#[tactic(auto, unfolding(crate::specs::Reading::entry_by))]
fn entry_by(alloc: Global, word: &str, items: &[Value]) -> Result<JournalLine, LineStop>
    ensures gives { Gives (λ x. x) result (entry_by_of word.now (items_view items.now)) }
    ensures given { IfOk result IsGivenEntry }
{
    match word {
        "peer" => named_of(items),
        "up" => up_of(items),
        "down" => down_of(items),
        "op" => operation_of(alloc, items),
        "got" => got_of(alloc, items),
        "took" => took_of(items),
        "end" => end_of(items),
        _ => Err(LineStop::LineBad(LineWhy::Name)),
    }
}

#[tactic(auto, unfolding(crate::specs::Reading::entry_read))]
fn entry_of(alloc: Global, value: &Value) -> Result<JournalLine, LineStop>
    ensures gives { Gives (λ x. x) result (entry_read (view value.now)) }
    ensures given { IfOk result IsGivenEntry }
{
    let (word, items) = worded_of(value)?;
    entry_by(alloc, word, items)
}

/// What a line of a journal says: `["peer",p]`, `["up",b]`, `["down",b]`, `["op",OP]`,
/// `["got",from,class,"hex"]`, `["took",b,count]` or `["end"]`, where OP is an operation as in a line of
/// a session, each of p, b and from is the number of a peer, and a count is any number of 64 bits.
///
/// `LineBad` has the first thing wrong, in the order of a line of a session.
#[tactic(auto, unfolding(crate::specs::Reading::journal_line_read))]
pub fn read_journal(alloc: Global, line: &[u8]) -> Result<JournalLine, LineStop>
    ensures exact { Gives (λ x. x) result (journal_line_read line.now) }
    ensures given { IfOk result IsGivenEntry }
{
    let value = data_of(alloc, line)?;
    entry_of(alloc, &value)
}
