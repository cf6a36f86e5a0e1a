//! A line of a journal is written.
ghost use Rattle.std.specs.Prelude.{◌≡◌, IfOk, OnOk};
ghost use Rattle.session_text.specs.Tokens.{AddsCells};
ghost use Rattle.journal_text.specs.Written.{entry_cells as entry_cells_of, journal_line};

use crate::lines::JournalLine;
use crate::operations::{digits, operation, transfer};
use gd_variant::{Bytes, OutOfMemory};
use json::Writer;
use session_text::line::{begin, end, int, nat, text};
use std::alloc::Global;

/// The items of a line, its word first.
fn entry_cells(alloc: Global, entry: &JournalLine, line: &mut Writer) -> Result<(), OutOfMemory>
    ensures { OnOk result (AddsCells line.old line.new (entry_cells_of entry.now)) }
{
    match entry {
        JournalLine::Peer(peer) => {
            text("peer", line)?;
            int(*peer as i64, line)
        }
        JournalLine::Up(peer) => {
            text("up", line)?;
            int(*peer as i64, line)
        }
        JournalLine::Down(peer) => {
            text("down", line)?;
            int(*peer as i64, line)
        }
        JournalLine::Op(op) => {
            text("op", line)?;
            operation(op, alloc, line)
        }
        JournalLine::Got { from, class, bytes } => {
            text("got", line)?;
            int(*from as i64, line)?;
            transfer(*class, line)?;
            digits(bytes, alloc, line)
        }
        JournalLine::Took { peer, count } => {
            text("took", line)?;
            int(*peer as i64, line)?;
            nat(*count, line)
        }
        JournalLine::End => text("end", line),
    }
}

/// A line of a journal as it is written, with its line feed.
pub fn journal_line_text(alloc: Global, entry: &JournalLine) -> Result<Bytes, OutOfMemory>
    ensures { IfOk result (λ b. b ≡ journal_line entry.now) }
{
    let mut out = Vec::with_capacity(alloc, 128)?;
    let mut line = begin(alloc, &mut out)?;
    entry_cells(alloc, entry, &mut line)?;
    end(line, &mut out)?;
    Ok(Bytes::from_vec(out))
}
