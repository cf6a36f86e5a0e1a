//! How the end of a run is told on standard error.
ghost use Rattle.std.specs.Prelude.{◌≡◌, ◌∷◌, ◌++◌, [], codes};
ghost use Rattle.std.specs.Fmt.{decimal};
ghost use Rattle.program_edge.specs.Causes.{HasCause};
ghost use Rattle.program_edge.specs.Pieces.{PutsAll};
ghost use Rattle.program_edge.specs.Statuses.{told_text, why_name};

use crate::sink::{Sink, put_pieces};
use crate::source::Failed;
use crate::status::{LineWhy, Status};
use itoa::Buffer;

/// The name of the reason why a line isn't in the grammar of its command.
fn why_text(why: LineWhy) -> &'static str
    ensures { result.now ≡ why_name why }
{
    match why {
        LineWhy::Json => "Json",
        LineWhy::Shape => "Shape",
        LineWhy::Name => "Name",
        LineWhy::Hex => "Hex",
        LineWhy::Range => "Range",
        LineWhy::Scene(_) => "Scene",
        LineWhy::NotBuilt => "NotBuilt",
    }
}

/// Adds what is said of a line, behind its number.
fn put_numbered<K: Sink>(sink: &mut K, n: u64, text: &str) -> Result<(), Failed>
    ensures bytes { PutsAll (K.held sink.old) result ((codes "line " ++ decimal n ++ (codes ": " ++ text.now)) ++ 10 ∷ []) (K.held sink.new) }
    ensures cause { HasCause (K.faults sink.old) (K.faults sink.new) result }
{
    let mut digits = Buffer::new();
    let number = digits.format(n);
    put_pieces(
        sink,
        &[b"line ", number.as_bytes(), b": ", text.as_bytes(), b"\n"],
    )
}

/// Adds a text and a line feed.
fn put_line<K: Sink>(sink: &mut K, text: &str) -> Result<(), Failed>
    ensures bytes { PutsAll (K.held sink.old) result (text.now ++ 10 ∷ []) (K.held sink.new) }
    ensures cause { HasCause (K.faults sink.old) (K.faults sink.new) result }
{
    put_pieces(sink, &[text.as_bytes(), b"\n"])
}

/// Adds the line that tells how a run ended, and nothing at the good end. It needs no memory.
pub fn put_status<K: Sink>(sink: &mut K, status: Status) -> Result<(), Failed>
    ensures bytes { PutsAll (K.held sink.old) result (told_text status) (K.held sink.new) }
    ensures cause { HasCause (K.faults sink.old) (K.faults sink.new) result }
{
    match status {
        Status::Done => Ok(()),
        Status::Usage => put_line(
            sink,
            "usage: godot_mp_cli replay, show, rerun, gen N, host --listen ADDR, join --dial ADDR",
        ),
        Status::BadLine { n, why } => put_numbered(sink, n, why_text(why)),
        Status::LineLong { n } => put_numbered(sink, n, "too long"),
        Status::InputLong => put_line(sink, "InputLong"),
        Status::PoolFull { n } => put_numbered(sink, n, "too many packets"),
        Status::ReadFault => put_line(sink, "ReadFault"),
        Status::WriteFault => put_line(sink, "WriteFault"),
        Status::OutOfMemory => put_line(sink, "OutOfMemory"),
        Status::ListenFault => put_line(sink, "ListenFault"),
        Status::DialFault => put_line(sink, "DialFault"),
        Status::SpawnFault => put_line(sink, "SpawnFault"),
        Status::BadGreeting => put_line(sink, "BadGreeting"),
        Status::LinkFault => put_line(sink, "LinkFault"),
        Status::JournalFull => put_line(sink, "JournalFull"),
    }
}
