//! Where bytes go to.
ghost use Rattle.std.specs.Prelude.{◌<◌, ◌≤◌, ℕ, List, length, flat_map, IfOk, Option};
ghost use Rattle.program_edge.specs.Causes.{HasCause};
ghost use Rattle.program_edge.specs.Pieces.{Puts, PutsAll};

use crate::source::Failed;

/// Where bytes go to.
pub trait Sink {
    /// The bytes that are held, where they are told.
    ghost held: { Self → Option (List ℕ) };

    /// How often a call failed.
    ghost faults: { Self → ℕ };

    /// Adds bytes from the front of the piece, and answers how many, at least one.
    fn put(&mut self, piece: &[u8]) -> Result<usize, Failed>
        requires { 0 < length piece.now }
        ensures bound { IfOk result (λ n. (0 < n) × (n ≤ length piece.now)) }
        ensures bytes { Puts (held self.old) result piece.now (held self.new) }
        ensures cause { HasCause (faults self.old) (faults self.new) result };
}

/// Adds all the bytes, in as many calls as the sink wants. After a failure some of the first may
/// have been added.
pub fn put_all<K: Sink>(sink: &mut K, bytes: &[u8]) -> Result<(), Failed>
    ensures bytes { PutsAll (K.held sink.old) result bytes.now (K.held sink.new) }
    ensures cause { HasCause (K.faults sink.old) (K.faults sink.new) result }
{
    let mut rest = bytes;
    while !rest.is_empty() {
        let count = sink.put(rest)?;
        let (_, behind) = rest.split_at(count);
        rest = behind;
    }
    Ok(())
}

/// Adds all the bytes of all the pieces, one piece behind the other.
pub fn put_pieces<K: Sink>(sink: &mut K, pieces: &[&[u8]]) -> Result<(), Failed>
    ensures bytes { PutsAll (K.held sink.old) result (flat_map (λ piece. piece.now) pieces.now) (K.held sink.new) }
    ensures cause { HasCause (K.faults sink.old) (K.faults sink.new) result }
{
    for piece in pieces {
        put_all(sink, piece)?;
    }
    Ok(())
}
