//! Where bytes come from.
ghost use Rattle.std.specs.Prelude.{◌<◌, ◌≤◌, ℕ, List, length, IfOk, Option};
ghost use Rattle.program_edge.specs.Causes.{HasCause};
ghost use Rattle.program_edge.specs.Pieces.{Takes};

/// A call on an object of the outside failed, and the object counted it.
#[derive(Clone, Copy)]
pub struct Failed;

/// Where bytes come from.
pub trait Source {
    /// The bytes that are left, where they are told.
    ghost left: { Self → Option (List ℕ) };

    /// How often a call failed.
    ghost faults: { Self → ℕ };

    /// Moves bytes into the front of the buffer, and answers how many. Of the rest of the buffer
    /// nothing is said. 0 is the end of the input, and callers don't ask again.
    fn take(&mut self, buf: &mut [u8]) -> Result<usize, Failed>
        requires { 0 < length buf.old }
        ensures bound { IfOk result (λ n. n ≤ length buf.new) }
        ensures bytes { Takes (left self.old) result buf.new (left self.new) }
        ensures cause { HasCause (faults self.old) (faults self.new) result };
}
