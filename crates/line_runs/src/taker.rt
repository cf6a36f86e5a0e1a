//! What a command makes of each line.
ghost use Rattle.std.specs.Prelude.{◌≡◌, ◌+◌, ◌∷◌, ℕ, List, Result, IfOk};
ghost use Rattle.program_edge.specs.declared.status.LineWhy.{LineWhy as LineWhyOf};
ghost use Rattle.line_runs.specs.Ends.{MayEnd};
ghost use Rattle.line_runs.specs.Output.{Command as CommandOf, next_number};
ghost use Rattle.line_runs.specs.Steps.{BeginsWith, Closes, MayStop, Takes};

use gd_variant::OutOfMemory;
use program_edge::{LineStop, Status};
use std::alloc::Global;

/// What stands behind a line that was taken.
#[derive(Clone, Copy)]
pub enum Behind {
    /// The lines that follow.
    Lines,
    /// The end of the input: the line ended it, and what follows is never read.
    End,
}

/// A command that takes an input line by line.
///
/// What a line gives is added to a text. Where a call fails, the text may have gained any bytes: the
/// caller removes them.
pub trait LineTaker {
    /// What each line gives, which line ends the input, and what the end of the input gives.
    ghost command: { CommandOf };

    /// The reasons for which a line may stop the run.
    ghost reasons: { LineWhyOf → Type 0 };

    /// Whether what a line asks for may find no room, so that the run ends there as `PoolFull`.
    ghost fills: { Type 0 };

    /// Whether these lines, newest first, were taken.
    ghost took: { Self → List (List ℕ) → Type 0 };

    /// What is known of lines, newest first, that were taken.
    ghost known: { List (List ℕ) → Type 0 };

    /// Takes line `n`, counted from 1, and adds what it gives to the text.
    fn take(
        &mut self,
        alloc: Global,
        n: u64,
        line: &[u8],
        text: &mut Vec<u8>,
    ) -> Result<Behind, LineStop>
        ensures takes { (ls : List (List ℕ)) → took self.old ls → n ≡ next_number ls → Takes (command.told ls line.now) (command.is_last ls line.now) text.old.items result text.new.items (took self.new (line.now ∷ ls)) }
        ensures begins { BeginsWith text.old.items text.new.items }
        ensures stop { MayStop reasons result };

    /// Adds what the end of the input gives, which stands in place of line `n`, and answers how the run
    /// ends.
    fn close(&mut self, alloc: Global, n: u64, text: &mut Vec<u8>) -> Result<Status, OutOfMemory>
        ensures closes { (ls : List (List ℕ)) → took self.old ls → n ≡ next_number ls → Closes (command.closing ls) text.old.items result text.new.items }
        ensures begins { BeginsWith text.old.items text.new.items }
        ensures ends { IfOk result (MayEnd reasons fills 0 0 0 0) };

    ghost knows: { (taker : Self) (ls : List (List ℕ)) → took taker ls → known ls };
}
