//! Why a line gives nothing.
ghost use Rattle.std.specs.Prelude.{◌≡◌};
ghost use Rattle.program_edge.specs.declared.stop.LineStop.TheVariants.{OutOfMemory as NoMemory};

use crate::status::LineWhy;
use gd_variant::OutOfMemory;
use std::alloc::{AllocError, AllocFailed};

/// Why a line gives nothing.
#[derive(Clone, Copy, Drop)]
pub enum LineStop {
    /// It isn't in the grammar.
    LineBad(LineWhy),
    OutOfMemory,
}

impl From<AllocError> for LineStop {
    ghost from_gives = { λ _ e. e ≡ NoMemory };

    fn from(_e: AllocError) -> LineStop {
        LineStop::OutOfMemory
    }
}

impl From<OutOfMemory> for LineStop {
    ghost from_gives = { λ _ e. e ≡ NoMemory };

    fn from(_e: OutOfMemory) -> LineStop {
        LineStop::OutOfMemory
    }
}

impl<T: Drop> From<AllocFailed<T>> for LineStop {
    ghost from_gives = { λ _ e. e ≡ NoMemory };

    fn from(_e: AllocFailed<T>) -> LineStop {
        LineStop::OutOfMemory
    }
}
