//! What events are answered with.
ghost use Rattle.std.specs.Prelude.{◌≡◌, [], IfOk};
ghost use Rattle.peer_steps.specs.Steps.{done_with, set_answer, shown_answer};
ghost use Rattle.peer_core.specs.Parts.{gone_answer};

use crate::sending::hide_from_each;
use gd_variant::OutOfMemory;
use scene_model::{Effects, Fault, OutList, Outcome, Refusal};
use spawn_track::Gone;
use sqlite_items::Items;
use std::alloc::Global;

/// Packets, and nothing else.
pub fn done(alloc: Global, packets: OutList) -> Outcome
    ensures { result ≡ done_with packets }
{
    Outcome::Done(Effects {
        packets,
        runs: Items::new(alloc),
        raws: Items::new(alloc),
        skips: Items::new(alloc),
    })
}

/// Nothing.
pub fn quiet(alloc: Global) -> Outcome
    ensures { result ≡ done_with [] }
{
    done(alloc, Items::new(alloc))
}

/// A refusal, where there is one.
pub fn refused_or_quiet(alloc: Global, refused: Option<Refusal>) -> Outcome
    ensures { result ≡ set_answer refused }
{
    match refused {
        Some(refusal) => Outcome::Refused(refusal),
        None => quiet(alloc),
    }
}

/// A fault, where there is one.
pub fn fault_or_quiet(alloc: Global, fault: Option<Fault>) -> Outcome
    ensures { result ≡ shown_answer fault }
{
    match fault {
        Some(fault) => Outcome::Fault(fault),
        None => quiet(alloc),
    }
}

/// What a despawn is answered with: the row that went is hidden from each peer to which it was shown.
pub fn answer_despawn(
    alloc: Global,
    despawned: Result<Gone, Refusal>,
) -> Result<Outcome, OutOfMemory>
    ensures { IfOk result (λ o. o ≡ gone_answer despawned) }
{
    match despawned {
        Ok(gone) => {
            let packets = hide_from_each(alloc, gone.num, gone.shown.as_slice())?;
            Ok(done(alloc, packets))
        }
        Err(refusal) => Ok(Outcome::Refused(refusal)),
    }
}
