//! Laws of every session of built events.
ghost use Rattle.world_steps.specs.Framed.{StillLeaves};
ghost use Rattle.world_steps.specs.Scripts.{NoneIsFault, PairsHold, ReplicasSettle};
ghost use Rattle.world_steps.specs.Stands.{StepsAreRight};

/// What holds between each two peers that are joined: what was posted was delivered or is on the way, in order, and
/// what the second took of it is a prefix of what the first told.
pub fn pairs_hold()
    ensures { PairsHold }
{}

/// No packet of a joined peer is a fault.
pub fn none_is_fault()
    ensures { NoneIsFault }
{}

/// What a peer sees of another that it is joined with is what the delivered prefix of the other's changes makes; once
/// nothing is in flight it is all visible rows, and, after a frame since which nothing changed, each visible on-change
/// value; and so it reports it.
pub fn replicas_settle()
    ensures { ReplicasSettle }
{}

/// An event that spawns, despawns, sets and assigns nothing changes nothing that a peer may be told.
pub fn still_leaves()
    ensures { StillLeaves }
{}

/// What an event makes of what a world keeps is what the definitions say.
pub fn steps_are_right()
    ensures { StepsAreRight }
{}
