ghost use Rattle.peer_rows.specs.Limits.{TheLimits, LastPathId, LongestValue, WidenTie, SixtyFourClients, CallSizes, LongestRaw, LastTick, LastOwnRow, LastNumber, LimitBeforeRows};

pub fn the_limits()
    ensures { TheLimits }
{}

pub fn last_path_id()
    ensures { LastPathId }
{}

pub fn longest_value()
    ensures { LongestValue }
{}

pub fn widen_tie()
    ensures { WidenTie }
{}

pub fn sixty_four_clients()
    ensures { SixtyFourClients }
{}

pub fn call_sizes()
    ensures { CallSizes }
{}

pub fn longest_raw()
    ensures { LongestRaw }
{}

pub fn last_tick()
    ensures { LastTick }
{}

pub fn last_own_row()
    ensures { LastOwnRow }
{}

pub fn last_number()
    ensures { LastNumber }
{}

pub fn limit_before_rows()
    ensures { LimitBeforeRows }
{}
