ghost use Rattle.world_rows.specs.Samples.{EarlySampleIsSkipped, EarlySampleIsLost, SampleAgainIsTaken, NewestIsReported, OlderIsStale, ShownAnewIsReported, EarlierLifeCounts, EarlierLifeDiffers, FaultDoesntCount, OutsideIsRefused, InsideIsTaken, NewestMovesOn, NewestStays, LeftBehindIsRefused, WindowEdges, RelayedIsJudgedAtItsTarget, RelayedIsTagged, ForgerHasNoWindow, FixedSampleIsReported, GoneNodeKeepsItsValues};

pub fn early_sample_is_skipped()
    ensures { EarlySampleIsSkipped }
{}

pub fn early_sample_is_lost()
    ensures { EarlySampleIsLost }
{}

pub fn sample_again_is_taken()
    ensures { SampleAgainIsTaken }
{}

pub fn newest_is_reported()
    ensures { NewestIsReported }
{}

pub fn older_is_stale()
    ensures { OlderIsStale }
{}

pub fn shown_anew_is_reported()
    ensures { ShownAnewIsReported }
{}

pub fn earlier_life_counts()
    ensures { EarlierLifeCounts }
{}

pub fn earlier_life_differs()
    ensures { EarlierLifeDiffers }
{}

pub fn fault_doesnt_count()
    ensures { FaultDoesntCount }
{}

pub fn outside_is_refused()
    ensures { OutsideIsRefused }
{}

pub fn inside_is_taken()
    ensures { InsideIsTaken }
{}

pub fn newest_moves_on()
    ensures { NewestMovesOn }
{}

pub fn newest_stays()
    ensures { NewestStays }
{}

pub fn left_behind_is_refused()
    ensures { LeftBehindIsRefused }
{}

pub fn window_edges()
    ensures { WindowEdges }
{}

pub fn relayed_is_judged_at_its_target()
    ensures { RelayedIsJudgedAtItsTarget }
{}

pub fn relayed_is_tagged()
    ensures { RelayedIsTagged }
{}

pub fn forger_has_no_window()
    ensures { ForgerHasNoWindow }
{}

pub fn fixed_sample_is_reported()
    ensures { FixedSampleIsReported }
{}

pub fn gone_node_keeps_its_values()
    ensures { GoneNodeKeepsItsValues }
{}
