ghost use Rattle.world_rows.specs.Spawns.{LateClientIsShown, PrefixIsReported, FirstHasArrived, QuietIsWhole, HideIsSent, ShowIsSentAgain, HideIsReported, ShowIsReported, OwnRowIsReported, EachUpdateCounts, ChangeIsReported, LooseIsNoMatter};

pub fn late_client_is_shown()
    ensures { LateClientIsShown }
{}

pub fn prefix_is_reported()
    ensures { PrefixIsReported }
{}

pub fn first_has_arrived()
    ensures { FirstHasArrived }
{}

pub fn quiet_is_whole()
    ensures { QuietIsWhole }
{}

pub fn hide_is_sent()
    ensures { HideIsSent }
{}

pub fn show_is_sent_again()
    ensures { ShowIsSentAgain }
{}

pub fn hide_is_reported()
    ensures { HideIsReported }
{}

pub fn show_is_reported()
    ensures { ShowIsReported }
{}

pub fn own_row_is_reported()
    ensures { OwnRowIsReported }
{}

pub fn each_update_counts()
    ensures { EachUpdateCounts }
{}

pub fn change_is_reported()
    ensures { ChangeIsReported }
{}

pub fn loose_is_no_matter()
    ensures { LooseIsNoMatter }
{}
