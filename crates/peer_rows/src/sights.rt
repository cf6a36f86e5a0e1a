ghost use Rattle.peer_rows.specs.Sights.{ArgumentIsOwnValue, OlderFilterCounts, OneSynchronizerIsEnough, SettingOfOneSynchronizer, UnseenIsNotTold, UnseenIsNotSampled, FixedBeforeRows, LateClientIsTold};

pub fn argument_is_own_value()
    ensures { ArgumentIsOwnValue }
{}

pub fn older_filter_counts()
    ensures { OlderFilterCounts }
{}

pub fn one_synchronizer_is_enough()
    ensures { OneSynchronizerIsEnough }
{}

pub fn setting_of_one_synchronizer()
    ensures { SettingOfOneSynchronizer }
{}

pub fn unseen_is_not_told()
    ensures { UnseenIsNotTold }
{}

pub fn unseen_is_not_sampled()
    ensures { UnseenIsNotSampled }
{}

pub fn fixed_before_rows()
    ensures { FixedBeforeRows }
{}

pub fn late_client_is_told()
    ensures { LateClientIsTold }
{}
