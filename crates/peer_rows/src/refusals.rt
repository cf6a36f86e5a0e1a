ghost use Rattle.peer_rows.specs.Refusals.{NoSpawnerFirst, AuthorityBeforeScene, NameBeforeLimit, LimitIsOfTheSpawner, AuthorityBeforeProp, NotSpawnedFirst, NoSyncFirst, NoThirdSynchronizer, LongArgument, LongSetting, CallCountFirst, CallCountBeforeLength, CallLengthBeforeMode, NoCallToOneThatIsGone, NoRawToItself, NoSecondUp, OnlyTheServerComesUp, ModeBeforeItself, WrongNameFirst};

pub fn no_spawner_first()
    ensures { NoSpawnerFirst }
{}

pub fn authority_before_scene()
    ensures { AuthorityBeforeScene }
{}

pub fn name_before_limit()
    ensures { NameBeforeLimit }
{}

pub fn limit_is_of_the_spawner()
    ensures { LimitIsOfTheSpawner }
{}

pub fn authority_before_prop()
    ensures { AuthorityBeforeProp }
{}

pub fn not_spawned_first()
    ensures { NotSpawnedFirst }
{}

pub fn no_sync_first()
    ensures { NoSyncFirst }
{}

pub fn no_third_synchronizer()
    ensures { NoThirdSynchronizer }
{}

pub fn long_argument()
    ensures { LongArgument }
{}

pub fn long_setting()
    ensures { LongSetting }
{}

pub fn call_count_first()
    ensures { CallCountFirst }
{}

pub fn call_count_before_length()
    ensures { CallCountBeforeLength }
{}

pub fn call_length_before_mode()
    ensures { CallLengthBeforeMode }
{}

pub fn no_call_to_one_that_is_gone()
    ensures { NoCallToOneThatIsGone }
{}

pub fn no_raw_to_itself()
    ensures { NoRawToItself }
{}

pub fn no_second_up()
    ensures { NoSecondUp }
{}

pub fn only_the_server_comes_up()
    ensures { OnlyTheServerComesUp }
{}

pub fn mode_before_itself()
    ensures { ModeBeforeItself }
{}

pub fn wrong_name_first()
    ensures { WrongNameFirst }
{}
