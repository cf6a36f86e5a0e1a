ghost use Rattle.peer_rows.specs.Faults.{CountFirst, CountBeforeLength, LengthBeforeMode, NameDiffersFirst, GreatestName, NoNameFirst, NameRefused, OneNumberTwice, NumberOfASynchronizer, RangeFirst, TooFewSynchronizers, NameBeforeValues, NoDespawnOfASynchronizer, LongArgumentCame, LongSample, BitTooHigh, RelayToOneThatIsGone, RelayToTheServer, RelayToItsSender, NoSecondNews, NoNewsOfItself, NoNewsOfTheServer, NoLinkBetweenClients, MalformedFirst, NoSuchScene, OtherMethods, WrongNameFirst, RowsAreFull};

pub fn count_first()
    ensures { CountFirst }
{}

pub fn count_before_length()
    ensures { CountBeforeLength }
{}

pub fn length_before_mode()
    ensures { LengthBeforeMode }
{}

pub fn name_differs_first()
    ensures { NameDiffersFirst }
{}

pub fn greatest_name()
    ensures { GreatestName }
{}

pub fn no_name_first()
    ensures { NoNameFirst }
{}

pub fn name_refused()
    ensures { NameRefused }
{}

pub fn one_number_twice()
    ensures { OneNumberTwice }
{}

pub fn number_of_a_synchronizer()
    ensures { NumberOfASynchronizer }
{}

pub fn range_first()
    ensures { RangeFirst }
{}

pub fn too_few_synchronizers()
    ensures { TooFewSynchronizers }
{}

pub fn name_before_values()
    ensures { NameBeforeValues }
{}

pub fn no_despawn_of_a_synchronizer()
    ensures { NoDespawnOfASynchronizer }
{}

pub fn long_argument_came()
    ensures { LongArgumentCame }
{}

pub fn long_sample()
    ensures { LongSample }
{}

pub fn bit_too_high()
    ensures { BitTooHigh }
{}

pub fn relay_to_one_that_is_gone()
    ensures { RelayToOneThatIsGone }
{}

pub fn relay_to_the_server()
    ensures { RelayToTheServer }
{}

pub fn relay_to_its_sender()
    ensures { RelayToItsSender }
{}

pub fn no_second_news()
    ensures { NoSecondNews }
{}

pub fn no_news_of_itself()
    ensures { NoNewsOfItself }
{}

pub fn no_news_of_the_server()
    ensures { NoNewsOfTheServer }
{}

pub fn no_link_between_clients()
    ensures { NoLinkBetweenClients }
{}

pub fn malformed_first()
    ensures { MalformedFirst }
{}

pub fn no_such_scene()
    ensures { NoSuchScene }
{}

pub fn other_methods()
    ensures { OtherMethods }
{}

pub fn wrong_name_first()
    ensures { WrongNameFirst }
{}

pub fn rows_are_full()
    ensures { RowsAreFull }
{}
