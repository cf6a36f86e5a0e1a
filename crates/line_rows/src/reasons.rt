//! Wrong lines, each with the reason that comes first.
ghost use Rattle.line_rows.specs.Reasons.{NoJson, NoLine, NoArray, NoFirstItem, NoWord, UnknownWord, WordBeforeLength, LengthOfALine, LengthBeforeItems, FirstItemFirst, SecondItemSecond, PeerBeforeOperation, UnknownOperation, WordNotBuilt, OperationNotBuilt, DownOfNoNumber, CustomOfTwo, PlaceBeforeSetting, PeerBeforeSetting, FilterOfNoNumber, PeerOfNoNumber, ZeroInAWord, ZeroInAText, ZeroInDigits, ValueReadWhole, ValueJudgedByItself, TwoKnownKeys, OneUnknownKey, UnknownKeyFirst, MissingKey, KeysInTheirOrder, SpawnerAndSynchronizer, MethodsBeforeKinds, NullIsNoDefault, ReadBeforeValid};

pub fn no_json()
    ensures { NoJson }
{}

pub fn no_line()
    ensures { NoLine }
{}

pub fn no_array()
    ensures { NoArray }
{}

pub fn no_first_item()
    ensures { NoFirstItem }
{}

pub fn no_word()
    ensures { NoWord }
{}

pub fn unknown_word()
    ensures { UnknownWord }
{}

pub fn word_before_length()
    ensures { WordBeforeLength }
{}

pub fn length_of_a_line()
    ensures { LengthOfALine }
{}

pub fn length_before_items()
    ensures { LengthBeforeItems }
{}

pub fn first_item_first()
    ensures { FirstItemFirst }
{}

pub fn second_item_second()
    ensures { SecondItemSecond }
{}

pub fn peer_before_operation()
    ensures { PeerBeforeOperation }
{}

pub fn unknown_operation()
    ensures { UnknownOperation }
{}

pub fn word_not_built()
    ensures { WordNotBuilt }
{}

pub fn operation_not_built()
    ensures { OperationNotBuilt }
{}

pub fn down_of_no_number()
    ensures { DownOfNoNumber }
{}

pub fn custom_of_two()
    ensures { CustomOfTwo }
{}

pub fn place_before_setting()
    ensures { PlaceBeforeSetting }
{}

pub fn peer_before_setting()
    ensures { PeerBeforeSetting }
{}

pub fn filter_of_no_number()
    ensures { FilterOfNoNumber }
{}

pub fn peer_of_no_number()
    ensures { PeerOfNoNumber }
{}

pub fn zero_in_a_word()
    ensures { ZeroInAWord }
{}

pub fn zero_in_a_text()
    ensures { ZeroInAText }
{}

pub fn zero_in_digits()
    ensures { ZeroInDigits }
{}

pub fn value_read_whole()
    ensures { ValueReadWhole }
{}

pub fn value_judged_by_itself()
    ensures { ValueJudgedByItself }
{}

pub fn two_known_keys()
    ensures { TwoKnownKeys }
{}

pub fn one_unknown_key()
    ensures { OneUnknownKey }
{}

pub fn unknown_key_first()
    ensures { UnknownKeyFirst }
{}

pub fn missing_key()
    ensures { MissingKey }
{}

pub fn keys_in_their_order()
    ensures { KeysInTheirOrder }
{}

pub fn spawner_and_synchronizer()
    ensures { SpawnerAndSynchronizer }
{}

pub fn methods_before_kinds()
    ensures { MethodsBeforeKinds }
{}

pub fn null_is_no_default()
    ensures { NullIsNoDefault }
{}

pub fn read_before_valid()
    ensures { ReadBeforeValid }
{}
