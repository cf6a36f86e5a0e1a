ghost use Rattle.peer_rows.specs.Packets.{NameIsReliable, RelayKeepsItsClass, SecondEntryIsStale, RefusedIsForgotten, RawIsHandedOn, RelayedNameIsConfirmed};

pub fn name_is_reliable()
    ensures { NameIsReliable }
{}

pub fn relay_keeps_its_class()
    ensures { RelayKeepsItsClass }
{}

pub fn second_entry_is_stale()
    ensures { SecondEntryIsStale }
{}

pub fn refused_is_forgotten()
    ensures { RefusedIsForgotten }
{}

pub fn raw_is_handed_on()
    ensures { RawIsHandedOn }
{}

pub fn relayed_name_is_confirmed()
    ensures { RelayedNameIsConfirmed }
{}
