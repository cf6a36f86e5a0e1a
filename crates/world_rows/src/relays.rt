ghost use Rattle.world_rows.specs.Relays.{ServerPassesOn, RelayKeepsItsTag, BothLinksAreQuiet, GonePeerIsAFault, FaultIsDelivered, FaultHappened, NumbersAreNew, GoneRowsAreRemoved, GoneIsNotDelivered, RowsByAuthority, ForgedSpawn, ForgedRelay, OthersAreUnchanged, ForgerIsWild, GoneIsNotJoined, ForgedRowIsSeen};

pub fn server_passes_on()
    ensures { ServerPassesOn }
{}

pub fn relay_keeps_its_tag()
    ensures { RelayKeepsItsTag }
{}

pub fn both_links_are_quiet()
    ensures { BothLinksAreQuiet }
{}

pub fn gone_peer_is_a_fault()
    ensures { GonePeerIsAFault }
{}

pub fn fault_is_delivered()
    ensures { FaultIsDelivered }
{}

pub fn fault_happened()
    ensures { FaultHappened }
{}

pub fn numbers_are_new()
    ensures { NumbersAreNew }
{}

pub fn gone_rows_are_removed()
    ensures { GoneRowsAreRemoved }
{}

pub fn gone_is_not_delivered()
    ensures { GoneIsNotDelivered }
{}

pub fn rows_by_authority()
    ensures { RowsByAuthority }
{}

pub fn forged_spawn()
    ensures { ForgedSpawn }
{}

pub fn forged_relay()
    ensures { ForgedRelay }
{}

pub fn others_are_unchanged()
    ensures { OthersAreUnchanged }
{}

pub fn forger_is_wild()
    ensures { ForgerIsWild }
{}

pub fn gone_is_not_joined()
    ensures { GoneIsNotJoined }
{}

pub fn forged_row_is_seen()
    ensures { ForgedRowIsSeen }
{}
