ghost use Rattle.world_rows.specs.Ways.{CallIsTagged, SampleIsTagged, ConfirmIsTagged, ForgedIsTagged, EachLinkCounts, RelayCountsTwice, RoomAtItsEdge, LastByteOverflows, RefusedDoesntOverflow};

pub fn call_is_tagged()
    ensures { CallIsTagged }
{}

pub fn sample_is_tagged()
    ensures { SampleIsTagged }
{}

pub fn confirm_is_tagged()
    ensures { ConfirmIsTagged }
{}

pub fn forged_is_tagged()
    ensures { ForgedIsTagged }
{}

pub fn each_link_counts()
    ensures { EachLinkCounts }
{}

pub fn relay_counts_twice()
    ensures { RelayCountsTwice }
{}

pub fn room_at_its_edge()
    ensures { RoomAtItsEdge }
{}

pub fn last_byte_overflows()
    ensures { LastByteOverflows }
{}

pub fn refused_doesnt_overflow()
    ensures { RefusedDoesntOverflow }
{}
