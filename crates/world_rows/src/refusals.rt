ghost use Rattle.world_rows.specs.Refusals.{ServerStays, NobodyThere, NobodyBeforeNoLink, NoLinkThere, NothingThere, IndexFromOne, OnceAndInOrder, SixtyFourClients, LastNumber, PeerRefuses};

pub fn server_stays()
    ensures { ServerStays }
{}

pub fn nobody_there()
    ensures { NobodyThere }
{}

pub fn nobody_before_no_link()
    ensures { NobodyBeforeNoLink }
{}

pub fn no_link_there()
    ensures { NoLinkThere }
{}

pub fn nothing_there()
    ensures { NothingThere }
{}

pub fn index_from_one()
    ensures { IndexFromOne }
{}

pub fn once_and_in_order()
    ensures { OnceAndInOrder }
{}

pub fn sixty_four_clients()
    ensures { SixtyFourClients }
{}

pub fn last_number()
    ensures { LastNumber }
{}

pub fn peer_refuses()
    ensures { PeerRefuses }
{}
