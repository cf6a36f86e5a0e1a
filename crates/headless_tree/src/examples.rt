//! The definitions on a small tree, as equations.
ghost use Rattle.headless_tree.specs.Examples.{GoesByNumber, GoesByAuthority, InOrder, OutOfOrder, NoParent, TakenPath, FreePath, FixedStays, SpawnedGoes, RowsGo, OneChanges, ValueIsThere, LacksProperty};

pub fn nodes_go_by_authority_and_number()
    ensures number { GoesByNumber }
    ensures authority { GoesByAuthority }
    ensures order { InOrder }
    ensures disorder { OutOfOrder }
{}

pub fn new_paths_are_free_below_a_node()
    ensures parent { NoParent }
    ensures taken { TakenPath }
    ensures free { FreePath }
{}

pub fn only_spawned_nodes_go()
    ensures fixed { FixedStays }
    ensures spawned { SpawnedGoes }
    ensures rows { RowsGo }
{}

pub fn one_property_changes()
    ensures changed { OneChanges }
    ensures there { ValueIsThere }
    ensures lacking { LacksProperty }
{}
