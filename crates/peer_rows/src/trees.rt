ghost use Rattle.peer_rows.specs.Trees.{ContainersAreTrees, ContainerSizes, EqualContainers, KeysAreDistinct, DeepestNesting, EqualTrees};

pub fn containers_are_trees()
    ensures { ContainersAreTrees }
{}

pub fn container_sizes()
    ensures { ContainerSizes }
{}

pub fn equal_containers()
    ensures { EqualContainers }
{}

pub fn keys_are_distinct()
    ensures { KeysAreDistinct }
{}

pub fn deepest_nesting()
    ensures { DeepestNesting }
{}

pub fn equal_trees()
    ensures { EqualTrees }
{}
