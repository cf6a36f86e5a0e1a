ghost use Rattle.peer_rows.specs.Calls.{SelfCallIsNotSent, NamedToItsTarget, OneIdForAPath, SecondPathIsNext, RunElsewhereSetsNothing, MethodsOfTheNewScene};

pub fn self_call_is_not_sent()
    ensures { SelfCallIsNotSent }
{}

pub fn named_to_its_target()
    ensures { NamedToItsTarget }
{}

pub fn one_id_for_a_path()
    ensures { OneIdForAPath }
{}

pub fn second_path_is_next()
    ensures { SecondPathIsNext }
{}

pub fn run_elsewhere_sets_nothing()
    ensures { RunElsewhereSetsNothing }
{}

pub fn methods_of_the_new_scene()
    ensures { MethodsOfTheNewScene }
{}
