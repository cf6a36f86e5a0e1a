//! Events go from one thread to another.
ghost use denote.Param.Send.{IsSend, IsSync};
ghost use Rattle.scene_model.specs.contracts.event.Event as event;

use scene_model::Event;

fn sent<T: Send>()
    ensures { IsSend T.row }
{}

fn shared<T: Sync>()
    ensures { IsSync T.row }
{}

pub fn events_cross()
    ensures sent { IsSend event.the_row }
    ensures shared { IsSync event.the_row }
{
    sent::<Event>();
    shared::<Event>();
}
