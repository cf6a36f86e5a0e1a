//! What waits on one direction of a link, oldest first.
ghost use Rattle.std.specs.Prelude.{◌≡◌, ◌++◌, ◌∷◌, [], OnOk};
ghost use Rattle.scene_model.specs.declared.event.Event.TheVariants as event_of;
ghost use Rattle.world_model.specs.World.{is_reliable};
ghost use Rattle.world_steps.specs.Steps.{IsTaken, waiting_with, waits_for as waits_there};

use gd_variant::OutOfMemory;
use scene_model::{Class, Event, Out, TryClone};
use std::alloc::Global;
use std::collections::VecDeque;

/// Puts a copy of a packet behind those that wait.
fn push_copy(waiting: &mut VecDeque<Out>, packet: &Out, alloc: Global) -> Result<(), OutOfMemory>
    ensures { OnOk result (waiting.new.items ≡ waiting.old.items ++ packet.now ∷ []) }
{
    waiting.push_back(packet.try_clone(alloc)?)?;
    Ok(())
}

/// Whether packets of a class are delivered once and in order.
fn is_in_order(class: &Class) -> bool
    ensures { result ≡ is_reliable class.now }
{
    match class {
        Class::Reliable => true,
        Class::Unreliable | Class::Ordered => false,
    }
}

/// Whether a packet waits on the way to the peer with this number.
fn waits_for(link: &i32, packet: &Out) -> bool
    ensures { result ≡ waits_there link.now packet.now }
{
    packet.link == *link && is_in_order(&packet.class)
}

/// Puts the reliable packets for the other end of a link behind those that wait.
pub fn put_on(
    waiting: &mut VecDeque<Out>,
    alloc: Global,
    packets: &[Out],
    link: &i32,
) -> Result<(), OutOfMemory>
    ensures { OnOk result (waiting.new.items ≡ waiting_with waiting.old.items packets.now link.now) }
{
    for packet in packets {
        if waits_for(link, packet) {
            push_copy(waiting, packet, alloc)?;
        }
    }
    Ok(())
}

/// Takes the packet that has waited longest.
pub fn take_next(waiting: &mut VecDeque<Out>) -> Option<Out>
    ensures { IsTaken waiting.old.items waiting.new.items result }
{
    waiting.pop_front()
}

/// A packet as its receiver sees it.
pub fn arrival(from: &i32, packet: Out) -> Event
    ensures { result ≡ event_of.Received from.now packet.class packet.bytes }
{
    let Out {
        link: _,
        to: _,
        class,
        tick: _,
        bytes,
    } = packet;
    Event::Received {
        from: *from,
        class,
        bytes,
    }
}
