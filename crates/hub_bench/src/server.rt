//! A server whose scene has one node, and assignments to its property.
ghost use Rattle.std.specs.Prelude.{[], IfSome};
ghost use Rattle.peer_core.specs.Forms.{packet_form};
ghost use Rattle.peer_steps.specs.Stands.{StandsFor};
ghost use Rattle.shared_hub.specs.Peer.{MayEnter};

use gd_variant::{Text, Variant};
use line_text::read_scene;
use peer_core::Peer;
use scene_model::{Event, Op};
use std::alloc::Global;

/// The server, before its first event.
pub fn server(alloc: Global) -> Option<Peer>
    ensures { IfSome result (λ p. StandsFor packet_form p []) }
{
    match read_scene(
        alloc,
        br#"{"nodes":[{"path":"a","props":[["hp",10]]}],"scenes":[]}"#,
    ) {
        Ok(scene) => Peer::new(alloc, 1, &scene).ok(),
        Err(_) => None,
    }
}

/// Assigns a number to `hp` of `a`.
#[tactic(auto, using(crate::proofs::Sound::may_set))]
pub fn set_to(alloc: Global, value: u32) -> Option<Event>
    ensures { IfSome result MayEnter }
{
    let path = Text::from_str(alloc, "a").ok()?;
    let prop = Text::from_str(alloc, "hp").ok()?;
    Some(Event::Op(Op::Set {
        path,
        prop,
        value: Variant::Int(i64::from(value)),
    }))
}
