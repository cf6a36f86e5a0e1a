//! A peer of an empty scene: its links, its report, and that it says when it is spent. The sessions of
//! `conformance/` run all else.
use line_text::read_scene;
use peer_core::Peer;
use scene_model::{Event, Outcome};
use std::alloc::Global;
use std::test::*;

fn server(alloc: Global) -> Option<Peer> {
    match read_scene(alloc, br#"{"nodes":[],"scenes":[]}"#) {
        Ok(scene) => Peer::new(alloc, 1, &scene).ok(),
        Err(_) => None,
    }
}

fn comes_up(alloc: Global, peer: &mut Peer, other: i32) -> bool {
    matches!(peer.step(alloc, Event::Up(other)), Ok(Outcome::Done(_)))
}

fn goes_down(alloc: Global, peer: &mut Peer, other: i32) -> bool {
    matches!(peer.step(alloc, Event::Down(other)), Ok(Outcome::Done(_)))
}

/// How many peers are up, where the peer isn't spent.
fn count_up(alloc: Global, peer: &Peer) -> Option<usize> {
    match peer.report(alloc) {
        Ok(report) => Some(report.peers.as_slice().len()),
        Err(_) => None,
    }
}

#[test]
fn links_come_up_once_until_a_peer_is_spent(rt: HostRuntime) -> Result<(), Fail> {
    let alloc = rt.alloc();
    let mut peer = server(alloc).ok_or("there is memory")?;
    assert!(rt; !comes_up(alloc, &mut peer, 1));
    assert!(rt; comes_up(alloc, &mut peer, 2));
    assert!(rt; !comes_up(alloc, &mut peer, 2));
    assert_eq!(rt; count_up(alloc, &peer), Some(1));
    assert!(rt; goes_down(alloc, &mut peer, 2));
    assert!(rt; !comes_up(alloc, &mut peer, 2));
    assert_eq!(rt; count_up(alloc, &peer), Some(0));
    peer.give_up();
    assert!(rt; peer.is_spent());
    assert!(rt; !comes_up(alloc, &mut peer, 3));
    assert_eq!(rt; count_up(alloc, &peer), None);
    Ok(())
}
