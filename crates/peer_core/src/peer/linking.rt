//! Links that come up and go down.
ghost use Rattle.std.specs.Prelude.{◌≡◌, false, IfOk};
ghost use Rattle.peer_steps.specs.Peers.{peer_goes};
ghost use Rattle.peer_steps.specs.Steps.{up_answer, link_taken, down_taken};
ghost use Rattle.peer_core.specs.Forms.{packet_form};

use super::Peer;
use crate::effects::{done, quiet};
use crate::links::{come_up, lacks_server};
use crate::sending::show_all;
use gd_variant::OutOfMemory;
use scene_model::{Outcome, Refusal};
use std::alloc::Global;

impl Peer {
    /// A link came up: its peer is shown all own rows that it may see.
    pub fn take_up(&mut self, alloc: Global, peer: &i32) -> Result<Outcome, OutOfMemory>
        requires { self.old.spent ≡ false }
        ensures taken { IfOk result (λ o. record { outcome = o; kept = self.new } ≡ link_taken packet_form self.old peer.now) }
        ensures same_id { self.new.who.id ≡ self.old.who.id }
    {
        let me = self.peers.me();
        if lacks_server(&me, peer) {
            return Ok(Outcome::Refused(Refusal::BadPeer));
        }
        self.spent = true;
        let refused = come_up(
            &mut self.peers,
            &mut self.track,
            &mut self.told,
            alloc,
            &self.tree,
            peer,
        )?;
        self.spent = false;
        self.answer_up(alloc, peer, refused)
    }

    fn answer_up(
        &self,
        alloc: Global,
        peer: &i32,
        refused: Option<Refusal>,
    ) -> Result<Outcome, OutOfMemory>
        requires { self.now.spent ≡ false }
        ensures { IfOk result (λ o. o ≡ up_answer packet_form self.now peer.now refused) }
    {
        match refused {
            Some(refusal) => Ok(Outcome::Refused(refusal)),
            None => {
                let packets = show_all(alloc, &self.tree, &self.track, peer)?;
                Ok(done(alloc, packets))
            }
        }
    }

    /// A link went down: the rows of its peer are gone, and nothing is shown to it or counts as told.
    pub fn take_down(&mut self, alloc: Global, peer: &i32) -> Outcome
        requires { self.old.spent ≡ false }
        ensures taken { record { outcome = result; kept = self.new } ≡ down_taken self.old peer.now (peer_goes peer.now self.old.peers) }
        ensures same_id { self.new.who.id ≡ self.old.who.id }
    {
        if !self.peers.down(peer) {
            return Outcome::Refused(Refusal::NoPeer);
        }
        self.track.drop_peer(&mut self.tree, peer);
        self.told.forget(peer);
        quiet(alloc)
    }
}
