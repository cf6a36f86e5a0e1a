//! Received packets: what each does here, or why it is a fault.
ghost use Rattle.std.specs.Prelude.{◌≡◌, true, false, IfOk};
ghost use Rattle.std.specs.Ordering.{int_eq};
ghost use Rattle.packet_form.specs.Packets.{read_packet};
ghost use Rattle.peer_steps.specs.Judged.{link_judged};
ghost use Rattle.peer_steps.specs.Kept.{kept_tree};
ghost use Rattle.peer_steps.specs.Sound.{are_sound_entries, is_sound_message, is_sound_spawn};
ghost use Rattle.peer_steps.specs.Steps.{entries_taken, linked_taken, read_taken, shown_taken};
ghost use Rattle.peer_steps.specs.Track.{shown_spawn, hidden_row};

use super::Peer;
use crate::effects::fault_or_quiet;
use crate::entries::take_entries;
use crate::links::judge_link;
use crate::messages::{RowNews, news_in};
use gd_variant::{DeltaList, Message, OutOfMemory};
use packet_codec::{CodecStop, decode_packet};
use scene_model::{Fault, Outcome, SpawnMsg};
use std::alloc::Global;

impl Peer {
    /// A received packet.
    pub fn take_packet(
        &mut self,
        alloc: Global,
        from: &i32,
        bytes: &[u8],
    ) -> Result<Outcome, OutOfMemory>
        requires { self.old.spent ≡ false }
        ensures taken { IfOk result (λ o. record { outcome = o; kept = self.new } ≡ read_taken self.old from.now (read_packet bytes.now)) }
        ensures same_id { self.new.who.id ≡ self.old.who.id }
    {
        match decode_packet(alloc, bytes) {
            Ok(message) => self.take_message(alloc, from, message),
            Err(CodecStop::Bad(bad)) => Ok(Outcome::Fault(Fault::Malformed {
                at: bad.at,
                why: bad.why,
            })),
            Err(CodecStop::OutOfMemory) => Err(OutOfMemory),
        }
    }

    fn take_message(
        &mut self,
        alloc: Global,
        from: &i32,
        message: Message,
    ) -> Result<Outcome, OutOfMemory>
        requires live { self.old.spent ≡ false }
        requires sound { is_sound_message message ≡ true }
        ensures taken { IfOk result (λ o. record { outcome = o; kept = self.new } ≡ linked_taken self.old from.now message (link_judged self.old.peers from.now)) }
        ensures same_id { self.new.who.id ≡ self.old.who.id }
    {
        if let Some(fault) = judge_link(&self.peers, from) {
            return Ok(Outcome::Fault(fault));
        }
        match news_in(message) {
            Some(RowNews::Appears(spawn)) => self.take_spawn(alloc, from, spawn),
            Some(RowNews::Disappears(net)) => Ok(self.take_despawn(alloc, from, net)),
            Some(RowNews::Changes(entries)) => Ok(self.take_changes(alloc, from, entries)),
            None => Ok(Outcome::Fault(Fault::NotBuilt)),
        }
    }

    /// A spawn from a link that is up.
    fn take_spawn(
        &mut self,
        alloc: Global,
        from: &i32,
        spawn: SpawnMsg,
    ) -> Result<Outcome, OutOfMemory>
        requires live { self.old.spent ≡ false }
        requires other { int_eq from.now self.old.peers.me ≡ false }
        requires sound { is_sound_spawn spawn ≡ true }
        ensures taken { IfOk result (λ o. record { outcome = o; kept = self.new } ≡ shown_taken self.old (shown_spawn from.now spawn (kept_tree self.old))) }
        ensures same_id { self.new.who.id ≡ self.old.who.id }
    {
        self.spent = true;
        let fault = self.track.apply_spawn(alloc, &mut self.tree, from, spawn)?;
        self.spent = false;
        Ok(fault_or_quiet(alloc, fault))
    }

    /// A despawn from a link that is up.
    fn take_despawn(&mut self, alloc: Global, from: &i32, net: u32) -> Outcome
        requires { self.old.spent ≡ false }
        ensures taken { record { outcome = result; kept = self.new } ≡ shown_taken self.old (hidden_row from.now net (kept_tree self.old)) }
        ensures same_id { self.new.who.id ≡ self.old.who.id }
    {
        let fault = self.track.apply_despawn(&mut self.tree, from, net);
        fault_or_quiet(alloc, fault)
    }
    /// Values from a link that is up.
    fn take_changes(&mut self, alloc: Global, from: &i32, entries: DeltaList) -> Outcome
        requires live { self.old.spent ≡ false }
        requires sound { are_sound_entries entries ≡ true }
        ensures taken { record { outcome = result; kept = self.new } ≡ shown_taken self.old (entries_taken from.now entries (kept_tree self.old)) }
        ensures same_id { self.new.who.id ≡ self.old.who.id }
    {
        let fault = take_entries(&mut self.tree, from, entries);
        fault_or_quiet(alloc, fault)
    }
}
