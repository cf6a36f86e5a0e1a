//! Operations of this peer.
ghost use Rattle.std.specs.Prelude.{◌≡◌, ◌-◌, true, false, Some, length, slice_get, IfOk};
ghost use Rattle.std.specs.List.{list_all};
ghost use Rattle.gd_variant.specs.Sound.{is_sound};
ghost use Rattle.scene_model.specs.declared.scene.Prop.{Prop as PropOf};
ghost use Rattle.peer_laws.specs.Built.{is_built_op};
ghost use Rattle.peer_steps.specs.declared.rows.SpawnedRow.{SpawnedRow as RowOf};
ghost use Rattle.peer_steps.specs.Arguments.{is_right_spawn, is_sound_argument};
ghost use Rattle.peer_steps.specs.Judged.{set_judged};
ghost use Rattle.peer_steps.specs.Kept.{kept_tree};
ghost use Rattle.peer_steps.specs.Sound.{is_sound_op};
ghost use Rattle.peer_steps.specs.Steps.{frame_taken, op_taken, set_taken, spawn_taken, despawn_taken, sight_taken, done_with, shows_of};
ghost use Rattle.peer_steps.specs.Track.{own_spawn, own_despawn, own_sighted};
ghost use Rattle.peer_core.specs.Forms.{packet_form};
ghost use Rattle.peer_core.specs.Parts.{own_row, row_told, shown_before};
ghost use Rattle.visibility.specs.Settings.{change_of};

use super::Peer;
use crate::effects::{answer_despawn, done, quiet, refused_or_quiet};
use crate::sending::{shift_row, show_to_each};
use crate::setting::set;
use crate::telling::{ids_at, note_gone, note_newest, note_shift, tell_frame};
use gd_variant::{OutOfMemory, Text, Variant};
use scene_model::{Op, Outcome, PeerList, SpawnOp};
use sqlite_items::Items;
use std::alloc::Global;
use visibility::VisSetting;

impl Peer {
    /// An operation. The value of an assignment is copied.
    pub fn operate(&mut self, alloc: Global, op: &Op) -> Result<Outcome, OutOfMemory>
        requires live { self.old.spent ≡ false }
        requires built { is_built_op op.now ≡ true }
        requires sound { is_sound_op op.now ≡ true }
        ensures taken { IfOk result (λ o. record { outcome = o; kept = self.new } ≡ op_taken packet_form self.old op.now) }
        ensures same_id { self.new.who.id ≡ self.old.who.id }
    {
        match op {
            Op::Spawn(op) => self.spawn(alloc, op),
            Op::Custom(op) => self.spawn(alloc, op),
            Op::Despawn { path } => self.despawn(alloc, path),
            Op::Public { path, k, on } => {
                self.set_sight(alloc, path, *k, &VisSetting::Public(*on))
            }
            Op::For { path, k, peer, on } => self.set_sight(
                alloc,
                path,
                *k,
                &VisSetting::For {
                    peer: *peer,
                    on: *on,
                },
            ),
            Op::Filter { path, k, peers } => {
                let peers = Items::from_slice(alloc, peers.as_slice())?;
                self.set_sight(alloc, path, *k, &VisSetting::Filter(peers))
            }
            Op::Set { path, prop, value } => {
                let value = value.try_clone(alloc)?;
                Ok(self.assign(alloc, path, prop, value))
            }
            Op::Frame => self.tell_frame(alloc),
            Op::Call(_) | Op::Raw { .. } => unreachable!(),
        }
    }

    /// An assignment.
    fn assign(&mut self, alloc: Global, path: &Text, prop: &Text, value: Variant) -> Outcome
        requires live { self.old.spent ≡ false }
        requires sound { is_sound value ≡ true }
        ensures taken { record { outcome = result; kept = self.new } ≡ set_taken self.old path.now prop.now value (set_judged self.old.who self.old.nodes path.now prop.now value) }
        ensures same_id { self.new.who.id ≡ self.old.who.id }
    {
        let me = self.peers.me();
        let refused = set(&me, &mut self.tree, path, prop, value);
        refused_or_quiet(alloc, refused)
    }

    /// A spawn by scene or a custom one: its row is shown to the peers that may see it.
    fn spawn(&mut self, alloc: Global, op: &SpawnOp) -> Result<Outcome, OutOfMemory>
        requires live { self.old.spent ≡ false }
        requires right { is_right_spawn op.now ≡ true }
        requires sound { list_all (λ (p : PropOf). is_sound p.value) op.now.sets ≡ true }
        requires argument { is_sound_argument op.now.arg ≡ true }
        ensures taken { IfOk result (λ o. record { outcome = o; kept = self.new } ≡ spawn_taken packet_form self.old op.now (own_spawn self.old.who.id self.old.peers.up op.now self.old.track (kept_tree self.old))) }
        ensures same_id { self.new.who.id ≡ self.old.who.id }
    {
        let me = self.peers.me();
        self.spent = true;
        let refused = self
            .track
            .spawn(alloc, &me, self.peers.up_now(), &mut self.tree, op)?;
        match refused {
            Some(refusal) => {
                self.spent = false;
                Ok(Outcome::Refused(refusal))
            }
            None => {
                note_newest(&mut self.told, alloc, &self.tree, &self.track)?;
                self.spent = false;
                self.show_newest(alloc)
            }
        }
    }

    /// The packets that show the newest row.
    fn show_newest(&self, alloc: Global) -> Result<Outcome, OutOfMemory>
        requires { self.now.spent ≡ false }
        ensures { (row : RowOf) → slice_get self.now.track.rows (length self.now.track.rows - 1) ≡ Some row → IfOk result (λ o. o ≡ done_with (shows_of packet_form self.now row)) }
    {
        match self.track.rows().last() {
            Some(row) => {
                let packets = show_to_each(alloc, &self.tree, self.track.shown(row.num), row)?;
                Ok(done(alloc, packets))
            }
            None => Ok(quiet(alloc)),
        }
    }

    /// A despawn: the row is hidden from each peer to which it is shown.
    fn despawn(&mut self, alloc: Global, path: &Text) -> Result<Outcome, OutOfMemory>
        requires { self.old.spent ≡ false }
        ensures taken { IfOk result (λ o. record { outcome = o; kept = self.new } ≡ despawn_taken packet_form self.old (own_despawn self.old.who.id path.now self.old.track (kept_tree self.old))) }
        ensures same_id { self.new.who.id ≡ self.old.who.id }
    {
        let me = self.peers.me();
        let ids = ids_at(alloc, &self.tree, &self.track, path)?;
        let despawned = self.track.despawn(alloc, &me, &mut self.tree, path);
        note_gone(&mut self.told, ids.as_slice(), &despawned);
        answer_despawn(alloc, despawned)
    }

    /// A setting of visibility: of an own row, each peer is told what it sees otherwise than before.
    fn set_sight(
        &mut self,
        alloc: Global,
        path: &Text,
        k: u32,
        setting: &VisSetting,
    ) -> Result<Outcome, OutOfMemory>
        requires { self.old.spent ≡ false }
        ensures taken { IfOk result (λ o. record { outcome = o; kept = self.new } ≡ sight_taken packet_form self.old path.now (own_sighted self.old.who.id self.old.peers.up path.now k (change_of setting.now) self.old.track (kept_tree self.old))) }
        ensures same_id { self.new.who.id ≡ self.old.who.id }
    {
        let me = self.peers.me();
        let before = self.shown_at(alloc, path)?;
        self.spent = true;
        let refused = self.track.set(
            alloc,
            &me,
            self.peers.up_now(),
            &self.tree,
            path,
            k,
            setting,
        )?;
        match refused {
            Some(refusal) => {
                self.spent = false;
                Ok(Outcome::Refused(refusal))
            }
            None => {
                note_shift(
                    &mut self.told,
                    alloc,
                    &self.tree,
                    &self.track,
                    path,
                    before.as_slice(),
                    self.peers.up_now(),
                )?;
                self.spent = false;
                self.tell_shifts(alloc, path, before.as_slice())
            }
        }
    }

    /// A frame: each peer that is up is told the on-change properties that it may see and whose values
    /// differ from those that it was told.
    fn tell_frame(&mut self, alloc: Global) -> Result<Outcome, OutOfMemory>
        requires { self.old.spent ≡ false }
        ensures taken { IfOk result (λ o. record { outcome = o; kept = self.new } ≡ frame_taken packet_form self.old) }
        ensures same_id { self.new.who.id ≡ self.old.who.id }
    {
        self.spent = true;
        let packets = tell_frame(
            &mut self.told,
            alloc,
            &self.tree,
            &self.track,
            self.peers.up_now(),
        )?;
        self.spent = false;
        Ok(done(alloc, packets))
    }

    /// The peers to which the own row at a path is shown.
    fn shown_at(&self, alloc: Global, path: &Text) -> Result<PeerList, OutOfMemory>
        requires { self.now.spent ≡ false }
        ensures { IfOk result (λ shown. shown ≡ shown_before self.now (own_row self.now path.now)) }
    {
        match self.track.row_at(&self.tree, path) {
            Some(row) => {
                let shown = Items::from_slice(alloc, self.track.shown(row.num))?;
                Ok(shown)
            }
            None => Ok(Items::new(alloc)),
        }
    }

    /// What the peers are told of the own row at a path, by those to which it was shown before.
    fn tell_shifts(
        &self,
        alloc: Global,
        path: &Text,
        before: &[i32],
    ) -> Result<Outcome, OutOfMemory>
        requires { self.now.spent ≡ false }
        ensures { IfOk result (λ o. o ≡ done_with (row_told packet_form self.now before.now (own_row self.now path.now))) }
    {
        match self.track.row_at(&self.tree, path) {
            Some(row) => {
                let after = self.track.shown(row.num);
                let packets = shift_row(
                    alloc,
                    &self.tree,
                    row,
                    before,
                    after,
                    self.peers.up_now(),
                )?;
                Ok(done(alloc, packets))
            }
            None => Ok(quiet(alloc)),
        }
    }
}
