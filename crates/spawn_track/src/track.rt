//! The own rows of one peer, and who sees them.
ghost use Rattle.std.specs.Prelude.{◌≡◌, true, IfOk, OnOk, slice_get};
ghost use Rattle.std.specs.List.{list_all};
ghost use Rattle.std.specs.Option.{option_copied};
ghost use Rattle.gd_variant.specs.Words.{some_is};
ghost use Rattle.gd_variant.specs.Sound.{is_sound};
ghost use Rattle.scene_model.specs.declared.scene.Prop.{Prop as PropOf};
ghost use Rattle.scene_model.specs.Valid.{IsValidScene};
ghost use Rattle.peer_steps.specs.Arguments.{is_right_spawn, is_sound_argument};
ghost use Rattle.peer_steps.specs.Fits.{Fits};
ghost use Rattle.peer_model.specs.Updates.{live_at};
ghost use Rattle.peer_steps.specs.Judged.{sight_judged};
ghost use Rattle.peer_steps.specs.Sites.{who_at};
ghost use Rattle.peer_steps.specs.Track.{first_track, own_despawn, own_sighted, own_spawn, hidden_row, number_at as number_of, shown_of, shown_spawn, sight_at, sights_set, track_down, track_up, track_without, tree_without};
ghost use Rattle.peer_steps.specs.Rights.{is_right_row};
ghost use Rattle.peer_steps.specs.Tellings.{ids_with, syncs_seen as syncs_seen_of};
ghost use Rattle.sight_laws.specs.Sights.{RowSight as RowSightOf, row_sees};
ghost use Rattle.spawn_track.specs.Judging.{IsDespawned};
ghost use Rattle.spawn_track.specs.Numbers.{IsTracked, row_at as row_at_of};
ghost use Rattle.visibility.specs.Settings.{change_of};

use crate::despawning::{judge_despawn, number_at, row_number};
use crate::making::spawn_row;
use crate::naming::judge_named;
use crate::numbers::{drop_row, row_among};
use crate::placing::drop_rows;
use crate::receiving::{put_spawn, take_row};
use crate::seeing::seen_syncs;
use gd_variant::{OutOfMemory, Text};
use headless_tree::Tree;
use peer_steps::SpawnedRow;
use scene_model::{Fault, Refusal, Scene, SpawnMsg, SpawnOp, SyncRefs};
use std::alloc::Global;
use std::marker::Model;
use visibility::{Sights, Vis, VisSetting};

/// A row that was despawned: its number, and the peers to which it was shown.
#[derive(Drop)]
pub struct Gone {
    pub num: u32,
    pub shown: Vec<i32>,
}

/// The own rows of one peer, oldest first, the number of the next one, and who sees each of them and
/// each fixed synchronizer of this peer. A row's node stands in the peer's tree, beside those of the
/// others' rows.
#[derive(Drop)]
pub struct Track {
    next: u32,
    rows: Vec<SpawnedRow>,
    sights: Sights,
}

impl Model for Track {
    ghost use Rattle.std.specs.Coded.{codes};
    ghost use Rattle.gd_variant.specs.contracts.value.Variant as variant;
    ghost use Rattle.peer_steps.specs.Track.{Track as TrackOf};

    ghost Value = { TrackOf };

    ghost coded = { Prim.hlevel (codes, variant.the_row.coded) };

    ghost view = { λ t. record { next = t.next; rows = t.rows.items; sights = t.sights } };
}

impl Track {
    /// No rows yet, and each fixed synchronizer of the peer with this number as the scene has it; the
    /// first number is 1.
    pub fn new(alloc: Global, scene: &Scene, me: &i32) -> Result<Track, OutOfMemory>
        ensures { IfOk result (λ t. t ≡ first_track scene.now me.now) }
    {
        let sights = Sights::new(alloc, scene, me)?;
        Ok(Track {
            next: 1,
            rows: Vec::new(alloc),
            sights,
        })
    }

    /// The rows, oldest first.
    pub fn rows(&self) -> &[SpawnedRow]
        ensures { result.now ≡ self.now.rows }
    {
        self.rows.as_slice()
    }

    /// Spawns a node of the peer with this number (Godot: `MultiplayerSpawner`), by scene or custom,
    /// or says why not: its row comes last, its node stands in the tree with its argument and its
    /// settings, and it is shown to those of the peers that are up that may see it.
    ///
    /// Where memory runs out, nothing is said of the rows and the tree.
    pub fn spawn(
        &mut self,
        alloc: Global,
        me: &i32,
        up: &[i32],
        tree: &mut Tree,
        op: &SpawnOp,
    ) -> Result<Option<Refusal>, OutOfMemory>
        requires fits { Fits me.now tree.old self.old }
        requires right { is_right_spawn op.now ≡ true }
        requires sound { list_all (λ (p : PropOf). is_sound p.value) op.now.sets ≡ true }
        requires argument { is_sound_argument op.now.arg ≡ true }
        ensures { IfOk result (λ r. record { refused = r; track = self.new; tree = tree.new } ≡ own_spawn me.now up.now op.now self.old tree.old) }
    {
        spawn_row(
            alloc,
            me,
            up,
            tree,
            &mut self.next,
            &mut self.rows,
            &mut self.sights,
            op,
        )
    }

    /// Despawns the node at a path, or says why not: its row is gone, and its node.
    pub fn despawn(
        &mut self,
        alloc: Global,
        me: &i32,
        tree: &mut Tree,
        path: &Text,
    ) -> Result<Gone, Refusal>
        requires { IsTracked self.old }
        ensures { IsDespawned (own_despawn me.now path.now self.old tree.old) (number_of tree.old.nodes path.now) self.new tree.new result }
    {
        let num = number_at(tree, path);
        match judge_despawn(me, tree, path) {
            Some(refusal) => Err(refusal),
            None => {
                tree.remove(path.as_str());
                let shown = self.take_row(alloc, num);
                Ok(Gone { num, shown })
            }
        }
    }

    fn take_row(&mut self, alloc: Global, num: u32) -> Vec<i32>
        requires { IsTracked self.old }
        ensures shown { result.items ≡ shown_of num self.old.sights }
        ensures track { self.new ≡ track_without num self.old }
    {
        drop_row(&mut self.rows, num);
        self.sights.take_row(alloc, num)
    }

    /// Makes a setting at a synchronizer, which is named by the path of its node and its place there,
    /// or says why not. A row is then shown to those of the peers that are up that may see it.
    pub fn set(
        &mut self,
        alloc: Global,
        me: &i32,
        up: &[i32],
        tree: &Tree,
        path: &Text,
        k: u32,
        setting: &VisSetting,
    ) -> Result<Option<Refusal>, OutOfMemory>
        requires { IsTracked self.old }
        ensures { IfOk result (λ r. record { refused = r; track = self.new } ≡ own_sighted me.now up.now path.now k (change_of setting.now) self.old tree.now) }
    {
        match self.judge_set(me, tree, path, k, setting) {
            Some(refusal) => Ok(Some(refusal)),
            None => {
                self.put(alloc, up, tree, path, k, setting)?;
                Ok(None)
            }
        }
    }

    fn judge_set(
        &self,
        me: &i32,
        tree: &Tree,
        path: &Text,
        k: u32,
        setting: &VisSetting,
    ) -> Option<Refusal>
        requires { IsTracked self.now }
        ensures { result ≡ sight_judged (who_at me.now tree.now.scene) tree.now.nodes path.now k (some_is (change_of setting.now).is_full (sight_at self.now.sights (live_at tree.now.nodes path.now) path.now k)) }
    {
        match judge_named(me, tree, path, k) {
            Some(refusal) => Some(refusal),
            None => {
                if self.is_full(tree, path, k, setting) {
                    Some(Refusal::VisFull)
                } else {
                    None
                }
            }
        }
    }

    /// Who sees a synchronizer of this peer, which is named by the path of its node and its place
    /// there: of an own row, or a fixed one.
    pub fn vis(&self, tree: &Tree, path: &Text, k: u32) -> Option<&Vis>
        requires { IsTracked self.now }
        ensures { option_copied result ≡ sight_at self.now.sights (live_at tree.now.nodes path.now) path.now k }
    {
        match row_number(tree, path) {
            Some(num) => self.sights.row_vis(num, k),
            None => self.sights.fixed_vis(path),
        }
    }

    fn is_full(&self, tree: &Tree, path: &Text, k: u32, setting: &VisSetting) -> bool
        requires { IsTracked self.now }
        ensures { result ≡ some_is (change_of setting.now).is_full (sight_at self.now.sights (live_at tree.now.nodes path.now) path.now k) }
    {
        match self.vis(tree, path, k) {
            Some(vis) => vis.is_full(setting),
            None => false,
        }
    }

    fn put(
        &mut self,
        alloc: Global,
        up: &[i32],
        tree: &Tree,
        path: &Text,
        k: u32,
        setting: &VisSetting,
    ) -> Result<(), OutOfMemory>
        requires { IsTracked self.old }
        ensures { OnOk result (self.new ≡ record self.old { sights = sights_set up.now (live_at tree.now.nodes path.now) path.now k (change_of setting.now).change self.old.sights }) }
    {
        match row_number(tree, path) {
            Some(num) => self.sights.set_row(alloc, up, num, k, setting),
            None => self.sights.set_fixed(alloc, path, setting),
        }
    }

    /// A peer came up: the rows that it may see are shown to it.
    pub fn peer_up(&mut self, peer: &i32) -> Result<(), OutOfMemory>
        ensures { OnOk result (self.new ≡ track_up peer.now self.old) }
    {
        self.sights.peer_up(peer)
    }

    /// Whether a peer may see the row at a place among the rows.
    pub fn sees(&self, place: usize, peer: &i32) -> bool
        ensures { result ≡ some_is (λ (v : RowSightOf). row_sees v peer.now) (slice_get self.now.sights.rows place) }
    {
        self.sights.sees(place, peer)
    }

    /// The synchronizers of this peer that another may see: the fixed ones in the order of the scene,
    /// then those of the rows, oldest first.
    pub fn syncs_seen(
        &self,
        alloc: Global,
        tree: &Tree,
        peer: &i32,
    ) -> Result<SyncRefs, OutOfMemory>
        requires valid { IsValidScene tree.now.scene }
        requires rows { list_all (is_right_row tree.now.scene) self.now.rows ≡ true }
        ensures { IfOk result (λ syncs. syncs ≡ syncs_seen_of peer.now tree.now.scene self.now) }
    {
        seen_syncs(alloc, tree, &self.sights, self.rows.as_slice(), peer)
    }

    /// The peers to which the row of a number is shown, in rising order.
    pub fn shown(&self, num: u32) -> &[i32]
        requires { IsTracked self.now }
        ensures { result.now ≡ shown_of num self.now.sights }
    {
        self.sights.shown(num)
    }

    /// The own row whose node stands at a path.
    pub fn row_at(&self, tree: &Tree, path: &Text) -> Option<&SpawnedRow>
        requires { IsTracked self.now }
        ensures { option_copied result ≡ row_at_of tree.now.nodes path.now self.now.rows }
    {
        match row_number(tree, path) {
            Some(num) => row_among(self.rows.as_slice(), num),
            None => None,
        }
    }

    /// The ids of the synchronizers of the row with a number.
    pub fn ids_of(&self, num: u32) -> &[u32]
        requires { IsTracked self.now }
        ensures { result.now ≡ ids_with num self.now.rows }
    {
        match row_among(self.rows.as_slice(), num) {
            Some(row) => row.ids.as_slice(),
            None => &[],
        }
    }

    /// Puts the node of a spawn that another peer sent into the tree, or says why the spawn is a
    /// fault.
    pub fn apply_spawn(
        &self,
        alloc: Global,
        tree: &mut Tree,
        from: &i32,
        spawn: SpawnMsg,
    ) -> Result<Option<Fault>, OutOfMemory>
        requires { IsValidScene tree.old.scene }
        ensures { IfOk result (λ f. (f, tree.new) ≡ shown_spawn from.now spawn tree.old) }
    {
        put_spawn(alloc, tree, from, spawn)
    }

    /// Takes the node of a row that another peer hides out of the tree, or says why that is a fault.
    pub fn apply_despawn(&self, tree: &mut Tree, from: &i32, net: u32) -> Option<Fault>
        ensures { (result, tree.new) ≡ hidden_row from.now net tree.old }
    {
        take_row(tree, from, net)
    }

    /// A peer went down: the nodes that it spawned leave the tree, and nothing is shown to it.
    pub fn drop_peer(&mut self, tree: &mut Tree, peer: &i32)
        ensures tree { tree.new ≡ tree_without peer.now tree.old }
        ensures track { self.new ≡ track_down peer.now self.old }
    {
        drop_rows(tree, peer);
        self.sights.peer_down(peer);
    }
}
