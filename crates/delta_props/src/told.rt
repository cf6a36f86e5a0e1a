//! The values that each peer was told.
ghost use Rattle.std.specs.Prelude.{◌≡◌, ◌≤◌, true, [], IfOk, OnOk, OnErr, IfSome, length};
ghost use Rattle.std.specs.Option.{option_copied};
ghost use Rattle.scene_model.specs.Syncs.{change_props};
ghost use Rattle.scene_model.specs.Valid.{IsValidScene};
ghost use Rattle.headless_tree.specs.Nodes.{live};
ghost use Rattle.delta_props.specs.Telling.{told_of, with_told, without_sync, without_peer, told_one, told_sync, sync_named, collected};

use crate::finding::find_named;
use crate::telling::{copy_changes, copy_masked, count_changes, untold_mask};
use gd_variant::{DeltaEntry, DeltaList, OutOfMemory, ValueList};
use headless_tree::{NodeNow, Tree};
use indexmap::IndexMap;
use scene_model::{SyncDef, SyncRef, SyncRefs, TryClone};
use sqlite_items::Items;
use std::alloc::Global;
use std::marker::Model;

/// The values that each peer was told of the on-change properties of this peer's synchronizers, by
/// peer and synchronizer. Of a synchronizer that isn't here a peer was told nothing.
#[derive(Drop)]
pub struct Told {
    values: IndexMap<(i32, u32), ValueList>,
}

impl Model for Told {
    ghost use Rattle.std.specs.Coded.{codes};
    ghost use Rattle.gd_variant.specs.contracts.value.Variant as variant;
    ghost use Rattle.delta_props.specs.Telling.{ToldValues};

    ghost Value = { ToldValues };

    ghost coded = { Prim.hlevel (codes, variant.the_row.coded) };

    ghost view = { λ t. t.values.entries };
}

impl Told {
    /// Nobody was told anything.
    pub fn new(alloc: Global) -> Told
        ensures { result ≡ [] }
    {
        Told {
            values: IndexMap::new(alloc),
        }
    }

    /// What a peer was told of the synchronizer with this id: one value for each of its on-change
    /// properties.
    pub fn told(&self, peer: &i32, id: u32) -> Option<&ValueList>
        ensures { option_copied result ≡ told_of peer.now id self.now }
    {
        self.values.get(&(*peer, id))
    }

    /// A peer counts as told these values of the synchronizer with this id, one for each of its
    /// on-change properties.
    pub fn put(&mut self, peer: &i32, id: u32, values: ValueList) -> Result<(), OutOfMemory>
        ensures ok { OnOk result (self.new ≡ with_told peer.now id values self.old) }
        ensures err { OnErr result (self.new ≡ self.old) }
    {
        self.values.insert((*peer, id), values)?;
        Ok(())
    }

    /// A synchronizer was shown to a peer, which has these values of its on-change properties.
    pub fn show(
        &mut self,
        alloc: Global,
        peer: &i32,
        sync: &SyncRef,
        values: &ValueList,
    ) -> Result<(), OutOfMemory>
        ensures ok { OnOk result (self.new ≡ with_told peer.now sync.now.id values.now self.old) }
        ensures err { OnErr result (self.new ≡ self.old) }
    {
        let values = values.try_clone(alloc)?;
        self.put(peer, sync.id, values)
    }

    /// A synchronizer was hidden from a peer: nothing counts as told of it.
    pub fn hide(&mut self, peer: &i32, id: u32)
        ensures { self.new ≡ without_sync peer.now id self.old }
    {
        self.values.swap_remove(&(*peer, id));
    }

    /// A peer is gone: nothing counts as told to it.
    pub fn forget(&mut self, peer: &i32)
        ensures { self.new ≡ without_peer peer.now self.old }
    {
        self.values.retain(|key, _| key.0 != *peer);
    }

    /// What a frame tells a peer of one synchronizer of a node: the values of those on-change properties
    /// that aren't `same` as those that it was told. Afterwards it counts as told the present ones.
    pub fn tell(
        &mut self,
        alloc: Global,
        peer: &i32,
        id: u32,
        node: &NodeNow,
        def: &SyncDef,
    ) -> Result<Option<DeltaEntry>, OutOfMemory>
        requires few { length (change_props def.now) ≤ 64 }
        ensures { IfOk result (λ e. (e, self.new) ≡ told_one peer.now id (live node.now) def.now self.old) }
    {
        let props = def.props.as_slice();
        let count = count_changes(props);
        let mask = untold_mask(node, props, count, self.told(peer, id));
        if mask == 0 {
            return Ok(None);
        }
        let values = copy_masked(alloc, node, props, mask)?;
        let now = copy_changes(alloc, node, props)?;
        self.put(peer, id, now)?;
        Ok(Some(DeltaEntry { id, mask, values }))
    }

    fn tell_named(
        &mut self,
        alloc: Global,
        tree: &Tree,
        peer: &i32,
        sync: &SyncRef,
    ) -> Result<Option<DeltaEntry>, OutOfMemory>
        requires { IsValidScene tree.now.scene }
        ensures { IfOk result (λ e. (e, self.new) ≡ told_sync peer.now sync.now.id (sync_named tree.now.scene tree.now.nodes sync.now.path sync.now.k) self.old) }
    {
        match find_named(tree, &sync.path, sync.k) {
            Some((node, def)) => self.tell(alloc, peer, sync.id, node, def),
            None => Ok(None),
        }
    }

    /// What a frame tells a peer of some synchronizers in order: one entry for each that has an
    /// on-change property whose value isn't `same` as the one that the peer was told. Afterwards the
    /// present values count as told.
    pub fn collect(
        &mut self,
        alloc: Global,
        tree: &Tree,
        peer: &i32,
        syncs: &SyncRefs,
    ) -> Result<DeltaList, OutOfMemory>
        requires { IsValidScene tree.now.scene }
        ensures { IfOk result (λ entries. (entries, self.new) ≡ collected peer.now tree.now.scene tree.now.nodes syncs.now self.old) }
    {
        let mut entries = Items::new(alloc);
        for sync in syncs.as_slice() {
            if let Some(entry) = self.tell_named(alloc, tree, peer, sync)? {
                entries.push(entry)?;
            }
        }
        Ok(entries)
    }
}
