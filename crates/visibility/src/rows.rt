//! An own row and a fixed synchronizer, with who sees them.
ghost use Rattle.std.specs.Prelude.{◌≡◌, ◌++◌, map, filter, slice_get, IfOk, OnOk};
ghost use Rattle.std.specs.List.{list_any};
ghost use Rattle.std.specs.Option.{option_copied};
ghost use Rattle.gd_variant.specs.Words.{some_is};
ghost use Rattle.sight_laws.specs.Sights.{Sight as SightOf, any_sees as any_sees_of, change_at, first_sight, hidden_from, is_visible, new_sight, row_sees, row_set, shown_again, shown_to_new};
ghost use Rattle.visibility.specs.Settings.{change_of};

use crate::setting::VisSetting;
use crate::vis::Vis;
use gd_variant::{OutOfMemory, Text};
use relay_sys::{drop_number, put_number};
use scene_model::SyncDef;
use sqlite_items::at as item_at;
use std::alloc::Global;
use std::marker::Model;

/// An own row: its number, who sees each of its synchronizers, and the peers to which it is shown, in
/// rising order.
#[derive(Drop)]
pub struct RowVis {
    pub num: u32,
    pub syncs: Vec<Vis>,
    pub shown: Vec<i32>,
}

impl Model for RowVis {
    ghost use Rattle.sight_laws.specs.Sights.{RowSight};

    ghost Value = { RowSight };

    ghost view = { λ r. record { num = r.num; syncs = r.syncs.items; shown = r.shown.items } };
}

/// A fixed synchronizer of this peer.
#[derive(Drop)]
pub struct FixedVis {
    pub path: Text,
    pub vis: Vis,
}

impl Model for FixedVis {
    ghost use Rattle.sight_laws.specs.Sights.{FixedSight};

    ghost Value = { FixedSight };

    ghost view = { λ x. record { path = x.path; sight = x.vis } };
}

/// The peers to which a row is shown.
pub fn shown_in(row: RowVis) -> Vec<i32>
    ensures { result.items ≡ row.shown }
{
    let RowVis {
        num: _,
        syncs: _,
        shown,
    } = row;
    shown
}

/// The peers to which a row is shown.
pub fn shown_to(row: &RowVis) -> &[i32]
    ensures { result.now ≡ row.now.shown }
{
    row.shown.as_slice()
}

/// Who sees the synchronizer at a place of a row.
pub fn vis_in(row: &RowVis, k: u32) -> Option<&Vis>
    ensures { option_copied result ≡ slice_get row.now.syncs k }
{
    item_at(row.syncs.as_slice(), k as usize)
}

/// Whether a peer may see the synchronizer at a place of a row.
pub fn sees_at(row: &RowVis, k: usize, peer: &i32) -> bool
    ensures { result ≡ some_is (λ (y : SightOf). is_visible y peer.now) (slice_get row.now.syncs k) }
{
    match item_at(row.syncs.as_slice(), k) {
        Some(vis) => vis.is_visible(peer),
        None => false,
    }
}

fn any_visible(syncs: &[Vis], peer: &i32) -> bool
    ensures { result ≡ list_any (λ z. is_visible z peer.now) syncs.now }
{
    syncs.iter().any(|vis| vis.is_visible(peer))
}

/// Whether a peer may see a row with these synchronizers: one of them is visible to the peer, or there
/// is none.
fn any_sees(syncs: &[Vis], peer: &i32) -> bool
    ensures { result ≡ any_sees_of syncs.now peer.now }
{
    match syncs {
        [] => true,
        syncs => any_visible(syncs, peer),
    }
}

/// Adds those of these peers that may see a row with these synchronizers.
fn push_seen(shown: &mut Vec<i32>, syncs: &[Vis], up: &[i32]) -> Result<(), OutOfMemory>
    ensures { OnOk result (shown.new.items ≡ shown.old.items ++ filter (any_sees_of syncs.now) up.now) }
{
    for peer in up {
        if any_sees(syncs, peer) {
            shown.push(*peer)?;
        }
    }
    Ok(())
}

/// The synchronizers as the scene has them.
fn first_syncs(alloc: Global, defs: &[SyncDef]) -> Result<Vec<Vis>, OutOfMemory>
    ensures { IfOk result (λ syncs. syncs.items ≡ map first_sight defs.now) }
{
    let mut syncs = Vec::new(alloc);
    for def in defs {
        syncs.push(Vis::new(alloc, def.public))?;
    }
    Ok(syncs)
}

/// Makes a setting at the synchronizer at a place, where there is one.
fn put_at(
    syncs: &mut Vec<Vis>,
    alloc: Global,
    k: u32,
    setting: &VisSetting,
) -> Result<(), OutOfMemory>
    ensures { OnOk result (syncs.new.items ≡ change_at k (change_of setting.now).change syncs.old.items) }
{
    if (k as usize) < syncs.len() {
        syncs[k as usize].put(alloc, setting)?;
    }
    Ok(())
}

/// A new row, shown to those of these peers that may see it.
pub fn new_row(alloc: Global, up: &[i32], num: u32, defs: &[SyncDef]) -> Result<RowVis, OutOfMemory>
    ensures { IfOk result (λ r. r ≡ new_sight up.now num defs.now) }
{
    let syncs = first_syncs(alloc, defs)?;
    let mut row = RowVis {
        num,
        syncs,
        shown: Vec::new(alloc),
    };
    row.show_again(up)?;
    Ok(row)
}

impl RowVis {
    /// Whether a peer may see the row.
    pub fn sees(&self, peer: &i32) -> bool
        ensures { result ≡ row_sees self.now peer.now }
    {
        any_sees(self.syncs.as_slice(), peer)
    }

    /// The row is shown to those of these peers that may see it.
    pub fn show_again(&mut self, up: &[i32]) -> Result<(), OutOfMemory>
        ensures { OnOk result (self.new ≡ shown_again up.now self.old) }
    {
        self.shown.clear();
        push_seen(&mut self.shown, self.syncs.as_slice(), up)
    }

    /// Makes a setting at a synchronizer. Then the row is shown to those of these peers that may see
    /// it.
    pub fn set(
        &mut self,
        alloc: Global,
        up: &[i32],
        k: u32,
        setting: &VisSetting,
    ) -> Result<(), OutOfMemory>
        ensures { OnOk result (self.new ≡ row_set up.now k (change_of setting.now).change self.old) }
    {
        put_at(&mut self.syncs, alloc, k, setting)?;
        self.show_again(up)
    }

    /// The row is shown to a new peer too, where the peer may see it.
    pub fn show_to(&mut self, peer: &i32) -> Result<(), OutOfMemory>
        ensures { OnOk result (self.new ≡ shown_to_new peer.now self.old) }
    {
        if self.sees(peer) {
            put_number(&mut self.shown, peer)?;
        }
        Ok(())
    }

    /// The row isn't shown to a peer that went down.
    pub fn hide_from(&mut self, peer: &i32)
        ensures { self.new ≡ hidden_from peer.now self.old }
    {
        drop_number(&mut self.shown, peer);
    }
}

impl FixedVis {
    /// Makes a setting.
    pub fn put(&mut self, alloc: Global, setting: &VisSetting) -> Result<(), OutOfMemory>
        ensures { OnOk result (self.new ≡ record self.old { sight = (change_of setting.now).change self.old.sight }) }
    {
        self.vis.put(alloc, setting)
    }
}
