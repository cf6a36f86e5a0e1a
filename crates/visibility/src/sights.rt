//! Who sees the own rows and the fixed synchronizers of one peer.
ghost use Rattle.std.specs.Prelude.{◌≡◌, ◌<◌, ◌≤◌, ◌++◌, true, find, flat_map, map, length, position, slice_get, IfOk, IfSome, OnOk, nat_eq, nat_lt};
ghost use Rattle.std.specs.List.{prefix_len};
ghost use Rattle.std.specs.Option.{option_copied};
ghost use Rattle.gd_variant.specs.Words.{some_is, text_eq};
ghost use Rattle.sight_laws.specs.Sights.{FixedSight as FixedSightOf, RowSight as RowSightOf, Sight as SightOf, is_visible, first_sights, with_row, without_row, with_row_set, with_fixed_set, with_peer_up, with_peer_down, row_sees, shown_to_new, hidden_from};
ghost use Rattle.peer_steps.specs.Track.{shown_of, row_sight_at, fixed_sight_at};
ghost use Rattle.visibility.specs.Rising.{rise_by_number};
ghost use Rattle.visibility.specs.Settings.{change_of, fixed_from, fixed_set, path_seen};

use crate::rows::{FixedVis, RowVis, new_row, sees_at, shown_in, shown_to, vis_in};
use crate::setting::VisSetting;
use crate::vis::Vis;
use gd_variant::{OutOfMemory, Text};
use scene_model::{Node, Role, Scene, SyncDef, same_text};
use sqlite_items::at as item_at;
use std::alloc::Global;
use std::marker::Model;

/// The own rows by number, with who sees them and to which peers they are shown, and the fixed
/// synchronizers of this peer in the order of the scene. A call that looks for a row takes it that the
/// rows stand by number.
#[derive(Drop)]
pub struct Sights {
    rows: Vec<RowVis>,
    fixed: Vec<FixedVis>,
}

impl Model for Sights {
    ghost use Rattle.sight_laws.specs.Sights.{Sights as SightsOf};

    ghost Value = { SightsOf };

    ghost view = { λ v. record { rows = v.rows.items; fixed = v.fixed.items } };
}

/// Whether a row stands before a number.
fn is_before(row: &RowVis, num: u32) -> bool
    ensures { result ≡ nat_lt row.now.num num }
{
    row.num < num
}

fn has_number(row: &RowVis, num: u32) -> bool
    ensures { result ≡ nat_eq row.now.num num }
{
    row.num == num
}

/// How many rows stand before a number, by a binary search.
fn count_before(rows: &[RowVis], num: u32) -> usize
    requires { rise_by_number rows.now ≡ true }
    ensures count { result ≡ prefix_len (λ (r : RowSightOf). nat_lt r.num num) rows.now }
    ensures within { result ≤ length rows.now }
{
    rows.partition_point(|row| is_before(row, num))
}

/// The place of the row of a number, among rows by number.
fn place_of(rows: &[RowVis], num: u32) -> Option<usize>
    requires { rise_by_number rows.now ≡ true }
    ensures place { result ≡ position (λ (r : RowSightOf). nat_eq r.num num) rows.now }
    ensures within { IfSome result (λ i. i < length rows.now) }
{
    let place = count_before(rows, num);
    match item_at(rows, place) {
        Some(row) => {
            if has_number(row, num) {
                Some(place)
            } else {
                None
            }
        }
        None => None,
    }
}

fn is_at(fixed: &FixedVis, path: &Text) -> bool
    ensures { result ≡ text_eq fixed.now.path path.now }
{
    same_text(&fixed.path, path)
}

fn find_fixed<'a>(fixed: &'a [FixedVis], path: &Text) -> Option<&'a FixedVis>
    ensures { option_copied result ≡ find (λ (x : FixedSightOf). text_eq x.path path.now) fixed.now }
{
    fixed.iter().find(|one| is_at(one, path))
}

/// Adds the fixed synchronizer that a node is, where this peer is its authority.
fn push_fixed(
    alloc: Global,
    fixed: &mut Vec<FixedVis>,
    node: &Node,
    me: &i32,
) -> Result<(), OutOfMemory>
    ensures { OnOk result (fixed.new.items ≡ fixed.old.items ++ fixed_from me.now node.now) }
{
    if node.auth == *me {
        if let Role::Sync(sync) = &node.role {
            let path = node.path.try_clone(alloc)?;
            let vis = Vis::new(alloc, sync.public);
            fixed.push(FixedVis { path, vis })?;
        }
    }
    Ok(())
}

/// The fixed synchronizers of a peer as the scene has them.
fn first_fixed(alloc: Global, nodes: &[Node], me: &i32) -> Result<Vec<FixedVis>, OutOfMemory>
    ensures { IfOk result (λ fixed. fixed.items ≡ flat_map (fixed_from me.now) nodes.now) }
{
    let mut fixed = Vec::new(alloc);
    for node in nodes {
        push_fixed(alloc, &mut fixed, node, me)?;
    }
    Ok(fixed)
}

fn put_where(
    fixed: &mut FixedVis,
    alloc: Global,
    path: &Text,
    setting: &VisSetting,
) -> Result<(), OutOfMemory>
    ensures { OnOk result (fixed.new ≡ fixed_set path.now (change_of setting.now).change fixed.old) }
{
    if is_at(fixed, path) {
        fixed.put(alloc, setting)?;
    }
    Ok(())
}

/// Makes a setting at the fixed synchronizer at a path.
fn put_fixed(
    fixed: &mut Vec<FixedVis>,
    alloc: Global,
    path: &Text,
    setting: &VisSetting,
) -> Result<(), OutOfMemory>
    ensures { OnOk result (fixed.new.items ≡ map (fixed_set path.now (change_of setting.now).change) fixed.old.items) }
{
    for place in 0..fixed.len() {
        put_where(&mut fixed[place], alloc, path, setting)?;
    }
    Ok(())
}

/// Shows to a new peer the rows that it may see.
fn show_rows(rows: &mut Vec<RowVis>, peer: &i32) -> Result<(), OutOfMemory>
    ensures { OnOk result (rows.new.items ≡ map (shown_to_new peer.now) rows.old.items) }
{
    for place in 0..rows.len() {
        rows[place].show_to(peer)?;
    }
    Ok(())
}

/// Shows no row to a peer that went down.
fn hide_rows(rows: &mut Vec<RowVis>, peer: &i32)
    ensures { rows.new.items ≡ map (hidden_from peer.now) rows.old.items }
{
    for place in 0..rows.len() {
        rows[place].hide_from(peer);
    }
}

impl Sights {
    /// No rows yet, and each fixed synchronizer of this peer as the scene has it.
    pub fn new(alloc: Global, scene: &Scene, me: &i32) -> Result<Sights, OutOfMemory>
        ensures { IfOk result (λ v. v ≡ first_sights scene.now me.now) }
    {
        let fixed = first_fixed(alloc, scene.nodes.as_slice(), me)?;
        Ok(Sights {
            rows: Vec::new(alloc),
            fixed,
        })
    }

    /// A new row behind all others, shown to those of these peers that may see it. Its number has to be
    /// above theirs.
    pub fn add_row(
        &mut self,
        alloc: Global,
        up: &[i32],
        num: u32,
        defs: &[SyncDef],
    ) -> Result<(), OutOfMemory>
        ensures { OnOk result (self.new ≡ with_row up.now num defs.now self.old) }
    {
        let row = new_row(alloc, up, num, defs)?;
        self.rows.push(row)?;
        Ok(())
    }

    /// Takes a row away, and tells the peers to which it was shown.
    pub fn take_row(&mut self, alloc: Global, num: u32) -> Vec<i32>
        requires { rise_by_number self.old.rows ≡ true }
        ensures shown { result.items ≡ shown_of num self.old }
        ensures rows { self.new ≡ without_row num self.old }
    {
        match place_of(self.rows.as_slice(), num) {
            Some(place) => shown_in(self.rows.remove(place)),
            None => Vec::new(alloc),
        }
    }

    /// Makes a setting, for which there is room, at a synchronizer of a row. Then the row is shown to
    /// those of these peers that may see it.
    pub fn set_row(
        &mut self,
        alloc: Global,
        up: &[i32],
        num: u32,
        k: u32,
        setting: &VisSetting,
    ) -> Result<(), OutOfMemory>
        requires { rise_by_number self.old.rows ≡ true }
        ensures { OnOk result (self.new ≡ with_row_set up.now num k (change_of setting.now).change self.old) }
    {
        match place_of(self.rows.as_slice(), num) {
            Some(place) => {
                self.rows[place].set(alloc, up, k, setting)?;
                Ok(())
            }
            None => Ok(()),
        }
    }

    /// Makes a setting, for which there is room, at a fixed synchronizer.
    pub fn set_fixed(
        &mut self,
        alloc: Global,
        path: &Text,
        setting: &VisSetting,
    ) -> Result<(), OutOfMemory>
        ensures { OnOk result (self.new ≡ with_fixed_set path.now (change_of setting.now).change self.old) }
    {
        put_fixed(&mut self.fixed, alloc, path, setting)
    }

    /// Who sees the synchronizer at a place of the row of a number.
    pub fn row_vis(&self, num: u32, k: u32) -> Option<&Vis>
        requires { rise_by_number self.now.rows ≡ true }
        ensures { option_copied result ≡ row_sight_at num k self.now.rows }
    {
        match place_of(self.rows.as_slice(), num) {
            Some(place) => vis_in(&self.rows[place], k),
            None => None,
        }
    }

    /// Who sees the fixed synchronizer at a path.
    pub fn fixed_vis(&self, path: &Text) -> Option<&Vis>
        ensures { option_copied result ≡ fixed_sight_at path.now self.now.fixed }
    {
        match find_fixed(self.fixed.as_slice(), path) {
            Some(fixed) => Some(&fixed.vis),
            None => None,
        }
    }

    /// The peers to which the row of a number is shown, in rising order.
    pub fn shown(&self, num: u32) -> &[i32]
        requires { rise_by_number self.now.rows ≡ true }
        ensures { result.now ≡ shown_of num self.now }
    {
        match place_of(self.rows.as_slice(), num) {
            Some(place) => shown_to(&self.rows[place]),
            None => &[],
        }
    }

    /// Whether a peer may see the row at a place among the rows.
    pub fn sees(&self, place: usize, peer: &i32) -> bool
        ensures { result ≡ some_is (λ (v : RowSightOf). row_sees v peer.now) (slice_get self.now.rows place) }
    {
        match item_at(self.rows.as_slice(), place) {
            Some(row) => row.sees(peer),
            None => false,
        }
    }

    /// Whether a peer may see the synchronizer at a place of the row at a place among the rows.
    pub fn sees_sync(&self, place: usize, k: usize, peer: &i32) -> bool
        ensures { result ≡ some_is (λ (v : RowSightOf). some_is (λ (y : SightOf). is_visible y peer.now) (slice_get v.syncs k)) (slice_get self.now.rows place) }
    {
        match item_at(self.rows.as_slice(), place) {
            Some(row) => sees_at(row, k, peer),
            None => false,
        }
    }

    /// How many fixed synchronizers this peer has.
    pub fn count_fixed(&self) -> usize
        ensures { result ≡ length self.now.fixed }
    {
        self.fixed.len()
    }

    /// The path of the fixed synchronizer at a place among those of this peer, where a peer may see it.
    pub fn fixed_seen(&self, place: usize, peer: &i32) -> Option<&Text>
        ensures { option_copied result ≡ path_seen peer.now (slice_get self.now.fixed place) }
    {
        match item_at(self.fixed.as_slice(), place) {
            Some(fixed) => {
                if fixed.vis.is_visible(peer) {
                    Some(&fixed.path)
                } else {
                    None
                }
            }
            None => None,
        }
    }

    /// A peer came up: the rows that it may see are shown to it.
    pub fn peer_up(&mut self, peer: &i32) -> Result<(), OutOfMemory>
        ensures { OnOk result (self.new ≡ with_peer_up peer.now self.old) }
    {
        show_rows(&mut self.rows, peer)
    }

    /// A peer went down: nothing is shown to it.
    pub fn peer_down(&mut self, peer: &i32)
        ensures { self.new ≡ with_peer_down peer.now self.old }
    {
        hide_rows(&mut self.rows, peer);
    }
}
