//! The tree.
ghost use Rattle.std.specs.Prelude.{◌≡◌, ◌+◌, ◌<◌, ◌≤◌, not, filter, IfOk, IfSome, MatchResult, Some, None, true, length, map, position, option_map, slice_get, remove, is_some};
ghost use Rattle.std.specs.List.{list_all, list_any, prefix_len, remove_range};
ghost use Rattle.std.specs.Option.{option_copied};
ghost use Rattle.gd_variant.specs.Words.{text_eq, some_is};
ghost use Rattle.scene_model.specs.declared.scene.Node.{Node as SceneNode};
ghost use Rattle.scene_model.specs.declared.scene.SceneDef.{SceneDef as SceneDefOf};
ghost use Rattle.scene_model.specs.Valid.{IsValidScene};
ghost use Rattle.scene_model.specs.Nodes.{Live, live_at, fixed_live, row_of as row_seen};
ghost use Rattle.headless_tree.specs.declared.node.NodeNow.{NodeNow as NodeOf};
ghost use Rattle.headless_tree.specs.Numbers.{has_number, is_new as is_new_in, are_new as are_new_in};
ghost use Rattle.headless_tree.specs.Order.{are_in_order, is_ahead_of, is_ahead_of_later, is_before_row};
ghost use Rattle.headless_tree.specs.Nodes.{live, KeepsFixed, HasFixed, is_at, value_at, fixed_nodes, assign_no, assigned, assign_at_no, assigned_at, is_row_of as is_row, is_row_with, is_spawned as is_spawned_in, has_spawned as has_spawned_in, without_spawned, without_rows, Assigns, FindsSpot};

mod making;
mod paths;

use crate::node::{NodeNow, TreeNo};
use crate::numbers::Numbers;
use gd_variant::{IdList, OutOfMemory, Variant};
use indexmap::IndexSet;
use scene_model::{Row, RowList, Scene, is_long};
use sqlite_items::{Items, at as item_at};
use std::alloc::Global;
use std::marker::Model;

/// The nodes of one peer: the fixed ones in the order of the scene, then the spawned ones by
/// authority and number. Each path stands in `paths` at its node's place, and in `numbers` under each
/// number of its node. The fixed nodes stay. The name of each spawnable scene stands in `scenes` at the
/// scene's place.
#[derive(Drop)]
pub struct Tree {
    scene: Scene,
    scenes: IndexSet<String>,
    nodes: Vec<NodeNow>,
    paths: IndexSet<String>,
    numbers: Numbers,
}

impl Model for Tree {
    ghost use Rattle.std.specs.Prelude.{◌≡◌, true, map};
    ghost use Rattle.std.specs.String.{string_bytes};
    ghost use Rattle.std.specs.Coded.{codes};
    ghost use Rattle.gd_variant.specs.contracts.value.Variant as variant;
    ghost use Rattle.scene_model.specs.declared.scene.SceneDef.{SceneDef as SceneDefOf};
    ghost use Rattle.headless_tree.specs.declared.node.NodeNow.{NodeNow as NodeOf};
    ghost use Rattle.headless_tree.specs.Nodes.{TreeOf, KeepsFixed, live};
    ghost use Rattle.headless_tree.specs.Numbers.{has_paths_once, is_numbered, HasNoOthers};
    ghost use Rattle.headless_tree.specs.Order.{are_in_order};

    ghost Value = { TreeOf };

    ghost coded = { Prim.hlevel (codes, variant.the_row.coded) };

    ghost view = { λ t. record { scene = t.scene; nodes = map live t.nodes.items } };

    ghost invariant = { λ t. (map string_bytes t.paths.keys ≡ map (λ (n : NodeOf). n.path) t.nodes.items) × (has_paths_once (map live t.nodes.items) ≡ true) × (is_numbered t.numbers (map live t.nodes.items) ≡ true) × (are_in_order (map live t.nodes.items) ≡ true) × KeepsFixed t.scene (map live t.nodes.items) × (map string_bytes t.scenes.keys ≡ map (λ (d : SceneDefOf). d.name) t.scene.scenes) × HasNoOthers t.numbers (map live t.nodes.items) };
}

impl Tree {
    /// A scene equal to the one that the tree was made of.
    pub fn scene(&self) -> &Scene
        ensures { result.now ≡ self.now.scene }
    {
        &self.scene
    }

    /// The place, from 0, of the spawnable scene with this name among those of the scene.
    pub fn scene_place(&self, name: &str) -> Option<usize>
        ensures place { result ≡ position (λ (d : SceneDefOf). text_eq name.now d.name) self.now.scene.scenes }
        ensures within { IfSome result (λ i. i < length self.now.scene.scenes) }
    {
        self.scenes.get_index_of(name)
    }

    fn place_of(&self, path: &str) -> Option<usize>
        ensures place { result ≡ position (is_at path.now) self.now.nodes }
        ensures within { IfSome result (λ i. i < length self.now.nodes) }
    {
        self.paths.get_index_of(path)
    }

    /// The place, from 0, of the fixed node with this path among the nodes of the scene.
    pub fn fixed_place(&self, path: &str) -> Option<usize>
        ensures place { result ≡ position (λ (n : SceneNode). text_eq path.now n.path) self.now.scene.nodes }
        ensures within { IfSome result (λ i. i < length self.now.scene.nodes) }
    {
        match self.place_of(path) {
            Some(place) => {
                if place < self.scene.nodes.len() {
                    Some(place)
                } else {
                    None
                }
            }
            None => None,
        }
    }

    /// What holds of every tree: its nodes stand in order, and those of the scene stay, so that one
    /// stands at the path of each of them.
    pub fn holds(&self)
        ensures order { are_in_order self.now.nodes ≡ true }
        ensures fixed { KeepsFixed self.now.scene self.now.nodes }
        ensures there { HasFixed self.now }
    {
        let _nodes = &self.nodes;
    }

    /// The node at a path.
    pub fn node_at(&self, path: &str) -> Option<&NodeNow>
        ensures { option_map live (option_copied result) ≡ live_at self.now.nodes path.now }
    {
        match self.place_of(path) {
            Some(place) => item_at(self.nodes.as_slice(), place),
            None => None,
        }
    }

    /// The value of a property of the node at a path.
    pub fn get(&self, path: &str, prop: &str) -> Option<&Variant>
        ensures { option_copied result ≡ value_at self.now.nodes path.now prop.now }
    {
        match self.node_at(path) {
            Some(node) => node.values.get(prop),
            None => None,
        }
    }

    /// The node at a place, from 0 in the order of `rows`.
    pub fn row_at(&self, place: usize) -> Option<&NodeNow>
        ensures { option_map live (option_copied result) ≡ slice_get self.now.nodes place }
    {
        item_at(self.nodes.as_slice(), place)
    }

    /// The place, from 0 in the order of `rows`, of the spawned node of an authority that has this
    /// number itself or in its ids.
    pub fn row_of(&self, auth: i32, id: u32) -> Option<usize>
        ensures { result ≡ position (has_number auth id) self.now.nodes }
    {
        self.row_with(&auth, id)
    }

    fn row_with(&self, auth: &i32, id: u32) -> Option<usize>
        ensures { result ≡ position (has_number auth.now id) self.now.nodes }
    {
        match self.numbers.get(auth, id) {
            Some(path) => match self.place_of(path.as_str()) {
                Some(place) => {
                    if has_this_number(&self.nodes[place], auth, id) {
                        Some(place)
                    } else {
                        None
                    }
                }
                None => None,
            },
            None => None,
        }
    }

    fn is_new(&self, auth: &i32, id: u32) -> bool
        ensures { result ≡ is_new_in auth.now self.now.nodes id }
    {
        self.row_with(auth, id).is_none()
    }

    fn all_new(&self, auth: &i32, ids: &[u32]) -> bool
        ensures { result ≡ list_all (is_new_in auth.now self.now.nodes) ids.now }
    {
        ids.iter().all(|id| self.is_new(auth, *id))
    }

    fn are_new_to(&self, auth: &i32, num: u32, ids: &IdList) -> bool
        ensures { result ≡ are_new_in auth.now num ids.now self.now.nodes }
    {
        self.is_new(auth, num) && self.all_new(auth, ids.as_slice())
    }

    /// Whether neither a number nor one of the ids belongs to a spawned node of an authority.
    pub fn are_new(&self, auth: i32, num: u32, ids: &IdList) -> bool
        ensures { result ≡ are_new_in auth num ids.now self.now.nodes }
    {
        self.are_new_to(&auth, num, ids)
    }

    /// Every node, the fixed ones in the order of the scene, then the spawned ones by authority and
    /// number.
    pub fn rows(&self, alloc: Global) -> Result<RowList, OutOfMemory>
        ensures { IfOk result (λ rows. rows ≡ map row_seen self.now.nodes) }
    {
        let mut rows = Items::new(alloc);
        for node in self.nodes.as_slice() {
            rows.push(row_of(alloc, node)?)?;
        }
        Ok(rows)
    }

    fn write(&mut self, place: usize, prop: usize, value: Variant)
        requires node { place < length self.old.nodes }
        requires prop { IfSome (slice_get self.old.nodes place) (λ (n : Live). prop < length n.values) }
        ensures { self.new ≡ record self.old { nodes = assigned_at place prop value self.old.nodes } }
    {
        self.nodes[place].values.set(prop, value);
    }

    /// Assigns to a property by the node's place and its own.
    pub fn assign_at(&mut self, place: usize, prop: usize, value: Variant) -> Result<(), TreeNo>
        ensures { Assigns self.old self.new (assign_at_no self.old.nodes place prop value) (assigned_at place prop value self.old.nodes) result }
    {
        if self.nodes.len() <= place {
            return Err(TreeNo::NoNode);
        }
        if self.nodes[place].values.len() <= prop {
            return Err(TreeNo::NoProp);
        }
        if is_long(&value) {
            return Err(TreeNo::ValueTooLong);
        }
        self.write(place, prop, value);
        Ok(())
    }

    fn spot(&self, path: &str, prop: &str, value: &Variant) -> Result<(usize, usize), TreeNo>
        ensures { FindsSpot self.now.nodes path.now prop.now (assign_no self.now.nodes path.now prop.now value.now) result }
    {
        match self.place_of(path) {
            Some(place) => match self.nodes[place].values.place_of(prop) {
                Some(at) => {
                    if is_long(value) {
                        Err(TreeNo::ValueTooLong)
                    } else {
                        Ok((place, at))
                    }
                }
                None => Err(TreeNo::NoProp),
            },
            None => Err(TreeNo::NoNode),
        }
    }

    /// Assigns to a property of the node at a path.
    pub fn assign(&mut self, path: &str, prop: &str, value: Variant) -> Result<(), TreeNo>
        ensures { Assigns self.old self.new (assign_no self.old.nodes path.now prop.now value) (assigned path.now prop.now value self.old.nodes) result }
    {
        match self.spot(path, prop, &value) {
            Ok((place, at)) => {
                self.write(place, at, value);
                Ok(())
            }
            Err(why) => Err(why),
        }
    }

    fn remove_at(&mut self, place: usize)
        requires place { place < length self.old.nodes }
        requires spawned { some_is is_spawned_in (slice_get self.old.nodes place) ≡ true }
        ensures { self.new ≡ record self.old { nodes = remove self.old.nodes place } }
    {
        let node = self.nodes.remove(place);
        self.paths.shift_remove_index(place);
        self.numbers.forget(&node);
    }

    fn spawned_place(&self, path: &str) -> Option<usize>
        ensures answer { is_some result ≡ has_spawned_in self.now.nodes path.now }
        ensures place { IfSome result (λ i. position (is_at path.now) self.now.nodes ≡ Some i) }
    {
        match self.place_of(path) {
            Some(place) => {
                if is_spawned(&self.nodes[place]) {
                    Some(place)
                } else {
                    None
                }
            }
            None => None,
        }
    }

    /// Removes the spawned node at a path, and tells whether there was one.
    pub fn remove(&mut self, path: &str) -> bool
        ensures answer { result ≡ has_spawned_in self.old.nodes path.now }
        ensures nodes { self.new ≡ record self.old { nodes = without_spawned path.now self.old.nodes } }
    {
        match self.spawned_place(path) {
            Some(place) => {
                self.remove_at(place);
                true
            }
            None => false,
        }
    }

    fn remove_rows(&mut self, auth: &i32)
        ensures { self.new ≡ record self.old { nodes = without_rows auth.now self.old.nodes } }
    {
        let (start, end) = rows_under(self.nodes.as_slice(), auth);
        self.nodes.drain(start..end);
        self.paths.drain(start..end);
        self.numbers.forget_under(auth);
    }

    fn count_rows(&self, auth: &i32) -> usize
        ensures { result ≡ length (filter (is_row auth.now) self.now.nodes) }
    {
        let (start, end) = rows_under(self.nodes.as_slice(), auth);
        end - start
    }

    /// How many spawned nodes of an authority there are. They stand together, so the count takes two
    /// searches and no walk (this project's own call).
    pub fn count_under(&self, auth: i32) -> usize
        ensures { result ≡ length (filter (is_row auth) self.now.nodes) }
    {
        self.count_rows(&auth)
    }

    fn place_with(&self, auth: &i32, num: u32) -> Option<usize>
        ensures { result ≡ position (is_row_with auth.now num) self.now.nodes }
    {
        let place = count_before_row(self.nodes.as_slice(), auth, num);
        match item_at(self.nodes.as_slice(), place) {
            Some(node) => {
                if is_row_with_num(node, auth, num) {
                    Some(place)
                } else {
                    None
                }
            }
            None => None,
        }
    }

    /// Removes the spawned node of an authority with this number, and tells whether there was one
    /// (this project's own call). An id of a synchronizer is no such number.
    pub fn remove_row(&mut self, auth: &i32, num: u32) -> bool
        ensures answer { result ≡ list_any (is_row_with auth.now num) self.old.nodes }
        ensures nodes { self.new ≡ record self.old { nodes = filter (λ (n : Live). not (is_row_with auth.now num n)) self.old.nodes } }
    {
        self.holds();
        match self.place_with(auth, num) {
            Some(place) => {
                self.remove_at(place);
                true
            }
            None => false,
        }
    }

    /// Removes every spawned node of an authority.
    pub fn remove_under(&mut self, auth: i32)
        ensures { self.new ≡ record self.old { nodes = without_rows auth self.old.nodes } }
    {
        self.remove_rows(&auth);
    }
}

/// Where the spawned nodes of an authority begin and end: in nodes in order they stand together.
fn rows_under(nodes: &[NodeNow], auth: &i32) -> (usize, usize)
    requires order { are_in_order (map live nodes.now) ≡ true }
    ensures within { (result.0 ≤ result.1) × (result.1 ≤ length nodes.now) }
    ensures rows { without_rows auth.now (map live nodes.now) ≡ remove_range (map live nodes.now) result.0 result.1 }
    ensures count { result.0 + length (filter (is_row auth.now) (map live nodes.now)) ≡ result.1 }
{
    (count_ahead(nodes, auth), count_ahead_of_later(nodes, auth))
}

/// How many nodes stand ahead of the spawned ones of an authority, by a binary search.
fn count_ahead(nodes: &[NodeNow], auth: &i32) -> usize
    requires order { are_in_order (map live nodes.now) ≡ true }
    ensures count { result ≡ prefix_len (λ (n : NodeOf). is_ahead_of auth.now (live n)) nodes.now }
    ensures within { result ≤ length nodes.now }
{
    nodes.partition_point(|node| is_ahead(node, auth))
}

/// How many nodes stand ahead of the spawned ones of later authorities, by a binary search.
fn count_ahead_of_later(nodes: &[NodeNow], auth: &i32) -> usize
    requires order { are_in_order (map live nodes.now) ≡ true }
    ensures count { result ≡ prefix_len (λ (n : NodeOf). is_ahead_of_later auth.now (live n)) nodes.now }
    ensures within { result ≤ length nodes.now }
{
    nodes.partition_point(|node| is_ahead_of_others(node, auth))
}

/// Whether a node is a fixed one, or a spawned one of an earlier authority, or of this one with a
/// lower number.
fn is_before(node: &NodeNow, auth: &i32, num: u32) -> bool
    ensures { result ≡ is_before_row auth.now num (live node.now) }
{
    !is_spawned(node) || node.auth < *auth || (node.auth == *auth && node.num < num)
}

/// How many nodes stand before the place of a number of an authority, by a binary search.
fn count_before_row(nodes: &[NodeNow], auth: &i32, num: u32) -> usize
    requires order { are_in_order (map live nodes.now) ≡ true }
    ensures count { result ≡ prefix_len (λ (n : NodeOf). is_before_row auth.now num (live n)) nodes.now }
    ensures within { result ≤ length nodes.now }
{
    nodes.partition_point(|node| is_before(node, auth, num))
}

fn is_row_with_num(node: &NodeNow, auth: &i32, num: u32) -> bool
    ensures { result ≡ is_row_with auth.now num (live node.now) }
{
    is_row_of(node, auth) && node.num == num
}

fn row_of(alloc: Global, node: &NodeNow) -> Result<Row, OutOfMemory>
    ensures { IfOk result (λ row. row ≡ row_seen (live node.now)) }
{
    Ok(Row {
        auth: node.auth,
        num: node.num,
        path: node.path.try_clone(alloc)?,
        values: node.values.to_list(alloc)?,
    })
}

fn has_this_number(node: &NodeNow, auth: &i32, id: u32) -> bool
    ensures { result ≡ has_number auth.now id (live node.now) }
{
    is_row_of(node, auth) && (id == node.num || node.ids.as_slice().contains(&id))
}

fn is_spawned(node: &NodeNow) -> bool
    ensures { result ≡ is_spawned_in (live node.now) }
{
    node.scene.is_some()
}

fn is_row_of(node: &NodeNow, auth: &i32) -> bool
    ensures { result ≡ is_row auth.now (live node.now) }
{
    is_spawned(node) && node.auth == *auth
}

fn is_ahead(node: &NodeNow, auth: &i32) -> bool
    ensures { result ≡ is_ahead_of auth.now (live node.now) }
{
    !is_spawned(node) || node.auth < *auth
}

fn is_ahead_of_others(node: &NodeNow, auth: &i32) -> bool
    ensures { result ≡ is_ahead_of_later auth.now (live node.now) }
{
    !is_spawned(node) || !(*auth < node.auth)
}
