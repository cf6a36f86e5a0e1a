//! A tree of a scene, and a tree with one node more.
ghost use Rattle.std.specs.Prelude.{◌≡◌, ◌<◌, ◌≤◌, IfOk, OnOk, OnErr, MatchResult, None, true, length, map};
ghost use Rattle.std.specs.List.{prefix_len};
ghost use Rattle.std.specs.String.{string_bytes};
ghost use Rattle.gd_variant.specs.Text.{HasNoZero};
ghost use Rattle.gd_variant.specs.Words.{put_by};
ghost use Rattle.scene_model.specs.declared.scene.SceneDef.{SceneDef as SceneDefOf};
ghost use Rattle.scene_model.specs.Valid.{IsValidScene};
ghost use Rattle.scene_model.specs.Lookup.{scene_at};
ghost use Rattle.scene_model.specs.Paths.{joined as joined_of};
ghost use Rattle.scene_model.specs.Nodes.{live_at, fixed_live, props_in};
ghost use Rattle.headless_tree.specs.declared.node.NodeNow.{NodeNow as NodeOf};
ghost use Rattle.headless_tree.specs.Numbers.{are_free, are_new};
ghost use Rattle.headless_tree.specs.Order.{are_in_order};
ghost use Rattle.headless_tree.specs.Nodes.{live, fixed_nodes, is_spawned, row_before, spawned_node, insert_no, Inserts, NamesPath};

use super::Tree;
use super::paths::put_text;
use crate::node::{NodeNow, TreeNo};
use crate::numbers::Numbers;
use crate::values::Values;
use gd_variant::{IdList, OutOfMemory, Text};
use indexmap::IndexSet;
use scene_model::{Node, Scene, TryClone, joined};
use sqlite_items::Items;
use std::alloc::Global;

fn fixed(alloc: Global, node: &Node) -> Result<NodeNow, OutOfMemory>
    ensures { IfOk result (λ n. live n ≡ fixed_live node.now) }
{
    Ok(NodeNow {
        path: node.path.try_clone(alloc)?,
        auth: node.auth,
        num: 0,
        ids: Items::new(alloc),
        scene: None,
        values: Values::from_slice(alloc, node.props.as_slice())?,
    })
}

/// The names of the scenes of a valid scene, each at its scene's place.
fn scene_names(alloc: Global, scene: &Scene) -> Result<IndexSet<String>, OutOfMemory>
    requires { IsValidScene scene.now }
    ensures { IfOk result (λ names. map string_bytes names.keys ≡ map (λ (d : SceneDefOf). d.name) scene.now.scenes) }
{
    let mut names = IndexSet::new(alloc);
    for (at, def) in scene.scenes.as_slice().iter().enumerate() {
        put_text(alloc, &mut names, at, &def.name)?;
    }
    Ok(names)
}

fn stands_before(node: &NodeNow, other: &NodeNow) -> bool
    ensures { result ≡ row_before (live node.now) (live other.now) }
{
    node.scene.is_none()
        || node.auth < other.auth
        || (node.auth == other.auth && node.num < other.num)
}

/// How many nodes stand before another, by a binary search.
fn count_before(nodes: &[NodeNow], node: &NodeNow) -> usize
    requires order { are_in_order (map live nodes.now) ≡ true }
    ensures count { result ≡ prefix_len (λ (m : NodeOf). row_before (live m) (live node.now)) nodes.now }
    ensures within { result ≤ length nodes.now }
{
    nodes.partition_point(|other| stands_before(other, node))
}

impl Tree {
    /// The fixed nodes of a scene with their defaults.
    pub fn new(alloc: Global, scene: &Scene) -> Result<Tree, OutOfMemory>
        requires { IsValidScene scene.now }
        ensures { IfOk result (λ t. t ≡ record { scene = scene.now; nodes = fixed_nodes scene.now }) }
    {
        let mut nodes = Vec::new(alloc);
        let mut paths = IndexSet::new(alloc);
        let numbers = Numbers::new(alloc);
        for (at, node) in scene.nodes.as_slice().iter().enumerate() {
            put_text(alloc, &mut paths, at, &node.path)?;
            nodes.push(fixed(alloc, node)?)?;
        }
        let scenes = scene_names(alloc, scene)?;
        let scene = scene.try_clone(alloc)?;
        Ok(Tree {
            scene,
            scenes,
            nodes,
            paths,
            numbers,
        })
    }

    /// The path of a new node, where its parent is there and the path is free.
    fn new_path(&self, alloc: Global, under: &str, name: &str) -> Result<Text, TreeNo>
        requires under { HasNoZero under.now }
        requires name { HasNoZero name.now }
        ensures { NamesPath under.now name.now (insert_no self.now.nodes under.now name.now) result }
    {
        match self.node_at(under) {
            Some(_) => match joined(alloc, under, name) {
                Ok(path) => match self.node_at(path.as_str()) {
                    Some(_) => Err(TreeNo::NameTaken),
                    None => Ok(path),
                },
                Err(_) => Err(TreeNo::OutOfMemory),
            },
            None => Err(TreeNo::NoNode),
        }
    }

    fn copies(
        &self,
        alloc: Global,
        ids: &IdList,
        scene: u32,
    ) -> Result<(IdList, Values), OutOfMemory>
        requires { scene < length self.now.scene.scenes }
        ensures { IfOk result (λ p. (p.0 ≡ ids.now) × (p.1 ≡ props_in (scene_at self.now.scene scene))) }
    {
        let ids = Items::from_slice(alloc, ids.as_slice())?;
        let def = &self.scene.scenes.as_slice()[scene as usize];
        let values = Values::from_slice(alloc, def.props.as_slice())?;
        Ok((ids, values))
    }

    fn add(&mut self, alloc: Global, node: NodeNow) -> Result<(), OutOfMemory>
        requires path { live_at self.old.nodes node.path ≡ None }
        requires spawned { is_spawned (live node) ≡ true }
        requires numbers { are_free (live node) self.old.nodes ≡ true }
        ensures ok { OnOk result (self.new ≡ record self.old { nodes = put_by row_before (live node) self.old.nodes }) }
        ensures err { OnErr result (self.new ≡ self.old) }
    {
        self.nodes.reserve(1)?;
        let at = count_before(self.nodes.as_slice(), &node);
        match self.numbers.note(alloc, &node) {
            Ok(()) => match put_text(alloc, &mut self.paths, at, &node.path) {
                Ok(()) => match self.nodes.insert(at, node) {
                    Ok(()) => Ok(()),
                    Err(_) => unreachable!(),
                },
                Err(no) => {
                    self.numbers.forget(&node);
                    Err(no)
                }
            },
            Err(no) => {
                self.numbers.forget(&node);
                Err(no)
            }
        }
    }

    /// Adds a node with the defaults of the scene at a place below another node. Neither its number
    /// nor one of its ids belongs to a spawned node of its authority.
    pub fn insert(
        &mut self,
        alloc: Global,
        under: &str,
        name: &str,
        auth: i32,
        num: u32,
        ids: &IdList,
        scene: u32,
    ) -> Result<(), TreeNo>
        requires under { HasNoZero under.now }
        requires name { HasNoZero name.now }
        requires scene { scene < length self.old.scene.scenes }
        requires numbers { are_new auth num ids.now self.old.nodes ≡ true }
        ensures { Inserts self.old self.new under.now name.now (spawned_node self.old.scene (joined_of under.now name.now) auth num ids.now scene) result }
    {
        match self.new_path(alloc, under, name) {
            Ok(path) => match self.copies(alloc, ids, scene) {
                Ok((ids, values)) => {
                    let node = NodeNow {
                        path,
                        auth,
                        num,
                        ids,
                        scene: Some(scene),
                        values,
                    };
                    match self.add(alloc, node) {
                        Ok(()) => Ok(()),
                        Err(_) => Err(TreeNo::OutOfMemory),
                    }
                }
                Err(_) => Err(TreeNo::OutOfMemory),
            },
            Err(why) => Err(why),
        }
    }
}
