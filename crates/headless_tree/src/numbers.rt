//! The paths of spawned nodes by their numbers.
ghost use Rattle.std.specs.Prelude.{◌≡◌, Some, None, [], ◌∷◌, true, OnOk, OnErr, is_none, option_map};
ghost use Rattle.std.specs.List.{list_all};
ghost use Rattle.std.specs.Option.{option_copied};
ghost use Rattle.gd_variant.specs.Words.{text_eq, some_is};
ghost use Rattle.headless_tree.specs.Nodes.{live};
ghost use Rattle.headless_tree.specs.Numbers.{path_under, numbers_of, has_its_path, KeepsOthers, HasNoneUnder, KeepsOtherAuthorities};

use crate::node::NodeNow;
use gd_variant::{OutOfMemory, Text};
use std::alloc::Global;
use std::collections::HashMap;
use std::marker::Model;

/// Paths by authority and number, which contracts see as a list.
#[derive(Drop)]
pub struct Numbers {
    paths: HashMap<(i32, u32), Text>,
}

impl Model for Numbers {
    ghost use Rattle.headless_tree.specs.Numbers.{Paths};

    ghost Value = { Paths };

    ghost view = { λ n. n.paths.entries };
}

impl Numbers {
    pub fn new(alloc: Global) -> Numbers
        ensures { result ≡ [] }
    {
        Numbers {
            paths: HashMap::new(alloc),
        }
    }

    /// The path under a number of an authority.
    pub fn get(&self, auth: &i32, id: u32) -> Option<&Text>
        ensures { option_copied result ≡ path_under self.now auth.now id }
    {
        self.paths.get(&(*auth, id))
    }

    fn put(&mut self, alloc: Global, key: (i32, u32), path: &Text) -> Result<(), OutOfMemory>
        ensures put { OnOk result (path_under self.new key.0 key.1 ≡ Some path.now) }
        ensures others { KeepsOthers key.0 (key.1 ∷ []) self.old self.new }
    {
        let path = path.try_clone(alloc)?;
        self.paths.insert(key, path)?;
        Ok(())
    }

    fn take(&mut self, key: (i32, u32))
        ensures gone { path_under self.new key.0 key.1 ≡ None }
        ensures others { KeepsOthers key.0 (key.1 ∷ []) self.old self.new }
    {
        self.paths.remove(&key);
    }

    /// Puts a node's path under each of its numbers.
    pub fn note(&mut self, alloc: Global, node: &NodeNow) -> Result<(), OutOfMemory>
        ensures put { OnOk result (has_its_path self.new (live node.now) ≡ true) }
        ensures others { KeepsOthers node.now.auth (numbers_of (live node.now)) self.old self.new }
    {
        if node.scene.is_some() {
            self.put(alloc, (node.auth, node.num), &node.path)?;
            for id in node.ids.as_slice() {
                self.put(alloc, (node.auth, *id), &node.path)?;
            }
        }
        Ok(())
    }

    /// Takes the paths under a node's numbers away.
    pub fn forget(&mut self, node: &NodeNow)
        ensures gone { list_all (λ id. is_none (path_under self.new node.now.auth id)) (numbers_of (live node.now)) ≡ true }
        ensures others { KeepsOthers node.now.auth (numbers_of (live node.now)) self.old self.new }
    {
        if node.scene.is_some() {
            self.take((node.auth, node.num));
            for id in node.ids.as_slice() {
                self.take((node.auth, *id));
            }
        }
    }

    /// Takes the paths under all numbers of an authority away.
    pub fn forget_under(&mut self, auth: &i32)
        ensures gone { HasNoneUnder auth.now self.new }
        ensures others { KeepsOtherAuthorities auth.now self.old self.new }
    {
        self.paths.retain(|key, _| key.0 != *auth);
    }
}
