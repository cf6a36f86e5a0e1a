//! The properties of a node with their values.
ghost use Rattle.std.specs.Prelude.{◌≡◌, ◌<◌, IfOk, length, position, map, option_map};
ghost use Rattle.std.specs.Option.{option_copied};
ghost use Rattle.gd_variant.specs.Words.{text_eq};
ghost use Rattle.scene_model.specs.declared.scene.Prop.{Prop as PropOf};
ghost use Rattle.scene_model.specs.Lookup.{value_in};
ghost use Rattle.headless_tree.specs.Lists.{change_at};
ghost use Rattle.headless_tree.specs.Nodes.{with_value};

use gd_variant::{OutOfMemory, Text, Variant};
use scene_model::{Prop, PropList, TryClone, same_bytes};
use sqlite_items::Items;
use std::alloc::Global;
use std::marker::Model;

/// Properties that contracts see as a list.
#[derive(Drop)]
pub struct Values {
    props: Vec<Prop>,
}

impl Model for Values {
    ghost use Rattle.std.specs.Prelude.{List};
    ghost use Rattle.std.specs.Coded.{codes};
    ghost use Rattle.gd_variant.specs.contracts.value.Variant as variant;
    ghost use Rattle.scene_model.specs.declared.scene.Prop.{Prop as PropOf};

    ghost Value = { List PropOf };

    ghost coded = { Prim.hlevel (codes, variant.the_row.coded) };

    ghost view = { λ v. v.props.items };
}

fn has_name(prop: &Prop, name: &str) -> bool
    ensures { result ≡ text_eq prop.now.name name.now }
{
    same_bytes(prop.name.as_str().as_bytes(), name.as_bytes())
}

impl Values {
    /// An equal list.
    pub fn from_slice(alloc: Global, props: &[Prop]) -> Result<Values, OutOfMemory>
        ensures { IfOk result (λ v. v ≡ props.now) }
    {
        let mut copy = Vec::new(alloc);
        for prop in props {
            copy.push(prop.try_clone(alloc)?)?;
        }
        Ok(Values { props: copy })
    }

    pub fn as_slice(&self) -> &[Prop]
        ensures { result.now ≡ self.now }
    {
        self.props.as_slice()
    }

    pub fn len(&self) -> usize
        ensures { result ≡ length self.now }
    {
        self.props.len()
    }

    /// The properties as a list of the scene's form.
    pub fn to_list(&self, alloc: Global) -> Result<PropList, OutOfMemory>
        ensures { IfOk result (λ v. v ≡ self.now) }
    {
        let mut copy = Items::new(alloc);
        for prop in self.as_slice() {
            copy.push(prop.try_clone(alloc)?)?;
        }
        Ok(copy)
    }

    /// The value of the first property with this name.
    pub fn get(&self, name: &str) -> Option<&Variant>
        ensures { option_copied result ≡ value_in self.now name.now }
    {
        match self.as_slice().iter().find(|prop| has_name(prop, name)) {
            Some(prop) => Some(&prop.value),
            None => None,
        }
    }

    /// The place of the first property with this name.
    pub fn place_of(&self, name: &str) -> Option<usize>
        ensures { result ≡ position (λ (p : PropOf). text_eq p.name name.now) self.now }
    {
        self.as_slice().iter().position(|prop| has_name(prop, name))
    }

    /// Assigns to the property at a place.
    pub fn set(&mut self, at: usize, value: Variant)
        requires { at < length self.old }
        ensures { self.new ≡ change_at at (with_value value) self.old }
    {
        self.props[at].value = value;
    }
}
