//! Tests on nodes and values.
ghost use Rattle.std.specs.Prelude.{◌≡◌};
ghost use Rattle.std.specs.Ordering.{int_eq};
ghost use Rattle.scene_model.specs.Lookup.{has_prop as has_prop_of};
ghost use Rattle.peer_model.specs.View.{fits as fits_of};
ghost use Rattle.headless_tree.specs.Nodes.{live};

use gd_variant::{Text, Variant, len_of};
use headless_tree::NodeNow;
use scene_model::MOST_VALUE_BYTES;

/// Whether a value is short enough for a property.
pub fn fits(value: &Variant) -> bool
    ensures { result ≡ fits_of value.now }
{
    len_of(value) <= MOST_VALUE_BYTES
}

/// Whether a peer is the authority of a node.
pub fn owns(id: &i32, node: &NodeNow) -> bool
    ensures { result ≡ int_eq (live node.now).auth id.now }
{
    node.auth == *id
}

/// Whether a node has a property.
pub fn has_prop(node: &NodeNow, prop: &Text) -> bool
    ensures { result ≡ has_prop_of prop.now (live node.now).values }
{
    node.values.get(prop.as_str()).is_some()
}
