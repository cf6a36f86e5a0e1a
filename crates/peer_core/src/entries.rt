//! Received values: why one of several entries is a fault, and what they make of the tree.
ghost use Rattle.std.specs.Prelude.{◌≡◌};
ghost use Rattle.peer_steps.specs.Steps.{entries_judged, entries_put, entries_taken};

use delta_props::{judge, take};
use gd_variant::{DeltaEntry, DeltaList};
use headless_tree::Tree;
use scene_model::Fault;

/// Why one of some entries that were received from a peer is a fault, the first that is one.
fn judge_entries(tree: &Tree, from: &i32, entries: &[DeltaEntry]) -> Option<Fault>
    ensures { result ≡ entries_judged tree.now from.now entries.now }
{
    for entry in entries {
        if let Some(fault) = judge(tree, from, entry) {
            return Some(fault);
        }
    }
    None
}

/// Assigns the values of entries in order, where none of them is a fault.
fn put_entries(tree: &mut Tree, from: &i32, entries: DeltaList)
    ensures { tree.new ≡ entries_put from.now entries tree.old }
{
    let mut entries = entries;
    while !entries.is_empty() {
        let entry = entries.remove(0);
        take(tree, from, entry);
    }
}

/// Takes the values of entries that were received from a peer, or says why one of them is a fault; then
/// none of them is taken.
pub fn take_entries(tree: &mut Tree, from: &i32, entries: DeltaList) -> Option<Fault>
    ensures { (result, tree.new) ≡ entries_taken from.now entries tree.old }
{
    match judge_entries(tree, from, entries.as_slice()) {
        Some(fault) => Some(fault),
        None => {
            put_entries(tree, from, entries);
            None
        }
    }
}
