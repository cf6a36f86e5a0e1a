//! Where a text stands in a list: the texts are sorted with their places, in room of a fixed size.
ghost use Rattle.std.specs.Prelude.{◌≡◌, ◌<◌, ◌++◌, ℕ, List, Option, length, slice_get, take, min, Some};
ghost use Rattle.arrayvec.specs.ArrayVec.{array_vec_len};
ghost use Rattle.std.specs.List.Sorted.{IsPermutation, IsSorted};
ghost use Rattle.std.specs.Option.{option_copied};
ghost use Rattle.scene_check.specs.Places.{texts_of, under_of as under, target_of as target, if_any as of_props, place_of, place_cmp, AreGathered, ArePlaces, IsNext};

use arrayvec::ArrayVec;
use scene_model::{Method, Node, Role, SceneDef, SyncDef, bytes_of, same_bytes};
use sqlite_items::at;

/// The most entries of a list that can be right.
pub const MOST_ENTRIES: usize = 4096;

/// A text and its place.
pub type Place<'a> = (&'a [u8], u16);

pub type Places<'a> = ArrayVec<Place<'a>, 4096>;

/// Lists whose entries are looked up by a text.
#[derive(Clone, Copy)]
pub enum Listing<'a> {
    /// Nodes by their paths.
    Paths(&'a [Node]),
    /// Spawners by the nodes below which they spawn.
    Unders(&'a [Node]),
    /// Synchronizers that have properties, by the nodes that they serve.
    Targets(&'a [Node]),
    /// Scenes by their names.
    Scenes(&'a [SceneDef]),
    /// Methods by their names.
    Methods(&'a [Method]),
}

fn under_of(node: &Node) -> Option<&[u8]>
    ensures { option_copied result ≡ under node.now }
{
    match &node.role {
        Role::Spawner(def) => Some(bytes_of(&def.under)),
        _ => None,
    }
}

fn target_of(node: &Node) -> Option<&[u8]>
    ensures { option_copied result ≡ target node.now }
{
    match &node.role {
        Role::Sync(def) => if_any(def),
        _ => None,
    }
}

fn if_any(def: &SyncDef) -> Option<&[u8]>
    ensures { option_copied result ≡ of_props def.now.props def.now.of }
{
    match def.props.as_slice() {
        [] => None,
        [_, ..] => Some(bytes_of(&def.of)),
    }
}

impl<'a> Listing<'a> {
    fn len(self) -> usize
        ensures { result ≡ length (texts_of self.entry) }
    {
        match self {
            Listing::Paths(nodes) => nodes.len(),
            Listing::Unders(nodes) => nodes.len(),
            Listing::Targets(nodes) => nodes.len(),
            Listing::Scenes(scenes) => scenes.len(),
            Listing::Methods(methods) => methods.len(),
        }
    }

    fn text(self, at: usize) -> Option<&'a [u8]>
        requires { at < length (texts_of self) }
        ensures { slice_get (texts_of self.entry) at ≡ Some (option_copied result) }
    {
        match self {
            Listing::Paths(nodes) => Some(bytes_of(&nodes[at].path)),
            Listing::Unders(nodes) => under_of(&nodes[at]),
            Listing::Targets(nodes) => target_of(&nodes[at]),
            Listing::Scenes(scenes) => Some(bytes_of(&scenes[at].name)),
            Listing::Methods(methods) => Some(bytes_of(&methods[at].name)),
        }
    }
}

fn sort(places: &mut [Place])
    ensures permutation { IsPermutation places.old places.new }
    ensures sorted { IsSorted place_cmp places.new }
{
    places.sort_unstable();
}

fn note<'a>(places: &mut Places<'a>, text: Option<&'a [u8]>, at: u16)
    requires { array_vec_len places.old < 4096 }
    ensures { places.new.items ≡ places.old.items ++ place_of text.entry at }
{
    if let Some(text) = text {
        places.push((text, at));
    }
}

fn gather<'a>(list: Listing<'a>, places: &mut Places<'a>)
    ensures { AreGathered places.new.items (texts_of list.entry) (min (length (texts_of list.entry)) MOST_ENTRIES) }
{
    places.clear();
    for at in 0..list.len().min(MOST_ENTRIES) {
        note(places, list.text(at), at as u16);
    }
}

/// Keeps the places of the first texts of a list, as many as can be right.
pub fn fill<'a>(list: Listing<'a>, places: &mut Places<'a>)
    ensures { ArePlaces places.new.items (take MOST_ENTRIES (texts_of list.entry)) }
{
    gather(list, places);
    sort(places.as_mut_slice());
}

/// The first place from a number on at which the text stands.
pub fn next_place<'a>(places: &[Place<'a>], text: &'a [u8], from: u16) -> Option<u16>
    ensures { (texts : List (Option (List ℕ))) → ArePlaces places.now texts → IsNext text.now from texts result }
{
    match places.binary_search(&(text, from)) {
        Ok(_) => Some(from),
        Err(after) => match at(places, after) {
            Some(place) if same_bytes(place.0, text) => Some(place.1),
            Some(_) => None,
            None => None,
        },
    }
}
