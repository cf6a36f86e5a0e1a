//! Which scenes are valid.
ghost use Rattle.std.specs.Prelude.{◌≡◌, true, [], Some, None, MatchResult, length, map, take};
ghost use Rattle.scene_model.specs.declared.scene.SceneBad.{SceneBad as SceneBadOf};
ghost use Rattle.scene_check.specs.Index.{IsIndexed};
ghost use Rattle.scene_check.specs.Judged.{HasSoundDefaults};
ghost use Rattle.scene_check.specs.Places.{ArePlaces, path_texts, scene_texts, under_of, target_of};
ghost use Rattle.scene_model.specs.Valid.{scene_bad, first_bad, node_why as node_why_of, scene_why as scene_why_of};
ghost use Rattle.gd_variant.specs.Words.{with_earlier};

mod index;
mod methods;
mod node;
mod props;
mod scene;

use crate::places::{Listing, Places, fill};
use crate::validity::index::SceneIndex;
use crate::validity::node::node_why;
use crate::validity::scene::scene_why;
use scene_model::{Scene, SceneBad};

/// The first wrong node.
fn node_bad<'a>(index: &SceneIndex<'_, 'a>, places: &mut Places<'a>) -> Option<SceneBad>
    requires { IsIndexed index.now }
    ensures { result ≡ first_bad (node_why_of index.now.scene.now) (with_earlier [] index.now.scene.now.nodes) }
{
    let nodes = index.scene.nodes.as_slice();
    for (at, node) in nodes.iter().enumerate() {
        if let Some(why) = node_why(index, at, node, places) {
            return Some(SceneBad {
                index: at as u32,
                why,
            });
        }
    }
    None
}

/// The first wrong scene.
fn scene_bad_in<'a>(index: &SceneIndex<'_, 'a>, places: &mut Places<'a>) -> Option<SceneBad>
    requires { IsIndexed index.now }
    ensures { result ≡ first_bad scene_why_of (with_earlier [] index.now.scene.now.scenes) }
{
    let scenes = index.scene.scenes.as_slice();
    for (at, def) in scenes.iter().enumerate() {
        if let Some(why) = scene_why(index, at, def, places) {
            return Some(SceneBad {
                index: at as u32,
                why,
            });
        }
    }
    None
}

fn check_indexed<'a>(index: &SceneIndex<'_, 'a>, places: &mut Places<'a>) -> Result<(), SceneBad>
    requires { IsIndexed index.now }
    ensures { MatchResult result (λ _. scene_bad index.now.scene.now ≡ None) (λ bad. scene_bad index.now.scene.now ≡ Some bad) }
{
    if let Some(bad) = node_bad(index, places) {
        return Err(bad);
    }
    if let Some(bad) = scene_bad_in(index, places) {
        return Err(bad);
    }
    Ok(())
}

/// The first wrong entry of a scene, of which it may be known that its default values are sound.
///
/// It is never inlined: whatever calls it would pay for its 500 KB of stack at each call of its own.
#[inline(never)]
fn check_by(scene: &Scene, judged: bool) -> Result<(), SceneBad>
    requires { judged ≡ true → HasSoundDefaults scene.now }
    ensures { MatchResult result (λ _. scene_bad scene.now ≡ None) (λ bad. scene_bad scene.now ≡ Some bad) }
{
    let nodes = scene.nodes.as_slice();
    let mut paths = Places::new();
    fill(Listing::Paths(nodes), &mut paths);
    let mut unders = Places::new();
    fill(Listing::Unders(nodes), &mut unders);
    let mut targets = Places::new();
    fill(Listing::Targets(nodes), &mut targets);
    let mut scenes = Places::new();
    fill(Listing::Scenes(scene.scenes.as_slice()), &mut scenes);
    let index = SceneIndex {
        scene,
        judged,
        paths: paths.as_slice(),
        unders: unders.as_slice(),
        targets: targets.as_slice(),
        scenes: scenes.as_slice(),
    };
    check_indexed(&index, &mut Places::new())
}

/// Whether a scene is valid: `Ok`, or its first wrong entry with the first reason against it, nodes
/// before scenes. It takes no memory, but some 500 KB of stack.
///
/// Of each default value that isn't too long it compares each key of a dictionary with each other one.
pub fn check(scene: &Scene) -> Result<(), SceneBad>
    ensures { MatchResult result (λ _. scene_bad scene.now ≡ None) (λ bad. scene_bad scene.now ≡ Some bad) }
{
    check_by(scene, false)
}

/// The same for a scene whose default values were judged before and are sound: no keys are compared.
pub fn check_judged(scene: &Scene) -> Result<(), SceneBad>
    requires { HasSoundDefaults scene.now }
    ensures { MatchResult result (λ _. scene_bad scene.now ≡ None) (λ bad. scene_bad scene.now ≡ Some bad) }
{
    check_by(scene, true)
}
