//! What can be wrong with a scene that can be spawned.
ghost use Rattle.std.specs.Prelude.{◌≡◌, ◌≤◌, ◌||◌, true, length, take, nat_lt, nat_le, flat_map};
ghost use Rattle.std.specs.List.{list_any};
ghost use Rattle.scene_model.specs.declared.scene.SyncDef.{SyncDef as SyncDefOf};
ghost use Rattle.scene_model.specs.Lookup.{prop_names};
ghost use Rattle.scene_check.specs.Index.{IsIndexed};
ghost use Rattle.scene_check.specs.Judged.{def_is_sound};
ghost use Rattle.scene_model.specs.Valid.{has_twice, synced, names_no_prop as no_prop_of, count_on_change as on_change_count, most_entries, scene_why as scene_why_of};

use crate::places::{MOST_ENTRIES, Places};
use crate::validity::index::{SceneIndex, scene_is_before};
use crate::validity::methods::are_wrong;
use crate::validity::node::{MOST_METHODS, MOST_ON_CHANGE, MOST_PROPS};
use crate::validity::props::{
    count_on_change, has_long_value, names_no_prop, repeats_in_syncs, repeats_prop,
};
use scene_model::{Prop, SceneDef, SceneWhy, SyncDef, bytes_of, is_name};

/// The most synchronizers of a scene.
const MOST_SYNCS: usize = 8;

fn has_too_many(at: usize, def: &SceneDef) -> bool
    ensures { result ≡ (nat_le most_entries at || nat_lt 64 (length def.now.props) || nat_lt 4096 (length def.now.methods) || nat_lt 8 (length def.now.syncs)) }
{
    MOST_ENTRIES <= at
        || MOST_PROPS < def.props.len()
        || MOST_METHODS < def.methods.len()
        || MOST_SYNCS < def.syncs.len()
}

fn repeats_any_prop(def: &SceneDef) -> bool
    ensures { result ≡ (has_twice (prop_names def.now.props) || has_twice (flat_map synced def.now.syncs)) }
{
    repeats_prop(def.props.as_slice()) || repeats_in_syncs(def.syncs.as_slice())
}

fn any_names_no_prop(syncs: &[SyncDef], props: &[Prop]) -> bool
    ensures { result ≡ list_any (no_prop_of props.now) syncs.now }
{
    syncs.iter().any(|def| names_no_prop(def, props))
}

fn has_many_on_change(syncs: &[SyncDef]) -> bool
    ensures { result ≡ list_any (λ (y : SyncDefOf). nat_lt 64 (on_change_count y)) syncs.now }
{
    syncs
        .iter()
        .any(|def| MOST_ON_CHANGE < count_on_change(def))
}

/// The first reason against the scene at this place. What was kept in `places` is lost.
pub fn scene_why<'a>(
    index: &SceneIndex<'_, 'a>,
    at: usize,
    def: &'a SceneDef,
    places: &mut Places<'a>,
) -> Option<SceneWhy>
    requires indexed { IsIndexed index.now }
    requires front { at ≤ 4096 }
    requires within { at ≤ length index.now.scene.now.scenes }
    requires sound { index.now.judged ≡ true → def_is_sound def.now ≡ true }
    ensures { result ≡ scene_why_of (take at index.now.scene.now.scenes, def.now) }
{
    if !is_name(bytes_of(&def.name)) {
        return Some(SceneWhy::NamePath);
    }
    if scene_is_before(index, bytes_of(&def.name), at) {
        return Some(SceneWhy::TwoNodes);
    }
    if has_too_many(at, def) {
        return Some(SceneWhy::TooMany);
    }
    if repeats_any_prop(def) {
        return Some(SceneWhy::PropTwice);
    }
    if any_names_no_prop(def.syncs.as_slice(), def.props.as_slice()) {
        return Some(SceneWhy::NoProp);
    }
    if has_many_on_change(def.syncs.as_slice()) {
        return Some(SceneWhy::TooManyOnChange);
    }
    if are_wrong(def.props.as_slice(), def.methods.as_slice(), places) {
        return Some(SceneWhy::Method);
    }
    if has_long_value(index.judged, def.props.as_slice()) {
        return Some(SceneWhy::ValueLong);
    }
    None
}
