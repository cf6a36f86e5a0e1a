//! What can be wrong with a fixed node.
ghost use Rattle.std.specs.Prelude.{◌≡◌, ◌≤◌, ◌||◌, true, not, length, take, nat_lt, nat_le, is_none};
ghost use Rattle.std.specs.Ordering.{int_eq};
ghost use Rattle.std.specs.Option.{option_copied};
ghost use Rattle.std.specs.List.{list_any};
ghost use Rattle.gd_variant.specs.Words.{some_is};
ghost use Rattle.scene_model.specs.declared.scene.Node.{Node as NodeOf};
ghost use Rattle.scene_model.specs.declared.scene.CustomDef.{CustomDef as CustomDefOf};
ghost use Rattle.scene_model.specs.declared.scene.SpawnerDef.{SpawnerDef as SpawnerDefOf};
ghost use Rattle.scene_model.specs.declared.scene.SyncDef.{SyncDef as SyncDefOf};
ghost use Rattle.scene_model.specs.Lookup.{fixed_node, scene_named as scene_named_of, spawner_of as spawner_in, sync_of as sync_in};
ghost use Rattle.scene_check.specs.Index.{IsIndexed};
ghost use Rattle.scene_check.specs.Judged.{node_is_sound};
ghost use Rattle.scene_model.specs.Valid.{has_twice, synced, synced_before, names_no_prop as no_prop_of, parent_missing as parent_missing_of, path_wrong as path_wrong_of, node_prop_twice, node_no_prop, custom_prop_missing, count_on_change as on_change_count, no_target as no_target_of, under_shared as under_shared_of, no_scene as no_scene_of, auth_wrong as auth_wrong_of, node_why as node_why_of, most_entries};

use crate::paths::{has_names, parent_of};
use crate::places::{MOST_ENTRIES, Places};
use crate::validity::index::{
    SceneIndex, node_at, path_is_before, prop_is_before, scene_named, under_is_before,
};
use crate::validity::methods::are_wrong;
use crate::validity::props::{
    count_on_change, has_long_value, has_prop, names_no_prop, repeats_prop, repeats_synced,
};
use gd_variant::Text;
use scene_model::{CustomDef, Node, Role, SceneWhy, SpawnerDef, SyncDef, bytes_of};

/// The most properties of a node or of a scene.
pub const MOST_PROPS: usize = 64;

/// The most methods of a node or of a scene.
pub const MOST_METHODS: usize = 4096;

/// The most on-change properties of a synchronizer.
pub const MOST_ON_CHANGE: usize = 64;

/// The most scenes of a spawner.
const MOST_SPAWNED: usize = 255;

fn spawner_of(node: &Node) -> Option<&SpawnerDef>
    ensures { option_copied result ≡ spawner_in node.now }
{
    match &node.role {
        Role::Spawner(def) => Some(def),
        _ => None,
    }
}

fn sync_of(node: &Node) -> Option<&SyncDef>
    ensures { option_copied result ≡ sync_in node.now }
{
    match &node.role {
        Role::Sync(def) => Some(def),
        _ => None,
    }
}

fn parent_missing<'a>(index: &SceneIndex<'_, 'a>, at: usize, path: &'a [u8]) -> bool
    requires indexed { IsIndexed index.now }
    requires front { at ≤ 4096 }
    ensures { result ≡ parent_missing_of (take at index.now.scene.now.nodes) path.now }
{
    match parent_of(path) {
        Some(parent) => !path_is_before(index, parent, at),
        None => false,
    }
}

fn path_wrong<'a>(index: &SceneIndex<'_, 'a>, at: usize, node: &'a Node) -> bool
    requires indexed { IsIndexed index.now }
    requires front { at ≤ 4096 }
    ensures { result ≡ path_wrong_of (take at index.now.scene.now.nodes) node.now }
{
    let path = bytes_of(&node.path);
    !has_names(path) || parent_missing(index, at, path)
}

fn repeats_sync_prop<'a>(index: &SceneIndex<'_, 'a>, at: usize, def: &'a SyncDef) -> bool
    requires indexed { IsIndexed index.now }
    requires front { at ≤ 4096 }
    ensures { result ≡ (has_twice (synced def.now) || synced_before (take at index.now.scene.now.nodes) def.now) }
{
    repeats_synced(def.props.as_slice()) || prop_is_before(index, def, at)
}

fn repeats_in_sync<'a>(index: &SceneIndex<'_, 'a>, at: usize, node: &'a Node) -> bool
    requires indexed { IsIndexed index.now }
    requires front { at ≤ 4096 }
    ensures { result ≡ some_is (λ (d : SyncDefOf). has_twice (synced d) || synced_before (take at index.now.scene.now.nodes) d) (sync_in node.now) }
{
    match sync_of(node) {
        Some(def) => repeats_sync_prop(index, at, def),
        None => false,
    }
}

fn repeats_any_prop<'a>(index: &SceneIndex<'_, 'a>, at: usize, node: &'a Node) -> bool
    requires indexed { IsIndexed index.now }
    requires front { at ≤ 4096 }
    ensures { result ≡ node_prop_twice (take at index.now.scene.now.nodes) node.now }
{
    repeats_prop(node.props.as_slice()) || repeats_in_sync(index, at, node)
}

fn sync_names_no_prop<'a>(index: &SceneIndex<'_, 'a>, def: &'a SyncDef) -> bool
    requires { IsIndexed index.now }
    ensures { result ≡ some_is (λ (t : NodeOf). no_prop_of t.props def.now) (fixed_node index.now.scene.now def.now.of) }
{
    match node_at(index, bytes_of(&def.of)) {
        Some(target) => names_no_prop(def, target.props.as_slice()),
        None => false,
    }
}

fn custom_names_no_prop<'a>(index: &SceneIndex<'_, 'a>, custom: &'a CustomDef) -> bool
    requires { IsIndexed index.now }
    ensures { result ≡ custom_prop_missing index.now.scene.now custom.now }
{
    match scene_named(index, bytes_of(&custom.scene)) {
        Some(def) => !has_prop(def.props.as_slice(), bytes_of(&custom.prop)),
        None => false,
    }
}

fn spawner_names_no_prop<'a>(index: &SceneIndex<'_, 'a>, def: &'a SpawnerDef) -> bool
    requires { IsIndexed index.now }
    ensures { result ≡ some_is (custom_prop_missing index.now.scene.now) def.now.custom }
{
    match &def.custom {
        Some(custom) => custom_names_no_prop(index, custom),
        None => false,
    }
}

fn has_no_prop<'a>(index: &SceneIndex<'_, 'a>, node: &'a Node) -> bool
    requires { IsIndexed index.now }
    ensures { result ≡ node_no_prop index.now.scene.now node.now }
{
    match &node.role {
        Role::Sync(def) => sync_names_no_prop(index, def),
        Role::Spawner(def) => spawner_names_no_prop(index, def),
        Role::Plain => false,
    }
}

fn has_many_on_change(node: &Node) -> bool
    ensures { result ≡ some_is (λ (d : SyncDefOf). nat_lt 64 (on_change_count d)) (sync_in node.now) }
{
    match sync_of(node) {
        Some(def) => MOST_ON_CHANGE < count_on_change(def),
        None => false,
    }
}

fn has_no_target<'a>(index: &SceneIndex<'_, 'a>, node: &'a Node) -> bool
    requires { IsIndexed index.now }
    ensures { result ≡ no_target_of index.now.scene.now node.now }
{
    match &node.role {
        Role::Sync(def) => node_at(index, bytes_of(&def.of)).is_none(),
        Role::Spawner(def) => node_at(index, bytes_of(&def.under)).is_none(),
        Role::Plain => false,
    }
}

fn shares_under<'a>(index: &SceneIndex<'_, 'a>, at: usize, node: &'a Node) -> bool
    requires indexed { IsIndexed index.now }
    requires front { at ≤ 4096 }
    ensures { result ≡ under_shared_of (take at index.now.scene.now.nodes) node.now }
{
    match spawner_of(node) {
        Some(def) => under_is_before(index, bytes_of(&def.under), at),
        None => false,
    }
}

fn has_many_scenes(node: &Node) -> bool
    ensures { result ≡ some_is (λ (d : SpawnerDefOf). nat_lt 255 (length d.scenes)) (spawner_in node.now) }
{
    match spawner_of(node) {
        Some(def) => MOST_SPAWNED < def.scenes.len(),
        None => false,
    }
}

fn lists_no_scene<'a>(index: &SceneIndex<'_, 'a>, names: &'a [Text]) -> bool
    requires { IsIndexed index.now }
    ensures { result ≡ list_any (λ name. is_none (scene_named_of index.now.scene.now name)) names.now }
{
    for name in names {
        if scene_named(index, bytes_of(name)).is_none() {
            return true;
        }
    }
    false
}

fn custom_has_no_scene<'a>(index: &SceneIndex<'_, 'a>, custom: &'a Option<CustomDef>) -> bool
    requires { IsIndexed index.now }
    ensures { result ≡ some_is (λ (c : CustomDefOf). is_none (scene_named_of index.now.scene.now c.scene)) custom.now }
{
    match custom {
        Some(custom) => scene_named(index, bytes_of(&custom.scene)).is_none(),
        None => false,
    }
}

fn spawner_has_no_scene<'a>(index: &SceneIndex<'_, 'a>, def: &'a SpawnerDef) -> bool
    requires { IsIndexed index.now }
    ensures { result ≡ no_scene_of index.now.scene.now def.now }
{
    lists_no_scene(index, def.scenes.as_slice()) || custom_has_no_scene(index, &def.custom)
}

fn has_no_scene<'a>(index: &SceneIndex<'_, 'a>, node: &'a Node) -> bool
    requires { IsIndexed index.now }
    ensures { result ≡ some_is (no_scene_of index.now.scene.now) (spawner_in node.now) }
{
    match spawner_of(node) {
        Some(def) => spawner_has_no_scene(index, def),
        None => false,
    }
}

fn sync_auth_differs<'a>(index: &SceneIndex<'_, 'a>, auth: &i32, def: &'a SyncDef) -> bool
    requires { IsIndexed index.now }
    ensures { result ≡ some_is (λ (t : NodeOf). not (int_eq auth.now t.auth)) (fixed_node index.now.scene.now def.now.of) }
{
    match node_at(index, bytes_of(&def.of)) {
        Some(target) => *auth != target.auth,
        None => false,
    }
}

fn auth_differs<'a>(index: &SceneIndex<'_, 'a>, node: &'a Node) -> bool
    requires { IsIndexed index.now }
    ensures { result ≡ some_is (λ (d : SyncDefOf). some_is (λ (t : NodeOf). not (int_eq node.now.auth t.auth)) (fixed_node index.now.scene.now d.of)) (sync_in node.now) }
{
    match sync_of(node) {
        Some(def) => sync_auth_differs(index, &node.auth, def),
        None => false,
    }
}

fn has_wrong_auth<'a>(index: &SceneIndex<'_, 'a>, node: &'a Node) -> bool
    requires { IsIndexed index.now }
    ensures { result ≡ auth_wrong_of index.now.scene.now node.now }
{
    node.auth < 1 || auth_differs(index, node)
}

fn has_too_many(at: usize, node: &Node) -> bool
    ensures { result ≡ (nat_le most_entries at || nat_lt 64 (length node.now.props) || nat_lt 4096 (length node.now.methods)) }
{
    MOST_ENTRIES <= at || MOST_PROPS < node.props.len() || MOST_METHODS < node.methods.len()
}

/// The first reason against the fixed node at this place. What was kept in `places` is lost.
pub fn node_why<'a>(
    index: &SceneIndex<'_, 'a>,
    at: usize,
    node: &'a Node,
    places: &mut Places<'a>,
) -> Option<SceneWhy>
    requires indexed { IsIndexed index.now }
    requires front { at ≤ 4096 }
    requires within { at ≤ length index.now.scene.now.nodes }
    requires sound { index.now.judged ≡ true → node_is_sound node.now ≡ true }
    ensures { result ≡ node_why_of index.now.scene.now (take at index.now.scene.now.nodes, node.now) }
{
    if path_wrong(index, at, node) {
        return Some(SceneWhy::NamePath);
    }
    if path_is_before(index, bytes_of(&node.path), at) {
        return Some(SceneWhy::TwoNodes);
    }
    if has_too_many(at, node) {
        return Some(SceneWhy::TooMany);
    }
    if repeats_any_prop(index, at, node) {
        return Some(SceneWhy::PropTwice);
    }
    if has_no_prop(index, node) {
        return Some(SceneWhy::NoProp);
    }
    if has_many_on_change(node) {
        return Some(SceneWhy::TooManyOnChange);
    }
    if has_no_target(index, node) {
        return Some(SceneWhy::NoTarget);
    }
    if shares_under(index, at, node) {
        return Some(SceneWhy::SharedSpawnParent);
    }
    if has_many_scenes(node) {
        return Some(SceneWhy::TooManyScenes);
    }
    if has_no_scene(index, node) {
        return Some(SceneWhy::NoScene);
    }
    if are_wrong(node.props.as_slice(), node.methods.as_slice(), places) {
        return Some(SceneWhy::Method);
    }
    if has_long_value(index.judged, node.props.as_slice()) {
        return Some(SceneWhy::ValueLong);
    }
    if has_wrong_auth(index, node) {
        return Some(SceneWhy::Auth);
    }
    None
}
