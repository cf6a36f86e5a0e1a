//! Properties, and the properties of synchronizers.
ghost use Rattle.std.specs.Prelude.{◌≡◌, true, not, map, flat_map, filter, length};
ghost use Rattle.std.specs.List.{list_all, list_any};
ghost use Rattle.gd_variant.specs.Words.{has_text, text_eq};
ghost use Rattle.scene_model.specs.declared.scene.SyncProp.{SyncProp as SyncPropOf};
ghost use Rattle.scene_model.specs.declared.scene.Prop.{Prop as PropOf};
ghost use Rattle.scene_model.specs.Limits.{is_long as is_long_of};
ghost use Rattle.scene_model.specs.Lookup.{has_prop as has_prop_of, prop_names};
ghost use Rattle.scene_model.specs.Syncs.{is_on_change};
ghost use Rattle.scene_model.specs.Valid.{has_twice, synced, count_on_change as on_change_count, names_no_prop as no_prop_of, shares_prop, value_long};
ghost use Rattle.scene_check.specs.Judged.{has_sound_value};

use gd_variant::is_sound;
use scene_model::{Prop, ReplMode, SyncDef, SyncProp, bytes_of, is_long, same_bytes};

fn is_named(props: &[Prop], name: &[u8]) -> bool
    ensures { result ≡ list_any (λ (p : PropOf). text_eq name.now p.name) props.now }
{
    props
        .iter()
        .any(|prop| same_bytes(name, bytes_of(&prop.name)))
}

pub fn has_prop(props: &[Prop], name: &[u8]) -> bool
    ensures { result ≡ has_prop_of name.now props.now }
{
    is_named(props, name)
}

/// Whether two of the properties have one name.
pub fn repeats_prop(props: &[Prop]) -> bool
    ensures { result ≡ has_twice (prop_names props.now) }
{
    for (at, prop) in props.iter().enumerate() {
        if has_prop(&props[at + 1..], bytes_of(&prop.name)) {
            return true;
        }
    }
    false
}

/// Whether a value is too long or isn't sound. Of a value that is too long no keys are compared.
fn is_wrong(prop: &Prop) -> bool
    ensures { result ≡ value_long prop.now }
{
    if is_long(&prop.value) {
        return true;
    }
    !is_sound(&prop.value)
}

fn is_long_value(prop: &Prop) -> bool
    ensures { result ≡ is_long_of prop.now.value }
{
    is_long(&prop.value)
}

fn any_is_long(props: &[Prop]) -> bool
    ensures { result ≡ list_any (λ (p : PropOf). is_long_of p.value) props.now }
{
    props.iter().any(is_long_value)
}

fn any_is_wrong(props: &[Prop]) -> bool
    ensures { result ≡ list_any value_long props.now }
{
    props.iter().any(is_wrong)
}

/// Whether a default value isn't sound or is too long. Of values that are known to be sound no keys are
/// compared.
pub fn has_long_value(judged: bool, props: &[Prop]) -> bool
    requires { judged ≡ true → list_all has_sound_value props.now ≡ true }
    ensures { result ≡ list_any value_long props.now }
{
    if judged {
        any_is_long(props)
    } else {
        any_is_wrong(props)
    }
}

fn is_listed(props: &[SyncProp], name: &[u8]) -> bool
    ensures { result ≡ list_any (λ (p : SyncPropOf). text_eq name.now p.prop) props.now }
{
    props
        .iter()
        .any(|prop| same_bytes(name, bytes_of(&prop.prop)))
}

fn is_synced(props: &[SyncProp], name: &[u8]) -> bool
    ensures { result ≡ has_text name.now (map (λ (p : SyncPropOf). p.prop) props.now) }
{
    is_listed(props, name)
}

/// Whether a synchronizer has a property twice.
pub fn repeats_synced(props: &[SyncProp]) -> bool
    ensures { result ≡ has_twice (map (λ (p : SyncPropOf). p.prop) props.now) }
{
    for (at, prop) in props.iter().enumerate() {
        if is_synced(&props[at + 1..], bytes_of(&prop.prop)) {
            return true;
        }
    }
    false
}

/// Whether two synchronizers have a property in common.
pub fn shares_synced(def: &SyncDef, other: &SyncDef) -> bool
    ensures { result ≡ shares_prop def.now other.now }
{
    let others = other.props.as_slice();
    def.props
        .as_slice()
        .iter()
        .any(|prop| is_synced(others, bytes_of(&prop.prop)))
}

/// Whether a property stands twice in the synchronizers of one node.
pub fn repeats_in_syncs(syncs: &[SyncDef]) -> bool
    ensures { result ≡ has_twice (flat_map synced syncs.now) }
{
    for (at, def) in syncs.iter().enumerate() {
        if repeats_synced(def.props.as_slice()) {
            return true;
        }
        if shares_with_any(def, &syncs[at + 1..]) {
            return true;
        }
    }
    false
}

fn shares_with_any(def: &SyncDef, others: &[SyncDef]) -> bool
    ensures { result ≡ list_any (shares_prop def.now) others.now }
{
    others.iter().any(|other| shares_synced(def, other))
}

/// Whether a synchronizer names something that isn't one of the properties.
pub fn names_no_prop(def: &SyncDef, props: &[Prop]) -> bool
    ensures { result ≡ no_prop_of props.now def.now }
{
    def.props
        .as_slice()
        .iter()
        .any(|prop| !has_prop(props, bytes_of(&prop.prop)))
}

fn is_told_on_change(prop: &SyncProp) -> bool
    ensures { result ≡ is_on_change prop.now.mode }
{
    matches!(prop.mode, ReplMode::OnChange)
}

/// How many properties a synchronizer tells on change.
pub fn count_on_change(def: &SyncDef) -> usize
    ensures { result ≡ on_change_count def.now }
{
    def.props
        .as_slice()
        .iter()
        .filter(|prop| is_told_on_change(prop))
        .count()
}
