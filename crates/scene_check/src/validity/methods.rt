//! Methods of a node or of a scene.
ghost use Rattle.std.specs.Prelude.{◌≡◌, ◌≤◌, ◌||◌, not, length, map};
ghost use Rattle.std.specs.List.{list_any};
ghost use Rattle.scene_model.specs.declared.scene.Method.{Method as MethodOf};
ghost use Rattle.scene_model.specs.Paths.{is_name as is_name_of};
ghost use Rattle.scene_check.specs.Places.{ArePlaces, method_texts};
ghost use Rattle.scene_model.specs.Valid.{has_twice, sets_wrong as sets_wrong_of, methods_wrong};

use crate::places::{Listing, Place, Places, fill, next_place};
use crate::validity::props::has_prop;
use scene_model::{Method, Prop, bytes_of, is_name};

fn sets_wrong(props: &[Prop], method: &Method) -> bool
    ensures { result ≡ sets_wrong_of props.now method.now }
{
    match &method.sets {
        Some(sets) => !has_prop(props, bytes_of(&sets.prop)) || method.args <= sets.arg,
        None => false,
    }
}

fn is_wrong(props: &[Prop], method: &Method) -> bool
    ensures { result ≡ (not (is_name_of method.now.name) || sets_wrong_of props.now method.now) }
{
    !is_name(bytes_of(&method.name)) || sets_wrong(props, method)
}

fn has_wrong(props: &[Prop], methods: &[Method]) -> bool
    ensures { result ≡ list_any (λ (m : MethodOf). not (is_name_of m.name) || sets_wrong_of props.now m) methods.now }
{
    methods.iter().any(|method| is_wrong(props, method))
}

fn repeats_in<'a>(places: &[Place<'a>], methods: &'a [Method]) -> bool
    requires few { length methods.now ≤ 4096 }
    requires placed { ArePlaces places.now (method_texts methods.now) }
    ensures { result ≡ has_twice (map (λ (m : MethodOf). m.name) methods.now) }
{
    for (at, method) in methods.iter().enumerate() {
        if next_place(places, bytes_of(&method.name), at as u16 + 1).is_some() {
            return true;
        }
    }
    false
}

/// Whether two methods have one name.
fn repeats_name<'a>(methods: &'a [Method], places: &mut Places<'a>) -> bool
    requires { length methods.now ≤ 4096 }
    ensures { result ≡ has_twice (map (λ (m : MethodOf). m.name) methods.now) }
{
    fill(Listing::Methods(methods), places);
    repeats_in(places.as_slice(), methods)
}

/// Whether a method's name is wrong or repeated, or it sets a property wrongly. What was kept in
/// `places` is lost.
pub fn are_wrong<'a>(props: &[Prop], methods: &'a [Method], places: &mut Places<'a>) -> bool
    requires { length methods.now ≤ 4096 }
    ensures { result ≡ methods_wrong props.now methods.now }
{
    has_wrong(props, methods) || repeats_name(methods, places)
}
