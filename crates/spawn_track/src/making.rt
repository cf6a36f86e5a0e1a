//! Spawns of this peer: their rows and their nodes.
ghost use Rattle.std.specs.Prelude.{◌≡◌, ◌≤◌, ◌+◌, ◌++◌, ℤ, [], ◌∷◌, true, IfOk, OnOk, length};
ghost use Rattle.std.specs.List.{list_all};
ghost use Rattle.gd_variant.specs.Words.{or_else};
ghost use Rattle.peer_model.specs.Refusals.{argument_fits};
ghost use Rattle.peer_model.specs.Rows.{syncs_at, spawned_scene, count_from};
ghost use Rattle.peer_model.specs.Values.{argument_prop};
ghost use Rattle.gd_variant.specs.Sound.{is_sound};
ghost use Rattle.scene_model.specs.declared.scene.Prop.{Prop as PropOf};
ghost use Rattle.peer_steps.specs.Arguments.{is_right_spawn, is_sound_argument};
ghost use Rattle.peer_steps.specs.Arrivals.{argument_assigned};
ghost use Rattle.peer_steps.specs.Fits.{Fits};
ghost use Rattle.peer_steps.specs.Sites.{MaySpawn, who_at, own_made, with_made, after_made, site_row, has_short, with_settings};
ghost use Rattle.peer_steps.specs.Track.{own_spawn};
ghost use Rattle.sight_laws.specs.Sights.{with_row};

use crate::lookup::spawner_at;
use crate::placing::{NewNode, put_argument, put_node, put_value};
use crate::shown::prop_for;
use crate::spawning::{judge_spawn, site_of, syncs_at_place};
use gd_variant::{IdList, OutOfMemory, Text, Variant};
use headless_tree::Tree;
use peer_steps::{Site, SpawnedRow};
use scene_model::{Prop, Refusal, Scene, SpawnOp, SyncDef};
use sqlite_items::Items;
use std::alloc::Global;
use visibility::Sights;

/// Makes settings of the node at a path in order.
fn put_sets(alloc: Global, tree: &mut Tree, path: &Text, sets: &[Prop]) -> Result<(), OutOfMemory>
    requires { list_all has_short sets.now ≡ true }
    ensures { OnOk result (tree.new ≡ record tree.old { nodes = with_settings path.now sets.now tree.old.nodes }) }
{
    for set in sets {
        let value = set.value.try_clone(alloc)?;
        put_value(tree, path, &set.name, value);
    }
    Ok(())
}

/// A number for each synchronizer.
fn ids_from(alloc: Global, first: u32, defs: &[SyncDef]) -> Result<IdList, OutOfMemory>
    requires { first + length defs.now ≤ 4294967295 }
    ensures { IfOk result (λ ids. ids ≡ count_from first defs.now) }
{
    let mut ids = Items::new(alloc);
    let mut next = first;
    for _def in defs {
        ids.push(next)?;
        next += 1;
    }
    Ok(ids)
}

fn place_or_first(place: Option<u32>) -> u32
    ensures { result ≡ or_else place 0 }
{
    match place {
        Some(place) => place,
        None => 0,
    }
}

/// A copy of an argument.
pub fn copy_argument(alloc: Global, arg: &Option<Variant>) -> Result<Option<Variant>, OutOfMemory>
    ensures { IfOk result (λ a. a ≡ arg.now) }
{
    match arg {
        Some(value) => {
            let value = value.try_clone(alloc)?;
            Ok(Some(value))
        }
        None => Ok(None),
    }
}

/// Assigns the argument of a spawn to the property that its spawner names.
fn put_own_argument(
    alloc: Global,
    tree: &mut Tree,
    path: &Text,
    op: &SpawnOp,
) -> Result<(), OutOfMemory>
    requires { argument_fits op.now.arg ≡ true }
    ensures { (id : ℤ) → OnOk result (tree.new ≡ record tree.old { nodes = argument_assigned path.now (argument_prop (who_at id tree.old.scene) op.now) op.now.arg tree.old.nodes }) }
{
    let prop = prop_for(alloc, spawner_at(tree, &op.spawner))?;
    let arg = copy_argument(alloc, &op.arg)?;
    put_argument(tree, path, &prop, arg);
    Ok(())
}

fn make_row(
    alloc: Global,
    scene: &Scene,
    num: u32,
    op: &SpawnOp,
    site: &Site,
) -> Result<SpawnedRow, OutOfMemory>
    requires { num + length (syncs_at scene.now site.now.place) ≤ 2147483647 }
    ensures { IfOk result (λ r. r ≡ site_row scene.now num op.now site.now) }
{
    let ids = ids_from(alloc, num + 1, syncs_at_place(scene, site.place))?;
    let path = site.path.try_clone(alloc)?;
    let spawner = op.spawner.try_clone(alloc)?;
    let name = op.name.try_clone(alloc)?;
    let arg = copy_argument(alloc, &op.arg)?;
    Ok(SpawnedRow {
        num,
        ids,
        path,
        place: place_or_first(site.place),
        spawner,
        byte: site.byte,
        name,
        arg,
    })
}

/// Makes the row of a spawn that isn't refused, and its node with its settings.
fn add_row(
    alloc: Global,
    id: &i32,
    tree: &mut Tree,
    num: u32,
    op: &SpawnOp,
    site: &Site,
) -> Result<SpawnedRow, OutOfMemory>
    requires { MaySpawn (who_at id.now tree.old.scene) tree.old.nodes num op.now site.now }
    ensures row { IfOk result (λ r. r ≡ own_made id.now tree.old.scene num op.now) }
    ensures tree { OnOk result (tree.new ≡ record tree.old { nodes = with_made id.now tree.old.scene num op.now tree.old.nodes }) }
{
    let row = make_row(alloc, tree.scene(), num, op, site)?;
    put_node(
        alloc,
        tree,
        NewNode {
            under: &site.under,
            name: &op.name,
            auth: id,
            num,
            ids: &row.ids,
            place: row.place,
        },
    )?;
    put_own_argument(alloc, tree, &site.path, op)?;
    put_sets(alloc, tree, &site.path, op.sets.as_slice())?;
    Ok(row)
}

/// Makes a spawn that isn't refused: its row, its node, the next number and who sees the row.
fn make_spawn(
    alloc: Global,
    me: &i32,
    up: &[i32],
    tree: &mut Tree,
    next: &mut u32,
    rows: &mut Vec<SpawnedRow>,
    sights: &mut Sights,
    op: &SpawnOp,
    site: &Site,
) -> Result<(), OutOfMemory>
    requires { MaySpawn (who_at me.now tree.old.scene) tree.old.nodes next.old op.now site.now }
    ensures tree { OnOk result (tree.new ≡ record tree.old { nodes = with_made me.now tree.old.scene next.old op.now tree.old.nodes }) }
    ensures next { OnOk result (next.new ≡ after_made me.now tree.old.scene next.old op.now) }
    ensures rows { OnOk result (rows.new.items ≡ rows.old.items ++ own_made me.now tree.old.scene next.old op.now ∷ []) }
    ensures sights { OnOk result (sights.new ≡ with_row up.now next.old (syncs_at tree.old.scene (spawned_scene (who_at me.now tree.old.scene) op.now)) sights.old) }
{
    let num = *next;
    let row = add_row(alloc, me, tree, num, op, site)?;
    *next = num + 1 + row.ids.len() as u32;
    rows.push(row)?;
    sights.add_row(alloc, up, num, syncs_at_place(tree.scene(), site.place))?;
    Ok(())
}

/// Makes a spawn by scene or a custom one, or says why it is refused.
pub fn spawn_row(
    alloc: Global,
    me: &i32,
    up: &[i32],
    tree: &mut Tree,
    next: &mut u32,
    rows: &mut Vec<SpawnedRow>,
    sights: &mut Sights,
    op: &SpawnOp,
) -> Result<Option<Refusal>, OutOfMemory>
    requires fits { Fits me.now tree.old (record { next = next.old; rows = rows.old.items; sights = sights.old }) }
    requires right { is_right_spawn op.now ≡ true }
    requires sound { list_all (λ (p : PropOf). is_sound p.value) op.now.sets ≡ true }
    requires argument { is_sound_argument op.now.arg ≡ true }
    ensures { IfOk result (λ r. record { refused = r; track = record { next = next.new; rows = rows.new.items; sights = sights.new }; tree = tree.new } ≡ own_spawn me.now up.now op.now (record { next = next.old; rows = rows.old.items; sights = sights.old }) tree.old) }
{
    let site = site_of(alloc, tree, op)?;
    match judge_spawn(me, tree, rows, *next, op, &site) {
        Some(refusal) => Ok(Some(refusal)),
        None => {
            make_spawn(alloc, me, up, tree, next, rows, sights, op, &site)?;
            Ok(None)
        }
    }
}
