//! A tree of two fixed nodes and what each call makes of it.
//!
//! A line of a script is a call of the tree and, behind the arrow, its answer as it is printed. `add` and
//! `are_new` have an authority and a number, and the id is the number with 1024 added; `row_at` answers
//! the number of the row, `rows` the authority, number and path of each, and `scene` how many nodes the
//! scene has. Each script begins with a fresh tree. Sessions show the calls that they make.
ghost use Rattle.std.specs.Prelude.{◌≡◌};
ghost use Rattle.gd_variant.specs.Sound.{has_no_zero};

use gd_variant::{IdList, Variant};
use headless_tree::{Tree, TreeNo};
use line_text::read_scene;
use sqlite_items::Items;
use std::alloc::Global;
use std::fmt::{Debug, Write};
use std::process::Abort;

/// The nodes `s`, which spawns the scene `p` below itself, and `b` with `hp` 10. The scene has `v` 0
/// and one synchronizer.
const SCENE: &[u8] =
    br#"{"nodes":[{"path":"s","spawner":{"under":"s","scenes":["p"]}},{"path":"b","props":[["hp",10]]}],"scenes":[{"name":"p","props":[["v",0]],"methods":[],"syncs":[{"props":[]}]}]}"#;

const ROWS: &str = r#"
add s z 2 1 -> Ok(())
add s p2 1 3 -> Ok(())
add s p1 1 1 -> Ok(())
rows -> 1 0 s;1 0 b;1 1 s/p1;1 3 s/p2;2 1 s/z;
count_under 1 -> 2
count_under 2 -> 1
count_under 3 -> 0
add q p3 1 5 -> Err(NoNode)
add s p1 1 5 -> Err(NameTaken)
rows -> 1 0 s;1 0 b;1 1 s/p1;1 3 s/p2;2 1 s/z;
remove b -> false
rows -> 1 0 s;1 0 b;1 1 s/p1;1 3 s/p2;2 1 s/z;
remove s/p3 -> false
rows -> 1 0 s;1 0 b;1 1 s/p1;1 3 s/p2;2 1 s/z;
remove s/p2 -> true
rows -> 1 0 s;1 0 b;1 1 s/p1;2 1 s/z;
remove s/p2 -> false
rows -> 1 0 s;1 0 b;1 1 s/p1;2 1 s/z;
remove_under 1 -> ()
rows -> 1 0 s;1 0 b;2 1 s/z;
count_under 1 -> 0
scene -> 2
"#;

const PLACES: &str = r#"
add s z 2 1 -> Ok(())
add s p2 1 3 -> Ok(())
add s p1 1 1 -> Ok(())
get s/p1 v -> Some(0)
get s/p1 hp -> None
assign_at 3 0 7 -> Ok(())
assign_at 5 0 7 -> Err(NoNode)
assign_at 3 1 7 -> Err(NoProp)
get s/p2 v -> Some(7)
row_at 3 -> Some(3)
row_at 5 -> None
node_at s/p1 -> true
node_at p1 -> false
fixed_place s -> Some(0)
fixed_place b -> Some(1)
fixed_place s/p1 -> None
fixed_place q -> None
scene_place p -> Some(0)
scene_place q -> None
"#;

const NUMBERS: &str = r#"
add s z 2 1 -> Ok(())
add s p2 1 3 -> Ok(())
add s p1 1 1 -> Ok(())
row_of 1 1 -> Some(2)
row_of 1 1025 -> Some(2)
row_of 1 3 -> Some(3)
row_of 1 1027 -> Some(3)
row_of 2 1 -> Some(4)
row_of 2 1025 -> Some(4)
row_of 2 3 -> None
row_of 3 1 -> None
row_of 1 0 -> None
row_of 1 1024 -> None
are_new 1 1 -> false
are_new 1 1025 -> false
are_new 1 5 -> true
are_new 2 3 -> true
remove s/p1 -> true
are_new 1 1 -> true
row_of 1 1 -> None
row_of 1 1025 -> None
row_of 1 3 -> Some(2)
row_of 2 1025 -> Some(3)
remove_under 1 -> ()
row_of 1 3 -> None
row_of 1 1027 -> None
row_of 2 1 -> Some(2)
"#;

fn fresh(alloc: Global) -> Option<Tree> {
    match read_scene(alloc, SCENE) {
        Ok(scene) => Tree::new(alloc, &scene).ok(),
        Err(_) => None,
    }
}

/// What Rust prints of an answer.
fn shown<T: Debug + Drop>(alloc: Global, answer: Option<T>) -> Option<String> {
    match answer {
        Some(answer) => format!(in alloc; "{answer:?}").ok(),
        None => None,
    }
}

/// The first word, and what stands behind it.
fn first(words: &str) -> (&str, &str) {
    words.split_once(' ').unwrap_or((words, ""))
}

/// An authority and a number of its own.
fn number(words: &str) -> Option<(i32, u32)> {
    let (auth, num) = first(words);
    match auth.parse() {
        Ok(auth) => match num.parse() {
            Ok(num) => Some((auth, num)),
            Err(_) => None,
        },
        Err(_) => None,
    }
}

/// The ids of the node with this number.
fn ids(alloc: Global, num: u32) -> Option<IdList> {
    Items::from_slice(alloc, &[num | 1024]).ok()
}

fn are_new(alloc: Global, tree: &Tree, words: &str) -> Option<bool> {
    let Some(number) = number(words) else {
        return None;
    };
    match ids(alloc, number.1) {
        Some(ids) => Some(tree.are_new(number.0, number.1, &ids)),
        None => None,
    }
}

fn is_without_zero(bytes: &[u8]) -> bool
    ensures { result ≡ has_no_zero bytes.now }
{
    bytes.iter().all(|byte| *byte != 0)
}

/// Adds a node of the first scene, where its number and its id are new.
fn add(alloc: Global, tree: &mut Tree, words: &str) -> Option<Result<(), TreeNo>> {
    let (under, words) = first(words);
    let (name, words) = first(words);
    if !is_without_zero(under.as_bytes()) || !is_without_zero(name.as_bytes()) {
        return None;
    }
    let Some(number) = number(words) else {
        return None;
    };
    let Some(ids) = ids(alloc, number.1) else {
        return None;
    };
    if tree.scene().scenes.len() == 0 || !tree.are_new(number.0, number.1, &ids) {
        return None;
    }
    Some(tree.insert(alloc, under, name, number.0, number.1, &ids, 0))
}

/// The places of a node and of its property, and a number.
fn places(words: &str) -> Option<(usize, usize, i64)> {
    let (place, words) = first(words);
    let (prop, value) = first(words);
    match (place.parse(), prop.parse(), value.parse()) {
        (Ok(place), Ok(prop), Ok(value)) => Some((place, prop, value)),
        _ => None,
    }
}

fn assign_at(tree: &mut Tree, words: &str) -> Option<Result<(), TreeNo>> {
    match places(words) {
        Some((place, prop, value)) => Some(tree.assign_at(place, prop, Variant::Int(value))),
        None => None,
    }
}

fn remove_under(tree: &mut Tree, auth: &str) -> Option<()> {
    match auth.parse() {
        Ok(auth) => {
            tree.remove_under(auth);
            Some(())
        }
        Err(_) => None,
    }
}

fn count_under(tree: &Tree, auth: &str) -> Option<usize> {
    match auth.parse() {
        Ok(auth) => Some(tree.count_under(auth)),
        Err(_) => None,
    }
}

/// The integer that a property has, if it has one.
fn get(tree: &Tree, words: &str) -> Option<i64> {
    let (path, prop) = first(words);
    match tree.get(path, prop) {
        Some(Variant::Int(number)) => Some(*number),
        _ => None,
    }
}

fn row_of(tree: &Tree, words: &str) -> Option<Option<usize>> {
    match number(words) {
        Some(number) => Some(tree.row_of(number.0, number.1)),
        None => None,
    }
}

/// The number of the row at a place.
fn row_at(tree: &Tree, place: &str) -> Option<Option<u32>> {
    match place.parse() {
        Ok(place) => match tree.row_at(place) {
            Some(row) => Some(Some(row.num)),
            None => Some(None),
        },
        Err(_) => None,
    }
}

/// Authority, number and path of each row.
fn rows(alloc: Global, tree: &Tree) -> Option<String> {
    let Ok(rows) = tree.rows(alloc) else {
        return None;
    };
    let mut shape = String::new(alloc);
    for row in rows.as_slice() {
        if write!(shape, "{} {} {};", row.auth, row.num, row.path.as_str()).is_err() {
            return None;
        }
    }
    Some(shape)
}

/// What a call answers that only looks.
fn answer_of_look(alloc: Global, tree: &Tree, call: &str, words: &str) -> Option<String> {
    match call {
        "are_new" => shown(alloc, are_new(alloc, tree, words)),
        "count_under" => shown(alloc, count_under(tree, words)),
        "fixed_place" => shown(alloc, Some(tree.fixed_place(words))),
        "get" => shown(alloc, Some(get(tree, words))),
        "node_at" => shown(alloc, Some(tree.node_at(words).is_some())),
        "row_at" => shown(alloc, row_at(tree, words)),
        "row_of" => shown(alloc, row_of(tree, words)),
        "rows" => rows(alloc, tree),
        "scene" => shown(alloc, Some(tree.scene().nodes.len())),
        "scene_place" => shown(alloc, Some(tree.scene_place(words))),
        _ => None,
    }
}

fn answer_of(alloc: Global, tree: &mut Tree, call: &str, words: &str) -> Option<String> {
    match call {
        "add" => shown(alloc, add(alloc, tree, words)),
        "assign_at" => shown(alloc, assign_at(tree, words)),
        "remove" => shown(alloc, Some(tree.remove(words))),
        "remove_under" => shown(alloc, remove_under(tree, words)),
        _ => answer_of_look(alloc, tree, call, words),
    }
}

/// Whether a line is empty, or tells what its call answers.
fn is_as_told(alloc: Global, tree: &mut Tree, line: &str) -> bool {
    let Some((call, want)) = line.split_once(" -> ") else {
        return line.is_empty();
    };
    let (call, words) = first(call);
    match answer_of(alloc, tree, call, words) {
        Some(answer) => answer.as_str() == want,
        None => false,
    }
}

fn follow_in(rt: &impl Abort, alloc: Global, tree: &mut Tree, script: &str) {
    for line in script.lines() {
        assert!(rt; is_as_told(alloc, tree, line), "{line}");
    }
}

/// Asserts each line of a script, over a fresh tree.
fn follow(rt: &impl Abort, alloc: Global, script: &str) {
    match fresh(alloc) {
        Some(mut tree) => {
            follow_in(rt, alloc, &mut tree, script);
            drop(tree);
        }
        None => assert!(rt; false, "no tree"),
    }
}

#[test]
fn rows_stand_by_authority_and_number(rt: HostRuntime) {
    follow(&rt, rt.alloc(), ROWS);
}

#[test]
fn nodes_are_found_by_place_and_name(rt: HostRuntime) {
    follow(&rt, rt.alloc(), PLACES);
}

#[test]
fn numbers_and_ids_lead_to_their_node(rt: HostRuntime) {
    follow(&rt, rt.alloc(), NUMBERS);
}
