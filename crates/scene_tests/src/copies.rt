//! Copies of scenes, events, packets and outcomes, with ample memory.
use gd_variant::{Bytes, IntsOf, Text, Variant};
use line_text::{SessionLine, read_event, read_scene};
use scene_check::check;
use scene_model::{
    Class, Effects, Op, Out, OutList, Outcome, Prop, Scene, SceneDef, SceneWhy, TryClone,
    WorldEvent,
};
use sqlite_items::Items;
use std::alloc::Global;

const SCENE: &[u8] =
    br#"{"nodes":[{"path":"s","spawner":{"under":"s","scenes":["p"]}},{"path":"b","props":[["hp",10]]}],"scenes":[{"name":"p","props":[["v",0]],"methods":[],"syncs":[{"props":[["v","change",true]]}]}]}"#;

/// Whether the copy of a scene is as valid, and has as many nodes and scenes.
fn is_scene_copied(alloc: Global) -> Option<bool> {
    let scene = read_scene(alloc, SCENE).ok()?;
    let copy = scene.try_clone(alloc).ok()?;
    Some(check(&copy).is_ok() && copy.nodes.len() == 2 && copy.scenes.len() == 1)
}

/// Whether an operation sets `hp` of `b`.
fn is_assignment(op: &Op) -> bool {
    match op {
        Op::Set { path, prop, .. } => path.as_str() == "b" && prop.as_str() == "hp",
        _ => false,
    }
}

/// Whether the copy of an operation is the same assignment.
fn is_operation_copied(alloc: Global) -> Option<bool> {
    match read_event(alloc, br#"["op",1,["set","b","hp",9]]"#).ok()? {
        SessionLine::Event(WorldEvent::Op { op, .. }) => {
            let copy = op.try_clone(alloc).ok()?;
            Some(is_assignment(&copy))
        }
        _ => None,
    }
}

/// One packet of two bytes.
fn packets(alloc: Global) -> Option<OutList> {
    let mut packets: OutList = Items::new(alloc);
    let packet = Out {
        link: 1,
        to: 2,
        class: Class::Ordered,
        tick: Some(7),
        bytes: Bytes::from_slice(alloc, &[1, 2]).ok()?,
    };
    packets.push(packet).ok()?;
    Some(packets)
}

/// Whether the copy of an outcome that is done has its one packet, and the copy of that list too.
fn is_outcome_copied(alloc: Global) -> Option<bool> {
    let packets = packets(alloc)?;
    let copy = packets.try_clone(alloc).ok()?;
    let outcome = Outcome::Done(Effects {
        packets,
        runs: Items::new(alloc),
        raws: Items::new(alloc),
        skips: Items::new(alloc),
    });
    match outcome.try_clone(alloc).ok()? {
        Outcome::Done(effects) => Some(effects.packets.len() == 1 && copy.len() == 1),
        _ => None,
    }
}

/// A scene whose property has a value of a kind that there is none of.
fn unsound_scene(alloc: Global, name: Text, prop: Text) -> Option<Scene> {
    let value = Variant::Ints(IntsOf {
        code: 7,
        items: Items::new(alloc),
    });
    let mut props = Items::new(alloc);
    props.push(Prop { name: prop, value }).ok()?;
    let def = SceneDef {
        name,
        props,
        methods: Items::new(alloc),
        syncs: Items::new(alloc),
    };
    let mut scenes = Items::new(alloc);
    scenes.push(def).ok()?;
    Some(Scene {
        nodes: Items::new(alloc),
        scenes,
    })
}

/// Why such a scene isn't valid.
fn reason_against_it(alloc: Global) -> Option<SceneWhy> {
    let mut scene = read_scene(alloc, SCENE).ok()?;
    let name = scene.scenes.pop()?.name;
    let prop = name.try_clone(alloc).ok()?;
    let scene = unsound_scene(alloc, name, prop)?;
    Some(check(&scene).err()?.why)
}

#[test]
fn an_unsound_value_is_too_long(rt: HostRuntime) {
    assert!(rt; reason_against_it(rt.alloc()) == Some(SceneWhy::ValueLong));
}

#[test]
fn copies_are_the_same(rt: HostRuntime) {
    let alloc = rt.alloc();
    assert_eq!(rt; is_scene_copied(alloc), Some(true));
    assert_eq!(rt; is_operation_copied(alloc), Some(true));
    assert_eq!(rt; is_outcome_copied(alloc), Some(true));
}
