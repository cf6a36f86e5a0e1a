//! Copies of the plain types.
ghost use Rattle.std.specs.Prelude.{◌≡◌, IfOk};

use crate::event::{CallOp, Event, Op, SpawnOp};
use crate::outcome::{Effects, Fault, Out, Outcome, RawGot, Run, Skip};
use crate::scene::{
    CustomDef, Method, Node, Prop, Role, Scene, SceneDef, Sets, SpawnerDef, SyncDef, SyncProp,
};
use gd_variant::{Bytes, OutOfMemory, Text, Variant};
use sqlite_items::Items;
use std::alloc::Global;

/// A copy that equals what it copies.
pub trait TryClone: Sized + Drop {
    fn try_clone(&self, alloc: Global) -> Result<Self, OutOfMemory>
        ensures { IfOk result (λ copy. copy ≡ self.now) };
}

fn clone_items<T: TryClone>(items: &[T], alloc: Global) -> Result<Items<T>, OutOfMemory>
    ensures { IfOk result (λ copy. copy ≡ items.now) }
{
    let mut copy = Items::new(alloc);
    for item in items {
        copy.push(item.try_clone(alloc)?)?;
    }
    Ok(copy)
}

impl<T: TryClone> TryClone for Items<T> {
    fn try_clone(&self, alloc: Global) -> Result<Items<T>, OutOfMemory> {
        clone_items(self.as_slice(), alloc)
    }
}

impl TryClone for i32 {
    fn try_clone(&self, _alloc: Global) -> Result<i32, OutOfMemory> {
        Ok(*self)
    }
}

impl TryClone for Text {
    fn try_clone(&self, alloc: Global) -> Result<Text, OutOfMemory> {
        Text::try_clone(self, alloc)
    }
}

impl TryClone for Bytes {
    fn try_clone(&self, alloc: Global) -> Result<Bytes, OutOfMemory> {
        Bytes::from_slice(alloc, self.as_slice())
    }
}

impl TryClone for Variant {
    fn try_clone(&self, alloc: Global) -> Result<Variant, OutOfMemory> {
        Variant::try_clone(self, alloc)
    }
}

impl<T: TryClone> TryClone for Option<T> {
    fn try_clone(&self, alloc: Global) -> Result<Option<T>, OutOfMemory> {
        match self {
            Some(value) => Ok(Some(value.try_clone(alloc)?)),
            None => Ok(None),
        }
    }
}

impl TryClone for Prop {
    fn try_clone(&self, alloc: Global) -> Result<Prop, OutOfMemory> {
        Ok(Prop {
            name: self.name.try_clone(alloc)?,
            value: self.value.try_clone(alloc)?,
        })
    }
}

impl TryClone for Sets {
    fn try_clone(&self, alloc: Global) -> Result<Sets, OutOfMemory> {
        Ok(Sets {
            prop: self.prop.try_clone(alloc)?,
            arg: self.arg,
        })
    }
}

impl TryClone for Method {
    fn try_clone(&self, alloc: Global) -> Result<Method, OutOfMemory> {
        Ok(Method {
            name: self.name.try_clone(alloc)?,
            mode: self.mode,
            local: self.local,
            class: self.class,
            args: self.args,
            sets: self.sets.try_clone(alloc)?,
        })
    }
}

impl TryClone for SyncProp {
    fn try_clone(&self, alloc: Global) -> Result<SyncProp, OutOfMemory> {
        Ok(SyncProp {
            prop: self.prop.try_clone(alloc)?,
            mode: self.mode,
            spawn: self.spawn,
        })
    }
}

impl TryClone for SyncDef {
    fn try_clone(&self, alloc: Global) -> Result<SyncDef, OutOfMemory> {
        Ok(SyncDef {
            of: self.of.try_clone(alloc)?,
            public: self.public,
            props: self.props.try_clone(alloc)?,
        })
    }
}

impl TryClone for CustomDef {
    fn try_clone(&self, alloc: Global) -> Result<CustomDef, OutOfMemory> {
        Ok(CustomDef {
            scene: self.scene.try_clone(alloc)?,
            prop: self.prop.try_clone(alloc)?,
        })
    }
}

impl TryClone for SpawnerDef {
    fn try_clone(&self, alloc: Global) -> Result<SpawnerDef, OutOfMemory> {
        Ok(SpawnerDef {
            under: self.under.try_clone(alloc)?,
            scenes: self.scenes.try_clone(alloc)?,
            limit: self.limit,
            custom: self.custom.try_clone(alloc)?,
        })
    }
}

impl TryClone for Role {
    fn try_clone(&self, alloc: Global) -> Result<Role, OutOfMemory> {
        match self {
            Role::Plain => Ok(Role::Plain),
            Role::Spawner(def) => Ok(Role::Spawner(def.try_clone(alloc)?)),
            Role::Sync(def) => Ok(Role::Sync(def.try_clone(alloc)?)),
        }
    }
}

impl TryClone for Node {
    fn try_clone(&self, alloc: Global) -> Result<Node, OutOfMemory> {
        Ok(Node {
            path: self.path.try_clone(alloc)?,
            auth: self.auth,
            props: self.props.try_clone(alloc)?,
            methods: self.methods.try_clone(alloc)?,
            role: self.role.try_clone(alloc)?,
        })
    }
}

impl TryClone for SceneDef {
    fn try_clone(&self, alloc: Global) -> Result<SceneDef, OutOfMemory> {
        Ok(SceneDef {
            name: self.name.try_clone(alloc)?,
            props: self.props.try_clone(alloc)?,
            methods: self.methods.try_clone(alloc)?,
            syncs: self.syncs.try_clone(alloc)?,
        })
    }
}

impl TryClone for Scene {
    fn try_clone(&self, alloc: Global) -> Result<Scene, OutOfMemory> {
        Ok(Scene {
            nodes: self.nodes.try_clone(alloc)?,
            scenes: self.scenes.try_clone(alloc)?,
        })
    }
}

impl TryClone for SpawnOp {
    fn try_clone(&self, alloc: Global) -> Result<SpawnOp, OutOfMemory> {
        Ok(SpawnOp {
            spawner: self.spawner.try_clone(alloc)?,
            scene: self.scene.try_clone(alloc)?,
            name: self.name.try_clone(alloc)?,
            sets: self.sets.try_clone(alloc)?,
            arg: self.arg.try_clone(alloc)?,
        })
    }
}

impl TryClone for CallOp {
    fn try_clone(&self, alloc: Global) -> Result<CallOp, OutOfMemory> {
        Ok(CallOp {
            to: self.to,
            path: self.path.try_clone(alloc)?,
            method: self.method.try_clone(alloc)?,
            args: self.args.try_clone(alloc)?,
        })
    }
}

impl TryClone for Op {
    fn try_clone(&self, alloc: Global) -> Result<Op, OutOfMemory> {
        match self {
            Op::Spawn(op) => Ok(Op::Spawn(op.try_clone(alloc)?)),
            Op::Custom(op) => Ok(Op::Custom(op.try_clone(alloc)?)),
            Op::Despawn { path } => Ok(Op::Despawn {
                path: path.try_clone(alloc)?,
            }),
            Op::Set { path, prop, value } => Ok(Op::Set {
                path: path.try_clone(alloc)?,
                prop: prop.try_clone(alloc)?,
                value: value.try_clone(alloc)?,
            }),
            Op::Public { path, k, on } => Ok(Op::Public {
                path: path.try_clone(alloc)?,
                k: *k,
                on: *on,
            }),
            Op::For { path, k, peer, on } => Ok(Op::For {
                path: path.try_clone(alloc)?,
                k: *k,
                peer: *peer,
                on: *on,
            }),
            Op::Filter { path, k, peers } => Ok(Op::Filter {
                path: path.try_clone(alloc)?,
                k: *k,
                peers: peers.try_clone(alloc)?,
            }),
            Op::Call(op) => Ok(Op::Call(op.try_clone(alloc)?)),
            Op::Raw { to, class, bytes } => Ok(Op::Raw {
                to: *to,
                class: *class,
                bytes: bytes.try_clone(alloc)?,
            }),
            Op::Frame => Ok(Op::Frame),
        }
    }
}

impl TryClone for Event {
    fn try_clone(&self, alloc: Global) -> Result<Event, OutOfMemory> {
        match self {
            Event::Op(op) => Ok(Event::Op(op.try_clone(alloc)?)),
            Event::Up(peer) => Ok(Event::Up(*peer)),
            Event::Down(peer) => Ok(Event::Down(*peer)),
            Event::Received { from, class, bytes } => Ok(Event::Received {
                from: *from,
                class: *class,
                bytes: bytes.try_clone(alloc)?,
            }),
        }
    }
}

impl TryClone for Out {
    fn try_clone(&self, alloc: Global) -> Result<Out, OutOfMemory> {
        Ok(Out {
            link: self.link,
            to: self.to,
            class: self.class,
            tick: self.tick,
            bytes: self.bytes.try_clone(alloc)?,
        })
    }
}

impl TryClone for Run {
    fn try_clone(&self, alloc: Global) -> Result<Run, OutOfMemory> {
        Ok(Run {
            sender: self.sender,
            path: self.path.try_clone(alloc)?,
            method: self.method.try_clone(alloc)?,
            args: self.args.try_clone(alloc)?,
        })
    }
}

impl TryClone for RawGot {
    fn try_clone(&self, alloc: Global) -> Result<RawGot, OutOfMemory> {
        Ok(RawGot {
            sender: self.sender,
            bytes: self.bytes.try_clone(alloc)?,
        })
    }
}

impl TryClone for Skip {
    fn try_clone(&self, _alloc: Global) -> Result<Skip, OutOfMemory> {
        Ok(Skip {
            sender: self.sender,
            id: self.id,
            why: self.why,
        })
    }
}

impl TryClone for Effects {
    fn try_clone(&self, alloc: Global) -> Result<Effects, OutOfMemory> {
        Ok(Effects {
            packets: self.packets.try_clone(alloc)?,
            runs: self.runs.try_clone(alloc)?,
            raws: self.raws.try_clone(alloc)?,
            skips: self.skips.try_clone(alloc)?,
        })
    }
}

impl TryClone for Fault {
    fn try_clone(&self, alloc: Global) -> Result<Fault, OutOfMemory> {
        match self {
            Fault::Malformed { at, why } => Ok(Fault::Malformed { at: *at, why: *why }),
            Fault::UnknownPeer { peer } => Ok(Fault::UnknownPeer { peer: *peer }),
            Fault::AuthOff => Ok(Fault::AuthOff),
            Fault::NotServer => Ok(Fault::NotServer),
            Fault::BadPeer { peer } => Ok(Fault::BadPeer { peer: *peer }),
            Fault::GonePeer { peer } => Ok(Fault::GonePeer { peer: *peer }),
            Fault::NoName { id } => Ok(Fault::NoName { id: *id }),
            Fault::NoNode => Ok(Fault::NoNode),
            Fault::NoMethod => Ok(Fault::NoMethod),
            Fault::ArgCount => Ok(Fault::ArgCount),
            Fault::ArgLong => Ok(Fault::ArgLong),
            Fault::NotAllowed => Ok(Fault::NotAllowed),
            Fault::IdRange { id } => Ok(Fault::IdRange { id: *id }),
            Fault::NameDiffers { kept } => Ok(Fault::NameDiffers {
                kept: kept.try_clone(alloc)?,
            }),
            Fault::MethodsDiffer { kept } => Ok(Fault::MethodsDiffer { kept: *kept }),
            Fault::Unconfirmed { id } => Ok(Fault::Unconfirmed { id: *id }),
            Fault::NoSpawner => Ok(Fault::NoSpawner),
            Fault::NotAuthority => Ok(Fault::NotAuthority),
            Fault::NoScene => Ok(Fault::NoScene),
            Fault::KnownNet { id } => Ok(Fault::KnownNet { id: *id }),
            Fault::BadName => Ok(Fault::BadName),
            Fault::NameTaken => Ok(Fault::NameTaken),
            Fault::NodesFull => Ok(Fault::NodesFull),
            Fault::WrongValues => Ok(Fault::WrongValues),
            Fault::NoNet { net } => Ok(Fault::NoNet { net: *net }),
            Fault::NoSync { id } => Ok(Fault::NoSync { id: *id }),
            Fault::BadMask { mask } => Ok(Fault::BadMask { mask: *mask }),
            Fault::NotBuilt => Ok(Fault::NotBuilt),
        }
    }
}

impl TryClone for Outcome {
    fn try_clone(&self, alloc: Global) -> Result<Outcome, OutOfMemory> {
        match self {
            Outcome::Done(effects) => Ok(Outcome::Done(effects.try_clone(alloc)?)),
            Outcome::Refused(refusal) => Ok(Outcome::Refused(*refusal)),
            Outcome::Fault(fault) => Ok(Outcome::Fault(fault.try_clone(alloc)?)),
        }
    }
}
