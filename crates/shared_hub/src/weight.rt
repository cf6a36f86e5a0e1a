//! What an event counts in the journal: 64, and the bytes of its texts, packet bytes and values.
ghost use Rattle.std.specs.Prelude.{◌≡◌, ◌+◌, ◌-◌, ◌^◌, ◌<◌, min, length, sum_by};
ghost use Rattle.shared_hub.specs.Weight.{value_weight, prop_weight, text_weight, maybe_text, maybe_value, spawn_weight, call_weight, op_weight, event_weight};

use gd_variant::{Text, Variant, len_of};
use scene_model::{CallOp, Event, Op, Prop, SpawnOp};

/// The bytes of a text.
fn text_len(text: &Text) -> u64
    ensures value { result ≡ text_weight text.now }
    ensures small { result < 2 ^ 63 }
{
    text.as_str().len() as u64
}

fn maybe_text_len(text: &Option<Text>) -> u64
    ensures value { result ≡ maybe_text text.now }
    ensures small { result < 2 ^ 63 }
{
    match text {
        Some(text) => text_len(text),
        None => 0,
    }
}

fn maybe_value_len(value: &Option<Variant>) -> u64
    ensures { result ≡ maybe_value value.now }
{
    match value {
        Some(value) => len_of(value),
        None => 0,
    }
}

fn prop_len(prop: &Prop) -> u64
    ensures { result ≡ prop_weight prop.now }
{
    text_len(&prop.name) + len_of(&prop.value)
}

/// The bytes of some properties, or the greatest number where they are more.
fn props_len(props: &[Prop]) -> u64
    ensures { result ≡ min (sum_by prop_weight props.now) (2 ^ 64 - 1) }
{
    let mut sum = 0u64;
    for prop in props {
        sum = sum.saturating_add(prop_len(prop));
    }
    sum
}

/// The bytes of some values, or the greatest number where they are more.
fn values_len(values: &[Variant]) -> u64
    ensures { result ≡ min (sum_by value_weight values.now) (2 ^ 64 - 1) }
{
    let mut sum = 0u64;
    for value in values {
        sum = sum.saturating_add(len_of(value));
    }
    sum
}

fn spawn_len(op: &SpawnOp) -> u64
    ensures { result ≡ min (spawn_weight op.now) (2 ^ 64 - 1) }
{
    props_len(op.sets.as_slice())
        .saturating_add(text_len(&op.spawner))
        .saturating_add(maybe_text_len(&op.scene))
        .saturating_add(text_len(&op.name))
        .saturating_add(maybe_value_len(&op.arg))
}

fn call_len(op: &CallOp) -> u64
    ensures { result ≡ min (call_weight op.now) (2 ^ 64 - 1) }
{
    values_len(op.args.as_slice())
        .saturating_add(text_len(&op.path))
        .saturating_add(text_len(&op.method))
}

fn set_len(path: &Text, prop: &Text, value: &Variant) -> u64
    ensures { result ≡ min (text_weight path.now + text_weight prop.now + value_weight value.now) (2 ^ 64 - 1) }
{
    text_len(path)
        .saturating_add(text_len(prop))
        .saturating_add(len_of(value))
}

fn op_len(op: &Op) -> u64
    ensures { result ≡ min (op_weight op.now) (2 ^ 64 - 1) }
{
    match op {
        Op::Spawn(op) => spawn_len(op),
        Op::Custom(op) => spawn_len(op),
        Op::Despawn { path } => text_len(path),
        Op::Set { path, prop, value } => set_len(path, prop, value),
        Op::Public { path, .. } => text_len(path),
        Op::For { path, .. } => text_len(path),
        Op::Filter { path, .. } => text_len(path),
        Op::Call(op) => call_len(op),
        Op::Raw { bytes, .. } => bytes.as_slice().len() as u64,
        Op::Frame => 0,
    }
}

/// What an event counts in the journal, or the greatest number where that is more.
pub fn weigh(event: &Event) -> u64
    ensures { result ≡ min (event_weight event.now) (2 ^ 64 - 1) }
{
    match event {
        Event::Op(op) => op_len(op).saturating_add(64),
        Event::Up(_) => 64,
        Event::Down(_) => 64,
        Event::Received { bytes, .. } => 64 + bytes.as_slice().len() as u64,
    }
}
