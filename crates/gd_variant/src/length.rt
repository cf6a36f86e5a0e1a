//! How many bytes the written forms of a value take.
ghost use Rattle.std.specs.Prelude.{◌≡◌, ◌+◌, ◌*◌, ◌<◌, ◌^◌, min, length, sum_by, nat_le, if◌then◌else◌};
ghost use Rattle.gd_variant.specs.Tree.{plain, plains, plain_pairs};
ghost use Rattle.gd_variant.specs.Size.{padded, text_size, int_width, tree_size, trees_size, value_size, small_size};

use crate::text::Text;
use crate::value::{NodePath, Opaque, Pair, Variant};

/// One more than the bytes of the longest form: what stands for every longer one.
const TOO_LONG: u64 = 8_388_609;

/// A number of bytes filled up to a multiple of four.
fn padded_len(n: u64) -> u64
    requires { n < 2 ^ 63 }
    ensures { result ≡ padded n }
{
    (n + 3) / 4 * 4
}

/// A length word and the bytes with their padding.
fn text_len(text: &Text) -> u64
    ensures { result ≡ text_size text.now }
{
    4 + padded_len(text.as_str().len() as u64)
}

fn texts_within(texts: &[Text], limit: u64) -> u64
    ensures { result ≡ min (sum_by text_size texts.now) limit }
{
    let mut total = 0u64;
    for text in texts {
        total = total.saturating_add(text_len(text)).min(limit);
    }
    total
}

/// So many elements of one size, or `limit` where they take more bytes.
fn elements_within(count: usize, size: u64, limit: u64) -> u64
    ensures { result ≡ min (size * count) limit }
{
    size.saturating_mul(count as u64).min(limit)
}

/// The bytes of a number in the compressed form, without the byte in front.
fn int_bytes(n: i64) -> u64
    ensures { result ≡ int_width n }
{
    if -128 <= n && n < 128 {
        1
    } else if -32768 <= n && n < 32768 {
        2
    } else if -2147483648 <= n && n < 2147483648 {
        4
    } else {
        8
    }
}

/// The bytes of a number in the binary form.
fn int_len(n: i64) -> u64
    ensures { result ≡ if nat_le (int_width n) 4 then 8 else 12 }
{
    if -2147483648 <= n && n < 2147483648 {
        8
    } else {
        12
    }
}

/// The head of a list, a number of bytes, and the items behind it.
fn behind(head: u64, items: u64, limit: u64) -> u64
    ensures { result ≡ min (head + items) limit }
{
    head.saturating_add(items).min(limit)
}

fn path_within(path: &NodePath, limit: u64) -> u64
    ensures { result ≡ min (16 + sum_by text_size path.now.names + sum_by text_size path.now.subnames) limit }
{
    let names = texts_within(path.names.as_slice(), limit);
    let subnames = texts_within(path.subnames.as_slice(), limit);
    behind(16, names.saturating_add(subnames), limit)
}

fn opaque_within(opaque: &Opaque, limit: u64) -> u64
    ensures { result ≡ min (if nat_le 32 opaque.now.code then 8 + length opaque.now.bytes else 4 + length opaque.now.bytes) limit }
{
    let len = opaque.bytes.as_slice().len() as u64;
    if opaque.code >= 32 {
        behind(8, len, limit)
    } else {
        behind(4, len, limit)
    }
}

#[cycle(measuring)]
fn pairs_within(pairs: &[Pair], limit: u64) -> u64
    ensures { result ≡ min (trees_size (plain_pairs pairs.now)) limit }
{
    let mut total = 0u64;
    for pair in pairs {
        let key = size_within(&pair.key, limit - total);
        let value = size_within(&pair.value, limit - total);
        total = behind(total, key.saturating_add(value), limit);
    }
    total
}

#[cycle(measuring)]
fn items_within(items: &[Variant], limit: u64) -> u64
    ensures { result ≡ min (trees_size (plains items.now)) limit }
{
    let mut total = 0u64;
    for item in items {
        let size = size_within(item, limit - total);
        total = behind(total, size, limit);
    }
    total
}

/// The bytes of the written binary form, or `limit` where they are more. A level whose bytes don't
/// fit into the limit is not entered.
#[cycle(measuring)]
fn size_within(value: &Variant, limit: u64) -> u64
    ensures { result ≡ min (tree_size (plain value.now)) limit }
{
    match value {
        Variant::Nil => behind(4, 0, limit),
        Variant::Bool(_) => behind(8, 0, limit),
        Variant::Int(n) => behind(int_len(*n), 0, limit),
        Variant::Text(text) => behind(4, text_len(text), limit),
        Variant::Name(text) => behind(4, text_len(text), limit),
        Variant::Path(path) => path_within(path, limit),
        Variant::Ints(ints) => behind(4, elements_within(ints.items.len(), 4, limit), limit),
        Variant::Opaque(opaque) => opaque_within(opaque, limit),
        Variant::Dict(pairs) => {
            if limit <= 8 {
                return limit;
            }
            behind(8, pairs_within(pairs.as_slice(), limit - 8), limit)
        }
        Variant::Array(items) => {
            if limit <= 8 {
                return limit;
            }
            behind(8, items_within(items.as_slice(), limit - 8), limit)
        }
        Variant::PackedBytes(bytes) => {
            behind(8, padded_len(bytes.as_slice().len() as u64), limit)
        }
        Variant::PackedInts(run) => {
            let size = if run.wide { 8 } else { 4 };
            behind(8, elements_within(run.items.len(), size, limit), limit)
        }
        Variant::PackedTexts(texts) => behind(8, texts_within(texts.as_slice(), limit), limit),
    }
}

/// The bytes of the written binary form, or 8,388,609 where they are more.
pub fn len_of(value: &Variant) -> u64
    ensures { result ≡ min (value_size value.now) 8388609 }
{
    size_within(value, TOO_LONG)
}

/// The bytes of the written compressed form, or 8,388,609 where they are more.
pub fn small_len_of(value: &Variant) -> u64
    ensures { result ≡ min (small_size value.now) 8388609 }
{
    match value {
        Variant::Bool(_) => 1,
        Variant::Int(n) => 1 + int_bytes(*n),
        _ => size_within(value, TOO_LONG),
    }
}
