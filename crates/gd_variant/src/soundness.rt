//! Which values can be written and read back.
ghost use Rattle.std.specs.Prelude.{◌≡◌, ◌&&◌, ◌*◌, ◌<◌, ◌^◌, not, nat_eq, nat_lt, nat_le, length, if◌then◌else◌};
ghost use Rattle.std.specs.List.{list_all};
ghost use Rattle.gd_variant.specs.Tree.{Tree, plain, plains, plain_pairs, tree_eq};
ghost use Rattle.gd_variant.specs.Sound.{is_text, is_short, is_long, ints_count, component_size, components, at_or, element_size, may_be_wide, is_multiple, fixed_size_right, opaque_right, is_new_key, keys_distinct, is_right, are_right, is_sound};

use crate::equality::same;
use crate::length::len_of;
use crate::nesting::depth;
use crate::text::Text;
use crate::value::{IntRun, IntsOf, NodePath, Opaque, Pair, Variant};

/// A text is UTF-8 without a zero byte by its type.
fn is_whole_text(text: &Text) -> bool
    ensures { result ≡ is_text text.now }
{
    let _text = text.as_str();
    true
}

fn are_whole_texts(texts: &[Text]) -> bool
    ensures { result ≡ list_all is_text texts.now }
{
    for text in texts {
        if !is_whole_text(text) {
            return false;
        }
    }
    true
}

fn are_i32(items: &[i32]) -> bool
    ensures { result ≡ list_all is_short items.now }
{
    items
        .iter()
        .all(|item| -2147483648 <= *item && *item <= 2147483647)
}

fn are_short(items: &[i64]) -> bool
    ensures { result ≡ list_all is_short items.now }
{
    items
        .iter()
        .all(|item| -2147483648 <= *item && *item <= 2147483647)
}

fn are_long(items: &[i64]) -> bool
    ensures { result ≡ list_all is_long items.now }
{
    items.iter().all(|item| -9223372036854775808 <= *item && *item <= 9223372036854775807)
}

/// How many numbers an integer vector of this code has; 0 for no such code.
pub fn ints_of_code(code: u8) -> usize
    ensures { result ≡ ints_count code }
{
    match code {
        6 => 2,
        8 => 4,
        10 => 3,
        13 => 4,
        _ => 0,
    }
}

/// How many components a float-bearing value of this code has; 0 for no such code.
pub fn components_of_code(code: u8) -> usize
    ensures { result ≡ at_or code components }
{
    match code {
        3 => 1,
        5 => 2,
        7 => 4,
        9 => 3,
        11 => 6,
        12 => 4,
        14 => 4,
        15 => 4,
        16 => 6,
        17 => 9,
        18 => 12,
        19 => 16,
        20 => 4,
        _ => 0,
    }
}

/// The bytes of a component: 4, or 8 where it is wide.
pub fn bytes_of_component(wide: bool) -> usize
    ensures { result ≡ component_size wide }
{
    if wide { 8 } else { 4 }
}

/// The bytes of an element of a packed array of this code; 0 for no such code.
pub fn bytes_of_element(code: u8, wide: bool) -> usize
    ensures { result ≡ element_size code wide }
{
    match code {
        32 => 4,
        33 => 8,
        35 => 2 * bytes_of_component(wide),
        36 => 3 * bytes_of_component(wide),
        37 => 16,
        38 => 4 * bytes_of_component(wide),
        _ => 0,
    }
}

/// Whether the components of this code may be wide.
pub fn code_may_be_wide(code: u8) -> bool
    ensures { result ≡ may_be_wide code }
{
    matches!(
        code,
        3 | 5 | 7 | 9 | 11 | 12 | 14 | 15 | 16 | 17 | 18 | 19 | 35 | 36 | 38
    )
}

fn is_right_path(path: &NodePath) -> bool
    ensures { result ≡ (list_all is_text path.now.names && list_all is_text path.now.subnames && nat_lt (length path.now.names) (2 ^ 31)) }
{
    are_whole_texts(path.names.as_slice())
        && are_whole_texts(path.subnames.as_slice())
        && path.names.len() < 2147483648
}

fn are_right_ints(ints: &IntsOf) -> bool
    ensures { result ≡ (not (nat_eq (ints_count ints.now.code) 0) && nat_eq (length ints.now.items) (ints_count ints.now.code) && list_all is_short ints.now.items) }
{
    let count = ints_of_code(ints.code);
    count != 0 && ints.items.len() == count && are_i32(ints.items.as_slice())
}

fn is_right_size(code: u8, wide: bool, len: usize) -> bool
    ensures { result ≡ opaque_right code wide len }
{
    if wide && !code_may_be_wide(code) {
        return false;
    }
    if code >= 32 {
        let size = bytes_of_element(code, wide);
        size != 0 && len % size == 0 && len / size < 4294967296
    } else {
        let count = components_of_code(code);
        count != 0 && len == count * bytes_of_component(wide)
    }
}

fn is_right_opaque(opaque: &Opaque) -> bool
    ensures { result ≡ opaque_right opaque.now.code opaque.now.wide (length opaque.now.bytes) }
{
    is_right_size(opaque.code, opaque.wide, opaque.bytes.as_slice().len())
}

fn is_right_run(run: &IntRun) -> bool
    ensures { result ≡ if run.now.wide then list_all is_long run.now.items else list_all is_short run.now.items }
{
    if run.wide {
        are_long(run.items.as_slice())
    } else {
        are_short(run.items.as_slice())
    }
}

/// Whether the key is none of the keys of the pairs.
fn is_new(key: &Variant, pairs: &[Pair]) -> bool
    ensures { result ≡ is_new_key (plain key.now) (plain_pairs pairs.now) }
{
    for pair in pairs {
        if same(key, &pair.key) {
            return false;
        }
    }
    true
}

/// Whether no key equals a later one. It takes no memory, so it compares each with each.
fn are_distinct(pairs: &[Pair]) -> bool
    ensures { result ≡ keys_distinct (plain_pairs pairs.now) }
{
    let mut rest = pairs;
    while let Some((pair, later)) = rest.split_first() {
        if !is_new(&pair.key, later) {
            return false;
        }
        rest = later;
    }
    true
}

#[cycle(judging)]
fn are_right_pairs(pairs: &[Pair]) -> bool
    ensures { result ≡ are_right (plain_pairs pairs.now) }
{
    for pair in pairs {
        if !is_right_value(&pair.key) {
            return false;
        }
        if !is_right_value(&pair.value) {
            return false;
        }
    }
    true
}

#[cycle(judging)]
fn are_right_items(items: &[Variant]) -> bool
    ensures { result ≡ are_right (plains items.now) }
{
    for item in items {
        if !is_right_value(item) {
            return false;
        }
    }
    true
}

#[cycle(judging)]
fn is_right_value(value: &Variant) -> bool
    ensures { result ≡ is_right (plain value.now) }
{
    match value {
        Variant::Nil => true,
        Variant::Bool(_) => true,
        Variant::Int(n) => {
            let _n = *n;
            true
        }
        Variant::Text(text) => is_whole_text(text),
        Variant::Name(text) => is_whole_text(text),
        Variant::Path(path) => is_right_path(path),
        Variant::Ints(ints) => are_right_ints(ints),
        Variant::Opaque(opaque) => is_right_opaque(opaque),
        Variant::Dict(pairs) => {
            let pairs = pairs.as_slice();
            if !are_distinct(pairs) {
                return false;
            }
            are_right_pairs(pairs)
        }
        Variant::Array(items) => are_right_items(items.as_slice()),
        Variant::PackedBytes(_) => true,
        Variant::PackedInts(run) => is_right_run(run),
        Variant::PackedTexts(texts) => are_whole_texts(texts.as_slice()),
    }
}

/// Whether the value can be written and read back: it nests at most 32 deep, its written binary form
/// has at most 8,388,608 bytes, the keys of each dictionary differ, and its codes, sizes and numbers
/// are those of its kind. A value that nests deeper is refused before anything inside it is compared.
pub fn is_sound(value: &Variant) -> bool
    ensures { result ≡ is_sound value.now }
{
    if depth(value) > 32 {
        return false;
    }
    if len_of(value) > 8388608 {
        return false;
    }
    is_right_value(value)
}
