//! Writing a value.
ghost use Rattle.std.specs.Prelude.{◌≡◌, ◌+◌, ◌++◌, ◌/◌, ◌∷◌, [], length, replicate, OnOk, IfOk, true};
ghost use Rattle.std.specs.List.{flat_map};
ghost use Rattle.std.specs.Int.{w8, w16, w32, w64};
ghost use Rattle.byte_fields.specs.Fields.{word};
ghost use Rattle.byte_fields.specs.Complement.{IsWithin, bits_of, half8, half16, half32, half64};
ghost use Rattle.gd_variant.specs.Tree.{plain, plains, plain_pairs, int as int_tree, dict, array, packed_ints};
ghost use Rattle.gd_variant.specs.Sound.{element_size};
ghost use Rattle.variant_codec.specs.Header.{header};
ghost use Rattle.variant_codec.specs.Parts.{padding, path_flags};
ghost use Rattle.variant_codec.specs.Written.{written_padded, written_short, written_long, written_path, written_opaque, written, written_all, written_small_int, written_small};

use byte_fields::{bits8, bits16, bits32, bits64, put_bytes, put_u8, put_u16, put_u32, put_u64};
use gd_variant::{IntRun, NodePath, Opaque, Pair, Text, Variant, bytes_of_element};
use std::alloc::AllocError;

/// A number of four bytes; of a greater one its low 32 bits, which no sound value has.
fn put_count(out: &mut Vec<u8>, count: usize) -> Result<(), AllocError>
    ensures { OnOk result (out.new.items ≡ out.old.items ++ word w32 count) }
{
    put_u32(out, (count % 4294967296) as u32)
}

fn put_header(out: &mut Vec<u8>, code: u8, wide: bool) -> Result<(), AllocError>
    ensures { OnOk result (out.new.items ≡ out.old.items ++ header code wide) }
{
    if wide {
        put_u32(out, code as u32 + 65536)
    } else {
        put_u32(out, code as u32)
    }
}

/// So many zeros as fill up to a multiple of four.
fn put_padding(out: &mut Vec<u8>, len: usize) -> Result<(), AllocError>
    ensures { OnOk result (out.new.items ≡ out.old.items ++ replicate (padding len) 0) }
{
    match len % 4 {
        0 => Ok(()),
        1 => put_bytes(out, &[0, 0, 0]),
        2 => put_bytes(out, &[0, 0]),
        _ => put_bytes(out, &[0]),
    }
}

/// A length, the bytes and their padding.
fn put_padded(out: &mut Vec<u8>, bytes: &[u8]) -> Result<(), AllocError>
    ensures { OnOk result (out.new.items ≡ out.old.items ++ written_padded bytes.now) }
{
    put_count(out, bytes.len())?;
    put_bytes(out, bytes)?;
    put_padding(out, bytes.len())
}

fn put_texts(out: &mut Vec<u8>, texts: &[Text]) -> Result<(), AllocError>
    ensures { OnOk result (out.new.items ≡ out.old.items ++ flat_map written_padded texts.now) }
{
    for text in texts {
        put_padded(out, text.as_str().as_bytes())?;
    }
    Ok(())
}

/// The two's complement of a number in 32 bits; of a greater number the low 32 bits are written,
/// which no sound value has.
fn short_bits(n: i64) -> u64
    ensures { result ≡ bits_of half32 n }
{
    if n < 0 {
        let below = (-(n + 1)) as u64;
        4294967295u64.saturating_sub(below)
    } else {
        n as u64
    }
}

fn put_short(out: &mut Vec<u8>, n: i64) -> Result<(), AllocError>
    ensures { OnOk result (out.new.items ≡ out.old.items ++ written_short n) }
{
    put_count(out, short_bits(n) as usize)
}

fn put_long(out: &mut Vec<u8>, n: i64) -> Result<(), AllocError>
    ensures { OnOk result (out.new.items ≡ out.old.items ++ written_long n) }
{
    put_u64(out, bits64(n))
}

fn put_vector(out: &mut Vec<u8>, items: &[i32]) -> Result<(), AllocError>
    ensures { OnOk result (out.new.items ≡ out.old.items ++ flat_map written_short items.now) }
{
    for item in items {
        put_short(out, *item as i64)?;
    }
    Ok(())
}

fn put_shorts(out: &mut Vec<u8>, items: &[i64]) -> Result<(), AllocError>
    ensures { OnOk result (out.new.items ≡ out.old.items ++ flat_map written_short items.now) }
{
    for item in items {
        put_short(out, *item)?;
    }
    Ok(())
}

fn put_longs(out: &mut Vec<u8>, items: &[i64]) -> Result<(), AllocError>
    ensures { OnOk result (out.new.items ≡ out.old.items ++ flat_map written_long items.now) }
{
    for item in items {
        put_long(out, *item)?;
    }
    Ok(())
}

/// The number of names with bit 31 set, the number of subnames, the flags, the names and the subnames.
fn put_path(out: &mut Vec<u8>, path: &NodePath) -> Result<(), AllocError>
    ensures { OnOk result (out.new.items ≡ out.old.items ++ written_path (path_flags path.now.absolute) path.now.names path.now.subnames) }
{
    put_count(out, 2147483648 + path.names.as_slice().len())?;
    put_count(out, path.subnames.as_slice().len())?;
    put_u32(out, if path.absolute { 1 } else { 0 })?;
    put_texts(out, path.names.as_slice())?;
    put_texts(out, path.subnames.as_slice())
}

/// The bytes of floats; of a packed array the number of its elements in front.
fn put_opaque(out: &mut Vec<u8>, opaque: &Opaque) -> Result<(), AllocError>
    ensures { OnOk result (out.new.items ≡ out.old.items ++ written_opaque opaque.now.code opaque.now.wide opaque.now.bytes) }
{
    let bytes = opaque.bytes.as_slice();
    if opaque.code >= 32 {
        let size = bytes_of_element(opaque.code, opaque.wide);
        let count = if size == 0 { 0 } else { bytes.len() / size };
        put_count(out, count)?;
    }
    put_bytes(out, bytes)
}

fn put_int(out: &mut Vec<u8>, n: i64) -> Result<(), AllocError>
    ensures { OnOk result (out.new.items ≡ out.old.items ++ written (int_tree n)) }
{
    if -2147483648 <= n && n < 2147483648 {
        put_header(out, 2, false)?;
        put_short(out, n)
    } else {
        put_header(out, 2, true)?;
        put_long(out, n)
    }
}

fn put_run(out: &mut Vec<u8>, run: &IntRun) -> Result<(), AllocError>
    ensures { OnOk result (out.new.items ≡ out.old.items ++ written (packed_ints run.now.wide run.now.items)) }
{
    let items = run.items.as_slice();
    if run.wide {
        put_header(out, 31, false)?;
        put_count(out, items.len())?;
        put_longs(out, items)
    } else {
        put_header(out, 30, false)?;
        put_count(out, items.len())?;
        put_shorts(out, items)
    }
}

#[cycle(writing)]
fn put_pairs(pairs: &[Pair], out: &mut Vec<u8>) -> Result<(), AllocError>
    ensures { OnOk result (out.new.items ≡ out.old.items ++ written_all (plain_pairs pairs.now)) }
{
    for pair in pairs {
        put(&pair.key, out)?;
        put(&pair.value, out)?;
    }
    Ok(())
}

#[cycle(writing)]
fn put_items(items: &[Variant], out: &mut Vec<u8>) -> Result<(), AllocError>
    ensures { OnOk result (out.new.items ≡ out.old.items ++ written_all (plains items.now)) }
{
    for item in items {
        put(item, out)?;
    }
    Ok(())
}

#[cycle(writing)]
fn put_dict(pairs: &[Pair], out: &mut Vec<u8>) -> Result<(), AllocError>
    ensures { OnOk result (out.new.items ≡ out.old.items ++ written (dict (plain_pairs pairs.now))) }
{
    put_header(out, 27, false)?;
    put_count(out, pairs.len())?;
    put_pairs(pairs, out)
}

#[cycle(writing)]
fn put_array(items: &[Variant], out: &mut Vec<u8>) -> Result<(), AllocError>
    ensures { OnOk result (out.new.items ≡ out.old.items ++ written (array (plains items.now))) }
{
    put_header(out, 28, false)?;
    put_count(out, items.len())?;
    put_items(items, out)
}

/// Writes the binary form of the value at the end. It recurses as deep as the value nests.
#[cycle(writing)]
pub fn put(value: &Variant, out: &mut Vec<u8>) -> Result<(), AllocError>
    ensures { OnOk result (out.new.items ≡ out.old.items ++ written (plain value.now)) }
{
    match value {
        Variant::Nil => put_header(out, 0, false),
        Variant::Bool(b) => {
            put_header(out, 1, false)?;
            put_u32(out, if *b { 1 } else { 0 })
        }
        Variant::Int(n) => put_int(out, *n),
        Variant::Text(text) => {
            put_header(out, 4, false)?;
            put_padded(out, text.as_str().as_bytes())
        }
        Variant::Name(text) => {
            put_header(out, 21, false)?;
            put_padded(out, text.as_str().as_bytes())
        }
        Variant::Path(path) => {
            put_header(out, 22, false)?;
            put_path(out, path)
        }
        Variant::Ints(ints) => {
            put_header(out, ints.code, false)?;
            put_vector(out, ints.items.as_slice())
        }
        Variant::Opaque(opaque) => {
            put_header(out, opaque.code, opaque.wide)?;
            put_opaque(out, opaque)
        }
        Variant::Dict(pairs) => put_dict(pairs.as_slice(), out),
        Variant::Array(items) => put_array(items.as_slice(), out),
        Variant::PackedBytes(bytes) => {
            put_header(out, 29, false)?;
            put_padded(out, bytes.as_slice())
        }
        Variant::PackedInts(run) => put_run(out, run),
        Variant::PackedTexts(texts) => {
            put_header(out, 34, false)?;
            put_count(out, texts.as_slice().len())?;
            put_texts(out, texts.as_slice())
        }
    }
}

fn put_byte(out: &mut Vec<u8>, byte: u8) -> Result<(), AllocError>
    ensures { OnOk result (out.new.items ≡ out.old.items ++ byte ∷ []) }
{
    put_u8(out, byte)
}

fn put_small8(out: &mut Vec<u8>, n: i64) -> Result<(), AllocError>
    requires { IsWithin half8 n }
    ensures { OnOk result (out.new.items ≡ out.old.items ++ 2 ∷ word w8 (bits_of half8 n)) }
{
    put_byte(out, 2)?;
    put_u8(out, bits8(n))
}

fn put_small16(out: &mut Vec<u8>, n: i64) -> Result<(), AllocError>
    requires { IsWithin half16 n }
    ensures { OnOk result (out.new.items ≡ out.old.items ++ 66 ∷ word w16 (bits_of half16 n)) }
{
    put_byte(out, 66)?;
    put_u16(out, bits16(n))
}

fn put_small32(out: &mut Vec<u8>, n: i64) -> Result<(), AllocError>
    requires { IsWithin half32 n }
    ensures { OnOk result (out.new.items ≡ out.old.items ++ 130 ∷ word w32 (bits_of half32 n)) }
{
    put_byte(out, 130)?;
    put_u32(out, bits32(n))
}

fn put_small64(out: &mut Vec<u8>, n: i64) -> Result<(), AllocError>
    ensures { OnOk result (out.new.items ≡ out.old.items ++ 194 ∷ word w64 (bits_of half64 n)) }
{
    put_byte(out, 194)?;
    put_u64(out, bits64(n))
}

/// A number with the fewest bytes.
fn put_small_int(out: &mut Vec<u8>, n: i64) -> Result<(), AllocError>
    ensures { OnOk result (out.new.items ≡ out.old.items ++ written_small_int n) }
{
    if -128 <= n && n < 128 {
        put_small8(out, n)
    } else if -32768 <= n && n < 32768 {
        put_small16(out, n)
    } else if -2147483648 <= n && n < 2147483648 {
        put_small32(out, n)
    } else {
        put_small64(out, n)
    }
}

/// Writes the compressed form of the value at the end. It recurses as deep as the value nests.
pub fn put_small(value: &Variant, out: &mut Vec<u8>) -> Result<(), AllocError>
    ensures { OnOk result (out.new.items ≡ out.old.items ++ written_small (plain value.now)) }
{
    match value {
        Variant::Bool(false) => put_byte(out, 1),
        Variant::Bool(true) => put_byte(out, 129),
        Variant::Int(n) => put_small_int(out, *n),
        _ => put(value, out),
    }
}
