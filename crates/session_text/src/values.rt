//! Values in lines.
ghost use Rattle.std.specs.Prelude.{◌≡◌, codes, flat_map, OnOk};
ghost use Rattle.serde_json.specs.Data.{array, item, no_items, string as string_of};
ghost use Rattle.session_text.specs.Json.{hex_of, tagged_of};
ghost use Rattle.session_text.specs.Tokens.{Adds, tokens_of};
ghost use Rattle.session_text.specs.Values.{ints_of, opaque_of, opaque_parts, pair_of, pairs_of, path_of, path_parts, run_name, texts_of, value_of, values_of, vector_of, vector_parts};

use crate::cells::list;
use crate::line::{
    begin_list, begin_tagged, end_list, end_tagged, hexadecimal, int, nat, nothing, text, truth,
};
use gd_variant::{
    Bytes, IntRun, IntsOf, NodePath, Opaque, OutOfMemory, Pair, Text, TextRun, Variant,
};
use json::Writer;
use std::alloc::Global;

#[tactic(auto, using(crate::proofs::Told::tagged_told))]
fn name(name: &Text, line: &mut Writer) -> Result<(), OutOfMemory>
    ensures { OnOk result (Adds line.old line.new (tokens_of (tagged_of (codes "name") (string_of name.now)))) }
{
    begin_tagged("name", line)?;
    text(name.as_str(), line)?;
    end_tagged(line)
}

/// Whether a path is absolute, its names, and the names of properties.
#[tactic(auto, using(crate::proofs::Told::three_told))]
fn parts_of_path(alloc: Global, path: &NodePath, line: &mut Writer) -> Result<(), OutOfMemory>
    ensures { OnOk result (Adds line.old line.new (tokens_of (path_parts path.now.absolute path.now.names path.now.subnames))) }
{
    begin_list(line)?;
    truth(path.absolute, line)?;
    list(alloc, path.names.as_slice(), line)?;
    list(alloc, path.subnames.as_slice(), line)?;
    end_list(line)
}

#[tactic(auto, using(crate::proofs::Told::tagged_told))]
fn path(alloc: Global, path: &NodePath, line: &mut Writer) -> Result<(), OutOfMemory>
    ensures { OnOk result (Adds line.old line.new (tokens_of (path_of path.now.absolute path.now.names path.now.subnames))) }
{
    begin_tagged("path", line)?;
    parts_of_path(alloc, path, line)?;
    end_tagged(line)
}

/// The code of an integer vector and its numbers.
#[tactic(auto, using(crate::proofs::Told::two_told))]
fn parts_of_vector(alloc: Global, ints: &IntsOf, line: &mut Writer) -> Result<(), OutOfMemory>
    ensures { OnOk result (Adds line.old line.new (tokens_of (vector_parts ints.now.code ints.now.items))) }
{
    begin_list(line)?;
    nat(ints.code as u64, line)?;
    list(alloc, ints.items.as_slice(), line)?;
    end_list(line)
}

#[tactic(auto, using(crate::proofs::Told::tagged_told))]
fn vector(alloc: Global, ints: &IntsOf, line: &mut Writer) -> Result<(), OutOfMemory>
    ensures { OnOk result (Adds line.old line.new (tokens_of (vector_of ints.now.code ints.now.items))) }
{
    begin_tagged("ints", line)?;
    parts_of_vector(alloc, ints, line)?;
    end_tagged(line)
}

/// The code of a value of floats, whether they have eight bytes, and the bytes.
#[tactic(auto, using(crate::proofs::Told::three_told))]
fn parts_of_opaque(alloc: Global, opaque: &Opaque, line: &mut Writer) -> Result<(), OutOfMemory>
    ensures { OnOk result (Adds line.old line.new (tokens_of (opaque_parts opaque.now.code opaque.now.wide opaque.now.bytes))) }
{
    begin_list(line)?;
    nat(opaque.code as u64, line)?;
    truth(opaque.wide, line)?;
    hexadecimal(alloc, opaque.bytes.as_slice(), line)?;
    end_list(line)
}

#[tactic(auto, using(crate::proofs::Told::tagged_told))]
fn opaque(alloc: Global, opaque: &Opaque, line: &mut Writer) -> Result<(), OutOfMemory>
    ensures { OnOk result (Adds line.old line.new (tokens_of (opaque_of opaque.now.code opaque.now.wide opaque.now.bytes))) }
{
    begin_tagged("raw", line)?;
    parts_of_opaque(alloc, opaque, line)?;
    end_tagged(line)
}

#[tactic(auto, using(crate::proofs::Told::tagged_told))]
fn packed_bytes(alloc: Global, bytes: &Bytes, line: &mut Writer) -> Result<(), OutOfMemory>
    ensures { OnOk result (Adds line.old line.new (tokens_of (tagged_of (codes "bytes") (hex_of bytes.now)))) }
{
    begin_tagged("bytes", line)?;
    hexadecimal(alloc, bytes.as_slice(), line)?;
    end_tagged(line)
}

/// The key of an array of numbers.
fn run_key(wide: bool) -> &'static str
    ensures { result.now ≡ run_name wide }
{
    if wide { "i64" } else { "i32" }
}

#[tactic(auto, using(crate::proofs::Told::tagged_told))]
fn packed_ints(alloc: Global, run: &IntRun, line: &mut Writer) -> Result<(), OutOfMemory>
    ensures { OnOk result (Adds line.old line.new (tokens_of (tagged_of (run_name run.now.wide) (ints_of run.now.items)))) }
{
    begin_tagged(run_key(run.wide), line)?;
    list(alloc, run.items.as_slice(), line)?;
    end_tagged(line)
}

#[tactic(auto, using(crate::proofs::Told::tagged_told))]
fn packed_texts(alloc: Global, texts: &TextRun, line: &mut Writer) -> Result<(), OutOfMemory>
    ensures { OnOk result (Adds line.old line.new (tokens_of (tagged_of (codes "texts") (texts_of texts.now)))) }
{
    begin_tagged("texts", line)?;
    list(alloc, texts.as_slice(), line)?;
    end_tagged(line)
}

/// A key and its value.
#[cycle(writing)]
#[tactic(auto, using(crate::proofs::Told::two_told))]
fn pair(pair: &Pair, alloc: Global, line: &mut Writer) -> Result<(), OutOfMemory>
    ensures { OnOk result (Adds line.old line.new (tokens_of (pair_of pair.now))) }
{
    begin_list(line)?;
    value(&pair.key, alloc, line)?;
    value(&pair.value, alloc, line)?;
    end_list(line)
}

/// The pairs of a dictionary, one behind the other.
#[cycle(writing)]
fn each_pair(pairs: &[Pair], alloc: Global, line: &mut Writer) -> Result<(), OutOfMemory>
    ensures { OnOk result (Adds line.old line.new (flat_map (λ p. tokens_of (pair_of p)) pairs.now)) }
{
    for entry in pairs {
        pair(entry, alloc, line)?;
    }
    Ok(())
}

/// An array of pairs.
#[cycle(writing)]
fn pairs(pairs: &[Pair], alloc: Global, line: &mut Writer) -> Result<(), OutOfMemory>
    ensures { OnOk result (Adds line.old line.new (tokens_of (pairs_of pairs.now))) }
{
    begin_list(line)?;
    each_pair(pairs, alloc, line)?;
    end_list(line)
}

#[cycle(writing)]
#[tactic(auto, using(crate::proofs::Told::tagged_told))]
fn dictionary(entries: &[Pair], alloc: Global, line: &mut Writer) -> Result<(), OutOfMemory>
    ensures { OnOk result (Adds line.old line.new (tokens_of (tagged_of (codes "dict") (pairs_of entries.now)))) }
{
    begin_tagged("dict", line)?;
    pairs(entries, alloc, line)?;
    end_tagged(line)
}

/// Values, one behind the other.
#[cycle(writing)]
fn each_value(values: &[Variant], alloc: Global, line: &mut Writer) -> Result<(), OutOfMemory>
    ensures { OnOk result (Adds line.old line.new (flat_map (λ v. tokens_of (value_of v)) values.now)) }
{
    for item in values {
        value(item, alloc, line)?;
    }
    Ok(())
}

/// An array of values.
#[cycle(writing)]
pub fn values(values: &[Variant], alloc: Global, line: &mut Writer) -> Result<(), OutOfMemory>
    ensures { OnOk result (Adds line.old line.new (tokens_of (values_of values.now))) }
{
    begin_list(line)?;
    each_value(values, alloc, line)?;
    end_list(line)
}

/// A value as it stands in a line.
#[cycle(writing)]
pub fn value(value: &Variant, alloc: Global, line: &mut Writer) -> Result<(), OutOfMemory>
    ensures { OnOk result (Adds line.old line.new (tokens_of (value_of value.now))) }
{
    match value {
        Variant::Nil => nothing(line),
        Variant::Bool(b) => truth(*b, line),
        Variant::Int(n) => int(*n, line),
        Variant::Text(words) => text(words.as_str(), line),
        Variant::Name(words) => name(words, line),
        Variant::Path(parts) => path(alloc, parts, line),
        Variant::Ints(parts) => vector(alloc, parts, line),
        Variant::Opaque(parts) => opaque(alloc, parts, line),
        Variant::Dict(entries) => dictionary(entries.as_slice(), alloc, line),
        Variant::Array(items) => values(items.as_slice(), alloc, line),
        Variant::PackedBytes(bytes) => packed_bytes(alloc, bytes, line),
        Variant::PackedInts(run) => packed_ints(alloc, run, line),
        Variant::PackedTexts(texts) => packed_texts(alloc, texts, line),
    }
}
