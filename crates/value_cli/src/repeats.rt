//! Work on values, repeated so that it can be timed from outside.
ghost use Rattle.std.specs.Prelude.{◌≡◌, ◌≤◌, ◌++◌, length, decimal, codes, IfOk, IsTrue, Some, None, if◌then◌else◌};
ghost use Rattle.std.specs.Str.Lines.{lines};
ghost use Rattle.hex.specs.Hex.{decode_of};
ghost use Rattle.gd_variant.specs.Words.{text_eq};
ghost use Rattle.variant_codec.specs.Written.{written};
ghost use Rattle.gd_variant.specs.Sound.{is_sound};
ghost use Rattle.gd_variant.specs.Tree.{plain};
ghost use Rattle.value_cli.specs.Answers.{AnswersEach, TellsDigits};
ghost use Rattle.value_cli.specs.Works.{GoesOver, StopsRightly, TellsWork, Works};

use crate::answers::{MOST_BYTES, bytes_of, hex_text, long_text};
use byte_fields::CodecStop;
use gd_variant::{Bytes, OutOfMemory, Variant};
use session_text::bad_text;
use std::alloc::Global;
use variant_codec::{decode, encode};

#[derive(Clone, Copy, Debug, Drop, PartialEq, Eq)]
pub enum Work {
    /// The value of the bytes is read.
    Decode,
    /// The value, read once, is written.
    Encode,
    /// The bytes are copied as they are.
    Copy,
}

pub fn work_of(word: &str) -> Option<Work>
    ensures { result ≡ (if text_eq word.now (codes "decode") then Some Work.Decode else if text_eq word.now (codes "encode") then Some Work.Encode else if text_eq word.now (codes "copy") then Some Work.Copy else None) }
{
    if word == "decode" {
        Some(Work::Decode)
    } else if word == "encode" {
        Some(Work::Encode)
    } else if word == "copy" {
        Some(Work::Copy)
    } else {
        None
    }
}

fn decoded(alloc: Global, times: u64, bytes: &[u8]) -> Result<usize, CodecStop>
    requires { length bytes.now ≤ 8388608 }
    ensures over { IfOk result (λ n. GoesOver Work.Decode bytes.now n) }
    ensures bad { StopsRightly bytes.now result }
{
    let (_, mut len) = decode(alloc, bytes)?;
    for _ in 1..times {
        let (_, again) = decode(alloc, bytes)?;
        len = again;
    }
    Ok(len)
}

/// Writes a value so often.
fn written_often(alloc: Global, times: u64, value: &Variant) -> Result<usize, OutOfMemory>
    requires { IsTrue (is_sound value.now) }
    ensures { IfOk result (λ n. n ≡ length (written (plain value.now))) }
{
    let mut form = encode(alloc, value)?;
    for _ in 1..times {
        form = encode(alloc, value)?;
    }
    Ok(form.as_slice().len())
}

fn encoded(alloc: Global, times: u64, bytes: &[u8]) -> Result<usize, CodecStop>
    requires { length bytes.now ≤ 8388608 }
    ensures over { IfOk result (λ n. GoesOver Work.Encode bytes.now n) }
    ensures bad { StopsRightly bytes.now result }
{
    let (value, _) = decode(alloc, bytes)?;
    match written_often(alloc, times, &value) {
        Ok(len) => Ok(len),
        Err(OutOfMemory) => Err(CodecStop::OutOfMemory),
    }
}

/// Copies bytes so often.
fn copied_often(alloc: Global, times: u64, bytes: &[u8]) -> Result<usize, OutOfMemory>
    ensures { IfOk result (λ n. n ≡ length bytes.now) }
{
    let mut copy = Bytes::from_slice(alloc, bytes)?;
    for _ in 1..times {
        copy = Bytes::from_slice(alloc, bytes)?;
    }
    Ok(copy.as_slice().len())
}

/// Works on the bytes so often, and at least once. Answers how many bytes one time goes over.
fn worked(alloc: Global, work: Work, times: u64, bytes: &[u8]) -> Result<usize, CodecStop>
    requires { length bytes.now ≤ 8388608 }
    ensures over { IfOk result (λ n. GoesOver work bytes.now n) }
    ensures bad { StopsRightly bytes.now result }
{
    match work {
        Work::Decode => decoded(alloc, times, bytes),
        Work::Encode => encoded(alloc, times, bytes),
        Work::Copy => match copied_often(alloc, times, bytes) {
            Ok(len) => Ok(len),
            Err(OutOfMemory) => Err(CodecStop::OutOfMemory),
        },
    }
}

/// A line with a number.
fn number_text(alloc: Global, n: usize) -> Result<Bytes, OutOfMemory>
    ensures { IfOk result (λ text. text ≡ decimal n ++ codes "\n") }
{
    let text = format!(in alloc; "{n}\n")?;
    let bytes = Bytes::from_slice(alloc, text.as_str().as_bytes())?;
    Ok(bytes)
}

fn told(alloc: Global, work: Work, times: u64, bytes: &[u8]) -> Result<Bytes, OutOfMemory>
    requires { length bytes.now ≤ 8388608 }
    ensures { IfOk result (λ text. TellsWork work bytes.now text) }
{
    match worked(alloc, work, times, bytes) {
        Ok(len) => {
            let text = number_text(alloc, len)?;
            Ok(text)
        }
        Err(CodecStop::Bad(bad)) => {
            let text = bad_text(alloc, &bad)?;
            Ok(text)
        }
        Err(CodecStop::OutOfMemory) => Err(OutOfMemory),
    }
}

/// What a line of hexadecimal digits is answered once the work was done so often on its bytes.
fn answer(alloc: Global, work: Work, times: u64, digits: &str) -> Result<Bytes, OutOfMemory>
    ensures { IfOk result (λ text. Works work digits.now text) }
{
    match bytes_of(alloc, digits)? {
        Some(bytes) => {
            if bytes.as_slice().len() > MOST_BYTES {
                long_text(alloc)
            } else {
                told(alloc, work, times, bytes.as_slice())
            }
        }
        None => hex_text(alloc),
    }
}

/// What the lines of a text are answered, a line each, once the work was done so often on each.
pub fn repeats(alloc: Global, work: Work, times: u64, text: &str) -> Result<Bytes, OutOfMemory>
    ensures { IfOk result (λ out. AnswersEach (Works work) (lines text.now) out) }
{
    let mut out = Vec::new(alloc);
    for line in text.lines() {
        let told = answer(alloc, work, times, line)?;
        out.extend_from_slice(told.as_slice())?;
    }
    Ok(Bytes::from_vec(out))
}
