//! What a line of hexadecimal digits is answered.
ghost use Rattle.std.specs.Prelude.{◌≡◌, ◌≤◌, length, MatchOption, IfOk, codes, false};
ghost use Rattle.std.specs.Result.{is_ok};
ghost use Rattle.std.specs.Str.Lines.{lines};
ghost use Rattle.hex.specs.Hex.{decode_of};
ghost use Rattle.value_cli.specs.Answers.{Answers, AnswersEach, TellsBinary, TellsDigits, TellsSmall, hex_line, long_line};

use byte_fields::CodecStop;
use gd_variant::{Bad, Bytes, OutOfMemory, Why};
use session_text::{bad_text, decoded_text};
use std::alloc::Global;
use variant_codec::{decode, decode_small, encode, encode_small};

/// The most bytes that a value has.
pub const MOST_BYTES: usize = 8_388_608;

/// In front of the digits of a compressed form.
const SMALL: &str = "small ";

/// The bytes of hexadecimal digits; none where they aren't an even number of them.
pub fn bytes_of(alloc: Global, digits: &str) -> Result<Option<Bytes>, OutOfMemory>
    ensures { IfOk result (λ o. MatchOption o (is_ok (decode_of digits.now) ≡ false) (λ b. decode_of digits.now ≡ Ok b)) }
{
    match hex::decode(alloc, digits) {
        Ok(bytes) => Ok(Some(Bytes::from_vec(bytes))),
        Err(hex::FromHexError::OutOfMemory) => Err(OutOfMemory),
        Err(_) => Ok(None),
    }
}

/// The line of a line that isn't hexadecimal.
pub fn hex_text(alloc: Global) -> Result<Bytes, OutOfMemory>
    ensures { IfOk result (λ text. text ≡ hex_line) }
{
    Bytes::from_slice(alloc, b"[\"bad\",0,\"Hex\"]\n")
}

/// The line of more bytes than a value has.
pub fn long_text(alloc: Global) -> Result<Bytes, OutOfMemory>
    ensures { IfOk result (λ text. text ≡ long_line) }
{
    let bad = Bad {
        at: 0,
        why: Why::TooLong,
    };
    bad_text(alloc, &bad)
}

/// The value whose binary form is at the front, and what is written for it; or the first wrong field.
fn told(alloc: Global, bytes: &[u8]) -> Result<Bytes, OutOfMemory>
    requires { length bytes.now ≤ 8388608 }
    ensures { IfOk result (λ text. TellsBinary bytes.now text) }
{
    match decode(alloc, bytes) {
        Ok((value, len)) => {
            let form = encode(alloc, &value)?;
            let text = decoded_text(alloc, len, &value, form.as_slice())?;
            Ok(text)
        }
        Err(CodecStop::Bad(bad)) => {
            let text = bad_text(alloc, &bad)?;
            Ok(text)
        }
        Err(CodecStop::OutOfMemory) => Err(OutOfMemory),
    }
}

/// The same of a compressed form.
fn told_small(alloc: Global, bytes: &[u8]) -> Result<Bytes, OutOfMemory>
    requires { length bytes.now ≤ 8388608 }
    ensures { IfOk result (λ text. TellsSmall bytes.now text) }
{
    match decode_small(alloc, bytes) {
        Ok((value, len)) => {
            let form = encode_small(alloc, &value)?;
            let text = decoded_text(alloc, len, &value, form.as_slice())?;
            Ok(text)
        }
        Err(CodecStop::Bad(bad)) => {
            let text = bad_text(alloc, &bad)?;
            Ok(text)
        }
        Err(CodecStop::OutOfMemory) => Err(OutOfMemory),
    }
}

fn answer_binary(alloc: Global, digits: &str) -> Result<Bytes, OutOfMemory>
    ensures { IfOk result (λ text. TellsDigits TellsBinary (decode_of digits.now) text) }
{
    match bytes_of(alloc, digits)? {
        Some(bytes) => {
            if bytes.as_slice().len() > MOST_BYTES {
                long_text(alloc)
            } else {
                told(alloc, bytes.as_slice())
            }
        }
        None => hex_text(alloc),
    }
}

fn answer_small(alloc: Global, digits: &str) -> Result<Bytes, OutOfMemory>
    ensures { IfOk result (λ text. TellsDigits TellsSmall (decode_of digits.now) text) }
{
    match bytes_of(alloc, digits)? {
        Some(bytes) => {
            if bytes.as_slice().len() > MOST_BYTES {
                long_text(alloc)
            } else {
                told_small(alloc, bytes.as_slice())
            }
        }
        None => hex_text(alloc),
    }
}

/// What a line is answered: digits of a binary form, or behind the word `small` those of a compressed form.
fn answer(alloc: Global, line: &str) -> Result<Bytes, OutOfMemory>
    ensures { IfOk result (λ text. Answers line.now text) }
{
    match line.strip_prefix(SMALL) {
        Some(digits) => answer_small(alloc, digits),
        None => answer_binary(alloc, line),
    }
}

/// What the lines of a text are answered, a line each.
pub fn answers(alloc: Global, text: &str) -> Result<Bytes, OutOfMemory>
    ensures { IfOk result (λ out. AnswersEach Answers (lines text.now) out) }
{
    let mut out = Vec::new(alloc);
    for line in text.lines() {
        let told = answer(alloc, line)?;
        out.extend_from_slice(told.as_slice())?;
    }
    Ok(Bytes::from_vec(out))
}
