//! One line of compact JSON, and the cells that hold nothing else.
//!
//! A line is written straight behind the bytes before it, a token at a time: the writer puts the commas
//! and escapes the texts.
ghost use Rattle.std.specs.Prelude.{◌≡◌, ◌++◌, [], ◌∷◌, List, IfOk, OnOk};
ghost use Rattle.json.specs.Token.{begin_array, begin_object, end_array, end_object, key as key_token};
ghost use Rattle.serde_json.specs.Data.{Data, boolean, null, string as string_of};
ghost use Rattle.session_text.specs.Json.{hex_of, int_of, line_of, nat_of};
ghost use Rattle.session_text.specs.Tokens.{Adds, more, tokens_of};

use gd_variant::OutOfMemory;
use json::Writer;
use std::alloc::Global;
use std::mem;

/// Begins a line behind what `out` holds. The line has those bytes until it ends.
pub fn begin(alloc: Global, out: &mut Vec<u8>) -> Result<Writer, OutOfMemory>
    ensures before { IfOk result (λ line. line.before ≡ out.old.items) }
    ensures tokens { IfOk result (λ line. line.tokens ≡ begin_array ∷ []) }
{
    let mut line = Writer::new(mem::replace(out, Vec::new(alloc)));
    line.begin_array()?;
    Ok(line)
}

/// Ends a line: `out` has it behind the bytes before it.
pub fn end(line: Writer, out: &mut Vec<u8>) -> Result<(), OutOfMemory>
    ensures { (cells : List Data) → line.tokens ≡ more (begin_array ∷ []) cells
        → OnOk result (out.new.items ≡ line.before ++ line_of cells) }
{
    let mut line = line;
    line.end_array()?;
    let mut text = line.into_inner();
    text.push(b'\n')?;
    *out = text;
    Ok(())
}

/// A text.
#[tactic(auto, unfolding(crate::specs::Tokens::tokens_of))]
pub fn text(text: &str, line: &mut Writer) -> Result<(), OutOfMemory>
    ensures { OnOk result (Adds line.old line.new (tokens_of (string_of text.now))) }
{
    line.string(text)?;
    Ok(())
}

/// Bytes as a text of lower-case hexadecimal digits.
#[tactic(auto, unfolding(crate::specs::Tokens::tokens_of))]
pub fn hexadecimal(alloc: Global, bytes: &[u8], line: &mut Writer) -> Result<(), OutOfMemory>
    ensures { OnOk result (Adds line.old line.new (tokens_of (hex_of bytes.now))) }
{
    let digits = hex::encode(alloc, bytes)?;
    line.string(digits.as_str())?;
    Ok(())
}

/// A number with a sign.
pub fn int(n: i64, line: &mut Writer) -> Result<(), OutOfMemory>
    ensures { OnOk result (Adds line.old line.new (tokens_of (int_of n))) }
{
    line.i64(n)?;
    Ok(())
}

/// A number without a sign.
#[tactic(auto, unfolding(crate::specs::Tokens::tokens_of))]
pub fn nat(n: u64, line: &mut Writer) -> Result<(), OutOfMemory>
    ensures { OnOk result (Adds line.old line.new (tokens_of (nat_of n))) }
{
    line.u64(n)?;
    Ok(())
}

/// A truth value.
#[tactic(auto, unfolding(crate::specs::Tokens::tokens_of))]
pub fn truth(b: bool, line: &mut Writer) -> Result<(), OutOfMemory>
    ensures { OnOk result (Adds line.old line.new (tokens_of (boolean b))) }
{
    line.boolean(b)?;
    Ok(())
}

/// Begins an array, whose items come next.
pub fn begin_list(line: &mut Writer) -> Result<(), OutOfMemory>
    ensures { OnOk result (Adds line.old line.new (begin_array ∷ [])) }
{
    line.begin_array()?;
    Ok(())
}

/// Ends an array.
pub fn end_list(line: &mut Writer) -> Result<(), OutOfMemory>
    ensures { OnOk result (Adds line.old line.new (end_array ∷ [])) }
{
    line.end_array()?;
    Ok(())
}

/// Begins an object with one key, whose value comes next.
pub fn begin_tagged(key: &str, line: &mut Writer) -> Result<(), OutOfMemory>
    ensures { OnOk result (Adds line.old line.new (begin_object ∷ key_token key.now ∷ [])) }
{
    line.begin_object()?;
    line.key(key)?;
    Ok(())
}

/// Ends an object.
pub fn end_tagged(line: &mut Writer) -> Result<(), OutOfMemory>
    ensures { OnOk result (Adds line.old line.new (end_object ∷ [])) }
{
    line.end_object()?;
    Ok(())
}

/// Nothing.
#[tactic(auto, unfolding(crate::specs::Tokens::tokens_of))]
pub fn nothing(line: &mut Writer) -> Result<(), OutOfMemory>
    ensures { OnOk result (Adds line.old line.new (tokens_of null)) }
{
    line.null()?;
    Ok(())
}
