//! A line as JSON.
ghost use Rattle.serde_json.specs.View.{view};
ghost use Rattle.line_text.specs.Lines.{line_data};
ghost use Rattle.line_text.specs.Reading.{Gives};

use program_edge::{LineStop, LineWhy};
use serde_json::Value;
use std::alloc::Global;

/// The value that `serde_json` reads of a line. What it refuses for another cause than memory is no JSON.
///
/// Of an object it keeps each key once, with the last of its values, and not the order of the keys.
pub fn data_of(alloc: Global, line: &[u8]) -> Result<Value, LineStop>
    ensures { Gives view result (line_data line.now) }
{
    match Value::from_slice(alloc, line) {
        Ok(value) => Ok(value),
        Err(e) => {
            if e.is_memory() {
                Err(LineStop::OutOfMemory)
            } else {
                Err(LineStop::LineBad(LineWhy::Json))
            }
        }
    }
}
