//! Cells that are arrays of any length.
ghost use Rattle.std.specs.Prelude.{flat_map, map, OnOk};
ghost use Rattle.serde_json.specs.Data.{Data, array, string as string_of};
ghost use Rattle.serde_json.specs.View.{items_of};
ghost use Rattle.session_text.specs.Json.{int_of, nat_of};
ghost use Rattle.session_text.specs.Tokens.{Adds, tokens_of};

use crate::line::{begin_list, end_list, int, nat, text};
use gd_variant::{OutOfMemory, Text};
use json::Writer;
use std::alloc::Global;

/// What a line tells by one value.
pub trait Cell {
    ghost cell: { Self → Data };

    fn put(&self, alloc: Global, line: &mut Writer) -> Result<(), OutOfMemory>
        ensures { OnOk result (Adds line.old line.new (tokens_of (cell self.now))) };
}

impl Cell for Text {
    ghost cell = { string_of };

    fn put(&self, _alloc: Global, line: &mut Writer) -> Result<(), OutOfMemory> {
        text(self.as_str(), line)
    }
}

impl Cell for i32 {
    ghost cell = { int_of };

    fn put(&self, _alloc: Global, line: &mut Writer) -> Result<(), OutOfMemory> {
        int(*self as i64, line)
    }
}

impl Cell for i64 {
    ghost cell = { int_of };

    fn put(&self, _alloc: Global, line: &mut Writer) -> Result<(), OutOfMemory> {
        int(*self, line)
    }
}

impl Cell for u32 {
    ghost cell = { nat_of };

    fn put(&self, _alloc: Global, line: &mut Writer) -> Result<(), OutOfMemory> {
        nat(*self as u64, line)
    }
}

/// Cells, one behind the other.
fn each<T: Cell>(alloc: Global, items: &[T], line: &mut Writer) -> Result<(), OutOfMemory>
    ensures { OnOk result (Adds line.old line.new (flat_map (λ x. tokens_of (T.cell x)) items.now)) }
{
    for item in items {
        item.put(alloc, line)?;
    }
    Ok(())
}

/// An array.
pub fn list<T: Cell>(alloc: Global, items: &[T], line: &mut Writer) -> Result<(), OutOfMemory>
    ensures { OnOk result (Adds line.old line.new (tokens_of (array (items_of (map T.cell items.now))))) }
{
    begin_list(line)?;
    each(alloc, items, line)?;
    end_list(line)
}
